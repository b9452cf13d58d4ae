//! Commands that are written as lines.

use crate::line_rows::rewritten;
use bench_script::parse_line;
use std::alloc::Global;
use std::process::Abort;
use std::test::Fail;

/// Whether two lines spell the same command.
fn spell_the_same(alloc: Global, one: &str, other: &str) -> Result<bool, Fail> {
    let command = parse_line(alloc, one.as_bytes())?;
    Ok(parse_line(alloc, other.as_bytes())? == command)
}

/// Both lines spell the same command, which is written as the upper one.
fn is_read_and_written(
    rt: &impl Abort,
    alloc: Global,
    lower: &str,
    upper: &str,
) -> Result<(), Fail> {
    for line in [lower, upper] {
        assert_eq!(rt;
            rewritten(alloc, line)?,
            format!(in alloc; ">{upper}")?,
            "{line}"
        );
    }
    assert!(rt; spell_the_same(alloc, lower, upper)?, "{lower}");
    Ok(())
}

#[test]
fn digits_of_either_case_are_written_in_upper_case(rt: HostRuntime) -> Result<(), Fail> {
    const ROWS: [(&str, &str); 18] = [
        ("# find", ""),
        ("fates P", "fates P"),
        ("fates PDLBBLDP", "fates PDLBBLDP"),
        ("place t2 0a0b0c0d 16 00e110", "place t2 0A0B0C0D 16 00E110"),
        (
            "place t2 04a12233b45566 256 -",
            "place t2 04A12233B45566 256 -",
        ),
        (
            "place t4 0a010203 8 000f20003b000d0406e10400200000 0003d00000",
            "place t4 0A010203 8 000F20003B000D0406E10400200000 0003D00000",
        ),
        (
            "place t4 0102030405060708090a 0 - -",
            "place t4 0102030405060708090A 0 - -",
        ),
        (
            "place t5 e00401020304050f 1 32 e1400f00",
            "place t5 E00401020304050F 1 32 E1400F00",
        ),
        ("lock 0a010203 65535", "lock 0A010203 65535"),
        ("lock e00401020304050f 0", "lock E00401020304050F 0"),
        ("busy 0a010203 0 59", "busy 0A010203 0 59"),
        ("remove 0a010203", "remove 0A010203"),
        ("dump e00401020304050f", "dump E00401020304050F"),
        ("find", "find"),
        ("read 0a010203", "read 0A010203"),
        ("write 0a010203 -", "write 0A010203 -"),
        ("write 0a010203 d00f", "write 0A010203 D00F"),
        (
            "write e00401020304050f gen:65536:255",
            "write E00401020304050F gen:65536:255",
        ),
    ];
    for &(lower, upper) in &ROWS {
        is_read_and_written(&rt, rt.alloc(), lower, upper)?;
    }
    Ok(())
}
