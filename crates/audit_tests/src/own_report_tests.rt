//! That the report of a bench is one that its script may have.

use bench_script::parse_line;
use bench_world::{Bench, render};
use std::alloc::Global;
use std::process::Abort;
use std::test::Fail;
use trace_audit::{Verdict, audit};

/// How many lines a script of these tests may have.
const MOST_LINES: u32 = 100;

/// How many bytes the texts of these tests have at most.
const MOST_BYTES: usize = 100_000;

/// Tags of two types and a peer are found, through noise.
const FIND: [&str; 6] = [
    "place t2 01020304 16 000000000000000000000000E11006000303D00000FE",
    "place t5 E004010203040506 4 32 E1400F000303D00000FE",
    "place peer 08010203 3 128 1 1024",
    "fates PPDPLP",
    "find",
    "crowd",
];

/// A Type 3 tag is sought and read.
const TYPE_3: [&str; 3] = [
    "place t3 0102030405060708 14 100401000D0000000000010000030026D00000",
    "poll3",
    "read3 0102030405060708",
];

/// Several clients put a message each, and a payload is cut off.
const LINKED: [&str; 7] = [
    "place peer 08010203 0 2175 15 1024",
    "link 08010203 2175 15",
    "puts 0:D0 1:D1 2:D2",
    "fates PPB",
    "puts 0:gen:60:0 1:gen:60:1 2:gen:60:2",
    "# nothing",
    "inbox 08010203",
];

/// Frames are sent as they are, and a tag refuses a write.
const BY_HAND: [&str; 4] = [
    "place t2 01020304 16 000000000000000000000000E11006000303D00000FE",
    "raw 01020304 3004 26/7",
    "lock 01020304 4",
    "write 01020304 D1",
];

/// The text of a script, and what a bench reports that obeys it.
fn reported(rt: &impl Abort, alloc: Global, lines: &[&str]) -> Result<(Vec<u8>, Vec<u8>), Fail> {
    let mut bench = Bench::new(alloc);
    let mut script = Vec::new(alloc);
    let mut report = Vec::new(alloc);
    for (line, &text) in (1..=MOST_LINES).zip(lines) {
        script.extend_from_slice(text.as_bytes())?;
        script.push(b'\n')?;
        let command = parse_line(alloc, text.as_bytes())?;
        assert_eq!(rt; bench.obey(line, &command), Ok(()), "at {text}");
    }
    for entry in bench.journal() {
        report.extend_from_slice(&render(alloc, entry, false)?)?;
    }
    Ok((script, report))
}

fn is_legal(alloc: Global, script: &[u8], report: &[u8]) -> bool {
    if script.len() > MOST_BYTES || report.len() > MOST_BYTES {
        return false;
    }
    let mut bench = Bench::new(alloc);
    matches!(audit(alloc, script, report, &mut bench), Ok(Verdict::Legal))
}

#[test]
fn the_report_of_a_bench_is_legal(rt: HostRuntime) -> Result<(), Fail> {
    const SCRIPTS: [&[&str]; 4] = [&FIND, &TYPE_3, &LINKED, &BY_HAND];
    let alloc = rt.alloc();
    for &lines in &SCRIPTS {
        let (script, report) = reported(&rt, alloc, lines)?;
        assert!(rt; is_legal(alloc, &script, &report));
    }
    Ok(())
}
