//! The lines of tags and of the field: which of them are taken, what they spell, and how that is written.

use crate::line_rows::{faults, spell};
use bench_script::parse_line;
use std::alloc::Global;
use std::test::Fail;

/// Lines, and the number of the fault of each, 0 of one that is taken.
type Lines = &'static [(&'static str, u8)];

const SKIPPED: Lines = &[
    ("", 0),
    ("#", 0),
    ("# a comment\r \u{7f}", 0),
    (" #", 1),
    (" ", 1),
];

const READS: Lines = &[
    ("read 01020304", 0),
    ("read 0a0B0c0D0e0F10", 0),
    ("read 00010203040506070809", 0),
    ("read", 1),
    ("read ", 1),
    ("read -", 1),
    ("read  01020304", 1),
    (" read 01020304", 1),
    ("read 01020304 ", 1),
    ("read 01020304\r", 1),
    ("read 0102030", 1),
    ("read 0102030G", 1),
    ("read 0102030405", 1),
    ("read 0102030405060708", 0),
    ("read E00401020304050", 1),
    ("read E0040102030405060", 1),
    ("read 88020304", 1),
    ("read 01020388050607", 1),
];

const CROWDS: Lines = &[("crowd", 0), ("crowd ", 1), ("crowd x", 1), ("Crowd", 1)];

const PLACES_T2: Lines = &[
    ("place t2 01020304 4 -", 0),
    ("place t2 01020304 256 00E1", 0),
    ("place t2 E004010203040506 16 -", 1),
    ("place t2 01020304 3 -", 1),
    ("place t2 01020304 257 -", 1),
    ("place t2 01020304 65540 -", 1),
    ("place t2 01020304 016 -", 1),
    ("place t2 01020304 +16 -", 1),
    ("place t2 01020304 16", 1),
    ("place t2 01020304 16 ", 1),
    ("place t2 01020304 16 000", 1),
    ("place t2 01020304 16 - -", 1),
];

const PLACES_T3: Lines = &[
    ("place t3 0102030405060708 1 -", 0),
    ("place t3 0a0b0c0d0e0f1011 256 D00000", 0),
    ("place t3 0102030405060708 0 -", 1),
    ("place t3 0102030405060708 257 -", 1),
    ("place t3 0102030405060708 01 -", 1),
    ("place t3 01020304 1 -", 1),
    ("place t3 01020304050607 1 -", 1),
    ("place t3 00010203040506070809 1 -", 1),
    ("place t3 0102030405060708 1", 1),
    ("place t3 0102030405060708 1 0", 1),
    ("place t3 0102030405060708 1 - -", 1),
];

const TYPE_3: Lines = &[
    ("poll3", 0),
    ("poll3 ", 1),
    ("poll3 x", 1),
    ("Poll3", 1),
    ("read3 0102030405060708", 0),
    ("read3", 1),
    ("read3 01020304", 1),
    ("read3 010203040506070809", 1),
    ("read3 0102030405060708 1", 1),
];

const PLACES_T5: Lines = &[
    ("place t5 E004010203040506 1 4 -", 0),
    ("place t5 e004010203040506 256 32 00", 0),
    ("place t5 E004010203040506 0 4 -", 1),
    ("place t5 E004010203040506 16384 4 -", 0),
    ("place t5 E004010203040506 16385 4 -", 1),
    ("place t5 E004010203040506 4 5 -", 1),
    ("place t5 E004010203040506 4 04 -", 1),
    ("place t5 E004010203040506 4 260 -", 1),
    ("place t5 E0040102030405 4 4 -", 1),
    ("place t5 E004010203040506 4 4", 1),
    ("place t5 E004010203040506 4 4 - -", 1),
];

const PLACES_T4: Lines = &[
    ("place t4 01020304 0 - -", 0),
    ("place t4 01020304 8 000F20003B000D0406E10400200000 -", 0),
    ("place t4 04112233445566 8 00 0003D00000", 0),
    ("place t4 01020304 9 - -", 1),
    ("place t4 01020304 264 - -", 1),
    ("place t4 01020304 08 - -", 1),
    ("place t4 01020304 - - -", 1),
    ("place t4 01020304 8 0 -", 1),
    ("place t4 01020304 8 - 0", 1),
    ("place t4 E004010203040506 8 - -", 1),
    ("place t4 01020304 8 -", 1),
    ("place t4 01020304 8 - - -", 1),
    ("place t4 01020304 16 -", 1),
    ("place t6 01020304 8 - -", 1),
];

const FATES: Lines = &[
    ("fates P", 0),
    ("fates PDLBBLDP", 0),
    ("fates", 1),
    ("fates ", 1),
    ("fates -", 1),
    ("fates p", 1),
    ("fates PPl", 1),
    ("fates PXP", 1),
    ("fates P P", 1),
    ("fates P ", 1),
    ("Fates P", 1),
];

const REMOVALS: Lines = &[
    ("remove 01020304", 0),
    ("remove 04112233445566", 0),
    ("remove 00010203040506070809", 0),
    ("remove e004010203040506", 0),
    ("remove", 1),
    ("remove ", 1),
    ("remove -", 1),
    ("remove 0102030405", 1),
    ("remove 88020304", 1),
    ("remove 0102030G", 1),
    ("remove t2 01020304", 1),
];

const LOCKS: Lines = &[
    ("lock 01020304 0", 0),
    ("lock 04112233445566 65535", 0),
    ("lock e004010203040506 255", 0),
    ("lock 01020304 65536", 1),
    ("lock 01020304 04", 1),
    ("lock 01020304 +4", 1),
    ("lock 01020304 -", 1),
    ("lock 01020304 ", 1),
    ("lock 01020304", 1),
    ("lock 0102030405 4", 1),
    ("lock 4 01020304", 1),
    ("lock 01020304 4 4", 1),
];

const BUSY: Lines = &[
    ("busy 01020304 0 1", 0),
    ("busy e004010203040506 5 59", 0),
    ("busy 01020304 6 1", 1),
    ("busy 01020304 5 0", 1),
    ("busy 01020304 5 60", 1),
    ("busy 01020304 256 1", 1),
    ("busy 01020304 5 257", 1),
    ("busy 01020304 05 1", 1),
    ("busy 01020304 5 01", 1),
    ("busy 01020304 - 1", 1),
    ("busy 01020304 5", 1),
    ("busy 01020304 5 1 1", 1),
    ("busy 0102030405 5 1", 1),
    ("busy 5 1 01020304", 1),
    ("busy", 1),
];

const DUMPS: Lines = &[
    ("dump 01020304", 0),
    ("dump E004010203040506", 0),
    ("dump", 1),
    ("dump ", 1),
    ("dump -", 1),
    ("dump 0102030405", 1),
    ("dump 01020304 4", 1),
];

const FINDS: Lines = &[
    ("find", 0),
    ("find ", 1),
    (" find", 1),
    ("find 01020304", 1),
    ("Find", 1),
];

#[test]
fn lines(rt: HostRuntime) {
    let tables = [
        SKIPPED, READS, PLACES_T2, PLACES_T3, PLACES_T5, PLACES_T4, FATES, REMOVALS, LOCKS, BUSY,
        DUMPS, FINDS, CROWDS, TYPE_3,
    ];
    for rows in tables {
        faults(&rt, rt.alloc(), rows);
    }
}

#[test]
fn lines_with_a_message(rt: HostRuntime) {
    const ROWS: [(&str, u8); 27] = [
        ("write 01020304 -", 0),
        ("write e004010203040506 D00000", 0),
        ("write 01020304 gen:0:0", 0),
        ("write 01020304 gen:65536:255", 0),
        ("write 01020304 gen:65537:0", 1),
        ("write 01020304 gen:1:256", 1),
        ("write3 0102030405060708 -", 0),
        ("write3 0102030405060708 gen:208:7", 0),
        ("write3 0102030405060708", 1),
        ("write3 01020304 D0", 1),
        ("write3 0102030405060708 D", 1),
        ("write3 0102030405060708 D0 D0", 1),
        ("write 01020304 gen:01:0", 1),
        ("write 01020304 gen:1:00", 1),
        ("write 01020304 gen:1", 1),
        ("write 01020304 gen::1", 1),
        ("write 01020304 gen:1:", 1),
        ("write 01020304 gen:1:1:1", 1),
        ("write 01020304 gen:4294967297:0", 1),
        ("write 01020304 Gen:1:1", 1),
        ("write 01020304 D0000", 1),
        ("write 01020304 D00000 ", 1),
        ("write 01020304  D00000", 1),
        ("write 01020304 ", 1),
        ("write 01020304", 1),
        ("write D00000 01020304", 1),
        ("write", 1),
    ];
    faults(&rt, rt.alloc(), &ROWS);
}

#[test]
fn values(rt: HostRuntime) -> Result<(), Fail> {
    const ROWS: [(&str, &str, &str); 4] = [
        (
            "fates PDLB",
            "fates PDLB",
            "Fates(Items { owned: [Pass, Damage, Lose, Break] })",
        ),
        (
            "place t4 04112233445566 8 0aFF -",
            "place t4 04112233445566 8 0AFF -",
            "PlaceT4 { id: Ident { bytes: [4, 17, 34, 51, 68, 85, 102] }, code: 8, container: Items { owned: [10, 255] }, head: Items { owned: [] } }",
        ),
        ("find", "find", "Find"),
        ("#find", "", "Skip"),
    ];
    spell(&rt, rt.alloc(), &ROWS)
}

#[test]
fn values_of_devices(rt: HostRuntime) -> Result<(), Fail> {
    const ROWS: [(&str, &str, &str); 5] = [
        (
            "lock 04112233445566 12",
            "lock 04112233445566 12",
            "Lock { id: A(Ident { bytes: [4, 17, 34, 51, 68, 85, 102] }), block: 12 }",
        ),
        (
            "busy 04112233445566 5 12",
            "busy 04112233445566 5 12",
            "Busy { id: A(Ident { bytes: [4, 17, 34, 51, 68, 85, 102] }), count: 5, times: 12 }",
        ),
        (
            "dump E0040102030405fF",
            "dump E0040102030405FF",
            "Dump { id: V([224, 4, 1, 2, 3, 4, 5, 255]) }",
        ),
        (
            "remove 04112233445566",
            "remove 04112233445566",
            "Remove { id: A(Ident { bytes: [4, 17, 34, 51, 68, 85, 102] }) }",
        ),
        (
            "remove E0040102030405FF",
            "remove E0040102030405FF",
            "Remove { id: V([224, 4, 1, 2, 3, 4, 5, 255]) }",
        ),
    ];
    spell(&rt, rt.alloc(), &ROWS)
}

#[test]
fn values_with_a_message(rt: HostRuntime) -> Result<(), Fail> {
    const ROWS: [(&str, &str, &str); 2] = [
        (
            "write 04112233445566 d000",
            "write 04112233445566 D000",
            "Write { id: A(Ident { bytes: [4, 17, 34, 51, 68, 85, 102] }), message: Hex(Items { owned: [208, 0] }) }",
        ),
        (
            "write E0040102030405FF gen:1013:255",
            "write E0040102030405FF gen:1013:255",
            "Write { id: V([224, 4, 1, 2, 3, 4, 5, 255]), message: Gen { count: 1013, start: 255 } }",
        ),
    ];
    spell(&rt, rt.alloc(), &ROWS)
}

/// Whether a line of so many fates is taken.
fn takes_fates(alloc: Global, count: usize) -> Result<bool, Fail> {
    let mut line = Vec::from_slice(alloc, b"fates ")?;
    line.resize(count.saturating_add(6), b'P')?;
    Ok(parse_line(alloc, &line).is_ok())
}

#[test]
fn numbers_of_fates(rt: HostRuntime) -> Result<(), Fail> {
    for (count, taken) in [(4000, true), (4001, false)] {
        assert_eq!(rt; takes_fates(rt.alloc(), count)?, taken, "{count}");
    }
    Ok(())
}
