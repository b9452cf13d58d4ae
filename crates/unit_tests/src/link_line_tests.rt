//! The lines of links: which of them are taken, what they spell, and how that is written.

use crate::line_rows::{faults, spell};
use std::alloc::Global;
use std::test::Fail;

const LINES: &[(&str, u8)] = &[
    ("link 01020304 128 1", 0),
    ("link 00010203040506070809 2175 15", 0),
    ("link 01020304 127 1", 1),
    ("link 01020304 2176 1", 1),
    ("link 01020304 128 0", 1),
    ("link 01020304 128 16", 1),
    ("link 01020304 0128 1", 1),
    ("link 0102030405 128 1", 1),
    ("link E004010203040506 128 1", 1),
    ("link 01020304 128", 1),
    ("link 01020304 128 1 1024", 1),
    ("link", 1),
    ("Link 01020304 128 1", 1),
    ("put -", 0),
    ("put gen:65536:255", 0),
    ("put gen:65537:0", 1),
    ("put", 1),
    ("put 01020304 D00F", 1),
    ("get 0 -", 0),
    ("get 65536 6B", 0),
    ("get 65537 6B", 1),
    ("get 01 6B", 1),
    ("get 1 6", 1),
    ("get 1 gen:1:1", 1),
    ("get 1", 1),
    ("lookup a", 0),
    ("lookup !~", 0),
    (
        "lookup 1234567890123456789012345678901234567890123456789012345678901234",
        0,
    ),
    (
        "lookup 12345678901234567890123456789012345678901234567890123456789012345",
        1,
    ),
    ("lookup a b", 1),
    ("lookup a\tb", 1),
    ("lookup \x7f", 1),
    ("lookup ", 1),
    ("lookup", 1),
    ("unlink", 0),
    ("unlink ", 1),
    ("unlink 1", 1),
];

const FORGED: &[(&str, u8)] = &[
    ("forge 08010203 00", 0),
    ("forge 00010203040506070809 1120 2080 00", 0),
    ("forge 08010203 1 2 3", 1),
    ("forge 08010203 112", 1),
    ("forge 08010203 1120 11G0", 1),
    ("forge 08010203 -", 1),
    ("forge 08010203 1120 -", 1),
    ("forge 08010203 1120 ", 1),
    ("forge 08010203  1120", 1),
    ("forge 08010203 1120  1120", 1),
    ("forge 08010203", 1),
    ("forge 08010203 ", 1),
    ("forge", 1),
    ("forge ", 1),
    ("forge 1120", 1),
    ("forge 0801020304 1120", 1),
    ("forge E004010203040506 1120", 1),
    ("forge 88010203 1120", 1),
    ("Forge 08010203 1120", 1),
    ("forge 08010203 gen:1:1", 1),
    (
        "forge 08010203 00 01 02 03 04 05 06 07 08 09 0A 0B 0C 0D 0E 0F",
        0,
    ),
    (
        "forge 08010203 00 01 02 03 04 05 06 07 08 09 0A 0B 0C 0D 0E 0F 10",
        1,
    ),
];

#[test]
fn lines_of_payloads(rt: HostRuntime) {
    faults(&rt, rt.alloc(), FORGED);
}

/// A line of one payload of so many bytes.
fn line_of(alloc: Global, bytes: usize) -> Result<String, Fail> {
    let mut line = String::new(alloc);
    line.push_str("forge 08010203 ")?;
    for _ in 0..bytes {
        line.push_str("5A")?;
    }
    Ok(line)
}

#[test]
fn the_longest_payload(rt: HostRuntime) -> Result<(), Fail> {
    for (bytes, wanted) in [(1, 0), (2177, 0), (2178, 0), (2179, 1)] {
        let line = line_of(rt.alloc(), bytes)?;
        faults(&rt, rt.alloc(), &[(line.as_str(), wanted)]);
    }
    Ok(())
}

#[test]
fn lines_of_links(rt: HostRuntime) {
    faults(&rt, rt.alloc(), LINES);
}

#[test]
fn values_of_links(rt: HostRuntime) -> Result<(), Fail> {
    const ROWS: [(&str, &str, &str); 4] = [
        (
            "link 080102fF 2175 15",
            "link 080102FF 2175 15",
            "Link { id: Ident { bytes: [8, 1, 2, 255] }, miu: 2175, rw: 15 }",
        ),
        (
            "put gen:3:255",
            "put gen:3:255",
            "Put { message: Gen { count: 3, start: 255 } }",
        ),
        (
            "forge 080102fF 1121 13210010020000000a",
            "forge 080102FF 1121 13210010020000000A",
            "Forge { id: Ident { bytes: [8, 1, 2, 255] }, payloads: Items { owned: [Items { owned: [17, 33] }, Items { owned: [19, 33, 0, 16, 2, 0, 0, 0, 10] }] } }",
        ),
        ("unlink", "unlink", "Unlink"),
    ];
    spell(&rt, rt.alloc(), &ROWS)
}

#[test]
fn values_on_links(rt: HostRuntime) -> Result<(), Fail> {
    const ROWS: [(&str, &str, &str); 2] = [
        (
            "get 65536 6b31",
            "get 65536 6B31",
            "Get { acceptable: 65536, key: Items { owned: [107, 49] } }",
        ),
        (
            "lookup urn:nfc:sn:snep",
            "lookup urn:nfc:sn:snep",
            "Lookup { name: Items { owned: [117, 114, 110, 58, 110, 102, 99, 58, 115, 110, 58, 115, 110, 101, 112] } }",
        ),
    ];
    spell(&rt, rt.alloc(), &ROWS)
}
