//! The lines of a peer: which of them are taken, what they spell, and how that is written.

use crate::line_rows::{faults, spell};
use std::test::Fail;

#[test]
fn lines_of_peers(rt: HostRuntime) {
    const ROWS: [(&str, u8); 25] = [
        ("place peer 01020304 0 128 1 1024", 0),
        ("place peer 00010203040506070809 3 2175 15 65536", 0),
        ("place peer 01020304 4 128 1 1024", 1),
        ("place peer 01020304 3 127 1 1024", 1),
        ("place peer 01020304 3 2176 1 1024", 1),
        ("place peer 01020304 3 128 0 1024", 1),
        ("place peer 01020304 3 128 16 1024", 1),
        ("place peer 01020304 3 128 1 1023", 1),
        ("place peer 01020304 3 128 1 65537", 1),
        ("place peer 01020304 03 128 1 1024", 1),
        ("place peer 01020304 256 128 1 1024", 1),
        ("place peer E004010203040506 3 128 1 1024", 1),
        ("place peer 01020304 3 128 1 1024 -", 1),
        ("place peer 01020304 3 128 1", 1),
        ("offer 01020304 - -", 0),
        ("offer e004010203040506 6B 00", 0),
        ("offer 01020304 6B3 A1", 1),
        ("offer 01020304 6B A", 1),
        ("offer 01020304 6B gen:1:1", 1),
        ("offer 01020304 6B", 1),
        ("offer 0102030405 6B A1", 1),
        ("inbox E004010203040506", 0),
        ("inbox P", 1),
        ("inbox 0102030405", 1),
        ("inbox 01020304 1", 1),
    ];
    faults(&rt, rt.alloc(), &ROWS);
}

#[test]
fn values_of_peers(rt: HostRuntime) -> Result<(), Fail> {
    const ROWS: [(&str, &str, &str); 3] = [
        (
            "place peer 080102fF 3 2175 15 65536",
            "place peer 080102FF 3 2175 15 65536",
            "PlacePeer { id: Ident { bytes: [8, 1, 2, 255] }, lr: 3, miu: 2175, rw: 15, limit: 65536 }",
        ),
        (
            "offer 080102fF 6b31 -",
            "offer 080102FF 6B31 -",
            "Offer { id: A(Ident { bytes: [8, 1, 2, 255] }), key: Items { owned: [107, 49] }, value: Items { owned: [] } }",
        ),
        (
            "inbox 080102fF",
            "inbox 080102FF",
            "Inbox { id: A(Ident { bytes: [8, 1, 2, 255] }) }",
        ),
    ];
    spell(&rt, rt.alloc(), &ROWS)
}
