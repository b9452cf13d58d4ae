//! The lines of frames and of several clients: which of them are taken, what they spell, and how that is written.

use crate::line_rows::{faults, spell};
use std::alloc::Global;
use std::test::Fail;

const FRAMES: &[(&str, u8)] = &[
    ("raw 01020304 3000", 0),
    ("raw 01020304 26/7 9320 -", 0),
    ("raw E004010203040506 02 012B/1", 1),
    ("raw E004010203040506 022B", 0),
    ("raw 04112233445566 01/1", 0),
    ("raw 01020304 01/1 7f/7", 0),
    ("raw 01020304 02/1", 1),
    ("raw 01020304 A6/7", 1),
    ("raw 01020304 80/7", 1),
    ("raw 01020304 26/0", 1),
    ("raw 01020304 26/8", 1),
    ("raw 01020304 26/07", 1),
    ("raw 01020304 26/", 1),
    ("raw 01020304 26/7/7", 1),
    ("raw 01020304 26/-", 1),
    ("raw 01020304 /7", 1),
    ("raw 01020304 -/3", 1),
    ("raw 01020304 -/0", 1),
    ("raw 01020304 300", 1),
    ("raw 01020304 30G0", 1),
    ("raw 01020304 gen:1:1", 1),
    ("raw 01020304 3000 ", 1),
    ("raw 01020304  3000", 1),
    ("raw 01020304", 1),
    ("raw 01020304 ", 1),
    ("raw", 1),
    ("raw 3000", 1),
    ("raw 88020304 3000", 1),
    ("raw 0102030405 3000", 1),
    ("Raw 01020304 3000", 1),
    (
        "raw 01020304 00 01 02 03 04 05 06 07 08 09 0A 0B 0C 0D 0E 0F",
        0,
    ),
    (
        "raw 01020304 00 01 02 03 04 05 06 07 08 09 0A 0B 0C 0D 0E 0F 10",
        1,
    ),
];

const SLOTS: &[(&str, u8)] = &[
    ("on 1 put D1", 0),
    ("on 7 put gen:300:0", 0),
    ("on 7 get 65536 -", 0),
    ("on 0 put D1", 1),
    ("on 8 put D1", 1),
    ("on 01 put D1", 1),
    ("on 1 put", 1),
    ("on 1 put ", 1),
    ("on 1 put D1 D2", 1),
    ("on 1 get 1", 1),
    ("on 1 get 65537 6B", 1),
    ("on 1 get 1 6", 1),
    ("on 1 lookup x", 1),
    ("on 1 unlink", 1),
    ("on 1 Put D1", 1),
    ("on put D1", 1),
    ("on 1", 1),
    ("on", 1),
    ("on ", 1),
    ("puts 0:D1 1:D2", 0),
    ("puts 7:gen:300:0 0:-", 0),
    ("puts 0:D1 1:D2 2:D3 3:D4 4:D5 5:D6 6:D7 7:D8", 0),
    ("puts 0:D1 1:D2 2:D3 3:D4 4:D5 5:D6 6:D7 7:D8 7:D9", 1),
    ("puts 0:D1", 1),
    ("puts", 1),
    ("puts ", 1),
    ("puts 0:D1 0:D2", 1),
    ("puts 3:D1 1:D2 3:D1", 1),
    ("puts 8:D1 0:D2", 1),
    ("puts 0:D1 8:D2", 1),
    ("puts 0: 1:D2", 1),
    ("puts 00:D1 1:D2", 1),
    ("puts 0:D1 1", 1),
    ("puts 0:D1 :D2", 1),
    ("puts 0:D1 1::D2", 1),
    ("puts 0:D1 1:gen:5", 1),
    ("puts 0:D1 1:gen:5:256", 1),
    ("puts 0:D1  1:D2", 1),
];

#[test]
fn lines_of_frames(rt: HostRuntime) {
    faults(&rt, rt.alloc(), FRAMES);
}

#[test]
fn lines_of_several_clients(rt: HostRuntime) {
    faults(&rt, rt.alloc(), SLOTS);
}

/// A line of one frame of so many bytes.
fn line_of(alloc: Global, bytes: usize) -> Result<String, Fail> {
    let mut line = String::new(alloc);
    line.push_str("raw 01020304 ")?;
    for _ in 0..bytes {
        line.push_str("01")?;
    }
    Ok(line)
}

#[test]
fn the_longest_frame(rt: HostRuntime) -> Result<(), Fail> {
    for (bytes, wanted) in [(1, 0), (287, 0), (288, 0), (289, 1)] {
        let line = line_of(rt.alloc(), bytes)?;
        faults(&rt, rt.alloc(), &[(line.as_str(), wanted)]);
    }
    Ok(())
}

#[test]
fn values_of_frames_and_clients(rt: HostRuntime) -> Result<(), Fail> {
    const ROWS: [(&str, &str, &str); 5] = [
        (
            "raw 010203fF 26/7 - 93fe",
            "raw 010203FF 26/7 - 93FE",
            "Raw { id: A(Ident { bytes: [1, 2, 3, 255] }), frames: Items { owned: [Frame { tech: A, bytes: [38], tail: 7 }, Frame { tech: A, bytes: [], tail: 0 }, Frame { tech: A, bytes: [147, 254], tail: 0 }] } }",
        ),
        (
            "raw e004010203040506 0a2b",
            "raw E004010203040506 0A2B",
            "Raw { id: V([224, 4, 1, 2, 3, 4, 5, 6]), frames: Items { owned: [Frame { tech: V, bytes: [10, 43], tail: 0 }] } }",
        ),
        (
            "on 3 put gen:300:7",
            "on 3 put gen:300:7",
            "OnPut { slot: 3, message: Gen { count: 300, start: 7 } }",
        ),
        (
            "on 7 get 16 6b31",
            "on 7 get 16 6B31",
            "OnGet { slot: 7, acceptable: 16, key: Items { owned: [107, 49] } }",
        ),
        (
            "puts 5:d1 0:gen:3:0",
            "puts 5:D1 0:gen:3:0",
            "Puts(Items { owned: [SlotPut { slot: 5, message: Hex(Items { owned: [209] }) }, SlotPut { slot: 0, message: Gen { count: 3, start: 0 } }] })",
        ),
    ];
    spell(&rt, rt.alloc(), &ROWS)
}
