//! What tags hold where want of memory stops a write.

use crate::lines::obeys_all;
use bench_world::Bench;
use std::alloc::Global;
use std::process::Abort;
use std::test::Fail;

/// A tag that holds `OLD`, and a write of `NEW` to it.
struct Row {
    place: &'static str,
    write: &'static str,
    /// What it holds before the byte that is its message's length.
    head: &'static [u8],
    /// How many bytes it holds.
    size: usize,
}

const OLD: &[u8] = &[0xD0, 0, 0];

const NEW: &[u8] = b"ABCDEFGHIJKLMNOPQRST";

const ROWS: [Row; 3] = [
    Row {
        place: "place t2 01020304 16 000000000000000000000000E11006000303D00000FE",
        write: "write 01020304 4142434445464748494A4B4C4D4E4F5051525354",
        head: &[0, 0, 0, 0, 0, 0, 0, 0, 0, 0, 0, 0, 0xE1, 0x10, 6, 0, 3],
        size: 64,
    },
    Row {
        place: "place t4 01020304 8 000F20003B000D0406E10402000000 0003D00000",
        write: "write 01020304 4142434445464748494A4B4C4D4E4F5051525354",
        head: &[0],
        size: 512,
    },
    Row {
        place: "place t5 E004010203040506 16 4 E14006000303D00000FE",
        write: "write E004010203040506 4142434445464748494A4B4C4D4E4F5051525354",
        head: &[0xE1, 0x40, 6, 0, 3],
        size: 64,
    },
];

/// A tag that stands beside each of them.
const BESIDE: &str = "place t2 05060708 16 000000000000000000000000E11006000302AABBFE";

/// What the tag at a place of the field holds: nothing where none stands there.
fn memory_at(bench: &Bench, place: usize) -> &[u8] {
    let devices = bench.field().listeners();
    if place < devices.len() {
        devices[place].memory()
    } else {
        &[]
    }
}

/// The bytes behind one that is their number; none where the memory ends before.
fn message_in(memory: &[u8], length: usize) -> Option<&[u8]> {
    if length >= memory.len() {
        return None;
    }
    let behind = &memory[length + 1..];
    let count = memory[length] as usize;
    if count <= behind.len() {
        Some(&behind[..count])
    } else {
        None
    }
}

/// Whether the tag of a row holds a message of those that a write may leave: of one that was done, the new one alone.
fn is_left(row: &Row, memory: &[u8], done: bool) -> bool {
    let length = row.head.len();
    if memory.len() != row.size || length > memory.len() || &memory[..length] != row.head {
        return false;
    }
    match message_in(memory, length) {
        Some(message) => message == NEW || (!done && (message == OLD || message.is_empty())),
        None => false,
    }
}

/// A write to the tag of a row, as far as memory reaches, leaves it one whole message, and the tag beside it as it was.
/// Whether the write was done.
fn leaves_a_message(rt: &impl Abort, alloc: Global, row: &Row) -> Result<bool, Fail> {
    let mut bench = Bench::new(alloc);
    if !obeys_all(alloc, &mut bench, &[row.place, BESIDE])? {
        return Ok(false);
    }
    let Ok(beside) = memory_at(&bench, 1).to_vec(alloc) else {
        return Ok(false);
    };
    let done = obeys_all(alloc, &mut bench, &[row.write])?;
    let left = memory_at(&bench, 0);
    assert!(rt; is_left(row, left, done), "at {}: {left:?}", row.write);
    assert_eq!(rt; memory_at(&bench, 1), beside.as_slice(), "at {}", row.write);
    Ok(done)
}

/// The same with a second try, which has all its memory: one request is refused at most.
fn is_written(rt: &impl Abort, alloc: Global, row: &Row) -> Result<(), Fail> {
    for _ in 0..2 {
        if leaves_a_message(rt, alloc, row)? {
            return Ok(());
        }
    }
    Err(Fail::new("memory is wanting twice"))
}

#[test]
fn a_write_leaves_one_whole_message(rt: HostRuntime) -> Result<(), Fail> {
    for row in ROWS.iter() {
        is_written(&rt, rt.alloc(), row)?;
    }
    Ok(())
}
