//! Plans of messages on real tags, at the borders of the capacity, and through reserved addresses.

ghost use Rattle.std.specs.Prelude.{◌≡◌, ◌*◌, ◌<◌, ◌≤◌, true};
ghost use Rattle.tlv_area.specs.Layout.{IsArea};
ghost use Rattle.tlv_area.specs.Writing.{HasBlocks};

use crate::area_tests::store;
use std::process::Abort;
use std::test::Fail;
use tlv_area::{Plan, Space, Step, Walk, capacity, find_message, plan};

/// What planning comes to: a plan; or the number of its fault and the capacity; or that the area holds no message.
#[derive(Drop)]
enum Outcome {
    Made(Plan),
    Fault(u8, u32),
    NoMessage,
}

/// How many steps a plan has.
fn count_steps(plan: &Plan) -> usize {
    let ends = usize::from(plan.close.is_some()) + usize::from(plan.last.is_some());
    plan.fill.as_slice().len().saturating_add(ends)
}

/// The step at a place among those behind the one that closes.
fn later_step(plan: &Plan, at: usize) -> Option<&Step> {
    let fill = plan.fill.as_slice();
    if at == fill.len() {
        return plan.last.as_ref();
    }
    fill.get(at)
}

/// The step at a place among all of them.
fn step_at(plan: &Plan, index: usize) -> Option<&Step> {
    match (&plan.close, index.checked_sub(1)) {
        (Some(step), None) => Some(step),
        (Some(_), Some(at)) => later_step(plan, at),
        (None, _) => later_step(plan, index),
    }
}

/// The plan of a message of so many bytes, counting up from the first.
fn planned(
    rt: &HostRuntime,
    space: &Space,
    store: &[u8],
    block: u32,
    count: usize,
    first: u8,
) -> Result<Outcome, Fail>
    requires area { IsArea space.now }
    requires some { 0 < block }
    requires small { block ≤ 32 }
    requires end { space.now.end ≤ 65536 * block }
    requires within { HasBlocks block space.now store.now }
{
    let mut message = Vec::new(rt.alloc());
    let mut byte = first;
    for _ in 0..count {
        message.push(byte)?;
        byte = byte.wrapping_add(1);
    }
    let Walk::Held { map } = find_message(space, store) else {
        return Ok(Outcome::NoMessage);
    };
    match plan(rt.alloc(), &map, store, block, &message) {
        Ok(plan) => Ok(Outcome::Made(plan)),
        Err(fault) => Ok(Outcome::Fault(fault.number(), capacity(&map))),
    }
}

fn is_step(plan: &Plan, index: usize, block: u16, content: &[u8]) -> bool {
    match step_at(plan, index) {
        Some(step) => step.block == block && step.content.as_slice() == content,
        None => false,
    }
}

/// A step of a plan: its place among all of them, its block, and what is written there.
type Row<'a> = (usize, u16, &'a [u8]);

/// A plan has so many steps, these among them.
fn has_steps(rt: &impl Abort, outcome: &Outcome, count: usize, rows: &[Row]) {
    let Outcome::Made(plan) = outcome else {
        panic!(rt; "no plan");
    };
    assert_eq!(rt; count_steps(plan), count);
    for (index, block, content) in rows {
        assert!(rt; is_step(plan, *index, *block, content), "at {index}");
    }
}

/// A message that is too long has a plan in no area of this capacity.
fn is_too_long(rt: &impl Abort, outcome: &Outcome, most: u32) {
    match outcome {
        Outcome::Fault(number, told) => assert_eq!(rt; (*number, *told), (1, most)),
        _ => panic!(rt; "no fault"),
    }
}

fn t2_space(end: u32) -> Space
    ensures { (result.start ≡ 16) × (result.end ≡ end) × (result.control ≡ true) }
{
    Space {
        start: 16,
        end,
        control: true,
        writable: true,
    }
}

/// The plan of so many bytes, counting up from the first, for a Type 2 tag of 64 bytes.
fn planned_64(rt: &HostRuntime, head: &[u8], count: usize, first: u8) -> Result<Outcome, Fail> {
    let store = store(rt, 64, 12, head)?;
    if store.len() != 64 {
        return Err(Fail::new("another size"));
    }
    planned(rt, &t2_space(64), &store, 4, count, first)
}

/// The same for one of 280 bytes.
fn planned_280(rt: &HostRuntime, head: &[u8], count: usize, first: u8) -> Result<Outcome, Fail> {
    let store = store(rt, 280, 12, head)?;
    if store.len() != 280 {
        return Err(Fail::new("another size"));
    }
    planned(rt, &t2_space(280), &store, 4, count, first)
}

/// The longest message leaves no room for a terminator. The old one was empty, so nothing has to be closed.
#[test]
fn the_longest_message(rt: HostRuntime) -> Result<(), Fail> {
    const ROWS: [Row; 3] = [
        (0, 5, &[2, 3, 4, 5]),
        (10, 15, &[42, 43, 44, 45]),
        (11, 4, &[3, 46, 0, 1]),
    ];
    let head = [0xE1, 0x10, 6, 0, 3, 0, 0xFE];
    has_steps(&rt, &planned_64(&rt, &head, 46, 0)?, 12, &ROWS);
    is_too_long(&rt, &planned_64(&rt, &head, 47, 0)?, 46);
    Ok(())
}

/// A length of three bytes lies in two blocks; the first of them is written first and last.
#[test]
fn a_length_over_two_blocks(rt: HostRuntime) -> Result<(), Fail> {
    const ROWS: [Row; 4] = [
        (0, 5, &[0x35, 3, 0, 0xD0]),
        (1, 6, &[0xFF, 1, 2, 3]),
        (64, 69, &[252, 253, 254, 255]),
        (65, 5, &[0x35, 3, 0xFF, 0]),
    ];
    let head = [
        0xE1, 0x10, 0x21, 0, 1, 3, 0x90, 0x10, 0x35, 3, 3, 0xD0, 0, 0, 0xFE,
    ];
    has_steps(&rt, &planned_280(&rt, &head, 255, 1)?, 66, &ROWS);
    is_too_long(&rt, &planned_280(&rt, &head, 256, 1)?, 255);
    Ok(())
}

/// What a block has already isn't written. An empty message in the place of three bytes is closed, and then its
/// terminator is written; where both stand there is nothing to write. Of a message with one byte more in its last block
/// that block is written, and the block of the length before it and behind it.
#[test]
fn unchanged_blocks_stay(rt: HostRuntime) -> Result<(), Fail> {
    const CASES: [(&[u8], usize, u8, &[Row]); 3] = [
        (
            &[0xE1, 0x10, 6, 0, 3, 3, 0xD0, 0, 0, 0xFE],
            0,
            0,
            &[(0, 4, &[3, 0, 0xD0, 0]), (1, 4, &[3, 0, 0xFE, 0])],
        ),
        (&[0xE1, 0x10, 6, 0, 3, 0, 0xFE], 0, 0, &[]),
        (
            &[0xE1, 0x10, 6, 0, 3, 9, 1, 2, 3, 4, 5, 6, 7, 8, 0xAA, 0xFE],
            9,
            1,
            &[
                (0, 4, &[3, 0, 1, 2]),
                (1, 6, &[7, 8, 9, 0xFE]),
                (2, 4, &[3, 9, 1, 2]),
            ],
        ),
    ];
    for &(head, count, first, rows) in &CASES {
        let outcome = planned_64(&rt, head, count, first)?;
        has_steps(&rt, &outcome, rows.len(), rows);
    }
    Ok(())
}

/// A memory control TLV reserves the addresses 32 to 35: block 8 is left alone.
#[test]
fn reserved_addresses_stay(rt: HostRuntime) -> Result<(), Fail> {
    const ROWS: [Row; 4] = [
        (0, 6, &[2, 3, 4, 5]),
        (1, 7, &[6, 7, 8, 9]),
        (2, 9, &[10, 11, 12, 0xFE]),
        (3, 5, &[4, 3, 12, 1]),
    ];
    let head = [
        0xE1, 0x10, 6, 0, 2, 3, 0x20, 4, 4, 3, 0, 0xFE, 0, 0, 0, 0, 0, 0, 0, 0, 0xAA, 0xBB, 0xCC,
        0xDD,
    ];
    has_steps(&rt, &planned_64(&rt, &head, 12, 1)?, 4, &ROWS);
    is_too_long(&rt, &planned_64(&rt, &head, 38, 1)?, 37);
    Ok(())
}

/// The plan for a Type 5 tag of four blocks of 32 bytes.
fn planned_t5(rt: &HostRuntime, count: usize, first: u8) -> Result<Outcome, Fail> {
    let head = [0xE1, 0x40, 0x0F, 0, 3, 3, 0xD0, 0, 0, 0xFE];
    let store = store(rt, 128, 0, &head)?;
    if store.len() != 128 {
        return Err(Fail::new("another size"));
    }
    let space = Space {
        start: 4,
        end: 124,
        control: false,
        writable: true,
    };
    planned(rt, &space, &store, 32, count, first)
}

/// Blocks of 32 bytes: the message shares one with the container, which stays.
#[test]
fn one_block_of_a_type_5_tag(rt: HostRuntime) -> Result<(), Fail> {
    const ROWS: [Row; 2] = [
        (
            0,
            0,
            b"\xE1\x40\x0F\0\x03\x00\xD0\0\0\xFE\0\0\0\0\0\0\0\0\0\0\0\0\0\0\0\0\0\0\0\0\0\0",
        ),
        (
            1,
            0,
            b"\xE1\x40\x0F\0\x03\x02\xD1\xD2\xFE\xFE\0\0\0\0\0\0\0\0\0\0\0\0\0\0\0\0\0\0\0\0\0\0",
        ),
    ];
    has_steps(&rt, &planned_t5(&rt, 2, 0xD1)?, 2, &ROWS);
    is_too_long(&rt, &planned_t5(&rt, 119, 0)?, 118);
    Ok(())
}

/// The capacity of an area up to this address that holds an empty message alone.
fn capacity_to(rt: &HostRuntime, end: u32) -> Result<Option<u32>, Fail>
    requires order { 16 ≤ end }
    requires small { end ≤ 1024 }
{
    let store = store(rt, 280, 16, &[3, 0])?;
    match find_message(&t2_space(end), &store) {
        Walk::Held { map } => Ok(Some(capacity(&map))),
        _ => Ok(None),
    }
}

/// An area of a message's TLV alone: its capacity at the borders of the two forms of a length.
#[test]
fn capacities(rt: HostRuntime) -> Result<(), Fail> {
    for (end, most) in [(18, 0), (272, 254), (273, 254), (274, 254), (275, 255)] {
        assert_eq!(rt; capacity_to(&rt, end)?, Some(most), "with {end}");
    }
    Ok(())
}
