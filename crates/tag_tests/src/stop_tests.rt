//! Writes that are broken off at each command: the tag holds the old message, the empty one or the new one.

use crate::MemLink;
use crate::rows::{part, store_of};
use crate::write_tests::{RESERVED, left_t2, left_t5, tag_t2, tag_t5, write_t2, write_t5};
use std::alloc::Global;
use std::process::Abort;
use std::test::Fail;
use tag_writer::WriteFault;

/// A tag's first bytes behind those of 0, its size, what it holds, what is written, and behind how many commands the
/// link is lost.
#[derive(Clone, Copy)]
pub struct Stop<'a> {
    pub head: &'a [u8],
    pub size: usize,
    pub old: &'a [u8],
    pub new: &'a [u8],
    pub left: u16,
    pub behind: bool,
}

/// What the tag holds once the field is there again, the new message where the write is done.
pub fn is_one_of_three(rt: &impl Abort, stop: &Stop, is_done: bool, held: &[u8]) {
    let is_new = held == stop.new;
    assert!(rt;
        held == stop.old || is_new || held.is_empty(),
        "at {}: {held:?}",
        stop.left
    );
    assert!(rt; !is_done || is_new, "at {}: {held:?}", stop.left);
}

/// A write to a Type 2 tag that takes so many commands is lost before the last of them, and these bytes stay.
fn stops_t2(
    rt: &impl Abort,
    alloc: Global,
    stop: &Stop,
    count: u16,
    stays: (usize, usize),
) -> Result<(), Fail> {
    let tag = tag_t2(alloc, stop.size, stop.head)?;
    let mut link = MemLink::lost_after(alloc, tag, stop.left, stop.behind);
    let told = write_t2(alloc, &mut link, stop.new);
    let is_lost = stop.left < count;
    assert_eq!(rt; told == Err(WriteFault::FieldLost), is_lost, "{told:?}");
    let held = left_t2(alloc, &mut link)?;
    is_one_of_three(rt, stop, !is_lost || told.is_ok(), &held);
    let before = store_of(alloc, 12, stop.size, stop.head)?;
    let (at, count) = stays;
    assert_eq!(rt;
        part(link.card.store(), at, count),
        part(&before, at, count)
    );
    Ok(())
}

#[test]
fn each_stop_leaves_one_of_three_messages(rt: HostRuntime) -> Result<(), Fail> {
    let empty = [0xE1, 0x10, 6, 0, 3, 0, 0xFE];
    let sold = [0xE1, 0x10, 0x12, 0, 1, 3, 0xA0, 0x0C, 0x34, 3, 0, 0xFE];
    let old = [1, 2, 3, 4, 5, 6, 7, 8, 9, 10, 11, 12];
    let new = [0x5A; 46];
    // the first bytes, the size, the old message and the new one, how many commands a write takes, and bytes that stay
    let rows: [(&[u8], usize, &[u8], &[u8], u16, (usize, usize)); 3] = [
        (&RESERVED, 64, &old, &new[..12], 9, (32, 4)),
        (&empty, 64, &[], &new, 16, (12, 4)),
        (&sold, 180, &[], &new[..16], 15, (12, 9)),
    ];
    for (head, size, old, new, count, stays) in rows {
        for at in 0..2 * (count + 1) {
            let stop = Stop {
                head,
                size,
                old,
                new,
                left: at / 2,
                behind: at % 2 == 1,
            };
            stops_t2(&rt, rt.alloc(), &stop, count, stays)?;
        }
    }
    Ok(())
}

/// A write to a Type 5 tag with blocks of so many bytes.
fn stops_t5(rt: &impl Abort, alloc: Global, stop: &Stop, block: u8) -> Result<(), Fail> {
    let tag = tag_t5(alloc, stop.size, block, stop.head)?;
    let mut link = MemLink::lost_after(alloc, tag, stop.left, stop.behind);
    let told = write_t5(alloc, &mut link, stop.new);
    let held = left_t5(alloc, &mut link)?;
    is_one_of_three(rt, stop, told.is_ok(), &held);
    Ok(())
}

#[test]
fn each_stop_on_a_type_5_tag_leaves_one_of_three_messages(rt: HostRuntime) -> Result<(), Fail> {
    // blocks of 32 bytes and of 4, and blocks behind 255; the new message, and after which commands the link is lost
    let one = [0xE1, 0x40, 6, 0, 3, 3, 0xD0, 0, 0, 0xFE];
    let four = [0xE1, 0x40, 6, 0, 3, 0, 0xFE];
    let wide = [0xE2, 0x40, 0, 0, 0, 0, 0, 0xFF, 3, 3, 0xD0, 0, 0, 0xFE];
    let old = [0xD0, 0, 0];
    let new = [7; 1024];
    let rows: [(&[u8], usize, u8, &[u8], &[u8], u16, u16); 4] = [
        (&one, 32, 32, &old, &new[..20], 0, 6),
        (&four, 16, 4, &[], &new[..10], 0, 9),
        (&wide, 2048, 4, &old, &new, 508, 516),
        (&wide, 2048, 4, &old, &new, 764, 774),
    ];
    for (head, size, block, old, new, from, to) in rows {
        for at in 2 * from..2 * to {
            let stop = Stop {
                head,
                size,
                old,
                new,
                left: at / 2,
                behind: at % 2 == 1,
            };
            stops_t5(&rt, rt.alloc(), &stop, block)?;
        }
    }
    Ok(())
}
