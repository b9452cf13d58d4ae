//! Writes areas: lengths over two blocks, block numbers of one byte and of two, tags as they are sold, locked blocks.

use crate::MemLink;
use crate::rows::{Row, holds, store_of};
use crate::stop_tests::{Stop, is_one_of_three};
use crate::write_tests::{left_t2, tag_t2, tag_t5, write_t2, write_t5, writes_t2, writes_t5};
use std::alloc::Global;
use std::process::Abort;
use std::test::Fail;
use tag_writer::WriteFault;

/// An area of 264 bytes. A control TLV, whose range lies behind it, puts the length's three bytes into two blocks.
const LONG: [u8; 12] = [0xE1, 0x10, 0x21, 0, 2, 3, 0xF0, 1, 5, 3, 0, 0xFE];

/// The longest message that the area holds.
const LONGEST: [u8; 255] = [0x5A; 255];

#[test]
fn a_length_goes_over_two_blocks(rt: HostRuntime) -> Result<(), Fail> {
    let rows = [
        Row {
            message: &[0x5A; 256],
            told: Err(WriteFault::TooLong(255)),
            answered: 18,
            asked: &[],
            holds: &[],
        },
        Row {
            message: &LONGEST,
            told: Ok(()),
            answered: 101,
            // the length's first byte stands in block 5
            asked: &[(1, &[0xA2, 5, 5, 3, 0xFF, 0])],
            holds: &[(16, &[2, 3, 0xF0, 1, 5, 3, 0xFF, 0, 0xFF]), (25, &LONGEST)],
        },
        Row {
            message: &[1, 2, 3],
            told: Ok(()),
            answered: 122,
            // and goes from FFh to 00h in that block
            asked: &[(3, &[0xA2, 5, 5, 3, 0, 0]), (1, &[0xA2, 5, 5, 3, 3, 1])],
            holds: &[(16, &[2, 3, 0xF0, 1, 5, 3, 3, 1, 2, 3, 0xFE])],
        },
    ];
    writes_t2(&rt, rt.alloc(), 280, &LONG, &rows)
}

/// A long write is lost there.
fn stops_long(rt: &impl Abort, alloc: Global, stop: &Stop) -> Result<(), Fail> {
    let tag = tag_t2(alloc, stop.size, stop.head)?;
    let mut link = MemLink::lost_after(alloc, tag, stop.left, stop.behind);
    let told = write_t2(alloc, &mut link, stop.new);
    let held = left_t2(alloc, &mut link)?;
    is_one_of_three(rt, stop, told.is_ok(), &held);
    Ok(())
}

#[test]
fn each_stop_in_a_long_write_leaves_the_empty_message(rt: HostRuntime) -> Result<(), Fail> {
    for at in 2 * 17..2 * 90u16 {
        let stop = Stop {
            head: &LONG,
            size: 280,
            old: &[],
            new: &LONGEST,
            left: at / 2,
            behind: at % 2 == 1,
        };
        stops_long(&rt, rt.alloc(), &stop)?;
    }
    Ok(())
}

/// A tag as it is sold.
const SOLD: [u8; 12] = [0xE1, 0x10, 0x12, 0, 1, 3, 0xA0, 0x0C, 0x34, 3, 0, 0xFE];

/// The record of a URI.
const RECORD: [u8; 16] = *b"\xD1\x01\x0C\x55\x01example.com";

#[test]
fn a_tag_as_it_is_sold_takes_a_uri(rt: HostRuntime) -> Result<(), Fail> {
    let rows = [
        Row {
            message: &RECORD,
            told: Ok(()),
            answered: 15,
            asked: &[],
            holds: &[
                (12, &[0xE1, 0x10, 0x12, 0, 1, 3, 0xA0, 0x0C, 0x34]),
                (21, &[3, 16]),
                (23, &RECORD),
                (39, &[0xFE]),
            ],
        },
        // 144 bytes of area less the control TLV, the type and the length
        Row {
            message: &[0; 138],
            told: Err(WriteFault::TooLong(137)),
            answered: 25,
            asked: &[],
            holds: &[],
        },
    ];
    writes_t2(&rt, rt.alloc(), 180, &SOLD, &rows)
}

#[test]
fn a_message_of_64_kilobytes_is_too_long(rt: HostRuntime) -> Result<(), Fail> {
    let long = store_of(rt.alloc(), 65536, 65536, &[])?;
    let row = Row {
        message: &long,
        told: Err(WriteFault::TooLong(46)),
        answered: 4,
        asked: &[],
        holds: &[],
    };
    writes_t2(&rt, rt.alloc(), 64, &[0xE1, 0x10, 6, 0, 3, 0, 0xFE], &[row])
}

#[test]
fn numbers_of_one_byte_end_an_area_behind_block_255(rt: HostRuntime) -> Result<(), Fail> {
    let message = [7; 2037];
    // the container's first byte, how long a message may be, and how many commands tell it and write it
    let cases = [(0xE1, 1012, 256, 767), (0xE2, 2036, 512, 1535)];
    for (magic, most, asked, written) in cases {
        let head = [magic, 0x40, 0, 0, 0, 0, 0, 0xFF, 3, 3, 0xD0, 0, 0, 0xFE];
        let rows = [
            Row {
                message: &message[..most + 1],
                told: Err(WriteFault::TooLong(most as u32)),
                answered: asked,
                asked: &[],
                holds: &[],
            },
            Row {
                message: &message[..most],
                told: Ok(()),
                answered: written,
                asked: &[],
                holds: &[(12, &message[..most])],
            },
        ];
        writes_t5(&rt, rt.alloc(), 2048, 4, &head, &rows)?;
    }
    Ok(())
}

/// A tag with this block locked refuses a write by its code, and has this length then.
fn is_refused(rt: &impl Abort, alloc: Global, block: u16, length: &[u8]) -> Result<(), Fail> {
    let head = [0xE1, 0x40, 6, 0, 3, 3, 0xD0, 0, 0, 0xFE];
    let mut card = tag_t5(alloc, 64, 4, &head)?;
    if block < card.tag.blocks() {
        card.tag.lock(block);
    }
    let mut link = MemLink::new(alloc, card);
    let told = write_t5(alloc, &mut link, &[9; 9]);
    assert_eq!(rt; told, Err(WriteFault::Refused(0x12)), "at {block}");
    holds(rt, link.card.tag.store(), &[(4, length)]);
    Ok(())
}

#[test]
fn a_locked_block_of_a_type_5_tag_refuses_by_its_code(rt: HostRuntime) -> Result<(), Fail> {
    // the length's block, the last block of the new message, and one in between
    let rows = [(1, [3, 3]), (3, [3, 0]), (2, [3, 0])];
    for (block, length) in rows {
        is_refused(&rt, rt.alloc(), block, &length)?;
    }
    Ok(())
}
