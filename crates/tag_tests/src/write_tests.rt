//! Writes tags of Type 2 and Type 5.

ghost use Rattle.std.specs.Prelude.{◌≡◌, IfOk};

use crate::rows::{Row, is_row, store_of};
use crate::{Awake, MemLink};
use std::alloc::Global;
use std::process::Abort;
use std::test::Fail;
use t2t_tag::T2Tag;
use t5t_tag::T5Tag;
use tag_reader::{How, read};
use tag_writer::{WriteFault, write};

pub const ID: [u8; 8] = [0xE0, 4, 1, 2, 3, 4, 5, 6];

/// An area of 48 bytes with a message of three.
pub const PLAIN: [u8; 10] = [0xE1, 0x10, 6, 0, 3, 3, 0xD0, 0, 0, 0xFE];

/// An area of 48 bytes in which a range of four bytes at address 32 is reserved.
pub const RESERVED: [u8; 28] = [
    0xE1, 0x10, 6, 0, 2, 3, 0x20, 4, 4, 3, 12, 1, 2, 3, 4, 5, 6, 7, 8, 9, 0xAA, 0xBB, 0xCC, 0xDD,
    10, 11, 12, 0xFE,
];

/// A Type 2 tag of so many bytes whose area begins so.
pub fn tag_t2(alloc: Global, size: usize, head: &[u8]) -> Result<T2Tag, Fail> {
    Ok(T2Tag::new(store_of(alloc, 12, size, head)?)?)
}

/// A Type 5 tag of so many bytes, in blocks of so many, that begins so.
pub fn tag_t5(alloc: Global, size: usize, block: u8, head: &[u8]) -> Result<Awake, Fail>
    ensures { IfOk result (λ a. a.tag.id ≡ ID) }
{
    let tag = T5Tag::new(ID, store_of(alloc, 0, size, head)?, block)?;
    Ok(Awake { tag })
}

pub fn write_t2(
    alloc: Global,
    link: &mut MemLink<T2Tag>,
    message: &[u8],
) -> Result<(), WriteFault> {
    write(alloc, link, How::T2, message)
}

pub fn write_t5(
    alloc: Global,
    link: &mut MemLink<Awake>,
    message: &[u8],
) -> Result<(), WriteFault> {
    let id = link.card.tag.id();
    let _shape = link.card.tag.store();
    write(alloc, link, How::T5(id), message)
}

/// What a tag holds once the field is there again.
pub fn left_t2(alloc: Global, link: &mut MemLink<T2Tag>) -> Result<Vec<u8>, Fail> {
    link.light();
    let found = read(alloc, link, How::T2)?;
    Ok(found.message.into_vec())
}

/// The same of a Type 5 tag.
pub fn left_t5(alloc: Global, link: &mut MemLink<Awake>) -> Result<Vec<u8>, Fail> {
    link.light();
    let id = link.card.tag.id();
    let _shape = link.card.tag.store();
    let found = read(alloc, link, How::T5(id))?;
    Ok(found.message.into_vec())
}

/// Writes to a Type 2 tag come to what the rows say, one behind the other.
pub fn writes_t2(
    rt: &impl Abort,
    alloc: Global,
    size: usize,
    head: &[u8],
    rows: &[Row],
) -> Result<(), Fail> {
    let mut link = MemLink::new(alloc, tag_t2(alloc, size, head)?);
    for row in rows {
        let told = write_t2(alloc, &mut link, row.message);
        is_row(rt, row, told, &link.answered, link.card.store());
    }
    Ok(())
}

/// Writes to a Type 5 tag come to what the rows say, one behind the other.
pub fn writes_t5(
    rt: &impl Abort,
    alloc: Global,
    size: usize,
    block: u8,
    head: &[u8],
    rows: &[Row],
) -> Result<(), Fail> {
    let mut link = MemLink::new(alloc, tag_t5(alloc, size, block, head)?);
    for row in rows {
        let told = write_t5(alloc, &mut link, row.message);
        is_row(rt, row, told, &link.answered, link.card.tag.store());
    }
    Ok(())
}

#[test]
fn fills_the_capacity_and_no_more(rt: HostRuntime) -> Result<(), Fail> {
    let message = [0x5A; 47];
    let rows = [
        Row {
            message: &message,
            told: Err(WriteFault::TooLong(46)),
            answered: 4,
            asked: &[],
            holds: &[(12, &PLAIN)],
        },
        Row {
            message: &message[..46],
            told: Ok(()),
            answered: 21,
            asked: &[],
            holds: &[(16, &[3, 46]), (18, &message[..46])],
        },
    ];
    writes_t2(&rt, rt.alloc(), 64, &PLAIN, &rows)
}

#[test]
fn reserved_bytes_stay(rt: HostRuntime) -> Result<(), Fail> {
    let row = Row {
        message: &[21, 22, 23, 24, 25, 26, 27, 28, 29, 30, 31, 32],
        told: Ok(()),
        answered: 9,
        asked: &[],
        holds: &[
            (16, &[2, 3, 0x20, 4, 4, 3, 12]),
            (23, &[21, 22, 23, 24, 25, 26, 27, 28, 29]),
            (32, &[0xAA, 0xBB, 0xCC, 0xDD]),
            (36, &[30, 31, 32, 0xFE]),
        ],
    };
    writes_t2(&rt, rt.alloc(), 64, &RESERVED, &[row])
}

#[test]
fn unchanged_blocks_are_left_alone(rt: HostRuntime) -> Result<(), Fail> {
    let rows = [
        Row {
            message: &[],
            told: Ok(()),
            answered: 6,
            asked: &[
                (2, &[0xA2, 4, 3, 0, 0xD0, 0]),
                (1, &[0xA2, 4, 3, 0, 0xFE, 0]),
            ],
            holds: &[],
        },
        Row {
            message: &[],
            told: Ok(()),
            answered: 10,
            asked: &[],
            holds: &[],
        },
    ];
    writes_t2(&rt, rt.alloc(), 64, &PLAIN, &rows)
}

/// A store declines a write for this cause, and stays as it is.
fn declines(rt: &impl Abort, alloc: Global, head: &[u8], fault: WriteFault) -> Result<(), Fail> {
    let mut link = MemLink::new(alloc, tag_t2(alloc, 64, head)?);
    let told = write_t2(alloc, &mut link, &[1, 2, 3]);
    assert_eq!(rt; told, Err(fault), "at {head:?}");
    let store = store_of(alloc, 12, 64, head)?;
    assert_eq!(rt; link.card.store(), store.as_slice(), "at {head:?}");
    Ok(())
}

#[test]
fn what_a_store_declines_changes_nothing(rt: HostRuntime) -> Result<(), Fail> {
    const ROWS: [(&[u8], WriteFault); 4] = [
        (&[0xE1, 0x10, 6, 0x0F, 3, 0, 0xFE], WriteFault::ReadOnly),
        (&[0xE1, 0x10, 6, 0, 0xFE], WriteFault::NoMessageTlv),
        (&[0xE1, 0x10, 6, 0, 3, 0x60], WriteFault::BadTlv),
        (&[0xE0, 0x10, 6, 0, 3, 0], WriteFault::NotNdef),
    ];
    for &(head, fault) in &ROWS {
        declines(&rt, rt.alloc(), head, fault)?;
    }
    Ok(())
}

/// A tag with this block locked refuses a write, and holds this message then.
fn is_refused(rt: &impl Abort, alloc: Global, block: u16, message: &[u8]) -> Result<(), Fail> {
    let mut tag = tag_t2(alloc, 64, &PLAIN)?;
    if block < tag.blocks() {
        tag.lock(block);
    }
    let mut link = MemLink::new(alloc, tag);
    let told = write_t2(alloc, &mut link, &[9; 9]);
    assert_eq!(rt; told, Err(WriteFault::Refused(0)), "at {block}");
    let held = left_t2(alloc, &mut link)?;
    assert_eq!(rt; held.as_slice(), message, "at {block}");
    Ok(())
}

#[test]
fn a_locked_block_leaves_the_old_message_or_the_empty_one(rt: HostRuntime) -> Result<(), Fail> {
    // the length's block, the last block of the new message, and one in between
    let rows: [(u16, &[u8]); 3] = [(4, &[0xD0, 0, 0]), (6, &[]), (5, &[])];
    for (block, message) in rows {
        is_refused(&rt, rt.alloc(), block, message)?;
    }
    Ok(())
}

/// The length becomes 0 in what stands in the one block, and then all that is new comes at once.
const EMPTIED: [u8; 43] = [
    0x22, 0x21, 6, 5, 4, 3, 2, 1, 4, 0xE0, 0, 0xE1, 0x40, 6, 0, 3, 0, 0xD0, 0, 0, 0xFE, 0, 0, 0, 0,
    0, 0, 0, 0, 0, 0, 0, 0, 0, 0, 0, 0, 0, 0, 0, 0, 0, 0,
];

const RENEWED: [u8; 43] = [
    0x22, 0x21, 6, 5, 4, 3, 2, 1, 4, 0xE0, 0, 0xE1, 0x40, 6, 0, 3, 20, 7, 7, 7, 7, 7, 7, 7, 7, 7,
    7, 7, 7, 7, 7, 7, 7, 7, 7, 7, 7, 0xFE, 0, 0, 0, 0, 0,
];

#[test]
fn a_tag_of_one_block_is_written_twice(rt: HostRuntime) -> Result<(), Fail> {
    // the tag ends behind its one block, and both writes are of that
    let row = Row {
        message: &[7; 20],
        told: Ok(()),
        answered: 4,
        asked: &[(2, &EMPTIED), (1, &RENEWED)],
        holds: &[(4, &[3, 20]), (26, &[0xFE])],
    };
    let head = [0xE1, 0x40, 6, 0, 3, 3, 0xD0, 0, 0, 0xFE];
    writes_t5(&rt, rt.alloc(), 32, 32, &head, &[row])
}

#[test]
fn an_area_ends_where_its_tag_does(rt: HostRuntime) -> Result<(), Fail> {
    let rows = [
        Row {
            message: &[7; 11],
            told: Err(WriteFault::TooLong(10)),
            answered: 5,
            asked: &[],
            holds: &[],
        },
        Row {
            message: &[7; 10],
            told: Ok(()),
            answered: 13,
            asked: &[],
            holds: &[(4, &[3, 10])],
        },
    ];
    let head = [0xE1, 0x40, 6, 0, 3, 0, 0xFE];
    writes_t5(&rt, rt.alloc(), 16, 4, &head, &rows)
}

/// The area of a tag with 512 blocks of four bytes.
const WIDE: [u8; 14] = [0xE2, 0x40, 0, 0, 0, 0, 0, 0xFF, 3, 3, 0xD0, 0, 0, 0xFE];

#[test]
fn blocks_from_256_on_are_written_by_numbers_of_two_bytes(rt: HostRuntime) -> Result<(), Fail> {
    let message: [u8; 1024] = std::array::from_fn(|i| (i % 256) as u8);
    let row = Row {
        message: &message,
        told: Ok(()),
        answered: 771,
        // the last is the length's block, and the one before it block 259; the fifth is block 256
        asked: &[
            (
                2,
                &[0x22, 0x31, 6, 5, 4, 3, 2, 1, 4, 0xE0, 3, 1, 0xFE, 0, 0, 0],
            ),
            (
                5,
                &[
                    0x22, 0x31, 6, 5, 4, 3, 2, 1, 4, 0xE0, 0, 1, 0xF4, 0xF5, 0xF6, 0xF7,
                ],
            ),
        ],
        holds: &[],
    };
    writes_t5(&rt, rt.alloc(), 2048, 4, &WIDE, &[row])
}

#[test]
fn a_message_of_a_byte_more_than_a_wide_area_is_too_long(rt: HostRuntime) -> Result<(), Fail> {
    let row = Row {
        message: &[0; 2037],
        told: Err(WriteFault::TooLong(2036)),
        answered: 512,
        asked: &[],
        holds: &[],
    };
    writes_t5(&rt, rt.alloc(), 2048, 4, &WIDE, &[row])
}
