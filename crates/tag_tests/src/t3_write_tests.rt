//! What is written to tags over a link in memory, what is asked for it, and what a stop leaves.

use crate::t3_tags::{attributes, changed, link_to, read, told};
use crate::{ENOUGH, MemLink};
use std::alloc::Global;
use std::process::Abort;
use std::test::Fail;
use t3t_access::{T3Fault, write3};
use t3t_tag::T3Tag;

/// How many bytes are written to a tag of fourteen blocks.
const LENGTHS: [usize; 5] = [0, 1, 16, 17, 208];

/// What the write flag is before the write.
const FLAGS: [u8; 2] = [0, 0x0F];

/// A message of so many bytes, none of which a tag has before.
fn message(alloc: Global, size: usize) -> Result<Vec<u8>, Fail> {
    let mut bytes = Vec::new(alloc);
    for _ in 0..size {
        bytes.push(0xD1)?;
    }
    Ok(bytes)
}

/// The number of what a write tells, 0 where the message is written.
fn write(alloc: Global, link: &mut MemLink<T3Tag>, message: &[u8]) -> u8 {
    let id = link.card.id();
    match write3(alloc, link, id, message) {
        Ok(()) => 0,
        Err(fault) => fault.number(),
    }
}

/// What a tag reads as: its old message of three bytes, one of these bytes, or neither since a write is unfinished.
#[derive(Clone, Copy, Debug, PartialEq, Eq)]
enum Left {
    Old,
    Unfinished,
    New,
    Other,
}

fn reads_as(alloc: Global, link: &mut MemLink<T3Tag>, message: &[u8]) -> Left {
    match read(alloc, link) {
        Err(T3Fault::Unfinished) => Left::Unfinished,
        Err(_) => Left::Other,
        Ok(found) => {
            if found.message.as_slice() == message {
                return Left::New;
            }
            if found.message.as_slice() == [1, 2, 3].as_slice() {
                return Left::Old;
            }
            Left::Other
        }
    }
}

/// What is left once so many Updates were obeyed of a message of so many blocks.
fn expected(flag: u8, obeyed: usize, blocks: usize) -> Left {
    if obeyed >= blocks.saturating_add(2) {
        return Left::New;
    }
    if obeyed > 0 || flag != 0 {
        return Left::Unfinished;
    }
    Left::Old
}

#[test]
fn a_message_is_written_and_read(rt: HostRuntime) -> Result<(), Fail> {
    for size in LENGTHS {
        for flag in FLAGS {
            let block = attributes(4, 13, flag, 1, 3);
            let mut link = link_to(rt.alloc(), 14, &block, ENOUGH, false)?;
            let message = message(rt.alloc(), size)?;
            assert_eq!(rt;
                write(rt.alloc(), &mut link, &message),
                0,
                "at {size} {flag}"
            );
            let commands = size.div_ceil(16).saturating_add(3);
            assert_eq!(rt; link.answered.len(), commands, "at {size} {flag}");
            let fresh = attributes(4, 13, 0, 1, size as u16);
            assert!(rt; link.card.store().starts_with(&fresh), "at {size} {flag}");
            assert_eq!(rt;
                reads_as(rt.alloc(), &mut link, &message),
                Left::New,
                "at {size} {flag}"
            );
        }
    }
    Ok(())
}

/// A write of so many bytes is lost before the command behind so many, or behind that one: what the tag reads as then.
fn stops(
    rt: &impl Abort,
    alloc: Global,
    (size, flag): (usize, u8),
    (commands, behind): (u16, bool),
) -> Result<(), Fail> {
    let block = attributes(4, 13, flag, 1, 3);
    let mut link = link_to(alloc, 14, &block, commands, behind)?;
    let message = message(alloc, size)?;
    let number = write(alloc, &mut link, &message);
    let blocks = size.div_ceil(16);
    let obeyed = (commands as usize)
        .saturating_add(behind as usize)
        .saturating_sub(1);
    link.light();
    let left = reads_as(alloc, &mut link, &message);
    let told = if commands as usize >= blocks.saturating_add(3) {
        0
    } else {
        9
    };
    assert_eq!(rt;
        (number, left),
        (told, expected(flag, obeyed, blocks)),
        "at {size} {flag} {commands} {behind}"
    );
    Ok(())
}

/// A link that is lost before or behind each command.
#[test]
fn a_stop_leaves_the_old_message_or_the_new_one_or_says_so(rt: HostRuntime) -> Result<(), Fail> {
    for &size in &LENGTHS {
        for &flag in &FLAGS {
            for commands in 0..size.div_ceil(16).saturating_add(4).min(20) {
                stops(&rt, rt.alloc(), (size, flag), (commands as u16, false))?;
                stops(&rt, rt.alloc(), (size, flag), (commands as u16, true))?;
            }
        }
    }
    Ok(())
}

#[test]
fn a_locked_block_is_told(rt: HostRuntime) -> Result<(), Fail> {
    for size in LENGTHS {
        for locked in 0..14u16 {
            let mut link = link_to(rt.alloc(), 14, &attributes(4, 13, 0, 1, 3), ENOUGH, false)?;
            if locked < link.card.blocks() {
                link.card.lock(locked);
            }
            let message = message(rt.alloc(), size)?;
            let id = link.card.id();
            let result = write3(rt.alloc(), &mut link, id, &message);
            let blocks = size.div_ceil(16);
            let refused = locked as usize <= blocks;
            let told = result.is_err_and(|fault| fault == T3Fault::Refused(0xFF03));
            assert_eq!(rt; told, refused, "at {size} {locked}");
            let obeyed = if refused {
                locked as usize
            } else {
                blocks.saturating_add(2)
            };
            let left = reads_as(rt.alloc(), &mut link, &message);
            assert_eq!(rt; left, expected(0, obeyed, blocks), "at {size} {locked}");
        }
    }
    Ok(())
}

/// Nbr, Nmaxb, WriteFlag, RWFlag and length, a byte of the attribute block that is another then, how many bytes are
/// written, and the number of the fault.
const REFUSED: [(u8, u16, u8, u8, u16, usize, u8, usize, u8); 10] = [
    (4, 13, 0, 1, 3, 5, 1, 1, 1),
    (4, 13, 0, 0, 3, 15, 0, 209, 1),
    (0, 13, 0, 1, 3, 16, 0, 1, 5),
    (4, 0, 0, 1, 0, 16, 0, 1, 5),
    (4, 256, 0, 0, 3, 16, 0, 1, 5),
    (4, 13, 0, 1, 209, 16, 0, 1, 5),
    (4, 13, 0, 0, 3, 16, 0, 1, 12),
    (4, 13, 0x0F, 0, 3, 16, 0, 209, 12),
    (4, 13, 0, 1, 3, 16, 0, 209, 13),
    (4, 13, 0x0F, 1, 3, 16, 0, 209, 13),
];

/// A write of so many bytes to a tag with this attribute block asks for that block, tells the fault with this number,
/// and the block stays.
fn is_declined(
    rt: &impl Abort,
    alloc: Global,
    block: &[u8],
    size: usize,
    number: u8,
) -> Result<(), Fail> {
    let mut link = link_to(alloc, 14, block, ENOUGH, false)?;
    let message = message(alloc, size)?;
    let told = (write(alloc, &mut link, &message), link.answered.len());
    assert_eq!(rt; told, (number, 1), "at {block:?} {size}");
    assert!(rt; link.card.store().starts_with(block));
    Ok(())
}

#[test]
fn what_takes_no_message_stays(rt: HostRuntime) -> Result<(), Fail> {
    for &(most, named, flag, access, length, at, byte, size, number) in &REFUSED {
        let block = changed(attributes(most, named, flag, access, length), at, byte);
        is_declined(&rt, rt.alloc(), &block, size, number)?;
    }
    Ok(())
}

#[test]
fn the_place_is_told(rt: HostRuntime) -> Result<(), Fail> {
    let mut link = link_to(rt.alloc(), 14, &attributes(4, 13, 0, 1, 3), ENOUGH, false)?;
    let message = message(rt.alloc(), 209)?;
    let id = link.card.id();
    let result = write3(rt.alloc(), &mut link, id, &message);
    assert!(rt; result.is_err_and(|fault| fault == T3Fault::TooLong(208)));
    assert_eq!(rt; told(rt.alloc(), &mut link), 0);
    Ok(())
}

/// The Updates of a write of one byte to a tag of fourteen blocks.
const UPDATES: [[u8; 32]; 3] = [
    [
        0x20, 8, 1, 2, 3, 4, 5, 6, 7, 8, 1, 9, 0, 1, 0x80, 0, 0x10, 4, 1, 0, 0x0D, 0, 0, 0, 0,
        0x0F, 1, 0, 0, 3, 0, 0x35,
    ],
    [
        0x20, 8, 1, 2, 3, 4, 5, 6, 7, 8, 1, 9, 0, 1, 0x80, 1, 0xD1, 0, 0, 0, 0, 0, 0, 0, 0, 0, 0,
        0, 0, 0, 0, 0,
    ],
    [
        0x20, 8, 1, 2, 3, 4, 5, 6, 7, 8, 1, 9, 0, 1, 0x80, 0, 0x10, 4, 1, 0, 0x0D, 0, 0, 0, 0, 0,
        1, 0, 0, 1, 0, 0x24,
    ],
];

#[test]
fn asks_these_updates(rt: HostRuntime) -> Result<(), Fail> {
    let mut link = link_to(rt.alloc(), 14, &attributes(4, 13, 0, 1, 3), ENOUGH, false)?;
    assert_eq!(rt; write(rt.alloc(), &mut link, &[0xD1]), 0);
    for (answered, frame) in link.answered.iter().skip(1).zip(UPDATES.iter()) {
        assert!(rt; answered.view() == frame.as_slice(), "{answered:?}");
    }
    assert_eq!(rt; link.answered.len(), 4);
    Ok(())
}
