//! What is read of tags over a link in memory, what is asked for it, and why there is none.

use crate::t3_tags::{attributes, changed, link_to, read, told};
use crate::{ENOUGH, MemLink};
use std::alloc::Global;
use std::process::Abort;
use std::test::Fail;
use t3t_access::T3Fault;
use t3t_tag::T3Tag;

/// Blocks of the tag, Nbr, Nmaxb, RWFlag and length, and how many Checks the reading takes.
const READS: [(usize, u8, u16, u8, u16, usize); 16] = [
    (14, 4, 13, 1, 3, 2),
    (14, 4, 13, 1, 0, 1),
    (14, 4, 13, 0, 16, 2),
    (14, 4, 13, 1, 17, 2),
    (14, 4, 13, 1, 64, 2),
    (14, 4, 13, 1, 65, 3),
    (14, 4, 13, 1, 208, 5),
    (14, 1, 13, 1, 208, 14),
    (14, 15, 13, 1, 208, 2),
    (14, 200, 13, 1, 208, 2),
    (2, 200, 1, 1, 16, 2),
    (2, 1, 1, 1, 0, 1),
    (256, 200, 255, 1, 4080, 18),
    (256, 4, 255, 1, 4079, 65),
    (256, 1, 255, 1, 33, 4),
    (256, 15, 13, 1, 208, 2),
];

/// A reading over this link tells a message of so many bytes by so many Checks, those of the tag's store, and whether
/// writing is free.
fn reads(
    rt: &impl Abort,
    alloc: Global,
    link: &mut MemLink<T3Tag>,
    (access, length, checks): (u8, u16, usize),
) {
    let Ok(found) = read(alloc, link) else {
        assert!(rt; false, "at {access} {length} {checks}");
        return;
    };
    let told = (found.writable, found.message.len(), link.answered.len());
    assert_eq!(rt; told, (access == 1, length as usize, checks));
    let (_, rest) = link.card.store().split_at(16);
    assert!(rt; rest.starts_with(&found.message), "at {length}");
}

#[test]
fn reads_by_as_many_blocks_as_the_tag_allows(rt: HostRuntime) -> Result<(), Fail> {
    for &(blocks, most, named, access, length, checks) in &READS {
        let block = attributes(most, named, 0, access, length);
        let mut link = link_to(rt.alloc(), blocks, &block, ENOUGH, false)?;
        reads(&rt, rt.alloc(), &mut link, (access, length, checks));
    }
    Ok(())
}

/// Nbr, Nmaxb, WriteFlag and length, a byte of the attribute block that is another then, and the number of the fault.
const FAULTS: [(u8, u16, u8, u16, usize, u8, u8); 9] = [
    (4, 13, 0, 3, 5, 1, 1),
    (4, 13, 0, 3, 15, 0, 1),
    (0, 13, 0, 3, 0, 0x10, 5),
    (4, 0, 0, 0, 0, 0x10, 5),
    (4, 256, 0, 3, 0, 0x10, 5),
    (4, 13, 0, 209, 0, 0x10, 5),
    (4, 13, 0x0F, 3, 0, 0x10, 16),
    (4, 13, 0x01, 208, 0, 0x10, 16),
    (4, 13, 0, 3, 0, 0x20, 1),
];

/// One Check of a tag with this attribute block tells the fault with this number, and the block stays.
fn tells_fault(rt: &impl Abort, alloc: Global, block: &[u8], number: u8) -> Result<(), Fail> {
    let mut link = link_to(alloc, 14, block, ENOUGH, false)?;
    let outcome = (told(alloc, &mut link), link.answered.len());
    assert_eq!(rt; outcome, (number, 1), "at {block:?}");
    assert!(rt; link.card.store().starts_with(block));
    Ok(())
}

#[test]
fn tells_why_a_store_has_no_message(rt: HostRuntime) -> Result<(), Fail> {
    for &(most, named, flag, length, at, byte, number) in &FAULTS {
        let block = changed(attributes(most, named, flag, 1, length), at, byte);
        tells_fault(&rt, rt.alloc(), &block, number)?;
    }
    let mut other = attributes(4, 13, 0, 1, 3);
    other[0] = 0x20;
    other[15] = other[15].wrapping_add(0x10);
    tells_fault(&rt, rt.alloc(), &other, T3Fault::Version.number())
}

/// A link that is lost before or behind the command after so many: of the five of a reading of 208 bytes.
#[test]
fn a_lost_link_is_told_and_changes_nothing(rt: HostRuntime) -> Result<(), Fail> {
    let block = attributes(4, 13, 0, 1, 208);
    for left in 0..7u16 {
        for behind in [false, true] {
            let mut link = link_to(rt.alloc(), 14, &block, left, behind)?;
            let number = told(rt.alloc(), &mut link);
            assert_eq!(rt; number, if left < 5 { 9 } else { 0 }, "at {left} {behind}");
            let again = if left < 5 {
                told(rt.alloc(), &mut link)
            } else {
                9
            };
            assert_eq!(rt; again, 9, "at {left} {behind}");
            assert!(rt; link.card.store().starts_with(&block), "at {left} {behind}");
        }
    }
    Ok(())
}

/// The frames of a reading of three bytes from a tag of fourteen blocks.
const ASKED: [[u8; 16]; 2] = [
    [0x10, 6, 1, 2, 3, 4, 5, 6, 7, 8, 1, 0x0B, 0, 1, 0x80, 0],
    [0x10, 6, 1, 2, 3, 4, 5, 6, 7, 8, 1, 0x0B, 0, 1, 0x80, 1],
];

fn was_asked(rt: &impl Abort, link: &MemLink<T3Tag>, frames: &[[u8; 16]]) {
    for (answered, frame) in link.answered.iter().zip(frames.iter()) {
        assert!(rt; answered.view() == frame.as_slice(), "{answered:?}");
    }
    assert_eq!(rt; link.answered.len(), frames.len());
}

#[test]
fn asks_these_frames(rt: HostRuntime) -> Result<(), Fail> {
    let mut link = link_to(rt.alloc(), 14, &attributes(4, 13, 0, 1, 3), ENOUGH, false)?;
    let found = read(rt.alloc(), &mut link);
    assert!(rt;
        found.is_ok_and(|found| found.message.as_slice() == [1, 2, 3].as_slice() && found.writable)
    );
    was_asked(&rt, &link, &ASKED);
    Ok(())
}
