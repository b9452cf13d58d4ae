//! Reads tags of each kind, whatever they hold and answer.

ghost use Rattle.std.specs.Prelude.{◌≡◌, None, false};
ghost use Rattle.tag_reader.specs.Kinds.{kind_of, IsNamed};

use crate::rows::store_of;
use crate::write_tests::ID;
use crate::{Awake, Card, MemLink, Odd};
use nfc_base::{Frame, Tech};
use std::alloc::Global;
use std::process::Abort;
use std::test::Fail;
use t2t_tag::T2Tag;
use t4t_tag::T4Tag;
use t5t_tag::T5Tag;
use tag_reader::{Found, How, ReadFault, Site, one_asked, read};

/// A store of so many bytes that begins with zeros and goes on with these, and what a reading of it tells: a fault's
/// number or 0, the message, whether writing is free, and how many commands it asks.
#[derive(Clone, Copy)]
struct Row<'a> {
    zeros: usize,
    size: usize,
    head: &'a [u8],
    fault: u8,
    message: &'a [u8],
    writable: bool,
    asks: usize,
}

/// The row's store.
fn row_store(alloc: Global, row: &Row) -> Result<Vec<u8>, Fail> {
    store_of(alloc, row.zeros, row.size, row.head)
}

/// Whether a message of so many bytes lies there.
fn fits(site: &Site, length: usize) -> bool {
    match site {
        Site::Area(map) => map.length as usize == length,
        Site::File(map) => length < map.size as usize,
    }
}

/// Whether a reading told what the row says.
fn is_told(row: &Row, outcome: &Result<Found, ReadFault>, asks: usize) -> bool {
    let told = match outcome {
        Err(fault) => fault.number() == row.fault,
        Ok(found) => {
            row.fault == 0
                && found.message.as_slice() == row.message
                && found.writable == row.writable
                && fits(&found.site, row.message.len())
        }
    };
    told && asks == row.asks
}

fn read_t2(alloc: Global, tag: T2Tag, left: u16) -> (Result<Found, ReadFault>, usize) {
    let _shape = tag.store();
    let mut link = MemLink::lost_after(alloc, tag, left, false);
    let outcome = read(alloc, &mut link, How::T2);
    (outcome, link.answered.len())
}

fn read_t4(alloc: Global, tag: T4Tag, left: u16) -> (Result<Found, ReadFault>, usize) {
    let _shape = tag.file();
    let mut link = MemLink::lost_after(alloc, tag, left, false);
    let outcome = read(alloc, &mut link, How::T4);
    (outcome, link.answered.len())
}

fn read_t5(alloc: Global, id: [u8; 8], tag: T5Tag) -> (Result<Found, ReadFault>, usize)
    requires named { tag.id ≡ id }
    requires awake { tag.quiet ≡ false }
    requires apart { tag.round ≡ None }
{
    let _shape = tag.store();
    let mut link = MemLink::new(alloc, Awake { tag });
    let outcome = read(alloc, &mut link, How::T5(id));
    (outcome, link.answered.len())
}

fn read_odd<C: Card>(
    alloc: Global,
    card: C,
    how: How,
    answer: Frame,
) -> (Result<Found, ReadFault>, usize)
where
    C: Drop,
    requires kind { C.kind card ≡ kind_of how }
    requires named { IsNamed how (C.identifier card) }
{
    let mut link = MemLink::new(alloc, Odd { card, answer });
    let outcome = read(alloc, &mut link, how);
    (outcome, link.answered.len())
}

/// A reading told what the row says.
fn is_row(rt: &impl Abort, row: &Row, (outcome, asks): (Result<Found, ReadFault>, usize)) {
    assert!(rt;
        is_told(row, &outcome, asks),
        "at {:?}: {outcome:?} {asks}",
        row.head
    );
}

/// A Type 2 tag whose link is lost after so many commands is read as the row says.
fn reads_t2(rt: &impl Abort, alloc: Global, row: &Row, left: u16) -> Result<(), Fail> {
    let tag = T2Tag::new(row_store(alloc, row)?)?;
    is_row(rt, row, read_t2(alloc, tag, left));
    Ok(())
}

/// A Type 5 tag with blocks of so many bytes is read as the row says.
fn reads_t5(rt: &impl Abort, alloc: Global, block: u8, row: &Row) -> Result<(), Fail> {
    let tag = T5Tag::new(ID, row_store(alloc, row)?, block)?;
    is_row(rt, row, read_t5(alloc, ID, tag));
    Ok(())
}

/// A store's size, its first bytes, the fault's number or 0, the message, and how many commands tell it.
type Case<'a> = (usize, &'a [u8], u8, &'a [u8], usize);

/// The row of a case whose store may be written.
fn row_of<'a>(zeros: usize, (size, head, fault, message, asks): Case<'a>) -> Row<'a> {
    Row {
        zeros,
        size,
        head,
        fault,
        message,
        writable: true,
        asks,
    }
}

#[test]
fn reads_type_2_tags(rt: HostRuntime) -> Result<(), Fail> {
    const CASES: [Case; 16] = [
        (
            64,
            &[0xE1, 0x10, 6, 0, 3, 3, 0xD0, 0, 0, 0xFE],
            0,
            &[0xD0, 0, 0],
            2,
        ),
        // as it is sold
        (
            180,
            &[0xE1, 0x10, 0x12, 0, 1, 3, 0xA0, 0x0C, 0x34, 3, 0, 0xFE],
            0,
            &[],
            2,
        ),
        // a length of three bytes
        (
            64,
            &[0xE1, 0x10, 6, 0, 3, 0xFF, 0, 3, 0xD0, 0, 0, 0xFE],
            0,
            &[0xD0, 0, 0],
            2,
        ),
        (
            64,
            b"\xE1\x10\x06\x00\x03\x08elephant\xFE",
            0,
            b"elephant",
            2,
        ),
        // two messages
        (
            64,
            &[
                0xE1, 0x10, 6, 0, 3, 4, 0xDE, 0xAD, 0xBE, 0xEF, 3, 1, 0x42, 0xFE,
            ],
            0,
            &[0xDE, 0xAD, 0xBE, 0xEF],
            2,
        ),
        // a range of four bytes at 32 is reserved
        (
            64,
            &[
                0xE1, 0x10, 6, 0, 2, 3, 0x20, 4, 4, 3, 12, 1, 2, 3, 4, 5, 6, 7, 8, 9, 0xAA, 0xBB,
                0xCC, 0xDD, 10, 11, 12, 0xFE,
            ],
            0,
            &[1, 2, 3, 4, 5, 6, 7, 8, 9, 10, 11, 12],
            3,
        ),
        // six blocks: a READ of the fifth goes on with the first
        (
            24,
            &[0xE1, 0x10, 1, 0, 3, 6, 1, 2, 3, 4, 5, 6],
            0,
            &[1, 2, 3, 4, 5, 6],
            2,
        ),
        (64, &[0, 0, 0, 0], 1, &[], 1),
        (64, &[0xE1, 0x20, 6, 0], 2, &[], 1),
        (64, &[0xE1, 0x10, 6, 0xF0], 3, &[], 1),
        (64, &[0xE1, 0x10, 0x7F, 0], 4, &[], 1),
        (64, &[0xE1, 0x10, 0, 0], 5, &[], 1),
        (64, &[0xE1, 0x10, 6, 0, 0xFE], 6, &[], 2),
        (64, &[0xE1, 0x10, 6, 0], 6, &[], 4),
        (64, &[0xE1, 0x10, 6, 0, 3, 0x30], 7, &[], 2),
        (64, &[0xE1, 0x10, 6, 0, 3, 0xFF, 0xFF, 0xFF], 7, &[], 2),
    ];
    for &case in &CASES {
        reads_t2(&rt, rt.alloc(), &row_of(12, case), 1000)?;
    }
    Ok(())
}

/// A message of a Type 5 tag.
const THREE: [u8; 3] = [0xD0, 0, 0];

/// Its area: whole, cut by the tag's end, and such that allow READ MULTIPLE BLOCKS.
const WHOLE: [u8; 10] = [0xE1, 0x40, 0x0F, 0, 3, 3, 0xD0, 0, 0, 0xFE];

const CUT: [u8; 10] = [0xE1, 0x40, 6, 0, 3, 3, 0xD0, 0, 0, 0xFE];

const MANY: [u8; 10] = [0xE1, 0x40, 7, 1, 3, 3, 0xD0, 0, 0, 0xFE];

const REFUSED: [u8; 10] = [0xE1, 0x40, 0x0F, 1, 3, 3, 0xD0, 0, 0, 0xFE];

/// Containers of eight bytes: with block numbers of two bytes, and of one.
const WIDE: [u8; 14] = [0xE2, 0x40, 0, 0, 0, 0, 0, 0xFF, 3, 3, 0xD0, 0, 0, 0xFE];

const NARROW: [u8; 14] = [0xE1, 0x40, 0, 0, 0, 0, 0, 0xFF, 3, 3, 0xD0, 0, 0, 0xFE];

#[test]
fn reads_type_5_tags(rt: HostRuntime) -> Result<(), Fail> {
    // the size of a block, and the case
    const CASES: [(u8, Case); 25] = [
        (4, (128, &WHOLE, 0, &THREE, 3)),
        (4, (16, &CUT, 0, &THREE, 3)),
        (32, (32, &CUT, 0, &THREE, 1)),
        (4, (16, &[0, 0, 0, 0], 1, &[], 1)),
        (4, (16, &[0xE1, 0x80, 6, 0], 2, &[], 1)),
        (4, (16, &[0xE1, 0x4C, 6, 0], 3, &[], 1)),
        (4, (16, &[0xE1, 0x40, 0, 0], 5, &[], 2)),
        // the tag ends before its area, where nothing was found or a value goes on
        (4, (16, &[0xE1, 0x40, 6, 0], 6, &[], 5)),
        (4, (16, &[0xE1, 0x40, 6, 0, 3, 0x20], 7, &[], 5)),
        (4, (16, &[0xE1, 0x40, 6, 0, 3, 0x30], 7, &[], 2)),
        // the numbers of blocks end before the area
        (4, (1024, &[0xE1, 0x40, 0xFF, 0], 6, &[], 256)),
        // several blocks at once, and a refusal of that: each is asked for alone then
        (4, (64, &MANY, 0, &THREE, 2)),
        (4, (64, &REFUSED, 0, &THREE, 4)),
        (8, (64, &MANY, 0, &THREE, 2)),
        (16, (64, &MANY, 0, &THREE, 1)),
        // the container is read by single blocks until it is whole, or until the tag ends
        (4, (2048, &WIDE, 0, &THREE, 4)),
        (4, (2048, &NARROW, 0, &THREE, 4)),
        (8, (2048, &WIDE, 0, &THREE, 2)),
        (4, (4, &[0xE1, 0x40, 0, 0], 5, &[], 2)),
        (4, (8, &[0xE2, 0x40, 0, 0], 5, &[], 2)),
        // blocks from 256 on, by numbers of two bytes; a container with E1h names no such blocks
        (
            4,
            (
                2048,
                &[0xE2, 0x40, 0, 0, 0, 0, 0, 0xFF, 3, 0xFF, 4, 0],
                0,
                &[0; 1024],
                259,
            ),
        ),
        (
            4,
            (
                2048,
                &[0xE2, 0x40, 0, 1, 0, 0, 0, 0xFF, 3, 0xFF, 4, 0],
                0,
                &[0; 1024],
                9,
            ),
        ),
        (
            4,
            (
                2048,
                &[0xE1, 0x40, 0, 1, 0, 0, 0, 0xFF, 3, 0xFF, 4, 0],
                7,
                &[],
                3,
            ),
        ),
        (4, (1028, &[0xE2, 0x40, 0, 0, 0, 0, 0, 0x81], 6, &[], 258)),
        // the largest tag
        (
            32,
            (
                65536,
                &[0xE2, 0x40, 0, 1, 0, 0, 0x1F, 0xFF, 3, 0xFF, 0xFF, 0xFE],
                7,
                &[],
                1,
            ),
        ),
    ];
    for &(block, case) in &CASES {
        reads_t5(&rt, rt.alloc(), block, &row_of(0, case))?;
    }
    Ok(())
}

/// An area that is closed to writing.
const CLOSED: [u8; 7] = [0xE1, 0x10, 6, 0x0F, 3, 0, 0xFE];

#[test]
fn reads_what_is_closed(rt: HostRuntime) -> Result<(), Fail> {
    let mut row = row_of(12, (64, &CLOSED, 0, &[], 2));
    row.writable = false;
    reads_t2(&rt, rt.alloc(), &row, 1000)
}

#[test]
fn reads_what_goes_away(rt: HostRuntime) -> Result<(), Fail> {
    for left in 0..2u16 {
        let row = row_of(12, (64, &CLOSED, 9, &[], left as usize));
        reads_t2(&rt, rt.alloc(), &row, left)?;
    }
    Ok(())
}

/// The law on what is asked is called for a store.
#[test]
fn a_store_has_one_list_of_what_is_asked(rt: HostRuntime) -> Result<(), Fail> {
    let tag = T2Tag::new(store_of(rt.alloc(), 12, 64, &[0xE1, 0x10, 6, 0x0F, 3, 0, 0xFE])?)?;
    one_asked(How::T2, 16, tag.store());
    Ok(())
}

/// A container of a real tag: reads of at most 59 bytes, a file E104h of 2,048 bytes, free to read and to write.
const CONTAINER: [u8; 15] = [
    0x00, 0x0F, 0x20, 0x00, 0x3B, 0x00, 0x34, 0x04, 0x06, 0xE1, 0x04, 0x08, 0x00, 0x00, 0x00,
];

/// Its message.
const MESSAGE: [u8; 15] = *b"\xD1\x01\x0B\x54\x02enNFC TEST";

/// The container, but for some of its bytes.
fn container_with(changes: &[(usize, u8)]) -> [u8; 15] {
    let mut container = CONTAINER;
    for (at, byte) in changes {
        if *at < 15 {
            container[*at] = *byte;
        }
    }
    container
}

/// A tag with a container, and a file of as many bytes as it says, which begins with these.
pub fn tag_t4(alloc: Global, container: &[u8; 15], head: &[u8]) -> Result<T4Tag, Fail> {
    let size = container[11] as usize * 256 + container[12] as usize;
    let mut file = head.to_vec(alloc)?;
    file.resize(size, 0)?;
    Ok(T4Tag::new(8, container.to_vec(alloc)?, file)?)
}

/// A Type 4 tag with a changed container is read as the row says.
fn reads_t4(
    rt: &impl Abort,
    alloc: Global,
    changes: &[(usize, u8)],
    row: &Row,
    left: u16,
) -> Result<(), Fail> {
    let tag = tag_t4(alloc, &container_with(changes), row.head)?;
    is_row(rt, row, read_t4(alloc, tag, left));
    Ok(())
}

/// A file that holds the message.
const PLAIN: [u8; 17] = *b"\x00\x0F\xD1\x01\x0B\x54\x02enNFC TEST";

#[test]
fn reads_type_4_tags(rt: HostRuntime) -> Result<(), Fail> {
    // how the container differs, and the case, whose size the container says
    const CASES: [(&[(usize, u8)], Case); 17] = [
        (&[], (0, &PLAIN, 0, &MESSAGE, 6)),
        (&[], (0, &[0, 0], 0, &[], 5)),
        (&[(2, 0x30)], (0, &[0, 0], 0, &[], 5)),
        // a file that its message fills, in four reads; one byte more passes its end
        (&[(4, 15), (11, 0), (12, 59)], (0, &[0, 57], 0, &[0; 57], 9)),
        (&[(4, 15), (11, 0), (12, 59)], (0, &[0, 58], 7, &[], 5)),
        (&[(11, 0), (12, 2)], (0, &[0, 0], 0, &[], 5)),
        (&[(11, 0), (12, 2)], (0, &[0, 1], 7, &[], 5)),
        (&[], (0, &[0xFF, 0xFF], 7, &[], 5)),
        // reads of more than 255 bytes are allowed, and not asked for
        (&[(3, 1)], (0, &[1, 44], 0, &[0; 300], 7)),
        (&[(7, 5)], (0, &[], 1, &[], 3)),
        (&[(2, 0x10)], (0, &[], 2, &[], 3)),
        (&[(13, 0xFF)], (0, &[], 3, &[], 3)),
        (&[(1, 14)], (0, &[], 5, &[], 3)),
        (&[(4, 0)], (0, &[], 5, &[], 3)),
        (&[(4, 14)], (0, &[], 5, &[], 3)),
        (&[(11, 0), (12, 1)], (0, &[], 5, &[], 3)),
        (&[(7, 5), (2, 0x10)], (0, &[], 1, &[], 3)),
    ];
    for &(changes, case) in &CASES {
        reads_t4(&rt, rt.alloc(), changes, &row_of(0, case), 1000)?;
    }
    Ok(())
}

#[test]
fn reads_a_file_that_is_closed(rt: HostRuntime) -> Result<(), Fail> {
    let mut row = row_of(0, (0, &[0, 1, 0xD0], 0, &[0xD0], 6));
    row.writable = false;
    reads_t4(&rt, rt.alloc(), &[(14, 0xFF)], &row, 1000)
}

#[test]
fn reads_a_file_that_goes_away(rt: HostRuntime) -> Result<(), Fail> {
    for left in 0..6u16 {
        let row = row_of(0, (0, &PLAIN, 9, &[], left as usize));
        reads_t4(&rt, rt.alloc(), &[], &row, left)?;
    }
    Ok(())
}

/// The container says a file that isn't there as a whole.
#[test]
fn no_tag_has_a_file_that_is_shorter_than_its_container_says(rt: HostRuntime) -> Result<(), Fail> {
    let container = CONTAINER.to_vec(rt.alloc())?;
    let file = vec![in rt.alloc(); 0u8; 2047]?;
    assert!(rt; T4Tag::new(8, container, file).is_err());
    Ok(())
}

/// The commands of the Linux kernel's reader, whose SELECT by name asks for no answer: the tag obeys them one for one,
/// and is read the same by `read`.
#[test]
fn a_tag_tells_the_same_to_another_reader(rt: HostRuntime) -> Result<(), Fail> {
    let mut tag = tag_t4(rt.alloc(), &CONTAINER, &PLAIN)?;
    const ROWS: [(&[u8], &[u8]); 6] = [
        (
            b"\x00\xA4\x04\x00\x07\xD2\x76\x00\x00\x85\x01\x01",
            &[0x90, 0],
        ),
        (b"\x00\xA4\x00\x0C\x02\xE1\x03", &[0x90, 0]),
        (
            b"\x00\xB0\x00\x00\x0F",
            b"\x00\x0F\x20\x00\x3B\x00\x34\x04\x06\xE1\x04\x08\x00\x00\x00\x90\x00",
        ),
        (b"\x00\xA4\x00\x0C\x02\xE1\x04", &[0x90, 0]),
        (b"\x00\xB0\x00\x00\x02", &[0x00, 0x0F, 0x90, 0]),
        (
            b"\x00\xB0\x00\x02\x0F",
            b"\xD1\x01\x0B\x54\x02enNFC TEST\x90\x00",
        ),
    ];
    for &(command, answer) in &ROWS {
        assert_eq!(rt; tag.obey(command).as_slice(), answer, "at {command:?}");
    }
    let row = row_of(0, (0, &PLAIN, 0, &MESSAGE, 6));
    is_row(&rt, &row, read_t4(rt.alloc(), tag, 1000));
    Ok(())
}

/// An answer, how many bits of its last byte count, 0 for all of them, the fault that a reading tells then, and after
/// how many commands.
type OddCase<'a> = (&'a [u8], u8, ReadFault, usize);

/// A reading of a card that gives the row's answer told the row's fault.
fn is_odd<C: Card>(
    rt: &impl Abort,
    alloc: Global,
    case: OddCase,
    tech: Tech,
    card: C,
    how: How,
) -> Result<(), Fail>
where
    C: Drop,
    requires kind { C.kind card ≡ kind_of how }
    requires named { IsNamed how (C.identifier card) }
{
    let (bytes, tail, fault, asks) = case;
    let answer = Frame::part(tech, bytes, tail)?;
    let (outcome, asked) = read_odd(alloc, card, how, answer);
    let told = match &outcome {
        Err(told) => *told == fault,
        Ok(_) => false,
    };
    assert!(rt; told && asked == asks, "at {bytes:?}: {outcome:?}");
    Ok(())
}

#[test]
fn tells_what_other_type_2_tags_answer(rt: HostRuntime) -> Result<(), Fail> {
    const CASES: [OddCase; 5] = [
        (&[0x0], 4, ReadFault::Refused(0), 1),
        (&[0xA], 4, ReadFault::Protocol, 1),
        (&[0; 15], 0, ReadFault::Protocol, 1),
        (&[0; 17], 0, ReadFault::Protocol, 1),
        (&[0; 16], 0, ReadFault::NotNdef, 1),
    ];
    for &case in &CASES {
        let tag = T2Tag::new(store_of(rt.alloc(), 12, 64, &[])?)?;
        is_odd(&rt, rt.alloc(), case, Tech::A, tag, How::T2)?;
    }
    Ok(())
}

#[test]
fn tells_what_other_type_4_tags_answer(rt: HostRuntime) -> Result<(), Fail> {
    const CASES: [OddCase; 5] = [
        (&[0x6A, 0x82], 0, ReadFault::Refused(0x6A82), 1),
        (&[0x90], 0, ReadFault::Protocol, 1),
        // SELECT of the application may bring bytes, SELECT of a file none, a read as many as it asks for
        (&[0x6F, 0x90, 0x00], 0, ReadFault::Protocol, 2),
        (&[0x90, 0x00], 0, ReadFault::Protocol, 3),
        (&[0x90, 0x00], 5, ReadFault::Protocol, 1),
    ];
    for &case in &CASES {
        let tag = tag_t4(rt.alloc(), &CONTAINER, &[])?;
        is_odd(&rt, rt.alloc(), case, Tech::A, tag, How::T4)?;
    }
    Ok(())
}

#[test]
fn tells_what_other_type_5_tags_answer(rt: HostRuntime) -> Result<(), Fail> {
    const CASES: [OddCase; 5] = [
        (&[0x01, 0x0F], 0, ReadFault::Refused(0x0F), 1),
        (&[0x01, 0x10], 0, ReadFault::Refused(0x10), 1),
        // no block, and one too short for the container
        (&[0; 1], 0, ReadFault::Protocol, 1),
        (&[0; 4], 0, ReadFault::Protocol, 1),
        (&[0; 5], 0, ReadFault::NotNdef, 1),
    ];
    for &case in &CASES {
        let tag = T5Tag::new(ID, store_of(rt.alloc(), 0, 16, &[])?, 4)?;
        let _shape = tag.store();
        is_odd(&rt, rt.alloc(), case, Tech::V, Awake { tag }, How::T5(ID))?;
    }
    Ok(())
}
