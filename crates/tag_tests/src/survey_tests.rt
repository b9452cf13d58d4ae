//! Surveys tags in memory.

ghost use Rattle.std.specs.Prelude.{◌≡◌, IfOk};
ghost use Rattle.tag_reader.specs.Kinds.{kind_of, IsNamed};
ghost use Rattle.tag_reader.specs.Survey.{IsPlacedGround};

use crate::read_tests::tag_t4;
use crate::rows::{store_of, were_asked};
use crate::write_tests::{ID, tag_t2, tag_t5};
use crate::{Card, MemLink, Mute, Odd};
use nfc_base::{Frame, Tech};
use std::alloc::Global;
use std::process::Abort;
use std::test::Fail;
use tag_reader::{Ground, How, ReadFault, survey};
use tlv_area::{FileMap, capacity};

/// A survey of a card, and the link behind it.
fn survey_card<C: Card>(
    alloc: Global,
    card: C,
    how: How,
    left: u16,
) -> (Result<Ground, ReadFault>, MemLink<C>)
where
    C: Drop,
    requires kind { C.kind card ≡ kind_of how }
    requires named { IsNamed how (C.identifier card) }
    ensures places { IfOk result.0 IsPlacedGround }
{
    let mut link = MemLink::lost_after(alloc, card, left, false);
    let outcome = survey(alloc, &mut link, how);
    (outcome, link)
}

/// What a survey of an area tells: how many bytes of the store are known, how long a message may be, and how many
/// commands it takes.
#[derive(Clone, Copy)]
struct AreaRow<'a> {
    size: usize,
    head: &'a [u8],
    block: u8,
    known: usize,
    capacity: u32,
    asks: usize,
}

/// Whether a survey told what the row says of this store.
fn is_known(row: &AreaRow, store: &[u8], outcome: &Result<Ground, ReadFault>, asks: usize) -> bool
    requires places { IfOk outcome.now IsPlacedGround }
{
    match outcome {
        Ok(Ground::Area { known, block, map }) => {
            *block == row.block as u32
                && known.as_slice().len() == row.known
                && store.starts_with(known.as_slice())
                && capacity(map) == row.capacity
                && asks == row.asks
        }
        _ => false,
    }
}

/// A store's size, its first bytes, the size of a block, how many bytes are known, the capacity, and how many commands
/// tell it.
type AreaCase<'a> = (usize, &'a [u8], u8, usize, u32, usize);

fn row_of<'a>((size, head, block, known, capacity, asks): AreaCase<'a>) -> AreaRow<'a> {
    AreaRow {
        size,
        head,
        block,
        known,
        capacity,
        asks,
    }
}

/// A Type 2 tag's survey tells what the row says, and the tag stays.
fn surveys_t2(rt: &impl Abort, alloc: Global, row: &AreaRow) -> Result<(), Fail> {
    let store = store_of(alloc, 12, row.size, row.head)?;
    let tag = tag_t2(alloc, row.size, row.head)?;
    let (outcome, link) = survey_card(alloc, tag, How::T2, 1000);
    assert!(rt;
        is_known(row, &store, &outcome, link.answered.len()),
        "at {:?}: {outcome:?}",
        row.head
    );
    assert_eq!(rt; link.card.store(), store.as_slice());
    Ok(())
}

/// A Type 5 tag's survey, likewise.
fn surveys_t5(rt: &impl Abort, alloc: Global, row: &AreaRow) -> Result<(), Fail> {
    let store = store_of(alloc, 0, row.size, row.head)?;
    let card = tag_t5(alloc, row.size, row.block, row.head)?;
    let _shape = card.tag.store();
    let (outcome, link) = survey_card(alloc, card, How::T5(ID), 1000);
    assert!(rt;
        is_known(row, &store, &outcome, link.answered.len()),
        "at {:?}: {outcome:?} {}",
        row.head,
        link.answered.len()
    );
    assert_eq!(rt; link.card.tag.store(), store.as_slice());
    Ok(())
}

#[test]
fn surveys_type_2_tags(rt: HostRuntime) -> Result<(), Fail> {
    const CASES: [AreaCase; 6] = [
        (64, &[0xE1, 0x10, 6, 0, 3, 0, 0xFE], 4, 64, 46, 4),
        // what stands behind the message is read too, and a faulty TLV there says nothing
        (64, &[0xE1, 0x10, 6, 0, 3, 0, 3, 0xFF, 0xFF], 4, 64, 46, 4),
        (
            64,
            &[0xE1, 0x10, 6, 0, 2, 3, 0x20, 4, 4, 3, 0, 0xFE],
            4,
            64,
            37,
            4,
        ),
        // six blocks: the second READ goes on with the first ones, which aren't known twice
        (24, &[0xE1, 0x10, 1, 0, 3, 0, 0xFE], 4, 24, 6, 2),
        // the store goes on behind its area
        (
            64,
            &[0xE1, 0x10, 1, 0, 3, 2, 1, 2, 0xFE, 9, 9, 9],
            4,
            24,
            6,
            2,
        ),
        (1024, &[0xE1, 0x10, 0x7E, 0, 3, 0], 4, 1024, 1004, 64),
    ];
    for &case in &CASES {
        surveys_t2(&rt, rt.alloc(), &row_of(case))?;
    }
    Ok(())
}

#[test]
fn surveys_type_5_tags(rt: HostRuntime) -> Result<(), Fail> {
    const CASES: [AreaCase; 7] = [
        // the tag ends before its area, and the last command tells it
        (16, &[0xE1, 0x40, 6, 0, 3, 0, 0xFE], 4, 16, 10, 5),
        (16, &[0xE1, 0x40, 6, 1, 3, 0, 0xFE], 4, 16, 10, 6),
        (32, &[0xE1, 0x40, 6, 0, 3, 0, 0xFE], 32, 32, 26, 2),
        // the area ends within a block
        (32, &[0xE1, 0x40, 1, 0, 3, 0, 0xFE], 8, 16, 6, 2),
        // block numbers of two bytes, and of one: they end behind block 255
        (
            2048,
            &[0xE2, 0x40, 0, 0, 0, 0, 0, 0xFF, 3, 3, 0xD0, 0, 0, 0xFE],
            4,
            2048,
            2036,
            512,
        ),
        (
            2048,
            &[0xE2, 0x40, 0, 1, 0, 0, 0, 0xFF, 3, 3, 0xD0, 0, 0, 0xFE],
            4,
            2048,
            2036,
            262,
        ),
        (
            2048,
            &[0xE1, 0x40, 0, 0, 0, 0, 0, 0xFF, 3, 3, 0xD0, 0, 0, 0xFE],
            4,
            1024,
            1012,
            256,
        ),
    ];
    for &case in &CASES {
        surveys_t5(&rt, rt.alloc(), &row_of(case))?;
    }
    Ok(())
}

/// A container of a real tag that is free to write: updates of at most 13 bytes, a file E104h of 512 bytes.
const CONTAINER: [u8; 15] = [
    0x00, 0x0F, 0x20, 0x00, 0x3B, 0x00, 0x0D, 0x04, 0x06, 0xE1, 0x04, 0x02, 0x00, 0x00, 0x00,
];

fn is_file(outcome: &Result<Ground, ReadFault>, map: FileMap, count: u16) -> bool {
    match outcome {
        Ok(Ground::File { map: told, length }) => *told == map && *length == count,
        _ => false,
    }
}

/// Of a file no byte of the message is read, and the file stays selected.
#[test]
fn surveys_a_file_by_its_length_alone(rt: HostRuntime) -> Result<(), Fail> {
    let tag = tag_t4(rt.alloc(), &CONTAINER, &[0, 3, 0xD0, 0, 0])?;
    let (outcome, link) = survey_card(rt.alloc(), tag, How::T4, 1000);
    let map = FileMap {
        id: 0xE104,
        size: 512,
        mle: 59,
        mlc: 13,
        writable: true,
    };
    assert!(rt; is_file(&outcome, map, 3), "{outcome:?}");
    let commands: [(usize, &[u8]); 5] = [
        (5, b"\x00\xA4\x04\x00\x07\xD2\x76\x00\x00\x85\x01\x01\x00"),
        (4, b"\x00\xA4\x00\x0C\x02\xE1\x03"),
        (3, b"\x00\xB0\x00\x00\x0F"),
        (2, b"\x00\xA4\x00\x0C\x02\xE1\x04"),
        (1, b"\x00\xB0\x00\x00\x02"),
    ];
    assert_eq!(rt; link.answered.len(), commands.len());
    were_asked(&rt, &link.answered, &commands);
    let mut tag = link.card;
    let file = [0, 3, 0xD0, 0, 0, 0x90, 0];
    assert_eq!(rt;
        tag.obey(b"\x00\xB0\x00\x00\x05").as_slice(),
        file.as_slice()
    );
    Ok(())
}

/// A survey of a card whose link is lost after so many commands tells this fault, behind so many commands.
fn tells_fault<C: Card>(
    rt: &impl Abort,
    alloc: Global,
    card: C,
    how: How,
    left: u16,
    wanted: (u8, usize),
)
where
    C: Drop,
    requires kind { C.kind card ≡ kind_of how }
    requires named { IsNamed how (C.identifier card) }
{
    let (outcome, link) = survey_card(alloc, card, how, left);
    let told = match &outcome {
        Err(told) => told.number(),
        Ok(_) => 0,
    };
    assert_eq!(rt; (told, link.answered.len()), wanted, "{outcome:?}");
}

#[test]
fn a_survey_tells_each_fault_of_a_type_2_tag(rt: HostRuntime) -> Result<(), Fail> {
    // the store, and its fault with the commands that it takes
    const ROWS: [(&[u8], u8, usize); 7] = [
        (&[0, 0, 0, 0], 1, 1),
        (&[0xE1, 0x20, 6, 0], 2, 1),
        (&[0xE1, 0x10, 6, 0xF0], 3, 1),
        (&[0xE1, 0x10, 0x7F, 0], 4, 1),
        (&[0xE1, 0x10, 0, 0], 5, 1),
        // an area is read to its end before a fault in it is told
        (&[0xE1, 0x10, 6, 0, 0xFE], 6, 4),
        (&[0xE1, 0x10, 6, 0, 3, 0x30], 7, 4),
    ];
    for &(head, fault, asks) in &ROWS {
        let tag = tag_t2(rt.alloc(), 64, head)?;
        tells_fault(&rt, rt.alloc(), tag, How::T2, 1000, (fault, asks));
    }
    Ok(())
}

#[test]
fn a_survey_tells_each_fault_of_a_type_5_tag(rt: HostRuntime) -> Result<(), Fail> {
    const ROWS: [(&[u8], u8, usize); 7] = [
        (&[0, 0, 0, 0], 1, 1),
        (&[0xE1, 0x80, 6, 0], 2, 1),
        (&[0xE1, 0x4C, 6, 0], 3, 1),
        (&[0xE1, 0x40, 0, 0], 5, 2),
        (&[0xE1, 0x40, 6, 0], 6, 5),
        (&[0xE1, 0x40, 6, 0, 0xFE], 6, 5),
        (&[0xE1, 0x40, 6, 0, 3, 0x20], 7, 5),
    ];
    for &(head, fault, asks) in &ROWS {
        let card = tag_t5(rt.alloc(), 16, 4, head)?;
        let _shape = card.tag.store();
        tells_fault(&rt, rt.alloc(), card, How::T5(ID), 1000, (fault, asks));
    }
    Ok(())
}

#[test]
fn a_survey_tells_each_fault_of_a_type_4_tag(rt: HostRuntime) -> Result<(), Fail> {
    // a container with another byte, and a length that passes the end of the file
    let rows: [(usize, u8, u8, usize); 5] = [
        (7, 5, 1, 3),
        (2, 0x10, 2, 3),
        (13, 0xFF, 3, 3),
        (1, 14, 5, 3),
        (11, 0, 7, 5),
    ];
    for (at, byte, fault, asks) in rows {
        let mut container = CONTAINER;
        container[12] = 4;
        container[at] = byte;
        let tag = tag_t4(rt.alloc(), &container, &[0, 3])?;
        tells_fault(&rt, rt.alloc(), tag, How::T4, 1000, (fault, asks));
    }
    Ok(())
}

#[test]
fn a_survey_tells_where_its_link_was_lost(rt: HostRuntime) -> Result<(), Fail> {
    for left in 0..4u16 {
        let tag = tag_t2(rt.alloc(), 64, &[0xE1, 0x10, 6, 0, 3, 0, 0xFE])?;
        tells_fault(&rt, rt.alloc(), tag, How::T2, left, (9, left as usize));
    }
    for left in 0..5u16 {
        let tag = tag_t4(rt.alloc(), &CONTAINER, &[0, 0])?;
        tells_fault(&rt, rt.alloc(), tag, How::T4, left, (9, left as usize));
    }
    Ok(())
}

#[test]
fn a_survey_tells_what_other_tags_answer(rt: HostRuntime) -> Result<(), Fail> {
    let head = [0xE1, 0x10, 6, 0, 3, 0, 0xFE];
    let card = Mute {
        card: tag_t2(rt.alloc(), 64, &head)?,
    };
    tells_fault(&rt, rt.alloc(), card, How::T2, 1000, (10, 0));
    let rows: [(&[u8], ReadFault); 2] = [
        (&[0x0], ReadFault::Refused(0)),
        (&[0xA], ReadFault::Protocol),
    ];
    for (bytes, fault) in rows {
        let card = Odd {
            card: tag_t2(rt.alloc(), 64, &head)?,
            answer: Frame::part(Tech::A, bytes, 4)?,
        };
        tells_fault(&rt, rt.alloc(), card, How::T2, 1000, (fault.number(), 1));
    }
    Ok(())
}
