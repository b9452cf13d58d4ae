//! Writes the files of Type 4 tags.

use crate::MemLink;
use crate::rows::{Row, is_row};
use crate::stop_tests::{Stop, is_one_of_three};
use std::alloc::Global;
use std::process::Abort;
use std::test::Fail;
use t4t_tag::T4Tag;
use tag_reader::{How, ReadFault, read};
use tag_writer::{WriteFault, write};

/// A container of a real tag that is free to write: updates of at most 13 bytes, a file E104h of 512 bytes.
const CONTAINER: [u8; 15] = [
    0x00, 0x0F, 0x20, 0x00, 0x3B, 0x00, 0x0D, 0x04, 0x06, 0xE1, 0x04, 0x02, 0x00, 0x00, 0x00,
];

/// A file with a message of three bytes.
const OLD: [u8; 5] = [0, 3, 0xD0, 0, 0];

/// How many commands stand before the first update.
const SURVEY: usize = 5;

/// The container with other bytes for the most that one update brings, and another access.
fn container_with(mlc: [u8; 2], access: u8) -> [u8; 15] {
    let [a, b, c, d, e, _, _, h, i, j, k, l, m, n, _] = CONTAINER;
    let [high, low] = mlc;
    [a, b, c, d, e, high, low, h, i, j, k, l, m, n, access]
}

/// A tag whose file of 512 bytes begins so.
fn tag_t4(alloc: Global, container: &[u8; 15], head: &[u8]) -> Result<T4Tag, Fail> {
    let mut file = head.to_vec(alloc)?;
    file.resize(512, 0)?;
    Ok(T4Tag::new(8, container.to_vec(alloc)?, file)?)
}

fn write_t4(alloc: Global, link: &mut MemLink<T4Tag>, message: &[u8]) -> Result<(), WriteFault> {
    write(alloc, link, How::T4, message)
}

/// What a tag holds once the field is there again.
fn left_t4(alloc: Global, link: &mut MemLink<T4Tag>) -> Result<Vec<u8>, ReadFault> {
    link.light();
    let found = read(alloc, link, How::T4)?;
    Ok(found.message.into_vec())
}

/// A write to a file that begins so comes to what the row says; what is read then, where the file holds a message.
fn writes(
    rt: &impl Abort,
    alloc: Global,
    container: &[u8; 15],
    head: &[u8],
    row: &Row,
) -> Result<Option<Vec<u8>>, Fail> {
    let mut link = MemLink::new(alloc, tag_t4(alloc, container, head)?);
    let told = write_t4(alloc, &mut link, row.message);
    is_row(rt, row, told, &link.answered, link.card.file());
    Ok(left_t4(alloc, &mut link).ok())
}

/// The same, and what is read then is the message.
fn takes(
    rt: &impl Abort,
    alloc: Global,
    container: &[u8; 15],
    head: &[u8],
    row: &Row,
) -> Result<(), Fail> {
    match writes(rt, alloc, container, head, row)? {
        Some(message) => assert_eq!(rt; message.as_slice(), row.message),
        None => return Err(Fail::new("no message")),
    }
    Ok(())
}

#[test]
fn a_message_comes_by_updates(rt: HostRuntime) -> Result<(), Fail> {
    let message: [u8; 300] = std::array::from_fn(|i| (i % 251) as u8 + 1);
    let second = b"\x00\xD6\x00\x02\x0D\x01\x02\x03\x04\x05\x06\x07\x08\x09\x0A\x0B\x0C\x0D";
    // the length becomes 0, 24 pieces of at most 13 bytes come, and the length is shown
    let row = Row {
        message: &message,
        told: Ok(()),
        answered: SURVEY + 26,
        asked: &[
            (26, b"\x00\xD6\x00\x00\x02\x00\x00"),
            (25, second),
            (2, b"\x00\xD6\x01\x2D\x01\x31"),
            (1, b"\x00\xD6\x00\x00\x02\x01\x2C"),
        ],
        holds: &[(0, &[1, 0x2C]), (2, &message), (302, &[0; 210])],
    };
    takes(&rt, rt.alloc(), &CONTAINER, &OLD, &row)
}

#[test]
fn an_update_brings_255_bytes_at_most(rt: HostRuntime) -> Result<(), Fail> {
    let mut first = [7; 260];
    [first[0], first[1], first[2], first[3], first[4]] = [0, 0xD6, 0, 2, 0xFF];
    let mut last = [7; 50];
    [last[0], last[1], last[2], last[3], last[4]] = [0, 0xD6, 1, 1, 0x2D];
    let row = Row {
        message: &[7; 300],
        told: Ok(()),
        answered: SURVEY + 4,
        asked: &[(3, &first), (2, &last)],
        holds: &[],
    };
    takes(&rt, rt.alloc(), &container_with([4, 0], 0), &OLD, &row)
}

#[test]
fn an_update_that_changes_no_length_is_left_out(rt: HostRuntime) -> Result<(), Fail> {
    // the old message, the new one, and how many updates stand for it
    const CASES: [(&[u8], &[u8], usize); 4] = [
        (&[0, 0], &[], 0),
        (&OLD, &[], 1),
        (&[0, 0], &[1, 2, 3], 2),
        (&OLD, &[1, 2, 3], 3),
    ];
    for &(old, message, updates) in &CASES {
        let row = Row {
            message,
            told: Ok(()),
            answered: SURVEY + updates,
            asked: &[],
            holds: &[],
        };
        takes(&rt, rt.alloc(), &CONTAINER, old, &row)?;
    }
    Ok(())
}

#[test]
fn what_a_file_declines_changes_nothing(rt: HostRuntime) -> Result<(), Fail> {
    let long = [0; 511];
    // writing that isn't free is told first, then a message that is too long, and then updates that are too short
    let cases: [(u8, u8, &[u8], &[u8], WriteFault); 7] = [
        (13, 0xFF, &OLD, &[1], WriteFault::ReadOnly),
        (1, 0xFF, &OLD, &long, WriteFault::ReadOnly),
        (13, 0, &OLD, &long, WriteFault::TooLong(510)),
        (1, 0, &OLD, &long, WriteFault::TooLong(510)),
        (1, 0, &OLD, &[1], WriteFault::ShortMlc),
        (0, 0, &OLD, &[], WriteFault::ShortMlc),
        (13, 0, &[1, 0xFF], &[1], WriteFault::BadTlv),
    ];
    for (mlc, access, old, message, fault) in cases {
        let row = Row {
            message,
            told: Err(fault),
            answered: SURVEY,
            asked: &[],
            holds: &[(0, old)],
        };
        writes(
            &rt,
            rt.alloc(),
            &container_with([0, mlc], access),
            old,
            &row,
        )?;
    }
    Ok(())
}

#[test]
fn a_message_fills_the_file(rt: HostRuntime) -> Result<(), Fail> {
    let row = Row {
        message: &[9; 510],
        told: Ok(()),
        answered: SURVEY + 42,
        asked: &[],
        holds: &[(0, &[1, 0xFE]), (2, &[9; 510])],
    };
    takes(&rt, rt.alloc(), &CONTAINER, &OLD, &row)
}

/// A write of ten commands is lost there: the survey, the length, three pieces, and the length again.
fn stops(rt: &impl Abort, alloc: Global, stop: &Stop) -> Result<(), Fail> {
    let tag = tag_t4(alloc, &CONTAINER, stop.head)?;
    let mut link = MemLink::lost_after(alloc, tag, stop.left, stop.behind);
    let told = write_t4(alloc, &mut link, stop.new);
    let is_lost = stop.left < 10;
    assert_eq!(rt; told == Err(WriteFault::FieldLost), is_lost, "{told:?}");
    let held = left_t4(alloc, &mut link)?;
    is_one_of_three(rt, stop, !is_lost || told.is_ok(), &held);
    assert!(rt;
        stop.left >= 5 || held.as_slice() == stop.old,
        "at {}",
        stop.left
    );
    Ok(())
}

#[test]
fn each_stop_leaves_one_of_three_messages(rt: HostRuntime) -> Result<(), Fail> {
    for at in 0..22u16 {
        let stop = Stop {
            head: &OLD,
            size: 512,
            old: &[0xD0, 0, 0],
            new: &[8; 30],
            left: at / 2,
            behind: at % 2 == 1,
        };
        stops(&rt, rt.alloc(), &stop)?;
    }
    Ok(())
}
