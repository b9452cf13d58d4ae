//! Both ends, row by row.

use crate::{CardEnd, CardStep, ReaderEnd, ReaderStep};
use nfc_base::{Frame, Heard, Tech};
use std::process::Abort;
use std::test::Fail;

/// Whether a card's step is of this kind, with these bytes.
fn card_does(step: &CardStep, kind: u8, bytes: &[u8]) -> bool {
    match step {
        CardStep::Quiet => kind == b'q',
        CardStep::Reply(frame) => kind == b'r' && frame.view() == bytes,
        CardStep::Deliver(command) => kind == b'd' && command.as_slice() == bytes,
        CardStep::Asleep(frame) => kind == b's' && frame.view() == bytes,
    }
}

fn reader_does(step: &ReaderStep, kind: u8, bytes: &[u8]) -> bool {
    match step {
        ReaderStep::Send(frame) => kind == b's' && frame.view() == bytes,
        ReaderStep::Finished(answer) => kind == b'f' && answer.as_slice() == bytes,
        ReaderStep::SixBad => kind == b'6',
        ReaderStep::Protocol => kind == b'p',
    }
}

/// What goes in at an end, the kind of what comes of it, and the bytes of that. A frame is heard, unless the kind says
/// otherwise: kind `=` is an answer that a card gives, and its frame; `b` a command that a reader begins, and its first
/// frame; at `0` a card loses the field.
type Row<'a> = (&'a [u8], u8, &'a [u8]);

fn card_follows(card: &mut CardEnd, row: &Row) -> Result<bool, Fail> {
    let (bytes, kind, wanted) = *row;
    match kind {
        b'=' => Ok(card.reply(&bytes[..bytes.len().min(264)]).view() == wanted),
        b'0' => {
            card.dark();
            Ok(true)
        }
        _ => {
            let step = card.hear(&Frame::whole(Tech::A, bytes)?);
            Ok(card_does(&step, kind, wanted))
        }
    }
}

fn walk_card<R: Abort>(rt: &R, card: &mut CardEnd, rows: &[Row]) -> Result<(), Fail> {
    for row in rows {
        assert!(rt; card_follows(card, row)?, "at {row:?}");
    }
    Ok(())
}

/// A frame of no bytes stands for a silent reception.
fn heard(bytes: &[u8]) -> Result<Heard, Fail> {
    if bytes.is_empty() {
        return Ok(Heard::Silent);
    }
    Ok(Heard::Whole(Frame::whole(Tech::A, bytes)?))
}

fn reader_follows(reader: &mut ReaderEnd, row: &Row) -> Result<bool, Fail> {
    let (bytes, kind, wanted) = *row;
    if kind == b'b' {
        let first = reader.begin(&bytes[..bytes.len().min(264)]);
        return Ok(first.view() == wanted);
    }
    let step = reader.next(&heard(bytes)?);
    Ok(reader_does(&step, kind, wanted))
}

fn walk_reader<R: Abort>(rt: &R, reader: &mut ReaderEnd, rows: &[Row]) -> Result<(), Fail> {
    for row in rows {
        assert!(rt; reader_follows(reader, row)?, "at {row:?}");
    }
    Ok(())
}

/// The bytes from 0 on, as many as a long chain has.
pub fn counted() -> [u8; 264] {
    let mut bytes = [0; 264];
    for (at, byte) in bytes.iter_mut().enumerate() {
        *byte = (at & 0xFF) as u8;
    }
    bytes
}

/// A card that is asked nothing yet, up to its first command, and the answer to that.
const UNTIL_A_COMMAND: [Row; 11] = [
    (&[0xB2], b'r', &[0xA3]),
    (&[0xB3], b'q', &[]),
    (&[0xA3], b'q', &[]),
    (&[0xA2], b'q', &[]),
    (&[0xE0, 0x80], b'r', &[2, 8]),
    (&[0xE0, 0xF0], b'r', &[2, 8]),
    (&[0xE0], b'q', &[]),
    (&[], b'q', &[]),
    (&[0xF2, 1], b'q', &[]),
    (&[2, 0, 0xA4], b'd', &[0, 0xA4]),
    (&[0x90, 0], b'=', &[2, 0x90, 0]),
];

const BEHIND_AN_ANSWER: [Row; 10] = [
    (&[0xB2], b'r', &[2, 0x90, 0]),
    (&[0xA2], b'r', &[2, 0x90, 0]),
    (&[0xB3], b'r', &[0xA2]),
    (&[0xB2], b'r', &[2, 0x90, 0]),
    (&[0xA3], b'q', &[]),
    (&[0xE0, 0x80], b'q', &[]),
    (&[0xF2, 3], b'q', &[]),
    (&[0xA2, 0], b'q', &[]),
    (&[0xC3], b'q', &[]),
    (&[0xC2], b's', &[0xC2]),
];

/// A card is silent at a frame of NFC-V, and at one whose last byte isn't whole.
fn is_silent_at_others<R: Abort>(rt: &R, card: &mut CardEnd) -> Result<(), Fail> {
    for (tech, byte, tail) in [(Tech::V, 0xB2, 0), (Tech::A, 0x32, 7)] {
        let step = card.hear(&Frame::part(tech, &[byte], tail)?);
        assert!(rt; card_does(&step, b'q', &[]), "at {byte:x}");
    }
    Ok(())
}

#[test]
fn card_rows(rt: HostRuntime) -> Result<(), Fail> {
    let mut card = CardEnd::new(8);
    walk_card(&rt, &mut card, &UNTIL_A_COMMAND)?;
    walk_card(&rt, &mut card, &BEHIND_AN_ANSWER)?;
    is_silent_at_others(&rt, &mut card)?;
    card.dark();
    walk_card(&rt, &mut card, &UNTIL_A_COMMAND)
}

#[test]
fn reader_rows(rt: HostRuntime) -> Result<(), Fail> {
    let rows: [Row; 12] = [
        (
            &[0, 1, 2, 3, 4, 5, 6, 7, 8, 9, 10, 11, 12, 13, 14],
            b'b',
            &[0x12, 0, 1, 2, 3, 4, 5, 6, 7, 8, 9, 10, 11, 12],
        ),
        (&[], b's', &[0xB2]),
        (
            &[0xA3],
            b's',
            &[0x12, 0, 1, 2, 3, 4, 5, 6, 7, 8, 9, 10, 11, 12],
        ),
        (&[], b's', &[0xB2]),
        (&[0xA2], b's', &[3, 13, 14]),
        (&[], b's', &[0xB3]),
        (&[0x13, 7, 8], b's', &[0xA2]),
        (&[], b's', &[0xA2]),
        (&[0x12, 9], b's', &[0xA3]),
        (&[3, 10], b'f', &[7, 8, 9, 10]),
        (&[1], b'b', &[2, 1]),
        (&[2], b'f', &[]),
    ];
    walk_reader(&rt, &mut ReaderEnd::new(0), &rows)
}

#[test]
fn a_busy_card_asks_for_more_time(rt: HostRuntime) -> Result<(), Fail> {
    let mut card = CardEnd::new(8);
    card.set_busy(2, 5);
    let rows: [Row; 13] = [
        (&[2, 0, 0xA4], b'd', &[0, 0xA4]),
        (&[0x90, 0], b'=', &[0xF2, 5]),
        (&[0xB2], b'r', &[0xF2, 5]),
        (&[0xF2, 4], b'q', &[]),
        (&[0xF2, 5], b'r', &[0xF2, 5]),
        (&[0xA3], b'q', &[]),
        (&[0xF2, 5], b'r', &[2, 0x90, 0]),
        (&[0xF2, 5], b'q', &[]),
        (&[0xB2], b'r', &[2, 0x90, 0]),
        (&[3], b'd', &[]),
        (&[], b'0', &[]),
        (&[2], b'd', &[]),
        (&[], b'=', &[0xF2, 5]),
    ];
    walk_card(&rt, &mut card, &rows)
}

/// Its one piece waits for the time to be granted, and comes behind an I-block that chains, which asks for no more
/// time.
#[test]
fn an_empty_answer_has_one_piece(rt: HostRuntime) -> Result<(), Fail> {
    let mut card = CardEnd::new(8);
    card.set_busy(1, 5);
    let rows: [Row; 7] = [
        (&[2, 0, 0xA4], b'd', &[0, 0xA4]),
        (&[], b'=', &[0xF2, 5]),
        (&[0xA3], b'q', &[]),
        (&[0x13, 0xAA], b'r', &[0xA3]),
        (&[0xA2], b'r', &[2]),
        (&[0xA2], b'r', &[2]),
        (&[0xA3], b'q', &[]),
    ];
    walk_card(&rt, &mut card, &rows)
}

/// Blocks that ask for one again, and time that is granted, deliver nothing, before an answer and behind it.
#[test]
fn a_card_that_asks_five_times_delivers_each_command_once(rt: HostRuntime) -> Result<(), Fail> {
    let mut card = CardEnd::new(8);
    card.set_busy(5, 59);
    let rows: [Row; 17] = [
        (&[0x12, 0xAA], b'r', &[0xA2]),
        (&[0xB2], b'r', &[0xA2]),
        (&[3, 0xBB], b'd', &[0xAA, 0xBB]),
        (&[0x90, 0], b'=', &[0xF2, 59]),
        (&[0xB3], b'r', &[0xF2, 59]),
        (&[0xF2, 59], b'r', &[0xF2, 59]),
        (&[0xF2, 59], b'r', &[0xF2, 59]),
        (&[0xF2, 59], b'r', &[0xF2, 59]),
        (&[0xF2, 59], b'r', &[0xF2, 59]),
        (&[0xF2, 59], b'r', &[3, 0x90, 0]),
        (&[0xF2, 59], b'q', &[]),
        (&[0xB3], b'r', &[3, 0x90, 0]),
        (&[2, 0xCC], b'd', &[0xCC]),
        (&[], b'=', &[0xF2, 59]),
        (&[3, 0xDD], b'd', &[0xDD]),
        (&[], b'=', &[0xF2, 59]),
        (&[0xB3], b'r', &[0xF2, 59]),
    ];
    walk_card(&rt, &mut card, &rows)
}

#[test]
fn a_reader_grants_more_time(rt: HostRuntime) -> Result<(), Fail> {
    let mut reader = ReaderEnd::new(8);
    let rows: [Row; 7] = [
        (&[1], b'b', &[2, 1]),
        (&[0xF2, 5], b's', &[0xF2, 5]),
        (&[], b's', &[0xB2]),
        (&[0xF2, 5], b's', &[0xF2, 5]),
        (&[], b's', &[0xB2]),
        (&[2, 0x90, 0], b'f', &[0x90, 0]),
        (&[1], b'b', &[3, 1]),
    ];
    walk_reader(&rt, &mut reader, &rows)?;
    for _ in 0..16u8 {
        walk_reader(&rt, &mut reader, &[(&[0xF2, 5], b's', &[0xF2, 5])])?;
    }
    let ends: [Row; 2] = [(&[0xF2, 5], b'p', &[]), (&[], b'p', &[])];
    walk_reader(&rt, &mut reader, &ends)
}

/// What a reader doesn't take after one I-block with number 0, in one piece or with more behind it.
fn refused<R: Abort>(rt: &R, size: usize, frame: &[u8]) -> Result<(), Fail> {
    let mut reader = ReaderEnd::new(0);
    let _ = reader.begin(&counted()[..size.min(264)]);
    let rows: [Row; 6] = [
        (frame, b'p', &[]),
        (&[2, 0x90, 0], b'p', &[]),
        (&[], b'p', &[]),
        (frame, b'p', &[]),
        (&[5], b'b', &[2, 5]),
        (&[2, 9], b'f', &[9]),
    ];
    walk_reader(rt, &mut reader, &rows)
}

#[test]
fn whole_frames_that_are_not_allowed(rt: HostRuntime) -> Result<(), Fail> {
    let rows: [(usize, &[u8]); 13] = [
        (1, &[3, 0x90, 0]),
        (1, &[0xA2]),
        (1, &[0xA3]),
        (1, &[0xB2]),
        (1, &[0xC2]),
        (1, &[0xF2, 0]),
        (1, &[0xF2, 60]),
        (14, &[0xF2, 1]),
        (1, &[0x12]),
        (1, &[0x6A]),
        (14, &[0xA3]),
        (14, &[2, 0x90, 0]),
        (1, &[2; 266]),
    ];
    for (size, frame) in rows {
        refused(&rt, size, frame)?;
    }
    let mut long = [2; 266];
    long[0] = 0x12;
    refused(&rt, 1, &long)
}

/// The reception with this number of four that bring nothing whole.
fn bad(number: u8) -> Result<Heard, Fail> {
    match number {
        1 => Ok(Heard::Damaged),
        2 => Ok(Heard::Collided(Frame::whole(Tech::A, &[2])?)),
        _ => Ok(Heard::Silent),
    }
}

#[test]
fn the_sixth_bad_reception_ends_a_wait(rt: HostRuntime) -> Result<(), Fail> {
    let mut reader = ReaderEnd::new(8);
    let _ = reader.begin(&[7]);
    for number in 0..4u8 {
        let step = reader.next(&bad(number)?);
        assert!(rt; reader_does(&step, b's', &[0xB2]), "at {number}");
    }
    let rows: [Row; 8] = [
        (&[], b's', &[0xB2]),
        (&[0xA3], b's', &[2, 7]),
        (&[], b'6', &[]),
        (&[2, 9], b'6', &[]),
        (&[], b'6', &[]),
        (&[5], b'b', &[2, 5]),
        (&[], b's', &[0xB2]),
        (&[2, 9], b'f', &[9]),
    ];
    walk_reader(&rt, &mut reader, &rows)
}

/// A card follows a row whose frame has so many bytes: this one, and behind it all are 12.
fn follows_block(card: &mut CardEnd, row: &(u8, usize, u8, &[u8])) -> Result<bool, Fail> {
    let (first, size, kind, wanted) = *row;
    let mut block = [0x12; 134];
    block[0] = first;
    card_follows(card, &(&block[..size.min(134)], kind, wanted))
}

#[test]
fn a_chain_above_264_bytes_makes_the_card_silent(rt: HostRuntime) -> Result<(), Fail> {
    let mut card = CardEnd::new(8);
    let rows: [(u8, usize, u8, &[u8]); 7] = [
        (0x12, 133, b'r', &[0xA2]),
        (0x13, 134, b'q', &[]),
        (0xC2, 1, b'q', &[]),
        (0xB2, 1, b'q', &[]),
        (0, 0, b'0', &[]),
        (0x12, 133, b'r', &[0xA2]),
        (3, 133, b'd', &[0x12; 264]),
    ];
    for row in &rows {
        assert!(rt; follows_block(&mut card, row)?, "at {row:?}");
    }
    Ok(())
}

/// The block of a command, and that of its answer.
type Asked<'a> = (&'a [u8], &'a [u8]);

/// One exchange in one block each way.
fn ask<R: Abort>(
    rt: &R,
    reader: &mut ReaderEnd,
    card: &mut CardEnd,
    row: &Asked,
) -> Result<(), Fail> {
    let (block, back) = *row;
    let command = &block[1.min(block.len())..];
    let answer = &back[1.min(back.len())..];
    walk_reader(rt, reader, &[(command, b'b', block)])?;
    walk_card(rt, card, &[(block, b'd', command), (answer, b'=', back)])?;
    walk_reader(rt, reader, &[(back, b'f', answer)])
}

/// The blocks of a tag's commands and answers, as a reader of its message sends and hears them.
const READING: [Asked; 6] = [
    (
        &[
            0x02, 0x00, 0xA4, 0x04, 0x00, 0x07, 0xD2, 0x76, 0x00, 0x00, 0x85, 0x01, 0x01, 0x00,
        ],
        &[0x02, 0x90, 0x00],
    ),
    (
        &[0x03, 0x00, 0xA4, 0x00, 0x0C, 0x02, 0xE1, 0x03],
        &[0x03, 0x90, 0x00],
    ),
    (
        &[0x02, 0x00, 0xB0, 0x00, 0x00, 0x0F],
        &[
            0x02, 0x00, 0x0F, 0x20, 0x00, 0x3B, 0x00, 0x0D, 0x04, 0x06, 0xE1, 0x04, 0x02, 0x00,
            0x00, 0x00, 0x90, 0x00,
        ],
    ),
    (
        &[0x03, 0x00, 0xA4, 0x00, 0x0C, 0x02, 0xE1, 0x04],
        &[0x03, 0x90, 0x00],
    ),
    (
        &[0x02, 0x00, 0xB0, 0x00, 0x00, 0x02],
        &[0x02, 0x00, 0x03, 0x90, 0x00],
    ),
    (
        &[0x03, 0x00, 0xB0, 0x00, 0x02, 0x03],
        &[0x03, 0xD0, 0x00, 0x00, 0x90, 0x00],
    ),
];

#[test]
fn commands_of_a_tag_that_is_read(rt: HostRuntime) -> Result<(), Fail> {
    let mut card = CardEnd::new(8);
    walk_card(&rt, &mut card, &[(&[0xE0, 0x80], b'r', &[2, 8])])?;
    let mut reader = ReaderEnd::new(8);
    for row in &READING {
        ask(&rt, &mut reader, &mut card, row)?;
    }
    Ok(())
}
