//! What Type 3 tags answer frame by frame, which stores they have, and their grammar.

use arrayvec::ArrayVec;
use nfc_base::{Frame, Tech};
use std::alloc::Global;
use std::process::Abort;
use std::test::Fail;
use t3t_tag::{T3Answer, T3Command, T3Tag};

const ID: [u8; 8] = [1, 2, 3, 4, 5, 6, 7, 8];

/// The attribute block of a tag of fourteen blocks that holds a message of three bytes.
const ATTRIBUTES: [u8; 16] = [0x10, 4, 1, 0, 0x0D, 0, 0, 0, 0, 0, 1, 0, 0, 3, 0, 0x26];

/// A tag of so many blocks, at most 256, 0 but for its attribute block and a message.
fn tag(alloc: Global, blocks: usize, attributes: &[u8]) -> Result<T3Tag, Fail> {
    let mut store = attributes.to_vec(alloc)?;
    store.extend_from_slice(&[0xD0, 0, 0])?;
    store.resize(16 * blocks.min(256), 0)?;
    Ok(T3Tag::new(ID, store)?)
}

/// The length of a frame with so many bytes behind its identifier, at most 245.
fn size(rest: &[u8]) -> u8 {
    if rest.len() > 245 {
        return 255;
    }
    10 + rest.len() as u8
}

/// A frame: its length and a code, the identifier, and what follows, at most 245 bytes.
fn addressed(code: u8, rest: &[u8]) -> Result<ArrayVec<u8, 255>, Fail> {
    let mut bytes: ArrayVec<u8, 255> = ArrayVec::new();
    bytes.try_extend_from_slice(&[size(rest), code])?;
    bytes.try_extend_from_slice(&ID)?;
    bytes.try_extend_from_slice(rest)?;
    Ok(bytes)
}

/// A whole NFC-F frame of these bytes.
fn frame(bytes: &[u8]) -> Result<Frame, Fail> {
    Ok(Frame::whole(Tech::F, bytes)?)
}

/// Whether an answer is a whole NFC-F frame of these bytes; where there are none, whether the tag is silent.
fn is_answer(told: &Option<Frame>, bytes: &[u8]) -> bool {
    match told {
        Some(answer) => answer.tech() == Tech::F && answer.tail() == 0 && answer.view() == bytes,
        None => bytes.is_empty(),
    }
}

/// A code, what stands behind the identifier, and what stands behind it in the answer, or no answer.
type Row<'a> = (u8, &'a [u8], &'a [u8]);

/// A tag answers commands for it so.
fn obeys(rt: &impl Abort, tag: &mut T3Tag, rows: &[Row]) -> Result<(), Fail> {
    for (code, rest, answer) in rows {
        let told = tag.obey(&frame(&addressed(*code, rest)?)?);
        let mut bytes: ArrayVec<u8, 255> = ArrayVec::new();
        if !answer.is_empty() {
            bytes = addressed(code.saturating_add(1), answer)?;
        }
        assert!(rt; is_answer(&told, &bytes), "at {code} {rest:?}: {told:?}");
    }
    Ok(())
}

/// The attribute block as a Check of it tells it, and with the block behind it.
const FIRST: [u8; 19] = [
    0, 0, 1, 0x10, 4, 1, 0, 0x0D, 0, 0, 0, 0, 0, 1, 0, 0, 3, 0, 0x26,
];

const FIRST_TWO: [u8; 35] = [
    0, 0, 2, 0xD0, 0, 0, 0, 0, 0, 0, 0, 0, 0, 0, 0, 0, 0, 0, 0, 0x10, 4, 1, 0, 0x0D, 0, 0, 0, 0, 0,
    1, 0, 0, 3, 0, 0x26,
];

/// Fifteen elements of block 13, and sixteen.
const FIFTEEN: [u8; 34] = [
    1, 0x0B, 0, 15, 0x80, 13, 0x80, 13, 0x80, 13, 0x80, 13, 0x80, 13, 0x80, 13, 0x80, 13, 0x80, 13,
    0x80, 13, 0x80, 13, 0x80, 13, 0x80, 13, 0x80, 13, 0x80, 13, 0x80, 13,
];

const SIXTEEN: [u8; 36] = [
    1, 0x0B, 0, 16, 0x80, 13, 0x80, 13, 0x80, 13, 0x80, 13, 0x80, 13, 0x80, 13, 0x80, 13, 0x80, 13,
    0x80, 13, 0x80, 13, 0x80, 13, 0x80, 13, 0x80, 13, 0x80, 13, 0x80, 13, 0x80, 13,
];

/// What a tag of fourteen blocks answers to Checks.
const CHECKS: [Row; 20] = [
    (6, &[1, 0x0B, 0, 1, 0x80, 0], &FIRST),
    (6, &[1, 0x09, 0, 1, 0x80, 0], &FIRST),
    (6, &[1, 0x0B, 0, 2, 0x80, 1, 0x80, 0], &FIRST_TWO),
    (6, &[1, 0x0C, 0, 1, 0x80, 0], &[0xFF, 1]),
    (6, &[1, 0, 0x0B, 1, 0x80, 0], &[0xFF, 1]),
    (6, &[1, 0x0C, 0, 1, 0x80, 14], &[0xFF, 1]),
    (6, &[1, 0x0B, 0, 0], &[0xFF, 1]),
    (6, &SIXTEEN, &[0xFF, 1]),
    (6, &[1, 0x0B, 0, 1, 0, 0], &[0xFF, 1]),
    (6, &[1, 0x0B, 0, 2, 0x80, 14, 0x81, 0], &[0xFF, 1]),
    (6, &[1, 0x0B, 0, 1, 0x80, 14], &[0xFF, 2]),
    (6, &[1, 0x0B, 0, 1, 0x80, 255], &[0xFF, 2]),
    (6, &[1, 0x0B, 0, 2, 0x80, 0, 0x80, 14], &[0xFF, 2]),
    (6, &[1, 0x0B, 0, 1, 0x80], &[]),
    (6, &[1, 0x0B, 0, 1, 0x80, 0, 0], &[]),
    (6, &[1, 0x0B, 0, 2, 0x80, 0], &[]),
    (6, &[2, 0x0B, 0, 1, 0x80, 0], &[]),
    (6, &[1, 0x0B, 0], &[]),
    (6, &[], &[]),
    (7, &[1, 0x0B, 0, 1, 0x80, 0], &[]),
];

#[test]
fn obeys_checks(rt: HostRuntime) -> Result<(), Fail> {
    let mut tag = tag(rt.alloc(), 14, &ATTRIBUTES)?;
    obeys(&rt, &mut tag, &CHECKS)?;
    let told = tag.obey(&frame(&addressed(6, &FIFTEEN)?)?);
    let size = match told {
        Some(answer) => answer.view().len(),
        None => 0,
    };
    assert_eq!(rt; size, 253);
    Ok(())
}

/// What a tag of fourteen blocks, block 5 locked, answers to Updates and then to Checks.
const UPDATES: [Row; 16] = [
    (
        8,
        &[
            1, 9, 0, 1, 0x80, 2, 7, 7, 7, 7, 7, 7, 7, 7, 7, 7, 7, 7, 7, 7, 7, 9,
        ],
        &[0, 0],
    ),
    (
        8,
        &[
            1, 9, 0, 1, 0x80, 13, 7, 7, 7, 7, 7, 7, 7, 7, 7, 7, 7, 7, 7, 7, 7, 9,
        ],
        &[0, 0],
    ),
    (
        8,
        &[
            1, 9, 0, 1, 0x80, 14, 7, 7, 7, 7, 7, 7, 7, 7, 7, 7, 7, 7, 7, 7, 7, 9,
        ],
        &[0xFF, 2],
    ),
    (
        8,
        &[
            1, 9, 0, 1, 0x80, 5, 7, 7, 7, 7, 7, 7, 7, 7, 7, 7, 7, 7, 7, 7, 7, 9,
        ],
        &[0xFF, 3],
    ),
    (
        8,
        &[
            1, 0x0B, 0, 1, 0x80, 5, 7, 7, 7, 7, 7, 7, 7, 7, 7, 7, 7, 7, 7, 7, 7, 9,
        ],
        &[0xFF, 1],
    ),
    (
        8,
        &[
            1, 0, 9, 1, 0x80, 14, 7, 7, 7, 7, 7, 7, 7, 7, 7, 7, 7, 7, 7, 7, 7, 9,
        ],
        &[0xFF, 1],
    ),
    (
        8,
        &[
            1, 9, 0, 1, 0x80, 3, 7, 7, 7, 7, 7, 7, 7, 7, 7, 7, 7, 7, 7, 7, 9,
        ],
        &[],
    ),
    (
        8,
        &[
            1, 9, 0, 1, 0x80, 3, 7, 7, 7, 7, 7, 7, 7, 7, 7, 7, 7, 7, 7, 7, 7, 9, 9,
        ],
        &[],
    ),
    (
        8,
        &[
            1, 9, 0, 2, 0x80, 3, 7, 7, 7, 7, 7, 7, 7, 7, 7, 7, 7, 7, 7, 7, 7, 9,
        ],
        &[],
    ),
    (
        8,
        &[
            1, 9, 0, 1, 0x00, 3, 7, 7, 7, 7, 7, 7, 7, 7, 7, 7, 7, 7, 7, 7, 7, 9,
        ],
        &[],
    ),
    (
        8,
        &[
            2, 9, 0, 1, 0x80, 3, 7, 7, 7, 7, 7, 7, 7, 7, 7, 7, 7, 7, 7, 7, 7, 9,
        ],
        &[],
    ),
    (8, &[1, 9, 0, 1, 0x80], &[]),
    (8, &[], &[]),
    (
        6,
        &[1, 0x0B, 0, 1, 0x80, 2],
        &[0, 0, 1, 7, 7, 7, 7, 7, 7, 7, 7, 7, 7, 7, 7, 7, 7, 7, 9],
    ),
    (
        6,
        &[1, 0x0B, 0, 1, 0x80, 3],
        &[0, 0, 1, 0, 0, 0, 0, 0, 0, 0, 0, 0, 0, 0, 0, 0, 0, 0, 0],
    ),
    (
        6,
        &[1, 0x0B, 0, 1, 0x80, 5],
        &[0, 0, 1, 0, 0, 0, 0, 0, 0, 0, 0, 0, 0, 0, 0, 0, 0, 0, 0],
    ),
];

#[test]
fn obeys_updates(rt: HostRuntime) -> Result<(), Fail> {
    let mut tag = tag(rt.alloc(), 14, &ATTRIBUTES)?;
    if tag.blocks() > 5 {
        tag.lock(5);
    }
    obeys(&rt, &mut tag, &UPDATES)?;
    assert_eq!(rt; (tag.store().len(), tag.blocks(), tag.id()), (224, 14, ID));
    Ok(())
}

/// The answer to a poll, to a Check of block 0, and to an Update.
const POLLED: [u8; 18] = [0x12, 1, 1, 2, 3, 4, 5, 6, 7, 8, 0, 0, 0, 0, 0, 0, 0, 0];

const CONTENT: [u8; 29] = [
    0x1D, 7, 1, 2, 3, 4, 5, 6, 7, 8, 0, 0, 1, 0x10, 4, 1, 0, 0x0D, 0, 0, 0, 0, 0, 1, 0, 0, 3, 0,
    0x26,
];

const DONE: [u8; 12] = [0x0C, 9, 1, 2, 3, 4, 5, 6, 7, 8, 0, 0];

/// The first Update of a write, which sets the flag that says so, and the last, which tells a length of one byte.
const BEGINS: [u8; 32] = [
    0x20, 8, 1, 2, 3, 4, 5, 6, 7, 8, 1, 9, 0, 1, 0x80, 0, 0x10, 4, 1, 0, 0x0D, 0, 0, 0, 0, 0x0F, 1,
    0, 0, 3, 0, 0x35,
];

const ENDS: [u8; 32] = [
    0x20, 8, 1, 2, 3, 4, 5, 6, 7, 8, 1, 9, 0, 1, 0x80, 0, 0x10, 4, 1, 0, 0x0D, 0, 0, 0, 0, 0, 1, 0,
    0, 1, 0, 0x24,
];

/// What a tag of fourteen blocks answers to these bytes, one frame after the other.
const FRAMES: [(&[u8], &[u8]); 20] = [
    (&[6, 0, 0x12, 0xFC, 0, 0], &POLLED),
    (&[6, 0, 0xFF, 0xFF, 0, 0], &POLLED),
    (&[6, 0, 0x88, 0xB4, 0, 0], &[]),
    (&[6, 0, 0xFC, 0x12, 0, 0], &[]),
    (&[6, 0, 0x12, 0xFC, 1, 0], &[]),
    (&[6, 0, 0x12, 0xFC, 0, 1], &[]),
    (&[5, 0, 0x12, 0xFC, 0, 0], &[]),
    (&[7, 0, 0x12, 0xFC, 0, 0], &[]),
    (&[7, 0, 0x12, 0xFC, 0, 0, 0], &[]),
    (&[5, 0, 0x12, 0xFC, 0], &[]),
    (&[], &[]),
    (&[1], &[]),
    (&[2, 6], &[]),
    (
        &[0x10, 6, 1, 2, 3, 4, 5, 6, 7, 8, 1, 0x0B, 0, 1, 0x80, 0],
        &CONTENT,
    ),
    (
        &[0x11, 6, 1, 2, 3, 4, 5, 6, 7, 8, 1, 0x0B, 0, 1, 0x80, 0],
        &[],
    ),
    (
        &[0x10, 6, 1, 2, 3, 4, 5, 6, 7, 9, 1, 0x0B, 0, 1, 0x80, 0],
        &[],
    ),
    (
        &[0x10, 4, 1, 2, 3, 4, 5, 6, 7, 8, 1, 0x0B, 0, 1, 0x80, 0],
        &[],
    ),
    (&BEGINS, &DONE),
    (&BEGINS, &DONE),
    (&ENDS, &DONE),
];

#[test]
fn hears_frames_by_their_length(rt: HostRuntime) -> Result<(), Fail> {
    let mut tag = tag(rt.alloc(), 14, &ATTRIBUTES)?;
    for &(request, answer) in &FRAMES {
        let told = tag.obey(&frame(request)?);
        assert!(rt; is_answer(&told, answer), "at {request:?}: {told:?}");
    }
    assert!(rt; tag.store().starts_with(&ENDS[16..]));
    Ok(())
}

/// A tag tells nothing to this frame, and it spells no command.
fn is_unheard(rt: &impl Abort, tag: &mut T3Tag, other: &Frame) {
    let told = (tag.obey(other), T3Command::read_from(other));
    assert_eq!(rt; told, (None, None), "at {other:?}");
}

/// The same of these bytes in another technology, or with a tail.
fn are_unheard(rt: &impl Abort, tag: &mut T3Tag, bytes: &[u8]) {
    for (tech, tail) in [(Tech::A, 0), (Tech::V, 0), (Tech::F, 7)] {
        if let Ok(other) = Frame::part(tech, bytes, tail) {
            is_unheard(rt, tag, &other);
        }
    }
}

/// A poll and a Check in another technology or with a tail, and an Update too, tell nothing and change nothing.
#[test]
fn hears_whole_frames_of_nfc_f_alone(rt: HostRuntime) -> Result<(), Fail> {
    let mut tag = tag(rt.alloc(), 14, &ATTRIBUTES)?;
    are_unheard(&rt, &mut tag, &[]);
    are_unheard(&rt, &mut tag, &[6, 0, 0x12, 0xFC, 0, 0]);
    are_unheard(&rt, &mut tag, &addressed(6, &[1, 0x0B, 0, 1, 0x80, 0])?);
    are_unheard(&rt, &mut tag, &BEGINS);
    assert!(rt; tag.store().starts_with(&ATTRIBUTES));
    Ok(())
}

/// Attribute blocks with the right sum that name 255 and 256 message blocks, and one with a wrong sum.
const NAMES_255: [u8; 16] = [0x10, 4, 1, 0, 0xFF, 0, 0, 0, 0, 0, 1, 0, 0, 3, 1, 0x18];

const NAMES_256: [u8; 16] = [0x10, 4, 1, 1, 0, 0, 0, 0, 0, 0, 1, 0, 0, 3, 0, 0x1A];

const WRONG_SUM: [u8; 16] = [0x10, 4, 1, 0, 0xFF, 0, 0, 0, 0, 0, 1, 0, 0, 3, 0, 0x18];

/// Whether a tag takes so many bytes that begin so.
fn is_taken(alloc: Global, size: usize, head: &[u8]) -> Result<bool, Fail> {
    let mut store = head.to_vec(alloc)?;
    store.resize(size, 0)?;
    Ok(T3Tag::new(ID, store).is_ok())
}

/// How many bytes, what they begin with, and whether they are a store.
const STORES: [(usize, &[u8], bool); 18] = [
    (0, &[], false),
    (15, &[], false),
    (16, &[], true),
    (17, &[], false),
    (32, &[], true),
    (4096, &[], true),
    (4112, &[], false),
    (208, &ATTRIBUTES, false),
    (224, &ATTRIBUTES, true),
    (240, &ATTRIBUTES, true),
    (16, &NAMES_255, false),
    (4080, &NAMES_255, false),
    (4096, &NAMES_255, true),
    (16, &NAMES_256, true),
    (4096, &NAMES_256, true),
    (16, &WRONG_SUM, true),
    (4080, &WRONG_SUM, true),
    (4081, &WRONG_SUM, false),
];

#[test]
fn takes_whole_blocks_that_its_attributes_name(rt: HostRuntime) -> Result<(), Fail> {
    for &(size, head, taken) in &STORES {
        assert_eq!(rt;
            is_taken(rt.alloc(), size, head)?,
            taken,
            "at {size} {head:?}"
        );
    }
    Ok(())
}

#[test]
fn an_update_of_block_0_may_leave_no_store_of_a_tag(rt: HostRuntime) -> Result<(), Fail> {
    for (attributes, taken) in [(&NAMES_255, false), (&NAMES_256, true), (&WRONG_SUM, true)] {
        let mut tag = tag(rt.alloc(), 14, &ATTRIBUTES)?;
        let update = T3Command::Update {
            id: ID,
            block: 0,
            content: *attributes,
        };
        assert_eq!(rt;
            tag.obey(&update.to_frame()),
            Some(T3Answer::Done { id: ID }.to_frame())
        );
        let store = tag.store().to_vec(rt.alloc())?;
        assert_eq!(rt; T3Tag::new(ID, store).is_ok(), taken, "at {attributes:?}");
    }
    Ok(())
}

/// What a tag answers to a Check of this block.
fn checked(tag: &mut T3Tag, block: u8) -> Result<Option<Frame>, Fail> {
    let request = addressed(6, &[1, 0x0B, 0, 1, 0x80, block])?;
    Ok(tag.obey(&frame(&request)?))
}

/// Whether the block behind this one, which a tag has, is refused.
fn ends_at(rt: &impl Abort, tag: &mut T3Tag, last: u8) -> Result<bool, Fail> {
    let told = checked(tag, last)?;
    assert!(rt;
        told.is_some_and(|answer| answer.view().len() == 29),
        "at {last}"
    );
    let refused = T3Answer::CheckRefused {
        id: ID,
        status: 0xFF02,
    };
    Ok(checked(tag, last.saturating_add(1))? == Some(refused.to_frame()))
}

/// The last block of a tag, and the one behind it, of tags of 1, 2 and 256 blocks.
#[test]
fn has_as_many_blocks_as_its_store(rt: HostRuntime) -> Result<(), Fail> {
    for (blocks, last, is_next) in [(1usize, 0u8, true), (2, 1, true), (256, 255, false)] {
        let mut tag = T3Tag::new(ID, vec![in rt.alloc(); 0u8; 16 * blocks]?)?;
        assert_eq!(rt; ends_at(&rt, &mut tag, last)?, is_next, "at {blocks}");
    }
    Ok(())
}

/// Bytes, and whether they spell a command, and whether an answer.
const SPELLED: [(&[u8], bool, bool); 17] = [
    (&[6, 0, 0x12, 0xFC, 1, 3], true, false),
    (&[6, 0, 0x12, 0xFC, 1], false, false),
    (
        &[0x10, 6, 1, 2, 3, 4, 5, 6, 7, 8, 1, 0x0B, 0, 1, 0x80, 0],
        true,
        false,
    ),
    (
        &[0x10, 6, 1, 2, 3, 4, 5, 6, 7, 8, 1, 0x09, 0, 1, 0x80, 0],
        false,
        false,
    ),
    (
        &[0x10, 6, 1, 2, 3, 4, 5, 6, 7, 8, 1, 0x0B, 0, 1, 0x00, 0],
        false,
        false,
    ),
    (
        &[0x10, 6, 1, 2, 3, 4, 5, 6, 7, 8, 1, 0x0B, 0, 2, 0x80, 0],
        false,
        false,
    ),
    (
        &[0x0E, 6, 1, 2, 3, 4, 5, 6, 7, 8, 1, 0x0B, 0, 0],
        false,
        false,
    ),
    (&BEGINS, true, false),
    (&POLLED, false, true),
    (
        &[0x12, 1, 1, 2, 3, 4, 5, 6, 7, 8, 0, 0, 0, 0, 0, 0, 0, 1],
        false,
        false,
    ),
    (&CONTENT, false, true),
    (&DONE, false, true),
    (&[0x0C, 7, 1, 2, 3, 4, 5, 6, 7, 8, 0, 0], false, false),
    (&[0x0C, 7, 1, 2, 3, 4, 5, 6, 7, 8, 0xFF, 1], false, true),
    (&[0x0C, 9, 1, 2, 3, 4, 5, 6, 7, 8, 0xFF, 3], false, true),
    (&[0x0D, 9, 1, 2, 3, 4, 5, 6, 7, 8, 0xFF, 3], false, false),
    (&[], false, false),
];

/// A frame spells a command or none, and a command spells it.
fn spells_command(rt: &impl Abort, spelled: &Frame, is_command: bool) {
    match T3Command::read_from(spelled) {
        Some(command) => {
            assert!(rt;
                is_command && command.to_frame() == *spelled,
                "at {spelled:?}"
            )
        }
        None => assert!(rt; !is_command, "at {spelled:?}"),
    }
}

/// A frame spells an answer or none, and an answer spells it.
fn spells_answer(rt: &impl Abort, spelled: &Frame, is_answer: bool) {
    match T3Answer::read_from(spelled) {
        Some(answer) => assert!(rt;
            is_answer && answer.to_frame() == *spelled,
            "at {spelled:?}"
        ),
        None => assert!(rt; !is_answer, "at {spelled:?}"),
    }
}

#[test]
fn reads_what_is_spelled_and_spells_it_again(rt: HostRuntime) -> Result<(), Fail> {
    for &(bytes, is_command, is_answer) in &SPELLED {
        let spelled = frame(bytes)?;
        spells_command(&rt, &spelled, is_command);
        spells_answer(&rt, &spelled, is_answer);
    }
    Ok(())
}
