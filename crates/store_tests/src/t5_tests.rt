//! What Type 5 tags answer frame by frame, and frames that come back.

use arrayvec::ArrayVec;
use nfc_base::{Frame, Tech};
use std::alloc::Global;
use std::process::Abort;
use std::test::Fail;
use t5t_tag::{T5Answer, T5Command, T5Tag};

const ID: [u8; 8] = [0xE0, 0x04, 0x01, 0x02, 0x03, 0x04, 0x05, 0x06];

/// The identifier as it is sent.
const LOW_FIRST: [u8; 8] = [0x06, 0x05, 0x04, 0x03, 0x02, 0x01, 0x04, 0xE0];

/// A tag of so many bytes, 0 but for these at its start.
fn tag(alloc: Global, size: usize, block: u8, head: &[u8]) -> Result<T5Tag, Fail> {
    let mut store = head.to_vec(alloc)?;
    store.resize(size, 0)?;
    Ok(T5Tag::new(ID, store, block)?)
}

/// The bytes of a command with this code that is addressed to the tag.
fn addressed(code: u8, rest: &[u8]) -> Result<Frame, Fail> {
    let mut bytes: ArrayVec<u8, 64> = ArrayVec::new();
    bytes.try_extend_from_slice(&[0x22, code])?;
    bytes.try_extend_from_slice(&LOW_FIRST)?;
    bytes.try_extend_from_slice(rest)?;
    Ok(Frame::whole(Tech::V, &bytes)?)
}

/// Whether an answer has these bytes; where there are none, whether the tag is silent.
fn is_answer(told: &Option<Frame>, bytes: &[u8]) -> bool {
    match told {
        Some(frame) => !bytes.is_empty() && frame.tail() == 0 && frame.view() == bytes,
        None => bytes.is_empty(),
    }
}

/// A command's code and what stands behind the identifier, and the answer.
type Row<'a> = (u8, &'a [u8], &'a [u8]);

/// A tag answers commands that are addressed to it.
fn obeys(rt: &impl Abort, tag: &mut T5Tag, rows: &[Row]) -> Result<(), Fail> {
    for (code, rest, answer) in rows {
        let told = tag.obey(&addressed(*code, rest)?);
        assert!(rt; is_answer(&told, answer), "at {code} {rest:?}: {told:?}");
    }
    Ok(())
}

/// A tag answers a frame of these bytes so.
fn hears(rt: &impl Abort, tag: &mut T5Tag, request: &[u8], answer: &[u8]) -> Result<(), Fail> {
    let told = tag.obey(&Frame::whole(Tech::V, request)?);
    assert!(rt; is_answer(&told, answer), "at {request:?}: {told:?}");
    Ok(())
}

/// What a tag of 16 bytes answers, one command after the other.
const ADDRESSED: [Row; 29] = [
    (0x20, &[0], &[0, 0xE1, 0x40, 0x06, 0]),
    (0x20, &[1], &[0, 3, 3, 0xD0, 0]),
    (0x20, &[3], &[0, 0, 0, 0, 0]),
    (0x20, &[4], &[1, 0x10]),
    (0x20, &[255], &[1, 0x10]),
    (0x20, &[], &[1, 0x0F]),
    (0x20, &[0, 0], &[1, 0x0F]),
    (0x21, &[2, 1, 2, 3, 4], &[0]),
    (0x20, &[2], &[0, 1, 2, 3, 4]),
    (0x21, &[4, 1, 2, 3, 4], &[1, 0x10]),
    (0x21, &[4, 1], &[1, 0x10]),
    (0x21, &[0, 1, 2, 3], &[1, 0x0F]),
    (0x21, &[0, 1, 2, 3, 4, 5], &[1, 0x0F]),
    (0x21, &[0], &[1, 0x0F]),
    (0x21, &[], &[1, 0x0F]),
    (0x23, &[0, 0], &[0, 0xE1, 0x40, 0x06, 0]),
    (0x23, &[0, 1], &[0, 0xE1, 0x40, 0x06, 0, 3, 3, 0xD0, 0]),
    (0x23, &[2, 1], &[0, 1, 2, 3, 4, 0, 0, 0, 0]),
    (0x23, &[2, 2], &[1, 0x10]),
    (0x23, &[255, 255], &[1, 0x10]),
    (0x23, &[0], &[1, 0x0F]),
    (0x23, &[0, 1, 0], &[1, 0x0F]),
    (0x30, &[2, 0], &[0, 1, 2, 3, 4]),
    (0x30, &[0, 2], &[1, 0x10]),
    (0x30, &[2], &[1, 0x0F]),
    (0x31, &[2], &[1, 0x0F]),
    (0x2B, &[], &[1, 0x0F]),
    (0x02, &[0], &[1, 0x0F]),
    (0x20, &[0], &[0, 0xE1, 0x40, 0x06, 0]),
];

#[test]
fn obeys_addressed_commands(rt: HostRuntime) -> Result<(), Fail> {
    let head = [0xE1, 0x40, 0x06, 0, 3, 3, 0xD0, 0, 0, 0xFE];
    let mut tag = tag(rt.alloc(), 16, 4, &head)?;
    obeys(&rt, &mut tag, &ADDRESSED)?;
    assert_eq!(rt; (tag.store().len(), tag.id()), (16, ID));
    Ok(())
}

/// The answer of an inventory.
const PRESENT: [u8; 10] = [0, 0, 6, 5, 4, 3, 2, 1, 4, 0xE0];

/// What a fresh tag of four zero bytes answers to these bytes.
const FLAGGED: [(&[u8], &[u8]); 22] = [
    (&[0x26, 1, 64, 6, 5, 4, 3, 2, 1, 4, 0xE0], &PRESENT),
    (&[0x26, 1, 0], &PRESENT),
    (&[0x26, 1, 8, 6], &PRESENT),
    (&[0x26, 1, 3, 6], &PRESENT),
    (&[0x26, 1, 10, 6, 1], &PRESENT),
    (&[0x26, 1, 8, 5], &[]),
    (&[0x26, 1, 3, 14], &[]),
    (&[0x26, 1, 10, 6, 5], &[]),
    (&[0x26, 1, 8, 6, 5], &[]),
    (&[0x26, 1, 8], &[]),
    (&[0x26, 1, 65, 6, 5, 4, 3, 2, 1, 4, 0xE0, 0], &[]),
    (&[0x26, 1], &[]),
    (&[0x26, 2, 0], &[]),
    (&[0x22, 0x20, 6, 5, 4, 3, 2, 1, 4, 0xE1, 0], &[]),
    (&[0x22, 0x20, 0xE0, 4, 1, 2, 3, 4, 5, 6, 0], &[]),
    (&[0x22, 0x20, 6, 5, 4, 3, 2, 1, 4], &[]),
    (&[0x22], &[]),
    (&[0x62, 0x20, 6, 5, 4, 3, 2, 1, 4, 0xE0, 0], &[]),
    (&[], &[]),
    (&[2], &[1, 0x0F]),
    (&[2, 2], &[1, 0x0F]),
    (&[2, 0x20, 0], &[0, 0, 0, 0, 0]),
];

#[test]
fn hears_flags_and_masks(rt: HostRuntime) -> Result<(), Fail> {
    for (request, answer) in FLAGGED.iter() {
        hears(&rt, &mut tag(rt.alloc(), 4, 4, &[])?, request, answer)?;
    }
    Ok(())
}

/// A tag with this identifier, of four zero bytes.
fn named(alloc: Global, id: [u8; 8]) -> Result<T5Tag, Fail> {
    Ok(T5Tag::new(id, vec![in alloc; 0u8; 4]?, 4)?)
}

/// The slot of a tag in the round that this frame begins, 99 where it answers in none: behind it come sixteen empty
/// frames, one more than a round has.
fn slot(tag: &mut T5Tag, begin: &[u8]) -> Result<u8, Fail> {
    if tag.obey(&Frame::whole(Tech::V, begin)?).is_some() {
        return Ok(0);
    }
    let next = Frame::whole(Tech::V, &[])?;
    for at in 1..17u8 {
        if tag.obey(&next).is_some() {
            return Ok(at);
        }
    }
    Ok(99)
}

#[test]
fn answers_in_the_slot_of_its_low_nibble(rt: HostRuntime) -> Result<(), Fail> {
    for nibble in 0..16u8 {
        let id = [0xE0, 4, 1, 2, 3, 4, 5, 0x70 + nibble];
        let told = slot(&mut named(rt.alloc(), id)?, &[6, 1, 0])?;
        assert_eq!(rt; told, nibble);
    }
    Ok(())
}

/// What begins a round, and the slot in which the tag `E004010203040506` answers.
const ROUNDS: [(&[u8], u8); 12] = [
    (&[6, 1, 0], 6),
    (&[6, 1, 4, 6], 0),
    (&[6, 1, 5, 6], 8),
    (&[6, 1, 8, 6], 5),
    (&[6, 1, 10, 6, 1], 1),
    (&[6, 1, 60, 6, 5, 4, 3, 2, 1, 4, 0], 14),
    (&[6, 1, 61, 6, 5, 4, 3, 2, 1, 4, 0], 99),
    (&[6, 1, 4, 5], 99),
    (&[6, 1, 4, 0x16], 99),
    (&[6, 1, 4], 99),
    (&[6, 2, 0], 99),
    (&[], 99),
];

#[test]
fn its_slot_is_the_nibble_above_the_mask(rt: HostRuntime) -> Result<(), Fail> {
    for &(begin, own) in &ROUNDS {
        let told = slot(&mut named(rt.alloc(), ID)?, begin)?;
        assert_eq!(rt; told, own, "at {begin:?}");
    }
    Ok(())
}

/// A frame that comes into a round of the tag `..0502` right behind the first slot, and how many empty frames come then
/// before the one at which it answers: 99 where it answers at none.
const INTERRUPTED: [(&[u8], u8); 9] = [
    (&[0x26, 1, 0], 99),
    (&[0x26, 1, 4, 7], 99),
    (&[0x22, 0x20, 6, 5, 4, 3, 2, 1, 4, 0xE0, 0], 99),
    (&[0x22, 0x20, 2, 5, 4, 3, 2, 1, 4, 0xE0, 0], 99),
    (&[2, 0x20, 0], 99),
    (&[0x55], 99),
    (&[6, 1, 4, 7], 99),
    (&[6, 1, 0], 1),
    (&[], 0),
];

fn slot_behind(tag: &mut T5Tag, frame: &[u8]) -> Result<u8, Fail> {
    tag.obey(&Frame::whole(Tech::V, &[6, 1, 0])?);
    tag.obey(&Frame::whole(Tech::V, frame)?);
    slot(tag, &[])
}

#[test]
fn any_other_frame_ends_a_round(rt: HostRuntime) -> Result<(), Fail> {
    let id = [0xE0, 4, 1, 2, 3, 4, 5, 2];
    for &(frame, answer) in &INTERRUPTED {
        let told = slot_behind(&mut named(rt.alloc(), id)?, frame)?;
        assert_eq!(rt; told, answer, "at {frame:?}");
    }
    Ok(())
}

#[test]
fn a_quiet_tag_is_in_no_round(rt: HostRuntime) -> Result<(), Fail> {
    let mut tag = named(rt.alloc(), ID)?;
    hears(&rt, &mut tag, &[0x22, 2, 6, 5, 4, 3, 2, 1, 4, 0xE0], &[])?;
    assert_eq!(rt; slot(&mut tag, &[6, 1, 0])?, 99);
    tag.dark();
    assert_eq!(rt; slot(&mut tag, &[6, 1, 0])?, 6);
    tag.dark();
    assert_eq!(rt; slot(&mut tag, &[])?, 99);
    Ok(())
}

/// A tag of 256 blocks, two of which are locked.
fn locked_tag(alloc: Global) -> Result<T5Tag, Fail> {
    let mut tag = T5Tag::new(ID, vec![in alloc; 0u8; 1024]?, 4)?;
    tag.lock(9);
    tag.lock(255);
    tag.dark();
    Ok(tag)
}

#[test]
fn writes_no_locked_block(rt: HostRuntime) -> Result<(), Fail> {
    const ROWS: [Row; 7] = [
        (0x21, &[9, 1, 2, 3, 4], &[1, 0x12]),
        (0x21, &[9, 1, 2, 3], &[1, 0x0F]),
        (0x21, &[255, 1, 2, 3, 4], &[1, 0x12]),
        (0x21, &[8, 1, 2, 3, 4], &[0]),
        (0x21, &[1, 1, 2, 3, 4], &[0]),
        (0x21, &[10, 1, 2, 3, 4], &[0]),
        (0x20, &[9], &[0; 5]),
    ];
    obeys(&rt, &mut locked_tag(rt.alloc())?, &ROWS)
}

#[test]
fn stays_quiet_until_dark(rt: HostRuntime) -> Result<(), Fail> {
    let mut tag = tag(rt.alloc(), 4, 4, &[])?;
    // the command that quiets the tag is itself unanswered; an addressed read is answered still
    const QUIET: [(&[u8], &[u8]); 5] = [
        (&[0x22, 2, 6, 5, 4, 3, 2, 1, 4, 0xE0], &[]),
        (&[0x26, 1, 0], &[]),
        (&[2, 0x20, 0], &[]),
        (&[2], &[]),
        (&[0x22, 0x20, 6, 5, 4, 3, 2, 1, 4, 0xE0, 0], &[0; 5]),
    ];
    for &(request, answer) in &QUIET {
        hears(&rt, &mut tag, request, answer)?;
    }
    tag.dark();
    hears(&rt, &mut tag, &[0x26, 1, 0], &PRESENT)?;
    hears(&rt, &mut tag, &[2, 0x20, 0], &[0; 5])
}

#[test]
fn hears_whole_frames_of_nfc_v_alone(rt: HostRuntime) -> Result<(), Fail> {
    let mut tag = tag(rt.alloc(), 4, 4, &[])?;
    for (tech, tail) in [(Tech::A, 0), (Tech::V, 7)] {
        let told = tag.obey(&Frame::part(tech, &[0x26, 1, 0], tail)?);
        assert_eq!(rt; told, None, "at {tech:?} {tail}");
    }
    Ok(())
}

/// Whether so many bytes are blocks of this size for a tag.
fn is_taken(alloc: Global, block: u8, size: usize) -> Result<bool, Fail> {
    Ok(T5Tag::new(ID, vec![in alloc; 0u8; size]?, block).is_ok())
}

#[test]
fn takes_whole_blocks(rt: HostRuntime) -> Result<(), Fail> {
    let rows = [
        (4, 4, true),
        (4, 0, false),
        (4, 6, false),
        (4, 1024, true),
        (4, 1028, true),
        (4, 65536, true),
        (4, 65540, false),
        (8, 8, true),
        (8, 12, false),
        (16, 4112, true),
        (16, 65552, false),
        (32, 8224, true),
        (32, 65536, true),
        (32, 65568, false),
        (32, 16, false),
        (12, 24, false),
        (0, 4, false),
    ];
    for (block, size, taken) in rows {
        assert_eq!(rt;
            is_taken(rt.alloc(), block, size)?,
            taken,
            "at {block} {size}"
        );
    }
    Ok(())
}

/// What stands behind the identifier where block 255 of 32 bytes is written.
const WRITTEN: [u8; 33] = [
    255, 7, 7, 7, 7, 7, 7, 7, 7, 7, 7, 7, 7, 7, 7, 7, 7, 7, 7, 7, 7, 7, 7, 7, 7, 7, 7, 7, 7, 7, 7,
    7, 7,
];

/// What is told where it is read.
const READ: [u8; 33] = [
    0, 7, 7, 7, 7, 7, 7, 7, 7, 7, 7, 7, 7, 7, 7, 7, 7, 7, 7, 7, 7, 7, 7, 7, 7, 7, 7, 7, 7, 7, 7, 7,
    7,
];

/// What is told of block 0.
const FIRST: [u8; 33] = [
    0, 0xE1, 0x40, 0x0F, 0, 0, 0, 0, 0, 0, 0, 0, 0, 0, 0, 0, 0, 0, 0, 0, 0, 0, 0, 0, 0, 0, 0, 0, 0,
    0, 0, 0, 0,
];

#[test]
fn reads_and_writes_large_blocks(rt: HostRuntime) -> Result<(), Fail> {
    const ROWS: [Row; 3] = [
        (0x21, &WRITTEN, &[0]),
        (0x20, &[255], &READ),
        (0x20, &[0], &FIRST),
    ];
    let mut tag = tag(rt.alloc(), 8192, 32, &[0xE1, 0x40, 0x0F])?;
    obeys(&rt, &mut tag, &ROWS)
}

#[test]
fn reads_many_blocks_of_at_most_256_bytes(rt: HostRuntime) -> Result<(), Fail> {
    const ROWS: [Row; 3] = [
        (0x23, &[249, 7], &[0; 257]),
        (0x23, &[0, 8], &[1, 0x0F]),
        (0x23, &[2, 255], &[1, 0x10]),
    ];
    let mut tag = tag(rt.alloc(), 8224, 32, &[0xE1, 0x40, 0x0F])?;
    obeys(&rt, &mut tag, &ROWS)
}

/// A tag of 65,536 bytes whose last block is locked.
fn wide_tag(alloc: Global) -> Result<T5Tag, Fail> {
    let mut tag = tag(alloc, 65536, 4, &[])?;
    if let Some(last) = tag.blocks().checked_sub(1) {
        tag.lock(last);
    }
    Ok(tag)
}

#[test]
fn blocks_past_255_are_named_by_two_bytes(rt: HostRuntime) -> Result<(), Fail> {
    const ROWS: [Row; 9] = [
        (0x31, &[0, 1, 1, 2, 3, 4], &[0]),
        (0x30, &[0, 1], &[0, 1, 2, 3, 4]),
        (0x20, &[1], &[0, 0, 0, 0, 0]),
        (0x31, &[0xFE, 0x3F, 5, 6, 7, 8], &[0]),
        (0x30, &[0xFE, 0x3F], &[0, 5, 6, 7, 8]),
        (0x31, &[0xFF, 0x3F, 5, 6, 7, 8], &[1, 0x12]),
        (0x31, &[0xFF, 0x3F, 5, 6, 7], &[1, 0x0F]),
        (0x31, &[0, 0x40, 5, 6, 7], &[1, 0x10]),
        (0x23, &[255, 1], &[0, 0, 0, 0, 0, 1, 2, 3, 4]),
    ];
    obeys(&rt, &mut wide_tag(rt.alloc())?, &ROWS)
}

/// A command is sent by this frame, and is this text.
fn is_command(
    rt: &impl Abort,
    alloc: Global,
    command: &T5Command,
    frame: &Frame,
    text: &str,
) -> Result<(), Fail> {
    assert!(rt; command.to_frame().is_same(frame), "at {text}");
    let told = format!(in alloc; "{command:?}")?;
    assert_eq!(rt; told.as_str(), text);
    Ok(())
}

/// These bytes spell this command, and the command is sent by them.
fn command_comes_back(
    rt: &impl Abort,
    alloc: Global,
    bytes: &[u8],
    text: &str,
) -> Result<(), Fail> {
    let frame = Frame::whole(Tech::V, bytes)?;
    match T5Command::read_from(&frame) {
        Some(command) => is_command(rt, alloc, &command, &frame, text),
        None => Err(Fail::new("no command")),
    }
}

#[test]
fn commands_come_back(rt: HostRuntime) -> Result<(), Fail> {
    const ROWS: [(&[u8], &str); 11] = [
        (
            &[0x26, 1, 10, 6, 1],
            "Inventory { mask_bits: 10, mask: [6, 1, 0, 0, 0, 0, 0, 0] }",
        ),
        (
            &[6, 1, 60, 6, 5, 4, 3, 2, 1, 4, 0],
            "Slots { mask_bits: 60, mask: [6, 5, 4, 3, 2, 1, 4, 0] }",
        ),
        (
            &[6, 1, 0],
            "Slots { mask_bits: 0, mask: [0, 0, 0, 0, 0, 0, 0, 0] }",
        ),
        (&[], "NextSlot"),
        (
            &[0x22, 2, 6, 5, 4, 3, 2, 1, 4, 0xE0],
            "Quiet { id: [224, 4, 1, 2, 3, 4, 5, 6] }",
        ),
        (
            &[0x22, 0x20, 6, 5, 4, 3, 2, 1, 4, 0xE0, 9],
            "Read { id: Some([224, 4, 1, 2, 3, 4, 5, 6]), block: 9 }",
        ),
        (&[2, 0x20, 9], "Read { id: None, block: 9 }"),
        (
            &[2, 0x21, 9, 1, 2, 3, 4],
            "Write { id: None, block: 9, content: [1, 2, 3, 4] }",
        ),
        (
            &[0x22, 0x30, 6, 5, 4, 3, 2, 1, 4, 0xE0, 1, 2],
            "ReadWide { id: Some([224, 4, 1, 2, 3, 4, 5, 6]), block: 513 }",
        ),
        (
            &[2, 0x31, 0xFF, 0x3F, 1, 2, 3, 4],
            "WriteWide { id: None, block: 16383, content: [1, 2, 3, 4] }",
        ),
        (
            &[0x22, 0x23, 6, 5, 4, 3, 2, 1, 4, 0xE0, 1, 13],
            "ReadMany { id: Some([224, 4, 1, 2, 3, 4, 5, 6]), first: 1, more: 13 }",
        ),
    ];
    for &(bytes, text) in &ROWS {
        command_comes_back(&rt, rt.alloc(), bytes, text)?;
    }
    Ok(())
}

#[test]
fn other_frames_spell_no_command(rt: HostRuntime) -> Result<(), Fail> {
    const ROWS: [&[u8]; 16] = [
        &[6, 1, 61, 6, 5, 4, 3, 2, 1, 4, 0],
        &[6, 1, 4, 0x16],
        &[2],
        &[2, 2],
        &[2, 0x20],
        &[2, 0x20, 0, 0],
        &[2, 0x21],
        &[2, 0x23, 0],
        &[2, 0x23, 0, 1, 0],
        &[2, 0x30, 0],
        &[2, 0x30, 0, 0, 0],
        &[2, 0x31, 0],
        &[2, 0x33, 0, 0],
        &[0x22, 0x20, 6, 5, 4, 3, 2, 1, 4],
        &[0x26, 1, 3, 14],
        &[0x26, 1, 8, 6, 5],
    ];
    for &bytes in &ROWS {
        let frame = Frame::whole(Tech::V, bytes)?;
        assert_eq!(rt; T5Command::read_from(&frame), None, "at {bytes:?}");
    }
    Ok(())
}

/// An answer is sent by this frame, where it is one.
fn is_sent_by(answer: &Option<T5Answer>, frame: &Frame) -> bool {
    match answer {
        Some(answer) => answer.to_frame().is_same(frame),
        None => true,
    }
}

/// These bytes spell this answer, and it is sent by them; or they spell none.
fn answer_comes_back(rt: &impl Abort, alloc: Global, bytes: &[u8], text: &str) -> Result<(), Fail> {
    let frame = Frame::whole(Tech::V, bytes)?;
    let answer = T5Answer::read_from(&frame);
    assert!(rt; is_sent_by(&answer, &frame), "at {bytes:?}");
    let told = format!(in alloc; "{answer:?}")?;
    assert_eq!(rt; told.as_str(), text, "at {bytes:?}");
    Ok(())
}

#[test]
fn answers_come_back(rt: HostRuntime) -> Result<(), Fail> {
    const ROWS: [(&[u8], &str); 9] = [
        (
            &[0, 0, 6, 5, 4, 3, 2, 1, 4, 0xE0],
            "Some(Present { id: [224, 4, 1, 2, 3, 4, 5, 6] })",
        ),
        (&[0, 0xE1, 0x40, 0x20, 1], "Some(Content([225, 64, 32, 1]))"),
        (&[0], "Some(Content([]))"),
        (&[1, 0x12], "Some(Error(18))"),
        (&[0, 1, 6, 5, 4, 3, 2, 1, 4, 0xE0], "None"),
        (&[0, 1], "None"),
        (&[1], "None"),
        (&[2, 0], "None"),
        (&[], "None"),
    ];
    for &(bytes, text) in &ROWS {
        answer_comes_back(&rt, rt.alloc(), bytes, text)?;
    }
    Ok(())
}
