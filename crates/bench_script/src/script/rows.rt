//! Words of one kind in a row, up to the end of a line.

ghost use Rattle.std.specs.Prelude.{◌≡◌, ◌<◌, IfOk, IsErrOf};
ghost use Rattle.bench_script.specs.Script.{words_of, SpellsPayload, SpellPayloads, SpellsFrame, SpellFrames};
ghost use Rattle.bench_script.specs.Script.{SpellsSlotPut, SpellRow, SpellPuts, most_puts};
ghost use Rattle.bench_script.specs.private.Words.{NoneOf, CutsTail};

use super::LineFault;
use super::words::{colon_parts, cut_word, hex_word, message_word, small_word};
use crate::command::{SlotPut, have_own_slots};
use hex::FromHexError;
use nfc_base::{Frame, Items, Tech};
use std::alloc::Global;

/// How many payloads of a link a line may have, and how many bytes each of these (this project's limits).
const MOST_PAYLOADS: usize = 16;

const LONGEST_PAYLOAD: usize = 2178;

/// How many frames a line may have (this project's limit).
const MOST_FRAMES: usize = 16;

/// How many puts a line may have: one of each of a reader's clients, and at least two.
const LEAST_PUTS: usize = 2;

const MOST_PUTS: usize = 8;

/// The slots of a reader's clients.
pub const LEAST_SLOT: u8 = 0;

pub const MOST_SLOT: u8 = 7;

/// The payload of a link that a word spells.
fn payload_word(alloc: Global, word: &[u8]) -> Result<Items<u8>, LineFault>
    ensures ok { IfOk result (SpellsPayload word.now) }
    ensures refused { IsErrOf result LineFault.Refused → NoneOf (SpellsPayload word.now) }
{
    match hex::decode(alloc, word) {
        Ok(bytes) if bytes.is_empty() || bytes.len() > LONGEST_PAYLOAD => Err(LineFault::Refused),
        Ok(bytes) => Ok(Items::new(bytes)),
        Err(FromHexError::OutOfMemory) => Err(LineFault::Memory),
        Err(_) => Err(LineFault::Refused),
    }
}

/// The payloads of a link that the words of a text spell.
pub fn payload_words(alloc: Global, text: &[u8]) -> Result<Items<Items<u8>>, LineFault>
    ensures ok { IfOk result (SpellPayloads (words_of text.now)) }
    ensures refused { IsErrOf result LineFault.Refused → NoneOf (SpellPayloads (words_of text.now)) }
{
    let mut payloads = Vec::new(alloc);
    let mut left = text;
    for _ in 0..MOST_PAYLOADS {
        let (word, rest) = cut_word(left);
        let payload = payload_word(alloc, word)?;
        if payloads.push(payload).is_err() {
            return Err(LineFault::Memory);
        }
        match rest {
            None => return Ok(Items::new(payloads)),
            Some(rest) => left = rest,
        }
    }
    Err(LineFault::Refused)
}

/// The digits of a frame's word, and how many bits of the last byte are sent, 0 where the word doesn't say.
fn tail_parts(word: &[u8]) -> (&[u8], u8)
    ensures { CutsTail word.now result.0.now result.1 }
{
    match word {
        [digits @ .., b'/', count @ b'1'..=b'7'] => (digits, *count - b'0'),
        _ => (word, 0),
    }
}

/// The frame that a word spells.
fn frame_word(alloc: Global, word: &[u8], tech: Tech) -> Result<Frame, LineFault>
    ensures ok { IfOk result (SpellsFrame tech word.now) }
    ensures refused { IsErrOf result LineFault.Refused → NoneOf (SpellsFrame tech word.now) }
{
    let (digits, tail) = tail_parts(word);
    let bytes = hex_word(alloc, digits)?;
    match Frame::part(tech, bytes.as_slice(), tail) {
        Ok(frame) => Ok(frame),
        Err(_) => Err(LineFault::Refused),
    }
}

/// The frames that the words of a text spell.
pub fn frame_words(alloc: Global, text: &[u8], tech: Tech) -> Result<Items<Frame>, LineFault>
    ensures ok { IfOk result (SpellFrames tech (words_of text.now)) }
    ensures refused { IsErrOf result LineFault.Refused → NoneOf (SpellFrames tech (words_of text.now)) }
{
    let mut frames = Vec::new(alloc);
    let mut left = text;
    for _ in 0..MOST_FRAMES {
        let (word, rest) = cut_word(left);
        let frame = frame_word(alloc, word, tech)?;
        if frames.push(frame).is_err() {
            return Err(LineFault::Memory);
        }
        match rest {
            None => return Ok(Items::new(frames)),
            Some(rest) => left = rest,
        }
    }
    Err(LineFault::Refused)
}

/// The put of a client that a word spells.
fn slot_put_word(alloc: Global, word: &[u8]) -> Result<SlotPut, LineFault>
    ensures ok { IfOk result (SpellsSlotPut word.now) }
    ensures refused { IsErrOf result LineFault.Refused → NoneOf (SpellsSlotPut word.now) }
{
    let Some((slot_text, message_text)) = colon_parts(word) else {
        return Err(LineFault::Refused);
    };
    let slot = small_word(alloc, slot_text, LEAST_SLOT, MOST_SLOT)?;
    let message = message_word(alloc, message_text)?;
    Ok(SlotPut { slot, message })
}

/// The puts that the words of a text spell, one of each client.
pub fn put_words(alloc: Global, text: &[u8]) -> Result<Items<SlotPut>, LineFault>
    ensures ok { IfOk result (SpellPuts (words_of text.now)) }
    ensures refused { IsErrOf result LineFault.Refused → NoneOf (SpellPuts (words_of text.now)) }
{
    let puts = slot_put_words(alloc, text)?;
    if puts.as_slice().len() < LEAST_PUTS || !have_own_slots(puts.as_slice()) {
        return Err(LineFault::Refused);
    }
    Ok(puts)
}

/// The puts that the words of a text spell, of whichever clients.
fn slot_put_words(alloc: Global, text: &[u8]) -> Result<Items<SlotPut>, LineFault>
    ensures ok { IfOk result (SpellRow SpellsSlotPut 1 most_puts (words_of text.now)) }
    ensures refused { IsErrOf result LineFault.Refused → NoneOf
        (SpellRow SpellsSlotPut 1 most_puts (words_of text.now)) }
{
    let mut puts = Vec::new(alloc);
    let mut left = text;
    for _ in 0..MOST_PUTS {
        let (word, rest) = cut_word(left);
        let put = slot_put_word(alloc, word)?;
        if puts.push(put).is_err() {
            return Err(LineFault::Memory);
        }
        match rest {
            None => return Ok(Items::new(puts)),
            Some(rest) => left = rest,
        }
    }
    Err(LineFault::Refused)
}
