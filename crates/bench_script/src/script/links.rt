//! The lines of links, and of frames and payloads that are written by hand.

ghost use Rattle.std.specs.Prelude.{◌∷◌, IfOk, IsErrOf, codes};
ghost use Rattle.bench_script.specs.private.Words.{SpellsNone};
ghost use Rattle.bench_script.specs.Script.{words_of, SpelledBy};

use super::rows::{MOST_SLOT, frame_words, payload_words, put_words};
use super::words::{
    cut_word, device_word, hex_word, ident_word, long_word, message_word, name_word, only_word,
    small_word, three_words, two_words, within_word,
};
use super::{LEAST_RW, LineFault, MOST_MIU, MOST_RW};
use crate::command::Command;
use llcp_pdu::LEAST_MIU;
use std::alloc::Global;

/// How many bytes the value of a key may have that a get takes (this project's limits).
const LEAST_ACCEPTABLE: u32 = 0;

const MOST_ACCEPTABLE: u32 = 65536;

/// The first slot of a reader's clients that `on` names.
const LEAST_NAMED_SLOT: u8 = 1;

/// `link ID MIU RW`, behind its first word.
pub fn link_line(alloc: Global, rest: &[u8]) -> Result<Command, LineFault>
    ensures ok { IfOk result (λ c. SpelledBy (codes "link" ∷ words_of rest.now) c) }
    ensures refused { IsErrOf result LineFault.Refused → SpellsNone (codes "link" ∷ words_of rest.now) }
{
    let Some((id_text, miu_text, rw_text)) = three_words(rest) else {
        return Err(LineFault::Refused);
    };
    let id = ident_word(alloc, id_text)?;
    let miu = within_word(alloc, miu_text, LEAST_MIU, MOST_MIU)?;
    let rw = small_word(alloc, rw_text, LEAST_RW, MOST_RW)?;
    Ok(Command::Link { id, miu, rw })
}

/// `forge ID HEX ..`, behind its first word.
#[tactic(auto, using(crate::proofs::Words::words_not_nil))]
pub fn forge_line(alloc: Global, rest: &[u8]) -> Result<Command, LineFault>
    ensures ok { IfOk result (λ c. SpelledBy (codes "forge" ∷ words_of rest.now) c) }
    ensures refused { IsErrOf result LineFault.Refused → SpellsNone (codes "forge" ∷ words_of rest.now) }
{
    let (id_text, rest) = cut_word(rest);
    let Some(rest) = rest else {
        return Err(LineFault::Refused);
    };
    let id = ident_word(alloc, id_text)?;
    let payloads = payload_words(alloc, rest)?;
    Ok(Command::Forge { id, payloads })
}

/// `raw ID FRAME ..`, behind its first word.
#[tactic(auto, using(crate::proofs::Words::words_not_nil))]
pub fn raw_line(alloc: Global, rest: &[u8]) -> Result<Command, LineFault>
    ensures ok { IfOk result (λ c. SpelledBy (codes "raw" ∷ words_of rest.now) c) }
    ensures refused { IsErrOf result LineFault.Refused → SpellsNone (codes "raw" ∷ words_of rest.now) }
{
    let (id_text, rest) = cut_word(rest);
    let Some(rest) = rest else {
        return Err(LineFault::Refused);
    };
    let id = device_word(alloc, id_text)?;
    let frames = frame_words(alloc, rest, id.tech())?;
    Ok(Command::Raw { id, frames })
}

/// `put MSG`, behind its first word.
pub fn put_line(alloc: Global, rest: &[u8]) -> Result<Command, LineFault>
    ensures ok { IfOk result (λ c. SpelledBy (codes "put" ∷ words_of rest.now) c) }
    ensures refused { IsErrOf result LineFault.Refused → SpellsNone (codes "put" ∷ words_of rest.now) }
{
    let Some(word) = only_word(rest) else {
        return Err(LineFault::Refused);
    };
    let message = message_word(alloc, word)?;
    Ok(Command::Put { message })
}

/// `get N HEX`, behind its first word.
pub fn get_line(alloc: Global, rest: &[u8]) -> Result<Command, LineFault>
    ensures ok { IfOk result (λ c. SpelledBy (codes "get" ∷ words_of rest.now) c) }
    ensures refused { IsErrOf result LineFault.Refused → SpellsNone (codes "get" ∷ words_of rest.now) }
{
    let Some((acceptable_text, key_text)) = two_words(rest) else {
        return Err(LineFault::Refused);
    };
    let acceptable = long_word(alloc, acceptable_text, LEAST_ACCEPTABLE, MOST_ACCEPTABLE)?;
    let key = hex_word(alloc, key_text)?;
    Ok(Command::Get { acceptable, key })
}

/// `lookup NAME`, behind its first word.
pub fn lookup_line(alloc: Global, rest: &[u8]) -> Result<Command, LineFault>
    ensures ok { IfOk result (λ c. SpelledBy (codes "lookup" ∷ words_of rest.now) c) }
    ensures refused { IsErrOf result LineFault.Refused → SpellsNone (codes "lookup" ∷ words_of rest.now) }
{
    let Some(word) = only_word(rest) else {
        return Err(LineFault::Refused);
    };
    let name = name_word(alloc, word)?;
    Ok(Command::Lookup { name })
}

/// `on K put MSG` or `on K get N HEX`, behind its first word.
#[tactic(auto, using(crate::proofs::Words::words_not_nil))]
pub fn on_line(alloc: Global, rest: &[u8]) -> Result<Command, LineFault>
    ensures ok { IfOk result (λ c. SpelledBy (codes "on" ∷ words_of rest.now) c) }
    ensures refused { IsErrOf result LineFault.Refused → SpellsNone (codes "on" ∷ words_of rest.now) }
{
    let (slot_text, rest) = cut_word(rest);
    let Some(rest) = rest else {
        return Err(LineFault::Refused);
    };
    let (name, rest) = cut_word(rest);
    let Some(rest) = rest else {
        return Err(LineFault::Refused);
    };
    match name {
        b"put" => on_put(alloc, slot_text, rest),
        b"get" => on_get(alloc, slot_text, rest),
        _ => Err(LineFault::Refused),
    }
}

/// `on K put MSG`, of K and what stands behind its third word.
fn on_put(alloc: Global, slot_text: &[u8], rest: &[u8]) -> Result<Command, LineFault>
    ensures ok { IfOk result (λ c. SpelledBy (codes "on" ∷ slot_text.now ∷ codes "put" ∷ words_of rest.now) c) }
    ensures refused { IsErrOf result LineFault.Refused → SpellsNone (codes "on" ∷ slot_text.now ∷ codes "put" ∷ words_of rest.now) }
{
    let slot = small_word(alloc, slot_text, LEAST_NAMED_SLOT, MOST_SLOT)?;
    let Some(word) = only_word(rest) else {
        return Err(LineFault::Refused);
    };
    let message = message_word(alloc, word)?;
    Ok(Command::OnPut { slot, message })
}

/// `on K get N HEX`, of K and what stands behind its third word.
fn on_get(alloc: Global, slot_text: &[u8], rest: &[u8]) -> Result<Command, LineFault>
    ensures ok { IfOk result (λ c. SpelledBy (codes "on" ∷ slot_text.now ∷ codes "get" ∷ words_of rest.now) c) }
    ensures refused { IsErrOf result LineFault.Refused → SpellsNone (codes "on" ∷ slot_text.now ∷ codes "get" ∷ words_of rest.now) }
{
    let slot = small_word(alloc, slot_text, LEAST_NAMED_SLOT, MOST_SLOT)?;
    let Some((acceptable_text, key_text)) = two_words(rest) else {
        return Err(LineFault::Refused);
    };
    let acceptable = long_word(alloc, acceptable_text, LEAST_ACCEPTABLE, MOST_ACCEPTABLE)?;
    let key = hex_word(alloc, key_text)?;
    Ok(Command::OnGet {
        slot,
        acceptable,
        key,
    })
}

/// `puts K:MSG ..`, behind its first word.
pub fn puts_line(alloc: Global, rest: &[u8]) -> Result<Command, LineFault>
    ensures ok { IfOk result (λ c. SpelledBy (codes "puts" ∷ words_of rest.now) c) }
    ensures refused { IsErrOf result LineFault.Refused → SpellsNone (codes "puts" ∷ words_of rest.now) }
{
    let puts = put_words(alloc, rest)?;
    Ok(Command::Puts(puts))
}
