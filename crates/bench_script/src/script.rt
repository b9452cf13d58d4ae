//! Reading the lines of a script.

ghost use Rattle.std.specs.Prelude.{◌≡◌, [], ◌∷◌, IfOk, IsErrOf, codes};
ghost use Rattle.bench_script.specs.private.Words.{SpellsNone};
ghost use Rattle.bench_script.specs.Script.{words_of, is_skipped, SpelledBy, Spells, line_fault_number};
ghost use Rattle.bench_script.specs.declared.command.Command.{Command};
ghost use Rattle.bench_script.specs.declared.script.LineFault.TheVariants.{Memory};

mod links;
mod rows;
mod words;

use crate::command::Command;
use links::{forge_line, get_line, link_line, lookup_line, on_line, put_line, puts_line, raw_line};
use llcp_pdu::LEAST_MIU;
use std::alloc::{AllocError, Global};
use thiserror::Error;
use words::{
    CommandName, block_word, code_word, cut_word, device_word, fates_word, five_words, four_words,
    hex_word, ident_word, ident_word_v, long_word, message_word, name_of, only_word, size_word,
    small_word, three_words, two_words, within_word,
};

/// How many blocks a Type 2 tag that may be placed has at least, which are its header, and at most, since a read names
/// a block in one byte (this project's limits).
const LEAST_BLOCKS: u16 = 4;

const MOST_BLOCKS: u16 = 256;

/// The same of a Type 3 tag, whose blocks are named in one byte too.
const LEAST_BLOCKS_F: u16 = 1;

const MOST_BLOCKS_F: u16 = 256;

/// The same of a Type 5 tag: a full store in blocks of four bytes has as many.
const LEAST_BLOCKS_V: u16 = 1;

const MOST_BLOCKS_V: u16 = 16384;

/// How long the frames of NFC-DEP are that a peer takes, by the code of their length (ISO/IEC 18092).
const LEAST_LR: u8 = 0;

const MOST_LR: u8 = 3;

/// How many bytes of information a PDU to an end of a link may have at most, a peer's or the reader's (NFC Forum LLCP).
const MOST_MIU: u16 = 2175;

/// How many I PDUs such an end can take that it hasn't acknowledged (NFC Forum LLCP).
const LEAST_RW: u8 = 1;

const MOST_RW: u8 = 15;

/// How many bytes a message may have that a peer's server takes (this project's limits).
const LEAST_LIMIT: u32 = 1024;

const MOST_LIMIT: u32 = 65536;

/// How often a device may ask for more time before an answer, and by which value.
const LEAST_BUSY: u8 = 0;

const MOST_BUSY: u8 = 5;

const LEAST_TIMES: u8 = 1;

const MOST_TIMES: u8 = 59;

/// Why a line gives no command.
#[derive(Clone, Copy, Debug, PartialEq, Eq, Error)]
pub enum LineFault {
    #[error("the line is no command")]
    Refused = 1,
    #[error("out of memory")]
    Memory = 2,
}

impl LineFault {
    /// Its number in reports and tests.
    pub fn number(&self) -> u8
        ensures { result ≡ line_fault_number self.now }
    {
        *self as u8
    }
}

impl From<AllocError> for LineFault {
    ghost from_gives = { λ _ e. e ≡ Memory };

    fn from(_e: AllocError) -> LineFault {
        LineFault::Memory
    }
}

/// The command that a line spells, without its LF. The grammar is this project's own.
pub fn parse_line(alloc: Global, line: &[u8]) -> Result<Command, LineFault>
    ensures ok { IfOk result (λ c. Spells line.now c) }
    ensures alone { IfOk result (λ c. (d : Command) → Spells line.now d → d ≡ c) }
    ensures refused { IsErrOf result LineFault.Refused → (c : Command) → Spells line.now c → ⊥ }
{
    if is_skipped(line) {
        return Ok(Command::Skip);
    }
    command_line(alloc, line)
}

/// Whether a line asks for nothing: it is empty, or a comment.
fn is_skipped(line: &[u8]) -> bool
    ensures { result ≡ is_skipped line.now }
{
    matches!(line.first(), None | Some(b'#'))
}

/// A line that isn't skipped.
#[tactic(auto, using(crate::proofs::Spelling::nameless, crate::proofs::Words::words_not_nil))]
fn command_line(alloc: Global, line: &[u8]) -> Result<Command, LineFault>
    ensures ok { IfOk result (λ c. SpelledBy (words_of line.now) c) }
    ensures refused { IsErrOf result LineFault.Refused → SpellsNone (words_of line.now) }
{
    let (name, rest) = cut_word(line);
    let Some(rest) = rest else {
        return lone_word(name);
    };
    match name_of(name) {
        Some(CommandName::Fates) => fates_line(alloc, rest),
        Some(CommandName::Place) => place_line(alloc, rest),
        Some(CommandName::Lock) => lock_line(alloc, rest),
        Some(CommandName::Busy) => busy_line(alloc, rest),
        Some(CommandName::Offer) => offer_line(alloc, rest),
        Some(CommandName::Remove) => remove_line(alloc, rest),
        Some(CommandName::Dump) => dump_line(alloc, rest),
        Some(CommandName::Inbox) => inbox_line(alloc, rest),
        Some(CommandName::Read) => read_line(alloc, rest),
        Some(CommandName::Read3) => read_three_line(alloc, rest),
        Some(CommandName::Write) => write_line(alloc, rest),
        Some(CommandName::Write3) => write_three_line(alloc, rest),
        Some(CommandName::Link) => link_line(alloc, rest),
        Some(CommandName::Forge) => forge_line(alloc, rest),
        Some(CommandName::Raw) => raw_line(alloc, rest),
        Some(CommandName::Put) => put_line(alloc, rest),
        Some(CommandName::Get) => get_line(alloc, rest),
        Some(CommandName::Lookup) => lookup_line(alloc, rest),
        Some(CommandName::On) => on_line(alloc, rest),
        Some(CommandName::Puts) => puts_line(alloc, rest),
        None => Err(LineFault::Refused),
    }
}

/// A line of one word.
fn lone_word(name: &[u8]) -> Result<Command, LineFault>
    ensures ok { IfOk result (λ c. SpelledBy (name.now ∷ []) c) }
    ensures refused { IsErrOf result LineFault.Refused → SpellsNone (name.now ∷ []) }
{
    if name == b"find".as_slice() {
        return Ok(Command::Find);
    }
    if name == b"crowd".as_slice() {
        return Ok(Command::Crowd);
    }
    if name == b"poll3".as_slice() {
        return Ok(Command::Poll3);
    }
    if name == b"unlink".as_slice() {
        return Ok(Command::Unlink);
    }
    Err(LineFault::Refused)
}

/// `fates FATES`, behind its first word.
fn fates_line(alloc: Global, rest: &[u8]) -> Result<Command, LineFault>
    ensures ok { IfOk result (λ c. SpelledBy (codes "fates" ∷ words_of rest.now) c) }
    ensures refused { IsErrOf result LineFault.Refused → SpellsNone (codes "fates" ∷ words_of rest.now) }
{
    let Some(word) = only_word(rest) else {
        return Err(LineFault::Refused);
    };
    let fates = fates_word(alloc, word)?;
    Ok(Command::Fates(fates))
}

/// `lock ID BLOCK`, behind its first word.
fn lock_line(alloc: Global, rest: &[u8]) -> Result<Command, LineFault>
    ensures ok { IfOk result (λ c. SpelledBy (codes "lock" ∷ words_of rest.now) c) }
    ensures refused { IsErrOf result LineFault.Refused → SpellsNone (codes "lock" ∷ words_of rest.now) }
{
    let Some((id_text, block_text)) = two_words(rest) else {
        return Err(LineFault::Refused);
    };
    let id = device_word(alloc, id_text)?;
    let block = block_word(alloc, block_text)?;
    Ok(Command::Lock { id, block })
}

/// `busy ID COUNT TIMES`, behind its first word.
fn busy_line(alloc: Global, rest: &[u8]) -> Result<Command, LineFault>
    ensures ok { IfOk result (λ c. SpelledBy (codes "busy" ∷ words_of rest.now) c) }
    ensures refused { IsErrOf result LineFault.Refused → SpellsNone (codes "busy" ∷ words_of rest.now) }
{
    let Some((id_text, count_text, times_text)) = three_words(rest) else {
        return Err(LineFault::Refused);
    };
    let id = device_word(alloc, id_text)?;
    let count = small_word(alloc, count_text, LEAST_BUSY, MOST_BUSY)?;
    let times = small_word(alloc, times_text, LEAST_TIMES, MOST_TIMES)?;
    Ok(Command::Busy { id, count, times })
}

/// `offer ID HEX HEX`, behind its first word.
fn offer_line(alloc: Global, rest: &[u8]) -> Result<Command, LineFault>
    ensures ok { IfOk result (λ c. SpelledBy (codes "offer" ∷ words_of rest.now) c) }
    ensures refused { IsErrOf result LineFault.Refused → SpellsNone (codes "offer" ∷ words_of rest.now) }
{
    let Some((id_text, key_text, value_text)) = three_words(rest) else {
        return Err(LineFault::Refused);
    };
    let id = device_word(alloc, id_text)?;
    let key = hex_word(alloc, key_text)?;
    let value = hex_word(alloc, value_text)?;
    Ok(Command::Offer { id, key, value })
}

/// `remove ID`, behind its first word.
fn remove_line(alloc: Global, rest: &[u8]) -> Result<Command, LineFault>
    ensures ok { IfOk result (λ c. SpelledBy (codes "remove" ∷ words_of rest.now) c) }
    ensures refused { IsErrOf result LineFault.Refused → SpellsNone (codes "remove" ∷ words_of rest.now) }
{
    let Some(word) = only_word(rest) else {
        return Err(LineFault::Refused);
    };
    let id = device_word(alloc, word)?;
    Ok(Command::Remove { id })
}

/// `dump ID`, behind its first word.
fn dump_line(alloc: Global, rest: &[u8]) -> Result<Command, LineFault>
    ensures ok { IfOk result (λ c. SpelledBy (codes "dump" ∷ words_of rest.now) c) }
    ensures refused { IsErrOf result LineFault.Refused → SpellsNone (codes "dump" ∷ words_of rest.now) }
{
    let Some(word) = only_word(rest) else {
        return Err(LineFault::Refused);
    };
    let id = device_word(alloc, word)?;
    Ok(Command::Dump { id })
}

/// `inbox ID`, behind its first word.
fn inbox_line(alloc: Global, rest: &[u8]) -> Result<Command, LineFault>
    ensures ok { IfOk result (λ c. SpelledBy (codes "inbox" ∷ words_of rest.now) c) }
    ensures refused { IsErrOf result LineFault.Refused → SpellsNone (codes "inbox" ∷ words_of rest.now) }
{
    let Some(word) = only_word(rest) else {
        return Err(LineFault::Refused);
    };
    let id = device_word(alloc, word)?;
    Ok(Command::Inbox { id })
}

/// `read ID`, behind its first word.
fn read_line(alloc: Global, rest: &[u8]) -> Result<Command, LineFault>
    ensures ok { IfOk result (λ c. SpelledBy (codes "read" ∷ words_of rest.now) c) }
    ensures refused { IsErrOf result LineFault.Refused → SpellsNone (codes "read" ∷ words_of rest.now) }
{
    let Some(word) = only_word(rest) else {
        return Err(LineFault::Refused);
    };
    let id = device_word(alloc, word)?;
    Ok(Command::Read { id })
}

/// `read3 ID`, behind its first word.
fn read_three_line(alloc: Global, rest: &[u8]) -> Result<Command, LineFault>
    ensures ok { IfOk result (λ c. SpelledBy (codes "read3" ∷ words_of rest.now) c) }
    ensures refused { IsErrOf result LineFault.Refused → SpellsNone (codes "read3" ∷ words_of rest.now) }
{
    let Some(word) = only_word(rest) else {
        return Err(LineFault::Refused);
    };
    let id = ident_word_v(alloc, word)?;
    Ok(Command::Read3 { id })
}

/// `write ID MSG`, behind its first word.
fn write_line(alloc: Global, rest: &[u8]) -> Result<Command, LineFault>
    ensures ok { IfOk result (λ c. SpelledBy (codes "write" ∷ words_of rest.now) c) }
    ensures refused { IsErrOf result LineFault.Refused → SpellsNone (codes "write" ∷ words_of rest.now) }
{
    let Some((id_text, message_text)) = two_words(rest) else {
        return Err(LineFault::Refused);
    };
    let id = device_word(alloc, id_text)?;
    let message = message_word(alloc, message_text)?;
    Ok(Command::Write { id, message })
}

/// `write3 ID MSG`, behind its first word.
fn write_three_line(alloc: Global, rest: &[u8]) -> Result<Command, LineFault>
    ensures ok { IfOk result (λ c. SpelledBy (codes "write3" ∷ words_of rest.now) c) }
    ensures refused { IsErrOf result LineFault.Refused → SpellsNone (codes "write3" ∷ words_of rest.now) }
{
    let Some((id_text, message_text)) = two_words(rest) else {
        return Err(LineFault::Refused);
    };
    let id = ident_word_v(alloc, id_text)?;
    let message = message_word(alloc, message_text)?;
    Ok(Command::Write3 { id, message })
}

/// `place KIND ..`, behind its first word.
fn place_line(alloc: Global, rest: &[u8]) -> Result<Command, LineFault>
    ensures ok { IfOk result (λ c. SpelledBy (codes "place" ∷ words_of rest.now) c) }
    ensures refused { IsErrOf result LineFault.Refused → SpellsNone (codes "place" ∷ words_of rest.now) }
{
    let (kind, more) = cut_word(rest);
    let Some(more) = more else {
        return Err(LineFault::Refused);
    };
    match kind {
        b"t2" => place_t2(alloc, more),
        b"t3" => place_t3(alloc, more),
        b"t4" => place_t4(alloc, more),
        b"t5" => place_t5(alloc, more),
        b"peer" => place_peer(alloc, more),
        _ => Err(LineFault::Refused),
    }
}

/// `place t2 ID BLOCKS HEX`, behind its second word.
fn place_t2(alloc: Global, rest: &[u8]) -> Result<Command, LineFault>
    ensures ok { IfOk result (λ c. SpelledBy (codes "place" ∷ codes "t2" ∷ words_of rest.now) c) }
    ensures refused { IsErrOf result LineFault.Refused → SpellsNone (codes "place" ∷ codes "t2" ∷ words_of rest.now) }
{
    let Some((id_text, blocks_text, head_text)) = three_words(rest) else {
        return Err(LineFault::Refused);
    };
    let id = ident_word(alloc, id_text)?;
    let blocks = within_word(alloc, blocks_text, LEAST_BLOCKS, MOST_BLOCKS)?;
    let head = hex_word(alloc, head_text)?;
    Ok(Command::PlaceT2 { id, blocks, head })
}

/// `place t3 ID BLOCKS HEX`, behind its second word.
fn place_t3(alloc: Global, rest: &[u8]) -> Result<Command, LineFault>
    ensures ok { IfOk result (λ c. SpelledBy (codes "place" ∷ codes "t3" ∷ words_of rest.now) c) }
    ensures refused { IsErrOf result LineFault.Refused → SpellsNone (codes "place" ∷ codes "t3" ∷ words_of rest.now) }
{
    let Some((id_text, blocks_text, head_text)) = three_words(rest) else {
        return Err(LineFault::Refused);
    };
    let id = ident_word_v(alloc, id_text)?;
    let blocks = within_word(alloc, blocks_text, LEAST_BLOCKS_F, MOST_BLOCKS_F)?;
    let head = hex_word(alloc, head_text)?;
    Ok(Command::PlaceT3 { id, blocks, head })
}

/// `place t4 ID CODE HEX HEX`, behind its second word.
fn place_t4(alloc: Global, rest: &[u8]) -> Result<Command, LineFault>
    ensures ok { IfOk result (λ c. SpelledBy (codes "place" ∷ codes "t4" ∷ words_of rest.now) c) }
    ensures refused { IsErrOf result LineFault.Refused → SpellsNone (codes "place" ∷ codes "t4" ∷ words_of rest.now) }
{
    let Some((id_text, code_text, container_text, head_text)) = four_words(rest) else {
        return Err(LineFault::Refused);
    };
    let id = ident_word(alloc, id_text)?;
    let code = code_word(alloc, code_text)?;
    let container = hex_word(alloc, container_text)?;
    let head = hex_word(alloc, head_text)?;
    Ok(Command::PlaceT4 {
        id,
        code,
        container,
        head,
    })
}

/// `place t5 ID BLOCKS SIZE HEX`, behind its second word.
fn place_t5(alloc: Global, rest: &[u8]) -> Result<Command, LineFault>
    ensures ok { IfOk result (λ c. SpelledBy (codes "place" ∷ codes "t5" ∷ words_of rest.now) c) }
    ensures refused { IsErrOf result LineFault.Refused → SpellsNone (codes "place" ∷ codes "t5" ∷ words_of rest.now) }
{
    let Some((id_text, blocks_text, size_text, head_text)) = four_words(rest) else {
        return Err(LineFault::Refused);
    };
    let id = ident_word_v(alloc, id_text)?;
    let blocks = within_word(alloc, blocks_text, LEAST_BLOCKS_V, MOST_BLOCKS_V)?;
    let size = size_word(alloc, size_text)?;
    let head = hex_word(alloc, head_text)?;
    Ok(Command::PlaceT5 {
        id,
        blocks,
        size,
        head,
    })
}

/// `place peer ID LR MIU RW LIMIT`, behind its second word.
fn place_peer(alloc: Global, rest: &[u8]) -> Result<Command, LineFault>
    ensures ok { IfOk result (λ c. SpelledBy (codes "place" ∷ codes "peer" ∷ words_of rest.now) c) }
    ensures refused { IsErrOf result LineFault.Refused → SpellsNone (codes "place" ∷ codes "peer" ∷ words_of rest.now) }
{
    let Some((id_text, lr_text, miu_text, rw_text, limit_text)) = five_words(rest) else {
        return Err(LineFault::Refused);
    };
    let id = ident_word(alloc, id_text)?;
    let lr = small_word(alloc, lr_text, LEAST_LR, MOST_LR)?;
    let miu = within_word(alloc, miu_text, LEAST_MIU, MOST_MIU)?;
    let rw = small_word(alloc, rw_text, LEAST_RW, MOST_RW)?;
    let limit = long_word(alloc, limit_text, LEAST_LIMIT, MOST_LIMIT)?;
    Ok(Command::PlacePeer {
        id,
        lr,
        miu,
        rw,
        limit,
    })
}
