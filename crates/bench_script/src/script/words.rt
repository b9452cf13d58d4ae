//! The words of a line.

ghost use Rattle.std.specs.Prelude.{◌≡◌, ◌≢◌, ◌<◌, ◌^◌, ℕ, [], ◌∷◌, List, MatchOption, IfOk, IsErrOf};
ghost use Rattle.std.specs.Char.{is_ascii_graphic};
ghost use Rattle.std.specs.List.{list_all};
ghost use Rattle.nfc_base.specs.declared.event.Fate.{Fate as Becomes};
ghost use Rattle.std.specs.Option.{option_copied};
ghost use Rattle.std.specs.Fmt.{decimal};
ghost use Rattle.bench_script.specs.Script.{words_of, SpellsHex, SpellsIdent, SpellsIdV, SpellsId, SpellsWithin};
ghost use Rattle.bench_script.specs.Script.{SpellsSize, SpellsCode, SpellsBlock, fate_letter, SpellsFates};
ghost use Rattle.bench_script.specs.Script.{SpellsCounted, SpellsMsg, SpellsName};
ghost use Rattle.bench_script.specs.declared.command.DeviceId.{DeviceId as Named};
ghost use Rattle.bench_script.specs.declared.script.words.CommandName.{CommandName as Names};
ghost use Rattle.bench_script.specs.private.Words.{CutsWord, NoneOf, AreThree, AreFour, AreFive, NotOne, NotTwo};
ghost use Rattle.bench_script.specs.private.Words.{NotThree, NotFour, NotFive, HasNoColon, IsCutAtColon, SpellsNoCount};
ghost use Rattle.bench_script.specs.private.Words.{SpellsNoHex, name_text};

use super::LineFault;
use crate::command::DeviceId;
use crate::message::Msg;
use hex::FromHexError;
use nfc_base::{Fate, Items};
use nfca_poll::Ident;
use std::alloc::{AllocError, Global};
use t4t_tag::MOST_CODE;

/// How many fates a line may have (this project's limit).
const MOST_FATES: usize = 4000;

/// How many counted bytes a message has at most.
const LONGEST_MESSAGE: u32 = 65536;

/// How many characters the name of a service has at most (this project's limit).
const LONGEST_NAME: usize = 64;

/// The first word of a line of several words.
#[derive(Clone, Copy, Debug, PartialEq, Eq)]
pub enum CommandName {
    Fates,
    Place,
    Lock,
    Busy,
    Offer,
    Remove,
    Dump,
    Inbox,
    Read,
    Read3,
    Write,
    Write3,
    Link,
    Forge,
    Raw,
    Put,
    Get,
    Lookup,
    On,
    Puts,
}

/// The name that a word is.
pub fn name_of(word: &[u8]) -> Option<CommandName>
    ensures { MatchOption result ((n : Names) → word.now ≢ name_text n) (λ n. word.now ≡ name_text n) }
{
    match word {
        b"fates" => Some(CommandName::Fates),
        b"place" => Some(CommandName::Place),
        b"lock" => Some(CommandName::Lock),
        b"busy" => Some(CommandName::Busy),
        b"offer" => Some(CommandName::Offer),
        b"remove" => Some(CommandName::Remove),
        b"dump" => Some(CommandName::Dump),
        b"inbox" => Some(CommandName::Inbox),
        b"read" => Some(CommandName::Read),
        b"read3" => Some(CommandName::Read3),
        b"write" => Some(CommandName::Write),
        b"write3" => Some(CommandName::Write3),
        b"link" => Some(CommandName::Link),
        b"forge" => Some(CommandName::Forge),
        b"raw" => Some(CommandName::Raw),
        b"put" => Some(CommandName::Put),
        b"get" => Some(CommandName::Get),
        b"lookup" => Some(CommandName::Lookup),
        b"on" => Some(CommandName::On),
        b"puts" => Some(CommandName::Puts),
        _ => None,
    }
}

/// The first word, and what stands behind its space.
#[tactic(auto, using(crate::proofs::Words::words_cut, crate::proofs::Words::words_end))]
pub fn cut_word(text: &[u8]) -> (&[u8], Option<&[u8]>)
    ensures { CutsWord text.now result.0.now (option_copied result.1) }
{
    for (i, b) in text.iter().enumerate() {
        if *b == b' ' {
            return (&text[..i], Some(&text[i + 1..]));
        }
    }
    (text, None)
}

/// The word of a text of one.
#[tactic(auto, using(crate::proofs::Words::words_not_nil))]
pub fn only_word(text: &[u8]) -> Option<&[u8]>
    ensures { MatchOption result (NotOne (words_of text.now)) (λ w. words_of text.now ≡ w.now ∷ []) }
{
    let (word, rest) = cut_word(text);
    match rest {
        None => Some(word),
        Some(_) => None,
    }
}

/// The words of a text of two.
#[tactic(auto, using(crate::proofs::Words::words_not_nil))]
pub fn two_words(text: &[u8]) -> Option<(&[u8], &[u8])>
    ensures { MatchOption result (NotTwo (words_of text.now)) (λ x. words_of text.now ≡ x.0.now ∷ x.1.now ∷ []) }
{
    let (first, rest) = cut_word(text);
    Some((first, only_word(rest?)?))
}

/// The words of a text of five.
#[tactic(auto, using(crate::proofs::Words::words_not_nil))]
pub fn five_words(text: &[u8]) -> Option<(&[u8], &[u8], &[u8], &[u8], &[u8])>
    ensures { MatchOption result (NotFive (words_of text.now)) (AreFive (words_of text.now)) }
{
    let (first, rest) = cut_word(text);
    let (second, third, fourth, fifth) = four_words(rest?)?;
    Some((first, second, third, fourth, fifth))
}

/// The words of a text of four.
#[tactic(auto, using(crate::proofs::Words::words_not_nil))]
pub fn four_words(text: &[u8]) -> Option<(&[u8], &[u8], &[u8], &[u8])>
    ensures { MatchOption result (NotFour (words_of text.now)) (AreFour (words_of text.now)) }
{
    let (first, rest) = cut_word(text);
    let (second, third, fourth) = three_words(rest?)?;
    Some((first, second, third, fourth))
}

/// The words of a text of three.
#[tactic(auto, using(crate::proofs::Words::words_not_nil))]
pub fn three_words(text: &[u8]) -> Option<(&[u8], &[u8], &[u8])>
    ensures { MatchOption result (NotThree (words_of text.now)) (AreThree (words_of text.now)) }
{
    let (first, rest) = cut_word(text);
    let (second, rest) = cut_word(rest?);
    let (third, rest) = cut_word(rest?);
    match rest {
        None => Some((first, second, third)),
        Some(_) => None,
    }
}

/// The identifier that a word spells.
pub fn ident_word(alloc: Global, word: &[u8]) -> Result<Ident, LineFault>
    ensures ok { IfOk result (SpellsIdent word.now) }
    ensures refused { IsErrOf result LineFault.Refused → NoneOf (SpellsIdent word.now) }
{
    match hex::decode(alloc, word) {
        Ok(bytes) => match Ident::new(&bytes) {
            Ok(id) => Ok(id),
            Err(_) => Err(LineFault::Refused),
        },
        Err(FromHexError::OutOfMemory) => Err(LineFault::Memory),
        Err(_) => Err(LineFault::Refused),
    }
}

/// The identifier of a Type 3 or Type 5 tag that a word spells.
pub fn ident_word_v(alloc: Global, word: &[u8]) -> Result<[u8; 8], LineFault>
    ensures ok { IfOk result (SpellsIdV word.now) }
    ensures refused { IsErrOf result LineFault.Refused → NoneOf (SpellsIdV word.now) }
{
    match hex::decode(alloc, word) {
        Ok(bytes) => match bytes.as_slice().try_into() {
            Ok(id) => Ok(id),
            Err(_) => Err(LineFault::Refused),
        },
        Err(FromHexError::OutOfMemory) => Err(LineFault::Memory),
        Err(_) => Err(LineFault::Refused),
    }
}

/// The identifier of a device that a word spells.
pub fn device_word(alloc: Global, word: &[u8]) -> Result<DeviceId, LineFault>
    ensures ok { IfOk result (SpellsId word.now) }
    ensures refused { IsErrOf result LineFault.Refused → NoneOf (SpellsId word.now) }
{
    match ident_word(alloc, word) {
        Ok(id) => Ok(DeviceId::A(id)),
        Err(LineFault::Refused) => Ok(DeviceId::V(ident_word_v(alloc, word)?)),
        Err(LineFault::Memory) => Err(LineFault::Memory),
    }
}

/// The bytes that a word spells.
pub fn hex_word(alloc: Global, word: &[u8]) -> Result<Items<u8>, LineFault>
    ensures ok { IfOk result (SpellsHex word.now) }
    ensures refused { IsErrOf result LineFault.Refused → SpellsNoHex word.now }
{
    if word == b"-".as_slice() {
        return Ok(Items::new(Vec::new(alloc)));
    }
    if word.is_empty() {
        return Err(LineFault::Refused);
    }
    match hex::decode(alloc, word) {
        Ok(bytes) => Ok(Items::new(bytes)),
        Err(FromHexError::OutOfMemory) => Err(LineFault::Memory),
        Err(_) => Err(LineFault::Refused),
    }
}

/// The number below 2^32 that a word spells, if it does.
fn number_word(alloc: Global, word: &[u8]) -> Result<Option<u32>, AllocError>
    ensures { IfOk result (λ o. MatchOption o ((n : ℕ) → n < 2 ^ 32 → word.now ≢ decimal n)
        (λ n. word.now ≡ decimal n)) }
{
    let Ok(digits) = str::from_utf8(word) else {
        return Ok(None);
    };
    let Ok(n) = digits.parse::<u32>() else {
        return Ok(None);
    };
    let written = n.to_string(alloc)?;
    if written.as_bytes() == word {
        Ok(Some(n))
    } else {
        Ok(None)
    }
}

/// The number between two limits that a word spells.
#[tactic(auto, using(std::proofs::lemmas::Fmt::decimal_injective))]
pub fn long_word(alloc: Global, word: &[u8], least: u32, most: u32) -> Result<u32, LineFault>
    ensures ok { IfOk result (SpellsWithin least most word.now) }
    ensures refused { IsErrOf result LineFault.Refused → NoneOf (SpellsWithin least most word.now) }
{
    match number_word(alloc, word)? {
        Some(n) if least <= n && n <= most => Ok(n),
        _ => Err(LineFault::Refused),
    }
}

/// Likewise a number of two bytes.
pub fn within_word(alloc: Global, word: &[u8], least: u16, most: u16) -> Result<u16, LineFault>
    ensures ok { IfOk result (SpellsWithin least most word.now) }
    ensures refused { IsErrOf result LineFault.Refused → NoneOf (SpellsWithin least most word.now) }
{
    Ok(long_word(alloc, word, least as u32, most as u32)? as u16)
}

/// Likewise a number of one byte.
pub fn small_word(alloc: Global, word: &[u8], least: u8, most: u8) -> Result<u8, LineFault>
    ensures ok { IfOk result (SpellsWithin least most word.now) }
    ensures refused { IsErrOf result LineFault.Refused → NoneOf (SpellsWithin least most word.now) }
{
    Ok(long_word(alloc, word, least as u32, most as u32)? as u8)
}

/// The number of a block that a word spells.
pub fn block_word(alloc: Global, word: &[u8]) -> Result<u16, LineFault>
    ensures ok { IfOk result (SpellsBlock word.now) }
    ensures refused { IsErrOf result LineFault.Refused → NoneOf (SpellsBlock word.now) }
{
    within_word(alloc, word, 0, u16::MAX)
}

/// The size of a Type 5 tag's blocks that a word spells.
#[tactic(auto, using(std::proofs::lemmas::Fmt::decimal_injective))]
pub fn size_word(alloc: Global, word: &[u8]) -> Result<u8, LineFault>
    ensures ok { IfOk result (SpellsSize word.now) }
    ensures refused { IsErrOf result LineFault.Refused → NoneOf (SpellsSize word.now) }
{
    match number_word(alloc, word)? {
        Some(n @ (4 | 8 | 16 | 32)) => Ok(n as u8),
        _ => Err(LineFault::Refused),
    }
}

/// The size code of a Type 4 tag that a word spells.
#[tactic(auto, using(std::proofs::lemmas::Fmt::decimal_injective))]
pub fn code_word(alloc: Global, word: &[u8]) -> Result<u8, LineFault>
    ensures ok { IfOk result (SpellsCode word.now) }
    ensures refused { IsErrOf result LineFault.Refused → NoneOf (SpellsCode word.now) }
{
    match number_word(alloc, word)? {
        Some(n) if n <= MOST_CODE as u32 => Ok(n as u8),
        _ => Err(LineFault::Refused),
    }
}

/// What stands before and behind the first colon of a text.
pub fn colon_parts(text: &[u8]) -> Option<(&[u8], &[u8])>
    ensures { MatchOption result (HasNoColon text.now) (IsCutAtColon text.now) }
{
    for (i, b) in text.iter().enumerate() {
        if *b == b':' {
            return Some((&text[..i], &text[i + 1..]));
        }
    }
    None
}

/// How many bytes a word spells, and the first of them, where it spells counted bytes.
fn counted_word(alloc: Global, word: &[u8]) -> Result<(u32, u8), LineFault>
    ensures ok { IfOk result (λ x. SpellsCounted word.now x.0 x.1) }
    ensures refused { IsErrOf result LineFault.Refused → SpellsNoCount word.now }
{
    let Some(rest) = word.strip_prefix(b"gen:") else {
        return Err(LineFault::Refused);
    };
    let Some((count_text, start_text)) = colon_parts(rest) else {
        return Err(LineFault::Refused);
    };
    let count = long_word(alloc, count_text, 0, LONGEST_MESSAGE)?;
    let start = small_word(alloc, start_text, 0, u8::MAX)?;
    Ok((count, start))
}

/// The message that a word spells.
#[tactic(auto, using(crate::proofs::Messages::no_message))]
pub fn message_word(alloc: Global, word: &[u8]) -> Result<Msg, LineFault>
    ensures ok { IfOk result (SpellsMsg word.now) }
    ensures refused { IsErrOf result LineFault.Refused → NoneOf (SpellsMsg word.now) }
{
    match counted_word(alloc, word) {
        Ok((count, start)) => Ok(Msg::Gen { count, start }),
        Err(LineFault::Refused) => Ok(Msg::Hex(hex_word(alloc, word)?)),
        Err(LineFault::Memory) => Err(LineFault::Memory),
    }
}

/// Whether a word has characters from 21h to 7Eh alone.
fn is_graphic(word: &[u8]) -> bool
    ensures { result ≡ list_all is_ascii_graphic word.now }
{
    word.iter().all(|b| b.is_ascii_graphic())
}

/// The name of a service that a word is.
pub fn name_word(alloc: Global, word: &[u8]) -> Result<Items<u8>, LineFault>
    ensures ok { IfOk result (SpellsName word.now) }
    ensures refused { IsErrOf result LineFault.Refused → NoneOf (SpellsName word.now) }
{
    if word.is_empty() || word.len() > LONGEST_NAME || !is_graphic(word) {
        return Err(LineFault::Refused);
    }
    Ok(Items::from_bytes(alloc, word)?)
}

/// The fate of a letter.
fn fate_of(letter: u8) -> Option<Fate>
    ensures { MatchOption result ((f : Becomes) → letter ≢ fate_letter f) (λ f. letter ≡ fate_letter f) }
{
    match letter {
        b'P' => Some(Fate::Pass),
        b'D' => Some(Fate::Damage),
        b'L' => Some(Fate::Lose),
        b'B' => Some(Fate::Break),
        _ => None,
    }
}

/// The fates that a word spells.
pub fn fates_word(alloc: Global, word: &[u8]) -> Result<Items<Fate>, LineFault>
    ensures ok { IfOk result (SpellsFates word.now) }
    ensures refused { IsErrOf result LineFault.Refused → NoneOf (SpellsFates word.now) }
{
    if word.is_empty() || word.len() > MOST_FATES {
        return Err(LineFault::Refused);
    }
    let mut fates = Vec::new(alloc);
    for letter in word {
        match fate_of(*letter) {
            Some(fate) => {
                if fates.push(fate).is_err() {
                    return Err(LineFault::Memory);
                }
            }
            None => return Err(LineFault::Refused),
        }
    }
    Ok(Items::new(fates))
}
