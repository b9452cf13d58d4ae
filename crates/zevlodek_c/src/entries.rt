//! What stands in the log of an end of a link, one entry behind the other, and an end behind all of them.

ghost use Rattle.std.specs.Prelude.{◌≡◌, ◌≤◌, ℕ, List, None, Option, length, IfSome};
ghost use Rattle.zevlodek_c.specs.Entries.{Entry, Replays, SpellsEntry, heard_of};

use crate::log::counted;
use nfc_base::{Frame, Heard, Tech};

/// The kinds: what an end is to send whole, a command or a payload; a frame that came whole; one that came damaged;
/// nothing came; the reply to what an end was handed.
pub const BEGUN: u8 = 0;

pub const FRAME: u8 = 1;

const DAMAGED: u8 = 2;

const NOTHING: u8 = 3;

pub const REPLY: u8 = 4;

/// An end of a link, and what it does behind the entries so far.
pub trait Replayed {
    /// The end behind one entry more, where it takes that.
    ghost takes: { Self → Entry → Option Self };

    fn take(self, kind: u8, content: &[u8]) -> Option<Self>
        ensures taken { result ≡ takes self (record { kind = kind; content = content.now }) };
}

/// The entry that a log begins with, and what stands behind it.
pub fn entry_of(log: &[u8]) -> Option<(u8, &[u8], &[u8])>
    ensures some { IfSome result (λ p. SpellsEntry (record { kind = p.0; content = p.1.now }) log.now p.2.now) }
    ensures none { result ≡ None → (e : Entry) (rest : List ℕ) → SpellsEntry e log.now rest → ⊥ }
{
    let [kind, rest @ ..] = log else {
        return None;
    };
    let (content, rest) = counted(rest)?;
    Some((*kind, content, rest))
}

/// What was heard of the frame that was sent last.
pub fn heard_of(kind: u8, content: &[u8]) -> Option<Heard>
    ensures { result ≡ heard_of (record { kind = kind; content = content.now }) }
{
    if kind == FRAME {
        return match Frame::whole(Tech::A, content) {
            Ok(frame) => Some(Heard::Whole(frame)),
            Err(_) => None,
        };
    }
    if content.len() != 0 {
        return None;
    }
    match kind {
        DAMAGED => Some(Heard::Damaged),
        NOTHING => Some(Heard::Silent),
        _ => None,
    }
}

/// An end behind all that stands in a log, where it takes all of it.
pub fn replay<E: Replayed + Drop>(end: E, log: &[u8]) -> Option<E>
    ensures { Replays E.takes end log.now result }
{
    let mut now = end;
    let mut rest = log;
    while !rest.is_empty() {
        let Some((kind, content, left)) = entry_of(rest) else {
            return None;
        };
        match now.take(kind, content) {
            None => return None,
            Some(next) => now = next,
        }
        rest = left;
    }
    Some(now)
}
