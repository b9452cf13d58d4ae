//! Writings.

ghost use Rattle.std.specs.Prelude.{◌≡◌};
ghost use Rattle.tag_reader.specs.Heard.{IsOf};
ghost use Rattle.tag_steps.specs.Replay.{Agrees, first_link};
ghost use Rattle.tag_steps.specs.Writing.{AreSentToWrite, IsOddToWriter, TellsWrite};

use crate::replay::Replay;
use crate::turn::{RealTag, Turn};
use nfc_base::Frame;
use std::alloc::Global;
use tag_reader::How;
use tag_writer::{WriteFault, write};

/// What follows the turns so far: a command to be sent, that the message is written, or why it isn't.
#[derive(Debug, Drop)]
pub enum NextWrite {
    Send(Frame),
    Done,
    Fault(WriteFault),
}

/// Goes on with the writing of a tag, with which these turns were made so far. It begins with none, and each further
/// one has the command that was to be sent. Another command in their place is told as `Protocol`.
pub fn next_write<G: RealTag>(
    alloc: Global,
    tag: &G,
    how: How,
    message: &[u8],
    turns: &[Turn],
) -> NextWrite
    // the tag gave these answers
    requires agrees { Agrees (G.real tag.now) turns.now }
    requires of { IsOf how (first_link (G.real tag.now)) }
    // what it tells is what a writing over these turns tells, and a tag of that kind keeps the law of a write
    ensures told { TellsWrite how message.now (G.real tag.now) turns.now result }
    // where the turns' commands are those that were to be sent, an odd answer of the tag alone is told as one
    ensures odd { AreSentToWrite how message.now (G.real tag.now) turns.now
        → result ≡ NextWrite.Fault WriteFault.Protocol
        → IsOddToWriter how message.now (G.real tag.now) turns.now }
{
    let mut link = Replay {
        tag,
        turns,
        used: 0,
        last: None,
        over: None,
    };
    match write(alloc, &mut link, how, message) {
        Ok(()) => NextWrite::Done,
        Err(fault) => match link.due() {
            Some(command) => NextWrite::Send(command),
            None => NextWrite::Fault(fault),
        },
    }
}
