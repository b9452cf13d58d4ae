//! Readings.

ghost use Rattle.std.specs.Prelude.{◌≡◌};
ghost use Rattle.tag_reader.specs.Heard.{IsOf};
ghost use Rattle.tag_steps.specs.Replay.{Agrees, first_link};
ghost use Rattle.tag_steps.specs.Reading.{AreSent, IsOddBehind, TellsRead, SendsNext, SendsDue};

use crate::replay::Replay;
use crate::turn::{RealTag, Turn};
use nfc_base::Frame;
use std::alloc::Global;
use tag_reader::{Found, How, ReadFault, read};

/// What follows the turns so far: a command to be sent, the message, or why there is none.
#[derive(Debug, Drop)]
pub enum NextRead {
    Send(Frame),
    Found(Found),
    Fault(ReadFault),
}

/// Goes on with the reading of a tag, with which these turns were made so far. It begins with none, and each further
/// one has the command that was to be sent. Another command in their place is told as `Protocol`.
#[tactic(auto, using(crate::proofs::Odd::by_answer))]
pub fn next_read<G: RealTag>(alloc: Global, tag: &G, how: How, turns: &[Turn]) -> NextRead
    // the tag gave these answers
    requires agrees { Agrees (G.real tag.now) turns.now }
    requires of { IsOf how (first_link (G.real tag.now)) }
    // what it tells is what a reading over these turns tells
    ensures told { TellsRead how (G.real tag.now) turns.now result }
    // whatever the tag does, a command to send follows what the turns brought
    ensures next { SendsNext how (G.real tag.now) turns.now result }
    // and of a tag of that kind it is the next one that is due
    ensures due { SendsDue how (G.real tag.now) result }
    // where the turns' commands are those that were to be sent, an odd answer of the tag alone is told as one
    ensures odd { AreSent how (G.real tag.now) turns.now → result ≡ NextRead.Fault ReadFault.Protocol
        → IsOddBehind how (G.real tag.now) turns.now }
{
    let mut link = Replay {
        tag,
        turns,
        used: 0,
        last: None,
        over: None,
    };
    match read(alloc, &mut link, how) {
        Ok(found) => NextRead::Found(found),
        Err(fault) => match link.due() {
            Some(command) => NextRead::Send(command),
            None => NextRead::Fault(fault),
        },
    }
}
