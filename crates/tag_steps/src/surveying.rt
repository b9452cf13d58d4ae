//! Surveys.

ghost use Rattle.std.specs.Prelude.{◌≡◌};
ghost use Rattle.tag_reader.specs.Heard.{IsOf};
ghost use Rattle.tag_steps.specs.Replay.{Agrees, first_link};
ghost use Rattle.tag_steps.specs.Reading.{AreSent, IsOddBehind};
ghost use Rattle.tag_steps.specs.Surveying.{TellsSurvey};

use crate::replay::Replay;
use crate::turn::{RealTag, Turn};
use nfc_base::Frame;
use std::alloc::Global;
use tag_reader::{Ground, How, ReadFault, survey};

/// What follows the turns so far: a command to be sent, what a writer needs to know of the tag, or why it can't be
/// known.
#[derive(Debug, Drop)]
pub enum NextSurvey {
    Send(Frame),
    Ground(Ground),
    Fault(ReadFault),
}

/// Goes on with the survey of a tag, with which these turns were made so far. It begins with none, and each further one
/// has the command that was to be sent. Another command in their place is told as `Protocol`.
#[tactic(auto, using(crate::proofs::Odd::by_answer))]
pub fn next_survey<G: RealTag>(alloc: Global, tag: &G, how: How, turns: &[Turn]) -> NextSurvey
    // the tag gave these answers
    requires agrees { Agrees (G.real tag.now) turns.now }
    requires of { IsOf how (first_link (G.real tag.now)) }
    // what it tells is what a survey over these turns tells
    ensures told { TellsSurvey how (G.real tag.now) turns.now result }
    // where the turns' commands are those that were to be sent, an odd answer of the tag alone is told as one
    ensures odd { AreSent how (G.real tag.now) turns.now → result ≡ NextSurvey.Fault ReadFault.Protocol
        → IsOddBehind how (G.real tag.now) turns.now }
{
    let mut link = Replay {
        tag,
        turns,
        used: 0,
        last: None,
        over: None,
    };
    match survey(alloc, &mut link, how) {
        Ok(ground) => NextSurvey::Ground(ground),
        Err(fault) => match link.due() {
            Some(command) => NextSurvey::Send(command),
            None => NextSurvey::Fault(fault),
        },
    }
}
