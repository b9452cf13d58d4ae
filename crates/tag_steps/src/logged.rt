//! A tag of which nothing is known but what it answered.

ghost use Rattle.std.specs.Prelude.{◌≡◌};
ghost use Rattle.tag_reader.specs.Kinds.{IsNamed};
ghost use Rattle.tag_steps.specs.Reading.{TellsRead};
ghost use Rattle.tag_steps.specs.Surveying.{TellsSurvey};
ghost use Rattle.tag_steps.specs.Writing.{TellsWrite};
ghost use Rattle.tag_steps.specs.Logged.{id_of, logged};

use crate::reading::{NextRead, next_read};
use crate::surveying::{NextSurvey, next_survey};
use crate::turn::{RealTag, Turn};
use crate::writing::{NextWrite, next_write};
use std::alloc::Global;
use tag_reader::How;

/// The tag that gives these answers, whatever it is asked.
#[derive(Drop)]
pub struct Logged<'a> {
    pub how: How,
    pub turns: &'a [Turn],
}

impl<'a> RealTag for Logged<'a> {
    ghost use Rattle.tag_steps.specs.Logged.{logged};

    ghost real = { λ l. logged l.how l.turns.now };
}

/// Goes on with the reading of a tag of which nothing else is known.
#[tactic(auto, using(crate::proofs::Logs::agrees))]
pub fn next_read_of_log(alloc: Global, how: How, turns: &[Turn]) -> NextRead
    requires named { IsNamed how (id_of how) }
    ensures told { TellsRead how (logged how turns.now) turns.now result }
{
    let tag = Logged { how, turns };
    next_read(alloc, &tag, how, turns)
}

/// Goes on with the survey of a tag of which nothing else is known.
#[tactic(auto, using(crate::proofs::Logs::agrees))]
pub fn next_survey_of_log(alloc: Global, how: How, turns: &[Turn]) -> NextSurvey
    requires named { IsNamed how (id_of how) }
    ensures told { TellsSurvey how (logged how turns.now) turns.now result }
{
    let tag = Logged { how, turns };
    next_survey(alloc, &tag, how, turns)
}

/// Goes on with the writing of a tag of which nothing else is known.
#[tactic(auto, using(crate::proofs::Logs::agrees))]
pub fn next_write_of_log(alloc: Global, how: How, message: &[u8], turns: &[Turn]) -> NextWrite
    requires named { IsNamed how (id_of how) }
    ensures told { TellsWrite how message.now (logged how turns.now) turns.now result }
{
    let tag = Logged { how, turns };
    next_write(alloc, &tag, how, message, turns)
}
