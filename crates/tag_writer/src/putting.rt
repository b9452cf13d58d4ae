//! One write after another.

ghost use Rattle.std.specs.Prelude.{◌≡◌, ℕ, List, IfErr, OnOk};
ghost use Rattle.nfc_base.specs.TagLinks.{MayAsk, Rises};
ghost use Rattle.tag_reader.specs.declared.how.How.TheVariants as hows;
ghost use Rattle.tag_reader.specs.Heard.{IsOf};
ghost use Rattle.tag_writer.specs.Commands.{commands_at, IsFit};
ghost use Rattle.tag_writer.specs.Puttings.{Puts, AnswersAs, Makes, BreaksOff, AnswerTells, PutTells, PutsTell};
ghost use Rattle.tag_writer.specs.Phases.{WriteJob, IsAt, how_of, next_at};

use crate::fault::WriteFault;
use crate::phase::Phase;
use crate::work::Work;
use nfc_base::{Frame, TagLink};
use std::alloc::Global;
use t2t_tag::T2Answer;
use t5t_tag::T5Answer;
use tag_reader::How;

/// What the answer of a Type 2 tag to a write says.
fn tell_t2(answer: &Frame) -> Result<(), WriteFault>
    ensures { AnswerTells hows.T2 answer.now result }
{
    match T2Answer::read_from(answer) {
        Some(T2Answer::Done) => Ok(()),
        Some(T2Answer::Refused) => Err(WriteFault::Refused(0)),
        Some(T2Answer::Content(_)) => Err(WriteFault::Protocol),
        None => Err(WriteFault::Protocol),
    }
}

/// What the answer of a Type 4 tag to an update says.
fn tell_t4(answer: &Frame) -> Result<(), WriteFault>
    ensures { AnswerTells hows.T4 answer.now result }
{
    match tag_reader::tell_t4(answer) {
        Ok(content) => {
            if content.is_empty() {
                Ok(())
            } else {
                Err(WriteFault::Protocol)
            }
        }
        Err(fault) => Err(WriteFault::from(fault)),
    }
}

/// What the answer of a Type 5 tag to a write says.
fn tell_t5(answer: &Frame) -> Result<(), WriteFault>
    ensures { (id : List ℕ) → AnswerTells (hows.T5 id) answer.now result }
{
    match T5Answer::read_from(answer) {
        Some(T5Answer::Content(content)) => {
            if content.is_empty() {
                Ok(())
            } else {
                Err(WriteFault::Protocol)
            }
        }
        Some(T5Answer::Error(code)) => Err(WriteFault::Refused(code as u16)),
        Some(T5Answer::Present { id: _ }) => Err(WriteFault::Protocol),
        None => Err(WriteFault::Protocol),
    }
}

/// What an answer to a write says: that it is done, that the tag refuses it, or no more than that no tag sends it.
fn tell(how: How, answer: &Frame) -> Result<(), WriteFault>
    ensures { AnswerTells how answer.now result }
{
    match how {
        How::T2 => tell_t2(answer),
        How::T4 => tell_t4(answer),
        How::T5(_) => tell_t5(answer),
    }
}

/// Asks the tag for one write.
fn put<T: TagLink>(alloc: Global, link: &mut T, how: How, command: &Frame) -> Result<(), WriteFault>
    requires ready { T.ready link.old }
    requires fits { MayAsk (T.seen link.old).kind (T.seen link.old).identifier command.now }
    ensures puts { AnswersAs how ((T.seen link.old).step (T.seen link.old).state command.now).answer →
        Puts how (T.seen link.old) (T.seen link.new) command.now result }
    // whatever the tag does
    ensures told { PutTells how (T.seen link.old) (T.seen link.new) command.now result }
    ensures rises { Rises (T.seen link.old) (T.seen link.new) }
    ensures ready { T.ready link.new }
    ensures same { T.lenders link.new ≡ T.lenders link.old }
    ensures moves { T.moves link.old link.new }
{
    match link.ask(alloc, command) {
        Err(fault) => Err(WriteFault::from(fault)),
        Ok(answer) => tell(how, &answer),
    }
}

/// The writes of a work that follow a phase.
pub fn put_all<T: TagLink>(
    alloc: Global,
    link: &mut T,
    work: &Work,
    phase: Phase,
) -> Result<(), WriteFault>
    requires ready { T.ready link.old }
    requires of { IsOf (how_of work.now) (T.seen link.old) }
    requires fit { IsFit work.now }
    ensures ok { (j : WriteJob) → IsAt phase j work.now (T.seen link.old) →
        OnOk result (Makes j.how (T.seen link.old) (next_at phase j) (T.seen link.new)) }
    ensures err { (j : WriteJob) → IsAt phase j work.now (T.seen link.old) →
        IfErr result (BreaksOff j.how (T.seen link.old) (next_at phase j) (T.seen link.new)) }
    // whatever the tag does
    ensures told { PutsTell (how_of work.now) (T.seen link.old) (T.seen link.new) (commands_at phase work.now) result }
    ensures rises { Rises (T.seen link.old) (T.seen link.new) }
    ensures ready { T.ready link.new }
    ensures same { T.lenders link.new ≡ T.lenders link.old }
    ensures moves { T.moves link.old link.new }
{
    let how = work.how();
    for index in 0..work.count(phase) {
        let command = work.command(phase, index);
        put(alloc, link, how, &command)?;
    }
    Ok(())
}
