//! What is written, once all of it is planned.

ghost use Rattle.std.specs.Prelude.{◌≡◌, ◌+◌, ◌*◌, ◌<◌, ◌≤◌, ℕ, Bool, length};
ghost use Rattle.std.specs.List.{AllByRecursion};
ghost use Rattle.t4t_tag.specs.Spelling.{most_per_command, offset_end};
ghost use Rattle.t4t_tag.specs.declared.command.T4Command.TheVariants as t4;
ghost use Rattle.tag_reader.specs.declared.how.How.{How};
ghost use Rattle.tag_reader.specs.declared.how.How.TheVariants as hows;
ghost use Rattle.tag_reader.specs.Files.{file_frame};
ghost use Rattle.tag_writer.specs.Commands.{updates_in, commands_at, command_at, IsFit};
ghost use Rattle.tag_writer.specs.Puts.{block_command, block_puts, piece_of, update_command};
ghost use Rattle.tag_writer.specs.Puttings.{signal_at};
ghost use Rattle.tag_writer.specs.Phases.{how_of};
ghost use Rattle.tag_writer.specs.Works.{IsStepFor, steps_at, IsPieceAt};

use crate::phase::Phase;
use arrayvec::ArrayVec;
use nfc_base::{Frame, Items, Tech};
use t2t_tag::T2Command;
use t4t_tag::{NLEN_SIZE, T4Command};
use t5t_tag::{SHORT_NUMBERS, T5Command};
use tag_reader::How;
use tlv_area::{Plan, Step};

/// What is written to a tag.
#[derive(Debug, Drop)]
pub enum Work {
    /// The plan of the blocks of a tag of this kind.
    Blocks {
        how: How,
        plan: Plan,
    },
    /// To the file of a Type 4 tag: the message, the most bytes of it that one update brings, as MLc allows, and
    /// whether NLEN has to become 0 first.
    File {
        message: Items<u8>,
        most: u16,
        close: bool,
    },
}

/// The command that writes a block.
fn block_frame(how: How, step: &Step) -> Frame
    requires { IsStepFor how step.now }
    ensures { result ≡ block_command how step.now }
{
    match how {
        How::T2 => {
            let bytes = step.content.as_slice();
            T2Command::Write {
                block: step.block as u8,
                content: [bytes[0], bytes[1], bytes[2], bytes[3]],
            }
            .to_frame()
        }
        How::T4 => unreachable!(),
        How::T5(id) => t5_frame(id, step),
    }
}

fn t5_frame(id: [u8; 8], step: &Step) -> Frame
    ensures { result ≡ block_command (hows.T5 id) step.now }
{
    let mut content = ArrayVec::new();
    content.try_extend_from_slice(&step.content).unwrap();
    let command = if step.block < SHORT_NUMBERS {
        T5Command::Write {
            id: Some(id),
            block: step.block as u8,
            content,
        }
    } else {
        T5Command::WriteWide {
            id: Some(id),
            block: step.block,
            content,
        }
    };
    command.to_frame()
}

/// The step of a plan that is the `index`-th behind a phase.
fn step_at(plan: &Plan, phase: Phase, index: usize) -> &Step
    requires { index < length (steps_at phase plan.now) }
    ensures signal { (how : How) (size : ℕ) →
        signal_at (block_puts how size (steps_at phase plan.now)) index ≡ block_command how result.now }
    ensures fit { (how : How) → AllByRecursion (IsStepFor how) (steps_at phase plan.now) → IsStepFor how result.now }
{
    match phase {
        Phase::Prepared => match &plan.close {
            Some(step) => step,
            None => unreachable!(),
        },
        Phase::Emptied => &plan.fill.as_slice()[index],
        Phase::Filled => match &plan.last {
            Some(step) => step,
            None => unreachable!(),
        },
    }
}

fn step_count(plan: &Plan, phase: Phase) -> usize
    ensures { result ≡ length (steps_at phase plan.now) }
{
    match phase {
        Phase::Prepared => usize::from(plan.close.is_some()),
        Phase::Emptied => plan.fill.as_slice().len(),
        Phase::Filled => usize::from(plan.last.is_some()),
    }
}

/// The update of the file from an offset on.
fn update_frame(offset: u16, bytes: &[u8]) -> Frame
    requires offset { offset < offset_end }
    requires some { 1 ≤ length bytes.now }
    requires most { length bytes.now ≤ most_per_command }
    ensures { result ≡ file_frame (t4.UpdateBinary offset (record { items = bytes.now })) }
{
    let mut content = ArrayVec::new();
    content.try_extend_from_slice(bytes).unwrap();
    let spelled = T4Command::UpdateBinary { offset, content }.to_bytes();
    Frame::whole(Tech::A, spelled.as_slice()).unwrap()
}

/// The update that brings the `index`-th piece of the message.
fn piece_frame(message: &[u8], most: u16, index: usize) -> Frame
    requires { IsPieceAt message.now most index }
    ensures { result ≡ piece_of update_command message.now most index }
{
    let taken = most as usize * index;
    let end = message.len().min(taken + most as usize);
    update_frame(NLEN_SIZE + taken as u16, &message[taken..end])
}

/// The update that is the `index`-th behind a phase.
fn update_at(message: &[u8], most: u16, phase: Phase, index: usize) -> Frame
    requires some { 1 ≤ most }
    requires few { most ≤ most_per_command }
    requires small { 2 + length message.now ≤ offset_end }
    requires low { (close : Bool) × (index < length (updates_in phase message.now most close)) }
    ensures { (close : Bool) → index < length (updates_in phase message.now most close) →
        result ≡ command_at (updates_in phase message.now most close) index }
{
    match phase {
        Phase::Prepared => update_frame(0, &[0, 0]),
        Phase::Emptied => piece_frame(message, most, index),
        Phase::Filled => {
            let length = message.len();
            update_frame(0, &[(length / 256) as u8, (length % 256) as u8])
        }
    }
}

fn update_count(message: &[u8], most: u16, close: bool, phase: Phase) -> usize
    requires { 1 ≤ most }
    ensures { result ≡ length (updates_in phase message.now most close) }
{
    match phase {
        Phase::Prepared => usize::from(close),
        Phase::Emptied => message.len().div_ceil(most as usize),
        Phase::Filled => usize::from(!message.is_empty()),
    }
}

impl Work {
    /// The kind of the tag.
    pub fn how(&self) -> How
        ensures { result ≡ how_of self.now }
    {
        match self {
            Work::Blocks { how, plan: _ } => *how,
            Work::File {
                message: _,
                most: _,
                close: _,
            } => How::T4,
        }
    }

    /// How many writes follow a phase.
    pub fn count(&self, phase: Phase) -> usize
        requires { IsFit self.now }
        ensures { result ≡ length (commands_at phase self.now) }
    {
        match self {
            Work::Blocks { how: _, plan } => step_count(plan, phase),
            Work::File {
                message,
                most,
                close,
            } => update_count(message.as_slice(), *most, *close, phase),
        }
    }

    /// The command of the `index`-th of them, counted from 0.
    pub fn command(&self, phase: Phase, index: usize) -> Frame
        requires fit { IsFit self.now }
        requires low { index < length (commands_at phase self.now) }
        ensures { result ≡ command_at (commands_at phase self.now) index }
    {
        match self {
            Work::Blocks { how, plan } => block_frame(*how, step_at(plan, phase, index)),
            Work::File {
                message,
                most,
                close: _,
            } => update_at(message.as_slice(), *most, phase, index),
        }
    }
}
