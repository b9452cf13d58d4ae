//! One command to the tag behind a link.

ghost use Rattle.std.specs.Prelude.{◌≡◌, ◌+◌, ◌*◌, ◌≤◌, ℕ, List, length, Result, IfOk};
ghost use Rattle.nfc_base.specs.Signal.{Signal};
ghost use Rattle.nfc_base.specs.TagLinks.{LinkView, MayAsk};
ghost use Rattle.t3t_access.specs.Talk.{Answered, AskedNext, IsOf};
ghost use Rattle.t3t_access.specs.Answers.{numbers, Brings, RefusesCheck, Tells, TellsCheck, content_told, found};
ghost use Rattle.t3t_access.specs.Writing.{TellsDone, TellsUpdate, done_told};
ghost use Rattle.t3t_access.specs.declared.fault.T3Fault.{T3Fault};

use crate::fault::T3Fault;
use arrayvec::ArrayVec;
use nfc_base::{AskFault, Frame, TagLink};
use std::alloc::Global;
use t3t_tag::{T3Answer, T3Command};

/// How many bytes a block has.
const BLOCK: usize = 16;

/// Asks the tag for one command.
fn ask<T: TagLink>(alloc: Global, link: &mut T, command: &Frame) -> Result<Frame, AskFault>
    requires ready { T.ready link.old }
    requires fits { MayAsk (T.seen link.old).kind (T.seen link.old).identifier command.now }
    ensures next { (a : LinkView) (cs : List Signal) → Answered a (T.seen link.old) cs →
        AskedNext a (T.seen link.new) cs command.now result }
    ensures of { (id : List ℕ) → IsOf id (T.seen link.old) → IsOf id (T.seen link.new) }
    ensures ready { T.ready link.new }
    ensures same { T.lenders link.new ≡ T.lenders link.old }
    ensures moves { T.moves link.old link.new }
{
    link.ask(alloc, command)
}

/// So many block numbers from one on.
fn numbers(first: u8, count: u8) -> ArrayVec<u8, 15>
    requires few { count ≤ 15 }
    requires low { first + count ≤ 256 }
    ensures numbers { result.items ≡ numbers first count }
    ensures size { length result.items ≡ count }
{
    let mut blocks = ArrayVec::new();
    for i in 0..count {
        blocks.push(first + i);
    }
    blocks
}

/// The content of what an answer to a Check of so many blocks spells.
fn content_told(
    id: [u8; 8],
    count: u8,
    answer: Option<T3Answer>,
) -> Result<ArrayVec<u8, 240>, T3Fault>
    ensures { result ≡ found (content_told id (16 * count) answer) }
{
    match answer {
        Some(T3Answer::Content { id: from, content }) => {
            if from == id && content.len() == BLOCK * count as usize {
                return Ok(content);
            }
            Err(T3Fault::Protocol)
        }
        Some(T3Answer::CheckRefused { id: from, status }) => {
            if from == id {
                return Err(T3Fault::Refused(status));
            }
            Err(T3Fault::Protocol)
        }
        Some(T3Answer::Polled { id: _ }) => Err(T3Fault::Protocol),
        Some(T3Answer::Done { id: _ }) => Err(T3Fault::Protocol),
        Some(T3Answer::UpdateRefused { id: _, status: _ }) => Err(T3Fault::Protocol),
        None => Err(T3Fault::Protocol),
    }
}

/// What the answer to a Check of so many blocks tells.
fn tell_check(id: [u8; 8], count: u8, answer: &Frame) -> Result<ArrayVec<u8, 240>, T3Fault>
    ensures tells { (xs : Result (List ℕ) T3Fault) → result ≡ found xs →
        Tells (Brings id (16 * count)) (RefusesCheck id) answer.now xs }
    ensures size { IfOk result (λ x. length x.items ≡ 16 * count) }
{
    content_told(id, count, T3Answer::read_from(answer))
}

/// Asks for the content of so many blocks from one on.
pub fn check<T: TagLink>(
    alloc: Global,
    link: &mut T,
    id: [u8; 8],
    first: u8,
    count: u8,
) -> Result<ArrayVec<u8, 240>, T3Fault>
    requires ready { T.ready link.old }
    requires of { IsOf id (T.seen link.old) }
    requires some { 1 ≤ count }
    requires few { count ≤ 15 }
    requires low { first + count ≤ 256 }
    ensures next { (a : LinkView) (cs : List Signal) (xs : Result (List ℕ) T3Fault) →
        Answered a (T.seen link.old) cs → result ≡ found xs →
        TellsCheck id first count a (T.seen link.new) cs xs }
    ensures size { IfOk result (λ x. length x.items ≡ 16 * count) }
    ensures of { IsOf id (T.seen link.new) }
    ensures ready { T.ready link.new }
    ensures same { T.lenders link.new ≡ T.lenders link.old }
    ensures moves { T.moves link.old link.new }
{
    let command = T3Command::Check {
        id,
        blocks: numbers(first, count),
    };
    match ask(alloc, link, &command.to_frame()) {
        Err(fault) => Err(T3Fault::from(fault)),
        Ok(answer) => tell_check(id, count, &answer),
    }
}

/// What the answer to an Update spells tells.
fn done_told(id: [u8; 8], answer: Option<T3Answer>) -> Result<(), T3Fault>
    ensures { result ≡ done_told id answer }
{
    match answer {
        Some(T3Answer::Done { id: from }) => {
            if from == id {
                return Ok(());
            }
            Err(T3Fault::Protocol)
        }
        Some(T3Answer::UpdateRefused { id: from, status }) => {
            if from != id {
                return Err(T3Fault::Protocol);
            }
            Err(T3Fault::Refused(status))
        }
        Some(T3Answer::Polled { id: _ }) => Err(T3Fault::Protocol),
        Some(T3Answer::Content { id: _, content: _ }) => Err(T3Fault::Protocol),
        Some(T3Answer::CheckRefused { id: _, status: _ }) => Err(T3Fault::Protocol),
        None => Err(T3Fault::Protocol),
    }
}

/// What the answer to an Update tells.
fn tell_update(id: [u8; 8], answer: &Frame) -> Result<(), T3Fault>
    ensures { TellsDone id answer.now result }
{
    done_told(id, T3Answer::read_from(answer))
}

/// Asks for a block to be changed.
pub fn update<T: TagLink>(
    alloc: Global,
    link: &mut T,
    id: [u8; 8],
    block: u8,
    content: [u8; 16],
) -> Result<(), T3Fault>
    requires ready { T.ready link.old }
    requires of { IsOf id (T.seen link.old) }
    ensures next { (a : LinkView) (cs : List Signal) → Answered a (T.seen link.old) cs →
        TellsUpdate id block content a (T.seen link.new) cs result }
    ensures of { IsOf id (T.seen link.new) }
    ensures ready { T.ready link.new }
    ensures same { T.lenders link.new ≡ T.lenders link.old }
    ensures moves { T.moves link.old link.new }
{
    let command = T3Command::Update { id, block, content };
    match ask(alloc, link, &command.to_frame()) {
        Err(fault) => Err(T3Fault::from(fault)),
        Ok(answer) => tell_update(id, &answer),
    }
}
