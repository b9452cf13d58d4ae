//! What the answers of tags tell.

ghost use Rattle.std.specs.Prelude.{◌≡◌, ℕ, ◌≤◌, List, ◌++◌, length, true, ◌↔◌, Ok, IfOk, IfErr};
ghost use Rattle.nfc_base.specs.Signal.{Signal, whole_a};
ghost use Rattle.t2t_tag.specs.Spelling as t2;
ghost use Rattle.t2t_tag.specs.declared.answer.T2Answer.{T2Answer};
ghost use Rattle.t4t_tag.specs.Step.{done};
ghost use Rattle.t5t_tag.specs.Spelling as t5;
ghost use Rattle.t5t_tag.specs.declared.answer.T5Answer.{T5Answer};
ghost use Rattle.tag_reader.specs.declared.how.How.TheVariants as hows;
ghost use Rattle.tag_reader.specs.Heard.{HasContent, IsBlocks};
ghost use Rattle.tag_reader.specs.private.BlockSteps.{TellsBlocks};
ghost use Rattle.tag_reader.specs.HeardSteps.{TellsFault};

use crate::ask::Ask;
use crate::fault::ReadFault;
use arrayvec::ArrayVec;
use nfc_base::{Frame, Tech};
use t2t_tag::T2Answer;
use t4t_tag::DONE;
use t5t_tag::{NO_BLOCK, T5Answer};

/// How many bytes a block has at least, so that a container of four bytes lies in the first.
const LEAST_BLOCK: usize = 4;

/// What the answer of a Type 2 tag tells: the four blocks that a READ asks for. It may refuse too, and no such tag
/// answers anything else.
pub fn tell_t2(answer: &Frame) -> Result<[u8; 16], ReadFault>
    ensures tells { IfOk result (λ content. HasContent hows.T2 answer.now content) }
    ensures fault { IfErr result (TellsFault hows.T2 answer.now) }
    ensures content { (content : List ℕ) → length content ≡ 16 →
        answer.now ≡ t2.answer_frame (T2Answer.Content content) → result ≡ Ok content }
{
    match T2Answer::read_from(answer) {
        Some(T2Answer::Content(content)) => Ok(content),
        Some(T2Answer::Refused) => Err(ReadFault::Refused(0)),
        Some(T2Answer::Done) => Err(ReadFault::Protocol),
        None => Err(ReadFault::Protocol),
    }
}

/// What the answer of a Type 5 tag tells: blocks, that it doesn't give several at once, or that it has ended.
#[derive(Drop)]
pub enum BlocksTold {
    Bytes(ArrayVec<u8, 256>),
    Single,
    Ended,
}

/// Whether content is as long as it was asked for, where blocks are so long, 0 of the first one. That has room for a
/// container of four bytes.
fn is_blocks(ask: &Ask, size: usize, content: usize) -> bool
    requires { size ≤ 256 }
    ensures { (bytes : List ℕ) → length bytes ≡ content → (result ≡ true) ↔ IsBlocks size ask.now bytes }
{
    if size == 0 {
        return LEAST_BLOCK <= content;
    }
    match ask {
        Ask::One { block: _ } => content == size,
        Ask::Many { block: _, more } => content == size * (*more as usize + 1),
    }
}

/// An error of a Type 5 tag. Whatever it is, several blocks are then asked for one by one. Of a block that isn't there
/// behind the first it tells that the tag has ended.
fn tell_error(ask: &Ask, size: usize, code: u8) -> Result<BlocksTold, ReadFault>
    ensures tells { (id : List ℕ) (r : Signal) → r ≡ t5.answer_frame (T5Answer.Error code) →
        TellsBlocks id ask.now size r result }
{
    match ask {
        Ask::Many { block: _, more: _ } => Ok(BlocksTold::Single),
        Ask::One { block: _ } => {
            if code == NO_BLOCK && size != 0 {
                Ok(BlocksTold::Ended)
            } else {
                Err(ReadFault::Refused(code as u16))
            }
        }
    }
}

/// What the answer of a Type 5 tag tells that was asked for these blocks, which are so long, 0 before the first is
/// known.
pub fn tell_blocks(ask: &Ask, size: usize, answer: &Frame) -> Result<BlocksTold, ReadFault>
    requires { size ≤ 256 }
    ensures tells { (id : List ℕ) → TellsBlocks id ask.now size answer.now result }
{
    match T5Answer::read_from(answer) {
        Some(T5Answer::Content(content)) => {
            if is_blocks(ask, size, content.len()) {
                Ok(BlocksTold::Bytes(content))
            } else {
                Err(ReadFault::Protocol)
            }
        }
        Some(T5Answer::Error(code)) => tell_error(ask, size, code),
        Some(T5Answer::Present { id: _ }) => Err(ReadFault::Protocol),
        None => Err(ReadFault::Protocol),
    }
}

/// What the answer of a Type 4 tag tells: the bytes that it brings, where its status bytes tell that the command was
/// obeyed.
pub fn tell_t4(answer: &Frame) -> Result<ArrayVec<u8, 256>, ReadFault>
    ensures tells { IfOk result (λ content. HasContent hows.T4 answer.now content.items) }
    ensures fault { IfErr result (TellsFault hows.T4 answer.now) }
    ensures content { (content : List ℕ) → length content ≤ 256 → answer.now ≡ whole_a (content ++ done) →
        result ≡ Ok (record { items = content }) }
{
    if answer.tech() != Tech::A || answer.tail() != 0 {
        return Err(ReadFault::Protocol);
    }
    let [content @ .., high, low] = answer.view() else {
        return Err(ReadFault::Protocol);
    };
    if [*high, *low] != DONE {
        return Err(ReadFault::Refused(*high as u16 * 256 + *low as u16));
    }
    let mut bytes = ArrayVec::new();
    if bytes.try_extend_from_slice(content).is_err() {
        return Err(ReadFault::Protocol);
    }
    Ok(bytes)
}
