//! What a Type 3 tag answers.

ghost use Rattle.std.specs.Prelude.{◌≡◌, ◌↔◌, ◌≤◌, ◌∷◌, ◌++◌, length, Some, IsNone};
ghost use Rattle.t3t_tag.specs.Spelling.{framed, answer_bytes, answer_frame, IsT3Answer, T3AnswerSpelling};
ghost use Rattle.t3t_tag.specs.Reading.{read_polled, read_checked, read_updated, read_reply, answer_of, spelled_answer};
ghost use Rattle.t3t_tag.specs.Reading.{is_content};
ghost use Rattle.t3t_tag.specs.declared.answer.T3Answer.{T3Answer};

use crate::command::framed;
use arrayvec::ArrayVec;
use nfc_base::{Frame, Tech};

/// The codes of the answers to a poll, a Check and an Update.
const POLLED: u8 = 0x01;

const CHECKED: u8 = 0x07;

const UPDATED: u8 = 0x09;

/// The status of a command that was obeyed.
const DONE: u16 = 0;

/// How many bytes a block has, and how many blocks one answer brings at most.
const BLOCK: usize = 16;

const MOST_BLOCKS: u8 = 15;

/// An answer (NFC Forum Type 3 Tag; JIS X 6319-4), with the identifier of the tag that gives it: to a poll, to a Check
/// the content of 1 to 15 blocks, to an Update that it is done, and to both the status by which the tag refuses it,
/// which isn't 0. What a status stands for is this project's own.
#[derive(Clone, Debug, Drop, PartialEq, Eq)]
pub enum T3Answer {
    Polled {
        id: [u8; 8],
    },
    Content {
        id: [u8; 8],
        content: ArrayVec<u8, 240>,
    },
    Done {
        id: [u8; 8],
    },
    CheckRefused {
        id: [u8; 8],
        status: u16,
    },
    UpdateRefused {
        id: [u8; 8],
        status: u16,
    },
}

impl T3Answer {
    /// The answer that a frame spells. It takes no memory.
    pub fn read_from(frame: &Frame) -> Option<T3Answer>
        ensures exact { (a : T3Answer) → ((result ≡ Some a) ↔ T3AnswerSpelling a frame.now) }
        ensures none { IsNone result ↔ ((a : T3Answer) → ¬ T3AnswerSpelling a frame.now) }
        ensures reads { result ≡ spelled_answer frame.now }
    {
        if frame.tech() != Tech::F || frame.tail() != 0 {
            return None;
        }
        read_bytes(frame.view())
    }

    /// The frame that spells it; content is whole blocks, and a refusal's status isn't 0. It takes no memory.
    pub fn to_frame(&self) -> Frame
        ensures frame { result ≡ answer_frame self.now }
        ensures exact { IsT3Answer self.now → T3AnswerSpelling self.now result }
    {
        Frame::whole(Tech::F, &self.bytes()).unwrap()
    }

    /// The bytes of that frame.
    fn bytes(&self) -> ArrayVec<u8, 255>
        ensures { result.items ≡ answer_bytes self.now }
    {
        match self {
            T3Answer::Polled { id } => telling(POLLED, *id, &[0; 8]),
            T3Answer::Content { id, content } => {
                let mut rest: ArrayVec<u8, 243> = ArrayVec::new();
                rest.push(0);
                rest.push(0);
                rest.push((content.len() / BLOCK) as u8);
                rest.try_extend_from_slice(content).unwrap();
                telling(CHECKED, *id, &rest)
            }
            T3Answer::Done { id } => telling(UPDATED, *id, &DONE.to_be_bytes()),
            T3Answer::CheckRefused { id, status } => {
                telling(CHECKED, *id, &status.to_be_bytes())
            }
            T3Answer::UpdateRefused { id, status } => {
                telling(UPDATED, *id, &status.to_be_bytes())
            }
        }
    }
}

/// The answer of the bytes of a whole NFC-F frame.
fn read_bytes(bytes: &[u8]) -> Option<T3Answer>
    ensures { result ≡ answer_of bytes.now }
{
    let (size, reply) = bytes.split_first()?;
    if *size as usize != bytes.len() {
        return None;
    }
    read_reply(reply)
}

/// The answer of what stands behind the length.
fn read_reply(reply: &[u8]) -> Option<T3Answer>
    ensures { result ≡ read_reply reply.now }
{
    let (code, rest) = reply.split_first()?;
    let (id, behind) = rest.split_first_chunk::<8>()?;
    match *code {
        POLLED => read_polled(*id, behind),
        CHECKED => read_checked(*id, behind),
        UPDATED => read_updated(*id, behind),
        _ => None,
    }
}

fn read_polled(id: [u8; 8], behind: &[u8]) -> Option<T3Answer>
    ensures { result ≡ read_polled id behind.now }
{
    if behind != [0; 8].as_slice() {
        return None;
    }
    Some(T3Answer::Polled { id })
}

fn read_checked(id: [u8; 8], behind: &[u8]) -> Option<T3Answer>
    ensures { result ≡ read_checked id behind.now }
{
    match behind {
        [high, low] => {
            let status = u16::from_be_bytes([*high, *low]);
            if status == DONE {
                return None;
            }
            Some(T3Answer::CheckRefused { id, status })
        }
        [high, low, count, content @ ..] => {
            if u16::from_be_bytes([*high, *low]) != DONE || !is_content(*count, content) {
                return None;
            }
            let mut bytes = ArrayVec::new();
            bytes.try_extend_from_slice(content).unwrap();
            Some(T3Answer::Content { id, content: bytes })
        }
        _ => None,
    }
}

fn read_updated(id: [u8; 8], behind: &[u8]) -> Option<T3Answer>
    ensures { result ≡ read_updated id behind.now }
{
    match behind {
        [high, low] => {
            let status = u16::from_be_bytes([*high, *low]);
            if status == DONE {
                return Some(T3Answer::Done { id });
            }
            Some(T3Answer::UpdateRefused { id, status })
        }
        _ => None,
    }
}

/// Whether these are the bytes of so many blocks, 1 to 15.
fn is_content(count: u8, content: &[u8]) -> bool
    ensures { result ≡ is_content count content.now }
{
    count >= 1 && count <= MOST_BLOCKS && content.len() == BLOCK * count as usize
}

/// The bytes of an answer with this code and identifier, and this behind it.
fn telling(code: u8, id: [u8; 8], rest: &[u8]) -> ArrayVec<u8, 255>
    requires { length rest.now ≤ 243 }
    ensures { result.items ≡ framed (code ∷ (id ++ rest.now)) }
{
    let mut bytes: ArrayVec<u8, 252> = ArrayVec::new();
    bytes.push(code);
    bytes.try_extend_from_slice(&id).unwrap();
    bytes.try_extend_from_slice(rest).unwrap();
    framed(&bytes)
}
