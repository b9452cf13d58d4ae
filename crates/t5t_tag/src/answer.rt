//! What a Type 5 tag answers.

ghost use Rattle.std.specs.Prelude.{◌≡◌, ◌↔◌, Some, IsNone};
ghost use Rattle.t5t_tag.specs.Spelling.{answer_frame, IsT5Answer, T5AnswerSpelling};
ghost use Rattle.t5t_tag.specs.Reading.{read_content, read_told, answer_of, spelled_answer};
ghost use Rattle.t5t_tag.specs.declared.answer.T5Answer.{T5Answer};

use crate::identifier::turned;
use arrayvec::ArrayVec;
use nfc_base::{Frame, Tech};

/// The first byte of an answer, and of one that tells an error.
const NO_ERROR: u8 = 0x00;

const ERROR: u8 = 0x01;

/// The byte before an identifier that says how its memory is used.
const NO_DSFID: u8 = 0x00;

/// An answer (NFC Forum Type 5 Tag; ISO/IEC 15693-3): the tag's identifier, high byte first, the content of blocks,
/// none to a write, or the code of an error.
#[derive(Clone, Debug, Drop, PartialEq, Eq)]
pub enum T5Answer {
    Present { id: [u8; 8] },
    Content(ArrayVec<u8, 256>),
    Error(u8),
}

impl T5Answer {
    /// The answer that a frame spells. It takes no memory.
    pub fn read_from(frame: &Frame) -> Option<T5Answer>
        ensures exact { (a : T5Answer) → ((result ≡ Some a) ↔ T5AnswerSpelling a frame.now) }
        ensures none { IsNone result ↔ ((a : T5Answer) → ¬ T5AnswerSpelling a frame.now) }
        ensures reads { result ≡ spelled_answer frame.now }
    {
        if frame.tech() != Tech::V || frame.tail() != 0 {
            return None;
        }
        read_bytes(frame.view())
    }

    /// The frame that spells it; the content of blocks is a multiple of four bytes. It takes no memory.
    pub fn to_frame(&self) -> Frame
        ensures frame { result ≡ answer_frame self.now }
        ensures exact { IsT5Answer self.now → T5AnswerSpelling self.now result }
    {
        match self {
            T5Answer::Present { id } => {
                let mut bytes: ArrayVec<u8, 10> = ArrayVec::new();
                bytes.push(NO_ERROR);
                bytes.push(NO_DSFID);
                bytes.try_extend_from_slice(&turned(*id)).unwrap();
                Frame::whole(Tech::V, &bytes).unwrap()
            }
            T5Answer::Content(content) => {
                let mut bytes: ArrayVec<u8, 257> = ArrayVec::new();
                bytes.push(NO_ERROR);
                bytes.try_extend_from_slice(content).unwrap();
                Frame::whole(Tech::V, &bytes).unwrap()
            }
            T5Answer::Error(code) => Frame::whole(Tech::V, &[ERROR, *code]).unwrap(),
        }
    }
}

/// The answer of the bytes of a whole NFC-V frame.
fn read_bytes(bytes: &[u8]) -> Option<T5Answer>
    ensures { result ≡ answer_of bytes.now }
{
    match bytes {
        [ERROR, code] => Some(T5Answer::Error(*code)),
        [NO_ERROR, rest @ ..] => read_told(rest),
        _ => None,
    }
}

/// What follows the byte that tells of no error.
fn read_told(rest: &[u8]) -> Option<T5Answer>
    ensures { result ≡ read_told rest.now }
{
    match rest {
        [NO_DSFID, a, b, c, d, e, f, g, h] => Some(T5Answer::Present {
            id: [*h, *g, *f, *e, *d, *c, *b, *a],
        }),
        [_, _, _, _, _, _, _, _, _] => None,
        _ => read_content(rest),
    }
}

fn read_content(bytes: &[u8]) -> Option<T5Answer>
    ensures { result ≡ read_content bytes.now }
{
    if bytes.len() % 4 != 0 {
        return None;
    }
    let mut content = ArrayVec::new();
    content.try_extend_from_slice(bytes).ok()?;
    Some(T5Answer::Content(content))
}
