//! What a Type 2 tag answers.

ghost use Rattle.std.specs.Prelude.{◌≡◌, ◌↔◌, Some, IsNone};
ghost use Rattle.t2t_tag.specs.Spelling.{answer_frame, T2AnswerSpelling};
ghost use Rattle.t2t_tag.specs.declared.answer.T2Answer.{T2Answer};

use nfc_base::{Frame, Tech};

/// The four bits of an acknowledgement, and those of a refusal.
const ACK: u8 = 0xA;

const NAK: u8 = 0;

/// An answer (NFC Forum Type 2 Tag): the four blocks that a READ asks for, or what became of a WRITE. `Refused` comes
/// to a READ too; that 0h is the one refusal is this project's own.
#[derive(Clone, Copy, Debug, PartialEq, Eq)]
pub enum T2Answer {
    Content([u8; 16]),
    Done,
    Refused,
}

impl T2Answer {
    /// The answer that a frame spells. It takes no memory.
    pub fn read_from(frame: &Frame) -> Option<T2Answer>
        ensures exact { (a : T2Answer) → ((result ≡ Some a) ↔ T2AnswerSpelling a frame.now) }
        ensures none { IsNone result ↔ ((a : T2Answer) → ¬ T2AnswerSpelling a frame.now) }
    {
        if frame.tech() != Tech::A {
            return None;
        }
        match (frame.tail(), frame.view()) {
            (0, bytes) => Some(T2Answer::Content(bytes.try_into().ok()?)),
            (4, [ACK]) => Some(T2Answer::Done),
            (4, [NAK]) => Some(T2Answer::Refused),
            _ => None,
        }
    }

    /// The frame that spells it. It takes no memory.
    pub fn to_frame(&self) -> Frame
        ensures frame { result ≡ answer_frame self.now }
        ensures exact { T2AnswerSpelling self.now result }
    {
        match self {
            T2Answer::Content(content) => Frame::whole(Tech::A, content).unwrap(),
            T2Answer::Done => Frame::part(Tech::A, &[ACK], 4).unwrap(),
            T2Answer::Refused => Frame::part(Tech::A, &[NAK], 4).unwrap(),
        }
    }
}
