//! What a reader asks of a Type 2 tag.

ghost use Rattle.std.specs.Prelude.{◌≡◌, ◌↔◌, Some, IsNone};
ghost use Rattle.t2t_tag.specs.Spelling.{command_frame, spelled_command, T2Spelling};
ghost use Rattle.t2t_tag.specs.declared.command.T2Command.{T2Command};

use nfc_base::{Frame, Tech};

const READ: u8 = 0x30;

const WRITE: u8 = 0xA2;

/// A command (NFC Forum Type 2 Tag). READ asks for four blocks, WRITE changes one.
#[derive(Clone, Copy, Debug, PartialEq, Eq)]
pub enum T2Command {
    Read { block: u8 },
    Write { block: u8, content: [u8; 4] },
}

impl T2Command {
    /// The command that a frame spells. It takes no memory.
    pub fn read_from(frame: &Frame) -> Option<T2Command>
        ensures reads { result ≡ spelled_command frame.now }
        ensures exact { (c : T2Command) → ((result ≡ Some c) ↔ T2Spelling c frame.now) }
        ensures none { IsNone result ↔ ((c : T2Command) → ¬ T2Spelling c frame.now) }
    {
        if frame.tech() != Tech::A || frame.tail() != 0 {
            return None;
        }
        match frame.view() {
            [READ, block] => Some(T2Command::Read { block: *block }),
            [WRITE, block, a, b, c, d] => Some(T2Command::Write {
                block: *block,
                content: [*a, *b, *c, *d],
            }),
            _ => None,
        }
    }

    /// The frame that spells it. It takes no memory.
    pub fn to_frame(&self) -> Frame
        ensures frame { result ≡ command_frame self.now }
        ensures exact { T2Spelling self.now result }
    {
        match self {
            T2Command::Read { block } => Frame::whole(Tech::A, &[READ, *block]).unwrap(),
            T2Command::Write { block, content } => {
                let [a, b, c, d] = *content;
                Frame::whole(Tech::A, &[WRITE, *block, a, b, c, d]).unwrap()
            }
        }
    }
}
