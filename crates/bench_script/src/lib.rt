//! The language of a bench's scripts (this project's own): a line spells a command, or it is refused.
//!
//! `command` is what a line asks for, and the identifier by which it names a device; `message` is the message of a
//! line. `script` reads a line, word by word from the left, `words` below it each kind of word, and `rows` words of one
//! kind in a row; `writing` writes a command as a line. Which devices there are, and so whether a command that is
//! spelled can be obeyed, is nothing that this crate knows.
#![tactic(auto)]

mod command;
mod message;
mod script;
mod writing;

pub use command::{Command, DeviceId, SlotPut, have_own_slots};
pub use message::Msg;
pub use script::{LineFault, parse_line};
