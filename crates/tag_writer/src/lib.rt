//! Writes the message of a tag over any link (NFC Forum Type 2, Type 4 and Type 5 Tag).
//!
//! `write` does all of it, by four calls that a caller who wants to stop in between takes one by one: `prepare` surveys
//! the tag and plans all contents (`preparing`, `planning`); then, in `phase`, `Prepared::empty` takes the old message
//! away, `Emptied::fill` writes all but the length's block, and `Filled::finish` shows the new message. `work` is what
//! is written, a command at a time, and `putting` asks for it. Whatever stops a write, the tag holds the old message,
//! the empty one or the new one.
//!
//! What the tag's stores are meanwhile: `specs/Law.antt`. What is asked: `specs/WriteAsked.antt`. `law` says that each
//! write asks one list, has one place and one outcome, and that a tag refuses it where a block is locked
//! (`specs/Locks.antt`).
#![tactic(auto)]

mod fault;
mod law;
mod phase;
mod planning;
mod preparing;
mod putting;
mod work;
mod writer;

pub use fault::WriteFault;
pub use law::{one_outcome, one_place, one_write_asked, unlocked_is_done};
pub use phase::{Emptied, Filled, Opened, Phase, Prepared, Stopped};
pub use preparing::prepare;
pub use writer::write;
