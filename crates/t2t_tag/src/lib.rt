//! The Type 2 tag (NFC Forum Type 2 Tag): what a reader asks of it, what it answers, and the tag itself.
//!
//! `command` and `answer` read and write the frames of both sides; `tag` is a store of blocks of four bytes that
//! obeys one frame at a time. Only the store takes memory, and its maker does.
#![tactic(auto)]

mod answer;
mod command;
mod tag;

pub use answer::T2Answer;
pub use command::T2Command;
pub use tag::{StoreFault, T2Tag};
