//! The Type 5 tag (NFC Forum Type 5 Tag; ISO/IEC 15693-3): what a reader asks of it, what it answers, and the tag
//! itself.
//!
//! `command` and `answer` read and write the frames of both sides; `tag` is a store of blocks of one size that obeys
//! one frame at a time; `identifier` compares identifiers with what a frame says of them; `round` counts the slots of
//! an inventory. Only the store takes memory, and its maker does.
#![tactic(auto)]

mod answer;
mod command;
mod identifier;
mod round;
mod tag;

pub use answer::T5Answer;
pub use command::{SHORT_NUMBERS, T5Command};
pub use round::Round;
pub use tag::{NO_BLOCK, StoreFault, T5Tag};
