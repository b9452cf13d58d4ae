//! The Type 3 tag (NFC Forum Type 3 Tag; JIS X 6319-4): what a reader asks of it, what it answers, and the tag itself.
//!
//! `command` and `answer` read and write the frames of both sides, each with its length in front; `tag` is a store of
//! blocks of sixteen bytes that obeys one frame at a time; `attributes` reads the
//! attribute block, and `form` says what a reader finds on a store. Only the store
//! takes memory, and its maker does.
#![tactic(auto)]

mod answer;
mod attributes;
mod command;
mod form;
mod tag;

pub use answer::T3Answer;
pub use attributes::{is_summed, message_blocks, sum_of};
pub use command::T3Command;
pub use form::one_form;
pub use tag::{StoreFault, T3Tag};
