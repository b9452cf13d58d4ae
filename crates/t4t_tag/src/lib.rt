//! The Type 4 tag (NFC Forum Type 4 Tag; ISO/IEC 7816-4): what a reader asks of it, and the tag itself.
//!
//! `command` writes the commands of a reader as bytes; `tag` is a capability container and an NDEF file that obey one
//! command at a time, and answer each; `current` says which of the two files a tag has open. Only the two files take
//! memory, and their maker does.
#![tactic(auto)]

mod command;
mod current;
mod tag;

pub use command::{MOST_PER_COMMAND, T4Command};
pub use current::CurrentFile;
pub use tag::{CONTAINER_ID, DONE, MOST_CODE, NLEN_SIZE, StoreFault, T4Tag, named_size};
