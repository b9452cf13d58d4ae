//! ISO-DEP (ISO/IEC 14443-4; NFC Forum Digital Protocol), both ends: a reader's command and a card's answer, each in
//! blocks that stop and wait.
//!
//! `block` reads and writes blocks, `size` says how long they are, `card` and `reader` are the ends, one step of their
//! tables a call; none of these takes memory. `listener` says what a Type 4 tag is in a field, `activate` and
//! `exchange` are the reader's turns with one, and `link` is the link to it. `law` has what both tables keep together.
#![tactic(auto)]

mod activate;
mod block;
mod card;
mod exchange;
#[cfg(test)]
mod fates_tests;
mod law;
mod link;
mod listener;
#[cfg(test)]
mod rats_tests;
mod reader;
mod size;
#[cfg(test)]
mod tests;

pub use card::{CardEnd, CardKind, CardStep, MOST_BUSY};
pub use law::{blocks_read, delivered_once, faults_stay, obeyed_once};
pub use link::IsoLink;
pub use listener::CardListener;
pub use reader::{LONGEST_EXTENSION, ReaderEnd, ReaderKind, ReaderStep};
pub use size::is_rats;
