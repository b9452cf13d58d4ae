//! Readings and writings of a tag a command at a time: what was answered so far goes in, and the next command comes
//! out, or the end.
//!
//! Who has the radio keeps the turns so far, each a command and its answer (`turn`), and hands them in each time.
//! `replay` is the link over them, `reading`, `surveying` and `writing` are the calls, and `logged` makes them for a
//! tag of which nothing is known.
#![tactic(auto)]

mod logged;
mod reading;
mod replay;
mod surveying;
#[cfg(test)]
mod tests;
mod turn;
mod writing;

pub use logged::{Logged, next_read_of_log, next_survey_of_log, next_write_of_log};
pub use reading::{NextRead, next_read};
pub use surveying::{NextSurvey, next_survey};
pub use turn::{RealTag, Turn};
pub use writing::{NextWrite, next_write};
