//! Tags in memory, a link to them that may be lost, and the tests of `tag_reader`, `tag_writer` and `t3t_access` that
//! use both.
//!
//! `card` is a tag that obeys at once: the four kinds, one that gives one answer to all it is asked, one that gives
//! none. `mem_link` is a link to it. `rows` is what the tests' tables are made of. Nothing but tests uses this crate.
//! It is one of its own since a crate with tests is proved a second time with them, and both crates would have `card`
//! and `mem_link` twice.
#![tactic(auto)]

mod card;
mod mem_link;

pub use card::{Awake, Card, Mute, Odd};
pub use mem_link::{ENOUGH, MemLink};

#[cfg(test)]
mod area_tests;
#[cfg(test)]
mod file_tests;
#[cfg(test)]
mod lock_tests;
#[cfg(test)]
mod phase_tests;
#[cfg(test)]
mod read_tests;
#[cfg(test)]
mod rows;
#[cfg(test)]
mod stop_tests;
#[cfg(test)]
mod survey_tests;
#[cfg(test)]
mod t3_read_tests;
#[cfg(test)]
mod t3_tags;
#[cfg(test)]
mod t3_write_tests;
#[cfg(test)]
mod write_tests;
