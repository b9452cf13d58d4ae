//! The tests of crates that stand low: the air, frames and PDUs, how devices are found, lines of scripts, ends of
//! bytes.
//!
//! Each speaks of one crate, by its public calls. They stand here since a crate with tests is proved a second time with
//! them; of this crate nothing else is to be proved.
#![tactic(auto)]

#[cfg(test)]
mod air_tests;
#[cfg(test)]
mod call_tests;
#[cfg(test)]
mod crowd_tests;
#[cfg(test)]
mod dep_frame_tests;
#[cfg(test)]
mod hand_line_tests;
#[cfg(test)]
mod ident_tests;
#[cfg(test)]
mod line_rows;
#[cfg(test)]
mod line_tests;
#[cfg(test)]
mod link_line_tests;
#[cfg(test)]
mod memory_tests;
#[cfg(test)]
mod message_tests;
#[cfg(test)]
mod pdu_tests;
#[cfg(test)]
mod pdu_view_tests;
#[cfg(test)]
mod peer_line_tests;
#[cfg(test)]
mod poll_tests;
#[cfg(test)]
mod reading_tests;
#[cfg(test)]
mod standard_tests;
#[cfg(test)]
mod written_line_tests;
