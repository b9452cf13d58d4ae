//! The tests of `snep_core`, over its public calls.
//!
//! `ends` is what the tests of a client have in common: a carrier without an air, clients and ends with a server, and
//! the steps of a test's table. `server_tests` are those of a server unit by unit, `link_tests` those of one as the
//! service of an end. This crate is one of its own since a crate with tests is proved a second time with them.
#![tactic(auto)]

#[cfg(test)]
mod client_tests;
#[cfg(test)]
mod ends;
#[cfg(test)]
mod get_tests;
#[cfg(test)]
mod link_tests;
#[cfg(test)]
mod loss_tests;
#[cfg(test)]
mod put_tests;
#[cfg(test)]
mod run_tests;
#[cfg(test)]
mod server_tests;
#[cfg(test)]
mod slot_tests;
#[cfg(test)]
mod stranger_tests;
