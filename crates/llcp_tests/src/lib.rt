//! The tests of `llcp_link`, over its public calls.
//!
//! `ends` is what the tests of an end have in common: two services, and an end at SAP 4 over each. This crate is one of
//! its own since a crate with tests is proved a second time with them.
#![tactic(auto)]

#[cfg(test)]
mod counting_tests;
#[cfg(test)]
mod end_tests;
#[cfg(test)]
mod ends;
#[cfg(test)]
mod own_tests;
