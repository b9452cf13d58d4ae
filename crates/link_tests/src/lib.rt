//! A phone in memory, and the tests of `dep_link` and `link_calls` that use it.
//!
//! `phone` is a device with a target under a far end. `meeting` is what the tests of a field with one have in common.
//! Nothing but tests uses this crate. It is one of its own since a crate with tests is proved a second time with them,
//! and both crates would have `phone` twice.
#![tactic(auto)]

mod phone;

pub use phone::{Phone, phone_field};

#[cfg(test)]
mod call_tests;
#[cfg(test)]
mod dep_tests;
#[cfg(test)]
mod exchange_tests;
#[cfg(test)]
mod field_tests;
#[cfg(test)]
mod meeting;
#[cfg(test)]
mod stranger_tests;
