//! The tests of `bench_devices`, by its public calls: devices step by step, Type 3 tags as they are found and over a
//! link, and links that are opened to a peer.
//!
//! They stand here since a crate with tests is proved a second time with them; of this crate nothing else is to be
//! proved.
#![tactic(auto)]

#[cfg(test)]
mod field_3_tests;
#[cfg(test)]
mod opening_tests;
#[cfg(test)]
mod peer_tests;
#[cfg(test)]
mod polling_3_tests;
#[cfg(test)]
mod rows;
#[cfg(test)]
mod tag_tests;
#[cfg(test)]
mod type_3_tests;
