//! Reads and writes the message of a Type 3 tag over any link (NFC Forum Type 3 Tag).
//!
//! `read3` (`reader`) gives the message, `write3` (`writer`) writes one, over a link to a tag that was found by one of
//! the two calls of `polling`, over a field. `asking` asks the tag for one command, and tells what its answer says;
//! `attributes` says what the attribute block does; `fault` is why a call ends without its purpose.
#![tactic(auto)]

mod asking;
mod attributes;
mod fault;
mod found;
mod polling;
mod reader;
mod writer;

pub use fault::T3Fault;
pub use found::Found3;
pub use polling::{Fcrowd, pick_f, poll_f};
pub use reader::read3;
pub use writer::write3;
