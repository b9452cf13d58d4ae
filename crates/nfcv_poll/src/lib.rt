//! Finding every Type 5 tag of a field by inventories of sixteen slots (ISO/IEC 15693-3; NFC Forum Type 5 Tag).
//!
//! `mask` has the lowest bits that a round asks for, `masks` the rounds that are still to be made, `ids` the tags that
//! were recorded; `search` says what is due and goes on by what was heard; `finding` makes a search in a field.
#![tactic(auto)]

mod finding;
mod ids;
mod mask;
mod masks;
mod search;

pub use finding::find_all_v;
