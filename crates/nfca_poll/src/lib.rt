//! NFC-A from the reader's side and from the listener's: identifiers, the front of a device, and how a reader finds the
//! devices in its field (ISO/IEC 14443-3; NFC Forum Digital Protocol); beside it inventory of NFC-V (ISO/IEC 15693-3).
//!
//! Of a listener: `ident` has its identifier, `level` a cascade level of it, `kind` what it is, `call` reads a reader's
//! requests, and `front` answers them over the machine of `upper`. Of a reader: `requests` has the frames that it
//! sends, `known` the bits of a level that it knows, `seeking` how a resolution goes on by what is heard, `resolution`
//! makes one in a field, and `rounds` finds all devices or selects one; `inventory` has the two calls for NFC-V.
#![tactic(auto)]

mod call;
mod fault;
mod front;
mod ident;
mod inventory;
mod kind;
mod known;
mod level;
mod requests;
mod resolution;
mod rounds;
mod seeking;
mod span;
mod upper;

pub use call::CallKind;
pub use fault::{Picked, PollFault};
pub use front::Front;
pub use ident::{Ident, IdentFault};
pub use inventory::{Vcrowd, inventory_one, pick_v};
pub use kind::Kind;
pub use level::Level;
pub use requests::ask;
pub use resolution::resolve;
pub use rounds::{find_all, pick};
pub use upper::{UpKind, UpStep, Upper};
