//! One end of a link of LLCP (NFC Forum LLCP 1.3): what it does with each PDU that comes, and what it gives.
//!
//! `llc` is an end, `service` what stands above it, `names` the names that are bound. `link` takes payloads: `payload`
//! takes one apart, `connecting`, `taking` and `discovery` do what its PDUs ask. `writing` gives them: `giving` chooses
//! the PDU that is due, `joining` those behind it in an AGF. `answering` is an end as the far end of a link, and
//! `counting` one whose payloads have given numbers of PDUs. `asking` is what an end asks of the other: connections, of
//! which `standing` tells how they stand, and lookups. `served` keeps the connections that the other end asked for,
//! `sending` is what they give; `own`, `owns` and `own_giving` are the same of those that this end asked for, `lookups`
//! what it looked up. `queue` are the PDUs that wait, `numbered` says where something stands in a list; `parts`
//! and `params` are about single PDUs. `fault` says why a call is refused.
#![tactic(auto)]

mod answering;
mod asking;
mod connecting;
mod counting;
mod discovery;
mod fault;
mod giving;
mod joining;
mod law;
mod link;
mod llc;
mod lookups;
mod names;
mod numbered;
mod own;
mod own_giving;
mod owns;
mod params;
mod parts;
mod payload;
mod queue;
mod sending;
mod served;
mod service;
mod standing;
mod taking;
mod writing;

pub use asking::FIRST_SAP;
pub use counting::{Counted, Counts};
pub use fault::LlcFault;
pub use law::units;
pub use llc::Llc;
pub use service::Service;
pub use standing::Standing;
