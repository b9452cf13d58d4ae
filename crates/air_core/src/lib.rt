//! The simulated air: listeners in a field, the fates of transmissions, and the trace of what happened.
//!
//! `listener` says what a device is to the air. `field` makes turns: `fates` gives each transmission its fate,
//! `hearing` lets a request reach the listeners, `answers` joins what they say, by `bits` where they differ.
//! `specs/Turn.antt` says what a turn is with a far end of any type, and `specs/Conversation.antt` speaks of turns over
//! any air; `proofs/Quiet.antt` leads from the one to the other where nothing is asked of a far end.
//!
//! `first_answer` is one wait: a request, sent up to its first whole answer.
//!
//! `plain_link` is the link to a tag that takes commands as they are sent: `specs/PlainTags.antt` says which tags do,
//! `specs/Waits.antt` what is due while commands are asked, `specs/PlainLinks.antt` what the link shows.
#![tactic(auto)]

mod answers;
pub mod bits;
mod fates;
mod fault;
mod field;
mod first_answer;
mod hearing;
pub mod law;
mod listener;
mod plain_link;

pub use fault::AirFault;
pub use field::Field;
pub use first_answer::ask_first;
pub use listener::Listener;
pub use plain_link::PlainLink;
