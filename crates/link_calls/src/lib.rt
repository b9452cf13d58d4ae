//! A client's calls over the open link of a field, in the world with far ends.
//!
//! `specs/CallDue.antt`: what is due in a call, and where it stands, are functions of what was heard.
//! `specs/CallTurns.antt`: what a call did over a link is turns of the world whose requests were due so, which `law`
//! has of any link. `calls` are the calls on a field, of one contract (`specs/Called.antt`), and `closing` is the last
//! of them, behind which the link is released. `at_once` puts several messages, each from a slot of the client
//! (`specs/AtOnce.antt`). `exchanging` sends payloads that were written by hand (`specs/Exchanging.antt`). Of both,
//! `specs/Walk.antt` says how the exchanges follow each other.
#![tactic(auto)]

mod at_once;
mod calls;
mod closing;
mod exchanging;
mod law;
mod request;

pub use at_once::run_on;
pub use calls::{call_on, get_on, lookup_on, put_on};
pub use closing::close_and_release;
pub use exchanging::exchange_all;
pub use law::calls_due;
pub use request::{LinkRequest, SlotMessage};
