//! SNEP (NFC Forum SNEP 1.0): the server, which takes messages and answers requests for values, as the service of an
//! end of a link.
//!
//! `message` has the codes and writes messages; `first` reads the first unit of a request; `session` is one connection:
//! what is gathered, what is to be sent, what waits for a continue; `server` has the table for get, what was accepted,
//! and a session for each client's SAP; `client` is the other end, `slot` has the messages that wait on its slots,
//! `running` puts them at once, and `closing` ends all connections; `law` says what the units of a client's messages
//! put, that a server accepts just that, and that a client's calls come to an end.
#![tactic(auto)]

mod client;
mod closing;
mod fault;
mod first;
mod hearing;
mod job;
mod law;
mod listening;
mod message;
mod running;
mod server;
mod session;
mod silent;
mod slot;
mod submitting;
mod turning;

pub use client::{CLIENT_SAP, Client};
pub use fault::SnepFault;
pub use job::{Ending, Job, OnSap, Refusal};
pub use law::{
    any_table, calls_end, cut_off, fronts, in_order, last_put, link, one_list, payloads, peer,
};
pub use server::{SNEP_NAME, SNEP_SAP, Server};
pub use silent::NoService;
pub use slot::Outcome;
