//! Numbered connections of LLCP (NFC Forum LLCP 1.3): units come out in the order in which they went in, each once.
//!
//! `conn` is one end of a connection, `fault` says why a unit isn't submitted, and `law` states what two ends come to.
#![tactic(auto)]

mod conn;
mod fault;
mod law;

pub use conn::{Conn, ConnNumbers, Taken};
pub use fault::{ConnFault, SharedCause, SharedRefused};
pub use law::window;

#[cfg(test)]
mod tests;
