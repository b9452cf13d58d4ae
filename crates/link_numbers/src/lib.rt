//! How many PDUs each payload of a link had, read off the events of a command.
//!
//! `number` counts the PDUs of one payload, `side` walks over what one end of the link sent, and `shown` goes over
//! events with both ends. Nothing is checked here: what comes of the numbers is for the caller to compare. Memory is
//! taken for the numbers alone. `law` says that they are as good as the true ones.
#![tactic(auto)]

mod law;
mod number;
mod shown;
mod side;

pub use law::calls_show;
pub use shown::{Shown, numbers_shown};

#[cfg(test)]
mod tests;
