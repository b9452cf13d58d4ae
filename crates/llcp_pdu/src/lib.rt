//! The PDUs that two LLCP ends send each other, and the general bytes with which a link begins (NFC Forum LLCP 1.3).
//!
//! `pdu_view` reads a payload in place; `param_walk` goes over the parameters of what it saw, `inner_walk` over the
//! PDUs in an AGF, and `connect` has what the parameters of a CONNECT say together: none of these takes memory. `pdu`
//! copies what was seen and writes a whole payload; `part` is a PDU that holds no other; `param` is a parameter of
//! CONNECT, CC and SNL; `header` is the first two bytes of each PDU; `general` is the general bytes; `fault` says what
//! is wrong with bytes that are no PDU, and where. `wire` has the numbers of all these, and `lengths` says how many
//! bytes a PDU has.
#![tactic(auto)]

mod connect;
mod fault;
mod general;
mod header;
mod inner_walk;
mod lengths;
mod param;
mod param_walk;
mod part;
mod pdu;
mod pdu_view;
mod reading;
mod wire;

pub use connect::ConnectParams;
pub use fault::{PduFault, PduKind, PduRefusal};
pub use general::{GeneralFault, LinkParams, general_read, general_write};
pub use header::{RawHeader, raw_header};
pub use inner_walk::InnerWalk;
pub use lengths::part_len;
pub use param::Param;
pub use param_walk::{ParamView, ParamWalk};
pub use part::{FrmrReport, Part};
pub use pdu::Pdu;
pub use pdu_view::{PduView, view};
pub use wire::{DISC, INFO, LEAST_MIU, RNR, RR};
