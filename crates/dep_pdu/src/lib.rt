//! The frames of NFC-DEP, by which two devices exchange payloads (NFCIP-1, ISO/IEC 18092; NFC Forum Digital Protocol).
//!
//! `frame` is the frame, which `read` reads and `write` writes: `head` has its direction and command bytes, `atr` and
//! `dep` the frames of these commands, `pfb` the control byte of the latter. `refusal` says what is wrong with bytes
//! that are no frame.
//! Nothing here takes memory.
#![tactic(auto)]

mod atr;
mod dep;
mod frame;
mod head;
mod pfb;
mod read;
mod refusal;
mod write;

pub use frame::DepFrame;
pub use refusal::{DepKind, DepRefusal};
