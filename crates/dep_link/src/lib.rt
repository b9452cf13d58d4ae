//! NFC-DEP (NFCIP-1, ISO/IEC 18092; NFC Forum Digital Protocol), both ends: an initiator's payload and the reply of the
//! far end above a target, each in frames that stop and wait.
//!
//! `frames` carries frames of NFC-DEP on the air and cuts pieces, `target` and `initiator` are the ends, one step of
//! their tables a call; none of these takes memory. `listener` says what a peer is in a field, `activation` and
//! `exchange` are the initiator's turns with one, and `pair` is the link to it, with `brought` for what a trace
//! brought. `law` has what both tables keep together.
#![tactic(auto)]

mod activation;
mod brought;
mod exchange;
mod frames;
mod initiator;
mod law;
mod listener;
mod pair;
mod target;

pub use activation::activate;
pub use frames::{is_atr_req, is_atr_res};
pub use initiator::{InitKind, InitStep, Initiator};
pub use law::{delivered_anew, faults_stay, handed_once, replies_heard};
pub use listener::PeerListener;
pub use pair::{DepPair, release};
pub use target::{Target, TargetKind, TargetStep};
