//! Why a call of a client fails.

ghost use Rattle.std.specs.Prelude.{◌≡◌};
ghost use Rattle.snep_core.specs.Numbers.{snep_fault_number};

use nfc_base::EndCause;
use thiserror::Error;

/// Why a call of a client fails.
#[derive(Clone, Copy, Debug, PartialEq, Eq, Error)]
pub enum SnepFault {
    #[error("the server rejected the message")]
    Reject,
    #[error("the server has no value under the key")]
    NotFound,
    #[error("the value is longer than acceptable")]
    Excess,
    #[error("the server has no values")]
    NotImplemented,
    #[error("the link ended: {0}")]
    LinkEnded(EndCause),
    #[error("out of memory")]
    Memory,
    #[error("the far end doesn't answer as a server")]
    BadPeer,
    #[error("the slot has a message that isn't finished")]
    SlotBusy,
}

impl SnepFault {
    /// Its number in reports and tests.
    pub fn number(&self) -> u8
        ensures { result ≡ snep_fault_number self.now }
    {
        match self {
            SnepFault::Reject => 1,
            SnepFault::NotFound => 2,
            SnepFault::Excess => 3,
            SnepFault::NotImplemented => 4,
            SnepFault::LinkEnded(_) => 5,
            SnepFault::Memory => 6,
            SnepFault::BadPeer => 7,
            SnepFault::SlotBusy => 8,
        }
    }
}
