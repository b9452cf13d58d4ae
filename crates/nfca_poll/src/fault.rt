//! What polling finds, and why it doesn't.

ghost use Rattle.std.specs.Prelude.{◌≡◌};
ghost use Rattle.nfca_poll.specs.Numbers.{poll_fault_number};

use crate::ident::Ident;
use crate::kind::Kind;
use thiserror::Error;

/// Why a call of polling found nothing, or gave up. Their meanings are this project's own.
#[derive(Clone, Copy, Debug, PartialEq, Eq, Error)]
pub enum PollFault {
    #[error("nobody answered four presence requests")]
    Nobody = 1,
    #[error("a reception was bad once a device had answered")]
    Disturbed = 2,
    #[error("the field is dark")]
    FieldLost = 3,
    #[error("out of memory")]
    Memory = 4,
    #[error("no device with this identifier answered")]
    NotFound = 5,
    #[error("an answer is none that a device gives")]
    BadAnswer = 6,
}

impl PollFault {
    /// Its number in reports and tests.
    pub fn number(&self) -> u8
        ensures { result ≡ poll_fault_number self.now }
    {
        *self as u8
    }
}

/// An NFC-A device that a resolution has selected.
#[derive(Debug, Drop, PartialEq, Eq)]
pub struct Picked {
    pub id: Ident,
    pub kind: Kind,
}
