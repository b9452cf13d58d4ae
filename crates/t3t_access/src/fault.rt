//! Why a call ends without its purpose.

ghost use Rattle.std.specs.Prelude.{◌≡◌};
ghost use Rattle.t3t_access.specs.Numbers.{t3_fault_number, of_link};

use nfc_base::AskFault;
use thiserror::Error;

/// Why a reading gives no message, or a write ends without it: what the tag's store holds, that the tag refused a
/// command, with its status, that the link is over, or that the message has no place. The numbers are this project's
/// own.
#[derive(Clone, Copy, Debug, PartialEq, Eq, Error)]
pub enum T3Fault {
    #[error("the sum of the attribute block is wrong")]
    NotNdef,
    #[error("the attribute block has another major version")]
    Version,
    #[error("the attribute block names a size that can't be")]
    BadSize,
    #[error("the tag refused a command")]
    Refused(u16),
    #[error("the field was lost")]
    FieldLost,
    #[error("six bad receptions in one wait")]
    SixBad,
    #[error("out of memory")]
    Memory,
    #[error("the tag isn't free to write")]
    ReadOnly,
    #[error("the message is longer than its place")]
    TooLong(u32),
    #[error("the tag sent a frame that is no allowed answer")]
    Protocol,
    #[error("a write of the tag began and didn't end")]
    Unfinished,
}

impl From<AskFault> for T3Fault {
    ghost from_gives = { λ fault f. f ≡ of_link fault };

    fn from(fault: AskFault) -> T3Fault {
        match fault {
            AskFault::FieldLost => T3Fault::FieldLost,
            AskFault::SixBad => T3Fault::SixBad,
            AskFault::Memory => T3Fault::Memory,
            AskFault::Protocol => T3Fault::Protocol,
        }
    }
}

impl T3Fault {
    /// Its number in reports and tests.
    pub fn number(&self) -> u8
        ensures { result ≡ t3_fault_number self.now }
    {
        match self {
            T3Fault::NotNdef => 1,
            T3Fault::Version => 2,
            T3Fault::BadSize => 5,
            T3Fault::Refused(_) => 8,
            T3Fault::FieldLost => 9,
            T3Fault::SixBad => 10,
            T3Fault::Memory => 11,
            T3Fault::ReadOnly => 12,
            T3Fault::TooLong(_) => 13,
            T3Fault::Protocol => 15,
            T3Fault::Unfinished => 16,
        }
    }
}
