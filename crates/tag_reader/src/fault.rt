//! Why a reading gives no message.

ghost use Rattle.std.specs.Prelude.{◌≡◌};
ghost use Rattle.tag_reader.specs.Numbers.{read_fault_number};
ghost use Rattle.tag_reader.specs.Steps.{of_link, of_container};
ghost use Rattle.tag_reader.specs.declared.fault.ReadFault.TheVariants.{Memory};

use nfc_base::AskFault;
use std::alloc::AllocError;
use thiserror::Error;
use tlv_area::ContainerFault;

/// Why a reading gives no message: what the tag's store holds, that the tag refused a command, with its code, or that
/// the link is over. The numbers are this project's own.
#[derive(Clone, Copy, Debug, PartialEq, Eq, Error)]
pub enum ReadFault {
    #[error("the container is none of an NDEF tag")]
    NotNdef,
    #[error("the container has another major version")]
    Version,
    #[error("the tag isn't free to read")]
    NoRead,
    #[error("the tag has more than one sector")]
    Sectors,
    #[error("the container names a size that can't be")]
    BadSize,
    #[error("the area has no TLV of a message")]
    NoMessageTlv,
    #[error("a TLV of the area isn't whole")]
    BadTlv,
    #[error("the tag refused a command")]
    Refused(u16),
    #[error("the field was lost")]
    FieldLost,
    #[error("six bad receptions in one wait")]
    SixBad,
    #[error("out of memory")]
    Memory,
    #[error("the tag sent a frame that is no allowed answer")]
    Protocol,
}

impl From<AskFault> for ReadFault {
    ghost from_gives = { λ fault f. f ≡ of_link fault };

    fn from(fault: AskFault) -> ReadFault {
        match fault {
            AskFault::FieldLost => ReadFault::FieldLost,
            AskFault::SixBad => ReadFault::SixBad,
            AskFault::Memory => ReadFault::Memory,
            AskFault::Protocol => ReadFault::Protocol,
        }
    }
}

impl From<ContainerFault> for ReadFault {
    ghost from_gives = { λ fault f. f ≡ of_container fault };

    fn from(fault: ContainerFault) -> ReadFault {
        match fault {
            ContainerFault::NotNdef => ReadFault::NotNdef,
            ContainerFault::Version => ReadFault::Version,
            ContainerFault::NoRead => ReadFault::NoRead,
            ContainerFault::Sectors => ReadFault::Sectors,
            ContainerFault::BadSize => ReadFault::BadSize,
        }
    }
}

impl From<AllocError> for ReadFault {
    ghost from_gives = { λ _ f. f ≡ Memory };

    fn from(_error: AllocError) -> ReadFault {
        ReadFault::Memory
    }
}

impl ReadFault {
    /// Its number in reports and tests.
    pub fn number(&self) -> u8
        ensures { result ≡ read_fault_number self.now }
    {
        match self {
            ReadFault::NotNdef => 1,
            ReadFault::Version => 2,
            ReadFault::NoRead => 3,
            ReadFault::Sectors => 4,
            ReadFault::BadSize => 5,
            ReadFault::NoMessageTlv => 6,
            ReadFault::BadTlv => 7,
            ReadFault::Refused(_) => 8,
            ReadFault::FieldLost => 9,
            ReadFault::SixBad => 10,
            ReadFault::Memory => 11,
            ReadFault::Protocol => 15,
        }
    }
}
