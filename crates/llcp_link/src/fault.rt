//! Why a call on an end of a link is refused.

ghost use Rattle.std.specs.Prelude.{◌≡◌};
ghost use Rattle.llcp_link.specs.Numbers.{llc_fault_number};
ghost use Rattle.llcp_link.specs.declared.fault.LlcFault.TheVariants.{Memory};

use std::alloc::AllocError;
use thiserror::Error;

/// Why a call on an end of a link is refused.
#[derive(Clone, Copy, Debug, PartialEq, Eq, Error)]
pub enum LlcFault {
    #[error("the name is bound")]
    NameTaken = 1,
    #[error("the SAP is bound")]
    SapTaken = 2,
    #[error("out of memory")]
    Memory = 3,
    #[error("a connection is there")]
    Busy = 4,
}

impl LlcFault {
    /// Its number in reports and tests.
    pub fn number(&self) -> u8
        ensures { result ≡ llc_fault_number self.now }
    {
        *self as u8
    }
}

impl From<AllocError> for LlcFault {
    ghost from_gives = { λ _ f. f ≡ Memory };

    fn from(_error: AllocError) -> LlcFault {
        LlcFault::Memory
    }
}
