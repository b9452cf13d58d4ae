//! Why a call of a field failed.

ghost use Rattle.std.specs.Prelude.{◌≡◌};
ghost use Rattle.air_core.specs.Numbers.{air_fault_number};

use thiserror::Error;

/// Why a call of a field failed.
#[derive(Clone, Copy, Debug, PartialEq, Eq, Error)]
pub enum AirFault {
    #[error("the field was lost")]
    FieldLost = 1,
    #[error("out of memory")]
    Memory = 2,
}

impl AirFault {
    /// Its number in reports and tests.
    pub fn number(&self) -> u8
        ensures { result ≡ air_fault_number self.now }
    {
        *self as u8
    }
}
