//! Why a unit isn't submitted.

ghost use Rattle.std.specs.Prelude.{◌≡◌};
ghost use Rattle.llcp_conn.specs.Conn.{shared};
ghost use Rattle.llcp_conn.specs.Numbers.{conn_fault_number};
ghost use Rattle.llcp_conn.specs.declared.fault.ConnFault.TheVariants.{Memory};

use bytes::Bytes;
use std::alloc::AllocError;
use thiserror::Error;

/// Why a unit isn't submitted.
#[derive(Clone, Copy, Debug, PartialEq, Eq, Error)]
pub enum ConnFault {
    #[error("as many units as the window are not acknowledged")]
    WindowFull = 1,
    #[error("the unit is longer than the other end takes")]
    TooLong = 2,
    #[error("the connection closed")]
    NotOpen = 3,
    #[error("out of memory")]
    Memory = 4,
}

impl ConnFault {
    /// Its number in reports and tests.
    pub fn number(&self) -> u8
        ensures { result ≡ conn_fault_number self.now }
    {
        *self as u8
    }
}

impl From<AllocError> for ConnFault {
    ghost from_gives = { λ _ f. f ≡ Memory };

    fn from(_error: AllocError) -> ConnFault {
        ConnFault::Memory
    }
}

/// Why a unit that its caller shares isn't submitted.
#[derive(Clone, Copy, Debug, PartialEq, Eq, Error)]
pub enum SharedCause {
    #[error("as many units as the window are not acknowledged")]
    WindowFull = 1,
    #[error("the unit is longer than the other end takes")]
    TooLong = 2,
    #[error("the connection closed")]
    NotOpen = 3,
}

impl SharedCause {
    /// Its number in reports and tests.
    pub fn number(&self) -> u8
        ensures { result ≡ conn_fault_number (shared self.now) }
    {
        *self as u8
    }
}

impl From<SharedCause> for ConnFault {
    ghost from_gives = { λ cause f. f ≡ shared cause };

    fn from(cause: SharedCause) -> ConnFault {
        match cause {
            SharedCause::WindowFull => ConnFault::WindowFull,
            SharedCause::TooLong => ConnFault::TooLong,
            SharedCause::NotOpen => ConnFault::NotOpen,
        }
    }
}

/// A unit that wasn't submitted, and why.
#[derive(Debug, Drop)]
pub struct SharedRefused {
    pub cause: SharedCause,
    pub unit: Bytes,
}
