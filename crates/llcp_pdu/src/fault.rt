//! What is wrong with bytes that are no PDU.

ghost use Rattle.std.specs.Prelude.{◌≡◌};
ghost use Rattle.llcp_pdu.specs.Views.{told};
ghost use Rattle.llcp_pdu.specs.Numbers.{pdu_kind_number, pdu_fault_number};
ghost use Rattle.llcp_pdu.specs.declared.fault.PduFault.TheVariants.{Refused, Memory};

use std::alloc::AllocError;
use thiserror::Error;

/// The last place that is told as it is.
const LAST_PLACE: usize = 65535;

/// What is wrong. What is refused, and at which place, is this project's own.
#[derive(Clone, Copy, Debug, PartialEq, Eq, Error)]
pub enum PduKind {
    /// Told at the end.
    #[error("a byte is missing")]
    Short = 1,
    /// Told at the PDU's first byte.
    #[error("no PDU has this PTYPE")]
    Ptype = 2,
    /// Told at the PDU's first byte.
    #[error("no PDU of this PTYPE has these SAPs")]
    Sap = 3,
    /// It lacks its length, is longer than what is left, or of another length than its type has; told at its type.
    #[error("a malformed parameter")]
    Parameter = 4,
    /// Told at its length.
    #[error("an AGF in an AGF")]
    Nested = 5,
    /// Told at its first byte.
    #[error("something behind the last byte")]
    Trailing = 6,
}

impl PduKind {
    /// Its number in reports and tests.
    pub fn number(&self) -> u8
        ensures { result ≡ pdu_kind_number self.now }
    {
        *self as u8
    }
}

/// The first fault of some bytes.
#[derive(Clone, Copy, Debug, PartialEq, Eq)]
pub(crate) struct Refusal {
    pub(crate) place: usize,
    pub(crate) kind: PduKind,
}

/// Why some bytes are no PDU: the first fault. Places count from 0; those behind 65,535 are told as it.
#[derive(Clone, Copy, Debug, PartialEq, Eq, Error)]
#[error("no LLCP PDU: {kind} at byte {place}")]
pub struct PduRefusal {
    pub place: u16,
    pub kind: PduKind,
}

/// Why some bytes weren't read. Places count from 0; those behind 65,535 are told as it.
#[derive(Clone, Copy, Debug, PartialEq, Eq, Error)]
pub enum PduFault {
    #[error("no LLCP PDU: {kind} at byte {place}")]
    Refused { place: u16, kind: PduKind },
    #[error("no memory")]
    Memory,
}

impl PduFault {
    /// Its number in reports and tests.
    pub fn number(&self) -> u8
        ensures { result ≡ pdu_fault_number self.now }
    {
        match self {
            PduFault::Refused { .. } => 1,
            PduFault::Memory => 2,
        }
    }
}

impl Refusal {
    pub(crate) fn at(place: usize, kind: PduKind) -> Refusal
        ensures { result ≡ record { place = place; kind = kind } }
    {
        Refusal { place, kind }
    }
}

impl From<Refusal> for PduRefusal {
    ghost from_gives = { λ r f. f ≡ told r };

    fn from(refusal: Refusal) -> PduRefusal {
        PduRefusal {
            place: refusal.place.min(LAST_PLACE) as u16,
            kind: refusal.kind,
        }
    }
}

impl From<PduRefusal> for PduFault {
    ghost from_gives = { λ r f. f ≡ Refused r.place r.kind };

    fn from(refusal: PduRefusal) -> PduFault {
        PduFault::Refused {
            place: refusal.place,
            kind: refusal.kind,
        }
    }
}

impl From<AllocError> for PduFault {
    ghost from_gives = { λ _ f. f ≡ Memory };

    fn from(_error: AllocError) -> PduFault {
        PduFault::Memory
    }
}
