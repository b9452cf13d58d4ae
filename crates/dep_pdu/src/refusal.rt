//! What is wrong with bytes that are no frame.

ghost use Rattle.std.specs.Prelude.{◌≡◌, ◌<◌};
ghost use Rattle.dep_pdu.specs.Numbers.{dep_kind_number};

use thiserror::Error;

/// The kinds of faults, in the order in which they are looked for. Kinds and order are this project's own.
#[derive(Clone, Copy, Debug, PartialEq, Eq, Error)]
pub enum DepKind {
    #[error("the first byte isn't F0h")]
    Start = 1,
    #[error("LEN isn't the number of bytes after F0h")]
    Length = 2,
    #[error("a byte is missing")]
    Short = 3,
    #[error("the direction byte is neither D4h nor D5h")]
    Direction = 4,
    #[error("the command byte is unknown or of the other direction")]
    Command = 5,
    #[error("a field has a value that it may not have")]
    Field = 6,
    #[error("a byte follows the frame")]
    Trailing = 7,
}

impl DepKind {
    /// Its number in reports and tests.
    pub fn number(&self) -> u8
        ensures { result ≡ dep_kind_number self.now }
    {
        *self as u8
    }
}

/// The first fault of some bytes, and its place, counted from F0h as 0. That of `Short` is behind the last byte.
#[derive(Clone, Copy, Debug, PartialEq, Eq, Error)]
#[error("{kind}, at byte {place}")]
pub struct DepRefusal {
    pub place: u16,
    pub kind: DepKind,
}

impl DepRefusal {
    pub(crate) fn at(place: usize, kind: DepKind) -> DepRefusal
        requires { place < 65536 }
        ensures { result ≡ record { place = place; kind = kind } }
    {
        DepRefusal {
            place: place as u16,
            kind,
        }
    }
}
