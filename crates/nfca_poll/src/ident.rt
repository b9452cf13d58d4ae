//! NFC-A identifiers.

ghost use Rattle.std.specs.Prelude.{◌≡◌, ◌↔◌, length, IsOk, IsErrOf, IfOk};
ghost use Rattle.nfca_poll.specs.Ident.{IsIdent, IsIdentLength, IsBadCascade, ident_fault_number};

use arrayvec::ArrayVec;
use std::marker::Model;
use thiserror::Error;

/// CT, the byte by which a cascade level says that the identifier goes on (ISO/IEC 14443-3).
pub const CASCADE_TAG: u8 = 0x88;

/// Why some bytes are no identifier.
#[derive(Clone, Copy, Debug, PartialEq, Eq, Error)]
pub enum IdentFault {
    #[error("an identifier has 4, 7 or 10 bytes")]
    BadLength = 1,
    #[error("the last cascade level would begin with the cascade tag")]
    BadCascade = 2,
}

impl IdentFault {
    /// Its number in reports and tests.
    pub fn number(&self) -> u8
        ensures { result ≡ ident_fault_number self.now }
    {
        *self as u8
    }
}

/// An NFC-A identifier, NFCID1, of 4, 7 or 10 bytes in the order in which the cascade levels send them.
#[derive(Debug, Drop, PartialEq, Eq)]
pub struct Ident {
    bytes: ArrayVec<u8, 10>,
}

impl Model for Ident {
    ghost use Rattle.std.specs.Prelude.{List, ℕ};
    ghost use Rattle.nfca_poll.specs.Ident.{IsIdent};

    ghost Value = { List ℕ };

    ghost view = { λ i. i.bytes.items };

    ghost invariant = { λ i. IsIdent i.bytes.items };

    ghost inverse = { λ v. record { bytes = record { items = v } } };
}

impl Ident {
    pub fn new(bytes: &[u8]) -> Result<Ident, IdentFault>
        ensures ok { IfOk result (λ i. i ≡ bytes.now) }
        ensures valid { IsOk result ↔ IsIdent bytes.now }
        ensures bad_length { IsErrOf result IdentFault.BadLength ↔ (IsIdentLength (length bytes.now) → ⊥) }
        ensures bad_cascade { IsErrOf result IdentFault.BadCascade ↔ IsBadCascade bytes.now }
    {
        let last_level = match bytes.len() {
            4 => Some(bytes[0]),
            7 => Some(bytes[3]),
            10 => None,
            _ => return Err(IdentFault::BadLength),
        };
        if last_level == Some(CASCADE_TAG) {
            return Err(IdentFault::BadCascade);
        }
        let mut content = ArrayVec::new();
        content.try_extend_from_slice(bytes).unwrap();
        Ok(Ident { bytes: content })
    }

    /// Its bytes, the first one that is sent first.
    pub fn view(&self) -> &[u8]
        ensures bytes { result.now ≡ self.now }
        ensures valid { IsIdent self.now }
    {
        self.bytes.as_slice()
    }

    /// The same identifier again. It takes no memory.
    pub fn copy(&self) -> Ident
        ensures { result ≡ self.now }
    {
        let mut bytes = ArrayVec::new();
        bytes.try_extend_from_slice(&self.bytes).unwrap();
        Ident { bytes }
    }
}
