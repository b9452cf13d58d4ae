//! The message of a line.

ghost use Rattle.std.specs.Prelude.{◌≡◌, IfOk};
ghost use Rattle.bench_script.specs.Messages.{message_of, counted as counting};

use nfc_base::Items;
use std::alloc::{AllocError, Global};

/// A message as a line spells it.
#[derive(Debug, Drop, PartialEq)]
pub enum Msg {
    /// Its bytes.
    Hex(Items<u8>),
    /// So many bytes: the first is `start`, and each is one above the one before it, modulo 256.
    Gen { count: u32, start: u8 },
}

impl Msg {
    /// The bytes of the message.
    pub fn bytes(&self, alloc: Global) -> Result<Vec<u8>, AllocError>
        ensures { IfOk result (λ v. v.items ≡ message_of self.now) }
    {
        match self {
            Msg::Hex(bytes) => Vec::from_slice(alloc, bytes.as_slice()),
            Msg::Gen { count, start } => counted(alloc, *count, *start),
        }
    }

    /// The same message, spelled the same way.
    pub fn copy(&self, alloc: Global) -> Result<Msg, AllocError>
        ensures { IfOk result (λ m. m ≡ self.now) }
    {
        match self {
            Msg::Hex(bytes) => Ok(Msg::Hex(Items::from_bytes(alloc, bytes.as_slice())?)),
            Msg::Gen { count, start } => Ok(Msg::Gen {
                count: *count,
                start: *start,
            }),
        }
    }
}

/// So many bytes, each one above the one before it, modulo 256.
#[tactic(auto, using(crate::proofs::Messages::one_more))]
fn counted(alloc: Global, count: u32, start: u8) -> Result<Vec<u8>, AllocError>
    ensures { IfOk result (λ v. v.items ≡ counting start count) }
{
    let mut bytes = Vec::with_capacity(alloc, count as usize)?;
    for i in 0..count {
        bytes.push(start.wrapping_add((i % 256) as u8))?;
    }
    Ok(bytes)
}
