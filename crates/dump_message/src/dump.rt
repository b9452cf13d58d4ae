//! What a dump tells.

ghost use Rattle.std.specs.Prelude.{◌≡◌, ◌<◌, List, ℕ, IfOk, IfErr};
ghost use Rattle.std.specs.String.{string_bytes};
ghost use Rattle.hex.specs.Hex.{encode_upper};
ghost use Rattle.tlv_area.specs.Form.{Message};
ghost use Rattle.tlv_area.specs.Stores.{IsT2Form};
ghost use Rattle.dump_message.specs.Dump.{Spells, RefusesText, RefusesMemory, RefusesDump, status_of};

use std::alloc::Global;
use thiserror::Error;
use tlv_area::{ContainerFault, Walk, container_t2, copy_message, find_message};

/// Why no message is told.
#[derive(Clone, Copy, Debug, Drop, PartialEq, Eq, Error)]
pub enum DumpFault {
    #[error("the input isn't hexadecimal, two digits a byte")]
    NotHex,
    #[error("the input can't be read")]
    Unread,
    #[error("the output can't be written")]
    Unwritten,
    #[error("out of memory")]
    Memory,
    #[error("the dump ends before its message does")]
    Short,
    #[error("{0}")]
    Container(ContainerFault),
    #[error("the tag holds no message")]
    NoMessage,
    #[error("a length on the way to the message leads out of the tag's area")]
    BadTlv,
}

impl DumpFault {
    /// The exit status.
    pub fn status(&self) -> u8
        ensures { result ≡ status_of self.now }
    {
        match self {
            DumpFault::NotHex => 2,
            DumpFault::Unread => 3,
            DumpFault::Unwritten => 4,
            DumpFault::Memory => 5,
            DumpFault::Short => 6,
            DumpFault::NoMessage => 7,
            DumpFault::BadTlv => 8,
            DumpFault::Container(fault) => 10 + fault.number(),
        }
    }
}

/// The memory that a text of hexadecimal spells. White space in it is skipped.
fn memory_of(alloc: Global, text: &str) -> Result<Vec<u8>, DumpFault>
    ensures ok { IfOk result (λ memory. Spells text.now memory.items) }
    ensures err { IfErr result (λ fault. RefusesText text.now fault) }
{
    let digits: Vec<u8> = text
        .bytes()
        .filter(|c| !c.is_ascii_whitespace())
        .collect(alloc)
        .map_err(|_| DumpFault::Memory)?;
    match hex::decode(alloc, digits.as_slice()) {
        Ok(memory) => Ok(memory),
        Err(hex::FromHexError::OutOfMemory) => Err(DumpFault::Memory),
        Err(_) => Err(DumpFault::NotHex),
    }
}

/// The message that a memory holds.
fn message_of(alloc: Global, memory: &[u8]) -> Result<Vec<u8>, DumpFault>
    ensures ok { IfOk result (λ message. IsT2Form memory.now (Message message.items)) }
    ensures err { IfErr result (λ fault. RefusesMemory memory.now fault) }
{
    if memory.len() < 16 {
        return Err(DumpFault::Short);
    }
    let container = [memory[12], memory[13], memory[14], memory[15]];
    let space = match container_t2(&container) {
        Ok(space) => space,
        Err(fault) => return Err(DumpFault::Container(fault)),
    };
    match find_message(&space, memory) {
        Walk::Held { map } => match copy_message(alloc, &map, memory) {
            Ok(message) => Ok(message),
            Err(_) => Err(DumpFault::Memory),
        },
        Walk::NoMessageTlv => Err(DumpFault::NoMessage),
        Walk::BadTlv => Err(DumpFault::BadTlv),
        Walk::More => Err(DumpFault::Short),
    }
}

/// The message of a dump, in hexadecimal.
pub fn told(alloc: Global, text: &str) -> Result<String, DumpFault>
    ensures ok { IfOk result (λ told. (memory message : List ℕ) × Spells text.now memory
        × IsT2Form memory (Message message) × (string_bytes told ≡ encode_upper message)) }
    ensures err { IfErr result (λ fault. RefusesDump text.now fault) }
{
    let memory = memory_of(alloc, text)?;
    let message = message_of(alloc, &memory)?;
    hex::encode_upper(alloc, message).map_err(|_| DumpFault::Memory)
}
