//! The codes of messages, and how one is written.

ghost use Rattle.std.specs.Prelude.{◌≡◌, ◌<◌, ◌+◌, ◌^◌, ◌++◌, length, IfOk};
ghost use Rattle.snep_core.specs.Message.{answer_code, message as message_of, message_of_code};

use bytes::Bytes;
use nfc_base::Items;
use std::alloc::{AllocError, Global};

/// The first byte of a message: version 1.0.
const VERSION: u8 = 0x10;

/// How many bytes stand before the information.
pub(crate) const HEADER: usize = 6;

/// The codes of requests.
pub(crate) const CONTINUE: u8 = 0x00;

pub(crate) const GET: u8 = 0x01;

pub(crate) const PUT: u8 = 0x02;

pub(crate) const REJECT: u8 = 0x7F;

/// A request that carries information.
#[derive(Clone, Copy, Debug, PartialEq, Eq)]
pub enum Request {
    Get,
    Put,
}

/// What a message of the server says.
#[derive(Clone, Copy, Debug, PartialEq, Eq)]
pub enum Answer {
    Continue,
    Success,
    NotFound,
    Excess,
    BadRequest,
    NotImplemented,
    UnsupportedVersion,
    Reject,
}

impl Answer {
    /// Its code.
    pub(crate) fn code(self) -> u8
        ensures { result ≡ answer_code self }
    {
        match self {
            Answer::Continue => 0x80,
            Answer::Success => 0x81,
            Answer::NotFound => 0xC0,
            Answer::Excess => 0xC1,
            Answer::BadRequest => 0xC2,
            Answer::NotImplemented => 0xE0,
            Answer::UnsupportedVersion => 0xE1,
            Answer::Reject => 0xFF,
        }
    }
}

/// The bytes of a message of this code. Its information is two parts, one behind the other.
fn write(alloc: Global, code: u8, first: &[u8], rest: &[u8]) -> Result<Vec<u8>, AllocError>
    requires { length first.now + length rest.now < 2 ^ 32 }
    ensures { IfOk result (λ v. v.items ≡ message_of_code code (first.now ++ rest.now)) }
{
    let size = first.len() + rest.len();
    let mut bytes = Vec::with_capacity(alloc, HEADER + size)?;
    bytes.extend_from_slice(&[VERSION, code])?;
    bytes.extend_from_slice(&(size as u32).to_be_bytes())?;
    bytes.extend_from_slice(first)?;
    bytes.extend_from_slice(rest)?;
    Ok(bytes)
}

/// The bytes of an answer with this information.
pub(crate) fn message(alloc: Global, answer: Answer, info: &[u8]) -> Result<Items<u8>, AllocError>
    requires { length info.now < 2 ^ 32 }
    ensures { IfOk result (λ m. m ≡ message_of answer info.now) }
{
    Ok(Items::new(write(alloc, answer.code(), &[], info)?))
}

/// The bytes of a request of this code.
pub(crate) fn write_request(
    alloc: Global,
    code: u8,
    first: &[u8],
    rest: &[u8],
) -> Result<Bytes, AllocError>
    requires { length first.now + length rest.now < 2 ^ 32 }
    ensures { IfOk result (λ m. m ≡ message_of_code code (first.now ++ rest.now)) }
{
    match Bytes::from_vec(write(alloc, code, first, rest)?) {
        Ok(bytes) => Ok(bytes),
        Err(_) => Err(AllocError),
    }
}
