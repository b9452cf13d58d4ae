//! How what is told reaches C: bytes in a slice that C lent, and numbers in a struct.

ghost use Rattle.std.specs.Prelude.{◌≡◌};
ghost use Rattle.zevlodek_c.specs.Showing.{shows};

use crate::codes::SHORT;

/// What a call tells beside its answer.
#[repr(C)]
pub struct Told {
    /// How many bytes stand in `out`, or would stand there.
    pub length: usize,
    /// How many bytes a message may have.
    pub capacity: u32,
    /// Of a refusal, the tag's code.
    pub code: u16,
    /// Whether writing is free: 0 or 1.
    pub writable: u8,
    /// Of a tag's answer, how many low bits of its last byte are sent: 0 for all.
    pub bits: u8,
    /// Of a far end, whether a new log may begin: 0 or 1. A new log, without payloads, then gives the same replies from
    /// here on; only where several connections wait at once do their turns begin at the lowest SAP. But its end has
    /// accepted nothing yet: fetch the messages first.
    pub anew: u8,
}

/// Puts bytes at the front of `out`, where they have room, and tells how many they are.
pub fn show(answer: i32, bytes: &[u8], out: &mut [u8], told: &mut Told) -> i32
    ensures { record { answer = result; out = out.new; told = told.new } ≡ shows answer bytes.now out.old told.old }
{
    told.length = bytes.len();
    if bytes.len() > out.len() {
        return SHORT;
    }
    out[..bytes.len()].copy_from_slice(bytes);
    answer
}
