//! The bits of a cascade level that a reader knows.

ghost use Rattle.std.specs.Prelude.{◌≡◌, ◌≤◌, ◌<◌, ◌+◌, ◌++◌, ◌∷◌, [], true, length};
ghost use Rattle.nfc_base.specs.Bits.{bits, bit_count, number_of, packed};

use air_core::bits::{bit, bit_len};
use arrayvec::ArrayVec;
use nfc_base::Frame;
use std::marker::Model;

/// At most the 40 bits of a level, in the order in which they are sent: least significant bit of each byte first.
#[derive(Debug, Drop)]
pub struct KnownBits {
    bits: ArrayVec<bool, 40>,
}

impl Model for KnownBits {
    ghost use Rattle.std.specs.Prelude.{List, Bool};

    ghost Value = { List Bool };

    ghost view = { λ k. k.bits.items };
}

impl KnownBits {
    pub fn new() -> KnownBits
        ensures { result ≡ [] }
    {
        KnownBits {
            bits: ArrayVec::new(),
        }
    }

    pub fn len(&self) -> usize
        ensures count { result ≡ length self.now }
        ensures bound { result ≤ 40 }
    {
        self.bits.len()
    }

    /// The bits of a frame follow.
    pub fn push_frame(&mut self, frame: &Frame)
        requires { length self.old + bit_count frame.now ≤ 40 }
        ensures { self.new ≡ self.old ++ bits frame.now }
    {
        let bytes = frame.view();
        for at in 0..bit_len(frame) {
            self.bits.push(bit(bytes, at));
        }
    }

    /// A bit 1 follows.
    pub fn push_one(&mut self)
        requires { length self.old < 40 }
        ensures { self.new ≡ self.old ++ true ∷ [] }
    {
        self.bits.push(true);
    }

    /// The bytes that they fill, the last one filled up with 0.
    pub fn pack(&self) -> ArrayVec<u8, 5>
        ensures { result.items ≡ packed self.now }
    {
        pack(&self.bits)
    }
}

/// The number of at most eight bits.
fn number(bits: &[bool]) -> u8
    requires { length bits.now ≤ 8 }
    ensures { result ≡ number_of bits.now }
{
    let mut value: u8 = 0;
    let mut at = bits.len();
    while at > 0 {
        at -= 1;
        value = if bits[at] { 1 + 2 * value } else { 2 * value };
    }
    value
}

/// Bits as bytes, eight to a byte.
fn pack(bits: &[bool]) -> ArrayVec<u8, 5>
    requires { length bits.now ≤ 40 }
    ensures { result.items ≡ packed bits.now }
{
    let mut packed = ArrayVec::new();
    let mut left = bits;
    while left.len() >= 8 {
        let (byte, rest) = left.split_at(8);
        packed.push(number(byte));
        left = rest;
    }
    if !left.is_empty() {
        packed.push(number(left));
    }
    packed
}
