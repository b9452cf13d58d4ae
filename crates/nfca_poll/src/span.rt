//! Bits from the midst of some bytes.

ghost use Rattle.std.specs.Prelude.{◌≡◌, ◌≤◌, ◌+◌, ◌*◌, length, take, drop};
ghost use Rattle.nfc_base.specs.Bits.{bits_of, number_of, packed, of_bits};
ghost use Rattle.nfc_base.specs.declared.frame.Tech.{Tech};

use air_core::bits::bit;
use arrayvec::ArrayVec;
use nfc_base::{Frame, Tech};

/// The number of at most eight bits.
#[tactic(auto, using(crate::proofs::identifiers::Spans::number_more, crate::proofs::identifiers::Spans::span_none, nfc_base::proofs::Packing::length_of_bits))]
fn number(bytes: &[u8], from: usize, to: usize) -> u8
    requires order { from ≤ to }
    requires few { to ≤ from + 8 }
    requires within { to ≤ 8 * length bytes.now }
    ensures { result ≡ number_of (drop from (take to (bits_of bytes.now))) }
{
    let mut value: u8 = 0;
    let mut at = to;
    while at > from {
        at -= 1;
        let one = bit(bytes, at);
        value = if one { 1 + 2 * value } else { 2 * value };
    }
    value
}

/// The bits from one place to another, packed into bytes: at most 64.
#[tactic(auto, using(crate::proofs::identifiers::Spans::pack_whole, crate::proofs::identifiers::Spans::pack_part, crate::proofs::identifiers::Spans::pack_end, nfc_base::proofs::Packing::length_of_bits))]
fn pack(bytes: &[u8], from: usize, to: usize) -> ArrayVec<u8, 8>
    requires order { from ≤ to }
    requires few { to ≤ from + 64 }
    requires within { to ≤ 8 * length bytes.now }
    ensures { result.items ≡ packed (drop from (take to (bits_of bytes.now))) }
{
    let mut packed = ArrayVec::new();
    let mut at = from;
    while to - at >= 8 {
        packed.push(number(bytes, at, at + 8));
        at += 8;
    }
    if at < to {
        packed.push(number(bytes, at, to));
    }
    packed
}

/// The NFC-A frame of the bits from one place to another, at most 64.
pub fn span_frame(bytes: &[u8], from: usize, to: usize) -> Frame
    requires order { from ≤ to }
    requires few { to ≤ from + 64 }
    requires within { to ≤ 8 * length bytes.now }
    ensures { result ≡ of_bits Tech.A (drop from (take to (bits_of bytes.now))) }
{
    let packed = pack(bytes, from, to);
    Frame::part(Tech::A, &packed, ((to - from) % 8) as u8).unwrap()
}
