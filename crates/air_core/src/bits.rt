//! Frames as bits, in the order in which they are sent.

ghost use Rattle.std.specs.Prelude.{◌≡◌, ℕ, ◌<◌, ◌≤◌, ◌+◌, ◌*◌, ◌%◌, List, [], length, take, drop, get_or, Bool};
ghost use Rattle.nfc_base.specs.Signal.{Signal, IsSignal};
ghost use Rattle.nfc_base.specs.Bits.{bit_count, bits_of, packed, of_bits};
ghost use Rattle.air_core.specs.Joint.{common, same_signal};

use arrayvec::ArrayVec;
use nfc_base::Frame;

/// How many bits a frame has.
pub fn bit_len(frame: &Frame) -> usize
    ensures count { result ≡ bit_count frame.now }
    ensures bound { result ≤ 8 * length frame.now.bytes }
{
    let bytes = frame.view();
    if frame.tail() == 0 {
        8 * bytes.len()
    } else {
        8 * (bytes.len() - 1) + frame.tail() as usize
    }
}

/// One bit of some bytes.
#[tactic(auto, using(nfc_base::proofs::BitsOfBytes::bit_of))]
pub fn bit(bytes: &[u8], at: usize) -> bool
    requires { at < 8 * length bytes.now }
    ensures { result ≡ get_or (bits_of bytes.now) at Bool.false }
{
    (bytes[at / 8] >> (at % 8)) % 2 == 1
}

/// How many of the first `n` bits of `a` are the first of the first `m` bits of `b`.
#[tactic(auto, using(nfc_base::proofs::Packing::length_of_bits))]
pub fn shared(a: &[u8], n: usize, b: &[u8], m: usize) -> usize
    requires a { n ≤ 8 * length a.now }
    requires b { m ≤ 8 * length b.now }
    ensures bound { result ≤ n }
    ensures common { take result (bits_of a.now) ≡ common (take n (bits_of a.now)) (take m (bits_of b.now)) }
{
    let mut k = 0;
    while k < n && k < m {
        if bit(a, k) != bit(b, k) {
            break;
        }
        k += 1;
    }
    k
}

/// The first `n` bits of a frame, as a frame.
#[tactic(auto, using(crate::proofs::FirstBits::packed_first))]
pub fn first_bits(frame: &Frame, n: usize) -> Frame
    requires { n ≤ 8 * length frame.now.bytes }
    ensures tech { result.tech ≡ frame.now.tech }
    ensures bytes { result.bytes ≡ packed (take n (bits_of frame.now.bytes)) }
    ensures tail { result.tail ≡ n % 8 }
{
    let bytes = frame.view();
    let tail = (n % 8) as u8;
    let (whole, rest) = bytes.split_at(n / 8);
    if tail == 0 {
        return Frame::whole(frame.tech(), whole).unwrap();
    }
    let mut own: ArrayVec<u8, 288> = ArrayVec::new();
    own.try_extend_from_slice(whole).unwrap();
    own.push(rest[0] % (1 << tail));
    Frame::part(frame.tech(), &own, tail).unwrap()
}
