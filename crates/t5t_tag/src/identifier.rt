//! Identifiers as they are sent, and the masks that stand for many of them.

ghost use Rattle.std.specs.Prelude.{◌≡◌, ◌≤◌, ◌%◌, ◌^◌, min, length};
ghost use Rattle.t5t_tag.specs.Mask.{low_first, mask_size, kept, asks_for};

use arrayvec::ArrayVec;

/// How many bits an identifier has, and a mask at most.
pub(crate) const MOST_BITS: u8 = 64;

/// How many bits a mask of slots has at most: the next four are the slot.
pub(crate) const MOST_SLOT_BITS: u8 = 60;

/// An identifier low byte first, from one with its high byte first, or back.
pub(crate) fn turned(id: [u8; 8]) -> [u8; 8]
    ensures { result ≡ low_first id }
{
    let [a, b, c, d, e, f, g, h] = id;
    [h, g, f, e, d, c, b, a]
}

/// How many whole bytes hold so many bits.
pub(crate) fn mask_size(bits: u8) -> usize
    ensures { result ≡ mask_size bits }
{
    (bits as usize + 7) / 8
}

/// A byte with only its lowest bits.
fn lowest(byte: u8, bits: u8) -> u8
    ensures { result ≡ byte % 2 ^ min bits 8 }
{
    if bits < 8 { byte % (1 << bits) } else { byte }
}

/// Bytes with only their lowest bits; all others are 0.
pub(crate) fn kept(bits: u8, bytes: &[u8]) -> ArrayVec<u8, 8>
    requires { length bytes.now ≤ 8 }
    ensures bytes { result.items ≡ kept bits bytes.now }
    ensures size { length result.items ≡ length bytes.now }
{
    let mut result = ArrayVec::new();
    let mut left = bits;
    for byte in bytes {
        result.push(lowest(*byte, left));
        left = left.saturating_sub(8);
    }
    result
}

/// Whether a mask of so many bits asks for an identifier.
pub(crate) fn asks_for(id: [u8; 8], bits: u8, mask: &[u8]) -> bool
    ensures { result ≡ asks_for id bits mask.now }
{
    if bits > MOST_BITS {
        return false;
    }
    let asked = kept(bits, &turned(id));
    mask == asked.split_at(mask_size(bits)).0
}
