//! Pieces of a report's text, in room that their callers have, so that they take no memory.

ghost use Rattle.std.specs.Prelude.{◌≡◌, ◌+◌, ◌*◌, ◌≤◌, ◌++◌, length};
ghost use Rattle.std.specs.Fmt.{decimal};
ghost use Rattle.hex.specs.Hex.{encode_upper};
ghost use Rattle.bench_script.specs.Canonical.{hex_text};
ghost use Rattle.bench_world.specs.private.Digits.{all_pairs};

use arrayvec::ArrayVec;

/// The two digits of each byte in turn, from 00 to FF.
const PAIRS: &[u8; 512] = b"000102030405060708090A0B0C0D0E0F101112131415161718191A1B1C1D1E1F\
    202122232425262728292A2B2C2D2E2F303132333435363738393A3B3C3D3E3F\
    404142434445464748494A4B4C4D4E4F505152535455565758595A5B5C5D5E5F\
    606162636465666768696A6B6C6D6E6F707172737475767778797A7B7C7D7E7F\
    808182838485868788898A8B8C8D8E8F909192939495969798999A9B9C9D9E9F\
    A0A1A2A3A4A5A6A7A8A9AAABACADAEAFB0B1B2B3B4B5B6B7B8B9BABBBCBDBEBF\
    C0C1C2C3C4C5C6C7C8C9CACBCCCDCECFD0D1D2D3D4D5D6D7D8D9DADBDCDDDEDF\
    E0E1E2E3E4E5E6E7E8E9EAEBECEDEEEFF0F1F2F3F4F5F6F7F8F9FAFBFCFDFEFF";

/// Puts a text behind a piece that has room for it.
pub(crate) fn push_text<const N: usize>(piece: &mut ArrayVec<u8, N>, text: &[u8])
    requires { length piece.old.items + length text.now ≤ N }
    ensures value { piece.new.items ≡ piece.old.items ++ text.now }
    ensures size { length piece.new.items ≡ length piece.old.items + length text.now }
{
    piece.try_extend_from_slice(text).unwrap();
}

/// Puts a number in decimal behind a piece that has room for the most digits of one.
pub(crate) fn push_number<const N: usize>(piece: &mut ArrayVec<u8, N>, number: u64)
    requires { length piece.old.items + 20 ≤ N }
    ensures value { piece.new.items ≡ piece.old.items ++ decimal number }
    ensures size { length piece.new.items ≤ length piece.old.items + 20 }
{
    let mut digits = ArrayVec::new();
    push_decimal(&mut digits, number);
    push_text(piece, &digits);
}

/// Puts a number in decimal behind others that leave room for its digits.
#[tactic(auto, using(std::proofs::lemmas::Fmt::decimal_digit))]
fn push_decimal(digits: &mut ArrayVec<u8, 20>, number: u64)
    requires { length digits.old.items + length (decimal number) ≤ 20 }
    ensures { digits.new.items ≡ digits.old.items ++ decimal number }
{
    if number < 10 {
        digits.push(b'0' + number as u8);
    } else {
        push_decimal(digits, number / 10);
        digits.push(b'0' + (number % 10) as u8);
    }
}

/// Puts the digits of some bytes, two a byte, behind a piece that has room for them: most of a report is digits.
pub(crate) fn push_digits<const N: usize>(piece: &mut ArrayVec<u8, N>, bytes: &[u8])
    requires { length piece.old.items + 2 * length bytes.now ≤ N }
    ensures value { piece.new.items ≡ piece.old.items ++ encode_upper bytes.now }
    ensures size { length piece.new.items ≡ length piece.old.items + 2 * length bytes.now }
{
    let mut left = bytes;
    'fronts: while left.len() > 32 {
        let (front, rest) = left.split_at(32);
        push_few(piece, front);
        left = rest;
    }
    push_few(piece, left);
}

/// Puts the digits of so few bytes that they are written in a small room first, which costs less than room for many.
fn push_few<const N: usize>(piece: &mut ArrayVec<u8, N>, bytes: &[u8])
    requires few { length bytes.now ≤ 32 }
    requires room { length piece.old.items + 2 * length bytes.now ≤ N }
    ensures value { piece.new.items ≡ piece.old.items ++ encode_upper bytes.now }
    ensures size { length piece.new.items ≡ length piece.old.items + 2 * length bytes.now }
{
    let mut digits = [0; 64];
    let room = &mut digits[..2 * bytes.len()];
    write_digits(room, bytes, PAIRS);
    push_text(piece, room);
}

/// Writes the digits of some bytes, two by one look into the pairs.
fn write_digits(digits: &mut [u8], bytes: &[u8], pairs: &[u8; 512])
    requires room { length digits.old ≡ 2 * length bytes.now }
    requires pairs { pairs.now ≡ all_pairs }
    ensures { digits.new ≡ encode_upper bytes.now }
{
    'bytes: for i in 0..bytes.len() {
        let at = 2 * bytes[i] as usize;
        digits[2 * i] = pairs[at];
        digits[2 * i + 1] = pairs[at + 1];
    }
}

/// Puts some bytes behind a piece that has room for their digits, or for the sign that there are none.
pub(crate) fn push_hex<const N: usize>(piece: &mut ArrayVec<u8, N>, bytes: &[u8])
    requires { length piece.old.items + 2 * length bytes.now + 1 ≤ N }
    ensures value { piece.new.items ≡ piece.old.items ++ hex_text bytes.now }
    ensures size { length piece.new.items ≤ length piece.old.items + 2 * length bytes.now + 1 }
{
    if bytes.is_empty() {
        push_text(piece, b"-");
    } else {
        push_digits(piece, bytes);
    }
}
