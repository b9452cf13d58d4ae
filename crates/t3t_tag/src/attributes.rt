//! The attribute block of a Type 3 tag.

ghost use Rattle.std.specs.Prelude.{◌≡◌, ◌≤◌, ◌+◌, length, sum};
ghost use Rattle.nfc_base.specs.Words.{word};
ghost use Rattle.t3t_tag.specs.Attributes.{is_summed, message_blocks};

/// How many bytes the sum is made of.
const SUMMED: usize = 14;

/// Where the number of message blocks stands, and the sum, each high byte first.
const MESSAGE_BLOCKS: usize = 3;

const SUM: usize = 14;

/// The sum of some bytes, as that of the first fourteen of an attribute block.
pub fn sum_of(bytes: &[u8]) -> u16
    requires { length bytes.now ≤ 14 }
    ensures { result ≡ sum bytes.now }
{
    let mut sum = 0;
    for byte in bytes {
        sum += *byte as u16;
    }
    sum
}

/// The number of two bytes from one on, high byte first.
fn word(bytes: &[u8], at: usize) -> u16
    requires { at + 2 ≤ length bytes.now }
    ensures { result ≡ word bytes.now at }
{
    u16::from_be_bytes([bytes[at], bytes[at + 1]])
}

/// Whether the sum of an attribute block is right.
pub fn is_summed(block: &[u8]) -> bool
    requires { 16 ≤ length block.now }
    ensures { result ≡ is_summed block.now }
{
    sum_of(&block[..SUMMED]) == word(block, SUM)
}

/// How many blocks an attribute block names for the message.
pub fn message_blocks(block: &[u8]) -> u16
    requires { 16 ≤ length block.now }
    ensures { result ≡ message_blocks block.now }
{
    word(block, MESSAGE_BLOCKS)
}
