//! What an attribute block says.

ghost use Rattle.std.specs.Prelude.{◌≡◌, ◌<◌, length};
ghost use Rattle.t3t_tag.specs.Attributes.{message_length};
ghost use Rattle.t3t_access.specs.Reading.{is_bad_size, judged};

use crate::fault::T3Fault;
use t3t_tag::{is_summed, message_blocks};

/// Where its numbers stand.
const MOST_CHECKED: usize = 1;

const MOST_UPDATED: usize = 2;

const LENGTH: usize = 11;

/// The major version that is understood.
const VERSION: u8 = 1;

/// How many blocks behind it are for the message at most.
const MOST_BLOCKS: u16 = 255;

/// How many bytes the message has.
pub fn message_length(block: &[u8]) -> u32
    requires { length block.now ≡ 16 }
    ensures length { result ≡ message_length block.now }
    ensures few { result < 16777216 }
{
    block[LENGTH] as u32 * 65536 + (block[LENGTH + 1] as u32 * 256 + block[LENGTH + 2] as u32)
}

/// Whether a number of it is out of range.
fn is_bad_size(block: &[u8]) -> bool
    requires { length block.now ≡ 16 }
    ensures { result ≡ is_bad_size block.now }
{
    let blocks = message_blocks(block);
    let length = message_length(block);
    block[MOST_CHECKED] == 0
        || block[MOST_UPDATED] == 0
        || blocks == 0
        || blocks > MOST_BLOCKS
        || length > 16 * blocks as u32
}

/// Which fault it has, if it has one.
pub fn judge(block: &[u8]) -> Result<(), T3Fault>
    requires { length block.now ≡ 16 }
    ensures { result ≡ judged block.now }
{
    if !is_summed(block) {
        return Err(T3Fault::NotNdef);
    }
    if block[0] / 16 != VERSION {
        return Err(T3Fault::Version);
    }
    if is_bad_size(block) {
        return Err(T3Fault::BadSize);
    }
    Ok(())
}
