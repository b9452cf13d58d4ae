//! The steps of a plan: what is written to which block.

ghost use Rattle.std.specs.Prelude.{◌≡◌, ◌+◌, ◌*◌, ◌/◌, ◌%◌, ◌<◌, ◌≤◌, length, slice_set};
ghost use Rattle.nfc_base.specs.Blocks.{block_of};
ghost use Rattle.tlv_area.specs.Writing.{IsStepTo};

use arrayvec::ArrayVec;
use nfc_base::Items;

/// A block of a tag, by its number, and what is to be written there.
#[derive(Debug, Drop, PartialEq, Eq)]
pub struct Step {
    pub block: u16,
    pub content: ArrayVec<u8, 32>,
}

/// The steps that put a message in the place of another, in the order in which they are written. The first takes the
/// old message away, and the last one shows the new one. A step that would change nothing is left out.
#[derive(Debug, Drop)]
pub struct Plan {
    pub close: Option<Step>,
    pub fill: Items<Step>,
    pub last: Option<Step>,
}

/// The content of a block.
pub fn block_bytes(store: &[u8], block: u32, size: u32) -> &[u8]
    requires within { size * block + size ≤ length store.now }
    ensures { result.now ≡ block_of size store.now block }
{
    let start = size as usize * block as usize;
    &store[start..start + size as usize]
}

/// The content of the block of an address, with the byte at the address 0.
pub fn closed_block(store: &[u8], place: u32, size: u32) -> ArrayVec<u8, 32>
    requires some { 0 < size }
    requires small { size ≤ 32 }
    requires within { size * (place / size) + size ≤ length store.now }
    ensures { result.items ≡ slice_set (block_of size store.now (place / size)) (place % size) 0 }
{
    let mut content = ArrayVec::new();
    content
        .try_extend_from_slice(block_bytes(store, place / size, size))
        .unwrap();
    content[(place % size) as usize] = 0;
    content
}

/// The step that gives a block this content, or none where that is what it has.
pub fn step_to(block: u32, now: &[u8], content: &[u8]) -> Option<Step>
    requires number { block < 65536 }
    requires small { length content.now ≤ 32 }
    ensures { IsStepTo block now.now content.now result }
{
    if now == content {
        return None;
    }
    let mut bytes = ArrayVec::new();
    bytes.try_extend_from_slice(content).unwrap();
    Some(Step {
        block: block as u16,
        content: bytes,
    })
}
