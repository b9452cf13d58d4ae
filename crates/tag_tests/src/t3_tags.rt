//! The tags of the tests, and what is read of them.

use crate::MemLink;
use std::alloc::Global;
use std::test::Fail;
use t3t_access::{Found3, T3Fault, read3};
use t3t_tag::T3Tag;

pub const ID: [u8; 8] = [1, 2, 3, 4, 5, 6, 7, 8];

/// An attribute block: Nbr, Nmaxb, WriteFlag, RWFlag and the length, with its sum.
pub fn attributes(most: u8, blocks: u16, flag: u8, access: u8, length: u16) -> [u8; 16] {
    let [high, low] = blocks.to_be_bytes();
    let [above, below] = length.to_be_bytes();
    let mut block = [
        0x10, most, 1, high, low, 0, 0, 0, 0, flag, access, 0, above, below, 0, 0,
    ];
    let mut sum: u16 = 0;
    for byte in block {
        sum = sum.saturating_add(byte as u16);
    }
    let [up, down] = sum.to_be_bytes();
    block[14] = up;
    block[15] = down;
    block
}

/// The same with another byte there, where there is one.
pub fn changed(mut block: [u8; 16], at: usize, byte: u8) -> [u8; 16] {
    if at < 16 {
        block[at] = byte;
    }
    block
}

/// A tag of so many blocks with this attribute block, and then numbers from 1 on.
pub fn link_to(
    alloc: Global,
    blocks: usize,
    block: &[u8],
    left: u16,
    behind: bool,
) -> Result<MemLink<T3Tag>, Fail> {
    let mut store = block.to_vec(alloc)?;
    let mut next: u8 = 0;
    for _ in 1..blocks.min(256) {
        for _ in 0..16u8 {
            next = next.wrapping_add(1);
            store.push(next)?;
        }
    }
    Ok(MemLink::lost_after(alloc, T3Tag::new(ID, store)?, left, behind))
}

/// Reads the tag, by its identifier.
pub fn read(alloc: Global, link: &mut MemLink<T3Tag>) -> Result<Found3, T3Fault> {
    let id = link.card.id();
    read3(alloc, link, id)
}

/// The number of what a reading tells, 0 for a message.
pub fn told(alloc: Global, link: &mut MemLink<T3Tag>) -> u8 {
    match read(alloc, link) {
        Ok(_) => 0,
        Err(fault) => fault.number(),
    }
}
