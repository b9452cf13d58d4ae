//! The writing of a tag.

ghost use Rattle.std.specs.Prelude.{◌≡◌, suc, ◌+◌, ◌*◌, ◌<◌, ◌≤◌, length};
ghost use Rattle.nfc_base.specs.TagLinks.{LinkView};
ghost use Rattle.t3t_access.specs.Talk.{IsOf};
ghost use Rattle.t3t_access.specs.OwnWriting.{AsksOfWrite3, Writes3};
ghost use Rattle.t3t_access.specs.Writing.{admitted, renewed, content_at, blocks_of, all_puts, Writes, Takes, PartTold};
ghost use Rattle.t3t_access.specs.Writing.{WriteTold};

use crate::asking::update;
use crate::attributes::message_length;
use crate::fault::T3Fault;
use crate::reader::read_attributes;
use arrayvec::ArrayVec;
use nfc_base::TagLink;
use std::alloc::Global;
use t3t_tag::{message_blocks, sum_of};

/// How many bytes a block has.
const BLOCK: usize = 16;

/// Where the attribute block says whether a write has begun and not ended, and whether a message may be written.
const WRITE_FLAG: usize = 9;

const ACCESS_FLAG: usize = 10;

/// The write flag while a write is under way, and else.
const UNDER_WAY: u8 = 0x0F;

const ENDED: u8 = 0;

/// The attribute block with another write flag and another length, and its sum made anew.
fn renewed(block: &[u8], flag: u8, bytes: u32) -> [u8; 16]
    requires size { length block.now ≡ 16 }
    requires few { bytes < 16777216 }
    ensures { result ≡ renewed block.now flag bytes }
{
    let mut fresh: ArrayVec<u8, 16> = ArrayVec::new();
    fresh.try_extend_from_slice(&block[..WRITE_FLAG]).unwrap();
    fresh.push(flag);
    fresh.push(block[ACCESS_FLAG]);
    fresh.push((bytes / 65536) as u8);
    fresh.push((bytes / 256 % 256) as u8);
    fresh.push((bytes % 256) as u8);
    let [high, low] = sum_of(&fresh).to_be_bytes();
    fresh.push(high);
    fresh.push(low);
    fresh.into_inner().unwrap()
}

/// The content of the n-th block of a message, whose end is filled up with 0.
fn content_at(message: &[u8], n: usize) -> [u8; 16]
    requires { 16 * n < length message.now }
    ensures { result ≡ content_at message.now n }
{
    let (_, rest) = message.split_at(BLOCK * n);
    let (part, _) = rest.split_at(rest.len().min(BLOCK));
    let mut content = [0; BLOCK];
    content[..part.len()].copy_from_slice(part);
    content
}

/// Says in block 0 that a write is under way.
fn open<T: TagLink>(
    alloc: Global,
    link: &mut T,
    id: [u8; 8],
    block: &[u8],
    message: &[u8],
) -> Result<(), T3Fault>
    requires ready { T.ready link.old }
    requires of { IsOf id (T.seen link.old) }
    requires size { length block.now ≡ 16 }
    requires takes { Takes block.now message.now }
    requires few { length message.now ≤ 4080 }
    ensures told { (a : LinkView) → Writes id a (T.seen link.old) block.now message.now 0 →
        PartTold id a (T.seen link.new) block.now message.now 1 result }
    ensures of { IsOf id (T.seen link.new) }
    ensures ready { T.ready link.new }
    ensures same { T.lenders link.new ≡ T.lenders link.old }
    ensures moves { T.moves link.old link.new }
{
    let content = renewed(block, UNDER_WAY, message_length(block));
    let _message = message;
    update(alloc, link, id, 0, content)
}

/// Writes the blocks that have a message byte.
fn fill<T: TagLink>(
    alloc: Global,
    link: &mut T,
    id: [u8; 8],
    block: &[u8],
    message: &[u8],
) -> Result<(), T3Fault>
    requires ready { T.ready link.old }
    requires of { IsOf id (T.seen link.old) }
    requires takes { Takes block.now message.now }
    requires few { length message.now ≤ 4080 }
    ensures told { (a : LinkView) → Writes id a (T.seen link.old) block.now message.now 1 →
        PartTold id a (T.seen link.new) block.now message.now (suc (blocks_of message.now)) result }
    ensures of { IsOf id (T.seen link.new) }
    ensures ready { T.ready link.new }
    ensures same { T.lenders link.new ≡ T.lenders link.old }
    ensures moves { T.moves link.old link.new }
{
    let _block = block;
    let mut written: usize = 0;
    while BLOCK * written < message.len() {
        let content = content_at(message, written);
        match update(alloc, link, id, (1 + written) as u8, content) {
            Err(fault) => return Err(fault),
            Ok(()) => written += 1,
        }
    }
    Ok(())
}

/// Shows the new message in block 0.
fn close<T: TagLink>(
    alloc: Global,
    link: &mut T,
    id: [u8; 8],
    block: &[u8],
    message: &[u8],
) -> Result<(), T3Fault>
    requires ready { T.ready link.old }
    requires of { IsOf id (T.seen link.old) }
    requires size { length block.now ≡ 16 }
    requires takes { Takes block.now message.now }
    requires few { length message.now ≤ 4080 }
    ensures told { (a : LinkView) → Writes id a (T.seen link.old) block.now message.now (suc (blocks_of message.now)) →
        PartTold id a (T.seen link.new) block.now message.now (all_puts message.now) result }
    ensures of { IsOf id (T.seen link.new) }
    ensures ready { T.ready link.new }
    ensures same { T.lenders link.new ≡ T.lenders link.old }
    ensures moves { T.moves link.old link.new }
{
    let content = renewed(block, ENDED, message.len() as u32);
    update(alloc, link, id, 0, content)
}

/// Whether an attribute block without a fault takes a message, and else why it doesn't.
fn admit(block: &[u8], message: &[u8]) -> Result<(), T3Fault>
    requires size { length block.now ≡ 16 }
    ensures { result ≡ admitted block.now message.now }
{
    let most = 16 * message_blocks(block) as u32;
    if block[ACCESS_FLAG] != 1 {
        return Err(T3Fault::ReadOnly);
    }
    if message.len() > most as usize {
        return Err(T3Fault::TooLong(most));
    }
    Ok(())
}

/// The blocks of a message behind the opened block 0, and its closing.
fn put_all<T: TagLink>(
    alloc: Global,
    link: &mut T,
    id: [u8; 8],
    block: &[u8],
    message: &[u8],
) -> Result<(), T3Fault>
    requires ready { T.ready link.old }
    requires of { IsOf id (T.seen link.old) }
    requires size { length block.now ≡ 16 }
    requires takes { Takes block.now message.now }
    requires few { length message.now ≤ 4080 }
    ensures told { (a : LinkView) → Writes id a (T.seen link.old) block.now message.now 0 →
        PartTold id a (T.seen link.new) block.now message.now (all_puts message.now) result }
    ensures ready { T.ready link.new }
    ensures same { T.lenders link.new ≡ T.lenders link.old }
    ensures moves { T.moves link.old link.new }
{
    match open(alloc, link, id, block, message) {
        Err(fault) => return Err(fault),
        Ok(()) => {}
    }
    match fill(alloc, link, id, block, message) {
        Err(fault) => return Err(fault),
        Ok(()) => {}
    }
    close(alloc, link, id, block, message)
}

fn write_message<T: TagLink>(
    alloc: Global,
    link: &mut T,
    id: [u8; 8],
    message: &[u8],
) -> Result<(), T3Fault>
    requires ready { T.ready link.old }
    requires of { IsOf id (T.seen link.old) }
    ensures told { WriteTold id (T.seen link.old) (T.seen link.new) message.now result }
    ensures ready { T.ready link.new }
    ensures same { T.lenders link.new ≡ T.lenders link.old }
    ensures moves { T.moves link.old link.new }
{
    let block = match read_attributes(alloc, link, id) {
        Err(fault) => return Err(fault),
        Ok(block) => block,
    };
    match admit(&block, message) {
        Err(fault) => Err(fault),
        Ok(()) => put_all(alloc, link, id, &block, message),
    }
}

/// Writes a message to the Type 3 tag with this identifier behind a link (NFC Forum Type 3 Tag). It takes no memory
/// of its own: each block is made of the message as it is sent.
pub fn write3<T: TagLink>(
    alloc: Global,
    link: &mut T,
    id: [u8; 8],
    message: &[u8],
) -> Result<(), T3Fault>
    requires ready { T.ready link.old }
    // it leads to a Type 3 tag with that identifier
    requires of { IsOf id (T.seen link.old) }
    // whatever the tag does: which Updates are done stands in the tag's answers, and each fault in them, or in the link
    ensures told { WriteTold id (T.seen link.old) (T.seen link.new) message.now result }
    // where the tag keeps to its table, at every exit: its stores are first the old one, then such that say that a
    // write is under way, then such that hold the message, and other blocks stay; each fault has its cause
    ensures law { Writes3 id message.now (T.seen link.old) (T.seen link.new) result }
    // and what was answered is the first of the one list that the store, the locked blocks and the message fix, all of
    // it where it tells that the message is written, or why the tag doesn't take it
    ensures asked { AsksOfWrite3 id message.now (T.seen link.old) (T.seen link.new) result }
    ensures ready { T.ready link.new }
    ensures same { T.lenders link.new ≡ T.lenders link.old }
    ensures moves { T.moves link.old link.new }
{
    write_message(alloc, link, id, message)
}
