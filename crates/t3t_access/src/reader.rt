//! The reading of a tag.

ghost use Rattle.std.specs.Prelude.{◌≡◌, ◌+◌, ◌*◌, ◌<◌, ◌≤◌, length, take, drop, OnOk, IfOk, IfErr, Err};
ghost use Rattle.nfc_base.specs.TagLinks.{LinkView};
ghost use Rattle.t3t_tag.specs.Form.{IsSized};
ghost use Rattle.t3t_tag.specs.Attributes.{message_length, write_flag};
ghost use Rattle.t3t_access.specs.Talk.{IsOf};
ghost use Rattle.t3t_access.specs.Own.{AsksOf3, Reads3};
ghost use Rattle.t3t_access.specs.Reading.{needed, Reads, ReadTold, StartTold, AttributesTold, BlocksTold, judged};
ghost use Rattle.t3t_access.specs.Reading.{judged_as};

use crate::asking::check;
use crate::attributes::{judge, message_length};
use crate::fault::T3Fault;
use crate::found::Found3;
use arrayvec::ArrayVec;
use nfc_base::TagLink;
use std::alloc::{AllocError, Global};

/// How many bytes a block has.
const BLOCK: usize = 16;

/// How many blocks one Check names at most.
const MOST_AT_ONCE: u8 = 15;

/// Where the attribute block says how many blocks one Check may name, whether a write has begun and not ended, and
/// whether a message may be written.
const MOST_CHECKED: usize = 1;

const WRITE_FLAG: usize = 9;

const ACCESS_FLAG: usize = 10;

/// Content that is an attribute block, where it has no fault.
fn judge_content(told: Result<ArrayVec<u8, 240>, T3Fault>) -> Result<ArrayVec<u8, 240>, T3Fault>
    requires { IfOk told (λ x. length x.items ≡ 16) }
    ensures faults { IfErr told (λ e. result ≡ Err e) }
    ensures judged { IfOk told (λ x. result ≡ judged_as x (judged x.items)) }
{
    match told {
        Err(fault) => Err(fault),
        Ok(content) => match judge(&content) {
            Err(fault) => Err(fault),
            Ok(()) => Ok(content),
        },
    }
}

/// The attribute block of the tag, where it has no fault.
pub(crate) fn read_attributes<T: TagLink>(
    alloc: Global,
    link: &mut T,
    id: [u8; 8],
) -> Result<ArrayVec<u8, 240>, T3Fault>
    requires ready { T.ready link.old }
    requires of { IsOf id (T.seen link.old) }
    ensures told { AttributesTold id (T.seen link.old) (T.seen link.new) result }
    ensures start { IfErr result (StartTold id (T.seen link.old) (T.seen link.new)) }
    ensures size { IfOk result (λ x. length x.items ≡ 16) }
    ensures of { IsOf id (T.seen link.new) }
    ensures ready { T.ready link.new }
    ensures same { T.lenders link.new ≡ T.lenders link.old }
    ensures moves { T.moves link.old link.new }
{
    let told = check(alloc, link, id, 0, 1);
    judge_content(told)
}

/// How many blocks have a message byte.
fn needed(block: &[u8]) -> u16
    requires size { length block.now ≡ 16 }
    requires sized { IsSized block.now }
    ensures needed { result ≡ needed block.now }
    ensures few { result ≤ 255 }
{
    ((message_length(block) + 15) / 16) as u16
}

/// Reads the blocks that have a message byte, behind the attribute block.
fn read_blocks<T: TagLink>(
    alloc: Global,
    link: &mut T,
    id: [u8; 8],
    block: &[u8],
    known: &mut Vec<u8>,
) -> Result<(), T3Fault>
    requires ready { T.ready link.old }
    requires of { IsOf id (T.seen link.old) }
    requires size { length block.now ≡ 16 }
    requires sized { IsSized block.now }
    requires flag { write_flag block.now ≡ 0 }
    requires begun { known.old.items ≡ block.now }
    ensures told { (a : LinkView) → Reads id a (T.seen link.old) block.now 1 known.old.items →
        BlocksTold id a (T.seen link.new) block.now known.new.items result }
    ensures head { OnOk result (take 16 known.new.items ≡ block.now) }
    ensures long { OnOk result (length known.new.items ≡ 16 + 16 * needed block.now) }
    ensures of { IsOf id (T.seen link.new) }
    ensures ready { T.ready link.new }
    ensures same { T.lenders link.new ≡ T.lenders link.old }
    ensures moves { T.moves link.old link.new }
{
    let needed = needed(block);
    let most = block[MOST_CHECKED].min(MOST_AT_ONCE);
    let mut taken: u16 = 0;
    while taken < needed {
        let count = (most as u16).min(needed - taken);
        match check(alloc, link, id, (1 + taken) as u8, count as u8) {
            Err(fault) => return Err(fault),
            Ok(content) => {
                if known.extend_from_slice(&content).is_err() {
                    return Err(T3Fault::Memory);
                }
            }
        }
        taken += count;
    }
    Ok(())
}

/// The message, of the bytes that are known.
fn message_in(alloc: Global, block: &[u8], known: &[u8]) -> Result<Vec<u8>, AllocError>
    requires size { length block.now ≡ 16 }
    requires long { length known.now ≡ 16 + 16 * needed block.now }
    ensures { IfOk result (λ m. m.items ≡ take (message_length block.now) (drop 16 known.now)) }
{
    let (_, blocks) = known.split_at(BLOCK);
    blocks[..message_length(block) as usize].to_vec(alloc)
}

fn read_message<T: TagLink>(alloc: Global, link: &mut T, id: [u8; 8]) -> Result<Found3, T3Fault>
    requires ready { T.ready link.old }
    requires of { IsOf id (T.seen link.old) }
    ensures told { ReadTold id (T.seen link.old) (T.seen link.new) result }
    ensures ready { T.ready link.new }
    ensures same { T.lenders link.new ≡ T.lenders link.old }
    ensures moves { T.moves link.old link.new }
{
    let block = match read_attributes(alloc, link, id) {
        Err(fault) => return Err(fault),
        Ok(block) => block,
    };
    if block[WRITE_FLAG] != 0 {
        return Err(T3Fault::Unfinished);
    }
    let Ok(mut known) = block.to_vec(alloc) else {
        return Err(T3Fault::Memory);
    };
    match read_blocks(alloc, link, id, &block, &mut known) {
        Err(fault) => Err(fault),
        Ok(()) => match message_in(alloc, &block, &known) {
            Err(_) => Err(T3Fault::Memory),
            Ok(message) => Ok(Found3 {
                message,
                writable: block[ACCESS_FLAG] == 1,
            }),
        },
    }
}

/// Reads the message of the Type 3 tag with this identifier behind a link (NFC Forum Type 3 Tag). It writes nothing.
pub fn read3<T: TagLink>(alloc: Global, link: &mut T, id: [u8; 8]) -> Result<Found3, T3Fault>
    requires ready { T.ready link.old }
    // it leads to a Type 3 tag with that identifier
    requires of { IsOf id (T.seen link.old) }
    // whatever the tag does: what it tells stands in the tag's answers, and each fault in them, or in the link
    ensures told { ReadTold id (T.seen link.old) (T.seen link.new) result }
    // where the tag keeps to its table: its store stays, in each image, the message is the one that it holds, each
    // fault has its cause, and where all passes, or each wait is answered, the link is none
    ensures law { Reads3 id (T.seen link.old) (T.seen link.new) result }
    // and what was answered is the first of the one list that is asked of such a store, all of it where it tells what
    // is there
    ensures asked { AsksOf3 id (T.seen link.old) (T.seen link.new) result }
    ensures ready { T.ready link.new }
    ensures same { T.lenders link.new ≡ T.lenders link.old }
    ensures moves { T.moves link.old link.new }
{
    read_message(alloc, link, id)
}
