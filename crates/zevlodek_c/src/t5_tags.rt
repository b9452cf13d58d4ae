//! Type 5 tags whose memory C keeps.

ghost use Rattle.std.specs.Prelude.{◌≡◌, ◌<◌, ◌≤◌, length, IfErr, IfOk};
ghost use Rattle.t5t_tag.specs.Store.{block_count};
ghost use Rattle.zevlodek_c.specs.Tags.{locked_from};
ghost use Rattle.t5t_tag.specs.Store.{locked_too};
ghost use Rattle.zevlodek_c.specs.T4Tags.{NoTag};
ghost use Rattle.zevlodek_c.specs.T5Tags.{IsT5Asked, T5Steps, round_of, t5_held, t5_standing_of};

use crate::codes::{BAD_ARGUMENT, DONE, NO_MEMORY, SILENT};
use crate::showing::{Told, show};
use nfc_base::{Frame, Tech};
use std::alloc::Global;
use t5t_tag::{Round, T5Tag};

/// The largest block.
const MOST_BLOCK: u32 = 32;

/// Where a Type 5 tag stands between two frames: all numbers are 0 as it comes into the field.
#[derive(Clone, Copy)]
#[repr(C)]
pub struct T5Standing {
    /// Whether it was told to stay quiet: 0 where it wasn't.
    pub quiet: u8,
    /// Whether it is in a round of sixteen slots: 0 where it isn't.
    pub in_round: u8,
    /// In a round, the slot in which it answers.
    pub slot: u8,
    /// In a round, the slot in which the round stands.
    pub current: u8,
}

/// Locks each block whose byte isn't 0.
fn lock_all(tag: &mut T5Tag, locks: &[u8])
    requires blocks { length locks.now ≤ block_count tag.old }
    requires few { length locks.now < 65536 }
    ensures { tag.new ≡ locked_from locked_too tag.old 0 locks.now }
{
    for (block, byte) in locks.iter().enumerate() {
        if *byte != 0 {
            tag.lock(block as u16);
        }
    }
}

fn round_of(standing: &T5Standing) -> Option<Round>
    ensures { result ≡ round_of standing.now }
{
    if standing.in_round == 0 {
        return None;
    }
    Some(Round::at(standing.slot, standing.current))
}

fn standing_of(tag: &T5Tag) -> T5Standing
    ensures { result ≡ t5_standing_of tag.now }
{
    let quiet = tag.is_quiet() as u8;
    match tag.round() {
        None => T5Standing {
            quiet,
            in_round: 0,
            slot: 0,
            current: 0,
        },
        Some(round) => T5Standing {
            quiet,
            in_round: 1,
            slot: round.slot(),
            current: round.current(),
        },
    }
}

/// The tag that this memory, these locks and this standing make, or the answer to who hands in what makes none.
fn tag_of(
    alloc: Global,
    id: [u8; 8],
    size: u32,
    memory: &[u8],
    locks: &[u8],
    standing: &T5Standing,
) -> Result<T5Tag, i32>
    ensures ok { IfOk result (λ t. IsT5Asked size memory.now locks.now
        × (t ≡ t5_held id size memory.now locks.now standing.now)) }
    ensures err { IfErr result (NoTag (IsT5Asked size memory.now locks.now)) }
{
    if size > MOST_BLOCK {
        return Err(BAD_ARGUMENT);
    }
    let Ok(store) = Vec::from_slice(alloc, memory) else {
        return Err(NO_MEMORY);
    };
    let Ok(mut tag) = T5Tag::new(id, store, size as u8) else {
        return Err(BAD_ARGUMENT);
    };
    if locks.len() != tag.blocks() as usize {
        return Err(BAD_ARGUMENT);
    }
    lock_all(&mut tag, locks);
    tag.resume(standing.quiet != 0, round_of(standing));
    Ok(tag)
}

/// One step of a Type 5 tag: `DONE` where its answer stands in `out`, `SILENT` where it gives none.
#[tactic(auto, using(crate::proofs::Stepping::same_size))]
#[unsafe(no_mangle)]
pub extern "C" fn zev_t5_tag(
    alloc: Global,
    id: &[u8; 8],
    block_size: u32,
    memory: &mut [u8],
    locks: &[u8],
    standing: &mut T5Standing,
    command: &[u8],
    out: &mut [u8],
    told: &mut Told,
) -> i32
    ensures { T5Steps id.now block_size memory.old locks.now standing.old command.now out.old told.old
        (record {
          kept = record { memory = memory.new; standing = standing.new };
          seen = record { answer = result; out = out.new; told = told.new };
        }) }
{
    let Ok(frame) = Frame::whole(Tech::V, command) else {
        return BAD_ARGUMENT;
    };
    let mut tag = match tag_of(alloc, *id, block_size, memory, locks, standing) {
        Ok(tag) => tag,
        Err(answer) => return answer,
    };
    let Some(answer) = tag.obey(&frame) else {
        memory.copy_from_slice(tag.store());
        *standing = standing_of(&tag);
        return SILENT;
    };
    told.bits = answer.tail();
    if answer.view().len() > out.len() {
        return show(DONE, answer.view(), out, told);
    }
    memory.copy_from_slice(tag.store());
    *standing = standing_of(&tag);
    show(DONE, answer.view(), out, told)
}
