//! Type 2 tags whose memory C keeps.

ghost use Rattle.std.specs.Prelude.{◌≡◌, ◌<◌, ◌≤◌, length};
ghost use Rattle.t2t_tag.specs.Store.{block_count, locked_too};
ghost use Rattle.zevlodek_c.specs.Tags.{T2Steps, locked_from};

use crate::codes::{BAD_ARGUMENT, DONE, NO_MEMORY, SILENT};
use crate::showing::{Told, show};
use nfc_base::{Frame, Tech};
use std::alloc::Global;
use t2t_tag::T2Tag;

/// Locks each block whose byte isn't 0.
fn lock_all(tag: &mut T2Tag, locks: &[u8])
    requires blocks { length locks.now ≤ block_count tag.old.store }
    requires few { length locks.now < 65536 }
    ensures { tag.new ≡ locked_from locked_too tag.old 0 locks.now }
{
    for (block, byte) in locks.iter().enumerate() {
        if *byte != 0 {
            tag.lock(block as u16);
        }
    }
}

/// One step of a Type 2 tag: `DONE` where its answer stands in `out`, `SILENT` where it gives none.
#[tactic(auto, using(crate::proofs::Locked::held_store))]
#[unsafe(no_mangle)]
pub extern "C" fn zev_t2_tag(
    alloc: Global,
    memory: &mut [u8],
    locks: &[u8],
    command: &[u8],
    bits: u8,
    out: &mut [u8],
    told: &mut Told,
) -> i32
    ensures { T2Steps memory.old locks.now command.now bits out.old told.old
        (record { kept = memory.new; seen = record { answer = result; out = out.new; told = told.new } }) }
{
    let Ok(frame) = Frame::part(Tech::A, command, bits) else {
        return BAD_ARGUMENT;
    };
    let Ok(store) = Vec::from_slice(alloc, memory) else {
        return NO_MEMORY;
    };
    let Ok(mut tag) = T2Tag::new(store) else {
        return BAD_ARGUMENT;
    };
    if locks.len() != tag.blocks() as usize {
        return BAD_ARGUMENT;
    }
    lock_all(&mut tag, locks);
    let Some(answer) = tag.obey(&frame) else {
        return SILENT;
    };
    if answer.view().len() <= out.len() {
        memory.copy_from_slice(tag.store());
    }
    told.bits = answer.tail();
    show(DONE, answer.view(), out, told)
}
