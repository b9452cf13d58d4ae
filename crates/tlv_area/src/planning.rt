//! The plan of a message: which blocks are written for it, in which order.

ghost use Rattle.std.specs.Prelude.{◌≡◌, ◌+◌, ◌*◌, ◌^◌, ◌<◌, ◌≤◌, ◌↔◌, ◌&&◌, ◌==◌, ◌++◌, List, ℕ, not, length};
ghost use Rattle.std.specs.Prelude.{map as list_map, IfOk, OnOk, IsErrOf};
ghost use Rattle.tlv_area.specs.declared.planning.PlanFault.{PlanFault};
ghost use Rattle.tlv_area.specs.declared.planning.PlanFault.TheVariants.{TooLong, Memory};
ghost use Rattle.tlv_area.specs.Layout.{free};
ghost use Rattle.tlv_area.specs.Map.{in_ranges, IsOrdered, IsPlaced};
ghost use Rattle.tlv_area.specs.Tail.{map_room, capacity_of};
ghost use Rattle.tlv_area.specs.Writing.{HasBlocks, blocks_below, touches, blocks_changed, write_of, block_in};
ghost use Rattle.tlv_area.specs.Writing.{GivesPlan, KeepsPlan, KeepsKinds, plan_fault_number};

use crate::ranges::{count_free, past};
use crate::room::capacity;
use crate::space::AreaMap;
use crate::step::{Plan, Step, block_bytes, closed_block, step_to};
use crate::writing::{length_place, new_bytes, new_store, span_end, tail_start};
use nfc_base::Items;
use std::alloc::{AllocError, Global};
use thiserror::Error;

/// Why there is no plan of a message. The numbers are this project's own.
#[derive(Clone, Copy, Debug, PartialEq, Eq, Error)]
pub enum PlanFault {
    #[error("the message is longer than its place")]
    TooLong = 1,
    #[error("out of memory")]
    Memory = 2,
}

impl PlanFault {
    /// Its number in reports and tests.
    pub fn number(&self) -> u8
        ensures { result ≡ plan_fault_number self.now }
    {
        *self as u8
    }
}

impl From<AllocError> for PlanFault {
    ghost from_gives = { λ _ e. e ≡ Memory };

    fn from(_error: AllocError) -> PlanFault {
        PlanFault::Memory
    }
}

/// Whether a block has a free address from `from` on to before `to`.
fn is_touched(reserved: &[(u32, u32)], from: u32, to: u32, block: u32, size: u32) -> bool
    requires ordered { IsOrdered reserved.now }
    requires some { 0 < size }
    requires order { from ≤ to }
    requires fits { block * size + size < 2 ^ 32 }
    ensures { result ≡ touches size (free (in_ranges reserved.now) from to) block }
{
    let first = from.max(block * size);
    let behind = to.min(block * size + size);
    if behind < first {
        return false;
    }
    past(reserved, first, behind, 1).is_some()
}

/// The same of a block other than `home`.
fn is_filled(reserved: &[(u32, u32)], from: u32, to: u32, home: u32, block: u32, size: u32) -> bool
    requires ordered { IsOrdered reserved.now }
    requires some { 0 < size }
    requires order { from ≤ to }
    requires fits { block * size + size < 2 ^ 32 }
    ensures { result ≡ (not (block == home) && touches size (free (in_ranges reserved.now) from to) block) }
{
    block != home && is_touched(reserved, from, to, block, size)
}

/// The steps of `fill`: each block but `home` that has a free address from `from` on to before `to`, where its content
/// in the new store is another than in the old one.
fn fill_steps(
    alloc: Global,
    map: &AreaMap,
    old: &[u8],
    new: &[u8],
    from: u32,
    to: u32,
    home: u32,
    size: u32,
) -> Result<Vec<Step>, AllocError>
    requires ordered { IsOrdered map.now.reserved.items }
    requires order { from ≤ to }
    requires some { 0 < size }
    requires small { size ≤ 32 }
    requires end { map.now.space.end ≤ 65536 * size }
    requires within { size * blocks_below size map.now.space.end ≤ length old.now }
    requires same { length new.now ≡ length old.now }
    ensures { IfOk result (λ v. list_map write_of v.items
        ≡ list_map (λ k. block_in size new.now k)
        (blocks_changed size (free (in_ranges map.now.reserved.items) from to)
        home old.now new.now (blocks_below size map.now.space.end))) }
{
    let count = (map.space.end as u64 + size as u64 - 1) / size as u64;
    let mut fill = Vec::new(alloc);
    for block in 0..count as u32 {
        if is_filled(map.reserved.as_slice(), from, to, home, block, size) {
            let now = block_bytes(old, block, size);
            if let Some(step) = step_to(block, now, block_bytes(new, block, size)) {
                fill.push(step)?;
            }
        }
    }
    Ok(fill)
}

/// The plan. The store has each block of the area whole.
fn plan_steps(
    alloc: Global,
    map: &AreaMap,
    store: &[u8],
    block: u32,
    message: &[u8],
) -> Result<Plan, PlanFault>
    requires placed { IsPlaced map.now }
    requires some { 0 < block }
    requires small { block ≤ 32 }
    requires end { map.now.space.end ≤ 65536 * block }
    requires within { block * blocks_below block map.now.space.end ≤ length store.now }
    ensures plan { IfOk result (λ p. GivesPlan block map.now store.now message.now p) }
    ensures fits { OnOk result (length message.now ≤ capacity_of (map_room map.now)) }
    ensures too_long { IsErrOf result TooLong ↔ (capacity_of (map_room map.now) < length message.now) }
{
    if message.len() > capacity(map) as usize {
        return Err(PlanFault::TooLong);
    }
    let tail = tail_start(map);
    let room = count_free(map.reserved.as_slice(), tail, map.space.end);
    let owned = new_bytes(alloc, message, room)?;
    let bytes = owned.as_slice();
    let to = span_end(map, tail, bytes.len() as u32);
    let new = new_store(alloc, map, store, tail, to, bytes)?;
    let new = new.as_slice();
    let place = length_place(map, tail);
    let home = place / block;
    let closed = closed_block(store, place, block);
    let fill = fill_steps(alloc, map, store, new, tail, to, home, block)?;
    Ok(Plan {
        close: step_to(home, block_bytes(store, home, block), closed.as_slice()),
        fill: Items::new(fill),
        last: step_to(home, closed.as_slice(), block_bytes(new, home, block)),
    })
}

/// Plans the blocks that are written to put a message in the place of the one that is there. A block that has its
/// content isn't written. A block has 4, 8, 16 or 32 bytes.
pub fn plan(
    alloc: Global,
    map: &AreaMap,
    store: &[u8],
    block: u32,
    message: &[u8],
) -> Result<Plan, PlanFault>
    requires placed { IsPlaced map.now }
    requires some { 0 < block }
    requires small { block ≤ 32 }
    requires end { map.now.space.end ≤ 65536 * block }
    requires within { HasBlocks block map.now.space store.now }
    ensures plan { IfOk result (λ p. GivesPlan block map.now store.now message.now p) }
    // of a store with this map: close and each step of fill, made or left out, leave the empty message, last the new
    // one; all else stays, and no step writes what its block has
    ensures keeps { IfOk result (λ p. KeepsPlan block map.now store.now message.now p) }
    // both of each memory that begins with the store
    ensures front { (more : List ℕ) → IfOk result (λ p. GivesPlan block map.now (store.now ++ more) message.now p
        × KeepsPlan block map.now (store.now ++ more) message.now p) }
    // and where it is a tag's whole store with this area, those messages are the tag's
    ensures form { (more : List ℕ) → IfOk result (λ p. KeepsKinds block map.now (store.now ++ more) message.now p) }
    ensures too_long { IsErrOf result TooLong ↔ (capacity_of (map_room map.now) < length message.now) }
{
    plan_steps(alloc, map, store, block, message)
}
