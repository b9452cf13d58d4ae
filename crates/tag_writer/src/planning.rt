//! The plan of a message, for a tag that takes it.

ghost use Rattle.std.specs.Prelude.{◌≡◌, ℕ, List, ◌<◌, Ok, IfOk, IfErr};
ghost use Rattle.tlv_area.specs.declared.walk.Walk.TheVariants as walks;
ghost use Rattle.tlv_area.specs.Containers.{t4_container};
ghost use Rattle.tlv_area.specs.Map.{IsWalk};
ghost use Rattle.tag_reader.specs.declared.how.How.TheVariants as hows;
ghost use Rattle.tag_reader.specs.Kinds.{IsStore};
ghost use Rattle.tag_reader.specs.declared.ground.Ground.TheVariants as grounds;
ghost use Rattle.tag_reader.specs.Survey.{IsPlacedArea, IsKnownArea, IsKnownFile};
ghost use Rattle.tag_writer.specs.Planning.{IsLow, IsPlannedFor, IsDeclined};
ghost use Rattle.tag_writer.specs.WriteTold.{IsWorkOn, IsDeclinedOn};

use crate::fault::WriteFault;
use crate::phase::Prepared;
use crate::work::Work;
use nfc_base::Items;
use std::alloc::Global;
use t4t_tag::{MOST_PER_COMMAND, NLEN_SIZE};
use tag_reader::How;
use tlv_area::{AreaMap, FileMap, PlanFault, capacity, plan};

/// The most bytes that a block has (ISO/IEC 15693-3).
const LONGEST_BLOCK: u32 = 32;

/// Plans the writes of a message to an area of which this is known.
pub fn plan_area(
    alloc: Global,
    how: How,
    known: &[u8],
    block: u32,
    map: &AreaMap,
    message: &[u8],
) -> Result<Prepared, WriteFault>
    requires placed { IsPlacedArea known.now block map.now }
    requires seen { IsWalk map.now.space known.now (walks.Held map.now) }
    requires low { IsLow how known.now block }
    // whatever the tag does
    ensures on { IfOk result (λ p. IsWorkOn how (grounds.Area known.now block map.now) message.now p.work) }
    ensures declined { IfErr result (IsDeclinedOn (grounds.Area known.now block map.now) message.now) }
    ensures ok { (size : ℕ) (store : List ℕ) → IsStore how size store →
        IsKnownArea how size store known.now block map.now →
        IfOk result (λ p. IsPlannedFor how size store message.now p.work) }
    ensures err { (size : ℕ) (store : List ℕ) → IsStore how size store →
        IsKnownArea how size store known.now block map.now →
        IfErr result (IsDeclined how size store message.now) }
{
    if block > LONGEST_BLOCK {
        return Err(WriteFault::Protocol);
    }
    if !map.space.writable {
        return Err(WriteFault::ReadOnly);
    }
    let room = capacity(map);
    if message.len() > room as usize {
        return Err(WriteFault::TooLong(room));
    }
    match plan(alloc, map, known, block, message) {
        Ok(plan) => Ok(Prepared {
            work: Work::Blocks { how, plan },
        }),
        Err(PlanFault::TooLong) => unreachable!(),
        Err(PlanFault::Memory) => Err(WriteFault::Memory),
    }
}

/// Plans the updates of a file of which this is known. The message is copied, since the phases take no memory.
pub fn plan_file(
    alloc: Global,
    map: FileMap,
    length: u16,
    message: &[u8],
) -> Result<Prepared, WriteFault>
    requires named { (head : List ℕ) × (t4_container head ≡ Ok map) }
    // whatever the tag does
    ensures on { IfOk result (λ p. IsWorkOn hows.T4 (grounds.File map length) message.now p.work) }
    ensures declined { IfErr result (IsDeclinedOn (grounds.File map length) message.now) }
    ensures ok { (size : ℕ) (store : List ℕ) → IsStore hows.T4 size store → IsKnownFile hows.T4 store map length →
        IfOk result (λ p. IsPlannedFor hows.T4 size store message.now p.work) }
    ensures err { (size : ℕ) (store : List ℕ) → IsStore hows.T4 size store → IsKnownFile hows.T4 store map length →
        IfErr result (IsDeclined hows.T4 size store message.now) }
{
    if !map.writable {
        return Err(WriteFault::ReadOnly);
    }
    let room = map.size.saturating_sub(NLEN_SIZE);
    if message.len() > usize::from(room) {
        return Err(WriteFault::TooLong(u32::from(room)));
    }
    if map.mlc < NLEN_SIZE {
        return Err(WriteFault::ShortMlc);
    }
    match Items::from_bytes(alloc, message) {
        Ok(message) => Ok(Prepared {
            work: Work::File {
                message,
                most: map.mlc.min(MOST_PER_COMMAND),
                close: length > 0,
            },
        }),
        Err(_) => Err(WriteFault::Memory),
    }
}
