//! The range that a lock or memory control TLV reserves (NFC Forum Type 2 Tag).

ghost use Rattle.std.specs.Prelude.{◌≡◌, ℕ, ◌+◌, ◌<◌, ◌≤◌, ◌^◌, ◌&&◌, ◌||◌, ◌⊎◌, not, nat_lt, nat_le, length, take};
ghost use Rattle.std.specs.Prelude.{true, [], ◌∷◌, IfSome};
ghost use Rattle.std.specs.List.{All};
ghost use Rattle.tlv_area.specs.Layout.{range_start, range_count, range_has};
ghost use Rattle.tlv_area.specs.Map.{in_ranges, IsOrdered};
ghost use Rattle.tlv_area.specs.Reading.{HasThree, IsRangeOf, Reserves, tlv_size};

use crate::ahead::{CONTROL_SIZE, Found};
use crate::space::Space;
use arrayvec::ArrayVec;

/// The types of control TLVs.
const LOCK_CONTROL: u8 = 0x01;

const MEMORY_CONTROL: u8 = 0x02;

/// How many addresses a control TLV's size byte names.
fn count_named(kind: u8, size: u8) -> u32
    ensures value { result ≡ range_count kind size }
    ensures bound { result ≤ 256 }
{
    let count = if size == 0 { 256 } else { size as u32 };
    if kind == LOCK_CONTROL {
        (count + 7) / 8
    } else {
        count
    }
}

/// The first address that a control TLV names.
fn start_named(place: u8, control: u8) -> u32
    ensures value { result ≡ range_start place control }
    ensures bound { result < 2 ^ 20 }
{
    let page = 1u32 << (control % 16);
    (place / 16) as u32 * page + (place % 16) as u32
}

/// The addresses that a control TLV reserves: from the first to before the second. None of them lies before `past`,
/// where the TLV itself ends.
fn range_named(kind: u8, place: u8, size: u8, control: u8, past: u32) -> (u32, u32)
    ensures addresses { (a : ℕ) → (nat_le result.0 a && nat_lt a result.1)
        ≡ (range_has kind (place ∷ size ∷ control ∷ []) a && not (nat_lt a past)) }
    ensures behind { past ≤ result.0 }
{
    let start = start_named(place, control);
    let end = start + count_named(kind, size);
    if start < past {
        (past, end)
    } else {
        (start, end)
    }
}

/// What a TLV reserves where lock and memory control count.
fn range_of(known: &[u8], found: &Found) -> Option<(u32, u32)>
    requires { found.now.length ≡ 3 → HasThree known.now found.now }
    ensures range { IsRangeOf known.now found.now result }
    ensures sized { IfSome result (λ _. (found.now.length ≡ 3) × (0 < found.now.kind)) }
    ensures behind { IfSome result (λ r. found.now.past ≤ r.0) }
{
    if found.length != CONTROL_SIZE || found.kind < LOCK_CONTROL || found.kind > MEMORY_CONTROL {
        return None;
    }
    let place = known[found.first as usize - 1];
    let size = known[found.second as usize - 1];
    let control = known[found.past as usize - 1];
    Some(range_named(found.kind, place, size, control, found.past))
}

/// How many bytes a TLV has with its type and its length.
pub fn size_of(found: &Found) -> u32
    requires { found.now.length ≤ 65535 }
    ensures value { result ≡ tlv_size found.now.kind found.now.long found.now.length }
    ensures bound { result ≤ 65539 }
{
    if found.kind == 0 {
        1
    } else if found.long {
        found.length + 4
    } else {
        found.length + 2
    }
}

/// Adds a range to others, behind those that begin where it does or before.
fn insert_range(reserved: &mut ArrayVec<(u32, u32), 202>, range: (u32, u32))
    requires ordered { IsOrdered reserved.old.items }
    requires room { length reserved.old.items < 202 }
    ensures ordered { IsOrdered reserved.new.items }
    ensures ranges { (a : ℕ) → in_ranges reserved.new.items a
        ≡ (in_ranges reserved.old.items a || (nat_le range.0 a && nat_lt a range.1)) }
    ensures front { (n : ℕ) → n ≤ length reserved.old.items →
        All (λ r. r.0 ≤ range.0) (take n reserved.old.items) →
        take n reserved.new.items ≡ take n reserved.old.items }
    ensures count { length reserved.new.items ≡ length reserved.old.items + 1 }
{
    let first = range.0;
    let place = reserved
        .as_slice()
        .partition_point(|earlier| earlier.0 <= first);
    reserved.insert(place, range);
}

/// Adds the range that a TLV reserves, if it does, and keeps the ranges in order.
pub fn reserve(reserved: &mut ArrayVec<(u32, u32), 202>, space: &Space, known: &[u8], found: &Found)
    requires three { found.now.length ≡ 3 → HasThree known.now found.now }
    requires ordered { IsOrdered reserved.old.items }
    requires room { space.now.control ≡ true → length reserved.old.items < 202 }
    ensures ordered { IsOrdered reserved.new.items }
    ensures front { (n : ℕ) → n ≤ length reserved.old.items →
        All (λ r. r.0 ≤ found.now.past) (take n reserved.old.items) →
        take n reserved.new.items ≡ take n reserved.old.items }
    ensures ranges { Reserves space.now.control known.now found.now
        (in_ranges reserved.old.items) (in_ranges reserved.new.items) }
    ensures count { (length reserved.new.items ≡ length reserved.old.items)
        ⊎ ((length reserved.new.items ≡ length reserved.old.items + 1)
        × (found.now.length ≡ 3) × (0 < found.now.kind)) }
{
    if !space.control {
        return;
    }
    if let Some(range) = range_of(known, found) {
        insert_range(reserved, range);
    }
}
