//! The store that has a message in the place of another.

ghost use Rattle.std.specs.Prelude.{◌≡◌, ◌<◌, ◌≤◌, ◌++◌, length, nat_lt, take, slice_index, IfOk, OnOk};
ghost use Rattle.tlv_area.specs.Layout.{free, length_bytes};
ghost use Rattle.tlv_area.specs.Map.{in_ranges, IsOrdered, IsPlaced};
ghost use Rattle.tlv_area.specs.Tail.{map_tail, end_mark, written};
ghost use Rattle.tlv_area.specs.Writing.{IsPut};

use crate::ahead::{LONG_MARK, TERMINATOR};
use crate::ranges::{past, run_before};
use crate::room::LONGEST_SHORT;
use crate::space::AreaMap;
use std::alloc::{AllocError, Global};

/// Adds the bytes of a length, in the shortest form.
fn push_length(bytes: &mut Vec<u8>, length: usize) -> Result<(), AllocError>
    requires { length < 65535 }
    ensures { OnOk result (bytes.new.items ≡ bytes.old.items ++ length_bytes (nat_lt 254 length) length) }
{
    if length <= LONGEST_SHORT as usize {
        bytes.push(length as u8)?;
        return Ok(());
    }
    bytes.push(LONG_MARK)?;
    bytes.push((length / 256) as u8)?;
    bytes.push((length % 256) as u8)?;
    Ok(())
}

/// Adds a terminator where a byte is left.
fn push_terminator(bytes: &mut Vec<u8>, room: u32) -> Result<(), AllocError>
    ensures { OnOk result (bytes.new.items ≡ bytes.old.items ++ end_mark room bytes.old.items) }
{
    if bytes.len() < room as usize {
        bytes.push(TERMINATOR)?;
    }
    Ok(())
}

/// What a message has written from the second byte of its TLV on, where so many addresses are free.
pub fn new_bytes(alloc: Global, message: &[u8], room: u32) -> Result<Vec<u8>, AllocError>
    requires { length message.now < 65535 }
    ensures { IfOk result (λ v. v.items ≡ written room message.now) }
{
    let mut bytes = Vec::new(alloc);
    push_length(&mut bytes, message.len())?;
    bytes.extend_from_slice(message)?;
    push_terminator(&mut bytes, room)?;
    Ok(bytes)
}

/// The address from which on the free ones are those of the message's TLV from its second byte on.
pub fn tail_start(map: &AreaMap) -> u32
    requires { IsPlaced map.now }
    ensures tail { free (in_ranges map.now.reserved.items) result map.now.space.end ≡ map_tail map.now }
    ensures low { map.now.space.start ≤ result }
    ensures high { result ≤ map.now.space.end }
{
    let end = map.space.end;
    match past(map.reserved.as_slice(), map.space.start, end, map.tlv + 1) {
        Some(past) => past,
        None => end,
    }
}

/// The address just past the first `count` free ones of a tail, or the area's end where it hasn't that many.
pub fn span_end(map: &AreaMap, tail: u32, count: u32) -> u32
    requires ordered { IsOrdered map.now.reserved.items }
    requires order { tail ≤ map.now.space.end }
    ensures span { free (in_ranges map.now.reserved.items) tail result
        ≡ take count (free (in_ranges map.now.reserved.items) tail map.now.space.end) }
    ensures low { tail ≤ result }
    ensures high { result ≤ map.now.space.end }
{
    match past(map.reserved.as_slice(), tail, map.space.end, count) {
        Some(past) => past,
        None => map.space.end,
    }
}

/// The address of the length's first byte, which is the first free one of the tail.
pub fn length_place(map: &AreaMap, tail: u32) -> u32
    requires placed { IsPlaced map.now }
    requires low { map.now.space.start ≤ tail }
    requires order { tail ≤ map.now.space.end }
    requires tail { free (in_ranges map.now.reserved.items) tail map.now.space.end ≡ map_tail map.now }
    ensures place { result ≡ slice_index (map_tail map.now) 0 }
    ensures low { map.now.space.start ≤ result }
    ensures high { result < map.now.space.end }
{
    match past(map.reserved.as_slice(), tail, map.space.end, 1) {
        Some(past) => past - 1,
        None => 0,
    }
}

/// Writes bytes at the free addresses between two, a run at a time.
fn put(memory: &mut [u8], reserved: &[(u32, u32)], from: u32, to: u32, bytes: &[u8])
    requires ordered { IsOrdered reserved.now }
    requires order { from ≤ to }
    requires within { to ≤ length memory.old }
    requires fits { length bytes.now ≡ length (free (in_ranges reserved.now) from to) }
    ensures { IsPut (free (in_ranges reserved.now) from to) memory.old memory.new bytes.now }
{
    let mut at = from;
    let mut left = bytes;
    for range in reserved {
        let run = run_before(range, at, to);
        let (row, later) = left.split_at((run.to - at) as usize);
        memory[at as usize..run.to as usize].copy_from_slice(row);
        left = later;
        at = run.next;
    }
    memory[at as usize..to as usize].copy_from_slice(left);
}

/// The store with bytes written at the free addresses between two.
pub fn new_store(
    alloc: Global,
    map: &AreaMap,
    store: &[u8],
    from: u32,
    to: u32,
    bytes: &[u8],
) -> Result<Vec<u8>, AllocError>
    requires ordered { IsOrdered map.now.reserved.items }
    requires order { from ≤ to }
    requires within { to ≤ length store.now }
    requires fits { length bytes.now ≡ length (free (in_ranges map.now.reserved.items) from to) }
    ensures { IfOk result (λ v. IsPut (free (in_ranges map.now.reserved.items) from to) store.now v.items bytes.now) }
{
    let mut new = Vec::from_slice(alloc, store)?;
    put(new.as_mut_slice(), map.reserved.as_slice(), from, to, bytes);
    Ok(new)
}
