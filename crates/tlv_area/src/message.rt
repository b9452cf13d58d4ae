//! The places of a message's bytes, and the message.

ghost use Rattle.std.specs.Prelude.{◌≡◌, ◌<◌, ◌≤◌, ◌++◌, slice_index, length, drop, if◌then◌else◌, IfOk, OnOk};
ghost use Rattle.tlv_area.specs.Layout.{free, bytes_at};
ghost use Rattle.tlv_area.specs.Map.{in_ranges, IsOrdered, IsPlaced, IsPlacedIn, map_cells, message_cells};
ghost use Rattle.tlv_area.specs.Map.{message_place, header_size};

use crate::ranges::{past, run_before};
use crate::space::AreaMap;
use std::alloc::{AllocError, Global};

/// How many bytes stand before the message's first: a type, and a length in one byte or three.
fn header_size(long: bool) -> u32
    ensures value { result ≡ header_size long }
    ensures bound { result ≤ 4 }
{
    if long { 4 } else { 2 }
}

/// The address of a byte of the message. It takes no memory, and no longer for a later byte; but it goes over the
/// ranges anew for each: `copy_message` gives all of the bytes at once.
pub fn message_byte(map: &AreaMap, index: u32) -> u32
    requires placed { IsPlaced map.now }
    requires index { index < map.now.length }
    ensures place { result ≡ slice_index (message_cells map.now) index }
    ensures low { map.now.space.start ≤ result }
    ensures high { result < map.now.space.end }
{
    let end = map.space.end;
    let count = map.tlv + header_size(map.long) + index + 1;
    match past(map.reserved.as_slice(), map.space.start, end, count) {
        Some(past) => past - 1,
        None => 0,
    }
}

/// The address just past the message's header.
fn value_start(map: &AreaMap) -> u32
    requires { IsPlaced map.now }
    ensures cells { free (in_ranges map.now.reserved.items) result map.now.space.end
        ≡ drop (message_place map.now) (map_cells map.now) }
    ensures high { result ≤ map.now.space.end }
{
    let end = map.space.end;
    let count = map.tlv + header_size(map.long);
    match past(map.reserved.as_slice(), map.space.start, end, count) {
        Some(past) => past,
        None => end,
    }
}

/// Adds the bytes at the free addresses between two.
fn push_runs(
    message: &mut Vec<u8>,
    known: &[u8],
    reserved: &[(u32, u32)],
    from: u32,
    to: u32,
) -> Result<(), AllocError>
    requires ordered { IsOrdered reserved.now }
    requires order { from ≤ to }
    requires known { to ≤ length known.now }
    ensures { OnOk result (message.new.items
        ≡ message.old.items ++ bytes_at known.now (free (in_ranges reserved.now) from to)) }
{
    let mut at = from;
    // a run at a time: each byte of the message is copied once, and no range is looked at for it
    for range in reserved {
        let run = run_before(range, at, to);
        message.extend_from_slice(&known[at as usize..run.to as usize])?;
        at = run.next;
    }
    message.extend_from_slice(&known[at as usize..to as usize])
}

/// The message: the bytes at a map's places, in order. It goes over the ranges once.
pub fn copy_message(alloc: Global, map: &AreaMap, known: &[u8]) -> Result<Vec<u8>, AllocError>
    requires placed { IsPlacedIn known.now map.now }
    ensures bytes { IfOk result (λ v. v.items ≡ bytes_at known.now (message_cells map.now)) }
{
    let mut message = Vec::with_capacity(alloc, map.length as usize)?;
    if map.length == 0 {
        return Ok(message);
    }
    let reserved = map.reserved.as_slice();
    let from = value_start(map);
    match past(reserved, from, map.space.end, map.length) {
        Some(to) => push_runs(&mut message, known, reserved, from, to)?,
        None => unreachable!(),
    }
    Ok(message)
}
