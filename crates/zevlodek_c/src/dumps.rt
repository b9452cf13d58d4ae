//! Memories of tags that were read out whole.

ghost use Rattle.std.specs.Prelude.{◌≡◌, ◌≤◌, Bool, List, ℕ, length, IfOk};
ghost use Rattle.tlv_area.specs.Form.{IsForm, NeedsMore};
ghost use Rattle.tlv_area.specs.Layout.{IsArea};
ghost use Rattle.tlv_area.specs.Stores.{cut, t5_reach};
ghost use Rattle.zevlodek_c.specs.Dumps.{IsBlockSize, IsFormTold, IsWalkTold, MessageTold, RoomTold, T2Told, T5Tells};
ghost use Rattle.zevlodek_c.specs.Dumps.{file_told, t2_area_told, t5_area_told};

use crate::codes::{BAD_ARGUMENT, DONE, ENDS_EARLY, NO_MEMORY, tag_fault};
use crate::showing::{Told, show};
use std::alloc::Global;
use tag_reader::ReadFault;
use tlv_area::{
    Space, T5Container, Walk, capacity, container_t2, container_t4, container_t5, copy_message,
    find_message,
};

/// Tells the message of an area.
fn tell_area(alloc: Global, space: &Space, memory: &[u8], out: &mut [u8], told: &mut Told) -> i32
    requires { IsArea space.now }
    ensures { IsFormTold (IsForm space.now memory.now) (NeedsMore space.now memory.now) out.old told.old
        (record { answer = result; out = out.new; told = told.new }) }
{
    match find_message(space, memory) {
        Walk::Held { map } => match copy_message(alloc, &map, memory) {
            Ok(message) => {
                told.writable = space.writable as u8;
                show(DONE, message.as_slice(), out, told)
            }
            Err(_) => NO_MEMORY,
        },
        Walk::NoMessageTlv => tag_fault(ReadFault::NoMessageTlv.number()),
        Walk::BadTlv => tag_fault(ReadFault::BadTlv.number()),
        Walk::More => ENDS_EARLY,
    }
}

/// Tells the message of a Type 2 tag's memory, from its first byte on.
#[unsafe(no_mangle)]
pub extern "C" fn zev_t2_message(
    alloc: Global,
    memory: &[u8],
    out: &mut [u8],
    told: &mut Told,
) -> i32
    ensures { T2Told memory.now out.old told.old (record { answer = result; out = out.new; told = told.new }) }
{
    if memory.len() < 16 {
        return ENDS_EARLY;
    }
    match container_t2(&[memory[12], memory[13], memory[14], memory[15]]) {
        Ok(space) => tell_area(alloc, &space, memory, out, told),
        Err(fault) => tag_fault(fault.number()),
    }
}

/// The area of a Type 2 tag's memory, or what is told.
fn area_t2(memory: &[u8]) -> Result<Space, i32>
    ensures area { result ≡ t2_area_told memory.now }
    ensures begins { IfOk result (λ s. IsArea s × (s.start ≤ length memory.now)) }
{
    if memory.len() < 16 {
        return Err(ENDS_EARLY);
    }
    match container_t2(&[memory[12], memory[13], memory[14], memory[15]]) {
        Ok(space) => Ok(space),
        Err(fault) => Err(tag_fault(fault.number())),
    }
}

/// An area as far as the numbers of blocks of so many bytes reach.
fn reach(space: Space, wide: bool, size: u32) -> Space
    requires { size ≤ 256 }
    ensures { (many : Bool) → result ≡ t5_reach size (record { space = space; wide = wide; many = many }) }
{
    let named = if wide { 65536 } else { 256 };
    let end = space.end.min(named * size);
    Space { end, ..space }
}

/// The area of a Type 5 tag's memory, or what is told.
fn area_t5(size: u32, memory: &[u8]) -> Result<Space, i32>
    requires { IsBlockSize size }
    ensures area { result ≡ t5_area_told size memory.now }
    ensures begins { IfOk result (λ s. IsArea s × (s.start ≤ length memory.now)) }
{
    match container_t5(memory) {
        Ok(
            T5Container::Ready {
                space,
                wide,
                many: _,
            },
        ) => Ok(reach(space, wide, size)),
        Ok(T5Container::More) => Err(ENDS_EARLY),
        Err(fault) => Err(tag_fault(fault.number())),
    }
}

/// Tells how long the message of an area is and how long one may be, where the tag ends with its memory.
fn tell_room(space: &Space, memory: &[u8], told: &mut Told) -> i32
    requires area { IsArea space.now }
    requires begins { space.now.start ≤ length memory.now }
    ensures { (out : List ℕ) → IsWalkTold (cut space.now (length memory.now)) memory.now out told.old
        (record { answer = result; out = out; told = told.new }) }
{
    let end = (space.end as usize).min(memory.len()) as u32;
    let cut = Space { end, ..*space };
    match find_message(&cut, memory) {
        Walk::Held { map } => {
            told.length = map.length as usize;
            told.capacity = capacity(&map);
            told.writable = map.space.writable as u8;
            DONE
        }
        Walk::NoMessageTlv => tag_fault(ReadFault::NoMessageTlv.number()),
        Walk::BadTlv => tag_fault(ReadFault::BadTlv.number()),
        Walk::More => unreachable!(),
    }
}

/// Tells how long the message of a Type 2 tag is and how long one may be, by its whole memory.
#[unsafe(no_mangle)]
pub extern "C" fn zev_t2_find(memory: &[u8], told: &mut Told) -> i32
    ensures { (out : List ℕ) → RoomTold (t2_area_told memory.now) memory.now out told.old
        (record { answer = result; out = out; told = told.new }) }
{
    match area_t2(memory) {
        Ok(space) => tell_room(&space, memory, told),
        Err(answer) => answer,
    }
}

/// Tells how long the message of a Type 5 tag is and how long one may be, by its whole memory.
#[unsafe(no_mangle)]
pub extern "C" fn zev_t5_find(size: u32, memory: &[u8], told: &mut Told) -> i32
    ensures { (out : List ℕ) → T5Tells size (RoomTold (t5_area_told size memory.now) memory.now out told.old)
        out told.old (record { answer = result; out = out; told = told.new }) }
{
    if size == 0 || size > 256 {
        return BAD_ARGUMENT;
    }
    match area_t5(size, memory) {
        Ok(space) => tell_room(&space, memory, told),
        Err(answer) => answer,
    }
}

/// Tells the message of a Type 5 tag's memory, from its first byte on.
#[unsafe(no_mangle)]
pub extern "C" fn zev_t5_message(
    alloc: Global,
    size: u32,
    memory: &[u8],
    out: &mut [u8],
    told: &mut Told,
) -> i32
    ensures { T5Tells size (MessageTold (t5_area_told size memory.now) memory.now out.old told.old)
        out.old told.old (record { answer = result; out = out.new; told = told.new }) }
{
    if size == 0 || size > 256 {
        return BAD_ARGUMENT;
    }
    match area_t5(size, memory) {
        Ok(space) => tell_area(alloc, &space, memory, out, told),
        Err(answer) => answer,
    }
}

/// The NDEF file of a Type 4 tag, as its capability container names it.
#[repr(C)]
pub struct T4File {
    pub id: u16,
    /// How many bytes it has, two of them for the length of its message.
    pub size: u16,
    /// How many bytes one command may read, and how many one may write.
    pub mle: u16,
    pub mlc: u16,
    /// Whether writing is free: 0 or 1.
    pub writable: u8,
}

/// Tells the file that the capability container of a Type 4 tag names, by its first 15 bytes.
#[unsafe(no_mangle)]
pub extern "C" fn zev_t4_container(container: &[u8], file: &mut T4File) -> i32
    ensures { record { answer = result; file = file.new } ≡ file_told container.now file.old }
{
    let Some((first, _)) = container.split_first_chunk::<15>() else {
        return ENDS_EARLY;
    };
    match container_t4(first) {
        Ok(map) => {
            file.id = map.id;
            file.size = map.size;
            file.mle = map.mle;
            file.mlc = map.mlc;
            file.writable = map.writable as u8;
            DONE
        }
        Err(fault) => tag_fault(fault.number()),
    }
}
