//! One TLV: its type, its length, and where its value lies.

ghost use Rattle.std.specs.Prelude.{◌≤◌, length};
ghost use Rattle.tlv_area.specs.Map.{in_ranges, IsOrdered};
ghost use Rattle.tlv_area.specs.Reading.{IsAhead, IsLengthAhead, IsValueAhead};

use crate::ranges::past;

/// The TLV of one byte that stands for none.
const NULL: u8 = 0x00;

/// The TLV that ends an area.
pub const TERMINATOR: u8 = 0xFE;

/// The first byte of a length that has three.
pub const LONG_MARK: u8 = 0xFF;

/// Two bytes behind it that are no length.
const NO_LENGTH: u32 = 0xFFFF;

/// A TLV that was read, its value between two addresses. Of a value of three bytes, as control TLVs have them, `first`
/// and `second` are just past the first and the second byte.
#[derive(Clone, Copy)]
pub struct Found {
    pub kind: u8,
    pub long: bool,
    pub from: u32,
    pub length: u32,
    pub past: u32,
    pub first: u32,
    pub second: u32,
}

/// What stands next: nothing more, a fault, a byte that isn't known, or a TLV.
#[derive(Clone, Copy)]
pub enum Ahead {
    End,
    Fault,
    Unknown,
    Item(Found),
}

/// What a length leads to: a fault, a byte that isn't known, or a value of `size` bytes from `from` on.
#[derive(Clone, Copy)]
pub enum LengthAhead {
    Fault,
    Unknown,
    Value { long: bool, size: u32, from: u32 },
}

/// How many bytes the value of a control TLV has that reserves a range.
pub const CONTROL_SIZE: u32 = 3;

/// A value of three bytes from `from` on.
fn three_ahead(
    reserved: &[(u32, u32)],
    end: u32,
    known: &[u8],
    kind: u8,
    long: bool,
    from: u32,
) -> Ahead
    requires ranges { IsOrdered reserved.now }
    requires below { from ≤ end }
    requires front { from ≤ length known.now }
    ensures { IsValueAhead (in_ranges reserved.now) known.now from end kind long 3 result }
{
    let Some(first) = past(reserved, from, end, 1) else {
        return Ahead::Fault;
    };
    let Some(second) = past(reserved, first, end, 1) else {
        return Ahead::Fault;
    };
    let Some(third) = past(reserved, second, end, 1) else {
        return Ahead::Fault;
    };
    if third as usize > known.len() {
        return Ahead::Unknown;
    }
    Ahead::Item(Found {
        kind,
        long,
        from,
        length: CONTROL_SIZE,
        past: third,
        first,
        second,
    })
}

/// The value of a TLV, of `size` bytes from `from` on.
fn value_ahead(
    reserved: &[(u32, u32)],
    end: u32,
    known: &[u8],
    kind: u8,
    long: bool,
    from: u32,
    size: u32,
) -> Ahead
    requires ranges { IsOrdered reserved.now }
    requires below { from ≤ end }
    requires front { from ≤ length known.now }
    ensures { IsValueAhead (in_ranges reserved.now) known.now from end kind long size result }
{
    if size == CONTROL_SIZE {
        return three_ahead(reserved, end, known, kind, long, from);
    }
    match past(reserved, from, end, size) {
        None => Ahead::Fault,
        Some(past) => {
            if past as usize <= known.len() {
                Ahead::Item(Found {
                    kind,
                    long,
                    from,
                    length: size,
                    past,
                    first: from,
                    second: from,
                })
            } else {
                Ahead::Unknown
            }
        }
    }
}

/// Where the length that stands from `at` on leads.
fn length_ahead(reserved: &[(u32, u32)], at: u32, end: u32, known: &[u8]) -> LengthAhead
    requires ranges { IsOrdered reserved.now }
    requires below { at ≤ end }
    ensures { IsLengthAhead (in_ranges reserved.now) known.now at end result }
{
    let Some(first_past) = past(reserved, at, end, 1) else {
        return LengthAhead::Fault;
    };
    if first_past as usize > known.len() {
        return LengthAhead::Unknown;
    }
    let first = known[first_past as usize - 1];
    if first != LONG_MARK {
        return LengthAhead::Value {
            long: false,
            size: first as u32,
            from: first_past,
        };
    }
    let Some(high_past) = past(reserved, first_past, end, 1) else {
        return LengthAhead::Fault;
    };
    let Some(low_past) = past(reserved, high_past, end, 1) else {
        return LengthAhead::Fault;
    };
    if low_past as usize > known.len() {
        return LengthAhead::Unknown;
    }
    let high = known[high_past as usize - 1];
    let low = known[low_past as usize - 1];
    let size = high as u32 * 256 + low as u32;
    if size == NO_LENGTH {
        return LengthAhead::Fault;
    }
    LengthAhead::Value {
        long: true,
        size,
        from: low_past,
    }
}

/// What stands next from `at` on.
pub fn look_ahead(reserved: &[(u32, u32)], at: u32, end: u32, known: &[u8]) -> Ahead
    requires ranges { IsOrdered reserved.now }
    requires below { at ≤ end }
    ensures { IsAhead (in_ranges reserved.now) known.now at end result }
{
    let Some(kind_past) = past(reserved, at, end, 1) else {
        return Ahead::End;
    };
    if kind_past as usize > known.len() {
        return Ahead::Unknown;
    }
    let kind = known[kind_past as usize - 1];
    if kind == TERMINATOR {
        return Ahead::End;
    }
    if kind == NULL {
        return Ahead::Item(Found {
            kind,
            long: false,
            from: kind_past,
            length: 0,
            past: kind_past,
            first: kind_past,
            second: kind_past,
        });
    }
    match length_ahead(reserved, kind_past, end, known) {
        LengthAhead::Fault => Ahead::Fault,
        LengthAhead::Unknown => Ahead::Unknown,
        LengthAhead::Value { long, size, from } => {
            value_ahead(reserved, end, known, kind, long, from, size)
        }
    }
}
