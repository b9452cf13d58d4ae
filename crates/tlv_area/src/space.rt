//! The area of a tag, by byte addresses.

use arrayvec::ArrayVec;

/// The area of a tag that has one: the addresses from `start` to before `end`, whether lock and memory control TLVs
/// count (NFC Forum Type 2 Tag), and whether writing is free.
#[derive(Clone, Copy, Debug, PartialEq, Eq)]
pub struct Space {
    pub start: u32,
    pub end: u32,
    pub control: bool,
    pub writable: bool,
}

/// Where the message of an area lies: the reserved addresses, each range from its first to before its second number;
/// the place of the NDEF TLV's type byte among the area's addresses that aren't reserved; whether its length is
/// written in three bytes; and that length.
#[derive(Debug, Drop)]
pub struct AreaMap {
    pub space: Space,
    pub reserved: ArrayVec<(u32, u32), 202>,
    pub tlv: u32,
    pub long: bool,
    pub length: u32,
}
