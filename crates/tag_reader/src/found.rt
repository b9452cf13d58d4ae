//! What a reading gives.

use nfc_base::Items;
use tlv_area::{AreaMap, FileMap};

/// Where a tag's message lies: in an area of TLVs (NFC Forum Type 2 Tag and Type 5 Tag), or in a file (NFC Forum Type 4
/// Tag).
#[derive(Debug, Drop)]
pub enum Site {
    Area(AreaMap),
    File(FileMap),
}

/// The message of a tag, byte by byte, where it lies, and whether writing is free.
#[derive(Debug, Drop)]
pub struct Found {
    pub message: Items<u8>,
    pub site: Site,
    pub writable: bool,
}
