//! What a survey gives.

use nfc_base::Items;
use tlv_area::{AreaMap, FileMap};

/// What a writer knows of a tag: of an area of TLVs (NFC Forum Type 2 Tag and Type 5 Tag) the bytes of the store from
/// the first one to the area's end or the tag's, how many bytes a block has, and the map of the message, whose area
/// ends there too; or the file, and how many bytes its message has (NFC Forum Type 4 Tag).
#[derive(Debug, Drop)]
pub enum Ground {
    Area {
        known: Items<u8>,
        block: u32,
        map: AreaMap,
    },
    File {
        map: FileMap,
        length: u16,
    },
}
