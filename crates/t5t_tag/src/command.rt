//! What a reader asks of a Type 5 tag.

ghost use Rattle.std.specs.Prelude.{◌≡◌, ◌↔◌, ◌≤◌, ◌∷◌, ◌++◌, length, take, Some, IsNone};
ghost use Rattle.nfc_base.specs.Signal.{whole_v};
ghost use Rattle.t5t_tag.specs.Mask.{mask_size};
ghost use Rattle.t5t_tag.specs.Spelling.{head, inventory_code, command_frame, IsT5Command, T5Spelling};
ghost use Rattle.t5t_tag.specs.Reading.{filled, is_mask, read_inventory, read_slots, read_write, read_write_wide};
ghost use Rattle.t5t_tag.specs.Reading.{read_command, read_addressed, command_of, spelled_command};
ghost use Rattle.t5t_tag.specs.declared.command.T5Command.{T5Command};

use crate::identifier::{MOST_BITS, MOST_SLOT_BITS, kept, mask_size, turned};
use arrayvec::ArrayVec;
use nfc_base::{Frame, Tech};

/// The flags of a command to one tag by its identifier, of one to every tag that isn't quiet, and of an inventory of
/// one slot or of sixteen.
pub(crate) const ADDRESSED: u8 = 0x22;

pub(crate) const PLAIN: u8 = 0x02;

pub(crate) const ONE_SLOT: u8 = 0x26;

pub(crate) const SIXTEEN_SLOTS: u8 = 0x06;

pub(crate) const INVENTORY: u8 = 0x01;

pub(crate) const QUIET: u8 = 0x02;

pub(crate) const READ: u8 = 0x20;

pub(crate) const WRITE: u8 = 0x21;

pub(crate) const READ_MANY: u8 = 0x23;

pub(crate) const READ_WIDE: u8 = 0x30;

pub(crate) const WRITE_WIDE: u8 = 0x31;

/// How many blocks numbers of one byte can name: READ SINGLE BLOCK and WRITE SINGLE BLOCK name each further one by two.
pub const SHORT_NUMBERS: u16 = 256;

/// A command (NFC Forum Type 5 Tag; ISO/IEC 15693-3). Identifiers have their high byte first; a command with one is
/// addressed to that tag alone.
#[derive(Clone, Debug, Drop, PartialEq, Eq)]
pub enum T5Command {
    /// Which tags are there whose identifier ends with these lowest bits? The mask has its low byte first, and its
    /// unused bits are 0.
    Inventory {
        mask_bits: u8,
        mask: [u8; 8],
    },
    /// The same, and each tag answers in one of sixteen slots, by the next four bits of its identifier: in the first
    /// one at once. A mask has at most 60 bits.
    Slots {
        mask_bits: u8,
        mask: [u8; 8],
    },
    /// The next slot of such a round: an empty frame (this project's own; on the air it is a bare end of frame).
    NextSlot,
    /// The tag answers only addressed commands from now on.
    Quiet {
        id: [u8; 8],
    },
    Read {
        id: Option<[u8; 8]>,
        block: u8,
    },
    Write {
        id: Option<[u8; 8]>,
        block: u8,
        content: ArrayVec<u8, 32>,
    },
    /// Reads the first block and as many more.
    ReadMany {
        id: Option<[u8; 8]>,
        first: u8,
        more: u8,
    },
    /// Reads a block, also one whose number doesn't fit a byte. The number is sent low byte first (this project's own).
    ReadWide {
        id: Option<[u8; 8]>,
        block: u16,
    },
    /// Writes a block, its number sent as that of `ReadWide`.
    WriteWide {
        id: Option<[u8; 8]>,
        block: u16,
        content: ArrayVec<u8, 32>,
    },
}

impl T5Command {
    /// The command that a frame spells. It takes no memory.
    pub fn read_from(frame: &Frame) -> Option<T5Command>
        ensures exact { (c : T5Command) → ((result ≡ Some c) ↔ T5Spelling c frame.now) }
        ensures none { IsNone result ↔ ((c : T5Command) → ¬ T5Spelling c frame.now) }
        ensures reads { result ≡ spelled_command frame.now }
    {
        if frame.tech() != Tech::V || frame.tail() != 0 {
            return None;
        }
        read_bytes(frame.view())
    }

    /// The frame that spells it, where a mask has at most 64 bits, or 60 of slots, and its unused bits are 0. It takes
    /// no memory.
    pub fn to_frame(&self) -> Frame
        ensures frame { result ≡ command_frame self.now }
        ensures exact { IsT5Command self.now → T5Spelling self.now result }
    {
        match self {
            T5Command::Inventory { mask_bits, mask } => {
                inventory_frame(ONE_SLOT, *mask_bits, *mask)
            }
            T5Command::Slots { mask_bits, mask } => {
                inventory_frame(SIXTEEN_SLOTS, *mask_bits, *mask)
            }
            T5Command::NextSlot => Frame::whole(Tech::V, &[]).unwrap(),
            T5Command::Quiet { id } => frame_of(Some(*id), QUIET, &[]),
            T5Command::Read { id, block } => frame_of(*id, READ, &[*block]),
            T5Command::Write { id, block, content } => {
                let mut bytes: ArrayVec<u8, 33> = ArrayVec::new();
                bytes.push(*block);
                bytes.try_extend_from_slice(content).unwrap();
                frame_of(*id, WRITE, &bytes)
            }
            T5Command::ReadMany { id, first, more } => frame_of(*id, READ_MANY, &[*first, *more]),
            T5Command::ReadWide { id, block } => frame_of(*id, READ_WIDE, &block.to_le_bytes()),
            T5Command::WriteWide { id, block, content } => {
                let mut bytes: ArrayVec<u8, 34> = ArrayVec::new();
                bytes.try_extend_from_slice(&block.to_le_bytes()).unwrap();
                bytes.try_extend_from_slice(content).unwrap();
                frame_of(*id, WRITE_WIDE, &bytes)
            }
        }
    }
}

/// The command of the bytes of a whole NFC-V frame.
fn read_bytes(bytes: &[u8]) -> Option<T5Command>
    ensures { result ≡ command_of bytes.now }
{
    match bytes {
        [] => Some(T5Command::NextSlot),
        [ADDRESSED, code, rest @ ..] => read_addressed(*code, rest),
        [PLAIN, code, rest @ ..] => read_command(None, *code, rest),
        [ONE_SLOT, INVENTORY, bits, mask @ ..] => read_inventory(*bits, mask),
        [SIXTEEN_SLOTS, INVENTORY, bits, mask @ ..] => read_slots(*bits, mask),
        _ => None,
    }
}

fn read_addressed(code: u8, rest: &[u8]) -> Option<T5Command>
    ensures { result ≡ read_addressed code rest.now }
{
    let (id, rest) = rest.split_first_chunk::<8>()?;
    read_command(Some(turned(*id)), code, rest)
}

/// The command with this code, and this behind it or behind the identifier.
fn read_command(id: Option<[u8; 8]>, code: u8, rest: &[u8]) -> Option<T5Command>
    ensures { result ≡ read_command id code rest.now }
{
    match (code, rest) {
        (QUIET, []) => Some(T5Command::Quiet { id: id? }),
        (READ, [block]) => Some(T5Command::Read { id, block: *block }),
        (WRITE, [block, content @ ..]) => read_write(id, *block, content),
        (WRITE_WIDE, [low, high, content @ ..]) => read_write_wide(
            id,
            u16::from_le_bytes([*low, *high]),
            content,
        ),
        (READ_MANY, [first, more]) => Some(T5Command::ReadMany {
            id,
            first: *first,
            more: *more,
        }),
        (READ_WIDE, [low, high]) => Some(T5Command::ReadWide {
            id,
            block: u16::from_le_bytes([*low, *high]),
        }),
        _ => None,
    }
}

fn read_write(id: Option<[u8; 8]>, block: u8, rest: &[u8]) -> Option<T5Command>
    ensures { result ≡ read_write id block rest.now }
{
    let mut content = ArrayVec::new();
    content.try_extend_from_slice(rest).ok()?;
    Some(T5Command::Write { id, block, content })
}

fn read_write_wide(id: Option<[u8; 8]>, block: u16, rest: &[u8]) -> Option<T5Command>
    ensures { result ≡ read_write_wide id block rest.now }
{
    let mut content = ArrayVec::new();
    content.try_extend_from_slice(rest).ok()?;
    Some(T5Command::WriteWide { id, block, content })
}

fn read_inventory(bits: u8, mask: &[u8]) -> Option<T5Command>
    ensures { result ≡ read_inventory bits mask.now }
{
    if !is_mask(MOST_BITS, bits, mask) {
        return None;
    }
    Some(T5Command::Inventory {
        mask_bits: bits,
        mask: filled(mask),
    })
}

fn read_slots(bits: u8, mask: &[u8]) -> Option<T5Command>
    ensures { result ≡ read_slots bits mask.now }
{
    if !is_mask(MOST_SLOT_BITS, bits, mask) {
        return None;
    }
    Some(T5Command::Slots {
        mask_bits: bits,
        mask: filled(mask),
    })
}

/// Whether these are the bytes of a mask of so many bits, and at most of so many.
fn is_mask(most: u8, bits: u8, mask: &[u8]) -> bool
    requires { most ≤ 64 }
    ensures { result ≡ is_mask most bits mask.now }
{
    if bits > most || mask.len() != mask_size(bits) {
        return false;
    }
    kept(bits, mask).as_slice() == mask
}

/// A mask filled up with 0 to eight bytes.
fn filled(mask: &[u8]) -> [u8; 8]
    requires { length mask.now ≤ 8 }
    ensures { result ≡ filled mask.now }
{
    let mut bytes = [0; 8];
    bytes[..mask.len()].copy_from_slice(mask);
    bytes
}

fn inventory_frame(flags: u8, bits: u8, mask: [u8; 8]) -> Frame
    ensures { result ≡ whole_v (flags ∷ inventory_code ∷ bits ∷ take (mask_size bits) mask) }
{
    let mut bytes: ArrayVec<u8, 11> = ArrayVec::new();
    bytes.push(flags);
    bytes.push(INVENTORY);
    bytes.push(bits);
    let size = mask_size(bits).min(8);
    bytes.try_extend_from_slice(&mask[..size]).unwrap();
    Frame::whole(Tech::V, &bytes).unwrap()
}

/// The frame of a command with this code, and this behind it or behind the identifier.
fn frame_of(id: Option<[u8; 8]>, code: u8, rest: &[u8]) -> Frame
    requires { length rest.now ≤ 34 }
    ensures { result ≡ whole_v (head id code ++ rest.now) }
{
    let mut bytes: ArrayVec<u8, 44> = ArrayVec::new();
    match id {
        None => bytes.try_extend_from_slice(&[PLAIN, code]).unwrap(),
        Some(id) => {
            bytes.try_extend_from_slice(&[ADDRESSED, code]).unwrap();
            bytes.try_extend_from_slice(&turned(id)).unwrap();
        }
    }
    bytes.try_extend_from_slice(rest).unwrap();
    Frame::whole(Tech::V, &bytes).unwrap()
}
