//! The lowest bits of identifiers, for which a round of slots asks.

ghost use Rattle.std.specs.Prelude.{◌≡◌};
ghost use Rattle.nfcv_poll.specs.Masks.{no_bits, extended, slots_frame};

use nfc_base::Frame;
use t5t_tag::T5Command;

/// How many bits a mask has at most, and how many slots a round has.
const MOST_BITS: u8 = 60;

const SLOTS: u8 = 16;

/// A mask: how many bits it has, a multiple of four, and the number that they are.
#[derive(Clone, Copy, Debug, PartialEq, Eq)]
pub struct Mask {
    pub bits: u8,
    pub value: u64,
}

impl Mask {
    /// The mask that asks for every tag.
    pub fn none() -> Mask
        ensures { result ≡ no_bits }
    {
        Mask { bits: 0, value: 0 }
    }

    /// The mask of the tags that answered in this slot; an identifier has no slot behind 60 bits.
    pub fn extended(&self, slot: u8) -> Option<Mask>
        ensures { result ≡ extended self.now slot }
    {
        if self.bits >= MOST_BITS || slot >= SLOTS {
            return None;
        }
        Some(Mask {
            bits: self.bits + 4,
            value: self.value.checked_add((slot as u64) << self.bits)?,
        })
    }

    /// The request that begins its round.
    pub fn request(&self) -> Frame
        ensures { result ≡ slots_frame self.now }
    {
        let command = T5Command::Slots {
            mask_bits: self.bits,
            mask: self.value.to_le_bytes(),
        };
        command.to_frame()
    }
}
