//! The locked blocks of a tag.

ghost use Rattle.std.specs.Prelude.{◌≡◌, ◌*◌, ◌<◌, get_or, replicate, set, length, true, false};

use std::marker::Model;

/// Of each block number whether that block is locked, eight to a byte. It takes no memory.
#[derive(Debug, Drop)]
pub struct Locks<const BYTES: usize> {
    table: [u8; BYTES],
}

impl<const BYTES: usize> Model for Locks<BYTES> {
    ghost use Rattle.std.specs.Prelude.{List, Bool};
    ghost use Rattle.nfc_base.specs.Bits.{bits_of};

    ghost Value = { List Bool };

    ghost view = { λ l. bits_of l.table };
}

impl<const BYTES: usize> Locks<BYTES> {
    /// No block is locked.
    pub fn none() -> Locks<BYTES>
        ensures { result ≡ replicate (8 * BYTES) false }
    {
        Locks { table: [0; BYTES] }
    }

    pub fn has(&self, block: u16) -> bool
        requires { block < 8 * BYTES }
        ensures { result ≡ get_or self.now block false }
    {
        self.table[block as usize / 8] >> (block % 8) & 1 == 1
    }

    /// This block is locked too.
    pub fn add(&mut self, block: u16)
        requires { block < 8 * BYTES }
        ensures { self.new ≡ set self.old block true }
    {
        self.table[block as usize / 8] |= 1 << (block % 8);
    }
}
