//! The masks whose rounds are still to be made.

ghost use Rattle.std.specs.Prelude.{◌≡◌, ◌∷◌, ◌++◌, [], reverse, length, nat_eq, Err, OnOk, OnErr};
ghost use Rattle.nfcv_poll.specs.Search.{next_mask, behind_first};
ghost use Rattle.nfca_poll.specs.declared.fault.PollFault.TheVariants.{Memory};

use crate::mask::Mask;
use nfca_poll::PollFault;
use std::alloc::Global;
use std::marker::Model;

/// Masks, one upon the other.
#[derive(Debug, Drop)]
pub struct Masks {
    masks: Vec<Mask>,
}

impl Model for Masks {
    ghost use Rattle.std.specs.Prelude.{List, reverse};
    ghost use Rattle.nfcv_poll.specs.declared.mask.Mask.{Mask};

    ghost Value = { List Mask };

    ghost view = { λ m. reverse m.masks.items };
}

impl Masks {
    pub fn new(alloc: Global) -> Masks
        ensures { result ≡ [] }
    {
        Masks {
            masks: Vec::new(alloc),
        }
    }

    pub fn is_empty(&self) -> bool
        ensures { result ≡ nat_eq (length self.now) 0 }
    {
        self.masks.is_empty()
    }

    /// Puts a mask upon the others.
    pub fn push(&mut self, mask: Mask) -> Result<(), PollFault>
        ensures ok { OnOk result (self.new ≡ mask ∷ self.old) }
        ensures err { OnErr result (result ≡ Err Memory) }
    {
        match self.masks.push(mask) {
            Ok(()) => Ok(()),
            Err(_) => Err(PollFault::Memory),
        }
    }

    /// Takes the mask that is upon the others.
    pub fn pop(&mut self) -> Option<Mask>
        ensures first { result ≡ next_mask self.old }
        ensures rest { self.new ≡ behind_first self.old }
    {
        self.masks.pop()
    }

    /// Takes all masks of another pile, so that its lowest is upon the others.
    pub fn take_all(&mut self, other: &mut Masks) -> Result<(), PollFault>
        ensures ok { OnOk result ((self.new ≡ reverse other.old ++ self.old) × (other.new ≡ [])) }
        ensures err { OnErr result (result ≡ Err Memory) }
    {
        'moved: while let Some(mask) = other.pop() {
            self.push(mask)?;
        }
        Ok(())
    }
}
