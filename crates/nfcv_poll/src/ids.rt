//! The tags that were recorded.

ghost use Rattle.std.specs.Prelude.{◌≡◌, ◌<◌, ◌+◌, ◌^◌, [], Err, OnOk, OnErr, IfSome};
ghost use Rattle.nfca_poll.specs.declared.fault.PollFault.TheVariants.{Memory};
ghost use Rattle.t5t_tag.specs.Slots.{id_number};
ghost use Rattle.nfcv_poll.specs.Search.{with_id, below, id_at};

use nfca_poll::PollFault;
use std::alloc::Global;
use std::marker::Model;

/// Identifiers, ascending, each once.
#[derive(Debug, Drop)]
pub struct Ids {
    ids: Vec<[u8; 8]>,
}

impl Model for Ids {
    ghost use Rattle.std.specs.Prelude.{List, ℕ};

    ghost Value = { List (List ℕ) };

    ghost view = { λ i. i.ids.items };
}

/// An identifier, high byte first, as a number.
fn number(id: [u8; 8]) -> u64
    ensures { result ≡ id_number id }
{
    u64::from_be_bytes(id)
}

impl Ids {
    pub fn new(alloc: Global) -> Ids
        ensures { result ≡ [] }
    {
        Ids {
            ids: Vec::new(alloc),
        }
    }

    /// The identifier at a place, counted from 0.
    #[tactic(auto, using(crate::proofs::Recorded::id_at_past, crate::proofs::Recorded::id_at_there))]
    pub fn get(&self, at: usize) -> Option<[u8; 8]>
        ensures id { result ≡ id_at self.now at }
        ensures bound { IfSome result (λ _. at + 1 < 2 ^ 64) }
    {
        if at >= self.ids.len() {
            return None;
        }
        Some(self.ids[at])
    }

    /// How many of them are below an identifier.
    #[tactic(auto, using(crate::proofs::Recorded::below_step, crate::proofs::Recorded::below_stop))]
    fn below(&self, id: [u8; 8]) -> usize
        ensures { result ≡ below self.now id }
    {
        let mut count = 0;
        for known in &self.ids {
            if number(*known) >= number(id) {
                return count;
            }
            count += 1;
        }
        count
    }

    /// Takes in an identifier, unless it is there.
    #[tactic(auto, using(crate::proofs::Recorded::with_known, crate::proofs::Recorded::with_new, crate::proofs::Recorded::below_fits))]
    pub fn add(&mut self, id: [u8; 8]) -> Result<(), PollFault>
        ensures ok { OnOk result (self.new ≡ with_id self.old id) }
        ensures err { OnErr result (result ≡ Err Memory) }
    {
        let at = self.below(id);
        if let Some(known) = self.get(at) {
            if number(known) == number(id) {
                return Ok(());
            }
        }
        match self.ids.insert(at, id) {
            Ok(()) => Ok(()),
            Err(_) => Err(PollFault::Memory),
        }
    }

    pub fn into_vec(self) -> Vec<[u8; 8]>
        ensures { result.items ≡ self }
    {
        let Ids { ids } = self;
        ids
    }
}
