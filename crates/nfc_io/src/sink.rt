//! Where bytes go.
ghost use Rattle.std.specs.Prelude.{◌≡◌, ℕ, ◌<◌, ◌≤◌, List, length, take, Option, OnErr, OnOk, IfOk};
ghost use Rattle.nfc_io.specs.Counts.{HasRisen};
ghost use Rattle.nfc_io.specs.Moves.{with_end, GainsFront};

use crate::failed::Failed;

/// Takes bytes in order.
pub trait Sink {
    /// The bytes taken, where it tells them.
    ghost taken: { Self → Option (List ℕ) };

    /// How many calls failed. It rises at a fault alone.
    ghost faults: { Self → ℕ };

    /// Takes the first of the bytes, and says how many. Of no bytes it takes 0.
    fn write(&mut self, bytes: &[u8]) -> Result<usize, Failed>
        ensures bound { IfOk result (λ n. n ≤ length bytes.now) }
        ensures some { IfOk result (λ n. 0 < length bytes.now → 0 < n) }
        ensures ok { IfOk result (λ n. taken self.new ≡ with_end (taken self.old) (take n bytes.now)) }
        ensures still { OnOk result (faults self.new ≡ faults self.old) }

        ensures cause { OnErr result (HasRisen (faults self.old) (faults self.new)) }
        ensures same { OnErr result (taken self.new ≡ taken self.old) }
        ensures count { faults self.old ≤ faults self.new };
}

/// Writes all the bytes, by as many writes as it needs. A fault ends it, after some of them.
#[tactic(auto, using(crate::proofs::Moves::moves))]
pub fn write_all<K: Sink>(sink: &mut K, bytes: &[u8]) -> Result<(), Failed>
    ensures ok { OnOk result (K.taken sink.new ≡ with_end (K.taken sink.old) bytes.now) }
    ensures still { OnOk result (K.faults sink.new ≡ K.faults sink.old) }
    ensures err { OnErr result (GainsFront (K.taken sink.old) (K.taken sink.new) bytes.now) }
    ensures cause { OnErr result (HasRisen (K.faults sink.old) (K.faults sink.new)) }
    ensures count { K.faults sink.old ≤ K.faults sink.new }
{
    let mut at = 0;
    'pieces: while at < bytes.len() {
        at += sink.write(bytes.split_at(at).1)?;
    }
    Ok(())
}
