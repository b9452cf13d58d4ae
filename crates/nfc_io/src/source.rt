//! Where bytes come from.
ghost use Rattle.std.specs.Prelude.{◌≡◌, ℕ, ◌<◌, ◌≤◌, List, [], length, take, Option, IfSome, OnOk, OnErr, IfOk};
ghost use Rattle.nfc_io.specs.Counts.{HasRisen};
ghost use Rattle.nfc_io.specs.Moves.{with_front};

use crate::failed::Failed;

/// Bytes in order, until they end.
pub trait Source {
    /// The bytes left, where it tells them.
    ghost left: { Self → Option (List ℕ) };

    /// How many calls failed. It rises at a fault alone.
    ghost faults: { Self → ℕ };

    /// Reads the next bytes into the front of `buf`, and says how many. In a buffer that isn't empty, 0 is the end.
    fn read(&mut self, buf: &mut [u8]) -> Result<usize, Failed>
        ensures bound { IfOk result (λ n. n ≤ length buf.old) }
        ensures ok { IfOk result (λ n. left self.old ≡ with_front (take n buf.new) (left self.new)) }
        ensures end { IfOk result (λ n. n ≡ 0 → 0 < length buf.old → IfSome (left self.old) (λ bytes. bytes ≡ [])) }
        ensures still { OnOk result (faults self.new ≡ faults self.old) }

        ensures cause { OnErr result (HasRisen (faults self.old) (faults self.new)) }
        ensures same { OnErr result (left self.new ≡ left self.old) }
        ensures count { faults self.old ≤ faults self.new };
}
