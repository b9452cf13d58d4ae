//! The link that carries payloads to a far end.

ghost use Rattle.std.specs.Prelude.{◌≡◌, ℕ, ◌≤◌, List, [], ◌∷◌, length, vec_len, IfOk, IfErr, Option, Some, None, Err};
ghost use Rattle.std.specs.Prelude.{false};
ghost use Rattle.std.specs.Borrow.{GName};
ghost use Rattle.nfc_base.specs.Links.{CarrierView, SwapDone, SwapFailed, SwapRefused, FarStep, Stepped, Swapped};
ghost use Rattle.nfc_base.specs.Links.{AskedBy, IsMemory};
ghost use Rattle.nfc_base.specs.Numbers.{end_cause_number};
ghost use Rattle.nfc_base.specs.declared.carrier.EndCause.{EndCause};

use crate::far::Answerer;
use std::alloc::Global;
use thiserror::Error;

/// Why a link is over.
#[derive(Clone, Copy, Debug, PartialEq, Eq, Error)]
pub enum EndCause {
    #[error("the field was lost")]
    FieldLost = 1,
    #[error("six bad receptions in one wait")]
    SixBad = 2,
    #[error("the other end sent a frame that is no allowed answer")]
    Protocol = 3,
    #[error("out of memory")]
    Memory = 4,
}

impl EndCause {
    /// Its number in reports and tests.
    pub fn number(&self) -> u8
        ensures { result ≡ end_cause_number self.now }
    {
        *self as u8
    }
}

/// A swap that failed: why, and whether the far end made its step all the same.
#[derive(Clone, Copy, Debug, PartialEq, Eq, Error)]
#[error("the link ended: {cause}")]
pub struct LinkEnd {
    pub cause: EndCause,
    pub answered: bool,
}

/// Carries payloads to a far end and brings its replies, each exactly once. After a failure the link is over, and
/// each later swap answers the same cause and sends nothing.
pub trait Carrier {
    /// What contracts see of the link.
    ghost seen: { Self → CarrierView };

    /// What it borrows.
    ghost lenders: { Self → List GName };

    /// What its swap needs of what it borrows; it stands again after each call, also after a fault.
    ghost ready: { Self → Type 0 };

    /// What one swap of a payload may do to what it borrows, in which the far end makes these steps.
    ghost swaps: { Self → List ℕ → List FarStep → Self → Type 0 };

    /// Hands `out`, of at most 2,178 bytes, to the far end, and gives its reply, which has at most as many.
    fn swap<A: Answerer>(
        &mut self,
        alloc: Global,
        out: &[u8],
        far: &mut A,
    ) -> Result<Vec<u8>, LinkEnd>
        requires ready { ready self.old }
        requires bound { length out.now ≤ 2178 }
        ensures ok { IfOk result (λ r. SwapDone A.steps (seen self.old)
            (seen self.new) out.now r.items far.old far.new) }
        ensures bound { IfOk result (λ r. vec_len r ≤ 2178) }
        ensures err { (seen self.old).over ≡ None
            → IfErr result (λ e. SwapFailed A.steps A.stops (seen self.old) (seen self.new) out.now e far.old far.new) }
        ensures ended { (c : EndCause) → (seen self.old).over ≡ Some c
            → SwapRefused (seen self.old) (seen self.new) c far.old far.new result × (self.new ≡ self.old) }
        // Where all transmissions pass, a payload is answered.
        ensures calm { (seen self.old).over ≡ None → (seen self.old).dark ≡ false
            → (seen self.new).noise ≡ (seen self.old).noise → IfErr result IsMemory }
        ensures ready { ready self.new }
        ensures same { lenders self.new ≡ lenders self.old }
        ensures swapped { IfOk result (λ r. Swapped swaps A.steps A.stops self.old out.now far.old self.new far.new
            (λ did. did ≡ Stepped out.now r.items ∷ [])) }
        ensures failed { (seen self.old).over ≡ None
            → IfErr result (λ e. Swapped swaps A.steps A.stops self.old out.now far.old self.new far.new
            (AskedBy e.answered e.cause out.now)) };
}
