//! The far end above a link.

ghost use Rattle.std.specs.Prelude.{◌≡◌, ℕ, ◌≤◌, List, [], length, OnOk, OnErr, IsOk, IsErr, Bool, true, false};

use std::alloc::{AllocError, Global};

/// What answers the payloads of a link. The state is the value itself, and its steps are relations, since a far end
/// may choose how it answers.
pub trait Answerer {
    /// It gave up for want of memory, and answers nothing until a restart.
    ghost is_stuck: { Self → Bool };

    /// A new link begins, with the other end's general bytes.
    ghost restarts: { Self → List ℕ → Self → Type 0 };

    /// One step: this payload is answered by this reply.
    ghost steps: { Self → List ℕ → List ℕ → Self → Type 0 };

    /// A step on this payload that want of memory left unfinished.
    ghost stops: { Self → List ℕ → Self → Type 0 };

    /// Begins a new link. It takes no memory.
    fn restart(&mut self, general: &[u8])
        ensures step { restarts self.old general.now self.new }
        ensures fresh { is_stuck self.new ≡ false };

    /// Replaces `reply` by the reply to a payload; both have at most 2,178 bytes.
    fn answer(
        &mut self,
        alloc: Global,
        payload: &[u8],
        reply: &mut Vec<u8>,
    ) -> Result<(), AllocError>
        requires { length payload.now ≤ 2178 }
        ensures ok { OnOk result (steps self.old payload.now reply.new.items self.new × (is_stuck self.new ≡ false)) }
        ensures err { OnErr result (stops self.old payload.now self.new × (is_stuck self.new ≡ true)) }
        ensures stuck { is_stuck self.old ≡ true → IsErr result };

    /// A reply has at most 2,178 bytes.
    ghost fits: { (a : Self) (payload reply : List ℕ) (b : Self) → steps a payload reply b → length reply ≤ 2178 };
}

/// A far end with no state that gives an empty reply, without taking memory. It stands above fields without a peer.
#[derive(Clone, Copy, Debug, PartialEq, Eq)]
pub struct Mute;

impl Answerer for Mute {
    ghost is_stuck = { λ _. false };

    ghost restarts = { λ old _ new. new ≡ old };

    ghost steps = { λ old _ reply new. (new ≡ old) × (reply ≡ []) };

    ghost stops = { λ _ _ _. ⊥ };

    fn restart(&mut self, _general: &[u8]) {}

    fn answer(
        &mut self,
        _alloc: Global,
        _payload: &[u8],
        reply: &mut Vec<u8>,
    ) -> Result<(), AllocError> {
        reply.clear();
        Ok(())
    }

    ghost use Rattle.nfc_base.specs.Far.{empty_fits};

    ghost fits = { λ a payload reply b did. empty_fits reply did.1 };
}

#[cfg(test)]
mod tests {
    use super::*;
    use std::test::Fail;

    #[test]
    fn mute_answers_nothing(rt: HostRuntime) -> Result<(), Fail> {
        let mut far = Mute;
        let mut reply = [7].to_vec(rt.alloc())?;
        far.restart(&[0x46, 0x66, 0x6D]);
        far.answer(rt.alloc(), &[0, 0], &mut reply)?;
        assert!(rt; reply.is_empty());
        Ok(())
    }
}
