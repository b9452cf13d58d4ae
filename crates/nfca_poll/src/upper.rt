//! The machine above a listener front.

ghost use Rattle.std.specs.Prelude.{◌≡◌, ℕ, List, Bool, false, Option, None, IfOk, OnErr};
ghost use Rattle.nfc_base.specs.Signal.{Signal};
ghost use Rattle.nfc_base.specs.TagLinks.{TagState, TagStep};
ghost use Rattle.air_core.specs.Listening.{Stop};
ghost use Rattle.nfca_poll.specs.Upper.{UpperMachine, UpperStep, IsUpper, step_at};

use crate::kind::Kind;
use nfc_base::{Answerer, Frame};
use std::alloc::{AllocError, Global};

/// What the machine above a front makes of a frame. A frame that it answers by `Sleep` or by `Idle` is its last one:
/// the device leaves the state Active with that answer.
#[derive(Debug, Drop)]
pub enum UpStep {
    /// Not a frame of this machine. The front takes it.
    Foreign,
    Quiet,
    Reply(Frame),
    Sleep(Frame),
    Idle(Frame),
}

/// The same, of a machine that was given a place for its answer.
#[derive(Clone, Copy, Debug)]
pub enum UpKind {
    Foreign,
    Quiet,
    Reply,
    Sleep,
    Idle,
}

/// What a device is once it is selected: a tag, or the near end of a link. `Front` hands it frames in the state
/// Active alone.
pub trait Upper {
    /// What it does.
    ghost machine: { UpperMachine Self };

    /// Its memory, in order; the empty list for a peer.
    ghost store: { Self → List ℕ };

    /// Of a tag: its step on commands, by what it holds. What is no tag has the one that stands here.
    ghost commands: { Self → TagState → Signal → TagStep } = { λ _ s _. record { answer = None; after = s } };

    /// Whether its link is open: of a Type 4 tag since RATS, of a peer since ATR_REQ. A Type 2 tag has none.
    ghost is_open: { Self → Bool } = { λ _. false };

    /// Of a peer: whether a frame is a well-formed ATR_REQ.
    ghost attributes: { Signal → Bool } = { λ _. false };

    /// What it tells by SEL_RES.
    fn kind(&self) -> Kind
        ensures { result ≡ machine.kind self.now };

    /// Gives up what is volatile. The front calls it whenever the device leaves the state Active.
    fn clear(&mut self)
        ensures { self.new ≡ machine.cleared self.old };

    /// One step in the state Active. `Err` comes only where the far end answered `Err` in this step.
    fn hear<A: Answerer>(
        &mut self,
        alloc: Global,
        frame: &Frame,
        far: &mut A,
    ) -> Result<UpStep, AllocError>
        ensures ok { IfOk result (λ s. UpperStep A.restarts A.steps (machine.handed self.old frame.now)
            (machine.says self.old frame.now) (machine.after self.old frame.now) far.old s self.new far.new) }
        ensures err { OnErr result
            (Stop A.stops A.is_stuck (machine.handed self.old frame.now)
            (machine.after self.old frame.now) far.old self.new far.new) };

    /// The same step, whose answer is put into a place of the caller's, which the front calls.
    fn hear_into<A: Answerer>(
        &mut self,
        alloc: Global,
        frame: &Frame,
        far: &mut A,
        answer: &mut Frame,
    ) -> Result<UpKind, AllocError>
        ensures ok { IfOk result (λ k. UpperStep A.restarts A.steps (machine.handed self.old frame.now)
            (machine.says self.old frame.now) (machine.after self.old frame.now) far.old
            (step_at k answer.new) self.new far.new) }
        ensures err { OnErr result
            (Stop A.stops A.is_stuck (machine.handed self.old frame.now)
            (machine.after self.old frame.now) far.old self.new far.new) }
    {
        let (kind, said) = match self.hear(alloc, frame, far)? {
            UpStep::Foreign => return Ok(UpKind::Foreign),
            UpStep::Quiet => return Ok(UpKind::Quiet),
            UpStep::Reply(said) => (UpKind::Reply, said),
            UpStep::Sleep(said) => (UpKind::Sleep, said),
            UpStep::Idle(said) => (UpKind::Idle, said),
        };
        *answer = said;
        Ok(kind)
    }

    /// It takes exactly the frames that its kind has as its own, with all that `IsUpper` lists.
    ghost laws: { IsUpper machine store commands is_open attributes };
}
