//! What a device is to the air.

ghost use Rattle.std.specs.Prelude.{◌≡◌, ℕ, ◌≤◌, List, length, Bool, true, false, Option, Some, None, IfOk, OnErr};
ghost use Rattle.nfc_base.specs.Signal.{Signal, whole_a};
ghost use Rattle.nfc_base.specs.Far.{Untouched, Hands};
ghost use Rattle.nfc_base.specs.TagLinks.{TagState, TagStep, IsAddressedIn};
ghost use Rattle.nfc_base.specs.declared.frame.Tech.TheVariants as techs;
ghost use Rattle.air_core.specs.World.{Machine};
ghost use Rattle.air_core.specs.Listening.{Step, Stop, StaysSame, said_at};

use nfc_base::{Answerer, Frame, Tech};
use std::alloc::{AllocError, Global};

/// A device that hears the requests of a reader and answers at once, or not at all. It may ask something of the far
/// end above it within its step.
pub trait Listener {
    /// What it does.
    ghost machine: { Machine Self };

    /// Its identifier: of an NFC-A device its bytes in order, of an NFC-V device its eight bytes, high byte first, of
    /// an NFC-F device its eight bytes in order.
    ghost identifier: { Self → List ℕ };

    /// Its memory, in order; the empty list for a peer.
    ghost store: { Self → List ℕ };

    /// An NFC-A device in the midst of being selected.
    ghost is_ready: { Self → Bool };

    /// An NFC-A device that is selected, or a device of another technology in a lit field.
    ghost is_selected: { Self → Bool };

    /// Of a tag: its step on commands, by what it holds. What is no tag has the one that stands here.
    ghost commands: { Self → TagState → Signal → TagStep } = { λ _ s _. record { answer = None; after = s } };

    fn tech(&self) -> Tech
        ensures { result ≡ machine.tech self.now };

    /// The field is lit.
    fn light(&mut self)
        ensures { self.new ≡ machine.woken self.old };

    /// The field goes dark: what is volatile is lost.
    fn dark(&mut self)
        ensures { self.new ≡ machine.darkened self.old };

    /// One step at a frame of its technology: its answer, or `None` where it is silent. `Err` comes only where the far
    /// end answered `Err` in this step.
    fn hear<A: Answerer>(
        &mut self,
        alloc: Global,
        frame: &Frame,
        far: &mut A,
    ) -> Result<Option<Frame>, AllocError>
        ensures ok { IfOk result (λ o. Step A.restarts A.steps (machine.handed self.old frame.now)
            (machine.answer self.old frame.now) (machine.after self.old frame.now) far.old o self.new far.new) }
        ensures err { OnErr result
            (Stop A.stops A.is_stuck (machine.handed self.old frame.now)
            (machine.after self.old frame.now) far.old self.new far.new) };

    /// The same step, whose answer is put into a place of the caller's: `true` where there is one. The field calls it
    /// for every listener at every request, and most are silent: so a frame is moved only where there is one.
    fn hear_into<A: Answerer>(
        &mut self,
        alloc: Global,
        frame: &Frame,
        far: &mut A,
        answer: &mut Frame,
    ) -> Result<bool, AllocError>
        ensures ok { IfOk result (λ said. Step A.restarts A.steps (machine.handed self.old frame.now)
            (machine.answer self.old frame.now) (machine.after self.old frame.now) far.old
            (said_at said answer.new) self.new far.new) }
        ensures err { OnErr result
            (Stop A.stops A.is_stuck (machine.handed self.old frame.now)
            (machine.after self.old frame.now) far.old self.new far.new) }
    {
        match self.hear(alloc, frame, far)? {
            None => Ok(false),
            Some(said) => {
                *answer = said;
                Ok(true)
            }
        }
    }

    /// What is handed over has at most 2,178 bytes.
    ghost bounded: { (l : Self) (f : Signal) (payload : List ℕ) → machine.handed l f ≡ Hands payload
        → length payload ≤ 2178 };

    /// An answer is of its technology.
    ghost own_tech: { (l : Self) (f g : Signal) (reply : Option (List ℕ)) → machine.answer l f reply ≡ Some g
        → g.tech ≡ machine.tech l };

    /// A step changes neither technology nor identifier, nor its step on commands: no frame locks a block.
    ghost step_keeps: { (l : Self) (f : Signal) (reply : Option (List ℕ))
        → StaysSame machine.tech identifier commands l (machine.after l f reply) };

    /// Nor does light, which keeps the store too.
    ghost light_keeps: { (l : Self) → StaysSame machine.tech identifier commands l (machine.woken l)
        × (store (machine.woken l) ≡ store l) };

    /// Nor does dark.
    ghost dark_keeps: { (l : Self) → StaysSame machine.tech identifier commands l (machine.darkened l)
        × (store (machine.darkened l) ≡ store l) };

    /// A device of another technology than NFC-A is selected by light.
    ghost light_selects: { (l : Self) → (machine.tech l ≡ techs.A → ⊥) → is_selected (machine.woken l) ≡ true };

    /// It stays so at each frame.
    ghost stays_selected: { (l : Self) (f : Signal) (reply : Option (List ℕ)) → (machine.tech l ≡ techs.A → ⊥)
        → is_selected l ≡ true → is_selected (machine.after l f reply) ≡ true };

    /// In the dark it is neither ready nor selected.
    ghost dark_rests: { (l : Self) → (is_ready (machine.darkened l) ≡ false)
        × (is_selected (machine.darkened l) ≡ false) };

    /// An NFC-A device that is neither ready nor selected is silent at each frame of whole bytes, hands nothing over
    /// and stays neither.
    ghost rests: { (l : Self) (bytes : List ℕ) → machine.tech l ≡ techs.A → is_ready l ≡ false
        → is_selected l ≡ false → (machine.handed l (whole_a bytes) ≡ Untouched)
        × (machine.answer l (whole_a bytes) None ≡ None) × (is_ready (machine.after l (whole_a bytes) None) ≡ false)
        × (is_selected (machine.after l (whole_a bytes) None) ≡ false) };

    /// At a frame that its technology addresses to another identifier a device is silent, and hands nothing over.
    ghost ignores: { (l : Self) (other : List ℕ) (f : Signal) → IsAddressedIn (machine.tech l) other f
        → (other ≡ identifier l → ⊥) → (machine.handed l f ≡ Untouched) × (machine.answer l f None ≡ None) };
}
