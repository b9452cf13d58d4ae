//! A link that answers from a list of turns.

ghost use Rattle.std.specs.Prelude.{◌≡◌};
ghost use Rattle.tag_steps.specs.Replay.{due_of};

use crate::turn::{RealTag, Turn};
use nfc_base::{AskFault, Frame, TagLink};
use std::alloc::Global;

/// A link to a tag whose answers so far are known. A command behind them ends it: it is the one to be sent next. It
/// takes no memory.
#[derive(Drop)]
pub struct Replay<'a, G> {
    pub tag: &'a G,
    pub turns: &'a [Turn],
    pub used: usize,
    pub last: Option<Frame>,
    pub over: Option<AskFault>,
}

impl<'a, G> Replay<'a, G> {
    /// The command to be sent, where no turn was left for it.
    pub fn due(&self) -> Option<Frame>
        ensures { result ≡ due_of self.now.over self.now.last }
    {
        if self.over != Some(AskFault::FieldLost) {
            return None;
        }
        Some(self.last.as_ref()?.copy())
    }
}

impl<'a, G: RealTag> TagLink for Replay<'a, G> {
    ghost use Rattle.std.specs.Prelude.{◌≡◌, ◌≤◌, [], None, Some, length};
    ghost use Rattle.std.proofs.Common.{refl, ◌∙◌};
    ghost use Rattle.nfc_base.specs.declared.tag_link.AskFault.TheVariants.{FieldLost, Protocol};
    ghost use Rattle.tag_steps.specs.Replay.{Agrees, Differs, link_behind};

    ghost seen = { λ l. link_behind (G.real l.tag.now) l.turns.now l.used l.over l.last };

    ghost lenders = { λ _. [] };

    // the turns are those of the tag; where it ran out none is left, and where it is odd the next has another command
    ghost ready = { λ l. Agrees (G.real l.tag.now) l.turns.now × (l.used ≤ length l.turns.now)
        × (l.over ≡ Some FieldLost → (l.used ≡ length l.turns.now) × (l.last ≡ None → ⊥))
        × (l.over ≡ Some Protocol → Differs l.turns.now l.used l.last) };

    ghost moves = { λ a b. (b.tag.now ≡ a.tag.now) × (b.turns.now ≡ a.turns.now) };

    fn ask(&mut self, _alloc: Global, command: &Frame) -> Result<Frame, AskFault> {
        if let Some(fault) = self.over {
            return Err(fault);
        }
        self.last = Some(command.copy());
        let Some(turn) = self.turns.get(self.used) else {
            self.over = Some(AskFault::FieldLost);
            return Err(AskFault::FieldLost);
        };
        if !turn.command.is_same(command) {
            self.over = Some(AskFault::Protocol);
            return Err(AskFault::Protocol);
        }
        self.used += 1;
        Ok(turn.answer.copy())
    }

    ghost stays = { λ a. (refl, refl) };

    ghost goes_on = { λ a b c p q. (q.0 ∙ p.0, q.1 ∙ p.1) };
}
