//! A link to the tag in the field of a chip of your own, of which nothing has to be known.
//!
//! `read` and `write` go over any `TagLink`, whose contract speaks of the tag: what it holds, and its step at each
//! command. Here the tag is what the chip answers: its store counts how often it was asked, and its step looks the
//! answer up (`specs/Chips.antt`). So whatever the chip answers, what is told is what stands in these answers.
#![tactic(auto)]

ghost use Rattle.std.specs.Prelude.{◌≡◌, ℕ, suc, Option, Some, [], ◌<◌, ◌^◌, length, false, Err};
ghost use Rattle.nfc_base.specs.Signal.{Signal};
ghost use Rattle.tag_reader.specs.Kinds.{kind_of};
ghost use Rattle.chip_link.specs.Chips.{asked_so_often, chip_step, identifier_of, silences};

use nfc_base::{AskFault, Frame, TagLink};
use std::alloc::Global;
use tag_reader::How;

#[cfg(test)]
mod tests;

/// A chip with a tag selected in its field.
pub trait Chip {
    /// What it answers when it is asked for the n-th time, counted from 0.
    ghost answers: { Self → ℕ → Option Signal };

    /// How often it was asked.
    ghost asked: { Self → ℕ };

    /// Sends a command to the tag, and gives what came back whole: some bytes, and how many bits of the last one.
    fn transceive(&mut self, command: &[u8]) -> Option<Frame>
        requires room { asked self.old < 2 ^ 63 }
        ensures says { answers self.old (asked self.old) ≡ result }
        ensures same { answers self.new ≡ answers self.old }
        ensures next { asked self.new ≡ suc (asked self.old) };
}

/// A link to that tag.
#[derive(Drop)]
pub struct ChipLink<C> {
    chip: C,
    how: How,
    obeyed: Vec<Frame>,
    answered: Vec<Frame>,
    last: Option<Frame>,
    over: Option<AskFault>,
}

impl<C: Chip> ChipLink<C> {
    /// A link over a chip that wasn't asked yet.
    pub fn new(alloc: Global, chip: C, how: How) -> ChipLink<C>
        requires fresh { C.asked chip ≡ 0 }
        ensures ready { C.asked result.chip ≡ length result.obeyed.items }
        ensures chip { result.chip ≡ chip }
        ensures how { result.how ≡ how }
    {
        ChipLink {
            chip,
            how,
            obeyed: Vec::new(alloc),
            answered: Vec::new(alloc),
            last: None,
            over: None,
        }
    }

    /// The command that was asked last. Where no answer came, it is the one to send next.
    pub fn last(&self) -> Option<Frame>
        ensures { result ≡ self.now.last }
    {
        Some(self.last.as_ref()?.copy())
    }

    /// Ends the link.
    fn end(&mut self, fault: AskFault) -> Result<Frame, AskFault>
        ensures fault { result ≡ Err fault }
        ensures over { self.new ≡ record self.old { over = Some fault } }
    {
        self.over = Some(fault);
        Err(fault)
    }
}

impl<C: Chip> TagLink for ChipLink<C> {
    ghost seen = { λ l. record {
      kind = kind_of l.how;
      identifier = identifier_of l.how;
      step = chip_step (C.answers l.chip);
      state = asked_so_often (C.asked l.chip);
      obeyed = l.obeyed.items;
      answered = l.answered.items;
      last = l.last;
      over = l.over;
      dark = false;
      counts = record { breaks = 0; six_bad = silences l.over; odd = 0 };
      noise = 0;
    } };

    ghost lenders = { λ _. [] };

    ghost ready = { λ l. C.asked l.chip ≡ length l.obeyed.items };

    ghost moves = { λ _ _. Unit {0} };

    fn ask(&mut self, _alloc: Global, command: &Frame) -> Result<Frame, AskFault> {
        if let Some(fault) = self.over {
            return Err(fault);
        }
        self.last = Some(command.copy());
        if self.obeyed.push(command.copy()).is_err() {
            return self.end(AskFault::Memory);
        }
        let Some(answer) = self.chip.transceive(command.view()) else {
            return self.end(AskFault::SixBad);
        };
        if self.answered.push(command.copy()).is_err() {
            return self.end(AskFault::Memory);
        }
        Ok(answer)
    }

    ghost stays = { λ _. tt };

    ghost goes_on = { λ _ _ _ _ _. tt };
}
