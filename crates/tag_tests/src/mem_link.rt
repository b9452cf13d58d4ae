//! A link to a tag in memory.

ghost use Rattle.std.specs.Prelude.{◌≡◌, [], false};
ghost use Rattle.nfc_base.specs.TagLinks.{LinkView};

use crate::card::Card;
use nfc_base::{AskFault, Frame, TagLink};
use std::alloc::Global;

/// How many commands a link answers that isn't lost.
pub const ENOUGH: u16 = 5000;

/// A link to a tag that is lost after so many commands, where `behind` says behind the one that isn't answered. What
/// was obeyed and what was answered stands in order.
#[derive(Drop)]
pub struct MemLink<C> {
    pub card: C,
    left: u16,
    behind: bool,
    obeyed: Vec<Frame>,
    pub answered: Vec<Frame>,
    last: Option<Frame>,
    over: Option<AskFault>,
    breaks: u8,
    six_bad: u8,
}

impl<C: Card> TagLink for MemLink<C> {
    ghost seen = { λ l. record {
      kind = C.kind l.card;
      identifier = C.identifier l.card;
      step = C.step l.card;
      state = C.state l.card;
      obeyed = l.obeyed.items;
      answered = l.answered.items;
      last = l.last;
      over = l.over;
      dark = false;
      counts = record { breaks = l.breaks; six_bad = l.six_bad; odd = 0 };
      noise = l.breaks;
    } };

    ghost lenders = { λ _. [] };

    ghost ready = { λ _. Unit {0} };

    ghost moves = { λ _ _. Unit {0} };

    fn ask(&mut self, _alloc: Global, command: &Frame) -> Result<Frame, AskFault> {
        if let Some(fault) = self.over {
            return Err(fault);
        }
        self.last = Some(command.copy());
        let lost = self.left == 0 && self.breaks < 255;
        if lost && !self.behind {
            self.breaks += 1;
            self.over = Some(AskFault::FieldLost);
            return Err(AskFault::FieldLost);
        }
        self.left = self.left.saturating_sub(1);
        if self.obeyed.push(command.copy()).is_err() {
            self.over = Some(AskFault::Memory);
            return Err(AskFault::Memory);
        }
        let answer = self.card.hear(command);
        if lost {
            self.breaks += 1;
            self.over = Some(AskFault::FieldLost);
            return Err(AskFault::FieldLost);
        }
        match answer {
            None if self.six_bad < 255 => {
                self.six_bad += 1;
                self.over = Some(AskFault::SixBad);
                Err(AskFault::SixBad)
            }
            None => {
                self.over = Some(AskFault::Memory);
                Err(AskFault::Memory)
            }
            Some(answer) => {
                if self.answered.push(command.copy()).is_err() {
                    self.over = Some(AskFault::Memory);
                    return Err(AskFault::Memory);
                }
                Ok(answer)
            }
        }
    }

    ghost stays = { λ a. tt };

    ghost goes_on = { λ a b c p q. tt };
}

impl<C> MemLink<C> {
    /// A link that isn't lost.
    pub fn new(alloc: Global, card: C) -> MemLink<C>
        ensures { result.card ≡ card }
    {
        MemLink::lost_after(alloc, card, ENOUGH, false)
    }

    /// A link that is lost at the command behind so many, before the tag obeys it or behind that.
    pub fn lost_after(alloc: Global, card: C, left: u16, behind: bool) -> MemLink<C>
        ensures { result.card ≡ card }
    {
        MemLink {
            card,
            left,
            behind,
            obeyed: Vec::new(alloc),
            answered: Vec::new(alloc),
            last: None,
            over: None,
            breaks: 0,
            six_bad: 0,
        }
    }

    /// The field is there again.
    pub fn light(&mut self)
        ensures { self.new.card ≡ self.old.card }
    {
        self.over = None;
        self.left = ENOUGH;
        self.breaks = 0;
    }
}
