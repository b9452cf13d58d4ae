//! How far a search for Type 5 tags is, what is due in it, and how it goes on by what is heard.

ghost use Rattle.std.specs.Prelude.{◌≡◌, Err, None, OnOk, OnErr};
ghost use Rattle.nfca_poll.specs.declared.fault.PollFault.TheVariants.{Memory};
ghost use Rattle.nfcv_poll.specs.Search.{said, fresh, due_request, hushes, opens, leaves, is_spent, with_clash, takes};
ghost use Rattle.nfcv_poll.specs.Search.{answers_left, hears, is_over};
ghost use Rattle.nfcv_poll.specs.Masks.{extended};

use crate::ids::Ids;
use crate::mask::Mask;
use crate::masks::Masks;
use nfc_base::{Frame, Heard, Tech};
use nfca_poll::PollFault;
use std::alloc::Global;
use t5t_tag::{T5Answer, T5Command};

/// How many passes a search makes, and how many rounds a pass.
const PASSES: u8 = 4;

const MOST_ROUNDS: u8 = 128;

/// The last of the sixteen slots of a round.
const LAST_SLOT: u8 = 15;

/// The last of the four times that it is asked who is left, counted from 0.
const LAST_QUESTION: u8 = 3;

/// What is due.
#[derive(Clone, Copy, Debug)]
pub enum Stage {
    /// A slot of the round of a mask.
    Slot { mask: Mask, slot: u8 },
    /// To tell this tag to stay quiet; the place of the next one follows.
    Hush { id: [u8; 8], next: usize },
    /// To ask who is left; so often it was asked in vain.
    WhoIsLeft { asked: u8 },
    /// Nothing: nobody is left, or it can't go on.
    Over,
    Fails(PollFault),
}

/// A search: its pass, counted from 1, how many rounds the pass has begun, the tags that were recorded so far, the
/// masks whose rounds are still to be made, and the masks of the clashes of the round that is under way.
#[derive(Debug, Drop)]
pub struct Search {
    pub pass: u8,
    pub rounds: u8,
    pub found: Ids,
    pub masks: Masks,
    pub clashes: Masks,
    pub stage: Stage,
}

/// What the answers in a slot tell.
#[derive(Clone, Copy, Debug, PartialEq, Eq)]
pub enum Said {
    Nothing,
    Clash,
    Tag([u8; 8]),
    Strange,
}

/// What is heard in a slot. A damaged answer tells nothing.
fn told_by(heard: &Heard) -> Said
    ensures { result ≡ said heard.now }
{
    match heard {
        Heard::Whole(answer) => match T5Answer::read_from(answer) {
            Some(T5Answer::Present { id }) => Said::Tag(id),
            _ => Said::Strange,
        },
        Heard::Collided(_) => Said::Clash,
        Heard::Damaged | Heard::Silent => Said::Nothing,
    }
}

impl Search {
    /// A search in a field that was reset.
    pub fn new(alloc: Global) -> Search
        ensures { result ≡ fresh }
    {
        Search {
            pass: 1,
            rounds: 1,
            found: Ids::new(alloc),
            masks: Masks::new(alloc),
            clashes: Masks::new(alloc),
            stage: Stage::Slot {
                mask: Mask::none(),
                slot: 0,
            },
        }
    }

    /// The request that is due, if one is.
    pub fn due(&self) -> Option<Frame>
        ensures { result ≡ due_request self.now }
    {
        match self.stage {
            Stage::Slot { mask, slot: 0 } => Some(mask.request()),
            Stage::Slot { .. } => Some(T5Command::NextSlot.to_frame()),
            Stage::Hush { id, .. } => Some(T5Command::Quiet { id }.to_frame()),
            Stage::WhoIsLeft { .. } => Some(T5Command::Inventory {
                mask_bits: 0,
                mask: [0; 8],
            }
            .to_frame()),
            Stage::Over | Stage::Fails(_) => None,
        }
    }

    /// Goes on by what was heard of the request that was due. Where memory is wanting, the search isn't over.
    pub fn hear(&mut self, heard: &Heard) -> Result<(), PollFault>
        ensures ok { OnOk result (self.new ≡ hears self.old heard.now) }
        ensures err { OnErr result ((result ≡ Err Memory) × (is_over (hears self.old heard.now) ≡ None)) }
    {
        match self.stage {
            Stage::Slot { mask, slot } => return self.hear_slot(mask, slot, told_by(heard)),
            Stage::Hush { next, .. } => self.hush(next),
            Stage::WhoIsLeft { asked } => self.hear_asked(asked, matches!(heard, Heard::Silent)),
            Stage::Over | Stage::Fails(_) => {}
        }
        Ok(())
    }

    /// What a slot told: a tag is recorded, a clash is a mask for later.
    #[tactic(auto, using(crate::proofs::Spent::slot_goes_on))]
    fn hear_slot(&mut self, mask: Mask, slot: u8, said: Said) -> Result<(), PollFault>
        ensures ok { OnOk result (self.new ≡ takes self.old mask slot said) }
        ensures err { OnErr result ((result ≡ Err Memory) × (is_over (takes self.old mask slot said) ≡ None)) }
    {
        if matches!(said, Said::Strange) || self.is_spent(mask, slot, said) {
            self.stage = Stage::Fails(PollFault::BadAnswer);
            return Ok(());
        }
        match said {
            Said::Tag(id) => self.found.add(id)?,
            Said::Clash => self.clash(mask, slot)?,
            Said::Nothing | Said::Strange => {}
        }
        self.leave(mask, slot)
    }

    /// Whether this is the last slot of the last round that a pass may make, and a mask is left.
    fn is_spent(&self, mask: Mask, slot: u8, said: Said) -> bool
        ensures { result ≡ is_spent self.now mask slot said }
    {
        if slot < LAST_SLOT || self.rounds < MOST_ROUNDS {
            return false;
        }
        let clashes = matches!(said, Said::Clash) && mask.extended(slot).is_some();
        clashes || !self.masks.is_empty() || !self.clashes.is_empty()
    }

    /// A clash in a slot; behind 60 bits of a mask it is passed over.
    fn clash(&mut self, mask: Mask, slot: u8) -> Result<(), PollFault>
        ensures ok { OnOk result (self.new ≡ with_clash self.old (extended mask slot)) }
        ensures err { OnErr result (result ≡ Err Memory) }
    {
        match mask.extended(slot) {
            Some(longer) => self.clashes.push(longer),
            None => Ok(()),
        }
    }

    /// The next slot, or behind the last one the next round.
    fn leave(&mut self, mask: Mask, slot: u8) -> Result<(), PollFault>
        ensures ok { OnOk result (self.new ≡ leaves self.old mask slot) }
        ensures err { OnErr result (result ≡ Err Memory) }
    {
        if slot < LAST_SLOT {
            self.stage = Stage::Slot {
                mask,
                slot: slot + 1,
            };
            return Ok(());
        }
        self.masks.take_all(&mut self.clashes)?;
        self.open();
        Ok(())
    }

    /// The round of the mask that is upon the others; where none is left, the tags are told to stay quiet.
    fn open(&mut self)
        ensures { self.new ≡ opens self.old }
    {
        let Some(mask) = self.masks.pop() else {
            self.hush(0);
            return;
        };
        if self.rounds >= MOST_ROUNDS {
            self.stage = Stage::Fails(PollFault::BadAnswer);
            return;
        }
        self.rounds += 1;
        self.stage = Stage::Slot { mask, slot: 0 };
    }

    /// Tells the tags from this place on to stay quiet, and then asks who is left.
    fn hush(&mut self, at: usize)
        ensures { self.new ≡ hushes self.old at }
    {
        self.stage = match self.found.get(at) {
            Some(id) => Stage::Hush { id, next: at + 1 },
            None => Stage::WhoIsLeft { asked: 0 },
        };
    }

    /// Four silences end the search. Anything else begins the next pass, if there is one.
    fn hear_asked(&mut self, asked: u8, silent: bool)
        ensures { self.new ≡ answers_left self.old asked silent }
    {
        if silent && asked < LAST_QUESTION {
            self.stage = Stage::WhoIsLeft { asked: asked + 1 };
        } else if silent {
            self.stage = Stage::Over;
        } else if self.pass < PASSES {
            self.pass += 1;
            self.rounds = 1;
            self.stage = Stage::Slot {
                mask: Mask::none(),
                slot: 0,
            };
        } else {
            self.stage = Stage::Fails(PollFault::Disturbed);
        }
    }
}
