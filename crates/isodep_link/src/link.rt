//! A link to a Type 4 tag.

ghost use Rattle.std.specs.Prelude.{◌≡◌, ◌≤◌, length, Some, None, Err, IfOk};
ghost use Rattle.nfc_base.specs.declared.tag_link.AskFault.{AskFault};
ghost use Rattle.isodep_link.specs.IsoLinks.{seen_link, CommandExchanged, ObeysOnLink};
ghost use Rattle.isodep_link.specs.Activating.{first_link, Opens, ActivatesLink};

use crate::activate::activate_card;
use crate::exchange::ask_card;
use crate::listener::CardListener;
use crate::reader::ReaderEnd;
use air_core::Field;
use nfc_base::{AskFault, Frame, TagLink};
use std::alloc::Global;

/// A link to one Type 4 tag, which was activated, is selected and alone in the field. Each command is an exchange of
/// ISO-DEP, in which the tag obeys it at most once.
#[derive(Drop)]
pub struct IsoLink<'a, L> {
    field: &'a mut Field<L>,
    place: usize,
    reader: ReaderEnd,
    start: usize,
    told: usize,
    last: Option<Frame>,
    over: Option<AskFault>,
}

impl<'a, L: CardListener> IsoLink<'a, L> {
    ghost use Rattle.std.specs.Borrow.{sem};
    ghost use Rattle.isodep_link.specs.Lends.{rests_if_refused};

    /// Sends RATS to the tag at a place, again after each bad reception, and gives the link to it. Any listener may
    /// stand there.
    pub fn activate(field: &'a mut Field<L>, place: usize) -> Result<IsoLink<'a, L>, AskFault>
        ensures* rests { sem 𝓛 (rests_if_refused L.row L.Listener L.card L.tag field.entry place result) }
        ensures same { IfOk result (λ l. l.field.ghost_name ≡ field.entry.ghost_name) }
        ensures turns { IfOk result (λ l. Opens L.machine field.old place (seen_link l)) }
        ensures ok { IfOk result (λ l. ActivatesLink L.Listener L.card L.tag field.old place (seen_link l)) }
    {
        match activate_card(field, place) {
            Ok(code) => Ok(IsoLink::first(field, place, code)),
            Err(fault) => Err(fault),
        }
    }

    /// The link to the tag at a place that told this size code, before anything is asked.
    fn first(field: &'a mut Field<L>, place: usize, code: u8) -> IsoLink<'a, L>
        ensures same { result.field.ghost_name ≡ field.entry.ghost_name }
        ensures first { seen_link result ≡ first_link field.old place code }
    {
        let start = field.trace().len();
        IsoLink {
            field,
            place,
            reader: ReaderEnd::new(code),
            start,
            told: start,
            last: None,
            over: None,
        }
    }

    /// Asks one command of whatever stands at the place: turns by the reader's table, up to the answer or a fault, by
    /// which the link is then over. `ask` is this with a tag that keeps to the card's table.
    pub fn exchange(&mut self, command: &Frame) -> Result<Frame, AskFault>
        requires fits { length command.now.bytes ≤ 264 }
        ensures turns { self.old.over ≡ None
            → CommandExchanged L.machine (seen_link self.old) (seen_link self.new) command.now result }
        ensures tag { self.old.over ≡ None
            → ObeysOnLink L.Listener L.card L.tag (seen_link self.old) (seen_link self.new) command.now result }
        ensures ended { (e : AskFault) → self.old.over ≡ Some e → (result ≡ Err e)
            × (seen_link self.new ≡ seen_link self.old) }
        ensures same { self.new.field.ghost_name ≡ self.old.field.ghost_name }
    {
        if let Some(fault) = self.over {
            return Err(fault);
        }
        self.last = Some(command.copy());
        match ask_card(self.field, self.place, &mut self.reader, command) {
            Ok(answer) => {
                self.told = self.field.trace().len();
                Ok(answer)
            }
            Err(fault) => {
                self.over = Some(fault);
                Err(fault)
            }
        }
    }
}

impl<'a, L: CardListener> TagLink for IsoLink<'a, L> {
    ghost use Rattle.std.specs.Prelude.{◌≡◌, [], ◌∷◌, None};
    ghost use Rattle.isodep_link.specs.IsoLinks.{seen_link, iso_view, IsIsoReady, IsoMoves};
    ghost use Rattle.isodep_link.specs.laws.IsoMoving.{moves_again, moves_on};

    ghost seen = { λ p. iso_view L.Listener L.card L.tag (seen_link p) };

    ghost lenders = { λ p. p.field.ghost_name ∷ [] };

    ghost ready = { λ p. p.over ≡ None → IsIsoReady L.Listener L.card L.tag (seen_link p) };

    ghost moves = { λ a b. IsoMoves L.Listener L.card L.tag (seen_link a) (seen_link b) };

    fn ask(&mut self, _alloc: Global, command: &Frame) -> Result<Frame, AskFault> {
        self.exchange(command)
    }

    ghost stays = { λ a. moves_again _ _ _ _ };

    ghost goes_on = { λ a b c p q. moves_on _ _ _ _ _ _ p q };
}
