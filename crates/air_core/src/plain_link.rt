//! A link that sends each command as it is.

ghost use Rattle.std.specs.Prelude.{◌≡◌, ◌∷◌, [], length, None};
ghost use Rattle.air_core.specs.PlainLinks.{MayAskAt};
ghost use Rattle.air_core.specs.PlainTags.{HasPlainTag};
ghost use Rattle.air_core.specs.private.PlainWaits.{HasWaited};

use crate::field::Field;
use crate::first_answer::ask_first;
use crate::listener::Listener;
use nfc_base::{AskFault, Frame, Mute, TagLink};
use std::alloc::Global;

/// A link to one Type 2, Type 3 or Type 5 tag, which is selected and alone in the field. A command is sent again after
/// each bad reception (NFC Forum Digital Protocol). The far end of its turns is mute, since such a tag asks nothing of
/// one.
#[derive(Drop)]
pub struct PlainLink<'a, L> {
    field: &'a mut Field<L>,
    place: usize,
    start: usize,
    last: Option<Frame>,
    over: Option<AskFault>,
}

impl<'a, L: Listener> PlainLink<'a, L> {
    /// A link to the tag at a place.
    pub fn on(field: &'a mut Field<L>, place: usize) -> PlainLink<'a, L>
        requires tag { HasPlainTag L.Listener field.old place }
        ensures same { result.field.ghost_name ≡ field.entry.ghost_name }
        ensures field { result.field.now ≡ field.old }
        ensures fresh { (result.place ≡ place) × (result.start ≡ length field.old.trace) × (result.last ≡ None)
            × (result.over ≡ None) }
    {
        let start = field.trace().len();
        PlainLink {
            field,
            place,
            start,
            last: None,
            over: None,
        }
    }
}

/// One wait of the tag at a place: turns with the command, up to the first whole answer or the sixth bad reception.
fn wait<L: Listener>(field: &mut Field<L>, place: usize, command: &Frame) -> Result<Frame, AskFault>
    requires tag { HasPlainTag L.Listener field.old place }
    requires fits { MayAskAt L.Listener field.old place command.now }
    ensures { HasWaited L.Listener field.old field.new place command.now result }
{
    ask_first(field, command, &mut Mute)
}

impl<'a, L: Listener> TagLink for PlainLink<'a, L> {
    ghost use Rattle.std.specs.Prelude.{◌≡◌, [], ◌∷◌, None};
    ghost use Rattle.air_core.specs.PlainLinks.{plain_seen, plain_view, IsPlainReady, PlainMoves};
    ghost use Rattle.air_core.specs.laws.PlainMoving.{moves_again, moves_on};

    ghost seen = { λ p. plain_view L.Listener (plain_seen p.field.now p.place p.start p.last p.over) };

    ghost lenders = { λ p. p.field.ghost_name ∷ [] };

    ghost ready = { λ p. p.over ≡ None
        → IsPlainReady L.Listener (plain_seen p.field.now p.place p.start p.last p.over) };

    ghost moves = { λ a b. PlainMoves L.Listener (plain_seen a.field.now a.place a.start a.last a.over)
        (plain_seen b.field.now b.place b.start b.last b.over) };

    fn ask(&mut self, _alloc: Global, command: &Frame) -> Result<Frame, AskFault> {
        if let Some(fault) = self.over {
            return Err(fault);
        }
        self.last = Some(command.copy());
        match wait(self.field, self.place, command) {
            Ok(answer) => Ok(answer),
            Err(fault) => {
                self.over = Some(fault);
                Err(fault)
            }
        }
    }

    ghost stays = { λ a. moves_again _ _ };

    ghost goes_on = { λ a b c p q. moves_on _ _ _ _ p q };
}
