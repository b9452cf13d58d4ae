//! A field of two devices that answer at once, and a link to a tag.

ghost use Rattle.std.specs.Prelude.{◌≡◌, ◌≤◌, ◌+◌, length, IfOk};
ghost use Rattle.nfc_base.specs.TagLinks.{Type2};
ghost use Rattle.air_core.specs.PlainTags.{HasPlainTag, plain_kind};
ghost use Rattle.air_core.specs.PlainLinks.{MayAskAt};

use air_core::law::few_sent;
use air_core::{AirFault, Field, Listener, PlainLink};
use nfc_base::{Answerer, AskFault, Event, Fate, Frame, Heard, Mute, TagLink, Tech};
use std::alloc::{AllocError, Global};
use std::test::Fail;

/// A device that says one byte, whatever it is asked.
#[derive(Drop)]
struct Beacon {
    lit: bool,
    obeyed: bool,
    says: u8,
}

impl Listener for Beacon {
    ghost use Rattle.std.specs.Prelude.{[], ◌∷◌, true, false, Some, None, if◌then◌else◌};
    ghost use Rattle.std.proofs.Common.{rules};
    ghost use Rattle.nfc_base.specs.Signal.{whole_a};
    ghost use Rattle.nfc_base.specs.Far.{Untouched};
    ghost use Rattle.nfc_base.specs.declared.frame.Tech.TheVariants as techs;

    ghost machine = { record {
      tech = λ l. techs.A;
      handed = λ l f. Untouched;
      answer = λ l f reply. if l.lit then Some (whole_a (l.says ∷ [])) else None;
      after = λ l f reply. if l.lit then record l { obeyed = true } else l;
      woken = λ l. record l { lit = true };
      darkened = λ l. record l { lit = false };
    } };

    ghost identifier = { λ l. [] };

    ghost store = { λ l. [] };

    ghost is_ready = { λ l. false };

    ghost is_selected = { λ l. l.lit };

    fn tech(&self) -> Tech {
        Tech::A
    }

    fn light(&mut self) {
        self.lit = true;
    }

    fn dark(&mut self) {
        self.lit = false;
    }

    fn hear<A: Answerer>(
        &mut self,
        _alloc: Global,
        _frame: &Frame,
        _far: &mut A,
    ) -> Result<Option<Frame>, AllocError> {
        if !self.lit {
            return Ok(None);
        }
        self.obeyed = true;
        Ok(Some(Frame::whole(Tech::A, &[self.says]).unwrap()))
    }

    ghost bounded = { Prim.search rules };

    ghost own_tech = { Prim.search rules };

    ghost step_keeps = { Prim.search rules };

    ghost light_keeps = { Prim.search rules };

    ghost dark_keeps = { Prim.search rules };

    ghost light_selects = { Prim.search rules };

    ghost stays_selected = { Prim.search rules };

    ghost dark_rests = { Prim.search rules };

    ghost rests = { Prim.search rules };

    ghost ignores = { Prim.search rules };
}

fn saying(byte: u8) -> Beacon {
    Beacon {
        lit: true,
        obeyed: false,
        says: byte,
    }
}

/// A lit field of two beacons, with these fates to come.
fn field_of(alloc: Global, says: [u8; 2], fates: &[Fate]) -> Result<Field<Beacon>, Fail>
    ensures { IfOk result (λ f. length f.listeners ≡ 2) }
{
    let mut field = Field::new(alloc);
    field.put_in(saying(says[0]))?;
    field.put_in(saying(says[1]))?;
    field.add_fates(fates)?;
    field.reset()?;
    Ok(field)
}

#[test]
fn fates_and_clashes(rt: HostRuntime) -> Result<(), Fail> {
    let request = Frame::part(Tech::A, &[0x26], 7)?;
    // what the two say, the fates; what is heard, the events with the reset, whether they obeyed, whether it is lit
    let rows = [
        (
            [0xAA, 0xAA],
            [Fate::Pass, Fate::Pass],
            Ok(Heard::Whole(Frame::whole(Tech::A, &[0xAA])?)),
            3,
            true,
            true,
        ),
        (
            [0xAA, 0xAA],
            [Fate::Pass, Fate::Damage],
            Ok(Heard::Damaged),
            3,
            true,
            true,
        ),
        (
            [0xAA, 0xAA],
            [Fate::Pass, Fate::Lose],
            Ok(Heard::Silent),
            3,
            true,
            true,
        ),
        (
            [0xAA, 0xAA],
            [Fate::Pass, Fate::Break],
            Err(AirFault::FieldLost),
            3,
            true,
            false,
        ),
        (
            [0xAA, 0xAA],
            [Fate::Damage, Fate::Pass],
            Ok(Heard::Silent),
            2,
            false,
            true,
        ),
        (
            [0xAA, 0xAA],
            [Fate::Lose, Fate::Pass],
            Ok(Heard::Silent),
            2,
            false,
            true,
        ),
        (
            [0xAA, 0xAA],
            [Fate::Break, Fate::Pass],
            Err(AirFault::FieldLost),
            2,
            false,
            false,
        ),
        (
            [0x0F, 0x1F],
            [Fate::Pass, Fate::Pass],
            Ok(Heard::Collided(Frame::part(Tech::A, &[0x0F], 4)?)),
            3,
            true,
            true,
        ),
        (
            [0x0F, 0x0E],
            [Fate::Pass, Fate::Pass],
            Ok(Heard::Collided(Frame::whole(Tech::A, &[])?)),
            3,
            true,
            true,
        ),
        (
            [0x0F, 0x1F],
            [Fate::Pass, Fate::Damage],
            Ok(Heard::Damaged),
            3,
            true,
            true,
        ),
    ];
    for (says, fates, heard, events, obeyed, lit) in rows {
        let mut field = field_of(rt.alloc(), says, &fates)?;
        let answer = field.transmit(&request, &mut Mute);
        assert!(rt; answer == heard);
        assert!(rt; field.is_lit() == lit);
        assert!(rt; field.trace().len() == events);
        let beacon = field.take_out(1);
        assert!(rt; beacon.obeyed == obeyed);
        assert!(rt; beacon.lit == lit);
    }
    Ok(())
}

#[test]
fn places(rt: HostRuntime) -> Result<(), Fail> {
    let mut field = field_of(rt.alloc(), [0x0F, 0x1F], &[])?;
    let other = Frame::whole(Tech::V, &[0x26, 0x01])?;
    assert!(rt; field.transmit(&other, &mut Mute) == Ok(Heard::Silent));
    let place = field.put_in(saying(0x1F))?;
    assert!(rt; place == 2);
    assert!(rt; !field.listener(2).lit);
    let first = field.take_out(0);
    assert!(rt; !first.obeyed);
    assert!(rt; field.take_trace().len() == 2);
    field.reset()?;
    let request = Frame::whole(Tech::A, &[0x50, 0x00])?;
    let answer = Frame::whole(Tech::A, &[0x1F])?;
    assert!(rt; field.transmit(&request, &mut Mute) == Ok(Heard::Whole(answer)));
    assert!(rt; field.trace().len() == 3);
    Ok(())
}

/// A tag that keeps the first byte of what it is told, and says an acknowledgement.
#[derive(Drop)]
struct Notepad {
    lit: bool,
    kept: u8,
}

/// The four bits of an acknowledgement.
const ACK: u8 = 0xA;

impl Listener for Notepad {
    ghost use Rattle.std.specs.Prelude.{[], ◌∷◌, true, false, Some, None, if◌then◌else◌, slice_index};
    ghost use Rattle.std.proofs.Common.{rules};
    ghost use Rattle.nfc_base.specs.Signal.{part_a};
    ghost use Rattle.nfc_base.specs.TagLinks.{plain_state};
    ghost use Rattle.nfc_base.specs.Far.{Untouched};
    ghost use Rattle.nfc_base.specs.declared.frame.Tech.TheVariants as techs;

    ghost machine = { record {
      tech = λ l. techs.A;
      handed = λ l f. Untouched;
      answer = λ l f reply. if l.lit then Some (part_a (10 ∷ []) 4) else None;
      after = λ l f reply. if l.lit then record l { kept = slice_index f.bytes 0 } else l;
      woken = λ l. record l { lit = true };
      darkened = λ l. record l { lit = false };
    } };

    ghost identifier = { λ l. 1 ∷ [] };

    ghost store = { λ l. l.kept ∷ [] };

    ghost is_ready = { λ l. false };

    ghost is_selected = { λ l. l.lit };

    ghost commands = { λ l s f. record {
      answer = Some (part_a (10 ∷ []) 4);
      after = plain_state (slice_index f.bytes 0 ∷ []);
    } };

    fn tech(&self) -> Tech {
        Tech::A
    }

    fn light(&mut self) {
        self.lit = true;
    }

    fn dark(&mut self) {
        self.lit = false;
    }

    fn hear<A: Answerer>(
        &mut self,
        _alloc: Global,
        frame: &Frame,
        _far: &mut A,
    ) -> Result<Option<Frame>, AllocError> {
        if !self.lit {
            return Ok(None);
        }
        let bytes = frame.view();
        self.kept = if bytes.is_empty() { 0 } else { bytes[0] };
        Ok(Some(Frame::part(Tech::A, &[ACK], 4).unwrap()))
    }

    ghost bounded = { Prim.search rules };

    ghost own_tech = { Prim.search rules };

    ghost step_keeps = { Prim.search rules };

    ghost light_keeps = { Prim.search rules };

    ghost dark_keeps = { Prim.search rules };

    ghost light_selects = { Prim.search rules };

    ghost stays_selected = { Prim.search rules };

    ghost dark_rests = { Prim.search rules };

    ghost rests = { Prim.search rules };

    ghost ignores = { Prim.search rules };
}

/// A lit field of one notepad, with these fates to come.
fn notepad_field(alloc: Global, fates: &[Fate]) -> Result<Field<Notepad>, Fail>
    ensures { IfOk result (λ f. HasPlainTag ⟦<Notepad as Listener>⟧ f 0) }
{
    let mut field = Field::new(alloc);
    field.put_in(Notepad {
        lit: false,
        kept: 0,
    })?;
    field.add_fates(fates)?;
    field.reset()?;
    Ok(field)
}

/// How two commands of one link end, 0 for an answer and else the number of the fault, what the tag keeps then, how
/// many events there were after the reset, and whether the field is lit.
fn asked_twice(alloc: Global, fates: &[Fate]) -> Result<(u8, u8, u8, usize, bool), Fail> {
    let mut field = notepad_field(alloc, fates)?;
    let first = Frame::whole(Tech::A, &[0x51, 0x52])?;
    let second = Frame::whole(Tech::A, &[0x61])?;
    let mut link = PlainLink::on(&mut field, 0);
    let one = told(link.ask(alloc, &first))?;
    let two = told(link.ask(alloc, &second))?;
    let events = field.trace().len();
    let kept = match field.listeners() {
        [notepad] => notepad.kept,
        _ => 0xFF,
    };
    Ok((one, two, kept, events, field.is_lit()))
}

/// One command to whatever plain tag stands at a place. A caller knows how few transmissions it took by the law.
fn asked_once<L: Listener>(alloc: Global, field: &mut Field<L>, place: usize, command: &Frame)
    requires tag { HasPlainTag L.Listener field.old place }
    requires fits { MayAskAt L.Listener field.old place command.now }
    ensures few { length field.new.trace ≤ length field.old.trace + 12 }
{
    few_sent::<L>();
    let mut link = PlainLink::on(field, place);
    let _ = link.ask(alloc, command);
}

fn told(answer: Result<Frame, AskFault>) -> Result<u8, Fail> {
    match answer {
        Ok(frame) => {
            if frame.is_same(&Frame::part(Tech::A, &[ACK], 4)?) {
                Ok(0)
            } else {
                Ok(0xFF)
            }
        }
        Err(fault) => Ok(fault.number()),
    }
}

#[test]
fn waits_of_a_link(rt: HostRuntime) -> Result<(), Fail> {
    let p = Fate::Pass;
    let d = Fate::Damage;
    let l = Fate::Lose;
    let b = Fate::Break;
    // the fates; how the two commands end, what the tag keeps, the events with the reset, whether the field is lit
    let rows: [(&[Fate], (u8, u8, u8, usize, bool)); 9] = [
        (&[], (0, 0, 0x61, 5, true)),
        (&[d], (0, 0, 0x61, 6, true)),
        (&[p, d, l], (0, 0, 0x61, 8, true)),
        (&[p, l, p, l, p, l, p, l, p, l], (0, 0, 0x61, 15, true)),
        (
            &[p, l, p, l, p, l, p, l, p, l, p, l],
            (2, 2, 0x51, 13, true),
        ),
        (&[l, d, l, d, l, d], (2, 2, 0, 7, true)),
        (&[b], (1, 1, 0, 2, false)),
        (&[p, b], (1, 1, 0x51, 3, false)),
        (&[p, p, d, d, d, d, d, d], (0, 2, 0x51, 9, true)),
    ];
    for (fates, wanted) in rows {
        let got = asked_twice(rt.alloc(), fates)?;
        assert!(rt; got == wanted, "{fates:?}: {got:?}");
    }
    Ok(())
}

#[test]
fn six_turns_at_most(rt: HostRuntime) -> Result<(), Fail> {
    let mut field = notepad_field(rt.alloc(), &[Fate::Lose; 12])?;
    let command = Frame::whole(Tech::A, &[0x51, 0x52])?;
    asked_once(rt.alloc(), &mut field, 0, &command);
    assert!(rt; field.trace().len() == 7);
    Ok(())
}
