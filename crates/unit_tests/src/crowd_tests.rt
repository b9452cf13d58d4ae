//! A search for Type 5 tags among tags that share their lowest bits, by the frames that it sends and the tags that it
//! finds.

use air_core::{Field, Listener};
use nfc_base::{Answerer, Event, Fate, Frame, Tech};
use nfca_poll::PollFault;
use nfcv_poll::find_all_v;
use std::alloc::{AllocError, Global};
use std::process::Abort;
use std::test::Fail;
use t5t_tag::T5Tag;

/// A Type 5 tag in the field. It is off until the field is lit.
#[derive(Drop)]
struct Vial {
    tag: T5Tag,
    lit: bool,
}

impl Listener for Vial {
    ghost use Rattle.std.specs.Prelude.{false, true, None, if◌then◌else◌};
    ghost use Rattle.std.proofs.Common.{rules, refl};
    ghost use Rattle.nfc_base.specs.Far.{Untouched};
    ghost use Rattle.nfc_base.specs.declared.frame.Tech.TheVariants as techs;
    ghost use Rattle.t5t_tag.specs.Step.{t5_answer, t5_after};
    ghost use Rattle.t5t_tag.specs.Store.{darkened};
    ghost use Rattle.unit_tests.specs.Vials.{powered_tech, powered_id, powered_ignores};

    ghost machine = { record {
      tech = λ l. techs.V;
      handed = λ l f. Untouched;
      answer = λ l f reply. if l.lit then t5_answer l.tag f else None;
      after = λ l f reply. record l { tag = if l.lit then t5_after l.tag f else l.tag };
      woken = λ l. record l { lit = true };
      darkened = λ l. record { tag = darkened l.tag; lit = false };
    } };

    ghost identifier = { λ l. l.tag.id };

    ghost store = { λ l. l.tag.store };

    ghost is_ready = { λ l. false };

    ghost is_selected = { λ l. l.lit };

    fn tech(&self) -> Tech {
        Tech::V
    }

    fn light(&mut self) {
        self.lit = true;
    }

    fn dark(&mut self) {
        self.tag.dark();
        self.lit = false;
    }

    fn hear<A: Answerer>(
        &mut self,
        _alloc: Global,
        frame: &Frame,
        _far: &mut A,
    ) -> Result<Option<Frame>, AllocError> {
        if self.lit {
            return Ok(self.tag.obey(frame));
        }
        Ok(None)
    }

    ghost bounded = { Prim.search rules };

    ghost own_tech = { λ l f g reply e. powered_tech l.lit l.tag f g e };

    ghost step_keeps = { λ l f reply. record { tech' = refl; identifier' = powered_id l.lit l.tag f; commands' = refl } };

    ghost light_keeps = { Prim.search rules };

    ghost dark_keeps = { Prim.search rules };

    ghost light_selects = { Prim.search rules };

    ghost stays_selected = { Prim.search rules };

    ghost dark_rests = { Prim.search rules };

    ghost rests = { Prim.search rules };

    ghost ignores = { λ l other f to own. (refl, powered_ignores l.lit l.tag other f to own) };
}

/// The content of each tag: four blocks of four bytes.
const CONTENT: [u8; 16] = [
    0xE1, 0x40, 0x01, 0x00, 0x03, 0x00, 0xFE, 0, 0, 0, 0, 0, 0, 0, 0, 0,
];

const P: Fate = Fate::Pass;

/// Three tags, of which two share their lowest four bits.
const THREE: [[u8; 8]; 3] = [
    [0xE0, 4, 1, 2, 3, 4, 5, 0x06],
    [0xE0, 4, 1, 2, 3, 4, 5, 0x16],
    [0xE0, 4, 1, 2, 3, 4, 5, 0x07],
];

/// The same ones, ascending.
const SORTED: [[u8; 8]; 3] = [
    [0xE0, 4, 1, 2, 3, 4, 5, 0x06],
    [0xE0, 4, 1, 2, 3, 4, 5, 0x07],
    [0xE0, 4, 1, 2, 3, 4, 5, 0x16],
];

/// A dark field of tags with these identifiers, and these fates to come.
fn field_of(alloc: Global, ids: &[[u8; 8]], fates: &[Fate]) -> Result<Field<Vial>, Fail> {
    let mut field = Field::new(alloc);
    for id in ids {
        let tag = T5Tag::new(*id, Vec::from_slice(alloc, &CONTENT)?, 4)?;
        field.put_in(Vial { tag, lit: false })?;
    }
    field.add_fates(fates)?;
    Ok(field)
}

/// Whether these are the tags that a search finds in a field.
fn is_found(alloc: Global, field: &mut Field<Vial>, wanted: &[[u8; 8]]) -> Result<bool, PollFault> {
    let found = find_all_v(alloc, field)?;
    Ok(found.as_slice() == wanted)
}

/// How often in a row a request is sent, the request, and the answer or clash with its tail; none where it has no
/// bytes.
type Row<'a> = (usize, &'a [u8], &'a [u8], u8);

fn is_frame(frame: &Frame, bytes: &[u8], tail: u8) -> bool {
    frame.tech() == Tech::V && frame.view() == bytes && frame.tail() == tail
}

/// The events behind the turn by which a trace begins, where it is of this row.
fn behind<'a>(trace: &'a [Event], row: &Row) -> Option<&'a [Event]> {
    let (_, request, answer, tail) = *row;
    match trace {
        [Event::Request { frame, .. }, rest @ ..] if is_frame(frame, request, 0) => match rest {
            [Event::Answer { frame, .. }, rest @ ..] if tail == 0 && is_frame(frame, answer, 0) =>
                Some(rest),
            [Event::Clash { frame, .. }, rest @ ..] if tail > 0 && is_frame(frame, answer, tail) =>
                Some(rest),
            _ if answer.is_empty() => Some(rest),
            _ => None,
        },
        _ => None,
    }
}

/// The requests of three tags, byte by byte: two rounds, three requests to stay quiet, four questions who is left.
const TURNS: [Row<'static>; 12] = [
    (1, &[0x06, 0x01, 0x00], &[], 0),
    (5, &[], &[], 0),
    (1, &[], &[0, 0, 0x06], 4),
    (1, &[], &[0, 0, 0x07, 5, 4, 3, 2, 1, 4, 0xE0], 0),
    (8, &[], &[], 0),
    (
        1,
        &[0x06, 0x01, 0x04, 0x06],
        &[0, 0, 0x06, 5, 4, 3, 2, 1, 4, 0xE0],
        0,
    ),
    (1, &[], &[0, 0, 0x16, 5, 4, 3, 2, 1, 4, 0xE0], 0),
    (14, &[], &[], 0),
    (1, &[0x22, 0x02, 0x06, 5, 4, 3, 2, 1, 4, 0xE0], &[], 0),
    (1, &[0x22, 0x02, 0x07, 5, 4, 3, 2, 1, 4, 0xE0], &[], 0),
    (1, &[0x22, 0x02, 0x16, 5, 4, 3, 2, 1, 4, 0xE0], &[], 0),
    (4, &[0x26, 0x01, 0x00], &[], 0),
];

#[test]
fn three_tags_of_which_two_clash(rt: HostRuntime) -> Result<(), Fail> {
    let mut field = field_of(rt.alloc(), &THREE, &[])?;
    assert_eq!(rt; is_found(rt.alloc(), &mut field, &SORTED), Ok(true));
    // a reset, 39 requests, three answers, a clash
    assert_eq!(rt; field.trace().len(), 44);
    let mut rest = &field.trace()[1..];
    for row in &TURNS {
        for _ in 0..row.0 {
            match behind(rest, row) {
                Some(more) => rest = more,
                None => panic!(rt; "at {:?}", row.1),
            }
        }
    }
    assert!(rt; rest.is_empty());
    Ok(())
}

/// Passes, and behind them this fate.
fn late(alloc: Global, passes: usize, last: Fate) -> Result<Vec<Fate>, Fail> {
    let mut fates = vec![in alloc; P; passes]?;
    fates.push(last)?;
    Ok(fates)
}

#[test]
fn one_transmission_with_another_fate(rt: HostRuntime) -> Result<(), Fail> {
    const LOST: Result<bool, PollFault> = Err(PollFault::FieldLost);
    let rows = [
        (Fate::Lose, Ok(true)),
        (Fate::Damage, Ok(true)),
        (Fate::Break, LOST),
    ];
    for (fate, wanted) in rows {
        for passes in 0..43 {
            let fates = late(rt.alloc(), passes, fate)?;
            let mut field = field_of(rt.alloc(), &THREE, &fates)?;
            assert_eq!(rt;
                is_found(rt.alloc(), &mut field, &SORTED),
                wanted,
                "{fate:?} behind {passes}"
            );
        }
    }
    Ok(())
}

/// Twenty requests that are lost: sixteen slots, and four questions who is left.
const ALL_LOST: [Fate; 20] = [Fate::Lose; 20];

/// How many inventories of sixteen slots were sent, which begin with 06h, and how many empty frames.
fn requests_of(trace: &[Event]) -> (usize, usize) {
    let mut slots = 0usize;
    let mut nexts = 0usize;
    for event in trace {
        if let Event::Request { frame, .. } = event {
            match frame.view() {
                [] => nexts = nexts.saturating_add(1),
                [0x06, ..] => slots = slots.saturating_add(1),
                _ => {}
            }
        }
    }
    (slots, nexts)
}

/// Identifiers that share their lowest 56 bits.
fn alike() -> [[u8; 8]; 16] {
    let mut ids = [[0xE0, 4, 1, 2, 3, 4, 5, 6]; 16];
    for n in 0..16 {
        ids[n][0] = 0xE0 + n as u8;
    }
    ids
}

/// Eight pairs of identifiers, ascending, each of which shares its lowest 60 bits.
fn pairs() -> [[u8; 8]; 16] {
    let mut ids = [[0x00, 4, 1, 2, 3, 4, 5, 0]; 16];
    for n in 0..8 {
        ids[n][7] = n as u8;
        ids[n + 8][7] = n as u8;
        ids[n + 8][0] = 0x10;
    }
    ids
}

#[test]
fn rounds_of_many_tags(rt: HostRuntime) -> Result<(), Fail> {
    // the tags, the fates, what is found, and how many rounds and how many empty frames there are
    let alike = alike();
    let pairs = pairs();
    let rows: [(&[[u8; 8]], &[Fate], &[[u8; 8]], usize); 4] = [
        (&[], &[], &[], 1),
        (&THREE, &ALL_LOST, &[], 1),
        (&alike, &[], &alike, 15),
        (&pairs, &[], &pairs, 121),
    ];
    for (ids, fates, wanted, slots) in rows {
        let mut field = field_of(rt.alloc(), ids, fates)?;
        assert_eq!(rt;
            is_found(rt.alloc(), &mut field, wanted),
            Ok(true),
            "{slots} rounds"
        );
        assert_eq!(rt; requests_of(field.trace()), (slots, 15 * slots));
        if ids.is_empty() {
            assert_eq!(rt; field.trace().len(), 21);
        }
    }
    Ok(())
}

/// A device of NFC-V that answers each inventory of slots by eleven bytes.
#[derive(Drop)]
struct Stray {
    lit: bool,
}

impl Listener for Stray {
    ghost use Rattle.std.specs.Prelude.{[], ◌∷◌, false, true, ◌==◌, get_or, Some, None, if◌then◌else◌};
    ghost use Rattle.std.proofs.Common.{rules, refl, ap};
    ghost use Rattle.nfc_base.specs.Signal.{whole_v};
    ghost use Rattle.nfc_base.specs.Far.{Untouched};
    ghost use Rattle.nfc_base.specs.declared.frame.Tech.TheVariants as techs;

    ghost machine = { record {
      tech = λ l. techs.V;
      handed = λ l f. Untouched;
      answer = λ l f reply. if get_or f.bytes 0 0 == 0x06
          then Some (whole_v (0 ∷ 0 ∷ 6 ∷ 5 ∷ 4 ∷ 3 ∷ 2 ∷ 1 ∷ 4 ∷ 0xE0 ∷ 0 ∷ [])) else None;
      after = λ l f reply. l;
      woken = λ l. record l { lit = true };
      darkened = λ l. record l { lit = false };
    } };

    ghost identifier = { λ l. [] };

    ghost store = { λ l. [] };

    ghost is_ready = { λ l. false };

    ghost is_selected = { λ l. l.lit };

    fn tech(&self) -> Tech {
        Tech::V
    }

    fn light(&mut self) {
        self.lit = true;
    }

    fn dark(&mut self) {
        self.lit = false;
    }

    fn hear<A: Answerer>(
        &mut self,
        _alloc: Global,
        frame: &Frame,
        _far: &mut A,
    ) -> Result<Option<Frame>, AllocError> {
        match frame.view() {
            [0x06, ..] => Ok(Some(Frame::whole(
                Tech::V,
                &[0, 0, 6, 5, 4, 3, 2, 1, 4, 0xE0, 0],
            ).unwrap())),
            _ => Ok(None),
        }
    }

    ghost bounded = { Prim.search rules };

    ghost own_tech = { Prim.search rules };

    ghost step_keeps = { Prim.search rules };

    ghost light_keeps = { Prim.search rules };

    ghost dark_keeps = { Prim.search rules };

    ghost light_selects = { Prim.search rules };

    ghost stays_selected = { Prim.search rules };

    ghost dark_rests = { Prim.search rules };

    ghost rests = { Prim.search rules };

    ghost ignores = { λ l other f to own. (
      refl,
      ap (λ x. if get_or x.bytes 0 0 == 0x06
          then Some (whole_v (0 ∷ 0 ∷ 6 ∷ 5 ∷ 4 ∷ 3 ∷ 2 ∷ 1 ∷ 4 ∷ 0xE0 ∷ 0 ∷ [])) else None) to.1.frame,
    ) };
}

#[test]
fn an_answer_of_eleven_bytes(rt: HostRuntime) -> Result<(), Fail> {
    let mut field = Field::new(rt.alloc());
    field.put_in(Stray { lit: false })?;
    match find_all_v(rt.alloc(), &mut field) {
        Err(fault) => assert_eq!(rt; fault, PollFault::BadAnswer),
        Ok(_) => panic!(rt; "found"),
    }
    // a reset, the first request, its answer
    assert_eq!(rt; field.trace().len(), 3);
    Ok(())
}
