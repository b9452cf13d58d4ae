//! Fronts over plain machines, and what a reader finds among them.

ghost use Rattle.std.specs.Prelude.{◌≡◌, ◌<◌, IfOk, IfSome};
ghost use Rattle.air_core.specs.PlainTags.{HasPlainTag};
ghost use Rattle.nfc_base.specs.Headed.{is_headed};

use air_core::{Field, Listener, PlainLink};
use nfc_base::{Answerer, Event, Fate, Frame, Heard, Mute, TagLink, Tech};
use nfca_poll::{
    Front, Ident, Kind, Picked, PollFault, UpStep, Upper, Vcrowd, find_all, inventory_one, pick,
    pick_v, resolve,
};
use std::alloc::{AllocError, Global};
use std::process::Abort;
use std::test::Fail;

/// A Type 4 tag whose link takes every frame, and falls asleep at two bytes that begin with 30h.
#[derive(Drop)]
struct Card {
    linked: bool,
}

/// An NFC-A frame of so many whole bytes that begins with this one.
fn is_headed(frame: &Frame, size: usize, head: u8) -> bool
    requires some { 0 < size }
    ensures { result ≡ is_headed size head frame.now }
{
    frame.tech() == Tech::A
        && frame.tail() == 0
        && frame.view().len() == size
        && frame.view()[0] == head
}

impl Upper for Card {
    ghost use Rattle.std.specs.Prelude.{[], ◌∷◌, true, false, ◌||◌, if◌then◌else◌};
    ghost use Rattle.std.proofs.Common.{rules, refl, ap, ◌∙◌};
    ghost use Rattle.nfc_base.specs.Signal.{whole_a};
    ghost use Rattle.nfc_base.specs.Far.{Untouched};
    ghost use Rattle.nfc_base.specs.Headed.{is_rats, is_headed};
    ghost use Rattle.nfca_poll.specs.laws.OwnFrames.{call_begins, no_read};
    ghost use Rattle.nfca_poll.specs.declared.kind.Kind.TheVariants.{T4};
    ghost use Rattle.nfca_poll.specs.declared.upper.UpStep.TheVariants as steps;

    ghost machine = { record {
      kind = λ u. T4;
      handed = λ u f. Untouched;
      says = λ u f reply. if u.linked then
          (if is_headed 2 0x30 f then steps.Sleep (whole_a (170 ∷ [])) else steps.Quiet) else
          (if is_rats f then steps.Reply (whole_a (170 ∷ [])) else steps.Foreign);
      after = λ u f reply. record { linked = u.linked || is_rats f };
      cleared = λ u. record { linked = false };
    } };

    ghost store = { λ u. [] };

    ghost is_open = { λ u. u.linked };

    fn kind(&self) -> Kind {
        Kind::T4
    }

    fn clear(&mut self) {
        self.linked = false;
    }

    fn hear<A: Answerer>(
        &mut self,
        _alloc: Global,
        frame: &Frame,
        _far: &mut A,
    ) -> Result<UpStep, AllocError> {
        let answer = Frame::whole(Tech::A, &[0xAA]).unwrap();
        if self.linked && is_headed(frame, 2, 0x30) {
            return Ok(UpStep::Sleep(answer));
        }
        if self.linked {
            return Ok(UpStep::Quiet);
        }
        if is_headed(frame, 2, 0xE0) {
            self.linked = true;
            return Ok(UpStep::Reply(answer));
        }
        Ok(UpStep::Foreign)
    }

    ghost laws = { record {
      takes = Prim.search rules;
      foreign = Prim.search rules;
      opens = Prim.search rules;
      closes = Prim.search rules;
      no_call = Prim.search rules;
      silent = λ u f c o e. (
        refl,
        ap
            (λ v. if v then (if is_headed 2 0x30 f then steps.Sleep (whole_a (170 ∷ [])) else steps.Quiet) else
            (if is_rats f then steps.Reply (whole_a (170 ∷ [])) else steps.Foreign)) o ∙ ap
            (λ v. if v then steps.Sleep (whole_a (170 ∷ [])) else steps.Quiet) (no_read f (call_begins f c e)),
      );
      waits = Prim.search rules;
      bounded = Prim.search rules;
      own_tech = Prim.search rules;
      step_keeps = Prim.search rules;
      clear_keeps = Prim.search rules;
    } };
}

fn front_of(id: &[u8]) -> Result<Front<Card>, Fail> {
    Ok(Front::new(Ident::new(id)?, Card { linked: false }))
}

/// A frame and its tail, and the answer and its tail; no answer where it has no bytes.
type Row<'a> = (&'a [u8], u8, &'a [u8], u8);

/// Whether a frame of NFC-A has these bytes and this tail.
fn is_frame(frame: &Frame, bytes: &[u8], tail: u8) -> bool {
    frame.tech() == Tech::A && frame.view() == bytes && frame.tail() == tail
}

/// Whether an answer has these bytes and this tail; where it has no bytes, whether there is none.
fn is_answer(told: &Option<Frame>, bytes: &[u8], tail: u8) -> bool {
    match told {
        Some(frame) => !bytes.is_empty() && is_frame(frame, bytes, tail),
        None => bytes.is_empty(),
    }
}

fn walk(rt: &impl Abort, alloc: Global, front: &mut Front<Card>, rows: &[Row]) -> Result<(), Fail> {
    for (request, tail, answer, answer_tail) in rows {
        let frame = Frame::part(Tech::A, request, *tail)?;
        let told = front.hear(alloc, &frame, &mut Mute)?;
        assert!(rt;
            is_answer(&told, answer, *answer_tail),
            "at {request:?}: {told:?}"
        );
    }
    Ok(())
}

const SEVEN: [u8; 7] = [0x04, 0x62, 0x26, 0x11, 0x80, 0x1D, 0x80];

/// What a front of these seven bytes answers, and that its card falls asleep.
const ACTIVATION: [Row; 20] = [
    (&[0x26], 7, &[0x44, 0x00], 0),
    (&[0x93, 0x20], 0, &[0x88, 0x04, 0x62, 0x26, 0xC8], 0),
    (&[0x93, 0x70, 0x88, 0x04, 0x62, 0x26, 0xC8], 0, &[0x04], 0),
    (&[0x95, 0x20], 0, &[0x11, 0x80, 0x1D, 0x80, 0x0C], 0),
    (&[0x95, 0x31, 0x11, 0x00], 1, &[0xC0, 0x0E, 0x40, 0x06], 7),
    (&[0x95, 0x70, 0x11, 0x80, 0x1D, 0x80, 0x0C], 0, &[0x20], 0),
    (&[0xE0, 0x80], 0, &[0xAA], 0),
    (&[0x50, 0x00], 0, &[], 0),
    (&[0x26], 7, &[], 0),
    (&[0x30, 0x00], 0, &[0xAA], 0),
    (&[0x26], 7, &[], 0),
    (&[0x52], 7, &[0x44, 0x00], 0),
    (&[0x93, 0x70, 0x88, 0x04, 0x62, 0x26, 0xC8], 0, &[0x04], 0),
    (&[0x93, 0x20], 0, &[], 0),
    (&[0x26], 7, &[], 0),
    (&[0x52], 7, &[0x44, 0x00], 0),
    (&[0x93, 0x70, 0x88, 0x04, 0x62, 0x26, 0xC8], 0, &[0x04], 0),
    (&[0x95, 0x70, 0x11, 0x80, 0x1D, 0x80, 0x0C], 0, &[0x20], 0),
    (&[0x50, 0x00], 0, &[], 0),
    (&[0x26], 7, &[], 0),
];

/// A front in the dark answers nothing, though its card's link took frames.
fn is_dark(rt: &impl Abort, alloc: Global, front: &mut Front<Card>) -> Result<(), Fail> {
    assert!(rt; !front.as_upper().linked);
    front.upper().linked = true;
    front.dark();
    walk(rt, alloc, front, &[(&[0x52], 7, &[], 0)])
}

#[test]
fn activation_of_seven_bytes(rt: HostRuntime) -> Result<(), Fail> {
    let mut front = front_of(&SEVEN)?;
    assert_eq!(rt;
        (front.tech(), front.id().view()),
        (Tech::A, SEVEN.as_slice())
    );
    front.light();
    walk(&rt, rt.alloc(), &mut front, &ACTIVATION)?;
    is_dark(&rt, rt.alloc(), &mut front)
}

/// What an event is: a reset, a request, an answer or a clash, with its bytes and its tail.
type Line<'a> = (char, &'a [u8], u8);

fn is_line(event: &Event, line: &Line) -> bool {
    let (letter, bytes, tail) = *line;
    match event {
        Event::Reset => letter == '!',
        Event::Request { frame, .. } => {
            letter == '>' && frame.view() == bytes && frame.tail() == tail
        }
        Event::Answer { frame, .. } => {
            letter == '<' && frame.view() == bytes && frame.tail() == tail
        }
        Event::Clash { frame, .. } => {
            letter == '*' && frame.view() == bytes && frame.tail() == tail
        }
    }
}

fn are_lines(rt: &impl Abort, events: &[Event], lines: &[Line]) {
    assert_eq!(rt; events.len(), lines.len());
    begin_with(rt, events, lines);
}

fn is_line_at(events: &[Event], at: usize, line: &Line) -> bool {
    match events.get(at) {
        Some(event) => is_line(event, line),
        None => false,
    }
}

/// Each of these lines is the event at its place; where there is no event, it isn't.
fn begin_with(rt: &impl Abort, events: &[Event], lines: &[Line]) {
    for (at, line) in lines.iter().enumerate() {
        assert!(rt;
            is_line_at(events, at, line),
            "at {at}: {:?}",
            events.get(at)
        );
    }
}

/// Fronts with these identifiers come into a field, and these fates.
fn fill(field: &mut Field<Front<Card>>, ids: &[&[u8]], fates: &[Fate]) -> Result<(), Fail> {
    for id in ids {
        field.put_in(front_of(id)?)?;
    }
    Ok(field.add_fates(fates)?)
}

/// A lit field of fronts with these identifiers, and these fates to come.
fn field_of(alloc: Global, ids: &[&[u8]], fates: &[Fate]) -> Result<Field<Front<Card>>, Fail> {
    let mut field = Field::new(alloc);
    fill(&mut field, ids, fates)?;
    field.reset()?;
    Ok(field)
}

/// A resolution selects the device with this identifier.
fn resolves(rt: &impl Abort, field: &mut Field<Front<Card>>, id: &[u8]) -> Result<(), Fail> {
    let picked = Picked {
        id: Ident::new(id)?,
        kind: Kind::T4,
    };
    assert_eq!(rt; resolve(field), Ok(picked));
    Ok(())
}

/// Two of four bytes, that differ in their second bit, and one of seven.
const THREE: [&[u8]; 3] = [
    &[1, 2, 3, 4],
    &[3, 2, 3, 4],
    &[0x04, 0x11, 0x22, 0x33, 0x44, 0x55, 0x66],
];

const TWO: [&[u8]; 2] = [&[1, 2, 3, 4], &[3, 2, 3, 4]];

#[test]
fn bit_by_bit(rt: HostRuntime) -> Result<(), Fail> {
    let mut field = field_of(rt.alloc(), &THREE, &[])?;
    resolves(&rt, &mut field, THREE[1])?;
    are_lines(
        &rt,
        field.trace(),
        &[
            ('!', &[], 0),
            ('>', &[0x26], 7),
            ('*', &[0x04], 6),
            ('>', &[0x93, 0x20], 0),
            ('*', &[], 0),
            ('>', &[0x93, 0x21, 0x01], 1),
            ('*', &[], 0),
            ('>', &[0x93, 0x22, 0x03], 2),
            ('<', &[0x80, 0xC0, 0x00, 0x81, 0x01], 6),
            ('>', &[0x93, 0x70, 3, 2, 3, 4, 6], 0),
            ('<', &[0x20], 0),
        ],
    );
    Ok(())
}

#[test]
fn picked_in_turn_where_no_reset_is_between(rt: HostRuntime) -> Result<(), Fail> {
    let mut field = field_of(rt.alloc(), &TWO, &[])?;
    for at in [1, 0, 1] {
        resolves(&rt, &mut field, TWO[at])?;
    }
    Ok(())
}

const TEN: [u8; 10] = [0x04, 0x62, 0x26, 0x11, 0x80, 0x1D, 0x80, 1, 2, 3];

/// A resolution of its three levels.
const THREE_LEVELS: [Line; 15] = [
    ('!', &[], 0),
    ('>', &[0x26], 7),
    ('<', &[0x84, 0x00], 0),
    ('>', &[0x93, 0x20], 0),
    ('<', &[0x88, 0x04, 0x62, 0x26, 0xC8], 0),
    ('>', &[0x93, 0x70, 0x88, 0x04, 0x62, 0x26, 0xC8], 0),
    ('<', &[0x04], 0),
    ('>', &[0x95, 0x20], 0),
    ('<', &[0x88, 0x11, 0x80, 0x1D, 0x04], 0),
    ('>', &[0x95, 0x70, 0x88, 0x11, 0x80, 0x1D, 0x04], 0),
    ('<', &[0x04], 0),
    ('>', &[0x97, 0x20], 0),
    ('<', &[0x80, 0x01, 0x02, 0x03, 0x80], 0),
    ('>', &[0x97, 0x70, 0x80, 0x01, 0x02, 0x03, 0x80], 0),
    ('<', &[0x20], 0),
];

#[test]
fn equal_levels_are_heard_as_one(rt: HostRuntime) -> Result<(), Fail> {
    let mut field = field_of(rt.alloc(), &[&TEN, &TEN], &[])?;
    resolves(&rt, &mut field, &TEN)?;
    are_lines(&rt, field.trace(), &THREE_LEVELS);
    Ok(())
}

const P: Fate = Fate::Pass;

const D: Fate = Fate::Damage;

const L: Fate = Fate::Lose;

const B: Fate = Fate::Break;

/// What a resolution comes to by these fates.
fn resolved(alloc: Global, fates: &[Fate]) -> Result<Result<Picked, PollFault>, Fail> {
    let mut field = field_of(alloc, &[&[1, 2, 3, 4]], fates)?;
    Ok(resolve(&mut field))
}

/// Each call tells that a field is dark.
fn calls_tell_dark(rt: &impl Abort, field: &mut Field<Front<Card>>) {
    assert_eq!(rt; resolve(field), Err(PollFault::FieldLost));
    let told = (inventory_one(field), pick_v(field, [0; 8]));
    let dark = (Err(PollFault::FieldLost), Err(PollFault::FieldLost));
    assert_eq!(rt; told, dark);
}

#[test]
fn faults(rt: HostRuntime) -> Result<(), Fail> {
    const ROWS: [(&[Fate], PollFault); 6] = [
        (&[L, L, D, L], PollFault::Nobody),
        (&[P, L, L, L, L], PollFault::Nobody),
        (&[P, D, L], PollFault::Disturbed),
        (&[P, P, P, P, P, D], PollFault::Disturbed),
        (&[L, L, B], PollFault::FieldLost),
        (&[P, P, P, B], PollFault::FieldLost),
    ];
    for &(fates, fault) in &ROWS {
        let told = resolved(rt.alloc(), fates)?;
        assert_eq!(rt; told.err(), Some(fault), "at {fates:?}");
    }
    calls_tell_dark(&rt, &mut Field::new(rt.alloc()));
    assert_eq!(rt; PollFault::BadAnswer.number(), 6);
    Ok(())
}

/// How many of the events are this one.
fn count_of(events: &[Event], line: &Line) -> usize {
    let mut count = 0usize;
    for event in events {
        if is_line(event, line) {
            count = count.saturating_add(1);
        }
    }
    count
}

/// Four devices in the order in which they are found.
const CROWD: [&[u8]; 4] = [
    &[3, 2, 3, 4],
    &[1, 2, 3, 4],
    &[0x05, 1, 2, 3, 4, 5, 6, 7, 8, 9],
    &[0x04, 0x11, 0x22, 0x33, 0x44, 0x55, 0x66],
];

/// The same in the order in which they come into the field.
const PLACED: [&[u8]; 4] = [
    &[1, 2, 3, 4],
    &[0x04, 0x11, 0x22, 0x33, 0x44, 0x55, 0x66],
    &[3, 2, 3, 4],
    &[0x05, 1, 2, 3, 4, 5, 6, 7, 8, 9],
];

fn is_found(found: &[Picked], at: usize, id: &[u8]) -> bool {
    match found.get(at) {
        Some(device) => device.id.view() == id && device.kind == Kind::T4,
        None => false,
    }
}

fn are_crowd(rt: &impl Abort, found: &[Picked]) {
    assert_eq!(rt; found.len(), CROWD.len());
    for (at, id) in CROWD.iter().enumerate() {
        assert!(rt; is_found(found, at, id), "at {at}: {found:?}");
    }
}

fn finds_crowd(rt: &impl Abort, alloc: Global, field: &mut Field<Front<Card>>) -> Result<(), Fail> {
    are_crowd(rt, &find_all(alloc, field)?);
    Ok(())
}

/// What is heard behind this frame.
fn heard(field: &mut Field<Front<Card>>, bytes: &[u8], tail: u8) -> Result<Heard, Fail> {
    let frame = Frame::part(Tech::A, bytes, tail)?;
    Ok(field.transmit(&frame, &mut Mute)?)
}

/// One card alone answers this frame.
fn one_answers(rt: &impl Abort, field: &mut Field<Front<Card>>, bytes: &[u8]) -> Result<(), Fail> {
    match heard(field, bytes, 0)? {
        Heard::Whole(frame) => assert!(rt; is_frame(&frame, &[0xAA], 0), "{frame:?}"),
        _ => return Err(Fail::new("not one answer")),
    }
    Ok(())
}

/// What comes of it where the device with this identifier is picked.
fn picks(
    alloc: Global,
    field: &mut Field<Front<Card>>,
    id: &[u8],
) -> Result<Result<Kind, PollFault>, Fail> {
    let id = Ident::new(id)?;
    Ok(pick(alloc, field, &id))
}

/// After the call the device is active alone, so it alone answers RATS, and the frame by which it falls asleep.
fn is_active_alone(
    rt: &impl Abort,
    alloc: Global,
    field: &mut Field<Front<Card>>,
    id: &[u8],
) -> Result<(), Fail> {
    assert_eq!(rt; picks(alloc, field, id)?, Ok(Kind::T4), "at {id:?}");
    one_answers(rt, field, &[0xE0, 0x80])?;
    one_answers(rt, field, &[0x30, 0x00])
}

/// Each device of the crowd is picked in turn, and then nobody is awake.
fn picks_crowd(rt: &impl Abort, alloc: Global, field: &mut Field<Front<Card>>) -> Result<(), Fail> {
    for id in CROWD.iter() {
        is_active_alone(rt, alloc, field, id)?;
    }
    // the last one of the crowd was found behind all others, which sleep
    assert_eq!(rt; heard(field, &[0x26], 7)?, Heard::Silent);
    Ok(())
}

fn finds_no_other(
    rt: &impl Abort,
    alloc: Global,
    field: &mut Field<Front<Card>>,
) -> Result<(), Fail> {
    let absent = picks(alloc, field, &[9, 9, 9, 9])?;
    assert_eq!(rt; absent, Err(PollFault::NotFound));
    Ok(())
}

#[test]
fn crowd_in_order(rt: HostRuntime) -> Result<(), Fail> {
    let alloc = rt.alloc();
    let mut field = field_of(alloc, &PLACED, &[])?;
    finds_crowd(&rt, alloc, &mut field)?;
    picks_crowd(&rt, alloc, &mut field)?;
    finds_no_other(&rt, alloc, &mut field)
}

#[test]
fn first_round_of_three(rt: HostRuntime) -> Result<(), Fail> {
    let mut field = Field::new(rt.alloc());
    fill(&mut field, &THREE, &[])?;
    let found = find_all(rt.alloc(), &mut field)?;
    assert_eq!(rt; found.len(), 3);
    begin_with(
        &rt,
        field.trace(),
        &[
            ('!', &[], 0),
            ('>', &[0x26], 7),
            ('*', &[0x04], 6),
            ('>', &[0x93, 0x20], 0),
            ('*', &[], 0),
            ('>', &[0x93, 0x21, 0x01], 1),
            ('*', &[], 0),
            ('>', &[0x93, 0x22, 0x03], 2),
            ('<', &[0x80, 0xC0, 0x00, 0x81, 0x01], 6),
            ('>', &[0x93, 0x70, 3, 2, 3, 4, 6], 0),
            ('<', &[0x20], 0),
            ('>', &[0x50, 0x00], 0),
        ],
    );
    Ok(())
}

/// What is found of two devices by these fates: how many, in how many rounds, with how many SLP_REQ.
type Rounds = (Result<usize, PollFault>, usize, usize);

/// How many devices are found.
fn count_found(alloc: Global, field: &mut Field<Front<Card>>) -> Result<usize, PollFault> {
    let devices = find_all(alloc, field)?;
    Ok(devices.len())
}

fn rounds(alloc: Global, fates: &[Fate]) -> Result<Rounds, Fail> {
    let mut field = field_of(alloc, &TWO, fates)?;
    let _ = field.take_trace();
    let found = count_found(alloc, &mut field);
    let trace = field.trace();
    let resets = count_of(trace, &('!', &[], 0));
    Ok((found, resets, count_of(trace, &('>', &[0x50, 0x00], 0))))
}

/// What comes of the first of two devices by these fates, where it is picked.
fn first_picked(alloc: Global, fates: &[Fate]) -> Result<Result<Kind, PollFault>, Fail> {
    picks(alloc, &mut field_of(alloc, &TWO, fates)?, TWO[0])
}

/// What two devices come to by these fates: what is found of them, and what comes of the first one.
type Noisy = (Rounds, Result<Kind, PollFault>);

fn noisy(alloc: Global, fates: &[Fate]) -> Result<Noisy, Fail> {
    Ok((rounds(alloc, fates)?, first_picked(alloc, fates)?))
}

const LOST: PollFault = PollFault::FieldLost;

const NOISE: PollFault = PollFault::Disturbed;

#[test]
fn rounds_under_noise(rt: HostRuntime) -> Result<(), Fail> {
    const ROWS: [(&[Fate], Rounds, Result<Kind, PollFault>); 9] = [
        (&[], (Ok(2), 1, 2), Ok(Kind::T4)),
        (&[P, P, P, P, P, P, P, P, L], (Ok(2), 2, 4), Ok(Kind::T4)),
        (&[P, P, P, P, P, D], (Ok(2), 2, 2), Ok(Kind::T4)),
        (
            &[P, P, P, D, P, P, P, D, P, P, P, D, P, P, P, D],
            (Err(NOISE), 4, 0),
            Err(NOISE),
        ),
        (
            &[P, P, P, D, P, P, P, D, P, P, P, D],
            (Ok(2), 4, 2),
            Ok(Kind::T4),
        ),
        (&[L, L, L, L], (Ok(0), 1, 0), Err(PollFault::NotFound)),
        (&[P, P, P, B], (Err(LOST), 1, 0), Err(LOST)),
        (&[P, P, P, P, P, P, P, P, B], (Err(LOST), 1, 1), Err(LOST)),
        (&[P, P, P, D, L, B], (Err(LOST), 2, 0), Err(LOST)),
    ];
    for &(fates, found, picked) in &ROWS {
        assert_eq!(rt; noisy(rt.alloc(), fates)?, (found, picked), "at {fates:?}");
    }
    Ok(())
}

/// A Type 2 tag without memory, which acknowledges each READ and WRITE by this byte.
#[derive(Drop)]
struct Pad {
    ack: u8,
}

impl Upper for Pad {
    ghost use Rattle.std.specs.Prelude.{[], ◌∷◌, true, false, Some, None, if◌then◌else◌};
    ghost use Rattle.std.proofs.Common.{rules};
    ghost use Rattle.nfc_base.specs.Signal.{whole_a};
    ghost use Rattle.nfc_base.specs.Far.{Untouched};
    ghost use Rattle.nfc_base.specs.Headed.{is_t2_frame};
    ghost use Rattle.nfca_poll.specs.declared.kind.Kind.TheVariants.{T2};
    ghost use Rattle.nfca_poll.specs.declared.upper.UpStep.TheVariants as steps;

    ghost machine = { record {
      kind = λ u. T2;
      handed = λ u f. Untouched;
      says = λ u f reply. if is_t2_frame f then steps.Reply (whole_a (u.ack ∷ [])) else steps.Foreign;
      after = λ u f reply. u;
      cleared = λ u. u;
    } };

    ghost store = { λ u. [] };

    ghost commands = { λ u s f. record {
      answer = if is_t2_frame f then Some (whole_a (u.ack ∷ [])) else None;
      after = s;
    } };

    fn kind(&self) -> Kind {
        Kind::T2
    }

    fn clear(&mut self) {}

    fn hear<A: Answerer>(
        &mut self,
        _alloc: Global,
        frame: &Frame,
        _far: &mut A,
    ) -> Result<UpStep, AllocError> {
        if is_headed(frame, 2, 0x30) || is_headed(frame, 6, 0xA2) {
            return Ok(UpStep::Reply(Frame::whole(Tech::A, &[self.ack]).unwrap()));
        }
        Ok(UpStep::Foreign)
    }

    ghost laws = { Prim.search rules };
}

/// A field of one such tag, which is selected.
fn pad_field(alloc: Global) -> Result<Option<Field<Front<Pad>>>, Fail>
    ensures { IfOk result (λ o. IfSome o (λ f. HasPlainTag ⟦<Front<Pad> as Listener>⟧ f 0)) }
{
    let id = Ident::new(&[1, 2, 3, 4])?;
    let mut field = Field::new(alloc);
    field.put_in(Front::new(Ident::new(&[1, 2, 3, 4])?, Pad { ack: 0xAA }))?;
    if pick(alloc, &mut field, &id)? != Kind::T2 {
        return Ok(None);
    }
    match field.listeners() {
        [front] if *front.id() == id => {}
        _ => return Ok(None),
    }
    Ok(Some(field))
}

/// The tag is asked over a link, and answers.
fn answers_read(rt: &impl Abort, alloc: Global, field: &mut Field<Front<Pad>>) -> Result<(), Fail>
    requires { HasPlainTag ⟦<Front<Pad> as Listener>⟧ field.old 0 }
{
    let read = Frame::whole(Tech::A, &[0x30, 0])?;
    let answer = Frame::whole(Tech::A, &[0xAA])?;
    assert_eq!(rt; PlainLink::on(field, 0).ask(alloc, &read), Ok(answer));
    Ok(())
}

#[test]
fn plain_link_to_a_front(rt: HostRuntime) -> Result<(), Fail> {
    match pad_field(rt.alloc())? {
        Some(mut field) => answers_read(&rt, rt.alloc(), &mut field),
        None => Err(Fail::new("not selected")),
    }
}

/// An NFC-V device that answers each inventory, maybe too short.
#[derive(Drop)]
struct Vicinity {
    low: u8,
    short: bool,
    lit: bool,
}

impl Listener for Vicinity {
    ghost use Rattle.std.specs.Prelude.{[], ◌∷◌, false, true, ◌==◌, get_or, Some, None, if◌then◌else◌};
    ghost use Rattle.std.proofs.Common.{rules, refl, ap};
    ghost use Rattle.nfc_base.specs.Signal.{whole_v};
    ghost use Rattle.nfc_base.specs.Far.{Untouched};
    ghost use Rattle.nfc_base.specs.declared.frame.Tech.TheVariants as techs;

    ghost machine = { record {
      tech = λ l. techs.V;
      handed = λ l f. Untouched;
      answer = λ l f reply. if get_or f.bytes 0 0 == 0x26
          then Some (whole_v (if l.short then 0 ∷ 0 ∷ l.low ∷ [] else 0 ∷ 0 ∷ l.low ∷ 5 ∷ 4 ∷ 3 ∷ 2 ∷ 1 ∷ 4 ∷ 0xE0 ∷ []))
          else None;
      after = λ l f reply. l;
      woken = λ l. record l { lit = true };
      darkened = λ l. record l { lit = false };
    } };

    ghost identifier = { λ l. [] };

    ghost store = { λ l. [] };

    ghost is_ready = { λ l. false };

    ghost is_selected = { λ l. l.lit };

    fn tech(&self) -> Tech {
        Tech::V
    }

    fn light(&mut self) {
        self.lit = true;
    }

    fn dark(&mut self) {
        self.lit = false;
    }

    fn hear<A: Answerer>(
        &mut self,
        _alloc: Global,
        frame: &Frame,
        _far: &mut A,
    ) -> Result<Option<Frame>, AllocError> {
        let low = self.low;
        match frame.view() {
            [0x26, ..] if self.short => Ok(Some(Frame::whole(Tech::V, &[0, 0, low]).unwrap())),
            [0x26, ..] => Ok(Some(Frame::whole(
                Tech::V,
                &[0, 0, low, 5, 4, 3, 2, 1, 4, 0xE0],
            ).unwrap())),
            _ => Ok(None),
        }
    }

    ghost bounded = { Prim.search rules };

    ghost own_tech = { Prim.search rules };

    ghost step_keeps = { Prim.search rules };

    ghost light_keeps = { Prim.search rules };

    ghost dark_keeps = { Prim.search rules };

    ghost light_selects = { Prim.search rules };

    ghost stays_selected = { Prim.search rules };

    ghost dark_rests = { Prim.search rules };

    ghost rests = { Prim.search rules };

    ghost ignores = { λ l other f to own. (
      refl,
      ap (λ x. if get_or x.bytes 0 0 == 0x26
          then Some (whole_v (if l.short then 0 ∷ 0 ∷ l.low ∷ [] else 0 ∷ 0 ∷ l.low ∷ 5 ∷ 4 ∷ 3 ∷ 2 ∷ 1 ∷ 4 ∷ 0xE0 ∷ []))
          else None) to.1.frame,
    ) };
}

/// A lit field of NFC-V devices with these low bytes, of which 0 answers too short, and these fates to come.
fn vicinities(alloc: Global, lows: &[u8], fates: &[Fate]) -> Result<Field<Vicinity>, Fail> {
    let mut field = Field::new(alloc);
    for low in lows {
        field.put_in(Vicinity {
            low: *low,
            short: *low == 0,
            lit: false,
        })?;
    }
    field.add_fates(fates)?;
    field.reset()?;
    Ok(field)
}

const PRESENT: [u8; 8] = [0xE0, 4, 1, 2, 3, 4, 5, 6];

/// What an inventory finds, and what comes of it where the first identifier is picked.
type Inventory = (Result<Vcrowd, PollFault>, Result<(), PollFault>);

fn inventory(alloc: Global, lows: &[u8], fates: &[Fate]) -> Result<Inventory, Fail> {
    let found = inventory_one(&mut vicinities(alloc, lows, fates)?);
    Ok((found, pick_v(&mut vicinities(alloc, lows, fates)?, PRESENT)))
}

#[test]
fn inventories(rt: HostRuntime) -> Result<(), Fail> {
    const BAD: PollFault = PollFault::BadAnswer;
    const NOT_FOUND: PollFault = PollFault::NotFound;
    // the devices, the fates, and the inventory
    const ROWS: [(&[u8], &[Fate], Inventory); 7] = [
        (&[6], &[], (Ok(Vcrowd::One(PRESENT)), Ok(()))),
        (&[6, 7], &[], (Ok(Vcrowd::Crowd), Ok(()))),
        (&[], &[], (Ok(Vcrowd::Nobody), Err(NOT_FOUND))),
        (&[0], &[], (Err(BAD), Err(BAD))),
        (&[6], &[L, L, P, L], (Ok(Vcrowd::One(PRESENT)), Ok(()))),
        (&[6], &[L, L, L, P, D], (Err(NOISE), Ok(()))),
        (&[6], &[L, L, L, L], (Ok(Vcrowd::Nobody), Err(NOT_FOUND))),
    ];
    for &(lows, fates, wanted) in &ROWS {
        let told = inventory(rt.alloc(), lows, fates)?;
        assert_eq!(rt; told, wanted, "at {lows:?}, {fates:?}");
    }
    Ok(())
}
