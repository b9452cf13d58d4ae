//! The listener front of an NFC-A device.

ghost use Rattle.std.specs.Prelude.{◌≡◌, ◌≤◌, length, Bool};
ghost use Rattle.air_core.specs.Listening.{said_at};
ghost use Rattle.nfca_poll.specs.Levels.{levels};
ghost use Rattle.nfca_poll.specs.Calls.{Calls, Sdd, Sel, call_of, is_sdd, is_sel, known_bits, named_level};
ghost use Rattle.nfca_poll.specs.Front.{Off, Ready, sens_res, sel_res, home, front_says, front_next};
ghost use Rattle.nfca_poll.specs.Fronted.{front_of, HasLevel};

use crate::call::{CallKind, is_all, is_sens_or_all};
use crate::ident::Ident;
use crate::kind::Kind;
use crate::level::Level;
use crate::upper::{UpKind, Upper};
use air_core::Listener;
use nfc_base::{Answerer, Frame, Tech};
use std::alloc::{AllocError, Global};
use std::marker::Model;

/// The first byte of SENS_RES for identifiers of one, two and three cascade levels; the second one is 0. The values are
/// this project's own.
const SENS_RES: [u8; 3] = [0x04, 0x44, 0x84];

/// SEL_RES where another cascade level follows (NFC Forum Digital Protocol).
const MORE_LEVELS: u8 = 0x04;

/// The state of a front. `Ready` counts the cascade level that is asked next, from 1. A starred device was put to sleep
/// before, and sleeps again where another one is idle.
#[derive(Clone, Copy, Debug, PartialEq, Eq)]
pub enum FrontState {
    Off,
    Idle,
    Sleep,
    Ready { level: u8, starred: bool },
    Active { starred: bool },
}

/// An NFC-A device that a reader finds and selects by its identifier. Once it is selected, the machine above takes its
/// own frames, and the front all others.
#[derive(Debug, Drop)]
pub struct Front<U> {
    id: Ident,
    state: FrontState,
    upper: U,
}

impl<U> Model for Front<U> {
    ghost use Rattle.std.specs.Prelude.{length};
    ghost use Rattle.nfca_poll.specs.Levels.{levels};
    ghost use Rattle.nfca_poll.specs.Ident.{IsIdent};
    ghost use Rattle.nfca_poll.specs.Fronted.{Fronted, front_of, HasLevel};

    ghost Value = { Fronted U };

    ghost view = { λ f. record { id = f.id; front = front_of f.state; upper = f.upper } };

    ghost invariant = { λ f. HasLevel (length (levels f.id)) (front_of f.state) };
}

impl<U: Upper> Front<U> {
    ghost use Rattle.std.specs.Borrow.{sem};
    ghost use Rattle.nfca_poll.specs.Fronted.{moved, plain_answer, plain_after};
    ghost use Rattle.nfca_poll.specs.Lends.{lends_upper};

    /// A device in the dark.
    pub fn new(id: Ident, upper: U) -> Front<U>
        ensures { result ≡ record { id = id; front = Off; upper = upper } }
    {
        Front {
            id,
            state: FrontState::Off,
            upper,
        }
    }

    pub fn id(&self) -> &Ident
        ensures { result.now ≡ self.now.id }
    {
        &self.id
    }

    /// The machine above, to be looked at.
    pub fn as_upper(&self) -> &U
        ensures { result.now ≡ self.now.upper }
    {
        &self.upper
    }

    /// The machine above.
    pub fn upper(&mut self) -> &mut U
        ensures* lends { sem 𝓛 (lends_upper U.row self.entry result) }
        ensures value { result.now ≡ self.old.upper }
    {
        &mut self.upper
    }

    /// Goes to another state. Where the device leaves the state Active, its machine gives up what is volatile.
    fn go(&mut self, state: FrontState)
        requires { HasLevel (length (levels self.old.id)) (front_of state) }
        ensures { self.new ≡ moved U.machine self.old (front_of state) }
    {
        let stays = matches!(state, FrontState::Active { .. });
        if matches!(self.state, FrontState::Active { .. }) && !stays {
            self.upper.clear();
        }
        self.state = state;
    }

    /// A frame that isn't of the machine above.
    fn take(&mut self, frame: &Frame, answer: &mut Frame) -> bool
        ensures answer { said_at result answer.new ≡ plain_answer U.machine self.old frame.now }
        ensures step { self.new ≡ plain_after U.machine self.old frame.now }
    {
        let step = step_at(&self.id, self.upper.kind(), self.state, frame, answer);
        self.go(step.state);
        step.said
    }
}

impl<U: Upper> Listener for Front<U> {
    ghost use Rattle.nfca_poll.specs.Fronted.{fronts};
    ghost use Rattle.nfca_poll.specs.Front.{is_ready, is_active};
    ghost use Rattle.nfca_poll.specs.laws.FrontLaws.{bounded, own_tech, step_keeps, light_keeps, dark_keeps};
    ghost use Rattle.nfca_poll.specs.laws.FrontLaws.{light_selects, stays_selected, dark_rests, at_rest, ignores};

    ghost machine = { fronts U.machine };

    ghost identifier = { λ d. d.id };

    ghost store = { λ d. U.store d.upper };

    ghost is_ready = { λ d. is_ready d.front };

    ghost is_selected = { λ d. is_active d.front };

    ghost commands = { λ d. U.commands d.upper };

    fn tech(&self) -> Tech {
        Tech::A
    }

    fn light(&mut self) {
        self.go(FrontState::Idle);
    }

    fn dark(&mut self) {
        self.go(FrontState::Off);
    }

    fn hear<A: Answerer>(
        &mut self,
        alloc: Global,
        frame: &Frame,
        far: &mut A,
    ) -> Result<Option<Frame>, AllocError> {
        let mut answer = Frame::whole(Tech::A, &[]).unwrap();
        if self.hear_into(alloc, frame, far, &mut answer)? {
            Ok(Some(answer))
        } else {
            Ok(None)
        }
    }

    fn hear_into<A: Answerer>(
        &mut self,
        alloc: Global,
        frame: &Frame,
        far: &mut A,
        answer: &mut Frame,
    ) -> Result<bool, AllocError> {
        match self.state {
            FrontState::Active { .. } => {}
            FrontState::Off | FrontState::Idle | FrontState::Sleep | FrontState::Ready { .. } =>
                return Ok(self.take(frame, answer)),
        }
        match self.upper.hear_into(alloc, frame, far, answer)? {
            UpKind::Foreign => Ok(self.take(frame, answer)),
            UpKind::Quiet => Ok(false),
            UpKind::Reply => Ok(true),
            UpKind::Sleep => {
                self.go(FrontState::Sleep);
                Ok(true)
            }
            UpKind::Idle => {
                self.go(FrontState::Idle);
                Ok(true)
            }
        }
    }

    ghost bounded = { bounded U.laws };

    ghost own_tech = { own_tech U.laws };

    ghost step_keeps = { step_keeps U.laws };

    ghost light_keeps = { light_keeps U.laws };

    ghost dark_keeps = { dark_keeps U.laws };

    ghost light_selects = { light_selects U.machine };

    ghost stays_selected = { stays_selected U.machine };

    ghost dark_rests = { dark_rests U.machine };

    ghost rests = { at_rest U.machine };

    ghost ignores = { ignores U.machine };
}

/// What a step of a front comes to: its state, and whether its answer stands in the place that it was given.
#[derive(Clone, Copy, Debug)]
struct Step {
    state: FrontState,
    said: bool,
}

impl Step {
    fn silent(state: FrontState) -> Step
        ensures { result ≡ record { state = state; said = Bool.false } }
    {
        Step { state, said: false }
    }

    /// A device says this, and goes to this state.
    fn says(state: FrontState, said: Frame, answer: &mut Frame) -> Step
        ensures step { result ≡ record { state = state; said = Bool.true } }
        ensures answer { answer.new ≡ said }
    {
        *answer = said;
        Step { state, said: true }
    }

    /// A device answers SENS_REQ or ALL_REQ.
    fn wakes(id: &Ident, starred: bool, answer: &mut Frame) -> Step
        ensures step { result ≡ record { state = FrontState.Ready 1 starred; said = Bool.true } }
        ensures answer { answer.new ≡ sens_res (length (levels id.now)) }
    {
        let first = SENS_RES[Level::count(id) as usize - 1];
        let said = Frame::whole(Tech::A, &[first, 0]).unwrap();
        Step::says(FrontState::Ready { level: 1, starred }, said, answer)
    }
}

/// The step of a front at a frame that isn't of the machine above it.
#[tactic(auto, using(crate::proofs::noise::Unwoken::idle_stays, crate::proofs::noise::Unwoken::idle_silent, crate::proofs::noise::Unwoken::sleep_stays, crate::proofs::noise::Unwoken::sleep_silent))]
fn step_at(id: &Ident, kind: Kind, state: FrontState, frame: &Frame, answer: &mut Frame) -> Step
    requires { HasLevel (length (levels id.now)) (front_of state) }
    ensures state { front_of result.state ≡ front_next (levels id.now) (front_of state) (call_of frame.now) }
    ensures answer { said_at result.said answer.new
        ≡ front_says (levels id.now) kind (front_of state) (call_of frame.now) }
    ensures level { HasLevel (length (levels id.now)) (front_of result.state) }
{
    match state {
        FrontState::Off => Step::silent(FrontState::Off),
        FrontState::Idle => {
            if is_sens_or_all(frame) {
                Step::wakes(id, false, answer)
            } else {
                Step::silent(FrontState::Idle)
            }
        }
        FrontState::Sleep => {
            if is_all(frame) {
                Step::wakes(id, true, answer)
            } else {
                Step::silent(FrontState::Sleep)
            }
        }
        FrontState::Ready { level, starred } => {
            step_at_call(id, kind, level, starred, frame, answer)
        }
        FrontState::Active { starred } => match CallKind::read_from(frame) {
            Some(CallKind::Slp) => Step::silent(FrontState::Sleep),
            _ => Step::silent(home(starred)),
        },
    }
}

/// A device that is ready hears a frame.
fn step_at_call(
    id: &Ident,
    kind: Kind,
    level: u8,
    starred: bool,
    frame: &Frame,
    answer: &mut Frame,
) -> Step
    requires low { 1 ≤ level }
    requires high { level ≤ length (levels id.now) }
    ensures state { front_of result.state ≡ front_next (levels id.now) (Ready level starred) (call_of frame.now) }
    ensures answer { said_at result.said answer.new
        ≡ front_says (levels id.now) kind (Ready level starred) (call_of frame.now) }
    ensures level { HasLevel (length (levels id.now)) (front_of result.state) }
{
    match CallKind::read_from(frame) {
        Some(CallKind::Sdd { level: asked }) if asked == level => {
            step_at_sdd(id, kind, level, starred, frame, answer)
        }
        Some(CallKind::Sel { level: asked }) if asked == level => {
            step_at_sel(id, kind, level, starred, frame, answer)
        }
        _ => Step::silent(home(starred)),
    }
}

/// A device that is ready hears SDD_REQ of its level.
fn step_at_sdd(
    id: &Ident,
    kind: Kind,
    level: u8,
    starred: bool,
    frame: &Frame,
    answer: &mut Frame,
) -> Step
    requires sdd { is_sdd frame.now ≡ Bool.true }
    requires low { 1 ≤ level }
    requires high { level ≤ length (levels id.now) }
    ensures state { front_of result.state
        ≡ front_next (levels id.now) (Ready level starred) (Calls (Sdd level (known_bits frame.now))) }
    ensures answer { said_at result.said answer.new
        ≡ front_says (levels id.now) kind (Ready level starred) (Calls (Sdd level (known_bits frame.now))) }
    ensures level { HasLevel (length (levels id.now)) (front_of result.state) }
{
    let own = Level::of(id, level);
    if !own.begins_with(frame) {
        return Step::silent(home(starred));
    }
    Step::says(
        FrontState::Ready { level, starred },
        own.rest(frame),
        answer,
    )
}

/// A device that is ready hears SEL_REQ of its level.
fn step_at_sel(
    id: &Ident,
    kind: Kind,
    level: u8,
    starred: bool,
    frame: &Frame,
    answer: &mut Frame,
) -> Step
    requires sel { is_sel frame.now ≡ Bool.true }
    requires low { 1 ≤ level }
    requires high { level ≤ length (levels id.now) }
    ensures state { front_of result.state
        ≡ front_next (levels id.now) (Ready level starred) (Calls (Sel level (named_level frame.now))) }
    ensures answer { said_at result.said answer.new
        ≡ front_says (levels id.now) kind (Ready level starred) (Calls (Sel level (named_level frame.now))) }
    ensures level { HasLevel (length (levels id.now)) (front_of result.state) }
{
    if !Level::of(id, level).is_named_by(frame) {
        return Step::silent(home(starred));
    }
    if level < Level::count(id) {
        let next = FrontState::Ready {
            level: level + 1,
            starred,
        };
        let said = Frame::whole(Tech::A, &[MORE_LEVELS]).unwrap();
        return Step::says(next, said, answer);
    }
    Step::says(FrontState::Active { starred }, sel_res(kind), answer)
}

/// SEL_RES of a device that is selected (NFC Forum Digital Protocol).
fn sel_res(kind: Kind) -> Frame
    ensures { result ≡ sel_res kind }
{
    let byte = match kind {
        Kind::T2 => 0x00,
        Kind::T4 => 0x20,
        Kind::Peer => 0x40,
    };
    Frame::whole(Tech::A, &[byte]).unwrap()
}

/// Where a device goes that leaves its state by any other frame.
fn home(starred: bool) -> FrontState
    ensures { front_of result ≡ home starred }
{
    if starred {
        FrontState::Sleep
    } else {
        FrontState::Idle
    }
}
