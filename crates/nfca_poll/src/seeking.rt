//! How far a resolution is, and how it goes on by what is heard.

ghost use Rattle.std.specs.Prelude.{◌≡◌, ◌≤◌, ◌<◌, ◌+◌, ◌++◌, ◌∷◌, [], length, Bool};
ghost use Rattle.nfc_base.specs.Bits.{bits};
ghost use Rattle.nfc_base.specs.declared.event.Heard.TheVariants as heards;
ghost use Rattle.nfca_poll.specs.Levels.{identifier, cascades};
ghost use Rattle.nfca_poll.specs.Poll.{Asking, Selecting, seek_step, completed, narrowed, selected, goes_on, kind_of};
ghost use Rattle.nfca_poll.specs.Poll.{has_bit};
ghost use Rattle.nfca_poll.specs.Seeking.{levels_of, seek_of, request_of, Becomes};

use crate::fault::{Picked, PollFault};
use crate::ident::Ident;
use crate::kind::Kind;
use crate::known::KnownBits;
use crate::level::Level;
use crate::requests::{sdd_req, sel_req, sens_req};
use air_core::bits::bit_len;
use nfc_base::{Frame, Heard};

/// How many bits a level has, and behind how many of them no collision may be: its check byte follows from the others.
const LEVEL_BITS: usize = 40;

const COLLISION_BITS: usize = 32;

/// SEL_RES: another level follows; the device is a Type 4 tag; it is a peer (NFC Forum Digital Protocol).
const MORE_LEVELS: u8 = 0x04;

const IS_T4: u8 = 0x20;

const IS_PEER: u8 = 0x40;

/// The levels before the one that is asked.
#[derive(Clone, Copy, Debug)]
pub enum Done {
    Nothing,
    One(Level),
    Two(Level, Level),
}

impl Done {
    /// The level that is asked, counted from 1.
    fn next(&self) -> u8
        ensures count { result ≡ length (levels_of self.now) + 1 }
        ensures few { result ≤ 3 }
    {
        match self {
            Done::Nothing => 1,
            Done::One(_) => 2,
            Done::Two(_, _) => 3,
        }
    }

    /// Whether a level behind these must say that another one follows.
    fn goes_on(&self, level: &Level) -> bool
        ensures { result ≡ goes_on (levels_of self.now) level.now }
    {
        match self {
            Done::Nothing | Done::One(_) => level.cascades(),
            Done::Two(_, _) => false,
        }
    }

    /// With one level more.
    fn with(self, level: Level) -> Done
        requires { length (levels_of self) < 2 }
        ensures { levels_of result ≡ levels_of self ++ level ∷ [] }
    {
        match self {
            Done::Nothing => Done::One(level),
            Done::One(first) => Done::Two(first, level),
            Done::Two(_, _) => unreachable!(),
        }
    }

    /// The identifier that these levels and a last one have.
    fn identifier(&self, last: &Level) -> Ident
        requires { goes_on (levels_of self.now) last.now ≡ Bool.false }
        ensures { result ≡ identifier (levels_of self.now ++ last.now ∷ []) }
    {
        let [d, e, f, g, _] = last.bytes();
        match self {
            Done::Nothing => Ident::new(&[d, e, f, g]).unwrap(),
            Done::One(first) => {
                let [_, a, b, c, _] = first.bytes();
                Ident::new(&[a, b, c, d, e, f, g]).unwrap()
            }
            Done::Two(first, second) => {
                let [_, a, b, c, _] = first.bytes();
                let [_, h, i, j, _] = second.bytes();
                Ident::new(&[a, b, c, h, i, j, d, e, f, g]).unwrap()
            }
        }
    }
}

/// How far a resolution is: so many presence requests were silent; some levels are known, and some bits of the next
/// one; the next one is known whole.
#[derive(Debug, Drop)]
pub enum Seeking {
    Calling { silent: u8 },
    Asking { done: Done, known: KnownBits },
    Selecting { done: Done, level: Level },
}

/// What becomes of a resolution.
#[derive(Debug, Drop)]
pub enum SeekStep {
    Goes(Seeking),
    Ends(Result<Picked, PollFault>),
}

impl Seeking {
    /// The request that is due.
    pub fn request(&self) -> Frame
        ensures { result ≡ request_of self.now }
    {
        match self {
            Seeking::Calling { .. } => sens_req(),
            Seeking::Asking { done, known } => sdd_req(done.next(), known),
            Seeking::Selecting { done, level } => sel_req(done.next(), level),
        }
    }

    /// How it goes on.
    pub fn step(self, heard: Heard) -> SeekStep
        ensures { Becomes (seek_step (seek_of self) heard) result }
    {
        match self {
            Seeking::Calling { silent } => called(silent, &heard),
            Seeking::Asking { done, known } => match heard {
                Heard::Whole(rest) => complete(done, known, &rest),
                Heard::Collided(common) => narrow(done, known, &common),
                Heard::Damaged | Heard::Silent => SeekStep::Ends(Err(PollFault::Disturbed)),
            },
            Seeking::Selecting { done, level } => match heard {
                Heard::Whole(answer) => select(done, level, &answer),
                Heard::Collided(_) => SeekStep::Ends(Err(PollFault::BadAnswer)),
                Heard::Damaged | Heard::Silent => SeekStep::Ends(Err(PollFault::Disturbed)),
            },
        }
    }
}

/// Anything but silence shows presence; the fourth silence ends the resolution.
fn called(silent: u8, heard: &Heard) -> SeekStep
    ensures { Becomes (seek_step (seek_of (Seeking.Calling silent)) heard.now) result }
{
    match heard {
        Heard::Whole(_) | Heard::Collided(_) | Heard::Damaged => SeekStep::Goes(Seeking::Asking {
            done: Done::Nothing,
            known: KnownBits::new(),
        }),
        Heard::Silent => {
            if silent < 3 {
                SeekStep::Goes(Seeking::Calling { silent: silent + 1 })
            } else {
                SeekStep::Ends(Err(PollFault::Nobody))
            }
        }
    }
}

/// A whole answer completes the level.
fn complete(done: Done, known: KnownBits, rest: &Frame) -> SeekStep
    ensures { Becomes (completed (levels_of done) (known ++ bits rest.now)) result }
{
    let mut known = known;
    if bit_len(rest) != LEVEL_BITS - known.len() {
        return SeekStep::Ends(Err(PollFault::BadAnswer));
    }
    known.push_frame(rest);
    let bytes: [u8; 5] = known.pack().as_slice().try_into().unwrap();
    match Level::read_from(bytes) {
        Some(level) => SeekStep::Goes(Seeking::Selecting { done, level }),
        None => SeekStep::Ends(Err(PollFault::BadAnswer)),
    }
}

/// At a collision one bit 1 is known more than the common bits.
fn narrow(done: Done, known: KnownBits, common: &Frame) -> SeekStep
    ensures { Becomes (narrowed (levels_of done) (known ++ bits common.now)) result }
{
    let mut known = known;
    if bit_len(common) >= COLLISION_BITS.saturating_sub(known.len()) {
        return SeekStep::Ends(Err(PollFault::BadAnswer));
    }
    known.push_frame(common);
    known.push_one();
    SeekStep::Goes(Seeking::Asking { done, known })
}

/// SEL_RES: another level follows, or the device is selected.
fn select(done: Done, level: Level, answer: &Frame) -> SeekStep
    ensures { Becomes (seek_step (Selecting (levels_of done) level) (heards.Whole answer.now)) result }
{
    let res = match answer.view() {
        [res] if answer.tail() == 0 => *res,
        _ => return SeekStep::Ends(Err(PollFault::BadAnswer)),
    };
    let follows = res & MORE_LEVELS == MORE_LEVELS;
    if follows != done.goes_on(&level) {
        return SeekStep::Ends(Err(PollFault::BadAnswer));
    }
    if follows {
        return SeekStep::Goes(Seeking::Asking {
            done: done.with(level),
            known: KnownBits::new(),
        });
    }
    SeekStep::Ends(Ok(Picked {
        id: done.identifier(&level),
        kind: kind_of(res),
    }))
}

/// What a device is, by SEL_RES.
fn kind_of(res: u8) -> Kind
    ensures { result ≡ kind_of res }
{
    if res & IS_T4 == IS_T4 {
        Kind::T4
    } else if res & IS_PEER == IS_PEER {
        Kind::Peer
    } else {
        Kind::T2
    }
}
