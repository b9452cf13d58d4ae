//! Tags that light selects, in a field that may be dark.

ghost use Rattle.std.specs.Prelude.{◌≡◌, ◌<◌, false};
ghost use Rattle.air_core.specs.Listening.{said_at};
ghost use Rattle.bench_devices.specs.Powered.{LightMachine, powered_answer, powered_after, powered_woken};
ghost use Rattle.bench_devices.specs.Powered.{powered_darkened, powered_locked};

use nfc_base::Frame;
use std::marker::Model;
use t3t_tag::T3Tag;
use t5t_tag::T5Tag;

/// A tag that is selected by light alone, and takes commands that name it.
pub trait LightTag {
    /// What it is and does.
    ghost machine: { LightMachine Self };

    /// One step in the light.
    fn answer_to(&mut self, frame: &Frame) -> Option<Frame>
        ensures answer { result ≡ machine.answer self.old frame.now }
        ensures step { self.new ≡ machine.after self.old frame.now };

    /// Locks a block against writing, for good. It takes no memory.
    fn lock_block(&mut self, block: u16)
        requires { block < machine.blocks self.old }
        ensures { self.new ≡ machine.locked block self.old };

    /// The field goes dark.
    fn darken(&mut self)
        ensures { self.new ≡ machine.darkened self.old };
}

impl LightTag for T3Tag {
    ghost use Rattle.bench_devices.specs.Powered.{light_three};

    ghost machine = { light_three };

    fn answer_to(&mut self, frame: &Frame) -> Option<Frame> {
        self.obey(frame)
    }

    fn lock_block(&mut self, block: u16) {
        self.lock(block);
    }

    fn darken(&mut self) {}
}

impl LightTag for T5Tag {
    ghost use Rattle.bench_devices.specs.Powered.{light_five};

    ghost machine = { light_five };

    fn answer_to(&mut self, frame: &Frame) -> Option<Frame> {
        self.obey(frame)
    }

    fn lock_block(&mut self, block: u16) {
        self.lock(block);
    }

    fn darken(&mut self) {
        self.dark();
    }
}

/// Such a tag in the field. It is off until the field is lit.
#[derive(Debug, Drop)]
pub struct PoweredTag<T> {
    tag: T,
    lit: bool,
}

impl<T> Model for PoweredTag<T> {
    ghost use Rattle.bench_devices.specs.Powered.{Powered};

    ghost Value = { Powered T };

    ghost view = { λ p. record { tag = p.tag; lit = p.lit } };
}

impl<T: LightTag> PoweredTag<T> {
    /// A tag in the dark.
    pub fn new(tag: T) -> PoweredTag<T>
        ensures { result ≡ record { tag = tag; lit = false } }
    {
        PoweredTag { tag, lit: false }
    }

    pub fn tag(&self) -> &T
        ensures { result.now ≡ self.now.tag }
    {
        &self.tag
    }

    /// Locks a block of the tag.
    pub fn lock(&mut self, block: u16)
        requires { block < T.machine.blocks self.old.tag }
        ensures { self.new ≡ powered_locked T.machine block self.old }
    {
        self.tag.lock_block(block);
    }

    /// The field is lit.
    pub fn light(&mut self)
        ensures { self.new ≡ powered_woken self.old }
    {
        self.lit = true;
    }

    /// The field goes dark.
    pub fn dark(&mut self)
        ensures { self.new ≡ powered_darkened T.machine self.old }
    {
        self.tag.darken();
        self.lit = false;
    }

    /// One step.
    pub fn hear(&mut self, frame: &Frame) -> Option<Frame>
        ensures answer { result ≡ powered_answer T.machine self.old frame.now }
        ensures step { self.new ≡ powered_after T.machine self.old frame.now }
    {
        if !self.lit {
            return None;
        }
        self.tag.answer_to(frame)
    }

    /// The same step, whose answer is put into a place of the caller's: `true` where there is one.
    pub fn hear_into(&mut self, frame: &Frame, answer: &mut Frame) -> bool
        ensures answer { said_at result answer.new ≡ powered_answer T.machine self.old frame.now }
        ensures step { self.new ≡ powered_after T.machine self.old frame.now }
    {
        match self.hear(frame) {
            Some(said) => {
                *answer = said;
                true
            }
            None => false,
        }
    }
}
