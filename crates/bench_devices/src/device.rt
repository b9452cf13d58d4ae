//! The devices of the bench.

ghost use Rattle.std.specs.Prelude.{◌≡◌, ◌<◌, ◌≤◌, true, false};
ghost use Rattle.t2t_tag.specs.Store as t2;
ghost use Rattle.isodep_link.specs.Card as ends;
ghost use Rattle.nfc_base.specs.Pieces.{most_busy, longest_extension};
ghost use Rattle.nfca_poll.specs.Upper.{step_at};
ghost use Rattle.bench_devices.specs.Cards.{card_now};
ghost use Rattle.bench_devices.specs.Device.{said, on_link, how_of, blocks_of, device_locked, may_be_busy, device_busy};
ghost use Rattle.bench_devices.specs.Device.{is_tag, may_be_read, memory_in};

use crate::peer::PeerUpper;
use crate::powered::PoweredTag;
use air_core::Listener;
use dep_link::PeerListener;
use isodep_link::{CardEnd, CardKind, CardListener, is_rats};
use nfc_base::{Answerer, Frame, Tech};
use nfca_poll::{Front, Ident, Kind, UpKind, UpStep, Upper};
use std::alloc::{AllocError, Global};
use std::marker::Model;
use t2t_tag::T2Tag;
use t3t_tag::T3Tag;
use t4t_tag::T4Tag;
use t5t_tag::T5Tag;
use tag_reader::How;

/// A Type 2 tag as the machine above a listener front: it takes READ and WRITE, and all other frames are the front's.
#[derive(Debug, Drop)]
pub struct T2Upper {
    tag: T2Tag,
}

impl Model for T2Upper {
    ghost use Rattle.t2t_tag.specs.Store.{T2Memory};

    ghost Value = { T2Memory };

    ghost view = { λ u. u.tag };
}

impl T2Upper {
    pub fn new(tag: T2Tag) -> T2Upper
        ensures { result ≡ tag }
    {
        T2Upper { tag }
    }

    pub fn tag(&self) -> &T2Tag
        ensures { result.now ≡ self.now }
    {
        &self.tag
    }

    /// Locks a block of the tag.
    pub fn lock(&mut self, block: u16)
        requires { block < t2.block_count self.old.store }
        ensures { self.new ≡ t2.locked_too self.old block }
    {
        self.tag.lock(block);
    }
}

impl Upper for T2Upper {
    ghost use Rattle.bench_devices.specs.Device.{t2_machine};
    ghost use Rattle.bench_devices.specs.laws.Uppers.{t2_commands, t2_upper};

    ghost machine = { t2_machine };

    ghost commands = { t2_commands };

    ghost store = { λ u. u.store };

    fn kind(&self) -> Kind {
        Kind::T2
    }

    fn clear(&mut self) {}

    fn hear<A: Answerer>(
        &mut self,
        _alloc: Global,
        frame: &Frame,
        _far: &mut A,
    ) -> Result<UpStep, AllocError> {
        match self.tag.obey(frame) {
            Some(answer) => Ok(UpStep::Reply(answer)),
            None => Ok(UpStep::Foreign),
        }
    }

    fn hear_into<A: Answerer>(
        &mut self,
        _alloc: Global,
        frame: &Frame,
        _far: &mut A,
        answer: &mut Frame,
    ) -> Result<UpKind, AllocError> {
        match self.tag.obey(frame) {
            Some(said) => {
                *answer = said;
                Ok(UpKind::Reply)
            }
            None => Ok(UpKind::Foreign),
        }
    }

    ghost laws = { t2_upper };
}

/// A Type 4 tag as the machine above a listener front. RATS opens a link to it, whose end takes every frame from then
/// on and hands commands to the tag.
#[derive(Debug, Drop)]
pub struct T4Upper {
    tag: T4Tag,
    card: CardEnd,
    linked: bool,
}

impl Model for T4Upper {
    ghost use Rattle.bench_devices.specs.Cards.{T4Near};

    ghost Value = { T4Near };

    ghost view = { λ u. record { tag = u.tag; card = u.card; linked = u.linked } };
}

impl T4Upper {
    /// A tag without a link.
    pub fn new(tag: T4Tag) -> T4Upper
        ensures { result ≡ record { tag = tag; card = ends.fresh tag.code; linked = false } }
    {
        T4Upper {
            card: CardEnd::new(tag.code()),
            tag,
            linked: false,
        }
    }

    pub fn tag(&self) -> &T4Tag
        ensures { result.now ≡ self.now.tag }
    {
        &self.tag
    }

    /// From now on it asks for more time before each answer: `count` extensions, each by `times`.
    pub fn set_busy(&mut self, count: u8, times: u8)
        requires count { count ≤ most_busy }
        requires times { (1 ≤ times) × (times ≤ longest_extension) }
        ensures { self.new ≡ record {
          tag = self.old.tag;
          card = ends.made_busy self.old.card count times;
          linked = self.old.linked;
        } }
    {
        self.card.set_busy(count, times);
    }

    /// From now on there is a link. Where there was none its end begins anew.
    fn open_link(&mut self)
        ensures { self.new ≡ record { tag = self.old.tag; card = card_now self.old; linked = true } }
    {
        if !self.linked {
            self.card.dark();
            self.linked = true;
        }
    }

    /// A frame of the link to the tag.
    fn take(tag: &mut T4Tag, card: &mut CardEnd, frame: &Frame, answer: &mut Frame) -> UpKind
        ensures { said (step_at result answer.new) tag.new card.new ≡ on_link tag.old card.old frame.now }
    {
        match card.hear_into(frame, answer) {
            CardKind::Quiet => UpKind::Quiet,
            CardKind::Reply => UpKind::Reply,
            CardKind::Deliver(command) => {
                card.reply_into(&tag.obey(&command), answer);
                UpKind::Reply
            }
            CardKind::Asleep => UpKind::Sleep,
        }
    }
}

impl Upper for T4Upper {
    ghost use Rattle.t4t_tag.specs.Store.{store_of};
    ghost use Rattle.bench_devices.specs.Device.{t4_machine};
    ghost use Rattle.bench_devices.specs.laws.Uppers.{t4_commands, is_linked, t4_upper};

    ghost machine = { t4_machine };

    ghost commands = { t4_commands };

    ghost is_open = { is_linked };

    ghost store = { λ u. store_of u.tag };

    fn kind(&self) -> Kind {
        Kind::T4
    }

    fn clear(&mut self) {
        self.linked = false;
        self.tag.dark();
    }

    fn hear<A: Answerer>(
        &mut self,
        alloc: Global,
        frame: &Frame,
        far: &mut A,
    ) -> Result<UpStep, AllocError> {
        let mut answer = Frame::whole(Tech::A, &[]).unwrap();
        Ok(match self.hear_into(alloc, frame, far, &mut answer)? {
            UpKind::Foreign => UpStep::Foreign,
            UpKind::Quiet => UpStep::Quiet,
            UpKind::Reply => UpStep::Reply(answer),
            UpKind::Sleep => UpStep::Sleep(answer),
            UpKind::Idle => UpStep::Idle(answer),
        })
    }

    fn hear_into<A: Answerer>(
        &mut self,
        _alloc: Global,
        frame: &Frame,
        _far: &mut A,
        answer: &mut Frame,
    ) -> Result<UpKind, AllocError> {
        if !self.linked && !is_rats(frame) {
            return Ok(UpKind::Foreign);
        }
        self.open_link();
        Ok(T4Upper::take(&mut self.tag, &mut self.card, frame, answer))
    }

    ghost laws = { t4_upper };
}

/// A device in the field.
#[derive(Debug, Drop)]
pub enum Device {
    T2(Front<T2Upper>),
    T4(Front<T4Upper>),
    Peer(Front<PeerUpper>),
    T5(PoweredTag<T5Tag>),
    T3(PoweredTag<T3Tag>),
}

impl Listener for Device {
    ghost use Rattle.bench_devices.specs.Device.{devices, device_id, device_store, device_ready, device_selected};
    ghost use Rattle.bench_devices.specs.Device.{device_commands};
    ghost use Rattle.bench_devices.specs.laws.Standing.{bounded, own_tech, step_keeps, light_keeps, dark_keeps};
    ghost use Rattle.bench_devices.specs.laws.Standing.{light_selects, stays_selected, dark_rests, at_rest, ignores};

    ghost machine = { devices };

    ghost identifier = { device_id };

    ghost store = { device_store };

    ghost is_ready = { device_ready };

    ghost is_selected = { device_selected };

    ghost commands = { device_commands };

    fn tech(&self) -> Tech {
        match self {
            Device::T2(_) | Device::T4(_) | Device::Peer(_) => Tech::A,
            Device::T5(_) => Tech::V,
            Device::T3(_) => Tech::F,
        }
    }

    fn light(&mut self) {
        match self {
            Device::T2(front) => front.light(),
            Device::T4(front) => front.light(),
            Device::Peer(front) => front.light(),
            Device::T5(powered) => powered.light(),
            Device::T3(powered) => powered.light(),
        }
    }

    fn dark(&mut self) {
        match self {
            Device::T2(front) => front.dark(),
            Device::T4(front) => front.dark(),
            Device::Peer(front) => {
                front.dark();
                front.upper().clear();
            }
            Device::T5(powered) => powered.dark(),
            Device::T3(powered) => powered.dark(),
        }
    }

    fn hear<A: Answerer>(
        &mut self,
        alloc: Global,
        frame: &Frame,
        far: &mut A,
    ) -> Result<Option<Frame>, AllocError> {
        match self {
            Device::T2(front) => front.hear(alloc, frame, far),
            Device::T4(front) => front.hear(alloc, frame, far),
            Device::Peer(front) => front.hear(alloc, frame, far),
            Device::T5(powered) => Ok(powered.hear(frame)),
            Device::T3(powered) => Ok(powered.hear(frame)),
        }
    }

    fn hear_into<A: Answerer>(
        &mut self,
        alloc: Global,
        frame: &Frame,
        far: &mut A,
        answer: &mut Frame,
    ) -> Result<bool, AllocError> {
        match self {
            Device::T2(front) => front.hear_into(alloc, frame, far, answer),
            Device::T4(front) => front.hear_into(alloc, frame, far, answer),
            Device::Peer(front) => front.hear_into(alloc, frame, far, answer),
            Device::T5(powered) => Ok(powered.hear_into(frame, answer)),
            Device::T3(powered) => Ok(powered.hear_into(frame, answer)),
        }
    }

    ghost bounded = { bounded };

    ghost own_tech = { own_tech };

    ghost step_keeps = { step_keeps };

    ghost light_keeps = { light_keeps };

    ghost dark_keeps = { dark_keeps };

    ghost light_selects = { light_selects };

    ghost stays_selected = { stays_selected };

    ghost dark_rests = { dark_rests };

    ghost rests = { at_rest };

    ghost ignores = { ignores };
}

impl CardListener for Device {
    ghost use Rattle.bench_devices.specs.Device.{device_card, device_tag};
    ghost use Rattle.bench_devices.specs.laws.Standing.{tag_holds};

    ghost card = { device_card };

    ghost tag = { device_tag };

    ghost holds = { tag_holds };
}

impl PeerListener for Device {
    ghost use Rattle.bench_devices.specs.Device.{device_end};

    ghost target = { device_end };
}

impl Device {
    /// A tag holds a message; a peer is none.
    pub fn is_tag(&self) -> bool
        ensures { result ≡ is_tag self.now }
    {
        !matches!(self, Device::Peer(_))
    }

    /// A read and a write are of it.
    pub fn may_be_read(&self) -> bool
        ensures { result ≡ may_be_read self.now }
    {
        !matches!(self, Device::Peer(_) | Device::T3(_))
    }

    /// How a tag of its kind is read.
    pub fn how(&self) -> How
        requires { may_be_read self.now ≡ true }
        ensures { result ≡ how_of self.now }
    {
        match self {
            Device::T2(_) => How::T2,
            Device::T4(_) => How::T4,
            Device::Peer(_) | Device::T3(_) => unreachable!(),
            Device::T5(powered) => How::T5(powered.tag().id()),
        }
    }

    /// What it holds: of a Type 4 tag its NDEF file alone, and nothing of a peer.
    pub fn memory(&self) -> &[u8]
        ensures { result.now ≡ memory_in self.now }
    {
        match self {
            Device::T2(front) => front.as_upper().tag().store(),
            Device::T4(front) => front.as_upper().tag().file(),
            Device::Peer(_) => &[],
            Device::T5(powered) => powered.tag().store(),
            Device::T3(powered) => powered.tag().store(),
        }
    }

    /// How many blocks it has that can be locked.
    pub fn blocks(&self) -> u16
        ensures { result ≡ blocks_of self.now }
    {
        match self {
            Device::T2(front) => front.as_upper().tag().blocks(),
            Device::T4(_) | Device::Peer(_) => 0,
            Device::T5(powered) => powered.tag().blocks(),
            Device::T3(powered) => powered.tag().blocks(),
        }
    }

    /// Locks one of its blocks against writing, for good. It takes no memory.
    pub fn lock(&mut self, block: u16)
        requires { block < blocks_of self.old }
        ensures { self.new ≡ device_locked block self.old }
    {
        match self {
            Device::T2(front) => front.upper().lock(block),
            Device::T4(_) | Device::Peer(_) => unreachable!(),
            Device::T5(powered) => powered.lock(block),
            Device::T3(powered) => powered.lock(block),
        }
    }

    /// It can ask for more time.
    pub fn may_be_busy(&self) -> bool
        ensures { result ≡ may_be_busy self.now }
    {
        matches!(self, Device::T4(_) | Device::Peer(_))
    }

    /// From now on it asks for more time before each answer: `count` extensions, each by `times`. It takes no memory.
    pub fn set_busy(&mut self, count: u8, times: u8)
        requires device { may_be_busy self.old ≡ true }
        requires count { count ≤ most_busy }
        requires times { (1 ≤ times) × (times ≤ longest_extension) }
        ensures { self.new ≡ device_busy count times self.old }
    {
        match self {
            Device::T4(front) => front.upper().set_busy(count, times),
            Device::Peer(front) => front.upper().set_busy(count, times),
            Device::T2(_) | Device::T5(_) | Device::T3(_) => unreachable!(),
        }
    }
}
