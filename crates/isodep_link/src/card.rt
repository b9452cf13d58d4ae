//! The card's end.

ghost use Rattle.std.specs.Prelude.{◌≡◌, ◌≤◌, ◌<◌, ◌++◌, length, drop, nat_lt};
ghost use Rattle.isodep_link.specs.Blocks.{block_frame, piece, IsSpelled};
ghost use Rattle.isodep_link.specs.Card.{CardTurn, card_table, activated, framed, block_table, again, gathered, drawn};
ghost use Rattle.isodep_link.specs.Card.{extended, granted, replied, reply_block, fresh, darkened, made_busy, IsSaid};
ghost use Rattle.isodep_link.specs.Card.{card_step_at};

use crate::block::{Block, piece, toggled};
use crate::size::{LEAST_CODE, ats_frame, piece_size, rats_code};
use arrayvec::ArrayVec;
use nfc_base::{Frame, Tech};
use std::marker::Model;

/// How often a card may ask for more time before an answer.
pub const MOST_BUSY: u8 = 5;

/// What a card does at a frame.
#[derive(Debug, Drop)]
pub enum CardStep {
    Quiet,
    Reply(Frame),
    /// A whole command, which `CardEnd::reply` answers.
    Deliver(ArrayVec<u8, 264>),
    /// It answers a last time, and sleeps.
    Asleep(Frame),
}

/// The same, of a card that was given a place for its answer.
#[derive(Debug, Drop)]
pub enum CardKind {
    Quiet,
    Reply,
    Deliver(ArrayVec<u8, 264>),
    Asleep,
}

/// The card's end (ISO/IEC 14443-4; NFC Forum Digital Protocol): it puts commands together and hands out answers in
/// pieces. It takes no memory. Its owner calls `dark` when the card leaves the field or sleeps.
#[derive(Debug, Drop)]
pub struct CardEnd {
    code: u8,
    most: usize,
    number: u8,
    last: Option<Block>,
    chain: ArrayVec<u8, 264>,
    answer: ArrayVec<u8, 264>,
    at: usize,
    unsent: bool,
    begun: bool,
    mute: bool,
    busy: u8,
    times: u8,
    due: u8,
}

impl Model for CardEnd {
    ghost use Rattle.std.specs.Prelude.{◌<◌, ◌≤◌, length, drop};
    ghost use Rattle.isodep_link.specs.Card.{CardState};

    ghost Value = { CardState };

    ghost view = { λ t. record {
      code = t.code;
      most = t.most;
      number = t.number;
      last = t.last;
      chain = t.chain.items;
      left = drop t.at t.answer.items;
      unsent = t.unsent;
      begun = t.begun;
      mute = t.mute;
      busy = t.busy;
      times = t.times;
      due = t.due;
    } };

    ghost invariant = { λ t. (t.code ≤ 8) × (0 < t.most) × (t.most ≤ 253) × (t.number < 2)
        × (t.at ≤ length t.answer.items) × (length t.answer.items ≤ 264)
        × (t.busy ≤ 5) × (1 ≤ t.times) × (t.times ≤ 59) };
}

impl CardEnd {
    /// A card with this size code, that heard nothing.
    pub fn new(code: u8) -> CardEnd
        requires { code ≤ 8 }
        ensures { result ≡ fresh code }
    {
        CardEnd {
            code,
            most: piece_size(LEAST_CODE),
            number: 1,
            last: None,
            chain: ArrayVec::new(),
            answer: ArrayVec::new(),
            at: 0,
            unsent: false,
            begun: false,
            mute: false,
            busy: 0,
            times: 1,
            due: 0,
        }
    }

    /// From now on it asks for more time before each answer: `count` extensions, each by `times`.
    pub fn set_busy(&mut self, count: u8, times: u8)
        requires count { count ≤ 5 }
        requires times { (1 ≤ times) × (times ≤ 59) }
        ensures { self.new ≡ made_busy self.old count times }
    {
        self.busy = count;
        self.times = times;
    }

    /// It becomes as `new` gave it, but for the time that it asks for.
    pub fn dark(&mut self)
        ensures { self.new ≡ darkened self.old }
    {
        self.most = piece_size(LEAST_CODE);
        self.number = 1;
        self.last = None;
        self.chain = ArrayVec::new();
        self.answer = ArrayVec::new();
        self.at = 0;
        self.unsent = false;
        self.begun = false;
        self.mute = false;
        self.due = 0;
    }

    /// One step at a frame of the reader. After `Deliver` the owner calls `reply`.
    pub fn hear(&mut self, frame: &Frame) -> CardStep
        ensures step { record { state = self.new; does = result } ≡ card_table self.old frame.now }
        ensures spelled { IsSaid self.old.code result }
    {
        let mut answer = Frame::whole(Tech::A, &[]).unwrap();
        match self.hear_into(frame, &mut answer) {
            CardKind::Quiet => CardStep::Quiet,
            CardKind::Reply => CardStep::Reply(answer),
            CardKind::Deliver(command) => CardStep::Deliver(command),
            CardKind::Asleep => CardStep::Asleep(answer),
        }
    }

    /// The same step, whose answer is put into a place of the caller's.
    pub fn hear_into(&mut self, frame: &Frame, answer: &mut Frame) -> CardKind
        ensures step { record { state = self.new; does = card_step_at result answer.new }
            ≡ card_table self.old frame.now }
        ensures spelled { IsSaid self.old.code (card_step_at result answer.new) }
    {
        if self.mute {
            return CardKind::Quiet;
        }
        if let Some(code) = rats_code(frame) {
            return self.activate(code, answer);
        }
        match Block::read_from(frame) {
            Some(block) => self.obey(&block, answer),
            None => CardKind::Quiet,
        }
    }

    /// The answer to what was delivered: a time extension, where it asks for one first, else the first piece.
    pub fn reply(&mut self, content: &[u8]) -> Frame
        requires { length content.now ≤ 264 }
        ensures step { self.new ≡ replied self.old content.now }
        ensures answer { result ≡ block_frame (reply_block self.old content.now) }
        ensures spelled { IsSpelled result }
    {
        let mut answer = Frame::whole(Tech::A, &[]).unwrap();
        self.reply_into(content, &mut answer);
        answer
    }

    /// The same answer, put into a place of the caller's.
    pub fn reply_into(&mut self, content: &[u8], answer: &mut Frame)
        requires { length content.now ≤ 264 }
        ensures step { self.new ≡ replied self.old content.now }
        ensures answer { answer.new ≡ block_frame (reply_block self.old content.now) }
        ensures spelled { IsSpelled answer.new }
    {
        let mut kept = ArrayVec::new();
        kept.try_extend_from_slice(content).unwrap();
        self.answer = kept;
        self.at = 0;
        self.unsent = true;
        self.due = self.busy;
        let block = if self.busy > 0 {
            Block::Extend { times: self.times }
        } else {
            self.first_piece()
        };
        block.put(answer);
        self.last = Some(block);
    }

    /// The first piece of its answer, which is sent with it.
    fn first_piece(&mut self) -> Block
        ensures value { result ≡ piece self.old.most self.old.number self.old.left }
        ensures step { self.new ≡ record self.old {
          left = drop self.old.most self.old.left;
          unsent = nat_lt self.old.most (length self.old.left);
        } }
    {
        let left = &self.answer.as_slice()[self.at..];
        let block = piece(self.most, self.number, left);
        self.at += left.len().min(self.most);
        self.unsent = left.len() > self.most;
        block
    }

    /// RATS with this size code.
    fn activate(&mut self, code: u8, answer: &mut Frame) -> CardKind
        ensures step { record { state = self.new; does = card_step_at result answer.new } ≡ activated self.old code }
        ensures spelled { IsSaid self.old.code (card_step_at result answer.new) }
    {
        if self.begun {
            return CardKind::Quiet;
        }
        self.most = piece_size(code);
        *answer = ats_frame(self.code);
        CardKind::Reply
    }

    fn obey(&mut self, block: &Block, answer: &mut Frame) -> CardKind
        ensures step { record { state = self.new; does = card_step_at result answer.new }
            ≡ framed (block_table self.old block.now) }
        ensures spelled { IsSaid self.old.code (card_step_at result answer.new) }
    {
        match block {
            Block::Info { more, content, .. } => self.gather(*more, content, answer),
            Block::Ack { number } => {
                if *number == self.number {
                    self.repeat(answer)
                } else {
                    self.draw(answer)
                }
            }
            Block::Nak { number } => {
                if *number == self.number {
                    self.repeat(answer)
                } else {
                    let ack = Block::Ack {
                        number: self.number,
                    };
                    ack.put(answer);
                    CardKind::Reply
                }
            }
            Block::Deselect => {
                Block::Deselect.put(answer);
                CardKind::Asleep
            }
            Block::Extend { times } => self.extend(*times, answer),
        }
    }

    /// The last block again.
    fn repeat(&self, answer: &mut Frame) -> CardKind
        ensures step { record { state = self.now; does = card_step_at result answer.new }
            ≡ framed (again self.now self.now.last) }
        ensures spelled { IsSaid self.now.code (card_step_at result answer.new) }
    {
        match &self.last {
            None => CardKind::Quiet,
            Some(block) => {
                block.put(answer);
                CardKind::Reply
            }
        }
    }

    /// A piece of a command.
    fn gather(&mut self, more: bool, content: &[u8], answer: &mut Frame) -> CardKind
        ensures step { record { state = self.new; does = card_step_at result answer.new }
            ≡ framed (gathered self.old more (self.old.chain ++ content.now)) }
        ensures spelled { IsSaid self.old.code (card_step_at result answer.new) }
    {
        self.begun = true;
        if self.chain.try_extend_from_slice(content).is_err() {
            self.mute = true;
            return CardKind::Quiet;
        }
        self.number = toggled(self.number);
        self.due = 0;
        if more {
            let ack = Block::Ack {
                number: self.number,
            };
            ack.put(answer);
            self.last = Some(ack);
            CardKind::Reply
        } else {
            CardKind::Deliver(std::mem::replace(&mut self.chain, ArrayVec::new()))
        }
    }

    /// The next piece of the answer.
    fn draw(&mut self, answer: &mut Frame) -> CardKind
        ensures step { record { state = self.new; does = card_step_at result answer.new } ≡ framed (drawn self.old) }
        ensures spelled { IsSaid self.old.code (card_step_at result answer.new) }
    {
        let left = &self.answer.as_slice()[self.at..];
        if self.due > 0 || !self.unsent {
            return CardKind::Quiet;
        }
        self.number = toggled(self.number);
        let block = piece(self.most, self.number, left);
        self.at += left.len().min(self.most);
        self.unsent = left.len() > self.most;
        block.put(answer);
        self.last = Some(block);
        CardKind::Reply
    }

    /// S(WTX) by this value.
    fn extend(&mut self, times: u8, answer: &mut Frame) -> CardKind
        ensures step { record { state = self.new; does = card_step_at result answer.new }
            ≡ framed (extended self.old times) }
        ensures spelled { IsSaid self.old.code (card_step_at result answer.new) }
    {
        if self.due > 0 && times == self.times {
            self.grant(answer)
        } else {
            CardKind::Quiet
        }
    }

    /// The time that it asked for was granted.
    fn grant(&mut self, answer: &mut Frame) -> CardKind
        requires { 0 < self.old.due }
        ensures step { record { state = self.new; does = card_step_at result answer.new } ≡ framed (granted self.old) }
        ensures spelled { IsSaid self.old.code (card_step_at result answer.new) }
    {
        if self.due > 1 {
            self.due -= 1;
            let block = Block::Extend { times: self.times };
            block.put(answer);
            return CardKind::Reply;
        }
        self.due = 0;
        let block = self.first_piece();
        block.put(answer);
        self.last = Some(block);
        CardKind::Reply
    }
}
