//! The reader's end.

ghost use Rattle.std.specs.Prelude.{◌≡◌, ◌<◌, ◌≤◌, length, None};
ghost use Rattle.isodep_link.specs.Blocks.{block_frame, spelled_block, IsSpelled};
ghost use Rattle.nfc_base.specs.Pieces.{more_follows, may_extend};
ghost use Rattle.isodep_link.specs.Reader.{ReaderTurn, reader_table, framed, sent, sends, refuses, bad, acked, missed};
ghost use Rattle.isodep_link.specs.Reader.{brought, answered, waited, whole_reception, request, extended, begun};
ghost use Rattle.isodep_link.specs.Reader.{waiting, SpellsSent, reader_step_at};

use crate::block::{Block, piece, toggled};
use crate::size::piece_size;
use arrayvec::ArrayVec;
use nfc_base::{Frame, Heard, Tech};
use std::marker::Model;

/// The most bad receptions of a wait that goes on.
const MOST_BADS: u8 = 5;

/// The most time extensions that are granted in a wait (this project's own number).
const MOST_EXTENSIONS: u8 = 16;

/// The longest time extension of all.
pub const LONGEST_EXTENSION: u8 = 59;

/// What a reader does at a reception.
#[derive(Debug, Drop)]
pub enum ReaderStep {
    Send(Frame),
    /// The whole answer.
    Finished(ArrayVec<u8, 264>),
    /// The sixth bad reception of a wait.
    SixBad,
    /// A whole frame that isn't allowed here.
    Protocol,
}

/// The same, of a reader that was given a place for the frame that it sends next.
#[derive(Debug, Drop)]
pub enum ReaderKind {
    Send,
    Finished(ArrayVec<u8, 264>),
    SixBad,
    Protocol,
}

/// What a reader sent last, or how its exchange ended. `Free` is a reader with no command under way.
#[derive(Clone, Copy, Debug, PartialEq, Eq)]
pub(crate) enum Phase {
    Asked,
    Nacked,
    Free,
    EndedSixBad,
    EndedProtocol,
}

/// The reader's end (ISO/IEC 14443-4; NFC Forum Digital Protocol): one command after the other, in pieces, and the
/// answer put together. It takes no memory.
#[derive(Debug, Drop)]
pub struct ReaderEnd {
    number: u8,
    most: usize,
    command: ArrayVec<u8, 264>,
    at: usize,
    drawing: bool,
    got: ArrayVec<u8, 264>,
    extension: Option<u8>,
    granted: u8,
    phase: Phase,
    bads: u8,
}

impl Model for ReaderEnd {
    ghost use Rattle.std.specs.Prelude.{◌<◌, ◌≤◌, length, drop};
    ghost use Rattle.isodep_link.specs.Reader.{ReaderState};

    ghost Value = { ReaderState };

    ghost view = { λ i. record {
      core = record {
        number = i.number;
        most = i.most;
        rest = drop i.at i.command.items;
        drawing = i.drawing;
        got = i.got.items;
        extension = i.extension;
        granted = i.granted;
      };
      phase = i.phase;
      bads = i.bads;
    } };

    ghost invariant = { λ i. (i.number < 2) × (0 < i.most) × (i.most ≤ 253) × (i.at ≤ length i.command.items)
        × (length i.command.items ≤ 264) × (i.bads ≤ 5) × (i.granted ≤ 16) };
}

impl ReaderEnd {
    /// A reader for a card with this size code, of which codes above 8 count as 8.
    pub fn new(card_code: u8) -> ReaderEnd
        ensures { result ≡ waiting card_code }
    {
        ReaderEnd {
            number: 0,
            most: piece_size(card_code),
            command: ArrayVec::new(),
            at: 0,
            drawing: false,
            got: ArrayVec::new(),
            extension: None,
            granted: 0,
            phase: Phase::Free,
            bads: 0,
        }
    }

    /// The first block of a command. What was under way is given up.
    pub fn begin(&mut self, command: &[u8]) -> Frame
        requires { length command.now ≤ 264 }
        ensures step { self.new ≡ begun self.old command.now }
        ensures request { result ≡ block_frame (request (begun self.old command.now).core) }
        ensures spelled { IsSpelled result }
    {
        let mut kept = ArrayVec::new();
        kept.try_extend_from_slice(command).unwrap();
        self.command = kept;
        self.at = 0;
        self.drawing = false;
        self.got = ArrayVec::new();
        self.phase = Phase::Asked;
        self.turn();
        self.request().to_frame()
    }

    /// One step: what was heard of the frame that was sent last. A fault stays until `begin`.
    pub fn next(&mut self, heard: &Heard) -> ReaderStep
        ensures step { record { state = self.new; does = result } ≡ reader_table self.old heard.now }
        ensures spelled { SpellsSent result }
        ensures some { 0 < self.old.core.most }
    {
        let mut sent = Frame::whole(Tech::A, &[]).unwrap();
        match self.next_into(heard, &mut sent) {
            ReaderKind::Send => ReaderStep::Send(sent),
            ReaderKind::Finished(answer) => ReaderStep::Finished(answer),
            ReaderKind::SixBad => ReaderStep::SixBad,
            ReaderKind::Protocol => ReaderStep::Protocol,
        }
    }

    /// The same step, whose frame is put into a place of the caller's.
    pub fn next_into(&mut self, heard: &Heard, sent: &mut Frame) -> ReaderKind
        ensures step { record { state = self.new; does = reader_step_at result sent.new }
            ≡ reader_table self.old heard.now }
        ensures spelled { SpellsSent (reader_step_at result sent.new) }
        ensures some { 0 < self.old.core.most }
    {
        match (self.phase, heard) {
            (Phase::EndedSixBad, _) => ReaderKind::SixBad,
            (Phase::EndedProtocol, _) => ReaderKind::Protocol,
            (Phase::Free, Heard::Whole(_)) => self.refuse(),
            (_, Heard::Whole(frame)) => self.whole(frame, sent),
            (_, Heard::Collided(_)) => self.bad(sent),
            (_, Heard::Damaged) => self.bad(sent),
            (_, Heard::Silent) => self.bad(sent),
        }
    }

    /// A wait begins.
    fn turn(&mut self)
        ensures { self.new ≡ record self.old {
          core = record self.old.core { extension = None; granted = 0 };
          bads = 0;
        } }
    {
        self.extension = None;
        self.granted = 0;
        self.bads = 0;
    }

    /// The block of this wait, or the time extension that is granted.
    fn request(&self) -> Block
        ensures { result ≡ request self.now.core }
    {
        if let Some(times) = self.extension {
            Block::Extend { times }
        } else if self.drawing {
            Block::Ack {
                number: self.number,
            }
        } else {
            piece(self.most, self.number, &self.command.as_slice()[self.at..])
        }
    }

    /// Sends what belongs to the phase.
    fn send(&mut self, phase: Phase, sent: &mut Frame) -> ReaderKind
        ensures step { record { state = self.new; does = reader_step_at result sent.new }
            ≡ framed (sends self.old.core phase self.old.bads) }
        ensures spelled { SpellsSent (reader_step_at result sent.new) }
    {
        self.phase = phase;
        let block = match phase {
            Phase::Nacked | Phase::Free => Block::Nak {
                number: self.number,
            },
            _ => self.request(),
        };
        block.put(sent);
        ReaderKind::Send
    }

    /// A whole frame that isn't allowed.
    fn refuse(&mut self) -> ReaderKind
        ensures state { self.new ≡ (refuses self.old).state }
        ensures kind { result ≡ ReaderKind.Protocol }
    {
        self.phase = Phase::EndedProtocol;
        ReaderKind::Protocol
    }

    /// A bad reception.
    fn bad(&mut self, sent: &mut Frame) -> ReaderKind
        ensures step { record { state = self.new; does = reader_step_at result sent.new } ≡ framed (bad self.old) }
        ensures spelled { SpellsSent (reader_step_at result sent.new) }
    {
        if self.bads == MOST_BADS {
            self.phase = Phase::EndedSixBad;
            return ReaderKind::SixBad;
        }
        self.bads += 1;
        match self.phase {
            Phase::Free => self.send(Phase::Free, sent),
            _ => {
                if self.drawing {
                    self.send(Phase::Asked, sent)
                } else {
                    self.send(Phase::Nacked, sent)
                }
            }
        }
    }

    /// A whole frame while a command is under way.
    fn whole(&mut self, frame: &Frame, sent: &mut Frame) -> ReaderKind
        ensures step { record { state = self.new; does = reader_step_at result sent.new }
            ≡ framed (waited self.old (whole_reception (spelled_block frame.now))) }
        ensures spelled { SpellsSent (reader_step_at result sent.new) }
    {
        match Block::read_from(frame) {
            Some(block) => self.answered(&block, sent),
            None => self.refuse(),
        }
    }

    fn answered(&mut self, block: &Block, sent: &mut Frame) -> ReaderKind
        ensures step { record { state = self.new; does = reader_step_at result sent.new }
            ≡ framed (answered self.old block.now) }
        ensures spelled { SpellsSent (reader_step_at result sent.new) }
    {
        match block {
            Block::Info {
                more,
                number,
                content,
            } => {
                if !self.more_follows() && *number == self.number {
                    self.take(*more, content, sent)
                } else {
                    self.refuse()
                }
            }
            Block::Ack { number } => {
                if *number == self.number {
                    self.go_on(sent)
                } else {
                    self.ask_again(sent)
                }
            }
            Block::Extend { times } => self.extend(*times, sent),
            _ => self.refuse(),
        }
    }

    /// Whether pieces of the command follow the one that is under way.
    fn more_follows(&self) -> bool
        ensures { result ≡ more_follows self.now.core }
    {
        !self.drawing && self.most < self.command.len() - self.at
    }

    /// The card took a piece of the command.
    fn go_on(&mut self, sent: &mut Frame) -> ReaderKind
        ensures step { record { state = self.new; does = reader_step_at result sent.new } ≡ framed (acked self.old) }
        ensures spelled { SpellsSent (reader_step_at result sent.new) }
    {
        if !self.more_follows() {
            return self.refuse();
        }
        self.at += self.most;
        self.number = toggled(self.number);
        self.turn();
        self.send(Phase::Asked, sent)
    }

    /// The card didn't hear the last I-block.
    fn ask_again(&mut self, sent: &mut Frame) -> ReaderKind
        ensures step { record { state = self.new; does = reader_step_at result sent.new }
            ≡ framed (missed self.old self.old.phase) }
        ensures spelled { SpellsSent (reader_step_at result sent.new) }
    {
        match self.phase {
            Phase::Nacked => {
                self.extension = None;
                self.send(Phase::Asked, sent)
            }
            _ => self.refuse(),
        }
    }

    /// A piece of the answer.
    fn take(&mut self, more: bool, content: &[u8], sent: &mut Frame) -> ReaderKind
        ensures step { record { state = self.new; does = reader_step_at result sent.new }
            ≡ framed (brought self.old more content.now) }
        ensures spelled { SpellsSent (reader_step_at result sent.new) }
    {
        if more && content.is_empty() {
            return self.refuse();
        }
        if self.got.try_extend_from_slice(content).is_err() {
            return self.refuse();
        }
        self.at = self.command.len();
        self.number = toggled(self.number);
        self.turn();
        self.drawing = more;
        if more {
            self.send(Phase::Asked, sent)
        } else {
            self.phase = Phase::Free;
            ReaderKind::Finished(std::mem::replace(&mut self.got, ArrayVec::new()))
        }
    }

    /// Whether the card may ask for so much more time.
    fn may_extend(&self, times: u8) -> bool
        ensures { result ≡ may_extend self.now.core times }
    {
        let awaits_answer = !self.drawing && !self.more_follows();
        awaits_answer && (1..=LONGEST_EXTENSION).contains(&times) && self.granted < MOST_EXTENSIONS
    }

    /// The card asks for more time.
    fn extend(&mut self, times: u8, sent: &mut Frame) -> ReaderKind
        ensures step { record { state = self.new; does = reader_step_at result sent.new }
            ≡ framed (extended self.old times) }
        ensures spelled { SpellsSent (reader_step_at result sent.new) }
    {
        if !self.may_extend(times) {
            return self.refuse();
        }
        self.extension = Some(times);
        self.granted += 1;
        self.send(Phase::Asked, sent)
    }
}
