//! The initiator's end.

ghost use Rattle.std.specs.Prelude.{◌≡◌, ◌<◌, ◌≤◌, length, None};
ghost use Rattle.dep_pdu.specs.Spelling.{IsDepFrame};
ghost use Rattle.dep_link.specs.Frames.{air_frame, spelled, IsSpelled};
ghost use Rattle.dep_link.specs.DepLinks.{over_at};
ghost use Rattle.nfc_base.specs.Pieces.{more_follows, may_extend};
ghost use Rattle.dep_link.specs.Initiator.{InitTurn, init_table, framed, sends, refuses, bad, acked, brought, answered};
ghost use Rattle.dep_link.specs.Initiator.{attended, waited, attending, request, extended, begun, waiting, IsSent};
ghost use Rattle.dep_link.specs.Initiator.{init_step_at};

use crate::frames::{after, air_frame, piece, piece_size, put_frame, spelled};
use arrayvec::ArrayVec;
use dep_pdu::DepFrame;
use nfc_base::{EndCause, Frame, Heard, Tech};
use std::marker::Model;

/// The most bad receptions of a wait that goes on.
const MOST_BADS: u8 = 5;

/// The most time extensions that are granted in a wait, and the longest of one (the number is this project's own).
const MOST_EXTENSIONS: u8 = 16;

const LONGEST_EXTENSION: u8 = 59;

/// What an initiator does at a reception.
#[derive(Debug, Drop)]
pub enum InitStep {
    Send(Frame),
    /// The whole reply.
    Finished(ArrayVec<u8, 2178>),
    /// The sixth bad reception of a wait.
    SixBad,
    /// A whole frame that isn't allowed here.
    Protocol,
}

/// The same, of an initiator that was given a place for the frame that it sends next.
#[derive(Debug, Drop)]
pub enum InitKind {
    Send,
    Finished(ArrayVec<u8, 2178>),
    SixBad,
    Protocol,
}

/// What an initiator sent last, or how its exchange ended. `Free` is one with no payload under way.
#[derive(Clone, Copy, Debug, PartialEq, Eq)]
pub(crate) enum Phase {
    Asked,
    Nacked,
    Attending,
    Free,
    EndedSixBad,
    EndedProtocol,
}

/// The initiator's end (NFCIP-1, ISO/IEC 18092; NFC Forum Digital Protocol): one payload after the other, in pieces,
/// and the reply put together. It takes no memory.
#[derive(Debug, Drop)]
pub struct Initiator {
    number: u8,
    most: usize,
    payload: ArrayVec<u8, 2178>,
    at: usize,
    begun: bool,
    drawing: bool,
    got: ArrayVec<u8, 2178>,
    extension: Option<u8>,
    granted: u8,
    phase: Phase,
    bads: u8,
}

impl Model for Initiator {
    ghost use Rattle.std.specs.Prelude.{drop, if◌then◌else◌, Some, None};
    ghost use Rattle.dep_link.specs.Initiator.{InitState, IsInitiator};

    ghost Value = { InitState };

    ghost view = { λ i. record {
      core = record {
        number = i.number;
        most = i.most;
        rest = drop i.at i.payload.items;
        drawing = i.drawing;
        got = i.got.items;
        extension = i.extension;
        granted = i.granted;
      };
      phase = i.phase;
      bads = i.bads;
      out = if i.begun then Some i.payload.items else None;
    } };

    ghost invariant = { λ i. IsInitiator i.number i.most i.at i.payload.items i.extension i.granted i.bads };
}

impl Initiator {
    /// An initiator for a target with this LR code.
    pub fn new(lr: u8) -> Initiator
        requires { lr < 4 }
        ensures { result ≡ waiting lr }
    {
        Initiator {
            number: 0,
            most: piece_size(lr),
            payload: ArrayVec::new(),
            at: 0,
            begun: false,
            drawing: false,
            got: ArrayVec::new(),
            extension: None,
            granted: 0,
            phase: Phase::Free,
            bads: 0,
        }
    }

    /// The first frame of a payload. What was under way is given up.
    pub fn begin(&mut self, payload: &[u8]) -> Frame
        requires { length payload.now ≤ 2178 }
        ensures step { self.new ≡ begun self.old payload.now }
        ensures request { result ≡ air_frame (request (begun self.old payload.now).core) }
        ensures spelled { IsSpelled result }
    {
        let mut kept = ArrayVec::new();
        kept.try_extend_from_slice(payload).unwrap();
        self.payload = kept;
        self.at = 0;
        self.begun = true;
        self.drawing = false;
        self.got = ArrayVec::new();
        self.turn();
        self.phase = Phase::Asked;
        air_frame(&self.request())
    }

    /// One step: what was heard of the frame that was sent last. A fault stays until `begin`.
    pub fn next(&mut self, heard: &Heard) -> InitStep
        ensures step { record { state = self.new; does = result } ≡ init_table self.old heard.now }
        ensures spelled { IsSent result }
        ensures some { 0 < self.old.core.most }
    {
        let mut sent = Frame::whole(Tech::A, &[]).unwrap();
        match self.next_into(heard, &mut sent) {
            InitKind::Send => InitStep::Send(sent),
            InitKind::Finished(reply) => InitStep::Finished(reply),
            InitKind::SixBad => InitStep::SixBad,
            InitKind::Protocol => InitStep::Protocol,
        }
    }

    /// The same step, whose frame is put into a place of the caller's.
    pub fn next_into(&mut self, heard: &Heard, sent: &mut Frame) -> InitKind
        ensures step { record { state = self.new; does = init_step_at result sent.new }
            ≡ init_table self.old heard.now }
        ensures spelled { IsSent (init_step_at result sent.new) }
        ensures some { 0 < self.old.core.most }
    {
        match (self.phase, heard) {
            (Phase::EndedSixBad, _) => InitKind::SixBad,
            (Phase::EndedProtocol, _) => InitKind::Protocol,
            (Phase::Free, Heard::Whole(_)) => self.refuse(),
            (Phase::Free, Heard::Collided(_)) => self.bad(Phase::Free, sent),
            (Phase::Free, Heard::Damaged) => self.bad(Phase::Free, sent),
            (Phase::Free, Heard::Silent) => self.bad(Phase::Free, sent),
            (Phase::Attending, Heard::Whole(frame)) => self.attend(frame, sent),
            (Phase::Attending, Heard::Collided(_)) => self.bad(Phase::Attending, sent),
            (Phase::Attending, Heard::Damaged) => self.bad(Phase::Attending, sent),
            (Phase::Attending, Heard::Silent) => self.bad(Phase::Attending, sent),
            (_, Heard::Whole(frame)) => self.whole(frame, sent),
            (_, Heard::Collided(_)) => self.bad(Phase::Nacked, sent),
            (_, Heard::Damaged) => self.bad(Phase::Nacked, sent),
            (_, Heard::Silent) => self.bad(Phase::Attending, sent),
        }
    }

    /// The PNI of its next frame. Whoever reads off a trace how many PDUs a payload had begins its count here.
    pub fn pni(&self) -> u8
        ensures number { result ≡ self.now.core.number }
        ensures bound { result < 4 }
    {
        self.number
    }

    /// By which cause a link of it is over, in a field that is lit or not.
    pub(crate) fn over(&self, lit: bool) -> Option<EndCause>
        ensures { result ≡ over_at self.now.phase lit }
    {
        match self.phase {
            Phase::EndedSixBad => Some(EndCause::SixBad),
            Phase::EndedProtocol => Some(EndCause::Protocol),
            _ => { if lit { None } else { Some(EndCause::FieldLost) } }
        }
    }

    /// A wait begins.
    fn turn(&mut self)
        ensures { self.new ≡ record self.old {
          core = record self.old.core { extension = None; granted = 0 };
          bads = 0;
        } }
    {
        self.extension = None;
        self.granted = 0;
        self.bads = 0;
    }

    /// The request of this wait, or the time extension that is granted.
    fn request(&self) -> DepFrame
        ensures value { result ≡ request self.now.core }
        ensures range { IsDepFrame result }
    {
        if let Some(times) = self.extension {
            DepFrame::Extend { up: false, times }
        } else if self.drawing {
            DepFrame::Ack {
                up: false,
                pni: self.number,
            }
        } else {
            piece(
                false,
                self.most,
                self.number,
                &self.payload.as_slice()[self.at..],
            )
        }
    }

    /// Sends what belongs to the phase.
    fn send(&mut self, phase: Phase, sent: &mut Frame) -> InitKind
        ensures step { record { state = self.new; does = init_step_at result sent.new }
            ≡ framed (sends self.old self.old.core phase self.old.bads) }
        ensures spelled { IsSent (init_step_at result sent.new) }
    {
        self.phase = phase;
        let value = match phase {
            Phase::Nacked => DepFrame::Nack { pni: self.number },
            Phase::Attending => DepFrame::Attention { up: false },
            Phase::Free => DepFrame::Attention { up: false },
            _ => self.request(),
        };
        put_frame(&value, sent);
        InitKind::Send
    }

    /// A whole frame that isn't allowed.
    fn refuse(&mut self) -> InitKind
        ensures state { self.new ≡ (refuses self.old).state }
        ensures kind { result ≡ InitKind.Protocol }
    {
        self.phase = Phase::EndedProtocol;
        InitKind::Protocol
    }

    /// A bad reception, after which that is sent.
    fn bad(&mut self, phase: Phase, sent: &mut Frame) -> InitKind
        ensures step { record { state = self.new; does = init_step_at result sent.new } ≡ framed (bad self.old phase) }
        ensures spelled { IsSent (init_step_at result sent.new) }
    {
        if self.bads == MOST_BADS {
            self.phase = Phase::EndedSixBad;
            return InitKind::SixBad;
        }
        self.bads += 1;
        self.send(phase, sent)
    }

    /// A whole frame behind a request or a NACK.
    fn whole(&mut self, frame: &Frame, sent: &mut Frame) -> InitKind
        ensures step { record { state = self.new; does = init_step_at result sent.new }
            ≡ framed (waited self.old (spelled frame.now)) }
        ensures spelled { IsSent (init_step_at result sent.new) }
    {
        match spelled(frame) {
            Some(value) => self.answered(&value, sent),
            None => self.refuse(),
        }
    }

    /// A whole frame behind an attention.
    fn attend(&mut self, frame: &Frame, sent: &mut Frame) -> InitKind
        ensures step { record { state = self.new; does = init_step_at result sent.new }
            ≡ framed (attending self.old (spelled frame.now)) }
        ensures spelled { IsSent (init_step_at result sent.new) }
    {
        match spelled(frame) {
            Some(DepFrame::Attention { up: true }) => self.send(Phase::Asked, sent),
            _ => self.refuse(),
        }
    }

    fn answered(&mut self, value: &DepFrame, sent: &mut Frame) -> InitKind
        ensures step { record { state = self.new; does = init_step_at result sent.new }
            ≡ framed (answered self.old value.now) }
        ensures spelled { IsSent (init_step_at result sent.new) }
    {
        match value {
            DepFrame::Ack { up: true, pni } => self.go_on(*pni, sent),
            DepFrame::Info {
                up: true,
                more,
                pni,
                content,
            } => {
                if !self.more_follows() && *pni == self.number {
                    self.take(*more, content, sent)
                } else {
                    self.refuse()
                }
            }
            DepFrame::Extend { up: true, times } => self.extend(*times, sent),
            _ => self.refuse(),
        }
    }

    /// Whether pieces of the payload follow the one that is under way.
    fn more_follows(&self) -> bool
        ensures { result ≡ more_follows self.now.core }
    {
        !self.drawing && self.most < self.payload.len() - self.at
    }

    /// ACK: the next piece of the payload.
    fn go_on(&mut self, pni: u8, sent: &mut Frame) -> InitKind
        ensures step { record { state = self.new; does = init_step_at result sent.new } ≡ framed (acked self.old pni) }
        ensures spelled { IsSent (init_step_at result sent.new) }
    {
        if !self.more_follows() || pni != self.number {
            return self.refuse();
        }
        self.at += self.most;
        self.number = after(self.number);
        self.turn();
        self.send(Phase::Asked, sent)
    }

    /// A piece of the reply.
    fn take(&mut self, more: bool, content: &[u8], sent: &mut Frame) -> InitKind
        ensures step { record { state = self.new; does = init_step_at result sent.new }
            ≡ framed (brought self.old more content.now) }
        ensures spelled { IsSent (init_step_at result sent.new) }
    {
        if more && content.is_empty() {
            return self.refuse();
        }
        if self.got.try_extend_from_slice(content).is_err() {
            return self.refuse();
        }
        self.at = self.payload.len();
        self.number = after(self.number);
        self.drawing = more;
        self.turn();
        if more {
            self.send(Phase::Asked, sent)
        } else {
            self.phase = Phase::Free;
            InitKind::Finished(std::mem::replace(&mut self.got, ArrayVec::new()))
        }
    }
    /// Whether the target may ask for so much more time.
    fn may_extend(&self, times: u8) -> bool
        ensures { result ≡ may_extend self.now.core times }
    {
        let awaits_reply = !self.drawing && !self.more_follows();
        awaits_reply && (1..=LONGEST_EXTENSION).contains(&times) && self.granted < MOST_EXTENSIONS
    }

    /// The target asks for more time.
    fn extend(&mut self, times: u8, sent: &mut Frame) -> InitKind
        ensures step { record { state = self.new; does = init_step_at result sent.new }
            ≡ framed (extended self.old times) }
        ensures spelled { IsSent (init_step_at result sent.new) }
    {
        if !self.may_extend(times) {
            return self.refuse();
        }
        self.extension = Some(times);
        self.granted += 1;
        self.send(Phase::Asked, sent)
    }
}
