//! The target's end.

ghost use Rattle.std.specs.Prelude.{◌≡◌, ◌≤◌, ◌<◌, ◌++◌, length, drop, nat_lt, true};
ghost use Rattle.dep_pdu.specs.Spelling.{IsDepFrame};
ghost use Rattle.dep_link.specs.Frames.{air_frame, IsSpelled};
ghost use Rattle.dep_link.specs.Target.{TargetTurn, target_table, framed, heeded, frame_table, again, repeated};
ghost use Rattle.dep_link.specs.Target.{gathered, drawn, extended, granted, first_piece, opened, replied, reply_frame};
ghost use Rattle.dep_link.specs.Target.{fresh, restarted, darkened, made_busy, atr_res, IsSaid, target_step_at};

use crate::frames::{INITIATOR_LR, after, piece, piece_size, put_frame, spelled};
use arrayvec::ArrayVec;
use dep_pdu::DepFrame;
use nfc_base::{Frame, Tech};
use std::marker::Model;

/// The code of the target's waiting time (this project's own).
const WAITING_CODE: u8 = 8;

/// What a target does at a frame.
#[derive(Debug, Drop)]
pub enum TargetStep {
    Quiet,
    Reply(Frame),
    /// A new link: the initiator's general bytes, and the answer.
    Restart {
        general: ArrayVec<u8, 48>,
        reply: Frame,
    },
    /// A whole payload, which `Target::reply` answers.
    Deliver(ArrayVec<u8, 2178>),
    /// It answers a last time, and sleeps.
    Asleep(Frame),
    /// It answers a last time, and is let go.
    Released(Frame),
}

/// The same, of a target that was given a place for its answer.
#[derive(Debug, Drop)]
pub enum TargetKind {
    Quiet,
    Reply,
    Restart(ArrayVec<u8, 48>),
    Deliver(ArrayVec<u8, 2178>),
    Asleep,
    Released,
}

/// The target's end (NFCIP-1, ISO/IEC 18092; NFC Forum Digital Protocol): it puts payloads together and hands out
/// replies in pieces. It takes no memory. Its owner calls `dark` when the device leaves the field, sleeps or is let go.
#[derive(Debug, Drop)]
pub struct Target {
    id: [u8; 10],
    lr: u8,
    general: ArrayVec<u8, 47>,
    most: usize,
    expected: u8,
    last: Option<DepFrame>,
    chain: ArrayVec<u8, 2178>,
    reply: ArrayVec<u8, 2178>,
    at: usize,
    unsent: bool,
    mute: bool,
    busy: u8,
    times: u8,
    due: u8,
    followed: bool,
}

impl Model for Target {
    ghost use Rattle.std.specs.Prelude.{drop};
    ghost use Rattle.dep_link.specs.Target.{TargetState, IsTarget};

    ghost Value = { TargetState };

    ghost view = { λ t. record {
      id = t.id;
      lr = t.lr;
      general = t.general.items;
      most = t.most;
      expected = t.expected;
      last = t.last;
      chain = t.chain.items;
      left = drop t.at t.reply.items;
      unsent = t.unsent;
      mute = t.mute;
      busy = t.busy;
      times = t.times;
      due = t.due;
      followed = t.followed;
    } };

    ghost invariant = { λ t. IsTarget t.id t.lr t.most t.expected t.last t.at t.reply.items t.busy t.times };
}

impl Target {
    /// A target with this NFCID3, LR code and general bytes, that heard nothing.
    pub fn new(id: [u8; 10], lr: u8, general: ArrayVec<u8, 47>) -> Target
        requires { lr < 4 }
        ensures { result ≡ fresh id lr general.items }
    {
        Target {
            id,
            lr,
            general,
            most: piece_size(INITIATOR_LR),
            expected: 0,
            last: None,
            chain: ArrayVec::new(),
            reply: ArrayVec::new(),
            at: 0,
            unsent: false,
            mute: false,
            busy: 0,
            times: 1,
            due: 0,
            followed: false,
        }
    }

    /// From now on it asks for more time before each reply: `count` extensions, each by `times`.
    pub fn set_busy(&mut self, count: u8, times: u8)
        requires count { count ≤ 5 }
        requires times { (1 ≤ times) × (times ≤ 59) }
        ensures { self.new ≡ made_busy self.old count times }
    {
        self.busy = count;
        self.times = times;
    }

    /// It becomes as `new` gave it, but for the time that it asks for.
    pub fn dark(&mut self)
        ensures { self.new ≡ darkened self.old }
    {
        self.restart(INITIATOR_LR);
    }

    /// One step at a frame of the initiator. After `Deliver` the owner calls `reply`.
    pub fn hear(&mut self, frame: &Frame) -> TargetStep
        ensures step { record { state = self.new; does = result } ≡ target_table self.old frame.now }
        ensures spelled { IsSaid result }
    {
        let mut answer = Frame::whole(Tech::A, &[]).unwrap();
        match self.hear_into(frame, &mut answer) {
            TargetKind::Quiet => TargetStep::Quiet,
            TargetKind::Reply => TargetStep::Reply(answer),
            TargetKind::Restart(general) => TargetStep::Restart {
                general,
                reply: answer,
            },
            TargetKind::Deliver(payload) => TargetStep::Deliver(payload),
            TargetKind::Asleep => TargetStep::Asleep(answer),
            TargetKind::Released => TargetStep::Released(answer),
        }
    }

    /// The same step, whose answer is put into a place of the caller's.
    pub fn hear_into(&mut self, frame: &Frame, answer: &mut Frame) -> TargetKind
        ensures step { record { state = self.new; does = target_step_at result answer.new }
            ≡ target_table self.old frame.now }
        ensures spelled { IsSaid (target_step_at result answer.new) }
    {
        match spelled(frame) {
            Some(value) => self.heed(&value, answer),
            None => TargetKind::Quiet,
        }
    }

    /// The answer to what was delivered: a time extension, where it asks for one first, else the reply's first piece.
    pub fn reply(&mut self, content: &[u8]) -> Frame
        requires { length content.now ≤ 2178 }
        ensures step { self.new ≡ replied self.old content.now }
        ensures answer { result ≡ air_frame (reply_frame self.old content.now) }
        ensures spelled { IsSpelled result }
    {
        let mut answer = Frame::whole(Tech::A, &[]).unwrap();
        self.reply_into(content, &mut answer);
        answer
    }

    /// The same answer, put into a place of the caller's.
    pub fn reply_into(&mut self, content: &[u8], answer: &mut Frame)
        requires { length content.now ≤ 2178 }
        ensures step { self.new ≡ replied self.old content.now }
        ensures answer { answer.new ≡ air_frame (reply_frame self.old content.now) }
        ensures spelled { IsSpelled answer.new }
    {
        let mut reply = ArrayVec::new();
        reply.try_extend_from_slice(content).unwrap();
        self.reply = reply;
        self.at = 0;
        self.unsent = true;
        self.followed = false;
        self.due = self.busy;
        let value = if self.busy > 0 {
            self.extension()
        } else {
            self.first_piece()
        };
        put_frame(&value, answer);
        self.last = Some(value);
    }

    fn extension(&self) -> DepFrame
        ensures value { result ≡ DepFrame.Extend true self.now.times }
        ensures range { IsDepFrame result }
    {
        DepFrame::Extend {
            up: true,
            times: self.times,
        }
    }

    /// The first piece of its reply, which is sent with it.
    fn first_piece(&mut self) -> DepFrame
        ensures value { result ≡ first_piece self.old self.old.left }
        ensures range { IsDepFrame result }
        ensures step { self.new ≡ record self.old {
          left = drop self.old.most self.old.left;
          unsent = nat_lt self.old.most (length self.old.left);
        } }
    {
        let left = &self.reply.as_slice()[self.at..];
        let value = piece(true, self.most, (self.expected + 3) % 4, left);
        self.at += left.len().min(self.most);
        self.unsent = left.len() > self.most;
        value
    }

    /// A new link begins, of an initiator with this LR code.
    fn restart(&mut self, code: u8)
        ensures { self.new ≡ restarted self.old code }
    {
        self.most = piece_size(code);
        self.expected = 0;
        self.last = None;
        self.chain = ArrayVec::new();
        self.reply = ArrayVec::new();
        self.at = 0;
        self.unsent = false;
        self.mute = false;
        self.due = 0;
        self.followed = false;
    }

    fn heed(&mut self, value: &DepFrame, answer: &mut Frame) -> TargetKind
        ensures step { record { state = self.new; does = target_step_at result answer.new }
            ≡ framed (heeded self.old value.now) }
        ensures spelled { IsSaid (target_step_at result answer.new) }
    {
        if let DepFrame::AtrReq { lr, general, .. } = value {
            return self.open(*lr, general, answer);
        }
        if self.mute {
            return TargetKind::Quiet;
        }
        self.obey(value, answer)
    }

    /// ATR_REQ.
    fn open(&mut self, code: u8, general: &[u8], answer: &mut Frame) -> TargetKind
        requires { length general.now ≤ 48 }
        ensures step { record { state = self.new; does = target_step_at result answer.new }
            ≡ framed (opened self.old code general.now) }
        ensures spelled { IsSaid (target_step_at result answer.new) }
    {
        self.restart(code);
        let mut kept = ArrayVec::new();
        kept.try_extend_from_slice(general).unwrap();
        put_frame(&self.atr_res(), answer);
        TargetKind::Restart(kept)
    }

    fn atr_res(&self) -> DepFrame
        ensures value { result ≡ atr_res self.now }
        ensures range { IsDepFrame result }
    {
        let mut general = ArrayVec::new();
        general.try_extend_from_slice(&self.general).unwrap();
        DepFrame::AtrRes {
            id: self.id,
            timeout: WAITING_CODE,
            lr: self.lr,
            general,
        }
    }

    fn obey(&mut self, value: &DepFrame, answer: &mut Frame) -> TargetKind
        ensures step { record { state = self.new; does = target_step_at result answer.new }
            ≡ framed (frame_table self.old value.now) }
        ensures spelled { IsSaid (target_step_at result answer.new) }
    {
        match value {
            DepFrame::Info {
                up: false,
                more,
                pni,
                content,
            } => {
                if *pni == self.expected {
                    self.gather(*more, *pni, content, answer)
                } else {
                    self.repeat(*pni, answer)
                }
            }
            DepFrame::Ack { up: false, pni } => {
                if *pni == self.expected {
                    self.draw(*pni, answer)
                } else {
                    self.repeat(*pni, answer)
                }
            }
            DepFrame::Nack { pni } => self.repeat(*pni, answer),
            DepFrame::Attention { up: false } => {
                put_frame(&DepFrame::Attention { up: true }, answer);
                TargetKind::Reply
            }
            DepFrame::Extend { up: false, times } => self.extend(*times, answer),
            DepFrame::DslReq => {
                put_frame(&DepFrame::DslRes, answer);
                TargetKind::Asleep
            }
            DepFrame::RlsReq => {
                put_frame(&DepFrame::RlsRes, answer);
                TargetKind::Released
            }
            _ => TargetKind::Quiet,
        }
    }

    /// The last answer again, where the request is the last one.
    fn repeat(&self, pni: u8, answer: &mut Frame) -> TargetKind
        ensures step { record { state = self.now; does = target_step_at result answer.new }
            ≡ framed (repeated self.now pni) }
        ensures spelled { IsSaid (target_step_at result answer.new) }
    {
        if (pni as u16 + 1) % 4 != self.expected as u16 {
            return TargetKind::Quiet;
        }
        self.repeat_last(answer)
    }

    fn repeat_last(&self, answer: &mut Frame) -> TargetKind
        ensures step { record { state = self.now; does = target_step_at result answer.new }
            ≡ framed (again self.now self.now.last) }
        ensures spelled { IsSaid (target_step_at result answer.new) }
    {
        match &self.last {
            None => TargetKind::Quiet,
            Some(value) => {
                put_frame(value, answer);
                TargetKind::Reply
            }
        }
    }

    /// A piece of a payload.
    fn gather(&mut self, more: bool, pni: u8, content: &[u8], answer: &mut Frame) -> TargetKind
        requires { pni < 4 }
        ensures step { record { state = self.new; does = target_step_at result answer.new }
            ≡ framed (gathered self.old more pni (self.old.chain ++ content.now)) }
        ensures spelled { IsSaid (target_step_at result answer.new) }
    {
        if self.chain.try_extend_from_slice(content).is_err() {
            self.mute = true;
            return TargetKind::Quiet;
        }
        self.expected = after(self.expected);
        self.due = 0;
        self.followed = false;
        if more {
            let ack = DepFrame::Ack { up: true, pni };
            put_frame(&ack, answer);
            self.last = Some(ack);
            TargetKind::Reply
        } else {
            self.last = None;
            TargetKind::Deliver(std::mem::replace(&mut self.chain, ArrayVec::new()))
        }
    }

    /// The next piece of the reply.
    fn draw(&mut self, pni: u8, answer: &mut Frame) -> TargetKind
        requires { pni < 4 }
        ensures step { record { state = self.new; does = target_step_at result answer.new }
            ≡ framed (drawn self.old pni) }
        ensures spelled { IsSaid (target_step_at result answer.new) }
    {
        let left = &self.reply.as_slice()[self.at..];
        if self.due > 0 || !self.unsent {
            return TargetKind::Quiet;
        }
        let value = piece(true, self.most, pni, left);
        self.at += left.len().min(self.most);
        self.unsent = left.len() > self.most;
        self.expected = after(self.expected);
        self.followed = false;
        put_frame(&value, answer);
        self.last = Some(value);
        TargetKind::Reply
    }

    /// A time extension by this value.
    fn extend(&mut self, times: u8, answer: &mut Frame) -> TargetKind
        ensures step { record { state = self.new; does = target_step_at result answer.new }
            ≡ framed (extended self.old times) }
        ensures spelled { IsSaid (target_step_at result answer.new) }
    {
        if self.due > 0 {
            if times == self.times {
                self.grant(answer)
            } else {
                TargetKind::Quiet
            }
        } else if self.followed {
            self.repeat_last(answer)
        } else {
            TargetKind::Quiet
        }
    }

    /// The time that it asked for was granted.
    fn grant(&mut self, answer: &mut Frame) -> TargetKind
        requires { 0 < self.old.due }
        ensures step { record { state = self.new; does = target_step_at result answer.new }
            ≡ framed (granted self.old) }
        ensures spelled { IsSaid (target_step_at result answer.new) }
    {
        if self.due > 1 {
            self.due -= 1;
            put_frame(&self.extension(), answer);
            return TargetKind::Reply;
        }
        self.due = 0;
        self.followed = true;
        let value = self.first_piece();
        put_frame(&value, answer);
        self.last = Some(value);
        TargetKind::Reply
    }
}
