//! Both ends of NFC-DEP, as functions of what came on a link, and the frames by which a link begins.

ghost use Rattle.std.specs.Prelude.{◌≡◌};
ghost use Rattle.dep_pdu.specs.Reading.{spelled_frame};
ghost use Rattle.zevlodek_c.specs.Dep.{InitiatorTells, RequestTold, TargetTells, general_shown};
ghost use Rattle.zevlodek_c.specs.Dep.{initiator_shown, target_shown};

use crate::codes::{
    ASLEEP, BAD_ARGUMENT, BAD_LOG, DEP_NO_ANSWER, DEP_SIX_BAD, DONE, OPENED, RELEASED, SEND, SILENT,
};
use crate::entries::{BEGUN, FRAME, REPLY, Replayed, heard_of, replay};
use crate::showing::{Told, show};
use arrayvec::ArrayVec;
use dep_link::{InitStep, Initiator, Target, TargetStep};
use dep_pdu::DepFrame;
use nfc_base::{Frame, Tech};
use std::marker::Model;

/// The codes of the longest frames that an end takes, 0 to 3, and that of 254 bytes.
const LR_CODES: u8 = 4;

const LONGEST_FRAMES: u8 = 3;

/// How many general bytes fit ATR_REQ, and ATR_RES.
const MOST_ASKED: usize = 48;

const MOST_ANSWERED: usize = 47;

/// The longest payload, and the longest reply.
const LONGEST: usize = 2178;

/// An initiator, and what it does behind what came; nothing before the first payload.
#[derive(Drop)]
struct InitiatorSide {
    end: Initiator,
    step: Option<InitStep>,
}

impl Model for InitiatorSide {
    ghost use Rattle.zevlodek_c.specs.Dep.{InitiatorNow};

    ghost Value = { InitiatorNow };

    ghost view = { λ i. record { state = i.end; does = i.step } };
}

impl Replayed for InitiatorSide {
    ghost use Rattle.zevlodek_c.specs.Dep.{initiator_takes};

    ghost takes = { initiator_takes };

    /// It begins with a payload, or goes on by what it heard.
    fn take(self, kind: u8, content: &[u8]) -> Option<InitiatorSide> {
        let InitiatorSide { mut end, step: _ } = self;
        if kind == BEGUN {
            if content.len() > LONGEST {
                return None;
            }
            let step = Some(InitStep::Send(end.begin(content)));
            return Some(InitiatorSide { end, step });
        }
        let heard = heard_of(kind, content)?;
        let step = Some(end.next(&heard));
        Some(InitiatorSide { end, step })
    }
}

fn show_initiator(side: InitiatorSide, out: &mut [u8], told: &mut Told) -> i32
    ensures { record { answer = result; out = out.new; told = told.new } ≡ initiator_shown side out.old told.old }
{
    match side.step {
        None => SILENT,
        Some(InitStep::Send(frame)) => show(SEND, frame.view(), out, told),
        Some(InitStep::Finished(reply)) => show(DONE, reply.as_slice(), out, told),
        Some(InitStep::SixBad) => DEP_SIX_BAD,
        Some(InitStep::Protocol) => DEP_NO_ANSWER,
    }
}

/// Goes on as the initiator of a link to a target with this LR code: `SEND` where the frame in `out` is to be sent,
/// `DONE` where the reply to the last payload stands there.
#[tactic(auto, using(crate::proofs::EntryLogs::tells_replayed))]
#[unsafe(no_mangle)]
pub extern "C" fn zev_dep_initiator_next(lr: u8, log: &[u8], out: &mut [u8], told: &mut Told) -> i32
    ensures { InitiatorTells lr log.now out.old told.old (record { answer = result; out = out.new; told = told.new }) }
{
    if lr >= LR_CODES {
        return BAD_ARGUMENT;
    }
    let side = InitiatorSide {
        end: Initiator::new(lr),
        step: None,
    };
    match replay(side, log) {
        None => BAD_LOG,
        Some(side) => show_initiator(side, out, told),
    }
}

/// A target, and what it does behind what came.
#[derive(Drop)]
struct TargetSide {
    end: Target,
    step: TargetStep,
}

impl Model for TargetSide {
    ghost use Rattle.dep_link.specs.Target.{TargetTurn};

    ghost Value = { TargetTurn };

    ghost view = { λ t. record { state = t.end; does = t.step } };
}

impl Replayed for TargetSide {
    ghost use Rattle.zevlodek_c.specs.Dep.{target_takes};

    ghost takes = { target_takes };

    /// It hears a frame, or its owner replies to the payload that it delivered.
    fn take(self, kind: u8, content: &[u8]) -> Option<TargetSide> {
        let TargetSide { mut end, step } = self;
        if kind == FRAME {
            let Ok(frame) = Frame::whole(Tech::A, content) else {
                return None;
            };
            let step = end.hear(&frame);
            return Some(TargetSide { end, step });
        }
        if kind != REPLY || content.len() > LONGEST {
            return None;
        }
        match step {
            TargetStep::Deliver(_) => {
                let step = TargetStep::Reply(end.reply(content));
                Some(TargetSide { end, step })
            }
            _ => None,
        }
    }
}

fn show_target(side: TargetSide, out: &mut [u8], told: &mut Told) -> i32
    ensures { record { answer = result; out = out.new; told = told.new } ≡ target_shown side out.old told.old }
{
    match side.step {
        TargetStep::Quiet => SILENT,
        TargetStep::Reply(frame) => show(SEND, frame.view(), out, told),
        TargetStep::Restart { general: _, reply } => show(OPENED, reply.view(), out, told),
        TargetStep::Deliver(payload) => show(DONE, payload.as_slice(), out, told),
        TargetStep::Asleep(frame) => show(ASLEEP, frame.view(), out, told),
        TargetStep::Released(frame) => show(RELEASED, frame.view(), out, told),
    }
}

/// Goes on as a target with this NFCID3, LR code and general bytes: `SEND` where the frame in `out` is to be sent,
/// `OPENED` where it is ATR_RES, `DONE` where the payload there is to be replied to.
#[tactic(auto, using(crate::proofs::EntryLogs::tells_replayed))]
#[unsafe(no_mangle)]
pub extern "C" fn zev_dep_target_next(
    id: &[u8; 10],
    lr: u8,
    general: &[u8],
    log: &[u8],
    out: &mut [u8],
    told: &mut Told,
) -> i32
    ensures { TargetTells id.now lr general.now log.now out.old told.old
        (record { answer = result; out = out.new; told = told.new }) }
{
    if lr >= LR_CODES || general.len() > MOST_ANSWERED {
        return BAD_ARGUMENT;
    }
    let mut kept = ArrayVec::new();
    kept.try_extend_from_slice(general).unwrap();
    let side = TargetSide {
        end: Target::new(*id, lr, kept),
        step: TargetStep::Quiet,
    };
    match replay(side, log) {
        None => BAD_LOG,
        Some(side) => show_target(side, out, told),
    }
}

/// Tells the ATR_REQ by which an initiator with this NFCID3 and these general bytes begins a link.
#[unsafe(no_mangle)]
pub extern "C" fn zev_dep_request(
    id: &[u8; 10],
    general: &[u8],
    out: &mut [u8],
    told: &mut Told,
) -> i32
    ensures { RequestTold id.now general.now out.old told.old
        (record { answer = result; out = out.new; told = told.new }) }
{
    if general.len() > MOST_ASKED {
        return BAD_ARGUMENT;
    }
    let mut kept = ArrayVec::new();
    kept.try_extend_from_slice(general).unwrap();
    let request = DepFrame::AtrReq {
        id: *id,
        lr: LONGEST_FRAMES,
        general: kept,
    };
    show(DONE, request.to_bytes().as_slice(), out, told)
}

/// Tells the general bytes of ATR_REQ or ATR_RES, and the LR code of the end that sent it.
#[unsafe(no_mangle)]
pub extern "C" fn zev_dep_general(frame: &[u8], out: &mut [u8], told: &mut Told) -> i32
    ensures { record { answer = result; out = out.new; told = told.new }
        ≡ general_shown (spelled_frame frame.now) out.old told.old }
{
    match DepFrame::read_from(frame) {
        Ok(DepFrame::AtrReq { id: _, lr, general }) => {
            told.code = lr as u16;
            show(DONE, general.as_slice(), out, told)
        }
        Ok(
            DepFrame::AtrRes {
                id: _,
                timeout: _,
                lr,
                general,
            },
        ) => {
            told.code = lr as u16;
            show(DONE, general.as_slice(), out, told)
        }
        _ => BAD_ARGUMENT,
    }
}
