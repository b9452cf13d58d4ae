//! The activation of a peer by ATR_REQ.

ghost use Rattle.std.specs.Prelude.{◌≡◌, ◌≤◌, ◌<◌, length, IfSome, IfErr};
ghost use Rattle.dep_link.specs.Frames.{spelled};
ghost use Rattle.dep_link.specs.AnyTarget.{cause_of, AsksAtr};
ghost use Rattle.dep_link.specs.Activating.{atr_frame, told_atr, Activates, by_cause, IsUnanswered};

use crate::frames::{INITIATOR_LR, air_frame, spelled};
use crate::initiator::Initiator;
use crate::listener::PeerListener;
use air_core::{Field, ask_first};
use arrayvec::ArrayVec;
use dep_pdu::DepFrame;
use nfc_base::{Answerer, AskFault, EndCause, Frame, LinkEnd};

/// The initiator's NFCID3 (this project's own).
const INITIATOR_ID: [u8; 10] = [0, 1, 2, 3, 4, 5, 6, 7, 8, 9];

/// ATR_REQ with these general bytes.
fn atr_frame(general: &[u8]) -> Frame
    requires { length general.now ≤ 48 }
    ensures { result ≡ atr_frame general.now }
{
    let mut kept = ArrayVec::new();
    kept.try_extend_from_slice(general).unwrap();
    air_frame(&DepFrame::AtrReq {
        id: INITIATOR_ID,
        lr: INITIATOR_LR,
        general: kept,
    })
}

/// The target's LR code and general bytes, where a frame is ATR_RES.
fn told_atr(frame: &Frame) -> Option<(u8, ArrayVec<u8, 47>)>
    ensures value { result ≡ told_atr (spelled frame.now) }
    ensures code { IfSome result (λ p. p.0 < 4) }
{
    match spelled(frame) {
        Some(DepFrame::AtrRes { lr, general, .. }) => Some((lr, general)),
        _ => None,
    }
}

/// The fault of a wait as a cause.
fn cause_of(fault: AskFault) -> EndCause
    ensures { result ≡ cause_of fault }
{
    match fault {
        AskFault::FieldLost => EndCause::FieldLost,
        AskFault::SixBad => EndCause::SixBad,
        AskFault::Protocol => EndCause::Protocol,
        AskFault::Memory => EndCause::Memory,
    }
}

/// Sends ATR_REQ, again after each bad reception, and gives an initiator for the target and its general bytes.
fn ask_atr<L: PeerListener, A: Answerer>(
    field: &mut Field<L>,
    general: &[u8],
    far: &mut A,
) -> Result<(Initiator, ArrayVec<u8, 47>), EndCause>
    requires { length general.now ≤ 48 }
    ensures turns { AsksAtr L.machine A.restarts A.steps A.stops A.is_stuck
        field.old far.old field.new far.new general.now result }
    ensures ends { Activates L.Listener L.target A.restarts field.old field.new general.now far.old far.new result }
{
    match ask_first(field, &atr_frame(general), far) {
        Ok(answer) => match told_atr(&answer) {
            Some((lr, general)) => Ok((Initiator::new(lr), general)),
            None => Err(EndCause::Protocol),
        },
        Err(fault) => Err(cause_of(fault)),
    }
}

/// Activates the target that is selected in a field, with general bytes of at most 48, and gives an initiator for it
/// and its general bytes. Whatever stands there, `turns` says what is sent and told by what was heard; `ends` says more
/// of a target that is alone.
pub fn activate<L: PeerListener, A: Answerer>(
    field: &mut Field<L>,
    general: &[u8],
    far: &mut A,
) -> Result<(Initiator, ArrayVec<u8, 47>), LinkEnd>
    requires { length general.now ≤ 48 }
    ensures turns { AsksAtr L.machine A.restarts A.steps A.stops A.is_stuck
        field.old far.old field.new far.new general.now (by_cause result) }
    ensures ends { Activates L.Listener L.target A.restarts field.old field.new general.now far.old far.new
        (by_cause result) }
    ensures unanswered { IfErr result IsUnanswered }
{
    match ask_atr(field, general, far) {
        Ok(found) => Ok(found),
        Err(cause) => Err(LinkEnd {
            cause,
            answered: false,
        }),
    }
}
