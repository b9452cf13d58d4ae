//! The bytes of a frame.

ghost use Rattle.std.specs.Prelude.{◌≡◌, ◌≤◌, length};
ghost use Rattle.dep_pdu.specs.Spelling.{framed, written};

use crate::atr::{NO_DID, NO_RATE, atr_bytes, pp};
use crate::dep::dep_bytes;
use crate::frame::DepFrame;
use crate::head::{ANSWER, ATR_REQ, ATR_RES, DSL_REQ, DSL_RES, REQUEST, RLS_REQ, RLS_RES};
use crate::pfb::{ACK, ATTENTION, EXTENSION, NACK, information, numbered};
use crate::read::START;
use arrayvec::ArrayVec;

pub(crate) fn write_frame(frame: &DepFrame) -> ArrayVec<u8, 256>
    ensures { result.items ≡ written frame.now }
{
    match frame {
        DepFrame::AtrReq { id, lr, general } => atr_bytes(
            [REQUEST, ATR_REQ],
            *id,
            &[NO_DID, NO_RATE, NO_RATE, pp(*lr, general)],
            general,
        ),
        DepFrame::AtrRes {
            id,
            timeout,
            lr,
            general,
        } => atr_bytes(
            [ANSWER, ATR_RES],
            *id,
            &[NO_DID, NO_RATE, NO_RATE, *timeout, pp(*lr, general)],
            general,
        ),
        DepFrame::Info {
            up,
            more,
            pni,
            content,
        } => dep_bytes(*up, information(*more, *pni), content),
        DepFrame::Ack { up, pni } => dep_bytes(*up, numbered(ACK, *pni), &[]),
        DepFrame::Nack { pni } => dep_bytes(false, numbered(NACK, *pni), &[]),
        DepFrame::Attention { up } => dep_bytes(*up, ATTENTION, &[]),
        DepFrame::Extend { up, times } => dep_bytes(*up, EXTENSION, &[*times]),
        DepFrame::DslReq => framed(&[REQUEST, DSL_REQ]),
        DepFrame::DslRes => framed(&[ANSWER, DSL_RES]),
        DepFrame::RlsReq => framed(&[REQUEST, RLS_REQ]),
        DepFrame::RlsRes => framed(&[ANSWER, RLS_RES]),
    }
}

/// A frame of these bytes behind LEN.
pub(crate) fn framed(body: &[u8]) -> ArrayVec<u8, 256>
    requires { length body.now ≤ 254 }
    ensures { result.items ≡ framed body.now }
{
    let mut bytes = ArrayVec::new();
    bytes.push(START);
    bytes.push((body.len() + 1) as u8);
    bytes.try_extend_from_slice(body).unwrap();
    bytes
}
