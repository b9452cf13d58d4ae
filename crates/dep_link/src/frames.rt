//! Frames of NFC-DEP on the air, and pieces of payloads.

ghost use Rattle.std.specs.Prelude.{◌≡◌, ◌≤◌, ◌<◌, length, IfSome};
ghost use Rattle.dep_pdu.specs.Spelling.{IsDepFrame};
ghost use Rattle.dep_link.specs.Activating.{is_atr_res};
ghost use Rattle.dep_link.specs.Sizes.{piece_size};
ghost use Rattle.dep_link.specs.Frames.{air_frame, spelled, is_atr_req, IsSpelled, after, piece};

use arrayvec::ArrayVec;
use dep_pdu::DepFrame;
use nfc_base::{Frame, Tech};

/// The initiator's own LR code.
pub(crate) const INITIATOR_LR: u8 = 3;

/// Direction, command and PFB of an information frame.
const AROUND: usize = 3;

/// The most content of an information frame, by the LR code of the end that takes it.
pub(crate) fn piece_size(code: u8) -> usize
    ensures size { result ≡ piece_size code }
    ensures least { 0 < result }
    ensures most { result ≤ 251 }
{
    let frame: usize = match code {
        0 => 64,
        1 => 128,
        2 => 192,
        _ => 254,
    };
    frame - AROUND
}

/// The frame on the air that carries it.
pub(crate) fn air_frame(value: &DepFrame) -> Frame
    ensures frame { result ≡ air_frame value.now }
    ensures spelled { IsDepFrame value.now → IsSpelled result }
{
    let bytes = value.to_bytes();
    Frame::whole(Tech::A, &bytes).unwrap()
}

/// The same, put into a place of the caller's.
pub(crate) fn put_frame(value: &DepFrame, place: &mut Frame)
    ensures frame { place.new ≡ air_frame value.now }
    ensures spelled { IsDepFrame value.now → IsSpelled place.new }
{
    *place = air_frame(value);
}

/// The frame of NFC-DEP that one on the air spells.
pub(crate) fn spelled(frame: &Frame) -> Option<DepFrame>
    ensures value { result ≡ spelled frame.now }
    ensures range { IfSome result IsDepFrame }
{
    if frame.tech() != Tech::A || frame.tail() != 0 {
        return None;
    }
    match DepFrame::read_from(frame.view()) {
        Ok(value) => Some(value),
        Err(_) => None,
    }
}

/// Whether a frame is a well-formed ATR_REQ, which activates a target (NFCIP-1, ISO/IEC 18092). Whoever holds a
/// `Target` hands it all frames from there on.
pub fn is_atr_req(frame: &Frame) -> bool
    ensures { result ≡ is_atr_req frame.now }
{
    matches!(spelled(frame), Some(DepFrame::AtrReq { .. }))
}

/// Whether a frame is a well-formed ATR_RES, by which a target tells that it was activated (NFCIP-1, ISO/IEC 18092).
/// Whoever reads a trace finds by it where a link begins.
pub fn is_atr_res(frame: &Frame) -> bool
    ensures { result ≡ is_atr_res frame.now }
{
    matches!(spelled(frame), Some(DepFrame::AtrRes { .. }))
}

/// The number after a PNI.
pub(crate) fn after(pni: u8) -> u8
    requires { pni < 4 }
    ensures next { result ≡ after pni }
    ensures bound { result < 4 }
{
    (pni + 1) % 4
}

/// The information frame with the first piece of some bytes, of at most so many.
pub(crate) fn piece(up: bool, most: usize, pni: u8, bytes: &[u8]) -> DepFrame
    requires { most ≤ 251 }
    ensures piece { result ≡ piece up most pni bytes.now }
    ensures range { pni < 4 → IsDepFrame result }
{
    let more = most < bytes.len();
    let end = if more { most } else { bytes.len() };
    let mut content = ArrayVec::new();
    content.try_extend_from_slice(&bytes[..end]).unwrap();
    DepFrame::Info {
        up,
        more,
        pni,
        content,
    }
}
