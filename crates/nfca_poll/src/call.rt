//! The requests by which a reader finds and selects devices.

ghost use Rattle.std.specs.Prelude.{◌≡◌, ◌↔◌, ◌⊎◌, slice_index, IsTrue};
ghost use Rattle.nfca_poll.specs.Calls.{Calls, Sens, All, is_short, is_slp, is_sel_cmd, is_sdd_par, is_sdd, is_sel};
ghost use Rattle.nfca_poll.specs.Calls.{cmd_level, call_of};
ghost use Rattle.nfca_poll.specs.Kinds.{reading_by, HasForm};

use air_core::bits::bit_len;
use nfc_base::Frame;

/// SENS_REQ and ALL_REQ, of which seven bits are sent, and the first byte of SLP_REQ (NFC Forum Digital Protocol).
const SENS_REQ: u8 = 0x26;

const ALL_REQ: u8 = 0x52;

const SLP_REQ: u8 = 0x50;

/// SEL_PAR of SEL_REQ: all bits of the level are known.
const ALL_KNOWN: u8 = 0x70;

/// The calls of a reader, by their kinds. The level counts from 1. The bits that SDD_REQ knows and the five bytes
/// that SEL_REQ names stay in the frame.
#[derive(Clone, Copy, Debug, PartialEq, Eq)]
pub enum CallKind {
    Sens,
    All,
    Slp,
    Sdd { level: u8 },
    Sel { level: u8 },
}

impl CallKind {
    /// Which call an NFC-A frame is, `None` where it is none.
    pub fn read_from(frame: &Frame) -> Option<CallKind>
        ensures meant { call_of frame.now ≡ reading_by result frame.now }
        ensures form { HasForm result frame.now }
    {
        if is_short(frame, SENS_REQ) {
            return Some(CallKind::Sens);
        }
        if is_short(frame, ALL_REQ) {
            return Some(CallKind::All);
        }
        if is_slp(frame) {
            return Some(CallKind::Slp);
        }
        if is_sdd(frame) {
            return Some(CallKind::Sdd {
                level: cmd_level(frame),
            });
        }
        if is_sel(frame) {
            return Some(CallKind::Sel {
                level: cmd_level(frame),
            });
        }
        None
    }
}

/// Whether a frame is SENS_REQ or ALL_REQ, which wake an idle device.
pub(crate) fn is_sens_or_all(frame: &Frame) -> bool
    ensures { IsTrue result ↔ ((call_of frame.now ≡ Calls Sens) ⊎ (call_of frame.now ≡ Calls All)) }
{
    is_sens(frame) || is_all(frame)
}

fn is_sens(frame: &Frame) -> bool
    ensures { IsTrue result ↔ (call_of frame.now ≡ Calls Sens) }
{
    is_short(frame, SENS_REQ)
}

/// Whether a frame is ALL_REQ, which wakes a sleeping device too.
pub(crate) fn is_all(frame: &Frame) -> bool
    ensures { IsTrue result ↔ (call_of frame.now ≡ Calls All) }
{
    is_short(frame, ALL_REQ)
}

/// One byte of which seven bits are sent.
fn is_short(frame: &Frame, byte: u8) -> bool
    ensures { result ≡ is_short frame.now byte }
{
    frame.tail() == 7 && frame.view().len() == 1 && frame.view()[0] == byte
}

fn is_slp(frame: &Frame) -> bool
    ensures { result ≡ is_slp frame.now }
{
    let bytes = frame.view();
    frame.tail() == 0 && bytes.len() == 2 && bytes[0] == SLP_REQ && bytes[1] == 0
}

/// SEL_CMD of level 1, 2 or 3.
fn is_sel_cmd(byte: u8) -> bool
    ensures { result ≡ is_sel_cmd byte }
{
    byte % 2 == 1 && 0x93 <= byte && byte <= 0x97
}

fn is_sdd_par(par: u8) -> bool
    ensures { result ≡ is_sdd_par par }
{
    2 <= par / 16 && par / 16 <= 6 && par % 16 <= 7
}

fn is_sdd(frame: &Frame) -> bool
    ensures { result ≡ is_sdd frame.now }
{
    let bytes = frame.view();
    if bytes.len() < 2 {
        return false;
    }
    let par = bytes[1];
    is_sel_cmd(bytes[0])
        && is_sdd_par(par)
        && bit_len(frame) == 16 + 8 * (par as usize / 16 - 2) + par as usize % 16
}

fn is_sel(frame: &Frame) -> bool
    ensures { result ≡ is_sel frame.now }
{
    let bytes = frame.view();
    frame.tail() == 0 && bytes.len() == 7 && is_sel_cmd(bytes[0]) && bytes[1] == ALL_KNOWN
}

/// The level of SEL_CMD.
fn cmd_level(frame: &Frame) -> u8
    ensures { result ≡ cmd_level (slice_index frame.now.bytes 0) }
{
    match frame.view() {
        [cmd, ..] => cmd.saturating_sub(0x91) / 2,
        [] => 0,
    }
}
