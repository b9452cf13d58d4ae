//! The frames of a reader's requests (NFC Forum Digital Protocol; ISO/IEC 14443-3).

ghost use Rattle.std.specs.Prelude.{◌≡◌, ◌≤◌, true, length};
ghost use Rattle.nfca_poll.specs.Calls.{Sens, Slp, Sdd, Sel, call_frame};
ghost use Rattle.nfca_poll.specs.Muted.{AskEnds};

use crate::fault::PollFault;
use crate::known::KnownBits;
use crate::level::Level;
use air_core::{AirFault, Field, Listener};
use arrayvec::ArrayVec;
use nfc_base::{Frame, Heard, Mute, Tech};

const SENS_REQ: u8 = 0x26;

/// The first byte of SLP_REQ; the second one is 0.
const SLP_REQ: u8 = 0x50;

/// SEL_CMD of a level is this and twice the level.
const SEL_CMD: u8 = 0x91;

/// SEL_PAR of SEL_REQ: all bits of the level are known.
const ALL_KNOWN: u8 = 0x70;

pub fn sens_req() -> Frame
    ensures { result ≡ call_frame Sens }
{
    Frame::part(Tech::A, &[SENS_REQ], 7).unwrap()
}

pub fn slp_req() -> Frame
    ensures { result ≡ call_frame Slp }
{
    Frame::whole(Tech::A, &[SLP_REQ, 0]).unwrap()
}

/// SDD_REQ of a level, counted from 1, with the bits of it that are known.
pub fn sdd_req(level: u8, known: &KnownBits) -> Frame
    requires few { level ≤ 3 }
    ensures { result ≡ call_frame (Sdd level known.now) }
{
    let count = known.len();
    let par = 16 * (2 + count / 8) + count % 8;
    let mut bytes: ArrayVec<u8, 7> = ArrayVec::new();
    bytes.push(SEL_CMD + 2 * level);
    bytes.push(par as u8);
    bytes.try_extend_from_slice(&known.pack()).unwrap();
    Frame::part(Tech::A, &bytes, (count % 8) as u8).unwrap()
}

/// SEL_REQ of a level, counted from 1.
pub fn sel_req(level: u8, bytes: &Level) -> Frame
    requires few { level ≤ 3 }
    ensures { result ≡ call_frame (Sel level bytes.now) }
{
    let [a, b, c, d, bcc] = bytes.bytes();
    Frame::whole(Tech::A, &[SEL_CMD + 2 * level, ALL_KNOWN, a, b, c, d, bcc]).unwrap()
}

/// One turn of a reader that polls. No far end stands above the listeners.
pub fn ask<L: Listener>(field: &mut Field<L>, request: &Frame) -> Result<Heard, PollFault>
    requires { field.old.lit ≡ true }
    ensures { AskEnds L.machine field.old request.now result field.new }
{
    match field.transmit(request, &mut Mute) {
        Ok(heard) => Ok(heard),
        Err(AirFault::FieldLost) => Err(PollFault::FieldLost),
        Err(AirFault::Memory) => Err(PollFault::Memory),
    }
}
