//! The activation of a Type 4 tag by RATS.

ghost use Rattle.std.specs.Prelude.{◌≡◌};
ghost use Rattle.isodep_link.specs.Activating.{rats, ats_code, AsksRats, Activates};

use crate::listener::CardListener;
use air_core::{Field, ask_first};
use nfc_base::{AskFault, Frame, Mute, Tech};

/// RATS of this reader: its size code, the largest, in the high nibble of the second byte.
const RATS: [u8; 2] = [0xE0, 0x80];

/// The card's size code where its answer has one byte alone.
const DEFAULT_CODE: u8 = 2;

fn rats() -> Frame
    ensures { result ≡ rats }
{
    Frame::whole(Tech::A, &RATS).unwrap()
}

/// The card's size code, where a frame is an answer to RATS.
pub(crate) fn ats_code(frame: &Frame) -> Option<u8>
    ensures { result ≡ ats_code frame.now }
{
    if frame.tech() != Tech::A || frame.tail() != 0 {
        return None;
    }
    let bytes = frame.view();
    if bytes.is_empty() || bytes[0] as usize != bytes.len() {
        return None;
    }
    if bytes.len() == 1 {
        return Some(DEFAULT_CODE);
    }
    Some(bytes[1] % 16)
}

/// Sends RATS to the tag at a place, again after each bad reception, and gives the card's size code.
pub(crate) fn activate_card<L: CardListener>(
    field: &mut Field<L>,
    place: usize,
) -> Result<u8, AskFault>
    ensures turns { AsksRats L.machine field.old field.new result }
    ensures ends { Activates L.Listener L.card L.tag field.old field.new place result }
{
    let answer = ask_first(field, &rats(), &mut Mute)?;
    ats_code(&answer).ok_or(AskFault::Protocol)
}
