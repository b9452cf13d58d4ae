//! One wait: a request is sent again and again, up to its first whole answer.

ghost use Rattle.air_core.specs.FirstAnswers.{AsksFirst};

use crate::fault::AirFault;
use crate::field::Field;
use crate::listener::Listener;
use nfc_base::{Answerer, AskFault, Frame, Heard};

/// How many bad receptions end a wait (this project's own).
const BAD_RECEPTIONS: u8 = 6;

/// Sends a request, again after each bad reception (NFC Forum Digital Protocol), and gives the first whole answer.
/// What the answer means is for the caller to see, so it never fails by `Protocol`.
pub fn ask_first<L: Listener, A: Answerer>(
    field: &mut Field<L>,
    request: &Frame,
    far: &mut A,
) -> Result<Frame, AskFault>
    ensures turns { AsksFirst L.machine A.restarts A.steps request.now field.old far.old A.stops A.is_stuck
        field.new far.new result }
{
    let mut bad = 0;
    while bad < BAD_RECEPTIONS {
        match field.transmit(request, far) {
            Ok(heard) => {
                if let Heard::Whole(answer) = heard {
                    return Ok(answer);
                }
                bad += 1;
            }
            Err(AirFault::FieldLost) => return Err(AskFault::FieldLost),
            Err(AirFault::Memory) => return Err(AskFault::Memory),
        }
    }
    Err(AskFault::SixBad)
}
