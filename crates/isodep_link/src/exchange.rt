//! One command of a Type 4 tag in a field.

ghost use Rattle.std.specs.Prelude.{◌≤◌, length};
ghost use Rattle.isodep_link.specs.Asking.{AsksCommand, Exchanges};

use crate::listener::CardListener;
use crate::reader::{ReaderEnd, ReaderKind};
use air_core::{AirFault, Field};
use nfc_base::{AskFault, Frame, Mute, Tech};

/// Asks one command of the tag at a place: turns with the reader's blocks, up to the answer or a fault. The far end of
/// its turns is mute, since such a tag asks nothing of one.
pub(crate) fn ask_card<L: CardListener>(
    field: &mut Field<L>,
    place: usize,
    reader: &mut ReaderEnd,
    command: &Frame,
) -> Result<Frame, AskFault>
    requires fits { length command.now.bytes ≤ 264 }
    ensures turns { AsksCommand L.machine field.old field.new reader.old reader.new command.now.bytes result }
    ensures ends { Exchanges L.Listener L.card L.tag
        field.old field.new place reader.old reader.new command.now.bytes result }
{
    let mut far = Mute;
    let mut frame = reader.begin(command.view());
    loop {
        let heard = match field.transmit(&frame, &mut far) {
            Ok(heard) => heard,
            Err(AirFault::FieldLost) => return Err(AskFault::FieldLost),
            Err(AirFault::Memory) => return Err(AskFault::Memory),
        };
        match reader.next_into(&heard, &mut frame) {
            // a look at it, by which each of its bytes is known as one
            ReaderKind::Send => prove!(frame.view().len() <= 288),
            ReaderKind::Finished(answer) => return Ok(Frame::whole(Tech::A, &answer).unwrap()),
            ReaderKind::SixBad => return Err(AskFault::SixBad),
            ReaderKind::Protocol => return Err(AskFault::Protocol),
        }
    }
}
