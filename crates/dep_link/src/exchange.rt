//! One exchange with a peer in a field.

ghost use Rattle.std.specs.Prelude.{◌≡◌};
ghost use Rattle.dep_link.specs.Asking.{Exchanges};
ghost use Rattle.dep_link.specs.AnyPeer.{CarriesBegun};

use crate::initiator::{InitKind, Initiator};
use crate::listener::PeerListener;
use air_core::{AirFault, Field};
use arrayvec::ArrayVec;
use nfc_base::{Answerer, EndCause, Frame};

/// Why an exchange brought no reply.
#[derive(Clone, Copy, Debug)]
pub(crate) enum Unanswered {
    Ended(EndCause),
    /// The far end was handed the payload, and stopped for want of memory.
    Stopped,
}

/// Carries a payload with which the initiator began, in this request: turns by its table, up to the reply or a fault.
pub(crate) fn ask_peer<L: PeerListener, A: Answerer>(
    field: &mut Field<L>,
    initiator: &mut Initiator,
    request: Frame,
    far: &mut A,
) -> Result<ArrayVec<u8, 2178>, Unanswered>
    ensures out { initiator.new.out ≡ initiator.old.out }
    ensures turns { CarriesBegun L.machine A.restarts A.steps A.stops A.is_stuck
        field.old far.old field.new far.new initiator.old request initiator.new result }
    ensures ends { Exchanges L.Listener L.target A.steps A.stops
        field.old field.new initiator.old request initiator.new far.old far.new result }
{
    let mut frame = request;
    loop {
        let before = field.trace().len();
        let heard = match field.transmit(&frame, far) {
            Ok(heard) => heard,
            Err(AirFault::FieldLost) => return Err(Unanswered::Ended(EndCause::FieldLost)),
            Err(AirFault::Memory) => {
                if field.trace().len() == before {
                    return Err(Unanswered::Ended(EndCause::Memory));
                }
                return Err(Unanswered::Stopped);
            }
        };
        match initiator.next_into(&heard, &mut frame) {
            // a look at it, by which each of its bytes is known as one
            InitKind::Send => prove!(frame.view().len() <= 288),
            InitKind::Finished(reply) => return Ok(reply),
            InitKind::SixBad => return Err(Unanswered::Ended(EndCause::SixBad)),
            InitKind::Protocol => return Err(Unanswered::Ended(EndCause::Protocol)),
        }
    }
}
