//! The numbers of both ends of a link.

ghost use Rattle.std.specs.Prelude.{◌≡◌, IfOk};
ghost use Rattle.link_numbers.specs.Shown.{CountsBehind, CountsSpelled, CountsWritten, NoneHeadsAgf, far_shown};
ghost use Rattle.link_numbers.specs.Shown.{own_shown};

use crate::side::Side;
use nfc_base::Event;
use std::alloc::{AllocError, Global};

/// How many PDUs stand in each payload of a link, from the first to the last: in the initiator's, and in the
/// target's. Where a number is 0 there are as many as fit.
#[derive(Debug, Drop)]
pub struct Shown {
    pub own: Vec<u32>,
    pub far: Vec<u32>,
}

/// The numbers that the events of a command show, of a link whose next payload has this PNI. Of a whole payload
/// it's how many PDUs its AGF has, by their lengths alone, else one. Of one that was cut off it is 0 where that
/// begins as an AGF, else one; and so it is where an AGF isn't one of several PDUs. It goes over the events once,
/// and takes memory for the numbers alone.
#[tactic(auto, using(crate::proofs::payloads::Counting::laws))]
pub fn numbers_shown(alloc: Global, first: u8, events: &[Event]) -> Result<Shown, AllocError>
    ensures own { IfOk result (λ s. s.own.items ≡ own_shown first events.now) }
    ensures far { IfOk result (λ s. s.far.items ≡ far_shown first events.now) }
    ensures spelled { CountsSpelled }
    ensures written { CountsWritten }
    ensures alone { NoneHeadsAgf }
    ensures behind { CountsBehind }
{
    let mut own = Side::new(alloc, first);
    let mut far = Side::new(alloc, first);
    for event in events {
        match event {
            Event::Request { frame, .. } => own.send(false, frame)?,
            Event::Answer { frame, .. } => far.send(true, frame)?,
            Event::Reset | Event::Clash { .. } => {}
        }
    }
    Ok(Shown {
        own: own.into_numbers()?,
        far: far.into_numbers()?,
    })
}
