//! One resolution: which device of a field is the first in crowd order, bit by bit.

ghost use Rattle.std.specs.Prelude.{◌≡◌, ◌⊎◌, length, drop, Bool, Err};
ghost use Rattle.nfca_poll.specs.Resolving.{ResolvesFirst, ResolvesFromRest, ResolvesFromAny, ResolvesAlone};
ghost use Rattle.nfca_poll.specs.Enquiry.{Enquires, LosesByBreak};
ghost use Rattle.nfca_poll.specs.Counting.{AsksFew};
ghost use Rattle.nfca_poll.specs.ByHeard.{turns_since, TellsResolution};
ghost use Rattle.nfca_poll.specs.Seeking.{resolution};
ghost use Rattle.nfca_poll.specs.declared.fault.PollFault.TheVariants.{FieldLost};

use crate::fault::{Picked, PollFault};
use crate::requests::ask;
use crate::seeking::{SeekStep, Seeking};
use air_core::{Field, Listener};

/// Finds and selects one device: asks for presence, then level by level for the bits of its identifier, with bit 1
/// where answers differ (NFC Forum Digital Protocol; the choice of 1 and four presence requests are this project's
/// own). It takes a lit field; in the dark it asks nothing. Over this project's listeners, where none is ready or
/// active and no noise is met, it picks the first of the crowd that is idle. From any other start it picks one of them,
/// or has its cause.
pub fn resolve<L: Listener>(field: &mut Field<L>) -> Result<Picked, PollFault>
    ensures dark { field.old.lit ≡ Bool.false → (result ≡ Err FieldLost) × (field.new ≡ field.old) }
    ensures lit { (result ≡ Err FieldLost) ⊎ (field.new.lit ≡ Bool.true) }
    ensures few { AsksFew (drop (length field.old.trace) field.new.trace) }
    ensures lost { LosesByBreak field.old result field.new }
    ensures first { ResolvesFirst L.machine L.identifier field.old result field.new }
    ensures crowd { ResolvesFromRest L.machine L.identifier field.old result field.new }
    ensures any { ResolvesFromAny L.machine L.identifier field.old result field.new }
    ensures alone { ResolvesAlone L.machine L.identifier field.old result field.new }
    ensures told { field.old.lit ≡ Bool.true → TellsResolution (turns_since field.old field.new) result }
    ensures turns { field.old.lit ≡ Bool.true → Enquires resolution L.machine field.old result field.new }
{
    if !field.is_lit() {
        return Err(PollFault::FieldLost);
    }
    let mut seeking = Seeking::Calling { silent: 0 };
    loop {
        let heard = ask(field, &seeking.request())?;
        match seeking.step(heard) {
            SeekStep::Goes(next) => seeking = next,
            SeekStep::Ends(result) => return result,
        }
    }
}
