//! What stands before the first write.

ghost use Rattle.std.specs.Prelude.{◌≡◌, ℕ, IfOk};
ghost use Rattle.tag_reader.specs.Asked.{ToWrite};
ghost use Rattle.tag_reader.specs.Calls.{HasSurveyedAll};
ghost use Rattle.tag_reader.specs.Heard.{IsOf};
ghost use Rattle.tag_reader.specs.Kinds.{OfTag};
ghost use Rattle.tag_reader.specs.Reading.{KeepsStore, AsksInOrder};
ghost use Rattle.tag_writer.specs.Faults.{OnTold};
ghost use Rattle.tag_writer.specs.WriteTold.{TellsPlan};
ghost use Rattle.tag_writer.specs.Writing.{IsPrepared, LeavesLink, LeavesUntaken, TellsCause, TellsInCalm};

use crate::fault::WriteFault;
use crate::phase::Prepared;
use crate::planning::{plan_area, plan_file};
use nfc_base::TagLink;
use std::alloc::Global;
use tag_reader::{Ground, How, survey};

/// Reads what a write needs to know, plans all contents and takes all memory. It writes nothing.
pub fn prepare<T: TagLink>(
    alloc: Global,
    link: &mut T,
    how: How,
    message: &[u8],
) -> Result<Prepared, WriteFault>
    requires ready { T.ready link.old }
    // it leads to a tag of that kind, with that identifier
    requires of { IsOf how (T.seen link.old) }
    // whatever the tag does: what it tells stands in the tag's answers, in the ground that they say, or in the link
    ensures told { TellsPlan how message.now (T.seen link.old) (T.seen link.new) result }
    // where it is a tag of that kind: the store stays, in each image
    ensures stays { KeepsStore how (T.seen link.old) (T.seen link.new) }
    // what was answered is the first of what is read, and all of it unless the link or memory failed
    ensures asked { AsksInOrder ToWrite how (T.seen link.old) (T.seen link.new) }
    ensures whole { OfTag how (T.seen link.old) (λ size.
        OnTold result (HasSurveyedAll how size (T.seen link.old).state.store (T.seen link.old) (T.seen link.new))) }
    ensures goes_on { LeavesLink how (T.seen link.old) (T.seen link.new) result }
    // a job for the phases, of this message and this store
    ensures ok { OfTag how (T.seen link.old) (λ size.
        IfOk result (λ p. IsPrepared how size message.now p.work (T.seen link.old) (T.seen link.new))) }
    ensures err { TellsCause how message.now (T.seen link.old) (T.seen link.new) result }
    // by what it then tells the store doesn't take the message
    ensures untaken { LeavesUntaken how message.now (T.seen link.old) result }
    ensures calm { TellsInCalm how (T.seen link.old) (T.seen link.new) result }
    ensures ready { T.ready link.new }
    ensures same { T.lenders link.new ≡ T.lenders link.old }
    ensures moves { T.moves link.old link.new }
{
    match survey(alloc, link, how) {
        Err(fault) => Err(WriteFault::from(fault)),
        Ok(Ground::Area { known, block, map }) => {
            plan_area(alloc, how, known.as_slice(), block, &map, message)
        }
        Ok(Ground::File { map, length }) => plan_file(alloc, map, length, message),
    }
}
