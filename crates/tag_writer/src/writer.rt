//! The writing of a tag.

ghost use Rattle.std.specs.Prelude.{◌≡◌};
ghost use Rattle.tag_reader.specs.Heard.{IsOf};
ghost use Rattle.tag_writer.specs.Ends.{EndsWork};
ghost use Rattle.tag_writer.specs.Phases.{how_of};
ghost use Rattle.tag_writer.specs.WriteTold.{IsWriteToldBy};
ghost use Rattle.tag_writer.specs.Writing.{KeepsLaw, WritesInOrder, WritesFew, WritesAll, LeavesLink, TellsSuccess};
ghost use Rattle.tag_writer.specs.Writing.{TellsCause, TellsInCalm};

use crate::fault::WriteFault;
use crate::phase::{Opened, Prepared, Stopped};
use crate::preparing::prepare;
use nfc_base::TagLink;
use std::alloc::Global;
use tag_reader::How;

/// The phases, one after another.
fn open<T: TagLink>(alloc: Global, link: &mut T, prepared: Prepared) -> Result<Opened, Stopped>
    requires ready { T.ready link.old }
    requires of { IsOf (how_of prepared.work) (T.seen link.old) }
    // whatever the tag does, and where it is one that keeps to its table
    ensures ends { EndsWork prepared.work (T.seen link.old) (T.seen link.new) result }
    ensures ready { T.ready link.new }
    ensures same { T.lenders link.new ≡ T.lenders link.old }
    ensures moves { T.moves link.old link.new }
{
    let emptied = prepared.empty(alloc, link)?;
    let filled = emptied.fill(alloc, link)?;
    filled.finish(alloc, link)
}

/// Writes a message to the tag behind a link, in the place of the one that it holds (NFC Forum Type 2,
/// Type 4 and Type 5 Tag).
/// Whatever stops it, the tag holds the old message, the empty one or the new one.
pub fn write<T: TagLink>(
    alloc: Global,
    link: &mut T,
    how: How,
    message: &[u8],
) -> Result<(), WriteFault>
    requires ready { T.ready link.old }
    // it leads to a tag of that kind, with that identifier
    requires of { IsOf how (T.seen link.old) }
    // whatever the tag does: success only where each write was acknowledged, and each fault stands in the tag's
    // answers, in what they say of the tag, or in the link
    ensures told { IsWriteToldBy how message.now (T.seen link.old) (T.seen link.new) result }
    // where it is a tag of that kind: the law over the images, whatever the answer is
    ensures law { KeepsLaw how message.now (T.seen link.old) (T.seen link.new) result }
    // what was answered is the first of what is asked, and all of it unless the link or memory failed
    ensures asked { WritesInOrder how message.now (T.seen link.old) (T.seen link.new) }
    // and of that the writes are few
    ensures few { WritesFew how message.now (T.seen link.old) (T.seen link.new) }
    ensures whole { WritesAll how message.now (T.seen link.old) (T.seen link.new) result }
    // by what it then tells the link doesn't end
    ensures goes_on { LeavesLink how (T.seen link.old) (T.seen link.new) result }
    // success: the store takes the message, no write of it was refused, and the tag holds it
    ensures ok { TellsSuccess how message.now (T.seen link.old) (T.seen link.new) result }
    ensures err { TellsCause how message.now (T.seen link.old) (T.seen link.new) result }
    // where all passes, or each wait is answered, the link is no cause
    ensures calm { TellsInCalm how (T.seen link.old) (T.seen link.new) result }
    ensures ready { T.ready link.new }
    ensures same { T.lenders link.new ≡ T.lenders link.old }
    ensures moves { T.moves link.old link.new }
{
    match prepare(alloc, link, how, message) {
        Err(fault) => Err(fault),
        Ok(prepared) => match open(alloc, link, prepared) {
            Ok(_) => Ok(()),
            Err(stopped) => Err(stopped.cause),
        },
    }
}
