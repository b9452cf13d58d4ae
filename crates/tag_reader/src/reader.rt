//! The reading of a tag.

ghost use Rattle.std.specs.Prelude.{◌≡◌, IsErrOf, Some};
ghost use Rattle.nfc_base.specs.declared.tag_link.AskFault.{AskFault};
ghost use Rattle.tag_reader.specs.declared.how.How.TheVariants as hows;
ghost use Rattle.tag_reader.specs.declared.found.Site.{Site};
ghost use Rattle.tag_reader.specs.Asked.{ToRead};
ghost use Rattle.tag_reader.specs.Reading.{KeepsStore, AsksInOrder, AsksAll, LeavesLink, TellsMessage, TellsCause};
ghost use Rattle.tag_reader.specs.Reading.{TellsInCalm};
ghost use Rattle.tag_reader.specs.Counts.{AsksFew};
ghost use Rattle.tag_reader.specs.Heard.{IsOf, IsToldBy, TellsExactly, TellsRefusals, TellsSaid, TellsCutOff};
ghost use Rattle.tag_reader.specs.Steps.{ReadsTag, of_link};

use crate::block_finding::find_in_blocks;
use crate::fault::ReadFault;
use crate::file::read_file;
use crate::finding::find_map;
use crate::found::{Found, Site};
use crate::how::How;
use crate::known::Known;
use nfc_base::{Items, TagLink};
use std::alloc::Global;
use tlv_area::{AreaMap, copy_message};

/// Reads the message of the tag behind a link, which is of the kind that `how` names (NFC Forum Type 2 Tag, Type 4 Tag
/// and Type 5 Tag). It writes nothing, and asks for no more than it needs.
pub fn read<T: TagLink>(alloc: Global, link: &mut T, how: How) -> Result<Found, ReadFault>
    requires ready { T.ready link.old }
    // it leads to a tag of that kind, with that identifier
    requires of { IsOf how (T.seen link.old) }
    // whatever the tag does: what it tells stands in the tag's answers, and each fault in the last of them, in what
    // they brought, or in the link
    ensures told { IsToldBy how (T.seen link.old) (T.seen link.new) result }
    // exactly where the last answer refuses with this code, or may not come, or the link is over by this fault
    ensures refused { TellsRefusals how (T.seen link.old) (T.seen link.new) result }
    ensures protocol { TellsExactly how (T.seen link.old) (T.seen link.new) result ReadFault.Protocol }
    ensures over { (e : AskFault) → (T.seen link.new).over ≡ Some e → IsErrOf result (of_link e) }
    // where what the tag brought says a message or a fault, it tells this, or its own memory fails
    ensures said { TellsSaid how (T.seen link.old) (T.seen link.new) result }
    ensures cut_off { TellsCutOff how (T.seen link.old) (T.seen link.new) result }
    // where it is a tag of that kind: the store stays, in each image
    ensures stays { KeepsStore how (T.seen link.old) (T.seen link.new) }
    // what was answered is the first of what is asked, and all of it unless the link or memory failed
    ensures asked { AsksInOrder ToRead how (T.seen link.old) (T.seen link.new) }
    ensures whole { AsksAll ToRead how (T.seen link.old) (T.seen link.new) result }
    // and that is few
    ensures few { AsksFew ToRead how (T.seen link.old) }
    // by what it then tells the link doesn't end
    ensures goes_on { LeavesLink how (T.seen link.old) (T.seen link.new) result }
    ensures ok { TellsMessage how (T.seen link.old) result }
    ensures err { TellsCause how (T.seen link.old) (T.seen link.new) result }
    // where all passes, or each wait is answered, it tells what the store holds or finds no memory
    ensures calm { TellsInCalm how (T.seen link.old) (T.seen link.new) result }
    ensures ready { T.ready link.new }
    ensures same { T.lenders link.new ≡ T.lenders link.old }
    ensures moves { T.moves link.old link.new }
{
    read_kind(alloc, link, how)
}

fn read_kind<T: TagLink>(alloc: Global, link: &mut T, how: How) -> Result<Found, ReadFault>
    requires ready { T.ready link.old }
    requires of { IsOf how (T.seen link.old) }
    ensures told { IsToldBy how (T.seen link.old) (T.seen link.new) result }
    ensures reads { ReadsTag how (T.seen link.old) (T.seen link.new) result }
    ensures ready { T.ready link.new }
    ensures same { T.lenders link.new ≡ T.lenders link.old }
    ensures moves { T.moves link.old link.new }
{
    match how {
        How::T2 => read_area(alloc, link),
        How::T4 => read_file(alloc, link),
        How::T5(id) => read_blocks(alloc, link, id),
    }
}

/// Reads the message of a Type 2 tag.
fn read_area<T: TagLink>(alloc: Global, link: &mut T) -> Result<Found, ReadFault>
    requires ready { T.ready link.old }
    requires of { IsOf hows.T2 (T.seen link.old) }
    // whatever the tag does
    ensures told { IsToldBy hows.T2 (T.seen link.old) (T.seen link.new) result }
    ensures reads { ReadsTag hows.T2 (T.seen link.old) (T.seen link.new) result }
    ensures ready { T.ready link.new }
    ensures same { T.lenders link.new ≡ T.lenders link.old }
    ensures moves { T.moves link.old link.new }
{
    let mut known = Vec::new(alloc);
    let map = find_map(alloc, link, &mut known)?;
    let message = copy_message(alloc, &map, known.as_slice())?;
    Ok(found_in(map, message))
}

/// Reads the message of the Type 5 tag with this identifier.
fn read_blocks<T: TagLink>(alloc: Global, link: &mut T, id: [u8; 8]) -> Result<Found, ReadFault>
    requires ready { T.ready link.old }
    requires of { IsOf (hows.T5 id) (T.seen link.old) }
    // whatever the tag does
    ensures told { IsToldBy (hows.T5 id) (T.seen link.old) (T.seen link.new) result }
    ensures reads { ReadsTag (hows.T5 id) (T.seen link.old) (T.seen link.new) result }
    ensures ready { T.ready link.new }
    ensures same { T.lenders link.new ≡ T.lenders link.old }
    ensures moves { T.moves link.old link.new }
{
    let mut known = Known::new(alloc);
    let map = find_in_blocks(alloc, link, id, &mut known)?;
    let message = copy_message(alloc, &map, known.bytes.as_slice())?;
    Ok(found_in(map, message))
}

/// A message that lies in an area.
fn found_in(map: AreaMap, message: Vec<u8>) -> Found
    ensures { result ≡ record { message = message.items; site = Site.Area map; writable = map.space.writable } }
{
    let writable = map.space.writable;
    Found {
        message: Items::new(message),
        site: Site::Area(map),
        writable,
    }
}
