//! What a writer reads first.

ghost use Rattle.std.specs.Prelude.{◌≡◌, ◌*◌, ◌<◌, ◌≤◌, length, IfOk};
ghost use Rattle.tlv_area.specs.Layout.{IsArea};
ghost use Rattle.tlv_area.specs.Writing.{HasBlocks};
ghost use Rattle.tag_reader.specs.declared.how.How.TheVariants as hows;
ghost use Rattle.tag_reader.specs.Asked.{ToWrite};
ghost use Rattle.tag_reader.specs.Counts.{AsksFew};
ghost use Rattle.tag_reader.specs.Heard.{IsOf};
ghost use Rattle.tag_reader.specs.Reading.{KeepsStore, AsksInOrder, AsksAll, LeavesLink, TellsCause, TellsInCalm};
ghost use Rattle.tag_reader.specs.Survey.{IsPlacedGround, TellsGround};
ghost use Rattle.tag_reader.specs.SurveyHeard.{IsGroundToldBy};
ghost use Rattle.tag_reader.specs.private.SurveySteps.{GroundIn, SurveysTag};

use crate::area::{read_all, read_to_end};
use crate::block_finding::open_area;
use crate::fault::ReadFault;
use crate::file::{read_container, read_length};
use crate::ground::Ground;
use crate::how::How;
use crate::known::Known;
use nfc_base::{Items, TagLink};
use std::alloc::Global;
use tlv_area::{Space, Walk, find_message};

/// How many bytes a block of a Type 2 tag has.
const T2_BLOCK: u32 = 4;

/// Reads what a writer needs to know of the tag behind a link, which is of the kind that `how` names (NFC Forum Type 2
/// Tag, Type 4 Tag and Type 5 Tag): an area to its end or the tag's, whatever its TLVs are; of a file its container and
/// how long its message is, and no byte of that. It writes nothing, and leaves the file of a Type 4 tag selected.
pub fn survey<T: TagLink>(alloc: Global, link: &mut T, how: How) -> Result<Ground, ReadFault>
    requires ready { T.ready link.old }
    // it leads to a tag of that kind, with that identifier
    requires of { IsOf how (T.seen link.old) }
    // whatever the tag does: the map is one that `capacity` takes
    ensures places { IfOk result IsPlacedGround }
    // and what it tells stands in the tag's answers, and each fault in the last of them, in what they brought, or in
    // the link, which is then over at a command that the survey needs
    ensures told { IsGroundToldBy how (T.seen link.old) (T.seen link.new) result }
    // where it is a tag of that kind: the store stays, in each image
    ensures stays { KeepsStore how (T.seen link.old) (T.seen link.new) }
    // what was answered is the first of what is asked, and all of it unless the link or memory failed
    ensures asked { AsksInOrder ToWrite how (T.seen link.old) (T.seen link.new) }
    ensures whole { AsksAll ToWrite how (T.seen link.old) (T.seen link.new) result }
    // and that is few
    ensures few { AsksFew ToWrite how (T.seen link.old) }
    // by what it then tells the link doesn't end
    ensures goes_on { LeavesLink how (T.seen link.old) (T.seen link.new) result }
    ensures ok { TellsGround how (T.seen link.old) (T.seen link.new) result }
    ensures err { TellsCause how (T.seen link.old) (T.seen link.new) result }
    // where all passes, or each wait is answered, it tells what the store holds or finds no memory
    ensures calm { TellsInCalm how (T.seen link.old) (T.seen link.new) result }
    ensures ready { T.ready link.new }
    ensures same { T.lenders link.new ≡ T.lenders link.old }
    ensures moves { T.moves link.old link.new }
{
    survey_kind(alloc, link, how)
}

fn survey_kind<T: TagLink>(alloc: Global, link: &mut T, how: How) -> Result<Ground, ReadFault>
    requires ready { T.ready link.old }
    requires of { IsOf how (T.seen link.old) }
    ensures places { IfOk result IsPlacedGround }
    ensures told { IsGroundToldBy how (T.seen link.old) (T.seen link.new) result }
    ensures surveys { SurveysTag how (T.seen link.old) (T.seen link.new) result }
    ensures ready { T.ready link.new }
    ensures same { T.lenders link.new ≡ T.lenders link.old }
    ensures moves { T.moves link.old link.new }
{
    match how {
        How::T2 => survey_area(alloc, link),
        How::T4 => survey_file(alloc, link),
        How::T5(id) => survey_blocks(alloc, link, id),
    }
}

/// The ground in an area that is known to its end.
fn ground_in(space: Space, block: u32, known: Vec<u8>) -> Result<Ground, ReadFault>
    requires area { IsArea space }
    requires whole { space.end ≤ length known.items }
    requires some { 0 < block }
    requires end { space.end ≤ 65536 * block }
    requires blocks { HasBlocks block space known.items }
    ensures ground { GroundIn space block known.items result }
    ensures places { IfOk result IsPlacedGround }
{
    match find_message(&space, known.as_slice()) {
        Walk::Held { map } => Ok(Ground::Area {
            known: Items::new(known),
            block,
            map,
        }),
        Walk::NoMessageTlv => Err(ReadFault::NoMessageTlv),
        Walk::BadTlv => Err(ReadFault::BadTlv),
        Walk::More => unreachable!(),
    }
}

/// Surveys a Type 2 tag. A READ brings four blocks, so the last may bring some from behind the area.
fn survey_area<T: TagLink>(alloc: Global, link: &mut T) -> Result<Ground, ReadFault>
    requires ready { T.ready link.old }
    requires of { IsOf hows.T2 (T.seen link.old) }
    ensures places { IfOk result IsPlacedGround }
    // whatever the tag does
    ensures told { IsGroundToldBy hows.T2 (T.seen link.old) (T.seen link.new) result }
    ensures surveys { SurveysTag hows.T2 (T.seen link.old) (T.seen link.new) result }
    ensures ready { T.ready link.new }
    ensures same { T.lenders link.new ≡ T.lenders link.old }
    ensures moves { T.moves link.old link.new }
{
    let mut known = Vec::new(alloc);
    let space = read_all(alloc, link, &mut known)?;
    known.truncate(space.end as usize);
    ground_in(space, T2_BLOCK, known)
}

/// Surveys a Type 4 tag.
fn survey_file<T: TagLink>(alloc: Global, link: &mut T) -> Result<Ground, ReadFault>
    requires ready { T.ready link.old }
    requires of { IsOf hows.T4 (T.seen link.old) }
    ensures places { IfOk result IsPlacedGround }
    // whatever the tag does
    ensures told { IsGroundToldBy hows.T4 (T.seen link.old) (T.seen link.new) result }
    ensures surveys { SurveysTag hows.T4 (T.seen link.old) (T.seen link.new) result }
    ensures ready { T.ready link.new }
    ensures same { T.lenders link.new ≡ T.lenders link.old }
    ensures moves { T.moves link.old link.new }
{
    let map = read_container(alloc, link)?;
    let length = read_length(alloc, link, map)?;
    Ok(Ground::File { map, length })
}

/// Surveys the Type 5 tag with this identifier.
fn survey_blocks<T: TagLink>(alloc: Global, link: &mut T, id: [u8; 8]) -> Result<Ground, ReadFault>
    requires ready { T.ready link.old }
    requires of { IsOf (hows.T5 id) (T.seen link.old) }
    ensures places { IfOk result IsPlacedGround }
    // whatever the tag does
    ensures told { IsGroundToldBy (hows.T5 id) (T.seen link.old) (T.seen link.new) result }
    ensures surveys { SurveysTag (hows.T5 id) (T.seen link.old) (T.seen link.new) result }
    ensures ready { T.ready link.new }
    ensures same { T.lenders link.new ≡ T.lenders link.old }
    ensures moves { T.moves link.old link.new }
{
    let mut known = Known::new(alloc);
    let named = open_area(alloc, link, id, &mut known)?;
    let space = read_to_end(alloc, link, id, &mut known, named)?;
    let Known {
        size,
        single: _,
        bytes,
    } = known;
    ground_in(space, size as u32, bytes)
}
