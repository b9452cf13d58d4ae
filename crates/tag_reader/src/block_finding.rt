//! Where the message of a Type 5 tag lies, by as few commands as its container allows.

ghost use Rattle.std.specs.Prelude.{◌≡◌, ◌<◌, ◌≤◌, [], length, false, IfOk, OnErr};
ghost use Rattle.tlv_area.specs.Containers.{t5_is_open};
ghost use Rattle.tlv_area.specs.Form.{NeedsMore};
ghost use Rattle.tlv_area.specs.Layout.{IsArea};
ghost use Rattle.tag_reader.specs.declared.how.How.TheVariants as hows;
ghost use Rattle.tag_reader.specs.Asked.{Aim};
ghost use Rattle.tag_reader.specs.Heard.{IsOf};
ghost use Rattle.tag_reader.specs.HeardSteps.{OrFault, SeesMap};
ghost use Rattle.tag_reader.specs.private.BlockSteps.{Names, LooksBlocks, Opens, FindsMap};
ghost use Rattle.tag_reader.specs.Steps.{IsCutFault};
ghost use Rattle.tag_reader.specs.SurveyHeard.{AsksWhatItNeeds};

use crate::blocks::ask_blocks;
use crate::fault::ReadFault;
use crate::finding::front;
use crate::known::Known;
use nfc_base::TagLink;
use std::alloc::Global;
use tlv_area::{AreaMap, Space, T5Container, Walk, Walker, container_t5, find_message, reach};

/// Whether the container goes on behind the bytes that are known.
fn is_open(bytes: &[u8]) -> bool
    ensures { result ≡ t5_is_open bytes.now }
{
    matches!(container_t5(bytes), Ok(T5Container::More))
}

/// Asks for blocks until the container is whole, and tells the area that it names.
pub fn open_area<T: TagLink>(
    alloc: Global,
    link: &mut T,
    id: [u8; 8],
    known: &mut Known,
) -> Result<Space, ReadFault>
    requires ready { T.ready link.old }
    requires of { IsOf (hows.T5 id) (T.seen link.old) }
    requires size { known.old.size ≡ 0 }
    requires single { known.old.single ≡ false }
    requires begun { known.old.bytes.items ≡ [] }
    ensures names { IfOk result (Names known.new) }
    ensures area { IfOk result IsArea }
    // whatever the tag does
    ensures sees { OrFault (λ space. LooksBlocks id (T.seen link.old) (T.seen link.new) known.new) (hows.T5 id)
        (T.seen link.old) (T.seen link.new) result }
    ensures opens { (aim : Aim) → Opens aim id (T.seen link.old) (T.seen link.new) known.new result }
    ensures needs { OnErr result (AsksWhatItNeeds (hows.T5 id) (T.seen link.old) (T.seen link.new)) }
    ensures ready { T.ready link.new }
    ensures same { T.lenders link.new ≡ T.lenders link.old }
    ensures moves { T.moves link.old link.new }
{
    'open: while is_open(known.bytes.as_slice()) {
        let goes_on = ask_blocks(alloc, link, id, known)?;
        if !goes_on {
            return Err(ReadFault::BadSize);
        }
    }
    match container_t5(known.bytes.as_slice())? {
        T5Container::Ready {
            space,
            wide,
            many: _,
        } => Ok(reach(&space, wide, known.size)),
        T5Container::More => unreachable!(),
    }
}

/// What is wrong with an area that the tag ends before, where the walk needs a byte behind the tag's end.
fn cut_fault(space: Space, known: &[u8]) -> ReadFault
    requires area { IsArea space }
    requires begins { space.start ≤ length known.now }
    requires more { NeedsMore space known.now }
    requires short { length known.now < space.end }
    ensures { IsCutFault space known.now result }
{
    let cut = Space {
        end: known.len() as u32,
        ..space
    };
    match find_message(&cut, known) {
        Walk::NoMessageTlv => ReadFault::NoMessageTlv,
        Walk::BadTlv => ReadFault::BadTlv,
        Walk::Held { map: _ } => unreachable!(),
        Walk::More => unreachable!(),
    }
}

/// Asks for blocks until they tell where the message lies. What it learns is known then.
pub fn find_in_blocks<T: TagLink>(
    alloc: Global,
    link: &mut T,
    id: [u8; 8],
    known: &mut Known,
) -> Result<AreaMap, ReadFault>
    requires ready { T.ready link.old }
    requires of { IsOf (hows.T5 id) (T.seen link.old) }
    requires size { known.old.size ≡ 0 }
    requires single { known.old.single ≡ false }
    requires begun { known.old.bytes.items ≡ [] }
    // whatever the tag does
    ensures sees { SeesMap (hows.T5 id) (T.seen link.old) (T.seen link.new) known.new.bytes.items result }
    ensures reads { FindsMap id (T.seen link.old) (T.seen link.new) known.new.bytes.items result }
    ensures ready { T.ready link.new }
    ensures same { T.lenders link.new ≡ T.lenders link.old }
    ensures moves { T.moves link.old link.new }
{
    let space = open_area(alloc, link, id, known)?;
    // the walk goes on where it stopped: what was asked before isn't gone over again
    let mut walker = Walker::new(&space);
    'walk: while walker.needs_more(front(known.bytes.as_slice(), space.end)) {
        let goes_on = ask_blocks(alloc, link, id, known)?;
        if !goes_on {
            return Err(cut_fault(space, known.bytes.as_slice()));
        }
    }
    match walker.find_message(front(known.bytes.as_slice(), space.end)) {
        Walk::Held { map } => Ok(map),
        Walk::NoMessageTlv => Err(ReadFault::NoMessageTlv),
        Walk::BadTlv => Err(ReadFault::BadTlv),
        Walk::More => unreachable!(),
    }
}
