//! Where the message of a Type 2 tag lies, by as many READs as it takes to tell.

ghost use Rattle.std.specs.Prelude.{◌≡◌, ℕ, ◌<◌, ◌≤◌, length, take, [], IfOk, IfErr, OnErr, Ok, Err};
ghost use Rattle.tlv_area.specs.declared.container.ContainerFault.{ContainerFault};
ghost use Rattle.tlv_area.specs.Layout.{IsArea};
ghost use Rattle.tag_reader.specs.declared.how.How.TheVariants as hows;
ghost use Rattle.tag_reader.specs.Asked.{Aim};
ghost use Rattle.tag_reader.specs.Kinds.{area_of};
ghost use Rattle.tag_reader.specs.Heard.{IsOf};
ghost use Rattle.tag_reader.specs.HeardSteps.{OrFault, Looks, SeesMap};
ghost use Rattle.tag_reader.specs.SurveyHeard.{AsksWhatItNeeds};
ghost use Rattle.tag_reader.specs.Steps.{OpensArea, ReadsMap};

use crate::asking::ask_next;
use crate::fault::ReadFault;
use nfc_base::TagLink;
use std::alloc::Global;
use tlv_area::{AreaMap, ContainerFault, Space, Walk, Walker, container_t2};

/// The area that the container in the answer to the first READ names.
pub fn space_of(first: &[u8]) -> Result<Space, ContainerFault>
    requires { length first.now ≡ 16 }
    ensures exact { result ≡ area_of hows.T2 16 first.now }
    ensures area { IfOk result IsArea }
{
    container_t2(&[first[12], first[13], first[14], first[15]])
}

/// The known bytes up to an address.
pub fn front(known: &[u8], end: u32) -> &[u8]
    ensures { result.now ≡ take end known.now }
{
    if known.len() > end as usize {
        &known[..end as usize]
    } else {
        known
    }
}

/// Asks a Type 2 tag for its first four blocks, and tells the area that the container in them names.
pub fn open_area<T: TagLink>(
    alloc: Global,
    link: &mut T,
    known: &mut Vec<u8>,
) -> Result<Space, ReadFault>
    requires ready { T.ready link.old }
    requires of { IsOf hows.T2 (T.seen link.old) }
    requires begun { known.old.items ≡ [] }
    ensures area { IfOk result IsArea }
    // whatever the tag does
    ensures sees { OrFault (λ space. Looks (T.seen link.old) (T.seen link.new) known.new.items space 0) hows.T2
        (T.seen link.old) (T.seen link.new) result }
    ensures opens { (aim : Aim) → OpensArea aim (T.seen link.old) (T.seen link.new) known.new.items result }
    ensures needs { OnErr result (AsksWhatItNeeds hows.T2 (T.seen link.old) (T.seen link.new)) }
    ensures ready { T.ready link.new }
    ensures same { T.lenders link.new ≡ T.lenders link.old }
    ensures moves { T.moves link.old link.new }
{
    ask_next(alloc, link, 0, known)?;
    Ok(space_of(known.as_slice())?)
}

/// Asks a Type 2 tag for bytes until they tell where the message lies. What it learns is known then.
pub fn find_map<T: TagLink>(
    alloc: Global,
    link: &mut T,
    known: &mut Vec<u8>,
) -> Result<AreaMap, ReadFault>
    requires ready { T.ready link.old }
    requires of { IsOf hows.T2 (T.seen link.old) }
    requires begun { known.old.items ≡ [] }
    // whatever the tag does
    ensures sees { SeesMap hows.T2 (T.seen link.old) (T.seen link.new) known.new.items result }
    ensures reads { ReadsMap (T.seen link.old) (T.seen link.new) known.new.items result }
    ensures ready { T.ready link.new }
    ensures same { T.lenders link.new ≡ T.lenders link.old }
    ensures moves { T.moves link.old link.new }
{
    let space = open_area(alloc, link, known)?;
    // the walk goes on where it stopped: what was asked before isn't gone over again
    let mut walker = Walker::new(&space);
    let mut index: u8 = 0;
    'walk: while walker.needs_more(front(known.as_slice(), space.end)) {
        index += 1;
        ask_next(alloc, link, index, known)?;
    }
    match walker.find_message(front(known.as_slice(), space.end)) {
        Walk::Held { map } => Ok(map),
        Walk::NoMessageTlv => Err(ReadFault::NoMessageTlv),
        Walk::BadTlv => Err(ReadFault::BadTlv),
        Walk::More => unreachable!(),
    }
}
