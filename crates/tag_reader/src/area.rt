//! An area, read to its end whatever its TLVs are.

ghost use Rattle.std.specs.Prelude.{◌≡◌, ℕ, suc, ◌≤◌, length, [], IfOk, OnOk, OnErr};
ghost use Rattle.nfc_base.specs.TagLinks.{LinkView};
ghost use Rattle.tlv_area.specs.Layout.{IsArea};
ghost use Rattle.tag_reader.specs.Asked.{ToWrite};
ghost use Rattle.tag_reader.specs.declared.how.How.TheVariants as hows;
ghost use Rattle.tag_reader.specs.Heard.{IsOf};
ghost use Rattle.tag_reader.specs.HeardSteps.{OrFault};
ghost use Rattle.tag_reader.specs.private.BlockSteps.{Names, LooksBlocks, IsReading};
ghost use Rattle.tag_reader.specs.SurveyHeard.{AsksWhatItNeeds};
ghost use Rattle.tag_reader.specs.private.SurveySteps.{HearsAll, ReadsAll, KnowsAll};

use crate::asking::ask_next;
use crate::blocks::ask_blocks;
use crate::fault::ReadFault;
use crate::finding::open_area;
use crate::known::Known;
use nfc_base::TagLink;
use std::alloc::Global;
use tlv_area::Space;

/// Asks a Type 2 tag for the bytes from the first one to the end of its area, and tells the area.
pub fn read_all<T: TagLink>(
    alloc: Global,
    link: &mut T,
    known: &mut Vec<u8>,
) -> Result<Space, ReadFault>
    requires ready { T.ready link.old }
    requires of { IsOf hows.T2 (T.seen link.old) }
    requires begun { known.old.items ≡ [] }
    ensures area { IfOk result IsArea }
    ensures whole { IfOk result (λ space. space.end ≤ length known.new.items) }
    // whatever the tag does
    ensures hears { OrFault (λ space. (size : ℕ)
        × HearsAll hows.T2 (T.seen link.old) (T.seen link.new) size known.new.items space)
        hows.T2 (T.seen link.old) (T.seen link.new) result }
    ensures reads { ReadsAll (T.seen link.old) (T.seen link.new) known.new.items result }
    ensures needs { OnErr result (AsksWhatItNeeds hows.T2 (T.seen link.old) (T.seen link.new)) }
    ensures ready { T.ready link.new }
    ensures same { T.lenders link.new ≡ T.lenders link.old }
    ensures moves { T.moves link.old link.new }
{
    let space = open_area(alloc, link, known)?;
    let mut index: u8 = 0;
    'area: while known.len() < space.end as usize {
        index += 1;
        ask_next(alloc, link, index, known)?;
    }
    Ok(space)
}

/// Asks a Type 5 tag for blocks up to the end of its area or its own, and tells the area as far as the tag goes.
pub fn read_to_end<T: TagLink>(
    alloc: Global,
    link: &mut T,
    id: [u8; 8],
    known: &mut Known,
    space: Space,
) -> Result<Space, ReadFault>
    requires ready { T.ready link.old }
    requires of { IsOf (hows.T5 id) (T.seen link.old) }
    requires area { IsArea space }
    requires names { Names known.old space }
    requires looks { (a : LinkView) × LooksBlocks id a (T.seen link.old) known.old }
    ensures area { IfOk result IsArea }
    ensures whole { IfOk result (λ end. end.end ≤ length known.new.bytes.items) }
    ensures small { OnOk result (known.new.size ≤ 256) }
    // whatever the tag does
    ensures hears { (a : LinkView) → LooksBlocks id a (T.seen link.old) known.old →
        OrFault (HearsAll (hows.T5 id) a (T.seen link.new) known.new.size known.new.bytes.items)
        (hows.T5 id) a (T.seen link.new) result }
    ensures reads { (size n : ℕ) (a : LinkView) → IsReading ToWrite id size a (T.seen link.old) known.old (suc n) →
        KnowsAll id size a (T.seen link.new) known.new result }
    ensures needs { (a : LinkView) → LooksBlocks id a (T.seen link.old) known.old →
        OnErr result (AsksWhatItNeeds (hows.T5 id) a (T.seen link.new)) }
    ensures ready { T.ready link.new }
    ensures same { T.lenders link.new ≡ T.lenders link.old }
    ensures moves { T.moves link.old link.new }
{
    'area: while known.bytes.len() < space.end as usize {
        let goes_on = ask_blocks(alloc, link, id, known)?;
        if !goes_on {
            return Ok(Space {
                end: known.bytes.len() as u32,
                ..space
            });
        }
    }
    Ok(space)
}
