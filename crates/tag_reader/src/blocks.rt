//! How a Type 5 tag is asked for its blocks (NFC Forum Type 5 Tag).

ghost use Rattle.std.specs.Prelude.{◌≡◌, ℕ, List, true, false, [], IfOk};
ghost use Rattle.nfc_base.specs.TagLinks.{LinkView};
ghost use Rattle.tag_reader.specs.declared.how.How.TheVariants as hows;
ghost use Rattle.tag_reader.specs.Asked.{Aim, IsDueFor};
ghost use Rattle.tag_reader.specs.Heard.{IsOf};
ghost use Rattle.tag_reader.specs.HeardSteps.{IsCut, Under, OrFault};
ghost use Rattle.tag_reader.specs.private.BlockSteps.{CanAsk, Grows, IsKnown, SeesBlocks, IsReading, NextBlocks};

use crate::ask::next_ask;
use crate::fault::ReadFault;
use crate::known::Known;
use crate::told::{BlocksTold, tell_blocks};
use nfc_base::TagLink;
use std::alloc::Global;

/// Asks for the next blocks, and adds what they bring to what is known. It tells whether the tag goes on so far.
pub fn ask_blocks<T: TagLink>(
    alloc: Global,
    link: &mut T,
    id: [u8; 8],
    known: &mut Known,
) -> Result<bool, ReadFault>
    requires ready { T.ready link.old }
    requires of { IsOf (hows.T5 id) (T.seen link.old) }
    requires asks { CanAsk known.old }
    ensures grows { IfOk result (λ more. more ≡ true → Grows known.old known.new) }
    // whatever the tag does
    ensures sees { (a : LinkView) (ps : List (List ℕ)) → Under (hows.T5 id) a (T.seen link.old) ps →
        IsKnown ps known.old →
        SeesBlocks id a (T.seen link.new) ps known.old known.new result }
    ensures next { (aim : Aim) (size n : ℕ) (a : LinkView) → IsReading aim id size a (T.seen link.old) known.old n →
        IsDueFor aim (hows.T5 id) size a.state.store n →
        NextBlocks aim id size a (T.seen link.new) known.old known.new n result }
    ensures cut { IsCut (T.seen link.old) (T.seen link.new) }
    ensures ready { T.ready link.new }
    ensures same { T.lenders link.new ≡ T.lenders link.old }
    ensures moves { T.moves link.old link.new }
{
    let ask = next_ask(known);
    let command = ask.frame(id);
    let answer = link.ask(alloc, &command)?;
    match tell_blocks(&ask, known.size, &answer)? {
        BlocksTold::Ended => Ok(false),
        BlocksTold::Single => {
            known.single = true;
            Ok(true)
        }
        BlocksTold::Bytes(content) => {
            known.learn(&content)?;
            Ok(true)
        }
    }
}
