//! One READ of a Type 2 tag.

ghost use Rattle.std.specs.Prelude.{◌≡◌, ℕ, ◌*◌, ◌<◌, List, length};
ghost use Rattle.nfc_base.specs.TagLinks.{LinkView};
ghost use Rattle.tag_reader.specs.declared.how.How.TheVariants as hows;
ghost use Rattle.tag_reader.specs.Heard.{IsOf};
ghost use Rattle.tag_reader.specs.HeardSteps.{IsCut, Under, OrFault, Gains};
ghost use Rattle.tag_reader.specs.Steps.{AsksNextOf};

use crate::fault::ReadFault;
use crate::told::tell_t2;
use nfc_base::TagLink;
use std::alloc::Global;
use t2t_tag::T2Command;

/// Asks the READ that is the `index`-th, counted from 0, and adds the four blocks that it brings to what is known.
pub fn ask_next<T: TagLink>(
    alloc: Global,
    link: &mut T,
    index: u8,
    known: &mut Vec<u8>,
) -> Result<(), ReadFault>
    requires ready { T.ready link.old }
    requires of { IsOf hows.T2 (T.seen link.old) }
    requires number { 4 * index < 256 }
    ensures next { AsksNextOf index (T.seen link.old) (T.seen link.new) known.old.items known.new.items result }
    // whatever the tag does
    ensures gains { (a : LinkView) (ps : List (List ℕ)) → Under hows.T2 a (T.seen link.old) ps → length ps ≡ index →
        OrFault (λ done. Gains a (T.seen link.new) ps known.old.items known.new.items) hows.T2 a (T.seen link.new) result }
    ensures cut { IsCut (T.seen link.old) (T.seen link.new) }
    ensures ready { T.ready link.new }
    ensures same { T.lenders link.new ≡ T.lenders link.old }
    ensures moves { T.moves link.old link.new }
{
    let read = T2Command::Read { block: 4 * index }.to_frame();
    let answer = link.ask(alloc, &read)?;
    let content = tell_t2(&answer)?;
    known.extend_from_slice(&content)?;
    Ok(())
}
