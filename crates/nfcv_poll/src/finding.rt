//! Finding every Type 5 tag of a field.

ghost use Rattle.std.specs.Prelude.{◌≡◌, ◌↔◌, ◌<◌, length, drop, Err};
ghost use Rattle.nfc_base.specs.Trace.{breaks};
ghost use Rattle.nfca_poll.specs.ByHeard.{turns_since};
ghost use Rattle.nfca_poll.specs.Enquiry.{Enquires};
ghost use Rattle.nfca_poll.specs.declared.fault.PollFault.TheVariants.{FieldLost};
ghost use Rattle.nfcv_poll.specs.Search.{finding_all};
ghost use Rattle.nfcv_poll.specs.Finding.{identifiers, AreAscending, HasCauses};
ghost use Rattle.nfcv_poll.specs.Tags.{FindsTags};
ghost use Rattle.nfcv_poll.specs.Crowd.{SearchesCrowd};

use crate::search::{Search, Stage};
use air_core::{Field, Listener};
use nfca_poll::{PollFault, ask};
use std::alloc::Global;

/// Finds all Type 5 tags of a field, ascending by identifier, in up to four passes from one reset on: in a pass each
/// clash is asked for again with four bits more, the tags that were recorded are told to stay quiet, and it is asked
/// who is left.
pub fn find_all_v<L: Listener>(
    alloc: Global,
    field: &mut Field<L>,
) -> Result<Vec<[u8; 8]>, PollFault>
    ensures turns { Enquires finding_all L.machine field.old (identifiers result) field.new }
    ensures tags { FindsTags L.machine field.old (identifiers result) field.new }
    ensures crowd { SearchesCrowd L.machine field.old (identifiers result) field.new }
    ensures ascending { AreAscending (identifiers result) }
    ensures causes { HasCauses (turns_since field.old field.new) (identifiers result) }
    ensures lost { (identifiers result ≡ Err FieldLost)
        ↔ (0 < breaks (drop (length field.old.trace) field.new.trace)) }
{
    if field.reset().is_err() {
        return Err(PollFault::Memory);
    }
    let mut search = Search::new(alloc);
    'requests: while let Some(request) = search.due() {
        let heard = ask(field, &request)?;
        search.hear(&heard)?;
    }
    let Search { found, stage, .. } = search;
    match stage {
        Stage::Fails(fault) => Err(fault),
        _ => Ok(found.into_vec()),
    }
}
