//! That each store has exactly one list of what is asked, and that what a reading asked so far is a front of it. The
//! calls do nothing: they stand for these laws.

ghost use Rattle.std.specs.Prelude.{◌≡◌, ℕ, ◌<◌, ◌≤◌, List, length};
ghost use Rattle.nfc_base.specs.Signal.{Signal};
ghost use Rattle.t2t_tag.specs.Store.{IsT2Store};
ghost use Rattle.tag_reader.specs.declared.how.How.TheVariants as hows;
ghost use Rattle.tag_reader.specs.Kinds.{IsStore, first};
ghost use Rattle.tag_reader.specs.Asked.{IsAsked, AreDue, IsDue};
ghost use Rattle.nfc_base.specs.Prefix.{IsPrefix};

use crate::finding::space_of;
use crate::how::How;
use tlv_area::{Walk, find_message};

/// How many bytes a READ of a Type 2 tag brings.
const READ_SIZE: usize = 16;

/// How many READs are asked of a Type 2 tag with this store.
fn count_reads(store: &[u8]) -> usize
    requires { IsT2Store store.now }
    ensures each { AreDue hows.T2 16 store.now result }
    ensures no_more { IsDue hows.T2 16 store.now result → ⊥ }
{
    let Ok(space) = space_of(&store[..READ_SIZE]) else {
        return 1;
    };
    let mut count = 1;
    while READ_SIZE * count <= store.len() {
        match find_message(&space, &store[..READ_SIZE * count]) {
            Walk::More => count += 1,
            _ => return count,
        }
    }
    count
}

/// A store that a tag of this kind has; the READs of a tag of blocks ask for so many bytes each.
pub fn one_asked(how: How, size: usize, store: &[u8])
    requires { IsStore how size store.now }
    ensures some { (commands : List Signal) × IsAsked how size store.now commands }
    ensures one { (xs ys : List Signal) → IsAsked how size store.now xs → IsAsked how size store.now ys → xs ≡ ys }
    ensures front { (n : ℕ) (xs : List Signal) → AreDue how size store.now n → IsAsked how size store.now xs →
        IsPrefix (first how size store.now n) xs }
{
    match how {
        How::T2 => {
            count_reads(store);
        }
        How::T4 => {}
        How::T5(_) => {}
    }
}
