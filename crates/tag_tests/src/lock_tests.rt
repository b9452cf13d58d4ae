//! A message that a tag takes is written where none of its blocks is locked.

ghost use Rattle.std.specs.Prelude.{◌≡◌, ◌≤◌, ℕ, List, false, Ok};
ghost use Rattle.nfc_base.specs.TagLinks.{plain_state};
ghost use Rattle.t2t_tag.specs.Store.{IsT2Store, unlocked};
ghost use Rattle.t5t_tag.specs.Store.{IsT5Store, fresh};
ghost use Rattle.tag_reader.specs.declared.how.How.TheVariants as hows;
ghost use Rattle.tag_reader.specs.Files.{IsFileStore, t4_link_step};
ghost use Rattle.tag_reader.specs.Kinds.{IsNamed, t2_step, t5_step};
ghost use Rattle.tag_writer.specs.Outcome.{IsOutcome};
ghost use Rattle.tag_writer.specs.Place.{Place, Takes};

use tag_writer::unlocked_is_done;

/// The law says so of each kind of tag as it is made, which has no locked block.
fn is_done_as_made()
    ensures t2 { (store message : List ℕ) (place : Place) → IsT2Store store → Takes hows.T2 16 store message place →
        IsOutcome hows.T2 16 (t2_step (unlocked store).locked) (plain_state store) message (Ok tt) }
    ensures t4 { (code : ℕ) (store message : List ℕ) (place : Place) → code ≤ 8 → IsFileStore store
        → Takes hows.T4 0 store message place →
        IsOutcome hows.T4 0 (t4_link_step code) (plain_state store) message (Ok tt) }
    ensures t5 { (id : List ℕ) (size : ℕ) (store message : List ℕ) (place : Place) → IsNamed (hows.T5 id) id
        → IsT5Store size store →
        Takes (hows.T5 id) size store message place →
        IsOutcome (hows.T5 id) size (t5_step id size (fresh id size store).locked false) (plain_state store) message (Ok tt) }
{
    unlocked_is_done();
}

#[test]
fn a_tag_without_a_locked_block_is_written(_rt: HostRuntime) {
    is_done_as_made();
}
