//! That a write is one: of the store, the tag's step and the message there is one list of what is asked, one place of
//! the message, and one thing that is told. The calls do nothing: they stand for these laws.

ghost use Rattle.std.specs.Prelude.{◌≡◌, ℕ, List, Bool, true, Result, Ok, Err};
ghost use Rattle.nfc_base.specs.Signal.{Signal};
ghost use Rattle.nfc_base.specs.TagLinks.{LinkView, TagState, TagStep};
ghost use Rattle.tlv_area.specs.Form.{Message};
ghost use Rattle.tag_reader.specs.declared.how.How.{How};
ghost use Rattle.tag_reader.specs.Kinds.{IsStore, IsStoreForm};
ghost use Rattle.tag_reader.specs.Survey.{surveyed};
ghost use Rattle.tag_writer.specs.declared.fault.WriteFault.{WriteFault};
ghost use Rattle.tag_writer.specs.declared.fault.WriteFault.TheVariants.{Refused};
ghost use Rattle.tag_writer.specs.Locks.{has_locked, refusal_if, StepsBy, IsFreeFor, IsLockedFor};
ghost use Rattle.tag_writer.specs.Place.{Place, IsPlaceIn, Takes};
ghost use Rattle.tag_writer.specs.Puts.{commands_of};
ghost use Rattle.tag_writer.specs.WriteAsked.{Parts, ArePuts, IsWriteAsked, all_puts, refused_by};
ghost use Rattle.tag_writer.specs.Faults.{IsWriteFault, is_told};
ghost use Rattle.tag_writer.specs.Outcome.{IsOutcome};

/// What is asked for a message is one list, and the writes are the same ones, part by part.
pub fn one_write_asked()
    ensures one { (how : How) (size : ℕ) (step : TagState → Signal → TagStep) (s : TagState) (message : List ℕ)
        (xs ys : List Signal) → IsWriteAsked how size step s message xs → IsWriteAsked how size step s message ys
        → xs ≡ ys }
    ensures parts { (how : How) (size : ℕ) (store message : List ℕ) (p q : Parts) →
        ArePuts how size store message p → ArePuts how size store message q → p ≡ q }
{}

/// A store that holds a message has exactly one place for another, and no other store has one.
pub fn one_place()
    ensures some { (how : How) (size : ℕ) (store old message : List ℕ) → IsStoreForm how size store (Message old) →
        (place : Place) × IsPlaceIn how size store message place }
    ensures held { (how : How) (size : ℕ) (store message : List ℕ) (place : Place)
        → IsPlaceIn how size store message place →
        (old : List ℕ) × IsStoreForm how size store (Message old) }
    ensures one { (how : How) (size : ℕ) (store message : List ℕ) (p q : Place) →
        IsPlaceIn how size store message p → IsPlaceIn how size store message q → p ≡ q }
{}

/// A write of a message has one outcome at most, but for what its link and want of memory do. Each fault that `write`
/// tells and that isn't of these is its outcome.
pub fn one_outcome()
    ensures one { (how : How) (size : ℕ) (step : TagState → Signal → TagStep) (s : TagState) (message : List ℕ)
        (r q : Result Unit WriteFault) → IsStore how size s.store →
        IsOutcome how size step s message r → IsOutcome how size step s message q → r ≡ q }
    ensures told { (how : How) (size : ℕ) (message : List ℕ) (a b : LinkView) (e : WriteFault) → is_told e ≡ true →
        IsWriteFault how size message a b e → IsOutcome how size a.step a.state message (Err e) }
{}

/// The tag refuses the writes of a message that it takes exactly where one of them goes to a locked block, by the code
/// for that, and a Type 4 tag refuses none. So a message that is taken is written where none of its blocks is locked,
/// and a refusal tells of a locked one.
pub fn unlocked_is_done()
    ensures refused { (how : How) (size : ℕ) (locked : List Bool) (step : TagState → Signal → TagStep) (s : TagState)
        (message : List ℕ)
        (place : Place) (parts : Parts) → StepsBy how size locked step → IsStore how size s.store →
        Takes how size s.store message place → ArePuts how size s.store message parts →
        refused_by how step (surveyed how s) (commands_of (all_puts parts))
        ≡ refusal_if how (has_locked how size locked (all_puts parts)) }
    ensures done { (how : How) (size : ℕ) (locked : List Bool) (step : TagState → Signal → TagStep) (s : TagState)
        (message : List ℕ) →
        StepsBy how size locked step → IsStore how size s.store →
        IsFreeFor how size locked s.store message → IsOutcome how size step s message (Ok tt) }
    ensures cause { (how : How) (size : ℕ) (locked : List Bool) (step : TagState → Signal → TagStep) (s : TagState)
        (message : List ℕ)
        (code : ℕ) → StepsBy how size locked step → IsStore how size s.store →
        IsOutcome how size step s message (Err (Refused code)) → IsLockedFor how size locked s.store message code }
{}
