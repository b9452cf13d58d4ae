//! The laws of the world with far ends. The calls do nothing: they stand for these laws.

ghost use Rattle.std.specs.Prelude.{ℕ, List, Bool};
ghost use Rattle.nfc_base.specs.Choosing.{Choosing};
ghost use Rattle.air_core.specs.World.{Machine};
ghost use Rattle.air_core.specs.Conversation.{Note, Next};
ghost use Rattle.far_air.specs.FarEnds.{FarTable};
ghost use Rattle.far_air.specs.Quietly.{UnlinkedStay, QuietFields, QuietStretches, QuietGoings};
ghost use Rattle.far_air.specs.Staying.{FarsStay};
ghost use Rattle.far_air.specs.TwoFrames.{TwoFrames};
ghost use Rattle.far_air.specs.FarTurns.{FarTurns, FarResets, FarGoesOn, FarGoesThen, SpeaksFar};

use nfc_base::Answerer;

/// Where no device hands anything over, a stretch is one of the quiet air, whatever the far ends are and whatever the
/// numbers, and the code's far ends stay. So it is behind a reset, from which on no device has a link, as long as no
/// frame begins one.
pub fn quiet_stretches<L, F>()
    ensures unlinked { (m : Machine L) (linked : L → Bool) → UnlinkedStay m linked }
    ensures field { (m : Machine L) (linked : L → Bool) (t : FarTable F) → QuietFields m linked t }
    ensures stretch { (m : Machine L) (linked : L → Bool) (t : FarTable F) → QuietStretches m linked t }
    ensures goes { (m : Machine L) (linked : L → Bool) (t : FarTable F) → QuietGoings m linked t }
{}

/// At a frame at which one device at most hands something over, whatever state it and the others are in and whichever
/// is selected, what the field's `transmit` says over that device's far end is a turn of the world with far ends at
/// its place. Turns one after another take an entry's numbers in order.
pub fn far_turns<L, F, A: Answerer>()
    ensures reset { (m : Machine L) (linked : L → Bool) (t : FarTable F) → FarResets m linked t }
    ensures turn { (m : Machine L) (linked : L → Bool) (t : FarTable F)
        (view : A → Choosing F) → FarTurns m linked t A.restarts A.steps view }
    ensures speaks { (m : Machine L) (linked : L → Bool) (t : FarTable F) (next : List Note → Next) (place : ℕ)
        (view : A → Choosing F) → SpeaksFar m linked t A.restarts A.steps next place view }
    ensures on { (m : Machine L) (linked : L → Bool) (t : FarTable F) → FarGoesOn m linked t }
    ensures then { (m : Machine L) (linked : L → Bool) (t : FarTable F) → FarGoesThen m linked t }
{}

/// What stays of far ends is changed by a payload that is handed over, and by nothing else: the dark, resets, new
/// links and all other frames leave it.
pub fn far_ends_stay<L, F>()
    ensures { (m : Machine L) (linked : L → Bool) (t : FarTable F) → FarsStay m linked t }
{}

/// A field with a tag and two peers, computed: a frame begins a link with one peer, the next hands its far end a
/// payload, which takes a number and is replied to; then the field is lost, and of both far ends there is what stays.
pub fn two_frames()
    ensures { TwoFrames }
{}
