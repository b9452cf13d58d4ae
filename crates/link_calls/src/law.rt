//! Laws of a client's calls over a link to a peer. The calls do nothing: they stand for these laws.

ghost use Rattle.std.specs.Prelude.{Bool};
ghost use Rattle.nfc_base.specs.Choosing.{Choosing};
ghost use Rattle.far_air.specs.FarEnds.{FarTable};
ghost use Rattle.dep_link.specs.DepLinks.{DepSeen};
ghost use Rattle.link_calls.specs.CallTurns.{TalksFar, BreaksFar};

use dep_link::PeerListener;
use nfc_base::Answerer;

/// What a call of a client did over a link to a peer, with what the far end did, is turns of the world with far ends at
/// the peer's place, each of whose requests was due by what was heard before it; and what was heard tells where the
/// call stands. So it is where the call was cut off by its link, or by want of memory, also of the far end.
pub fn calls_due<L: PeerListener, F, C, A: Answerer>()
    ensures talks { (linked : L → Bool) (t : FarTable F) (see : C → DepSeen L) (view : A → Choosing F)
        → TalksFar L.Listener L.target linked t see A.restarts A.steps A.stops view }
    ensures breaks { (linked : L → Bool) (t : FarTable F) (see : C → DepSeen L) (view : A → Choosing F)
        → BreaksFar L.Listener L.target linked t see A.restarts A.steps A.stops view }
{}
