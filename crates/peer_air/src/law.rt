//! Laws of links to peers in the world with far ends. The calls do nothing: they stand for these laws.

ghost use Rattle.std.specs.Prelude.{Bool, []};
ghost use Rattle.nfc_base.specs.Choosing.{Choosing};
ghost use Rattle.far_air.specs.FarEnds.{FarTable};
ghost use Rattle.far_air.specs.FarLaws.{IsFarTable, IsOfTable};
ghost use Rattle.peer_air.specs.Aside.{AsideTurns, SpeaksAside};
ghost use Rattle.peer_air.specs.Ends.{AreFarEnds, CountedStep, EndsStep};
ghost use Rattle.peer_air.specs.PeerFars.{peer_ends, RestsKeep, RestartsKeep};
ghost use Rattle.peer_air.specs.SwapTurns.{AllFar, ExchangesFar, PeersStand, StopsFar, SwapsFar};

use air_core::Listener;
use dep_link::PeerListener;
use llcp_link::{Counted, Llc, Service};
use nfc_base::Answerer;
use snep_core::Server;

/// The turns of an exchange with a peer, in which the far end gave that reply or none, are turns of the world with far
/// ends at the peer's place. So what a link to a peer tells of a swap, with what the far end did, is a swap in that
/// world, one after another at one place. Where the far end stopped for want of memory, it is one up to the request
/// that brought it the payload.
pub fn swaps<L: PeerListener, F, A: Answerer>()
    ensures stands { (linked : L → Bool) (t : FarTable F) → PeersStand L.Listener L.target linked t }
    ensures exchange { (linked : L → Bool) (t : FarTable F) → ExchangesFar L.Listener L.target linked t }
    ensures swap { (linked : L → Bool) (t : FarTable F) (view : A → Choosing F)
        → SwapsFar L.Listener L.target linked t A.restarts A.steps A.stops view }
    ensures all { (linked : L → Bool) (t : FarTable F) (view : A → Choosing F)
        → AllFar L.Listener L.target linked t A.restarts A.steps A.stops view }
    ensures stop { (linked : L → Bool) (t : FarTable F) (view : A → Choosing F)
        → StopsFar L.Listener L.target linked t A.restarts A.steps A.stops view }
{}

/// What a reader says in frames of whole bytes of NFC-A to one listener of a field, while all others are aside, is
/// turns of the world with far ends at its place: what an activation of a link asks, and what ends one.
pub fn talks_aside<L: Listener, F, A: Answerer>()
    ensures turn { AsideTurns L.Listener A.restarts A.steps }
    ensures speaks { (linked : L → Bool) (t : FarTable F) (view : A → Choosing F)
        → SpeaksAside L.Listener A.restarts A.steps linked t view }
{}

/// An end of a link is a far end of the world: each step of the code's end is one of its table, by the numbers of PDUs
/// that are left to it.
pub fn ends_of_links<S: Service>()
    ensures table { AreFarEnds S.serving }
    ensures steps { EndsStep S.serving }
    ensures counted { CountedStep S.serving }
{}

/// So is the end of a peer, whose service is a SNEP server. What it accepted, its table for get and its sizes stay,
/// without a link and on a new one.
pub fn ends_of_peers()
    ensures table { IsFarTable peer_ends }
    ensures steps { IsOfTable ⟦<Llc<Server> as Answerer>⟧.restarts ⟦<Llc<Server> as Answerer>⟧.steps
        peer_ends (λ l. record { end = l; numbers = [] }) }
    ensures counted { IsOfTable ⟦<Counted<Server> as Answerer>⟧.restarts ⟦<Counted<Server> as Answerer>⟧.steps
        peer_ends (λ c. c) }
    ensures rests { RestsKeep }
    ensures begins { RestartsKeep }
{}
