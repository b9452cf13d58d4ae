//! What the tables of both ends keep together, over any air. The calls do nothing: they stand for these laws.

ghost use Rattle.std.specs.Prelude.{ℕ};
ghost use Rattle.nfc_base.specs.Sessions.{SessionDelivers, SessionBrings, SessionReplies};
ghost use Rattle.dep_link.specs.Sizes.{limit};
ghost use Rattle.dep_link.specs.Target.{DeliversAnew};
ghost use Rattle.dep_link.specs.Initiator.{FaultsStay};
ghost use Rattle.dep_link.specs.Exchange.{nfc_dep, IsReady, next_exchange, HandsOnce};
ghost use Rattle.dep_link.specs.Replies.{HeardReplies};
ghost use Rattle.dep_link.specs.Sessions.{ActivatedReady, ActivatedHands};

/// A payload is handed over at most once, and exactly once where the initiator has its reply: in one exchange, and in
/// exchanges one after another.
pub fn handed_once()
    ensures exchange { HandsOnce }
    ensures session { (first : ℕ) → SessionDelivers (nfc_dep first) next_exchange (IsReady first) limit }
    ensures brings { (first : ℕ) → SessionBrings (nfc_dep first) next_exchange (IsReady first) limit }
    ensures replies { (first : ℕ) → SessionReplies (nfc_dep first) next_exchange (IsReady first) limit }
    ensures ready { ActivatedReady }
    ensures activated { ActivatedHands }
{}

/// What an initiator gives are the replies that the frames bring which it hears: each frame that it allows is taken
/// once.
pub fn replies_heard()
    ensures { HeardReplies }
{}

/// What a target delivers it delivers for the first time.
pub fn delivered_anew()
    ensures { DeliversAnew }
{}

/// A fault of an initiator is its last word on a payload.
pub fn faults_stay()
    ensures { FaultsStay }
{}
