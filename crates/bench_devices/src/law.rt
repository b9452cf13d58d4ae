//! Laws of the devices. The calls do nothing: they stand for these laws.

ghost use Rattle.bench_devices.specs.Keeping.{DevicesStay, ImagesStay, AsideKeeps, OthersKeep};
ghost use Rattle.bench_devices.specs.AnyFrame.{DevicesTidy, OnePeerHands, PeersStay, TagsHandNothing};
ghost use Rattle.bench_devices.specs.Calm.{DevicesLink, CalmFinding, CalmCrowding, CalmSensing, CalmSelecting};
ghost use Rattle.bench_devices.specs.Calm.{CalmReading, CalmWriting, CalmUnasked, CalmReadingThree, CalmWritingThree};
ghost use Rattle.bench_devices.specs.Calm.{CalmUnaskedThree};
ghost use Rattle.nfc_base.specs.Choosing.{Choosing};
ghost use Rattle.far_air.specs.FarEnds.{FarTable};
ghost use Rattle.bench_devices.specs.LinkLaws.{LinkAsks, PeerStands, OthersAside, SwapsLeave, ReadyInStep};
ghost use Rattle.bench_devices.specs.LinkLaws.{LinkedInStep, InStepTakesRls, NoneAtRls, TurnLeaves, ReleaseLeaves};
ghost use Rattle.bench_devices.specs.LinkLaws.{OpensFar, SelectsFar, FarLeaves};

use nfc_base::Answerer;

/// Events change of a device its state and its store alone, which is one of its kind still, and it has a link at most
/// while it is active; and of the others, where one that they are aside of is asked, their state alone. Each peer stays
/// at its place.
pub fn devices_stay()
    ensures stay { DevicesStay }
    ensures images { ImagesStay }
    ensures tidy { DevicesTidy }
    ensures peers { PeersStay }
    ensures aside { AsideKeeps }
    ensures others { OthersKeep }
{}

/// Peers alone have links to far ends, and nothing that is due while devices are found, selected, read or written
/// begins one: a peer without a link hands nothing over there. No other device hands anything over at all, whatever it
/// hears.
pub fn peers_stay_unlinked()
    ensures links { DevicesLink }
    ensures tags { TagsHandNothing }
    ensures one { OnePeerHands }
    ensures find { CalmFinding }
    ensures crowd { CalmCrowding }
    ensures sense { CalmSensing }
    ensures select { CalmSelecting }
    ensures read { CalmReading }
    ensures write { CalmWriting }
    ensures none { CalmUnasked }
    ensures read_three { CalmReadingThree }
    ensures write_three { CalmWritingThree }
    ensures no_three { CalmUnaskedThree }
{}

/// While a link is opened its peer is selected first, and then asked by ATR_REQ. What is said to a peer, while all
/// others are aside, changes of every device its state alone, whatever becomes of it: one turn, swaps over a link, a
/// release. A link that is ready is in step with the peer at its place.
pub fn links_open<A: Answerer>()
    ensures asks { LinkAsks }
    ensures stands { PeerStands }
    ensures others { OthersAside }
    ensures ready { ReadyInStep }
    ensures linked { LinkedInStep }
    ensures takes { InStepTakesRls }
    ensures none { NoneAtRls }
    ensures moves { SwapsLeave }
    ensures turn { TurnLeaves A.restarts A.steps }
    ensures release { ReleaseLeaves A.restarts A.steps A.stops A.is_stuck }
{}

/// The opening of a link, from the selection of its peer on, is a stretch of the world with far ends, at the peer's
/// place. So is a selection alone, whatever it came to. What is said to a peer in that world leaves what it does on the
/// field.
pub fn links_far<F, A: Answerer>()
    ensures selects { (t : FarTable F) → SelectsFar t }
    ensures leaves { (t : FarTable F) → FarLeaves t }
    ensures opens { (t : FarTable F) (view : A → Choosing F) → OpensFar A.restarts A.steps t view }
{}
