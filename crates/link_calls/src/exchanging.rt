//! Payloads that were written by hand, exchanged one after the other over the open link of a field.

ghost use Rattle.std.specs.Prelude.{◌≡◌, [], None, IfOk, IfErr};
ghost use Rattle.link_calls.specs.Calls.{IsOpen};
ghost use Rattle.link_calls.specs.Carrying.{IsWalked, IsWalkCut};
ghost use Rattle.link_calls.specs.Exchanging.{AreCarriable, by_hand, sending};
ghost use Rattle.link_calls.specs.Walk.{Through};
ghost use Rattle.link_calls.specs.private.Walking.{Walks, WalkBreaks};

use air_core::Field;
use dep_link::{DepPair, Initiator, PeerListener};
use llcp_link::Counted;
use nfc_base::{Answerer, Carrier, EndCause, Items};
use snep_core::Server;
use std::alloc::Global;

/// Swaps payloads one after the other over a link that isn't over, and gives the reply to each.
fn swap_each<C: Carrier, A: Answerer>(
    alloc: Global,
    carrier: &mut C,
    far: &mut A,
    payloads: &[Items<u8>],
) -> Result<Items<Items<u8>>, EndCause>
    requires ready { C.ready carrier.old }
    requires going { (C.seen carrier.old).over ≡ None }
    requires carriable { AreCarriable payloads.now }
    ensures ok { IfOk result (λ replies. Walks by_hand C.seen C.swaps A.steps A.stops
        (sending payloads.now []) carrier.old far.old (Through replies) carrier.new far.new) }
    ensures err { IfErr result (λ cause. WalkBreaks by_hand C.seen C.swaps A.steps A.stops
        (sending payloads.now []) carrier.old far.old cause carrier.new far.new) }
    ensures ready { C.ready carrier.new }
    ensures same { C.lenders carrier.new ≡ C.lenders carrier.old }
{
    let mut replies = Vec::new(alloc);
    for payload in payloads {
        match carrier.swap(alloc, payload.as_slice(), far) {
            Ok(reply) => {
                if replies.push(Items::new(reply)).is_err() {
                    return Err(EndCause::Memory);
                }
            }
            Err(end) => return Err(end.cause),
        }
    }
    Ok(Items::new(replies))
}

/// Exchanges payloads of at most 2,178 bytes with the peer of an open link, one after the other, as they are, and gives
/// the reply to each. Where memory is wanting the link is left as it is then.
pub fn exchange_all<L: PeerListener>(
    alloc: Global,
    field: &mut Field<L>,
    initiator: &mut Initiator,
    far: &mut Counted<Server>,
    payloads: &[Items<u8>],
) -> Result<Items<Items<u8>>, EndCause>
    requires open_ { IsOpen L.Listener L.target field.old initiator.old }
    requires carriable { AreCarriable payloads.now }
    ensures ok { IfOk result (λ replies. IsWalked L.Listener L.target by_hand (sending payloads.now [])
        field.old initiator.old far.old field.new initiator.new far.new replies) }
    ensures err { IfErr result (λ cause. IsWalkCut L.Listener L.target by_hand (sending payloads.now [])
        field.old initiator.old far.old field.new initiator.new far.new cause) }
{
    let mut pair = DepPair::on(field, initiator);
    swap_each(alloc, &mut pair, far, payloads)
}
