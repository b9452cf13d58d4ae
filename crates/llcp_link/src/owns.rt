//! The connections that an end asked for, each named by its own SAP.

ghost use Rattle.std.specs.Prelude.{◌≡◌, ◌⊎◌, IfErr, OnOk, OnErr};
ghost use Rattle.llcp_conn.specs.declared.fault.ConnFault.{ConnFault};
ghost use Rattle.llcp_link.specs.Asking.{acked_of, has_waiting_of, is_busy_by, put_own, queued_on, refusal_of};
ghost use Rattle.llcp_link.specs.Asking.{standing_of, unit_of, unit_taken_on, without_own};
ghost use Rattle.llcp_link.specs.Own.{on_own};
ghost use Rattle.llcp_link.specs.Places.{PlaceOf};
ghost use Rattle.llcp_link.specs.State.{own_from};

use crate::numbered;
use crate::own::Own;
use crate::standing::Standing;
use llcp_conn::ConnFault;
use nfc_base::Items;
use std::alloc::AllocError;

/// The place of the connection from a SAP.
#[tactic(auto, using(crate::proofs::OwnPlaces::place_is))]
pub(crate) fn place_of(own: &[Own], here: u8) -> Option<usize>
    ensures { PlaceOf here own.now result }
{
    numbered::place_of(own, here)
}

/// One is there from a SAP.
pub(crate) fn is_busy(own: &[Own], here: u8) -> bool
    ensures { result ≡ is_busy_by (own_from here own.now) }
{
    match place_of(own, here) {
        None => false,
        Some(place) => own[place].is_there(),
    }
}

/// How the one from a SAP stands.
pub(crate) fn standing(own: &[Own], here: u8) -> Standing
    ensures { result ≡ standing_of (own_from here own.now) }
{
    match place_of(own, here) {
        None => Standing::Nothing,
        Some(place) => own[place].standing(),
    }
}

/// How many units were acknowledged on it.
pub(crate) fn acked(own: &[Own], here: u8) -> u32
    ensures { result ≡ acked_of (own_from here own.now) }
{
    match place_of(own, here) {
        None => 0,
        Some(place) => own[place].acked(),
    }
}

/// A unit that was submitted on it waits to be given.
pub(crate) fn has_waiting(own: &[Own], here: u8) -> bool
    ensures { result ≡ has_waiting_of (own_from here own.now) }
{
    match place_of(own, here) {
        None => false,
        Some(place) => own[place].has_waiting(),
    }
}

/// One more is asked for, in the place of an earlier one from its SAP.
pub(crate) fn put(own: &mut Vec<Own>, one: Own) -> Result<(), AllocError>
    ensures ok { OnOk result (own.new.items ≡ put_own one own.old.items) }
    ensures err { OnErr result (own.new.items ≡ own.old.items) }
{
    match place_of(own, one.here) {
        Some(place) => own[place] = one,
        None => own.push(one)?,
    }
    Ok(())
}

/// The one from a SAP is given up without a PDU.
pub(crate) fn forget(own: &mut Vec<Own>, here: u8)
    ensures { own.new.items ≡ without_own here own.old.items }
{
    if let Some(place) = place_of(own, here) {
        own.remove(place);
    }
}

/// Takes in a unit on the one from a SAP.
pub(crate) fn submit(own: &mut Vec<Own>, here: u8, unit: &[u8]) -> Result<(), ConnFault>
    ensures free { OnOk result (refusal_of (own_from here own.old.items) unit.now ≡ None) }
    ensures ok { OnOk result (own.new.items ≡
        on_own (λ o. queued_on o unit.now o.is) (own_from here own.old.items) own.old.items) }
    ensures err { IfErr result (λ e.
        ((e ≡ ConnFault.Memory) × (refusal_of (own_from here own.old.items) unit.now ≡ None))
        ⊎ (refusal_of (own_from here own.old.items) unit.now ≡ Some e)) }
    ensures same { OnErr result (own.new.items ≡ own.old.items) }
{
    match place_of(own, here) {
        None => Err(ConnFault::NotOpen),
        Some(place) => own[place].submit(unit),
    }
}

/// The oldest unit that was handed up on it and not yet taken away.
pub(crate) fn unit(own: &mut Vec<Own>, here: u8) -> Option<Items<u8>>
    ensures unit { result ≡ unit_of (own_from here own.old.items) }
    ensures left { own.new.items ≡ on_own unit_taken_on (own_from here own.old.items) own.old.items }
{
    let place = place_of(own, here)?;
    own[place].unit()
}
