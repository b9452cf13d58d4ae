//! The connections that were asked of an end.

ghost use Rattle.std.specs.Prelude.{◌≡◌, [], ◌∷◌, ◌++◌, is_none, IfOk, OnOk, OnErr};
ghost use Rattle.llcp_link.specs.State.{conn_from};
ghost use Rattle.llcp_link.specs.Kept.{AllServed, IsServed};
ghost use Rattle.llcp_link.specs.Places.{IsBetweenOf, IsNumbered, IsPlaceOf, ClosedBy, TakenBy};

use crate::numbered::{self, Numbered};
use llcp_conn::{Conn, ConnNumbers, Taken};
use llcp_pdu::PduView;
use std::alloc::AllocError;

/// One more is open.
#[tactic(auto, using(crate::proofs::Lists::all_served_more))]
pub(crate) fn push(served: &mut Vec<Conn>, conn: Conn) -> Result<(), AllocError>
    requires served { IsServed conn }
    requires all { AllServed served.old.items }
    ensures ok { OnOk result (served.new.items ≡ served.old.items ++ conn ∷ []) }
    ensures all { OnOk result (AllServed served.new.items) }
    ensures err { OnErr result (served.new.items ≡ served.old.items) }
{
    match served.push(conn) {
        Ok(()) => Ok(()),
        Err(_) => Err(AllocError),
    }
}

impl Numbered for Conn {
    ghost number = { λ c. c.there };

    fn number(&self) -> u8 {
        self.there()
    }
}

/// The place of the connection of a client's SAP.
#[tactic(auto, using(crate::proofs::Places::place_is))]
pub(crate) fn place_of(served: &[Conn], client: u8) -> Option<usize>
    ensures { IsPlaceOf client served.now result }
{
    numbered::place_of(served, client)
}

/// The client has no connection.
pub(crate) fn is_new(served: &[Conn], client: u8) -> bool
    ensures { result ≡ is_none (conn_from client served.now) }
{
    place_of(served, client).is_none()
}

/// The place of the connection between a SAP of this end and a client's.
pub(crate) fn place_between(served: &[Conn], here: u8, client: u8) -> Option<usize>
    ensures { IsBetweenOf here client served.now result }
{
    let place = place_of(served, client)?;
    if served[place].here() == here {
        Some(place)
    } else {
        None
    }
}

/// Gives up the connection between a SAP of this end and a client's, and tells its numbers.
pub(crate) fn close(served: &mut Vec<Conn>, here: u8, client: u8) -> Option<ConnNumbers>
    requires { AllServed served.old.items }
    ensures closed { ClosedBy here client served.old.items result served.new.items }
    ensures all { AllServed served.new.items }
{
    let place = place_between(served, here, client)?;
    let conn = served.remove(place);
    Some(conn.numbers())
}

/// What a PDU comes to on the connection between its SAPs. One that it closes is given up.
pub(crate) fn take_view(
    served: &mut Vec<Conn>,
    here: u8,
    client: u8,
    pdu: &PduView<'_>,
) -> Result<Option<Taken>, AllocError>
    requires all { AllServed served.old.items }
    requires pdu { IsNumbered here client pdu.now }
    ensures taken { IfOk result (λ t. TakenBy here client pdu.now served.old.items t served.new.items) }
    ensures all { AllServed served.new.items }
{
    let Some(place) = place_between(served, here, client) else {
        return Ok(None);
    };
    match served[place].take_view(pdu) {
        Err(_) => Err(AllocError),
        Ok(Taken::Nothing) => Ok(Some(Taken::Nothing)),
        Ok(Taken::Unit(unit)) => Ok(Some(Taken::Unit(unit))),
        Ok(Taken::Closed(report)) => {
            served.remove(place);
            Ok(Some(Taken::Closed(report)))
        }
    }
}
