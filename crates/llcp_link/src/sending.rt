//! What connections that were asked of an end give.

ghost use Rattle.std.specs.Prelude.{◌≡◌, ◌≤◌, length, true, IfOk, OnOk};
ghost use Rattle.llcp_pdu.specs.declared.part.Part.{Part};
ghost use Rattle.llcp_link.specs.Giving.{may_send as is_open_to};
ghost use Rattle.llcp_link.specs.Kept.{AllServed, IsServed};
ghost use Rattle.llcp_link.specs.Offering.{AckedBy, IsOwer, IsSender, Owes, Sends, SentBy, behind_ack, info_of};
ghost use Rattle.llcp_link.specs.Offering.{sent_on};

use crate::served::place_of;
use llcp_conn::Conn;
use llcp_pdu::Part;
use std::alloc::AllocError;

/// The window allows an I PDU.
fn may_send(conn: &Conn) -> bool
    ensures { result ≡ is_open_to conn.now }
{
    !conn.held() && conn.room()
}

/// A unit goes out.
fn send_on(conn: &mut Conn, unit: &[u8]) -> Result<Part, AllocError>
    requires served { IsServed conn.old }
    requires open { is_open_to conn.old ≡ true }
    requires size { length unit.now ≤ conn.old.far_miu }
    ensures conn { OnOk result (conn.new ≡ sent_on conn.old unit.now) }
    ensures part { IfOk result (λ p. p ≡ info_of conn.old unit.now) }
{
    match conn.submit(unit) {
        Err(_) => return Err(AllocError),
        Ok(()) => {}
    }
    match conn.give() {
        Err(_) => Err(AllocError),
        Ok(None) => unreachable!(),
        Ok(Some(part)) => Ok(part),
    }
}

/// An acknowledgement that is owed goes out.
fn ack_on(conn: &mut Conn) -> Part
    requires { conn.old.owed ≡ true }
    ensures conn { conn.new ≡ behind_ack conn.old }
    ensures part { result ≡ Part.Rr conn.old.there conn.old.here conn.old.vr }
{
    match conn.give_ack() {
        None => unreachable!(),
        Some(part) => part,
    }
}

/// The place of the client's connection and the client's MIU, where the window allows an I PDU.
pub(crate) fn sender(served: &[Conn], client: u8) -> Option<(usize, u16)>
    requires { AllServed served.now }
    ensures { IsSender client served.now result }
{
    let place = place_of(served, client)?;
    let conn = &served[place];
    if !may_send(conn) {
        return None;
    }
    Some((place, conn.far_miu()))
}

/// A unit goes out to a client. Where memory is wanting no connection is left.
pub(crate) fn send(
    served: &mut Vec<Conn>,
    _client: u8,
    place: usize,
    _miu: u16,
    unit: &[u8],
) -> Result<Part, AllocError>
    requires all { AllServed served.old.items }
    requires sends { Sends _client served.old.items place _miu }
    requires size { length unit.now ≤ _miu }
    ensures sent { IfOk result (λ p. SentBy _client _miu unit.now served.old.items p served.new.items) }
    ensures all { AllServed served.new.items }
{
    match send_on(&mut served[place], unit) {
        Err(_) => {
            served.clear();
            Err(AllocError)
        }
        Ok(part) => Ok(part),
    }
}

/// The place of the client's connection, where it owes an acknowledgement.
pub(crate) fn ower(served: &[Conn], client: u8) -> Option<usize>
    ensures { IsOwer client served.now result }
{
    let place = place_of(served, client)?;
    if !served[place].owed() {
        return None;
    }
    Some(place)
}

/// An acknowledgement goes out to a client.
pub(crate) fn acknowledge(served: &mut Vec<Conn>, _client: u8, place: usize) -> Part
    requires all { AllServed served.old.items }
    requires owes { Owes _client served.old.items place }
    ensures acked { AckedBy _client served.old.items result served.new.items }
    ensures all { AllServed served.new.items }
{
    ack_on(&mut served[place])
}
