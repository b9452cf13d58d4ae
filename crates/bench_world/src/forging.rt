//! Payloads that were written by hand are sent to a peer, over a link that begins and ends so.

ghost use Rattle.std.specs.Prelude.{◌≡◌, ◌↔◌, ◌+◌, ◌^◌, ◌<◌, ◌++◌, if◌then◌else◌, [], ◌∷◌, ℕ, Some, None, length};
ghost use Rattle.std.specs.Prelude.{get_or, false, IsTrue, IfOk, IfErr, OnErr, IsErrOf, vec_len, vec_capacity};
ghost use Rattle.std.specs.List.{All};
ghost use Rattle.air_core.specs.Turn.{moment};
ghost use Rattle.bench_devices.specs.Device.{is_tag};
ghost use Rattle.bench_devices.specs.Phases.{Stands};
ghost use Rattle.link_calls.specs.Exchanging.{AreCarriable};
ghost use Rattle.bench_world.specs.private.ForgedAt.{ForgeStops, SendsAll, SendsTo, told_cause, told_sent};
ghost use Rattle.bench_world.specs.Legal.{IsPayload, MayForge, joins_for};
ghost use Rattle.bench_world.specs.Obeying.{IsCutOffBy, IsSettled, ObeyedBy, RefusedOnly, state_at};
ghost use Rattle.bench_world.specs.Opened.{IsServed};
ghost use Rattle.bench_world.specs.World.{FarEnd};

use crate::bench::ObeyFault;
use crate::entry::{Answer, Loss};
use crate::inbox::LinkRange;
use crate::joins::Joins;
use crate::linking::not_found;
use crate::machines::{Machines, own_params};
use air_core::Field;
use bench_devices::{Device, Selection, open_link, select};
use bench_script::{Command, DeviceId};
use link_calls::exchange_all;
use llcp_link::{Counted, Counts};
use llcp_pdu::{LEAST_MIU, general_write};
use nfc_base::{EndCause, Items};
use nfca_poll::Ident;
use snep_core::Server;
use std::alloc::Global;

/// How many payloads one command may have (this project's limit).
const MOST_PAYLOADS: usize = 16;

/// The longest payload (NFC Forum LLCP 1.3: an I PDU with the most information).
const LONGEST_PAYLOAD: usize = 2178;

/// Whether payloads may be sent so: some, not too many, and each of a length that one may have.
fn are_payloads(payloads: &[Items<u8>]) -> bool
    ensures { IsTrue result ↔ MayForge payloads.now }
{
    if payloads.len() < 1 || payloads.len() > MOST_PAYLOADS {
        return false;
    }
    for payload in payloads {
        let size = payload.as_slice().len();
        if size < 1 || size > LONGEST_PAYLOAD {
            return false;
        }
    }
    true
}

/// Opens a link to the selected peer, and sends payloads over it: `Err` where none was opened.
fn send_all(
    alloc: Global,
    field: &mut Field<Device>,
    far: &mut Counted<Server>,
    payloads: &[Items<u8>],
) -> Result<Result<Items<Items<u8>>, EndCause>, EndCause>
    requires stands { (place : ℕ) × (d : Device) × Stands (moment field.old) place d × (is_tag d ≡ false) }
    requires carriable { AreCarriable payloads.now }
    ensures { SendsAll field.old far.old payloads.now field.new far.new result }
{
    let general = general_write(&own_params(LEAST_MIU));
    match open_link(field, &general, far) {
        Ok((initiator, _general)) => {
            let mut initiator = initiator;
            Ok(exchange_all(alloc, field, &mut initiator, far, payloads))
        }
        Err(end) => Err(end.cause),
    }
}

/// What is told of a link that ended.
pub(crate) fn told_cause(cause: EndCause) -> Result<Answer, ObeyFault>
    ensures { result ≡ told_cause cause }
{
    match cause {
        EndCause::FieldLost => Ok(Answer::LinkEnded(Loss::FieldLost)),
        EndCause::SixBad => Ok(Answer::LinkEnded(Loss::SixBad)),
        _ => Err(ObeyFault::Memory),
    }
}

/// What is told of payloads.
fn told_sent(
    sent: Result<Result<Items<Items<u8>>, EndCause>, EndCause>,
) -> Result<Answer, ObeyFault>
    ensures { result ≡ told_sent sent }
{
    match sent {
        Ok(Ok(replies)) => Ok(Answer::Replies(replies)),
        Ok(Err(cause)) => told_cause(cause),
        Err(cause) => told_cause(cause),
    }
}

/// Adds a link that was opened, where there is room.
pub(crate) fn add_opened(links: &mut Vec<LinkRange>, opened: bool, range: LinkRange)
    requires { vec_len links.old < vec_capacity links.old }
    ensures { links.new.items ≡ (if opened then links.old.items ++ range ∷ [] else links.old.items) }
{
    if opened {
        let _ = links.push(range);
    }
}

/// Sends payloads to the selected peer at a place, over a link of their own; room for that is made before.
fn send_to(
    alloc: Global,
    machines: &mut Machines,
    place: usize,
    counts: Counts,
    payloads: &[Items<u8>],
) -> Result<Answer, ObeyFault>
    requires few { length machines.old.peers.links + 1 < 2 ^ 32 }
    requires stands { (d : Device) × Stands (moment machines.old.air) place d × (is_tag d ≡ false) }
    requires served { IsServed (get_or machines.old.peers.numbers place None) (get_or machines.old.ends place None) }
    requires number { place < length machines.old.peers.numbers }
    requires end { place < length machines.old.ends }
    requires carriable { AreCarriable payloads.now }
    ensures { (peer : ℕ) (far : FarEnd) → get_or machines.old.peers.numbers place None ≡ Some peer
        → get_or machines.old.ends place None ≡ Some far
        → SendsTo machines.old machines.new place counts payloads.now peer far result }
{
    let Some(peer) = machines.numbers[place] else {
        unreachable!();
    };
    if machines.links.reserve(1).is_err() {
        return Err(ObeyFault::Memory);
    }
    let Some(end) = machines.ends[place].take() else {
        unreachable!();
    };
    let start = end.as_service().accepted().len();
    let mut far = Counted::new(end, counts);
    let sent = send_all(alloc, &mut machines.field, &mut far, payloads);
    let end = far.into_end();
    let range = LinkRange {
        peer,
        start,
        end: Some(end.as_service().accepted().len()),
    };
    add_opened(&mut machines.links, sent.is_ok(), range);
    machines.ends[place] = Some(end);
    told_sent(sent)
}

/// Selects a device, and sends payloads to it where it is a peer.
fn select_and_send(
    alloc: Global,
    machines: &mut Machines,
    joins: Joins,
    id: &Ident,
    payloads: &[Items<u8>],
) -> Result<Answer, ObeyFault>
    requires settled { IsSettled machines.old }
    requires unlinked { machines.old.link ≡ None }
    requires few { length machines.old.peers.links + 1 < 2 ^ 32 }
    requires payloads { MayForge payloads.now }
    ensures ok { IfOk result (λ a. ObeyedBy (joins_for (Command.Forge id.now payloads.now) joins) machines.old
        machines.new
        (Command.Forge id.now payloads.now) a) }
    ensures cut { OnErr result (ForgeStops (joins_for (Command.Forge id.now payloads.now) joins) (state_at machines.old)
        (Command.Forge id.now payloads.now) machines.new.air.trace (state_at machines.new)) }
    ensures memory { IfErr result (λ e. e ≡ ObeyFault.Memory) }
{
    let device = DeviceId::A(id.copy());
    let Ok(selection) = select(alloc, &mut machines.field, &device) else {
        return Err(ObeyFault::Memory);
    };
    let place = match selection {
        Selection::Missed(fault) => return not_found(fault),
        Selection::Place(place) => place,
    };
    if machines.devices()[place].is_tag() {
        return Ok(Answer::WrongKind);
    }
    send_to(alloc, machines, place, joins.far, payloads)
}

/// Sends payloads to a peer over a link of their own, from a reset on, which ends the open link. Of the numbers of PDUs
/// the peer's replies take theirs.
pub fn forge(
    alloc: Global,
    machines: &mut Machines,
    joins: Joins,
    id: &Ident,
    payloads: &[Items<u8>],
) -> Result<Answer, ObeyFault>
    requires { IsSettled machines.old }
    ensures ok { IfOk result (λ a. ObeyedBy (joins_for (Command.Forge id.now payloads.now) joins) machines.old
        machines.new
        (Command.Forge id.now payloads.now) a) }
    ensures cut { IsErrOf result ObeyFault.Memory → IsCutOffBy (joins_for (Command.Forge id.now payloads.now) joins)
        machines.old machines.new (Command.Forge id.now payloads.now) }
    ensures refused { IsErrOf result ObeyFault.Refused → (machines.new ≡ machines.old) }
    ensures cause { RefusedOnly result machines.old (Command.Forge id.now payloads.now) }
{
    if !are_payloads(payloads) {
        return Err(ObeyFault::Refused);
    }
    if machines.is_full() {
        return Err(ObeyFault::Memory);
    }
    machines.end_link();
    select_and_send(alloc, machines, joins, id, payloads)
}
