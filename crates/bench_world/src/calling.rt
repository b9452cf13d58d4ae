//! The commands on the open link: its client puts a message to the server of the link's peer, gets a value of it, or
//! asks where a service is; and the link is closed. Each takes how many PDUs stand in the payloads of both ends.

ghost use Rattle.std.specs.Prelude.{false, ◌≡◌, ◌↔◌, ◌≤◌, IsTrue, ◌<◌, length, None, Some, IfOk, IfSome, IsErr};
ghost use Rattle.std.specs.Prelude.{IsErrOf, MatchOption, OnErr};
ghost use Rattle.std.specs.Char.{is_ascii_graphic};
ghost use Rattle.std.specs.List.{list_all};
ghost use Rattle.link_calls.specs.Asking.{MayAsk, asking_of};
ghost use Rattle.link_calls.specs.AtOnce.{IsAtRest};
ghost use Rattle.bench_script.specs.Messages.{message_of};
ghost use Rattle.bench_script.specs.Script.{SpellsName, longest_message};
ghost use Rattle.bench_world.specs.Asked.{asked_on_link};
ghost use Rattle.bench_world.specs.Legal.{Accepts};
ghost use Rattle.bench_world.specs.private.LinkTaken.{TakesLink, put_back, put_down};
ghost use Rattle.bench_world.specs.Obeying.{IsSettled, ObeyedBy, IsCutOffBy, RefusedOnly, state_at};

use crate::bench::ObeyFault;
use crate::entry::Answer;
use crate::joins::Joins;
use crate::machines::{Link, Machines, accepted_above, end_last, place_numbered};
use crate::told::{answer_to, fault_told, room_for};
use bench_script::{Command, Msg};
use dep_link::Initiator;
use link_calls::{LinkRequest, call_on};
use llcp_link::{Counted, Counts};
use snep_core::{Client, Server};
use std::alloc::Global;

/// The longest message (NFC Forum SNEP 1.0 has no limit; this one is this project's own).
pub(crate) const LONGEST_MESSAGE: usize = 65536;

/// The longest name of a service (this project's limit).
const LONGEST_NAME: usize = 64;

/// The open link and its peer's end, which stands at that place, taken out of the machines for a command.
#[derive(Drop)]
pub(crate) struct OnLink {
    pub(crate) place: usize,
    pub(crate) peer: u64,
    pub(crate) initiator: Initiator,
    pub(crate) client: Client,
    pub(crate) far: Counted<Server>,
}

/// Takes the open link, where there is one, and its peer's end, of which each payload has so many PDUs.
pub(crate) fn take_link(machines: &mut Machines, counts: Counts) -> Option<OnLink>
    requires { IsSettled machines.old }
    ensures none { result ≡ None → (machines.old.link ≡ None) × (machines.new ≡ machines.old) }
    ensures some { IfSome result (λ on. TakesLink machines.old on.place
        (record { peer = on.peer; initiator = on.initiator; client = on.client.llc; slots = on.client.slots }) on.far.end machines.new) }
    ensures going { IfSome result (λ on. on.client.spent ≡ false) }
    ensures rest { IfSome result (λ on. IsAtRest on.client.slots) }
    ensures counts { IfSome result (λ on. on.far.numbers ≡ counts) }
{
    let Link {
        peer,
        initiator,
        client,
    } = machines.link.take()?;
    let Some(place) = place_numbered(&machines.numbers, peer) else {
        unreachable!()
    };
    let Some(end) = machines.ends[place].take() else {
        unreachable!()
    };
    Some(OnLink {
        place,
        peer,
        initiator,
        client,
        far: Counted::new(end, counts),
    })
}

/// Puts the link and its peer's end back: the link stays open.
pub(crate) fn put_back(machines: &mut Machines, on: OnLink)
    requires place { on.place < length machines.old.ends }
    requires going { on.client.spent ≡ false }
    requires rest { IsAtRest on.client.slots }
    ensures { machines.new ≡ put_back machines.old on.place on.far.end
        (record { peer = on.peer; initiator = on.initiator; client = on.client.llc; slots = on.client.slots }) }
{
    let OnLink {
        place,
        peer,
        initiator,
        client,
        far,
    } = on;
    machines.ends[place] = Some(far.into_end());
    machines.link = Some(Link {
        peer,
        initiator,
        client,
    });
}

/// Puts the peer's end back: the link is over, and its range goes to the present end of what the peer's server
/// accepted.
pub(crate) fn put_down(machines: &mut Machines, on: OnLink)
    requires { on.place < length machines.old.ends }
    ensures { machines.new ≡ put_down machines.old on.place on.far.end }
{
    let OnLink { place, far, .. } = on;
    machines.ends[place] = Some(far.into_end());
    let end = accepted_above(&machines.ends[place]);
    end_last(&mut machines.links, end);
}

/// Asks something on the open link, where there is one: the link stays open behind a call that came to its end.
pub(crate) fn talk(
    alloc: Global,
    machines: &mut Machines,
    joins: Joins,
    request: &LinkRequest<'_>,
) -> Result<Answer, ObeyFault>
    requires settled { IsSettled machines.old }
    requires may { MayAsk request.now }
    ensures ok { IfOk result (λ a. (c : Command) → asked_on_link c ≡ Some (asking_of request.now)
        → Accepts (state_at machines.old) c → ObeyedBy joins machines.old machines.new c a) }
    ensures cut { IsErr result → (c : Command) → asked_on_link c ≡ Some (asking_of request.now)
        → Accepts (state_at machines.old) c → IsCutOffBy joins machines.old machines.new c }
    ensures never { IsErrOf result ObeyFault.Refused → ⊥ }
{
    let Ok(done) = room_for(alloc, request) else {
        return Err(ObeyFault::Memory);
    };
    let Some(mut on) = take_link(machines, joins.far) else {
        return Ok(Answer::NoLink);
    };
    match call_on(
        &mut machines.field,
        &mut on.initiator,
        &mut on.client,
        &mut on.far,
        joins.own,
        request,
    ) {
        Err(fault) => {
            put_down(machines, on);
            fault_told(fault)
        }
        Ok(ending) => {
            if request.closes() {
                put_down(machines, on);
                return Ok(Answer::Unlinked);
            }
            let answer = answer_to(request, ending, &on.client, done);
            put_back(machines, on);
            Ok(answer)
        }
    }
}

/// Whether a message is longer than one may be.
pub(crate) fn is_too_long(message: &Msg) -> bool
    ensures { IsTrue result ↔ (longest_message < length (message_of message.now)) }
{
    match message {
        Msg::Hex(bytes) => bytes.as_slice().len() > LONGEST_MESSAGE,
        Msg::Gen { count, .. } => *count as usize > LONGEST_MESSAGE,
    }
}

/// Puts a message to the server of the link's peer.
pub fn put(
    alloc: Global,
    machines: &mut Machines,
    joins: Joins,
    message: &Msg,
) -> Result<Answer, ObeyFault>
    requires { IsSettled machines.old }
    ensures ok { IfOk result (λ a. ObeyedBy joins machines.old machines.new (Command.Put message.now) a) }
    ensures refused { IsErrOf result ObeyFault.Refused → (machines.new ≡ machines.old) }
    ensures cause { RefusedOnly result machines.old (Command.Put message.now) }
    ensures cut { IsErrOf result ObeyFault.Memory → IsCutOffBy joins machines.old machines.new
        (Command.Put message.now) }
{
    if is_too_long(message) {
        return Err(ObeyFault::Refused);
    }
    let Ok(bytes) = message.bytes(alloc) else {
        return Err(ObeyFault::Memory);
    };
    talk(alloc, machines, joins, &LinkRequest::Put(&bytes))
}

/// Gets a value of at most so many bytes from the server of the link's peer.
pub fn get(
    alloc: Global,
    machines: &mut Machines,
    joins: Joins,
    acceptable: u32,
    key: &[u8],
) -> Result<Answer, ObeyFault>
    requires { IsSettled machines.old }
    ensures ok { IfOk result (λ a. ObeyedBy joins machines.old machines.new (Command.Get acceptable key.now) a) }
    ensures refused { IsErrOf result ObeyFault.Refused → (machines.new ≡ machines.old) }
    ensures cause { RefusedOnly result machines.old (Command.Get acceptable key.now) }
    ensures cut { IsErrOf result ObeyFault.Memory → IsCutOffBy joins machines.old machines.new
        (Command.Get acceptable key.now) }
{
    if acceptable as usize > LONGEST_MESSAGE || key.len() > LONGEST_MESSAGE {
        return Err(ObeyFault::Refused);
    }
    let request = LinkRequest::Get {
        slot: 0,
        most: acceptable,
        key,
    };
    talk(alloc, machines, joins, &request)
}

/// Whether these are characters from 21h to 7Eh alone.
fn is_graphic(name: &[u8]) -> bool
    ensures { result ≡ list_all is_ascii_graphic name.now }
{
    name.iter().all(|b| b.is_ascii_graphic())
}

/// The name of a service that these bytes are, if they are one.
#[tactic(auto, using(crate::proofs::lines::Names::name_utf8))]
fn service_name(bytes: &[u8]) -> Option<&str>
    ensures { MatchOption result (SpellsName bytes.now bytes.now → ⊥)
        (λ name. (name.now ≡ bytes.now) × SpellsName bytes.now bytes.now) }
{
    if bytes.is_empty() || bytes.len() > LONGEST_NAME || !is_graphic(bytes) {
        return None;
    }
    match str::from_utf8(bytes) {
        Ok(name) => Some(name),
        Err(_) => None,
    }
}

/// Looks up at which SAP the link's peer has the service of this name.
pub fn lookup(
    alloc: Global,
    machines: &mut Machines,
    joins: Joins,
    name: &[u8],
) -> Result<Answer, ObeyFault>
    requires { IsSettled machines.old }
    ensures ok { IfOk result (λ a. ObeyedBy joins machines.old machines.new (Command.Lookup name.now) a) }
    ensures refused { IsErrOf result ObeyFault.Refused → (machines.new ≡ machines.old) }
    ensures cause { RefusedOnly result machines.old (Command.Lookup name.now) }
    ensures cut { IsErrOf result ObeyFault.Memory → IsCutOffBy joins machines.old machines.new
        (Command.Lookup name.now) }
{
    let Some(service) = service_name(name) else {
        return Err(ObeyFault::Refused);
    };
    talk(alloc, machines, joins, &LinkRequest::Lookup(service))
}

/// Closes the open link.
pub fn unlink(alloc: Global, machines: &mut Machines, joins: Joins) -> Result<Answer, ObeyFault>
    requires { IsSettled machines.old }
    ensures ok { IfOk result (λ a. ObeyedBy joins machines.old machines.new Command.Unlink a) }
    ensures cut { OnErr result (IsCutOffBy joins machines.old machines.new Command.Unlink) }
    ensures never { IsErrOf result ObeyFault.Refused → ⊥ }
{
    talk(alloc, machines, joins, &LinkRequest::Close)
}
