//! Frames of a script's own are sent, each once, to whatever hears them.

ghost use Rattle.std.specs.Prelude.{ℕ, ◌≡◌, ◌↔◌, ◌+◌, ◌^◌, ◌≤◌, ◌<◌, ◌++◌, [], ◌∷◌, Some, None, length, get_or, true};
ghost use Rattle.std.specs.Prelude.{false, IsTrue, IfOk, IfErr, OnErr, IsErrOf, vec_len, vec_capacity};
ghost use Rattle.air_core.specs.Turn.{moment};
ghost use Rattle.bench_devices.specs.AnyFrame.{peer_place, peers_in};
ghost use Rattle.bench_devices.specs.Device.{is_tag};
ghost use Rattle.bench_devices.specs.Phases.{Stands};
ghost use Rattle.bench_world.specs.Legal.{MayRaw, joins_for};
ghost use Rattle.bench_world.specs.Obeying.{IsCutOffBy, IsSettled, ObeyedBy, RefusedOnly, state_at};
ghost use Rattle.bench_world.specs.Opened.{IsServed};
ghost use Rattle.bench_world.specs.private.RawAt.{RawAlone, RawBeside, RawSendsAll, RawSendsTo, RawStops, SendsEach};
ghost use Rattle.bench_world.specs.private.RawAt.{told_each, told_raw};
ghost use Rattle.bench_world.specs.Rawing.{raw_heard};
ghost use Rattle.bench_world.specs.World.{FarEnd};

use crate::bench::ObeyFault;
use crate::entry::{Answer, RawHeard};
use crate::forging::{add_opened, told_cause};
use crate::inbox::LinkRange;
use crate::joins::Joins;
use crate::linking::not_found;
use crate::machines::{Machines, own_params};
use air_core::{AirFault, Field};
use bench_devices::{Device, Selection, open_link, select};
use bench_script::{Command, DeviceId};
use llcp_link::{Counted, Counts};
use llcp_pdu::{LEAST_MIU, general_write};
use nfc_base::{Answerer, EndCause, Frame, Heard, Items, Mute};
use snep_core::Server;
use std::alloc::Global;

/// How many frames one command may have (this project's limit).
const MOST_FRAMES: usize = 16;

/// How many peers are placed.
pub(crate) fn count_peers(devices: &[Device]) -> usize
    ensures { result ≡ peers_in devices.now }
{
    let mut count = 0;
    for device in devices {
        if !device.is_tag() {
            count += 1;
        }
    }
    count
}

/// At which place the first peer stands.
fn place_of_peer(devices: &[Device]) -> Option<usize>
    ensures { result ≡ peer_place devices.now }
{
    for place in 0..devices.len() {
        if !devices[place].is_tag() {
            return Some(place);
        }
    }
    None
}

/// Whether frames may be sent so: some, not too many, each of the device's technology, and to one peer at most.
fn may_send(machines: &Machines, id: &DeviceId, frames: &[Frame]) -> bool
    requires { IsSettled machines.now }
    ensures { IsTrue result ↔ MayRaw (state_at machines.now) id.now frames.now }
{
    if frames.len() < 1 || frames.len() > MOST_FRAMES || count_peers(machines.devices()) > 1 {
        return false;
    }
    for frame in frames {
        if frame.tech() != id.tech() {
            return false;
        }
    }
    true
}

/// What is told of a frame, by what was heard of its turn.
fn raw_heard(heard: Heard) -> RawHeard
    ensures { result ≡ raw_heard heard }
{
    match heard {
        Heard::Whole(frame) => RawHeard::Whole(frame),
        Heard::Collided(_) => RawHeard::Clash,
        Heard::Damaged => RawHeard::Damaged,
        Heard::Silent => RawHeard::Silent,
    }
}

/// Adds what was heard of a frame, where there is room.
fn add_heard(told: &mut Vec<RawHeard>, heard: RawHeard)
    requires { vec_len told.old < vec_capacity told.old }
    ensures { told.new.items ≡ told.old.items ++ heard ∷ [] }
{
    let _ = told.push(heard);
}

/// Sends each frame once, in a lit field; room for what is heard of it is made before.
fn send_each<A: Answerer>(
    alloc: Global,
    field: &mut Field<Device>,
    far: &mut A,
    frames: &[Frame],
) -> Result<Items<RawHeard>, EndCause>
    requires { field.old.lit ≡ true }
    ensures { SendsEach A.restarts A.steps A.stops A.is_stuck field.old far.old frames.now field.new far.new result }
{
    let mut told = Vec::new(alloc);
    for frame in frames {
        if told.reserve(1).is_err() {
            return Err(EndCause::Memory);
        }
        match field.transmit(frame, far) {
            Ok(heard) => add_heard(&mut told, raw_heard(heard)),
            Err(AirFault::FieldLost) => return Err(EndCause::FieldLost),
            Err(AirFault::Memory) => return Err(EndCause::Memory),
        }
    }
    Ok(Items::new(told))
}

/// Activates the selected peer, and sends the frames: `Err` where it wasn't activated.
fn send_linked(
    alloc: Global,
    field: &mut Field<Device>,
    far: &mut Counted<Server>,
    frames: &[Frame],
) -> Result<Result<Items<RawHeard>, EndCause>, EndCause>
    requires stands { (place : ℕ) × (d : Device) × Stands (moment field.old) place d × (is_tag d ≡ false) }
    ensures { RawSendsAll field.old far.old frames.now field.new far.new result }
{
    let general = general_write(&own_params(LEAST_MIU));
    match open_link(field, &general, far) {
        Ok(_opened) => Ok(send_each(alloc, field, far, frames)),
        Err(end) => Err(end.cause),
    }
}

/// What is told of frames.
fn told_each(came: Result<Items<RawHeard>, EndCause>) -> Result<Answer, ObeyFault>
    ensures { result ≡ told_each came }
{
    match came {
        Ok(heard) => Ok(Answer::Heard(heard)),
        Err(EndCause::FieldLost) => Ok(Answer::FieldLost),
        Err(_) => Err(ObeyFault::Memory),
    }
}

/// What is told of frames to a peer.
fn told_raw(sent: Result<Result<Items<RawHeard>, EndCause>, EndCause>) -> Result<Answer, ObeyFault>
    ensures { result ≡ told_raw sent }
{
    match sent {
        Ok(came) => told_each(came),
        Err(cause) => told_cause(cause),
    }
}

/// Sends frames to the selected peer at a place, over a link of their own; room for that is made before.
fn send_to_peer(
    alloc: Global,
    machines: &mut Machines,
    place: usize,
    counts: Counts,
    frames: &[Frame],
) -> Result<Answer, ObeyFault>
    requires few { length machines.old.peers.links + 1 < 2 ^ 32 }
    requires stands { (d : Device) × Stands (moment machines.old.air) place d × (is_tag d ≡ false) }
    requires served { IsServed (get_or machines.old.peers.numbers place None) (get_or machines.old.ends place None) }
    requires number { place < length machines.old.peers.numbers }
    requires end { place < length machines.old.ends }
    ensures { (peer : ℕ) (far : FarEnd) → get_or machines.old.peers.numbers place None ≡ Some peer
        → get_or machines.old.ends place None ≡ Some far
        → RawSendsTo machines.old machines.new place counts frames.now peer far result }
{
    let Some(peer) = machines.numbers[place] else {
        unreachable!();
    };
    if machines.links.reserve(1).is_err() {
        return Err(ObeyFault::Memory);
    }
    let Some(end) = machines.ends[place].take() else {
        unreachable!();
    };
    let start = end.as_service().accepted().len();
    let mut far = Counted::new(end, counts);
    let sent = send_linked(alloc, &mut machines.field, &mut far, frames);
    let end = far.into_end();
    let range = LinkRange {
        peer,
        start,
        end: Some(end.as_service().accepted().len()),
    };
    add_opened(&mut machines.links, sent.is_ok(), range);
    machines.ends[place] = Some(end);
    told_raw(sent)
}

/// Sends frames to a tag, beside the peer at a place.
fn send_beside(
    alloc: Global,
    machines: &mut Machines,
    place: usize,
    counts: Counts,
    frames: &[Frame],
) -> Result<Answer, ObeyFault>
    requires lit { machines.old.air.lit ≡ true }
    requires served { IsServed (get_or machines.old.peers.numbers place None) (get_or machines.old.ends place None) }
    requires end { place < length machines.old.ends }
    ensures { (far : FarEnd) → get_or machines.old.ends place None ≡ Some far
        → RawBeside machines.old machines.new place counts frames.now far result }
{
    let Some(end) = machines.ends[place].take() else {
        unreachable!();
    };
    let mut far = Counted::new(end, counts);
    let came = send_each(alloc, &mut machines.field, &mut far, frames);
    machines.ends[place] = Some(far.into_end());
    told_each(came)
}

/// Sends frames to a tag where no peer is placed.
fn send_alone(alloc: Global, machines: &mut Machines, frames: &[Frame]) -> Result<Answer, ObeyFault>
    requires lit { machines.old.air.lit ≡ true }
    ensures { RawAlone machines.old machines.new frames.now result }
{
    let mut far = Mute;
    told_each(send_each(alloc, &mut machines.field, &mut far, frames))
}

/// Sends frames to the selected tag: over the end of the peer, where one is placed.
fn send_to_tag(
    alloc: Global,
    machines: &mut Machines,
    counts: Counts,
    frames: &[Frame],
) -> Result<Answer, ObeyFault>
    requires lit { machines.old.air.lit ≡ true }
    requires places { (place : ℕ) → peer_place machines.old.air.listeners ≡ Some place
        → IsServed (get_or machines.old.peers.numbers place None) (get_or machines.old.ends place None)
        × (place < length machines.old.ends) }
    ensures none { peer_place machines.old.air.listeners ≡ None → RawAlone machines.old machines.new frames.now result }
    ensures some { (place : ℕ) (far : FarEnd) → peer_place machines.old.air.listeners ≡ Some place
        → get_or machines.old.ends place None ≡ Some far
        → RawBeside machines.old machines.new place counts frames.now far result }
{
    match place_of_peer(machines.devices()) {
        Some(place) => send_beside(alloc, machines, place, counts, frames),
        None => send_alone(alloc, machines, frames),
    }
}

/// Selects a device, and sends frames.
fn select_and_send(
    alloc: Global,
    machines: &mut Machines,
    joins: Joins,
    id: &DeviceId,
    frames: &[Frame],
) -> Result<Answer, ObeyFault>
    requires settled { IsSettled machines.old }
    requires unlinked { machines.old.link ≡ None }
    requires few { length machines.old.peers.links + 1 < 2 ^ 32 }
    requires frames { MayRaw (state_at machines.old) id.now frames.now }
    ensures ok { IfOk result (λ a. ObeyedBy (joins_for (Command.Raw id.now frames.now) joins) machines.old machines.new
        (Command.Raw id.now frames.now) a) }
    ensures cut { OnErr result (RawStops (joins_for (Command.Raw id.now frames.now) joins) (state_at machines.old)
        (Command.Raw id.now frames.now) machines.new.air.trace (state_at machines.new)) }
    ensures memory { IfErr result (λ e. e ≡ ObeyFault.Memory) }
{
    let Ok(selection) = select(alloc, &mut machines.field, id) else {
        return Err(ObeyFault::Memory);
    };
    let place = match selection {
        Selection::Missed(fault) => return not_found(fault),
        Selection::Place(place) => place,
    };
    if machines.devices()[place].is_tag() {
        send_to_tag(alloc, machines, joins.far, frames)
    } else {
        send_to_peer(alloc, machines, place, joins.far, frames)
    }
}

/// Sends frames as they are, from a reset on, which ends the open link: a device is selected, and a peer activated, and
/// then each frame is sent once, to whatever hears it. Of the numbers of PDUs a peer's replies take theirs.
pub fn raw(
    alloc: Global,
    machines: &mut Machines,
    joins: Joins,
    id: &DeviceId,
    frames: &[Frame],
) -> Result<Answer, ObeyFault>
    requires { IsSettled machines.old }
    ensures ok { IfOk result (λ a. ObeyedBy (joins_for (Command.Raw id.now frames.now) joins) machines.old machines.new
        (Command.Raw id.now frames.now) a) }
    ensures cut { IsErrOf result ObeyFault.Memory → IsCutOffBy (joins_for (Command.Raw id.now frames.now) joins)
        machines.old machines.new (Command.Raw id.now frames.now) }
    ensures refused { IsErrOf result ObeyFault.Refused → (machines.new ≡ machines.old) }
    ensures cause { RefusedOnly result machines.old (Command.Raw id.now frames.now) }
{
    if !may_send(machines, id, frames) {
        return Err(ObeyFault::Refused);
    }
    if machines.is_full() {
        return Err(ObeyFault::Memory);
    }
    machines.end_link();
    select_and_send(alloc, machines, joins, id, frames)
}
