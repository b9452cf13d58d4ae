//! What is done with peers: one is placed, under its far end, its server is given values, and its inbox is told.

ghost use Rattle.std.specs.Prelude.{◌≡◌, ◌↔◌, ◌<◌, IsTrue, IfSome, IfOk, OnErr, None};
ghost use Rattle.llcp_pdu.specs.General.{IsMiu};
ghost use Rattle.llcp_conn.specs.Conn.{IsWindow};
ghost use Rattle.snep_core.specs.Server.{IsLimit};
ghost use Rattle.bench_world.specs.Peers.{new_end};
ghost use Rattle.bench_world.specs.Obeying.{Obeyed, IsSettled, RefusedOnly, state_at};
ghost use Rattle.bench_world.specs.Legal.{IsPeerPlaced};
ghost use Rattle.bench_script.specs.DeviceIds.{bytes_of};
ghost use Rattle.bench_devices.specs.Choosing.{StandsAt};

use crate::bench::{ObeyFault, is_free, is_placed};
use crate::entry::Answer;
use crate::linking::are_link_sizes;
use crate::machines::Machines;
use bench_devices::{Device, PeerUpper, peer_params, place_of};
use bench_script::{Command, DeviceId};
use llcp_link::{Llc, LlcFault};
use nfca_poll::{Front, Ident};
use snep_core::{SNEP_NAME, SNEP_SAP, Server};
use std::alloc::{AllocError, Global};

/// Whether there are such peers.
fn are_sizes(lr: u8, miu: u16, rw: u8, limit: u32) -> bool
    ensures { IsTrue result ↔ ((lr < 4) × IsMiu miu × IsWindow rw × IsLimit limit) }
{
    lr < 4 && are_link_sizes(miu, rw) && (1024 <= limit && limit <= 65536)
}

/// The far end of a new peer.
fn far_end(alloc: Global, miu: u16, rw: u8, limit: u32) -> Result<Llc<Server>, AllocError>
    requires size { IsMiu miu }
    requires window { IsWindow rw }
    requires limit { IsLimit limit }
    ensures { IfOk result (λ l. l ≡ new_end miu rw limit) }
{
    let mut end = Llc::new(alloc, peer_params(miu), rw, Server::new(alloc, limit));
    match end.listen(SNEP_NAME, SNEP_SAP) {
        Ok(()) => Ok(end),
        Err(LlcFault::Memory) => Err(AllocError),
        Err(LlcFault::Busy | LlcFault::NameTaken | LlcFault::SapTaken) => unreachable!(),
    }
}

/// Puts a peer into the field.
pub fn place_peer(
    alloc: Global,
    machines: &mut Machines,
    id: &Ident,
    lr: u8,
    miu: u16,
    rw: u8,
    limit: u32,
) -> Result<Answer, ObeyFault>
    requires { IsSettled machines.old }
    ensures ok { IfOk result (λ a. Obeyed machines.old machines.new (Command.PlacePeer id.now lr miu rw limit) a) }
    ensures err { OnErr result (machines.new ≡ machines.old) }
    ensures cause { RefusedOnly result machines.old (Command.PlacePeer id.now lr miu rw limit) }
{
    if !is_free(machines.devices(), id.view()) || !are_sizes(lr, miu, rw, limit) {
        return Err(ObeyFault::Refused);
    }
    let Ok(end) = far_end(alloc, miu, rw, limit) else {
        return Err(ObeyFault::Memory);
    };
    let peer = Device::Peer(Front::new(id.copy(), PeerUpper::new(id, lr, miu)));
    match machines.put_in_peer(peer, end) {
        Ok(()) => Ok(Answer::Done),
        Err(_) => Err(ObeyFault::Memory),
    }
}

/// The longest value that a server gives.
const LONGEST_VALUE: usize = 0xFFFF_FFFF;

/// The place of the peer with an identifier.
fn peer_at(machines: &Machines, id: &DeviceId) -> Option<usize>
    requires { IsSettled machines.now }
    ensures some { IfSome result (λ place. StandsAt (bytes_of id.now) machines.now.air.listeners place) }
    ensures peer { IfSome result (λ _. IsPeerPlaced (state_at machines.now) id.now) }
    ensures none { result ≡ None → IsPeerPlaced (state_at machines.now) id.now → ⊥ }
{
    let bytes = id.bytes();
    let devices = machines.devices();
    if !is_placed(devices, bytes) {
        return None;
    }
    let place = place_of(devices, bytes);
    if devices[place].is_tag() {
        None
    } else {
        Some(place)
    }
}

/// From now on a peer's server gives a key this value.
pub fn offer_value(
    machines: &mut Machines,
    id: &DeviceId,
    key: &[u8],
    value: &[u8],
) -> Result<Answer, ObeyFault>
    requires { IsSettled machines.old }
    ensures ok { IfOk result (λ a. Obeyed machines.old machines.new (Command.Offer id.now key.now value.now) a) }
    ensures err { OnErr result (machines.new ≡ machines.old) }
    ensures cause { RefusedOnly result machines.old (Command.Offer id.now key.now value.now) }
{
    if value.len() > LONGEST_VALUE {
        return Err(ObeyFault::Refused);
    }
    let Some(place) = peer_at(machines, id) else {
        return Err(ObeyFault::Refused);
    };
    match machines.offer(place, key, value) {
        Ok(()) => Ok(Answer::Done),
        Err(_) => Err(ObeyFault::Memory),
    }
}

/// Tells what a peer's server accepted.
pub fn inbox(alloc: Global, machines: &Machines, id: &DeviceId) -> Result<Answer, ObeyFault>
    requires { IsSettled machines.now }
    ensures ok { IfOk result (λ a. Obeyed machines.now machines.now (Command.Inbox id.now) a) }
    ensures cause { RefusedOnly result machines.now (Command.Inbox id.now) }
{
    let Some(place) = peer_at(machines, id) else {
        return Err(ObeyFault::Refused);
    };
    match machines.inbox(alloc, place) {
        Ok(messages) => Ok(Answer::Inbox(messages)),
        Err(_) => Err(ObeyFault::Memory),
    }
}
