//! The far end of a link of LLCP with a SNEP server, as a function of the payloads that came on the link.

ghost use Rattle.std.specs.Prelude.{◌≡◌, ◌↔◌, IsTrue, List, ℕ, IfErr, IfOk, OnOk};
ghost use Rattle.snep_core.specs.Session.{Offer};
ghost use Rattle.zevlodek_c.specs.Peer.{AreOffers, IsPayloadLog, IsPeer, IsPeerAsked, PeerTells};
ghost use Rattle.zevlodek_c.specs.Peer.{SpellsOffers, SpellsPayloads, answered_all, begun_end, table_with, unasked};
ghost use Rattle.zevlodek_c.specs.Peer.{count_shown, is_idle, message_shown, reply_shown, source_shown};
ghost use Rattle.zevlodek_c.specs.Replaying.{IsRefusal, IsReplay, fault_code};
ghost use Rattle.zevlodek_c.specs.Showing.{of_bool};

use crate::codes::{BAD_ARGUMENT, BAD_LOG, DONE, NO_MEMORY};
use crate::payloads::{are_offers, is_payload_log, offer_of, payload_of};
use crate::showing::{Told, show};
use llcp_link::{Llc, LlcFault};
use llcp_pdu::LinkParams;
use nfc_base::Answerer;
use snep_core::{SNEP_NAME, SNEP_SAP, Server};
use std::alloc::{AllocError, Global};
use std::marker::Model;

/// The sizes of a far end.
#[repr(C)]
pub struct Peer {
    /// The longest message that its server takes: 1,024 to 65,536 bytes.
    pub limit: u32,
    /// The longest information of a PDU that it takes: 128 to 2,175 bytes.
    pub miu: u16,
    /// How many PDUs of a connection it takes before it acknowledges one: 1 to 15.
    pub window: u8,
}

/// LLCP 1.3, and the services of link management, service discovery and SNEP: what an end itself makes nothing of.
const VERSION: u8 = 0x13;

const SERVICES: u16 = 0x13;

/// Why there is no end behind some payloads.
#[derive(Clone, Copy, Debug, Drop)]
enum PeerFault {
    Argument,
    Log,
    Memory,
}

impl PeerFault {
    fn code(self) -> i32
        ensures { result ≡ fault_code self }
    {
        match self {
            PeerFault::Argument => BAD_ARGUMENT,
            PeerFault::Log => BAD_LOG,
            PeerFault::Memory => NO_MEMORY,
        }
    }
}

/// An end behind some payloads, and its reply to the last.
#[derive(Drop)]
struct Replayed {
    end: Llc<Server>,
    reply: Vec<u8>,
}

impl Model for Replayed {
    ghost use Rattle.zevlodek_c.specs.Peer.{Answered};

    ghost Value = { Answered };

    ghost view = { λ r. record { end = r.end; reply = r.reply.items } };
}

/// Whether there is a far end of these sizes.
fn is_peer(peer: &Peer) -> bool
    ensures { IsTrue result ↔ IsPeer peer.now }
{
    let miu = 128 <= peer.miu && peer.miu <= 2175;
    let window = 1 <= peer.window && peer.window <= 15;
    miu && window && (1024 <= peer.limit && peer.limit <= 65536)
}

/// Gives each key of some offers its value.
fn offer_all(server: &mut Server, offers: &[u8]) -> Result<(), AllocError>
    requires { AreOffers offers.now }
    ensures { OnOk result ((os : List Offer) → SpellsOffers os offers.now
        → server.new ≡ record server.old { table = table_with server.old.table os }) }
{
    let mut rest = offers;
    while !rest.is_empty() {
        let Some((key, value, left)) = offer_of(rest) else {
            unreachable!()
        };
        server.offer(key, value)?;
        rest = left;
    }
    Ok(())
}

/// The far end as a link begins.
fn begin(
    alloc: Global,
    peer: &Peer,
    offers: &[u8],
    general: &[u8],
) -> Result<Llc<Server>, AllocError>
    requires { IsPeerAsked peer.now offers.now }
    ensures { IfOk result (λ l. (os : List Offer) → SpellsOffers os offers.now
        → l ≡ begun_end peer.now os general.now) }
{
    let mut server = Server::new(alloc, peer.limit);
    offer_all(&mut server, offers)?;
    let params = LinkParams {
        version: VERSION,
        miu: peer.miu,
        wks: SERVICES,
    };
    let mut end = Llc::new(alloc, params, peer.window, server);
    match end.listen(SNEP_NAME, SNEP_SAP) {
        Ok(()) => {}
        Err(LlcFault::Memory) => return Err(AllocError),
        Err(LlcFault::Busy | LlcFault::NameTaken | LlcFault::SapTaken) => unreachable!(),
    }
    end.restart(general);
    Ok(end)
}

/// Lets an end answer each payload of a log.
fn answer_all(alloc: Global, mut end: Llc<Server>, log: &[u8]) -> Result<Replayed, AllocError>
    requires { IsPayloadLog log.now }
    ensures { IfOk result (λ r. (payloads : List (List ℕ)) → SpellsPayloads payloads log.now
        → r ≡ answered_all (unasked end) payloads) }
{
    let mut reply = Vec::new(alloc);
    let mut rest = log;
    while !rest.is_empty() {
        let Some((payload, left)) = payload_of(rest) else {
            unreachable!()
        };
        end.answer(alloc, payload, &mut reply)?;
        rest = left;
    }
    Ok(Replayed { end, reply })
}

/// The far end behind the payloads of a log.
fn replay(
    alloc: Global,
    peer: &Peer,
    offers: &[u8],
    general: &[u8],
    log: &[u8],
) -> Result<Replayed, PeerFault>
    ensures ok { IfOk result (IsReplay peer.now offers.now general.now log.now) }
    ensures err { IfErr result (IsRefusal peer.now offers.now log.now) }
{
    if !is_peer(peer) || !are_offers(offers) {
        return Err(PeerFault::Argument);
    }
    if !is_payload_log(log) {
        return Err(PeerFault::Log);
    }
    let Ok(end) = begin(alloc, peer, offers, general) else {
        return Err(PeerFault::Memory);
    };
    answer_all(alloc, end, log).map_err(|_| PeerFault::Memory)
}

/// Whether a new log may take the place of this end's, as a number.
fn anew(end: &Llc<Server>) -> u8
    ensures { result ≡ of_bool (is_idle end.now) }
{
    end.is_idle() as u8
}

/// Tells the reply to the last payload of a log: the answer of a far end that got them all, from a new link on.
#[unsafe(no_mangle)]
pub extern "C" fn zev_peer_reply(
    alloc: Global,
    peer: &Peer,
    offers: &[u8],
    general: &[u8],
    log: &[u8],
    out: &mut [u8],
    told: &mut Told,
) -> i32
    ensures { PeerTells reply_shown peer.now offers.now general.now log.now out.old told.old
        (record { answer = result; out = out.new; told = told.new }) }
{
    match replay(alloc, peer, offers, general, log) {
        Err(fault) => fault.code(),
        Ok(replayed) => {
            told.anew = anew(&replayed.end);
            show(DONE, replayed.reply.as_slice(), out, told)
        }
    }
}

/// Tells how many messages the far end accepted.
#[unsafe(no_mangle)]
pub extern "C" fn zev_peer_count(
    alloc: Global,
    peer: &Peer,
    offers: &[u8],
    general: &[u8],
    log: &[u8],
    told: &mut Told,
) -> i32
    ensures { (out : List ℕ) → PeerTells count_shown peer.now offers.now general.now log.now out told.old
        (record { answer = result; out = out; told = told.new }) }
{
    match replay(alloc, peer, offers, general, log) {
        Err(fault) => fault.code(),
        Ok(replayed) => {
            told.length = replayed.end.as_service().accepted().len();
            DONE
        }
    }
}

/// Tells a message that the far end accepted, counted from 0.
#[unsafe(no_mangle)]
pub extern "C" fn zev_peer_message(
    alloc: Global,
    peer: &Peer,
    offers: &[u8],
    general: &[u8],
    log: &[u8],
    index: usize,
    out: &mut [u8],
    told: &mut Told,
) -> i32
    ensures { PeerTells (message_shown index) peer.now offers.now general.now log.now out.old told.old
        (record { answer = result; out = out.new; told = told.new }) }
{
    match replay(alloc, peer, offers, general, log) {
        Err(fault) => fault.code(),
        Ok(replayed) => {
            let accepted = replayed.end.as_service().accepted();
            if index < accepted.len() {
                show(DONE, accepted[index].as_slice(), out, told)
            } else {
                BAD_ARGUMENT
            }
        }
    }
}

/// Tells from which SAP of the other end such a message came.
#[unsafe(no_mangle)]
pub extern "C" fn zev_peer_source(
    alloc: Global,
    peer: &Peer,
    offers: &[u8],
    general: &[u8],
    log: &[u8],
    index: usize,
    told: &mut Told,
) -> i32
    ensures { (out : List ℕ) → PeerTells (source_shown index) peer.now offers.now general.now log.now out told.old
        (record { answer = result; out = out; told = told.new }) }
{
    match replay(alloc, peer, offers, general, log) {
        Err(fault) => fault.code(),
        Ok(replayed) => {
            let sources = replayed.end.as_service().sources();
            if index < sources.len() {
                told.code = sources[index] as u16;
                DONE
            } else {
                BAD_ARGUMENT
            }
        }
    }
}
