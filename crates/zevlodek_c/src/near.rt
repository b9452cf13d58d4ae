//! The near end of a link of LLCP, a client of the other end's SNEP server, as a function of its calls and of the
//! replies that came.

ghost use Rattle.std.specs.Prelude.{◌≡◌, ◌↔◌, ◌≤◌, ◌<◌, IsTrue, false, true, None, length, IfSome, OnOk};
ghost use Rattle.snep_core.specs.Talk.{Finds, Gets, Puts, begins, begins_from, closes, sap_of_slot};
ghost use Rattle.zevlodek_c.specs.Near.{IsNear, NearTells, call_of, came_shown, does_on, get_of, is_name, near_end};
ghost use Rattle.zevlodek_c.specs.Near.{snep_fault};
ghost use Rattle.zevlodek_c.specs.NearReplaying.{IsFresh, IsGoing, IsNearReplay, IsObeyed, Obeys};
ghost use Rattle.zevlodek_c.specs.NearReplaying.{failed_by, stand_of, stand_shown, stopped_at};

use crate::codes::{BAD_ARGUMENT, BAD_LOG, DONE, NO_MEMORY, SEND, SILENT};
use crate::entries::entry_of;
use crate::far::{LogFar, Straight};
use crate::showing::{Told, show};
use llcp_link::{Counts, Llc};
use llcp_pdu::LinkParams;
use nfc_base::{Answerer, Items};
use snep_core::{Client, NoService, SnepFault};
use std::alloc::Global;
use std::str;

/// The sizes of a near end.
#[repr(C)]
pub struct Near {
    /// The longest information of a PDU that it takes: 128 to 2,175 bytes.
    pub miu: u16,
    /// How many PDUs of a connection it takes before it acknowledges one: 1 to 15.
    pub window: u8,
}

/// The kinds of calls in a log.
const PUT: u8 = 5;

const GET: u8 = 6;

const LOOKUP: u8 = 7;

const CLOSE: u8 = 8;

/// How many slots a client has.
const SLOTS: u8 = 8;

/// The longest name of a service.
const LONGEST_NAME: usize = 64;

/// LLCP 1.3, and the services of link management, service discovery and SNEP: what an end itself makes nothing of.
const VERSION: u8 = 0x13;

const SERVICES: u16 = 0x13;

/// What a call came to.
#[derive(Debug, Drop)]
pub enum CameOut {
    Fine,
    Value(Items<u8>),
    AtSap(u8),
    Failed(SnepFault),
}

impl CameOut {
    /// What a call came to that failed by this, where neither the link nor memory ended it.
    fn failed(fault: SnepFault) -> Result<CameOut, SnepFault>
        ensures { result ≡ failed_by fault }
    {
        match fault {
            SnepFault::LinkEnded(_) | SnepFault::Memory | SnepFault::SlotBusy => Err(fault),
            _ => Ok(CameOut::Failed(fault)),
        }
    }
}

/// Puts a message.
#[tactic(auto, using(crate::proofs::Nears::ended))]
fn put(
    alloc: Global,
    client: &mut Client,
    far: &mut LogFar<'_>,
    message: &[u8],
) -> Result<CameOut, SnepFault>
    requires going { IsGoing client.old }
    requires fresh { IsFresh far.old }
    requires fits { length message.now ≤ 65536 }
    ensures does { Obeys (begins client.old.llc (Puts message.now)) far.old client.new.llc far.new result }
    ensures going { OnOk result (IsGoing client.new) }
{
    let mut link = Straight::new(alloc);
    match client.put(&mut link, far, Counts::most(alloc), message) {
        Ok(()) => Ok(CameOut::Fine),
        Err(fault) => CameOut::failed(fault),
    }
}

/// Asks for the value of a key.
#[tactic(auto, using(crate::proofs::Nears::ended))]
fn get(
    alloc: Global,
    client: &mut Client,
    far: &mut LogFar<'_>,
    slot: u8,
    most: u32,
    key: &[u8],
) -> Result<CameOut, SnepFault>
    requires going { IsGoing client.old }
    requires fresh { IsFresh far.old }
    requires slot { slot < 8 }
    requires fits { length key.now ≤ 65536 }
    ensures does { Obeys (begins_from client.old.llc (sap_of_slot slot) (Gets most key.now)) far.old
        client.new.llc far.new result }
    ensures going { OnOk result (IsGoing client.new) }
{
    let mut link = Straight::new(alloc);
    match client.get_on(&mut link, far, Counts::most(alloc), slot, most, key) {
        Ok(value) => Ok(CameOut::Value(Items::new(value))),
        Err(fault) => CameOut::failed(fault),
    }
}

/// Looks a name up.
#[tactic(auto, using(crate::proofs::Nears::ended))]
fn lookup(
    alloc: Global,
    client: &mut Client,
    far: &mut LogFar<'_>,
    name: &str,
) -> Result<CameOut, SnepFault>
    requires going { IsGoing client.old }
    requires fresh { IsFresh far.old }
    requires fits { length name.now ≤ 64 }
    ensures does { Obeys (begins client.old.llc (Finds name.now)) far.old client.new.llc far.new result }
    ensures going { OnOk result (IsGoing client.new) }
{
    let mut link = Straight::new(alloc);
    match client.lookup(&mut link, far, Counts::most(alloc), name) {
        Ok(sap) => Ok(CameOut::AtSap(sap)),
        Err(fault) => CameOut::failed(fault),
    }
}

/// Ends all connections.
#[tactic(auto, using(crate::proofs::Nears::ended))]
fn close(alloc: Global, client: &mut Client, far: &mut LogFar<'_>) -> Result<CameOut, SnepFault>
    requires going { IsGoing client.old }
    requires fresh { IsFresh far.old }
    ensures does { Obeys (closes client.old.llc) far.old client.new.llc far.new result }
    ensures going { OnOk result (IsGoing client.new) }
{
    let mut link = Straight::new(alloc);
    match client.close(&mut link, far, Counts::most(alloc)) {
        Ok(()) => Ok(CameOut::Fine),
        Err(fault) => CameOut::failed(fault),
    }
}

/// The name of a service that some bytes are, if they are one.
#[tactic(auto, using(crate::proofs::NearNames::name_is, crate::proofs::NearNames::name_isnt))]
fn name_of(bytes: &[u8]) -> Option<&str>
    ensures some { IfSome result (λ name. (name.now ≡ bytes.now) × (is_name bytes.now ≡ true)) }
    ensures none { result ≡ None → is_name bytes.now ≡ false }
{
    if bytes.len() > LONGEST_NAME {
        return None;
    }
    match str::from_utf8(bytes) {
        Ok(name) => Some(name),
        Err(_) => None,
    }
}

/// The slot, the most bytes of a value, and the key of a get, where bytes spell one.
fn get_of(content: &[u8]) -> Option<(u8, u32, &[u8])>
    ensures some { IfSome result (λ p. (get_of content.now ≡ does_on (sap_of_slot p.0) (Gets p.1 p.2.now))
        × (p.0 < 8) × (length p.2.now ≤ length content.now)) }
    ensures none { result ≡ None → get_of content.now ≡ None }
{
    let [slot, a, b, c, d, key @ ..] = content else {
        return None;
    };
    if *slot >= SLOTS {
        return None;
    }
    Some((*slot, u32::from_be_bytes([*a, *b, *c, *d]), key))
}

/// Makes the call that an entry spells, if it spells one.
fn obey(
    alloc: Global,
    client: &mut Client,
    far: &mut LogFar<'_>,
    kind: u8,
    content: &[u8],
) -> Option<Result<CameOut, SnepFault>>
    requires going { IsGoing client.old }
    requires fresh { IsFresh far.old }
    requires short { length content.now < 65536 }
    ensures some { IfSome result (λ r. IsObeyed (call_of (record { kind = kind; content = content.now }))
        client.old.llc far.old client.new.llc far.new r) }
    ensures none { result ≡ None → call_of (record { kind = kind; content = content.now }) ≡ None }
    ensures going { IfSome result (λ r. OnOk r (IsGoing client.new)) }
{
    match (kind, content) {
        (PUT, message) => Some(put(alloc, client, far, message)),
        (GET, content) => {
            let (slot, most, key) = get_of(content)?;
            Some(get(alloc, client, far, slot, most, key))
        }
        (LOOKUP, name) => {
            let name = name_of(name)?;
            Some(lookup(alloc, client, far, name))
        }
        (CLOSE, []) => Some(close(alloc, client, far)),
        _ => None,
    }
}

/// A near end behind a log: nothing was asked yet, the payload that goes out next, or what the last call came to.
#[derive(Debug, Drop)]
enum Stand {
    Rests,
    Asks(Items<u8>),
    Came(CameOut),
}

/// Why there is none.
#[derive(Clone, Copy, Debug, Drop)]
enum NearFault {
    Log,
    Memory,
}

/// Where a call stopped: for want of a reply, at what is none, or for want of memory.
fn stopped(far: LogFar<'_>) -> Result<Stand, NearFault>
    ensures { result ≡ stopped_at far.entry }
{
    let LogFar { asked, odd, .. } = far;
    match asked {
        Some(payload) => Ok(Stand::Asks(payload)),
        None => {
            if odd {
                Err(NearFault::Log)
            } else {
                Err(NearFault::Memory)
            }
        }
    }
}

fn stand_of(came: Option<CameOut>) -> Stand
    ensures { result ≡ stand_of came }
{
    match came {
        None => Stand::Rests,
        Some(out) => Stand::Came(out),
    }
}

/// A client behind all calls and replies of a log.
fn replay(alloc: Global, mut client: Client, log: &[u8]) -> Result<Stand, NearFault>
    requires going { IsGoing client }
    ensures { IsNearReplay client.llc log.now result }
{
    let mut came = None;
    let mut rest = log;
    while !rest.is_empty() {
        let Some((kind, content, behind)) = entry_of(rest) else {
            return Err(NearFault::Log);
        };
        let mut far = LogFar {
            left: behind,
            asked: None,
            odd: false,
            stuck: false,
        };
        match obey(alloc, &mut client, &mut far, kind, content) {
            None => return Err(NearFault::Log),
            Some(Err(_)) => return stopped(far),
            Some(Ok(out)) => came = Some(out),
        }
        rest = far.left;
    }
    Ok(stand_of(came))
}

/// The client as a link begins.
fn begin(alloc: Global, near: &Near, general: &[u8]) -> Client
    requires { IsNear near.now }
    ensures begun { result.llc ≡ near_end near.now general.now }
    ensures going { IsGoing result }
{
    let params = LinkParams {
        version: VERSION,
        miu: near.miu,
        wks: SERVICES,
    };
    let mut end = Llc::new(alloc, params, near.window, NoService);
    end.restart(general);
    Client::new(alloc, end)
}

fn snep_fault(fault: SnepFault) -> i32
    ensures { result ≡ snep_fault fault }
{
    -500 - fault.number() as i32
}

fn show_came(out: CameOut, bytes: &mut [u8], told: &mut Told) -> i32
    ensures { record { answer = result; out = bytes.new; told = told.new } ≡ came_shown out bytes.old told.old }
{
    match out {
        CameOut::Fine => DONE,
        CameOut::Value(value) => show(DONE, value.as_slice(), bytes, told),
        CameOut::AtSap(sap) => {
            told.code = sap as u16;
            DONE
        }
        CameOut::Failed(fault) => snep_fault(fault),
    }
}

fn show_stand(stand: Stand, out: &mut [u8], told: &mut Told) -> i32
    ensures { record { answer = result; out = out.new; told = told.new } ≡ stand_shown stand out.old told.old }
{
    match stand {
        Stand::Rests => SILENT,
        Stand::Asks(payload) => show(SEND, payload.as_slice(), out, told),
        Stand::Came(came) => show_came(came, out, told),
    }
}

/// Whether there is a near end of these sizes.
fn is_near(near: &Near) -> bool
    ensures { IsTrue result ↔ IsNear near.now }
{
    let miu = 128 <= near.miu && near.miu <= 2175;
    miu && (1 <= near.window && near.window <= 15)
}

/// Goes on as a client of the other end's server: `SEND` where the payload in `out` is to be sent, `DONE` where the
/// last call is over.
#[tactic(auto, using(crate::proofs::Nears::near_tells))]
#[unsafe(no_mangle)]
pub extern "C" fn zev_client_next(
    alloc: Global,
    near: &Near,
    general: &[u8],
    log: &[u8],
    out: &mut [u8],
    told: &mut Told,
) -> i32
    ensures { NearTells near.now general.now log.now out.old told.old
        (record { answer = result; out = out.new; told = told.new }) }
{
    if !is_near(near) {
        return BAD_ARGUMENT;
    }
    match replay(alloc, begin(alloc, near, general), log) {
        Ok(stand) => show_stand(stand, out, told),
        Err(NearFault::Log) => BAD_LOG,
        Err(NearFault::Memory) => NO_MEMORY,
    }
}
