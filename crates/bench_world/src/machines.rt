//! The machines of a bench: the field, the far ends above its devices, the numbers of peers, and the open link.

ghost use Rattle.std.specs.Prelude.{◌≡◌, ◌≢◌, ◌<◌, List, Option, None, false, length, get_or, IfSome};
ghost use Rattle.llcp_conn.specs.Conn.{IsWindow};
ghost use Rattle.llcp_pdu.specs.General.{IsMiu};
ghost use Rattle.bench_world.specs.private.LinkedAt.{NotOpened, machines_at_start, OpensAt};
ghost use Rattle.bench_world.specs.Linking.{own_params, new_client};
ghost use Rattle.bench_world.specs.Links.{accepted_by, end_numbered, is_number, last_ended};
ghost use Rattle.bench_world.specs.Peers.{set_under};
ghost use Rattle.bench_world.specs.World.{FarEnd};
ghost use Rattle.snep_core.specs.Calling.{ClientState};
ghost use Rattle.link_calls.specs.AtOnce.{IsAtRest};
ghost use Rattle.snep_core.specs.Slots.{fresh_slots};

use crate::bench::ObeyFault;
use crate::entry::{Answer, Loss, Received};
use crate::inbox::{LinkRange, inbox_of};
use air_core::Field;
use bench_devices::{Device, open_link};
use dep_link::Initiator;
use llcp_link::Llc;
use llcp_pdu::{LinkParams, general_write};
use nfc_base::{Answerer, EndCause, Event, Items};
use snep_core::{Client, NoService, Server};
use std::alloc::{AllocError, Global};
use std::marker::Model;

/// An open link: its peer, by its number, the initiator of its exchanges, and the client that asks over it.
#[derive(Drop)]
pub struct Link {
    pub(crate) peer: u64,
    pub(crate) initiator: Initiator,
    pub(crate) client: Client,
}

impl Model for Link {
    ghost use Rattle.std.specs.Prelude.{◌≡◌, false};
    ghost use Rattle.bench_world.specs.Links.{OpenLink};
    ghost use Rattle.link_calls.specs.AtOnce.{IsAtRest};

    ghost Value = { OpenLink };

    ghost view = { λ l. record { peer = l.peer; initiator = l.initiator; client = l.client.llc; slots = l.client.slots } };

    ghost invariant = { λ l. (l.client.spent ≡ false) × IsAtRest l.client.slots };
}

/// A far end has accepted so many messages; where none stands, there are none.
pub(crate) fn accepted_above(end: &Option<Llc<Server>>) -> usize
    ensures { result ≡ accepted_by end.now }
{
    match end {
        Some(end) => end.as_service().accepted().len(),
        None => 0,
    }
}

/// LLCP 1.3.
const VERSION: u8 = 0x13;

/// The services of a reader: link management and discovery, by their SAPs 0 and 1.
const SERVICES: u16 = 0x0003;

/// What an initiator with this MIU says of its end of a link.
pub(crate) fn own_params(miu: u16) -> LinkParams
    ensures { result ≡ own_params miu }
{
    LinkParams {
        version: VERSION,
        miu,
        wks: SERVICES,
    }
}

/// The client on a new link: its end has this MIU and receive window, and the peer said these general bytes.
fn new_client(alloc: Global, miu: u16, rw: u8, told: &[u8]) -> Client
    requires miu { IsMiu miu }
    requires window { IsWindow rw }
    ensures new { result ≡ record { llc = new_client miu rw told.now; spent = false; slots = fresh_slots } }
    ensures rest { IsAtRest result.slots }
{
    let mut end = Llc::new(alloc, own_params(miu), rw, NoService);
    end.restart(told);
    Client::new(alloc, end)
}

/// What is told of a link that couldn't be opened.
fn not_opened(cause: EndCause) -> Result<Answer, ObeyFault>
    requires { cause ≢ EndCause.Protocol }
    ensures { NotOpened cause result }
{
    match cause {
        EndCause::FieldLost => Ok(Answer::LinkEnded(Loss::FieldLost)),
        EndCause::SixBad => Ok(Answer::LinkEnded(Loss::SixBad)),
        EndCause::Memory => Err(ObeyFault::Memory),
        EndCause::Protocol => unreachable!(),
    }
}

/// Whether a device has this number among the peers.
fn is_number(number: Option<u64>, peer: u64) -> bool
    ensures { result ≡ is_number peer number }
{
    match number {
        Some(number) => number == peer,
        None => false,
    }
}

/// The place of the peer with a number.
pub(crate) fn place_numbered(numbers: &[Option<u64>], peer: u64) -> Option<usize>
    ensures within { IfSome result (λ place. place < length numbers.now) }
    ensures some { IfSome result (λ place. (ends : List (Option FarEnd))
        → end_numbered peer numbers.now ends ≡ get_or ends place None) }
    ensures none { result ≡ None → (ends : List (Option FarEnd)) → end_numbered peer numbers.now ends ≡ None }
{
    for place in 0..numbers.len() {
        if is_number(numbers[place], peer) {
            return Some(place);
        }
    }
    None
}

/// The last link ends at a place of its peer's list of accepted messages.
pub(crate) fn end_last(links: &mut [LinkRange], end: usize)
    ensures { links.new ≡ last_ended end links.old }
{
    let count = links.len();
    if count > 0 {
        links[count - 1].end = Some(end);
    }
}

/// Under the number of a peer that is taken away its far end is kept.
fn keep_under(gone: &mut [Option<Llc<Server>>], number: Option<u64>, end: Option<Llc<Server>>)
    requires { IfSome number (λ n. n < length gone.old) }
    ensures kept { gone.new ≡ set_under number end gone.old }
    ensures len { length gone.new ≡ length gone.old }
{
    if let Some(number) = number {
        gone[number as usize] = end;
    }
}

/// A field; for each device, at its place, the far end above it and its number among the peers, of which a tag has
/// none; under the number of each peer so far its far end where it was taken away; the links so far, and the one that
/// is open.
#[derive(Drop)]
pub struct Machines {
    pub(crate) field: Field<Device>,
    pub(crate) ends: Vec<Option<Llc<Server>>>,
    pub(crate) numbers: Vec<Option<u64>>,
    pub(crate) gone: Vec<Option<Llc<Server>>>,
    pub(crate) links: Vec<LinkRange>,
    pub(crate) link: Option<Link>,
}

impl Model for Machines {
    ghost use Rattle.bench_world.specs.Obeying.{Machines};
    ghost use Rattle.std.specs.Prelude.{◌<◌, ◌^◌, length, map};
    ghost use Rattle.far_air.specs.FarEnds.{rests};
    ghost use Rattle.peer_air.specs.PeerFars.{peer_ends};

    ghost Value = { Machines };

    ghost view = { λ m. record {
      air = m.field;
      ends = m.ends.items;
      peers = record { numbers = m.numbers.items; gone = map (rests peer_ends) m.gone.items; links = m.links.items };
      link = m.link;
    } };

    ghost invariant = { λ m. length m.links.items < 2 ^ 32 };
}

impl Machines {
    ghost use Rattle.std.specs.Prelude.{◌≡◌, ◌<◌, ◌^◌, [], Some, None, true, false, length, get_or, option_map};
    ghost use Rattle.std.specs.Prelude.{option_copied, if◌then◌else◌, ℕ, ◌+◌, IfSome, IfOk, IfErr, OnOk, OnErr};
    ghost use Rattle.bench_world.specs.Obeying.{untraced, put_in, with_end, taken_out, link_ended};
    ghost use Rattle.bench_world.specs.Links.{OpenLink, is_with};
    ghost use Rattle.bench_world.specs.Opened.{IsServed};
    ghost use Rattle.bench_devices.specs.Device.{is_tag};
    ghost use Rattle.bench_devices.specs.Phases.{Stands};
    ghost use Rattle.air_core.specs.Turn.{moment};
    ghost use Rattle.bench_world.specs.Peers.{no_peers, with_tag, with_peer, next_number, end_offered};
    ghost use Rattle.bench_world.specs.Opened.{AreNumbered};
    ghost use Rattle.bench_world.specs.Inbox.{inbox_at};

    /// An empty field.
    pub fn new(alloc: Global) -> Machines
        ensures { result ≡ record {
          air = record { lit = false; listeners = []; fates = []; trace = [] };
          ends = [];
          peers = no_peers;
          link = None;
        } }
    {
        Machines {
            field: Field::new(alloc),
            ends: Vec::new(alloc),
            numbers: Vec::new(alloc),
            gone: Vec::new(alloc),
            links: Vec::new(alloc),
            link: None,
        }
    }

    /// The devices, in the order of placing.
    pub fn devices(&self) -> &[Device]
        ensures { result.now ≡ self.now.air.listeners }
    {
        self.field.listeners()
    }

    /// The initiator of the open link.
    pub fn initiator(&self) -> Option<&Initiator>
        ensures { option_copied result ≡ option_map (λ (l : OpenLink). l.initiator) self.now.link }
    {
        match &self.link {
            Some(link) => Some(&link.initiator),
            None => None,
        }
    }

    /// The client of the open link.
    pub fn client(&self) -> Option<&Client>
        ensures end { option_map (λ (c : ClientState). c.llc) (option_copied result)
            ≡ option_map (λ (l : OpenLink). l.client) self.now.link }
        ensures slots { option_map (λ (c : ClientState). c.slots) (option_copied result)
            ≡ option_map (λ (l : OpenLink). l.slots) self.now.link }
        ensures going { IfSome (option_copied result) (λ c. c.spent ≡ false) }
    {
        match &self.link {
            Some(link) => Some(&link.client),
            None => None,
        }
    }

    /// Whether the open link is one to the peer at a place.
    fn is_linked_to(&self, place: usize) -> bool
        requires { place < length self.now.peers.numbers }
        ensures { result ≡ is_with self.now.link (get_or self.now.peers.numbers place None) }
    {
        match &self.link {
            Some(link) => is_number(self.numbers[place], link.peer),
            None => false,
        }
    }

    /// The open link ends, where one is open; its range goes to the present end of what its peer's server accepted.
    pub fn end_link(&mut self)
        requires { length self.old.ends ≡ length self.old.peers.numbers }
        ensures { self.new ≡ link_ended self.old }
    {
        let Some(link) = self.link.take() else {
            return;
        };
        let end = match place_numbered(&self.numbers, link.peer) {
            Some(place) => accepted_above(&self.ends[place]),
            None => 0,
        };
        end_last(&mut self.links, end);
    }

    /// The link to the peer at a place ends, where that is the open one.
    pub fn end_link_to(&mut self, place: usize)
        requires places { length self.old.ends ≡ length self.old.peers.numbers }
        requires number { place < length self.old.peers.numbers }
        ensures ended { self.new ≡ (if is_with self.old.link (get_or self.old.peers.numbers place None)
            then link_ended self.old else self.old) }
        ensures air { self.new.air ≡ self.old.air }
        ensures ends { self.new.ends ≡ self.old.ends }
        ensures numbers { self.new.peers.numbers ≡ self.old.peers.numbers }
        ensures gone { self.new.peers.gone ≡ self.old.peers.gone }
    {
        if self.is_linked_to(place) {
            self.end_link();
        }
    }

    /// What happened since this was last asked for.
    pub fn take_trace(&mut self) -> Vec<Event>
        ensures events { result.items ≡ self.old.air.trace }
        ensures left { self.new ≡ untraced self.old }
    {
        self.field.take_trace()
    }

    /// Puts a tag in behind the other devices, dark until the next reset.
    pub fn put_in(&mut self, tag: Device) -> Result<(), AllocError>
        ensures ok { OnOk result (self.new ≡ put_in self.old tag None (with_tag self.old.peers)) }
        ensures err { OnErr result (self.new ≡ self.old) }
    {
        self.ends.reserve(1)?;
        self.numbers.reserve(1)?;
        match self.field.put_in(tag) {
            Ok(_) => {
                let _ = self.ends.push(None);
                let _ = self.numbers.push(None);
                Ok(())
            }
            Err(_) => Err(AllocError),
        }
    }

    /// Puts a peer in behind the other devices, dark until the next reset, under its far end; it has the next number.
    pub fn put_in_peer(&mut self, peer: Device, end: Llc<Server>) -> Result<(), AllocError>
        ensures ok { OnOk result (self.new ≡ put_in self.old peer (Some end) (with_peer self.old.peers)) }
        ensures err { OnErr result (self.new ≡ self.old) }
    {
        self.ends.reserve(1)?;
        self.numbers.reserve(1)?;
        self.gone.reserve(1)?;
        match self.field.put_in(peer) {
            Ok(_) => {
                let number = self.gone.len() as u64;
                let _ = self.ends.push(Some(end));
                let _ = self.numbers.push(Some(number));
                let _ = self.gone.push(None);
                Ok(())
            }
            Err(_) => Err(AllocError),
        }
    }

    /// The far end at a place; there is none above a tag.
    pub fn far(&self, place: usize) -> Option<&Llc<Server>>
        ensures some { IfSome result (λ l. get_or self.now.ends place None ≡ Some l.now) }
        ensures none { result ≡ None → get_or self.now.ends place None ≡ None }
    {
        match self.ends.get(place) {
            Some(Some(end)) => Some(end),
            _ => None,
        }
    }

    /// Gives a key of the server at a place this value. Nothing stands above a tag.
    pub fn offer(&mut self, place: usize, key: &[u8], value: &[u8]) -> Result<(), AllocError>
        requires end { place < length self.old.ends }
        requires short { length value.now < 2 ^ 32 }
        ensures ok { OnOk result (self.new ≡ with_end self.old place
            (option_map (end_offered key.now value.now) (get_or self.old.ends place None))) }
        ensures err { OnErr result (self.new ≡ self.old) }
    {
        match &mut self.ends[place] {
            Some(end) => end.service().offer(key, value),
            None => Ok(()),
        }
    }

    /// What the server at a place accepted, by the links of its peer.
    pub fn inbox(&self, alloc: Global, place: usize) -> Result<Items<Received>, AllocError>
        requires end { place < length self.now.ends }
        requires number { place < length self.now.peers.numbers }
        ensures { IfOk result (λ rs. rs ≡ inbox_at self.now.peers.links
            (get_or self.now.peers.numbers place None) (get_or self.now.ends place None)) }
    {
        match (self.numbers[place], &self.ends[place]) {
            (Some(number), Some(end)) => inbox_of(alloc, end.as_service(), &self.links, number),
            _ => Ok(Items::new(Vec::new(alloc))),
        }
    }

    /// As many links were made as there are numbers. Nothing is allocated to find out.
    pub fn is_full(&self) -> bool
        ensures full { result ≡ true → length self.now.peers.links + 1 ≡ 2 ^ 32 }
        ensures room { result ≡ false → length self.now.peers.links + 1 < 2 ^ 32 }
    {
        self.links.len() >= u32::MAX as usize
    }

    /// A link is open to the peer of this number, whose list of accepted messages stands there.
    fn begin(
        &mut self,
        peer: u64,
        start: usize,
        initiator: Initiator,
        client: Client,
    ) -> Result<Answer, ObeyFault>
        requires few { length self.old.peers.links + 1 < 2 ^ 32 }
        requires fresh { client.spent ≡ false }
        requires slots { client.slots ≡ fresh_slots }
        requires rest { IsAtRest client.slots }
        ensures ok { IfOk result (λ a. a ≡ Answer.Linked (length self.old.peers.links + 1)) }
        ensures opened { OnOk result (self.new ≡ machines_at_start self.old peer start initiator client.llc) }
        ensures err { IfErr result (λ e. e ≡ ObeyFault.Memory) }
        ensures same { OnErr result (self.new ≡ self.old) }
    {
        let range = LinkRange {
            peer,
            start,
            end: None,
        };
        if self.links.push(range).is_err() {
            return Err(ObeyFault::Memory);
        }
        self.link = Some(Link {
            peer,
            initiator,
            client,
        });
        Ok(Answer::Linked(self.links.len() as u32))
    }

    /// Opens a link to the selected peer at a place, where none is open.
    pub fn open(
        &mut self,
        alloc: Global,
        place: usize,
        miu: u16,
        rw: u8,
    ) -> Result<Answer, ObeyFault>
        requires miu { IsMiu miu }
        requires window { IsWindow rw }
        requires few { length self.old.peers.links + 1 < 2 ^ 32 }
        requires stands { (d : Device) × Stands (moment self.old.air) place d × (is_tag d ≡ false) }
        requires served { IsServed (get_or self.old.peers.numbers place None) (get_or self.old.ends place None) }
        requires number { place < length self.old.peers.numbers }
        requires end { place < length self.old.ends }
        ensures { (peer : ℕ) (far : FarEnd) → get_or self.old.peers.numbers place None ≡ Some peer
            → get_or self.old.ends place None ≡ Some far → OpensAt self.old self.new place miu rw peer far result }
    {
        let Some(peer) = self.numbers[place] else {
            unreachable!();
        };
        let Some(end) = &mut self.ends[place] else {
            unreachable!();
        };
        let start = end.as_service().accepted().len();
        let general = general_write(&own_params(miu));
        match open_link(&mut self.field, &general, end) {
            Ok((initiator, told)) => {
                let client = new_client(alloc, miu, rw, &told);
                self.begin(peer, start, initiator, client)
            }
            Err(end) => not_opened(end.cause),
        }
    }

    /// Takes the device at a place out, its far end and its number. Later places move down by one. The far end of a
    /// peer is kept under its number: room for it was made as the peer was put in.
    pub fn take_out(&mut self, place: usize)
        requires device { place < length self.old.air.listeners }
        requires end { place < length self.old.ends }
        requires number { place < length self.old.peers.numbers }
        requires apart { AreNumbered (next_number self.old.peers) self.old.peers.numbers }
        ensures { self.new ≡ taken_out self.old place }
    {
        let _ = self.field.take_out(place);
        let end = self.ends.remove(place);
        let number = self.numbers.remove(place);
        keep_under(&mut self.gone, number, end);
    }
}
