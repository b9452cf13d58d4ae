//! The bench: the field, and the journal of what was obeyed.

ghost use Rattle.std.specs.Prelude.{◌≡◌, ◌≢◌, ◌↔◌, ◌≤◌, ◌<◌, ◌++◌, [], ◌∷◌, true, is_some, Some, None, IsTrue};
ghost use Rattle.std.specs.Prelude.{option_map, option_copied, false, IfOk, IfSome, OnOk, OnErr, IsErrOf, vec_len};
ghost use Rattle.std.specs.Prelude.{vec_capacity, length};
ghost use Rattle.bench_world.specs.Legal.{Accepts, Joins, joins_for, memory_of};
ghost use Rattle.bench_devices.specs.Device.{most_devices};
ghost use Rattle.bench_devices.specs.Placed.{device_with};
ghost use Rattle.bench_world.specs.Following.{Follows, LosesTrack, MayFollow, Records};
ghost use Rattle.bench_world.specs.Showing.{MayShow, shown_of};
ghost use Rattle.bench_world.specs.Obeying.{Obeys, Obeyed, ObeyedBy, Makes, state_at, IsSettled, IsCutOffBy};
ghost use Rattle.bench_world.specs.Obeying.{RefusedOnly, ObeyedBelow, RefusedBelow, LacksMemory, FieldOf, FarAt};
ghost use Rattle.bench_world.specs.Obeying.{begun_anew, new_bench, obey_fault_number};
ghost use Rattle.bench_world.specs.Links.{OpenLink};
ghost use Rattle.bench_devices.specs.Phases.{IsIdle};
ghost use Rattle.bench_world.specs.Stories.{gained_on};
ghost use Rattle.snep_core.specs.Calling.{ClientState};
ghost use Rattle.snep_core.specs.Server.{messages_of, sources_of};

use crate::asking::{find, find_tags, read_tag, write_message};
use crate::at_once::{on_get, on_put, puts};
use crate::calling::{get, lookup, put, unlink};
use crate::entry::{Answer, Entry};
use crate::following::{Followed, compared, joins_shown, may_show};
use crate::forging::forge;
use crate::joins::Joins;
use crate::linking::link;
use crate::machines::Machines;
use crate::on_air::see_on_air;
use crate::peers::{inbox, offer_value, place_peer};
use crate::raws::raw;
use crate::threes::{find_threes, read_tag_three, write_tag_three};
use air_core::Field;
use bench_devices::{Device, PoweredTag, T2Upper, T4Upper, is_named, place_of};
use bench_script::{Command, DeviceId};
use dep_link::Initiator;
use isodep_link::{LONGEST_EXTENSION, MOST_BUSY};
use llcp_link::Llc;
use nfc_base::{Event, Fate, Items};
use nfca_poll::{Front, Ident};
use snep_core::{Client, Server};
use std::alloc::{AllocError, Global};
use std::marker::Model;
use std::mem;
use t2t_tag::T2Tag;
use t3t_tag::T3Tag;
use t4t_tag::{T4Tag, named_size};
use t5t_tag::T5Tag;
use thiserror::Error;

/// Why a bench obeys no command.
#[derive(Clone, Copy, Debug, PartialEq, Eq, Error)]
pub enum ObeyFault {
    #[error("the bench is in no state for this command")]
    Refused = 1,
    #[error("out of memory")]
    Memory = 2,
}

impl ObeyFault {
    /// Its number in reports and tests.
    pub fn number(&self) -> u8
        ensures { result ≡ obey_fault_number self.now }
    {
        *self as u8
    }
}

/// How many devices may stand in the field at once (this project's limit).
const MOST_DEVICES: usize = 16;

/// The memory of a new tag of so many bytes.
fn memory(alloc: Global, size: usize, head: &[u8]) -> Result<Vec<u8>, AllocError>
    requires { length head.now ≤ size }
    ensures { IfOk result (λ v. v.items ≡ memory_of size head.now) }
{
    let mut bytes = Vec::from_slice(alloc, head)?;
    bytes.resize(size, 0)?;
    Ok(bytes)
}

/// Whether a device with this identifier is placed.
pub(crate) fn is_placed(devices: &[Device], id: &[u8]) -> bool
    ensures { result ≡ is_some (device_with id.now devices.now) }
{
    for device in devices {
        if is_named(device, id) {
            return true;
        }
    }
    false
}

/// Whether there is room for a device, and none has its identifier.
pub(crate) fn is_free(devices: &[Device], id: &[u8]) -> bool
    ensures { IsTrue result ↔ ((length devices.now < most_devices) × (device_with id.now devices.now ≡ None)) }
{
    devices.len() < MOST_DEVICES && !is_placed(devices, id)
}

/// Puts a Type 2 tag into the field.
fn place_t2(
    alloc: Global,
    machines: &mut Machines,
    id: &Ident,
    blocks: u16,
    head: &[u8],
) -> Result<Answer, ObeyFault>
    requires { IsSettled machines.old }
    ensures ok { IfOk result (λ a. Obeyed machines.old machines.new (Command.PlaceT2 id.now blocks head.now) a) }
    ensures err { OnErr result (machines.new ≡ machines.old) }
    ensures cause { RefusedOnly result machines.old (Command.PlaceT2 id.now blocks head.now) }
{
    let size = 4 * blocks as usize;
    let devices = machines.devices();
    if !is_free(devices, id.view()) || head.len() > size {
        return Err(ObeyFault::Refused);
    }
    let Ok(bytes) = memory(alloc, size, head) else {
        return Err(ObeyFault::Memory);
    };
    let Ok(tag) = T2Tag::new(bytes) else {
        return Err(ObeyFault::Refused);
    };
    match machines.put_in(Device::T2(Front::new(id.copy(), T2Upper::new(tag)))) {
        Ok(_) => Ok(Answer::Done),
        Err(_) => Err(ObeyFault::Memory),
    }
}

/// Puts a Type 3 tag into the field.
fn place_t3(
    alloc: Global,
    machines: &mut Machines,
    id: [u8; 8],
    blocks: u16,
    head: &[u8],
) -> Result<Answer, ObeyFault>
    requires { IsSettled machines.old }
    ensures ok { IfOk result (λ a. Obeyed machines.old machines.new (Command.PlaceT3 id blocks head.now) a) }
    ensures err { OnErr result (machines.new ≡ machines.old) }
    ensures cause { RefusedOnly result machines.old (Command.PlaceT3 id blocks head.now) }
{
    let size = 16 * blocks as usize;
    if !is_free(machines.devices(), &id) || head.len() > size {
        return Err(ObeyFault::Refused);
    }
    let Ok(store) = memory(alloc, size, head) else {
        return Err(ObeyFault::Memory);
    };
    let Ok(tag) = T3Tag::new(id, store) else {
        return Err(ObeyFault::Refused);
    };
    match machines.put_in(Device::T3(PoweredTag::new(tag))) {
        Ok(_) => Ok(Answer::Done),
        Err(_) => Err(ObeyFault::Memory),
    }
}

/// Puts a Type 4 tag into the field.
fn place_t4(
    alloc: Global,
    machines: &mut Machines,
    id: &Ident,
    code: u8,
    container: &[u8],
    head: &[u8],
) -> Result<Answer, ObeyFault>
    requires { IsSettled machines.old }
    ensures ok { IfOk result (λ a. Obeyed machines.old machines.new (Command.PlaceT4 id.now code container.now head.now)
        a) }
    ensures err { OnErr result (machines.new ≡ machines.old) }
    ensures cause { RefusedOnly result machines.old (Command.PlaceT4 id.now code container.now head.now) }
{
    let Some(size) = named_size(container) else {
        return Err(ObeyFault::Refused);
    };
    let size = size as usize;
    if !is_free(machines.devices(), id.view()) || head.len() > size {
        return Err(ObeyFault::Refused);
    }
    let Ok(files) = Vec::from_slice(alloc, container) else {
        return Err(ObeyFault::Memory);
    };
    let Ok(file) = memory(alloc, size, head) else {
        return Err(ObeyFault::Memory);
    };
    let Ok(tag) = T4Tag::new(code, files, file) else {
        return Err(ObeyFault::Refused);
    };
    match machines.put_in(Device::T4(Front::new(id.copy(), T4Upper::new(tag)))) {
        Ok(_) => Ok(Answer::Done),
        Err(_) => Err(ObeyFault::Memory),
    }
}

/// Puts a Type 5 tag into the field.
fn place_t5(
    alloc: Global,
    machines: &mut Machines,
    id: [u8; 8],
    blocks: u16,
    size: u8,
    head: &[u8],
) -> Result<Answer, ObeyFault>
    requires { IsSettled machines.old }
    ensures ok { IfOk result (λ a. Obeyed machines.old machines.new (Command.PlaceT5 id blocks size head.now) a) }
    ensures err { OnErr result (machines.new ≡ machines.old) }
    ensures cause { RefusedOnly result machines.old (Command.PlaceT5 id blocks size head.now) }
{
    let bytes = size as usize * blocks as usize;
    if !is_free(machines.devices(), &id) || head.len() > bytes {
        return Err(ObeyFault::Refused);
    }
    let Ok(store) = memory(alloc, bytes, head) else {
        return Err(ObeyFault::Memory);
    };
    let Ok(tag) = T5Tag::new(id, store, size) else {
        return Err(ObeyFault::Refused);
    };
    match machines.put_in(Device::T5(PoweredTag::new(tag))) {
        Ok(_) => Ok(Answer::Done),
        Err(_) => Err(ObeyFault::Memory),
    }
}

/// Takes a device away.
fn remove_device(machines: &mut Machines, id: &DeviceId) -> Result<Answer, ObeyFault>
    requires { IsSettled machines.old }
    ensures ok { IfOk result (λ a. Obeyed machines.old machines.new (Command.Remove id.now) a) }
    ensures err { OnErr result (machines.new ≡ machines.old) }
    ensures cause { RefusedOnly result machines.old (Command.Remove id.now) }
{
    let bytes = id.bytes();
    if !is_placed(machines.devices(), bytes) {
        return Err(ObeyFault::Refused);
    }
    let place = place_of(machines.devices(), bytes);
    machines.end_link_to(place);
    machines.take_out(place);
    Ok(Answer::Done)
}

/// Locks a block of a tag.
fn lock_block(field: &mut Field<Device>, id: &DeviceId, block: u16) -> Result<Answer, ObeyFault>
    requires { IsIdle field.old }
    ensures ok { IfOk result (λ a. ObeyedBelow field.old field.new (Command.Lock id.now block) a) }
    ensures err { OnErr result (field.new ≡ field.old) }
    ensures cause { RefusedBelow result field.old (Command.Lock id.now block) }
{
    let bytes = id.bytes();
    let devices = field.listeners();
    if !is_placed(devices, bytes) {
        return Err(ObeyFault::Refused);
    }
    let place = place_of(devices, bytes);
    if block >= devices[place].blocks() {
        return Err(ObeyFault::Refused);
    }
    field.listener(place).lock(block);
    Ok(Answer::Done)
}

/// From now on a tag asks for more time before each answer.
fn set_busy(
    field: &mut Field<Device>,
    id: &DeviceId,
    count: u8,
    times: u8,
) -> Result<Answer, ObeyFault>
    requires { IsIdle field.old }
    ensures ok { IfOk result (λ a. ObeyedBelow field.old field.new (Command.Busy id.now count times) a) }
    ensures err { OnErr result (field.new ≡ field.old) }
    ensures cause { RefusedBelow result field.old (Command.Busy id.now count times) }
{
    let bytes = id.bytes();
    let devices = field.listeners();
    if count > MOST_BUSY || times < 1 || times > LONGEST_EXTENSION {
        return Err(ObeyFault::Refused);
    }
    if !is_placed(devices, bytes) {
        return Err(ObeyFault::Refused);
    }
    let place = place_of(devices, bytes);
    if !devices[place].may_be_busy() {
        return Err(ObeyFault::Refused);
    }
    field.listener(place).set_busy(count, times);
    Ok(Answer::Done)
}

/// Tells what a tag holds.
fn dump_store(alloc: Global, field: &Field<Device>, id: &DeviceId) -> Result<Answer, ObeyFault>
    requires { IsIdle field.now }
    ensures ok { IfOk result (λ a. ObeyedBelow field.now field.now (Command.Dump id.now) a) }
    ensures cause { RefusedBelow result field.now (Command.Dump id.now) }
{
    let bytes = id.bytes();
    let devices = field.listeners();
    if !is_placed(devices, bytes) {
        return Err(ObeyFault::Refused);
    }
    let place = place_of(devices, bytes);
    if !devices[place].is_tag() {
        return Err(ObeyFault::Refused);
    }
    match Items::from_bytes(alloc, devices[place].memory()) {
        Ok(store) => Ok(Answer::Store(store)),
        Err(_) => Err(ObeyFault::Memory),
    }
}

/// Appends fates for transmissions to come.
fn add_fates(field: &mut Field<Device>, fates: &[Fate]) -> Result<Answer, ObeyFault>
    requires { IsIdle field.old }
    ensures ok { IfOk result (λ a. ObeyedBelow field.old field.new (Command.Fates fates.now) a) }
    ensures err { OnErr result (field.new ≡ field.old) }
    ensures never { IsErrOf result ObeyFault.Refused → ⊥ }
{
    match field.add_fates(fates) {
        Ok(()) => Ok(Answer::Done),
        Err(_) => Err(ObeyFault::Memory),
    }
}

/// Does what a command asks. On the open link so many PDUs stand in each payload.
fn run_command(
    alloc: Global,
    machines: &mut Machines,
    command: &Command,
    joins: Joins,
) -> Result<Answer, ObeyFault>
    requires idle { IsSettled machines.old }
    requires asks { command.now ≢ Command.Skip }
    ensures ok { IfOk result (λ a. ObeyedBy (joins_for command.now joins) machines.old machines.new command.now a) }
    ensures refused { IsErrOf result ObeyFault.Refused → (machines.new ≡ machines.old) }
    ensures cause { RefusedOnly result machines.old command.now }
    ensures cut { IsErrOf result ObeyFault.Memory → IsCutOffBy (joins_for command.now joins) machines.old machines.new
        command.now }
{
    match command {
        Command::Skip => unreachable!(),
        Command::Fates(fates) => add_fates(&mut machines.field, fates.as_slice()),
        Command::PlaceT2 { id, blocks, head } => {
            place_t2(alloc, machines, id, *blocks, head.as_slice())
        }
        Command::PlaceT3 { id, blocks, head } => {
            place_t3(alloc, machines, *id, *blocks, head.as_slice())
        }
        Command::PlaceT4 {
            id,
            code,
            container,
            head,
        } => place_t4(
            alloc,
            machines,
            id,
            *code,
            container.as_slice(),
            head.as_slice(),
        ),
        Command::PlaceT5 {
            id,
            blocks,
            size,
            head,
        } => place_t5(alloc, machines, *id, *blocks, *size, head.as_slice()),
        Command::PlacePeer {
            id,
            lr,
            miu,
            rw,
            limit,
        } => place_peer(alloc, machines, id, *lr, *miu, *rw, *limit),
        Command::Offer { id, key, value } => {
            offer_value(machines, id, key.as_slice(), value.as_slice())
        }
        Command::Inbox { id } => inbox(alloc, machines, id),
        Command::Lock { id, block } => lock_block(&mut machines.field, id, *block),
        Command::Busy { id, count, times } => set_busy(&mut machines.field, id, *count, *times),
        Command::Remove { id } => remove_device(machines, id),
        Command::Dump { id } => dump_store(alloc, &machines.field, id),
        Command::Find => find(alloc, machines),
        Command::Crowd => find_tags(alloc, machines),
        Command::Poll3 => find_threes(machines),
        Command::Read { id } => read_tag(alloc, machines, id),
        Command::Read3 { id } => read_tag_three(alloc, machines, *id),
        Command::Write3 { id, message } => write_tag_three(alloc, machines, *id, message),
        Command::Write { id, message } => write_message(alloc, machines, id, message),
        Command::Link { id, miu, rw } => link(alloc, machines, id, *miu, *rw),
        Command::Forge { id, payloads } => {
            forge(alloc, machines, joins, id, payloads.as_slice())
        }
        Command::Raw { id, frames } => raw(alloc, machines, joins, id, frames.as_slice()),
        Command::Put { message } => put(alloc, machines, joins, message),
        Command::Get { acceptable, key } => get(
            alloc,
            machines,
            joins,
            *acceptable,
            key.as_slice(),
        ),
        Command::Lookup { name } => lookup(alloc, machines, joins, name.as_slice()),
        Command::OnPut { slot, message } => on_put(alloc, machines, joins, *slot, message),
        Command::OnGet {
            slot,
            acceptable,
            key,
        } => on_get(alloc, machines, joins, *slot, *acceptable, key.as_slice()),
        Command::Puts(all) => puts(alloc, machines, joins, all.as_slice()),
        Command::Unlink => unlink(alloc, machines, joins),
    }
}

/// Makes the entry of a command: does what it asks, and takes what happened out of the field.
fn make_entry(
    alloc: Global,
    machines: &mut Machines,
    line: u32,
    command: &Command,
    joins: Joins,
) -> Result<Entry, ObeyFault>
    requires idle { IsSettled machines.old }
    requires asks { command.now ≢ Command.Skip }
    ensures ok { IfOk result (λ e. Makes (joins_for command.now joins) machines.old machines.new line command.now e) }
    ensures refused { IsErrOf result ObeyFault.Refused → (machines.new ≡ machines.old) }
    ensures cause { RefusedOnly result machines.old command.now }
    ensures cut { IsErrOf result ObeyFault.Memory → IsCutOffBy (joins_for command.now joins) machines.old machines.new
        command.now }
{
    let Ok(copy) = command.copy(alloc) else {
        return Err(ObeyFault::Memory);
    };
    let answer = run_command(alloc, machines, command, joins)?;
    Ok(Entry {
        line,
        command: copy,
        events: Items::new(machines.take_trace()),
        answer,
    })
}

/// Makes the entry of a command by the numbers of PDUs that some events show.
fn make_shown(
    alloc: Global,
    machines: &mut Machines,
    line: u32,
    command: &Command,
    events: &[Event],
) -> Result<Entry, ObeyFault>
    requires idle { IsSettled machines.old }
    requires asks { command.now ≢ Command.Skip }
    ensures ok { IfOk result (λ e. Makes (shown_of (state_at machines.old) command.now events.now) machines.old
        machines.new line command.now e) }
    ensures shows { IfOk result (λ _. MayShow (state_at machines.old) command.now) }
    ensures refused { IsErrOf result ObeyFault.Refused → (machines.new ≡ machines.old) }
    ensures cause { IsErrOf result ObeyFault.Refused → MayFollow (state_at machines.old) command.now → ⊥ }
    ensures cut { IsErrOf result ObeyFault.Memory → (joins : Joins)
        × IsCutOffBy joins machines.old machines.new command.now }
{
    if !may_show(machines.devices(), command) {
        return Err(ObeyFault::Refused);
    }
    let Ok(joins) = joins_shown(alloc, machines, command, events) else {
        return Err(ObeyFault::Memory);
    };
    make_entry(alloc, machines, line, command, joins)
}

/// A run of a bench that is finished: the journal that it left.
#[derive(Drop)]
pub struct Run {
    entries: Vec<Entry>,
}

impl Model for Run {
    ghost use Rattle.std.specs.Prelude.{List};
    ghost use Rattle.bench_world.specs.declared.entry.Entry.{Entry};

    ghost Value = { List Entry };

    ghost view = { λ r. r.entries.items };
}

impl Run {
    /// What was obeyed in it.
    pub fn journal(&self) -> &[Entry]
        ensures { result.now ≡ self.now }
    {
        self.entries.as_slice()
    }
}

/// A field, the devices in it with the far ends above them, the journal of the commands that were obeyed, and those of
/// the runs before. Once want of memory has cut a command off it obeys none.
#[derive(Drop)]
pub struct Bench {
    alloc: Global,
    machines: Machines,
    finished: Vec<Run>,
    journal: Vec<Entry>,
    spoiled: bool,
}

impl Model for Bench {
    ghost use Rattle.std.specs.Prelude.{◌≡◌, false};
    ghost use Rattle.bench_world.specs.Cutting.{CutsWell};
    ghost use Rattle.bench_world.specs.Obeying.{Benched, IsSettled, state_at};

    ghost Value = { Benched };

    ghost view = { λ b. record {
      finished = b.finished.items;
      journal = b.journal.items;
      state = state_at b.machines;
      cut = b.machines.air.trace;
      spoiled = b.spoiled;
    } };

    ghost invariant = { λ b. b.spoiled ≡ false → IsSettled b.machines × CutsWell (state_at b.machines) };
}

/// Adds an entry where there is room.
fn record_entry(journal: &mut Vec<Entry>, entry: Entry)
    requires { vec_len journal.old < vec_capacity journal.old }
    ensures { journal.new.items ≡ journal.old.items ++ entry ∷ [] }
{
    let _ = journal.push(entry);
}

/// Adds an entry that was made, where there is room and all events that were told are its own.
fn record_followed(journal: &mut Vec<Entry>, entry: Entry, followed: Followed)
    requires { vec_len journal.old < vec_capacity journal.old }
    ensures { Records followed journal.old.items journal.new.items entry }
{
    if let Followed::Whole = followed {
        record_entry(journal, entry);
    }
}

/// Adds a finished run where there is room.
fn add_run(finished: &mut Vec<Run>, run: Run)
    requires { vec_len finished.old < vec_capacity finished.old }
    ensures { finished.new.items ≡ finished.old.items ++ run ∷ [] }
{
    let _ = finished.push(run);
}

impl Bench {
    /// A bench with no device, an empty journal and no finished run.
    pub fn new(alloc: Global) -> Bench
        ensures { result ≡ new_bench }
    {
        Bench {
            alloc,
            machines: Machines::new(alloc),
            finished: Vec::new(alloc),
            journal: Vec::new(alloc),
            spoiled: false,
        }
    }

    /// Begins anew: the journal becomes the last of the finished runs, and all else is as in a new bench. Where memory
    /// is wanting nothing changes.
    pub fn again(&mut self) -> Result<(), AllocError>
        requires { self.old.spoiled ≡ false }
        ensures ok { OnOk result (self.new ≡ begun_anew (self.old.finished ++ self.old.journal ∷ [])) }
        ensures err { OnErr result (self.new ≡ self.old) }
    {
        self.finished.reserve(1)?;
        let entries = mem::replace(&mut self.journal, Vec::new(self.alloc));
        add_run(&mut self.finished, Run { entries });
        self.machines = Machines::new(self.alloc);
        Ok(())
    }

    /// The runs that are finished, in order.
    pub fn finished(&self) -> &[Run]
        ensures { result.now ≡ self.now.finished }
    {
        self.finished.as_slice()
    }

    /// What was obeyed so far, since the last finished run.
    pub fn journal(&self) -> &[Entry]
        ensures { result.now ≡ self.now.journal }
    {
        self.journal.as_slice()
    }

    /// What happened in a command that want of memory cut off, since the last entry: nothing unless `obey` answered
    /// `Memory`. Where the peer's end of a link stopped, the request at which it did is last, and has no answer.
    pub fn cut(&self) -> &[Event]
        ensures cut { result.now ≡ self.now.cut }
        ensures sound { self.now.spoiled ≡ false → result.now ≡ [] }
    {
        self.machines.field.trace()
    }

    /// The field and the machines in it; its trace is what `cut` tells.
    pub fn field(&self) -> &Field<Device>
        ensures state { FieldOf self.now.state result.now }
        ensures cut { result.now.trace ≡ self.now.cut }
    {
        &self.machines.field
    }

    /// The far end above the device at a place: a tag has none.
    pub fn far(&self, place: usize) -> Option<&Llc<Server>>
        ensures { place < length self.now.state.world.field.listeners
            → FarAt self.now.state place (option_copied result) }
    {
        self.machines.far(place)
    }

    /// The initiator of the open link; none where no link is open.
    pub fn initiator(&self) -> Option<&Initiator>
        ensures { option_copied result ≡ option_map (λ (l : OpenLink). l.initiator) self.now.state.link }
    {
        self.machines.initiator()
    }

    /// The client that asks over the open link; none where no link is open.
    pub fn client(&self) -> Option<&Client>
        ensures end { option_map (λ (c : ClientState). c.llc) (option_copied result)
            ≡ option_map (λ (l : OpenLink). l.client) self.now.state.link }
        ensures slots { option_map (λ (c : ClientState). c.slots) (option_copied result)
            ≡ option_map (λ (l : OpenLink). l.slots) self.now.state.link }
        ensures going { IfSome (option_copied result) (λ c. c.spent ≡ false) }
    {
        self.machines.client()
    }

    /// How many links there were so far; the first is link 1.
    pub fn links(&self) -> u32
        ensures { result ≡ length self.now.state.peers.links }
    {
        self.machines.link_count()
    }

    /// What the server of a link's peer accepted on it so far, message by message, also where the peer was taken away
    /// since; nothing of a number that no link has.
    pub fn accepted(&self, link: u32) -> &[Items<u8>]
        ensures { self.now.spoiled ≡ false → result.now ≡ messages_of (gained_on self.now.state link) }
    {
        self.machines.accepted_on(link)
    }

    /// Of each of these messages the SAP of the client that put it (NFC Forum LLCP 1.3).
    pub fn sources(&self, link: u32) -> &[u8]
        ensures { self.now.spoiled ≡ false → result.now ≡ sources_of (gained_on self.now.state link) }
    {
        self.machines.sources_on(link)
    }

    /// Obeys the command of a line, and adds its entry to the journal, none for a line that asks for nothing.
    pub fn obey(&mut self, line: u32, command: &Command) -> Result<(), ObeyFault>
        ensures ok { OnOk result (Obeys self.old self.new line command.now) }
        ensures refused { IsErrOf result ObeyFault.Refused → (self.new ≡ self.old) }
        ensures cause { IsErrOf result ObeyFault.Refused → Accepts self.old.state command.now → ⊥ }
        ensures memory { IsErrOf result ObeyFault.Memory → LacksMemory self.old self.new command.now }
        ensures spoiled { self.old.spoiled ≡ true → IsErrOf result ObeyFault.Memory }
    {
        if self.spoiled {
            return Err(ObeyFault::Memory);
        }
        if let Command::Skip = command {
            return Ok(());
        }
        if self.journal.reserve(1).is_err() {
            self.spoiled = true;
            return Err(ObeyFault::Memory);
        }
        let joins = Joins::most(self.alloc);
        match make_entry(self.alloc, &mut self.machines, line, command, joins) {
            Ok(entry) => {
                record_entry(&mut self.journal, entry);
                Ok(())
            }
            Err(ObeyFault::Refused) => Err(ObeyFault::Refused),
            Err(ObeyFault::Memory) => {
                self.spoiled = true;
                Err(ObeyFault::Memory)
            }
        }
    }

    /// Says how far some events may be those of a line's command, as another program or another day's run reported
    /// them: ends of a link may join PDUs otherwise than `obey` has it. Where all of them may be, their entry is added.
    /// Else the bench goes on behind an entry that begins with as many of them as any may, which isn't added. It needs
    /// the time of `obey` and one walk over the events, and memory for the numbers of PDUs that they show beside that
    /// of `obey`. A `raw` isn't followed while a peer is placed.
    pub fn follow(
        &mut self,
        line: u32,
        command: &Command,
        events: &[Event],
    ) -> Result<Followed, ObeyFault>
        ensures ok { IfOk result (λ f. Follows f self.old self.new line command.now events.now) }
        ensures refused { IsErrOf result ObeyFault.Refused → (self.new ≡ self.old) }
        ensures cause { IsErrOf result ObeyFault.Refused → MayFollow self.old.state command.now → ⊥ }
        ensures memory { IsErrOf result ObeyFault.Memory → LosesTrack self.old self.new command.now }
        ensures spoiled { self.old.spoiled ≡ true → IsErrOf result ObeyFault.Memory }
    {
        if self.spoiled {
            return Err(ObeyFault::Memory);
        }
        if let Command::Skip = command {
            return Ok(compared(&[], events));
        }
        if self.journal.reserve(1).is_err() {
            self.spoiled = true;
            return Err(ObeyFault::Memory);
        }
        match make_shown(self.alloc, &mut self.machines, line, command, events) {
            Ok(entry) => {
                let made = entry.events.as_slice();
                see_on_air(made);
                let followed = compared(made, events);
                record_followed(&mut self.journal, entry, followed);
                Ok(followed)
            }
            Err(ObeyFault::Refused) => Err(ObeyFault::Refused),
            Err(ObeyFault::Memory) => {
                self.machines.take_trace();
                self.spoiled = true;
                Err(ObeyFault::Memory)
            }
        }
    }
}
