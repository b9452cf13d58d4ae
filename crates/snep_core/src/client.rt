//! A client of a SNEP server, over whatever carries payloads.

ghost use Rattle.std.specs.Prelude.{◌≡◌, ◌<◌, ◌≤◌, ◌⊎◌, ◌↔◌, [], length, true, false, Err, IfOk, IfErr, OnOk};
ghost use Rattle.llcp_link.specs.Asking.{is_open_by, looked_up};
ghost use Rattle.snep_core.specs.Accord.{Accords, AsideFails, AtPeers, GetFails, IsBegun, IsClosed, IsFound, IsGot};
ghost use Rattle.snep_core.specs.Accord.{IsTaken, PeerState, PutFails};
ghost use Rattle.snep_core.specs.Calling.{FailsBy, RequestFails, Talks, is_memory, refused_by};
ghost use Rattle.snep_core.specs.Jobs.{Done, Over, Refused, Sap, Value};
ghost use Rattle.snep_core.specs.Slots.{fresh_slots, is_staged_at, put_alone};
ghost use Rattle.snep_core.specs.Talk.{Ends, Finds, Gets, Puts, all_closed, alone, begins, begins_from, begun};
ghost use Rattle.snep_core.specs.Talk.{client_sap, closes, connected, gave_between as gave, is_waiting as awaits};
ghost use Rattle.snep_core.specs.Talk.{one_on, own_of, sap_of_slot, stands_of};
ghost use Rattle.snep_core.specs.private.Waning.{Getting, IsOf, aim_by};
ghost use Rattle.snep_core.specs.declared.fault.SnepFault.{SnepFault};
ghost use Rattle.snep_core.specs.declared.job.Job.{Job};
ghost use Rattle.snep_core.specs.declared.job.Refusal.{Refusal as Refusal_};

use crate::fault::SnepFault;
use crate::job::{Ending, Job};
use crate::message::{GET, PUT, write_request};
use crate::server::SNEP_SAP;
use crate::silent::NoService;
use crate::slot::Slots;
use bytes::Bytes;
use llcp_link::{Counts, FIRST_SAP, Llc, LlcFault, Standing};
use nfc_base::{Answerer, Carrier, Items};
use std::alloc::Global;
use std::marker::Model;

/// The SAP of this end from which a client connects.
pub const CLIENT_SAP: u8 = FIRST_SAP;

/// The SAPs of its slots.
const CLIENT_SAPS: [u8; 8] = [32, 33, 34, 35, 36, 37, 38, 39];

/// A client's end of a link, over which its calls go. After want of memory it gives nothing more.
#[derive(Debug, Drop)]
pub struct ClientEnd {
    pub(crate) alloc: Global,
    pub(crate) llc: Llc<NoService>,
    pub(crate) spent: bool,
}

impl Model for ClientEnd {
    ghost use Rattle.snep_core.specs.Calling.{ClientEndState};

    ghost Value = { ClientEndState };

    ghost view = { λ c. record { llc = c.llc; spent = c.spent } };
}

/// A client of a SNEP server (NFC Forum SNEP 1.0) on one link. After want of memory it answers nothing else.
#[derive(Debug, Drop)]
pub struct Client {
    pub(crate) end: ClientEnd,
    pub(crate) slots: Slots,
}

impl Model for Client {
    ghost use Rattle.snep_core.specs.Calling.{ClientState};

    ghost Value = { ClientState };

    ghost view = { λ c. record { llc = c.end.llc; spent = c.end.spent; slots = c.slots } };
}

/// How a client's connection stands: whether a CC or DM is awaited, whether it is open, how many units were
/// acknowledged.
#[derive(Clone, Copy, Debug)]
pub struct Stands {
    waiting: bool,
    open_: bool,
    acked: u32,
}

/// A CC or DM is awaited.
pub(crate) fn is_waiting(standing: Standing) -> bool
    ensures { result ≡ awaits standing }
{
    match standing {
        Standing::Waiting => true,
        _ => false,
    }
}

/// Whether a reply gave something between two states.
pub(crate) fn gave_between(old: Stands, new: Stands) -> bool
    ensures { result ≡ gave old new }
{
    if old.waiting && !new.waiting {
        return true;
    }
    if old.open_ && new.open_ {
        return new.acked != old.acked;
    }
    false
}

/// The value that a get came to, or why it was refused.
fn value_of(ending: Ending) -> Result<Vec<u8>, SnepFault>
    requires { IsOf Getting ending }
    ensures value { IfOk result (λ value. ending ≡ Value value.items) }
    ensures refused { IfErr result (λ e. (why : Refusal_) × (ending ≡ Refused why) × (e ≡ refused_by why)) }
{
    match ending {
        Ending::Value(value) => Ok(value.into_vec()),
        Ending::Refused(refusal) => Err(refusal.fault()),
        Ending::Done | Ending::Sap(_) => unreachable!(),
    }
}

impl ClientEnd {
    /// Memory was wanting: each later call answers so.
    pub(crate) fn spend(&mut self) -> SnepFault
        ensures fault { result ≡ SnepFault.Memory }
        ensures spent { self.new.spent ≡ true }
        ensures same { self.new.llc ≡ self.old.llc }
    {
        self.spent = true;
        SnepFault::Memory
    }

    /// The connection from a SAP is open.
    pub(crate) fn is_open(&self, sap: u8) -> bool
        ensures { result ≡ is_open_by (own_of sap self.now.llc) }
    {
        match self.llc.standing(sap) {
            Standing::Open { .. } => true,
            _ => false,
        }
    }

    /// How the connection from a SAP stands.
    pub(crate) fn stands(&self, sap: u8) -> Stands
        ensures { result ≡ stands_of (own_of sap self.now.llc) }
    {
        let standing = self.llc.standing(sap);
        Stands {
            waiting: is_waiting(standing),
            open_: self.is_open(sap),
            acked: self.llc.acked(sap),
        }
    }

    /// Asks for a connection from a SAP, unless one is there.
    pub(crate) fn connect(&mut self, sap: u8) -> Result<(), SnepFault>
        requires sap { (32 ≤ sap) × (sap ≤ 39) }
        ensures ok { OnOk result (self.new.llc ≡ connected self.old.llc sap) }
        ensures going { OnOk result (self.new.spent ≡ self.old.spent) }
        ensures err { IfErr result (λ e. e ≡ SnepFault.Memory) }
        ensures spent { IfErr result (λ e. self.new.spent ≡ true) }
    {
        match self.llc.connect_from(sap, SNEP_SAP) {
            Ok(()) => Ok(()),
            Err(LlcFault::Busy) => Ok(()),
            Err(LlcFault::Memory | LlcFault::NameTaken | LlcFault::SapTaken) => Err(self.spend()),
        }
    }

    /// Asks at which SAP the far end has a name, and gives the number of the question.
    fn look_up(&mut self, name: &str) -> Result<u8, SnepFault>
        requires { length name.now ≤ 64 }
        ensures ok { IfOk result (λ tid. (tid ≡ self.old.llc.asked)
            × (self.new.llc ≡ looked_up self.old.llc name.now)) }
        ensures going { OnOk result (self.new.spent ≡ self.old.spent) }
        ensures err { IfErr result (λ e. e ≡ SnepFault.Memory) }
        ensures spent { IfErr result (λ e. self.new.spent ≡ true) }
    {
        match self.llc.lookup(name) {
            Err(_) => Err(self.spend()),
            Ok(tid) => Ok(tid),
        }
    }

    /// Asks for a connection from a SAP where none is there, and exchanges until the request was answered on it.
    fn ask<C: Carrier, A: Answerer>(
        &mut self,
        carrier: &mut C,
        far: &mut A,
        counts: Counts,
        sap: u8,
        most: Option<u32>,
        request: Bytes,
    ) -> Result<Ending, SnepFault>
        requires sap { (32 ≤ sap) × (sap ≤ 39) }
        requires ready { C.ready carrier.old }
        requires going { self.old.spent ≡ false }
        ensures ok { IfOk result (λ ending. Talks C.seen C.swaps A.steps A.stops counts
            (begun (connected self.old.llc sap) (one_on sap (Job.Begins most request)))
            carrier.old far.old (Ends (one_on sap (Over ending)) self.new.llc) carrier.new far.new) }
        ensures aim { IfOk result (λ ending. IsOf (aim_by most) ending) }
        ensures going { OnOk result (self.new.spent ≡ false) }
        ensures err { IfErr result (λ e. FailsBy C.seen C.swaps A.steps A.stops counts
            (begun (connected self.old.llc sap) (one_on sap (Job.Begins most request)))
            carrier.old far.old e self.new.llc carrier.new far.new) }
        ensures spent { IfErr result (λ e. self.new.spent ≡ is_memory e) }
        ensures ready { C.ready carrier.new }
        ensures same { C.lenders carrier.new ≡ C.lenders carrier.old }
    {
        match self.connect(sap) {
            Err(fault) => return Err(fault),
            Ok(()) => {}
        }
        match self.converse(carrier, far, counts, sap, Job::Begins(most, request)) {
            Err(fault) => Err(fault),
            Ok(ending) => Ok(ending),
        }
    }

    /// Puts a message of at most 65,536 bytes on the connection from the first SAP.
    fn put<C: Carrier, A: Answerer>(
        &mut self,
        carrier: &mut C,
        far: &mut A,
        counts: Counts,
        message: &[u8],
    ) -> Result<(), SnepFault>
        requires ready { C.ready carrier.old }
        requires going { self.old.spent ≡ false }
        requires message { length message.now ≤ 65536 }
        ensures ok { OnOk result (Talks C.seen C.swaps A.steps A.stops counts (begins self.old.llc (Puts message.now))
            carrier.old far.old (Ends (alone (Over Done)) self.new.llc) carrier.new far.new) }
        ensures going { OnOk result (self.new.spent ≡ false) }
        ensures err { IfErr result (λ e. RequestFails C.seen C.swaps A.steps A.stops client_sap counts
            (begins self.old.llc (Puts message.now)) carrier.old far.old e self.new.llc carrier.new far.new) }
        // Over a far end that serves as this project's server does, and with which the client accords:
        ensures taken { AtPeers A.steps A.stops self.old.llc far.old (λ view.
            OnOk result (IsTaken client_sap message.now (view far.old) self.new.llc (view far.new))) }
        ensures fails { AtPeers A.steps A.stops self.old.llc far.old (λ view.
            IfErr result (λ e. PutFails client_sap message.now (view far.old) e self.new.llc (view far.new))) }
        ensures spent { IfErr result (λ e. self.new.spent ≡ is_memory e) }
        ensures ready { C.ready carrier.new }
        ensures same { C.lenders carrier.new ≡ C.lenders carrier.old }
    {
        let request = match write_request(self.alloc, PUT, &[], message) {
            Err(_) => return Err(self.spend()),
            Ok(request) => request,
        };
        match self.ask(carrier, far, counts, CLIENT_SAP, None, request) {
            Err(fault) => Err(fault),
            Ok(Ending::Done) => Ok(()),
            Ok(Ending::Refused(refusal)) => Err(refusal.fault()),
            Ok(Ending::Value(_) | Ending::Sap(_)) => unreachable!(),
        }
    }
}

impl Client {
    /// A client over an end that was restarted with the other end's general bytes, and asked for no connection since.
    pub fn new(alloc: Global, llc: Llc<NoService>) -> Client
        requires { llc.own ≡ [] }
        ensures kept { result ≡ record { llc = llc; spent = false; slots = fresh_slots } }
        ensures accords { (peer : PeerState) → IsBegun llc peer → Accords result.llc peer }
    {
        Client {
            end: ClientEnd {
                alloc,
                llc,
                spent: false,
            },
            slots: Slots::new(),
        }
    }

    /// Puts a message of at most 65,536 bytes: it is staged on slot 0 and put alone, and what waits on other slots
    /// waits still.
    pub fn put<C: Carrier, A: Answerer>(
        &mut self,
        carrier: &mut C,
        far: &mut A,
        counts: Counts,
        message: &[u8],
    ) -> Result<(), SnepFault>
        requires ready { C.ready carrier.old }
        requires message { length message.now ≤ 65536 }
        ensures ok { OnOk result (Talks C.seen C.swaps A.steps A.stops counts (begins self.old.llc (Puts message.now))
            carrier.old far.old (Ends (alone (Over Done)) self.new.llc) carrier.new far.new) }
        ensures going { OnOk result ((self.old.spent ≡ false) × (self.new.spent ≡ false)) }
        ensures busy { self.old.spent ≡ false → (result ≡ Err SnepFault.SlotBusy)
            ↔ (is_staged_at self.old.slots 0 ≡ true) }
        ensures err { self.old.spent ≡ false → is_staged_at self.old.slots 0 ≡ false
            → IfErr result (λ e. RequestFails C.seen C.swaps A.steps A.stops client_sap counts
            (begins self.old.llc (Puts message.now)) carrier.old far.old e self.new.llc carrier.new far.new) }
        // Over a far end that serves as this project's server does, and with which the client accords:
        ensures taken { AtPeers A.steps A.stops self.old.llc far.old (λ view.
            OnOk result (IsTaken client_sap message.now (view far.old) self.new.llc (view far.new))) }
        ensures fails { is_staged_at self.old.slots 0 ≡ false → AtPeers A.steps A.stops self.old.llc far.old (λ view.
            IfErr result (λ e. PutFails client_sap message.now (view far.old) e self.new.llc (view far.new))) }
        ensures spent { IfErr result (λ e. self.new.spent ≡ is_memory e) }
        // The first slot tells how it ended, unless memory was wanting as the message was staged:
        ensures slots { self.old.spent ≡ false → is_staged_at self.old.slots 0 ≡ false
            → (self.new.slots ≡ put_alone result message.now self.old.slots)
            ⊎ ((result ≡ Err SnepFault.Memory) × (self.new.slots ≡ self.old.slots)
            × (carrier.new ≡ carrier.old) × (far.new ≡ far.old)) }
        ensures stays { (self.old.spent ≡ true) ⊎ (is_staged_at self.old.slots 0 ≡ true)
            → (self.new ≡ self.old) × (carrier.new ≡ carrier.old) × (far.new ≡ far.old) }
        ensures ready { C.ready carrier.new }
        ensures same { C.lenders carrier.new ≡ C.lenders carrier.old }
    {
        if self.end.spent {
            return Err(SnepFault::Memory);
        }
        if self.slots.is_staged(0) {
            return Err(SnepFault::SlotBusy);
        }
        let Ok(staged) = Items::from_bytes(self.end.alloc, message) else {
            return Err(self.end.spend());
        };
        self.slots.stage(0, staged);
        let ended = self.end.put(carrier, far, counts, message);
        self.slots.end_put(0, ended);
        ended
    }

    /// The value of a key of at most 65,536 bytes, where it has at most so many bytes, on the connection of a slot.
    pub fn get_on<C: Carrier, A: Answerer>(
        &mut self,
        carrier: &mut C,
        far: &mut A,
        counts: Counts,
        slot: u8,
        acceptable: u32,
        key: &[u8],
    ) -> Result<Vec<u8>, SnepFault>
        requires ready { C.ready carrier.old }
        requires slot { slot < 8 }
        requires key { length key.now ≤ 65536 }
        ensures ok { IfOk result (λ value. Talks C.seen C.swaps A.steps A.stops counts
            (begins_from self.old.llc (sap_of_slot slot) (Gets acceptable key.now)) carrier.old far.old
            (Ends (one_on (sap_of_slot slot) (Over (Value value.items))) self.new.llc) carrier.new far.new) }
        ensures going { OnOk result ((self.old.spent ≡ false) × (self.new.spent ≡ false)) }
        ensures err { self.old.spent ≡ false → IfErr result
            (λ e. RequestFails C.seen C.swaps A.steps A.stops (sap_of_slot slot) counts
            (begins_from self.old.llc (sap_of_slot slot) (Gets acceptable key.now)) carrier.old far.old e self.new.llc carrier.new far.new) }
        // Over a far end that serves as this project's server does, and with which the client accords:
        ensures value { AtPeers A.steps A.stops self.old.llc far.old (λ view.
            IfOk result (λ value. IsGot (sap_of_slot slot) acceptable key.now value.items (view far.old) self.new.llc (view far.new))) }
        ensures fails { AtPeers A.steps A.stops self.old.llc far.old (λ view.
            IfErr result (λ e. GetFails (sap_of_slot slot) acceptable key.now (view far.old) e self.new.llc (view far.new))) }
        ensures spent { IfErr result (λ e. self.new.spent ≡ is_memory e) }
        ensures slots { self.new.slots ≡ self.old.slots }
        ensures stays { self.old.spent ≡ true
            → (self.new ≡ self.old) × (carrier.new ≡ carrier.old) × (far.new ≡ far.old) }
        ensures ready { C.ready carrier.new }
        ensures same { C.lenders carrier.new ≡ C.lenders carrier.old }
    {
        if self.end.spent {
            return Err(SnepFault::Memory);
        }
        let request = match write_request(self.end.alloc, GET, &acceptable.to_be_bytes(), key) {
            Err(_) => return Err(self.end.spend()),
            Ok(request) => request,
        };
        let ending = match self.end.ask(
            carrier,
            far,
            counts,
            CLIENT_SAP + slot,
            Some(acceptable),
            request,
        ) {
            Err(fault) => return Err(fault),
            Ok(ending) => ending,
        };
        value_of(ending)
    }

    /// The value of a key of at most 65,536 bytes, where it has at most so many bytes, on the connection of slot 0.
    pub fn get<C: Carrier, A: Answerer>(
        &mut self,
        carrier: &mut C,
        far: &mut A,
        counts: Counts,
        acceptable: u32,
        key: &[u8],
    ) -> Result<Vec<u8>, SnepFault>
        requires ready { C.ready carrier.old }
        requires key { length key.now ≤ 65536 }
        ensures ok { IfOk result (λ value. Talks C.seen C.swaps A.steps A.stops counts
            (begins self.old.llc (Gets acceptable key.now)) carrier.old far.old (Ends (alone (Over (Value value.items))) self.new.llc) carrier.new far.new) }
        ensures going { OnOk result ((self.old.spent ≡ false) × (self.new.spent ≡ false)) }
        ensures err { self.old.spent ≡ false → IfErr result
            (λ e. RequestFails C.seen C.swaps A.steps A.stops client_sap counts
            (begins self.old.llc (Gets acceptable key.now)) carrier.old far.old e self.new.llc carrier.new far.new) }
        // Over a far end that serves as this project's server does, and with which the client accords:
        ensures value { AtPeers A.steps A.stops self.old.llc far.old (λ view.
            IfOk result (λ value. IsGot client_sap acceptable key.now value.items (view far.old) self.new.llc (view far.new))) }
        ensures fails { AtPeers A.steps A.stops self.old.llc far.old (λ view.
            IfErr result (λ e. GetFails client_sap acceptable key.now (view far.old) e self.new.llc (view far.new))) }
        ensures spent { IfErr result (λ e. self.new.spent ≡ is_memory e) }
        ensures slots { self.new.slots ≡ self.old.slots }
        ensures stays { self.old.spent ≡ true
            → (self.new ≡ self.old) × (carrier.new ≡ carrier.old) × (far.new ≡ far.old) }
        ensures ready { C.ready carrier.new }
        ensures same { C.lenders carrier.new ≡ C.lenders carrier.old }
    {
        self.get_on(carrier, far, counts, 0, acceptable, key)
    }

    /// The SAP at which the far end has a name of at most 64 bytes, 0 where it has none.
    pub fn lookup<C: Carrier, A: Answerer>(
        &mut self,
        carrier: &mut C,
        far: &mut A,
        counts: Counts,
        name: &str,
    ) -> Result<u8, SnepFault>
        requires ready { C.ready carrier.old }
        requires name { length name.now ≤ 64 }
        ensures ok { IfOk result (λ sap. Talks C.seen C.swaps A.steps A.stops counts
            (begins self.old.llc (Finds name.now)) carrier.old far.old (Ends (alone (Over (Sap sap))) self.new.llc) carrier.new far.new) }
        ensures going { OnOk result ((self.old.spent ≡ false) × (self.new.spent ≡ false)) }
        ensures err { self.old.spent ≡ false → IfErr result (λ e. FailsBy C.seen C.swaps A.steps A.stops counts
            (begins self.old.llc (Finds name.now)) carrier.old far.old e self.new.llc carrier.new far.new) }
        // Over a far end that serves as this project's server does, and with which the client accords:
        ensures found { AtPeers A.steps A.stops self.old.llc far.old (λ view.
            IfOk result (λ sap. IsFound name.now (view far.old) sap self.new.llc (view far.new))) }
        ensures fails { AtPeers A.steps A.stops self.old.llc far.old (λ view.
            IfErr result (λ e. AsideFails (view far.old) e (view far.new))) }
        ensures spent { IfErr result (λ e. self.new.spent ≡ is_memory e) }
        ensures slots { self.new.slots ≡ self.old.slots }
        ensures stays { self.old.spent ≡ true
            → (self.new ≡ self.old) × (carrier.new ≡ carrier.old) × (far.new ≡ far.old) }
        ensures ready { C.ready carrier.new }
        ensures same { C.lenders carrier.new ≡ C.lenders carrier.old }
    {
        if self.end.spent {
            return Err(SnepFault::Memory);
        }
        let tid = match self.end.look_up(name) {
            Err(fault) => return Err(fault),
            Ok(tid) => tid,
        };
        match self
            .end
            .converse(carrier, far, counts, CLIENT_SAP, Job::Looks(tid))
        {
            Err(fault) => Err(fault),
            Ok(Ending::Sap(sap)) => Ok(sap),
            Ok(Ending::Done | Ending::Value(_) | Ending::Refused(_)) => unreachable!(),
        }
    }

    /// Ends all its connections that are open.
    pub fn close<C: Carrier, A: Answerer>(
        &mut self,
        carrier: &mut C,
        far: &mut A,
        counts: Counts,
    ) -> Result<(), SnepFault>
        requires ready { C.ready carrier.old }
        ensures ok { OnOk result (Talks C.seen C.swaps A.steps A.stops counts (closes self.old.llc)
            carrier.old far.old (Ends all_closed self.new.llc) carrier.new far.new) }
        ensures going { OnOk result ((self.old.spent ≡ false) × (self.new.spent ≡ false)) }
        ensures err { self.old.spent ≡ false → IfErr result (λ e. FailsBy C.seen C.swaps A.steps A.stops counts
            (closes self.old.llc) carrier.old far.old e self.new.llc carrier.new far.new) }
        // Over a far end that serves as this project's server does, and with which the client accords:
        ensures closed { AtPeers A.steps A.stops self.old.llc far.old (λ view.
            OnOk result (IsClosed (view far.old) self.new.llc (view far.new))) }
        ensures fails { AtPeers A.steps A.stops self.old.llc far.old (λ view.
            IfErr result (λ e. AsideFails (view far.old) e (view far.new))) }
        ensures spent { IfErr result (λ e. self.new.spent ≡ is_memory e) }
        ensures slots { self.new.slots ≡ self.old.slots }
        ensures stays { self.old.spent ≡ true
            → (self.new ≡ self.old) × (carrier.new ≡ carrier.old) × (far.new ≡ far.old) }
        ensures ready { C.ready carrier.new }
        ensures same { C.lenders carrier.new ≡ C.lenders carrier.old }
    {
        if self.end.spent {
            return Err(SnepFault::Memory);
        }
        if !self.end.any_open(&CLIENT_SAPS) {
            return Ok(());
        }
        let jobs = match self.end.leave_all(&CLIENT_SAPS) {
            Err(fault) => return Err(fault),
            Ok(jobs) => jobs,
        };
        match self
            .end
            .converse_all(carrier, far, counts, jobs, &mut Slots::new())
        {
            Err(fault) => Err(fault),
            Ok(ended) => {
                drop(ended);
                Ok(())
            }
        }
    }
}
