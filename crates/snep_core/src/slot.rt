//! The slots of a client: what was staged on each, and how it ended.

ghost use Rattle.std.specs.Prelude.{◌≡◌, ◌<◌, ◌≤◌, Some, length, set};
ghost use Rattle.snep_core.specs.Slots.{AllFit, dropped, fresh_slots, has_staged, is_staged_at, job_from, marked_as};
ghost use Rattle.snep_core.specs.Slots.{most_staged, noted, outcome_of, put_left, slot_at, slot_count, some_staged};
ghost use Rattle.snep_core.specs.Slots.{staged_on, outcome_told};
ghost use Rattle.snep_core.specs.Calling.{slots_left};

use crate::client::CLIENT_SAP;
use crate::fault::SnepFault;
use crate::job::{Ending, Job, OnSap};
use nfc_base::Items;
use std::marker::Model;

/// How many slots a client has: one for each SAP from which it connects.
pub const SLOTS: usize = 8;

/// What a slot has: nothing was staged; a message waits; or its last message was accepted or rejected.
#[derive(Debug, Drop)]
pub enum Slot {
    NoMessage,
    Staged(Items<u8>),
    Success,
    Rejected,
}

/// What became of the message that was staged last on a slot.
#[derive(Clone, Copy, Debug, PartialEq, Eq)]
pub enum Outcome {
    /// None was staged, or the far end was given up before it was answered.
    NoMessage,
    /// It isn't answered yet.
    Staged,
    /// The far end told that it took it.
    Success,
    /// The far end told that it rejects it.
    Rejected,
}

/// The slots of a client, from its first.
#[derive(Debug, Drop)]
pub struct Slots {
    all: [Slot; SLOTS],
}

impl Model for Slots {
    ghost use Rattle.std.specs.Prelude.{◌≡◌, List, length};
    ghost use Rattle.snep_core.specs.Slots.{AllFit, Slot as Slot_, slot_count};

    ghost Value = { List Slot_ };

    ghost view = { λ s. s.all };

    ghost invariant = { λ s. AllFit s.all × (length s.all ≡ slot_count) };
}

impl Slot {
    /// What it tells.
    fn outcome(&self) -> Outcome
        ensures { result ≡ outcome_of self.now }
    {
        match self {
            Slot::NoMessage => Outcome::NoMessage,
            Slot::Staged(_) => Outcome::Staged,
            Slot::Success => Outcome::Success,
            Slot::Rejected => Outcome::Rejected,
        }
    }

    /// A message waits.
    fn is_staged(&self) -> bool
        ensures { result ≡ has_staged self.now }
    {
        matches!(self, Slot::Staged(_))
    }

    /// Its message was put alone, which ended so: it was accepted, or rejected, or its far end was given up; else it
    /// waits still.
    fn end_put(&mut self, ended: Result<(), SnepFault>)
        ensures { self.new ≡ put_left ended self.old }
    {
        match ended {
            Ok(()) => *self = Slot::Success,
            Err(SnepFault::BadPeer) => *self = Slot::NoMessage,
            Err(
                SnepFault::Reject
                | SnepFault::NotFound
                | SnepFault::Excess
                | SnepFault::NotImplemented,
            ) => *self = Slot::Rejected,
            Err(SnepFault::LinkEnded(_) | SnepFault::Memory | SnepFault::SlotBusy) => {}
        }
    }

    /// The message that waits is answered so, if it is.
    fn mark(&mut self, told: Outcome)
        ensures { self.new ≡ marked_as told self.old }
    {
        if !self.is_staged() {
            return;
        }
        match told {
            Outcome::Success => *self = Slot::Success,
            Outcome::Rejected => *self = Slot::Rejected,
            Outcome::NoMessage | Outcome::Staged => {}
        }
    }
}

/// What a job tells of the message that it puts.
fn told(job: &Job) -> Outcome
    ensures { result ≡ outcome_told (Some job.now) }
{
    match job {
        Job::Over(Ending::Done) => Outcome::Success,
        Job::Over(Ending::Refused(_)) => Outcome::Rejected,
        _ => Outcome::Staged,
    }
}

/// What the job on the connection from a SAP tells.
fn told_from(sap: u8, jobs: &[OnSap]) -> Outcome
    ensures { result ≡ outcome_told (job_from sap jobs.now) }
{
    'jobs: for one in jobs {
        if one.sap == sap {
            return told(&one.job);
        }
    }
    Outcome::Staged
}

/// Of each slot, in their order: the message that waits is answered, where the job from its SAP is over.
fn note_all(slots: &mut [Slot], jobs: &[OnSap])
    requires { length slots.old ≤ slot_count }
    ensures { slots.new ≡ noted jobs.now slots.old }
{
    let mut sap = CLIENT_SAP;
    'slots: for slot in slots.iter_mut() {
        slot.mark(told_from(sap, jobs));
        sap += 1;
    }
}

/// Messages that wait are dropped.
fn drop_staged(slots: &mut [Slot])
    ensures { slots.new ≡ dropped slots.old }
{
    'slots: for slot in slots.iter_mut() {
        if slot.is_staged() {
            *slot = Slot::NoMessage;
        }
    }
}

/// A message waits in some slot.
fn any_staged(slots: &[Slot]) -> bool
    ensures { result ≡ some_staged slots.now }
{
    'slots: for slot in slots {
        if slot.is_staged() {
            return true;
        }
    }
    false
}

impl Slots {
    /// Slots on which nothing was staged.
    pub(crate) fn new() -> Slots
        ensures { result ≡ fresh_slots }
    {
        Slots {
            all: [
                Slot::NoMessage,
                Slot::NoMessage,
                Slot::NoMessage,
                Slot::NoMessage,
                Slot::NoMessage,
                Slot::NoMessage,
                Slot::NoMessage,
                Slot::NoMessage,
            ],
        }
    }

    pub(crate) fn as_slice(&self) -> &[Slot]
        ensures same { result.now ≡ self.now }
        ensures fit { AllFit self.now }
        ensures eight { length self.now ≡ slot_count }
    {
        &self.all
    }

    /// A message waits in some slot.
    pub(crate) fn any_staged(&self) -> bool
        ensures { result ≡ some_staged self.now }
    {
        any_staged(&self.all)
    }

    /// A message waits in a slot.
    pub(crate) fn is_staged(&self, slot: u8) -> bool
        requires { slot < 8 }
        ensures { result ≡ is_staged_at self.now slot }
    {
        self.all[slot as usize].is_staged()
    }

    /// A message of at most 65,536 bytes waits in a slot from now on.
    pub(crate) fn stage(&mut self, slot: u8, message: Items<u8>)
        requires slot { slot < 8 }
        requires message { length message ≤ most_staged }
        ensures { self.new ≡ staged_on self.old slot message }
    {
        self.all[slot as usize] = Slot::Staged(message);
    }

    /// The message of a slot was put alone, which ended so.
    pub(crate) fn end_put(&mut self, slot: u8, ended: Result<(), SnepFault>)
        requires { slot < 8 }
        ensures { self.new ≡ set self.old slot (put_left ended (slot_at self.old slot)) }
    {
        self.all[slot as usize].end_put(ended);
    }

    /// What a slot tells.
    pub(crate) fn outcome(&self, slot: u8) -> Outcome
        requires { slot < 8 }
        ensures { result ≡ outcome_of (slot_at self.now slot) }
    {
        self.all[slot as usize].outcome()
    }

    /// The messages that wait are answered as the jobs of their SAPs are.
    pub(crate) fn note(&mut self, jobs: &[OnSap])
        ensures { self.new ≡ noted jobs.now self.old }
    {
        note_all(&mut self.all, jobs);
    }

    /// What a fault leaves of the messages that wait: a far end that is given up leaves none.
    pub(crate) fn leave(&mut self, fault: SnepFault)
        ensures { self.new ≡ slots_left fault self.old }
    {
        match fault {
            SnepFault::BadPeer => drop_staged(&mut self.all),
            SnepFault::Reject
            | SnepFault::NotFound
            | SnepFault::Excess
            | SnepFault::NotImplemented
            | SnepFault::LinkEnded(_)
            | SnepFault::Memory
            | SnepFault::SlotBusy => {}
        }
    }
}
