//! A client that puts several messages at once, each on the connection of its slot.

ghost use Rattle.std.specs.List.{AllByRecursion};
ghost use Rattle.std.specs.Prelude.{◌≡◌, ◌<◌, ◌≤◌, ◌⊎◌, ◌++◌, [], false, length, true, IfErr, IfOk, OnErr, OnOk};
ghost use Rattle.snep_core.specs.Accord.{AtPeers, IsRun, RunFails};
ghost use Rattle.snep_core.specs.Calling.{RunFailsAt, RunsTo, is_memory};
ghost use Rattle.snep_core.specs.RepliesLeft.{IsBelowCountEnd, task_saps};
ghost use Rattle.snep_core.specs.Slots.{AllFit, FitsSlot, all_puts, put_with, is_staged_at, outcome_of, slot_at};
ghost use Rattle.snep_core.specs.Slots.{slot_count, staged_on};
ghost use Rattle.snep_core.specs.Talk.{Puts, all_opening, opening, ready_so};
ghost use Rattle.snep_core.specs.declared.fault.SnepFault.{SnepFault};

use crate::client::{CLIENT_SAP, Client, ClientEnd};
use crate::fault::SnepFault;
use crate::job::{Job, OnSap};
use crate::message::{PUT, write_request};
use crate::slot::{Outcome, Slot};
use llcp_link::Counts;
use nfc_base::{Answerer, Carrier, Items};

impl ClientEnd {
    /// The put of a message begins: a connection is asked for from its SAP, unless one is there.
    fn begin_put(&mut self, sap: u8, message: &[u8]) -> Result<Job, SnepFault>
        requires sap { (32 ≤ sap) × (sap ≤ 39) }
        requires message { length message.now ≤ 65536 }
        ensures ok { IfOk result (λ job. opening self.old.llc sap (Puts message.now) ≡ ready_so self.new.llc job) }
        ensures counted { OnOk result (IsBelowCountEnd self.old.llc sap) }
        ensures going { OnOk result (self.new.spent ≡ self.old.spent) }
        ensures err { IfErr result (λ e. e ≡ SnepFault.Memory) }
        ensures spent { IfErr result (λ e. self.new.spent ≡ true) }
    {
        // The units acknowledged so far are counted in a u32, which `counted` tells.
        let units = self.llc.acked(sap);
        prove!(units <= u32::MAX);
        let request = match write_request(self.alloc, PUT, &[], message) {
            Err(_) => return Err(self.spend()),
            Ok(request) => request,
        };
        match self.connect(sap) {
            Err(fault) => Err(fault),
            Ok(()) => Ok(Job::Begins(None, request)),
        }
    }

    /// The put of a slot's message begins, where one waits, and stands behind other jobs.
    fn begin_slot(&mut self, sap: u8, slot: &Slot, jobs: &mut Vec<OnSap>) -> Result<(), SnepFault>
        requires sap { (32 ≤ sap) × (sap ≤ 39) }
        requires fit { FitsSlot slot.now }
        ensures llc { OnOk result (self.new.llc ≡ (all_opening (put_with sap slot.now []) self.old.llc).llc) }
        ensures jobs { OnOk result (jobs.new.items ≡ jobs.old.items
            ++ (all_opening (put_with sap slot.now []) self.old.llc).jobs) }
        ensures counted { OnOk result (AllByRecursion (IsBelowCountEnd self.old.llc)
            (task_saps (put_with sap slot.now []))) }
        ensures going { OnOk result (self.new.spent ≡ self.old.spent) }
        ensures err { IfErr result (λ e. e ≡ SnepFault.Memory) }
        ensures spent { IfErr result (λ e. self.new.spent ≡ true) }
    {
        match slot {
            Slot::NoMessage | Slot::Success | Slot::Rejected => Ok(()),
            Slot::Staged(message) => {
                let job = match self.begin_put(sap, message.as_slice()) {
                    Err(fault) => return Err(fault),
                    Ok(job) => job,
                };
                if jobs.push(OnSap { sap, job }).is_err() {
                    return Err(self.spend());
                }
                Ok(())
            }
        }
    }

    /// The puts of all messages that wait begin, one after the other.
    fn begin_all(&mut self, slots: &[Slot]) -> Result<Vec<OnSap>, SnepFault>
        requires slots { length slots.now ≡ slot_count }
        requires fit { AllFit slots.now }
        ensures ok { IfOk result (λ jobs.
            all_opening (all_puts slots.now) self.old.llc ≡ record { llc = self.new.llc; jobs = jobs.items }) }
        ensures counted { OnOk result (AllByRecursion (IsBelowCountEnd self.old.llc) (task_saps (all_puts slots.now))) }
        ensures going { OnOk result (self.new.spent ≡ self.old.spent) }
        ensures err { IfErr result (λ e. e ≡ SnepFault.Memory) }
        ensures spent { IfErr result (λ e. self.new.spent ≡ true) }
    {
        let mut jobs = Vec::new(self.alloc);
        let mut sap = CLIENT_SAP;
        'slots: for slot in slots {
            match self.begin_slot(sap, slot, &mut jobs) {
                Err(fault) => return Err(fault),
                Ok(()) => {}
            }
            sap += 1;
        }
        Ok(jobs)
    }
}

impl Client {
    /// Stages a message of at most 65,536 bytes on a slot: `run` puts it.
    pub fn stage(&mut self, slot: u8, message: &[u8]) -> Result<(), SnepFault>
        requires slot { slot < 8 }
        requires message { length message.now ≤ 65536 }
        ensures ok { OnOk result ((is_staged_at self.old.slots slot ≡ false)
            × (self.new ≡ record self.old { slots = staged_on self.old.slots slot message.now })) }
        ensures err { IfErr result (λ e. ((e ≡ SnepFault.SlotBusy) × (is_staged_at self.old.slots slot ≡ true))
            ⊎ ((e ≡ SnepFault.Memory) × (is_staged_at self.old.slots slot ≡ false))) }
        ensures same { OnErr result (self.new ≡ self.old) }
    {
        if self.slots.is_staged(slot) {
            return Err(SnepFault::SlotBusy);
        }
        if self.end.spent {
            return Err(SnepFault::Memory);
        }
        let Ok(message) = Items::from_bytes(self.end.alloc, message) else {
            return Err(SnepFault::Memory);
        };
        self.slots.stage(slot, message);
        Ok(())
    }

    /// What became of the message that was staged last on a slot.
    pub fn outcome(&self, slot: u8) -> Outcome
        requires { slot < 8 }
        ensures { result ≡ outcome_of (slot_at self.now.slots slot) }
    {
        self.slots.outcome(slot)
    }

    /// Puts all messages that wait at once, each on the connection of its slot.
    pub fn run<C: Carrier, A: Answerer>(
        &mut self,
        carrier: &mut C,
        far: &mut A,
        counts: Counts,
    ) -> Result<(), SnepFault>
        requires ready { C.ready carrier.old }
        ensures ok { OnOk result (RunsTo C.seen C.swaps A.steps A.stops counts self.old.llc self.old.slots
            carrier.old far.old self.new.llc self.new.slots carrier.new far.new) }
        ensures going { OnOk result ((self.old.spent ≡ false) × (self.new.spent ≡ false)) }
        ensures err { self.old.spent ≡ false → IfErr result (λ e. RunFailsAt C.seen C.swaps A.steps A.stops counts
            self.old.llc self.old.slots carrier.old far.old e self.new.llc self.new.slots carrier.new far.new) }
        // Over a far end that serves as this project's server does, and with which the client accords:
        ensures ran { AtPeers A.steps A.stops self.old.llc far.old (λ view.
            OnOk result (IsRun self.old.slots self.new.slots (view far.old) self.new.llc (view far.new))) }
        ensures fails { AtPeers A.steps A.stops self.old.llc far.old (λ view.
            IfErr result (λ e. RunFails self.old.slots self.new.slots (view far.old) e (view far.new))) }
        ensures spent { IfErr result (λ e. self.new.spent ≡ is_memory e) }
        ensures stays { self.old.spent ≡ true
            → (self.new ≡ self.old) × (carrier.new ≡ carrier.old) × (far.new ≡ far.old) }
        ensures ready { C.ready carrier.new }
        ensures same { C.lenders carrier.new ≡ C.lenders carrier.old }
    {
        if self.end.spent {
            return Err(SnepFault::Memory);
        }
        if !self.slots.any_staged() {
            return Ok(());
        }
        let jobs = match self.end.begin_all(self.slots.as_slice()) {
            Err(fault) => return Err(fault),
            Ok(jobs) => jobs,
        };
        match self
            .end
            .converse_all(carrier, far, counts, jobs, &mut self.slots)
        {
            Ok(jobs) => {
                drop(jobs);
                Ok(())
            }
            Err(fault) => {
                self.slots.leave(fault);
                Err(fault)
            }
        }
    }
}
