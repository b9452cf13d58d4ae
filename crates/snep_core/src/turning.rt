//! What a client exchanges with a far end until its jobs are over.

ghost use Rattle.std.specs.Prelude.{◌≡◌, ◌<◌, ℕ, List, false, true, [], IfOk, IfErr, OnOk};
ghost use Rattle.snep_core.specs.Calling.{ExchangedOnce, FailsAt, FailsBy, IsCut, IsStep, Talks, Turned, fault_of};
ghost use Rattle.snep_core.specs.Calling.{is_memory};
ghost use Rattle.snep_core.specs.Jobs.{Over};
ghost use Rattle.snep_core.specs.Listening.{all_awaiting, forgets};
ghost use Rattle.snep_core.specs.RepliesLeft.{IsUnderWay};
ghost use Rattle.snep_core.specs.Slots.{noted};
ghost use Rattle.snep_core.specs.Talk.{AreApart, Ends, OnSap, all_over as over_by, begun, idle_after, most_idle};
ghost use Rattle.snep_core.specs.Talk.{one_on, ready, saps as saps_by, settled};
ghost use Rattle.snep_core.specs.private.Waning.{IsOf, aim_of};
ghost use Rattle.snep_core.specs.declared.fault.SnepFault.{SnepFault};
ghost use Rattle.snep_core.specs.declared.job.Ending.{Ending as Ending_};

use crate::client::ClientEnd;
use crate::fault::SnepFault;
use crate::job::{Awaiting, Ending, Job, OnSap, Turn};
use crate::slot::Slots;
use llcp_link::Counts;
use nfc_base::{Answerer, Carrier, EndCause, Items};
use std::alloc::{AllocError, Global};

/// Replies that gave nothing, in a row, before a far end is given up.
const MOST_IDLE: u8 = 16;

/// All jobs are over.
fn all_over(jobs: &[OnSap]) -> bool
    ensures { result ≡ over_by jobs.now }
{
    'jobs: for one in jobs {
        if !one.job.is_over() {
            return false;
        }
    }
    true
}

/// The SAPs of jobs.
fn saps_of(alloc: Global, jobs: &[OnSap]) -> Result<Vec<u8>, AllocError>
    ensures { IfOk result (λ saps. saps.items ≡ saps_by jobs.now) }
{
    let mut saps = Vec::new(alloc);
    'jobs: for one in jobs {
        saps.push(one.sap)?;
    }
    Ok(saps)
}

/// What the only job of a call came to.
fn only_ending(jobs: Items<OnSap>) -> Ending
    requires { (sap : ℕ) × (ending : Ending_) × (jobs ≡ one_on sap (Over ending)) }
    ensures { (sap : ℕ) → (ending : Ending_) → jobs ≡ one_on sap (Over ending) → result ≡ ending }
{
    let mut jobs = jobs.into_vec();
    match jobs.pop() {
        Some(
            OnSap {
                job: Job::Over(ending),
                ..
            },
        ) => ending,
        _ => unreachable!(),
    }
}

impl ClientEnd {
    /// The link ended by this cause.
    fn ended(&mut self, cause: EndCause) -> SnepFault
        requires { self.old.spent ≡ false }
        ensures fault { result ≡ fault_of cause }
        ensures spent { self.new.spent ≡ is_memory (fault_of cause) }
        ensures same { self.new.llc ≡ self.old.llc }
    {
        match cause {
            EndCause::Memory => self.spend(),
            EndCause::FieldLost | EndCause::SixBad | EndCause::Protocol => {
                SnepFault::LinkEnded(cause)
            }
        }
    }

    /// The jobs, each with how its connection stands as the payload was given.
    fn awaiting(&mut self, jobs: Vec<OnSap>) -> Result<Vec<Awaiting>, SnepFault>
        ensures ok { IfOk result (λ all. all.items ≡ all_awaiting self.old.llc jobs.items) }
        ensures same { self.new.llc ≡ self.old.llc }
        ensures going { OnOk result (self.new.spent ≡ self.old.spent) }
        ensures err { IfErr result (λ e. e ≡ SnepFault.Memory) }
        ensures spent { IfErr result (λ e. self.new.spent ≡ true) }
    {
        let mut all = Vec::new(self.alloc);
        'jobs: for one in jobs {
            let OnSap { sap, job } = one;
            let awaiting = Awaiting {
                sap,
                job,
                before: self.stands(sap),
                waiting: self.llc.has_waiting(sap),
            };
            if all.push(awaiting).is_err() {
                return Err(self.spend());
            }
        }
        Ok(all)
    }

    /// One exchange: the next payload goes out, with so many PDUs, and its reply is taken. Given back are the jobs as
    /// they stood between the two.
    fn exchange<C: Carrier, A: Answerer>(
        &mut self,
        carrier: &mut C,
        far: &mut A,
        count: u32,
        jobs: Vec<OnSap>,
    ) -> Result<Vec<Awaiting>, SnepFault>
        requires ready { C.ready carrier.old }
        requires going { self.old.spent ≡ false }
        ensures ok { IfOk result (λ all.
            ExchangedOnce C.seen C.swaps A.steps A.stops count jobs.items self.old.llc carrier.old far.old all.items
            self.new.llc carrier.new far.new) }
        ensures going { OnOk result (self.new.spent ≡ false) }
        ensures err { IfErr result (λ e.
            IsCut C.seen C.swaps A.steps A.stops count self.old.llc carrier.old far.old e self.new.llc
            carrier.new far.new) }
        ensures spent { IfErr result (λ e. self.new.spent ≡ is_memory e) }
        ensures ready { C.ready carrier.new }
        ensures same { C.lenders carrier.new ≡ C.lenders carrier.old }
    {
        let mut out = Vec::new(self.alloc);
        if self.llc.give(count, &mut out).is_err() {
            return Err(self.spend());
        }
        let all = match self.awaiting(jobs) {
            Err(fault) => return Err(fault),
            Ok(all) => all,
        };
        match carrier.swap(self.alloc, &out, far) {
            Err(end) => Err(self.ended(end.cause)),
            Ok(reply) => {
                if self.llc.take(&reply).is_err() {
                    return Err(self.spend());
                }
                Ok(all)
            }
        }
    }

    /// The connections from these SAPs are forgotten.
    fn forget_all(&mut self, saps: &[u8])
        ensures forgot { self.new.llc ≡ forgets saps.now self.old.llc }
        ensures same { self.new.spent ≡ self.old.spent }
    {
        'saps: for sap in saps {
            self.llc.forget(*sap);
        }
    }

    /// What the call is once its jobs, on the connections from these SAPs, came to this.
    fn settle(&mut self, saps: &[u8], jobs: Items<OnSap>, gave: bool, idle: u8) -> Turn
        requires idle { idle < most_idle }
        requires saps { saps.now ≡ saps_by jobs }
        ensures step { IsStep (settled self.old.llc jobs (idle_after gave idle)) result self.new.llc }
        ensures same { self.new.spent ≡ self.old.spent }
    {
        if all_over(jobs.as_slice()) {
            return Turn::Ended(jobs);
        }
        let next = if gave { 0 } else { idle + 1 };
        if next < MOST_IDLE {
            return Turn::Went(jobs, next);
        }
        self.forget_all(saps);
        Turn::GaveUp
    }

    /// One exchange of a call whose jobs are on the connections from these SAPs, and what the call is then.
    fn turn<C: Carrier, A: Answerer>(
        &mut self,
        carrier: &mut C,
        far: &mut A,
        count: u32,
        saps: &[u8],
        jobs: Vec<OnSap>,
        idle: u8,
    ) -> Result<Turn, SnepFault>
        requires ready { C.ready carrier.old }
        requires going { self.old.spent ≡ false }
        requires idle { idle < most_idle }
        requires saps { saps.now ≡ saps_by jobs.items }
        requires apart { AreApart jobs.items }
        ensures ok { IfOk result (λ turn. Turned C.seen C.swaps A.steps A.stops count
            (record { llc = self.old.llc; jobs = jobs.items; idle = idle })
            carrier.old far.old turn self.new.llc carrier.new far.new) }
        ensures going { OnOk result (self.new.spent ≡ false) }
        ensures err { IfErr result (λ e. IsCut C.seen C.swaps A.steps A.stops count
            (ready (record { llc = self.old.llc; jobs = jobs.items; idle = idle })).llc
            carrier.old far.old e self.new.llc carrier.new far.new) }
        ensures spent { IfErr result (λ e. self.new.spent ≡ is_memory e) }
        ensures ready { C.ready carrier.new }
        ensures same { C.lenders carrier.new ≡ C.lenders carrier.old }
    {
        let now = match self.all_ready(jobs) {
            Err(fault) => return Err(fault),
            Ok(now) => now,
        };
        let all = match self.exchange(carrier, far, count, now) {
            Err(fault) => return Err(fault),
            Ok(all) => all,
        };
        match self.all_hear(all) {
            Err(fault) => Err(fault),
            Ok(None) => {
                self.forget_all(saps);
                Ok(Turn::GaveUp)
            }
            Ok(Some(heard)) => Ok(self.settle(saps, heard.jobs, heard.gave, idle)),
        }
    }

    /// Exchanges until all jobs are over, each on a connection of its own, or the far end is given up. The messages
    /// that wait in slots are answered as the jobs of their SAPs are.
    pub(crate) fn converse_all<C: Carrier, A: Answerer>(
        &mut self,
        carrier: &mut C,
        far: &mut A,
        counts: Counts,
        first: Vec<OnSap>,
        slots: &mut Slots,
    ) -> Result<Items<OnSap>, SnepFault>
        requires ready { C.ready carrier.old }
        requires going { self.old.spent ≡ false }
        requires under_way { IsUnderWay (record { llc = self.old.llc; jobs = first.items; idle = 0 }) }
        ensures ok { IfOk result (λ jobs. Talks C.seen C.swaps A.steps A.stops counts (begun self.old.llc first.items)
            carrier.old far.old (Ends jobs self.new.llc) carrier.new far.new) }
        ensures told { IfOk result (λ jobs. slots.new ≡ noted jobs slots.old) }
        ensures going { OnOk result (self.new.spent ≡ false) }
        ensures err { IfErr result (λ e. (jobs : List OnSap) × FailsAt C.seen C.swaps A.steps A.stops counts
            (begun self.old.llc first.items) carrier.old far.old jobs e self.new.llc carrier.new far.new
            × (slots.new ≡ noted jobs slots.old)) }
        ensures spent { IfErr result (λ e. self.new.spent ≡ is_memory e) }
        ensures ready { C.ready carrier.new }
        ensures same { C.lenders carrier.new ≡ C.lenders carrier.old }
    {
        slots.note(&first);
        let Ok(saps) = saps_of(self.alloc, &first) else {
            return Err(self.spend());
        };
        let mut left = counts;
        let mut jobs = first;
        let mut idle = 0;
        'turns: while idle < MOST_IDLE {
            match self.turn(carrier, far, left.next(), &saps, jobs, idle) {
                Err(fault) => return Err(fault),
                Ok(Turn::Ended(ended)) => {
                    slots.note(ended.as_slice());
                    return Ok(ended);
                }
                Ok(Turn::GaveUp) => return Err(SnepFault::BadPeer),
                Ok(Turn::Went(next, replies)) => {
                    jobs = next.into_vec();
                    slots.note(&jobs);
                    idle = replies;
                }
            }
        }
        unreachable!()
    }

    /// Exchanges until the job on the connection from a SAP is over, or the far end is given up.
    pub(crate) fn converse<C: Carrier, A: Answerer>(
        &mut self,
        carrier: &mut C,
        far: &mut A,
        counts: Counts,
        sap: u8,
        first: Job,
    ) -> Result<Ending, SnepFault>
        requires ready { C.ready carrier.old }
        requires going { self.old.spent ≡ false }
        ensures ok { IfOk result (λ ending. Talks C.seen C.swaps A.steps A.stops counts
            (begun self.old.llc (one_on sap first))
            carrier.old far.old (Ends (one_on sap (Over ending)) self.new.llc) carrier.new far.new) }
        ensures aim { IfOk result (λ ending. IsOf (aim_of first) ending) }
        ensures going { OnOk result (self.new.spent ≡ false) }
        ensures err { IfErr result (λ e. FailsBy C.seen C.swaps A.steps A.stops counts
            (begun self.old.llc (one_on sap first))
            carrier.old far.old e self.new.llc carrier.new far.new) }
        ensures spent { IfErr result (λ e. self.new.spent ≡ is_memory e) }
        ensures ready { C.ready carrier.new }
        ensures same { C.lenders carrier.new ≡ C.lenders carrier.old }
    {
        // The units acknowledged so far are counted in a u32, which `under_way` asks.
        let units = self.llc.acked(sap);
        prove!(units <= u32::MAX);
        let mut jobs = Vec::new(self.alloc);
        if jobs.push(OnSap { sap, job: first }).is_err() {
            return Err(self.spend());
        }
        let told = self.converse_all(carrier, far, counts, jobs, &mut Slots::new());
        match told {
            Err(fault) => Err(fault),
            Ok(ended) => Ok(only_ending(ended)),
        }
    }
}
