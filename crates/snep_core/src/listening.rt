//! What a client makes of a reply that its end took.

ghost use Rattle.std.specs.List.{IsDistinct};
ghost use Rattle.std.specs.Prelude.{◌≡◌, ◌||◌, [], ◌∷◌, eqb, true, IfOk, IfErr, OnOk};
ghost use Rattle.snep_core.specs.Jobs.{has_byte};
ghost use Rattle.snep_core.specs.Listening.{Hears, HearsAll, HearsUnits, awaited_saps};
ghost use Rattle.snep_core.specs.Talk.{finished as finished_by, is_lost as lost_by, is_there as there_by};
ghost use Rattle.snep_core.specs.declared.fault.SnepFault.{SnepFault};

use crate::client::{ClientEnd, gave_between, is_waiting};
use crate::fault::SnepFault;
use crate::hearing::hear_unit;
use crate::job::{Awaiting, Ending, Heard, HeardAll, Job, OnSap};
use llcp_link::Standing;
use nfc_base::Items;

/// A connection is open, or its CC or DM is awaited.
fn is_there(standing: Standing) -> bool
    ensures { result ≡ there_by standing }
{
    match standing {
        Standing::Waiting | Standing::Open { .. } => true,
        Standing::Nothing | Standing::Refused | Standing::Closed => false,
    }
}

/// A unit with a byte came before, or this has one.
fn gives_more(some: bool, bytes: &[u8]) -> bool
    ensures { result ≡ (some || has_byte (bytes.now ∷ [])) }
{
    if some {
        return true;
    }
    match bytes {
        [_, ..] => true,
        [] => false,
    }
}

/// A job before gave something, or this one did: on its connection, or by a unit with a byte.
fn gave_so_far(gave: bool, given: bool, some: bool) -> bool
    ensures { result ≡ ((gave || given) || some) }
{
    gave || given || some
}

impl ClientEnd {
    /// The units that were handed up on the connection from a SAP, each taken away. None where one of them puts the far
    /// end at fault, or comes while one of this end's waits to be given.
    fn hear_units(&mut self, sap: u8, first: Job, waiting: bool) -> Result<Option<Heard>, SnepFault>
        ensures ok { IfOk result (λ heard. HearsUnits sap waiting self.old.llc first heard self.new.llc) }
        ensures going { OnOk result (self.new.spent ≡ self.old.spent) }
        ensures err { IfErr result (λ e. e ≡ SnepFault.Memory) }
        ensures spent { IfErr result (λ e. self.new.spent ≡ true) }
    {
        let mut job = first;
        let mut some = false;
        'units: while let Some(unit) = self.llc.unit(sap) {
            if waiting {
                return Ok(None);
            }
            let bytes = unit.as_slice();
            some = gives_more(some, bytes);
            match hear_unit(self.alloc, job, bytes) {
                Err(_) => return Err(self.spend()),
                Ok(None) => return Ok(None),
                Ok(Some(next)) => job = next,
            }
        }
        Ok(Some(Heard { job, some }))
    }

    /// The job needs its connection, and the far end refused or closed this.
    fn is_lost(&self, sap: u8, job: &Job) -> bool
        ensures { result ≡ lost_by self.now.llc sap job.now }
    {
        match job {
            Job::Looks(_) | Job::Closes | Job::Over(_) => false,
            Job::Begins(..) | Job::Waits(..) | Job::Sends(..) | Job::Asks(..) | Job::Collects(..) =>
                { !is_there(self.llc.standing(sap)) }
        }
    }

    /// A lookup that was told is over, and the end of a connection whose DM came.
    fn finished(&self, sap: u8, job: Job) -> Job
        ensures { result ≡ finished_by self.now.llc sap job }
    {
        match job {
            Job::Looks(tid) => match self.llc.found(tid) {
                None => Job::Looks(tid),
                Some(sap) => Job::Over(Ending::Sap(sap)),
            },
            Job::Closes => {
                if is_waiting(self.llc.standing(sap)) {
                    Job::Closes
                } else {
                    Job::Over(Ending::Done)
                }
            }
            Job::Begins(most, bytes) => Job::Begins(most, bytes),
            Job::Waits(most, rest) => Job::Waits(most, rest),
            Job::Sends(most, rest) => Job::Sends(most, rest),
            Job::Asks(size, have) => Job::Asks(size, have),
            Job::Collects(size, have) => Job::Collects(size, have),
            Job::Over(ending) => Job::Over(ending),
        }
    }

    /// What was heard makes of the job on the connection from a SAP, where a unit of this end waits to be given or none
    /// does. None where the far end is at fault.
    fn hear(&mut self, sap: u8, job: Job, waiting: bool) -> Result<Option<Heard>, SnepFault>
        ensures ok { IfOk result (λ heard. Hears sap waiting self.old.llc job heard self.new.llc) }
        ensures going { OnOk result (self.new.spent ≡ self.old.spent) }
        ensures err { IfErr result (λ e. e ≡ SnepFault.Memory) }
        ensures spent { IfErr result (λ e. self.new.spent ≡ true) }
    {
        let heard = match self.hear_units(sap, job, waiting) {
            Err(fault) => return Err(fault),
            Ok(heard) => heard,
        };
        let Some(heard) = heard else {
            return Ok(None);
        };
        if self.is_lost(sap, &heard.job) {
            return Ok(None);
        }
        let Heard { job, some } = heard;
        Ok(Some(Heard {
            job: self.finished(sap, job),
            some,
        }))
    }

    /// What was heard makes of all jobs, each on a connection of its own, and whether the reply gave something to one
    /// of them. None where the far end is at fault.
    pub(crate) fn all_hear(&mut self, all: Vec<Awaiting>) -> Result<Option<HeardAll>, SnepFault>
        requires apart { IsDistinct eqb (awaited_saps all.items) }
        ensures ok { IfOk result (λ heard. HearsAll self.old.llc all.items heard self.new.llc) }
        ensures going { OnOk result (self.new.spent ≡ self.old.spent) }
        ensures err { IfErr result (λ e. e ≡ SnepFault.Memory) }
        ensures spent { IfErr result (λ e. self.new.spent ≡ true) }
    {
        let mut jobs = Vec::new(self.alloc);
        let mut gave = false;
        'all: for one in all {
            let Awaiting {
                sap,
                job,
                before,
                waiting,
            } = one;
            let given = gave_between(before, self.stands(sap));
            let heard = match self.hear(sap, job, waiting) {
                Err(fault) => return Err(fault),
                Ok(None) => return Ok(None),
                Ok(Some(heard)) => heard,
            };
            let Heard { job, some } = heard;
            gave = gave_so_far(gave, given, some);
            if jobs.push(OnSap { sap, job }).is_err() {
                return Err(self.spend());
            }
        }
        Ok(Some(HeardAll {
            jobs: Items::new(jobs),
            gave,
        }))
    }
}
