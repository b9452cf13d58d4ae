//! What a client submits before a payload is given.

ghost use Rattle.std.specs.Prelude.{◌≡◌, ◌≤◌, ◌<◌, true, take, drop, if◌then◌else◌, IfOk, IfErr, IfSome, OnOk};
ghost use Rattle.llcp_link.specs.Asking.{standing_of};
ghost use Rattle.snep_core.specs.Listening.{Offered};
ghost use Rattle.snep_core.specs.Talk.{all_readied, asks_on, begins_on, miu_of, own_of, readied, ready_so, sends_on};
ghost use Rattle.snep_core.specs.private.Waning.{Aim, Serves};
ghost use Rattle.snep_core.specs.declared.fault.SnepFault.{SnepFault};
ghost use Rattle.snep_core.specs.declared.job.Job.{Job};

use crate::client::ClientEnd;
use crate::fault::SnepFault;
use crate::job::{Job, OnSap};
use bytes::Bytes;
use llcp_conn::ConnFault;
use llcp_link::Standing;
use nfc_base::Items;

/// A continue.
const CONTINUE_BYTES: [u8; 6] = [0x10, 0, 0, 0, 0, 0];

/// The most bytes of a unit, where the connection is open.
fn miu_by(standing: Standing) -> Option<u16>
    ensures exact { result ≡ miu_of standing }
    ensures some { IfSome result (λ miu. 0 < miu) }
{
    match standing {
        Standing::Open { miu } if miu > 0 => Some(miu),
        _ => None,
    }
}

impl ClientEnd {
    /// Submits a unit on the connection from a SAP, if it may be submitted now.
    fn offer(&mut self, sap: u8, unit: &[u8]) -> Result<bool, SnepFault>
        ensures ok { IfOk result (λ taken. Offered sap self.old.llc unit.now taken self.new.llc) }
        ensures going { OnOk result (self.new.spent ≡ self.old.spent) }
        ensures err { IfErr result (λ e. e ≡ SnepFault.Memory) }
        ensures spent { IfErr result (λ e. self.new.spent ≡ true) }
    {
        match self.llc.submit(sap, unit) {
            Ok(()) => Ok(true),
            Err(ConnFault::Memory) => Err(self.spend()),
            Err(ConnFault::WindowFull | ConnFault::TooLong | ConnFault::NotOpen) => Ok(false),
        }
    }

    /// Submits the first of these bytes as a unit, if it may be submitted now, and takes them away.
    fn offer_front(&mut self, sap: u8, bytes: &mut Bytes, miu: u16) -> Result<bool, SnepFault>
        ensures ok { IfOk result (λ taken. Offered sap self.old.llc (take miu bytes.old) taken self.new.llc) }
        ensures rest { IfOk result (λ taken. bytes.new ≡ (if taken then drop miu bytes.old else bytes.old)) }
        ensures going { OnOk result (self.new.spent ≡ self.old.spent) }
        ensures err { IfErr result (λ e. e ≡ SnepFault.Memory) }
        ensures spent { IfErr result (λ e. self.new.spent ≡ true) }
    {
        let size = bytes.len().min(miu as usize);
        let taken = self.offer(sap, &bytes.as_slice()[..size])?;
        if taken {
            bytes.advance(size);
        }
        Ok(taken)
    }

    /// The first unit of a request, alone.
    fn begin_on(&mut self, sap: u8, most: Option<u32>, bytes: Bytes) -> Result<Job, SnepFault>
        ensures ok { IfOk result (λ job.
            begins_on self.old.llc sap most bytes (miu_of (standing_of (own_of sap self.old.llc)))
            ≡ ready_so self.new.llc job) }
        ensures going { OnOk result (self.new.spent ≡ self.old.spent) }
        ensures err { IfErr result (λ e. e ≡ SnepFault.Memory) }
        ensures spent { IfErr result (λ e. self.new.spent ≡ true) }
    {
        let Some(miu) = miu_by(self.llc.standing(sap)) else {
            return Ok(Job::Begins(most, bytes));
        };
        let mut rest = bytes;
        let taken = self.offer_front(sap, &mut rest, miu)?;
        if !taken {
            return Ok(Job::Begins(most, rest));
        }
        if rest.is_empty() {
            return Ok(Job::Sends(most, rest));
        }
        Ok(Job::Waits(most, rest))
    }

    /// What is left of a request, as far as the window allows.
    fn send_on(&mut self, sap: u8, most: Option<u32>, bytes: Bytes) -> Result<Job, SnepFault>
        ensures ok { IfOk result (λ job.
            sends_on self.old.llc sap most bytes (miu_of (standing_of (own_of sap self.old.llc)))
            ≡ ready_so self.new.llc job) }
        ensures going { OnOk result (self.new.spent ≡ self.old.spent) }
        ensures err { IfErr result (λ e. e ≡ SnepFault.Memory) }
        ensures spent { IfErr result (λ e. self.new.spent ≡ true) }
    {
        let Some(miu) = miu_by(self.llc.standing(sap)) else {
            return Ok(Job::Sends(most, bytes));
        };
        let mut rest = bytes;
        'units: while !rest.is_empty() {
            let taken = self.offer_front(sap, &mut rest, miu)?;
            if !taken {
                return Ok(Job::Sends(most, rest));
            }
        }
        Ok(Job::Sends(most, rest))
    }

    /// A continue for the rest of a value.
    fn ask_on(&mut self, sap: u8, size: u32, have: Items<u8>) -> Result<Job, SnepFault>
        ensures ok { IfOk result (λ job. asks_on self.old.llc sap size have ≡ ready_so self.new.llc job) }
        ensures going { OnOk result (self.new.spent ≡ self.old.spent) }
        ensures err { IfErr result (λ e. e ≡ SnepFault.Memory) }
        ensures spent { IfErr result (λ e. self.new.spent ≡ true) }
    {
        let taken = self.offer(sap, &CONTINUE_BYTES)?;
        if taken {
            Ok(Job::Collects(size, have))
        } else {
            Ok(Job::Asks(size, have))
        }
    }

    /// What a job submits on the connection from its SAP before a payload is given.
    pub(crate) fn ready(&mut self, sap: u8, job: Job) -> Result<Job, SnepFault>
        ensures ok { IfOk result (λ now. readied self.old.llc sap job ≡ ready_so self.new.llc now) }
        ensures going { OnOk result (self.new.spent ≡ self.old.spent) }
        ensures err { IfErr result (λ e. e ≡ SnepFault.Memory) }
        ensures spent { IfErr result (λ e. self.new.spent ≡ true) }
    {
        match job {
            Job::Begins(most, bytes) => self.begin_on(sap, most, bytes),
            Job::Sends(most, rest) => self.send_on(sap, most, rest),
            Job::Asks(size, have) => self.ask_on(sap, size, have),
            Job::Waits(most, rest) => Ok(Job::Waits(most, rest)),
            Job::Collects(size, have) => Ok(Job::Collects(size, have)),
            Job::Looks(tid) => Ok(Job::Looks(tid)),
            Job::Closes => Ok(Job::Closes),
            Job::Over(ending) => Ok(Job::Over(ending)),
        }
    }

    /// What all jobs submit before a payload is given, one after the other.
    pub(crate) fn all_ready(&mut self, jobs: Vec<OnSap>) -> Result<Vec<OnSap>, SnepFault>
        ensures ok { IfOk result (λ now.
            all_readied jobs.items self.old.llc ≡ record { llc = self.new.llc; jobs = now.items }) }
        ensures going { OnOk result (self.new.spent ≡ self.old.spent) }
        ensures err { IfErr result (λ e. e ≡ SnepFault.Memory) }
        ensures spent { IfErr result (λ e. self.new.spent ≡ true) }
    {
        let mut now = Vec::new(self.alloc);
        'jobs: for one in jobs {
            let OnSap { sap, job } = one;
            let job = self.ready(sap, job)?;
            if now.push(OnSap { sap, job }).is_err() {
                return Err(self.spend());
            }
        }
        Ok(now)
    }
}
