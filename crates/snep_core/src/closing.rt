//! A client that ends its connections.

ghost use Rattle.std.specs.List.{AllByRecursion, IsDistinct};
ghost use Rattle.std.specs.Prelude.{◌≡◌, eqb, true, IfErr, IfOk, OnOk};
ghost use Rattle.llcp_link.specs.Asking.{disconnected_by, is_open_by};
ghost use Rattle.snep_core.specs.RepliesLeft.{IsBelowCountEnd};
ghost use Rattle.snep_core.specs.Talk.{Leaves, all_opening, leave_from, opening, own_of, ready_so, some_open};
ghost use Rattle.snep_core.specs.declared.fault.SnepFault.{SnepFault};

use crate::client::ClientEnd;
use crate::fault::SnepFault;
use crate::job::{Ending, Job, OnSap};

impl ClientEnd {
    /// Ends the connection from a SAP, which is open.
    fn disconnect(&mut self, sap: u8) -> Result<(), SnepFault>
        requires { is_open_by (own_of sap self.old.llc) ≡ true }
        ensures ok { OnOk result (self.new.llc ≡ disconnected_by self.old.llc (own_of sap self.old.llc)) }
        ensures going { OnOk result (self.new.spent ≡ self.old.spent) }
        ensures err { IfErr result (λ e. e ≡ SnepFault.Memory) }
        ensures spent { IfErr result (λ e. self.new.spent ≡ true) }
    {
        match self.llc.disconnect(sap) {
            Err(_) => Err(self.spend()),
            Ok(()) => Ok(()),
        }
    }

    /// The connection from one of these SAPs is open.
    pub(crate) fn any_open(&self, saps: &[u8]) -> bool
        ensures { result ≡ some_open self.now.llc saps.now }
    {
        'saps: for sap in saps {
            if self.is_open(*sap) {
                return true;
            }
        }
        false
    }

    /// Ends the connection from a SAP, where it is open.
    fn leave(&mut self, sap: u8) -> Result<Job, SnepFault>
        ensures ok { IfOk result (λ job. opening self.old.llc sap Leaves ≡ ready_so self.new.llc job) }
        ensures counted { OnOk result (IsBelowCountEnd self.old.llc sap) }
        ensures going { OnOk result (self.new.spent ≡ self.old.spent) }
        ensures err { IfErr result (λ e. e ≡ SnepFault.Memory) }
        ensures spent { IfErr result (λ e. self.new.spent ≡ true) }
    {
        // The units acknowledged so far are counted in a u32, which `counted` tells.
        let units = self.llc.acked(sap);
        prove!(units <= u32::MAX);
        if !self.is_open(sap) {
            return Ok(Job::Over(Ending::Done));
        }
        match self.disconnect(sap) {
            Err(fault) => Err(fault),
            Ok(()) => Ok(Job::Closes),
        }
    }

    /// Ends the connections from these SAPs that are open, one after the other.
    pub(crate) fn leave_all(&mut self, saps: &[u8]) -> Result<Vec<OnSap>, SnepFault>
        requires { IsDistinct eqb saps.now }
        ensures ok { IfOk result (λ jobs.
            all_opening (leave_from saps.now) self.old.llc ≡ record { llc = self.new.llc; jobs = jobs.items }) }
        ensures counted { OnOk result (AllByRecursion (IsBelowCountEnd self.old.llc) saps.now) }
        ensures going { OnOk result (self.new.spent ≡ self.old.spent) }
        ensures err { IfErr result (λ e. e ≡ SnepFault.Memory) }
        ensures spent { IfErr result (λ e. self.new.spent ≡ true) }
    {
        let mut jobs = Vec::new(self.alloc);
        'saps: for sap in saps {
            let job = match self.leave(*sap) {
                Err(fault) => return Err(fault),
                Ok(job) => job,
            };
            if jobs.push(OnSap { sap: *sap, job }).is_err() {
                return Err(self.spend());
            }
        }
        Ok(jobs)
    }
}
