//! What an end asks of the other: connections and lookups.

ghost use Rattle.std.specs.Prelude.{◌≡◌, ◌≤◌, ◌⊎◌, None, Some, true, length, IfErr, IfOk, OnOk, OnErr};
ghost use Rattle.llcp_conn.specs.Conn.{IsSap};
ghost use Rattle.llcp_conn.specs.declared.fault.ConnFault.{ConnFault};
ghost use Rattle.llcp_link.specs.Asking.{Connects, Submits, acked_of, connecting_refusal, disconnected_by, first_sap};
ghost use Rattle.llcp_link.specs.Asking.{forgotten, found_in, has_waiting_of, is_open_by, looked_up, refusal_of};
ghost use Rattle.llcp_link.specs.Asking.{standing_of, unit_of, unit_taken_by};
ghost use Rattle.llcp_link.specs.State.{own_from};
ghost use Rattle.llcp_link.specs.declared.fault.LlcFault.{LlcFault};

use crate::fault::LlcFault;
use crate::llc::Llc;
use crate::own::Own;
use crate::params::own_params;
use crate::standing::Standing;
use crate::{lookups, owns, parts, queue};
use llcp_conn::ConnFault;
use llcp_pdu::Part;
use nfc_base::Items;
use std::alloc::AllocError;

/// The SAP of this end from which it connects where no other is named.
pub const FIRST_SAP: u8 = 32;

impl<S> Llc<S> {
    /// Asks for a connection from SAP 32.
    pub fn connect(&mut self, dsap: u8) -> Result<(), LlcFault>
        requires { IsSap dsap }
        ensures ok { OnOk result (Connects self.old first_sap dsap self.new) }
        ensures err { IfErr result (λ e.
            ((e ≡ LlcFault.Memory) × (connecting_refusal self.old first_sap ≡ None))
            ⊎ (connecting_refusal self.old first_sap ≡ Some e)) }
        ensures same { OnErr result (self.new ≡ self.old) }
    {
        self.connect_from(FIRST_SAP, dsap)
    }

    /// Asks for a connection from a SAP of 32 to 39.
    pub fn connect_from(&mut self, ssap: u8, dsap: u8) -> Result<(), LlcFault>
        requires ssap { (32 ≤ ssap) × (ssap ≤ 39) }
        requires dsap { IsSap dsap }
        ensures ok { OnOk result (Connects self.old ssap dsap self.new) }
        ensures err { IfErr result (λ e.
            ((e ≡ LlcFault.Memory) × (connecting_refusal self.old ssap ≡ None))
            ⊎ (connecting_refusal self.old ssap ≡ Some e)) }
        ensures same { OnErr result (self.new ≡ self.old) }
    {
        if owns::is_busy(&self.own, ssap) {
            return Err(LlcFault::Busy);
        }
        let connect = Part::Connect {
            dsap,
            ssap,
            params: own_params(self.alloc, self.miu, self.window)?,
        };
        self.queue.reserve(1)?;
        owns::put(&mut self.own, Own::new(self.alloc, ssap, dsap))?;
        queue::push_own(&mut self.queue, connect);
        Ok(())
    }

    /// Looks a name of at most 64 bytes up, and gives the lookup's number.
    pub fn lookup(&mut self, name: &str) -> Result<u8, LlcFault>
        requires { length name.now ≤ 64 }
        ensures ok { IfOk result (λ tid. (tid ≡ self.old.asked) × (self.new ≡ looked_up self.old name.now)) }
        ensures err { IfErr result (λ e. e ≡ LlcFault.Memory) }
        ensures same { OnErr result (self.new ≡ self.old) }
    {
        let tid = self.asked;
        let name = Items::from_bytes(self.alloc, name.as_bytes())?;
        let snl = parts::request(self.alloc, tid, name)?;
        self.queue.reserve(1)?;
        lookups::put(&mut self.lookups, tid)?;
        queue::push_own(&mut self.queue, snl);
        self.asked = tid.wrapping_add(1);
        Ok(tid)
    }

    /// What was told for a number since it was last looked up.
    pub fn found(&self, tid: u8) -> Option<u8>
        ensures { result ≡ found_in tid self.now.lookups }
    {
        lookups::found(&self.lookups, tid)
    }

    /// How the connection from a SAP stands.
    pub fn standing(&self, ssap: u8) -> Standing
        ensures { result ≡ standing_of (own_from ssap self.now.own) }
    {
        owns::standing(&self.own, ssap)
    }

    /// Takes in a unit on the connection from a SAP.
    #[tactic(auto, using(crate::proofs::Asked::submitted_so))]
    pub fn submit(&mut self, ssap: u8, unit: &[u8]) -> Result<(), ConnFault>
        ensures ok { OnOk result (Submits self.old ssap unit.now self.new) }
        ensures err { IfErr result (λ e.
            ((e ≡ ConnFault.Memory) × (refusal_of (own_from ssap self.old.own) unit.now ≡ None))
            ⊎ (refusal_of (own_from ssap self.old.own) unit.now ≡ Some e)) }
        ensures same { OnErr result (self.new ≡ self.old) }
    {
        match owns::submit(&mut self.own, ssap, unit) {
            Err(fault) => Err(fault),
            Ok(()) => Ok(()),
        }
    }

    /// How many units were acknowledged on the connection from a SAP, 0 where it isn't open.
    pub fn acked(&self, ssap: u8) -> u32
        ensures { result ≡ acked_of (own_from ssap self.now.own) }
    {
        owns::acked(&self.own, ssap)
    }

    /// A unit that was submitted on the connection from a SAP waits to be given, also where the other end holds it up.
    pub fn has_waiting(&self, ssap: u8) -> bool
        ensures { result ≡ has_waiting_of (own_from ssap self.now.own) }
    {
        owns::has_waiting(&self.own, ssap)
    }

    /// The oldest unit that was handed up on the connection from a SAP and not yet given here. It takes no memory.
    pub fn unit(&mut self, ssap: u8) -> Option<Items<u8>>
        ensures unit { result ≡ unit_of (own_from ssap self.old.own) }
        ensures step { self.new ≡ unit_taken_by self.old (own_from ssap self.old.own) }
    {
        owns::unit(&mut self.own, ssap)
    }

    /// Gives up the open connection from a SAP: its DISC waits.
    #[tactic(auto, using(crate::proofs::Asked::disconnected_so))]
    pub fn disconnect(&mut self, ssap: u8) -> Result<(), LlcFault>
        requires { is_open_by (own_from ssap self.old.own) ≡ true }
        ensures ok { OnOk result (self.new ≡ disconnected_by self.old (own_from ssap self.old.own)) }
        ensures err { IfErr result (λ e. e ≡ LlcFault.Memory) }
        ensures same { OnErr result (self.new ≡ self.old) }
    {
        let Some(place) = owns::place_of(&self.own, ssap) else {
            unreachable!()
        };
        let disc = self.own[place].disc();
        queue::push(&mut self.queue, true, disc)?;
        self.own[place].leave();
        Ok(())
    }

    /// Gives the connection from a SAP up without a PDU.
    pub fn forget(&mut self, ssap: u8)
        ensures { self.new ≡ forgotten self.old ssap }
    {
        owns::forget(&mut self.own, ssap);
    }
}
