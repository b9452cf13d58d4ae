//! A connection that an end asked for.

ghost use Rattle.std.specs.Prelude.{◌≡◌, ◌<◌, ◌≤◌, ◌⊎◌, ℕ, [], length, Some, IfOk, IfSome, IfErr, OnOk, OnErr};
ghost use Rattle.llcp_pdu.specs.General.{IsMiu};
ghost use Rattle.llcp_pdu.specs.Wire.{rw_end};
ghost use Rattle.llcp_conn.specs.Conn.{IsSap, IsWindow, first};
ghost use Rattle.llcp_conn.specs.declared.fault.ConnFault.{ConnFault};
ghost use Rattle.llcp_link.specs.Asking.{asked_from, is_there, is_open, acked_on as acked_of, has_waiting_on};
ghost use Rattle.llcp_link.specs.Asking.{refusal_on, standing_on, unit_taken_on, SubmitsOn};
ghost use Rattle.llcp_link.specs.private.Closing.{ClosesOwn, TakesOwn};
ghost use Rattle.llcp_link.specs.Own.{cc_on, dm_on, if_there};
ghost use Rattle.llcp_link.specs.Places.{IsNumbered};
ghost use Rattle.llcp_link.specs.Kept.{IsSent};
ghost use Rattle.llcp_pdu.specs.declared.part.Part.{Part};

use crate::numbered::Numbered;
use crate::parts::disc;
use crate::standing::Standing;
use llcp_conn::{Conn, ConnFault, ConnNumbers, Taken};
use llcp_pdu::{FrmrReport, Part, PduView};
use nfc_base::Items;
use std::alloc::{AllocError, Global};
use std::collections::VecDeque;
use std::marker::Model;

/// Where it stands: a CC is awaited; it is open; it was refused; it was given up, and a DM is awaited; it is closed.
#[derive(Debug, Drop)]
pub enum OwnIs {
    Asking,
    Open(Conn),
    Refused,
    Leaving,
    Closed,
}

/// What a PDU comes to on it.
#[derive(Debug, Drop)]
pub(crate) enum Heard {
    /// It isn't of it.
    Nothing,
    Taken,
    /// A fault, by which it closed.
    Closed(FrmrReport),
}

/// A connection that an end asked for, with the units that were handed up on it.
#[derive(Debug, Drop)]
pub(crate) struct Own {
    pub(crate) here: u8,
    pub(crate) there: u8,
    pub(crate) is: OwnIs,
    units: VecDeque<Items<u8>>,
}

impl Model for Own {
    ghost use Rattle.llcp_link.specs.State.{OwnState};
    ghost use Rattle.llcp_link.specs.Kept.{IsOwn};

    ghost Value = { OwnState };

    ghost view = { λ o. record { here = o.here; there = o.there; is = o.is; units = o.units.items } };

    ghost invariant = { λ o. IsOwn o.here o.there o.is };
}

impl Numbered for Own {
    ghost number = { λ o. o.here };

    fn number(&self) -> u8 {
        self.here
    }
}

impl Own {
    /// One that is asked for.
    pub(crate) fn new(alloc: Global, here: u8, there: u8) -> Own
        requires here { IsSap here }
        requires there { IsSap there }
        ensures { result ≡ asked_from here there }
    {
        Own {
            here,
            there,
            is: OwnIs::Asking,
            units: VecDeque::new(alloc),
        }
    }

    /// A CC or DM is awaited, or it is open.
    pub(crate) fn is_there(&self) -> bool
        ensures { result ≡ is_there self.now.is }
    {
        match &self.is {
            OwnIs::Asking | OwnIs::Open(_) | OwnIs::Leaving => true,
            OwnIs::Refused | OwnIs::Closed => false,
        }
    }

    /// How it stands.
    pub(crate) fn standing(&self) -> Standing
        ensures { result ≡ standing_on self.now.is }
    {
        match &self.is {
            OwnIs::Asking | OwnIs::Leaving => Standing::Waiting,
            OwnIs::Open(conn) => Standing::Open {
                miu: conn.far_miu(),
            },
            OwnIs::Refused => Standing::Refused,
            OwnIs::Closed => Standing::Closed,
        }
    }

    /// A CC from this SAP, with the other end's MIU and window.
    pub(crate) fn hear_cc(
        &mut self,
        alloc: Global,
        from: u8,
        miu: u16,
        window: u8,
        far_miu: u16,
        rw: u8,
    ) -> Result<(), AllocError>
        requires miu { IsMiu miu }
        requires window { IsWindow window }
        requires far_miu { IsMiu far_miu }
        requires rw { rw < rw_end }
        ensures ok { OnOk result (self.new ≡ if_there from (cc_on miu far_miu rw) self.old) }
    {
        if self.there != from {
            return Ok(());
        }
        let OwnIs::Asking = &self.is else {
            return Ok(());
        };
        if rw == 0 {
            self.is = OwnIs::Refused;
            return Ok(());
        }
        let conn = Conn::new(alloc, self.here, self.there, miu, window, far_miu, rw)?;
        self.is = OwnIs::Open(conn);
        Ok(())
    }

    /// A DM from this SAP.
    pub(crate) fn hear_dm(&mut self, from: u8)
        ensures { self.new ≡ if_there from dm_on self.old }
    {
        if self.there != from {
            return;
        }
        match &self.is {
            OwnIs::Asking => self.is = OwnIs::Refused,
            OwnIs::Leaving => self.is = OwnIs::Closed,
            _ => {}
        }
    }

    /// The other end's SAP closes it, where it is open; its numbers then.
    pub(crate) fn close(&mut self, from: u8) -> Option<ConnNumbers>
        ensures { ClosesOwn from self.old result self.new }
    {
        if self.there != from {
            return None;
        }
        let OwnIs::Open(conn) = &self.is else {
            return None;
        };
        let numbers = conn.numbers();
        self.is = OwnIs::Closed;
        Some(numbers)
    }

    /// What an I, RR or RNR comes to on it, where it is open to this SAP.
    pub(crate) fn take_view(&mut self, from: u8, pdu: &PduView<'_>) -> Result<Heard, AllocError>
        requires pdu { IsNumbered self.old.here from pdu.now }
        ensures taken { IfOk result (λ h. TakesOwn from pdu.now self.old h self.new) }
    {
        if self.there != from {
            return Ok(Heard::Nothing);
        }
        let OwnIs::Open(conn) = &mut self.is else {
            return Ok(Heard::Nothing);
        };
        match conn.take_view(pdu) {
            Err(_) => Err(AllocError),
            Ok(Taken::Nothing) => Ok(Heard::Taken),
            Ok(Taken::Unit(unit)) => match self.units.push_back(unit) {
                Err(_) => Err(AllocError),
                Ok(()) => Ok(Heard::Taken),
            },
            Ok(Taken::Closed(report)) => {
                self.is = OwnIs::Closed;
                Ok(Heard::Closed(report))
            }
        }
    }

    /// Takes in a unit, where it is open.
    #[tactic(auto, using(crate::proofs::OwnConns::asked_queued))]
    pub(crate) fn submit(&mut self, unit: &[u8]) -> Result<(), ConnFault>
        ensures ok { OnOk result (SubmitsOn self.old unit.now self.new) }
        ensures err { IfErr result (λ e.
            ((e ≡ ConnFault.Memory) × (refusal_on self.old.is unit.now ≡ None))
            ⊎ (refusal_on self.old.is unit.now ≡ Some e)) }
        ensures same { OnErr result (self.new ≡ self.old) }
    {
        let OwnIs::Open(conn) = &mut self.is else {
            return Err(ConnFault::NotOpen);
        };
        match conn.submit(unit) {
            Err(fault) => Err(fault),
            Ok(()) => Ok(()),
        }
    }

    /// How many units were acknowledged on it.
    pub(crate) fn acked(&self) -> u32
        ensures { result ≡ acked_of self.now.is }
    {
        match &self.is {
            OwnIs::Open(conn) => conn.acked(),
            _ => 0,
        }
    }

    /// A unit that was submitted on it waits to be given.
    pub(crate) fn has_waiting(&self) -> bool
        ensures { result ≡ has_waiting_on self.now.is }
    {
        match &self.is {
            OwnIs::Open(conn) => conn.has_waiting(),
            _ => false,
        }
    }

    /// The oldest unit that was handed up on it and not yet taken away.
    pub(crate) fn unit(&mut self) -> Option<Items<u8>>
        ensures unit { result ≡ first self.old.units }
        ensures left { self.new ≡ unit_taken_on self.old }
    {
        self.units.pop_front()
    }

    /// Its DISC.
    pub(crate) fn disc(&self) -> Part
        ensures part { result ≡ Part.Disc self.now.there self.now.here }
        ensures sent { IsSent result }
    {
        disc(self.there, self.here)
    }

    /// It is given up, and a DM is awaited.
    pub(crate) fn leave(&mut self)
        ensures { self.new ≡ record self.old { is = OwnIs.Leaving } }
    {
        self.is = OwnIs::Leaving;
    }
}
