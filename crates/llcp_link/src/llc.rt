//! One end of a link.

ghost use Rattle.std.specs.Prelude.{◌≡◌, ◌↔◌, ◌≤◌, ◌⊎◌, IsTrue, Some, length, IfErr, OnOk, OnErr};
ghost use Rattle.std.specs.Borrow.{sem};
ghost use Rattle.llcp_pdu.specs.General.{IsMiu};
ghost use Rattle.llcp_conn.specs.Conn.{IsSap, IsWindow};
ghost use Rattle.llcp_link.specs.Binding.{Binds, binding_refusal};
ghost use Rattle.llcp_link.specs.Lends.{lends_service};
ghost use Rattle.llcp_link.specs.State.{IsIdle, fresh_end};
ghost use Rattle.llcp_link.specs.declared.fault.LlcFault.{LlcFault};

use crate::fault::LlcFault;
use crate::lookups::Lookup;
use crate::names::{Bound, DISCOVERY_NAME, bind, is_bound, sap_named};
use crate::own::Own;
use crate::queue::Queued;
use llcp_conn::Conn;
use llcp_pdu::{LEAST_MIU, LinkParams};
use nfc_base::Items;
use std::alloc::{AllocError, Global};
use std::marker::Model;

/// One end of a link (NFC Forum LLCP 1.3), with the service that other ends connect to.
#[derive(Debug, Drop)]
pub struct Llc<S> {
    pub(crate) alloc: Global,
    pub(crate) miu: u16,
    pub(crate) window: u8,
    pub(crate) bound: Vec<Bound>,
    pub(crate) readable: bool,
    pub(crate) far_miu: u16,
    pub(crate) queue: Vec<Queued>,
    pub(crate) served: Vec<Conn>,
    pub(crate) own: Vec<Own>,
    pub(crate) lookups: Vec<Lookup>,
    pub(crate) asked: u8,
    pub(crate) last: Option<u8>,
    pub(crate) stuck: bool,
    pub(crate) service: S,
}

impl<S> Model for Llc<S> {
    ghost use Rattle.llcp_link.specs.State.{LlcState};
    ghost use Rattle.llcp_link.specs.Kept.{IsEnd};

    ghost Value = { LlcState S };

    ghost view = { λ l. record {
      miu = l.miu;
      window = l.window;
      bound = l.bound.items;
      readable = l.readable;
      far_miu = l.far_miu;
      queue = l.queue.items;
      served = l.served.items;
      own = l.own.items;
      lookups = l.lookups.items;
      asked = l.asked;
      last = l.last;
      stuck = l.stuck;
      service = l.service;
    } };

    ghost invariant = { λ l. IsEnd l.miu l.window l.far_miu l.bound.items l.queue.items l.served.items l.last };
}

impl<S> Llc<S> {
    /// An end with this MIU, of 128 to 2,175, and receive window, of 1 to 15.
    pub fn new(alloc: Global, params: LinkParams, rw: u8, service: S) -> Llc<S>
        requires miu { IsMiu params.miu }
        requires window { IsWindow rw }
        ensures { result ≡ fresh_end params.miu rw service }
    {
        Llc {
            alloc,
            miu: params.miu,
            window: rw,
            bound: Vec::new(alloc),
            readable: true,
            far_miu: LEAST_MIU,
            queue: Vec::new(alloc),
            served: Vec::new(alloc),
            own: Vec::new(alloc),
            lookups: Vec::new(alloc),
            asked: 0,
            last: None,
            stuck: false,
            service,
        }
    }

    /// Its service. A change of it leaves the state of the link as it was.
    pub fn service(&mut self) -> &mut S
        ensures* writes_back { sem 𝓛 (lends_service S.row self.entry result) }
        ensures value { result.now ≡ self.old.service }
    {
        &mut self.service
    }

    /// Its service, for who only looks at it.
    pub fn as_service(&self) -> &S
        ensures { result.now ≡ self.now.service }
    {
        &self.service
    }

    /// Whether no connection that the other end asked for is open, and nothing waits to be given.
    pub fn is_idle(&self) -> bool
        ensures { IsTrue result ↔ IsIdle self.now }
    {
        self.served.is_empty() && self.queue.is_empty()
    }

    /// Binds the service to a SAP, under a name of at most 64 bytes.
    pub fn listen(&mut self, name: &str, sap: u8) -> Result<(), LlcFault>
        requires name { length name.now ≤ 64 }
        requires sap { IsSap sap }
        ensures ok { OnOk result (Binds self.old name.now sap self.new) }
        ensures err { IfErr result (λ e.
            (e ≡ LlcFault.Memory) ⊎ (binding_refusal self.old.bound name.now sap ≡ Some e)) }
        ensures same { OnErr result (self.new ≡ self.old) }
    {
        let name = name.as_bytes();
        if name == DISCOVERY_NAME || sap_named(&self.bound, name).is_some() {
            return Err(LlcFault::NameTaken);
        }
        if sap < 2 || is_bound(&self.bound, sap) {
            return Err(LlcFault::SapTaken);
        }
        let name = Items::from_bytes(self.alloc, name)?;
        bind(&mut self.bound, name, sap)?;
        Ok(())
    }
}
