//! What an end does with a CONNECT, and with a CC that it awaits.

ghost use Rattle.std.specs.Prelude.{◌≡◌, OnOk, OnErr};
ghost use Rattle.llcp_pdu.specs.General.{IsMiu};
ghost use Rattle.llcp_pdu.specs.Ranges.{AreParams};
ghost use Rattle.llcp_pdu.specs.Views.{HoldsParams, params_in};
ghost use Rattle.llcp_conn.specs.Conn.{IsSap, IsWindow};
ghost use Rattle.llcp_link.specs.Halting.{IsSame};
ghost use Rattle.llcp_link.specs.Names.{miu_of, rw_of};
ghost use Rattle.llcp_link.specs.Own.{cc_on};
ghost use Rattle.llcp_link.specs.Taking.{connects, heard_own, opens, is_free as has_room_for};

use crate::llc::Llc;
use crate::names::reached;
use crate::params::{miu_said, own_params, window_said};
use crate::parts::{BUSY, NO_SERVICE, NOT_TAKEN, dm};
use crate::served::{self, is_new};
use crate::service::Service;
use crate::{owns, queue};
use llcp_conn::Conn;
use llcp_pdu::{ConnectParams, Part};
use std::alloc::AllocError;

/// The most connections that the other end may have here.
const MOST_CONNECTIONS: usize = 8;

impl<S: Service> Llc<S> {
    /// A CONNECT.
    #[tactic(auto, using(crate::proofs::Ranges::miux_below, crate::proofs::Ranges::rw_below))]
    pub(crate) fn take_connect(
        &mut self,
        dsap: u8,
        ssap: u8,
        params: &[u8],
    ) -> Result<(), AllocError>
        requires dsap { IsSap dsap }
        requires ssap { IsSap ssap }
        requires holds { HoldsParams params.now }
        requires range { AreParams (params_in params.now) }
        ensures ok { OnOk result (self.new ≡ connects S.serving self.old dsap ssap (params_in params.now)) }
        ensures same { IsSame self.old self.new }
        ensures err { OnErr result (self.new.service ≡ self.old.service) }
    {
        if self.is_full() {
            return Ok(());
        }
        let said = ConnectParams::new(params);
        let far_miu = miu_said(said.miux);
        let rw = window_said(said.rw);
        if rw == 0 {
            return self.answer_with(dm(ssap, dsap, NOT_TAKEN));
        }
        match reached(&self.bound, dsap, said.name) {
            None => self.answer_with(dm(ssap, dsap, NO_SERVICE)),
            Some(sap) => {
                if self.is_free(ssap) {
                    self.open(sap, ssap, far_miu, rw)
                } else {
                    self.answer_with(dm(ssap, sap, BUSY))
                }
            }
        }
    }

    /// A CC.
    #[tactic(auto, using(crate::proofs::Ranges::miux_below, crate::proofs::Ranges::rw_below, crate::proofs::OwnHeard::cc_heard, crate::proofs::OwnHeard::none_hears))]
    pub(crate) fn take_cc(&mut self, dsap: u8, ssap: u8, params: &[u8]) -> Result<(), AllocError>
        requires holds { HoldsParams params.now }
        requires range { AreParams (params_in params.now) }
        ensures ok { OnOk result (self.new ≡ heard_own self.old dsap ssap
            (cc_on self.old.miu (miu_of (params_in params.now)) (rw_of (params_in params.now)))) }
        ensures same { IsSame self.old self.new }
        ensures service { self.new.service ≡ self.old.service }
    {
        let Some(place) = owns::place_of(&self.own, dsap) else {
            return Ok(());
        };
        let said = ConnectParams::new(params);
        let far_miu = miu_said(said.miux);
        let rw = window_said(said.rw);
        self.own[place].hear_cc(self.alloc, ssap, self.miu, self.window, far_miu, rw)
    }

    /// The client has no connection here, and there are fewer than may be.
    fn is_free(&self, client: u8) -> bool
        ensures { result ≡ has_room_for self.now client }
    {
        is_new(&self.served, client) && self.served.len() < MOST_CONNECTIONS
    }

    /// Opens a connection of a client's SAP, and tells the client with what MIU and window.
    fn open(&mut self, here: u8, client: u8, far_miu: u16, rw: u8) -> Result<(), AllocError>
        requires here { IsSap here }
        requires client { IsSap client }
        requires miu { IsMiu far_miu }
        requires window { IsWindow rw }
        ensures ok { OnOk result (self.new ≡ opens S.serving self.old here client far_miu rw) }
        ensures same { IsSame self.old self.new }
        ensures err { OnErr result (self.new.service ≡ self.old.service) }
    {
        let conn = Conn::new(self.alloc, here, client, self.miu, self.window, far_miu, rw)?;
        let params = own_params(self.alloc, self.miu, self.window)?;
        served::push(&mut self.served, conn)?;
        let cc = Part::Cc {
            dsap: client,
            ssap: here,
            params,
        };
        queue::push(&mut self.queue, false, cc)?;
        self.service.begin(client);
        Ok(())
    }
}
