//! What an end does with one PDU.

ghost use Rattle.std.specs.Prelude.{◌≡◌, ◌<◌, OnOk, OnErr};
ghost use Rattle.llcp_conn.specs.Conn.{IsSap, takes_view};
ghost use Rattle.llcp_link.specs.Halting.{IsSame, LeavesService};
ghost use Rattle.llcp_link.specs.Kept.{IsSent};
ghost use Rattle.llcp_link.specs.Places.{IsNumbered};
ghost use Rattle.llcp_link.specs.private.Closing.{ClosesHeld};
ghost use Rattle.llcp_link.specs.Own.{dm_on};
ghost use Rattle.llcp_link.specs.State.{holder, own_from, own_holder};
ghost use Rattle.llcp_link.specs.Taking.{answered, breaks, ends, heard_own, is_full as has_all_answers, leaves};
ghost use Rattle.llcp_link.specs.Taking.{numbered};

use crate::llc::Llc;
use crate::own::Heard;
use crate::parts::{DISCONNECTED, NOT_CONNECTED, dm, frmr};
use crate::queue::{answers_in, push};
use crate::service::Service;
use crate::{owns, served};
use llcp_conn::{ConnNumbers, Taken};
use llcp_pdu::{FrmrReport, Part, PduView};
use std::alloc::AllocError;

/// The most answers that wait.
const MOST_ANSWERS: usize = 16;

/// The flag of a FRMR for a malformed PDU.
const MALFORMED: u8 = 0x80;

impl<S: Service> Llc<S> {
    /// As many answers wait as may.
    pub(crate) fn is_full(&self) -> bool
        ensures { result ≡ has_all_answers self.now }
    {
        answers_in(&self.queue) >= MOST_ANSWERS
    }

    /// An answer waits, unless too many do.
    pub(crate) fn answer_with(&mut self, part: Part) -> Result<(), AllocError>
        requires { IsSent part }
        ensures ok { OnOk result (self.new ≡ answered self.old part) }
        ensures err { OnErr result (self.new ≡ self.old) }
    {
        if self.is_full() {
            return Ok(());
        }
        push(&mut self.queue, false, part)
    }

    /// Closes the connection between a SAP of this end and one of the other, and tells its numbers.
    #[tactic(auto, using(crate::proofs::Closes::closes_served, crate::proofs::Closes::closes_asked, crate::proofs::Closes::closes_none))]
    fn close_between(&mut self, here: u8, there: u8) -> Option<ConnNumbers>
        ensures closed { ClosesHeld self.old here there result self.new }
        ensures same { IsSame self.old self.new }
        ensures service { self.new.service ≡ self.old.service }
    {
        match served::close(&mut self.served, here, there) {
            Some(numbers) => Some(numbers),
            None => {
                let place = owns::place_of(&self.own, here)?;
                self.own[place].close(there)
            }
        }
    }

    /// A DISC.
    #[tactic(auto, using(crate::proofs::Closes::leaves_nobody, crate::proofs::Closes::leaves_held))]
    pub(crate) fn take_disc(&mut self, dsap: u8, ssap: u8) -> Result<(), AllocError>
        requires dsap { IsSap dsap }
        requires ssap { IsSap ssap }
        ensures ok { OnOk result (self.new ≡ leaves self.old dsap ssap (holder self.old dsap ssap)) }
        ensures same { IsSame self.old self.new }
        ensures service { self.new.service ≡ self.old.service }
    {
        match self.close_between(dsap, ssap) {
            None => self.answer_with(dm(ssap, dsap, NOT_CONNECTED)),
            Some(_) => self.answer_with(dm(ssap, dsap, DISCONNECTED)),
        }
    }

    /// A FRMR.
    #[tactic(auto, using(crate::proofs::Closes::ends_so))]
    pub(crate) fn take_frmr(&mut self, dsap: u8, ssap: u8)
        ensures ok { self.new ≡ ends self.old (holder self.old dsap ssap) }
        ensures same { IsSame self.old self.new }
        ensures service { self.new.service ≡ self.old.service }
    {
        let _ = self.close_between(dsap, ssap);
    }

    /// A DM.
    #[tactic(auto, using(crate::proofs::OwnHeard::dm_heard, crate::proofs::OwnHeard::none_hears))]
    pub(crate) fn take_dm(&mut self, dsap: u8, ssap: u8)
        ensures ok { self.new ≡ heard_own self.old dsap ssap dm_on }
        ensures same { IsSame self.old self.new }
        ensures service { self.new.service ≡ self.old.service }
    {
        if let Some(place) = owns::place_of(&self.own, dsap) {
            self.own[place].hear_dm(ssap);
        }
    }

    /// A malformed PDU of this type and sequence byte.
    #[tactic(auto, using(crate::proofs::Closes::breaks_nobody, crate::proofs::Closes::breaks_held))]
    pub(crate) fn break_off(
        &mut self,
        dsap: u8,
        ssap: u8,
        ptype: u8,
        sequence: u8,
    ) -> Result<(), AllocError>
        requires dsap { IsSap dsap }
        requires ssap { IsSap ssap }
        requires ptype { ptype < 16 }
        ensures ok { OnOk result (self.new ≡ breaks self.old ptype sequence (holder self.old dsap ssap)) }
        ensures same { IsSame self.old self.new }
        ensures service { self.new.service ≡ self.old.service }
    {
        let Some(numbers) = self.close_between(dsap, ssap) else {
            return Ok(());
        };
        let report = FrmrReport {
            flags: MALFORMED,
            ptype,
            sequence,
            vs: numbers.vs,
            vr: numbers.vr,
            vsa: numbers.vsa,
            vra: numbers.vra,
        };
        self.answer_with(frmr(ssap, dsap, report))
    }

    /// An I, RR or RNR.
    pub(crate) fn take_numbered(
        &mut self,
        pdu: &PduView<'_>,
        dsap: u8,
        ssap: u8,
    ) -> Result<(), AllocError>
        requires dsap { IsSap dsap }
        requires ssap { IsSap ssap }
        requires pdu { IsNumbered dsap ssap pdu.now }
        ensures ok { OnOk result (self.new ≡
            numbered S.serving self.old (λ c. takes_view c pdu.now) dsap ssap (holder self.old dsap ssap)) }
        ensures same { IsSame self.old self.new }
        ensures err { OnErr result (LeavesService S.serving self.old.service self.new.service) }
    {
        match served::take_view(&mut self.served, dsap, ssap, pdu) {
            Err(_) => Err(AllocError),
            Ok(None) => self.take_asked(pdu, dsap, ssap),
            Ok(Some(Taken::Nothing)) => Ok(()),
            Ok(Some(Taken::Unit(unit))) => self.service.unit(self.alloc, ssap, unit.as_slice()),
            Ok(Some(Taken::Closed(report))) => self.answer_with(frmr(ssap, dsap, report)),
        }
    }

    /// An I, RR or RNR of no connection that was asked of this end.
    #[tactic(auto, using(crate::proofs::Closes::asked_kept, crate::proofs::Closes::asked_closed, crate::proofs::Closes::asked_other, crate::proofs::Closes::asked_none))]
    fn take_asked(&mut self, pdu: &PduView<'_>, dsap: u8, ssap: u8) -> Result<(), AllocError>
        requires dsap { IsSap dsap }
        requires ssap { IsSap ssap }
        requires pdu { IsNumbered dsap ssap pdu.now }
        ensures ok { OnOk result (self.new ≡ numbered S.serving self.old (λ c. takes_view c pdu.now) dsap ssap
            (own_holder ssap (own_from dsap self.old.own))) }
        ensures same { IsSame self.old self.new }
        ensures service { self.new.service ≡ self.old.service }
    {
        let Some(place) = owns::place_of(&self.own, dsap) else {
            return self.answer_with(dm(ssap, dsap, NOT_CONNECTED));
        };
        match self.own[place].take_view(ssap, pdu) {
            Err(_) => Err(AllocError),
            Ok(Heard::Nothing) => self.answer_with(dm(ssap, dsap, NOT_CONNECTED)),
            Ok(Heard::Taken) => Ok(()),
            Ok(Heard::Closed(report)) => self.answer_with(frmr(ssap, dsap, report)),
        }
    }
}
