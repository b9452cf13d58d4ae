//! What an end does with a whole payload.

ghost use Rattle.std.specs.Prelude.{◌≡◌, map, OnOk, OnErr};
ghost use Rattle.llcp_pdu.specs.Pdus.{pdu as pdu_in};
ghost use Rattle.llcp_pdu.specs.Raw.{raw};
ghost use Rattle.llcp_pdu.specs.Ranges.{IsPdu, AreParts};
ghost use Rattle.llcp_pdu.specs.Views.{HoldsParts, IsChecked, IsOne, parts_in, shown};
ghost use Rattle.llcp_link.specs.Halting.{IsSame, LeavesService, Halts};
ghost use Rattle.llcp_link.specs.Taking.{Good, broken, items, steps};
ghost use Rattle.llcp_link.specs.private.Stepping.{stepped};

use crate::llc::Llc;
use crate::service::Service;
use llcp_pdu::{DISC, INFO, InnerWalk, PduView, RNR, RR, raw_header, view};
use std::alloc::AllocError;

impl<S: Service> Llc<S> {
    /// Handles the bytes of a payload.
    pub(crate) fn take_payload(&mut self, bytes: &[u8]) -> Result<(), AllocError>
        ensures ok { OnOk result (self.new ≡ steps S.serving self.old (items bytes.now)) }
        ensures same { IsSame self.old self.new }
        ensures err { OnErr result (Halts S.serving self.old (items bytes.now) self.new) }
    {
        match view(bytes) {
            Ok(PduView::Agf(inner)) => self.take_parts(inner),
            Ok(pdu) => self.take_part(pdu),
            Err(_) => self.take_broken(bytes),
        }
    }

    /// The PDUs of an AGF, in their order.
    fn take_parts(&mut self, inner: &[u8]) -> Result<(), AllocError>
        requires holds { HoldsParts inner.now }
        requires range { AreParts (parts_in inner.now) }
        ensures ok { OnOk result (self.new ≡ steps S.serving self.old (map Good (parts_in inner.now))) }
        ensures same { IsSame self.old self.new }
        ensures err { OnErr result (Halts S.serving self.old (map Good (parts_in inner.now)) self.new) }
    {
        'inner: for pdu in InnerWalk::new(inner) {
            if self.take_part(pdu).is_err() {
                return Err(AllocError);
            }
        }
        Ok(())
    }

    /// One PDU.
    fn take_part(&mut self, pdu: PduView<'_>) -> Result<(), AllocError>
        requires checked { IsChecked pdu }
        requires range { IsPdu (shown pdu) }
        ensures ok { OnOk result (self.new ≡ stepped S.serving self.old (shown pdu.entry)) }
        ensures same { IsSame self.old self.new }
        ensures err { OnErr result (LeavesService S.serving self.old.service self.new.service) }
    {
        match pdu {
            PduView::Connect { dsap, ssap, params } => self.take_connect(dsap, ssap, params),
            PduView::Cc { dsap, ssap, params } => self.take_cc(dsap, ssap, params),
            PduView::Dm { dsap, ssap, .. } => {
                self.take_dm(dsap, ssap);
                Ok(())
            }
            PduView::Disc { dsap, ssap } => self.take_disc(dsap, ssap),
            PduView::Frmr { dsap, ssap, .. } => {
                self.take_frmr(dsap, ssap);
                Ok(())
            }
            PduView::Snl(params) => self.take_snl(params),
            PduView::Info { dsap, ssap, .. }
            | PduView::Rr { dsap, ssap, .. }
            | PduView::Rnr { dsap, ssap, .. } => self.take_numbered(&pdu, dsap, ssap),
            PduView::Symm | PduView::Agf(_) | PduView::Ui { .. } => Ok(()),
        }
    }

    /// A payload that is no PDU: a connection minds a malformed DISC, I, RR or RNR.
    fn take_broken(&mut self, bytes: &[u8]) -> Result<(), AllocError>
        ensures ok { OnOk result (self.new ≡ steps S.serving self.old (broken (raw bytes.now))) }
        ensures same { IsSame self.old self.new }
        ensures service { self.new.service ≡ self.old.service }
    {
        let Some(header) = raw_header(bytes) else {
            return Ok(());
        };
        let sequence = match header.ptype {
            DISC => 0,
            INFO | RR | RNR => header.third.unwrap_or(0),
            _ => return Ok(()),
        };
        self.break_off(header.dsap, header.ssap, header.ptype, sequence)
    }
}
