//! The parameters of CONNECT, CC and SNL.

ghost use Rattle.std.specs.Prelude.{◌≡◌, ◌+◌, ◌<◌, length, IfOk, OnOk, ◌++◌, [], ◌∷◌};
ghost use Rattle.llcp_pdu.specs.Params.{printed};
ghost use Rattle.llcp_pdu.specs.Ranges.{IsParam, AreParams};
ghost use Rattle.llcp_pdu.specs.Views.{HoldsParams, params_in, shown_param};
ghost use Rattle.llcp_pdu.specs.Writing.{tlv_of, params_bytes};

use crate::param_walk::{ParamView, ParamWalk};
use crate::wire::{LTO, MIUX, OPT, RW, SDREQ, SDRES, SN, VERSION, WKS};
use nfc_base::Items;
use std::alloc::{AllocError, Global};

/// A parameter (NFC Forum LLCP 1.3): the version of LLCP, the MIU above 128, the well-known services as bits, the link
/// timeout in 10 ms, the receive window, a service's name, the link's options, and the two of service discovery, each
/// with its transaction.
#[derive(Debug, Drop, PartialEq)]
pub enum Param {
    Version(u8),
    Miux(u16),
    Wks(u16),
    Lto(u8),
    Rw(u8),
    Sn(Items<u8>),
    Opt(u8),
    SdReq { tid: u8, name: Items<u8> },
    SdRes { tid: u8, sap: u8 },
}

/// Adds a parameter by its type and its value.
pub(crate) fn append_tlv(target: &mut Vec<u8>, kind: u8, value: &[u8]) -> Result<(), AllocError>
    requires { length value.now < 256 }
    ensures { OnOk result (target.new.items ≡ target.old.items ++ kind ∷ length value.now ∷ value.now) }
{
    target.extend_from_slice(&[kind, value.len() as u8])?;
    target.extend_from_slice(value)
}

impl Param {
    /// The parameter that a view shows, in memory of its own.
    pub(crate) fn from_view(alloc: Global, view: ParamView<'_>) -> Result<Param, AllocError>
        ensures { IfOk result (λ p. p ≡ shown_param view.entry) }
    {
        Ok(match view {
            ParamView::Version(version) => Param::Version(version),
            ParamView::Miux(miux) => Param::Miux(miux),
            ParamView::Wks(wks) => Param::Wks(wks),
            ParamView::Lto(lto) => Param::Lto(lto),
            ParamView::Rw(rw) => Param::Rw(rw),
            ParamView::Sn(name) => Param::Sn(Items::from_bytes(alloc, name)?),
            ParamView::Opt(opt) => Param::Opt(opt),
            ParamView::SdReq { tid, name } => Param::SdReq {
                tid,
                name: Items::from_bytes(alloc, name)?,
            },
            ParamView::SdRes { tid, sap } => Param::SdRes { tid, sap },
        })
    }

    /// Adds its bytes.
    fn append_to(&self, target: &mut Vec<u8>) -> Result<(), AllocError>
        requires { IsParam self.now }
        ensures { OnOk result (target.new.items ≡ target.old.items ++ printed (tlv_of self.now ∷ [])) }
    {
        match self {
            Param::Version(version) => append_tlv(target, VERSION, &[*version]),
            Param::Miux(miux) => append_tlv(target, MIUX, &miux.to_be_bytes()),
            Param::Wks(wks) => append_tlv(target, WKS, &wks.to_be_bytes()),
            Param::Lto(lto) => append_tlv(target, LTO, &[*lto]),
            Param::Rw(rw) => append_tlv(target, RW, &[*rw]),
            Param::Sn(name) => append_tlv(target, SN, name.as_slice()),
            Param::Opt(opt) => append_tlv(target, OPT, &[*opt]),
            Param::SdReq { tid, name } => {
                let name = name.as_slice();
                target.extend_from_slice(&[SDREQ, name.len() as u8 + 1, *tid])?;
                target.extend_from_slice(name)
            }
            Param::SdRes { tid, sap } => append_tlv(target, SDRES, &[*tid, *sap]),
        }
    }
}

/// The parameters of some bytes, in memory of their own.
pub(crate) fn copy_params(alloc: Global, params: &[u8]) -> Result<Items<Param>, AllocError>
    requires { HoldsParams params.now }
    ensures { IfOk result (λ ps. ps ≡ params_in params.now) }
{
    let mut found = Vec::new(alloc);
    'params: for param in ParamWalk::new(params) {
        found.push(Param::from_view(alloc, param)?)?;
    }
    Ok(Items::new(found))
}

/// Adds the bytes of parameters.
pub(crate) fn append_params(target: &mut Vec<u8>, params: &[Param]) -> Result<(), AllocError>
    requires { AreParams params.now }
    ensures { OnOk result (target.new.items ≡ target.old.items ++ params_bytes params.now) }
{
    'params: for param in params {
        param.append_to(target)?;
    }
    Ok(())
}
