//! A PDU that holds no other.

ghost use Rattle.std.specs.Prelude.{◌≡◌, ◌<◌, ◌++◌, IfOk, OnOk};
ghost use Rattle.llcp_pdu.specs.Ranges.{AreParams, IsPart};
ghost use Rattle.llcp_pdu.specs.Spelling.{head, IsReport, report_bytes};
ghost use Rattle.llcp_pdu.specs.Views.{IsChecked, IsOne, shown};
ghost use Rattle.llcp_pdu.specs.Wire.{ptype_number};
ghost use Rattle.llcp_pdu.specs.Writing.{params_bytes, part_bytes};
ghost use Rattle.llcp_pdu.specs.declared.pdu.Pdu.TheVariants.{One};

use crate::header::{Header, Ptype};
use crate::param::{Param, append_params, copy_params};
use crate::pdu_view::PduView;
use crate::wire::DISCOVERY;
use nfc_base::Items;
use std::alloc::{AllocError, Global};

/// What a FRMR reports of the PDU that it rejects: which of its four flags are set (80h, 40h, 20h, 10h), its PTYPE and
/// sequence byte, and the numbers V(S), V(R), V(SA) and V(RA) of the end that rejects it.
#[derive(Clone, Copy, Debug, PartialEq, Eq)]
pub struct FrmrReport {
    pub flags: u8,
    pub ptype: u8,
    pub sequence: u8,
    pub vs: u8,
    pub vr: u8,
    pub vsa: u8,
    pub vra: u8,
}

/// A PDU that holds no other (NFC Forum LLCP 1.3), from the SAP `ssap` to the SAP `dsap`.
#[derive(Debug, Drop, PartialEq)]
pub enum Part {
    Symm,
    Ui {
        dsap: u8,
        ssap: u8,
        info: Items<u8>,
    },
    Connect {
        dsap: u8,
        ssap: u8,
        params: Items<Param>,
    },
    Disc {
        dsap: u8,
        ssap: u8,
    },
    Cc {
        dsap: u8,
        ssap: u8,
        params: Items<Param>,
    },
    Dm {
        dsap: u8,
        ssap: u8,
        reason: u8,
    },
    Frmr {
        dsap: u8,
        ssap: u8,
        report: FrmrReport,
    },
    Snl(Items<Param>),
    Info {
        dsap: u8,
        ssap: u8,
        ns: u8,
        nr: u8,
        info: Items<u8>,
    },
    Rr {
        dsap: u8,
        ssap: u8,
        nr: u8,
    },
    Rnr {
        dsap: u8,
        ssap: u8,
        nr: u8,
    },
}

impl Part {
    /// The PDU that a view shows, in memory of its own.
    pub(crate) fn from_view(alloc: Global, view: PduView<'_>) -> Result<Part, AllocError>
        requires checked { IsChecked view }
        requires one { IsOne view }
        ensures { IfOk result (λ p. shown view.entry ≡ One p) }
    {
        Ok(match view {
            PduView::Symm => Part::Symm,
            PduView::Agf(_) => unreachable!(),
            PduView::Ui { dsap, ssap, info } => Part::Ui {
                dsap,
                ssap,
                info: Items::from_bytes(alloc, info)?,
            },
            PduView::Connect { dsap, ssap, params } => Part::Connect {
                dsap,
                ssap,
                params: copy_params(alloc, params)?,
            },
            PduView::Disc { dsap, ssap } => Part::Disc { dsap, ssap },
            PduView::Cc { dsap, ssap, params } => Part::Cc {
                dsap,
                ssap,
                params: copy_params(alloc, params)?,
            },
            PduView::Dm { dsap, ssap, reason } => Part::Dm { dsap, ssap, reason },
            PduView::Frmr { dsap, ssap, report } => Part::Frmr { dsap, ssap, report },
            PduView::Snl(params) => Part::Snl(copy_params(alloc, params)?),
            PduView::Info {
                dsap,
                ssap,
                ns,
                nr,
                info,
            } => Part::Info {
                dsap,
                ssap,
                ns,
                nr,
                info: Items::from_bytes(alloc, info)?,
            },
            PduView::Rr { dsap, ssap, nr } => Part::Rr { dsap, ssap, nr },
            PduView::Rnr { dsap, ssap, nr } => Part::Rnr { dsap, ssap, nr },
        })
    }

    /// Adds its bytes.
    pub(crate) fn append_to(&self, target: &mut Vec<u8>) -> Result<(), AllocError>
        requires { IsPart self.now }
        ensures { OnOk result (target.new.items ≡ target.old.items ++ part_bytes self.now) }
    {
        match self {
            Part::Symm => append_head(target, 0, Ptype::Symm, 0),
            Part::Ui { dsap, ssap, info } => {
                append_with(target, *dsap, Ptype::Ui, *ssap, info.as_slice())
            }
            Part::Connect { dsap, ssap, params } => {
                append_listing(target, *dsap, Ptype::Connect, *ssap, params.as_slice())
            }
            Part::Disc { dsap, ssap } => append_head(target, *dsap, Ptype::Disc, *ssap),
            Part::Cc { dsap, ssap, params } => {
                append_listing(target, *dsap, Ptype::Cc, *ssap, params.as_slice())
            }
            Part::Dm { dsap, ssap, reason } => {
                append_with(target, *dsap, Ptype::Dm, *ssap, &[*reason])
            }
            Part::Frmr { dsap, ssap, report } => {
                append_with(target, *dsap, Ptype::Frmr, *ssap, &report.to_bytes())
            }
            Part::Snl(params) => {
                append_listing(target, DISCOVERY, Ptype::Snl, DISCOVERY, params.as_slice())
            }
            Part::Info {
                dsap,
                ssap,
                ns,
                nr,
                info,
            } => {
                append_with(target, *dsap, Ptype::Info, *ssap, &[16 * *ns + *nr])?;
                target.extend_from_slice(info.as_slice())
            }
            Part::Rr { dsap, ssap, nr } => append_with(target, *dsap, Ptype::Rr, *ssap, &[*nr]),
            Part::Rnr { dsap, ssap, nr } => append_with(target, *dsap, Ptype::Rnr, *ssap, &[*nr]),
        }
    }
}

impl FrmrReport {
    /// Its four bytes.
    fn to_bytes(&self) -> [u8; 4]
        requires { IsReport self.now }
        ensures { result ≡ report_bytes self.now }
    {
        [
            self.flags + self.ptype,
            self.sequence,
            16 * self.vs + self.vr,
            16 * self.vsa + self.vra,
        ]
    }
}

/// Adds a header.
pub(crate) fn append_head(
    target: &mut Vec<u8>,
    dsap: u8,
    ptype: Ptype,
    ssap: u8,
) -> Result<(), AllocError>
    requires dsap { dsap < 64 }
    requires ssap { ssap < 64 }
    ensures { OnOk result (target.new.items ≡ target.old.items ++ head dsap (ptype_number ptype) ssap) }
{
    let header = Header { dsap, ptype, ssap };
    target.extend_from_slice(&header.to_bytes())
}

/// Adds a header, and these bytes behind it.
fn append_with(
    target: &mut Vec<u8>,
    dsap: u8,
    ptype: Ptype,
    ssap: u8,
    rest: &[u8],
) -> Result<(), AllocError>
    requires dsap { dsap < 64 }
    requires ssap { ssap < 64 }
    ensures { OnOk result (target.new.items ≡ target.old.items ++ head dsap (ptype_number ptype) ssap ++ rest.now) }
{
    append_head(target, dsap, ptype, ssap)?;
    target.extend_from_slice(rest)
}

/// Adds a header, and parameters behind it.
fn append_listing(
    target: &mut Vec<u8>,
    dsap: u8,
    ptype: Ptype,
    ssap: u8,
    params: &[Param],
) -> Result<(), AllocError>
    requires dsap { dsap < 64 }
    requires ssap { ssap < 64 }
    requires params { AreParams params.now }
    ensures { OnOk result (target.new.items ≡ target.old.items ++ head dsap (ptype_number ptype) ssap
        ++ params_bytes params.now) }
{
    append_head(target, dsap, ptype, ssap)?;
    append_params(target, params)
}
