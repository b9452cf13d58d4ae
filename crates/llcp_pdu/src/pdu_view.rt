//! A payload, read in place.

ghost use Rattle.std.specs.Prelude.{◌≡◌, ◌+◌, ◌<◌, ◌^◌, ◌↔◌, length, drop, IfOk, OnOk, Ok};
ghost use Rattle.llcp_pdu.specs.Parts.{body, between, numbered};
ghost use Rattle.llcp_pdu.specs.Params.{params};
ghost use Rattle.llcp_pdu.specs.Pdus.{inner, pdu, whole};
ghost use Rattle.llcp_pdu.specs.Ranges.{IsPdu};
ghost use Rattle.llcp_pdu.specs.Reading.{gives};
ghost use Rattle.llcp_pdu.specs.Spelling.{LlcpSpelling};
ghost use Rattle.llcp_pdu.specs.Views.{IsViewOf, Shows, seen, shown, refusal_told};
ghost use Rattle.llcp_pdu.specs.declared.header.Ptype.TheVariants.{Cc as CcType, Connect as ConnectType};
ghost use Rattle.llcp_pdu.specs.declared.header.Ptype.TheVariants.{Symm as SymmType, Snl as SnlType};
ghost use Rattle.llcp_pdu.specs.declared.pdu.Pdu.{Pdu};

use crate::fault::{PduKind, PduRefusal, Refusal};
use crate::header::{Header, Ptype};
use crate::inner_walk::check_inner;
use crate::param_walk::check_params;
use crate::part::FrmrReport;
use crate::reading::{byte, ended, report};
use crate::wire::{DISCOVERY, HEADER, INNER_LENGTH};

/// A PDU as it stands in bytes (NFC Forum LLCP 1.3), from the SAP `ssap` to the SAP `dsap`. Its slices are slices of
/// these bytes; a `ParamWalk` goes over parameters, an `InnerWalk` over the PDUs in an AGF.
#[derive(Clone, Copy, Debug, Drop, PartialEq, Eq)]
pub enum PduView<'a> {
    Symm,
    Agf(&'a [u8]),
    Ui {
        dsap: u8,
        ssap: u8,
        info: &'a [u8],
    },
    Connect {
        dsap: u8,
        ssap: u8,
        params: &'a [u8],
    },
    Disc {
        dsap: u8,
        ssap: u8,
    },
    Cc {
        dsap: u8,
        ssap: u8,
        params: &'a [u8],
    },
    Dm {
        dsap: u8,
        ssap: u8,
        reason: u8,
    },
    Frmr {
        dsap: u8,
        ssap: u8,
        report: FrmrReport,
    },
    Snl(&'a [u8]),
    Info {
        dsap: u8,
        ssap: u8,
        ns: u8,
        nr: u8,
        info: &'a [u8],
    },
    Rr {
        dsap: u8,
        ssap: u8,
        nr: u8,
    },
    Rnr {
        dsap: u8,
        ssap: u8,
        nr: u8,
    },
}

/// The PDU that some bytes spell, read in place: it takes no memory, and costs what the bytes cost, once.
pub fn view(bytes: &[u8]) -> Result<PduView<'_>, PduRefusal>
    ensures reads { seen result ≡ refusal_told (pdu bytes.now) }
    ensures exact { (p : Pdu) → Shows result p ↔ LlcpSpelling p bytes.now }
    ensures slices { IfOk result (λ v. IsViewOf v (drop 2 bytes.now)) }
    ensures range { IfOk result (λ v. IsPdu (shown v)) }
{
    let header = Header::read_from(bytes, 0)?;
    let rest = bytes.split_at(HEADER).1;
    let read = view_whole(header, rest)?;
    Ok(read)
}

/// A payload by its header and what follows it.
fn view_whole(header: Header, rest: &[u8]) -> Result<PduView<'_>, Refusal>
    requires { 2 + length rest.now < 2 ^ 64 }
    ensures reads { seen result ≡ whole header rest.now }
    ensures slices { IfOk result (λ v. IsViewOf v rest.now) }
{
    if header.ptype.is_agf() {
        view_agf(header, rest)
    } else {
        view_part(header, rest, 0)
    }
}

/// An AGF by what follows its header.
fn view_agf(header: Header, rest: &[u8]) -> Result<PduView<'_>, Refusal>
    requires { 2 + length rest.now < 2 ^ 64 }
    ensures reads { seen result ≡ between 0 header.dsap header.ssap 0 (gives (inner rest.now 0 2) Pdu.Agf) }
    ensures slices { IfOk result (λ v. IsViewOf v rest.now) }
{
    if !header.is_between(0) {
        return Err(Refusal::at(0, PduKind::Sap));
    }
    check_inner(rest, HEADER)?;
    Ok(PduView::Agf(rest))
}

/// A PDU that holds no other and begins at that place, by its header and what follows it.
pub(crate) fn view_part(header: Header, rest: &[u8], at: usize) -> Result<PduView<'_>, Refusal>
    requires { at + 2 + length rest.now < 2 ^ 64 }
    ensures reads { seen result ≡ gives (body header.ptype header.dsap header.ssap rest.now at) Pdu.One }
    ensures slices { IfOk result (λ v. IsViewOf v rest.now) }
{
    let Header { dsap, ptype, ssap } = header;
    let behind = at + HEADER;
    match ptype {
        Ptype::Symm => view_symm(header, rest, at),
        Ptype::Agf => Err(Refusal::at(at.saturating_sub(INNER_LENGTH), PduKind::Nested)),
        Ptype::Ui => Ok(PduView::Ui {
            dsap,
            ssap,
            info: rest,
        }),
        Ptype::Connect => view_connect(header, rest, at),
        Ptype::Disc => ended(rest, behind, PduView::Disc { dsap, ssap }),
        Ptype::Cc => view_cc(header, rest, at),
        Ptype::Dm => Ok(PduView::Dm {
            dsap,
            ssap,
            reason: byte(rest, behind)?,
        }),
        Ptype::Frmr => Ok(PduView::Frmr {
            dsap,
            ssap,
            report: report(rest, behind)?,
        }),
        Ptype::Snl => view_snl(header, rest, at),
        Ptype::Info => view_info(header, rest, behind),
        Ptype::Rr => Ok(PduView::Rr {
            dsap,
            ssap,
            nr: byte(rest, behind)? % 16,
        }),
        Ptype::Rnr => Ok(PduView::Rnr {
            dsap,
            ssap,
            nr: byte(rest, behind)? % 16,
        }),
    }
}

fn view_symm(header: Header, rest: &[u8], at: usize) -> Result<PduView<'_>, Refusal>
    requires { at + 2 + length rest.now < 2 ^ 64 }
    ensures reads { seen result ≡ gives (body SymmType header.dsap header.ssap rest.now at) Pdu.One }
    ensures slices { IfOk result (λ v. IsViewOf v rest.now) }
{
    if !header.is_between(0) {
        return Err(Refusal::at(at, PduKind::Sap));
    }
    ended(rest, at + HEADER, PduView::Symm)
}

fn view_connect(header: Header, rest: &[u8], at: usize) -> Result<PduView<'_>, Refusal>
    requires { at + 2 + length rest.now < 2 ^ 64 }
    ensures reads { seen result ≡ gives (body ConnectType header.dsap header.ssap rest.now at) Pdu.One }
    ensures slices { IfOk result (λ v. IsViewOf v rest.now) }
{
    check_params(rest, at + HEADER)?;
    Ok(PduView::Connect {
        dsap: header.dsap,
        ssap: header.ssap,
        params: rest,
    })
}

fn view_cc(header: Header, rest: &[u8], at: usize) -> Result<PduView<'_>, Refusal>
    requires { at + 2 + length rest.now < 2 ^ 64 }
    ensures reads { seen result ≡ gives (body CcType header.dsap header.ssap rest.now at) Pdu.One }
    ensures slices { IfOk result (λ v. IsViewOf v rest.now) }
{
    check_params(rest, at + HEADER)?;
    Ok(PduView::Cc {
        dsap: header.dsap,
        ssap: header.ssap,
        params: rest,
    })
}

fn view_snl(header: Header, rest: &[u8], at: usize) -> Result<PduView<'_>, Refusal>
    requires { at + 2 + length rest.now < 2 ^ 64 }
    ensures reads { seen result ≡ gives (body SnlType header.dsap header.ssap rest.now at) Pdu.One }
    ensures slices { IfOk result (λ v. IsViewOf v rest.now) }
{
    if !header.is_between(DISCOVERY) {
        return Err(Refusal::at(at, PduKind::Sap));
    }
    check_params(rest, at + HEADER)?;
    Ok(PduView::Snl(rest))
}

/// An I PDU by what follows its header, which stands at that place.
fn view_info(header: Header, rest: &[u8], behind: usize) -> Result<PduView<'_>, Refusal>
    ensures reads { seen result ≡ gives (numbered header.dsap header.ssap rest.now behind) Pdu.One }
    ensures slices { IfOk result (λ v. IsViewOf v rest.now) }
{
    let Some((sequence, info)) = rest.split_first() else {
        return Err(Refusal::at(behind, PduKind::Short));
    };
    Ok(PduView::Info {
        dsap: header.dsap,
        ssap: header.ssap,
        ns: *sequence / 16,
        nr: *sequence % 16,
        info,
    })
}
