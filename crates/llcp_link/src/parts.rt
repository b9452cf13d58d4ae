//! The answers of an end that say no, and its requests.

ghost use Rattle.std.specs.Prelude.{◌≡◌, ◌≤◌, [], ◌∷◌, length, IfOk};
ghost use Rattle.llcp_pdu.specs.declared.param.Param.TheVariants.{SdReq};
ghost use Rattle.llcp_pdu.specs.Spelling.{IsReport};
ghost use Rattle.llcp_conn.specs.Conn.{IsSap};
ghost use Rattle.llcp_link.specs.Kept.{IsSent};
ghost use Rattle.llcp_pdu.specs.declared.part.Part.{Part};

use llcp_pdu::{FrmrReport, Param, Part};
use nfc_base::Items;
use std::alloc::{AllocError, Global};

/// The reasons of a DM: a connection was given up, there is none, nothing is bound there, a CONNECT that is never
/// taken, and connections enough.
pub(crate) const DISCONNECTED: u8 = 0x00;

pub(crate) const NOT_CONNECTED: u8 = 0x01;

pub(crate) const NO_SERVICE: u8 = 0x02;

pub(crate) const NOT_TAKEN: u8 = 0x03;

pub(crate) const BUSY: u8 = 0x20;

/// A refusal.
pub(crate) fn dm(dsap: u8, ssap: u8, reason: u8) -> Part
    requires dsap { IsSap dsap }
    requires ssap { IsSap ssap }
    ensures part { result ≡ Part.Dm dsap ssap reason }
    ensures sent { IsSent result }
{
    Part::Dm { dsap, ssap, reason }
}

/// A rejection.
pub(crate) fn frmr(dsap: u8, ssap: u8, report: FrmrReport) -> Part
    requires dsap { IsSap dsap }
    requires ssap { IsSap ssap }
    requires report { IsReport report }
    ensures part { result ≡ Part.Frmr dsap ssap report }
    ensures sent { IsSent result }
{
    Part::Frmr { dsap, ssap, report }
}

/// A lookup of a name, by its number.
pub(crate) fn request(alloc: Global, tid: u8, name: Items<u8>) -> Result<Part, AllocError>
    requires { length name ≤ 64 }
    ensures part { IfOk result (λ p. p ≡ Part.Snl (SdReq tid name ∷ [])) }
    ensures sent { IfOk result IsSent }
{
    let mut params = Vec::new(alloc);
    params.push(Param::SdReq { tid, name })?;
    Ok(Part::Snl(Items::new(params)))
}

/// A connection is given up.
pub(crate) fn disc(dsap: u8, ssap: u8) -> Part
    requires dsap { IsSap dsap }
    requires ssap { IsSap ssap }
    ensures part { result ≡ Part.Disc dsap ssap }
    ensures sent { IsSent result }
{
    Part::Disc { dsap, ssap }
}
