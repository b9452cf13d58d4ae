//! A whole payload.

ghost use Rattle.std.specs.Prelude.{◌≡◌, ◌<◌, ◌++◌, ◌↔◌, length, IfOk, OnOk, OnErr, Ok, Err};
ghost use Rattle.llcp_pdu.specs.Faults.{Answers, UnlessMemory};
ghost use Rattle.llcp_pdu.specs.Pdus.{pdu};
ghost use Rattle.llcp_pdu.specs.Ranges.{IsPart, AreParts, IsPdu};
ghost use Rattle.llcp_pdu.specs.Spelling.{LlcpSpelling};
ghost use Rattle.llcp_pdu.specs.Views.{HoldsParts, IsChecked, parts_in, shown, refusal_told};
ghost use Rattle.llcp_pdu.specs.Writing.{inner_bytes, part_bytes, parts_bytes, pdu_bytes};
ghost use Rattle.llcp_pdu.specs.declared.fault.PduFault.TheVariants.{Memory};

use crate::fault::PduFault;
use crate::header::Ptype;
use crate::inner_walk::InnerWalk;
use crate::lengths::part_len;
use crate::part::{Part, append_head};
use crate::pdu_view::{PduView, view};
use nfc_base::Items;
use std::alloc::{AllocError, Global};

/// A payload of a link (NFC Forum LLCP 1.3): one PDU, or an AGF, which holds some; none of these is an AGF.
#[derive(Debug, Drop, PartialEq)]
pub enum Pdu {
    Agf(Items<Part>),
    One(Part),
}

impl Pdu {
    /// The PDU that some bytes spell.
    pub fn read_from(alloc: Global, bytes: &[u8]) -> Result<Pdu, PduFault>
        ensures reads { Answers result (refusal_told (pdu bytes.now)) }
        ensures exact { UnlessMemory result (λ v. LlcpSpelling v bytes.now) }
        ensures range { IfOk result (λ v. IsPdu v) }
        ensures one { (v w : Pdu) → LlcpSpelling v bytes.now → LlcpSpelling w bytes.now → v ≡ w }
    {
        let pdu = Pdu::from_view(alloc, view(bytes)?)?;
        Ok(pdu)
    }

    /// The PDU that a view shows, in memory of its own.
    pub fn from_view(alloc: Global, view: PduView<'_>) -> Result<Pdu, AllocError>
        requires { IsChecked view }
        ensures { IfOk result (λ p. p ≡ shown view.entry) }
    {
        match view {
            PduView::Agf(inner) => Ok(Pdu::Agf(copy_parts(alloc, inner)?)),
            _ => Ok(Pdu::One(Part::from_view(alloc, view)?)),
        }
    }

    /// Adds the bytes of a PDU with fields in range to `target`: no parameters of unknown types, 0 in all bits that are
    /// ignored. They are written into memory of their own first.
    pub fn write_to(&self, target: &mut Vec<u8>) -> Result<(), AllocError>
        requires { IsPdu self.now }
        ensures ok { OnOk result (target.new.items ≡ target.old.items ++ pdu_bytes self.now) }
        ensures err { OnErr result (target.new.items ≡ target.old.items) }
        ensures exact { LlcpSpelling self.now (pdu_bytes self.now) }
        ensures back { pdu (pdu_bytes self.now) ≡ Ok self.now }
    {
        let mut bytes = Vec::new(*target.allocator());
        self.append_to(&mut bytes)?;
        target.extend_from_slice(&bytes)
    }

    /// Adds its bytes where `target` ends. After an `Err` some of them may stand there.
    pub fn append_to(&self, target: &mut Vec<u8>) -> Result<(), AllocError>
        requires { IsPdu self.now }
        ensures { OnOk result (target.new.items ≡ target.old.items ++ pdu_bytes self.now) }
    {
        match self {
            Pdu::One(part) => part.append_to(target),
            Pdu::Agf(parts) => {
                append_head(target, 0, Ptype::Agf, 0)?;
                append_parts(target, parts.as_slice())
            }
        }
    }
}

/// The PDUs in an AGF, in memory of their own.
fn copy_parts(alloc: Global, inner: &[u8]) -> Result<Items<Part>, AllocError>
    requires { HoldsParts inner.now }
    ensures { IfOk result (λ ps. ps ≡ parts_in inner.now) }
{
    let mut parts = Vec::new(alloc);
    'inner: for view in InnerWalk::new(inner) {
        parts.push(Part::from_view(alloc, view)?)?;
    }
    Ok(Items::new(parts))
}

/// Adds one PDU behind its length.
fn append_part(target: &mut Vec<u8>, part: &Part) -> Result<(), AllocError>
    requires part { IsPart part.now }
    requires short { length (part_bytes part.now) < 65536 }
    ensures { OnOk result (target.new.items ≡ target.old.items ++ inner_bytes part.now) }
{
    target.extend_from_slice(&(part_len(part) as u16).to_be_bytes())?;
    part.append_to(target)
}

/// Adds PDUs, each behind its length.
fn append_parts(target: &mut Vec<u8>, parts: &[Part]) -> Result<(), AllocError>
    requires { AreParts parts.now }
    ensures { OnOk result (target.new.items ≡ target.old.items ++ parts_bytes parts.now) }
{
    'parts: for part in parts {
        append_part(target, part)?;
    }
    Ok(())
}
