//! The first two bytes of each PDU.

ghost use Rattle.std.specs.Prelude.{◌≡◌, ◌+◌, ◌<◌, ◌^◌, ◌&&◌, ◌==◌, ◌≤◌, length, IfSome, OnOk};
ghost use Rattle.llcp_pdu.specs.Parts.{header, ptype_of};
ghost use Rattle.llcp_pdu.specs.Pdus.{is_agf as is_agf_type};
ghost use Rattle.llcp_pdu.specs.Raw.{raw, IsRaw};
ghost use Rattle.llcp_pdu.specs.Spelling.{head};
ghost use Rattle.llcp_pdu.specs.Wire.{ptype_number};

use crate::fault::{PduKind, Refusal};
use crate::wire::{AGF, CC, CONNECT, DISC, DM, FRMR, INFO, RNR, RR, SNL, SYMM, UI};

/// The types of PDU (NFC Forum LLCP 1.3).
#[derive(Clone, Copy, Debug)]
pub(crate) enum Ptype {
    Symm,
    Agf,
    Ui,
    Connect,
    Disc,
    Cc,
    Dm,
    Frmr,
    Snl,
    Info,
    Rr,
    Rnr,
}

impl Ptype {
    /// The type of a number.
    fn from_number(number: u8) -> Option<Ptype>
        ensures { result ≡ ptype_of number }
    {
        match number {
            SYMM => Some(Ptype::Symm),
            AGF => Some(Ptype::Agf),
            UI => Some(Ptype::Ui),
            CONNECT => Some(Ptype::Connect),
            DISC => Some(Ptype::Disc),
            CC => Some(Ptype::Cc),
            DM => Some(Ptype::Dm),
            FRMR => Some(Ptype::Frmr),
            SNL => Some(Ptype::Snl),
            INFO => Some(Ptype::Info),
            RR => Some(Ptype::Rr),
            RNR => Some(Ptype::Rnr),
            _ => None,
        }
    }

    pub(crate) fn number(self) -> u8
        ensures { result ≡ ptype_number self }
    {
        match self {
            Ptype::Symm => SYMM,
            Ptype::Agf => AGF,
            Ptype::Ui => UI,
            Ptype::Connect => CONNECT,
            Ptype::Disc => DISC,
            Ptype::Cc => CC,
            Ptype::Dm => DM,
            Ptype::Frmr => FRMR,
            Ptype::Snl => SNL,
            Ptype::Info => INFO,
            Ptype::Rr => RR,
            Ptype::Rnr => RNR,
        }
    }

    pub(crate) fn is_agf(self) -> bool
        ensures { result ≡ is_agf_type self }
    {
        matches!(self, Ptype::Agf)
    }
}

/// The SAPs of a PDU and its type.
#[derive(Clone, Copy, Debug)]
pub(crate) struct Header {
    pub(crate) dsap: u8,
    pub(crate) ptype: Ptype,
    pub(crate) ssap: u8,
}

impl Header {
    /// The header of a PDU that begins at that place.
    pub(crate) fn read_from(bytes: &[u8], at: usize) -> Result<Header, Refusal>
        requires { at + length bytes.now < 2 ^ 64 }
        ensures reads { result ≡ header at bytes.now }
        ensures long { OnOk result (2 ≤ length bytes.now) }
    {
        let [first, second, ..] = bytes else {
            return Err(Refusal::at(at + bytes.len(), PduKind::Short));
        };
        let number = *first % 4 * 4 + *second / 64;
        match Ptype::from_number(number) {
            None => Err(Refusal::at(at, PduKind::Ptype)),
            Some(ptype) => Ok(Header {
                dsap: *first / 4,
                ptype,
                ssap: *second % 64,
            }),
        }
    }

    /// Whether it goes from this SAP to this SAP.
    pub(crate) fn is_between(self, sap: u8) -> bool
        ensures { result ≡ ((self.dsap == sap) && (self.ssap == sap)) }
    {
        self.dsap == sap && self.ssap == sap
    }

    /// Its bytes.
    pub(crate) fn to_bytes(self) -> [u8; 2]
        requires dsap { self.dsap < 64 }
        requires ssap { self.ssap < 64 }
        ensures { result ≡ head self.dsap (ptype_number self.ptype) self.ssap }
    {
        let number = self.ptype.number();
        [4 * self.dsap + number / 4, 64 * (number % 4) + self.ssap]
    }
}

/// The first bytes of a payload, which may be no PDU: the SAPs, the number of the type, and the byte behind them. Of a
/// malformed I, RR or RNR a FRMR reports these.
#[derive(Clone, Copy, Debug, PartialEq, Eq)]
pub struct RawHeader {
    pub dsap: u8,
    pub ptype: u8,
    pub ssap: u8,
    pub third: Option<u8>,
}

/// The first bytes of a payload of at least two bytes. It takes no memory.
pub fn raw_header(bytes: &[u8]) -> Option<RawHeader>
    ensures reads { result ≡ raw bytes.now }
    ensures range { IfSome result IsRaw }
{
    let [first, second, rest @ ..] = bytes else {
        return None;
    };
    Some(RawHeader {
        dsap: *first / 4,
        ptype: *first % 4 * 4 + *second / 64,
        ssap: *second % 64,
        third: rest.first().copied(),
    })
}
