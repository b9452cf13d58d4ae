//! The numbers of the wire.

/// How many bytes a header has.
pub(crate) const HEADER: usize = 2;

/// How many bytes the length of a PDU in an AGF has.
pub(crate) const INNER_LENGTH: usize = 2;

/// The types of PDU.
pub(crate) const SYMM: u8 = 0;

pub(crate) const AGF: u8 = 2;

pub(crate) const UI: u8 = 3;

pub(crate) const CONNECT: u8 = 4;

/// The type of a DISC.
pub const DISC: u8 = 5;

pub(crate) const CC: u8 = 6;

pub(crate) const DM: u8 = 7;

pub(crate) const FRMR: u8 = 8;

pub(crate) const SNL: u8 = 9;

/// The type of an I PDU.
pub const INFO: u8 = 12;

/// The type of a RR.
pub const RR: u8 = 13;

/// The type of a RNR.
pub const RNR: u8 = 14;

/// The SAP of service discovery, from and to which an SNL goes.
pub(crate) const DISCOVERY: u8 = 1;

/// The types of the parameters.
pub(crate) const VERSION: u8 = 1;

pub(crate) const MIUX: u8 = 2;

pub(crate) const WKS: u8 = 3;

pub(crate) const LTO: u8 = 4;

pub(crate) const RW: u8 = 5;

pub(crate) const SN: u8 = 6;

pub(crate) const OPT: u8 = 7;

pub(crate) const SDREQ: u8 = 8;

pub(crate) const SDRES: u8 = 9;

/// A MIUX has eleven bits, a RW has four.
pub(crate) const MIUX_END: u16 = 2048;

pub(crate) const RW_END: u8 = 16;

/// The MIU of an end that sends no MIUX.
pub const LEAST_MIU: u16 = 128;
