//! The general bytes with which a link begins.

ghost use Rattle.std.specs.Prelude.{◌≡◌, ◌≤◌, ◌+◌, ◌++◌, ◌↔◌, length, option_copied, option_map, Ok, Some, IfOk};
ghost use Rattle.arrayvec.specs.ArrayVec.{array_vec_len};
ghost use Rattle.llcp_pdu.specs.General.{general, general_bytes, unmasked as unmasked_of, heard, spoken, miux_of};
ghost use Rattle.llcp_pdu.specs.General.{IsMiu, IsLinkParams};
ghost use Rattle.llcp_pdu.specs.Numbers.{general_fault_number};
ghost use Rattle.llcp_pdu.specs.Params.{param};
ghost use Rattle.llcp_pdu.specs.Wire.{least_miu};
ghost use Rattle.llcp_pdu.specs.Writing.{params_bytes};

use crate::param_walk::{one, split_param, two, word};
use crate::wire::{LEAST_MIU, MIUX, MIUX_END, VERSION, WKS};
use arrayvec::ArrayVec;
use thiserror::Error;

/// The first three bytes.
const MAGIC: [u8; 3] = *b"Ffm";

/// The major number of the version that is spoken here.
const MAJOR: u8 = 1;

/// What an end says of itself in its general bytes (NFC Forum LLCP 1.3): its version of LLCP, major number in the high
/// nibble, its MIU, and its well-known services as bits.
#[derive(Clone, Copy, Debug, PartialEq, Eq)]
pub struct LinkParams {
    pub version: u8,
    pub miu: u16,
    pub wks: u16,
}

/// Why general bytes begin no link, the first that applies in the order `NoMagic`, `Malformed`, `NoVersion`,
/// `OtherMajor`.
#[derive(Clone, Copy, Debug, PartialEq, Eq, Error)]
pub enum GeneralFault {
    #[error("the general bytes are not of LLCP")]
    NoMagic = 1,
    #[error("the general bytes have no version")]
    NoVersion = 2,
    #[error("the general bytes have a version of another major number")]
    OtherMajor = 3,
    #[error("the general bytes have a malformed parameter")]
    Malformed = 4,
}

impl GeneralFault {
    /// Its number in reports and tests.
    pub fn number(&self) -> u8
        ensures { result ≡ general_fault_number self.now }
    {
        *self as u8
    }
}

/// What was said so far.
#[derive(Clone, Copy)]
struct Spoken {
    version: Option<u8>,
    miu: u16,
    wks: u16,
}

impl Spoken {
    /// One more parameter is heard.
    fn hear(&mut self, kind: u8, value: &[u8])
        requires { IsMiu self.old.miu }
        ensures heard { self.new ≡ heard self.old (param kind value.now) }
        ensures bound { IsMiu self.new.miu }
    {
        match kind {
            VERSION => {
                if let Some(version) = one(value) {
                    self.version = Some(version);
                }
            }
            MIUX => {
                if let Some(miux) = two(value) {
                    self.miu = LEAST_MIU + word(miux) % MIUX_END;
                }
            }
            WKS => {
                if let Some(wks) = two(value) {
                    self.wks = word(wks);
                }
            }
            _ => {}
        }
    }

    /// What was said in all.
    fn link_params(&self) -> Result<LinkParams, GeneralFault>
        requires { IsMiu self.now.miu }
        ensures spoken { result ≡ spoken self.now.version self.now.miu self.now.wks }
        ensures range { IfOk result IsLinkParams }
    {
        let version = self.version.ok_or(GeneralFault::NoVersion)?;
        if version / 16 != MAJOR {
            return Err(GeneralFault::OtherMajor);
        }
        Ok(LinkParams {
            version,
            miu: self.miu,
            wks: self.wks,
        })
    }
}

/// What stands behind the magic.
fn unmasked(bytes: &[u8]) -> Option<&[u8]>
    ensures { option_map (λ x. x.now) result ≡ unmasked_of bytes.now }
{
    match bytes {
        [b'F', b'f', b'm', ..] => Some(bytes.split_at(MAGIC.len()).1),
        _ => None,
    }
}

/// What general bytes say of the end that sent them. It takes no memory. The order of its refusals is this project's
/// own.
pub fn general_read(bytes: &[u8]) -> Result<LinkParams, GeneralFault>
    ensures exact { result ≡ general bytes.now }
    ensures range { IfOk result IsLinkParams }
{
    let Some(mut rest) = unmasked(bytes) else {
        return Err(GeneralFault::NoMagic);
    };
    let mut spoken = Spoken {
        version: None,
        miu: LEAST_MIU,
        wks: 0,
    };
    'params: while !rest.is_empty() {
        let Some((kind, value, tail)) = split_param(rest) else {
            return Err(GeneralFault::Malformed);
        };
        spoken.hear(kind, value);
        rest = tail;
    }
    spoken.link_params()
}

/// Adds a MIUX, where the MIU isn't the least.
fn put_miux(bytes: &mut ArrayVec<u8, 47>, miu: u16)
    requires room { array_vec_len bytes.old ≤ 43 }
    requires least { least_miu ≤ miu }
    ensures bytes { bytes.new.items ≡ bytes.old.items ++ params_bytes (miux_of miu) }
    ensures bound { array_vec_len bytes.new ≤ array_vec_len bytes.old + 4 }
{
    if miu != LEAST_MIU {
        let [high, low] = (miu - LEAST_MIU).to_be_bytes();
        bytes.try_extend_from_slice(&[MIUX, 2, high, low]).unwrap();
    }
}

/// The general bytes of an end. It takes no memory. Which parameters are written is this project's own.
pub fn general_write(params: &LinkParams) -> ArrayVec<u8, 47>
    requires { IsLinkParams params.now }
    ensures bytes { result.items ≡ general_bytes params.now }
    ensures exact { general result.items ≡ Ok params.now }
{
    let mut bytes = ArrayVec::new();
    bytes.try_extend_from_slice(&MAGIC).unwrap();
    bytes
        .try_extend_from_slice(&[VERSION, 1, params.version])
        .unwrap();
    put_miux(&mut bytes, params.miu);
    let [high, low] = params.wks.to_be_bytes();
    bytes.try_extend_from_slice(&[WKS, 2, high, low]).unwrap();
    bytes
}
