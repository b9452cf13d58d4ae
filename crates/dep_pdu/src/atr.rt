//! ATR_REQ and ATR_RES, by which a link begins.

ghost use Rattle.std.specs.Prelude.{◌≡◌, ◌≤◌, ◌<◌, ◌+◌, ◌++◌, Some, true, false, Bool, take, drop, length, slice_index};
ghost use Rattle.std.specs.Prelude.{nat_lt, if◌then◌else◌, IsNone, List};
ghost use Rattle.dep_pdu.specs.Numbers.{id_size, id_place, did_place, pp_place};
ghost use Rattle.dep_pdu.specs.Spelling.{framed, pp_byte};
ghost use Rattle.dep_pdu.specs.Refusal.{first, named_faults, is_pp};
ghost use Rattle.dep_pdu.specs.Reading.{IsHeaded, TellsNamed};
ghost use Rattle.dep_pdu.specs.declared.head.Head.TheVariants.{Atr};

use crate::frame::DepFrame;
use crate::head::HEAD_END;
use crate::refusal::{DepKind, DepRefusal};
use crate::write::framed;
use arrayvec::ArrayVec;

/// DID: no device identifier is given.
pub(crate) const NO_DID: u8 = 0x00;

/// BS and BR: no bit rate but the one in use.
pub(crate) const NO_RATE: u8 = 0x00;

/// The bit of PP that announces general bytes.
const GENERAL_FOLLOW: u8 = 0x02;

/// How many general bytes fit a request of 64 bytes, and an answer.
const MOST_GENERAL_REQ: usize = 48;

const MOST_GENERAL_RES: usize = 47;

/// Where DID stands, behind NFCID3; TO in ATR_RES; and PP in both frames.
const DID_PLACE: usize = 14;

const TIMEOUT_PLACE: usize = 17;

const REQ_PP_PLACE: usize = 17;

const RES_PP_PLACE: usize = 18;

pub(crate) fn read_atr_req(bytes: &[u8]) -> Result<DepFrame, DepRefusal>
    requires { IsHeaded bytes.now }
    ensures { TellsNamed result (Some (Atr false)) bytes.now }
{
    if let Some(refusal) = atr_refusal(bytes, false) {
        return Err(refusal);
    }
    let mut general = ArrayVec::new();
    general
        .try_extend_from_slice(bytes.split_at(REQ_PP_PLACE + 1).1)
        .unwrap();
    Ok(DepFrame::AtrReq {
        id: id_of(bytes),
        lr: bytes[REQ_PP_PLACE] / 16,
        general,
    })
}

pub(crate) fn read_atr_res(bytes: &[u8]) -> Result<DepFrame, DepRefusal>
    requires { IsHeaded bytes.now }
    ensures { TellsNamed result (Some (Atr true)) bytes.now }
{
    if let Some(refusal) = atr_refusal(bytes, true) {
        return Err(refusal);
    }
    let mut general = ArrayVec::new();
    general
        .try_extend_from_slice(bytes.split_at(RES_PP_PLACE + 1).1)
        .unwrap();
    Ok(DepFrame::AtrRes {
        id: id_of(bytes),
        timeout: bytes[TIMEOUT_PLACE],
        lr: bytes[RES_PP_PLACE] / 16,
        general,
    })
}

/// The first fault behind the direction and command bytes.
fn atr_refusal(bytes: &[u8], up: bool) -> Option<DepRefusal>
    requires { IsHeaded bytes.now }
    ensures first { result ≡ first (named_faults (Some (Atr up)) bytes.now) }
    ensures least { IsNone result → pp_place up < length bytes.now }
    ensures most { IsNone result → length bytes.now ≤ 66 }
{
    let (pp_place, most) = if up {
        (RES_PP_PLACE, MOST_GENERAL_RES)
    } else {
        (REQ_PP_PLACE, MOST_GENERAL_REQ)
    };
    if bytes.len() <= pp_place {
        return Some(DepRefusal::at(bytes.len(), DepKind::Short));
    }
    if bytes[DID_PLACE] != NO_DID {
        return Some(DepRefusal::at(DID_PLACE, DepKind::Field));
    }
    let pp = bytes[pp_place];
    if !is_pp(pp) {
        return Some(DepRefusal::at(pp_place, DepKind::Field));
    }
    if bytes.len() > pp_place + 1 && pp % 16 == 0 {
        return Some(DepRefusal::at(pp_place, DepKind::Field));
    }
    if bytes.len() > pp_place + 1 + most {
        return Some(DepRefusal::at(pp_place + 1 + most, DepKind::Trailing));
    }
    None
}

/// PP has no other bits than those of 32h.
fn is_pp(pp: u8) -> bool
    ensures { result ≡ is_pp pp }
{
    pp < 64 && (pp % 16 == 0 || pp % 16 == GENERAL_FOLLOW)
}

/// NFCID3.
fn id_of(bytes: &[u8]) -> [u8; 10]
    requires { did_place ≤ length bytes.now }
    ensures { result ≡ take id_size (drop id_place bytes.now) }
{
    bytes[HEAD_END..DID_PLACE].try_into().unwrap()
}

/// The bytes of ATR_REQ or ATR_RES; `fixed` is from DID to PP.
pub(crate) fn atr_bytes(
    head: [u8; 2],
    id: [u8; 10],
    fixed: &[u8],
    general: &[u8],
) -> ArrayVec<u8, 256>
    requires { length fixed.now + length general.now ≤ 52 }
    ensures { result.items ≡ framed (head ++ id ++ fixed.now ++ general.now) }
{
    let mut body: ArrayVec<u8, 64> = ArrayVec::new();
    body.try_extend_from_slice(&head).unwrap();
    body.try_extend_from_slice(&id).unwrap();
    body.try_extend_from_slice(fixed).unwrap();
    body.try_extend_from_slice(general).unwrap();
    framed(&body)
}

/// PP, which announces general bytes where there are any.
pub(crate) fn pp(lr: u8, general: &[u8]) -> u8
    ensures { result ≡ pp_byte lr (nat_lt 0 (length general.now)) }
{
    let mark = if general.is_empty() {
        0
    } else {
        GENERAL_FOLLOW
    };
    lr % 4 * 16 + mark
}
