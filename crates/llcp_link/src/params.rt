//! What an end says of itself in CONNECT and CC, and how many bytes PDUs have.

ghost use Rattle.std.specs.Prelude.{◌≡◌, ◌≤◌, ◌<◌, length, unwrap_or, IfOk, IfSome};
ghost use Rattle.llcp_pdu.specs.General.{IsMiu, miu_by};
ghost use Rattle.llcp_pdu.specs.Wire.{least_miu, miux_end, rw_end};
ghost use Rattle.llcp_pdu.specs.Ranges.{AreParams};
ghost use Rattle.llcp_pdu.specs.Writing.{params_bytes};
ghost use Rattle.llcp_conn.specs.Conn.{IsWindow};
ghost use Rattle.llcp_link.specs.Names.{own_params as said_of};

use llcp_pdu::{LEAST_MIU, Param};
use nfc_base::Items;
use std::alloc::{AllocError, Global};

/// MIUX where the MIU isn't 128, and RW where the window isn't 1.
pub(crate) fn own_params(alloc: Global, miu: u16, window: u8) -> Result<Items<Param>, AllocError>
    requires miu { IsMiu miu }
    requires window { IsWindow window }
    ensures said { IfOk result (λ ps. ps ≡ said_of miu window) }
    ensures range { IfOk result (λ ps. AreParams ps) }
    ensures size { IfOk result (λ ps. length (params_bytes ps) ≤ 7) }
{
    let mut params = Vec::new(alloc);
    if miu != LEAST_MIU {
        params.push(Param::Miux(miu - LEAST_MIU))?;
    }
    if window != 1 {
        params.push(Param::Rw(window))?;
    }
    Ok(Items::new(params))
}

/// The MIU of an end that says this MIUX, or none.
pub(crate) fn miu_said(miux: Option<u16>) -> u16
    requires { IfSome miux (λ n. n < miux_end) }
    ensures said { result ≡ miu_by least_miu miux }
    ensures range { IsMiu result }
{
    match miux {
        None => LEAST_MIU,
        Some(miux) => LEAST_MIU + miux,
    }
}

/// The receive window of an end that says this RW, or none; 0 isn't one.
pub(crate) fn window_said(rw: Option<u8>) -> u8
    requires { IfSome rw (λ n. n < rw_end) }
    ensures said { result ≡ unwrap_or rw 1 }
    ensures range { result < rw_end }
{
    rw.unwrap_or(1)
}
