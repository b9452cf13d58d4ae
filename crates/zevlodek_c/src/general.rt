//! The general bytes with which a link of LLCP begins.

ghost use Rattle.std.specs.Prelude.{◌≡◌};
ghost use Rattle.llcp_pdu.specs.declared.general.GeneralFault.{GeneralFault};
ghost use Rattle.zevlodek_c.specs.General.{GeneralWritten, general_fault, general_told};

use crate::codes::{BAD_ARGUMENT, DONE};
use crate::showing::{Told, show};
use llcp_pdu::{GeneralFault, LinkParams, general_read, general_write};

/// What an end says of itself.
#[repr(C)]
pub struct General {
    /// The longest information of a PDU that it takes: 128 to 2,175 bytes.
    pub miu: u16,
    /// Its well-known services, as bits.
    pub services: u16,
    /// Its version of LLCP, the major number in the high four bits: 13h of LLCP 1.3.
    pub version: u8,
}

/// A fault of general bytes.
fn general_fault(fault: GeneralFault) -> i32
    ensures { result ≡ general_fault fault }
{
    -200 - fault.number() as i32
}

/// Tells the general bytes of an end.
#[unsafe(no_mangle)]
pub extern "C" fn zev_general_write(general: &General, out: &mut [u8], told: &mut Told) -> i32
    ensures { GeneralWritten general.now out.old told.old (record { answer = result; out = out.new; told = told.new }) }
{
    if general.version / 16 != 1 || general.miu < 128 || general.miu > 2175 {
        return BAD_ARGUMENT;
    }
    let params = LinkParams {
        version: general.version,
        miu: general.miu,
        wks: general.services,
    };
    show(DONE, general_write(&params).as_slice(), out, told)
}

/// Tells what general bytes say of the end that sent them.
#[unsafe(no_mangle)]
pub extern "C" fn zev_general_read(bytes: &[u8], general: &mut General) -> i32
    ensures { record { answer = result; said = general.new } ≡ general_told bytes.now general.old }
{
    match general_read(bytes) {
        Ok(params) => {
            general.miu = params.miu;
            general.services = params.wks;
            general.version = params.version;
            DONE
        }
        Err(fault) => general_fault(fault),
    }
}
