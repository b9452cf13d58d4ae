//! How many bytes PDUs have.

ghost use Rattle.std.specs.Prelude.{◌≡◌, ◌<◌, length};
ghost use Rattle.llcp_pdu.specs.Writing.{tlv_of, params_bytes, part_bytes};

use crate::param::Param;
use crate::part::Part;

/// The bytes of a parameter's value.
fn value_len(param: &Param) -> usize
    requires { length (tlv_of param.now).value < 65536 }
    ensures { result ≡ length (tlv_of param.now).value }
{
    match param {
        Param::Version(_) | Param::Lto(_) | Param::Rw(_) | Param::Opt(_) => 1,
        Param::Miux(_) | Param::Wks(_) | Param::SdRes { .. } => 2,
        Param::Sn(name) => name.as_slice().len(),
        Param::SdReq { name, .. } => 1 + name.as_slice().len(),
    }
}

/// The bytes of parameters.
fn params_len(params: &[Param]) -> usize
    requires { length (params_bytes params.now) < 65536 }
    ensures { result ≡ length (params_bytes params.now) }
{
    let mut total = 0;
    'params: for param in params {
        total += 2 + value_len(param);
    }
    total
}

/// How many bytes a PDU has, of which none is written.
pub fn part_len(part: &Part) -> usize
    requires { length (part_bytes part.now) < 65536 }
    ensures { result ≡ length (part_bytes part.now) }
{
    match part {
        Part::Symm | Part::Disc { .. } => 2,
        Part::Ui { info, .. } => 2 + info.as_slice().len(),
        Part::Connect { params, .. } | Part::Cc { params, .. } | Part::Snl(params) => {
            2 + params_len(params.as_slice())
        }
        Part::Dm { .. } | Part::Rr { .. } | Part::Rnr { .. } => 3,
        Part::Frmr { .. } => 6,
        Part::Info { info, .. } => 3 + info.as_slice().len(),
    }
}
