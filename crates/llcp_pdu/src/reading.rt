//! What follows a header, where it needs no memory.

ghost use Rattle.std.specs.Prelude.{◌≡◌, ◌+◌, ◌<◌, ◌^◌, length};
ghost use Rattle.llcp_pdu.specs.Reading.{ended as ended_as, byte as byte_of};
ghost use Rattle.llcp_pdu.specs.Parts.{report as report_of};

use crate::fault::{PduKind, Refusal};
use crate::part::FrmrReport;

/// The value that was read, where nothing follows.
pub(crate) fn ended<T: Drop>(rest: &[u8], at: usize, value: T) -> Result<T, Refusal>
    ensures { result ≡ ended_as rest.now at value }
{
    if rest.is_empty() {
        Ok(value)
    } else {
        Err(Refusal::at(at, PduKind::Trailing))
    }
}

/// One byte, where nothing follows it.
pub(crate) fn byte(rest: &[u8], at: usize) -> Result<u8, Refusal>
    requires { at + length rest.now < 2 ^ 64 }
    ensures { result ≡ byte_of rest.now at }
{
    match rest.split_first() {
        None => Err(Refusal::at(at, PduKind::Short)),
        Some((byte, tail)) => ended(tail, at + 1, *byte),
    }
}

/// The four bytes of a FRMR, where nothing follows them.
pub(crate) fn report(rest: &[u8], at: usize) -> Result<FrmrReport, Refusal>
    requires { at + length rest.now < 2 ^ 64 }
    ensures { result ≡ report_of rest.now at }
{
    let [kind, sequence, sent, acknowledged, ..] = rest else {
        return Err(Refusal::at(at + rest.len(), PduKind::Short));
    };
    let report = FrmrReport {
        flags: *kind / 16 * 16,
        ptype: *kind % 16,
        sequence: *sequence,
        vs: *sent / 16,
        vr: *sent % 16,
        vsa: *acknowledged / 16,
        vra: *acknowledged % 16,
    };
    ended(rest.split_at(4).1, at + 4, report)
}
