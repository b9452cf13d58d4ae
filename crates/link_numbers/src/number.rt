//! How many PDUs a payload has.

ghost use Rattle.std.specs.Prelude.{◌≡◌, ◌≤◌, drop, length};
ghost use Rattle.dep_link.specs.Sizes.{limit};
ghost use Rattle.llcp_pdu.specs.Raw.{raw};
ghost use Rattle.link_numbers.specs.Shown.{counted, heads_agf, number, number_begun};

use llcp_pdu::raw_header;

/// The most bytes of a payload.
pub(crate) const LONGEST: usize = 2178;

/// The type of an AGF.
const AGF: u8 = 2;

/// The bytes of a header.
const HEADER: usize = 2;

/// The bytes of the length of a PDU in an AGF.
const LENGTH: usize = 2;

/// The number of a whole payload: of an AGF its PDUs, else one. Where it isn't what a payload may be it is as of one
/// that was cut off.
pub(crate) fn number_of(payload: &[u8]) -> u32
    ensures { result ≡ number payload.now }
{
    if payload.len() > LONGEST || !begins_agf(payload) {
        return number_begun(payload);
    }
    match count_parts(behind(payload, HEADER)) {
        1 => 0,
        count => count,
    }
}

/// The number of a payload that was cut off: 0 where it begins as an AGF, else one.
pub(crate) fn number_begun(payload: &[u8]) -> u32
    ensures { result ≡ number_begun payload.now }
{
    if begins_agf(payload) { 0 } else { 1 }
}

/// How many PDUs stand behind the header of an AGF, none where the last is cut short.
fn count_parts(inner: &[u8]) -> u32
    requires { length inner.now ≤ limit }
    ensures { result ≡ counted 0 inner.now 0 }
{
    let mut count = 0;
    let mut rest = inner;
    'parts: while rest.len() >= LENGTH {
        let size = 256 * rest[0] as usize + rest[1] as usize;
        let tail = behind(rest, LENGTH);
        if tail.len() < size {
            return 0;
        }
        rest = behind(tail, size);
        count += 1;
    }
    if rest.is_empty() { count } else { 0 }
}

/// What follows the first so many bytes.
fn behind(bytes: &[u8], count: usize) -> &[u8]
    ensures { result.now ≡ drop count bytes.now }
{
    if count > bytes.len() {
        &[]
    } else {
        &bytes[count..]
    }
}

/// Whether some bytes begin with the header of an AGF.
fn begins_agf(bytes: &[u8]) -> bool
    ensures { result ≡ heads_agf (raw bytes.now) }
{
    match raw_header(bytes) {
        None => false,
        Some(header) => header.dsap == 0 && header.ptype == AGF && header.ssap == 0,
    }
}
