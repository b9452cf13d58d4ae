//! How long blocks are, and RATS and ATS, by which the ends tell it.

ghost use Rattle.std.specs.Prelude.{◌≡◌, ◌<◌, ◌≤◌};
ghost use Rattle.nfc_base.specs.Headed.{is_rats};
ghost use Rattle.isodep_link.specs.Sizes.{piece_size, rats_code, ats_frame};

use nfc_base::{Frame, Tech};

/// The most bytes of a command, and of an answer.
pub(crate) const LIMIT: usize = 264;

/// The code of the shortest blocks. The card cuts its answers to them until RATS tells more.
pub(crate) const LEAST_CODE: u8 = 0;

/// The control byte of a block and the two check bytes behind it.
const AROUND: usize = 3;

const RATS: u8 = 0xE0;

/// The most content of a block, by a size code; codes above 8 count as 8.
pub(crate) fn piece_size(code: u8) -> usize
    ensures size { result ≡ piece_size code }
    ensures least { 0 < result }
    ensures most { result ≤ 253 }
{
    let block: usize = match code {
        0 => 16,
        1 => 24,
        2 => 32,
        3 => 40,
        4 => 48,
        5 => 64,
        6 => 96,
        7 => 128,
        _ => 256,
    };
    block - AROUND
}

/// Whether a frame is RATS, which opens a link to a Type 4 tag (ISO/IEC 14443-4). Whoever holds a `CardEnd` hands it
/// all frames from there on.
pub fn is_rats(frame: &Frame) -> bool
    ensures { result ≡ is_rats frame.now }
{
    if frame.tech() != Tech::A || frame.tail() != 0 {
        return false;
    }
    let bytes = frame.view();
    bytes.len() == 2 && bytes[0] == RATS
}

/// The reader's size code, where the frame is RATS.
pub(crate) fn rats_code(frame: &Frame) -> Option<u8>
    ensures { result ≡ rats_code frame.now }
{
    if !is_rats(frame) {
        return None;
    }
    Some(frame.view()[1] / 16)
}

/// ATS of a card with this size code: two bytes.
pub(crate) fn ats_frame(code: u8) -> Frame
    ensures { result ≡ ats_frame code }
{
    Frame::whole(Tech::A, &[2, code]).unwrap()
}
