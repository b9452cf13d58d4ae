//! What bytes are read as, fault by fault.

ghost use Rattle.std.specs.Prelude.{◌≡◌, ◌<◌, ◌≤◌, ◌+◌, ◌==◌, ◌||◌, not, nat_lt, length, slice_index, [], ◌∷◌, Option};
ghost use Rattle.std.specs.Prelude.{Some, true, IsTrue};
ghost use Rattle.dep_pdu.specs.Numbers.{start_byte, len_place, direction_place, command_place, head_end};
ghost use Rattle.dep_pdu.specs.Refusal.{dep_faults, head, fault, is_direction};
ghost use Rattle.dep_pdu.specs.Reading.{Tells, TellsNamed, frame_of};
ghost use Rattle.dep_pdu.specs.declared.refusal.DepKind.TheVariants.{Direction, Command, Trailing};

use crate::atr::{read_atr_req, read_atr_res};
use crate::dep::read_dep;
use crate::frame::DepFrame;
use crate::head::{ANSWER, COMMAND_PLACE, DIRECTION_PLACE, HEAD_END, Head, REQUEST};
use crate::refusal::{DepKind, DepRefusal};

/// The byte that begins each frame.
pub(crate) const START: u8 = 0xF0;

/// Where LEN stands.
const LEN_PLACE: usize = 1;

pub(crate) fn read_frame(bytes: &[u8]) -> Result<DepFrame, DepRefusal>
    ensures { Tells result (dep_faults bytes.now) (frame_of (head bytes.now) bytes.now) }
{
    if !is_begun(bytes) {
        return Err(DepRefusal::at(0, DepKind::Start));
    }
    if !is_counted(bytes) {
        return Err(DepRefusal::at(LEN_PLACE, DepKind::Length));
    }
    if bytes.len() < HEAD_END {
        return Err(DepRefusal::at(bytes.len(), DepKind::Short));
    }
    read_named(bytes)
}

fn is_begun(bytes: &[u8]) -> bool
    ensures { result ≡ (slice_index bytes.now 0 == start_byte) }
{
    !bytes.is_empty() && bytes[0] == START
}

/// LEN is there, and is the number of bytes after F0h.
fn is_counted(bytes: &[u8]) -> bool
    ensures count { result ≡ not
        (nat_lt (length bytes.now) 2 || not (slice_index bytes.now len_place + 1 == length bytes.now)) }
    ensures bound { IsTrue result → length bytes.now ≤ 256 }
{
    bytes.len() > LEN_PLACE && bytes[LEN_PLACE] as usize + 1 == bytes.len()
}

/// What follows LEN.
fn read_named(bytes: &[u8]) -> Result<DepFrame, DepRefusal>
    requires whole { head_end ≤ length bytes.now }
    requires bound { length bytes.now ≤ 256 }
    ensures { TellsNamed result (head bytes.now) bytes.now }
{
    let direction = bytes[DIRECTION_PLACE];
    match Head::read(direction, bytes[COMMAND_PLACE]) {
        Some(Head::Atr { up: false }) => read_atr_req(bytes),
        Some(Head::Atr { up: true }) => read_atr_res(bytes),
        Some(Head::Dep { up }) => read_dep(up, bytes),
        Some(Head::Dsl { up: false }) => alone(bytes, HEAD_END, DepFrame::DslReq),
        Some(Head::Dsl { up: true }) => alone(bytes, HEAD_END, DepFrame::DslRes),
        Some(Head::Rls { up: false }) => alone(bytes, HEAD_END, DepFrame::RlsReq),
        Some(Head::Rls { up: true }) => alone(bytes, HEAD_END, DepFrame::RlsRes),
        None => unnamed(direction),
    }
}

/// The refusal of a direction and a command byte that name no frame.
fn unnamed(direction: u8) -> Result<DepFrame, DepRefusal>
    ensures { (o : Option DepFrame)
        → Tells result
        (fault (not (is_direction direction)) direction_place Direction ∷ fault true command_place Command ∷ []) o }
{
    if direction != REQUEST && direction != ANSWER {
        return Err(DepRefusal::at(DIRECTION_PLACE, DepKind::Direction));
    }
    Err(DepRefusal::at(COMMAND_PLACE, DepKind::Command))
}

/// A frame that ends at this place.
pub(crate) fn alone(bytes: &[u8], end: usize, frame: DepFrame) -> Result<DepFrame, DepRefusal>
    requires { end < 65536 }
    ensures { Tells result (fault (nat_lt end (length bytes.now)) end Trailing ∷ []) (Some frame) }
{
    if bytes.len() > end {
        return Err(DepRefusal::at(end, DepKind::Trailing));
    }
    Ok(frame)
}
