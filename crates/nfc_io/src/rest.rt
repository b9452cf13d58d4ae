//! What stands behind the lines that a reader gave.
ghost use Rattle.std.specs.Prelude.{◌≡◌, ◌≢◌, ◌≤◌, length, Err, IfOk, OnErr};
ghost use Rattle.nfc_io.specs.Counts.{HasRisen};
ghost use Rattle.nfc_io.specs.Behind.{bytes_of, IsAll, ReadsOn, TakesSome};

use crate::held::Held;
use crate::line_reader::LineStop;
use crate::source::Source;
use std::alloc::Global;
use thiserror::Error;

/// The bytes behind the lines, from the first byte behind the last line.
#[derive(Debug, Drop)]
pub enum Rest {
    /// All of them, to the source's end.
    Whole(Vec<u8>),
    /// The first of them, which are more than were wanted.
    TooLong(Vec<u8>),
}

/// Why a reader doesn't hand over what stands behind its lines.
#[derive(Clone, Copy, Debug, PartialEq, Eq, Error)]
pub enum RestFault {
    #[error("the lines had stopped: {0}")]
    Stopped(LineStop),
    #[error("the source failed")]
    ReadFault,
    #[error("no memory is left")]
    Memory,
}

/// Takes the held bytes and reads on behind them, unless the source was at its end: to its end, or until there are more
/// bytes than so many.
pub(crate) fn read_on<S: Source>(
    alloc: Global,
    held: &mut Held,
    source: &mut S,
    ended: bool,
    most: usize,
) -> Result<Rest, RestFault>
    ensures on { IfOk result (λ rest. ReadsOn most ended held.old (bytes_of rest) (S.left source.old)
        (S.left source.new)) }
    ensures all { IfOk result (λ rest. IsAll most ended (S.left source.new) rest) }
    ensures some { OnErr result (TakesSome most (S.left source.old) (S.left source.new)) }
    ensures still { result ≢ Err RestFault.ReadFault → S.faults source.new ≡ S.faults source.old }
    ensures cause { result ≡ Err RestFault.ReadFault → HasRisen (S.faults source.old) (S.faults source.new) }
    ensures count { S.faults source.old ≤ S.faults source.new }
    ensures going { (s : LineStop) → result ≡ Err (RestFault.Stopped s) → ⊥ }
{
    let mut bytes = Vec::new(alloc);
    if held.move_to(&mut bytes).is_err() {
        return Err(RestFault::Memory);
    }
    'reading: while bytes.len() <= most {
        if ended {
            return Ok(Rest::Whole(bytes));
        }
        match held.fill(source) {
            Ok(0) => return Ok(Rest::Whole(bytes)),
            Ok(_) => {}
            Err(_) => return Err(RestFault::ReadFault),
        }
        if held.move_to(&mut bytes).is_err() {
            return Err(RestFault::Memory);
        }
    }
    Ok(Rest::TooLong(bytes))
}
