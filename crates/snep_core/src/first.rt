//! What the first unit of a request is.

ghost use Rattle.std.specs.Prelude.{◌≡◌, ◌<◌, ◌≤◌, ◌^◌};
ghost use Rattle.snep_core.specs.First.{first_of as first_to, by_code as told_by_code, by_size as told_by_size};
ghost use Rattle.snep_core.specs.First.{bare as told_bare};

use crate::message::{Answer, CONTINUE, GET, PUT, REJECT, Request};

/// What a first unit is to a server of a limit, whatever it did before: it is answered so; it asks for what waits; it
/// drops what waits; it is a whole request; or it is the first unit of one of whose information so many bytes are still
/// to come.
#[derive(Clone, Copy, Debug, PartialEq, Eq)]
pub enum First {
    Says(Answer),
    GoesOn,
    Drops,
    Whole(Request),
    Partly(Request, u32),
}

/// The rows on a first unit.
pub(crate) fn first_of(limit: u32, unit: &[u8]) -> First
    ensures { result ≡ first_to limit unit.now }
{
    match unit {
        [version, code, a, b, c, d, info @ ..] => {
            if version / 16 != 1 {
                return First::Says(Answer::UnsupportedVersion);
            }
            by_code(
                limit,
                *code,
                u32::from_be_bytes([*a, *b, *c, *d]),
                info.len(),
            )
        }
        _ => First::Says(Answer::BadRequest),
    }
}

/// The rows by the code.
fn by_code(limit: u32, code: u8, said: u32, there: usize) -> First
    ensures { result ≡ told_by_code limit code said there }
{
    match code {
        CONTINUE => bare(said, there, First::GoesOn),
        GET if said < 4 => First::Says(Answer::BadRequest),
        GET if said - 4 > limit => First::Says(Answer::Reject),
        GET => by_size(Request::Get, said, there),
        PUT if said > limit => First::Says(Answer::Reject),
        PUT => by_size(Request::Put, said, there),
        REJECT => bare(said, there, First::Drops),
        _ => First::Says(Answer::NotImplemented),
    }
}

fn by_size(request: Request, said: u32, there: usize) -> First
    ensures { result ≡ told_by_size request said there }
{
    if there > said as usize {
        First::Says(Answer::BadRequest)
    } else if there == said as usize {
        First::Whole(request)
    } else {
        First::Partly(request, said - there as u32)
    }
}

fn bare(said: u32, there: usize, first: First) -> First
    ensures { result ≡ told_bare said there first }
{
    if said == 0 && there == 0 {
        first
    } else {
        First::Says(Answer::BadRequest)
    }
}
