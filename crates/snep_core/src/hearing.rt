//! What a client makes of the units that a server sends it.

ghost use Rattle.std.specs.Prelude.{◌≡◌, ◌++◌, option_map, IfOk};
ghost use Rattle.snep_core.specs.First.{info_of};
ghost use Rattle.snep_core.specs.Jobs.{Collects, ended_by, head_of, is_bare as bare_by, refusal_by_code};
ghost use Rattle.snep_core.specs.Jobs.{sent_told, success_told, told, value_told, waiting_told};

use crate::job::{Ending, Job, Refusal};
use crate::message::{Answer, HEADER};
use bytes::Bytes;
use nfc_base::Items;
use std::alloc::{AllocError, Global};

/// The code of an answer, and how long its information is said to be.
#[derive(Clone, Copy, Debug, PartialEq, Eq)]
pub struct Head {
    code: u8,
    said: u32,
}

/// What stands before the information, where the unit is an answer of this version.
fn read_head(unit: &[u8]) -> Option<Head>
    ensures { result ≡ head_of unit.now }
{
    match unit {
        [version, code, a, b, c, d, ..] => {
            if version / 16 != 1 {
                return None;
            }
            Some(Head {
                code: *code,
                said: u32::from_be_bytes([*a, *b, *c, *d]),
            })
        }
        _ => None,
    }
}

/// The information of a unit.
fn info(unit: &[u8]) -> &[u8]
    ensures { result.now ≡ info_of unit.now }
{
    unit.get(HEADER..).unwrap_or(&[])
}

/// No information is said, and none is there.
fn is_bare(head: Head, unit: &[u8]) -> bool
    ensures { result ≡ bare_by head unit.now }
{
    head.said == 0 && info(unit).is_empty()
}

/// The refusal that a code tells.
fn refusal(most: Option<u32>, code: u8) -> Option<Refusal>
    ensures { result ≡ refusal_by_code most code }
{
    if code == Answer::Reject.code() {
        return Some(Refusal::Reject);
    }
    if most.is_none() {
        return None;
    }
    if code == Answer::NotFound.code() {
        return Some(Refusal::NotFound);
    }
    if code == Answer::Excess.code() {
        return Some(Refusal::Excess);
    }
    if code == Answer::NotImplemented.code() {
        return Some(Refusal::NotImplemented);
    }
    None
}

/// The job came to this refusal, if it is one.
fn refused(most: Option<u32>, code: u8) -> Option<Job>
    ensures { result ≡ option_map ended_by (refusal_by_code most code) }
{
    match refusal(most, code) {
        None => None,
        Some(refusal) => Some(Job::Over(Ending::Refused(refusal))),
    }
}

/// A unit where a continue is awaited.
fn hear_waiting(most: Option<u32>, rest: Bytes, unit: &[u8]) -> Option<Job>
    ensures { result ≡ waiting_told most rest unit.now (head_of unit.now) }
{
    let Some(head) = read_head(unit) else {
        return None;
    };
    if !is_bare(head, unit) {
        return None;
    }
    if head.code == Answer::Continue.code() {
        return Some(Job::Sends(most, rest));
    }
    refused(most, head.code)
}

/// A unit where an answer is awaited.
fn hear_sent(alloc: Global, most: Option<u32>, unit: &[u8]) -> Result<Option<Job>, AllocError>
    ensures { IfOk result (λ job. job ≡ sent_told most unit.now (head_of unit.now)) }
{
    let Some(head) = read_head(unit) else {
        return Ok(None);
    };
    if head.code == Answer::Success.code() {
        return hear_success(alloc, most, head, unit);
    }
    if !is_bare(head, unit) {
        return Ok(None);
    }
    Ok(refused(most, head.code))
}

/// A success.
fn hear_success(
    alloc: Global,
    most: Option<u32>,
    head: Head,
    unit: &[u8],
) -> Result<Option<Job>, AllocError>
    ensures { IfOk result (λ job. job ≡ success_told most head unit.now) }
{
    let Some(most) = most else {
        if is_bare(head, unit) {
            return Ok(Some(Job::Over(Ending::Done)));
        }
        return Ok(None);
    };
    let value = info(unit);
    if head.said > most || value.len() > head.said as usize {
        return Ok(None);
    }
    let have = Items::from_bytes(alloc, value)?;
    if value.len() == head.said as usize {
        return Ok(Some(Job::Over(Ending::Value(have))));
    }
    Ok(Some(Job::Asks(head.said, have)))
}

/// A unit behind the first of a value.
fn hear_more(size: u32, have: Items<u8>, unit: &[u8]) -> Result<Option<Job>, AllocError>
    ensures { IfOk result (λ job. job ≡ value_told size (have ++ unit.now) (Collects size (have ++ unit.now))) }
{
    let mut bytes = have.into_vec();
    bytes.extend_from_slice(unit)?;
    let have = Items::new(bytes);
    let came = have.as_slice().len();
    if came > size as usize {
        return Ok(None);
    }
    if came == size as usize {
        return Ok(Some(Job::Over(Ending::Value(have))));
    }
    Ok(Some(Job::Collects(size, have)))
}

/// What a job comes to by a unit. None where the far end is at fault.
pub(crate) fn hear_unit(alloc: Global, job: Job, unit: &[u8]) -> Result<Option<Job>, AllocError>
    ensures { IfOk result (λ next. next ≡ told job unit.now) }
{
    match job {
        Job::Waits(most, rest) => Ok(hear_waiting(most, rest, unit)),
        Job::Sends(most, rest) => {
            if !rest.is_empty() {
                return Ok(None);
            }
            hear_sent(alloc, most, unit)
        }
        Job::Collects(size, have) => hear_more(size, have, unit),
        Job::Begins(..) | Job::Asks(..) | Job::Looks(_) | Job::Closes | Job::Over(_) => Ok(None),
    }
}
