//! What the runs of a sweep found on the tag.

ghost use Rattle.std.specs.Prelude.{◌≡◌, ◌+◌, ◌-◌, ◌<◌, ◌≤◌, ◌^◌, cond, length, option_copied, IfOk};
ghost use Rattle.bench_world.specs.declared.entry.Entry.{Entry};
ghost use Rattle.nfc_bench.specs.Sweep.{told_in, first_told, written_in, tells, is_old, is_new, is_neither};
ghost use Rattle.nfc_bench.specs.Sweep.{found_among, found_in, found_line};

use super::text::{push_number, push_text};
use arrayvec::ArrayVec;
use bench_script::Command;
use bench_world::{Answer, Run};
use std::alloc::{AllocError, Global};

/// How many runs with a Break there were, and in how many of them the old message was read, none, or the new one.
#[derive(Clone, Copy, Debug, PartialEq, Eq)]
pub struct Found {
    pub runs: u32,
    pub with_old: u32,
    pub with_none: u32,
    pub with_new: u32,
}

/// The message that a run's last answer tells, if it tells one.
fn told_in(run: &Run) -> Option<&[u8]>
    ensures { option_copied result ≡ told_in run.now }
{
    match &run.journal().last()?.answer {
        Answer::Message { message, .. } => Some(message.as_slice()),
        _ => None,
    }
}

/// The message that the first of some runs tells, if it tells one.
fn first_told(runs: &[Run]) -> Option<&[u8]>
    ensures { option_copied result ≡ first_told runs.now }
{
    told_in(runs.first()?)
}

/// The message that a run's last command writes; none where it writes nothing.
fn written_in(alloc: Global, run: &Run) -> Result<Vec<u8>, AllocError>
    ensures { IfOk result (λ v. v.items ≡ written_in run.now) }
{
    match run.journal().last() {
        Some(entry) => match &entry.command {
            Command::Write { message, .. } => message.bytes(alloc),
            _ => Ok(Vec::new(alloc)),
        },
        None => Ok(Vec::new(alloc)),
    }
}

/// Whether this message was told.
fn tells(told: Option<&[u8]>, message: &[u8]) -> bool
    ensures { result ≡ tells (option_copied told.entry) message.now }
{
    match told {
        Some(bytes) => bytes == message,
        None => false,
    }
}

/// Whether the old message was told, if there is one.
fn is_old(told: Option<&[u8]>, before: Option<&[u8]>) -> bool
    ensures { result ≡ is_old (option_copied before.entry) (option_copied told.entry) }
{
    match before {
        Some(message) => tells(told, message),
        None => false,
    }
}

impl Found {
    /// Counts one run more, by what was told in it, the message before, if there was one, and the written one.
    fn add(&mut self, told: Option<&[u8]>, before: Option<&[u8]>, written: &[u8])
        requires runs { self.old.runs < 2 ^ 32 - 1 }
        requires old { self.old.with_old ≤ self.old.runs }
        requires none { self.old.with_none ≤ self.old.runs }
        requires new { self.old.with_new ≤ self.old.runs }
        ensures runs { self.new.runs ≡ self.old.runs + 1 }
        ensures old { self.new.with_old
            ≡ self.old.with_old + cond (is_old (option_copied before.entry) (option_copied told.entry)) 1 0 }
        ensures none { self.new.with_none
            ≡ self.old.with_none + cond (is_neither (option_copied before.entry) written.now (option_copied told.entry))
            1 0 }
        ensures new { self.new.with_new
            ≡ self.old.with_new + cond (is_new (option_copied before.entry) written.now (option_copied told.entry)) 1
            0 }
    {
        self.runs += 1;
        if is_old(told, before) {
            self.with_old += 1;
        } else if tells(told, written) {
            self.with_new += 1;
        } else {
            self.with_none += 1;
        }
    }
}

/// Counts what the runs behind the first found: the old message is what the first of them tells.
#[tactic(auto, unfolding(crate::specs::Sweep::found_in))]
pub fn found_in(alloc: Global, runs: &[Run]) -> Result<Found, AllocError>
    requires { length runs.now < 2 ^ 32 }
    ensures { IfOk result (λ f. f ≡ found_in runs.now) }
{
    let mut found = Found {
        runs: 0,
        with_old: 0,
        with_none: 0,
        with_new: 0,
    };
    let Some((first, broken)) = runs.split_first() else {
        return Ok(found);
    };
    let written = written_in(alloc, first)?;
    let before = first_told(broken);
    'runs: for run in broken {
        found.add(told_in(run), before, written.as_slice());
    }
    Ok(found)
}

/// The line that tells it. It takes no memory.
#[tactic(auto, unfolding(crate::specs::Sweep::found_line))]
pub fn found_line(found: &Found) -> ArrayVec<u8, 96>
    ensures { result.items ≡ found_line found.now }
{
    let mut line = ArrayVec::new();
    push_text(&mut line, b"sweep ");
    push_number(&mut line, found.runs);
    push_text(&mut line, b" old ");
    push_number(&mut line, found.with_old);
    push_text(&mut line, b" empty ");
    push_number(&mut line, found.with_none);
    push_text(&mut line, b" new ");
    push_number(&mut line, found.with_new);
    push_text(&mut line, b"\n");
    line
}
