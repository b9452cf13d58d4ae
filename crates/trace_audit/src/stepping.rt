//! One step of the walk over a script and its report: what a line of the script does with the report's next lines.

ghost use Rattle.std.specs.Prelude.{◌≡◌, ◌≢◌, ◌+◌, ◌≤◌, ◌<◌, ◌^◌, ◌++◌, List, ℕ, IfOk, OnOk, IsErrOf, MatchOption};
ghost use Rattle.std.specs.Prelude.{length};
ghost use Rattle.bench_world.specs.Following.{MayFollow};
ghost use Rattle.bench_world.specs.Obeying.{Obeys};
ghost use Rattle.bench_world.specs.Report.{answer_text, line_text};
ghost use Rattle.bench_world.specs.Showing.{MayShow};
ghost use Rattle.trace_audit.specs.private.OnAir.{LastOnAir};
ghost use Rattle.trace_audit.specs.private.Stepping.{ComesBehind, Shrinks, StepsOn, TakesLine};

use crate::on_air::see_last;
use crate::reading::read_events;
use bench_script::Command;
use bench_world::{Bench, Entry, Followed, ObeyFault, answer_pieces, may_show};
use std::alloc::Global;

/// How far the walk has come in the report.
#[derive(Clone, Copy)]
pub struct Walk<'a> {
    /// What is left of it behind its good lines; of no use once it has strayed.
    pub left: &'a [u8],
    /// How many of its lines are good.
    pub good: u32,
    /// Whether the next one is not.
    pub strayed: bool,
}

/// Takes the command of a line: as long as all was good its entry is looked for at the front of what is left of the
/// report; behind the first fault it is only obeyed.
pub fn take_line<'a>(
    alloc: Global,
    bench: &mut Bench,
    line: u32,
    command: &Command,
    walk: Walk<'a>,
) -> Result<Walk<'a>, ObeyFault>
    requires { walk.good + length walk.left.now < 2 ^ 32 }
    ensures ok { IfOk result (λ w. TakesLine bench.old bench.new line command.now walk.entry w) }
    ensures room { IfOk result (λ w. Shrinks walk.entry w) }
    ensures refused { IsErrOf result ObeyFault.Refused → MayFollow bench.old.state command.now → ⊥ }
{
    if let Command::Skip = command {
        return Ok(walk);
    }
    if walk.strayed {
        obey_line(bench, line, command)?;
        Ok(walk)
    } else {
        follow_line(alloc, bench, line, command, walk)
    }
}

/// Obeys a command that may be audited.
fn obey_line(bench: &mut Bench, line: u32, command: &Command) -> Result<(), ObeyFault>
    ensures ok { OnOk result (Obeys bench.old bench.new line command.now × MayShow bench.old.state command.now) }
    ensures air { OnOk result (LastOnAir bench.new.journal) }
    ensures refused { IsErrOf result ObeyFault.Refused → MayFollow bench.old.state command.now → ⊥ }
{
    if !may_show(bench.field().listeners(), command) {
        return Err(ObeyFault::Refused);
    }
    bench.obey(line, command)?;
    see_last(bench.journal());
    Ok(())
}

/// Follows a command by the events that are read off the report, and compares its answer.
fn follow_line<'a>(
    alloc: Global,
    bench: &mut Bench,
    line: u32,
    command: &Command,
    walk: Walk<'a>,
) -> Result<Walk<'a>, ObeyFault>
    requires room { walk.good + length walk.left.now < 2 ^ 32 }
    requires asks { command.now ≢ Command.Skip }
    ensures ok { IfOk result (λ w. StepsOn bench.old bench.new line command.now walk.entry w) }
    ensures room { IfOk result (λ w. Shrinks walk.entry w) }
    ensures refused { IsErrOf result ObeyFault.Refused → MayFollow bench.old.state command.now → ⊥ }
{
    let Ok(read) = read_events(alloc, line, command, walk.left) else {
        return Err(ObeyFault::Memory);
    };
    let events = read.events.as_slice();
    match bench.follow(line, command, events)? {
        Followed::Whole => {
            let Some(entry) = bench.journal().last() else {
                unreachable!();
            };
            Ok(behind_events(entry, walk.good + events.len() as u32, read.left))
        }
        Followed::Front { good } => Ok(Walk {
            left: read.left,
            good: walk.good + good as u32,
            strayed: true,
        }),
    }
}

/// How far the walk comes behind the events of an entry, with so many good lines.
fn behind_events<'a>(entry: &Entry, good: u32, left: &'a [u8]) -> Walk<'a>
    requires { good + length left.now < 2 ^ 32 }
    ensures { ComesBehind entry.now good left.now result }
{
    match behind_answer(entry, left) {
        Some(rest) => Walk {
            left: rest,
            good: good + 1,
            strayed: false,
        },
        None => Walk {
            left,
            good,
            strayed: true,
        },
    }
}

/// What stands behind the line of an entry's answer, if a text begins with it. It takes no memory.
fn behind_answer<'a>(entry: &Entry, text: &'a [u8]) -> Option<&'a [u8]>
    ensures { MatchOption result
        ((rest : List ℕ) → text.now ≡ line_text entry.now.line (answer_text entry.now.answer) ++ rest → ⊥)
        (λ rest. text.now ≡ line_text entry.now.line (answer_text entry.now.answer) ++ rest.now) }
{
    let mut left = text;
    let mut pieces = answer_pieces(entry);
    'pieces: while let Some(piece) = pieces.next() {
        left = left.strip_prefix(piece.as_slice())?;
    }
    Some(left)
}
