//! The walk over a script and its report.

ghost use Rattle.std.specs.Prelude.{◌≡◌, ◌+◌, ◌-◌, ◌≤◌, ◌<◌, ◌^◌, List, ℕ, IfOk, IfErr, length};
ghost use Rattle.bench_world.specs.Obeying.{new_bench};
ghost use Rattle.nfc_io.specs.Lines.{lines_of};
ghost use Rattle.trace_audit.specs.Judging.{JudgedAt, Judges, RefusedAt, RefusesScript, audit_fault_number};
ghost use Rattle.trace_audit.specs.private.Stepping.{AuditsLine, Shrinks};

use crate::cutting::next_line;
use crate::stepping::{Walk, take_line};
use bench_script::{LineFault, parse_line};
use bench_world::{Bench, ObeyFault};
use std::alloc::Global;
use thiserror::Error;

/// What an audit says of a report: it is one that the script may have, or this is its first line that no run can have.
#[derive(Clone, Copy, Debug, PartialEq, Eq)]
pub enum Verdict {
    Legal,
    Faulty { line: u32 },
}

/// Why there is no verdict.
#[derive(Clone, Copy, Debug, PartialEq, Eq, Error)]
pub enum AuditFault {
    #[error("line {line} of the script is refused")]
    Script { line: u32 },
    #[error("out of memory")]
    Memory,
}

impl AuditFault {
    /// Its number in reports and tests.
    pub fn number(&self) -> u8
        ensures { result ≡ audit_fault_number self.now }
    {
        match self {
            AuditFault::Script { .. } => 1,
            AuditFault::Memory => 2,
        }
    }
}

/// Judges a report by its script, over a new bench. Each line of the script is followed by the report's next lines;
/// behind the report's first fault it is only obeyed, which shows that it is accepted and that some run goes on.
pub fn audit(
    alloc: Global,
    script: &[u8],
    report: &[u8],
    bench: &mut Bench,
) -> Result<Verdict, AuditFault>
    requires new { bench.old ≡ new_bench }
    requires script { length script.now < 2 ^ 32 }
    requires report { length report.now < 2 ^ 32 - 1 }
    ensures ok { IfOk result (Judges (lines_of script.now) report.now bench.new) }
    ensures err { IfErr result (RefusesScript (lines_of script.now)) }
{
    let mut walk = Walk {
        left: report,
        good: 0,
        strayed: false,
    };
    let mut line = 0;
    let mut left = script;
    'lines: while let Some((text, rest)) = next_line(left) {
        line += 1;
        walk = audit_line(alloc, bench, line, text, walk)?;
        left = rest;
    }
    Ok(judge(walk))
}

/// Where a walk is at the end of the script, the report has to be too.
fn judge(walk: Walk) -> Verdict
    requires { walk.good + length walk.left.now < 2 ^ 32 - 1 }
    ensures { JudgedAt walk.entry result }
{
    if walk.strayed || !walk.left.is_empty() {
        Verdict::Faulty {
            line: walk.good + 1,
        }
    } else {
        Verdict::Legal
    }
}

/// Takes a line of the script, of this number.
fn audit_line<'a>(
    alloc: Global,
    bench: &mut Bench,
    line: u32,
    text: &[u8],
    walk: Walk<'a>,
) -> Result<Walk<'a>, AuditFault>
    requires { walk.good + length walk.left.now < 2 ^ 32 }
    ensures ok { IfOk result (λ w. AuditsLine bench.old bench.new line text.now walk.entry w) }
    ensures room { IfOk result (λ w. Shrinks walk.entry w) }
    ensures err { IfErr result (λ fault. RefusedAt bench.old.state line text.now fault) }
{
    let command = match parse_line(alloc, text) {
        Ok(command) => command,
        Err(LineFault::Refused) => return Err(AuditFault::Script { line }),
        Err(LineFault::Memory) => return Err(AuditFault::Memory),
    };
    match take_line(alloc, bench, line, &command, walk) {
        Ok(walk) => Ok(walk),
        Err(ObeyFault::Refused) => Err(AuditFault::Script { line }),
        Err(ObeyFault::Memory) => Err(AuditFault::Memory),
    }
}
