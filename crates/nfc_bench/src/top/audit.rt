//! An audit: whether a report is one that a script may have.

ghost use Rattle.std.specs.Prelude.{◌≡◌, ◌⊎◌, ◌-◌, ◌≤◌, ◌<◌, ◌^◌, [], ℕ, List, Some, length, IfOk, IfErr, OnOk};
ghost use Rattle.nfc_io.specs.Counts.{HasRisen};
ghost use Rattle.nfc_io.specs.Lines.{lines_of};
ghost use Rattle.bench_script.specs.Limits.{AreWithinLimits};
ghost use Rattle.bench_world.specs.Obeying.{new_bench};
ghost use Rattle.trace_audit.specs.Judging.{Judges};
ghost use Rattle.nfc_bench.specs.Audit.{EndsLegal, EndsFaulty, EndsUnfound, IsAudited};
ghost use Rattle.nfc_bench.specs.AuditInput.{most_audited};
ghost use Rattle.nfc_bench.specs.private.AuditStops.{HasJudged, LinesStop, AuditStops};
ghost use Rattle.nfc_bench.specs.Run.{AddsFault, EndsUnaudited, EndsUnheard, ReadsAtMost, memory_fault};

use super::audit_input::{AuditInput, Behind, read_input};
use super::audit_telling::{faulty_line, write_legal};
use super::script::Unread;
use super::{refusal, write_fault};
use bench_world::Bench;
use nfc_io::{Sink, Source, write_all};
use std::alloc::Global;
use trace_audit::{AuditFault, Verdict, audit};

/// Why there is no verdict.
#[derive(Clone, Copy, Debug, PartialEq, Eq)]
pub enum Unaudited {
    Refused(u32),
    ReadFault,
    Memory,
}

/// Judges a report by the lines of a script.
fn judge(
    alloc: Global,
    script: &[u8],
    report: &[u8],
    bench: &mut Bench,
) -> Result<Verdict, Unaudited>
    requires new { bench.old ≡ new_bench }
    requires limits { AreWithinLimits (lines_of script.now) }
    requires few { length report.now < 2 ^ 32 - 1 }
    ensures ok { IfOk result (λ verdict. Judges (lines_of script.now) report.now bench.new verdict) }
    ensures err { IfErr result (λ why. LinesStop (lines_of script.now) why) }
{
    match audit(alloc, script, report, bench) {
        Ok(verdict) => Ok(verdict),
        Err(AuditFault::Script { line }) => Err(Unaudited::Refused(line)),
        Err(AuditFault::Memory) => Err(Unaudited::Memory),
    }
}

/// Reads an input, and judges its report. Where it has none that may be audited, its script is judged all the same: an
/// earlier line of that may be refused.
fn judge_input<S: Source>(
    alloc: Global,
    source: &mut S,
    bench: &mut Bench,
) -> Result<Verdict, Unaudited>
    requires { bench.old ≡ new_bench }
    ensures ok { IfOk result (λ verdict. HasJudged (S.left source.old) (S.left source.new) bench.new verdict) }
    ensures still { OnOk result (S.faults source.new ≡ S.faults source.old) }
    ensures err { IfErr result (λ why. AuditStops (S.left source.old) (S.faults source.old) (S.faults source.new)
        bench.old bench.new why) }
    ensures bound { ReadsAtMost most_audited (S.left source.old) (S.left source.new) }
    ensures reads { S.faults source.old ≤ S.faults source.new }
{
    let AuditInput { script, behind } = match read_input(alloc, source) {
        Ok(input) => input,
        Err(Unread::Fault) => return Err(Unaudited::ReadFault),
        Err(Unread::Memory) => return Err(Unaudited::Memory),
    };
    match behind {
        Behind::Report(report) => match judge(alloc, &script, &report, bench) {
            Ok(verdict) => Ok(verdict),
            Err(why) => Err(why),
        },
        Behind::NoReport(line) => match judge(alloc, &script, b"", bench) {
            Ok(_) => Err(Unaudited::Refused(line)),
            Err(why) => Err(why),
        },
    }
}

/// An audit, that tells what it found, and what was accepted on each link.
pub fn audit_and_tell<S: Source, K: Sink>(
    alloc: Global,
    source: &mut S,
    sink: &mut K,
    bench: &mut Bench,
) -> u8
    requires { bench.old ≡ new_bench }
    ensures status { result ≤ 5 }
    ensures legal { result ≡ 0 → EndsLegal (S.left source.old) (S.left source.new) (K.taken sink.old)
        (K.taken sink.new) bench.new }
    ensures faulty { result ≡ 1 → EndsFaulty (S.left source.old) (S.left source.new) (K.taken sink.old)
        (K.taken sink.new) }
    ensures still { result ≤ 1 → (S.faults source.new ≡ S.faults source.old) × (K.faults sink.new ≡ K.faults sink.old) }
    ensures refused { result ≡ 2 → EndsUnaudited (S.left source.old) (K.taken sink.old) (K.taken sink.new)
        (K.faults sink.old) (K.faults sink.new) }
    ensures unread { result ≡ 3 → EndsUnheard (K.taken sink.old) (K.taken sink.new) (S.faults source.old)
        (S.faults source.new) (K.faults sink.old) (K.faults sink.new) bench.old bench.new }
    ensures unwritten { result ≡ 4 → EndsUnfound (S.left source.old) (S.left source.new) (K.taken sink.old)
        (K.taken sink.new) (K.faults sink.old) (K.faults sink.new) bench.new }
    ensures memory { result ≡ 5 → AddsFault [] memory_fault (K.taken sink.old) (K.taken sink.new)
        (K.faults sink.old) (K.faults sink.new) }
    ensures complete { (bytes : List ℕ) → S.left source.old ≡ Some bytes → IsAudited bytes
        → (HasRisen (S.faults source.old) (S.faults source.new) → ⊥)
        → (HasRisen (K.faults sink.old) (K.faults sink.new) → ⊥) → (result ≡ 0) ⊎ ((result ≡ 1) ⊎ (result ≡ 5)) }
    ensures bound { ReadsAtMost most_audited (S.left source.old) (S.left source.new) }
    ensures reads { S.faults source.old ≤ S.faults source.new }
    ensures writes { K.faults sink.old ≤ K.faults sink.new }
{
    match judge_input(alloc, source, bench) {
        Ok(Verdict::Legal) => match write_legal(sink, bench) {
            Ok(()) => 0,
            Err(_) => 4,
        },
        Ok(Verdict::Faulty { line }) => match write_all(sink, &faulty_line(line)) {
            Ok(()) => 1,
            Err(_) => 4,
        },
        Err(Unaudited::Refused(line)) => {
            write_fault(sink, &refusal(line));
            2
        }
        Err(Unaudited::ReadFault) => {
            write_fault(sink, b"fault 3 read\n");
            3
        }
        Err(Unaudited::Memory) => {
            write_fault(sink, b"fault 5 memory\n");
            5
        }
    }
}
