//! The top call: a run, from the bytes of a script to the bytes of its report.

ghost use Rattle.std.specs.Prelude.{false, map, string_bytes, ◌⊎◌, ◌≡◌, ◌≤◌, [], ℕ, List, Some};
ghost use Rattle.nfc_io.specs.Counts.{HasRisen};
ghost use Rattle.nfc_io.specs.Lines.{lines_of};
ghost use Rattle.nfc_bench.specs.Limits.{most_read};
ghost use Rattle.nfc_bench.specs.Run.{Ran, sees, line_fault, AllTaken, AddsFault, EndsDone, EndsRefused, EndsUnread};
ghost use Rattle.nfc_bench.specs.Run.{EndsUnwritten, EndsMemory, ReadsInTime, ReadsAtMost};
ghost use Rattle.bench_world.specs.Obeying.{new_bench};

mod audit;
mod audit_input;
mod audit_telling;
#[cfg(test)]
mod audit_tests;
mod counting;
mod found;
mod gathering;
#[cfg(test)]
mod inbox_tests;
pub mod law;
mod lines;
#[cfg(test)]
mod make_tests;
mod making;
mod obeying;
pub mod program;
#[cfg(test)]
mod report_tests;
#[cfg(test)]
mod runs;
mod script;
#[cfg(test)]
mod sweep_tests;
mod sweeping;
mod swept;
#[cfg(test)]
mod tests;
mod text;
mod words;
#[cfg(test)]
mod world_tests;
mod writing;

use arrayvec::ArrayVec;
use audit::audit_and_tell;
use bench_world::Bench;
use lines::{Stop, run_script};
use making::make_and_tell;
use nfc_io::{Sink, Source, write_all};
use std::alloc::Global;
use sweeping::sweep_and_tell;
use text::{push_number, push_text};
use words::{Form, form_of};

/// Does what the words ask for, with a fault line where it stops early; answers the status. The status is that of the
/// first stop, and a fault line that can't be written doesn't change it.
pub fn run_bench<S: Source, K: Sink>(
    alloc: Global,
    words: &[String],
    source: &mut S,
    sink: &mut K,
    bench: &mut Bench,
) -> u8
    requires { bench.old ≡ new_bench }
    ensures ran { Ran (map string_bytes words.now) (sees S.Source K.Sink source.old sink.old bench.old)
        (sees S.Source K.Sink source.new sink.new bench.new) result }
{
    match form_of(words) {
        Some(Form::Run { quiet }) => run_and_tell(alloc, quiet, source, sink, bench),
        Some(Form::Sweep) => sweep_and_tell(alloc, source, sink, bench),
        Some(Form::Audit) => audit_and_tell(alloc, source, sink, bench),
        Some(Form::Make { seed, count }) => make_and_tell(alloc, seed, count, sink, bench),
        None => {
            write_fault(sink, b"fault 6 words\n");
            6
        }
    }
}

/// A run over a script, that reports answers alone or events too, and tells why it stopped.
fn run_and_tell<S: Source, K: Sink>(
    alloc: Global,
    quiet: bool,
    source: &mut S,
    sink: &mut K,
    bench: &mut Bench,
) -> u8
    requires { bench.old ≡ new_bench }
    ensures status { (result ≡ 0) ⊎ ((2 ≤ result) × (result ≤ 5)) }

    ensures done { result ≡ 0 → EndsDone quiet (S.left source.old)
        (S.left source.new) (K.taken sink.old) (K.taken sink.new) bench.new }
    ensures still { result ≡ 0 → (S.faults source.new ≡ S.faults source.old) × (K.faults sink.new ≡ K.faults sink.old) }
    ensures refused { result ≡ 2 → EndsRefused quiet (S.left source.old)
        (K.taken sink.old) (K.taken sink.new) (K.faults sink.old) (K.faults sink.new) bench.new }
    ensures unread { result ≡ 3 → EndsUnread quiet (S.left source.old)
        (S.left source.new) (K.taken sink.old) (K.taken sink.new) (S.faults source.old) (S.faults source.new)
        (K.faults sink.old) (K.faults sink.new) bench.new }
    ensures unwritten { result ≡ 4 → EndsUnwritten quiet (S.left source.old)
        (K.taken sink.old) (K.taken sink.new) (K.faults sink.old) (K.faults sink.new) bench.new }
    ensures memory { result ≡ 5 → EndsMemory quiet (S.left source.old)
        (K.taken sink.old) (K.taken sink.new) (K.faults sink.old) (K.faults sink.new) bench.new }
    ensures complete { (bytes : List ℕ) → S.left source.old ≡ Some bytes
        → AllTaken (lines_of bytes) → (HasRisen (S.faults source.old) (S.faults source.new) → ⊥)
        → (HasRisen (K.faults sink.old) (K.faults sink.new) → ⊥) → (result ≡ 0) ⊎ (result ≡ 5) }

    ensures sound { (result ≡ 5 → ⊥) → bench.new.spoiled ≡ false }
    ensures runs { bench.new.finished ≡ bench.old.finished }

    ensures stop { ReadsInTime (S.left source.old) (S.left source.new) }
    ensures bound { ReadsAtMost most_read (S.left source.old) (S.left source.new) }
    ensures reads { S.faults source.old ≤ S.faults source.new }
    ensures writes { K.faults sink.old ≤ K.faults sink.new }
{
    match run_script(alloc, quiet, source, sink, bench) {
        Ok(()) => 0,
        Err(Stop::Refused(n)) => {
            write_fault(sink, &refusal(n));
            2
        }
        Err(Stop::ReadFault) => {
            write_fault(sink, b"fault 3 read\n");
            3
        }
        Err(Stop::WriteFault) => 4,
        Err(Stop::Memory) => {
            write_fault(sink, b"fault 5 memory\n");
            5
        }
    }
}

/// Writes a fault line, as far as the sink takes it.
fn write_fault<K: Sink>(sink: &mut K, line: &[u8])
    ensures told { AddsFault [] line.now (K.taken sink.old) (K.taken sink.new) (K.faults sink.old) (K.faults sink.new) }
    ensures count { K.faults sink.old ≤ K.faults sink.new }
{
    let _ = write_all(sink, line);
}

/// The fault line of a line that was refused. It takes no memory.
fn refusal(line: u32) -> ArrayVec<u8, 96>
    ensures { result.items ≡ line_fault line }
{
    let mut text = ArrayVec::new();
    push_text(&mut text, b"fault 2 line ");
    push_number(&mut text, line);
    push_text(&mut text, b"\n");
    text
}
