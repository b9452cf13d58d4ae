//! A run over a workload.

ghost use Rattle.std.specs.Prelude.{false, ◌≡◌, ◌⊎◌, ◌≤◌};
ghost use Rattle.nfc_io.specs.Counts.{HasRisen};
ghost use Rattle.bench_script.specs.Limits.{AreWithinLimits};
ghost use Rattle.bench_world.specs.Obeying.{new_bench};
ghost use Rattle.bench_world.specs.Taking.{AreTaken};
ghost use Rattle.workload.specs.Workload.{IsCount, workload_lines, workload_commands};
ghost use Rattle.nfc_bench.specs.Made.{tally_line};
ghost use Rattle.nfc_bench.specs.Run.{EndsMade, EndsUntold, EndsUnmade};

use super::counting::{Tally, tally_of};
use super::obeying::{Lines, Unobeyed, obey_all};
use super::text::{push_number, push_text};
use super::write_fault;
use arrayvec::ArrayVec;
use bench_world::Bench;
use nfc_io::{Sink, write_all};
use std::alloc::Global;
use workload::Workload;

impl Lines for Workload {
    ghost use Rattle.workload.specs.Workload.{workload_lines};

    ghost lines = { λ w. workload_lines w.seed w.count };

    fn count(&self) -> u32 {
        self.line_count()
    }

    fn line(&self, place: u32) -> ArrayVec<u8, 4096> {
        let mut text = ArrayVec::new();
        text.try_extend_from_slice(&Workload::line(self, place))
            .unwrap();
        text
    }
}

/// The line that tells what came through of a workload. It takes no memory.
fn tally_line(workload: &Workload, tally: &Tally) -> ArrayVec<u8, 96>
    ensures { result.items ≡ tally_line workload.now.seed workload.now.count tally.now }
{
    let mut line = ArrayVec::new();
    push_text(&mut line, b"made ");
    push_number(&mut line, workload.seed() as u32);
    push_text(&mut line, b" ");
    push_number(&mut line, workload.count() as u32);
    push_text(&mut line, b" writes ");
    push_number(&mut line, tally.writes);
    push_text(&mut line, b" reads ");
    push_number(&mut line, tally.reads);
    push_text(&mut line, b" puts ");
    push_number(&mut line, tally.puts);
    push_text(&mut line, b" bytes ");
    push_number(&mut line, tally.bytes);
    push_text(&mut line, b"\n");
    line
}

/// A run over the workload of a seed and a count, that tells in one line what came through of it.
pub fn make_and_tell<K: Sink>(
    alloc: Global,
    seed: u16,
    count: u8,
    sink: &mut K,
    bench: &mut Bench,
) -> u8
    requires new { bench.old ≡ new_bench }
    requires valid { IsCount count }
    ensures status { (result ≡ 0) ⊎ ((result ≡ 4) ⊎ (result ≡ 5)) }
    ensures lines { AreTaken (workload_lines seed count) (workload_commands seed count) }
    ensures limits { AreWithinLimits (workload_lines seed count) }
    ensures done { result ≡ 0 → EndsMade seed count (K.taken sink.old) (K.taken sink.new) bench.new }
    ensures still { result ≡ 0 → K.faults sink.new ≡ K.faults sink.old }
    ensures unwritten { result ≡ 4 → EndsUntold seed count (K.taken sink.old) (K.taken sink.new)
        (K.faults sink.old) (K.faults sink.new) bench.new }
    ensures memory { result ≡ 5 → EndsUnmade seed count (K.taken sink.old) (K.taken sink.new)
        (K.faults sink.old) (K.faults sink.new) bench.new }
    ensures complete { (HasRisen (K.faults sink.old) (K.faults sink.new) → ⊥) → (result ≡ 0) ⊎ (result ≡ 5) }
    ensures sound { (result ≡ 5 → ⊥) → bench.new.spoiled ≡ false }
    ensures runs { bench.new.finished ≡ bench.old.finished }
    ensures writes { K.faults sink.old ≤ K.faults sink.new }
{
    let Some(workload) = Workload::new(seed, count) else {
        unreachable!()
    };
    match obey_all(alloc, &workload, bench) {
        Ok(()) => {}
        Err(Unobeyed::Refused(_)) => unreachable!(),
        Err(Unobeyed::Memory) => {
            write_fault(sink, b"fault 5 memory\n");
            return 5;
        }
    }
    match write_all(sink, &tally_line(&workload, &tally_of(bench.journal()))) {
        Ok(()) => 0,
        Err(_) => 4,
    }
}
