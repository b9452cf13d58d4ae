//! Reading and obeying the lines of a script.

ghost use Rattle.std.specs.Prelude.{◌≡◌, ◌<◌, ◌≤◌, length, OnOk, IfErr};
ghost use Rattle.nfc_bench.specs.Run.{EndsDone, ReadsInTime};
ghost use Rattle.nfc_bench.specs.Stops.{IsLast, LineDone, LineStops, RunStops, IsSoundUnless};
ghost use Rattle.bench_world.specs.Obeying.{new_bench};

use super::obeying::obey_text;
use super::writing::write_entry;
use bench_world::{Bench, Entry, ObeyFault};
use nfc_io::{LineReader, LineStop, Sink, Source};
use std::alloc::Global;

/// How many lines a script may have.
const MOST_LINES: u32 = 1000;

/// Why a run stopped before its end.
#[derive(Clone, Copy, Debug, PartialEq, Eq)]
pub enum Stop {
    Refused(u32),
    ReadFault,
    WriteFault,
    Memory,
}

/// The journal's last entry.
fn last_entry(bench: &Bench) -> &Entry
    requires { 0 < length bench.now.journal }
    ensures { IsLast bench.now.journal result.now }
{
    let entries = bench.journal();
    &entries[entries.len() - 1]
}

/// Obeys one line, and writes its entry, if it asks for something.
fn obey_line<K: Sink>(
    alloc: Global,
    quiet: bool,
    line: u32,
    text: &[u8],
    sink: &mut K,
    bench: &mut Bench,
) -> Result<(), Stop>
    ensures ok { OnOk result (LineDone quiet bench.old bench.new line text.now (K.taken sink.old)
        (K.taken sink.new)) }
    ensures err { IfErr result
        (λ s. LineStops quiet bench.old bench.new line text.now (K.taken sink.old) (K.taken sink.new)
        (K.faults sink.old) (K.faults sink.new) s) }
    ensures still { OnOk result (K.faults sink.new ≡ K.faults sink.old) }
    ensures count { K.faults sink.old ≤ K.faults sink.new }
{
    match obey_text(alloc, line, text, bench) {
        Ok(true) => {}
        Ok(false) => return Ok(()),
        Err(ObeyFault::Refused) => return Err(Stop::Refused(line)),
        Err(ObeyFault::Memory) => return Err(Stop::Memory),
    }
    match write_entry(sink, last_entry(bench), quiet) {
        Ok(()) => Ok(()),
        Err(_) => Err(Stop::WriteFault),
    }
}

/// Reads a script line by line, and obeys each line and writes its entry before the next is read. Behind a fault of the
/// source, a last line without its LF isn't whole; a line past the most that may be is refused by its first byte.
pub fn run_script<S: Source, K: Sink>(
    alloc: Global,
    quiet: bool,
    source: &mut S,
    sink: &mut K,
    bench: &mut Bench,
) -> Result<(), Stop>
    requires { bench.old ≡ new_bench }
    ensures ok { OnOk result (EndsDone quiet (S.left source.old) (S.left source.new) (K.taken sink.old)
        (K.taken sink.new) bench.new) }
    ensures still { OnOk result ((S.faults source.new ≡ S.faults source.old)
        × (K.faults sink.new ≡ K.faults sink.old)) }
    ensures err { IfErr result
        (λ s. RunStops quiet (S.left source.old) (S.left source.new) (K.taken sink.old) (K.taken sink.new)
        (S.faults source.old) (S.faults source.new) (K.faults sink.old) (K.faults sink.new) bench.new s) }
    ensures sound { IsSoundUnless result bench.new }
    ensures runs { bench.new.finished ≡ bench.old.finished }
    ensures stop { ReadsInTime (S.left source.old) (S.left source.new) }
    ensures reads { S.faults source.old ≤ S.faults source.new }
    ensures writes { K.faults sink.old ≤ K.faults sink.new }
{
    let Ok(mut reader) = LineReader::new(alloc) else {
        return Err(Stop::Memory);
    };
    let mut line: u32 = 1;
    'lines: while line <= MOST_LINES {
        match reader.advance(source) {
            Ok(true) => {}
            Ok(false) => return Ok(()),
            Err(LineStop::ReadFault) => return Err(Stop::ReadFault),
            Err(LineStop::TooLong) => return Err(Stop::Refused(line)),
        }
        match obey_line(alloc, quiet, line, reader.line(), sink, bench) {
            Ok(()) => {}
            Err(stop) => return Err(stop),
        }
        line += 1;
    }
    match reader.follows(source) {
        Ok(false) => Ok(()),
        Ok(true) => Err(Stop::Refused(line)),
        Err(_) => Err(Stop::ReadFault),
    }
}
