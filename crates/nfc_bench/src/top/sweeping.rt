//! A sweep: a write that is broken off at each of its transmissions.

ghost use Rattle.std.specs.Prelude.{true, ◌≡◌, ◌≢◌, ◌⊎◌, ◌-◌, ◌≤◌, ◌<◌, ◌^◌, [], false, ℕ, List, length, IfOk, IfErr};
ghost use Rattle.std.specs.Prelude.{IfSome, OnOk, OnErr, Err, None};
ghost use Rattle.nfc_io.specs.Counts.{HasRisen};
ghost use Rattle.nfc_io.specs.Lines.{lines_of};
ghost use Rattle.bench_script.specs.declared.command.DeviceId.{DeviceId};
ghost use Rattle.bench_world.specs.Obeying.{begun_anew, new_bench};
ghost use Rattle.nfc_bench.specs.Reading.{AreLinesOf};
ghost use Rattle.nfc_bench.specs.Run.{FirstAreObeyed, HasSwept, HasSweptSome, IsUnwritten, EndsSwept, EndsUnswept};
ghost use Rattle.nfc_bench.specs.Run.{EndsUnknown, EndsUntellable, EndsHalfSwept, MaySweep, ReadsInTime, ReadsAtMost};
ghost use Rattle.nfc_bench.specs.Sweep.{all_transmissions, found_in, read_line};
ghost use Rattle.nfc_bench.specs.SweepStops.{is_fates, is_write, Stands, StandsTo, ObeysSwept, ScriptStops};
ghost use Rattle.nfc_bench.specs.SweepStops.{IsWrittenBy, BeginsSweep, AreSweptLines, AreAllTaken, HasBrokenAll};
ghost use Rattle.nfc_bench.specs.SweepStops.{HasBrokenSome, SweepsAll, SweepStops, IsKeptUnless};
ghost use Rattle.nfc_bench.specs.Limits.{most_read};

use super::found::{Found, found_in, found_line};
use super::obeying::{Unobeyed, obey_all};
use super::script::{Script, Unread, read_script};
use super::swept::SweptLines;
use super::{refusal, write_fault};
use arrayvec::ArrayVec;
use bench_script::{Command, DeviceId, LineFault, parse_line};
use bench_world::{Answer, Bench, Entry};
use nfc_base::Event;
use nfc_io::{Sink, Source, write_all};
use std::alloc::{AllocError, Global};

/// How many transmissions of a write are swept at most: as many as are told in 32 bits.
const MOST_RUNS: u64 = 0xFFFFFFFE;

/// Why a sweep stopped before its end.
#[derive(Clone, Copy, Debug, PartialEq, Eq)]
pub enum Cut {
    Refused(u32),
    ReadFault,
    Memory,
}

/// Whether a line may stand in a script that is swept: one of fates may not, and at the end a write alone may.
fn may_stand(alloc: Global, text: &[u8], is_last: bool) -> Result<bool, AllocError>
    ensures { IfOk result (λ v. Stands is_last text.now v) }
{
    let command = match parse_line(alloc, text) {
        Ok(command) => command,
        Err(LineFault::Refused) => return Ok(false),
        Err(LineFault::Memory) => return Err(AllocError),
    };
    if is_fates(&command) {
        return Ok(false);
    }
    Ok(!is_last || is_write(&command))
}

fn is_fates(command: &Command) -> bool
    ensures { result ≡ is_fates command.now }
{
    match command {
        Command::Fates(_) => true,
        _ => false,
    }
}

fn is_write(command: &Command) -> bool
    ensures { result ≡ is_write command.now }
{
    match command {
        Command::Write { .. } => true,
        _ => false,
    }
}

/// How many of the first lines of a script may stand in it.
fn standing_count(alloc: Global, script: &Script) -> Result<u32, AllocError>
    ensures ok { IfOk result (λ n. StandsTo script.now n) }
    ensures few { IfOk result (λ n. n ≤ 1000) }
{
    let count = script.line_count();
    'lines: for place in 0..count {
        if !may_stand(alloc, &script.line_at(place), script.ends_at(place))? {
            return Ok(place);
        }
    }
    Ok(count)
}

/// Whether these many first lines are all of a script, and there is one.
fn is_whole(script: &Script, count: u32) -> bool
    ensures yes { result ≡ true → (count ≡ length script.now.lines) × (script.now.is_cut ≡ false) × (0 < count) }
    ensures no { result ≡ false → count ≡ length script.now.lines → script.now.is_cut ≡ false → 0 < count → ⊥ }
{
    count == script.line_count() && !script.is_cut() && 0 < count
}

/// Obeys the lines of a script; where not all may stand in it, those before the first that may not.
fn obey_script(alloc: Global, script: &mut Script, bench: &mut Bench) -> Result<(), Cut>
    requires { bench.old ≡ new_bench }
    ensures ok { OnOk result (ObeysSwept script.old bench.new) }
    ensures same { OnOk result (script.new ≡ script.old) }
    ensures err { (lines : List (List ℕ)) → AreLinesOf script.old lines
        → IfErr result (λ cut. ScriptStops lines bench.new cut) }
    ensures sound { IsKeptUnless result bench.new }
    ensures runs { bench.new.finished ≡ [] }
{
    let Ok(count) = standing_count(alloc, script) else {
        return Err(Cut::Memory);
    };
    let is_swept = is_whole(script, count);
    script.keep(count);
    match obey_all(alloc, script, bench) {
        Ok(()) if is_swept => Ok(()),
        Ok(()) => Err(Cut::Refused(count + 1)),
        Err(Unobeyed::Refused(line)) => Err(Cut::Refused(line)),
        Err(Unobeyed::Memory) => Err(Cut::Memory),
    }
}

/// How many transmissions some events have.
fn transmissions(events: &[Event]) -> u64
    ensures { result ≡ all_transmissions events.now }
{
    let mut count = 0;
    'events: for event in events {
        match event {
            Event::Reset => {}
            _ => count += 1,
        }
    }
    count
}

/// How many transmissions the last entry has, where its answer is `written`.
fn written_transmissions(journal: &[Entry]) -> Option<u64>
    ensures some { IfSome result (λ n. IsWrittenBy n journal.now) }
    ensures none { result ≡ None → IsUnwritten journal.now }
{
    let entry = journal.last()?;
    match entry.answer {
        Answer::Written => Some(transmissions(entry.events.as_slice())),
        _ => None,
    }
}

/// The line that reads a device which a line that is short names too.
#[tactic(auto, unfolding(crate::specs::Sweep::read_line))]
fn read_text(alloc: Global, id: DeviceId) -> Result<ArrayVec<u8, 4096>, AllocError>
    requires { length (read_line id) ≤ 4096 }
    ensures { IfOk result (λ text. text.items ≡ read_line id) }
{
    let mut text = Vec::new(alloc);
    Command::Read { id }.write_to(&mut text)?;
    let mut line = ArrayVec::new();
    line.try_extend_from_slice(text.as_slice()).unwrap();
    Ok(line)
}

/// The lines of the runs with a Break, of a script that was obeyed and is swept.
fn swept_lines(alloc: Global, mut script: Script, bench: &Bench) -> Result<SweptLines, AllocError>
    requires { ObeysSwept script bench.now }
    ensures ok { IfOk result (λ s. AreSweptLines script.lines s) }
{
    let count = script.line_count();
    let last = script.line_at(count - 1);
    let id = match parse_line(alloc, last.as_slice()) {
        Ok(
            Command::Write {
                id,
                message: _message,
            },
        ) => id,
        Ok(_other) => unreachable!(),
        Err(LineFault::Refused) => unreachable!(),
        Err(LineFault::Memory) => return Err(AllocError),
    };
    let read = read_text(alloc, id)?;
    script.keep(count - 1);
    Ok(SweptLines::new(script, last, read))
}

/// A run with a Break at each of so many transmissions, one after the other; each is finished.
fn break_each(
    alloc: Global,
    lines: &mut SweptLines,
    count: u32,
    bench: &mut Bench,
) -> Result<(), AllocError>
    requires new { bench.old ≡ begun_anew bench.old.finished }
    requires taken { AreAllTaken lines.old }
    ensures ok { OnOk result (HasBrokenAll lines.old count bench.old bench.new) }
    ensures err { OnErr result (HasBrokenSome lines.old count bench.old bench.new) }
{
    'runs: for passes in 0..count {
        lines.let_pass(passes);
        match obey_all(alloc, lines, bench) {
            Ok(()) => {}
            Err(Unobeyed::Refused(_)) => unreachable!(),
            Err(Unobeyed::Memory) => return Err(AllocError),
        }
        bench.again()?;
    }
    Ok(())
}

/// The runs behind that of the script itself, and what they found.
fn break_off(
    alloc: Global,
    script: Script,
    count: u32,
    bench: &mut Bench,
) -> Result<Found, AllocError>
    requires begins { BeginsSweep script count bench.old }
    requires few { count < 2 ^ 32 - 1 }
    ensures ok { IfOk result (λ f. f ≡ found_in bench.new.finished) }
    ensures swept { OnOk result (HasSwept script.lines bench.new) }
    ensures sound { OnOk result (bench.new.spoiled ≡ false) }
    ensures err { OnErr result (((bench.new.finished ≡ []) × FirstAreObeyed script.lines bench.new)
        ⊎ HasSweptSome script.lines bench.new) }
{
    let mut lines = swept_lines(alloc, script, bench)?;
    bench.again()?;
    break_each(alloc, &mut lines, count, bench)?;
    found_in(alloc, bench.finished())
}

/// Obeys a script, and then again with a Break at each transmission of its last line; tells what was found.
fn sweep<S: Source>(alloc: Global, source: &mut S, bench: &mut Bench) -> Result<Found, Cut>
    requires { bench.old ≡ new_bench }
    ensures ok { IfOk result (λ f. SweepsAll (S.left source.old) (S.left source.new) bench.new f) }
    ensures err { IfErr result (λ cut. SweepStops (S.left source.old) (S.faults source.old) (S.faults source.new)
        bench.new cut) }
    ensures still { OnOk result (S.faults source.new ≡ S.faults source.old) }
    ensures sound { IsKeptUnless result bench.new }
    ensures stop { ReadsInTime (S.left source.old) (S.left source.new) }
    ensures reads { S.faults source.old ≤ S.faults source.new }
{
    let mut script = match read_script(alloc, source) {
        Ok(script) => script,
        Err(Unread::Fault) => return Err(Cut::ReadFault),
        Err(Unread::Memory) => return Err(Cut::Memory),
    };
    match obey_script(alloc, &mut script, bench) {
        Ok(()) => {}
        Err(cut) => return Err(cut),
    }
    let Some(count) = written_transmissions(bench.journal()) else {
        return Err(Cut::Refused(script.line_count()));
    };
    if MOST_RUNS < count {
        return Err(Cut::Memory);
    }
    match break_off(alloc, script, count as u32, bench) {
        Ok(found) => Ok(found),
        Err(_) => Err(Cut::Memory),
    }
}

/// A sweep, of which one line tells what was found.
pub fn sweep_and_tell<S: Source, K: Sink>(
    alloc: Global,
    source: &mut S,
    sink: &mut K,
    bench: &mut Bench,
) -> u8
    requires { bench.old ≡ new_bench }
    ensures status { (result ≡ 0) ⊎ ((2 ≤ result) × (result ≤ 5)) }

    ensures done { result ≡ 0 → EndsSwept (S.left source.old)
        (S.left source.new) (K.taken sink.old) (K.taken sink.new) bench.new }
    ensures still { result ≡ 0 → (S.faults source.new ≡ S.faults source.old) × (K.faults sink.new ≡ K.faults sink.old) }
    ensures refused { result ≡ 2 → EndsUnswept (S.left source.old)
        (K.taken sink.old) (K.taken sink.new) (K.faults sink.old) (K.faults sink.new) bench.new }
    ensures unread { result ≡ 3 → EndsUnknown (K.taken sink.old) (K.taken sink.new) (S.faults source.old)
        (S.faults source.new) (K.faults sink.old) (K.faults sink.new) bench.new }
    ensures unwritten { result ≡ 4 → EndsUntellable (S.left source.old) (S.left source.new)
        (K.taken sink.old) (K.taken sink.new) (K.faults sink.old) (K.faults sink.new) bench.new }
    ensures memory { result ≡ 5 → EndsHalfSwept (S.left source.old)
        (K.taken sink.old) (K.taken sink.new) (K.faults sink.old) (K.faults sink.new) bench.new }
    ensures complete { (bytes : List ℕ) → S.left source.old ≡ Some bytes
        → MaySweep (lines_of bytes) → (HasRisen (S.faults source.old) (S.faults source.new) → ⊥)
        → (HasRisen (K.faults sink.old) (K.faults sink.new) → ⊥) → (result ≡ 0) ⊎ (result ≡ 5) }

    ensures sound { (result ≡ 5 → ⊥) → bench.new.spoiled ≡ false }

    ensures stop { ReadsInTime (S.left source.old) (S.left source.new) }
    ensures bound { ReadsAtMost most_read (S.left source.old) (S.left source.new) }
    ensures reads { S.faults source.old ≤ S.faults source.new }
    ensures writes { K.faults sink.old ≤ K.faults sink.new }
{
    let found = match sweep(alloc, source, bench) {
        Ok(found) => found,
        Err(Cut::Refused(line)) => {
            write_fault(sink, &refusal(line));
            return 2;
        }
        Err(Cut::ReadFault) => {
            write_fault(sink, b"fault 3 read\n");
            return 3;
        }
        Err(Cut::Memory) => {
            write_fault(sink, b"fault 5 memory\n");
            return 5;
        }
    };
    match write_all(sink, &found_line(&found)) {
        Ok(()) => 0,
        Err(_) => 4,
    }
}
