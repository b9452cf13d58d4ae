//! Obeying lines, one by one.

ghost use Rattle.std.specs.Prelude.{◌≡◌, ◌<◌, [], ℕ, List, length, slice_index_or, IfOk, IfErr, OnOk, IsErrOf};
ghost use Rattle.bench_world.specs.Obeying.{begun_anew};
ghost use Rattle.bench_world.specs.Taking.{IsTaken};
ghost use Rattle.nfc_bench.specs.Stops.{LineObeyed, Lost, ObeyedBy, Unobeys};

use arrayvec::ArrayVec;
use bench_script::{Command, LineFault, parse_line};
use bench_world::{Bench, ObeyFault};
use std::alloc::Global;

/// Lines that are made one by one, each by its place.
pub trait Lines {
    /// All of them, without their LFs.
    ghost lines: { Self → List (List ℕ) };

    /// How many they are.
    fn count(&self) -> u32
        ensures { result ≡ length (lines self.now) };

    /// The line at a place.
    fn line(&self, place: u32) -> ArrayVec<u8, 4096>
        requires { place < length (lines self.now) }
        ensures { result.items ≡ slice_index_or (lines self.now) place [] };
}

/// Obeys the command that a line spells; tells whether it asks for something, and so has an entry.
pub fn obey_text(
    alloc: Global,
    line: u32,
    text: &[u8],
    bench: &mut Bench,
) -> Result<bool, ObeyFault>
    ensures ok { IfOk result (λ asks. LineObeyed bench.old bench.new line text.now asks) }
    ensures refused { IsErrOf result ObeyFault.Refused → (bench.new ≡ bench.old)
        × (IsTaken bench.old.state text.now → ⊥) }
    ensures memory { IsErrOf result ObeyFault.Memory → Lost bench.old bench.new text.now }
{
    let command = match parse_line(alloc, text) {
        Ok(command) => command,
        Err(LineFault::Refused) => return Err(ObeyFault::Refused),
        Err(LineFault::Memory) => return Err(ObeyFault::Memory),
    };
    match bench.obey(line, &command) {
        Ok(()) => {}
        Err(fault) => return Err(fault),
    }
    if let Command::Skip = command {
        return Ok(false);
    }
    Ok(true)
}

/// Why lines weren't all obeyed: that of this number isn't taken, or memory was wanting.
#[derive(Clone, Copy, Debug, PartialEq, Eq)]
pub enum Unobeyed {
    Refused(u32),
    Memory,
}

/// Obeys lines on a bench that begins anew, from the first to the last; where one isn't obeyed, none behind it is.
pub fn obey_all<L: Lines>(alloc: Global, lines: &L, bench: &mut Bench) -> Result<(), Unobeyed>
    requires { bench.old ≡ begun_anew bench.old.finished }
    ensures ok { OnOk result (ObeyedBy (L.lines lines.now) bench.new) }
    ensures err { IfErr result (λ why. Unobeys (L.lines lines.now) bench.new why) }
    ensures runs { bench.new.finished ≡ bench.old.finished }
{
    'lines: for place in 0..lines.count() {
        match obey_text(alloc, place + 1, &lines.line(place), bench) {
            Ok(_) => {}
            Err(ObeyFault::Refused) => return Err(Unobeyed::Refused(place + 1)),
            Err(ObeyFault::Memory) => return Err(Unobeyed::Memory),
        }
    }
    Ok(())
}
