//! The lines of a sweep's runs.

ghost use Rattle.std.specs.Prelude.{◌≡◌, ◌+◌, ◌-◌, ◌/◌, ◌≤◌, ◌<◌, ◌++◌, [], ◌∷◌, ℕ, List, length, take, codes};
ghost use Rattle.std.specs.Prelude.{replicate, slice_index_or, Bool, true, if◌then◌else◌, IfOk};
ghost use Rattle.bench_script.specs.Limits.{longest_line};
ghost use Rattle.bench_script.specs.Script.{most_fates};
ghost use Rattle.nfc_bench.specs.Sweep.{Swept, fates_line, break_lines, sweep_lines};

use super::obeying::Lines;
use super::script::Script;
use arrayvec::ArrayVec;
use std::marker::Model;

/// How many letters a line of fates may have.
const MOST_FATES: u32 = 4000;

/// The lines of a run with a Break: those of the script but the last, fates by which so many transmissions pass and the
/// next is a Break, the last line, and one that reads its device.
#[derive(Drop)]
pub struct SweptLines {
    before: Script,
    last: ArrayVec<u8, 4096>,
    read: ArrayVec<u8, 4096>,
    passes: u32,
}

impl Model for SweptLines {
    ghost use Rattle.nfc_bench.specs.Sweep.{Swept};

    ghost Value = { Swept };

    ghost view = { λ s. record { before = s.before.lines; last = s.last.items; read = s.read.items; passes = s.passes } };
}

/// A line of fates: so many that pass, and then a Break or nothing more.
#[tactic(auto, unfolding(crate::specs::Sweep::fates_line))]
fn fates_line(passes: u32, breaks: bool) -> ArrayVec<u8, 4096>
    requires { passes ≤ most_fates }
    ensures { result.items ≡ fates_line passes (if breaks then codes "B" else []) }
{
    let mut line = ArrayVec::new();
    line.try_extend_from_slice(b"fates ").unwrap();
    'letters: for _ in 0..passes {
        line.push(b'P');
    }
    if breaks {
        line.push(b'B');
    }
    line
}

/// The same text.
fn copy_of(text: &ArrayVec<u8, 4096>) -> ArrayVec<u8, 4096>
    ensures { result.items ≡ text.now.items }
{
    let mut copy = ArrayVec::new();
    copy.try_extend_from_slice(text.as_slice()).unwrap();
    copy
}

impl Lines for SweptLines {
    ghost use Rattle.nfc_bench.specs.Sweep.{sweep_lines};

    ghost lines = { λ s. sweep_lines s.before s.last s.read s.passes };

    fn count(&self) -> u32 {
        self.before.line_count() + self.passes / MOST_FATES + 3
    }

    fn line(&self, place: u32) -> ArrayVec<u8, 4096> {
        let before = self.before.line_count();
        if place < before {
            return self.before.line_at(place);
        }
        self.line_behind(place - before)
    }
}

impl SweptLines {
    /// The lines of the run in which the first transmission is a Break.
    pub fn new(before: Script, last: ArrayVec<u8, 4096>, read: ArrayVec<u8, 4096>) -> SweptLines
        ensures { result ≡ record { before = before.lines; last = last.items; read = read.items; passes = 0 } }
    {
        SweptLines {
            before,
            last,
            read,
            passes: 0,
        }
    }

    /// From now on so many transmissions pass before the Break.
    pub fn let_pass(&mut self, passes: u32)
        ensures { self.new ≡ record self.old { passes = passes } }
    {
        self.passes = passes;
    }

    /// The line at a place behind those of the script but the last.
    fn line_behind(&self, place: u32) -> ArrayVec<u8, 4096>
        requires { place < self.now.passes / most_fates + 3 }
        ensures { result.items ≡ slice_index_or (break_lines self.now.passes ++ self.now.last ∷ self.now.read ∷ [])
            place [] }
    {
        let whole = self.passes / MOST_FATES;
        if place < whole {
            fates_line(MOST_FATES, false)
        } else if place == whole {
            fates_line(self.passes % MOST_FATES, true)
        } else if place == whole + 1 {
            copy_of(&self.last)
        } else {
            copy_of(&self.read)
        }
    }
}
