//! A whole script that is read before a line of it is obeyed.

ghost use Rattle.std.specs.Prelude.{◌≡◌, ◌+◌, true, false, ◌<◌, ◌≤◌, [], length, take, slice_index_or, IfOk, OnOk, Err};
ghost use Rattle.nfc_io.specs.Counts.{HasRisen};
ghost use Rattle.bench_script.specs.Limits.{AreWithinLimits};
ghost use Rattle.nfc_bench.specs.Run.{ReadsInTime};
ghost use Rattle.nfc_bench.specs.Reading.{ReadsScript};

use super::obeying::Lines;
use arrayvec::ArrayVec;
use nfc_base::Items;
use nfc_io::{LineReader, LineStop, Source};
use std::alloc::Global;
use std::marker::Model;

/// How many lines a script may have.
const MOST_LINES: u32 = 1000;

/// The lines of a script, and whether one more stands behind them that is one too many or too long.
#[derive(Drop)]
pub struct Script {
    lines: Vec<Items<u8>>,
    is_cut: bool,
}

impl Model for Script {
    ghost use Rattle.bench_script.specs.Limits.{AreWithinLimits};
    ghost use Rattle.nfc_bench.specs.Reading.{Scripted};

    ghost Value = { Scripted };

    ghost view = { λ s. record { lines = s.lines.items; is_cut = s.is_cut } };

    ghost invariant = { λ s. AreWithinLimits s.lines.items };
}

impl Lines for Script {
    ghost lines = { λ s. s.lines };

    fn count(&self) -> u32 {
        self.line_count()
    }

    fn line(&self, place: u32) -> ArrayVec<u8, 4096> {
        self.line_at(place)
    }
}

impl Script {
    /// How many lines there are.
    pub fn line_count(&self) -> u32
        ensures value { result ≡ length self.now.lines }
        ensures limits { AreWithinLimits self.now.lines }
    {
        self.lines.len() as u32
    }

    /// The line at a place.
    pub fn line_at(&self, place: u32) -> ArrayVec<u8, 4096>
        requires { place < length self.now.lines }
        ensures { result.items ≡ slice_index_or self.now.lines place [] }
    {
        let mut text = ArrayVec::new();
        text.try_extend_from_slice(self.lines[place as usize].as_slice())
            .unwrap();
        text
    }

    /// Whether a line stands behind them.
    pub fn is_cut(&self) -> bool
        ensures { result ≡ self.now.is_cut }
    {
        self.is_cut
    }

    /// Whether the line at a place is the script's last.
    pub fn ends_at(&self, place: u32) -> bool
        requires { place < length self.now.lines }
        ensures yes { result ≡ true → (place + 1 ≡ length self.now.lines) × (self.now.is_cut ≡ false) }
        ensures all { place + 1 ≡ length self.now.lines → self.now.is_cut ≡ false → result ≡ true }
    {
        let count = self.line_count();
        place + 1 == count && !self.is_cut
    }

    /// Lets go of all lines but so many.
    pub fn keep(&mut self, count: u32)
        ensures { self.new ≡ record self.old { lines = take count self.old.lines } }
    {
        self.lines.truncate(count as usize);
    }
}

/// Why a script wasn't read.
#[derive(Clone, Copy, Debug, PartialEq, Eq)]
pub enum Unread {
    Fault,
    Memory,
}

/// Reads a script to its end, or to the first line that is one too many or too long.
pub fn read_script<S: Source>(alloc: Global, source: &mut S) -> Result<Script, Unread>
    ensures ok { IfOk result (λ s. ReadsScript (S.left source.old) (S.left source.new) s) }
    ensures still { OnOk result (S.faults source.new ≡ S.faults source.old) }
    ensures cause { result ≡ Err Unread.Fault → HasRisen (S.faults source.old) (S.faults source.new) }
    ensures stop { ReadsInTime (S.left source.old) (S.left source.new) }
    ensures count { S.faults source.old ≤ S.faults source.new }
{
    let Ok(mut reader) = LineReader::new(alloc) else {
        return Err(Unread::Memory);
    };
    let mut lines = Vec::new(alloc);
    'lines: for _ in 0..MOST_LINES {
        match reader.advance(source) {
            Ok(true) => {}
            Ok(false) => return Ok(Script {
                lines,
                is_cut: false,
            }),
            Err(LineStop::ReadFault) => return Err(Unread::Fault),
            Err(LineStop::TooLong) => return Ok(Script {
                lines,
                is_cut: true,
            }),
        }
        let Ok(line) = Items::from_bytes(alloc, reader.line()) else {
            return Err(Unread::Memory);
        };
        if lines.push(line).is_err() {
            return Err(Unread::Memory);
        }
    }
    match reader.follows(source) {
        Ok(is_cut) => Ok(Script { lines, is_cut }),
        Err(_) => Err(Unread::Fault),
    }
}
