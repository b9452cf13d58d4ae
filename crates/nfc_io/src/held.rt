//! Bytes that were read and aren't given yet.
ghost use Rattle.std.specs.Prelude.{◌≡◌, ◌≢◌, ◌≤◌, ◌-◌, [], ◌++◌, length, take, drop, Err, IfOk, IfErr, OnErr, OnOk};
ghost use Rattle.std.specs.Prelude.{MatchOption};
ghost use Rattle.nfc_io.specs.Counts.{HasRisen};
ghost use Rattle.nfc_io.specs.Lines.{NoLf};
ghost use Rattle.nfc_io.specs.Reading.{HoldsLf, Gets, Fetches, Reaches, Lacks};

use crate::failed::Failed;
use crate::line_reader::{LONGEST_LINE, LineStop};
use crate::source::Source;
use std::alloc::{AllocError, Global};
use std::marker::Model;

/// How many bytes are held at most: a line of the most bytes, and one more, its LF or the byte that makes it too long.
const MOST_HELD: usize = LONGEST_LINE + 1;

/// How many bytes one read asks for at most.
const CHUNK_SIZE: usize = 4096;

/// What a line ends with.
#[derive(Clone, Copy, Debug, PartialEq, Eq)]
pub(crate) enum LineEnd {
    /// An LF, behind so many bytes.
    Lf(usize),
    /// The source's end.
    Source,
}

/// Bytes in order: those from `start` to `end`. Contracts see these.
#[derive(Debug, Drop)]
pub(crate) struct Held {
    bytes: Vec<u8>,
    start: usize,
    end: usize,
}

impl Model for Held {
    ghost use Rattle.std.specs.Prelude.{ℕ, ◌≡◌, ◌≤◌, List, length, take, drop};

    ghost Value = { List ℕ };

    ghost view = { λ h. drop h.start (take h.end h.bytes.items) };

    ghost invariant = { λ h. (length h.bytes.items ≡ 4097) × (h.start ≤ h.end) × (h.end ≤ 4097) };
}

/// Where the first LF of a text is, of which so many bytes are known to have none.
fn find_lf(text: &[u8], clean: usize) -> Option<usize>
    requires within { clean ≤ length text.now }
    requires clean { NoLf (take clean text.now) }
    ensures { MatchOption result (NoLf text.now) (λ n. HoldsLf text.now n) }
{
    let mut at = clean;
    'bytes: while at < text.len() {
        if text[at] == b'\n' {
            return Some(at);
        }
        at += 1;
    }
    None
}

/// Moves the bytes from `start` to `end` to the front.
fn move_to_front(bytes: &mut Vec<u8>, start: usize, end: usize)
    requires { (start ≤ end) × (end ≤ length bytes.old.items) }
    ensures len { length bytes.new.items ≡ length bytes.old.items }
    ensures moved { take (end - start) bytes.new.items ≡ drop start (take end bytes.old.items) }
{
    if start > 0 {
        bytes.copy_within(start..end, 0);
    }
}

impl Held {
    /// Room for bytes, with none.
    pub fn new(alloc: Global) -> Result<Held, AllocError>
        ensures { IfOk result (λ h. h ≡ []) }
    {
        Ok(Held {
            bytes: vec![in alloc; 0; MOST_HELD]?,
            start: 0,
            end: 0,
        })
    }

    /// The bytes.
    pub fn view(&self) -> &[u8]
        ensures value { result.now ≡ self.now }
        ensures size { length self.now ≤ 4097 }
    {
        &self.bytes[self.start..self.end]
    }

    /// Lets the first of the bytes go.
    pub fn let_go(&mut self, count: usize)
        requires { count ≤ length self.old }
        ensures { self.new ≡ drop count self.old }
    {
        self.start += count;
    }

    /// Moves all the bytes behind these.
    pub fn move_to(&mut self, target: &mut Vec<u8>) -> Result<(), AllocError>
        ensures ok { OnOk result ((target.new.items ≡ target.old.items ++ self.old) × (self.new ≡ [])) }
        ensures err { OnErr result ((target.new.items ≡ target.old.items) × (self.new ≡ self.old)) }
    {
        target.extend_from_slice(self.view())?;
        self.start = self.end;
        Ok(())
    }

    /// Reads once, as far as there is room behind the bytes, and says how many it got.
    pub fn fill<S: Source>(&mut self, source: &mut S) -> Result<usize, Failed>
        requires { length self.old ≤ 4096 }
        ensures ok { IfOk result (λ n. Gets n self.old self.new (S.left source.old) (S.left source.new)) }
        ensures size { length self.new ≤ 4097 }
        ensures still { OnOk result (S.faults source.new ≡ S.faults source.old) }
        ensures cause { OnErr result (HasRisen (S.faults source.old) (S.faults source.new)) }
        ensures same { OnErr result ((self.new ≡ self.old) × (S.left source.new ≡ S.left source.old)) }
        ensures count { S.faults source.old ≤ S.faults source.new }
    {
        move_to_front(&mut self.bytes, self.start, self.end);
        self.end -= self.start;
        self.start = 0;
        let most = (MOST_HELD - self.end).min(CHUNK_SIZE);
        let n = source.read(&mut self.bytes[self.end..self.end + most])?;
        self.end += n;
        Ok(n)
    }

    /// Reads until the first line of the bytes is whole or too long, or ends with the source, at whose end nothing is
    /// read.
    pub fn reach<S: Source>(&mut self, source: &mut S, ended: bool) -> Result<LineEnd, LineStop>
        ensures fetched { Fetches ended self.old self.new (S.left source.old) (S.left source.new) }
        ensures ok { IfOk result (λ e. Reaches ended self.new (S.left source.new) e) }
        ensures err { IfErr result (λ s. Lacks ended self.new s) }
        ensures size { length self.new ≤ 4097 }
        ensures still { result ≢ Err LineStop.ReadFault → S.faults source.new ≡ S.faults source.old }
        ensures cause { result ≡ Err LineStop.ReadFault → HasRisen (S.faults source.old) (S.faults source.new) }
        ensures count { S.faults source.old ≤ S.faults source.new }
    {
        let mut clean = 0;
        'reading: loop {
            let held = self.view();
            if let Some(length) = find_lf(held, clean) {
                return Ok(LineEnd::Lf(length));
            }
            clean = held.len();
            if clean > LONGEST_LINE {
                return Err(LineStop::TooLong);
            }
            if ended {
                return Ok(LineEnd::Source);
            }
            match self.fill(source) {
                Ok(0) => return Ok(LineEnd::Source),
                Ok(_) => {}
                Err(_) => return Err(LineStop::ReadFault),
            }
        }
    }
}
