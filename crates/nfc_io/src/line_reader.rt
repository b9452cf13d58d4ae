//! A source's lines, one by one.
ghost use Rattle.std.specs.Prelude.{◌≡◌, ◌≢◌, ◌≤◌, length, take, drop, None, Some, Err, IfOk, OnErr};
ghost use Rattle.nfc_io.specs.Counts.{HasRisen};
ghost use Rattle.nfc_io.specs.Reading.{Advances, Looks, new_lined};
ghost use Rattle.nfc_io.specs.Behind.{HandsOver, TakesSome};

use crate::held::{Held, LineEnd};
use crate::rest::{Rest, RestFault, read_on};
use crate::source::Source;
use std::alloc::{AllocError, Global};
use std::marker::Model;
use thiserror::Error;

/// How many bytes a line may have, without its LF.
pub(crate) const LONGEST_LINE: usize = 4096;

/// Why a reader gives no further line.
#[derive(Clone, Copy, Debug, PartialEq, Eq, Error)]
pub enum LineStop {
    #[error("the source failed")]
    ReadFault = 1,
    #[error("the next line has more than 4,096 bytes")]
    TooLong = 2,
}

/// Gives the lines of a source one by one, however the source cuts its bytes. It holds the last line and the bytes
/// behind it, in 8,193 bytes that it has from the start. Each call is handed the same source.
#[derive(Debug, Drop)]
pub struct LineReader {
    line: Vec<u8>,
    held: Held,
    ended: bool,
    stop: Option<LineStop>,
}

impl Model for LineReader {
    ghost use Rattle.std.specs.Prelude.{◌≤◌, length, vec_capacity};
    ghost use Rattle.nfc_io.specs.Reading.{Lined};

    ghost Value = { Lined };

    ghost view = { λ r. record { line = r.line.items; held = r.held; is_ended = r.ended; stop = r.stop } };

    ghost invariant = { λ r. (4096 ≤ vec_capacity r.line) × (length r.held ≤ 4097) };
}

impl LineReader {
    /// A reader that has given no line yet.
    pub fn new(alloc: Global) -> Result<LineReader, AllocError>
        ensures { IfOk result (λ r. r ≡ new_lined) }
    {
        Ok(LineReader {
            line: Vec::with_capacity(alloc, LONGEST_LINE)?,
            held: Held::new(alloc)?,
            ended: false,
            stop: None,
        })
    }

    /// The last line that was given, without its LF; before the first it is empty.
    pub fn line(&self) -> &[u8]
        ensures { result.now ≡ self.now.line }
    {
        &self.line
    }

    /// Goes on to the next line, and says whether there is one: none is behind the source's end. It reads only where it
    /// holds no whole line.
    pub fn advance<S: Source>(&mut self, source: &mut S) -> Result<bool, LineStop>
        ensures next { self.old.stop ≡ None
            → Advances self.old self.new (S.left source.old) (S.left source.new) result }
        ensures cause { self.old.stop ≡ None → result ≡ Err LineStop.ReadFault
            → HasRisen (S.faults source.old) (S.faults source.new) }
        ensures still { result ≢ Err LineStop.ReadFault → S.faults source.new ≡ S.faults source.old }
        ensures count { S.faults source.old ≤ S.faults source.new }
        ensures few { length self.new.held ≤ 4097 }
        ensures stuck { (s : LineStop) → self.old.stop ≡ Some s
            → (result ≡ Err s) × (self.new ≡ self.old) × (source.new ≡ source.old) }
    {
        if let Some(stop) = self.stop {
            return Err(stop);
        }
        match self.held.reach(source, self.ended) {
            Ok(LineEnd::Lf(length)) => {
                self.give(length);
                self.held.let_go(1);
                Ok(true)
            }
            Ok(LineEnd::Source) => {
                self.ended = true;
                let length = self.held.view().len();
                if length == 0 {
                    return Ok(false);
                }
                self.give(length);
                Ok(true)
            }
            Err(stop) => {
                self.stop = Some(stop);
                Err(stop)
            }
        }
    }

    /// Says whether a byte stands behind the last line. It reads once at most, and only where it holds none.
    pub fn follows<S: Source>(&mut self, source: &mut S) -> Result<bool, LineStop>
        ensures look { self.old.stop ≡ None
            → Looks self.old self.new (S.left source.old) (S.left source.new) result }
        ensures cause { self.old.stop ≡ None → result ≡ Err LineStop.ReadFault
            → HasRisen (S.faults source.old) (S.faults source.new) }
        ensures still { result ≢ Err LineStop.ReadFault → S.faults source.new ≡ S.faults source.old }
        ensures count { S.faults source.old ≤ S.faults source.new }
        ensures few { length self.new.held ≤ 4097 }
        ensures stuck { (s : LineStop) → self.old.stop ≡ Some s
            → (result ≡ Err s) × (self.new ≡ self.old) × (source.new ≡ source.old) }
    {
        if let Some(stop) = self.stop {
            return Err(stop);
        }
        if !self.held.view().is_empty() {
            return Ok(true);
        }
        if self.ended {
            return Ok(false);
        }
        match self.held.fill(source) {
            Ok(0) => {
                self.ended = true;
                Ok(false)
            }
            Ok(_) => Ok(true),
            Err(_) => {
                self.stop = Some(LineStop::ReadFault);
                Err(LineStop::ReadFault)
            }
        }
    }

    /// Hands over what stands behind the last line: the bytes held, and those that the source has behind them, to its
    /// end or until there are more than so many.
    pub fn into_rest<S: Source>(
        mut self,
        alloc: Global,
        source: &mut S,
        most: usize,
    ) -> Result<Rest, RestFault>
        ensures rest { self.stop ≡ None
            → IfOk result (λ rest. HandsOver most self (S.left source.old) (S.left source.new) rest) }
        ensures some { OnErr result (TakesSome most (S.left source.old) (S.left source.new)) }
        ensures cause { result ≡ Err RestFault.ReadFault → HasRisen (S.faults source.old) (S.faults source.new) }
        ensures still { result ≢ Err RestFault.ReadFault → S.faults source.new ≡ S.faults source.old }
        ensures count { S.faults source.old ≤ S.faults source.new }
        ensures going { (s : LineStop) → result ≡ Err (RestFault.Stopped s) → self.stop ≡ Some s }
        ensures stuck { (s : LineStop) → self.stop ≡ Some s
            → (result ≡ Err (RestFault.Stopped s)) × (source.new ≡ source.old) }
    {
        if let Some(stop) = self.stop {
            return Err(RestFault::Stopped(stop));
        }
        read_on(alloc, &mut self.held, source, self.ended, most)
    }

    /// The first of the held bytes become the last line.
    fn give(&mut self, count: usize)
        requires short { count ≤ 4096 }
        requires within { count ≤ length self.old.held }
        ensures { self.new
            ≡ record self.old { line = take count self.old.held; held = drop count self.old.held } }
    {
        self.line.clear();
        self.line
            .extend_from_slice(&self.held.view()[..count])
            .unwrap();
        self.held.let_go(count);
    }
}
