//! Ends over the readers and writers of std.
ghost use Rattle.std.specs.Prelude.{◌≡◌, ◌<◌, ◌≤◌, length, None, Ok, IsErr, OnOk, OnErr, IfOk};
ghost use Rattle.std.specs.Io.KnownBytes.{ReadConsumes, WriteAppends};
ghost use Rattle.nfc_io.specs.Counts.{count_up};
ghost use Rattle.nfc_io.specs.Standard.{OverStd};

use crate::failed::Failed;
use crate::sink::Sink;
use crate::source::Source;
use std::io;
use std::io::{ErrorKind, Read, Write};
use std::marker::Model;

/// What a call of a reader or a writer comes to: its count, or one fault more.
fn counted(outcome: io::Result<usize>, faults: &mut u64) -> Result<usize, Failed>
    ensures ok { IfOk outcome (λ n. (result ≡ Ok n) × (faults.new ≡ faults.old)) }
    ensures err { OnErr outcome (IsErr result × (faults.new ≡ count_up faults.old)) }
    ensures count { faults.old ≤ faults.new }
{
    match outcome {
        Ok(n) => Ok(n),
        Err(_) => {
            *faults = faults.saturating_add(1);
            Err(Failed)
        }
    }
}

/// Any reader. It tells nothing of its content. Contracts see the reader and the count of faults.
#[derive(Debug, Drop)]
pub struct StdSource<R> {
    inner: R,
    faults: u64,
}

impl<R> Model for StdSource<R> {
    ghost Value = { OverStd R };

    ghost view = { λ s. record { inner = s.inner; faults = s.faults } };
}

impl<R> StdSource<R> {
    /// A source of what the reader reads.
    pub fn new(inner: R) -> StdSource<R>
        ensures { result ≡ record { inner = inner; faults = 0 } }
    {
        StdSource { inner, faults: 0 }
    }
}

impl<R: Read> Source for StdSource<R> {
    ghost left = { λ _. None };

    ghost faults = { λ s. s.faults };

    fn read(&mut self, buf: &mut [u8]) -> Result<usize, Failed>
        ensures bound { IfOk result (λ n. n ≤ length buf.old) }
        ensures passes { ReadConsumes (R.remaining self.old.inner) (R.remaining self.new.inner) result buf.new }
        ensures ok { OnOk result (self.new.faults ≡ self.old.faults) }
        ensures err { OnErr result (self.new.faults ≡ count_up self.old.faults) }
        ensures count { self.old.faults ≤ self.new.faults }
    {
        counted(self.inner.read(buf), &mut self.faults)
    }
}

/// Any writer. It tells nothing of its content. Contracts see the writer and the count of faults.
#[derive(Debug, Drop)]
pub struct StdSink<W> {
    inner: W,
    faults: u64,
}

impl<W> Model for StdSink<W> {
    ghost Value = { OverStd W };

    ghost view = { λ s. record { inner = s.inner; faults = s.faults } };
}

impl<W> StdSink<W> {
    /// A sink into the writer.
    pub fn new(inner: W) -> StdSink<W>
        ensures { result ≡ record { inner = inner; faults = 0 } }
    {
        StdSink { inner, faults: 0 }
    }
}

impl<W: Write> Sink for StdSink<W> {
    ghost taken = { λ _. None };

    ghost faults = { λ s. s.faults };

    /// A write that takes none of the bytes is a fault.
    fn write(&mut self, bytes: &[u8]) -> Result<usize, Failed>
        ensures bound { IfOk result (λ n. n ≤ length bytes.now) }
        ensures some { IfOk result (λ n. 0 < length bytes.now → 0 < n) }
        ensures passes { WriteAppends (W.contents self.old.inner) (W.contents self.new.inner) result bytes.now }
        ensures ok { OnOk result (self.new.faults ≡ self.old.faults) }
        ensures err { OnErr result (self.new.faults ≡ count_up self.old.faults) }
        ensures count { self.old.faults ≤ self.new.faults }
    {
        let outcome = match self.inner.write(bytes) {
            Ok(0) if !bytes.is_empty() => Err(ErrorKind::WriteZero.into()),
            outcome => outcome,
        };
        counted(outcome, &mut self.faults)
    }
}
