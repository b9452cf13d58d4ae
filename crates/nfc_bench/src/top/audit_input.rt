//! An input to be audited: the lines of a script, the line that ends them, and a report.

ghost use Rattle.std.specs.Prelude.{◌≡◌, ◌+◌, ◌≤◌, ◌<◌, ◌^◌, ◌++◌, [], ◌∷◌, length, None, IfOk, OnOk, Err};
ghost use Rattle.nfc_io.specs.Counts.{HasRisen};
ghost use Rattle.nfc_io.specs.Reading.{new_lined};
ghost use Rattle.nfc_bench.specs.AuditInput.{ends_in, most_report, most_audited};
ghost use Rattle.nfc_bench.specs.Limits.{chunk_size};
ghost use Rattle.nfc_bench.specs.Run.{ReadsAtMost};
ghost use Rattle.nfc_bench.specs.private.AuditReading.{most_ahead, GoesTo, WentOn, Comes, HandsReport, ReadsInput};

use super::script::Unread;
use nfc_io::{LineReader, LineStop, Rest, RestFault, Source};
use std::alloc::{AllocError, Global};

/// How many lines a script may have.
const MOST_LINES: u32 = 1000;

/// The line that ends a script.
const MARK: &[u8] = b"%%";

/// How many bytes a report may have.
const MOST_REPORT: usize = 16_777_216;

/// What stands behind the lines of a script.
#[derive(Debug, Drop)]
pub enum Behind {
    /// A report.
    Report(Vec<u8>),
    /// No report that may be audited: this line of the input is the first that shows it.
    NoReport(u32),
}

/// An input that was read: the lines of a script, each with an LF, and what stands behind them.
#[derive(Debug, Drop)]
pub struct AuditInput {
    pub script: Vec<u8>,
    pub behind: Behind,
}

/// What a reader goes on to.
#[derive(Clone, Copy, Debug, PartialEq, Eq)]
pub enum Next {
    /// A line of a script.
    Line,
    /// The line that ends it.
    Mark,
    /// The input's end, or a line that is too long.
    Nothing,
}

/// The lines of a script, each with an LF, and how many they are.
#[derive(Debug, Drop)]
pub enum Ahead {
    /// The line that ends the script stands behind them.
    Marked { script: Vec<u8>, count: u32 },
    /// None that does.
    Unmarked { script: Vec<u8>, count: u32 },
}

/// Goes on to the next line.
fn next_line<S: Source>(reader: &mut LineReader, source: &mut S) -> Result<Next, Unread>
    requires { reader.old.stop ≡ None }
    ensures ok { IfOk result (λ next. GoesTo reader.old reader.new (S.left source.old) (S.left source.new) next) }
    ensures went { WentOn reader.old reader.new (S.left source.old) (S.left source.new) }
    ensures still { OnOk result (S.faults source.new ≡ S.faults source.old) }
    ensures cause { result ≡ Err Unread.Fault → HasRisen (S.faults source.old) (S.faults source.new) }
    ensures count { S.faults source.old ≤ S.faults source.new }
{
    match reader.advance(source) {
        Ok(true) if reader.line() == MARK => Ok(Next::Mark),
        Ok(true) => Ok(Next::Line),
        Ok(false) | Err(LineStop::TooLong) => Ok(Next::Nothing),
        Err(LineStop::ReadFault) => Err(Unread::Fault),
    }
}

/// Puts a line behind others, with an LF.
fn push_line(script: &mut Vec<u8>, line: &[u8]) -> Result<(), AllocError>
    ensures { OnOk result (script.new.items ≡ script.old.items ++ (line.now ++ 10 ∷ [])) }
{
    script.extend_from_slice(line)?;
    script.push(b'\n')?;
    Ok(())
}

/// Reads the lines of a script up to the one that ends them, which may be one more than a script may have; or to where
/// there is none.
fn read_ahead<S: Source>(
    alloc: Global,
    reader: &mut LineReader,
    source: &mut S,
) -> Result<Ahead, Unread>
    requires { reader.old ≡ new_lined }
    ensures ok { IfOk result (λ a. Comes (S.left source.old) (S.left source.new) reader.new a) }
    ensures bound { ReadsAtMost most_ahead (S.left source.old) (S.left source.new) }
    ensures still { OnOk result (S.faults source.new ≡ S.faults source.old) }
    ensures cause { result ≡ Err Unread.Fault → HasRisen (S.faults source.old) (S.faults source.new) }
    ensures count { S.faults source.old ≤ S.faults source.new }
{
    let mut script = Vec::new(alloc);
    let mut count = 0;
    'lines: while count < MOST_LINES {
        match next_line(reader, source) {
            Ok(Next::Line) => {}
            Ok(Next::Mark) => return Ok(Ahead::Marked { script, count }),
            Ok(Next::Nothing) => return Ok(Ahead::Unmarked { script, count }),
            Err(why) => return Err(why),
        }
        let Ok(()) = push_line(&mut script, reader.line()) else {
            return Err(Unread::Memory);
        };
        count += 1;
    }
    match next_line(reader, source) {
        Ok(Next::Line) => Ok(Ahead::Unmarked { script, count }),
        Ok(Next::Mark) => Ok(Ahead::Marked { script, count }),
        Ok(Next::Nothing) => Ok(Ahead::Unmarked { script, count }),
        Err(why) => Err(why),
    }
}

/// In how many of these bytes a line ends.
fn ends_in(bytes: &[u8]) -> u32
    requires { length bytes.now < 2 ^ 32 }
    ensures value { result ≡ ends_in bytes.now }
    ensures few { result ≤ length bytes.now }
{
    bytes.iter().filter(|&&byte| byte == b'\n').count() as u32
}

/// Reads what stands behind the line that ends a script of so many lines.
#[tactic(auto, using(crate::proofs::AuditBounds::rest_bound, crate::proofs::AuditBounds::fault_bound))]
fn read_report<S: Source>(
    alloc: Global,
    reader: LineReader,
    source: &mut S,
    count: u32,
) -> Result<Behind, Unread>
    requires going { reader.stop ≡ None }
    requires few { count ≤ 1000 }
    ensures ok { IfOk result (λ behind. HandsReport reader (S.left source.old) (S.left source.new) count behind) }
    ensures bound { ReadsAtMost (most_report + chunk_size) (S.left source.old) (S.left source.new) }
    ensures still { OnOk result (S.faults source.new ≡ S.faults source.old) }
    ensures cause { result ≡ Err Unread.Fault → HasRisen (S.faults source.old) (S.faults source.new) }
    ensures count { S.faults source.old ≤ S.faults source.new }
{
    match reader.into_rest(alloc, source, MOST_REPORT) {
        Ok(Rest::Whole(report)) => Ok(Behind::Report(report)),
        Ok(Rest::TooLong(mut bytes)) => {
            bytes.truncate(MOST_REPORT);
            Ok(Behind::NoReport(count + 2 + ends_in(&bytes)))
        }
        Err(RestFault::ReadFault) => Err(Unread::Fault),
        Err(RestFault::Memory) => Err(Unread::Memory),
        Err(RestFault::Stopped(_)) => unreachable!(),
    }
}

/// Reads an input: the lines of its script and its report. Where it has none that may be audited, no more is read than
/// shows it.
pub fn read_input<S: Source>(alloc: Global, source: &mut S) -> Result<AuditInput, Unread>
    ensures ok { IfOk result
        (λ i. ReadsInput (S.left source.old) (S.left source.new) i.script.items i.behind) }
    ensures bound { ReadsAtMost most_audited (S.left source.old) (S.left source.new) }
    ensures still { OnOk result (S.faults source.new ≡ S.faults source.old) }
    ensures cause { result ≡ Err Unread.Fault → HasRisen (S.faults source.old) (S.faults source.new) }
    ensures count { S.faults source.old ≤ S.faults source.new }
{
    let Ok(mut reader) = LineReader::new(alloc) else {
        return Err(Unread::Memory);
    };
    let (script, count) = match read_ahead(alloc, &mut reader, source) {
        Ok(Ahead::Marked { script, count }) => (script, count),
        Ok(Ahead::Unmarked { script, count }) => return Ok(AuditInput {
            script,
            behind: Behind::NoReport(count + 1),
        }),
        Err(why) => return Err(why),
    };
    match read_report(alloc, reader, source, count) {
        Ok(behind) => Ok(AuditInput { script, behind }),
        Err(why) => Err(why),
    }
}
