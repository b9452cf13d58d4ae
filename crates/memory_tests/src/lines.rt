//! What the tests share: a bench that obeys lines.

use bench_script::{LineFault, parse_line};
use bench_world::{Bench, ObeyFault};
use std::alloc::Global;
use std::test::Fail;

/// Obeys a line: whether there was memory for all of it.
pub(crate) fn obeys(alloc: Global, bench: &mut Bench, line: &str) -> Result<bool, Fail> {
    let command = match parse_line(alloc, line.as_bytes()) {
        Ok(command) => command,
        Err(LineFault::Memory) => return Ok(false),
        Err(LineFault::Refused) => return Err(Fail::new("no command")),
    };
    match bench.obey(1, &command) {
        Ok(()) => Ok(true),
        Err(ObeyFault::Memory) => Ok(false),
        Err(ObeyFault::Refused) => Err(Fail::new("the bench refuses a command")),
    }
}

/// Obeys one line after the other: whether there was memory for all of them.
pub(crate) fn obeys_all(alloc: Global, bench: &mut Bench, lines: &[&str]) -> Result<bool, Fail> {
    for line in lines {
        if !obeys(alloc, bench, line)? {
            return Ok(false);
        }
    }
    Ok(true)
}
