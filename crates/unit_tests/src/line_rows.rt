//! What the tests' tables of lines are made of, and what a row of each compares.

use bench_script::{Command, parse_line};
use std::alloc::Global;
use std::process::Abort;
use std::test::Fail;

/// The number of a line's fault, 0 of a line that is taken.
fn fault_of(alloc: Global, line: &str) -> u8 {
    match parse_line(alloc, line.as_bytes()) {
        Ok(_) => 0,
        Err(fault) => fault.number(),
    }
}

/// Each line has the fault with this number, 0 of a line that is taken.
pub fn faults(rt: &impl Abort, alloc: Global, rows: &[(&str, u8)]) {
    for (line, wanted) in rows {
        assert_eq!(rt; fault_of(alloc, line), *wanted, "{line}");
    }
}

/// What is written of a command behind a `>`.
fn written(alloc: Global, command: &Command) -> Result<String, Fail> {
    let mut target = vec![in alloc; b'>']?;
    command.write_to(&mut target)?;
    Ok(String::from_utf8(target)?)
}

/// What is written of a line's command behind a `>`.
pub fn rewritten(alloc: Global, line: &str) -> Result<String, Fail> {
    written(alloc, &parse_line(alloc, line.as_bytes())?)
}

/// A command as text: how a copy of it is written behind a `>`, whether the copy is the same, and its values.
fn shown(alloc: Global, command: &Command) -> Result<String, Fail> {
    let copy = command.copy(alloc)?;
    let same = copy == *command;
    let text = written(alloc, &copy)?;
    Ok(format!(in alloc; "{text} {same} {command:?}")?)
}

/// What a line spells.
fn told(alloc: Global, line: &str) -> Result<String, Fail> {
    shown(alloc, &parse_line(alloc, line.as_bytes())?)
}

/// Each line spells a command that is written so, and that has these values.
pub fn spell(rt: &impl Abort, alloc: Global, rows: &[(&str, &str, &str)]) -> Result<(), Fail> {
    for (line, text, values) in rows {
        let wanted = format!(in alloc; ">{text} true {values}")?;
        assert_eq!(rt; told(alloc, line)?, wanted, "{line}");
    }
    Ok(())
}
