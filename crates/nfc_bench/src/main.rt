//! A bench of NFC devices: a script of commands on a simulated air, and a report of what happened.
#![tactic(auto)]

mod top;

use nfc_io::{StdSink, StdSource};
use std::alloc::Global;
use std::env;
use std::io::ErrorKind;
use std::process::ExitCode;
use top::program::{WordsFault, program};

/// The words after the program's name.
fn words(rt: &HostRuntime, alloc: Global) -> Result<Vec<String>, WordsFault> {
    match env::args(rt) {
        Ok(args) => match args.skip(1).collect(alloc) {
            Ok(words) => Ok(words),
            Err(_) => Err(WordsFault::Memory),
        },
        Err(e) if e.kind() == ErrorKind::InvalidData => Err(WordsFault::NoText),
        Err(_) => Err(WordsFault::Memory),
    }
}

/// A run over standard input and output.
fn main(rt: HostRuntime) -> ExitCode {
    let alloc = rt.alloc();
    let words = words(&rt, alloc);
    let mut source = StdSource::new(rt.stdin());
    let mut sink = StdSink::new(rt.stdout());
    ExitCode::from(program(alloc, words, &mut source, &mut sink))
}
