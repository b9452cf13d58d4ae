//! The message in a dump of a Type 2 tag. Hexadecimal comes by standard input, and the message goes to standard output
//! in hexadecimal. Where none is told, standard error names the cause, and the exit status is its number.
#![tactic(auto)]

mod dump;
#[cfg(test)]
mod tests;

use dump::{DumpFault, told};
use std::io::read_to_string;
use std::process::ExitCode;

fn run(rt: &HostRuntime) -> Result<(), DumpFault> {
    let Ok(text) = read_to_string(rt.alloc(), rt.stdin()) else {
        return Err(DumpFault::Unread);
    };
    let message = told(rt.alloc(), text.as_str())?;
    println!(rt; "{message}").map_err(|_| DumpFault::Unwritten)
}

fn main(rt: HostRuntime) -> ExitCode {
    match run(&rt) {
        Ok(()) => ExitCode::SUCCESS,
        Err(fault) => {
            let _ = eprintln!(rt; "{fault}");
            ExitCode::from(fault.status())
        }
    }
}
