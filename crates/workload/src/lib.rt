//! Workloads for a bench (this project's own): a script made from a seed and a count, one line at a time.
//!
//! `workload` makes each line by its place alone, and takes no memory for it; `line` writes the texts. `law` says that
//! each line spells its command in the language of scripts.
#![tactic(auto)]

mod law;
mod line;
#[cfg(test)]
mod tests;
mod workload;

pub use law::lines_are_spelled;
pub use workload::Workload;
