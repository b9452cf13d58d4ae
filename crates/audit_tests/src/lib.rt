//! The tests of `trace_audit`: how a report is read back, and how it is judged by its script.
#![tactic(auto)]

#[cfg(test)]
mod own_report_tests;
#[cfg(test)]
mod reading_tests;
#[cfg(test)]
mod verdict_tests;
