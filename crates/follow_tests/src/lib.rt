//! How a bench follows what was told of commands: its own events are whole, and others are right as far as they are.
#![tactic(auto)]

#[cfg(test)]
mod changing;
#[cfg(test)]
mod follow_tests;
#[cfg(test)]
mod scripts;
