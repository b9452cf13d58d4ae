//! What tags and peers are left with where a request for memory is refused.
//!
//! As all tests these are proved, and pass with ample memory. They pass too where any one of their requests for memory
//! is refused: a test that gets want of memory looks at what is left, and ends well. `.ci/memory_tests.py` refuses each
//! in turn.
#![tactic(auto)]

#[cfg(test)]
mod lines;
#[cfg(test)]
mod put_tests;
#[cfg(test)]
mod write_tests;
