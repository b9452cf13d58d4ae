//! Where bytes come from and where they go.
//!
//! A `Source` hands out bytes in order, and a `Sink` takes them in order. Each counts its faults, so that a caller
//! can show why it stopped. There are ends in memory, whose calls fail as planned, and ends over any reader and
//! writer of std, which tell nothing of their content. A `LineReader` gives a source's lines one by one,
//! and hands over what stands behind them.
#![tactic(auto)]

mod failed;
mod held;
mod law;
mod line_reader;
mod memory;
mod plain;
mod plan;
mod rest;
mod sink;
mod source;
mod standard;

pub use failed::Failed;
pub use law::{lines_in_order, rest_behind_lines};
pub use line_reader::{LineReader, LineStop};
pub use memory::{MemSink, MemSource};
pub use plain::PlainSource;
pub use rest::{Rest, RestFault};
pub use sink::{Sink, write_all};
pub use source::Source;
pub use standard::{StdSink, StdSource};
