//! The program but for its environment and its two real streams.

ghost use Rattle.std.specs.Prelude.{◌≡◌, map, string_bytes, OnErr, IfOk, IfErr};
ghost use Rattle.bench_world.specs.Obeying.{Benched, new_bench};
ghost use Rattle.nfc_bench.specs.Run.{Ran, EndsWordless, sees};

use super::{run_bench, write_fault};
use bench_world::Bench;
use nfc_io::{Sink, Source};
use std::alloc::Global;

/// Why there are no words: memory was wanting for them, or one is no text.
#[derive(Clone, Copy, Debug, PartialEq, Eq)]
pub enum WordsFault {
    Memory,
    NoText,
}

/// A run on a new bench, by the words after the program's name; answers the exit status.
pub fn program<S: Source, K: Sink>(
    alloc: Global,
    words: Result<Vec<String>, WordsFault>,
    source: &mut S,
    sink: &mut K,
) -> u8
    ensures ran { IfOk words (λ ws. (b : Benched)
        × Ran (map string_bytes ws.items) (sees S.Source K.Sink source.old sink.old new_bench) (sees S.Source
        K.Sink source.new sink.new b) result) }
    ensures wordless { IfErr words (λ e. EndsWordless e (K.taken sink.old) (K.taken sink.new) (K.faults sink.old)
        (K.faults sink.new) result) }
    ensures same { OnErr words (source.new ≡ source.old) }
{
    match words {
        Ok(words) => {
            let mut bench = Bench::new(alloc);
            run_bench(alloc, &words, source, sink, &mut bench)
        }
        Err(WordsFault::Memory) => 5,
        Err(WordsFault::NoText) => {
            write_fault(sink, b"fault 6 words\n");
            6
        }
    }
}
