//! A source that never fails.
ghost use Rattle.std.specs.Prelude.{◌≡◌, ℕ, ◌≤◌, List, ◌++◌, length, take, drop, Some, IfOk, IsOk, min};

use crate::failed::Failed;
use crate::source::Source;
use std::marker::Model;

/// Bytes in memory that are read without fault. Contracts see the bytes left.
#[derive(Debug, Drop)]
pub struct PlainSource {
    content: Vec<u8>,
    at: usize,
}

impl Model for PlainSource {
    ghost Value = { List ℕ };

    ghost view = { λ s. drop s.at s.content.items };

    ghost invariant = { λ s. s.at ≤ length s.content.items };
}

impl PlainSource {
    /// A source of these bytes.
    pub fn new(content: Vec<u8>) -> PlainSource
        ensures { result ≡ content.items }
    {
        PlainSource { content, at: 0 }
    }

    /// Moves the next bytes to the front of `buf`, as many as are left and fit, and says how many.
    pub(crate) fn fill(&mut self, buf: &mut [u8]) -> usize
        ensures size { result ≡ min (length buf.old) (length self.old) }
        ensures moved { self.old ≡ take result buf.new ++ self.new }
    {
        let count = buf.len().min(self.content.len() - self.at);
        buf[..count].copy_from_slice(&self.content[self.at..self.at + count]);
        self.at += count;
        count
    }
}

impl Source for PlainSource {
    ghost left = { λ bytes. Some bytes };

    ghost faults = { λ _. 0 };

    fn read(&mut self, buf: &mut [u8]) -> Result<usize, Failed>
        ensures always { IsOk result }
        ensures size { IfOk result (λ n. n ≡ min (length buf.old) (length self.old)) }
        ensures ok { IfOk result (λ n. self.old ≡ take n buf.new ++ self.new) }
    {
        Ok(self.fill(buf))
    }
}
