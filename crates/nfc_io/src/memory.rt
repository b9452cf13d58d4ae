//! A source and a sink in memory, whose calls fail as planned.
ghost use Rattle.std.specs.Prelude.{◌≡◌, ◌+◌, ◌<◌, ◌≤◌, ◌↔◌, ◌⊎◌, [], ◌++◌, length, take, Some, IsErr, OnOk, OnErr};
ghost use Rattle.std.specs.Prelude.{IfOk, min};

use crate::failed::Failed;
use crate::plain::PlainSource;
use crate::plan::FaultPlan;
use crate::sink::Sink;
use crate::source::Source;
use std::alloc::{AllocError, Global};
use std::marker::Model;

/// Bytes in memory. The reads of the planned numbers fail; each other read fills the buffer as far as bytes are left.
#[derive(Debug, Drop)]
pub struct MemSource {
    bytes: PlainSource,
    plan: FaultPlan,
}

impl Model for MemSource {
    ghost use Rattle.nfc_io.specs.Memory.{SourceInMemory};

    ghost Value = { SourceInMemory };

    ghost view = { λ s. record { left = s.bytes; plan = s.plan } };
}

impl MemSource {
    ghost use Rattle.nfc_io.specs.Memory.{new_plan};

    /// A source of these bytes, whose reads of these numbers fail, counted from 1.
    pub fn new(content: Vec<u8>, failing: Vec<u32>) -> MemSource
        ensures { result ≡ record { left = content.items; plan = new_plan failing.items } }
    {
        MemSource {
            bytes: PlainSource::new(content),
            plan: FaultPlan::new(failing),
        }
    }
}

impl Source for MemSource {
    ghost use Rattle.nfc_io.specs.Memory.{FailsNext, after_call, after_fault};

    ghost left = { λ s. Some s.left };

    ghost faults = { λ s. s.plan.faults };

    fn read(&mut self, buf: &mut [u8]) -> Result<usize, Failed>
        ensures cause { IsErr result ↔ FailsNext self.old.plan }
        ensures size { IfOk result (λ n. n ≡ min (length buf.old) (length self.old.left)) }
        ensures ok { IfOk result (λ n. self.old.left ≡ take n buf.new ++ self.new.left) }
        ensures step { OnOk result (self.new.plan ≡ after_call self.old.plan) }
        ensures err { OnErr result (self.new ≡ record self.old { plan = after_fault self.old.plan }) }
        ensures untouched { OnErr result (buf.new ≡ buf.old) }
        ensures count { self.old.plan.faults ≤ self.new.plan.faults }
    {
        if self.plan.call() {
            return Err(self.plan.fail());
        }
        Ok(self.bytes.fill(buf))
    }
}

/// Takes bytes into memory that it has from the start. The writes of the planned numbers fail, and so does each write
/// whose bytes don't all fit below the limit; each other write takes all its bytes.
#[derive(Debug, Drop)]
pub struct MemSink {
    content: Vec<u8>,
    limit: usize,
    plan: FaultPlan,
}

impl Model for MemSink {
    ghost use Rattle.std.specs.Prelude.{◌≤◌, length, vec_capacity};
    ghost use Rattle.nfc_io.specs.Memory.{SinkInMemory};

    ghost Value = { SinkInMemory };

    ghost view = { λ s. record { taken = s.content.items; limit = s.limit; plan = s.plan } };

    ghost invariant = { λ s. (length s.content.items ≤ s.limit) × (s.limit ≤ vec_capacity s.content) };
}

impl MemSink {
    ghost use Rattle.nfc_io.specs.Memory.{new_plan};

    /// An empty sink for at most `limit` bytes, whose writes of these numbers fail, counted from 1.
    pub fn new(alloc: Global, limit: usize, failing: Vec<u32>) -> Result<MemSink, AllocError>
        ensures { IfOk result (λ s. s ≡ record { taken = []; limit = limit; plan = new_plan failing.items }) }
    {
        let content = Vec::with_capacity(alloc, limit)?;
        Ok(MemSink {
            content,
            limit,
            plan: FaultPlan::new(failing),
        })
    }

    /// The bytes that it took.
    pub fn content(&self) -> &[u8]
        ensures { result.now ≡ self.now.taken }
    {
        &self.content
    }
}

impl Sink for MemSink {
    ghost use Rattle.nfc_io.specs.Memory.{FailsNext, after_call, after_fault};

    ghost taken = { λ s. Some s.taken };

    ghost faults = { λ s. s.plan.faults };

    fn write(&mut self, bytes: &[u8]) -> Result<usize, Failed>
        ensures cause { IsErr result
            ↔ (FailsNext self.old.plan ⊎ (self.old.limit < length self.old.taken + length bytes.now)) }
        ensures size { IfOk result (λ n. n ≡ length bytes.now) }
        ensures step { OnOk result (self.new
            ≡ record self.old { taken = self.old.taken ++ bytes.now; plan = after_call self.old.plan }) }
        ensures err { OnErr result (self.new ≡ record self.old { plan = after_fault self.old.plan }) }
        ensures count { self.old.plan.faults ≤ self.new.plan.faults }
    {
        if self.plan.call() || bytes.len() > self.limit - self.content.len() {
            return Err(self.plan.fail());
        }
        self.content.extend_from_slice(bytes).unwrap();
        Ok(bytes.len())
    }
}
