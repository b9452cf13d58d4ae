//! What a reading of a Type 5 tag knows of it.

ghost use Rattle.std.specs.Prelude.{◌≡◌, ℕ, ◌<◌, ◌≤◌, ◌++◌, List, [], length, false, true, ◌==◌, if◌then◌else◌, OnOk};
ghost use Rattle.std.specs.Prelude.{OnErr};

use std::alloc::{AllocError, Global};

/// How many bytes each block has, 0 before the first one is known; whether the tag refused to give several blocks at
/// once; and the bytes that are known, which are whole blocks from the first on.
#[derive(Drop)]
pub struct Known {
    pub size: usize,
    pub single: bool,
    pub bytes: Vec<u8>,
}

impl Known {
    /// Nothing is known yet.
    pub fn new(alloc: Global) -> Known
        ensures size { result.size ≡ 0 }
        ensures single { result.single ≡ false }
        ensures bytes { result.bytes.items ≡ [] }
    {
        Known {
            size: 0,
            single: false,
            bytes: Vec::new(alloc),
        }
    }

    /// Adds the content of blocks. The first one tells how long each is.
    pub fn learn(&mut self, content: &[u8]) -> Result<(), AllocError>
        ensures size { OnOk result (self.new.size ≡
            (if self.old.size == 0 then length content.now else self.old.size)) }
        ensures single { OnOk result (self.new.single ≡ self.old.single) }
        ensures bytes { OnOk result (self.new.bytes.items ≡ self.old.bytes.items ++ content.now) }
    {
        self.bytes.extend_from_slice(content)?;
        if self.size == 0 {
            self.size = content.len();
        }
        Ok(())
    }
}
