//! A Type 2 tag.

ghost use Rattle.std.specs.Prelude.{◌≡◌, ◌<◌, ◌↔◌, length, IfOk, IsOk, Some};
ghost use Rattle.nfc_base.specs.Blocks.{block_of};
ghost use Rattle.t2t_tag.specs.declared.answer.T2Answer.TheVariants.{Refused};
ghost use Rattle.t2t_tag.specs.Spelling.{answer_frame};
ghost use Rattle.t2t_tag.specs.Store.{IsT2Store, T2Memory, IsT2Memory, IsSameTag, block_count, unlocked, locked_too};
ghost use Rattle.t2t_tag.specs.Store.{store_fault_number};
ghost use Rattle.t2t_tag.specs.Step.{four_blocks, t2_reply, t2_obeyed, t2_answer, t2_after};

use crate::answer::T2Answer;
use crate::command::T2Command;
use arrayvec::ArrayVec;
use nfc_base::{Frame, Locks};
use std::marker::Model;
use thiserror::Error;

/// How many bytes a block has.
const BLOCK: usize = 4;

/// How many bytes tell of 256 blocks whether they are locked.
const LOCK_BYTES: usize = 32;

/// The magic number of a capability container, and the largest area of a tag of one sector in eights of bytes.
const MAGIC: u8 = 0xE1;

const LARGEST: u8 = 0x7E;

/// Why some bytes are no store of a tag.
#[derive(Clone, Copy, Debug, PartialEq, Eq, Error)]
pub enum StoreFault {
    #[error("a tag has 4 to 256 whole blocks of four bytes, and those that its container names")]
    BadStore = 1,
}

impl StoreFault {
    /// Its number in reports and tests.
    pub fn number(&self) -> u8
        ensures { result ≡ store_fault_number self.now }
    {
        *self as u8
    }
}

/// A tag of one sector: 4 to 256 blocks of four bytes (NFC Forum Type 2 Tag). Which refusal it gives for which
/// condition is this project's own.
#[derive(Debug, Drop)]
pub struct T2Tag {
    store: Vec<u8>,
    locks: Locks<LOCK_BYTES>,
}

impl Model for T2Tag {
    ghost use Rattle.t2t_tag.specs.Store.{T2Memory, IsT2Memory};

    ghost Value = { T2Memory };

    ghost view = { λ t. record { store = t.store.items; locked = t.locks } };

    ghost invariant = { λ t. IsT2Memory (record { store = t.store.items; locked = t.locks }) };
}

impl T2Tag {
    /// A tag that holds these bytes, with no block locked.
    pub fn new(store: Vec<u8>) -> Result<T2Tag, StoreFault>
        ensures ok { IfOk result (λ t. t ≡ unlocked store.items) }
        ensures exact { IsOk result ↔ IsT2Store store.items }
    {
        let blocks = store.len() / BLOCK;
        if store.len() % BLOCK != 0 || blocks < 4 || blocks > 256 {
            return Err(StoreFault::BadStore);
        }
        let area = store[14];
        if store[12] == MAGIC && area <= LARGEST && blocks < 4 + 2 * area as usize {
            return Err(StoreFault::BadStore);
        }
        Ok(T2Tag {
            store,
            locks: Locks::none(),
        })
    }

    /// All bytes that it holds.
    pub fn store(&self) -> &[u8]
        ensures store { result.now ≡ self.now.store }
        ensures shape { IsT2Memory self.now }
    {
        self.store.as_slice()
    }

    /// How many blocks it has.
    pub fn blocks(&self) -> u16
        ensures { result ≡ block_count self.now.store }
    {
        (self.store.len() / BLOCK) as u16
    }

    /// Locks a block against writing, for good. It takes no memory.
    pub fn lock(&mut self, block: u16)
        requires { block < block_count self.old.store }
        ensures { self.new ≡ locked_too self.old block }
    {
        self.locks.add(block);
    }

    /// One step: it answers a command and is silent to every other frame. It takes no memory.
    pub fn obey(&mut self, request: &Frame) -> Option<Frame>
        ensures answer { result ≡ t2_answer self.old request.now }
        ensures step { self.new ≡ t2_after self.old request.now }
        // whatever the frame: a WRITE begins behind the container, so that the store stays one
        ensures same { IsSameTag self.old self.new }
        ensures stays { (m : T2Memory) → IsT2Memory m → IsT2Memory (t2_after m request.now) }
        ensures refusal { result ≡ Some (answer_frame Refused) → self.new ≡ self.old }
    {
        let answer = match T2Command::read_from(request)? {
            T2Command::Read { block } => self.read(block),
            T2Command::Write { block, content } => self.write(block, &content),
        };
        Some(answer.to_frame())
    }

    fn read(&self, block: u8) -> T2Answer
        ensures { result ≡ t2_reply self.now (T2Command.Read block) }
    {
        if block as usize >= self.store.len() / BLOCK {
            return T2Answer::Refused;
        }
        T2Answer::Content(self.four_blocks(block))
    }

    /// Four blocks from one on. Behind the last block comes the first.
    fn four_blocks(&self, block: u8) -> [u8; 16]
        ensures { result ≡ four_blocks self.now.store block }
    {
        let blocks = self.store.len() / BLOCK;
        let mut content = ArrayVec::<u8, 16>::new();
        for i in 0..4 {
            let next = (block as usize + i) % blocks;
            content.try_extend_from_slice(self.block(next)).unwrap();
        }
        content.into_inner().unwrap()
    }

    fn block(&self, block: usize) -> &[u8]
        requires { block < block_count self.now.store }
        ensures content { result.now ≡ block_of 4 self.now.store block }
        ensures size { length result.now ≡ 4 }
    {
        &self.store.split_at(BLOCK * block).1[..BLOCK]
    }

    fn write(&mut self, block: u8, content: &[u8; 4]) -> T2Answer
        ensures answer { result ≡ t2_reply self.old (T2Command.Write block content.now) }
        ensures step { self.new ≡ t2_obeyed self.old (T2Command.Write block content.now) }
    {
        if block < 4 || block as usize >= self.store.len() / BLOCK {
            return T2Answer::Refused;
        }
        if self.locks.has(block as u16) {
            return T2Answer::Refused;
        }
        let start = BLOCK * block as usize;
        self.store[start..start + BLOCK].copy_from_slice(content);
        T2Answer::Done
    }
}
