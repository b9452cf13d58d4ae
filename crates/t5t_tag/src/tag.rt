//! A Type 5 tag.

ghost use Rattle.std.specs.Prelude.{◌≡◌, ◌<◌, ◌≤◌, ◌+◌, ◌*◌, ◌↔◌, ◌∷◌, length, not, nat_le, IfOk, IsOk, Some};
ghost use Rattle.t5t_tag.specs.Spelling.{inventory_code};
ghost use Rattle.t5t_tag.specs.Store.{IsT5Store, IsT5State, block_count, fresh, darkened, resumed, locked_too};
ghost use Rattle.t5t_tag.specs.Store.{store_fault_number};
ghost use Rattle.t5t_tag.specs.Step.{blocks_of, read_turn, read_many_turn, write_turn, obeyed, addressed, plain};
ghost use Rattle.t5t_tag.specs.Step.{inventory, in_slot, slots, bytes_turn, t5_answer, t5_after};
ghost use Rattle.t5t_tag.specs.declared.answer.T5Answer.TheVariants.{Content};

use crate::answer::T5Answer;
use crate::command::{
    ADDRESSED, INVENTORY, ONE_SLOT, PLAIN, QUIET, READ, READ_MANY, READ_WIDE, SIXTEEN_SLOTS, WRITE,
    WRITE_WIDE,
};
use crate::identifier::{MOST_SLOT_BITS, asks_for, turned};
use crate::round::{Round, slot_of};
use arrayvec::ArrayVec;
use nfc_base::{Frame, Locks, Tech};
use std::marker::Model;
use thiserror::Error;

/// The error codes, this project's own: of a command that isn't supported or has another length.
const NOT_SUPPORTED: u8 = 0x0F;

/// Of a block that isn't there.
pub const NO_BLOCK: u8 = 0x10;

/// Of a locked block.
const LOCKED: u8 = 0x12;

/// How many bytes a store has at most.
const MOST_STORED: usize = 65536;

/// How many bytes an answer brings at most.
const MOST_CONTENT: usize = 256;

/// How many bytes tell of 16,384 blocks whether they are locked.
const LOCK_BYTES: usize = 2048;

/// Why some bytes are no store of a tag.
#[derive(Clone, Copy, Debug, PartialEq, Eq, Error)]
pub enum StoreFault {
    #[error("a tag has whole blocks of 4, 8, 16 or 32 bytes, at least one and at most 65536 bytes")]
    BadStore = 1,
}

impl StoreFault {
    /// Its number in reports and tests.
    pub fn number(&self) -> u8
        ensures { result ≡ store_fault_number self.now }
    {
        *self as u8
    }
}

/// A tag of blocks of one size, of at most 65,536 bytes (NFC Forum Type 5 Tag; ISO/IEC 15693-3). Which error it tells
/// for which condition is this project's own.
#[derive(Debug, Drop)]
pub struct T5Tag {
    id: [u8; 8],
    block: u8,
    store: Vec<u8>,
    locks: Locks<LOCK_BYTES>,
    quiet: bool,
    round: Option<Round>,
}

impl Model for T5Tag {
    ghost use Rattle.t5t_tag.specs.Store.{T5State, IsT5State};

    ghost Value = { T5State };

    ghost view = { λ t. record {
      id = t.id;
      size = t.block;
      store = t.store.items;
      locked = t.locks;
      quiet = t.quiet;
      round = t.round;
    } };

    ghost invariant = { λ t. IsT5State
        (record { id = t.id; size = t.block; store = t.store.items; locked = t.locks; quiet = t.quiet; round = t.round }) };
}

impl T5Tag {
    /// A tag with this identifier, high byte first, that holds these bytes in blocks of this size, with no block
    /// locked.
    pub fn new(id: [u8; 8], store: Vec<u8>, block: u8) -> Result<T5Tag, StoreFault>
        ensures ok { IfOk result (λ t. t ≡ fresh id block store.items) }
        ensures exact { IsOk result ↔ IsT5Store block store.items }
    {
        if !matches!(block, 4 | 8 | 16 | 32) {
            return Err(StoreFault::BadStore);
        }
        if store.is_empty() || store.len() % block as usize != 0 || store.len() > MOST_STORED {
            return Err(StoreFault::BadStore);
        }
        Ok(T5Tag {
            id,
            block,
            store,
            locks: Locks::none(),
            quiet: false,
            round: None,
        })
    }

    /// Its identifier, high byte first.
    pub fn id(&self) -> [u8; 8]
        ensures { result ≡ self.now.id }
    {
        self.id
    }

    /// All bytes that it holds.
    pub fn store(&self) -> &[u8]
        ensures store { result.now ≡ self.now.store }
        ensures shape { IsT5State self.now }
    {
        self.store.as_slice()
    }

    /// How many blocks it has.
    pub fn blocks(&self) -> u16
        ensures { result ≡ block_count self.now }
    {
        (self.store.len() / self.block as usize) as u16
    }

    /// Locks a block against writing, for good. It takes no memory.
    pub fn lock(&mut self, block: u16)
        requires { block < block_count self.old }
        ensures { self.new ≡ locked_too self.old block }
    {
        self.locks.add(block);
    }

    /// The field is gone, and with it the quiet state and the round.
    pub fn dark(&mut self)
        ensures { self.new ≡ darkened self.old }
    {
        self.quiet = false;
        self.round = None;
    }

    /// Whether it was told to stay quiet.
    pub fn is_quiet(&self) -> bool
        ensures { result ≡ self.now.quiet }
    {
        self.quiet
    }

    /// The round of sixteen slots in which it is, if it is in one.
    pub fn round(&self) -> Option<Round>
        ensures { result ≡ self.now.round }
    {
        self.round
    }

    /// It stands where it stood between two frames, for an owner that keeps a tag as numbers and bytes.
    pub fn resume(&mut self, quiet: bool, round: Option<Round>)
        ensures { self.new ≡ resumed self.old quiet round }
    {
        self.quiet = quiet;
        self.round = round;
    }

    /// One step: it obeys what is said to it, and is silent to every other frame. It takes no memory.
    pub fn obey(&mut self, request: &Frame) -> Option<Frame>
        ensures answer { result ≡ t5_answer self.old request.now }
        ensures step { self.new ≡ t5_after self.old request.now }
    {
        if request.tech() != Tech::V || request.tail() != 0 {
            return None;
        }
        let answer = self.hear(request.view())?;
        Some(answer.to_frame())
    }

    /// The step on the bytes of a whole NFC-V frame.
    fn hear(&mut self, bytes: &[u8]) -> Option<T5Answer>
        ensures answer { result ≡ (bytes_turn self.old bytes.now).answer }
        ensures step { self.new ≡ (bytes_turn self.old bytes.now).after }
    {
        let round = self.round;
        self.round = None;
        match bytes {
            [] => self.enter(round?.next()),
            [ADDRESSED, code, rest @ ..] => self.hear_addressed(*code, rest),
            [PLAIN, rest @ ..] => self.hear_plain(rest),
            [ONE_SLOT, INVENTORY, bits, mask @ ..] => self.hear_inventory(*bits, mask),
            [SIXTEEN_SLOTS, INVENTORY, bits, mask @ ..] => self.hear_slots(*bits, mask),
            _ => None,
        }
    }

    /// The tag is in this round now, or in none, and answers in its own slot.
    fn enter(&mut self, round: Option<Round>) -> Option<T5Answer>
        ensures answer { result ≡ (in_slot self.old round).answer }
        ensures step { self.new ≡ (in_slot self.old round).after }
    {
        self.round = round;
        if !round?.is_own() {
            return None;
        }
        Some(T5Answer::Present { id: self.id })
    }

    fn hear_slots(&mut self, bits: u8, mask: &[u8]) -> Option<T5Answer>
        ensures answer { result ≡ (slots self.old (inventory_code ∷ bits ∷ mask.now)).answer }
        ensures step { self.new ≡ (slots self.old (inventory_code ∷ bits ∷ mask.now)).after }
    {
        if self.quiet || bits > MOST_SLOT_BITS || !asks_for(self.id, bits, mask) {
            return None;
        }
        self.enter(Some(Round::begin(slot_of(self.id, bits))))
    }

    fn hear_inventory(&self, bits: u8, mask: &[u8]) -> Option<T5Answer>
        ensures { result ≡ (inventory self.now (inventory_code ∷ bits ∷ mask.now)).answer }
    {
        if self.quiet || !asks_for(self.id, bits, mask) {
            return None;
        }
        Some(T5Answer::Present { id: self.id })
    }

    fn hear_addressed(&mut self, code: u8, rest: &[u8]) -> Option<T5Answer>
        ensures answer { result ≡ (addressed self.old (code ∷ rest.now)).answer }
        ensures step { self.new ≡ (addressed self.old (code ∷ rest.now)).after }
    {
        let behind = rest.strip_prefix(&turned(self.id))?;
        if code == QUIET && behind.is_empty() {
            self.quiet = true;
            return None;
        }
        Some(self.obey_command(code, behind))
    }

    fn hear_plain(&mut self, rest: &[u8]) -> Option<T5Answer>
        ensures answer { result ≡ (plain self.old rest.now).answer }
        ensures step { self.new ≡ (plain self.old rest.now).after }
    {
        if self.quiet {
            return None;
        }
        match rest {
            [code, rest @ ..] => Some(self.obey_command(*code, rest)),
            [] => Some(T5Answer::Error(NOT_SUPPORTED)),
        }
    }

    fn obey_command(&mut self, code: u8, rest: &[u8]) -> T5Answer
        ensures answer { Some result ≡ (obeyed self.old code rest.now).answer }
        ensures step { self.new ≡ (obeyed self.old code rest.now).after }
    {
        match (code, rest) {
            (WRITE, [block, content @ ..]) => self.write(*block as u16, content),
            (READ, [block]) => self.read(*block as u16),
            (WRITE_WIDE, [low, high, content @ ..]) => self.write(
                u16::from_le_bytes([*low, *high]),
                content,
            ),
            (READ_MANY, [first, more]) => self.read_many(*first, *more),
            (READ_WIDE, [low, high]) => self.read(u16::from_le_bytes([*low, *high])),
            _ => T5Answer::Error(NOT_SUPPORTED),
        }
    }

    fn has(&self, block: u16) -> bool
        ensures { result ≡ not (nat_le (block_count self.now) block) }
    {
        (block as usize) < self.store.len() / self.block as usize
    }

    fn read(&self, block: u16) -> T5Answer
        ensures { Some result ≡ (read_turn self.now block).answer }
    {
        if !self.has(block) {
            return T5Answer::Error(NO_BLOCK);
        }
        let size = self.block as usize;
        let start = size * block as usize;
        let mut content = ArrayVec::new();
        content
            .try_extend_from_slice(&self.store[start..start + size])
            .unwrap();
        T5Answer::Content(content)
    }

    fn read_many(&self, first: u8, more: u8) -> T5Answer
        ensures { Some result ≡ (read_many_turn self.now first more).answer }
    {
        let last = first as u16 + more as u16;
        if !self.has(last) {
            return T5Answer::Error(NO_BLOCK);
        }
        let count = more as usize + 1;
        if self.block as usize * count > MOST_CONTENT {
            return T5Answer::Error(NOT_SUPPORTED);
        }
        self.content(first as u16, count)
    }

    /// So many blocks from one on.
    fn content(&self, first: u16, count: usize) -> T5Answer
        requires there { first + count ≤ block_count self.now }
        requires fits { self.now.size * count ≤ 256 }
        ensures { result ≡ Content (record { items = blocks_of self.now.size self.now.store first count }) }
    {
        let size = self.block as usize;
        let start = size * first as usize;
        let mut content = ArrayVec::new();
        content
            .try_extend_from_slice(&self.store[start..start + size * count])
            .unwrap();
        T5Answer::Content(content)
    }

    fn write(&mut self, block: u16, content: &[u8]) -> T5Answer
        ensures answer { Some result ≡ (write_turn self.old block content.now).answer }
        ensures step { self.new ≡ (write_turn self.old block content.now).after }
    {
        if !self.has(block) {
            return T5Answer::Error(NO_BLOCK);
        }
        let size = self.block as usize;
        if content.len() != size {
            return T5Answer::Error(NOT_SUPPORTED);
        }
        if self.locks.has(block) {
            return T5Answer::Error(LOCKED);
        }
        let start = size * block as usize;
        self.store[start..start + size].copy_from_slice(content);
        T5Answer::Content(ArrayVec::new())
    }
}
