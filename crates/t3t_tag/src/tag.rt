//! A Type 3 tag.

ghost use Rattle.std.specs.Prelude.{◌≡◌, ◌<◌, ◌≤◌, ◌↔◌, ◌*◌, length, nat_lt, IfOk, IfSome, IsNone, IsOk, Some, true};
ghost use Rattle.t3t_tag.specs.Spelling.{T3AnswerSpelling};
ghost use Rattle.t3t_tag.specs.declared.answer.T3Answer.{T3Answer};
ghost use Rattle.t3t_tag.specs.Store.{IsT3Store, IsT3State, IsSameTag, block_count, unlocked, locked_too};
ghost use Rattle.t3t_tag.specs.Store.{store_fault_number};
ghost use Rattle.t3t_tag.specs.Step.{are_there, content_of, poll_turn, checked_answer, check_answer, update_turn};
ghost use Rattle.t3t_tag.specs.Step.{written_turn, request_turn, bytes_turn, t3_turn, t3_answer, t3_after};
ghost use Rattle.t3t_tag.specs.Step.{IsForAnother, SpoilsStore};

use crate::answer::T3Answer;
use crate::attributes::{is_summed, message_blocks};
use crate::command::{CHECK, ELEMENT, POLL, READ_SERVICE, UPDATE, WRITE_SERVICE, blocks_asked};
use arrayvec::ArrayVec;
use nfc_base::{Frame, Locks, Tech};
use std::marker::Model;
use thiserror::Error;

/// The statuses, this project's own: of a service or of elements that the tag doesn't take.
const NOT_TAKEN: u16 = 0xFF01;

/// Of a block that isn't there.
const NO_BLOCK: u16 = 0xFF02;

/// Of a locked block.
const LOCKED: u16 = 0xFF03;

/// What polls the tag: the system code of the NFC Forum, or that of all tags, with two zeros behind.
const NDEF_POLL: [u8; 4] = [0x12, 0xFC, 0, 0];

const ANY_POLL: [u8; 4] = [0xFF, 0xFF, 0, 0];

/// How many bytes a block has.
const BLOCK: usize = 16;

/// How many blocks a tag has at most, and its attribute block can name for a message.
const MOST_BLOCKS: usize = 256;

const MOST_MESSAGE_BLOCKS: u16 = 255;

/// How many bytes tell of 256 blocks whether they are locked.
const LOCK_BYTES: usize = 32;

/// Why some bytes are no store of a tag.
#[derive(Clone, Copy, Debug, PartialEq, Eq, Error)]
pub enum StoreFault {
    #[error("a tag has 1 to 256 whole blocks of 16 bytes, and those that its attribute block names")]
    BadStore = 1,
}

impl StoreFault {
    /// Its number in reports and tests.
    pub fn number(&self) -> u8
        ensures { result ≡ store_fault_number self.now }
    {
        *self as u8
    }
}

/// A tag of 1 to 256 blocks of sixteen bytes (NFC Forum Type 3 Tag). Which status it tells for which condition is this
/// project's own.
#[derive(Debug, Drop)]
pub struct T3Tag {
    id: [u8; 8],
    store: Vec<u8>,
    locks: Locks<LOCK_BYTES>,
}

impl Model for T3Tag {
    ghost use Rattle.t3t_tag.specs.declared.answer.T3Answer.{T3Answer};
    ghost use Rattle.t3t_tag.specs.Store.{T3State, IsT3State};

    ghost Value = { T3State };

    ghost view = { λ t. record { id = t.id; store = t.store.items; locked = t.locks } };

    ghost invariant = { λ t. IsT3State (record { id = t.id; store = t.store.items; locked = t.locks }) };
}

impl T3Tag {
    /// A tag with this identifier that holds these bytes, with no block locked.
    pub fn new(id: [u8; 8], store: Vec<u8>) -> Result<T3Tag, StoreFault>
        ensures ok { IfOk result (λ t. t ≡ unlocked id store.items) }
        ensures exact { IsOk result ↔ IsT3Store store.items }
    {
        let blocks = store.len() / BLOCK;
        if store.len() % BLOCK != 0 || blocks < 1 || blocks > MOST_BLOCKS {
            return Err(StoreFault::BadStore);
        }
        let attributes = &store[..BLOCK];
        let named = message_blocks(attributes);
        if is_summed(attributes) && named <= MOST_MESSAGE_BLOCKS && named as usize >= blocks {
            return Err(StoreFault::BadStore);
        }
        Ok(T3Tag {
            id,
            store,
            locks: Locks::none(),
        })
    }

    pub fn id(&self) -> [u8; 8]
        ensures { result ≡ self.now.id }
    {
        self.id
    }

    /// All bytes that it holds.
    pub fn store(&self) -> &[u8]
        ensures store { result.now ≡ self.now.store }
        ensures shape { IsT3State self.now }
    {
        self.store.as_slice()
    }

    /// How many blocks it has.
    pub fn blocks(&self) -> u16
        ensures { result ≡ block_count self.now.store }
    {
        (self.store.len() / BLOCK) as u16
    }

    /// Locks a block against writing, for good. It takes no memory.
    pub fn lock(&mut self, block: u16)
        requires { block < block_count self.old.store }
        ensures { self.new ≡ locked_too self.old block }
    {
        self.locks.add(block);
    }

    /// One step: it answers what is said to it, and is silent to every other frame. It takes no memory.
    pub fn obey(&mut self, request: &Frame) -> Option<Frame>
        ensures answer { result ≡ t3_answer self.old request.now }
        ensures step { self.new ≡ t3_after self.old request.now }
        ensures range { IfSome result (λ f. (a : T3Answer) × T3AnswerSpelling a f) }
        ensures same { IsSameTag self.old self.new }
        ensures other { IsForAnother self.old request.now → IsNone result × (self.new ≡ self.old) }
        // the same frame once more: the same answer, and nothing changes any more
        ensures again { t3_turn self.new request.now ≡ t3_turn self.old request.now }
        // one Update of block 0 leaves a store that no new tag has, and nothing else does
        ensures store { IsT3Store self.old.store → (¬ IsT3Store self.new.store ↔ SpoilsStore self.old request.now) }
    {
        // the laws above are of a tag that can be, as its store says, and of a frame that can be
        let _store = self.store();
        let _bytes = request.view();
        self.hear_frame(request)
    }

    /// The step on a frame.
    fn hear_frame(&mut self, request: &Frame) -> Option<Frame>
        ensures answer { result ≡ t3_answer self.old request.now }
        ensures step { self.new ≡ t3_after self.old request.now }
    {
        if request.tech() != Tech::F || request.tail() != 0 {
            return None;
        }
        let answer = self.hear_bytes(request.view())?;
        Some(answer.to_frame())
    }

    /// The step on the bytes of a whole NFC-F frame, by their length.
    fn hear_bytes(&mut self, bytes: &[u8]) -> Option<T3Answer>
        ensures answer { result ≡ (bytes_turn self.old bytes.now).answer }
        ensures step { self.new ≡ (bytes_turn self.old bytes.now).after }
    {
        let (size, said) = bytes.split_first()?;
        if *size as usize != bytes.len() {
            return None;
        }
        self.hear(said)
    }

    /// The step on what stands behind the length.
    fn hear(&mut self, said: &[u8]) -> Option<T3Answer>
        ensures answer { result ≡ (request_turn self.old said.now).answer }
        ensures step { self.new ≡ (request_turn self.old said.now).after }
    {
        let id = self.id;
        match said {
            [POLL, rest @ ..] => self.hear_poll(rest),
            [CHECK, rest @ ..] => self.hear_check(rest.strip_prefix(&id)?),
            [UPDATE, rest @ ..] => self.hear_update(rest.strip_prefix(&id)?),
            _ => None,
        }
    }

    /// A poll, behind its code.
    fn hear_poll(&self, rest: &[u8]) -> Option<T3Answer>
        ensures { result ≡ (poll_turn self.now rest.now).answer }
    {
        if rest == NDEF_POLL.as_slice() || rest == ANY_POLL.as_slice() {
            return Some(T3Answer::Polled { id: self.id });
        }
        None
    }

    /// A Check, behind the identifier.
    fn hear_check(&self, behind: &[u8]) -> Option<T3Answer>
        ensures { result ≡ check_answer self.now behind.now }
    {
        match behind {
            [1, high, low, count, elements @ ..] => {
                if elements.len() != 2 * *count as usize {
                    return None;
                }
                let service = u16::from_be_bytes([*high, *low]);
                Some(self.check(service, *count, elements))
            }
            _ => None,
        }
    }

    fn check(&self, service: u16, count: u8, elements: &[u8]) -> T3Answer
        requires { length elements.now ≡ 2 * count }
        ensures { result ≡ checked_answer self.now service count elements.now }
    {
        let id = self.id;
        if service != READ_SERVICE && service != WRITE_SERVICE {
            return T3Answer::CheckRefused {
                id,
                status: NOT_TAKEN,
            };
        }
        let Some(blocks) = blocks_asked(count, elements) else {
            return T3Answer::CheckRefused {
                id,
                status: NOT_TAKEN,
            };
        };
        if !self.has_all(&blocks) {
            return T3Answer::CheckRefused {
                id,
                status: NO_BLOCK,
            };
        }
        T3Answer::Content {
            id,
            content: self.content(&blocks),
        }
    }

    fn has(&self, block: u8) -> bool
        ensures { result ≡ nat_lt block (block_count self.now.store) }
    {
        (block as usize) < self.store.len() / BLOCK
    }

    fn has_all(&self, blocks: &[u8]) -> bool
        ensures { result ≡ are_there (block_count self.now.store) blocks.now }
    {
        for block in blocks {
            if !self.has(*block) {
                return false;
            }
        }
        true
    }

    /// The content of some blocks, one after the other.
    fn content(&self, blocks: &[u8]) -> ArrayVec<u8, 240>
        requires there { are_there (block_count self.now.store) blocks.now ≡ true }
        requires few { length blocks.now ≤ 15 }
        ensures { result.items ≡ content_of self.now.store blocks.now }
    {
        let mut content = ArrayVec::new();
        for block in blocks {
            let start = BLOCK * *block as usize;
            content
                .try_extend_from_slice(&self.store[start..start + BLOCK])
                .unwrap();
        }
        content
    }

    /// An Update, behind the identifier.
    fn hear_update(&mut self, behind: &[u8]) -> Option<T3Answer>
        ensures answer { result ≡ (update_turn self.old behind.now).answer }
        ensures step { self.new ≡ (update_turn self.old behind.now).after }
    {
        match behind {
            [1, high, low, 1, ELEMENT, block, content @ ..] => {
                if content.len() != BLOCK {
                    return None;
                }
                let service = u16::from_be_bytes([*high, *low]);
                Some(self.update(service, *block, content))
            }
            _ => None,
        }
    }

    fn update(&mut self, service: u16, block: u8, content: &[u8]) -> T3Answer
        requires { length content.now ≡ 16 }
        ensures answer { Some result ≡ (written_turn self.old service block content.now).answer }
        ensures step { self.new ≡ (written_turn self.old service block content.now).after }
    {
        let id = self.id;
        if service != WRITE_SERVICE {
            return T3Answer::UpdateRefused {
                id,
                status: NOT_TAKEN,
            };
        }
        if !self.has(block) {
            return T3Answer::UpdateRefused {
                id,
                status: NO_BLOCK,
            };
        }
        if self.locks.has(block as u16) {
            return T3Answer::UpdateRefused { id, status: LOCKED };
        }
        let start = BLOCK * block as usize;
        self.store[start..start + BLOCK].copy_from_slice(content);
        T3Answer::Done { id }
    }
}
