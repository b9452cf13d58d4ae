//! A Type 4 tag.

ghost use Rattle.std.specs.Prelude.{◌≡◌, ◌≢◌, ◌+◌, ◌<◌, ◌≤◌, ◌↔◌, length, IfOk, IsOk, MatchOption};
ghost use Rattle.t4t_tag.specs.Store.{T4State, IsT4Store, IsT4State, IsSameTag, least_container, file_size, fresh};
ghost use Rattle.t4t_tag.specs.Store.{darkened, resumed, store_fault_number};
ghost use Rattle.nfc_base.specs.Words.{word};
ghost use Rattle.t4t_tag.specs.Step.{done, select_application, select_file, select_known, select_turn, read_bytes};
ghost use Rattle.t4t_tag.specs.Step.{read_file, read_turn, update_file, update_turn, t4_answer, t4_after};
ghost use Rattle.t4t_tag.specs.declared.current.CurrentFile.{CurrentFile};

use crate::command::{APPLICATION, CLASS, READ_BINARY, SELECT, UPDATE_BINARY};
use crate::current::CurrentFile;
use arrayvec::ArrayVec;
use std::marker::Model;
use thiserror::Error;

/// How many bytes a capability container has at least and at most.
const LEAST_CONTAINER: usize = 15;

const MOST_CONTAINER: usize = 64;

/// The largest code of a length of frames (ISO/IEC 14443-4).
pub const MOST_CODE: u8 = 8;

/// The largest NDEF file.
const MOST_FILE: u16 = 0x7FFF;

/// The identifier of the capability container file.
pub const CONTAINER_ID: u16 = 0xE103;

/// Where the container says how many bytes one read and one update may carry, which file it names and how long that is,
/// and who may read and write it.
const MOST_READ: usize = 3;

const MOST_WRITTEN: usize = 5;

const FILE_ID: usize = 9;

const FILE_SIZE: usize = 11;

const READ_ACCESS: usize = 13;

const WRITE_ACCESS: usize = 14;

/// Access for everyone.
const EVERYONE: u8 = 0x00;

/// The first offset that isn't allowed: its highest bit would name a file.
const OFFSET_END: usize = 0x8000;

/// How many bytes of an NDEF file are NLEN, which says how long the message is that stands behind them.
pub const NLEN_SIZE: u16 = 2;

/// The status bytes that end the answer to a command that was obeyed (ISO/IEC 7816-4), and to one that wasn't.
pub const DONE: [u8; 2] = [0x90, 0x00];

const WRONG_LENGTH: [u8; 2] = [0x67, 0x00];

const NOT_ALLOWED: [u8; 2] = [0x69, 0x82];

const NOT_FOUND: [u8; 2] = [0x6A, 0x82];

const WRONG_PARAMETERS: [u8; 2] = [0x6B, 0x00];

const WRONG_INSTRUCTION: [u8; 2] = [0x6D, 0x00];

const WRONG_CLASS: [u8; 2] = [0x6E, 0x00];

/// Why a code and two files make no tag.
#[derive(Clone, Copy, Debug, PartialEq, Eq, Error)]
pub enum StoreFault {
    #[error("a tag has a code of 0 to 8, a container of 15 to 64 bytes and the whole file that it names")]
    BadStore = 1,
}

impl StoreFault {
    /// Its number in reports and tests.
    pub fn number(&self) -> u8
        ensures { result ≡ store_fault_number self.now }
    {
        *self as u8
    }
}

/// A tag with a capability container and one NDEF file (NFC Forum Type 4 Tag). Which status it answers for which
/// condition is this project's own.
#[derive(Debug, Drop)]
pub struct T4Tag {
    code: u8,
    container: Vec<u8>,
    file: Vec<u8>,
    selected: bool,
    current: CurrentFile,
}

impl Model for T4Tag {
    ghost use Rattle.t4t_tag.specs.Store.{T4State, IsT4Store};

    ghost Value = { T4State };

    ghost view = { λ t. record {
      code = t.code;
      container = t.container.items;
      file = t.file.items;
      selected = t.selected;
      current = t.current;
    } };

    ghost invariant = { λ t. IsT4Store t.code t.container.items t.file.items };
}

impl T4Tag {
    /// A tag that takes frames of the length of this code (FSCI, ISO/IEC 14443-4) and holds these two files. No
    /// application is selected.
    pub fn new(code: u8, container: Vec<u8>, file: Vec<u8>) -> Result<T4Tag, StoreFault>
        ensures ok { IfOk result (λ t. t ≡ fresh code container.items file.items) }
        ensures exact { IsOk result ↔ IsT4Store code container.items file.items }
    {
        let length = container.len();
        if code > MOST_CODE || length < LEAST_CONTAINER || length > MOST_CONTAINER {
            return Err(StoreFault::BadStore);
        }
        let id = word_at(&container, FILE_ID);
        let size = word_at(&container, FILE_SIZE);
        if id == CONTAINER_ID || size > MOST_FILE || file.len() != size as usize {
            return Err(StoreFault::BadStore);
        }
        Ok(T4Tag {
            code,
            container,
            file,
            selected: false,
            current: CurrentFile::NoFile,
        })
    }

    /// The code of the longest frame that it takes.
    pub fn code(&self) -> u8
        ensures code { result ≡ self.now.code }
        ensures small { result ≤ 8 }
    {
        self.code
    }

    /// The bytes of its capability container file.
    pub fn container(&self) -> &[u8]
        ensures container { result.now ≡ self.now.container }
        ensures shape { IsT4State self.now }
    {
        self.container.as_slice()
    }

    /// The bytes of its NDEF file.
    pub fn file(&self) -> &[u8]
        ensures file { result.now ≡ self.now.file }
        ensures shape { IsT4State self.now }
    {
        self.file.as_slice()
    }

    /// The field is gone, and with it the selected application and the current file.
    pub fn dark(&mut self)
        ensures { self.new ≡ darkened self.old }
    {
        self.selected = false;
        self.current = CurrentFile::NoFile;
    }

    /// Whether its application is selected.
    pub fn is_selected(&self) -> bool
        ensures { result ≡ self.now.selected }
    {
        self.selected
    }

    /// The file that it has open.
    pub fn current(&self) -> CurrentFile
        ensures { result ≡ self.now.current }
    {
        self.current
    }

    /// It stands where it stood between two commands, for an owner that keeps a tag as numbers and bytes.
    pub fn resume(&mut self, selected: bool, current: CurrentFile)
        ensures { self.new ≡ resumed self.old selected current }
    {
        self.selected = selected;
        self.current = current;
    }

    /// One step: it obeys a command or refuses it, and answers with two status bytes at the end. It takes no memory.
    pub fn obey(&mut self, command: &[u8]) -> ArrayVec<u8, 258>
        ensures answer { result.items ≡ t4_answer self.old command.now }
        ensures step { self.new ≡ t4_after self.old command.now }
        ensures least { 2 ≤ length result.items }
        ensures most { length result.items ≤ 258 }
        ensures same { IsSameTag self.old self.new }
        // Only the bare status 9000h tells of a change.
        ensures refusal { result.items ≢ done → self.new ≡ self.old }
        ensures closed { self.old.current ≢ CurrentFile.Ndef → self.new.file ≡ self.old.file }
    {
        self.step(command)
    }

    fn step(&mut self, command: &[u8]) -> ArrayVec<u8, 258>
        ensures answer { result.items ≡ t4_answer self.old command.now }
        ensures step { self.new ≡ t4_after self.old command.now }
    {
        let [class, instruction, p1, p2, rest @ ..] = command else {
            return status(WRONG_LENGTH);
        };
        if *class != CLASS {
            return status(WRONG_CLASS);
        }
        let offset = *p1 as usize * 256 + *p2 as usize;
        match *instruction {
            SELECT => self.select(*p1, *p2, rest),
            READ_BINARY => self.read(offset, rest),
            UPDATE_BINARY => self.update(offset, rest),
            _ => status(WRONG_INSTRUCTION),
        }
    }

    fn select(&mut self, p1: u8, p2: u8, rest: &[u8]) -> ArrayVec<u8, 258>
        ensures answer { result.items ≡ (select_turn self.old p1 p2 rest.now).answer }
        ensures step { self.new ≡ (select_turn self.old p1 p2 rest.now).after }
    {
        let [count, behind @ ..] = rest else {
            return status(WRONG_LENGTH);
        };
        let size = *count as usize;
        if size == 0 || behind.len() < size || behind.len() > size + 1 {
            return status(WRONG_LENGTH);
        }
        let name = &behind[..size];
        match (p1, p2) {
            (0x04, 0x00) => self.select_application(name),
            (0x00, 0x0C) => self.select_file(name),
            _ => status(WRONG_PARAMETERS),
        }
    }

    fn select_application(&mut self, name: &[u8]) -> ArrayVec<u8, 258>
        ensures answer { result.items ≡ (select_application self.old name.now).answer }
        ensures step { self.new ≡ (select_application self.old name.now).after }
    {
        if name != &APPLICATION[..] {
            return status(NOT_FOUND);
        }
        self.selected = true;
        self.current = CurrentFile::NoFile;
        status(DONE)
    }

    fn select_file(&mut self, name: &[u8]) -> ArrayVec<u8, 258>
        ensures answer { result.items ≡ (select_file self.old name.now).answer }
        ensures step { self.new ≡ (select_file self.old name.now).after }
    {
        match name {
            [high, low] => self.select_known(*high as u16 * 256 + *low as u16),
            _ => status(WRONG_LENGTH),
        }
    }

    fn select_known(&mut self, id: u16) -> ArrayVec<u8, 258>
        ensures answer { result.items ≡ (select_known self.old id).answer }
        ensures step { self.new ≡ (select_known self.old id).after }
    {
        if !self.selected {
            return status(NOT_FOUND);
        }
        if id == CONTAINER_ID {
            self.current = CurrentFile::Container;
        } else if id == word_at(&self.container, FILE_ID) {
            self.current = CurrentFile::Ndef;
        } else {
            return status(NOT_FOUND);
        }
        status(DONE)
    }

    fn read(&self, offset: usize, rest: &[u8]) -> ArrayVec<u8, 258>
        ensures { result.items ≡ (read_turn self.now offset rest.now).answer }
    {
        let [expected] = rest else {
            return status(WRONG_LENGTH);
        };
        // 00h asks for 256 bytes.
        let count = if *expected == 0 {
            256
        } else {
            *expected as usize
        };
        match self.current {
            CurrentFile::NoFile => status(NOT_FOUND),
            CurrentFile::Container => bytes_from(&self.container, offset, count),
            CurrentFile::Ndef => self.read_ndef(offset, count),
        }
    }

    fn read_ndef(&self, offset: usize, count: usize) -> ArrayVec<u8, 258>
        requires { count ≤ 256 }
        ensures { result.items ≡ (read_file self.now CurrentFile.Ndef offset count).answer }
    {
        if self.container[READ_ACCESS] != EVERYONE {
            return status(NOT_ALLOWED);
        }
        if count > word_at(&self.container, MOST_READ) as usize {
            return status(WRONG_LENGTH);
        }
        bytes_from(&self.file, offset, count)
    }

    fn update(&mut self, offset: usize, rest: &[u8]) -> ArrayVec<u8, 258>
        requires { offset < 65536 }
        ensures answer { result.items ≡ (update_turn self.old offset rest.now).answer }
        ensures step { self.new ≡ (update_turn self.old offset rest.now).after }
    {
        let [count, content @ ..] = rest else {
            return status(WRONG_LENGTH);
        };
        if *count == 0 || content.len() != *count as usize {
            return status(WRONG_LENGTH);
        }
        match self.current {
            CurrentFile::NoFile => status(NOT_FOUND),
            CurrentFile::Container => status(NOT_ALLOWED),
            CurrentFile::Ndef => self.update_ndef(offset, content),
        }
    }

    fn update_ndef(&mut self, offset: usize, content: &[u8]) -> ArrayVec<u8, 258>
        requires offset { offset < 65536 }
        requires content { length content.now < 256 }
        ensures answer { result.items ≡ (update_file self.old CurrentFile.Ndef offset content.now).answer }
        ensures step { self.new ≡ (update_file self.old CurrentFile.Ndef offset content.now).after }
    {
        if self.container[WRITE_ACCESS] != EVERYONE {
            return status(NOT_ALLOWED);
        }
        if content.len() > word_at(&self.container, MOST_WRITTEN) as usize {
            return status(WRONG_LENGTH);
        }
        let end = offset + content.len();
        if offset >= OFFSET_END || end > self.file.len() {
            return status(WRONG_PARAMETERS);
        }
        self.file[offset..end].copy_from_slice(content);
        status(DONE)
    }
}

/// An answer of status bytes alone.
fn status(bytes: [u8; 2]) -> ArrayVec<u8, 258>
    ensures { result.items ≡ bytes }
{
    let mut answer = ArrayVec::new();
    answer.try_extend_from_slice(&bytes).unwrap();
    answer
}

/// The answer to a read of at most so many bytes of a file.
fn bytes_from(bytes: &[u8], offset: usize, count: usize) -> ArrayVec<u8, 258>
    requires { count ≤ 256 }
    ensures { (t : T4State) → result.items ≡ (read_bytes t bytes.now offset count).answer }
{
    if offset >= OFFSET_END || offset >= bytes.len() {
        return status(WRONG_PARAMETERS);
    }
    let behind = &bytes[offset..];
    let mut answer = ArrayVec::new();
    answer
        .try_extend_from_slice(&behind[..count.min(behind.len())])
        .unwrap();
    answer.try_extend_from_slice(&DONE).unwrap();
    answer
}

/// How many bytes the NDEF file has that a capability container names, where it is long enough to.
pub fn named_size(container: &[u8]) -> Option<u16>
    ensures { MatchOption result (length container.now < least_container) (λ n. n ≡ file_size container.now) }
{
    if container.len() < LEAST_CONTAINER {
        return None;
    }
    Some(word_at(container, FILE_SIZE))
}

/// Two bytes from one on, high first.
fn word_at(bytes: &[u8], at: usize) -> u16
    requires { at + 1 < length bytes.now }
    ensures { result ≡ word bytes.now at }
{
    bytes[at] as u16 * 256 + bytes[at + 1] as u16
}
