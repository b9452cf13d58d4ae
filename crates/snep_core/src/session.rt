//! One connection to a server: what is gathered, what is to be sent, what waits.

ghost use Rattle.std.specs.Prelude.{[], Some, ◌-◌, ◌≤◌, ◌≡◌, ◌<◌, ◌^◌, ◌++◌, length, take, drop, option_map};
ghost use Rattle.std.specs.Prelude.{option_copied, IfOk, IfSome, OnOk};
ghost use Rattle.snep_core.specs.Session.{fresh_session, with_due, gets, got, value_of as value_under, obeys, gathers};
ghost use Rattle.snep_core.specs.Session.{first_did, later_did, did, popped, sent_word, word_len, due_len as due_size};
ghost use Rattle.snep_core.specs.Session.{sent, after_sent, AreShort};
ghost use Rattle.snep_core.specs.Message.{message as message_of};
ghost use Rattle.snep_core.specs.declared.session.Due.{Due};
ghost use Rattle.snep_core.specs.declared.session.Word.{Word};
ghost use Rattle.snep_core.specs.First.{info_of, first_of as first_to};

use crate::first::{First, first_of};
use crate::message::{Answer, HEADER, Request, message};
use bytes::Bytes;
use nfc_base::Items;
use std::alloc::{AllocError, Global};
use std::marker::Model;

/// A key of the table for get, with its value.
#[derive(Debug, Drop)]
pub(crate) struct Offer {
    pub(crate) key: Items<u8>,
    pub(crate) value: Items<u8>,
}

impl Model for Offer {
    ghost use Rattle.snep_core.specs.Session.{Offer};

    ghost Value = { Offer };

    ghost view = { λ o. record { key = o.key; value = o.value } };
}

/// What goes out for what came: an answer, which drops what waits; a value, of which all behind its first unit waits;
/// or what waits.
#[derive(Debug, Drop)]
pub enum Word {
    Answers(Answer),
    Offers(Bytes),
    Resumes,
}

/// What is due for what came: something goes out; or nothing, and what waits is dropped.
#[derive(Debug, Drop)]
pub enum Due {
    Tells(Word),
    Forgets,
}

/// A request of which units with so many bytes are still to come.
#[derive(Debug, Drop)]
struct Gathering {
    request: Request,
    left: u32,
    pieces: Vec<Bytes>,
}

impl Model for Gathering {
    ghost use Rattle.std.specs.List.{concat};
    ghost use Rattle.snep_core.specs.Session.{Gathering};

    ghost Value = { Gathering };

    ghost view = { λ g. record { request = g.request; left = g.left; info = concat g.pieces.items } };
}

impl Gathering {
    /// One with this first piece.
    fn begin(
        alloc: Global,
        request: Request,
        left: u32,
        piece: &[u8],
    ) -> Result<Gathering, AllocError>
        ensures { IfOk result (λ g. g ≡ record { request = request; left = left; info = piece.now }) }
    {
        let mut pieces = Vec::new(alloc);
        pieces.push(Bytes::copy_from_slice(alloc, piece)?)?;
        Ok(Gathering {
            request,
            left,
            pieces,
        })
    }

    /// One piece more, which isn't the last.
    fn add(&mut self, alloc: Global, piece: &[u8]) -> Result<(), AllocError>
        requires { length piece.now ≤ self.old.left }
        ensures { OnOk result (self.new
            ≡ record self.old { left = self.old.left - length piece.now; info = self.old.info ++ piece.now }) }
    {
        let left = self.left - piece.len() as u32;
        self.pieces.push(Bytes::copy_from_slice(alloc, piece)?)?;
        self.left = left;
        Ok(())
    }

    /// All that is there, and this last piece.
    fn whole(&self, alloc: Global, last: &[u8]) -> Result<Items<u8>, AllocError>
        ensures { IfOk result (λ w. w ≡ self.now.info ++ last.now) }
    {
        let mut whole = Vec::new(alloc);
        'pieces: for piece in self.pieces.as_slice() {
            whole.extend_from_slice(piece.as_slice())?;
        }
        whole.extend_from_slice(last)?;
        Ok(Items::new(whole))
    }
}

/// One connection to a server.
#[derive(Debug, Drop)]
pub(crate) struct Session {
    gathered: Option<Gathering>,
    due: Vec<Due>,
    waiting: Bytes,
    going: Bytes,
}

impl Model for Session {
    ghost use Rattle.snep_core.specs.Session.{Session};

    ghost Value = { Session };

    ghost view = { λ s. record { gathered = s.gathered; due = s.due.items; waiting = s.waiting; going = s.going } };
}

impl Session {
    /// A connection that begins. It takes no memory.
    pub(crate) fn new(alloc: Global) -> Session
        ensures { result ≡ fresh_session }
    {
        Session {
            gathered: None,
            due: Vec::new(alloc),
            waiting: Bytes::new(),
            going: Bytes::new(),
        }
    }

    /// The connection begins anew. It takes no memory.
    pub(crate) fn begin_anew(&mut self)
        ensures { self.new ≡ fresh_session }
    {
        self.gathered = None;
        self.due.clear();
        self.waiting = Bytes::new();
        self.going = Bytes::new();
    }

    /// A unit comes. The message that it completes is given, if it does.
    pub(crate) fn hear(
        &mut self,
        alloc: Global,
        limit: u32,
        table: &[Offer],
        unit: &[u8],
    ) -> Result<Option<Items<u8>>, AllocError>
        requires { AreShort table.now }
        ensures accepts { IfOk result (λ m. m ≡ (did limit table.now self.old unit.now).accepts) }
        ensures step { OnOk result (self.new ≡ (did limit table.now self.old unit.now).session) }
    {
        match self.gathered.take() {
            None => self.hear_first(alloc, limit, table, unit),
            Some(gathering) => self.hear_later(alloc, table, gathering, unit),
        }
    }

    fn hear_first(
        &mut self,
        alloc: Global,
        limit: u32,
        table: &[Offer],
        unit: &[u8],
    ) -> Result<Option<Items<u8>>, AllocError>
        requires { AreShort table.now }
        ensures accepts { IfOk result (λ m.
            m ≡ (first_did table.now self.old (first_to limit unit.now) (info_of unit.now)).accepts) }
        ensures step { OnOk result (self.new
            ≡ (first_did table.now self.old (first_to limit unit.now) (info_of unit.now)).session) }
    {
        let info = unit.get(HEADER..).unwrap_or(&[]);
        match first_of(limit, unit) {
            First::Says(answer) => self.answer(answer)?,
            First::GoesOn => self.say(Due::Tells(Word::Resumes))?,
            First::Drops => self.say(Due::Forgets)?,
            First::Whole(request) => {
                return self.obey(alloc, table, request, Items::from_bytes(alloc, info)?);
            }
            First::Partly(request, left) => {
                self.answer(Answer::Continue)?;
                self.gathered = Some(Gathering::begin(alloc, request, left, info)?);
            }
        }
        Ok(None)
    }

    fn hear_later(
        &mut self,
        alloc: Global,
        table: &[Offer],
        mut gathering: Gathering,
        unit: &[u8],
    ) -> Result<Option<Items<u8>>, AllocError>
        requires { AreShort table.now }
        ensures accepts { IfOk result (λ m. m ≡ (later_did table.now self.old gathering unit.now).accepts) }
        ensures step { OnOk result (self.new ≡ (later_did table.now self.old gathering unit.now).session) }
    {
        let left = gathering.left as usize;
        if unit.len() > left {
            self.answer(Answer::BadRequest)?;
        } else if unit.len() == left {
            let info = gathering.whole(alloc, unit)?;
            return self.obey(alloc, table, gathering.request, info);
        } else {
            gathering.add(alloc, unit)?;
            self.gathered = Some(gathering);
        }
        Ok(None)
    }

    /// A request is whole.
    fn obey(
        &mut self,
        alloc: Global,
        table: &[Offer],
        request: Request,
        info: Items<u8>,
    ) -> Result<Option<Items<u8>>, AllocError>
        requires { AreShort table.now }
        ensures accepts { IfOk result (λ m. m ≡ (obeys table.now self.old request info).accepts) }
        ensures step { OnOk result (self.new ≡ (obeys table.now self.old request info).session) }
    {
        match request {
            Request::Get => {
                self.say(Due::Tells(answer_to_get(alloc, table, info.as_slice())?))?;
                Ok(None)
            }
            Request::Put => {
                self.answer(Answer::Success)?;
                Ok(Some(info))
            }
        }
    }

    fn answer(&mut self, answer: Answer) -> Result<(), AllocError>
        ensures { OnOk result (self.new ≡ with_due self.old (Due.Tells (Word.Answers answer))) }
    {
        self.say(Due::Tells(Word::Answers(answer)))
    }

    /// Nothing is gathered any more, and one thing more is due.
    fn say(&mut self, due: Due) -> Result<(), AllocError>
        ensures { OnOk result (self.new ≡ with_due self.old due) }
    {
        self.gathered = None;
        match self.due.push(due) {
            Ok(()) => Ok(()),
            Err(_) => Err(AllocError),
        }
    }

    /// How long the unit is that goes out next.
    pub(crate) fn next_len(&self, miu: u16) -> Option<usize>
        ensures { result ≡ option_map length (sent miu self.now).unit }
    {
        if !self.going.is_empty() {
            return Some(self.going.len().min(miu as usize));
        }
        match due_len(self.due.as_slice(), self.waiting.len()) {
            Some(size) => Some(size.min(miu as usize)),
            None => None,
        }
    }

    /// The unit that goes out next. Where there is none, nothing changes.
    pub(crate) fn next(&mut self, alloc: Global, miu: u16) -> Result<Option<Items<u8>>, AllocError>
        ensures unit { IfOk result (λ u. u ≡ (sent miu self.old).unit) }
        ensures step { OnOk result (self.new ≡ after_sent miu self.old) }
    {
        if !self.going.is_empty() {
            return Ok(Some(cut(alloc, &mut self.going, miu)?));
        }
        if self.next_len(miu).is_none() {
            return Ok(None);
        }
        match self.pop() {
            Some(word) => Ok(Some(self.send(alloc, word, miu)?)),
            None => Ok(None),
        }
    }

    /// The oldest of what is due that says something. What was dropped before waits no more.
    fn pop(&mut self) -> Option<Word>
        ensures word { result ≡ (popped self.old self.old.due).word }
        ensures rest { self.new ≡ (popped self.old self.old.due).session }
    {
        while !self.due.is_empty() {
            match self.due.remove(0) {
                Due::Tells(word) => return Some(word),
                Due::Forgets => self.waiting = Bytes::new(),
            }
        }
        None
    }

    /// What waits for a continue is dropped.
    fn drop_waiting(&mut self)
        ensures { self.new ≡ record self.old { waiting = [] } }
    {
        self.waiting = Bytes::new();
    }

    /// This goes out, or its first unit.
    fn send(&mut self, alloc: Global, word: Word, miu: u16) -> Result<Items<u8>, AllocError>
        requires { self.old.going ≡ [] }
        ensures unit { IfOk result (λ u. Some u ≡ (sent_word miu self.old word).unit) }
        ensures step { OnOk result (self.new ≡ (sent_word miu self.old word).session) }
    {
        match word {
            Word::Answers(answer) => {
                self.drop_waiting();
                self.going = told(alloc, answer, &[])?;
            }
            Word::Offers(bytes) => {
                self.waiting = bytes;
                return cut(alloc, &mut self.waiting, miu);
            }
            Word::Resumes if self.waiting.is_empty() => {
                self.going = told(alloc, Answer::BadRequest, &[])?;
            }
            Word::Resumes => {
                self.going = std::mem::replace(&mut self.waiting, Bytes::new());
            }
        }
        cut(alloc, &mut self.going, miu)
    }
}

impl Word {
    /// How many bytes go out, where so many wait.
    fn len(&self, waiting: usize) -> usize
        ensures { result ≡ word_len waiting self.now }
    {
        match self {
            Word::Offers(bytes) => bytes.len(),
            Word::Resumes if waiting != 0 => waiting,
            Word::Answers(_) | Word::Resumes => HEADER,
        }
    }
}

/// How many bytes the oldest of what is due has that says something, where so many wait.
fn due_len(due: &[Due], waits: usize) -> Option<usize>
    ensures { result ≡ due_size waits due.now }
{
    let mut waiting = waits;
    'due: for due in due {
        match due {
            Due::Tells(word) => return Some(word.len(waiting)),
            Due::Forgets => waiting = 0,
        }
    }
    None
}

/// Takes the next unit of at most so many bytes away.
fn cut(alloc: Global, bytes: &mut Bytes, miu: u16) -> Result<Items<u8>, AllocError>
    ensures unit { IfOk result (λ u. u ≡ take miu bytes.old) }
    ensures rest { OnOk result (bytes.new ≡ drop miu bytes.old) }
{
    let size = bytes.len().min(miu as usize);
    let unit = Items::from_bytes(alloc, &bytes.as_slice()[..size])?;
    bytes.advance(size);
    Ok(unit)
}

/// A message as it goes out.
fn told(alloc: Global, answer: Answer, info: &[u8]) -> Result<Bytes, AllocError>
    requires { length info.now < 2 ^ 32 }
    ensures { IfOk result (λ m. m ≡ message_of answer info.now) }
{
    let bytes = message(alloc, answer, info)?;
    match Bytes::from_vec(bytes.into_vec()) {
        Ok(bytes) => Ok(bytes),
        Err(_) => Err(AllocError),
    }
}

/// What a get is answered: its first four bytes say how long a value it takes, the others are the key.
fn answer_to_get(alloc: Global, table: &[Offer], info: &[u8]) -> Result<Word, AllocError>
    requires { AreShort table.now }
    ensures { IfOk result (λ d. d ≡ gets table.now info.now) }
{
    if table.is_empty() {
        return Ok(Word::Answers(Answer::NotImplemented));
    }
    match info {
        [a, b, c, d, key @ ..] => value_told(
            alloc,
            u32::from_be_bytes([*a, *b, *c, *d]),
            value_of(table, key),
        ),
        _ => Ok(Word::Answers(Answer::BadRequest)),
    }
}

fn value_told(alloc: Global, most: u32, value: Option<&[u8]>) -> Result<Word, AllocError>
    requires { IfSome (option_copied value) (λ v. length v < 2 ^ 32) }
    ensures { IfOk result (λ d. d ≡ got most (option_copied value.entry)) }
{
    match value {
        None => Ok(Word::Answers(Answer::NotFound)),
        Some(value) if value.len() > most as usize => Ok(Word::Answers(Answer::Excess)),
        Some(value) => Ok(Word::Offers(told(alloc, Answer::Success, value)?)),
    }
}

/// The value of a key.
fn value_of<'t>(table: &'t [Offer], key: &[u8]) -> Option<&'t [u8]>
    requires { AreShort table.now }
    ensures value { option_copied result ≡ value_under key.now table.now }
    ensures short { IfSome (option_copied result) (λ v. length v < 2 ^ 32) }
{
    'table: for offer in table {
        if offer.key.as_slice() == key {
            return Some(offer.value.as_slice());
        }
    }
    None
}
