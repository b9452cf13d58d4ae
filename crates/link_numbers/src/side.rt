//! What one end of a link sent.

ghost use Rattle.std.specs.Prelude.{◌≡◌, ◌++◌, take, IfOk, OnOk};
ghost use Rattle.dep_link.specs.Frames.{after, spelled};
ghost use Rattle.link_numbers.specs.Walking.{ended, nothing, passed, room, sent_if, took};

use crate::number::{LONGEST, number_begun, number_of};
use arrayvec::ArrayVec;
use dep_pdu::DepFrame;
use nfc_base::{Frame, Tech};
use std::alloc::{AllocError, Global};
use std::marker::Model;

/// How much is kept of a payload: one byte more than it may have.
const ROOM: usize = LONGEST + 1;

/// What one end sent so far.
#[derive(Debug, Drop)]
pub(crate) struct Side {
    /// The PNI of the next frame that counts.
    next: u8,
    /// How a payload begins that isn't whole.
    begun: ArrayVec<u8, 2179>,
    /// The numbers of the whole payloads.
    told: Vec<u32>,
}

impl Model for Side {
    ghost use Rattle.link_numbers.specs.Walking.{Sent};

    ghost Value = { Sent };

    ghost view = { λ s. record { next = s.next; begun = s.begun.items; told = s.told.items } };
}

impl Side {
    /// An end that sent nothing yet, whose frames are counted from this PNI.
    pub(crate) fn new(alloc: Global, first: u8) -> Side
        ensures { result ≡ nothing first }
    {
        Side {
            next: first,
            begun: ArrayVec::new(),
            told: Vec::new(alloc),
        }
    }

    /// A frame that it sent; `up` where it is the target. One that is sent again has the PNI before, and isn't
    /// counted twice.
    pub(crate) fn send(&mut self, up: bool, frame: &Frame) -> Result<(), AllocError>
        ensures { OnOk result (self.new ≡ sent_if up self.old (spelled frame.now)) }
    {
        match spelled(frame) {
            Some(
                DepFrame::Info {
                    up: from,
                    more,
                    pni,
                    content,
                },
            ) if from == up && !content.is_empty() => self.take(more, pni, &content),
            Some(DepFrame::Ack { up: from, pni }) if from == up => {
                self.pass(pni);
                Ok(())
            }
            _ => Ok(()),
        }
    }

    /// A piece of a payload.
    fn take(&mut self, more: bool, pni: u8, content: &[u8]) -> Result<(), AllocError>
        ensures { OnOk result (self.new ≡ took self.old more pni content.now) }
    {
        if pni != self.next {
            return Ok(());
        }
        self.next = after(pni);
        append(&mut self.begun, content);
        if !more {
            self.told.push(number_of(&self.begun))?;
            self.begun.clear();
        }
        Ok(())
    }

    /// An acknowledgement.
    fn pass(&mut self, pni: u8)
        ensures { self.new ≡ passed self.old pni }
    {
        if pni == self.next {
            self.next = after(pni);
        }
    }

    /// The numbers, also of a payload that was cut off.
    pub(crate) fn into_numbers(self) -> Result<Vec<u32>, AllocError>
        ensures { IfOk result (λ ns. ns.items ≡ ended self) }
    {
        let Side {
            next: _,
            begun,
            mut told,
        } = self;
        if !begun.is_empty() {
            told.push(number_begun(&begun))?;
        }
        Ok(told)
    }
}

/// Puts as many bytes behind others as there is room for.
fn append(begun: &mut ArrayVec<u8, 2179>, content: &[u8])
    ensures { begun.new.items ≡ take room (begun.old.items ++ content.now) }
{
    let left = ROOM - begun.len();
    begun
        .try_extend_from_slice(first_of(content, left))
        .unwrap();
}

/// The first bytes, at most so many.
fn first_of(content: &[u8], most: usize) -> &[u8]
    ensures { result.now ≡ take most content.now }
{
    if content.len() > most {
        &content[..most]
    } else {
        content
    }
}

/// The number after a PNI.
fn after(pni: u8) -> u8
    ensures { result ≡ after pni }
{
    (pni % 4 + 1) % 4
}

/// The frame of NFC-DEP that one on the air spells.
fn spelled(frame: &Frame) -> Option<DepFrame>
    ensures { result ≡ spelled frame.now }
{
    if frame.tech() != Tech::A || frame.tail() != 0 {
        return None;
    }
    match DepFrame::read_from(frame.view()) {
        Ok(value) => Some(value),
        Err(_) => None,
    }
}
