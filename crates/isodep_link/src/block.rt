//! Blocks and their frames.

ghost use Rattle.std.specs.Prelude.{◌≡◌, ◌≤◌, ◌<◌, length, ◌∷◌};
ghost use Rattle.nfc_base.specs.Signal.{whole_a};
ghost use Rattle.isodep_link.specs.Blocks.{spelled_block, short_block, long_block, info_block, block_frame, pcb};
ghost use Rattle.isodep_link.specs.Blocks.{toggled, piece, IsSpelled};

use arrayvec::ArrayVec;
use nfc_base::{Frame, Tech};

/// The control bytes, each without the block number in bit 0.
const INFO: u8 = 0x02;

const CHAINED: u8 = 0x12;

const ACK: u8 = 0xA2;

const NAK: u8 = 0xB2;

const DESELECT: u8 = 0xC2;

const EXTEND: u8 = 0xF2;

/// A block (ISO/IEC 14443-4). A number is 0 or 1.
#[derive(Debug, Drop)]
pub enum Block {
    /// A piece of a command or an answer; `more` pieces follow it.
    Info {
        more: bool,
        number: u8,
        content: ArrayVec<u8, 287>,
    },
    Ack {
        number: u8,
    },
    Nak {
        number: u8,
    },
    Deselect,
    /// S(WTX): a card asks for so many times more time, or a reader grants it.
    Extend {
        times: u8,
    },
}

impl Block {
    /// The block that a frame spells.
    pub(crate) fn read_from(frame: &Frame) -> Option<Block>
        ensures { result ≡ spelled_block frame.now }
    {
        if frame.tech() != Tech::A || frame.tail() != 0 {
            return None;
        }
        let bytes = frame.view();
        if bytes.is_empty() {
            return None;
        }
        let number = bytes[0] % 2;
        match bytes[0] - number {
            INFO => Some(info(false, number, &bytes[1..])),
            CHAINED => Some(info(true, number, &bytes[1..])),
            sort => match bytes.len() {
                1 => short(sort, number),
                2 => long(sort, number, bytes[1]),
                _ => None,
            },
        }
    }

    /// The frame that spells it.
    pub(crate) fn to_frame(&self) -> Frame
        ensures frame { result ≡ block_frame self.now }
        ensures spelled { IsSpelled result }
    {
        self.written()
    }

    /// The same, put into a place of the caller's.
    pub(crate) fn put(&self, place: &mut Frame)
        ensures frame { place.new ≡ block_frame self.now }
        ensures spelled { IsSpelled place.new }
    {
        *place = self.to_frame();
    }

    fn written(&self) -> Frame
        ensures frame { result ≡ block_frame self.now }
        ensures fits { length result.bytes ≤ 288 }
    {
        match self {
            Block::Info {
                more,
                number,
                content,
            } => info_frame(pcb(if *more { CHAINED } else { INFO }, *number), content),
            Block::Ack { number } => info_frame(pcb(ACK, *number), &[]),
            Block::Nak { number } => info_frame(pcb(NAK, *number), &[]),
            Block::Deselect => info_frame(DESELECT, &[]),
            Block::Extend { times } => info_frame(EXTEND, &[*times]),
        }
    }
}

fn info(more: bool, number: u8, bytes: &[u8]) -> Block
    requires { length bytes.now ≤ 287 }
    ensures { result ≡ info_block more number bytes.now }
{
    let mut content = ArrayVec::new();
    content.try_extend_from_slice(bytes).unwrap();
    Block::Info {
        more,
        number,
        content,
    }
}

/// A block of one byte.
fn short(sort: u8, number: u8) -> Option<Block>
    requires number { number < 2 }
    requires sort { sort ≤ 254 }
    ensures { result ≡ short_block sort number }
{
    match sort {
        ACK => Some(Block::Ack { number }),
        NAK => Some(Block::Nak { number }),
        _ => {
            if sort + number == DESELECT {
                Some(Block::Deselect)
            } else {
                None
            }
        }
    }
}

/// A block of two bytes that is no I-block.
fn long(sort: u8, number: u8, times: u8) -> Option<Block>
    requires number { number < 2 }
    requires sort { sort ≤ 254 }
    ensures { result ≡ long_block sort number times }
{
    if sort + number == EXTEND {
        Some(Block::Extend { times })
    } else {
        None
    }
}

/// A control byte.
fn pcb(sort: u8, number: u8) -> u8
    requires { sort < 255 }
    ensures { result ≡ pcb sort number }
{
    sort + number % 2
}

/// A control byte and what follows it.
fn info_frame(pcb: u8, content: &[u8]) -> Frame
    requires { length content.now ≤ 287 }
    ensures frame { result ≡ whole_a (pcb ∷ content.now) }
    ensures fits { length result.bytes ≤ 288 }
{
    let mut bytes = ArrayVec::<u8, 288>::new();
    bytes.push(pcb);
    bytes.try_extend_from_slice(content).unwrap();
    Frame::whole(Tech::A, &bytes).unwrap()
}

/// The number after one.
pub(crate) fn toggled(number: u8) -> u8
    requires { number < 2 }
    ensures next { result ≡ toggled number }
    ensures bound { result < 2 }
{
    (number + 1) % 2
}

/// The I-block with the first piece of some bytes, of at most so many.
pub(crate) fn piece(most: usize, number: u8, bytes: &[u8]) -> Block
    requires { most ≤ 287 }
    ensures { result ≡ piece most number bytes.now }
{
    let more = most < bytes.len();
    let end = if more { most } else { bytes.len() };
    info(more, number, &bytes[..end])
}
