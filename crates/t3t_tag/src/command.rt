//! What a reader asks of a Type 3 tag.

ghost use Rattle.std.specs.Prelude.{◌≡◌, ◌↔◌, ◌≤◌, ◌*◌, ◌∷◌, ◌++◌, length, Some, IsNone};
ghost use Rattle.t3t_tag.specs.Spelling.{asked_of, framed, elements, command_bytes, command_frame, IsT3Command};
ghost use Rattle.t3t_tag.specs.Spelling.{T3Spelling};
ghost use Rattle.t3t_tag.specs.Reading.{blocks_asked, behind_id, read_check, read_update, read_request, command_of};
ghost use Rattle.t3t_tag.specs.Reading.{spelled_command, found_blocks};
ghost use Rattle.t3t_tag.specs.declared.command.T3Command.{T3Command};

use arrayvec::ArrayVec;
use nfc_base::{Frame, Tech};

/// The codes of the commands: SENSF_REQ, CHECK and UPDATE.
pub(crate) const POLL: u8 = 0x00;

pub(crate) const CHECK: u8 = 0x06;

pub(crate) const UPDATE: u8 = 0x08;

/// The services as their bytes are sent: that which reads, and that which reads and writes.
pub(crate) const READ_SERVICE: u16 = 0x0B00;

pub(crate) const WRITE_SERVICE: u16 = 0x0900;

/// The first byte of a block element of two bytes.
pub(crate) const ELEMENT: u8 = 0x80;

/// How many blocks one Check names at most.
const MOST_ELEMENTS: u8 = 15;

/// A command (NFC Forum Type 3 Tag; JIS X 6319-4). A poll is for every tag of a system code, the others for one tag.
#[derive(Clone, Debug, Drop, PartialEq, Eq)]
pub enum T3Command {
    /// Which tags are there? Behind the system code stand what more is asked, and how many slots there are to answer
    /// in.
    Poll {
        system: u16,
        request: u8,
        slots: u8,
    },
    /// Reads 1 to 15 blocks, by the service that reads.
    Check {
        id: [u8; 8],
        blocks: ArrayVec<u8, 15>,
    },
    /// Writes one block.
    Update {
        id: [u8; 8],
        block: u8,
        content: [u8; 16],
    },
}

impl T3Command {
    /// The command that a frame spells. It takes no memory.
    pub fn read_from(frame: &Frame) -> Option<T3Command>
        ensures exact { (c : T3Command) → ((result ≡ Some c) ↔ T3Spelling c frame.now) }
        ensures none { IsNone result ↔ ((c : T3Command) → ¬ T3Spelling c frame.now) }
        ensures reads { result ≡ spelled_command frame.now }
    {
        if frame.tech() != Tech::F || frame.tail() != 0 {
            return None;
        }
        read_bytes(frame.view())
    }

    /// The frame that spells it, where a Check names a block. It takes no memory.
    pub fn to_frame(&self) -> Frame
        ensures frame { result ≡ command_frame self.now }
        ensures exact { IsT3Command self.now → T3Spelling self.now result }
    {
        Frame::whole(Tech::F, &self.bytes()).unwrap()
    }

    /// The bytes of that frame.
    fn bytes(&self) -> ArrayVec<u8, 255>
        ensures { result.items ≡ command_bytes self.now }
    {
        match self {
            T3Command::Poll {
                system,
                request,
                slots,
            } => {
                let [high, low] = system.to_be_bytes();
                framed(&[POLL, high, low, *request, *slots])
            }
            T3Command::Check { id, blocks } => {
                let elements = elements_of(blocks);
                asking(CHECK, *id, READ_SERVICE, blocks.len() as u8, &elements)
            }
            T3Command::Update { id, block, content } => {
                let mut rest: ArrayVec<u8, 18> = ArrayVec::new();
                rest.push(ELEMENT);
                rest.push(*block);
                rest.try_extend_from_slice(content).unwrap();
                asking(UPDATE, *id, WRITE_SERVICE, 1, &rest)
            }
        }
    }
}

/// The command of the bytes of a whole NFC-F frame.
fn read_bytes(bytes: &[u8]) -> Option<T3Command>
    ensures { result ≡ command_of bytes.now }
{
    let (size, request) = bytes.split_first()?;
    if *size as usize != bytes.len() {
        return None;
    }
    read_request(request)
}

/// The command of what stands behind the length.
fn read_request(request: &[u8]) -> Option<T3Command>
    ensures { result ≡ read_request request.now }
{
    match request {
        [POLL, high, low, request, slots] => Some(T3Command::Poll {
            system: u16::from_be_bytes([*high, *low]),
            request: *request,
            slots: *slots,
        }),
        [CHECK, rest @ ..] => {
            let (id, behind) = rest.split_first_chunk::<8>()?;
            read_check(*id, behind)
        }
        [UPDATE, rest @ ..] => {
            let (id, behind) = rest.split_first_chunk::<8>()?;
            read_update(*id, behind)
        }
        _ => None,
    }
}

fn read_check(id: [u8; 8], behind: &[u8]) -> Option<T3Command>
    ensures { result ≡ read_check id behind.now }
{
    match behind {
        [1, high, low, count, rest @ ..] => {
            if u16::from_be_bytes([*high, *low]) != READ_SERVICE {
                return None;
            }
            let blocks = blocks_asked(*count, rest)?;
            Some(T3Command::Check { id, blocks })
        }
        _ => None,
    }
}

fn read_update(id: [u8; 8], behind: &[u8]) -> Option<T3Command>
    ensures { result ≡ read_update id behind.now }
{
    match behind {
        [1, high, low, 1, ELEMENT, block, content @ ..] => {
            if u16::from_be_bytes([*high, *low]) != WRITE_SERVICE {
                return None;
            }
            Some(T3Command::Update {
                id,
                block: *block,
                content: content.try_into().ok()?,
            })
        }
        _ => None,
    }
}

/// The blocks that so many elements name, where they are 1 to 15, each of two bytes.
pub(crate) fn blocks_asked(count: u8, elements: &[u8]) -> Option<ArrayVec<u8, 15>>
    ensures { result ≡ found_blocks (blocks_asked count elements.now) }
{
    if count == 0 || count > MOST_ELEMENTS || elements.len() != 2 * count as usize {
        return None;
    }
    let mut blocks = ArrayVec::new();
    for i in 0..count as usize {
        if elements[2 * i] != ELEMENT {
            return None;
        }
        blocks.push(elements[2 * i + 1]);
    }
    Some(blocks)
}

/// The elements of some blocks.
fn elements_of(blocks: &[u8]) -> ArrayVec<u8, 30>
    requires { length blocks.now ≤ 15 }
    ensures bytes { result.items ≡ elements blocks.now }
    ensures size { length result.items ≡ 2 * length blocks.now }
{
    let mut elements = ArrayVec::new();
    for block in blocks {
        elements.push(ELEMENT);
        elements.push(*block);
    }
    elements
}

/// The bytes of a command to one tag, of one service and so many elements, with these bytes behind.
fn asking(code: u8, id: [u8; 8], service: u16, count: u8, rest: &[u8]) -> ArrayVec<u8, 255>
    requires { length rest.now ≤ 30 }
    ensures { result.items ≡ framed (code ∷ (id ++ (asked_of service count ++ rest.now))) }
{
    let [high, low] = service.to_be_bytes();
    let mut bytes: ArrayVec<u8, 43> = ArrayVec::new();
    bytes.push(code);
    bytes.try_extend_from_slice(&id).unwrap();
    bytes.try_extend_from_slice(&[1, high, low, count]).unwrap();
    bytes.try_extend_from_slice(rest).unwrap();
    framed(&bytes)
}

/// The bytes of a frame, its length in front.
pub(crate) fn framed(bytes: &[u8]) -> ArrayVec<u8, 255>
    requires { length bytes.now ≤ 254 }
    ensures { result.items ≡ framed bytes.now }
{
    let mut frame = ArrayVec::new();
    frame.push(bytes.len() as u8 + 1);
    frame.try_extend_from_slice(bytes).unwrap();
    frame
}
