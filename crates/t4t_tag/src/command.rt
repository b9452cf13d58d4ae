//! What a reader asks of a Type 4 tag.

ghost use Rattle.std.specs.Prelude.{◌≡◌};
ghost use Rattle.t4t_tag.specs.Spelling.{IsT4Command, high_first, command_bytes};

use arrayvec::ArrayVec;

/// The class byte of every command here, and the instructions.
pub(crate) const CLASS: u8 = 0x00;

pub(crate) const SELECT: u8 = 0xA4;

pub(crate) const READ_BINARY: u8 = 0xB0;

pub(crate) const UPDATE_BINARY: u8 = 0xD6;

/// The name of the NDEF application.
pub(crate) const APPLICATION: [u8; 7] = [0xD2, 0x76, 0x00, 0x00, 0x85, 0x01, 0x01];

/// The most bytes that one command asks for or brings: their number, Le or Lc, is one byte, and Le 00h stands for 256.
pub const MOST_PER_COMMAND: u16 = 255;

/// A command (NFC Forum Type 4 Tag; ISO/IEC 7816-4). Offsets are below 8000h. A read asks for at least one byte, and an
/// update brings at least one.
#[derive(Clone, Debug, Drop, PartialEq, Eq)]
pub enum T4Command {
    SelectApplication,
    SelectFile {
        id: u16,
    },
    ReadBinary {
        offset: u16,
        count: u8,
    },
    UpdateBinary {
        offset: u16,
        content: ArrayVec<u8, 255>,
    },
}

impl T4Command {
    /// The bytes that spell it, identifiers and offsets with their high byte first. It takes no memory.
    pub fn to_bytes(&self) -> ArrayVec<u8, 260>
        requires { IsT4Command self.now }
        ensures { result.items ≡ command_bytes self.now }
    {
        let mut bytes = ArrayVec::new();
        bytes.push(CLASS);
        match self {
            T4Command::SelectApplication => {
                let head = [SELECT, 0x04, 0x00, APPLICATION.len() as u8];
                bytes.try_extend_from_slice(&head).unwrap();
                bytes.try_extend_from_slice(&APPLICATION).unwrap();
                bytes.push(0x00);
            }
            T4Command::SelectFile { id } => {
                let [high, low] = high_first(*id);
                let rest = [SELECT, 0x00, 0x0C, 2, high, low];
                bytes.try_extend_from_slice(&rest).unwrap();
            }
            T4Command::ReadBinary { offset, count } => {
                let [high, low] = high_first(*offset);
                let rest = [READ_BINARY, high, low, *count];
                bytes.try_extend_from_slice(&rest).unwrap();
            }
            T4Command::UpdateBinary { offset, content } => {
                let [high, low] = high_first(*offset);
                let head = [UPDATE_BINARY, high, low, content.len() as u8];
                bytes.try_extend_from_slice(&head).unwrap();
                bytes.try_extend_from_slice(content).unwrap();
            }
        }
        bytes
    }
}

fn high_first(word: u16) -> [u8; 2]
    ensures { result ≡ high_first word }
{
    [(word / 256) as u8, (word % 256) as u8]
}
