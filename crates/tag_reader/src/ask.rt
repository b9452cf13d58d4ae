//! What is asked of a Type 5 tag.

ghost use Rattle.std.specs.Prelude.{◌≡◌, ◌<◌, ◌≤◌};
ghost use Rattle.tag_reader.specs.Blocks.{ask_frame, most_blocks, next_ask};
ghost use Rattle.tag_reader.specs.private.BlockSteps.{CanAsk};

use crate::known::Known;
use nfc_base::Frame;
use t5t_tag::{SHORT_NUMBERS, T5Command};
use tlv_area::{T5Container, container_t5};

/// How many bytes of content an answer has at most.
const MOST_BYTES: usize = 256;

/// One block, or several from one on: that one and as many more.
#[derive(Clone, Copy, Debug, PartialEq, Eq)]
pub enum Ask {
    One { block: u16 },
    Many { block: u8, more: u8 },
}

impl Ask {
    /// The frame of the command to the tag with this identifier.
    pub fn frame(&self, id: [u8; 8]) -> Frame
        ensures { result ≡ ask_frame id self.now }
    {
        let id = Some(id);
        let command = match *self {
            Ask::One { block } => {
                if block < SHORT_NUMBERS {
                    T5Command::Read {
                        id,
                        block: block as u8,
                    }
                } else {
                    T5Command::ReadWide { id, block }
                }
            }
            Ask::Many { block, more } => T5Command::ReadMany {
                id,
                first: block,
                more,
            },
        };
        command.to_frame()
    }
}

/// How many blocks one command may read from a block on, of an area with this end.
fn most_blocks(size: usize, end: u32, block: usize) -> usize
    requires some { 1 ≤ size }
    requires small { size ≤ 256 }
    requires short { block < 256 }
    ensures most { result ≡ most_blocks size end block }
    ensures few { result ≤ 256 }
{
    let below = (end as usize + size - 1) / size;
    let left = below.saturating_sub(block);
    (MOST_BYTES / size).min(left.min(SHORT_NUMBERS as usize - block))
}

/// What is asked behind what is known: several blocks at once where the container allows it and the tag didn't refuse
/// it.
pub fn next_ask(known: &Known) -> Ask
    requires { CanAsk known.now }
    ensures { result ≡ next_ask known.now.size known.now.single known.now.bytes.items }
{
    if known.size == 0 {
        return Ask::One { block: 0 };
    }
    let block = known.bytes.as_slice().len() / known.size;
    if let Ok(
        T5Container::Ready {
            space,
            wide: _,
            many,
        },
    ) = container_t5(known.bytes.as_slice())
    {
        if many && !known.single && block < SHORT_NUMBERS as usize {
            let most = most_blocks(known.size, space.end, block);
            return Ask::Many {
                block: block as u8,
                more: most.saturating_sub(1) as u8,
            };
        }
    }
    Ask::One {
        block: block as u16,
    }
}
