//! Reads the message of a tag over any link (NFC Forum Type 2, Type 4 and Type 5 Tag).
//!
//! `read` gives the message. Of a Type 2 tag it asks for the bytes from the first on (`asking`), and after each READ
//! looks whether they tell where the message lies (`finding`), so that it asks for nothing that it doesn't need. Of a
//! Type 5 tag it does the same (`block_finding`) by the commands that the tag's container allows: `ask` says which one
//! follows what is `known`, and `blocks` asks it. Of a Type 4 tag it opens the file that the container names, and reads
//! its message (`file`). `told` reads the answers. `law` says that each store has one list of what is asked.
//!
//! `survey` (`surveying`) gives what a writer needs to know before it writes, the `ground`: of an area all bytes
//! (`area`), of a file the container and the length.
#![tactic(auto)]

mod area;
mod ask;
mod asking;
mod block_finding;
mod blocks;
mod fault;
mod file;
mod finding;
mod found;
mod ground;
mod how;
mod known;
mod law;
mod reader;
mod surveying;
mod told;

pub use fault::ReadFault;
pub use found::{Found, Site};
pub use ground::Ground;
pub use how::How;
pub use law::one_asked;
pub use reader::read;
pub use surveying::survey;
pub use told::tell_t4;
