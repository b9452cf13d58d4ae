//! What every layer of the stack speaks of: frames and their bits, what happens on the air and what a reader hears
//! of it, the far end above a link, the link that carries payloads to it, and the link to a tag.
//!
//! `frame` and `event` are values; `far`, `carrier` and `tag_link` are traits whose meanings and laws the layers above
//! rely on; `items` is the one list type that public types use; `locks` is a tag's table of locked blocks.
#![tactic(auto)]

mod carrier;
mod event;
mod far;
mod frame;
mod items;
mod locks;
mod tag_link;

pub use carrier::{Carrier, EndCause, LinkEnd};
pub use event::{Event, Fate, Heard};
pub use far::{Answerer, Mute};
pub use frame::{Frame, FrameFault, Tech};
pub use items::Items;
pub use locks::Locks;
pub use tag_link::{AskFault, TagLink};

#[cfg(test)]
mod tests;
