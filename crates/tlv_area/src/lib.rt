//! The message that a tag's store holds, where its memory is an area of TLVs (NFC Forum Type 2 Tag and Type 5 Tag).
//!
//! `container` reads the capability container, which names a `space`. `walk` goes over the TLVs of a space and makes
//! the map of its message: `ahead` reads one TLV, `control` takes the range that a control TLV reserves, and `ranges`
//! goes over the free addresses between ranges. `message` gives the message's bytes and their addresses. `form` says
//! that each store has exactly one form.
//!
//! `room` tells how long a new message may be, `planning` makes the plan that writes it, a `step` for each block, and
//! `writing` makes the store that it leaves.
//!
//! What a store holds: `specs/Layout.antt`, `specs/Form.antt`. What each step of a plan leaves: `specs/Writing.antt`.
#![tactic(auto)]

mod ahead;
mod container;
mod control;
mod form;
mod message;
mod planning;
mod ranges;
mod room;
mod space;
mod step;
mod walk;
mod writing;

pub use container::{
    ContainerFault, FileMap, T5Container, container_t2, container_t4, container_t5,
};
pub use form::{one_form, one_form_t2, one_form_t5, reach};
pub use message::{copy_message, message_byte};
pub use planning::{PlanFault, plan};
pub use room::capacity;
pub use space::{AreaMap, Space};
pub use step::{Plan, Step};
pub use walk::{Walk, Walker, find_message};
