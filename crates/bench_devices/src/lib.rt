//! The devices of a bench, and what is done with them on a field.
//!
//! `device` holds Type 2 and Type 4 tags and peers under a listener front, and Type 3 and Type 5 tags, as listeners;
//! `powered` those that light selects. `peer` is the
//! machine of a peer, whose far end stands beside the field. `polling` selects the one with an identifier, `reading`
//! reads the message of the tag that is selected, `writing` writes one to it, `opening` opens a link to the peer that
//! is selected, `sweeping` searches for all, `crowding` for every Type 5 tag. No search but that of `sensing` hears a
//! Type 3 tag, which it selects too, and `threes` reads and writes. `specs/Polling.antt`, `specs/CardAsking.antt` and
//! `specs/Sensing.antt` say which request is due in each of these, `specs/Answering.antt` how each may end and why,
//! `specs/Phases.antt` what each does to the field, and `specs/Threes.antt` all this of a Type 3 tag. Nothing here
//! knows of commands or answers.
#![tactic(auto)]

mod crowding;
mod device;
mod law;
mod opening;
mod peer;
mod polling;
mod powered;
mod reading;
mod sensing;
mod sweeping;
mod threes;
mod writing;

pub use crowding::sweep_tags;
pub use device::{Device, T2Upper, T4Upper};
pub use law::{devices_stay, links_far, links_open, peers_stay_unlinked};
pub use opening::open_link;
pub use peer::{PeerUpper, peer_params};
pub use polling::{SeenKind, Selection, is_named, place_of, select};
pub use powered::{LightTag, PoweredTag};
pub use reading::read;
pub use sensing::{poll_three, select_three};
pub use sweeping::{Everybody, sweep_field};
pub use threes::{read_three, write_three};
pub use writing::write;
