//! Links to peers in the air of devices with far ends.
//!
//! `specs/SwapTurns.antt`: what a link to a peer tells of a swap, with what its far end did, is a swap in the world
//! with far ends. `specs/Aside.antt`: so is what is said to one listener while all others are aside.
//! `specs/Ends.antt`: an end of a link is a far end of that world. `specs/PeerFars.antt`: the ends of peers, and what
//! stays of them.
#![tactic(auto)]

mod law;

pub use law::{ends_of_links, ends_of_peers, swaps, talks_aside};
