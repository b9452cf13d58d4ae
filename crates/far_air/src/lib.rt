//! The air of devices with far ends above them: a world that holds, for each device at its place, its far end's state.
//!
//! `specs/FarEnds.antt` says what far ends do, and `specs/FarWorld.antt` what the world is and what each event
//! changes. `law` has two bridges: over quiet devices the world is that of the quiet air (`specs/Quietly.antt`), and
//! where one device alone may hand something over, what the field's `transmit` says over its far end is a turn of the
//! world (`specs/FarTurns.antt`).
#![tactic(auto)]

mod law;

pub use law::{far_ends_stay, far_turns, quiet_stretches, two_frames};
