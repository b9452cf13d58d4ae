//! What happens on the air, and what a reader hears of it.

use crate::frame::Frame;

/// What becomes of a transmission. The simulated air is this project's own.
#[derive(Clone, Copy, Debug, PartialEq, Eq)]
pub enum Fate {
    /// All hearers get the frame.
    Pass,
    /// On a request no listener hears it; of an answer the reader hears that there was one.
    Damage,
    /// Nobody hears it.
    Lose,
    /// The field goes dark: before any listener hears a request, or after all have obeyed it.
    Break,
}

/// One event of a trace. A `Clash` holds the longest common first bits of the answers.
#[derive(Debug, Drop, PartialEq)]
pub enum Event {
    Reset,
    Request { frame: Frame, fate: Fate },
    Answer { frame: Frame, fate: Fate },
    Clash { frame: Frame, fate: Fate },
}

/// What a reader hears of one turn. `Collided` holds the longest common first bits of the answers.
#[derive(Debug, Drop, PartialEq)]
pub enum Heard {
    Whole(Frame),
    Collided(Frame),
    Damaged,
    Silent,
}
