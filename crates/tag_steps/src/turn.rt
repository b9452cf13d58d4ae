//! What passed between a reader and a tag.

ghost use Rattle.tag_steps.specs.Replay.{Tag};

use nfc_base::Frame;

/// A command that the tag was sent, and its answer.
#[derive(Debug, Drop)]
pub struct Turn {
    pub command: Frame,
    pub answer: Frame,
}

/// The tag that the turns were made with. No code looks at it: it is there for what contracts say.
pub trait RealTag {
    /// What it was when the first command was sent, and what it does with commands.
    ghost real: { Self → Tag };
}
