//! What the tables of both ends keep together, over any air. The calls do nothing: they stand for these laws.

ghost use Rattle.nfc_base.specs.Sessions.{SessionDelivers, SessionBrings, SessionReplies};
ghost use Rattle.isodep_link.specs.Blocks.{ReadsBlocks, SpellsOne};
ghost use Rattle.isodep_link.specs.Card.{DeliversAnew};
ghost use Rattle.isodep_link.specs.Commands.{DeliversCommands};
ghost use Rattle.isodep_link.specs.Reader.{FaultsStay};
ghost use Rattle.isodep_link.specs.Sizes.{limit};
ghost use Rattle.isodep_link.specs.Exchange.{iso_dep, IsReady, next_exchange, ObeysOnce};
ghost use Rattle.isodep_link.specs.Sessions.{ActivatedReady, ActivatedObeys};

/// What both ends read from a frame is exactly the one block that it spells.
pub fn blocks_read()
    ensures exact { ReadsBlocks }
    ensures one { SpellsOne }
{}

/// A command is obeyed at most once, and exactly once where the reader has its answer: in one exchange, and in
/// exchanges one after another.
pub fn obeyed_once()
    ensures exchange { ObeysOnce }
    ensures session { SessionDelivers iso_dep next_exchange IsReady limit }
    ensures brings { SessionBrings iso_dep next_exchange IsReady limit }
    ensures replies { SessionReplies iso_dep next_exchange IsReady limit }
    ensures ready { ActivatedReady }
    ensures activated { ActivatedObeys }
{}

/// What a card delivers are the commands of the blocks that it heard, each anew.
pub fn delivered_once()
    ensures commands { DeliversCommands }
    ensures anew { DeliversAnew }
{}

/// A fault of a reader is its last word on a command.
pub fn faults_stay()
    ensures { FaultsStay }
{}
