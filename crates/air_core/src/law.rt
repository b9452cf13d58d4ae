//! Laws of the air and of links over it. The calls do nothing: they stand for these laws.

ghost use Rattle.std.specs.Prelude.{Result};
ghost use Rattle.nfc_base.specs.Signal.{Signal};
ghost use Rattle.nfc_base.specs.StopAndWait.{StopAndWait};
ghost use Rattle.nfc_base.specs.declared.tag_link.AskFault.{AskFault};
ghost use Rattle.air_core.specs.Conversation.{AirModel};
ghost use Rattle.air_core.specs.OneAir.{TellsHeard, TurnsOnAir, SendsTurns};
ghost use Rattle.air_core.specs.PlainLinks.{PlainSeen, FewSent};

use crate::listener::Listener;

/// A turn is the same to a reader, to the listeners of a field and to a link that stops and waits: over any air what is
/// heard is what the events tell, and the turns of such a link are those of the air in which its answering end is
/// alone.
#[tactic(auto, using(crate::proofs::OneAir::tells_heard, crate::proofs::OneAir::turns_on_air, crate::proofs::OneAir::sends_turns))]
pub fn one_air<W, I, T>()
    ensures heard { (m : AirModel W) → TellsHeard m }
    ensures turn { (L : StopAndWait I T Signal) → TurnsOnAir L }
    ensures sent { (L : StopAndWait I T Signal) → SendsTurns L }
{}

/// An `ask` of a plain link takes at most twelve transmissions, whatever it answers. What it shows before and after, by
/// the clauses `moves`, `ok` and `err` of the call, are the premises.
#[tactic(auto, using(crate::proofs::PlainFew::few_sent))]
pub fn few_sent<L: Listener>()
    ensures { (a b : PlainSeen L) (c : Signal) (result : Result Signal AskFault) → FewSent L.Listener a b c result }
{}
