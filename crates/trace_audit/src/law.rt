//! That a command tells the technology of each frame in a report, though no line does. The call does nothing: it stands
//! for these laws.

ghost use Rattle.trace_audit.specs.Technologies.{JournalsTech, LegalTech, NamesBehind, NamesBetween};

/// The events of a legal step have the technologies of its command: a request the one that the command and its bytes
/// tell, an answer and a clash that of the request before it. This is said where the tag that a read or a write names
/// is of the technology that its identifier tells. So it is of a command that a line spells, where a bench stands
/// between two commands and wherever the lines of a script lead; and thus all events of a script's journal have them.
pub fn technologies_told()
    ensures steps { LegalTech }
    ensures between { NamesBetween }
    ensures behind { NamesBehind }
    ensures journals { JournalsTech }
{}
