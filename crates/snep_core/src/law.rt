//! What the units of a connection put, whatever a server does with them; what a server accepts, by the payloads alone;
//! and that a client's calls come to an end.

ghost use Rattle.snep_core.specs.Accord.{CountedServe, OffersAccord, PeersServe};
ghost use Rattle.snep_core.specs.Puts.{PutsOne};
ghost use Rattle.snep_core.specs.Cuts.{FrontsPut, LastPut};
ghost use Rattle.snep_core.specs.Links.{ClientLinkLaw};
ghost use Rattle.snep_core.specs.Payloads.{AcceptedInOrder, CutOffAccepts, PayloadsAccepted};
ghost use Rattle.snep_core.specs.RepliesLeft.{CallsBegin, CallsEnd, RepliesFall};

/// The units of a connection put one list of messages.
pub fn one_list()
    ensures { PutsOne }
{}

/// Whichever first units of a client's puts came: they put a front of its messages that are within the limit.
pub fn fronts()
    ensures { FrontsPut }
{}

/// The message of the last put was put exactly where all its units came and it is within the limit; those before it are
/// whole.
pub fn last_put()
    ensures { LastPut }
{}

/// A client puts one message after the other, the next once the one before was told. Whichever first units of the last
/// one came: what they put is a front of its messages that are within the limit, all that were told to be taken, and at
/// most the last one more, which wasn't answered.
pub fn link()
    ensures { ClientLinkLaw }
{}

/// Whatever payloads come after a restart: what a server accepts from a client's SAP is what the units of its
/// connections put.
pub fn payloads()
    ensures { PayloadsAccepted }
{}

/// Messages are accepted in the order in which the units that complete them stand in the payloads.
pub fn in_order()
    ensures { AcceptedInOrder }
{}

/// Where want of memory leaves a step of an end with a server unfinished: what was accepted before stays, and what was
/// accepted since is the first of what the whole step would accept.
pub fn cut_off()
    ensures { CutOffAccepts }
{}

/// An end with a server of this project is a far end of the kind that the calls of a client speak of, also one whose
/// payloads have given numbers of PDUs.
pub fn peer()
    ensures most { PeersServe }
    ensures counted { CountedServe }
{}

/// What is offered for get between two calls of a client changes nothing of how the two stand.
pub fn any_table()
    ensures { OffersAccord }
{}

/// Whatever a far end replies, a call of a client comes to an end, of any number of jobs, each on a connection of its
/// own: by each reply after which it goes on, fewer replies are left to it.
pub fn calls_end()
    ensures begins { CallsBegin }
    ensures falls { RepliesFall }
    ensures most { CallsEnd }
{}
