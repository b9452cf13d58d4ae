//! What a call of a client waits for, and what it comes to.

ghost use Rattle.std.specs.Prelude.{◌≡◌};
ghost use Rattle.snep_core.specs.Calling.{refused_by};
ghost use Rattle.snep_core.specs.Talk.{is_over as over_by};

use crate::client::Stands;
use crate::fault::SnepFault;
use bytes::Bytes;
use nfc_base::Items;

/// What a call is about on a connection. A get says how many bytes a value may have, a put doesn't.
#[derive(Debug, Drop)]
pub enum Job {
    /// A request of which nothing was submitted.
    Begins(Option<u32>, Bytes),
    /// Its first unit was submitted: a continue is awaited, and then these bytes go out.
    Waits(Option<u32>, Bytes),
    /// These bytes are to be submitted, and then an answer is awaited.
    Sends(Option<u32>, Bytes),
    /// Of a value of so many bytes these came: the rest is to be asked for.
    Asks(u32, Items<u8>),
    /// It was asked for, and is awaited.
    Collects(u32, Items<u8>),
    /// What a lookup of this number is told.
    Looks(u8),
    /// The end of the connection.
    Closes,
    /// Nothing more: it came to this.
    Over(Ending),
}

impl Job {
    /// Nothing more is to be done for it.
    pub(crate) fn is_over(&self) -> bool
        ensures { result ≡ over_by self.now }
    {
        matches!(self, Job::Over(_))
    }
}

/// A job, on the connection from a SAP.
#[derive(Debug, Drop)]
pub struct OnSap {
    pub sap: u8,
    pub job: Job,
}

/// What a job comes to.
#[derive(Debug, Drop)]
pub enum Ending {
    Done,
    Value(Items<u8>),
    Sap(u8),
    Refused(Refusal),
}

/// Why a server refuses a request.
#[derive(Clone, Copy, Debug, PartialEq, Eq)]
pub enum Refusal {
    Reject,
    NotFound,
    Excess,
    NotImplemented,
}

impl Refusal {
    /// The fault that tells it.
    pub(crate) fn fault(self) -> SnepFault
        ensures { result ≡ refused_by self }
    {
        match self {
            Refusal::Reject => SnepFault::Reject,
            Refusal::NotFound => SnepFault::NotFound,
            Refusal::Excess => SnepFault::Excess,
            Refusal::NotImplemented => SnepFault::NotImplemented,
        }
    }
}

/// What a reply makes of a job, and whether it brought a unit with a byte.
#[derive(Debug, Drop)]
pub struct Heard {
    pub(crate) job: Job,
    pub(crate) some: bool,
}

/// A job whose payload was given: how its connection stood then, and whether a unit waited there to be given.
#[derive(Debug, Drop)]
pub struct Awaiting {
    pub(crate) sap: u8,
    pub(crate) job: Job,
    pub(crate) before: Stands,
    pub(crate) waiting: bool,
}

/// What a reply makes of all jobs, and whether it gave something to one of them.
#[derive(Debug, Drop)]
pub struct HeardAll {
    pub(crate) jobs: Items<OnSap>,
    pub(crate) gave: bool,
}

/// What a call is behind an exchange: at its end, with all its jobs over; going on after so many replies that gave
/// nothing; or the far end is given up.
#[derive(Debug, Drop)]
pub enum Turn {
    Ended(Items<OnSap>),
    Went(Items<OnSap>, u8),
    GaveUp,
}
