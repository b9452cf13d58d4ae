//! The phases of a write, each a type that the next call takes.

ghost use Rattle.std.specs.Prelude.{◌≡◌, IfOk};
ghost use Rattle.tag_reader.specs.Heard.{IsOf};
ghost use Rattle.tag_writer.specs.declared.phase.Phase.TheVariants as phases;
ghost use Rattle.tag_writer.specs.Commands.{IsFit, IsFit-prop};
ghost use Rattle.tag_writer.specs.Ends.{EndsPhase};
ghost use Rattle.tag_writer.specs.Phases.{how_of};

use crate::fault::WriteFault;
use crate::putting::put_all;
use crate::work::Work;
use nfc_base::TagLink;
use std::alloc::Global;

/// The last phase that was reached: all is planned, the tag holds the empty message, or all but the length's block
/// is new.
#[derive(Clone, Copy, Debug, PartialEq, Eq)]
pub enum Phase {
    Prepared,
    Emptied,
    Filled,
}

/// A phase that wasn't reached: the last one that was, and why.
#[derive(Clone, Copy, Debug, PartialEq, Eq)]
pub struct Stopped {
    pub phase: Phase,
    pub cause: WriteFault,
}

/// All contents are planned, all memory is taken, and nothing is written.
#[derive(Debug, Drop)]
pub struct Prepared {
    pub(crate) work: Work,
    ghost fit: { IsFit work } by { IsFit-prop work },
}

/// The tag holds the empty message.
#[derive(Debug, Drop)]
pub struct Emptied {
    pub(crate) work: Work,
    ghost fit: { IsFit work } by { IsFit-prop work },
}

/// All but the length's block or field is new.
#[derive(Debug, Drop)]
pub struct Filled {
    pub(crate) work: Work,
    ghost fit: { IsFit work } by { IsFit-prop work },
}

/// The tag holds the new message.
#[derive(Clone, Copy, Debug, PartialEq, Eq)]
pub struct Opened;

/// The writes that follow a phase.
fn advance<T: TagLink>(
    alloc: Global,
    link: &mut T,
    work: &Work,
    phase: Phase,
) -> Result<(), Stopped>
    requires ready { T.ready link.old }
    requires of { IsOf (how_of work.now) (T.seen link.old) }
    requires fit { IsFit work.now }
    ensures ends { EndsPhase phase work.now (T.seen link.old) (T.seen link.new) result }
    ensures ready { T.ready link.new }
    ensures same { T.lenders link.new ≡ T.lenders link.old }
    ensures moves { T.moves link.old link.new }
{
    match put_all(alloc, link, work, phase) {
        Ok(()) => Ok(()),
        Err(cause) => Err(Stopped { phase, cause }),
    }
}

impl Prepared {
    /// Takes the old message away.
    pub fn empty<T: TagLink>(self, alloc: Global, link: &mut T) -> Result<Emptied, Stopped>
        requires ready { T.ready link.old }
        // it leads to a tag of the same kind
        requires of { IsOf (how_of self.work) (T.seen link.old) }
        // whatever the tag does, and where it is one that keeps to its table, as the call before left it
        ensures ends { EndsPhase phases.Prepared self.work (T.seen link.old) (T.seen link.new) result }
        ensures kept { IfOk result (λ e. e.work ≡ self.work) }
        ensures ready { T.ready link.new }
        ensures same { T.lenders link.new ≡ T.lenders link.old }
        ensures moves { T.moves link.old link.new }
    {
        let work = self.work;
        match advance(alloc, link, &work, Phase::Prepared) {
            Ok(()) => Ok(Emptied { work }),
            Err(stopped) => Err(stopped),
        }
    }
}

impl Emptied {
    /// Writes all but the length's block or field.
    pub fn fill<T: TagLink>(self, alloc: Global, link: &mut T) -> Result<Filled, Stopped>
        requires ready { T.ready link.old }
        // it leads to a tag of the same kind
        requires of { IsOf (how_of self.work) (T.seen link.old) }
        // whatever the tag does, and where it is one that keeps to its table, as the call before left it
        ensures ends { EndsPhase phases.Emptied self.work (T.seen link.old) (T.seen link.new) result }
        ensures kept { IfOk result (λ f. f.work ≡ self.work) }
        ensures ready { T.ready link.new }
        ensures same { T.lenders link.new ≡ T.lenders link.old }
        ensures moves { T.moves link.old link.new }
    {
        let work = self.work;
        match advance(alloc, link, &work, Phase::Emptied) {
            Ok(()) => Ok(Filled { work }),
            Err(stopped) => Err(stopped),
        }
    }
}

impl Filled {
    /// Shows the new message.
    pub fn finish<T: TagLink>(self, alloc: Global, link: &mut T) -> Result<Opened, Stopped>
        requires ready { T.ready link.old }
        // it leads to a tag of the same kind
        requires of { IsOf (how_of self.work) (T.seen link.old) }
        // whatever the tag does, and where it is one that keeps to its table, as the call before left it
        ensures ends { EndsPhase phases.Filled self.work (T.seen link.old) (T.seen link.new) result }
        ensures ready { T.ready link.new }
        ensures same { T.lenders link.new ≡ T.lenders link.old }
        ensures moves { T.moves link.old link.new }
    {
        match advance(alloc, link, &self.work, Phase::Filled) {
            Ok(()) => Ok(Opened),
            Err(stopped) => Err(stopped),
        }
    }
}
