//! The link to one tag.

ghost use Rattle.std.specs.Prelude.{◌≡◌, ◌≢◌, List, OnOk, IfOk, IfErr, Option, Some, None, false};
ghost use Rattle.std.specs.Borrow.{GName};
ghost use Rattle.nfc_base.specs.Numbers.{ask_fault_number};
ghost use Rattle.nfc_base.specs.TagLinks.{LinkView, MayAsk, Obeys, IsAnswer, IsFault, AskCause, IsEnded, Rises};
ghost use Rattle.nfc_base.specs.declared.tag_link.AskFault.{AskFault};
ghost use Rattle.nfc_base.specs.declared.tag_link.AskFault.TheVariants.{Memory};

use crate::frame::Frame;
use std::alloc::Global;
use thiserror::Error;

/// Why a link to a tag is over.
#[derive(Clone, Copy, Debug, PartialEq, Eq, Error)]
pub enum AskFault {
    #[error("the field was lost")]
    FieldLost = 1,
    #[error("six bad receptions in one wait")]
    SixBad = 2,
    #[error("out of memory")]
    Memory = 3,
    #[error("the tag sent a frame that is no allowed answer")]
    Protocol = 4,
}

impl AskFault {
    /// Its number in reports and tests.
    pub fn number(&self) -> u8
        ensures { result ≡ ask_fault_number self.now }
    {
        *self as u8
    }
}

/// Brings commands to one tag, and its answers back. A command may reach the tag more than once, with the same store
/// after each time; a Type 4 tag is reached at most once. After a fault the link is over, and each later call answers
/// the same fault and sends nothing.
pub trait TagLink {
    /// What contracts see of the link.
    ghost seen: { Self → LinkView };

    /// What it borrows.
    ghost lenders: { Self → List GName };

    /// What `ask` needs of what it borrows; it stands again after each call.
    ghost ready: { Self → Type 0 };

    /// What may happen to what it borrows in calls of `ask`. Here a link says by which receptions each fault comes,
    /// since its counts are its own.
    ghost moves: { Self → Self → Type 0 };

    /// Asks the tag: the answer of its step, once it came through whole.
    fn ask(&mut self, alloc: Global, command: &Frame) -> Result<Frame, AskFault>
        requires ready { ready self.old }
        requires fits { MayAsk (seen self.old).kind (seen self.old).identifier command.now }
        ensures obeys { Obeys (seen self.old) (seen self.new) command.now }
        ensures rises { Rises (seen self.old) (seen self.new) }
        ensures last { (seen self.old).over ≡ None → (seen self.new).last ≡ Some command.now }
        ensures ok { IfOk result (λ reply. IsAnswer (seen self.old) (seen self.new) command.now reply) }
        ensures err { IfErr result (λ e. IsFault (seen self.old) (seen self.new) command.now e) }
        ensures cause { (seen self.old).over ≡ None → IfErr result (λ e. AskCause (seen self.old) (seen self.new) e) }
        ensures ended { (e : AskFault) → (seen self.old).over ≡ Some e
            → IsEnded (seen self.old) (seen self.new) e result }
        // Where all transmissions pass, a command that the tag answers is answered.
        ensures calm { (seen self.old).over ≡ None → (seen self.old).dark ≡ false
            → (seen self.new).noise ≡ (seen self.old).noise
            → ((seen self.old).step (seen self.old).state command.now).answer ≢ None → IfErr result (λ e. e ≡ Memory) }
        ensures ready { ready self.new }
        ensures same { lenders self.new ≡ lenders self.old }
        ensures moves { moves self.old self.new };

    ghost stays: { (a : Self) → moves a a };

    ghost goes_on: { (a b c : Self) → moves a b → moves b c → moves a c };
}
