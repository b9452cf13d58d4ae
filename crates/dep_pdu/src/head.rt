//! The direction and command bytes.

ghost use Rattle.std.specs.Prelude.{◌≡◌, Some, None, IfSome, true};
ghost use Rattle.dep_pdu.specs.Refusal.{head_of, is_direction};

/// The direction bytes: from initiator to target, and back.
pub(crate) const REQUEST: u8 = 0xD4;

pub(crate) const ANSWER: u8 = 0xD5;

/// The command bytes; that of an answer is one more than that of its request.
pub(crate) const ATR_REQ: u8 = 0x00;

pub(crate) const ATR_RES: u8 = 0x01;

pub(crate) const DEP_REQ: u8 = 0x06;

pub(crate) const DEP_RES: u8 = 0x07;

pub(crate) const DSL_REQ: u8 = 0x08;

pub(crate) const DSL_RES: u8 = 0x09;

pub(crate) const RLS_REQ: u8 = 0x0A;

pub(crate) const RLS_RES: u8 = 0x0B;

/// Where both stand, and where they end.
pub(crate) const DIRECTION_PLACE: usize = 2;

pub(crate) const COMMAND_PLACE: usize = 3;

pub(crate) const HEAD_END: usize = 4;

/// What both name; `up` is true from target to initiator.
#[derive(Clone, Copy, Debug, PartialEq, Eq)]
pub(crate) enum Head {
    Atr { up: bool },
    Dep { up: bool },
    Dsl { up: bool },
    Rls { up: bool },
}

impl Head {
    /// What a direction byte and a command byte name, `None` where they name no frame.
    pub(crate) fn read(direction: u8, command: u8) -> Option<Head>
        ensures reads { result ≡ head_of direction command }
        ensures direction { IfSome result (λ h. is_direction direction ≡ true) }
    {
        match (direction, command) {
            (REQUEST, ATR_REQ) => Some(Head::Atr { up: false }),
            (REQUEST, DEP_REQ) => Some(Head::Dep { up: false }),
            (REQUEST, DSL_REQ) => Some(Head::Dsl { up: false }),
            (REQUEST, RLS_REQ) => Some(Head::Rls { up: false }),
            (ANSWER, ATR_RES) => Some(Head::Atr { up: true }),
            (ANSWER, DEP_RES) => Some(Head::Dep { up: true }),
            (ANSWER, DSL_RES) => Some(Head::Dsl { up: true }),
            (ANSWER, RLS_RES) => Some(Head::Rls { up: true }),
            _ => None,
        }
    }
}
