//! Both ends of ISO-DEP, as functions of what came on a link.

ghost use Rattle.std.specs.Prelude.{◌≡◌, ◌≤◌};
ghost use Rattle.zevlodek_c.specs.Entries.{EndTells};
ghost use Rattle.zevlodek_c.specs.Iso.{CardTells, card_begins, card_shown, card_takes, reader_begins, reader_shown};
ghost use Rattle.zevlodek_c.specs.Iso.{reader_takes};

use crate::codes::{ASLEEP, BAD_ARGUMENT, BAD_LOG, DONE, NO_ANSWER, SEND, SILENT, SIX_BAD};
use crate::entries::{BEGUN, FRAME, REPLY, Replayed, heard_of, replay};
use crate::showing::{Told, show};
use isodep_link::{CardEnd, CardStep, ReaderEnd, ReaderStep};
use nfc_base::{Frame, Tech};
use std::marker::Model;

/// The longest command, and the longest reply.
const LONGEST: usize = 264;

/// A reader's end, and what it does behind what came; nothing before the first command.
#[derive(Drop)]
struct ReaderSide {
    end: ReaderEnd,
    step: Option<ReaderStep>,
}

impl Model for ReaderSide {
    ghost use Rattle.zevlodek_c.specs.Iso.{ReaderNow};

    ghost Value = { ReaderNow };

    ghost view = { λ r. record { state = r.end; does = r.step } };
}

impl Replayed for ReaderSide {
    ghost use Rattle.zevlodek_c.specs.Iso.{reader_takes};

    ghost takes = { reader_takes };

    /// It begins with a command, or goes on by what it heard.
    fn take(self, kind: u8, content: &[u8]) -> Option<ReaderSide> {
        let ReaderSide { mut end, step: _ } = self;
        if kind == BEGUN {
            if content.len() > LONGEST {
                return None;
            }
            let step = Some(ReaderStep::Send(end.begin(content)));
            return Some(ReaderSide { end, step });
        }
        let heard = heard_of(kind, content)?;
        let step = Some(end.next(&heard));
        Some(ReaderSide { end, step })
    }
}

fn show_reader(side: ReaderSide, out: &mut [u8], told: &mut Told) -> i32
    ensures { record { answer = result; out = out.new; told = told.new } ≡ reader_shown side out.old told.old }
{
    match side.step {
        None => SILENT,
        Some(ReaderStep::Send(frame)) => show(SEND, frame.view(), out, told),
        Some(ReaderStep::Finished(answer)) => show(DONE, answer.as_slice(), out, told),
        Some(ReaderStep::SixBad) => SIX_BAD,
        Some(ReaderStep::Protocol) => NO_ANSWER,
    }
}

/// Goes on as a reader of a card with this size code: `SEND` where the frame in `out` is to be sent, `DONE` where the
/// answer to the last command stands there.
#[tactic(auto, using(crate::proofs::EntryLogs::tells_replayed))]
#[unsafe(no_mangle)]
pub extern "C" fn zev_iso_reader_next(code: u8, log: &[u8], out: &mut [u8], told: &mut Told) -> i32
    ensures { EndTells reader_takes (reader_begins code) reader_shown log.now out.old told.old
        (record { answer = result; out = out.new; told = told.new }) }
{
    let side = ReaderSide {
        end: ReaderEnd::new(code),
        step: None,
    };
    match replay(side, log) {
        None => BAD_LOG,
        Some(side) => show_reader(side, out, told),
    }
}

/// A card's end, and what it does behind what came.
#[derive(Drop)]
struct CardSide {
    end: CardEnd,
    step: CardStep,
}

impl Model for CardSide {
    ghost use Rattle.isodep_link.specs.Card.{CardTurn};

    ghost Value = { CardTurn };

    ghost view = { λ c. record { state = c.end; does = c.step } };
}

impl Replayed for CardSide {
    ghost use Rattle.zevlodek_c.specs.Iso.{card_takes};

    ghost takes = { card_takes };

    /// It hears a frame, or its owner replies to the command that it delivered.
    fn take(self, kind: u8, content: &[u8]) -> Option<CardSide> {
        let CardSide { mut end, step } = self;
        if kind == FRAME {
            let Ok(frame) = Frame::whole(Tech::A, content) else {
                return None;
            };
            let step = end.hear(&frame);
            return Some(CardSide { end, step });
        }
        if kind != REPLY || content.len() > LONGEST {
            return None;
        }
        match step {
            CardStep::Deliver(_) => {
                let step = CardStep::Reply(end.reply(content));
                Some(CardSide { end, step })
            }
            _ => None,
        }
    }
}

fn show_card(side: CardSide, out: &mut [u8], told: &mut Told) -> i32
    ensures { record { answer = result; out = out.new; told = told.new } ≡ card_shown side out.old told.old }
{
    match side.step {
        CardStep::Quiet => SILENT,
        CardStep::Reply(frame) => show(SEND, frame.view(), out, told),
        CardStep::Deliver(command) => show(DONE, command.as_slice(), out, told),
        CardStep::Asleep(frame) => show(ASLEEP, frame.view(), out, told),
    }
}

/// Goes on as a card with this size code: `SEND` where the frame in `out` is to be sent, `DONE` where the command there
/// is to be replied to.
#[tactic(auto, using(crate::proofs::EntryLogs::tells_replayed))]
#[unsafe(no_mangle)]
pub extern "C" fn zev_iso_card_next(code: u8, log: &[u8], out: &mut [u8], told: &mut Told) -> i32
    ensures { CardTells code log.now out.old told.old (record { answer = result; out = out.new; told = told.new }) }
{
    if code > 8 {
        return BAD_ARGUMENT;
    }
    let side = CardSide {
        end: CardEnd::new(code),
        step: CardStep::Quiet,
    };
    match replay(side, log) {
        None => BAD_LOG,
        Some(side) => show_card(side, out, told),
    }
}
