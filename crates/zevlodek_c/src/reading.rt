//! Readings and writings of a tag, a command at a time.

ghost use Rattle.std.specs.Prelude.{◌≡◌, IfOk, IfSome};
ghost use Rattle.tag_reader.specs.Kinds.{IsNamed};
ghost use Rattle.tag_reader.specs.Survey.{IsPlacedGround};
ghost use Rattle.tag_steps.specs.Logged.{id_of};
ghost use Rattle.tag_steps.specs.Surveying.{survey_of};
ghost use Rattle.zevlodek_c.specs.Reading.{ReadsNext, SurveysNext, WritesNext, how_of, no_turns, place_told, tech_of};
ghost use Rattle.zevlodek_c.specs.Reading.{read_shown, survey_shown, write_shown};

use crate::codes::{BAD_ARGUMENT, BAD_LOG, DONE, SEND, tag_fault};
use crate::log::{LogFault, turns_of};
use crate::showing::{Told, show};
use nfc_base::Tech;
use std::alloc::Global;
use tag_reader::{Ground, How, ReadFault};
use tag_steps::{
    NextRead, NextSurvey, NextWrite, next_read_of_log, next_survey_of_log, next_write_of_log,
};
use tag_writer::WriteFault;
use tlv_area::capacity;

/// The kind of a tag by its number in C; of a Type 5 tag by its identifier too, high byte first.
fn how_of(kind: u32, id: [u8; 8]) -> Option<How>
    ensures how { result ≡ how_of kind id }
    ensures named { IfSome result (λ how. IsNamed how (id_of how)) }
{
    match kind {
        2 => Some(How::T2),
        4 => Some(How::T4),
        5 => Some(How::T5(id)),
        _ => None,
    }
}

fn tech_of(how: How) -> Tech
    ensures { result ≡ tech_of how }
{
    match how {
        How::T2 | How::T4 => Tech::A,
        How::T5(_) => Tech::V,
    }
}

fn no_turns(fault: LogFault) -> i32
    ensures { result ≡ no_turns fault }
{
    match fault {
        LogFault::Bad => BAD_LOG,
        LogFault::Memory => tag_fault(ReadFault::Memory.number()),
    }
}

fn show_read(next: NextRead, out: &mut [u8], told: &mut Told) -> i32
    ensures { record { answer = result; out = out.new; told = told.new } ≡ read_shown next out.old told.old }
{
    match next {
        NextRead::Send(command) => show(SEND, command.view(), out, told),
        NextRead::Found(found) => {
            told.writable = found.writable as u8;
            show(DONE, found.message.as_slice(), out, told)
        }
        NextRead::Fault(fault) => {
            if let ReadFault::Refused(code) = fault {
                told.code = code;
            }
            tag_fault(fault.number())
        }
    }
}

/// Tells where a message lies.
fn tell_place(place: &Ground, told: &mut Told)
    requires { IsPlacedGround place.now }
    ensures { told.new ≡ place_told place.now told.old }
{
    match place {
        Ground::Area { map, .. } => {
            told.length = map.length as usize;
            told.capacity = capacity(map);
            told.writable = map.space.writable as u8;
        }
        Ground::File { map, length } => {
            told.length = *length as usize;
            told.capacity = map.size.saturating_sub(2) as u32;
            told.writable = map.writable as u8;
        }
    }
}

fn show_survey(next: NextSurvey, out: &mut [u8], told: &mut Told) -> i32
    requires { IfOk (survey_of next) IsPlacedGround }
    ensures { record { answer = result; out = out.new; told = told.new } ≡ survey_shown next out.old told.old }
{
    match next {
        NextSurvey::Send(command) => show(SEND, command.view(), out, told),
        NextSurvey::Ground(place) => {
            tell_place(&place, told);
            DONE
        }
        NextSurvey::Fault(fault) => {
            if let ReadFault::Refused(code) = fault {
                told.code = code;
            }
            tag_fault(fault.number())
        }
    }
}

fn show_write(next: NextWrite, out: &mut [u8], told: &mut Told) -> i32
    ensures { record { answer = result; out = out.new; told = told.new } ≡ write_shown next out.old told.old }
{
    match next {
        NextWrite::Send(command) => show(SEND, command.view(), out, told),
        NextWrite::Done => DONE,
        NextWrite::Fault(fault) => {
            match fault {
                WriteFault::Refused(code) => told.code = code,
                WriteFault::TooLong(most) => told.capacity = most,
                _ => {}
            }
            tag_fault(fault.number())
        }
    }
}

/// Goes on with the reading of a tag: `SEND` where the command in `out` is to be sent, `DONE` where the message stands
/// there.
#[unsafe(no_mangle)]
pub extern "C" fn zev_read_next(
    alloc: Global,
    kind: u32,
    id: &[u8; 8],
    log: &[u8],
    out: &mut [u8],
    told: &mut Told,
) -> i32
    ensures { ReadsNext (how_of kind id.now) log.now out.old told.old
        (record { answer = result; out = out.new; told = told.new }) }
{
    let Some(how) = how_of(kind, *id) else {
        return BAD_ARGUMENT;
    };
    match turns_of(alloc, tech_of(how), log) {
        Err(fault) => no_turns(fault),
        Ok(turns) => show_read(next_read_of_log(alloc, how, turns.as_slice()), out, told),
    }
}

/// Goes on with the survey of a tag: `SEND` where the command in `out` is to be sent, `DONE` where it is told how long
/// a message may be.
#[unsafe(no_mangle)]
pub extern "C" fn zev_survey_next(
    alloc: Global,
    kind: u32,
    id: &[u8; 8],
    log: &[u8],
    out: &mut [u8],
    told: &mut Told,
) -> i32
    ensures { SurveysNext (how_of kind id.now) log.now out.old told.old
        (record { answer = result; out = out.new; told = told.new }) }
{
    let Some(how) = how_of(kind, *id) else {
        return BAD_ARGUMENT;
    };
    match turns_of(alloc, tech_of(how), log) {
        Err(fault) => no_turns(fault),
        Ok(turns) => show_survey(next_survey_of_log(alloc, how, turns.as_slice()), out, told),
    }
}

/// Goes on with the writing of a message to a tag: `SEND` where the command in `out` is to be sent, `DONE` where it is
/// written.
#[unsafe(no_mangle)]
pub extern "C" fn zev_write_next(
    alloc: Global,
    kind: u32,
    id: &[u8; 8],
    message: &[u8],
    log: &[u8],
    out: &mut [u8],
    told: &mut Told,
) -> i32
    ensures { WritesNext (how_of kind id.now) message.now log.now out.old told.old
        (record { answer = result; out = out.new; told = told.new }) }
{
    let Some(how) = how_of(kind, *id) else {
        return BAD_ARGUMENT;
    };
    match turns_of(alloc, tech_of(how), log) {
        Err(fault) => no_turns(fault),
        Ok(turns) => show_write(
            next_write_of_log(alloc, how, message, turns.as_slice()),
            out,
            told,
        ),
    }
}
