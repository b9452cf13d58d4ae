//! The report's text of an entry.

ghost use Rattle.std.specs.Prelude.{◌≡◌, ◌++◌, IfOk, OnOk};
ghost use Rattle.bench_world.specs.Report.{events_text, entry_text, line_text, answer_text};

use crate::entry::Entry;
use crate::event_lines::event_line;
use crate::pieces::answer_pieces;
use nfc_base::Event;
use std::alloc::{AllocError, Global};

/// The lines of an entry: one for each event, unless `quiet`, and one for the answer.
pub fn render(alloc: Global, entry: &Entry, quiet: bool) -> Result<Vec<u8>, AllocError>
    ensures { IfOk result (λ text. text.items ≡ entry_text quiet entry.now) }
{
    let mut text = Vec::new(alloc);
    if !quiet {
        push_events(&mut text, entry.line, entry.events.as_slice())?;
    }
    push_answer(&mut text, entry)?;
    Ok(text)
}

fn push_events(text: &mut Vec<u8>, line: u32, events: &[Event]) -> Result<(), AllocError>
    ensures { OnOk result (text.new.items ≡ text.old.items ++ events_text line events.now) }
{
    'events: for event in events {
        text.extend_from_slice(&event_line(line, event))?;
    }
    Ok(())
}

fn push_answer(text: &mut Vec<u8>, entry: &Entry) -> Result<(), AllocError>
    ensures { OnOk result (text.new.items
        ≡ text.old.items ++ line_text entry.now.line (answer_text entry.now.answer)) }
{
    let mut pieces = answer_pieces(entry);
    'pieces: while let Some(piece) = pieces.next() {
        text.extend_from_slice(&piece)?;
    }
    Ok(())
}
