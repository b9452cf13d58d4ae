//! Writing the text of an entry. Its lines are made where they are gathered, so that the sink is called once for many
//! of them.

ghost use Rattle.std.specs.Prelude.{◌≡◌, ◌≤◌, ◌++◌, [], OnOk, OnErr};
ghost use Rattle.nfc_io.specs.Counts.{HasRisen};
ghost use Rattle.nfc_io.specs.Moves.{with_end, GainsFront};
ghost use Rattle.bench_world.specs.Report.{events_text, line_text, answer_text, entry_text};
ghost use Rattle.nfc_bench.specs.Gathering.{IsWritten};

use super::gathering::{gather, make_room};
use arrayvec::ArrayVec;
use bench_world::{Entry, answer_pieces, push_event_line};
use nfc_base::Event;
use nfc_io::{Failed, Sink, write_all};

/// Writes the lines of an entry: those of its events, unless `quiet`, and that of its answer. All of them are in the
/// sink when it returns. It takes no memory.
pub fn write_entry<K: Sink>(sink: &mut K, entry: &Entry, quiet: bool) -> Result<(), Failed>
    ensures ok { OnOk result (K.taken sink.new ≡ with_end (K.taken sink.old) (entry_text quiet entry.now)) }
    ensures still { OnOk result (K.faults sink.new ≡ K.faults sink.old) }
    ensures err { OnErr result (GainsFront (K.taken sink.old) (K.taken sink.new) (entry_text quiet entry.now)) }
    ensures cause { OnErr result (HasRisen (K.faults sink.old) (K.faults sink.new)) }
    ensures count { K.faults sink.old ≤ K.faults sink.new }
{
    let mut held = ArrayVec::new();
    gather_entry(sink, &mut held, entry, quiet)?;
    write_all(sink, held.as_slice())
}

/// Gathers the lines of an entry.
fn gather_entry<K: Sink>(
    sink: &mut K,
    held: &mut ArrayVec<u8, 8192>,
    entry: &Entry,
    quiet: bool,
) -> Result<(), Failed>
    requires { held.old.items ≡ [] }
    ensures ok { OnOk result
        (IsWritten (entry_text quiet entry.now) held.new.items (K.taken sink.old) (K.taken sink.new)) }
    ensures still { OnOk result (K.faults sink.new ≡ K.faults sink.old) }
    ensures err { OnErr result (GainsFront (K.taken sink.old) (K.taken sink.new) (entry_text quiet entry.now)) }
    ensures cause { OnErr result (HasRisen (K.faults sink.old) (K.faults sink.new)) }
    ensures count { K.faults sink.old ≤ K.faults sink.new }
{
    if quiet {
        return gather_answer(sink, held, entry);
    }
    gather_events(sink, held, entry.line, entry.events.as_slice())?;
    gather_answer(sink, held, entry)
}

fn gather_events<K: Sink>(
    sink: &mut K,
    held: &mut ArrayVec<u8, 8192>,
    line: u32,
    events: &[Event],
) -> Result<(), Failed>
    ensures ok { OnOk result (IsWritten (held.old.items ++ events_text line events.now) held.new.items
        (K.taken sink.old) (K.taken sink.new)) }
    ensures still { OnOk result (K.faults sink.new ≡ K.faults sink.old) }
    ensures err { OnErr result (GainsFront (K.taken sink.old) (K.taken sink.new)
        (held.old.items ++ events_text line events.now)) }
    ensures cause { OnErr result (HasRisen (K.faults sink.old) (K.faults sink.new)) }
    ensures count { K.faults sink.old ≤ K.faults sink.new }
{
    'events: for event in events {
        make_room(sink, held)?;
        push_event_line(held, line, event);
    }
    Ok(())
}

fn gather_answer<K: Sink>(
    sink: &mut K,
    held: &mut ArrayVec<u8, 8192>,
    entry: &Entry,
) -> Result<(), Failed>
    ensures ok { OnOk result (IsWritten (held.old.items ++ line_text entry.now.line (answer_text entry.now.answer))
        held.new.items (K.taken sink.old) (K.taken sink.new)) }
    ensures still { OnOk result (K.faults sink.new ≡ K.faults sink.old) }
    ensures err { OnErr result (GainsFront (K.taken sink.old) (K.taken sink.new)
        (held.old.items ++ line_text entry.now.line (answer_text entry.now.answer))) }
    ensures cause { OnErr result (HasRisen (K.faults sink.old) (K.faults sink.new)) }
    ensures count { K.faults sink.old ≤ K.faults sink.new }
{
    let mut pieces = answer_pieces(entry);
    'pieces: while let Some(piece) = pieces.next() {
        gather(sink, held, &piece)?;
    }
    Ok(())
}
