//! Telling what an audit found.

ghost use Rattle.std.specs.Prelude.{◌≡◌, ◌+◌, ◌≤◌, ◌<◌, ◌^◌, ◌++◌, [], codes, false, length, OnOk, OnErr};
ghost use Rattle.hex.specs.Hex.{encode_upper};
ghost use Rattle.bench_script.specs.Canonical.{hex_text};
ghost use Rattle.bench_world.specs.Report.{source_text};
ghost use Rattle.nfc_io.specs.Counts.{HasRisen};
ghost use Rattle.nfc_io.specs.Moves.{with_end, GainsFront};
ghost use Rattle.nfc_bench.specs.AuditText.{faulty_line, legal_line, accepted_head, accepted_line, links_text};
ghost use Rattle.nfc_bench.specs.AuditText.{legal_text, messages_text};
ghost use Rattle.nfc_bench.specs.Gathering.{IsWritten};

use super::gathering::gather;
use super::text::{push_number, push_text};
use arrayvec::ArrayVec;
use bench_world::Bench;
use nfc_base::Items;
use nfc_io::{Failed, Sink, write_all};
use snep_core::CLIENT_SAP;

/// How many bytes one piece brings the digits of at most.
const MOST_BYTES: usize = 320;

const DIGITS: &[u8; 16] = b"0123456789ABCDEF";

/// The line that tells the line of a report with which no run goes on. It takes no memory.
pub fn faulty_line(line: u32) -> ArrayVec<u8, 96>
    ensures { result.items ≡ faulty_line line }
{
    let mut text = ArrayVec::new();
    push_text(&mut text, b"faulty line ");
    push_number(&mut text, line);
    push_text(&mut text, b"\n");
    text
}

fn legal_line(entries: u32) -> ArrayVec<u8, 96>
    ensures { result.items ≡ legal_line entries }
{
    let mut text = ArrayVec::new();
    push_text(&mut text, b"legal ");
    push_number(&mut text, entries);
    push_text(&mut text, b"\n");
    text
}

/// The SAP from which a message came, where it is another than the client's.
fn push_source(line: &mut ArrayVec<u8, 96>, source: u8)
    requires { length line.old.items ≤ 40 }
    ensures value { line.new.items ≡ line.old.items ++ source_text source }
    ensures size { length line.new.items ≤ length line.old.items + 11 }
{
    if source != CLIENT_SAP {
        push_text(line, b".");
        push_number(line, source as u32);
    }
}

/// What stands before a message that was accepted.
fn accepted_head(link: u32, source: u8) -> ArrayVec<u8, 96>
    ensures { result.items ≡ accepted_head link source }
{
    let mut head = ArrayVec::new();
    push_text(&mut head, b"accepted ");
    push_number(&mut head, link);
    push_source(&mut head, source);
    push_text(&mut head, b":");
    head
}

/// The digits of so many bytes.
fn digits(bytes: &[u8]) -> ArrayVec<u8, 640>
    requires { length bytes.now ≤ 320 }
    ensures { result.items ≡ encode_upper bytes.now }
{
    let mut piece = ArrayVec::new();
    'bytes: for &byte in bytes {
        piece.push(DIGITS[(byte / 16) as usize]);
        piece.push(DIGITS[(byte % 16) as usize]);
    }
    piece
}

/// Gathers the digits of some bytes.
fn gather_digits<K: Sink>(
    sink: &mut K,
    held: &mut ArrayVec<u8, 8192>,
    bytes: &[u8],
) -> Result<(), Failed>
    ensures ok { OnOk result (IsWritten (held.old.items ++ encode_upper bytes.now) held.new.items
        (K.taken sink.old) (K.taken sink.new)) }
    ensures still { OnOk result (K.faults sink.new ≡ K.faults sink.old) }
    ensures err { OnErr result (GainsFront (K.taken sink.old) (K.taken sink.new)
        (held.old.items ++ encode_upper bytes.now)) }
    ensures cause { OnErr result (HasRisen (K.faults sink.old) (K.faults sink.new)) }
    ensures count { K.faults sink.old ≤ K.faults sink.new }
{
    let mut left = bytes;
    'pieces: while !left.is_empty() {
        let (front, rest) = left.split_at(left.len().min(MOST_BYTES));
        gather(sink, held, &digits(front))?;
        left = rest;
    }
    Ok(())
}

/// Gathers some bytes in hex, or the sign that there are none.
fn gather_hex<K: Sink>(
    sink: &mut K,
    held: &mut ArrayVec<u8, 8192>,
    bytes: &[u8],
) -> Result<(), Failed>
    ensures ok { OnOk result (IsWritten (held.old.items ++ hex_text bytes.now) held.new.items
        (K.taken sink.old) (K.taken sink.new)) }
    ensures still { OnOk result (K.faults sink.new ≡ K.faults sink.old) }
    ensures err { OnErr result (GainsFront (K.taken sink.old) (K.taken sink.new)
        (held.old.items ++ hex_text bytes.now)) }
    ensures cause { OnErr result (HasRisen (K.faults sink.old) (K.faults sink.new)) }
    ensures count { K.faults sink.old ≤ K.faults sink.new }
{
    if bytes.is_empty() {
        gather(sink, held, b"-")
    } else {
        gather_digits(sink, held, bytes)
    }
}

/// Gathers the line of a message that was accepted.
fn gather_message<K: Sink>(
    sink: &mut K,
    held: &mut ArrayVec<u8, 8192>,
    link: u32,
    source: u8,
    message: &[u8],
) -> Result<(), Failed>
    ensures ok { OnOk result (IsWritten
        (held.old.items ++ accepted_line link (record { source = source; message = message.now }))
        held.new.items (K.taken sink.old) (K.taken sink.new)) }
    ensures still { OnOk result (K.faults sink.new ≡ K.faults sink.old) }
    ensures err { OnErr result (GainsFront (K.taken sink.old) (K.taken sink.new)
        (held.old.items ++ accepted_line link (record { source = source; message = message.now }))) }
    ensures cause { OnErr result (HasRisen (K.faults sink.old) (K.faults sink.new)) }
    ensures count { K.faults sink.old ≤ K.faults sink.new }
{
    gather(sink, held, &accepted_head(link, source))?;
    gather_hex(sink, held, message)?;
    gather(sink, held, b"\n")
}

/// Gathers the lines of the messages that were accepted on a link, which came from these SAPs.
fn gather_link<K: Sink>(
    sink: &mut K,
    held: &mut ArrayVec<u8, 8192>,
    link: u32,
    messages: &[Items<u8>],
    sources: &[u8],
) -> Result<(), Failed>
    requires { length sources.now ≡ length messages.now }
    ensures ok { OnOk result (IsWritten (held.old.items ++ messages_text link messages.now sources.now) held.new.items
        (K.taken sink.old) (K.taken sink.new)) }
    ensures still { OnOk result (K.faults sink.new ≡ K.faults sink.old) }
    ensures err { OnErr result (GainsFront (K.taken sink.old) (K.taken sink.new)
        (held.old.items ++ messages_text link messages.now sources.now)) }
    ensures cause { OnErr result (HasRisen (K.faults sink.old) (K.faults sink.new)) }
    ensures count { K.faults sink.old ≤ K.faults sink.new }
{
    'messages: for i in 0..messages.len() {
        gather_message(sink, held, link, sources[i], messages[i].as_slice())?;
    }
    Ok(())
}

/// Gathers the lines of all links.
fn gather_links<K: Sink>(
    sink: &mut K,
    held: &mut ArrayVec<u8, 8192>,
    bench: &Bench,
) -> Result<(), Failed>
    requires { bench.now.spoiled ≡ false }
    ensures ok { OnOk result
        (IsWritten (held.old.items ++ links_text bench.now.state 1 (length bench.now.state.peers.links))
        held.new.items (K.taken sink.old) (K.taken sink.new)) }
    ensures still { OnOk result (K.faults sink.new ≡ K.faults sink.old) }
    ensures err { OnErr result (GainsFront (K.taken sink.old) (K.taken sink.new)
        (held.old.items ++ links_text bench.now.state 1 (length bench.now.state.peers.links))) }
    ensures cause { OnErr result (HasRisen (K.faults sink.old) (K.faults sink.new)) }
    ensures count { K.faults sink.old ≤ K.faults sink.new }
{
    'links: for before in 0..bench.links() {
        let link = before + 1;
        gather_link(sink, held, link, bench.accepted(link), bench.sources(link))?;
    }
    Ok(())
}

/// Writes that a report is legal, how many entries it has, and what was accepted on each link. It takes no memory.
pub fn write_legal<K: Sink>(sink: &mut K, bench: &Bench) -> Result<(), Failed>
    requires sound { bench.now.spoiled ≡ false }
    requires few { length bench.now.journal < 2 ^ 32 }
    ensures ok { OnOk result (K.taken sink.new ≡ with_end (K.taken sink.old) (legal_text bench.now)) }
    ensures still { OnOk result (K.faults sink.new ≡ K.faults sink.old) }
    ensures err { OnErr result (GainsFront (K.taken sink.old) (K.taken sink.new) (legal_text bench.now)) }
    ensures cause { OnErr result (HasRisen (K.faults sink.old) (K.faults sink.new)) }
    ensures count { K.faults sink.old ≤ K.faults sink.new }
{
    let mut held = ArrayVec::new();
    gather(sink, &mut held, &legal_line(bench.journal().len() as u32))?;
    gather_links(sink, &mut held, bench)?;
    write_all(sink, held.as_slice())
}
