//! The bench by its public names, as another program drives it.

use bench_script::parse_line;
use bench_world::{Answer, Bench, Entry, ObeyFault, render};
use nfc_base::Items;
use std::alloc::Global;
use std::process::Abort;
use std::test::Fail;

/// A line with its number, and its line of a report that tells answers alone.
const ROWS: [(u32, &str, &str); 4] = [
    (
        1,
        "place t2 01020304 16 000000000000000000000000E11006000303D00000FE",
        "1 ok\n",
    ),
    (2, "read 01020304", "2 message D00000 writable\n"),
    (3, "find", "3 found 1 01020304:t2\n"),
    (4, "remove 01020304", "4 ok\n"),
];

/// Lines that put two messages on a link and one on the next, and take their peer away.
const LINKED: [&str; 7] = [
    "place peer 08010203 3 128 1 1024",
    "link 08010203 128 1",
    "put D1",
    "put D2D2",
    "link 08010203 128 1",
    "put D3",
    "remove 08010203",
];

/// Each line is obeyed.
fn obey_all(rt: &impl Abort, alloc: Global, bench: &mut Bench) -> Result<(), Fail> {
    for &(line, text, _) in &ROWS {
        let command = parse_line(alloc, text.as_bytes())?;
        assert_eq!(rt; bench.obey(line, &command), Ok(()), "at {text}");
    }
    Ok(())
}

/// A line is refused.
fn refuses(rt: &impl Abort, alloc: Global, bench: &mut Bench, text: &str) -> Result<(), Fail> {
    let command = parse_line(alloc, text.as_bytes())?;
    assert_eq!(rt; bench.obey(5, &command), Err(ObeyFault::Refused));
    Ok(())
}

/// Whether the entry at a place tells this message of a tag that may be written.
fn tells_message(journal: &[Entry], place: usize, wanted: &[u8]) -> bool {
    let Some(entry) = journal.get(place) else {
        return false;
    };
    match &entry.answer {
        Answer::Message { message, writable } => *writable && message.as_slice() == wanted,
        _ => false,
    }
}

/// Each entry has its line of the report.
fn reports(rt: &impl Abort, alloc: Global, journal: &[Entry]) -> Result<(), Fail> {
    assert_eq!(rt; journal.len(), ROWS.len());
    for (entry, &(_, _, report)) in journal.iter().zip(&ROWS) {
        let text = render(alloc, entry, true)?;
        assert_eq!(rt; str::from_utf8(&text)?, report);
    }
    Ok(())
}

#[test]
fn bench_is_driven_by_its_public_names(rt: HostRuntime) -> Result<(), Fail> {
    let alloc = rt.alloc();
    let mut bench = Bench::new(alloc);
    obey_all(&rt, alloc, &mut bench)?;
    refuses(&rt, alloc, &mut bench, "dump 01020304")?;
    reports(&rt, alloc, bench.journal())?;
    assert!(rt; tells_message(bench.journal(), 1, &[0xD0, 0, 0]));
    Ok(())
}

/// These are the messages, each from the SAP 32.
fn are_from_32(messages: &[Items<u8>], sources: &[u8], wanted: &[&[u8]]) -> bool {
    if messages.len() != wanted.len() || sources.len() != wanted.len() {
        return false;
    }
    for place in 0..wanted.len() {
        if messages[place].as_slice() != wanted[place] || sources[place] != 32 {
            return false;
        }
    }
    true
}

/// What was accepted on the link with a number.
fn accepts(bench: &Bench, link: u32, wanted: &[&[u8]]) -> bool {
    are_from_32(bench.accepted(link), bench.sources(link), wanted)
}

#[test]
fn what_was_accepted_on_each_link_stays(rt: HostRuntime) -> Result<(), Fail> {
    let alloc = rt.alloc();
    let mut bench = Bench::new(alloc);
    for (place, &text) in LINKED.iter().enumerate() {
        let command = parse_line(alloc, text.as_bytes())?;
        assert_eq!(rt; bench.obey(place as u32 + 1, &command), Ok(()), "at {text}");
    }
    assert_eq!(rt; bench.links(), 2);
    assert!(rt; accepts(&bench, 1, &[&[0xD1], &[0xD2, 0xD2]]));
    assert!(rt; accepts(&bench, 2, &[&[0xD3]]));
    assert!(rt; accepts(&bench, 0, &[]) && accepts(&bench, 3, &[]));
    Ok(())
}
