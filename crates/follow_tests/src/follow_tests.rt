//! What a bench says of a command's own events, and of others.

use crate::changing::{Change, changed, front_of};
use crate::scripts::SCRIPTS;
use bench_script::{Command, parse_line};
use bench_world::{Bench, Entry, Followed, ObeyFault, render};
use nfc_base::Event;
use std::alloc::Global;
use std::process::Abort;
use std::test::Fail;

/// How many lines a script of these tests may have.
const MOST_LINES: u32 = 100;

/// A bench that obeyed these lines.
fn obeyed(rt: &impl Abort, alloc: Global, lines: &[&str]) -> Result<Bench, Fail> {
    let mut bench = Bench::new(alloc);
    for (line, &text) in (1..=MOST_LINES).zip(lines) {
        let command = parse_line(alloc, text.as_bytes())?;
        assert_eq!(rt; bench.obey(line, &command), Ok(()), "at {text}");
    }
    Ok(bench)
}

/// A bench that followed these entries.
fn followed(rt: &impl Abort, alloc: Global, entries: &[Entry]) -> Result<Bench, Fail> {
    let mut bench = Bench::new(alloc);
    for entry in entries {
        let told = bench.follow(entry.line, &entry.command, entry.events.as_slice());
        assert_eq!(rt; told, Ok(Followed::Whole), "at line {}", entry.line);
    }
    Ok(bench)
}

/// Both journals are written the same.
fn are_alike(rt: &impl Abort, alloc: Global, one: &[Entry], other: &[Entry]) -> Result<(), Fail> {
    assert_eq!(rt; one.len(), other.len());
    for (entry, again) in one.iter().zip(other) {
        let text = render(alloc, entry, false)?;
        assert_eq!(rt;
            str::from_utf8(&render(alloc, again, false)?)?,
            str::from_utf8(&text)?
        );
    }
    Ok(())
}

#[test]
fn a_script_is_followed_whole_from_its_own_events(rt: HostRuntime) -> Result<(), Fail> {
    let alloc = rt.alloc();
    for &lines in &SCRIPTS {
        let bench = obeyed(&rt, alloc, lines)?;
        let other = followed(&rt, alloc, bench.journal())?;
        are_alike(&rt, alloc, bench.journal(), other.journal())?;
        assert_eq!(rt; other.links(), bench.links());
    }
    Ok(())
}

/// Events of the last entry of which one is changed are right as far as they are its own.
fn parts_there(
    rt: &impl Abort,
    alloc: Global,
    entries: &[Entry],
    place: usize,
    change: Change,
) -> Result<(), Fail> {
    let Some((last, before)) = entries.split_last() else {
        return Ok(());
    };
    let events = last.events.as_slice();
    let told = changed(alloc, events, place, change)?;
    if told.as_slice() == events {
        return Ok(());
    }
    let mut bench = followed(rt, alloc, before)?;
    let good = front_of(events, &told);
    let wanted = Ok(Followed::Front { good });
    assert_eq!(rt;
        bench.follow(last.line, &last.command, &told),
        wanted,
        "at line {}, event {place}, {change:?}",
        last.line
    );
    assert_eq!(rt; bench.journal().len(), before.len());
    Ok(())
}

/// So it is of each event of an entry, and each change.
fn each_parts(rt: &impl Abort, alloc: Global, entries: &[Entry]) -> Result<(), Fail> {
    let Some(last) = entries.last() else {
        return Ok(());
    };
    for place in 0..last.events.as_slice().len() {
        for &change in &[Change::LeftOut, Change::Doubled, Change::Byte, Change::Fate] {
            parts_there(rt, alloc, entries, place, change)?;
        }
    }
    Ok(())
}

#[test]
fn a_changed_event_is_told_by_its_place(rt: HostRuntime) -> Result<(), Fail> {
    let alloc = rt.alloc();
    for &lines in &SCRIPTS {
        let bench = obeyed(&rt, alloc, lines)?;
        let journal = bench.journal();
        for count in 0..journal.len() {
            each_parts(&rt, alloc, &journal[..count + 1])?;
        }
    }
    Ok(())
}

/// Lines, the last of which is followed from no events, and what is told.
const ODD: [(&[&str], Result<Followed, ObeyFault>); 5] = [
    (&["# nothing"], Ok(Followed::Whole)),
    (&["find"], Ok(Followed::Front { good: 0 })),
    (&["put D1"], Ok(Followed::Whole)),
    (&["read 01020304", "dump 01020304"], Err(ObeyFault::Refused)),
    (
        &["place peer 08010203 3 128 1 1024", "raw 08010203 3004"],
        Err(ObeyFault::Refused),
    ),
];

#[test]
fn a_line_is_followed_from_no_events(rt: HostRuntime) -> Result<(), Fail> {
    let alloc = rt.alloc();
    for &(lines, wanted) in &ODD {
        let Some((&last, before)) = lines.split_last() else {
            continue;
        };
        let mut bench = obeyed(&rt, alloc, before)?;
        let command = parse_line(alloc, last.as_bytes())?;
        assert_eq!(rt; bench.follow(9, &command, &[]), wanted, "at {last}");
    }
    Ok(())
}

#[test]
fn lines_are_obeyed_behind_events_that_stray(rt: HostRuntime) -> Result<(), Fail> {
    let alloc = rt.alloc();
    for &lines in &SCRIPTS {
        let mut bench = Bench::new(alloc);
        for (line, &text) in (1..=MOST_LINES).zip(lines) {
            let command = parse_line(alloc, text.as_bytes())?;
            let told = bench.follow(line, &command, &[Event::Reset, Event::Reset]);
            assert!(rt; matches!(told, Ok(Followed::Front { .. })), "at {text}");
        }
        assert_eq!(rt; bench.journal().len(), 0);
        let command = Command::Find;
        assert_eq!(rt; bench.obey(99, &command), Ok(()));
    }
    Ok(())
}
