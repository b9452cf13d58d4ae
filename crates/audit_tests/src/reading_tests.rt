//! How the lines of a report are read back.

use bench_script::Command;
use nfc_base::{Event, Fate, Frame, Tech};
use std::alloc::Global;
use std::test::Fail;
use trace_audit::{read_event, read_events};

/// A letter for what happened (`-` for no event), the frame's bytes, its tail, and a letter for its fate.
fn parts(event: Option<&Event>) -> (u8, &[u8], u8, u8) {
    match event {
        None => (b'-', &[], 0, b' '),
        Some(Event::Reset) => (b'!', &[], 0, b' '),
        Some(Event::Request { frame, fate }) => (b'>', frame.view(), frame.tail(), letter(*fate)),
        Some(Event::Answer { frame, fate }) => (b'<', frame.view(), frame.tail(), letter(*fate)),
        Some(Event::Clash { frame, fate }) => (b'*', frame.view(), frame.tail(), letter(*fate)),
    }
}

fn letter(fate: Fate) -> u8 {
    match fate {
        Fate::Pass => b'P',
        Fate::Damage => b'D',
        Fate::Lose => b'L',
        Fate::Break => b'B',
    }
}

#[test]
fn lines_that_are_events_of_line_12(rt: HostRuntime) -> Result<(), Fail> {
    const ROWS: [(&[u8], (u8, &[u8], u8, u8)); 8] = [
        (b"12 ! reset\n", (b'!', &[], 0, b' ')),
        (b"12 > 26/7 pass\n", (b'>', &[0x26], 7, b'P')),
        (b"12 < 4400 damage\n", (b'<', &[0x44, 0x00], 0, b'D')),
        (b"12 * 01/1 lose\n", (b'*', &[0x01], 1, b'L')),
        (b"12 > - break\n", (b'>', &[], 0, b'B')),
        (b"12 < 0A/4 pass\n", (b'<', &[0x0A], 4, b'P')),
        (b"12 > 260100 pass\n", (b'>', &[0x26, 0x01, 0x00], 0, b'P')),
        (b"12 > FF00FF lose\n", (b'>', &[0xFF, 0x00, 0xFF], 0, b'L')),
    ];
    for &(text, wanted) in &ROWS {
        let event = read_event(12, Tech::V, text);
        assert_eq!(rt; parts(event.as_ref()), wanted);
    }
    Ok(())
}

#[test]
fn lines_that_are_none(rt: HostRuntime) -> Result<(), Fail> {
    const ROWS: [&[u8]; 28] = [
        b"",
        b"\n",
        b"12\n",
        b"12 \n",
        b"12 ok\n",
        b"12 ! reset",
        b"12 ! reset \n",
        b"12 ! reset\r\n",
        b"12 !\n",
        b"12 > 26/7 pass",
        b"12 > 26/7 pass\n\n",
        b"12  > 26/7 pass\n",
        b"12 >  26/7 pass\n",
        b"12 > 26/7  pass\n",
        b" 12 > 26/7 pass\n",
        b"012 > 26/7 pass\n",
        b"13 > 26/7 pass\n",
        b"1 > 26/7 pass\n",
        b"12 > 26/0 pass\n",
        b"12 > 26/07 pass\n",
        b"12 > 26/8 pass\n",
        b"12 > A6/7 pass\n",
        b"12 > -/3 pass\n",
        b"12 > 0a/4 pass\n",
        b"12 > 2 pass\n",
        b"12 > 26/7 Pass\n",
        b"12 ? 26/7 pass\n",
        b"12 > 26\0 pass\n",
    ];
    for &text in &ROWS {
        let event = read_event(12, Tech::A, text);
        assert_eq!(rt; parts(event.as_ref()), (b'-', b"".as_slice(), 0, b' '));
    }
    Ok(())
}

/// The technologies of the frames that are read of a command, a letter each, and how many bytes of the report are left.
fn technologies(alloc: Global, command: &Command, report: &[u8]) -> Result<(Vec<u8>, usize), Fail> {
    let read = read_events(alloc, 7, command, report)?;
    let mut letters = Vec::new(alloc);
    for event in &read.events {
        letters.push(technology(event))?;
    }
    Ok((letters, read.left.len()))
}

fn technology(event: &Event) -> u8 {
    match event {
        Event::Reset => b'!',
        Event::Request { frame, .. } | Event::Answer { frame, .. } | Event::Clash { frame, .. } => {
            tech_letter(frame)
        }
    }
}

fn tech_letter(frame: &Frame) -> u8 {
    match frame.tech() {
        Tech::A => b'A',
        Tech::V => b'V',
        Tech::F => b'F',
    }
}

#[test]
fn events_have_the_technology_of_their_request(rt: HostRuntime) -> Result<(), Fail> {
    const SEARCH: &[u8] =
        b"7 ! reset\n7 > 26/7 pass\n7 < 4400 pass\n7 > 260100 pass\n7 < 00 pass\n7 found 0\n";
    let rows: [(Command, &[u8], &[u8], usize); 6] = [
        (Command::Find, SEARCH, b"!AAVV", 10),
        (Command::Crowd, SEARCH, b"!VVVV", 10),
        (Command::Poll3, SEARCH, b"!FFFF", 10),
        (Command::Unlink, SEARCH, b"!AAAA", 10),
        (Command::Find, b"7 > 260100 pass\n8 < 00 pass\n", b"V", 12),
        (Command::Find, b"7 > 260100 pass", b"", 15),
    ];
    for (command, report, wanted, left) in &rows {
        let (letters, rest) = technologies(rt.alloc(), command, report)?;
        assert_eq!(rt; (letters.as_slice(), rest), (*wanted, *left));
    }
    Ok(())
}
