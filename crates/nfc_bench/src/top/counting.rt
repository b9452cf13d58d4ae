//! What came through of the commands of a journal.

ghost use Rattle.std.specs.Prelude.{◌≡◌, ◌+◌, ◌*◌, ◌<◌, ◌≤◌, cond, length};
ghost use Rattle.std.specs.List.{All};
ghost use Rattle.bench_script.specs.Limits.{most_lines};
ghost use Rattle.bench_script.specs.Messages.{message_of};
ghost use Rattle.bench_script.specs.Script.{longest_message};
ghost use Rattle.bench_world.specs.declared.entry.Entry.{Entry};
ghost use Rattle.nfc_bench.specs.Made.{is_written, is_message, is_success, put_size, size_told, tally_of};

use bench_script::{Command, Msg};
use bench_world::{Answer, Entry};

/// How many messages were written, read and put, and how many bytes were put.
#[derive(Clone, Copy, Debug, PartialEq, Eq)]
pub struct Tally {
    pub writes: u32,
    pub reads: u32,
    pub puts: u32,
    pub bytes: u32,
}

/// How many bytes a message has.
fn message_size(message: &Msg) -> u32
    requires { length (message_of message.now) ≤ longest_message }
    ensures { result ≡ length (message_of message.now) }
{
    match message {
        Msg::Hex(bytes) => bytes.as_slice().len() as u32,
        Msg::Gen { count, start: _ } => *count,
    }
}

/// How many bytes a command puts.
fn put_size(command: &Command) -> u32
    requires { put_size command.now ≤ longest_message }
    ensures { result ≡ put_size command.now }
{
    match command {
        Command::Put { message } => message_size(message),
        _ => 0,
    }
}

impl Tally {
    /// Counts one entry more.
    fn add(&mut self, entry: &Entry)
        requires writes { self.old.writes < most_lines }
        requires reads { self.old.reads < most_lines }
        requires puts { self.old.puts < most_lines }
        requires bytes { self.old.bytes + longest_message ≤ most_lines * longest_message }
        requires size { put_size entry.now.command ≤ longest_message }
        ensures writes { self.new.writes ≡ self.old.writes + cond (is_written entry.now.answer) 1 0 }
        ensures reads { self.new.reads ≡ self.old.reads + cond (is_message entry.now.answer) 1 0 }
        ensures puts { self.new.puts ≡ self.old.puts + cond (is_success entry.now.answer) 1 0 }
        ensures bytes { self.new.bytes ≡ self.old.bytes + size_told entry.now.command entry.now.answer }
    {
        match &entry.answer {
            Answer::Written => self.writes += 1,
            Answer::Message { .. } => self.reads += 1,
            Answer::Success => {
                self.puts += 1;
                self.bytes += put_size(&entry.command);
            }
            _ => {}
        }
    }
}

/// What came through of the commands of a journal that isn't longer than one of a script.
pub fn tally_of(journal: &[Entry]) -> Tally
    requires few { length journal.now ≤ most_lines }
    requires short { All (λ (e : Entry). put_size e.command ≤ longest_message) journal.now }
    ensures { result ≡ tally_of journal.now }
{
    let mut tally = Tally {
        writes: 0,
        reads: 0,
        puts: 0,
        bytes: 0,
    };
    'entries: for entry in journal {
        tally.add(entry);
    }
    tally
}
