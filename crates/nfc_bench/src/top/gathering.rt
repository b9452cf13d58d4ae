//! Bytes that are gathered on their way into a sink, so that it is called once for many pieces.

ghost use Rattle.std.specs.Prelude.{◌≡◌, ◌≤◌, ◌+◌, ◌++◌, [], length, OnOk, OnErr};
ghost use Rattle.nfc_io.specs.Counts.{HasRisen};
ghost use Rattle.nfc_io.specs.Moves.{GainsFront};
ghost use Rattle.nfc_bench.specs.Gathering.{IsWritten};

use arrayvec::ArrayVec;
use nfc_io::{Failed, Sink, write_all};

/// How many bytes are held at most.
const HELD_ROOM: usize = 8192;

/// How many bytes a line of an event has at most.
const LINE_ROOM: usize = 640;

/// Room for a line of an event. Where there is less, what is gathered so far is written first.
pub fn make_room<K: Sink>(sink: &mut K, held: &mut ArrayVec<u8, 8192>) -> Result<(), Failed>
    ensures room { OnOk result (length held.new.items + 640 ≤ 8192) }
    ensures ok { OnOk result (IsWritten held.old.items held.new.items (K.taken sink.old) (K.taken sink.new)) }
    ensures still { OnOk result (K.faults sink.new ≡ K.faults sink.old) }
    ensures err { OnErr result (GainsFront (K.taken sink.old) (K.taken sink.new) held.old.items) }
    ensures cause { OnErr result (HasRisen (K.faults sink.old) (K.faults sink.new)) }
    ensures count { K.faults sink.old ≤ K.faults sink.new }
{
    if held.len() + LINE_ROOM > HELD_ROOM {
        write_all(sink, held.as_slice())?;
        held.clear();
    }
    Ok(())
}

/// One piece more. Where it doesn't fit, what is gathered so far is written first.
pub fn gather<K: Sink>(
    sink: &mut K,
    held: &mut ArrayVec<u8, 8192>,
    piece: &[u8],
) -> Result<(), Failed>
    ensures ok { OnOk result (IsWritten (held.old.items ++ piece.now) held.new.items
        (K.taken sink.old) (K.taken sink.new)) }
    ensures still { OnOk result (K.faults sink.new ≡ K.faults sink.old) }
    ensures err { OnErr result (GainsFront (K.taken sink.old) (K.taken sink.new) (held.old.items ++ piece.now)) }
    ensures cause { OnErr result (HasRisen (K.faults sink.old) (K.faults sink.new)) }
    ensures count { K.faults sink.old ≤ K.faults sink.new }
{
    match held.try_extend_from_slice(piece) {
        Ok(()) => Ok(()),
        Err(_) => {
            write_all(sink, held.as_slice())?;
            held.clear();
            begin(sink, held, piece)
        }
    }
}

/// The first piece, which is written at once where it is longer than the room.
fn begin<K: Sink>(sink: &mut K, held: &mut ArrayVec<u8, 8192>, piece: &[u8]) -> Result<(), Failed>
    requires { held.old.items ≡ [] }
    ensures ok { OnOk result (IsWritten piece.now held.new.items (K.taken sink.old) (K.taken sink.new)) }
    ensures still { OnOk result (K.faults sink.new ≡ K.faults sink.old) }
    ensures err { OnErr result (GainsFront (K.taken sink.old) (K.taken sink.new) piece.now) }
    ensures cause { OnErr result (HasRisen (K.faults sink.old) (K.faults sink.new)) }
    ensures count { K.faults sink.old ≤ K.faults sink.new }
{
    match held.try_extend_from_slice(piece) {
        Ok(()) => Ok(()),
        Err(_) => write_all(sink, piece),
    }
}
