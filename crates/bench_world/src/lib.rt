//! A bench: devices in a field, and the journal of the commands that it obeyed.
//!
//! `bench` obeys commands and follows them, those that ask the devices something by `asking`, Type 3 tags by `threes`,
//! those of peers by `peers`; `machines` are the field with its devices and the far ends above them, `joins` how many
//! PDUs stand in payloads, and `inbox` tells what such an end accepted, by its links. `following` reads the numbers of
//! PDUs off what was told of a command, and compares that with what was made. `entry` is what the journal keeps of a
//! command, `answering` makes its answer of what selecting, reading, writing and searching came to. `event_lines`,
//! `pieces` and `listed` turn an entry to text in pieces that `fixed_text` fills, without memory, and `report` joins
//! them. `specs/Legal.antt` says which entries a bench may have, `specs/Journal.antt` which journals the lines of a
//! script may have, `specs/Following.antt` what following does, `specs/Answering.antt` and `specs/Reading.antt` what
//! each answer tells, `specs/Report.antt` how it is written, `specs/ReadBack.antt` what its lines tell; `law` says when
//! noise keeps no command from its answer, and that the lines of a script alone decide which of them are taken.
#![tactic(auto)]

mod answering;
mod asking;
mod at_once;
mod bench;
mod calling;
mod entry;
mod event_lines;
mod fixed_text;
mod following;
mod forging;
mod gains;
mod inbox;
mod joins;
mod law;
mod linking;
mod listed;
mod machines;
mod on_air;
mod peers;
mod pieces;
mod raws;
mod report;
mod threes;
mod told;

pub use bench::{Bench, ObeyFault, Run};
pub use bench_devices::{Device, SeenKind};
pub use entry::{Answer, Entry, Loss, RawHeard, Received, Seen, SlotDone};
pub use event_lines::{event_line, push_event_line};
pub use following::{Followed, may_show};
pub use inbox::{LinkRange, inbox_of};
pub use law::{
    alike_states, finds_complete, lines_decide, lines_tell_events, links_accept, links_complete,
    numbers_show, pieces_stay, quiet_air, reads_behind, reads_complete, writes_complete,
};
pub use on_air::see_on_air;
pub use pieces::{AnswerPieces, answer_pieces};
pub use report::render;
