//! Judges a stored report against its script: whether it is one that the script may have, and if not, which is its
//! first line that no run can have.
//!
//! `cutting` cuts texts, `event_texts` reads the line of an event, and `reading` the events of a command off a
//! report. A line doesn't tell the technology of a frame: the command does (`specs/Reading.antt`), as `law` says.
//! `judging` walks over a script and its report, and `stepping` is one step of that. `specs/Auditing.antt` says what
//! an audit says, and `verdicts` that the lines and the report alone settle it.
#![tactic(auto)]

mod cutting;
mod event_texts;
mod judging;
mod law;
mod on_air;
mod reading;
mod stepping;
mod verdicts;

pub use judging::{AuditFault, Verdict, audit};
pub use law::technologies_told;
pub use reading::{Read, read_event, read_events};
pub use verdicts::verdicts_settled;
