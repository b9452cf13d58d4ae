//! That what was obeyed is such as may be on the air: the type of the code's frames says so.

ghost use Rattle.trace_audit.specs.private.OnAir.{LastOnAir};

use bench_world::{Entry, see_on_air};

/// The frames of the last of some entries may be on the air. The call does nothing.
pub(crate) fn see_last(entries: &[Entry])
    ensures { LastOnAir entries.now }
{
    if let Some(entry) = entries.last() {
        see_on_air(entry.events.as_slice());
    }
}
