//! What two ends of a connection come to.

ghost use Rattle.llcp_conn.specs.Window.{WindowLaw};

/// Units are acknowledged after they are taken, taken after they are sent, and sent in the order in which they were
/// submitted.
pub fn window()
    ensures { WindowLaw }
{}
