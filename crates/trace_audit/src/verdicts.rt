//! That the lines and the report alone settle what an audit says of them. The call does nothing: it stands for these
//! laws.

ghost use Rattle.trace_audit.specs.Auditing.{NoneUnaudited, OneFault, OneUnaudited};

/// At most one line of a report is the first that no run of a script can have. At most one line of a script is the
/// first that isn't audited, and none is where all are.
pub fn verdicts_settled()
    ensures fault { OneFault }
    ensures script { OneUnaudited }
    ensures whole { NoneUnaudited }
{}
