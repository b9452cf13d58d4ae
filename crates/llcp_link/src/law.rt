//! What payloads bring to a service, whatever they are.

ghost use Rattle.llcp_link.specs.Running.{UnitsLaw};

use crate::service::Service;

/// The units that are brought to a service for each client's SAP are those of the connections of this SAP, in order,
/// whatever payloads come after a restart.
pub fn units<S: Service>()
    ensures { UnitsLaw S.serving }
{}
