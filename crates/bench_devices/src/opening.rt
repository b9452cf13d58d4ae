//! Opening a link to the selected peer.

ghost use Rattle.std.specs.Prelude.{◌≡◌, ◌≤◌, length, IfErr};
ghost use Rattle.dep_link.specs.Activating.{by_cause, IsUnanswered};
ghost use Rattle.bench_devices.specs.Opening.{OpensAny};

use crate::device::Device;
use air_core::Field;
use arrayvec::ArrayVec;
use dep_link::{Initiator, activate};
use nfc_base::{Answerer, LinkEnd};

/// Opens a link to the selected peer, which is told these general bytes, and gives the initiator of the link and the
/// general bytes of the peer.
pub fn open_link<A: Answerer>(
    field: &mut Field<Device>,
    general: &[u8],
    far: &mut A,
) -> Result<(Initiator, ArrayVec<u8, 47>), LinkEnd>
    requires { length general.now ≤ 48 }
    ensures tells { OpensAny A.restarts A.steps field.old far.old field.new far.new general.now (by_cause result) }
    ensures unanswered { IfErr result IsUnanswered }
{
    activate(field, general, far)
}
