//! How long a message may be that takes the place of the one that is there.

ghost use Rattle.std.specs.Prelude.{◌≡◌, ◌≤◌};
ghost use Rattle.tlv_area.specs.Map.{IsPlaced};
ghost use Rattle.tlv_area.specs.Tail.{map_room, capacity_of};

use crate::ranges::count_free;
use crate::space::AreaMap;

/// The longest message whose length has one byte.
pub const LONGEST_SHORT: u32 = 254;

/// The longest message of all: three bytes of length don't say more.
const LONGEST: u32 = 65_534;

/// How many bytes the type and a length of one byte take, and the type and a length of three.
const SHORT_HEADER: u32 = 2;

const LONG_HEADER: u32 = 4;

/// How long a message may be that takes the place of the one that is there. The map is of the area cut at the tag's
/// end: bytes that an area has and the tag hasn't count as room here. It takes no memory.
pub fn capacity(map: &AreaMap) -> u32
    requires placed { IsPlaced map.now }
    ensures exact { result ≡ capacity_of (map_room map.now) }
    ensures bound { result ≤ 65534 }
{
    let room = count_free(map.reserved.as_slice(), map.space.start, map.space.end) - map.tlv;
    if room <= LONGEST_SHORT + SHORT_HEADER {
        room - SHORT_HEADER
    } else if room <= LONGEST_SHORT + LONG_HEADER {
        LONGEST_SHORT
    } else {
        (room - LONG_HEADER).min(LONGEST)
    }
}
