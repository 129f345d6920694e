//! Property blocks as parts of packets (2.2.2).

ghost use Rattle.std.specs.Prelude.{IsTrue, ◌↔◌};
ghost use Rattle.mqtt_packet.specs.parts.Blocks.{Stands};

use mqtt_props::{Place, PropsRef};

/// Whether the list has a layout in its place (2.2.2). Takes no memory.
#[inline(always)]
pub fn stands(properties: &PropsRef<'_>, place: Place) -> bool
    ensures { IsTrue result ↔ Stands place properties.now }
{
    // This shows that the block has a spelling.
    let _len = properties.block_len();
    properties.may_stand_in(place)
}
