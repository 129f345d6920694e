//! What a line remembers of a queue, so that a pump looks at no row that stands still (4.6, 4.9).

ghost use Rattle.std.specs.Prelude.{◌≡◌, ◌<◌, ◌≤◌, ◌^◌, length, map, IfOk, IfErr};
ghost use Rattle.mqtt_flow.specs.outbound.Outbound.{pump};
ghost use Rattle.mqtt_flow.specs.outbound.Stillness.{Foreknown};

use crate::inbound::FlowFault;
use crate::outbound::entry::{Turn, Way};
use crate::outbound::plan::{greatest_order, in_window};
use crate::outbound::pump::{first_pace, push_pumped};
use crate::outbound::row::QueueView;
use crate::outbound::still::front_still;
use mqtt_base::{LAST_NUMBER, QUEUE_LIMIT};
use std::alloc::Global;

/// What is known of a queue without a look at it.
#[derive(Clone, Copy, Debug, PartialEq, Eq)]
pub struct Known {
    /// So many rows at the front stand still: a pump has nothing for them.
    pub still: usize,
    /// How many rows fill the client's window.
    pub window: usize,
    /// The greatest order of release that stands, 0 if none does.
    pub order: u64,
}

/// What a look at a queue tells of it. Takes no memory.
pub fn know<V: QueueView>(view: &V, rows: &[V::Row]) -> Known
    ensures { Foreknown result.still result.window result.order (map (V.entry view.now) rows.now) }
{
    Known {
        still: front_still(view, rows),
        window: in_window(view, rows),
        order: greatest_order::<V>(rows),
    }
}

/// The turns of one pump, by a look at the rows behind those that stand still (4.6, 4.9). If all of them do, it looks
/// at nothing and takes no memory.
pub fn pump_known<V: QueueView>(
    alloc: Global,
    way: Way,
    view: &V,
    rows: &[V::Row],
    known: Known,
) -> Result<Vec<Turn>, FlowFault>
    requires known { Foreknown known.still known.window known.order (map (V.entry view.now) rows.now) }
    requires order { known.order ≤ LAST_NUMBER }
    requires few { length rows.now ≤ QUEUE_LIMIT }
    ensures turns { IfOk result (λ turns. turns.items ≡ pump way (map (V.entry view.now) rows.now)) }
    ensures fault { IfErr result (λ fault. fault ≡ FlowFault.Memory) }
{
    let mut turns = Vec::new(alloc);
    if rows.len() <= known.still {
        return Ok(turns);
    }
    let mut pace = first_pace::<V>(alloc, way, rows, known.window, known.order)?;
    push_pumped(
        alloc,
        &mut turns,
        &mut pace,
        way,
        view,
        &rows[known.still..],
    )?;
    Ok(turns)
}
