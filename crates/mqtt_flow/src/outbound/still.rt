//! Rows that stand still: a pump has nothing for them (4.4, 4.6, 4.9).

ghost use Rattle.std.specs.Prelude.{◌≡◌, true, [], map};
ghost use Rattle.mqtt_flow.specs.outbound.Outbound.{pump};
ghost use Rattle.mqtt_flow.specs.outbound.Stillness.{front_still, stirs_by};

use crate::outbound::entry::Way;
use crate::outbound::plan::{is_large, is_late};
use crate::outbound::row::QueueView;
use mqtt_base::Phase;

/// Whether a pump may have something for a copy: it waits, or was sent on an earlier connection.
fn stirs(phase: Phase, here: bool) -> bool
    ensures { result ≡ stirs_by here phase }
{
    match phase {
        Phase::Waiting => true,
        Phase::Sent { .. } => !here,
        Phase::Released { .. } | Phase::Oversize { .. } => false,
    }
}

/// How many rows at the front stand still.
pub(crate) fn front_still<V: QueueView>(view: &V, rows: &[V::Row]) -> usize
    ensures { result ≡ front_still (map (V.entry view.now) rows.now) }
{
    let mut still = 0;
    for row in rows {
        if stirs(V::phase(row), view.here(row)) {
            return still;
        }
        still += 1;
    }
    still
}

/// Whether the front of a queue tells that a pump has no turn: no row stirs, or the first that does is neither late nor too
/// large, so that it can only be sent, and those before it fill the client's window (4.9).
pub(crate) fn is_idle<V: QueueView>(way: Way, view: &V, rows: &[V::Row]) -> bool
    ensures { result ≡ true → pump way (map (V.entry view.now) rows.now) ≡ [] }
{
    let mut window = 0;
    for row in rows {
        let here = view.here(row);
        if stirs(V::phase(row), here) {
            let is_full = usize::from(way.window) <= window;
            return is_full && !is_large(way, view, row) && !is_late::<V>(way.now, row);
        }
        if here {
            window += 1;
        }
    }
    true
}
