//! What a session sees in its queue, in whatever rows it is kept (4.3, 4.4, 4.6, 4.9).

ghost use Rattle.std.specs.Prelude.{◌≡◌, ◌+◌, ◌≤◌, true, length, map, option_map, option_copied, IfErr, IfOk, OnOk};
ghost use Rattle.mqtt_flow.specs.outbound.Queue.{greatest_order, holder};
ghost use Rattle.mqtt_flow.specs.outbound.Outbound.{KeptOut, expired, has_room, puback, pubcomp, pubrec, pump, resumed_with, way_made};

use crate::inbound::FlowFault;
use crate::outbound::answers::{puback_by, pubcomp_by, pubrec_by};
use crate::outbound::entry::{QueueLimits, Turn, Way};
use crate::outbound::plan::{
    greatest_order, has_room, holds, in_window, insert_due, push_dropped, push_expired,
    push_repeats,
};
use crate::outbound::pump::{first_pace, push_pumped};
use crate::outbound::row::QueueView;
use crate::outbound::still::is_idle;
use mqtt_base::{LAST_NUMBER, QUEUE_LIMIT, Reason};
use std::alloc::Global;

/// The turns by which a full queue makes way for a copy; `since` is the first place that the broker gives in this step
/// (ours). Refuses a copy for which there is no room: `Full`.
pub fn look_enter<V: QueueView>(
    alloc: Global,
    limits: QueueLimits,
    since: u64,
    rows: &[V::Row],
) -> Result<Vec<Turn>, FlowFault>
    requires { length rows.now ≤ QUEUE_LIMIT }
    ensures turns { (view : V) → IfOk result (λ turns. turns.items ≡ way_made limits since (map (V.entry view) rows.now)) }
    ensures only { (view : V) → OnOk result (has_room limits since (map (V.entry view) rows.now) ≡ true) }
    ensures fault { (view : V) → IfErr result (KeptOut (has_room limits since (map (V.entry view) rows.now))) }
{
    if !has_room::<V>(limits, since, rows) {
        return Err(FlowFault::Full);
    }
    let count = (rows.len() + 1).saturating_sub(limits.queue);
    let mut turns = Vec::new(alloc);
    push_dropped::<V>(&mut turns, count, since, rows)?;
    Ok(turns)
}

/// The turns of one pump (4.6, 4.9). If the front of the queue tells that there is none, it looks at no row behind it
/// and takes no memory.
pub fn look_pump<V: QueueView>(
    alloc: Global,
    way: Way,
    view: &V,
    rows: &[V::Row],
) -> Result<Vec<Turn>, FlowFault>
    requires orders { greatest_order (map (V.entry view.now) rows.now) ≤ LAST_NUMBER }
    requires few { length rows.now ≤ QUEUE_LIMIT }
    ensures turns { IfOk result (λ turns. turns.items ≡ pump way (map (V.entry view.now) rows.now)) }
    ensures fault { IfErr result (λ fault. fault ≡ FlowFault.Memory) }
{
    let mut turns = Vec::new(alloc);
    if is_idle(way, view, rows) {
        return Ok(turns);
    }
    let (window, order) = (in_window(view, rows), greatest_order::<V>(rows));
    let mut pace = first_pace::<V>(alloc, way, rows, window, order)?;
    push_pumped(alloc, &mut turns, &mut pace, way, view, rows)?;
    Ok(turns)
}

/// The turns by which copies that wait and are late at a moment leave (3.3.2.3.3).
pub fn look_expire<V: QueueView>(
    alloc: Global,
    now: u64,
    rows: &[V::Row],
) -> Result<Vec<Turn>, FlowFault>
    ensures turns { (view : V) → IfOk result (λ turns. turns.items ≡ expired now (map (V.entry view) rows.now)) }
    ensures fault { IfErr result (λ fault. fault ≡ FlowFault.Memory) }
{
    let mut turns = Vec::new(alloc);
    push_expired::<V>(&mut turns, now, rows)?;
    Ok(turns)
}

/// The turns with which a resumption begins: a PUBREL for each released copy, in the order of release (4.4, 4.6).
pub fn look_resume<V: QueueView>(alloc: Global, rows: &[V::Row]) -> Result<Vec<Turn>, FlowFault>
    ensures turns { (view : V) → IfOk result (λ turns. turns.items ≡ resumed_with (map (V.entry view) rows.now)) }
    ensures fault { IfErr result (λ fault. fault ≡ FlowFault.Memory) }
{
    let mut dues = Vec::new(alloc);
    insert_due::<V>(&mut dues, rows)?;
    let mut turns = Vec::new(alloc);
    push_repeats(&mut turns, &dues)?;
    Ok(turns)
}

/// The row of the copy that has a packet identifier (2.2.1). Takes no memory.
pub fn holder<V: QueueView>(rows: &[V::Row], identifier: u16) -> Option<&V::Row>
    ensures { (view : V) → option_map (V.entry view) (option_copied result) ≡ holder identifier (map (V.entry view) rows.now) }
{
    for row in rows {
        if holds(V::phase(row), identifier) {
            return Some(row);
        }
    }
    None
}

/// What a PUBACK asks for: a turn, or none if no copy has the identifier (4.3.2). Takes no memory.
pub fn look_puback<V: QueueView>(
    rows: &[V::Row],
    identifier: u16,
    code: Reason,
) -> Result<Option<Turn>, FlowFault>
    ensures { (view : V) → result ≡ puback identifier code.0 (map (V.entry view) rows.now) }
{
    match holder::<V>(rows, identifier) {
        None => Ok(None),
        Some(row) => puback_by(V::phase(row), V::qos(row), code, V::place(row)),
    }
}

/// What a PUBREC asks for (4.3.3). Takes no memory.
pub fn look_pubrec<V: QueueView>(
    rows: &[V::Row],
    identifier: u16,
    code: Reason,
) -> Result<Option<Turn>, FlowFault>
    requires { (view : V) → greatest_order (map (V.entry view) rows.now) ≤ LAST_NUMBER }
    ensures { (view : V) → result ≡ pubrec identifier code.0 (map (V.entry view) rows.now) }
{
    match holder::<V>(rows, identifier) {
        None => Ok(Some(Turn::Unknown { identifier })),
        Some(row) => pubrec_by(
            V::phase(row),
            V::qos(row),
            code,
            V::place(row),
            greatest_order::<V>(rows).saturating_add(1),
        ),
    }
}

/// What a PUBCOMP asks for: a turn, or none if no copy has the identifier (4.3.3). Takes no memory.
pub fn look_pubcomp<V: QueueView>(
    rows: &[V::Row],
    identifier: u16,
) -> Result<Option<Turn>, FlowFault>
    ensures { (view : V) → result ≡ pubcomp identifier (map (V.entry view) rows.now) }
{
    match holder::<V>(rows, identifier) {
        None => Ok(None),
        Some(row) => pubcomp_by(V::phase(row), V::place(row)),
    }
}
