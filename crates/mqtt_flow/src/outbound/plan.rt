//! What a session sees in its queue before it does anything (4.3, 4.4, 4.6, 4.9).

ghost use Rattle.std.specs.Prelude.{◌≡◌, ◌+◌, ◌≤◌, ◌<◌, ◌&&◌, ◌++◌, [], ◌∷◌, length, map, IfOk, IfErr, OnOk, insert};
ghost use Rattle.mqtt_flow.specs.declared.outbound.entry.Turn.TheVariants.{Repeat};
ghost use Rattle.mqtt_flow.specs.outbound.Queue.{is_holder, greatest_place, greatest_order, in_window};
ghost use Rattle.mqtt_flow.specs.outbound.Outbound.{is_waiting, gives_way, staying, has_room, dropped, is_late, is_large, expired, due_from, due_of, by_order};

use crate::inbound::FlowFault;
use crate::outbound::entry::{Due, Entry, Full, QueueLimits, Turn, Way};
use crate::outbound::row::QueueView;
use mqtt_base::{Ending, Phase};

/// Whether a phase has an identifier.
pub(crate) fn holds(phase: Phase, identifier: u16) -> bool
    ensures { result ≡ is_holder identifier phase }
{
    match phase {
        Phase::Waiting => false,
        Phase::Sent { identifier: own } => own == identifier,
        Phase::Released {
            identifier: own,
            ..
        } => own == identifier,
        Phase::Oversize {
            identifier: own,
            ..
        } => own == identifier,
    }
}

/// Whether a copy waits.
fn is_waiting(phase: Phase) -> bool
    ensures { result ≡ is_waiting phase }
{
    match phase {
        Phase::Waiting => true,
        Phase::Sent { .. } | Phase::Released { .. } | Phase::Oversize { .. } => false,
    }
}

/// The greatest place that stands, 0 in an empty queue.
pub(crate) fn greatest_place(entries: &[Entry]) -> u64
    ensures { result ≡ greatest_place entries.now }
{
    let mut greatest = 0;
    for entry in entries {
        greatest = greatest.max(entry.place);
    }
    greatest
}

/// The greatest order of release that stands, 0 if none does.
pub(crate) fn greatest_order<V: QueueView>(rows: &[V::Row]) -> u64
    ensures { (view : V) → result ≡ greatest_order (map (V.entry view) rows.now) }
{
    let mut greatest = 0;
    for row in rows {
        greatest = greatest.max(V::phase(row).order());
    }
    greatest
}

/// How many entries fill the client's window.
pub(crate) fn in_window<V: QueueView>(view: &V, rows: &[V::Row]) -> usize
    ensures exact { result ≡ in_window (map (V.entry view.now) rows.now) }
    ensures within { result ≤ length rows.now }
{
    let mut count = 0;
    for row in rows {
        if view.here(row) {
            count += 1;
        }
    }
    count
}

/// Whether a copy is late at a moment (3.3.2.3.3).
pub(crate) fn is_late<V: QueueView>(now: u64, row: &V::Row) -> bool
    ensures { (view : V) → result ≡ is_late now (V.entry view row.now).copy }
{
    match V::expiry(row) {
        None => false,
        Some(interval) => u64::from(interval) <= now.saturating_sub(V::arrived(row)) / 1000,
    }
}

/// Whether a copy is too large for a connection (3.1.2.11.4).
pub(crate) fn is_large<V: QueueView>(way: Way, view: &V, row: &V::Row) -> bool
    ensures { result ≡ is_large way (V.entry view.now row.now).copy }
{
    way.largest < view.size(row)
}

/// Whether a copy gives way in a full queue (ours).
fn gives_way<V: QueueView>(since: u64, row: &V::Row) -> bool
    ensures { (view : V) → result ≡ gives_way since (V.entry view row.now) }
{
    is_waiting(V::phase(row)) && V::place(row) < since
}

/// How many copies a further one leaves standing in any case (ours).
fn staying<V: QueueView>(full: Full, since: u64, rows: &[V::Row]) -> usize
    ensures exact { (view : V) → result ≡ staying full since (map (V.entry view) rows.now) }
    ensures within { result ≤ length rows.now }
{
    match full {
        Full::Refuse => rows.len(),
        Full::Drop => {
            let mut count = 0;
            for row in rows {
                if !gives_way::<V>(since, row) {
                    count += 1;
                }
            }
            count
        }
    }
}

/// Whether a queue has room for a further copy (ours). Takes no memory.
pub fn has_room<V: QueueView>(limits: QueueLimits, since: u64, rows: &[V::Row]) -> bool
    ensures { (view : V) → result ≡ has_room limits since (map (V.entry view) rows.now) }
{
    staying::<V>(limits.full, since, rows) < limits.queue
}

/// Adds a turn.
fn add(turns: &mut Vec<Turn>, turn: Turn) -> Result<(), FlowFault>
    ensures turns { OnOk result (turns.new.items ≡ turns.old.items ++ turn ∷ []) }
    ensures fault { IfErr result (λ fault. fault ≡ FlowFault.Memory) }
{
    turns.push(turn).map_err(|_| FlowFault::Memory)
}

/// Adds the turns by which so many copies give way, the oldest first (ours).
pub(crate) fn push_dropped<V: QueueView>(
    turns: &mut Vec<Turn>,
    count: usize,
    since: u64,
    rows: &[V::Row],
) -> Result<(), FlowFault>
    ensures turns { (view : V) → OnOk result (turns.new.items ≡ turns.old.items ++ dropped count since (map (V.entry view) rows.now)) }
    ensures fault { IfErr result (λ fault. fault ≡ FlowFault.Memory) }
{
    let mut left = count;
    for row in rows {
        if left == 0 {
            return Ok(());
        }
        if gives_way::<V>(since, row) {
            let (place, ending) = (V::place(row), Ending::Dropped);
            add(turns, Turn::Leave { place, ending })?;
            left -= 1;
        }
    }
    Ok(())
}

/// Whether a copy's time is up: it waits and is late (3.3.2.3.3).
fn is_up<V: QueueView>(now: u64, row: &V::Row) -> bool
    ensures { (view : V) → result ≡ (is_waiting (V.entry view row.now).phase && is_late now (V.entry view row.now).copy) }
{
    is_waiting(V::phase(row)) && is_late::<V>(now, row)
}

/// Adds the turns by which late copies that wait leave (3.3.2.3.3).
pub(crate) fn push_expired<V: QueueView>(
    turns: &mut Vec<Turn>,
    now: u64,
    rows: &[V::Row],
) -> Result<(), FlowFault>
    ensures turns { (view : V) → OnOk result (turns.new.items ≡ turns.old.items ++ expired now (map (V.entry view) rows.now)) }
    ensures fault { IfErr result (λ fault. fault ≡ FlowFault.Memory) }
{
    for row in rows {
        if is_up::<V>(now, row) {
            let (place, ending) = (V::place(row), Ending::Expired);
            add(turns, Turn::Leave { place, ending })?;
        }
    }
    Ok(())
}

/// Where a released copy stands among those released (4.6).
fn index_of(dues: &[Due], due: Due) -> usize
    ensures within { result ≤ length dues.now }
    ensures exact { insert dues.now result due ≡ by_order due dues.now }
{
    for (index, other) in dues.iter().enumerate() {
        if due.order < other.order {
            return index;
        }
    }
    dues.len()
}

/// Puts a released copy in its order.
fn insert(dues: &mut Vec<Due>, due: Due) -> Result<(), FlowFault>
    ensures ok { OnOk result (dues.new.items ≡ by_order due dues.old.items) }
    ensures fault { IfErr result (λ fault. fault ≡ FlowFault.Memory) }
{
    let index = index_of(dues, due);
    dues.insert(index, due).map_err(|_| FlowFault::Memory)
}

/// Puts a copy in its order, if it is released.
fn insert_phase(dues: &mut Vec<Due>, phase: Phase) -> Result<(), FlowFault>
    ensures ok { OnOk result (dues.new.items ≡ due_of phase dues.old.items) }
    ensures fault { IfErr result (λ fault. fault ≡ FlowFault.Memory) }
{
    match phase {
        Phase::Waiting | Phase::Sent { .. } => Ok(()),
        Phase::Released { identifier, order } => insert(dues, Due { order, identifier }),
        Phase::Oversize { identifier, order } => insert(dues, Due { order, identifier }),
    }
}

/// Puts the released copies in their order (4.6).
pub(crate) fn insert_due<V: QueueView>(
    dues: &mut Vec<Due>,
    rows: &[V::Row],
) -> Result<(), FlowFault>
    ensures exact { (view : V) → OnOk result (dues.new.items ≡ due_from dues.old.items (map (V.entry view) rows.now)) }
    ensures fault { IfErr result (λ fault. fault ≡ FlowFault.Memory) }
{
    for row in rows {
        insert_phase(dues, V::phase(row))?;
    }
    Ok(())
}

/// Adds a PUBREL for each released copy (4.4).
pub(crate) fn push_repeats(turns: &mut Vec<Turn>, dues: &[Due]) -> Result<(), FlowFault>
    ensures turns { OnOk result (turns.new.items ≡ turns.old.items ++ map (λ d. Repeat d.identifier) dues.now) }
    ensures fault { IfErr result (λ fault. fault ≡ FlowFault.Memory) }
{
    for due in dues {
        let identifier = due.identifier;
        add(turns, Turn::Repeat { identifier })?;
    }
    Ok(())
}
