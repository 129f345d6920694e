//! Queues that a session may have (4.3, 4.6).
ghost use Rattle.std.specs.Prelude.{◌↔◌, ◌≡◌, ℕ, filter_map, map, IfOk, IsTrue};
ghost use Rattle.mqtt_base.specs.Phases.{identifier_of};
ghost use Rattle.mqtt_base.specs.declared.session.CopyId.{CopyId};
ghost use Rattle.mqtt_records.specs.lists.Distinct.{AllDiffer};
ghost use Rattle.mqtt_keep.specs.lawful.Lawful.{IsLawfulQueue, order_in};
ghost use Rattle.mqtt_keep.specs.lawful.CopyKeys.{key_of, value_of};

use crate::lawful::rows::{Last, are_lawful};
use mqtt_base::{Cause, CopyId, Phase, QUEUE_LIMIT};
use mqtt_records::{Boxed, CopyRow, Rows, all_differ, are_distinct};
use std::alloc::{AllocError, Global};

/// What tells copies apart, so that they can be put in order: publication, birth, which cause it is,
/// the subscribe and the group.
type CopyKey<'a> = (u64, u64, u64, u64, &'a str);

/// The order of release that a copy in this phase has.
fn order_in(phase: Phase) -> Option<u64>
    ensures { result ≡ order_in phase }
{
    match phase {
        Phase::Waiting | Phase::Sent { .. } => None,
        Phase::Released { order, .. } | Phase::Oversize { order, .. } => Some(order),
    }
}

/// Whether no two copies have the same packet identifier.
fn have_identifiers_apart(alloc: Global, queue: &[Boxed<CopyRow>]) -> Result<bool, AllocError>
    ensures { IfOk result (λ apart. IsTrue apart
        ↔ AllDiffer (filter_map (λ row. identifier_of row.phase) queue.now)) }
{
    let mut identifiers = Vec::with_capacity(alloc, queue.len())?;
    let mut rest = queue;
    while let Some((row, after)) = rest.split_first() {
        if let Some(identifier) = row.get().phase().identifier() {
            identifiers.push(u64::from(identifier))?;
        }
        rest = after;
    }
    let apart = all_differ(&mut identifiers);
    drop(identifiers);
    Ok(apart)
}

/// Whether no two copies have the same order of release.
fn have_orders_apart(alloc: Global, queue: &[Boxed<CopyRow>]) -> Result<bool, AllocError>
    ensures { IfOk result (λ apart. IsTrue apart
        ↔ AllDiffer (filter_map (λ row. order_in row.phase) queue.now)) }
{
    let mut orders = Vec::with_capacity(alloc, queue.len())?;
    let mut rest = queue;
    while let Some((row, after)) = rest.split_first() {
        if let Some(order) = order_in(row.get().phase()) {
            orders.push(order)?;
        }
        rest = after;
    }
    let apart = all_differ(&mut orders);
    drop(orders);
    Ok(apart)
}

/// The key of a copy.
fn key_of(id: &CopyId) -> CopyKey<'_>
    ensures { value_of result ≡ key_of id.now }
{
    let (kind, subscribe, group) = match &id.cause {
        Cause::Direct => (0, 0, ""),
        Cause::Share { group } => (1, 0, group.as_str()),
        Cause::Retained { subscribe } => (2, *subscribe, ""),
    };
    (id.publication, id.birth, kind, subscribe, group)
}

/// The keys of copies, in their order.
fn keys(alloc: Global, queue: &[Boxed<CopyRow>]) -> Result<Vec<CopyKey<'_>>, AllocError>
    ensures { IfOk result (λ keys. map value_of keys.items
        ≡ map (λ row. key_of row.copy.id) queue.now) }
{
    let mut keys = Vec::with_capacity(alloc, queue.len())?;
    for row in queue {
        keys.push(key_of(row.get().id()))?;
    }
    Ok(keys)
}

/// Whether no two copies are the same.
fn are_copies_apart(alloc: Global, queue: &[Boxed<CopyRow>]) -> Result<bool, AllocError>
    ensures { IfOk result (λ apart. IsTrue apart
        ↔ AllDiffer (map (λ row. row.copy.id) queue.now)) }
{
    let mut keys = keys(alloc, queue)?;
    let apart = are_distinct(&mut keys);
    drop(keys);
    Ok(apart)
}

/// Whether the queue of the session with this birth keeps its rules.
pub(crate) fn is_queue(
    alloc: Global,
    queue: &Rows<Boxed<CopyRow>, QUEUE_LIMIT>,
    last: Last,
    birth: u64,
) -> Result<bool, AllocError>
    ensures { IfOk result (λ lawful. IsTrue lawful ↔ IsLawfulQueue last birth queue.now) }
{
    let rows = queue.as_slice();
    let apart = have_identifiers_apart(alloc, rows)?
        && have_orders_apart(alloc, rows)?
        && are_copies_apart(alloc, rows)?;
    Ok(apart && are_lawful(alloc, rows, (last, birth))?)
}
