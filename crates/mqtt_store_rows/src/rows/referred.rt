//! Whether something refers to each message (4.1).
ghost use Rattle.std.specs.Prelude.{◌≡◌, ◌↔◌, ◌++◌, IsTrue, map, IfOk, OnOk};
ghost use Rattle.std.specs.List.{AllByRecursion, flat_map};
ghost use Rattle.std.specs.List.Sorted.{IsNonDecreasing};
ghost use Rattle.mqtt_store_rows.specs.rows.Gives.{copy_number, queue_numbers, kept_number, numbers_in, is_among, IsReferred};

use crate::rows::message::Message;
use crate::rows::messages::Messages;
use mqtt_records::{Boxed, CopyRow, Records, RetainedMessage, Row, Session};
use std::alloc::{AllocError, Global};

/// Adds the numbers to which the copies of a queue refer.
fn push_queue(numbers: &mut Vec<u64>, queue: &[Boxed<CopyRow>]) -> Result<(), AllocError>
    ensures { OnOk result (numbers.new.items
        ≡ numbers.old.items ++ map copy_number queue.now) }
{
    let mut rest = queue;
    while let Some((copy, after)) = rest.split_first() {
        numbers.push(copy.get().id().publication)?;
        rest = after;
    }
    Ok(())
}

/// Adds the numbers to which the copies of sessions refer.
fn push_sessions(numbers: &mut Vec<u64>, sessions: &[Boxed<Session>]) -> Result<(), AllocError>
    ensures { OnOk result (numbers.new.items ≡ numbers.old.items
        ++ flat_map queue_numbers sessions.now) }
{
    let mut rest = sessions;
    while let Some((session, after)) = rest.split_first() {
        push_queue(numbers, session.get().queue.as_slice())?;
        rest = after;
    }
    Ok(())
}

/// Adds the numbers to which retained messages refer.
fn push_retained(
    numbers: &mut Vec<u64>,
    retained: &[Boxed<RetainedMessage>],
) -> Result<(), AllocError>
    ensures { OnOk result (numbers.new.items
        ≡ numbers.old.items ++ map kept_number retained.now) }
{
    let mut rest = retained;
    while let Some((kept, after)) = rest.split_first() {
        numbers.push(kept.get().publication)?;
        rest = after;
    }
    Ok(())
}

/// Adds the numbers to which anything refers.
fn push_all(numbers: &mut Vec<u64>, records: &Records) -> Result<(), AllocError>
    ensures { OnOk result (numbers.new.items ≡ numbers.old.items ++ numbers_in records.now) }
{
    push_sessions(numbers, records.sessions.as_slice())?;
    push_retained(numbers, records.retained.as_slice())
}

/// The numbers to which anything refers.
fn numbers_in(alloc: Global, records: &Records) -> Result<Vec<u64>, AllocError>
    ensures { IfOk result (λ numbers. numbers.items ≡ numbers_in records.now) }
{
    let mut numbers = Vec::new(alloc);
    match push_all(&mut numbers, records) {
        Ok(()) => Ok(numbers),
        Err(fault) => {
            drop(numbers);
            Err(fault)
        }
    }
}

/// Whether a number is among others that don't fall. Takes no memory.
pub fn is_among(numbers: &[u64], number: u64) -> bool
    requires { IsNonDecreasing numbers.now }
    ensures { result ≡ is_among number numbers.now }
{
    numbers.binary_search(&number).is_ok()
}

/// Whether the number of each message is among these, which don't fall.
fn are_among(numbers: &[u64], messages: &[Message]) -> bool
    requires { IsNonDecreasing numbers.now }
    ensures { IsTrue result ↔ AllByRecursion (λ m. IsTrue (is_among m.publication numbers.now)) messages.now }
{
    let mut rest = messages;
    while let Some((message, after)) = rest.split_first() {
        if !is_among(numbers, message.key()) {
            return false;
        }
        rest = after;
    }
    true
}

/// Whether something refers to each message.
pub fn are_referred(
    alloc: Global,
    messages: &Messages,
    records: &Records,
) -> Result<bool, AllocError>
    ensures { IfOk result (λ b. IsTrue b ↔ AllByRecursion (IsReferred records.now) messages.now) }
{
    let mut numbers = numbers_in(alloc, records)?;
    numbers.sort_unstable();
    let all = are_among(&numbers, messages.as_slice());
    drop(numbers);
    Ok(all)
}
