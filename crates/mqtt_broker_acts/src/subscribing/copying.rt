//! Copies of the retained messages that a filter brings: those that enter the queue, and those that go out after
//! the SUBACK (MQTT 5.0, 3.3.1.3, 3.8.4).
ghost use Rattle.std.specs.Prelude.{◌≡◌, ℕ, true, ◌∷◌, ◌++◌, [], length, min, nat_le, suc, cond, IfNone, IfOk, IfSome, OnOk};
ghost use Rattle.mqtt_base.specs.Service.{qos_number};
ghost use Rattle.mqtt_rules.specs.step.Packets.{quality};
ghost use Rattle.mqtt_rules.specs.step.Routing.{is_queued_at};
ghost use Rattle.mqtt_rules.specs.step.Subscribe.{Wish};
ghost use Rattle.mqtt_broker_acts.specs.subscribing.Granting.{chosen};

use mqtt_base::{Qos, SubscriptionOptions};
use mqtt_broker_looks::decided::retained_copy;
use mqtt_records::{MessageCopy, RetainedMessage};
use std::alloc::{AllocError, Global};

/// Whether a copy is queued of a message of that quality of service, for a subscription of this one (3.8.4).
fn is_queued(message: Qos, granted: Qos) -> bool
    ensures { result ≡ is_queued_at (quality (min (qos_number message) (qos_number granted))) }
{
    match (message, granted) {
        (Qos::AtMostOnce, _) | (_, Qos::AtMostOnce) => false,
        _ => true,
    }
}

/// The room after a copy of a message, if it has room.
fn room_after(room: usize, message: Qos, granted: Qos) -> Option<usize>
    ensures full { IfNone result ((is_queued_at
        (quality (min (qos_number message) (qos_number granted))) ≡ true) × (room ≡ 0)) }
    ensures left { IfSome result (λ left. room ≡ cond (is_queued_at
        (quality (min (qos_number message) (qos_number granted)))) (suc left) left) }
{
    if is_queued(message, granted) {
        room.checked_sub(1)
    } else {
        Some(room)
    }
}

/// Whether at most so many copies are queued of these messages, for a subscription with these options.
pub(crate) fn fit(room: usize, options: SubscriptionOptions, kept: &[RetainedMessage]) -> bool
    ensures { (birth number : ℕ) (w : Wish) → w.options ≡ options
        → result ≡ nat_le (length (chosen true birth number w kept.now)) room }
{
    let mut room = room;
    let mut rest = kept;
    while let Some((message, after)) = rest.split_first() {
        let Some(left) = room_after(room, message.qos, options.qos) else {
            return false;
        };
        room = left;
        rest = after;
    }
    true
}

/// Adds a message's copy at the end, if it is to be queued, or if it isn't.
fn push_chosen(
    copies: &mut Vec<MessageCopy>,
    alloc: Global,
    queued: bool,
    birth: u64,
    number: u64,
    options: SubscriptionOptions,
    identifier: Option<u32>,
    message: &RetainedMessage,
) -> Result<(), AllocError>
    ensures { (w : Wish) → w.options ≡ options → w.identifier ≡ identifier → OnOk result
        (copies.new.items ≡ copies.old.items ++ chosen queued birth number w (message.now ∷ [])) }
{
    if is_queued(message.qos, options.qos) == queued {
        copies.push(retained_copy(alloc, birth, number, options, identifier, message)?)?;
    }
    Ok(())
}

/// Adds copies of messages at the end, in their order: those that are to be queued, or those that aren't.
pub(crate) fn push_all(
    copies: &mut Vec<MessageCopy>,
    alloc: Global,
    queued: bool,
    birth: u64,
    number: u64,
    options: SubscriptionOptions,
    identifier: Option<u32>,
    kept: &[RetainedMessage],
) -> Result<(), AllocError>
    ensures { (w : Wish) → w.options ≡ options → w.identifier ≡ identifier → OnOk result
        (copies.new.items ≡ copies.old.items ++ chosen queued birth number w kept.now) }
{
    let mut rest = kept;
    while let Some((message, after)) = rest.split_first() {
        push_chosen(
            copies, alloc, queued, birth, number, options, identifier, message,
        )?;
        rest = after;
    }
    Ok(())
}

/// Copies of messages that are to be queued, in their order.
pub(crate) fn queued(
    alloc: Global,
    birth: u64,
    number: u64,
    options: SubscriptionOptions,
    identifier: Option<u32>,
    kept: &[RetainedMessage],
) -> Result<Vec<MessageCopy>, AllocError>
    ensures { (w : Wish) → w.options ≡ options → w.identifier ≡ identifier
        → IfOk result (λ copies. copies.items ≡ chosen true birth number w kept.now) }
{
    let mut copies = Vec::new(alloc);
    push_all(
        &mut copies,
        alloc,
        true,
        birth,
        number,
        options,
        identifier,
        kept,
    )?;
    Ok(copies)
}
