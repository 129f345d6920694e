//! A filter of a SUBSCRIBE: the place of its subscription, and the retained messages that it brings (3.8).
ghost use Rattle.std.specs.Prelude.{◌≡◌, min, IfOk};
ghost use Rattle.mqtt_base.specs.Service.{qos_number};
ghost use Rattle.mqtt_rules.specs.step.Packets.{quality};
ghost use Rattle.mqtt_rules.specs.step.Subscribe.{Wish, has_filter, identifiers_of, is_brought, is_to, place_among, retained_copy, subscription, wants_retained};
ghost use Rattle.mqtt_rules.specs.step.Outbound.{is_new};
ghost use Rattle.mqtt_records.specs.declared.state.records.Records.{Records};
ghost use Rattle.mqtt_records.specs.declared.messages.message.MessageCopy.{MessageCopy as TheCopy};

use crate::decided::moments::is_expired;
use mqtt_base::{Cause, CopyId, Qos, RetainHandling, SubscriptionOptions, Text};
use mqtt_records::{MessageCopy, RetainedMessage, Session, Subscription, SubscriptionIdentifiers};
use std::alloc::{AllocError, Global};

/// Whether a subscription is to that filter.
fn is_to(subscription: &Subscription, text: &str) -> bool
    ensures { result ≡ is_to text.now subscription.now }
{
    subscription.filter.as_str() == text
}

/// Whether a session has a subscription to that filter (3.8.4). Takes no memory.
pub fn has_filter(session: &Session, text: &str) -> bool
    ensures { result ≡ has_filter text.now session.now }
{
    session
        .subscriptions
        .as_slice()
        .iter()
        .any(|subscription| is_to(subscription.get(), text))
}

/// The place of a session's subscription to that filter, or the number if it has none yet (3.8.4).
/// Takes no memory.
pub fn place_among(number: u64, text: &str, session: &Session) -> u64
    ensures { result ≡ place_among number text.now session.now.subscriptions }
{
    let mut rest = session.subscriptions.as_slice();
    while let Some((subscription, after)) = rest.split_first() {
        if is_to(subscription.get(), text) {
            return subscription.get().place;
        }
        rest = after;
    }
    number
}

/// Whether a subscription brings retained messages, by whether there was one to that filter (3.8.3.1).
/// Takes no memory.
pub fn wants_retained(handling: RetainHandling, is_old: bool) -> bool
    ensures { result ≡ wants_retained handling is_old }
{
    match handling {
        RetainHandling::SendAlways => true,
        RetainHandling::SendIfNew => !is_old,
        RetainHandling::DoNotSend => false,
    }
}

/// Whether a retained message that matches is sent to a session: No Local bars its own, and none that
/// has expired is sent (3.3.1.3, 3.8.3.1). Takes no memory.
pub fn is_brought(
    now: u64,
    session: &Session,
    options: SubscriptionOptions,
    kept: &RetainedMessage,
) -> bool
    ensures { (w : Wish) → w.options ≡ options → result ≡ is_brought now session.now w kept.now }
{
    let is_own = session.client.as_str() == kept.sender.as_str();
    !(options.no_local && is_own) && !is_expired(now, &kept.content)
}

/// The lesser of two qualities of service (3.8.4).
fn lesser(a: Qos, b: Qos) -> Qos
    ensures { result ≡ quality (min (qos_number a) (qos_number b)) }
{
    match (a, b) {
        (Qos::AtMostOnce, _) | (_, Qos::AtMostOnce) => Qos::AtMostOnce,
        (Qos::ExactlyOnce, Qos::ExactlyOnce) => Qos::ExactlyOnce,
        _ => Qos::AtLeastOnce,
    }
}

/// A Subscription Identifier that may be there, as a copy carries it.
fn identifiers_of(
    alloc: Global,
    identifier: Option<u32>,
) -> Result<SubscriptionIdentifiers, AllocError>
    ensures { IfOk result (λ all. all ≡ identifiers_of identifier) }
{
    match identifier {
        Some(identifier) => SubscriptionIdentifiers::from_slice(alloc, &[identifier]),
        None => Ok(SubscriptionIdentifiers::new(alloc)),
    }
}

/// The copy of a retained message for the session with that birth, brought by the subscribe of that
/// number (3.3.1.3, 3.8.4). Its texts and its payload are shared.
pub fn retained_copy(
    alloc: Global,
    birth: u64,
    number: u64,
    options: SubscriptionOptions,
    identifier: Option<u32>,
    kept: &RetainedMessage,
) -> Result<MessageCopy, AllocError>
    ensures { (w : Wish) → w.options ≡ options → w.identifier ≡ identifier
        → IfOk result (λ copy. copy ≡ retained_copy birth number w kept.now) }
{
    Ok(MessageCopy {
        id: CopyId {
            publication: kept.publication,
            birth,
            cause: Cause::Retained { subscribe: number },
        },
        qos: lesser(kept.qos, options.qos),
        retain: true,
        identifiers: identifiers_of(alloc, identifier)?,
        content: kept.content.clone()?,
    })
}

/// The subscription of a session to a filter that is granted under a number (3.8.4). Takes no memory.
pub fn subscription_of(
    number: u64,
    session: &Session,
    filter: Text,
    options: SubscriptionOptions,
    identifier: Option<u32>,
) -> Subscription
    ensures { (w : Wish) → w.filter ≡ filter → w.options ≡ options → w.identifier ≡ identifier
        → result ≡ subscription number session.now w }
{
    let place = place_among(number, filter.as_str(), session);
    Subscription {
        filter,
        place,
        options,
        identifier,
    }
}

/// Whether the copy with that identity was made in the step that began with these two numbers as the
/// newest. Takes no memory.
pub fn is_new_id(publications: u64, subscribes: u64, id: &CopyId) -> bool
    ensures { (start : Records) (copy : TheCopy) → start.publications ≡ publications
        → start.subscribes ≡ subscribes → copy.id ≡ id.now → result ≡ is_new start copy }
{
    let is_new_cause = match &id.cause {
        Cause::Direct | Cause::Share { .. } => false,
        Cause::Retained { subscribe } => subscribes < *subscribe,
    };
    publications < id.publication || is_new_cause
}

/// Whether a copy was made in the step that began with these two numbers as the newest. Takes no memory.
pub fn is_new(publications: u64, subscribes: u64, copy: &MessageCopy) -> bool
    ensures { (start : Records) → start.publications ≡ publications → start.subscribes ≡ subscribes
        → result ≡ is_new start copy.now }
{
    is_new_id(publications, subscribes, &copy.id)
}
