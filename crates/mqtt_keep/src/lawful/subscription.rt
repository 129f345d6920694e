//! Subscriptions that a session may have (3.8).
ghost use Rattle.std.specs.Prelude.{◌↔◌, IfOk, IsTrue};
ghost use Rattle.mqtt_topic.specs.names.Filters.{is_filter};
ghost use Rattle.mqtt_keep.specs.lawful.Lawful.{AreSubscriptions, IsIdentifier, IsSubscription};

use crate::lawful::rows::{Lawful, are_lawful, is_up_to};
use mqtt_base::{SUBSCRIPTION_LIMIT, Text, VARINT_LIMIT};
use mqtt_records::{Boxed, Rows, Subscription, are_named_apart};
use mqtt_topic::Filter;
use std::alloc::{AllocError, Global};

/// Whether a text is a filter, shared or not.
fn is_filter(text: &Text) -> Result<bool, AllocError>
    ensures { IfOk result (λ lawful. IsTrue lawful ↔ IsTrue (is_filter text.now)) }
{
    let text = text.clone()?;
    match Filter::from_text(text) {
        Ok(filter) => {
            drop(filter);
            Ok(true)
        }
        Err(_) => Ok(false),
    }
}

/// Whether a Subscription Identifier is one that packets can carry, if there is one.
fn is_identifier(identifier: Option<u32>) -> bool
    ensures { IsTrue result ↔ IsIdentifier identifier }
{
    match identifier {
        Some(number) => 1 <= number && number < VARINT_LIMIT,
        None => true,
    }
}

impl Lawful for Subscription {
    type Within = u64;

    ghost use Rattle.mqtt_keep.specs.lawful.Lawful.{IsSubscription};

    ghost is_lawful_within = { λ subscribes subscription. IsSubscription subscribes subscription };

    fn is_lawful(&self, _: Global, subscribes: u64) -> Result<bool, AllocError> {
        let is_numbered = is_up_to(subscribes, self.place) && is_identifier(self.identifier);
        Ok(is_numbered && is_filter(&self.filter)?)
    }
}

/// Whether the subscriptions of a session keep their rules.
pub(crate) fn are_subscriptions(
    alloc: Global,
    subscriptions: &Rows<Boxed<Subscription>, SUBSCRIPTION_LIMIT>,
    subscribes: u64,
) -> Result<bool, AllocError>
    ensures { IfOk result (λ lawful. IsTrue lawful
        ↔ AreSubscriptions subscribes subscriptions.now) }
{
    let rows = subscriptions.as_slice();
    Ok(are_named_apart(alloc, rows)? && are_lawful(alloc, rows, subscribes)?)
}
