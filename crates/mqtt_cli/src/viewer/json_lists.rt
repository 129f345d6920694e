//! The JSON of filters with their options, and of reason codes (3.8.3, 3.9.3, 3.10.3; ours).

ghost use Rattle.std.specs.Prelude.{◌≡◌, ◌++◌, OnOk};
ghost use Rattle.std.specs.List.{flat_map};
ghost use Rattle.mqtt_packet.specs.subscribe.SubscriptionViews.{subscription_of};
ghost use Rattle.mqtt_cli.specs.viewer.JsonPacket.{json_codes, json_filter, json_filters, json_next_code, json_next_filter, json_next_subscription, json_options, json_subscription, json_subscriptions};

use crate::viewer::json_values::{push_bool_member, push_text_member};
use crate::viewer::packet_text::{push_field, push_number};
use mqtt_packet::{FiltersRef, SubscriptionRef, SubscriptionsRef};
use std::alloc::AllocError;

/// Adds what the options of a subscription say (3.8.3.1).
#[tactic(auto, using(std::proofs::lemmas::List::append_assoc))]
fn push_json_options(text: &mut Vec<u8>, options: u8) -> Result<(), AllocError>
    ensures { OnOk result (text.new.items ≡ text.old.items ++ json_options options) }
{
    push_field(text, b",\"qos\":", u64::from(options % 4))?;
    push_bool_member(text, b",\"no-local\":", options / 4 % 2 == 1)?;
    push_bool_member(text, b",\"retain-as-published\":", options / 8 % 2 == 1)?;
    push_field(text, b",\"retain-handling\":", u64::from(options / 16))
}

/// Adds a subscription, an object of its filter and its options.
#[tactic(auto, using(std::proofs::lemmas::List::append_assoc))]
fn push_json_subscription(
    text: &mut Vec<u8>,
    subscription: &SubscriptionRef<'_>,
) -> Result<(), AllocError>
    ensures { OnOk result (text.new.items
        ≡ text.old.items ++ json_subscription (subscription_of subscription.now)) }
{
    push_text_member(text, b"{\"filter\":", subscription.filter)?;
    push_json_options(text, subscription.options)?;
    text.extend_from_slice(b"}")
}

/// Adds a comma and a subscription.
#[tactic(auto, using(std::proofs::lemmas::List::append_assoc))]
fn push_json_next_subscription(
    text: &mut Vec<u8>,
    subscription: &SubscriptionRef<'_>,
) -> Result<(), AllocError>
    ensures { OnOk result (text.new.items
        ≡ text.old.items ++ json_next_subscription (subscription_of subscription.now)) }
{
    text.extend_from_slice(b",")?;
    push_json_subscription(text, subscription)
}

/// Adds subscriptions with a comma before each.
#[tactic(auto, using(std::proofs::lemmas::List::append_assoc))]
fn push_json_next_subscriptions(
    text: &mut Vec<u8>,
    subscriptions: &SubscriptionsRef<'_>,
) -> Result<(), AllocError>
    ensures { OnOk result (text.new.items
        ≡ text.old.items ++ flat_map json_next_subscription subscriptions.now) }
{
    let mut rest = subscriptions.again();
    while let Some((first, after)) = rest.split_first() {
        push_json_next_subscription(text, &first)?;
        rest = after;
    }
    Ok(())
}

/// Adds subscriptions with commas between them.
#[tactic(auto, using(std::proofs::lemmas::List::append_assoc))]
pub(crate) fn push_json_subscriptions(
    text: &mut Vec<u8>,
    subscriptions: &SubscriptionsRef<'_>,
) -> Result<(), AllocError>
    ensures { OnOk result (text.new.items
        ≡ text.old.items ++ json_subscriptions subscriptions.now) }
{
    let Some((first, rest)) = subscriptions.split_first() else {
        return Ok(());
    };
    push_json_subscription(text, &first)?;
    push_json_next_subscriptions(text, &rest)
}

/// Adds a comma and a code.
#[tactic(auto, using(std::proofs::lemmas::List::append_assoc))]
fn push_json_next_code(text: &mut Vec<u8>, code: u8) -> Result<(), AllocError>
    ensures { OnOk result (text.new.items ≡ text.old.items ++ json_next_code code) }
{
    push_field(text, b",", u64::from(code))
}

/// Adds codes with a comma before each.
#[tactic(auto, using(std::proofs::lemmas::List::append_assoc))]
fn push_json_next_codes(text: &mut Vec<u8>, codes: &[u8]) -> Result<(), AllocError>
    ensures { OnOk result (text.new.items
        ≡ text.old.items ++ flat_map json_next_code codes.now) }
{
    let mut rest = codes;
    while let Some((first, after)) = rest.split_first() {
        push_json_next_code(text, *first)?;
        rest = after;
    }
    Ok(())
}

/// Adds codes with commas between them.
#[tactic(auto, using(std::proofs::lemmas::List::append_assoc))]
pub(crate) fn push_json_codes(text: &mut Vec<u8>, codes: &[u8]) -> Result<(), AllocError>
    ensures { OnOk result (text.new.items ≡ text.old.items ++ json_codes codes.now) }
{
    let Some((first, rest)) = codes.split_first() else {
        return Ok(());
    };
    push_number(text, u64::from(*first))?;
    push_json_next_codes(text, rest)
}

/// Adds a filter, an object.
#[tactic(auto, using(std::proofs::lemmas::List::append_assoc))]
fn push_json_filter(text: &mut Vec<u8>, filter: &str) -> Result<(), AllocError>
    ensures { OnOk result (text.new.items ≡ text.old.items ++ json_filter filter.now) }
{
    push_text_member(text, b"{\"filter\":", filter)?;
    text.extend_from_slice(b"}")
}

/// Adds a comma and a filter.
#[tactic(auto, using(std::proofs::lemmas::List::append_assoc))]
fn push_json_next_filter(text: &mut Vec<u8>, filter: &str) -> Result<(), AllocError>
    ensures { OnOk result (text.new.items ≡ text.old.items ++ json_next_filter filter.now) }
{
    text.extend_from_slice(b",")?;
    push_json_filter(text, filter)
}

/// Adds filters with a comma before each.
#[tactic(auto, using(std::proofs::lemmas::List::append_assoc))]
fn push_json_next_filters(text: &mut Vec<u8>, filters: &FiltersRef<'_>) -> Result<(), AllocError>
    ensures { OnOk result (text.new.items
        ≡ text.old.items ++ flat_map json_next_filter filters.now) }
{
    let mut rest = filters.again();
    while let Some((first, after)) = rest.split_first() {
        push_json_next_filter(text, first)?;
        rest = after;
    }
    Ok(())
}

/// Adds filters with commas between them.
#[tactic(auto, using(std::proofs::lemmas::List::append_assoc))]
pub(crate) fn push_json_filters(
    text: &mut Vec<u8>,
    filters: &FiltersRef<'_>,
) -> Result<(), AllocError>
    ensures { OnOk result (text.new.items ≡ text.old.items ++ json_filters filters.now) }
{
    let Some((first, rest)) = filters.split_first() else {
        return Ok(());
    };
    push_json_filter(text, first)?;
    push_json_next_filters(text, &rest)
}
