//! The rows of subscriptions and of open identifiers (3.8, 4.3.3).
ghost use Rattle.std.specs.Prelude.{◌≡◌, ◌≢◌, ◌⊎◌, ℕ, Option, MatchOption, IfOk, IfErr, IsErrOf};
ghost use Rattle.sqlite_value.specs.Value.{owned};
ghost use Rattle.mqtt_base.specs.declared.session.RetainHandling.{RetainHandling};
ghost use Rattle.mqtt_base.specs.declared.session.SubscriptionOptions.{SubscriptionOptions};
ghost use Rattle.mqtt_records.specs.declared.state.subscription.Subscription.{Subscription};
ghost use Rattle.mqtt_store_rows.specs.values.Values.{number, handling_number, or_zero, IsIdentifier};
ghost use Rattle.mqtt_store_rows.specs.values.Rows.{SaysOptions, SaysSubscription};

use crate::values::stored::Stored;
use crate::values::value::{counted, flag, packet_identifier, qos, text, value_at, whole};
use mqtt_base::{RetainHandling, SubscriptionOptions, VARINT_LIMIT};
use mqtt_keep::KeepError;
use mqtt_records::Subscription;
use sqlite::Row;
use sqlite::types::ValueRef;
use std::alloc::Global;

impl Stored for u16 {
    ghost use Rattle.mqtt_store_rows.specs.values.Rows.{SaysOpen};
    ghost use Rattle.mqtt_store_rows.specs.values.Ones.{one_number};

    ghost says = { SaysOpen };

    fn read(_: Global, row: &Row) -> Result<u16, KeepError> {
        match packet_identifier(value_at(row, 1)) {
            Some(identifier) => Ok(identifier),
            None => Err(KeepError::Corrupt),
        }
    }

    ghost one = { λ x y row h k. one_number _ x y h.identifier k.identifier };

    ghost from_one = { λ x row h. h.range.0 };
}

/// Which retained messages are sent at the SUBSCRIBE.
fn handling(value: ValueRef<'_>) -> Option<RetainHandling>
    ensures { MatchOption result
        ((h : RetainHandling) → owned value.entry ≢ number (handling_number h))
        (λ h. owned value.entry ≡ number (handling_number h)) }
{
    match whole(value)? {
        0 => Some(RetainHandling::SendAlways),
        1 => Some(RetainHandling::SendIfNew),
        2 => Some(RetainHandling::DoNotSend),
        _ => None,
    }
}

/// A Subscription Identifier, 0 for none.
fn identifier(value: ValueRef<'_>) -> Option<Option<u32>>
    ensures { MatchOption result
        ((o : Option ℕ) → owned value.entry ≡ number (or_zero o) → IsIdentifier o → ⊥)
        (λ o. (owned value.entry ≡ number (or_zero o)) × IsIdentifier o) }
{
    let n = whole(value)?;
    if n == 0 {
        return Some(None);
    }
    if n >= u64::from(VARINT_LIMIT) {
        return None;
    }
    Some(Some(n as u32))
}

/// The options of a subscription.
fn options(row: &Row) -> Option<SubscriptionOptions>
    ensures { MatchOption result ((o : SubscriptionOptions) → SaysOptions o row.now → ⊥)
        (λ o. SaysOptions o row.now) }
{
    let qos = qos(value_at(row, 3))?;
    let no_local = flag(value_at(row, 4))?;
    let retain_as_published = flag(value_at(row, 5))?;
    let retain_handling = handling(value_at(row, 6))?;
    Some(SubscriptionOptions {
        qos,
        no_local,
        retain_as_published,
        retain_handling,
    })
}

/// A subscription. `Corrupt` if the row says none.
pub fn subscription_of(alloc: Global, row: &Row) -> Result<Subscription, KeepError>
    ensures ok { IfOk result (λ s. SaysSubscription s row.now) }
    ensures err { IsErrOf result KeepError.Corrupt
        → (s : Subscription) → SaysSubscription s row.now → ⊥ }
    ensures fault { IfErr result (λ e. (e ≡ KeepError.Memory) ⊎ (e ≡ KeepError.Corrupt)) }
{
    let Some(place) = counted(value_at(row, 2)) else {
        return Err(KeepError::Corrupt);
    };
    let Some(options) = options(row) else {
        return Err(KeepError::Corrupt);
    };
    let Some(identifier) = identifier(value_at(row, 7)) else {
        return Err(KeepError::Corrupt);
    };
    let filter = match text(alloc, value_at(row, 1)) {
        Ok(filter) => filter,
        Err(fault) => return Err(fault),
    };
    Ok(Subscription {
        filter,
        place,
        options,
        identifier,
    })
}

impl Stored for Subscription {
    ghost use Rattle.mqtt_store_rows.specs.values.Rows.{SaysSubscription};
    ghost use Rattle.mqtt_store_rows.specs.values.Ones.{one_subscription};

    ghost says = { SaysSubscription };

    fn read(alloc: Global, row: &Row) -> Result<Self, KeepError> {
        subscription_of(alloc, row)
    }

    ghost one = { one_subscription };

    ghost from_one = { λ x row h. h.place_range.0 };
}
