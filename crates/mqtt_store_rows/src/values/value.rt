//! What a value in a column says: numbers, texts, bytes (1.5).
ghost use Rattle.std.specs.Prelude.{◌≡◌, ◌≢◌, ◌<◌, ◌^◌, ◌⊎◌, ℕ, List, Bool, Option, length, MatchOption, MatchBool, IfOk, IfErr, IsErrOf};
ghost use Rattle.sqlite_value.specs.Value.{owned};
ghost use Rattle.sqlite_value.specs.Order.{column, bytes};
ghost use Rattle.sqlite_value.specs.declared.value.Value.TheVariants.{Null};
ghost use Rattle.sqlite_value.specs.declared.value.Value.TheVariants as sql;
ghost use Rattle.mqtt_base.specs.Values.{FitsText};
ghost use Rattle.mqtt_base.specs.Service.{qos_number};
ghost use Rattle.mqtt_base.specs.declared.session.Qos.{Qos};
ghost use Rattle.mqtt_records.specs.state.Records.{IsNumber, IsMoment};
ghost use Rattle.mqtt_store_rows.specs.values.Values.{number, number_or_null, flag, IsCounted, IsPacketIdentifier, IsShort};

use bytes::Bytes;
use mqtt_base::{LAST_NUMBER, Qos, ROW_LIMIT, Text};
use mqtt_keep::KeepError;
use sqlite::Row;
use sqlite::types::ValueRef;
use std::alloc::Global;

/// The value in a column, NULL past the last. Takes no memory.
pub fn value_at(row: &Row, at: usize) -> ValueRef<'_>
    ensures { owned result ≡ column row.now at }
{
    match row.get_ref(at) {
        Ok(value) => value,
        Err(_) => ValueRef::Null,
    }
}

/// A whole number from 0.
pub(crate) fn whole(value: ValueRef<'_>) -> Option<u64>
    ensures { MatchOption result ((n : ℕ) → owned value.entry ≢ number n)
        (λ n. owned value.entry ≡ number n) }
{
    match value {
        ValueRef::Int(n) => u64::try_from(n).ok(),
        _ => None,
    }
}

/// Whether it is this number. Takes no memory.
pub fn is_number(value: ValueRef<'_>, n: u64) -> bool
    ensures { MatchBool result (owned value.entry ≡ number n) (owned value.entry ≢ number n) }
{
    match whole(value) {
        Some(m) => m == n,
        None => false,
    }
}

/// A number that may be kept.
pub fn kept(value: ValueRef<'_>) -> Option<u64>
    ensures { MatchOption result ((n : ℕ) → owned value.entry ≡ number n → IsNumber n → ⊥)
        (λ n. (owned value.entry ≡ number n) × IsNumber n) }
{
    let n = whole(value)?;
    if n > LAST_NUMBER {
        return None;
    }
    Some(n)
}

/// A number, a place or an order of release, from 1.
pub fn counted(value: ValueRef<'_>) -> Option<u64>
    ensures { MatchOption result ((n : ℕ) → owned value.entry ≡ number n → IsCounted n → ⊥)
        (λ n. (owned value.entry ≡ number n) × IsCounted n) }
{
    let n = whole(value)?;
    if n == 0 || n > LAST_NUMBER {
        return None;
    }
    Some(n)
}

/// A moment, or none.
pub(crate) fn moment(value: ValueRef<'_>) -> Option<Option<u64>>
    ensures { MatchOption result
        ((o : Option ℕ) → owned value.entry ≡ number_or_null o → IsMoment o → ⊥)
        (λ o. (owned value.entry ≡ number_or_null o) × IsMoment o) }
{
    match value {
        ValueRef::Null => Some(None),
        _ => Some(Some(kept(value)?)),
    }
}

/// A number of seconds.
pub(crate) fn seconds(value: ValueRef<'_>) -> Option<u32>
    ensures { MatchOption result ((n : ℕ) → owned value.entry ≡ number n → n < 2 ^ 32 → ⊥)
        (λ n. owned value.entry ≡ number n) }
{
    let n = whole(value)?;
    if n > u64::from(u32::MAX) {
        return None;
    }
    Some(n as u32)
}

/// A packet identifier (2.2.1).
pub(crate) fn packet_identifier(value: ValueRef<'_>) -> Option<u16>
    ensures { MatchOption result
        ((n : ℕ) → owned value.entry ≡ number n → IsPacketIdentifier n → ⊥)
        (λ n. (owned value.entry ≡ number n) × IsPacketIdentifier n) }
{
    let n = whole(value)?;
    if n == 0 || n > u64::from(u16::MAX) {
        return None;
    }
    Some(n as u16)
}

/// 0 or 1.
pub fn flag(value: ValueRef<'_>) -> Option<bool>
    ensures { MatchOption result ((b : Bool) → owned value.entry ≢ flag b)
        (λ b. owned value.entry ≡ flag b) }
{
    match whole(value)? {
        0 => Some(false),
        1 => Some(true),
        _ => None,
    }
}

/// A quality of service.
pub fn qos(value: ValueRef<'_>) -> Option<Qos>
    ensures { MatchOption result ((q : Qos) → owned value.entry ≢ number (qos_number q))
        (λ q. owned value.entry ≡ number (qos_number q)) }
{
    match whole(value)? {
        0 => Some(Qos::AtMostOnce),
        1 => Some(Qos::AtLeastOnce),
        2 => Some(Qos::ExactlyOnce),
        _ => None,
    }
}

/// Whether it is NULL.
pub(crate) fn is_null(value: ValueRef<'_>) -> bool
    ensures { MatchBool result (owned value.entry ≡ Null) (owned value.entry ≢ Null) }
{
    match value {
        ValueRef::Null => true,
        _ => false,
    }
}

/// A text that has a spelling.
#[tactic(auto, using(crate::proofs::values_lemmas::Texts::fits_utf8))]
pub fn text(alloc: Global, value: ValueRef<'_>) -> Result<Text, KeepError>
    ensures ok { IfOk result (λ t. (owned value.entry ≡ sql.Text t) × FitsText t) }
    ensures err { IsErrOf result KeepError.Corrupt
        → (t : List ℕ) → owned value.entry ≡ sql.Text t → FitsText t → ⊥ }
    ensures fault { IfErr result (λ e. (e ≡ KeepError.Memory) ⊎ (e ≡ KeepError.Corrupt)) }
{
    let ValueRef::Text(bytes) = value else {
        return Err(KeepError::Corrupt);
    };
    let Ok(text) = std::str::from_utf8(bytes) else {
        return Err(KeepError::Corrupt);
    };
    if !Text::may_hold(text) {
        return Err(KeepError::Corrupt);
    }
    Ok(Text::new(alloc, text)?)
}

/// Bytes.
pub fn blob(alloc: Global, value: ValueRef<'_>) -> Result<Bytes, KeepError>
    ensures ok { IfOk result (λ b. owned value.entry ≡ sql.Blob b) }
    ensures err { IsErrOf result KeepError.Corrupt
        → (b : List ℕ) → owned value.entry ≢ sql.Blob b }
    ensures fault { IfErr result (λ e. (e ≡ KeepError.Memory) ⊎ (e ≡ KeepError.Corrupt)) }
{
    let ValueRef::Blob(bytes) = value else {
        return Err(KeepError::Corrupt);
    };
    Ok(Bytes::copy_from_slice(alloc, bytes)?)
}

/// How many bytes it has.
fn bytes_in(value: ValueRef<'_>) -> usize
    ensures { result ≡ length (bytes (owned value.entry)) }
{
    match value {
        ValueRef::Text(bytes) | ValueRef::Blob(bytes) => bytes.len(),
        ValueRef::Null | ValueRef::Int(_) | ValueRef::Real(_) => 0,
    }
}

/// Whether a topic, a block of properties and a payload are few enough bytes.
pub fn is_short(topic: ValueRef<'_>, props: ValueRef<'_>, payload: ValueRef<'_>) -> bool
    ensures { MatchBool result
        (IsShort (owned topic.entry) (owned props.entry) (owned payload.entry))
        (IsShort (owned topic.entry) (owned props.entry) (owned payload.entry) → ⊥) }
{
    let topic = bytes_in(topic);
    let props = bytes_in(props);
    let payload = bytes_in(payload);
    topic <= ROW_LIMIT && props <= ROW_LIMIT - topic && payload <= ROW_LIMIT - topic - props
}
