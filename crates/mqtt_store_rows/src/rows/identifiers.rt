//! Subscription Identifiers in a column, without a length in front (3.3.2.3.8).
ghost use Rattle.std.specs.Prelude.{◌≡◌, ◌⊎◌, ◌++◌, ℕ, List, [], Some, MatchOption, IfOk, IfErr, OnOk, IsErrOf};
ghost use Rattle.sqlite_value.specs.Value.{owned};
ghost use Rattle.mqtt_props.specs.Properties.{prop};
ghost use Rattle.mqtt_records.specs.messages.PassedOn.{identified};
ghost use Rattle.mqtt_store_rows.specs.values.Values.{IsIdentifier};
ghost use Rattle.mqtt_store_rows.specs.rows.Rows.{ArePairs, SaysIdentifiers};

use mqtt_base::varint_read;
use mqtt_keep::KeepError;
use mqtt_props::PropName;
use mqtt_records::SubscriptionIdentifiers;
use sqlite::types::ValueRef;
use std::alloc::Global;

/// The identifier whose pair stands at the front, and the bytes behind the pair.
fn pair_at(bytes: &[u8]) -> Option<(u32, &[u8])>
    ensures { MatchOption result
        ((n : ℕ) (rest : List ℕ) → bytes.now ≡ prop (identified n) ++ rest → IsIdentifier (Some n) → ⊥)
        (λ x. (bytes.now ≡ prop (identified x.0) ++ x.1.now) × IsIdentifier (Some x.0)) }
{
    let (first, rest) = bytes.split_first()?;
    if *first != PropName::SubscriptionIdentifier.id() {
        return None;
    }
    match varint_read(rest) {
        Ok((identifier, taken)) => {
            if identifier == 0 {
                None
            } else {
                Some((identifier, &rest[taken..]))
            }
        }
        Err(_) => None,
    }
}

/// Adds the identifiers whose pairs the bytes are.
fn push_pairs(all: &mut SubscriptionIdentifiers, bytes: &[u8]) -> Result<(), KeepError>
    requires { all.old ≡ [] }
    ensures ok { OnOk result (ArePairs all.new bytes.now) }
    ensures err { IsErrOf result KeepError.Corrupt → (ids : List ℕ) → ArePairs ids bytes.now → ⊥ }
    ensures fault { IfErr result (λ e. (e ≡ KeepError.Memory) ⊎ (e ≡ KeepError.Corrupt)) }
{
    let mut rest = bytes;
    while !rest.is_empty() {
        let Some((identifier, after)) = pair_at(rest) else {
            return Err(KeepError::Corrupt);
        };
        all.push(identifier)?;
        rest = after;
    }
    Ok(())
}

/// The Subscription Identifiers that a column says.
pub fn identifiers_of(
    alloc: Global,
    value: ValueRef<'_>,
) -> Result<SubscriptionIdentifiers, KeepError>
    ensures ok { IfOk result (λ ids. SaysIdentifiers ids (owned value.entry)) }
    ensures err { IsErrOf result KeepError.Corrupt
        → (ids : List ℕ) → SaysIdentifiers ids (owned value.entry) → ⊥ }
    ensures fault { IfErr result (λ e. (e ≡ KeepError.Memory) ⊎ (e ≡ KeepError.Corrupt)) }
{
    let ValueRef::Blob(bytes) = value else {
        return Err(KeepError::Corrupt);
    };
    let mut all = SubscriptionIdentifiers::new(alloc);
    match push_pairs(&mut all, bytes) {
        Ok(()) => Ok(all),
        Err(fault) => {
            drop(all);
            Err(fault)
        }
    }
}
