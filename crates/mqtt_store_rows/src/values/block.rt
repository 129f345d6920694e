//! Blocks of properties in columns (2.2.2, 3.3.2.3).
ghost use Rattle.std.specs.Prelude.{◌≡◌, ◌⊎◌, List, MatchOption, IfOk, IfErr, IsErrOf};
ghost use Rattle.sqlite_value.specs.Value.{owned};
ghost use Rattle.mqtt_props.specs.Properties.{Prop};
ghost use Rattle.mqtt_store_rows.specs.values.Blocks.{IsBlockOf, SaysPassed};

use mqtt_keep::KeepError;
use mqtt_props::{Place, PropList, PropsRef, look_at};
use mqtt_records::PassedOn;
use sqlite::types::ValueRef;
use std::alloc::Global;

/// The properties of which the column is the block, if they are lawful in that place.
pub(crate) fn block_of(value: ValueRef<'_>, place: Place) -> Option<PropsRef<'_>>
    ensures { MatchOption result
        ((ps : List Prop) → IsBlockOf place ps (owned value.entry) → ⊥)
        (λ ps. IsBlockOf place ps (owned value.entry)) }
{
    let ValueRef::Blob(bytes) = value else {
        return None;
    };
    match look_at(bytes, place) {
        Ok((props, taken)) => {
            if taken == bytes.len() {
                Some(props)
            } else {
                None
            }
        }
        Err(_) => None,
    }
}

/// The properties of a Will.
pub(crate) fn will_properties(alloc: Global, value: ValueRef<'_>) -> Result<PropList, KeepError>
    ensures ok { IfOk result (λ ps. IsBlockOf Place.Will ps (owned value.entry)) }
    ensures err { IsErrOf result KeepError.Corrupt
        → (ps : List Prop) → IsBlockOf Place.Will ps (owned value.entry) → ⊥ }
    ensures fault { IfErr result (λ e. (e ≡ KeepError.Memory) ⊎ (e ≡ KeepError.Corrupt)) }
{
    let Some(props) = block_of(value, Place::Will) else {
        return Err(KeepError::Corrupt);
    };
    Ok(props.to_list(alloc)?)
}

/// What is passed on of a publication.
pub fn passed(alloc: Global, value: ValueRef<'_>) -> Result<PassedOn, KeepError>
    ensures ok { IfOk result (λ ps. SaysPassed ps (owned value.entry)) }
    ensures err { IsErrOf result KeepError.Corrupt
        → (ps : List Prop) → SaysPassed ps (owned value.entry) → ⊥ }
    ensures fault { IfErr result (λ e. (e ≡ KeepError.Memory) ⊎ (e ≡ KeepError.Corrupt)) }
{
    let Some(props) = block_of(value, Place::Publish) else {
        return Err(KeepError::Corrupt);
    };
    match PassedOn::from_list(props.to_list(alloc)?) {
        Some(passed) => Ok(passed),
        None => Err(KeepError::Corrupt),
    }
}
