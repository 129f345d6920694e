//! Blocks of properties as copies have them in schema 1, with their Subscription Identifiers (2.2.2, 3.3.2.3).
ghost use Rattle.std.specs.Prelude.{◌≡◌, ◌⊎◌, ℕ, List, [], IfOk, IfErr, OnOk, IsErrOf};
ghost use Rattle.sqlite_value.specs.Value.{owned};
ghost use Rattle.mqtt_props.specs.Properties.{Prop};
ghost use Rattle.mqtt_props.specs.Edits.{without};
ghost use Rattle.mqtt_props.specs.declared.table.PropName.TheVariants.{SubscriptionIdentifier};
ghost use Rattle.mqtt_records.specs.messages.PassedOn.{IsPassedOn};
ghost use Rattle.mqtt_store_rows.specs.values.Blocks.{rises_from, identifiers_in, SaysSent};

use crate::values::block_of;
use mqtt_keep::KeepError;
use mqtt_props::{Place, PropName, PropsRef};
use mqtt_records::{PassedOn, SubscriptionIdentifiers, number_in};
use sqlite::types::ValueRef;
use std::alloc::{AllocError, Global};

/// Whether the identifiers of the properties rise.
fn rises(props: &PropsRef<'_>) -> bool
    ensures { result ≡ rises_from 0 props.now }
{
    let mut id = 0;
    let mut rest = props.reborrow();
    while let Some((prop, after)) = rest.split_first() {
        let next = prop.name.id();
        if next < id {
            return false;
        }
        id = next;
        rest = after;
    }
    true
}

/// Adds the Subscription Identifiers among the properties.
fn push_identifiers(
    all: &mut SubscriptionIdentifiers,
    props: &PropsRef<'_>,
) -> Result<(), AllocError>
    requires { all.old ≡ [] }
    ensures { OnOk result (all.new ≡ identifiers_in props.now) }
{
    let mut rest = props.reborrow();
    while let Some((prop, after)) = rest.split_first() {
        if prop.name.id() == PropName::SubscriptionIdentifier.id() {
            all.push(number_in(prop.value))?;
        }
        rest = after;
    }
    Ok(())
}

/// The Subscription Identifiers among the properties.
fn identifiers(alloc: Global, props: &PropsRef<'_>) -> Result<SubscriptionIdentifiers, AllocError>
    ensures { IfOk result (λ all. all ≡ identifiers_in props.now) }
{
    let mut all = SubscriptionIdentifiers::new(alloc);
    match push_identifiers(&mut all, props) {
        Ok(()) => Ok(all),
        Err(fault) => {
            drop(all);
            Err(fault)
        }
    }
}

/// What is passed on of properties to a copy.
fn passed_of(alloc: Global, props: &PropsRef<'_>) -> Result<PassedOn, KeepError>
    ensures ok { IfOk result (λ ps. (without SubscriptionIdentifier props.now ≡ ps) × IsPassedOn ps) }
    ensures err { IsErrOf result KeepError.Corrupt
        → IsPassedOn (without SubscriptionIdentifier props.now) → ⊥ }
    ensures fault { IfErr result (λ e. (e ≡ KeepError.Memory) ⊎ (e ≡ KeepError.Corrupt)) }
{
    let list = props.without(alloc, PropName::SubscriptionIdentifier)?;
    match PassedOn::from_list(list) {
        Some(passed) => Ok(passed),
        None => Err(KeepError::Corrupt),
    }
}

/// What is passed on to a copy, and its Subscription Identifiers.
pub(crate) fn sent(
    alloc: Global,
    value: ValueRef<'_>,
) -> Result<(PassedOn, SubscriptionIdentifiers), KeepError>
    ensures ok { IfOk result (λ x. SaysSent x.0 x.1 (owned value.entry)) }
    ensures err { IsErrOf result KeepError.Corrupt
        → (ps : List Prop) (ids : List ℕ) → SaysSent ps ids (owned value.entry) → ⊥ }
    ensures fault { IfErr result (λ e. (e ≡ KeepError.Memory) ⊎ (e ≡ KeepError.Corrupt)) }
{
    let Some(props) = block_of(value, Place::Publish) else {
        return Err(KeepError::Corrupt);
    };
    if !rises(&props) {
        return Err(KeepError::Corrupt);
    }
    let identifiers = identifiers(alloc, &props)?;
    match passed_of(alloc, &props) {
        Ok(passed) => Ok((passed, identifiers)),
        Err(fault) => {
            drop(identifiers);
            Err(fault)
        }
    }
}
