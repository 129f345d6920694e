//! The properties that a copy is sent with, as bytes (3.3.2.3).
ghost use Rattle.std.specs.Prelude.{◌≡◌, ◌++◌, ◌<◌, ◌^◌, map, OnOk};
ghost use Rattle.std.specs.List.{AllByRecursion};
ghost use Rattle.mqtt_props.specs.declared.table.PropName.TheVariants.{UserProperty};
ghost use Rattle.mqtt_props.specs.Edits.{only, without};
ghost use Rattle.mqtt_props.specs.Properties.{IsProp, prop, props};
ghost use Rattle.mqtt_records.specs.messages.PassedOn.{aged, identified, sent_after};
ghost use Rattle.mqtt_rules.specs.step.Forms.{with_alias};
ghost use Rattle.mqtt_broker_looks.specs.sent.Frames.{alias_alone};

use crate::sent::property::aged_push;
use mqtt_base::{u16_push, varint_push};
use mqtt_props::{PropName, PropsRef, prop_push};
use std::alloc::AllocError;

/// Writes what stands before Subscription Identifiers, as it is sent, at the end.
fn aged_all_push(out: &mut Vec<u8>, list: &PropsRef<'_>, waited: u64) -> Result<(), AllocError>
    ensures { OnOk result (out.new.items
        ≡ out.old.items ++ props (map (aged waited) (without UserProperty list.now))) }
{
    let mut rest = list.reborrow();
    while let Some((prop, after)) = rest.split_first() {
        if prop.name.id() != PropName::UserProperty.id() {
            aged_push(out, prop, waited)?;
        }
        rest = after;
    }
    Ok(())
}

/// Writes one Subscription Identifier at the end.
fn identifier_push(out: &mut Vec<u8>, identifier: u32) -> Result<(), AllocError>
    requires { identifier < 2 ^ 28 }
    ensures { OnOk result (out.new.items ≡ out.old.items ++ prop (identified identifier)) }
{
    out.push(PropName::SubscriptionIdentifier.id())?;
    varint_push(out, identifier)
}

/// Writes Subscription Identifiers at the end.
fn identifiers_push(out: &mut Vec<u8>, identifiers: &[u32]) -> Result<(), AllocError>
    requires { AllByRecursion IsProp (map identified identifiers.now) }
    ensures { OnOk result (out.new.items ≡ out.old.items ++ props (map identified identifiers.now)) }
{
    let mut rest = identifiers;
    while let Some((identifier, after)) = rest.split_first() {
        identifier_push(out, *identifier)?;
        rest = after;
    }
    Ok(())
}

/// Writes the User Properties at the end.
fn user_push(out: &mut Vec<u8>, list: &PropsRef<'_>) -> Result<(), AllocError>
    ensures { OnOk result (out.new.items ≡ out.old.items ++ props (only UserProperty list.now)) }
{
    let mut rest = list.reborrow();
    while let Some((prop, after)) = rest.split_first() {
        if prop.name.id() == PropName::UserProperty.id() {
            prop_push(out, prop)?;
        }
        rest = after;
    }
    Ok(())
}

/// Writes a Topic Alias at the end, if there is one (3.3.2.3.4).
fn alias_push(out: &mut Vec<u8>, alias: Option<u16>) -> Result<(), AllocError>
    ensures { OnOk result (out.new.items ≡ out.old.items ++ props (alias_alone alias)) }
{
    match alias {
        None => Ok(()),
        Some(alias) => {
            out.push(PropName::TopicAlias.id())?;
            u16_push(out, alias)
        }
    }
}

/// Writes the properties of a copy that has waited so many seconds at the end, with a Topic Alias if
/// there is one.
pub(crate) fn sent_push(
    out: &mut Vec<u8>,
    list: &PropsRef<'_>,
    waited: u64,
    identifiers: &[u32],
    alias: Option<u16>,
) -> Result<(), AllocError>
    requires { AllByRecursion IsProp (map identified identifiers.now) }
    ensures { OnOk result (out.new.items
        ≡ out.old.items ++ props (with_alias alias (sent_after waited identifiers.now list.now))) }
{
    aged_all_push(out, list, waited)?;
    identifiers_push(out, identifiers)?;
    alias_push(out, alias)?;
    user_push(out, list)
}
