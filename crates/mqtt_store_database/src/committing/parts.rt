//! What a change's rows need beside the change itself.
ghost use Rattle.std.specs.Prelude.{◌≡◌, ◌++◌, ◌<◌, ◌^◌, [], map, IfOk, OnOk};
ghost use Rattle.std.specs.List.{AllByRecursion};
ghost use Rattle.mqtt_props.specs.Properties.{IsProp, block, props};
ghost use Rattle.mqtt_records.specs.messages.PassedOn.{identified};
ghost use Rattle.mqtt_store_database.specs.committing.Parts.{block_in, identifiers_in, payload_in, ArePartsOf};

use crate::written::columns_of;
use bytes::Bytes;
use mqtt_props::{PropName, PropRef, ValueRef, prop_push};
use mqtt_records::{Change, Columns, CopyRow};
use std::alloc::{AllocError, Global};

/// The columns of a session that is put, the block of properties of a row that has one, and of a copy its
/// Subscription Identifiers and its payload.
#[derive(Drop)]
pub struct Parts {
    /// What a session's own row says; none if another row is put.
    pub(crate) columns: Option<Columns>,
    /// The block of properties; no bytes if no row has one.
    pub(crate) block: Vec<u8>,
    /// The Subscription Identifiers as they are sent, without a length in front; no bytes if there are none.
    pub(crate) identifiers: Vec<u8>,
    /// The payload of a copy, shared with it; no bytes if none is put.
    pub(crate) payload: Bytes,
}

/// Writes Subscription Identifiers as they are sent, one after the other.
fn push_each(out: &mut Vec<u8>, identifiers: &[u32]) -> Result<(), AllocError>
    requires { AllByRecursion IsProp (map identified identifiers.now) }
    ensures { OnOk result (out.new.items ≡ out.old.items ++ props (map identified identifiers.now)) }
{
    let mut rest = identifiers;
    while let Some((identifier, after)) = rest.split_first() {
        let value = ValueRef::VarInt(*identifier);
        prop_push(
            out,
            PropRef {
                name: PropName::SubscriptionIdentifier,
                value,
            },
        )?;
        rest = after;
    }
    Ok(())
}

/// Writes the Subscription Identifiers of a copy. Its PUBLISH has a spelling, so they have one.
fn push_sent(out: &mut Vec<u8>, row: &CopyRow) -> Result<(), AllocError>
    ensures { OnOk result (out.new.items ≡ out.old.items ++ props (map identified row.now.copy.identifiers)) }
{
    // It says that the copy has a spelling.
    let _size = row.size();
    match row.whole() {
        Some(copy) => push_each(out, copy.identifiers.as_slice()),
        None => Err(AllocError),
    }
}

/// Writes the block of properties of the row that a change puts, if it has one.
fn push_block(out: &mut Vec<u8>, change: &Change) -> Result<(), AllocError>
    requires { out.old.items ≡ [] }
    ensures { OnOk result (out.new.items ≡ block_in change.now) }
{
    match change {
        Change::PutWill { birth: _, will } => will.properties.lend().push_block(out),
        Change::PutCopy { birth: _, row } => match row.get().whole() {
            Some(copy) => copy.content.properties.lend().push_block(out),
            None => Err(AllocError),
        },
        Change::PutRetained { kept } => kept.get().content.properties.lend().push_block(out),
        _ => Ok(()),
    }
}

/// Writes the Subscription Identifiers of the copy that a change puts, if it puts one.
fn push_identifiers(out: &mut Vec<u8>, change: &Change) -> Result<(), AllocError>
    requires { out.old.items ≡ [] }
    ensures { OnOk result (out.new.items ≡ identifiers_in change.now) }
{
    match change {
        Change::PutCopy { birth: _, row } => push_sent(out, row.get()),
        _ => Ok(()),
    }
}

/// Writes both.
fn push_both(parts: &mut Parts, change: &Change) -> Result<(), AllocError>
    requires block { parts.old.block.items ≡ [] }
    requires identifiers { parts.old.identifiers.items ≡ [] }
    ensures columns { parts.new.columns ≡ parts.old.columns }
    ensures payload { parts.new.payload ≡ parts.old.payload }
    ensures block { OnOk result (parts.new.block.items ≡ block_in change.now) }
    ensures identifiers { OnOk result (parts.new.identifiers.items ≡ identifiers_in change.now) }
{
    push_block(&mut parts.block, change)?;
    push_identifiers(&mut parts.identifiers, change)
}

/// The payload of the copy that a change puts; no bytes if it puts none.
fn payload_of(change: &Change) -> Result<Bytes, AllocError>
    ensures { IfOk result (λ payload. payload ≡ payload_in change.now) }
{
    match change {
        Change::PutCopy { birth: _, row } => match row.get().whole() {
            Some(copy) => copy.content.payload.clone(),
            None => Err(AllocError),
        },
        _ => Ok(Bytes::new()),
    }
}

/// What a change's rows need beside the change itself. A copy that is slim in memory is refused as for want
/// of memory.
pub fn parts_of(alloc: Global, change: &Change) -> Result<Parts, AllocError>
    ensures { IfOk result (ArePartsOf change.now) }
{
    let columns = columns_of(change)?;
    let payload = payload_of(change)?;
    let mut parts = Parts {
        columns,
        block: Vec::new(alloc),
        identifiers: Vec::new(alloc),
        payload,
    };
    match push_both(&mut parts, change) {
        Ok(()) => Ok(parts),
        Err(fault) => {
            drop(parts);
            Err(fault)
        }
    }
}
