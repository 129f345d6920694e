//! The change of the tables that a change of records becomes.
ghost use Rattle.std.specs.Prelude.{◌≡◌};
ghost use Rattle.mqtt_records.specs.declared.state.change.Change.TheVariants.{PutCopy};
ghost use Rattle.mqtt_store_database.specs.written.Columns.{columns_in};
ghost use Rattle.mqtt_store_database.specs.row_laws.TableChanges.{IsTableChangeFor};
ghost use Rattle.mqtt_store_database.specs.committing.Parts.{ArePartsOf};

use crate::committing::columns::{copy_message, kept_columns, queued_columns, retained_message};
use crate::committing::parts::Parts;
use crate::written::{
    counter_name, packet_identifier, phase_number, release_order, session_columns,
    subscription_columns, will_columns,
};
use mqtt_records::{Change, CopyRow};
use mqtt_store_tables::messages::TableChange;

/// The change of the tables that a change of records becomes, whose parts these are.
pub fn table_change_of<'a>(change: &'a Change, parts: &'a Parts) -> TableChange<'a>
    requires { ArePartsOf change.now parts.now }
    ensures { IsTableChangeFor change.now result }
{
    if let Some(columns) = &parts.columns {
        return TableChange::PutSession {
            birth: columns.birth,
            session: session_columns(columns),
        };
    }
    table_change_with(change, parts)
}

/// That of a change that puts a copy.
fn copy_put<'a>(birth: u64, row: &'a CopyRow, parts: &'a Parts) -> TableChange<'a>
    requires { ArePartsOf (PutCopy birth row.now) parts.now }
    ensures { IsTableChangeFor (PutCopy birth row.now) result }
{
    TableChange::PutCopy {
        birth,
        place: row.place(),
        message: copy_message(row, parts.block.as_slice(), parts.payload.as_slice()),
        copy: queued_columns(row, parts.identifiers.as_slice()),
    }
}

/// That of a change that puts no session.
fn table_change_with<'a>(change: &'a Change, parts: &'a Parts) -> TableChange<'a>
    requires other { columns_in change.now ≡ None }
    requires parts { ArePartsOf change.now parts.now }
    ensures { IsTableChangeFor change.now result }
{
    // An arm that lends of the change returns by itself: arms that join have to hold the same.
    match change {
        Change::SetCounter { counter, value } => TableChange::SetNumber {
            name: counter_name(*counter),
            value: *value,
        },
        Change::PutSession { .. } | Change::SetSession { .. } => unreachable!(),
        Change::RemoveSession { birth } => TableChange::RemoveSession { birth: *birth },
        Change::PutWill { birth, will } => return TableChange::PutWill {
            birth: *birth,
            will: will_columns(will, parts.block.as_slice()),
        },
        Change::RemoveWill { birth } => TableChange::RemoveWill { birth: *birth },
        Change::PutSubscription {
            birth,
            subscription,
        } => return TableChange::PutSubscription {
            birth: *birth,
            filter: subscription.get().filter.as_str(),
            subscription: subscription_columns(subscription.get()),
        },
        Change::RemoveSubscription { birth, filter } => return TableChange::RemoveSubscription {
            birth: *birth,
            filter: filter.as_str(),
        },
        Change::PutInbound { birth, identifier } => TableChange::PutOpen {
            birth: *birth,
            identifier: u64::from(*identifier),
        },
        Change::RemoveInbound { birth, identifier } => TableChange::RemoveOpen {
            birth: *birth,
            identifier: u64::from(*identifier),
        },
        Change::PutCopy { birth, row } => return copy_put(*birth, row.get(), parts),
        Change::SetCopy {
            birth,
            place,
            phase,
        } => TableChange::SetCopy {
            birth: *birth,
            place: *place,
            identifier: packet_identifier(*phase),
            phase: phase_number(*phase),
            order: release_order(*phase),
        },
        Change::RemoveCopy { birth, place } => TableChange::RemoveCopy {
            birth: *birth,
            place: *place,
        },
        Change::PutRetained { kept } => return TableChange::PutRetained {
            place: kept.get().place,
            message: retained_message(kept.get(), parts.block.as_slice()),
            kept: kept_columns(kept.get()),
        },
        Change::RemoveRetained { place } => TableChange::RemoveRetained { place: *place },
    }
}
