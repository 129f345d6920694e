//! Whether the numbers of a change are such as SQL has.
ghost use Rattle.std.specs.Prelude.{◌<◌, ◌^◌, ◌↔◌, IfSome, IsTrue};
ghost use Rattle.mqtt_store_tables.specs.messages.Rows.{IsSized as IsSizedCopy};
ghost use Rattle.mqtt_store_tables.specs.messages.Step.{IsSized};

use crate::messages::change::TableChange;
use crate::messages::queued::QueuedColumns;

/// What numbers in SQL stay below.
const NUMBER_LIMIT: u64 = 1 << 63;

/// Whether SQL has the number.
pub fn fits(n: u64) -> bool
    ensures { IsTrue result ↔ n < 2 ^ 63 }
{
    n < NUMBER_LIMIT
}

/// Whether SQL has the number, if there is one.
fn fits_if_any(n: Option<u64>) -> bool
    ensures { IsTrue result ↔ IfSome n (λ n. n < 2 ^ 63) }
{
    match n {
        Some(n) => fits(n),
        None => true,
    }
}

/// Whether SQL has the numbers of a copy.
pub fn is_sized_copy(copy: &QueuedColumns<'_>) -> bool
    ensures { IsTrue result ↔ IsSizedCopy copy.now }
{
    fits(copy.publication)
        && fits(copy.cause_n)
        && fits_if_any(copy.identifier)
        && fits_if_any(copy.order)
        && fits(copy.arrived)
}

/// Whether SQL has the numbers of a change, as `change_tables` asks.
pub fn is_sized(change: &TableChange<'_>) -> bool
    ensures { IsTrue result ↔ IsSized change.now }
{
    match change {
        TableChange::SetNumber { name: _, value } => fits(*value),
        TableChange::PutSession { birth, session } => fits(*birth) && fits_if_any(session.closed),
        TableChange::RemoveSession { birth }
        | TableChange::PutWill { birth, will: _ }
        | TableChange::RemoveWill { birth }
        | TableChange::RemoveSubscription { birth, filter: _ } => fits(*birth),
        TableChange::PutSubscription {
            birth,
            filter: _,
            subscription,
        } => fits(*birth) && fits(subscription.place),
        TableChange::PutOpen { birth, identifier }
        | TableChange::RemoveOpen { birth, identifier } => fits(*birth) && fits(*identifier),
        TableChange::PutCopy {
            birth,
            place,
            message: _,
            copy,
        } => fits(*birth) && fits(*place) && is_sized_copy(copy),
        TableChange::SetCopy {
            birth,
            place,
            identifier,
            phase: _,
            order,
        } => fits(*birth) && fits(*place) && fits_if_any(*identifier) && fits_if_any(*order),
        TableChange::RemoveCopy { birth, place } => fits(*birth) && fits(*place),
        TableChange::PutRetained {
            place,
            message: _,
            kept,
        } => fits(*place) && fits(kept.publication) && fits(kept.arrived),
        TableChange::RemoveRetained { place } => fits(*place),
    }
}
