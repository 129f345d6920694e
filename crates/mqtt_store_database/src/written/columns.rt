//! What stands in the columns of a row that is put, in both schemas (4.1).
ghost use Rattle.std.specs.Prelude.{◌≡◌, IfOk};
ghost use Rattle.mqtt_props.specs.Properties.{block};
ghost use Rattle.mqtt_store_database.specs.item_laws.Counters.{counter_name};
ghost use Rattle.mqtt_store_database.specs.item_laws.Items.{cause_number, cause_text, cause_n, phase_number, packet_identifier, release_order};
ghost use Rattle.mqtt_store_database.specs.item_laws.Items.{session_columns, will_columns, subscription_columns};
ghost use Rattle.mqtt_store_database.specs.written.Columns.{columns_in};

use mqtt_base::{Cause, Phase};
use mqtt_records::{Change, Columns, Counter, Subscription, Will};
use mqtt_store_tables::statements::{SessionColumns, SubscriptionColumns, WillColumns};
use std::alloc::AllocError;

/// The name of a number.
pub fn counter_name(counter: Counter) -> &'static str
    ensures { result.now ≡ counter_name counter }
{
    match counter {
        Counter::Births => "births",
        Counter::Publications => "publications",
        Counter::Subscribes => "subscribes",
        Counter::Autos => "autos",
        Counter::Moment => "moment",
    }
}

/// The cause of a copy by its number.
pub fn cause_number(cause: &Cause) -> u8
    ensures { result ≡ cause_number cause.now }
{
    match cause {
        Cause::Direct => 0,
        Cause::Share { .. } => 1,
        Cause::Retained { .. } => 2,
    }
}

/// The group of a copy's cause; no text if it has none.
pub fn cause_text(cause: &Cause) -> &str
    ensures { result.now ≡ cause_text cause.now }
{
    match cause {
        Cause::Share { group } => group.as_str(),
        _ => "",
    }
}

/// The number of the subscribe for which a copy is sent; 0 if there is none.
pub fn cause_n(cause: &Cause) -> u64
    ensures { result ≡ cause_n cause.now }
{
    match cause {
        Cause::Retained { subscribe } => *subscribe,
        _ => 0,
    }
}

/// The phase by its number: 0 waiting, 1 sent, 2 released, 3 released after it was too large.
pub fn phase_number(phase: Phase) -> u8
    ensures { result ≡ phase_number phase }
{
    match phase {
        Phase::Waiting => 0,
        Phase::Sent { .. } => 1,
        Phase::Released { .. } => 2,
        Phase::Oversize { .. } => 3,
    }
}

/// The packet identifier, unless it waits.
pub fn packet_identifier(phase: Phase) -> Option<u64>
    ensures { result ≡ packet_identifier phase }
{
    match phase {
        Phase::Waiting => None,
        Phase::Sent { identifier }
        | Phase::Released { identifier, .. }
        | Phase::Oversize { identifier, .. } => Some(u64::from(identifier)),
    }
}

/// The order of release, once it is released.
pub fn release_order(phase: Phase) -> Option<u64>
    ensures { result ≡ release_order phase }
{
    match phase {
        Phase::Waiting | Phase::Sent { .. } => None,
        Phase::Released { order, .. } | Phase::Oversize { order, .. } => Some(order),
    }
}

/// The columns of the session that a change puts; none if it puts another row.
pub fn columns_of(change: &Change) -> Result<Option<Columns>, AllocError>
    ensures { IfOk result (λ columns. columns ≡ columns_in change.now) }
{
    match change {
        Change::PutSession { row } => Ok(Some(row.clone()?.into_columns())),
        Change::SetSession { row } => Ok(Some(row.clone()?)),
        _ => Ok(None),
    }
}

/// The columns of a session.
pub fn session_columns(row: &Columns) -> SessionColumns<'_>
    ensures { result ≡ session_columns row.now }
{
    SessionColumns {
        client: row.client.as_str(),
        expiry: row.expiry,
        closed: row.closed,
    }
}

/// The columns of a Will, whose properties have that block.
pub fn will_columns<'a>(will: &'a Will, bytes: &'a [u8]) -> WillColumns<'a>
    requires { bytes.now ≡ block will.now.properties }
    ensures { result ≡ will_columns will.now }
{
    WillColumns {
        delay: will.delay,
        topic: will.topic.as_str(),
        qos: will.qos as u8,
        retain: will.retain,
        properties: bytes,
        payload: will.payload.as_slice(),
    }
}

/// The columns of a subscription.
pub fn subscription_columns(subscription: &Subscription) -> SubscriptionColumns
    ensures { result ≡ subscription_columns subscription.now }
{
    SubscriptionColumns {
        place: subscription.place,
        qos: subscription.options.qos as u8,
        no_local: subscription.options.no_local,
        retain_as_published: subscription.options.retain_as_published,
        handling: subscription.options.retain_handling as u8,
        identifier: subscription.identifier.unwrap_or(0),
    }
}
