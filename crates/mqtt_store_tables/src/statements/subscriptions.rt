//! The statements on subscriptions.
ghost use Rattle.std.specs.Prelude.{◌≡◌, ◌<◌, ◌^◌, pos};
ghost use Rattle.sqlite.specs.Held.{state};
ghost use Rattle.mqtt_store_tables.specs.forms.Settled.{StaysInside};
ghost use Rattle.mqtt_store_tables.specs.statements.Layout.{Layout, IsLayout};
ghost use Rattle.mqtt_store_tables.specs.statements.Writing.{Writes};
ghost use Rattle.mqtt_store_tables.specs.statements.Content.{IsWhole};
ghost use Rattle.mqtt_store_tables.specs.statements.Removal.{is_subscription, RemovesFrom};
ghost use Rattle.mqtt_store_tables.specs.statements.Columns.{subscription_row};
ghost use Rattle.mqtt_store_tables.specs.statements.Put.{PutsNumbered};

use crate::statements::sessions::whole;
use sqlite::{Alter, Error, Transaction, params};

/// What a subscription's row has behind its birth and filter.
#[derive(Clone, Copy)]
pub struct SubscriptionColumns {
    /// The number of the subscribe.
    pub place: u64,
    /// The most at which copies are sent: 0 to 2.
    pub qos: u8,
    /// No Local.
    pub no_local: bool,
    /// Retain As Published.
    pub retain_as_published: bool,
    /// Retain Handling: 0 to 2.
    pub handling: u8,
    /// The Subscription Identifier; 0 for none.
    pub identifier: u32,
}

/// Puts a session's subscription to a filter, in place of the one that it has. The session must
/// stand.
pub fn put_subscription<S: Alter>(
    tx: &mut Transaction<'_, S>,
    birth: u64,
    filter: &str,
    subscription: &SubscriptionColumns,
) -> Result<usize, Error>
    requires birth { birth < 2 ^ 63 }
    requires place { subscription.now.place < 2 ^ 63 }
    ensures same_reference { tx.new.conn.ghost_name ≡ tx.old.conn.ghost_name }
    ensures put { (l : Layout) → IsLayout l → Writes S.Store tx.old.conn.now tx.new.conn.now result (IsWhole l)
        (PutsNumbered l 5 (subscription_row birth filter.now subscription.now) (is_subscription (pos birth) filter.now)) }
    ensures inside { StaysInside (state S.Store tx.old.conn.now) (state S.Store tx.new.conn.now) }
{
    let birth = whole(birth);
    let place = whole(subscription.place);
    let qos = u32::from(subscription.qos);
    let handling = u32::from(subscription.handling);
    tx.execute(
        "INSERT OR REPLACE INTO sub VALUES (?1, ?2, ?3, ?4, ?5, ?6, ?7, ?8)",
        params![
            birth,
            filter,
            place,
            qos,
            subscription.no_local,
            subscription.retain_as_published,
            handling,
            subscription.identifier
        ],
    )
}

/// Removes a session's subscription to a filter, if it has one.
pub fn remove_subscription<S: Alter>(
    tx: &mut Transaction<'_, S>,
    birth: u64,
    filter: &str,
) -> Result<usize, Error>
    requires { birth < 2 ^ 63 }
    ensures same_reference { tx.new.conn.ghost_name ≡ tx.old.conn.ghost_name }
    ensures removed { (l : Layout) → IsLayout l → Writes S.Store tx.old.conn.now tx.new.conn.now result (IsWhole l)
        (RemovesFrom l 5 (is_subscription (pos birth) filter.now)) }
    ensures inside { StaysInside (state S.Store tx.old.conn.now) (state S.Store tx.new.conn.now) }
{
    let birth = whole(birth);
    tx.execute(
        "DELETE FROM sub WHERE birth = ?1 AND filter = ?2",
        params![birth, filter],
    )
}
