//! The statements on open identifiers.
ghost use Rattle.std.specs.Prelude.{◌≡◌, ◌<◌, ◌^◌, pos};
ghost use Rattle.sqlite.specs.Held.{state};
ghost use Rattle.mqtt_store_tables.specs.forms.Settled.{StaysInside};
ghost use Rattle.mqtt_store_tables.specs.statements.Layout.{Layout, IsLayout};
ghost use Rattle.mqtt_store_tables.specs.statements.Writing.{Writes};
ghost use Rattle.mqtt_store_tables.specs.statements.Content.{IsWhole};
ghost use Rattle.mqtt_store_tables.specs.statements.Removal.{is_keyed, RemovesFrom};
ghost use Rattle.mqtt_store_tables.specs.statements.Put.{open_row, PutsNumbered};

use crate::statements::sessions::whole;
use sqlite::{Alter, Error, Transaction, params};

/// Removes an open identifier.
pub fn remove_open<S: Alter>(
    tx: &mut Transaction<'_, S>,
    birth: u64,
    identifier: u64,
) -> Result<usize, Error>
    requires birth { birth < 2 ^ 63 }
    requires identifier { identifier < 2 ^ 63 }
    ensures same_reference { tx.new.conn.ghost_name ≡ tx.old.conn.ghost_name }
    ensures removed { (l : Layout) → IsLayout l → Writes S.Store tx.old.conn.now tx.new.conn.now result (IsWhole l)
        (RemovesFrom l 7 (is_keyed (pos birth) (pos identifier))) }
    ensures inside { StaysInside (state S.Store tx.old.conn.now) (state S.Store tx.new.conn.now) }
{
    let birth = whole(birth);
    let identifier = whole(identifier);
    tx.execute(
        "DELETE FROM inbound WHERE birth = ?1 AND ident = ?2",
        params![birth, identifier],
    )
}

/// Puts an open identifier, in place of itself if it stands.
pub fn put_open<S: Alter>(
    tx: &mut Transaction<'_, S>,
    birth: u64,
    identifier: u64,
) -> Result<usize, Error>
    requires birth { birth < 2 ^ 63 }
    requires identifier { identifier < 2 ^ 63 }
    ensures same_reference { tx.new.conn.ghost_name ≡ tx.old.conn.ghost_name }
    ensures put { (l : Layout) → IsLayout l → Writes S.Store tx.old.conn.now tx.new.conn.now result (IsWhole l)
        (PutsNumbered l 7 (open_row birth identifier) (is_keyed (pos birth) (pos identifier))) }
    ensures inside { StaysInside (state S.Store tx.old.conn.now) (state S.Store tx.new.conn.now) }
{
    let birth = whole(birth);
    let identifier = whole(identifier);
    tx.execute(
        "INSERT OR REPLACE INTO inbound VALUES (?1, ?2)",
        params![birth, identifier],
    )
}
