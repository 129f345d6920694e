//! How the tables are made in an empty database.
ghost use Rattle.std.specs.Prelude.{◌≡◌, ◌+◌, ◌<◌, ◌≤◌, OnOk};
ghost use Rattle.sqlite.specs.Held.{state};
ghost use Rattle.sqlite.specs.State.{HasCleanDisk};
ghost use Rattle.mqtt_store_tables.specs.forms.Creation.{create_text, place_of, HasTables};
ghost use Rattle.mqtt_store_tables.specs.forms.Settled.{StaysInside};

use crate::forms::schema::StoreTable;
use sqlite::{Alter, Error, Transaction};

/// The text that makes a table.
fn text_of(table: StoreTable) -> &'static str
    ensures { result.now ≡ create_text table }
{
    match table {
        StoreTable::Meta =>
            "CREATE TABLE meta (name TEXT PRIMARY KEY NOT NULL, n INTEGER NOT NULL) STRICT",
        StoreTable::Session =>
            "CREATE TABLE session (birth INTEGER PRIMARY KEY, client TEXT NOT NULL UNIQUE, expiry INTEGER NOT NULL, closed INTEGER) STRICT",
        StoreTable::Will =>
            "CREATE TABLE will (birth INTEGER PRIMARY KEY REFERENCES session (birth) ON DELETE CASCADE, delay INTEGER NOT NULL, topic TEXT NOT NULL, qos INTEGER NOT NULL, retain INTEGER NOT NULL, props BLOB NOT NULL, payload BLOB NOT NULL) STRICT",
        StoreTable::Subscription =>
            "CREATE TABLE sub (birth INTEGER NOT NULL REFERENCES session (birth) ON DELETE CASCADE, filter TEXT NOT NULL, place INTEGER NOT NULL, qos INTEGER NOT NULL, nolocal INTEGER NOT NULL, rap INTEGER NOT NULL, handling INTEGER NOT NULL, ident INTEGER NOT NULL, PRIMARY KEY (birth, filter)) STRICT",
        StoreTable::Inbound =>
            "CREATE TABLE inbound (birth INTEGER NOT NULL REFERENCES session (birth) ON DELETE CASCADE, ident INTEGER NOT NULL, PRIMARY KEY (birth, ident)) STRICT",
        StoreTable::Copy =>
            "CREATE TABLE copy (birth INTEGER NOT NULL REFERENCES session (birth) ON DELETE CASCADE, place INTEGER NOT NULL, pub INTEGER NOT NULL, cause INTEGER NOT NULL, cause_text TEXT NOT NULL, cause_n INTEGER NOT NULL, pid INTEGER, phase INTEGER NOT NULL, rel INTEGER, topic TEXT NOT NULL, qos INTEGER NOT NULL, retain INTEGER NOT NULL, props BLOB NOT NULL, payload BLOB NOT NULL, arrived INTEGER NOT NULL, PRIMARY KEY (birth, place)) STRICT",
        StoreTable::Retained =>
            "CREATE TABLE retained (place INTEGER PRIMARY KEY, topic TEXT NOT NULL UNIQUE, sender TEXT NOT NULL, pub INTEGER NOT NULL, qos INTEGER NOT NULL, props BLOB NOT NULL, payload BLOB NOT NULL, arrived INTEGER NOT NULL) STRICT",
    }
}

/// Makes a table, if those before it stand.
fn make_table<S: Alter>(tx: &mut Transaction<'_, S>, table: StoreTable) -> Result<usize, Error>
    ensures same_reference { tx.new.conn.ghost_name ≡ tx.old.conn.ghost_name }
    ensures made { HasCleanDisk (state S.Store tx.new.conn.now) → HasTables (place_of table) (state S.Store tx.old.conn.now)
        → OnOk result (HasTables (place_of table + 1) (state S.Store tx.new.conn.now)) }
    ensures inside { StaysInside (state S.Store tx.old.conn.now) (state S.Store tx.new.conn.now) }
{
    tx.execute(text_of(table), &[])
}

/// The table that is made in this place.
fn table_at(at: usize) -> StoreTable
    requires { at < 7 }
    ensures { place_of result ≡ at }
{
    match at {
        0 => StoreTable::Meta,
        1 => StoreTable::Session,
        2 => StoreTable::Will,
        3 => StoreTable::Subscription,
        4 => StoreTable::Inbound,
        5 => StoreTable::Copy,
        _ => StoreTable::Retained,
    }
}

/// Makes so many tables, the first of them, if there are none.
pub fn make_tables<S: Alter>(tx: &mut Transaction<'_, S>, count: usize) -> Result<(), Error>
    requires { count ≤ 7 }
    ensures same_reference { tx.new.conn.ghost_name ≡ tx.old.conn.ghost_name }
    ensures made { HasCleanDisk (state S.Store tx.new.conn.now) → HasTables 0 (state S.Store tx.old.conn.now)
        → OnOk result (HasTables count (state S.Store tx.new.conn.now)) }
    ensures inside { StaysInside (state S.Store tx.old.conn.now) (state S.Store tx.new.conn.now) }
{
    for at in 0..count {
        make_table(tx, table_at(at))?;
    }
    Ok(())
}
