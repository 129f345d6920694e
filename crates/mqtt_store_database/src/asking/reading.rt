//! The rows of the tables, through a connection.
ghost use Rattle.std.specs.Prelude.{◌≡◌, IfOk, OnOk, IsTrue};
ghost use Rattle.sqlite.specs.Held.{state};
ghost use Rattle.sqlite.specs.State.{HasCleanDisk};
ghost use Rattle.mqtt_store_tables.specs.forms.Tables.{keep_schema};
ghost use Rattle.mqtt_store_tables.specs.forms.Settled.{OnlyReads};
ghost use Rattle.mqtt_store_tables.specs.schema.Tables.{second_schema};
ghost use Rattle.mqtt_store_tables.specs.declared.schema.tables.Making.{Making};
ghost use Rattle.mqtt_store_database.specs.asking.Listing.{select_text, IsInSecond, IsListing};

use mqtt_store_tables::forms::StoreTable;
use sqlite::{Alter, Connection, Error, Row};

/// The text that asks for a table's rows.
fn select_of(table: StoreTable) -> &'static str
    ensures { result.now ≡ select_text table }
{
    match table {
        StoreTable::Meta => "SELECT name, n FROM meta ORDER BY name",
        StoreTable::Session => "SELECT birth, client, expiry, closed FROM session ORDER BY birth",
        StoreTable::Will =>
            "SELECT birth, delay, topic, qos, retain, props, payload FROM will ORDER BY birth",
        StoreTable::Subscription =>
            "SELECT birth, filter, place, qos, nolocal, rap, handling, ident FROM sub ORDER BY birth, place",
        StoreTable::Inbound => "SELECT birth, ident FROM inbound ORDER BY birth, ident",
        StoreTable::Copy =>
            "SELECT birth, place, pub, cause, cause_text, cause_n, pid, phase, rel, topic, qos, retain, props, payload, arrived FROM copy ORDER BY birth, place",
        StoreTable::Retained =>
            "SELECT place, topic, sender, pub, qos, props, payload, arrived FROM retained ORDER BY place",
    }
}

/// All rows of a table of the store, in the order of its key. Writes nothing.
pub fn rows_of<S: Alter>(conn: &mut Connection<S>, table: StoreTable) -> Result<Vec<Row>, Error>
    ensures rows { HasCleanDisk (state S.Store conn.new) → (state S.Store conn.old).now.schema ≡ keep_schema
        → IfOk result (λ rows. IsListing table (state S.Store conn.old).now.trees rows.items) }
    ensures second { (making : Making) → HasCleanDisk (state S.Store conn.new)
        → (state S.Store conn.old).now.schema ≡ second_schema making → IsInSecond table making
        → IfOk result (λ rows. IsListing table (state S.Store conn.old).now.trees rows.items) }
    ensures is_open { HasCleanDisk (state S.Store conn.new) → OnOk result (IsTrue (state S.Store conn.new).is_open) }
    ensures reads { OnlyReads (state S.Store conn.old) (state S.Store conn.new) }
{
    conn.query_all(select_of(table), &[])
}
