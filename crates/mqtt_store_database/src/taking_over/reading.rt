//! The records of a database of schema 1, through a connection (4.1).
ghost use Rattle.std.specs.Prelude.{◌≡◌, ◌⊎◌, IfOk, IfErr, OnOk, IsErrOf, IsTrue};
ghost use Rattle.sqlite.specs.Held.{state};
ghost use Rattle.sqlite.specs.State.{HasCleanDisk};
ghost use Rattle.mqtt_records.specs.declared.state.records.Records.{Records};
ghost use Rattle.mqtt_keep.specs.lawful.Lawful.{IsLawful};
ghost use Rattle.mqtt_store_rows.specs.taking_over.Tables.{parts_in, rows_in};
ghost use Rattle.mqtt_store_tables.specs.forms.Settled.{IsSettled, OnlyReads};
ghost use Rattle.mqtt_store_tables.specs.forms.Tables.{keep_schema};
ghost use Rattle.mqtt_store_database.specs.asking.Listing.{IsListing};
ghost use Rattle.mqtt_store_database.specs.taking_over.Kept.{ArePartsListed, AreListed, HasRecords};

use crate::asking::{fault_of, rows_of};
use mqtt_keep::KeepError;
use mqtt_records::Records;
use mqtt_store_rows::taking_over::{Tables, lawful_records_of};
use mqtt_store_tables::forms::StoreTable;
use sqlite::{Alter, Connection, Error, Row};
use std::alloc::Global;

/// Reads the rows of a table into a list.
fn read_into<S: Alter>(
    conn: &mut Connection<S>,
    table: StoreTable,
    rows: &mut Vec<Row>,
) -> Result<(), Error>
    ensures rows { HasCleanDisk (state S.Store conn.new) → (state S.Store conn.old).now.schema ≡ keep_schema
        → OnOk result (IsListing table (state S.Store conn.old).now.trees rows.new.items) }
    ensures is_open { HasCleanDisk (state S.Store conn.new) → OnOk result (IsTrue (state S.Store conn.new).is_open) }
    ensures reads { OnlyReads (state S.Store conn.old) (state S.Store conn.new) }
{
    *rows = rows_of(conn, table)?;
    Ok(())
}

/// Reads the rows of what sessions have.
fn read_parts<S: Alter>(conn: &mut Connection<S>, tables: &mut Tables) -> Result<(), Error>
    ensures rows { HasCleanDisk (state S.Store conn.new) → (state S.Store conn.old).now.schema ≡ keep_schema → IsSettled (state S.Store conn.old)
        → OnOk result (ArePartsListed (state S.Store conn.old).now.trees (parts_in tables.new)) }
    ensures same { tables.new ≡ record tables.old { wills = tables.new.wills; subscriptions = tables.new.subscriptions; inbound = tables.new.inbound; copies = tables.new.copies } }
    ensures is_open { HasCleanDisk (state S.Store conn.new) → OnOk result (IsTrue (state S.Store conn.new).is_open) }
    ensures reads { OnlyReads (state S.Store conn.old) (state S.Store conn.new) }
{
    read_into(conn, StoreTable::Will, &mut tables.wills)?;
    read_into(conn, StoreTable::Subscription, &mut tables.subscriptions)?;
    read_into(conn, StoreTable::Inbound, &mut tables.inbound)?;
    read_into(conn, StoreTable::Copy, &mut tables.copies)
}

/// Reads the rows of all tables.
fn read_all<S: Alter>(conn: &mut Connection<S>, tables: &mut Tables) -> Result<(), Error>
    ensures rows { HasCleanDisk (state S.Store conn.new) → (state S.Store conn.old).now.schema ≡ keep_schema → IsSettled (state S.Store conn.old)
        → OnOk result (AreListed (state S.Store conn.old).now.trees (rows_in tables.new)) }
    ensures is_open { HasCleanDisk (state S.Store conn.new) → OnOk result (IsTrue (state S.Store conn.new).is_open) }
    ensures reads { OnlyReads (state S.Store conn.old) (state S.Store conn.new) }
{
    read_parts(conn, tables)?;
    read_into(conn, StoreTable::Meta, &mut tables.meta)?;
    read_into(conn, StoreTable::Session, &mut tables.sessions)?;
    read_into(conn, StoreTable::Retained, &mut tables.retained)
}

/// The records of a database that has the store's tables. `Corrupt` if its rows give none.
pub fn records_in<S: Alter>(alloc: Global, conn: &mut Connection<S>) -> Result<Records, KeepError>
    ensures ok { HasCleanDisk (state S.Store conn.new) → (state S.Store conn.old).now.schema ≡ keep_schema → IsSettled (state S.Store conn.old)
        → IfOk result (HasRecords (state S.Store conn.old).now.trees) }
    ensures err { HasCleanDisk (state S.Store conn.new) → (state S.Store conn.old).now.schema ≡ keep_schema → IsSettled (state S.Store conn.old)
        → IsErrOf result KeepError.Corrupt → (r : Records) → HasRecords (state S.Store conn.old).now.trees r → ⊥ }
    // Whatever the device returned, they keep their rules.
    ensures lawful { IfOk result (λ records. IsLawful records) }
    ensures fault { IfErr result (λ e. (e ≡ KeepError.Memory) ⊎ ((e ≡ KeepError.Disk) ⊎ (e ≡ KeepError.Corrupt))) }
    ensures is_open { HasCleanDisk (state S.Store conn.new)
        → OnOk result (IsTrue (state S.Store conn.new).is_open)
        × (IsErrOf result KeepError.Corrupt → IsTrue (state S.Store conn.new).is_open) }
    ensures reads { OnlyReads (state S.Store conn.old) (state S.Store conn.new) }
{
    let mut tables = Tables {
        meta: Vec::new(alloc),
        sessions: Vec::new(alloc),
        wills: Vec::new(alloc),
        subscriptions: Vec::new(alloc),
        inbound: Vec::new(alloc),
        copies: Vec::new(alloc),
        retained: Vec::new(alloc),
    };
    let answer = match read_all(conn, &mut tables) {
        Ok(()) => lawful_records_of(alloc, &tables),
        Err(error) => Err(fault_of(&error)),
    };
    drop(tables);
    answer
}
