//! The rows of the tables that schema 2 adds, through a connection.
ghost use Rattle.std.specs.Prelude.{◌≡◌, ◌⊎◌, [], List, IfOk, IfErr, OnOk, IsTrue};
ghost use Rattle.sqlite_value.specs.Order.{Row as SqlRow};
ghost use Rattle.sqlite.specs.Held.{state};
ghost use Rattle.sqlite.specs.State.{HasCleanDisk};
ghost use Rattle.mqtt_store_tables.specs.forms.Settled.{OnlyReads};
ghost use Rattle.mqtt_store_tables.specs.schema.Tables.{second_schema};
ghost use Rattle.mqtt_store_tables.specs.declared.schema.tables.Making.{Making};
ghost use Rattle.mqtt_store_database.specs.reading.Listing.{added_text, IsAddedListing};

use crate::asking::fault_of;
use mqtt_keep::KeepError;
use mqtt_store_rows::gathering::Gather;
use sqlite::{Alter, Connection, Error, Row};

/// A table that schema 2 adds.
#[derive(Clone, Copy, Debug, PartialEq, Eq)]
pub enum AddedTable {
    /// What all copies of a publication and its retained message have alike.
    Message,
    /// Copies, without that.
    Queued,
    /// Retained messages, without that.
    Kept,
}

/// The text that asks for a table's rows.
fn select_of(table: AddedTable) -> &'static str
    ensures { result.now ≡ added_text table }
{
    match table {
        AddedTable::Message => "SELECT pub, topic, props, payload FROM message ORDER BY pub",
        AddedTable::Queued =>
            "SELECT birth, place, pub, cause, cause_text, cause_n, pid, phase, rel, qos, retain, idents, arrived FROM queued ORDER BY birth, place",
        AddedTable::Kept =>
            "SELECT place, topic, sender, pub, qos, arrived FROM kept ORDER BY place",
    }
}

/// All rows of a table that schema 2 adds, in the order of its key. Writes nothing.
pub fn rows_of_added<S: Alter>(
    conn: &mut Connection<S>,
    table: AddedTable,
) -> Result<Vec<Row>, Error>
    ensures rows { (making : Making) → HasCleanDisk (state S.Store conn.new)
        → (state S.Store conn.old).now.schema ≡ second_schema making
        → IfOk result (λ rows. IsAddedListing making table (state S.Store conn.old).now.trees rows.items) }
    ensures is_open { HasCleanDisk (state S.Store conn.new) → OnOk result (IsTrue (state S.Store conn.new).is_open) }
    ensures reads { OnlyReads (state S.Store conn.old) (state S.Store conn.new) }
{
    conn.query_all(select_of(table), &[])
}

/// Has all rows of a table that schema 2 adds taken in one after the other, in the order of its key. Writes nothing.
pub(crate) fn read_into<S: Alter, G: Gather>(
    conn: &mut Connection<S>,
    table: AddedTable,
    gather: &mut G,
) -> Result<(), KeepError>
    requires begun { G.has_taken gather.old [] }
    ensures taken { OnOk result ((rows : List SqlRow) × G.has_taken gather.new rows
        × ((making : Making) → HasCleanDisk (state S.Store conn.new) → (state S.Store conn.old).now.schema ≡ second_schema making
        → IsAddedListing making table (state S.Store conn.old).now.trees rows)) }
    ensures goes_on { OnOk result (G.goes_on gather.old gather.new) }
    ensures fault { IfErr result (λ e. (e ≡ KeepError.Memory) ⊎ (e ≡ KeepError.Disk)) }
    ensures is_open { HasCleanDisk (state S.Store conn.new) → OnOk result (IsTrue (state S.Store conn.new).is_open) }
    ensures reads { OnlyReads (state S.Store conn.old) (state S.Store conn.new) }
{
    let mut rows = match conn.query(select_of(table), &[]) {
        Ok(rows) => rows,
        Err(error) => return Err(fault_of(&error)),
    };
    'rows: for _ in 0..u64::MAX {
        match rows.advance() {
            Ok(()) => {}
            Err(error) => return Err(fault_of(&error)),
        }
        let Some(row) = rows.get() else {
            return Ok(());
        };
        gather.take_in(row)?;
    }
    Err(KeepError::Memory)
}
