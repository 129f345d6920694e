//! What the first copies of a session say from a place on, through a connection (4.1, 4.4).
ghost use Rattle.std.specs.Prelude.{◌≡◌, ◌<◌, ◌⊎◌, ◌-◌, ◌^◌, List, IfOk, IfErr, OnOk, IsErrOf, IsTrue, min, pos};
ghost use Rattle.sqlite.specs.Held.{state};
ghost use Rattle.sqlite.specs.State.{HasCleanDisk};
ghost use Rattle.mqtt_records.specs.messages.Content.{CopyContent as Said};
ghost use Rattle.mqtt_records.specs.declared.state.records.Records.{Records};
ghost use Rattle.mqtt_records.specs.state.Telling.{contents_from};
ghost use Rattle.mqtt_store_rows.specs.values.Lists.{AreRows};
ghost use Rattle.mqtt_store_tables.specs.forms.Settled.{OnlyReads};
ghost use Rattle.mqtt_store_tables.specs.schema.Tables.{second_schema};
ghost use Rattle.mqtt_store_tables.specs.declared.schema.tables.Making.{Making};
ghost use Rattle.mqtt_store_database.specs.row_laws.Written.{KeepsRowsTwo, AreInOrderTwo};
ghost use Rattle.mqtt_store_database.specs.reading.Kept.{HasRecordsTwo};
ghost use Rattle.mqtt_store_database.specs.telling.Said.{SaysCopyContent, content_rows};

use crate::asking::fault_of;
use crate::telling::content::content_of;
use mqtt_keep::KeepError;
use mqtt_records::CopyContent;
use sqlite::{Alter, Connection, Error, Row, params};
use std::alloc::Global;

/// A birth or a place as SQL has it: the greatest of its numbers for each above, since none of these may be kept.
fn in_sql(n: u64) -> i64
    ensures { result ≡ pos (min n (2 ^ 63 - 1)) }
{
    if n > i64::MAX as u64 {
        return i64::MAX;
    }
    n as i64
}

/// The rows that join the first copies from a place on with their messages. Writes nothing.
fn rows_from<S: Alter>(
    conn: &mut Connection<S>,
    birth: u64,
    place: u64,
    limit: u32,
) -> Result<Vec<Row>, Error>
    ensures rows { (making : Making) (r : Records) → HasCleanDisk (state S.Store conn.new)
        → (state S.Store conn.old).now.schema ≡ second_schema making → HasRecordsTwo making (state S.Store conn.old).now.trees r
        → IfOk result (λ rows. AreRows SaysCopyContent rows.items (contents_from birth place limit r)) }

    // Where the tables are written from records, these are the rows of the first copies.
    ensures written { (making : Making) (r : Records) → HasCleanDisk (state S.Store conn.new)
        → (state S.Store conn.old).now.schema ≡ second_schema making
        → AreInOrderTwo making (state S.Store conn.old).now.trees → KeepsRowsTwo making (state S.Store conn.old).now.trees r
        → birth < 2 ^ 63 → place < 2 ^ 63
        → IfOk result (λ rows. rows.items ≡ content_rows birth place limit r) }
    ensures is_open { HasCleanDisk (state S.Store conn.new) → OnOk result (IsTrue (state S.Store conn.new).is_open) }
    ensures reads { OnlyReads (state S.Store conn.old) (state S.Store conn.new) }
{
    let birth = in_sql(birth);
    let place = in_sql(place);
    conn.query_all(
        "SELECT queued.place, queued.idents, message.topic, message.props, message.payload FROM queued JOIN message ON message.pub = queued.pub WHERE queued.birth = ?1 AND queued.place >= ?2 ORDER BY queued.place LIMIT ?3",
        params![birth, place, limit],
    )
}

/// What each row says. `Corrupt` if one says nothing.
fn contents_of(alloc: Global, rows: &[Row]) -> Result<Vec<CopyContent>, KeepError>
    ensures ok { IfOk result (λ all. AreRows SaysCopyContent rows.now all.items) }
    ensures err { IsErrOf result KeepError.Corrupt
        → (all : List Said) → AreRows SaysCopyContent rows.now all → ⊥ }
    ensures fault { IfErr result (λ e. (e ≡ KeepError.Memory) ⊎ (e ≡ KeepError.Corrupt)) }
{
    let mut all = Vec::with_capacity(alloc, rows.len())?;
    for row in rows {
        let content = match content_of(alloc, row) {
            Ok(content) => content,
            Err(fault) => return Err(fault),
        };
        match all.push(content) {
            Ok(()) => {}
            Err(_) => return Err(KeepError::Memory),
        }
    }
    Ok(all)
}

/// What the first copies in the queue of the session with that birth say, from a place on, at most
/// so many, through a connection to a database of schema 2. Writes nothing. `Corrupt` only if the
/// tables keep no records.
pub fn contents_in<S: Alter>(
    alloc: Global,
    conn: &mut Connection<S>,
    birth: u64,
    place: u64,
    limit: u32,
) -> Result<Vec<CopyContent>, KeepError>
    ensures exact { (making : Making) (r : Records) → HasCleanDisk (state S.Store conn.new)
        → (state S.Store conn.old).now.schema ≡ second_schema making → HasRecordsTwo making (state S.Store conn.old).now.trees r
        → IfOk result (λ all. all.items ≡ contents_from birth place limit r) }

    // The same where the tables are written from records, of numbers that SQL has.
    ensures written { (making : Making) (r : Records) → HasCleanDisk (state S.Store conn.new)
        → (state S.Store conn.old).now.schema ≡ second_schema making
        → AreInOrderTwo making (state S.Store conn.old).now.trees → KeepsRowsTwo making (state S.Store conn.old).now.trees r
        → birth < 2 ^ 63 → place < 2 ^ 63
        → IfOk result (λ all. all.items ≡ contents_from birth place limit r) }

    // If records are kept, only want of memory and the device are in the way.
    ensures kept { (making : Making) (r : Records) → HasCleanDisk (state S.Store conn.new)
        → (state S.Store conn.old).now.schema ≡ second_schema making → HasRecordsTwo making (state S.Store conn.old).now.trees r
        → IfErr result (λ e. (e ≡ KeepError.Memory) ⊎ (e ≡ KeepError.Disk)) }
    ensures fault { IfErr result (λ e. (e ≡ KeepError.Memory) ⊎ ((e ≡ KeepError.Disk) ⊎ (e ≡ KeepError.Corrupt))) }
    ensures is_open { HasCleanDisk (state S.Store conn.new)
        → OnOk result (IsTrue (state S.Store conn.new).is_open)
        × (IsErrOf result KeepError.Corrupt → IsTrue (state S.Store conn.new).is_open) }
    ensures reads { OnlyReads (state S.Store conn.old) (state S.Store conn.new) }
{
    match rows_from(conn, birth, place, limit) {
        Ok(rows) => contents_of(alloc, &rows),
        Err(error) => Err(fault_of(&error)),
    }
}
