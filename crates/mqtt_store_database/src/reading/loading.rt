//! The records of a database of schema 2, through a connection (4.1).
ghost use Rattle.std.specs.Prelude.{◌≡◌, ◌≢◌, ◌⊎◌, List, [], IfOk, IfErr, OnOk, IsErrOf, IsTrue, MatchBool};
ghost use Rattle.sqlite_value.specs.Order.{Row as SqlRow};
ghost use Rattle.sqlite.specs.Held.{state};
ghost use Rattle.sqlite.specs.State.{HasCleanDisk};
ghost use Rattle.mqtt_records.specs.declared.state.records.Records.{Records, Records as Kept};
ghost use Rattle.mqtt_store_tables.specs.forms.Settled.{IsSettled, OnlyReads};
ghost use Rattle.mqtt_store_tables.specs.schema.Tables.{second_schema};
ghost use Rattle.mqtt_store_tables.specs.declared.schema.tables.Making.{Making};
ghost use Rattle.mqtt_store_database.specs.asking.Listing.{tree_of, IsInSecond, IsListing};
ghost use Rattle.mqtt_store_rows.specs.rows.Tables.{rows_in};
ghost use Rattle.mqtt_store_database.specs.row_laws.Written.{HasNoOldRows};
ghost use Rattle.mqtt_store_database.specs.reading.Listing.{IsAddedListing};
ghost use Rattle.mqtt_store_rows.specs.gathering.Thin.{AreCovered};
ghost use Rattle.mqtt_store_rows.specs.gathering.Gathered.{HasTaken};
ghost use Rattle.mqtt_store_rows.specs.gathering.Queues.{HasTakenQueues, HaveQueues, AreSlimOf};
ghost use Rattle.mqtt_store_rows.specs.gathering.Slim.{IsSlimOf};
ghost use Rattle.mqtt_store_database.specs.declared.reading.reading.AddedTable.TheVariants as AddedTable;
ghost use Rattle.mqtt_store_database.specs.reading.Kept.{AreSharedListed, HasRecordsTwo};

use crate::asking::{fault_of, rows_of};
use crate::reading::reading::{AddedTable, read_into, rows_of_added};
use mqtt_keep::KeepError;
use mqtt_records::Records;
use mqtt_store_rows::gathering::{GatheredMessages, GatheredQueues};
use mqtt_store_rows::rows::Tables;
use mqtt_store_tables::forms::StoreTable;
use mqtt_store_tables::schema::Making;
use sqlite::{Alter, Connection, Error, Row};
use std::alloc::Global;

/// Whether a table of schema 1 has no row.
fn is_vacant<S: Alter>(conn: &mut Connection<S>, table: StoreTable) -> Result<bool, Error>
    ensures vacant { (making : Making) → HasCleanDisk (state S.Store conn.new)
        → (state S.Store conn.old).now.schema ≡ second_schema making → IsInSecond table making
        → IfOk result (λ yes. MatchBool yes ((state S.Store conn.old).now.trees (tree_of table) ≡ [])
        ((state S.Store conn.old).now.trees (tree_of table) ≢ [])) }
    ensures is_open { HasCleanDisk (state S.Store conn.new) → OnOk result (IsTrue (state S.Store conn.new).is_open) }
    ensures reads { OnlyReads (state S.Store conn.old) (state S.Store conn.new) }
{
    let rows = rows_of(conn, table)?;
    Ok(rows.is_empty())
}

/// Whether the tables of copies and retained messages of schema 1 have no row, which still stand.
fn are_vacant<S: Alter>(conn: &mut Connection<S>) -> Result<bool, Error>
    ensures vacant { HasCleanDisk (state S.Store conn.new)
        → (state S.Store conn.old).now.schema ≡ second_schema Making.TakenOver → IsSettled (state S.Store conn.old)
        → IfOk result (λ yes. MatchBool yes (HasNoOldRows Making.TakenOver (state S.Store conn.old).now.trees)
        (¬ HasNoOldRows Making.TakenOver (state S.Store conn.old).now.trees)) }
    ensures is_open { HasCleanDisk (state S.Store conn.new) → OnOk result (IsTrue (state S.Store conn.new).is_open) }
    ensures reads { OnlyReads (state S.Store conn.old) (state S.Store conn.new) }
{
    let copies = is_vacant(conn, StoreTable::Copy)?;
    let retained = is_vacant(conn, StoreTable::Retained)?;
    Ok(copies && retained)
}

/// Reads the rows of a table that both schemas have into a list.
fn read_shared<S: Alter>(
    conn: &mut Connection<S>,
    table: StoreTable,
    rows: &mut Vec<Row>,
) -> Result<(), Error>
    ensures rows { (making : Making) → HasCleanDisk (state S.Store conn.new)
        → (state S.Store conn.old).now.schema ≡ second_schema making → IsInSecond table making
        → OnOk result (IsListing table (state S.Store conn.old).now.trees rows.new.items) }
    ensures is_open { HasCleanDisk (state S.Store conn.new) → OnOk result (IsTrue (state S.Store conn.new).is_open) }
    ensures reads { OnlyReads (state S.Store conn.old) (state S.Store conn.new) }
{
    *rows = rows_of(conn, table)?;
    Ok(())
}

/// Reads the rows of the tables that both schemas have.
fn read_all_shared<S: Alter>(conn: &mut Connection<S>, tables: &mut Tables) -> Result<(), Error>
    ensures rows { (making : Making) → HasCleanDisk (state S.Store conn.new)
        → (state S.Store conn.old).now.schema ≡ second_schema making → IsSettled (state S.Store conn.old)
        → OnOk result (AreSharedListed (state S.Store conn.old).now.trees (rows_in tables.new)) }
    ensures is_open { HasCleanDisk (state S.Store conn.new) → OnOk result (IsTrue (state S.Store conn.new).is_open) }
    ensures reads { OnlyReads (state S.Store conn.old) (state S.Store conn.new) }
{
    read_shared(conn, StoreTable::Meta, &mut tables.meta)?;
    read_shared(conn, StoreTable::Session, &mut tables.sessions)?;
    read_shared(conn, StoreTable::Will, &mut tables.wills)?;
    read_shared(conn, StoreTable::Subscription, &mut tables.subscriptions)?;
    read_shared(conn, StoreTable::Inbound, &mut tables.inbound)
}

/// Reads the rows of `kept` into a list.
fn read_kept<S: Alter>(conn: &mut Connection<S>, rows: &mut Vec<Row>) -> Result<(), Error>
    ensures rows { (making : Making) → HasCleanDisk (state S.Store conn.new)
        → (state S.Store conn.old).now.schema ≡ second_schema making
        → OnOk result (IsAddedListing making AddedTable.Kept (state S.Store conn.old).now.trees rows.new.items) }
    ensures is_open { HasCleanDisk (state S.Store conn.new) → OnOk result (IsTrue (state S.Store conn.new).is_open) }
    ensures reads { OnlyReads (state S.Store conn.old) (state S.Store conn.new) }
{
    *rows = rows_of_added(conn, AddedTable::Kept)?;
    Ok(())
}

/// Reads the rows of all tables but `message` and `queued`.
fn read_all<S: Alter>(conn: &mut Connection<S>, tables: &mut Tables) -> Result<(), Error>
    ensures shared { (making : Making) → HasCleanDisk (state S.Store conn.new)
        → (state S.Store conn.old).now.schema ≡ second_schema making → IsSettled (state S.Store conn.old)
        → OnOk result (AreSharedListed (state S.Store conn.old).now.trees (rows_in tables.new)) }
    ensures kept { (making : Making) → HasCleanDisk (state S.Store conn.new)
        → (state S.Store conn.old).now.schema ≡ second_schema making → IsSettled (state S.Store conn.old)
        → OnOk result (IsAddedListing making AddedTable.Kept (state S.Store conn.old).now.trees (rows_in tables.new).kept) }
    ensures is_open { HasCleanDisk (state S.Store conn.new) → OnOk result (IsTrue (state S.Store conn.new).is_open) }
    ensures reads { OnlyReads (state S.Store conn.old) (state S.Store conn.new) }
{
    read_all_shared(conn, tables)?;
    read_kept(conn, &mut tables.kept)
}

/// Gathers the messages. What the rows of `kept` refer to is whole.
fn messages_in<S: Alter>(
    alloc: Global,
    conn: &mut Connection<S>,
    kept: &[Row],
) -> Result<GatheredMessages, KeepError>
    ensures taken { IfOk result (λ g. (rows : List SqlRow) × HasTaken g rows
        × ((making : Making) → HasCleanDisk (state S.Store conn.new) → (state S.Store conn.old).now.schema ≡ second_schema making
        → IsAddedListing making AddedTable.Message (state S.Store conn.old).now.trees rows)) }
    ensures covered { IfOk result (λ g. AreCovered g.whole kept.now) }
    ensures fault { IfErr result (λ e. (e ≡ KeepError.Memory) ⊎ (e ≡ KeepError.Disk)) }
    ensures is_open { HasCleanDisk (state S.Store conn.new) → OnOk result (IsTrue (state S.Store conn.new).is_open) }
    ensures reads { OnlyReads (state S.Store conn.old) (state S.Store conn.new) }
{
    let mut gathered = match GatheredMessages::new(alloc, kept) {
        Ok(gathered) => gathered,
        Err(_) => return Err(KeepError::Memory),
    };
    match read_into(conn, AddedTable::Message, &mut gathered) {
        Ok(()) => Ok(gathered),
        Err(fault) => {
            drop(gathered);
            Err(fault)
        }
    }
}

/// Gathers the queues, and answers the records with them, slim. `Corrupt` if the rows say none with which these are lawful.
fn queues_in<S: Alter>(
    conn: &mut Connection<S>,
    mut queues: GatheredQueues,
) -> Result<Records, KeepError>
    requires begun { HasTakenQueues queues [] }
    ensures ok { IfOk result (λ slim. (rows : List SqlRow) × AreSlimOf queues rows slim
        × ((making : Making) → HasCleanDisk (state S.Store conn.new) → (state S.Store conn.old).now.schema ≡ second_schema making
        → IsAddedListing making AddedTable.Queued (state S.Store conn.old).now.trees rows)) }
    ensures err { IsErrOf result KeepError.Corrupt → (rows : List SqlRow) × ((r : Kept) → HaveQueues queues rows r → ⊥)
        × ((making : Making) → HasCleanDisk (state S.Store conn.new) → (state S.Store conn.old).now.schema ≡ second_schema making
        → IsAddedListing making AddedTable.Queued (state S.Store conn.old).now.trees rows) }
    ensures fault { IfErr result (λ e. (e ≡ KeepError.Memory) ⊎ ((e ≡ KeepError.Disk) ⊎ (e ≡ KeepError.Corrupt))) }
    ensures is_open { HasCleanDisk (state S.Store conn.new)
        → OnOk result (IsTrue (state S.Store conn.new).is_open)
        × (IsErrOf result KeepError.Corrupt → IsTrue (state S.Store conn.new).is_open) }
    ensures reads { OnlyReads (state S.Store conn.old) (state S.Store conn.new) }
{
    match read_into(conn, AddedTable::Queued, &mut queues) {
        Ok(()) => queues.finish(),
        Err(fault) => {
            drop(queues);
            Err(fault)
        }
    }
}

/// The lawful records that the rows give, slim, with these of all tables but `message` and `queued`. `Corrupt` if they give
/// none.
fn given_with<S: Alter>(
    alloc: Global,
    conn: &mut Connection<S>,
    tables: &Tables,
) -> Result<Records, KeepError>
    ensures ok { IfOk result (IsSlimOf (λ whole. (making : Making) → HasCleanDisk (state S.Store conn.new)
        → (state S.Store conn.old).now.schema ≡ second_schema making → IsSettled (state S.Store conn.old)
        → AreSharedListed (state S.Store conn.old).now.trees (rows_in tables.now)
        → IsAddedListing making AddedTable.Kept (state S.Store conn.old).now.trees (rows_in tables.now).kept
        → HasNoOldRows making (state S.Store conn.old).now.trees
        → HasRecordsTwo making (state S.Store conn.old).now.trees whole)) }
    ensures err { (making : Making) → HasCleanDisk (state S.Store conn.new)
        → (state S.Store conn.old).now.schema ≡ second_schema making → IsSettled (state S.Store conn.old)
        → AreSharedListed (state S.Store conn.old).now.trees (rows_in tables.now)
        → IsAddedListing making AddedTable.Kept (state S.Store conn.old).now.trees (rows_in tables.now).kept
        → IsErrOf result KeepError.Corrupt → (r : Kept) → HasRecordsTwo making (state S.Store conn.old).now.trees r → ⊥ }
    ensures fault { IfErr result (λ e. (e ≡ KeepError.Memory) ⊎ ((e ≡ KeepError.Disk) ⊎ (e ≡ KeepError.Corrupt))) }
    ensures is_open { HasCleanDisk (state S.Store conn.new)
        → OnOk result (IsTrue (state S.Store conn.new).is_open)
        × (IsErrOf result KeepError.Corrupt → IsTrue (state S.Store conn.new).is_open) }
    ensures reads { OnlyReads (state S.Store conn.old) (state S.Store conn.new) }
{
    let gathered = match messages_in(alloc, conn, &tables.kept) {
        Ok(gathered) => gathered,
        Err(fault) => return Err(fault),
    };
    match GatheredQueues::new(alloc, gathered, tables) {
        Ok(queues) => queues_in(conn, queues),
        Err(fault) => Err(fault),
    }
}

/// The lawful records that the rows give, slim. `Corrupt` if they give none.
fn given<S: Alter>(alloc: Global, conn: &mut Connection<S>) -> Result<Records, KeepError>
    ensures ok { IfOk result (IsSlimOf (λ whole. (making : Making) → HasCleanDisk (state S.Store conn.new)
        → (state S.Store conn.old).now.schema ≡ second_schema making → IsSettled (state S.Store conn.old)
        → HasNoOldRows making (state S.Store conn.old).now.trees
        → HasRecordsTwo making (state S.Store conn.old).now.trees whole)) }
    ensures err { (making : Making) → HasCleanDisk (state S.Store conn.new)
        → (state S.Store conn.old).now.schema ≡ second_schema making → IsSettled (state S.Store conn.old)
        → IsErrOf result KeepError.Corrupt → (r : Records) → HasRecordsTwo making (state S.Store conn.old).now.trees r → ⊥ }
    ensures fault { IfErr result (λ e. (e ≡ KeepError.Memory) ⊎ ((e ≡ KeepError.Disk) ⊎ (e ≡ KeepError.Corrupt))) }
    ensures is_open { HasCleanDisk (state S.Store conn.new)
        → OnOk result (IsTrue (state S.Store conn.new).is_open)
        × (IsErrOf result KeepError.Corrupt → IsTrue (state S.Store conn.new).is_open) }
    ensures reads { OnlyReads (state S.Store conn.old) (state S.Store conn.new) }
{
    let mut tables = Tables {
        meta: Vec::new(alloc),
        sessions: Vec::new(alloc),
        wills: Vec::new(alloc),
        subscriptions: Vec::new(alloc),
        inbound: Vec::new(alloc),
        kept: Vec::new(alloc),
    };
    match read_all(conn, &mut tables) {
        Ok(()) => {
            let records = given_with(alloc, conn, &tables);
            drop(tables);
            records
        }
        Err(error) => {
            drop(tables);
            Err(fault_of(&error))
        }
    }
}

/// The records of a database that had schema 1, slim. `Corrupt` if its tables of schema 1 have rows.
fn given_alone<S: Alter>(alloc: Global, conn: &mut Connection<S>) -> Result<Records, KeepError>
    ensures ok { IfOk result (IsSlimOf (λ whole. HasCleanDisk (state S.Store conn.new)
        → (state S.Store conn.old).now.schema ≡ second_schema Making.TakenOver → IsSettled (state S.Store conn.old)
        → HasRecordsTwo Making.TakenOver (state S.Store conn.old).now.trees whole)) }
    ensures err { HasCleanDisk (state S.Store conn.new)
        → (state S.Store conn.old).now.schema ≡ second_schema Making.TakenOver → IsSettled (state S.Store conn.old)
        → IsErrOf result KeepError.Corrupt → (r : Records) → HasRecordsTwo Making.TakenOver (state S.Store conn.old).now.trees r → ⊥ }
    ensures fault { IfErr result (λ e. (e ≡ KeepError.Memory) ⊎ ((e ≡ KeepError.Disk) ⊎ (e ≡ KeepError.Corrupt))) }
    ensures is_open { HasCleanDisk (state S.Store conn.new)
        → OnOk result (IsTrue (state S.Store conn.new).is_open)
        × (IsErrOf result KeepError.Corrupt → IsTrue (state S.Store conn.new).is_open) }
    ensures reads { OnlyReads (state S.Store conn.old) (state S.Store conn.new) }
{
    match are_vacant(conn) {
        Ok(true) => given(alloc, conn),
        Ok(false) => Err(KeepError::Corrupt),
        Err(error) => Err(fault_of(&error)),
    }
}

/// The records of a database that has the tables of schema 2, made so: slim rows, which say of waiting copies nothing but
/// what rules read and their topics. `Corrupt` if its rows give none.
pub fn records_in<S: Alter>(
    alloc: Global,
    conn: &mut Connection<S>,
    making: Making,
) -> Result<Records, KeepError>
    ensures ok { IfOk result (IsSlimOf (λ whole. HasCleanDisk (state S.Store conn.new)
        → (state S.Store conn.old).now.schema ≡ second_schema making → IsSettled (state S.Store conn.old)
        → HasRecordsTwo making (state S.Store conn.old).now.trees whole)) }
    ensures err { HasCleanDisk (state S.Store conn.new)
        → (state S.Store conn.old).now.schema ≡ second_schema making → IsSettled (state S.Store conn.old)
        → IsErrOf result KeepError.Corrupt → (r : Records) → HasRecordsTwo making (state S.Store conn.old).now.trees r → ⊥ }
    ensures fault { IfErr result (λ e. (e ≡ KeepError.Memory) ⊎ ((e ≡ KeepError.Disk) ⊎ (e ≡ KeepError.Corrupt))) }
    ensures is_open { HasCleanDisk (state S.Store conn.new)
        → OnOk result (IsTrue (state S.Store conn.new).is_open)
        × (IsErrOf result KeepError.Corrupt → IsTrue (state S.Store conn.new).is_open) }
    ensures reads { OnlyReads (state S.Store conn.old) (state S.Store conn.new) }
{
    match making {
        Making::New => given(alloc, conn),
        Making::TakenOver => given_alone(alloc, conn),
    }
}
