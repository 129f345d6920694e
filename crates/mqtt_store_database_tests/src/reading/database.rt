//! Databases in memory with the tables of schema 2, made in each way, and some rows.

use crate::first_schema::create_first;
use mqtt_keep::KeepError;
use mqtt_records::Records;
use mqtt_store_database::reading::records_or_refusal;
use mqtt_store_tables::schema::{Making, add_tables, create_second};
use sqlite::{Alter, Connection, Error, MemStore};
use std::alloc::Global;

/// Two subscribers of `a/b`, each with a copy of publication 2, which is retained too: one at QoS 2
/// that was sent, and one at QoS 1 that waits. The first has a copy of publication 1, a Will and two
/// identifiers that are open. Rows are put in another order than that in which they are read.
const ROWS: [&str; 9] = [
    "UPDATE meta SET n = 2 WHERE name <> 'autos' AND name <> 'moment'",
    "UPDATE meta SET n = 9 WHERE name = 'moment'",
    "INSERT INTO session VALUES (2, 'r2', 60, 7), (1, 'r1', 4294967295, NULL)",
    "INSERT INTO will VALUES (1, 10, 'gone', 1, 1, x'00', x'77')",
    "INSERT INTO sub VALUES (2, 'a/b', 2, 1, 0, 1, 1, 0), (1, 'a/b', 1, 2, 0, 1, 1, 200)",
    "INSERT INTO inbound VALUES (1, 10), (1, 3)",
    "INSERT INTO message VALUES (2, 'a/b', x'0c02000000012600016b000176', x'6869'), (1, 'a/c', x'00', x'61')",
    "INSERT INTO queued VALUES (2, 1, 2, 2, '', 2, NULL, 0, NULL, 1, 1, x'', 9), (1, 2, 2, 0, '', 0, 1, 1, NULL, 2, 0, x'0b010bc801', 8), (1, 1, 1, 0, '', 0, NULL, 0, NULL, 1, 0, x'', 7)",
    "INSERT INTO kept VALUES (3, 'a/b', 'p1', 2, 2, 8)",
];

/// Makes a store of schema 2 there.
fn make_new<S: Alter>(conn: &mut Connection<S>) -> Result<(), Error> {
    if conn.is_autocommit() {
        create_second(conn)?;
    }
    Ok(())
}

/// Makes a store of schema 1, and the others beside its tables.
fn take_over<S: Alter>(conn: &mut Connection<S>) -> Result<(), Error> {
    create_first(conn)?;
    if conn.is_autocommit() {
        let mut tx = conn.transaction();
        add_tables(&mut tx)?;
        tx.commit()?;
    }
    conn.execute_batch("UPDATE meta SET n = 2 WHERE name = 'schema'")
}

/// A database in which nothing stands.
pub(crate) fn empty(alloc: Global) -> Result<Connection<MemStore>, Error> {
    Ok(Connection::open_in_memory(alloc)?)
}

/// A store of schema 1 that keeps nothing.
pub(crate) fn first(alloc: Global) -> Result<Connection<MemStore>, Error> {
    let mut conn = Connection::open_in_memory(alloc)?;
    match create_first(&mut conn) {
        Ok(()) => Ok(conn),
        Err(error) => {
            drop(conn);
            Err(error)
        }
    }
}

/// A store of schema 2 that keeps nothing.
pub(crate) fn second(alloc: Global, making: Making) -> Result<Connection<MemStore>, Error> {
    let mut conn = Connection::open_in_memory(alloc)?;
    let made = match making {
        Making::New => make_new(&mut conn),
        Making::TakenOver => take_over(&mut conn),
    };
    match made {
        Ok(()) => Ok(conn),
        Err(error) => {
            drop(conn);
            Err(error)
        }
    }
}

/// Puts the rows into it.
pub(crate) fn fill<S: Alter>(conn: &mut Connection<S>) -> Result<(), Error> {
    for row in ROWS {
        conn.execute_batch(row)?;
    }
    Ok(())
}

/// What is read after a change, which is taken back.
pub(crate) fn after<S: Alter>(
    alloc: Global,
    conn: &mut Connection<S>,
    making: Making,
    change: &str,
) -> Result<Result<Records, KeepError>, Error> {
    conn.execute_batch("BEGIN")?;
    conn.execute_batch(change)?;
    let found = records_or_refusal(alloc, conn, making);
    match conn.execute_batch("ROLLBACK") {
        Ok(()) => Ok(found),
        Err(error) => {
            drop(found);
            Err(error)
        }
    }
}
