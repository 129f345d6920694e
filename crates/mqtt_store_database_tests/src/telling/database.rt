//! Databases in memory with the tables of schema 2, made in each way, and copies in queues.

use crate::first_schema::create_first;
use mqtt_store_tables::schema::{Making, add_tables, create_second};
use sqlite::{Alter, Connection, Error, MemStore, params};
use std::alloc::Global;

/// Three sessions with queues that have gaps, and four messages, two of which are in more than one
/// queue. Rows are put in another order than that in which they are read.
const ROWS: [&str; 6] = [
    "UPDATE meta SET n = 12 WHERE name <> 'autos' AND name <> 'moment'",
    "INSERT INTO session VALUES (2, 'r2', 60, 7), (3, 'r3', 60, 7), (1, 'r1', 4294967295, NULL)",
    "INSERT INTO message VALUES (2, 'a/c', x'0c02000000012600016b000176', x'6869'), (1, 'a/b', x'00', x'61'), (4, 'b', x'00', x'6262'), (3, 'a/d', x'00', x'')",
    "INSERT INTO queued VALUES (3, 3, 4, 0, '', 0, NULL, 0, NULL, 1, 0, x'', 9), (2, 10, 1, 0, '', 0, NULL, 0, NULL, 1, 0, x'', 9)",
    "INSERT INTO queued VALUES (2, 5, 2, 0, '', 0, NULL, 0, NULL, 2, 0, x'0b010bc801', 8), (1, 5, 3, 0, '', 0, NULL, 0, NULL, 1, 0, x'', 8)",
    "INSERT INTO queued VALUES (2, 9, 3, 0, '', 0, NULL, 0, NULL, 1, 0, x'', 8), (2, 2, 1, 0, '', 0, 1, 1, NULL, 2, 0, x'', 7), (1, 1, 2, 0, '', 0, NULL, 0, NULL, 1, 0, x'', 7)",
];

/// Makes a store of schema 2 there.
fn make_new<S: Alter>(conn: &mut Connection<S>) -> Result<(), Error> {
    if conn.is_autocommit() {
        create_second(conn)?;
    }
    Ok(())
}

/// Makes a store of schema 1, and the others beside its tables.
fn take_over<S: Alter>(conn: &mut Connection<S>) -> Result<(), Error> {
    create_first(conn)?;
    if conn.is_autocommit() {
        let mut tx = conn.transaction();
        add_tables(&mut tx)?;
        tx.commit()?;
    }
    conn.execute_batch("UPDATE meta SET n = 2 WHERE name = 'schema'")
}

/// Makes the tables, and puts the rows into them.
fn fill<S: Alter>(conn: &mut Connection<S>, making: Making) -> Result<(), Error> {
    match making {
        Making::New => make_new(conn)?,
        Making::TakenOver => take_over(conn)?,
    }
    for row in ROWS {
        conn.execute_batch(row)?;
    }
    Ok(())
}

/// A store with these queues.
pub(crate) fn filled(alloc: Global, making: Making) -> Result<Connection<MemStore>, Error> {
    let mut conn = Connection::open_in_memory(alloc)?;
    match fill(&mut conn, making) {
        Ok(()) => Ok(conn),
        Err(error) => {
            drop(conn);
            Err(error)
        }
    }
}

/// Puts so many copies of the first message into the queue of the third session, from place 11 on.
pub(crate) fn lengthen<S: Alter>(conn: &mut Connection<S>, count: u32) -> Result<(), Error> {
    for at in 0..count {
        conn.execute(
            "INSERT INTO queued VALUES (3, 11 + ?1, 1, 0, '', 0, NULL, 0, NULL, 1, 0, x'', 9)",
            params![at],
        )?;
    }
    Ok(())
}
