//! A database in memory with the tables of schema 2 and some rows.

use mqtt_keep::KeepError;
use mqtt_records::Records;
use mqtt_store_rows::gathering::{Gather, GatheredMessages, GatheredQueues};
use mqtt_store_rows::rows::Tables;
use sqlite::{Alter, Connection, Error, MemStore, Row, params};
use std::alloc::{AllocError, Global};

/// The tables of schema 2, without references between them: so that rows can be broken that the
/// schema would refuse.
const TABLES: [&str; 8] = [
    "CREATE TABLE meta (name TEXT PRIMARY KEY NOT NULL, n INTEGER NOT NULL) STRICT",
    "CREATE TABLE session (birth INTEGER PRIMARY KEY, client TEXT NOT NULL UNIQUE, expiry INTEGER NOT NULL, closed INTEGER) STRICT",
    "CREATE TABLE will (birth INTEGER PRIMARY KEY, delay INTEGER NOT NULL, topic TEXT NOT NULL, qos INTEGER NOT NULL, retain INTEGER NOT NULL, props BLOB NOT NULL, payload BLOB NOT NULL) STRICT",
    "CREATE TABLE sub (birth INTEGER NOT NULL, filter TEXT NOT NULL, place INTEGER NOT NULL, qos INTEGER NOT NULL, nolocal INTEGER NOT NULL, rap INTEGER NOT NULL, handling INTEGER NOT NULL, ident INTEGER NOT NULL, PRIMARY KEY (birth, filter)) STRICT",
    "CREATE TABLE inbound (birth INTEGER NOT NULL, ident INTEGER NOT NULL, PRIMARY KEY (birth, ident)) STRICT",
    "CREATE TABLE message (pub INTEGER PRIMARY KEY, topic TEXT NOT NULL, props BLOB NOT NULL, payload BLOB NOT NULL) STRICT",
    "CREATE TABLE queued (birth INTEGER NOT NULL, place INTEGER NOT NULL, pub INTEGER NOT NULL, cause INTEGER NOT NULL, cause_text TEXT NOT NULL, cause_n INTEGER NOT NULL, pid INTEGER, phase INTEGER NOT NULL, rel INTEGER, qos INTEGER NOT NULL, retain INTEGER NOT NULL, idents BLOB NOT NULL, arrived INTEGER NOT NULL, PRIMARY KEY (birth, place)) STRICT",
    "CREATE TABLE kept (place INTEGER PRIMARY KEY, topic TEXT NOT NULL UNIQUE, sender TEXT NOT NULL, pub INTEGER NOT NULL, qos INTEGER NOT NULL, arrived INTEGER NOT NULL) STRICT",
];

/// A subscriber with a copy of publication 1 at QoS 1, and one of publication 2 at QoS 2 that was sent,
/// with the Subscription Identifiers 1 and 200. Publication 2 is retained too; publication 3 is retained
/// alone. Properties: 1 second of expiry, and a User Property.
const ROWS: [&str; 11] = [
    "INSERT INTO meta VALUES ('schema', 2)",
    "INSERT INTO meta VALUES ('births', 1)",
    "INSERT INTO meta VALUES ('publications', 3)",
    "INSERT INTO meta VALUES ('subscribes', 1)",
    "INSERT INTO meta VALUES ('autos', 0)",
    "INSERT INTO meta VALUES ('moment', 9)",
    "INSERT INTO session VALUES (1, 'r1', 4294967295, NULL)",
    "INSERT INTO sub VALUES (1, 'a/b', 1, 2, 0, 1, 1, 200)",
    "INSERT INTO message VALUES (1, 'a/c', x'00', x'61'), (2, 'a/b', x'0c02000000012600016b000176', x'6869'), (3, 'a/d', x'00', x'6b657074')",
    "INSERT INTO queued VALUES (1, 1, 1, 0, '', 0, NULL, 0, NULL, 1, 0, x'', 7), (1, 2, 2, 0, '', 0, 1, 1, NULL, 2, 0, x'0b010bc801', 8)",
    "INSERT INTO kept VALUES (2, 'a/b', 'p1', 2, 2, 8), (3, 'a/d', 'p1', 3, 0, 9)",
];

fn make<S: Alter>(conn: &mut Connection<S>, texts: &[&str]) -> Result<(), Error> {
    for text in texts {
        conn.execute_batch(text)?;
    }
    Ok(())
}

/// A database with these rows, after a change.
pub(crate) fn database(alloc: Global, change: &str) -> Result<Connection<MemStore>, Error> {
    let mut conn = Connection::open_in_memory(alloc)?;
    make(&mut conn, TABLES.as_slice())?;
    make(&mut conn, ROWS.as_slice())?;
    conn.execute_batch(change)?;
    Ok(conn)
}

/// Has message 1 say so many zero bytes.
pub(crate) fn fill<S: Alter>(
    conn: &mut Connection<S>,
    alloc: Global,
    count: usize,
) -> Result<(), Error> {
    let mut zeros: Vec<u8> = Vec::new(alloc);
    zeros.resize(count, 0)?;
    let _changed = conn.execute(
        "UPDATE message SET payload = ?1 WHERE pub = 1",
        params![zeros.as_slice()],
    )?;
    drop(zeros);
    Ok(())
}

/// The rows of `message`.
pub(crate) fn message_rows<S: Alter>(conn: &mut Connection<S>) -> Result<Vec<Row>, Error> {
    conn.query_all("SELECT * FROM message ORDER BY pub", &[])
}

/// The rows of `queued`.
pub(crate) fn queued_rows<S: Alter>(conn: &mut Connection<S>) -> Result<Vec<Row>, Error> {
    conn.query_all("SELECT * FROM queued ORDER BY birth, place", &[])
}

/// The rows of all other tables.
pub(crate) fn tables<S: Alter>(conn: &mut Connection<S>) -> Result<Tables, Error> {
    Ok(Tables {
        meta: conn.query_all("SELECT name, n FROM meta ORDER BY name", &[])?,
        sessions: conn.query_all("SELECT * FROM session ORDER BY birth", &[])?,
        wills: conn.query_all("SELECT * FROM will ORDER BY birth", &[])?,
        subscriptions: conn.query_all("SELECT * FROM sub ORDER BY birth, place", &[])?,
        inbound: conn.query_all("SELECT * FROM inbound ORDER BY birth, ident", &[])?,
        kept: conn.query_all("SELECT * FROM kept ORDER BY place", &[])?,
    })
}

/// Has rows taken in, one after the other.
pub(crate) fn take_all<G: Gather>(gather: &mut G, rows: &[Row]) -> Result<(), AllocError> {
    for row in rows {
        gather.take_in(row)?;
    }
    Ok(())
}

/// No queues so far, with the messages that these rows say.
pub(crate) fn begun(
    alloc: Global,
    rows: &[Row],
    tables: &Tables,
) -> Result<GatheredQueues, KeepError> {
    let mut gathered = GatheredMessages::new(alloc, &tables.kept)?;
    take_all(&mut gathered, rows)?;
    GatheredQueues::new(alloc, gathered, tables)
}

/// The slim records that the rows of messages, of queues and of all other tables say.
pub(crate) fn slim_of(
    alloc: Global,
    rows: &[Row],
    queued: &[Row],
    tables: &Tables,
) -> Result<Records, KeepError> {
    let mut queues = match begun(alloc, rows, tables) {
        Ok(queues) => queues,
        Err(fault) => return Err(fault),
    };
    take_all(&mut queues, queued)?;
    queues.finish()
}

/// The slim records that a database has.
pub(crate) fn slim_in<S: Alter>(
    alloc: Global,
    conn: &mut Connection<S>,
) -> Result<Result<Records, KeepError>, Error> {
    let rows = message_rows(conn)?;
    let queued = queued_rows(conn)?;
    let tables = tables(conn)?;
    Ok(slim_of(alloc, &rows, &queued, &tables))
}
