//! A database in memory with the tables of the store and some rows.

use mqtt_keep::KeepError;
use mqtt_records::Records;
use mqtt_store_rows::taking_over::{Tables, records_of};
use sqlite::{Alter, Connection, Error, MemStore, params};
use std::alloc::Global;

/// The tables of the store.
const TABLES: [&str; 7] = [
    "CREATE TABLE meta (name TEXT PRIMARY KEY NOT NULL, n INTEGER NOT NULL) STRICT",
    "CREATE TABLE session (birth INTEGER PRIMARY KEY, client TEXT NOT NULL UNIQUE, expiry INTEGER NOT NULL, closed INTEGER) STRICT",
    "CREATE TABLE will (birth INTEGER PRIMARY KEY REFERENCES session (birth) ON DELETE CASCADE, delay INTEGER NOT NULL, topic TEXT NOT NULL, qos INTEGER NOT NULL, retain INTEGER NOT NULL, props BLOB NOT NULL, payload BLOB NOT NULL) STRICT",
    "CREATE TABLE sub (birth INTEGER NOT NULL REFERENCES session (birth) ON DELETE CASCADE, filter TEXT NOT NULL, place INTEGER NOT NULL, qos INTEGER NOT NULL, nolocal INTEGER NOT NULL, rap INTEGER NOT NULL, handling INTEGER NOT NULL, ident INTEGER NOT NULL, PRIMARY KEY (birth, filter)) STRICT",
    "CREATE TABLE inbound (birth INTEGER NOT NULL REFERENCES session (birth) ON DELETE CASCADE, ident INTEGER NOT NULL, PRIMARY KEY (birth, ident)) STRICT",
    "CREATE TABLE copy (birth INTEGER NOT NULL REFERENCES session (birth) ON DELETE CASCADE, place INTEGER NOT NULL, pub INTEGER NOT NULL, cause INTEGER NOT NULL, cause_text TEXT NOT NULL, cause_n INTEGER NOT NULL, pid INTEGER, phase INTEGER NOT NULL, rel INTEGER, topic TEXT NOT NULL, qos INTEGER NOT NULL, retain INTEGER NOT NULL, props BLOB NOT NULL, payload BLOB NOT NULL, arrived INTEGER NOT NULL, PRIMARY KEY (birth, place)) STRICT",
    "CREATE TABLE retained (place INTEGER PRIMARY KEY, topic TEXT NOT NULL UNIQUE, sender TEXT NOT NULL, pub INTEGER NOT NULL, qos INTEGER NOT NULL, props BLOB NOT NULL, payload BLOB NOT NULL, arrived INTEGER NOT NULL) STRICT",
];

/// A subscriber of `a/b` at QoS 2 with a copy that was sent, a publisher with an open identifier
/// and a Will, and a retained message. Properties: 1 second of expiry; Subscription Identifiers 1
/// and 2 before a User Property (3.3.2.3).
const ROWS: [&str; 12] = [
    "INSERT INTO meta VALUES ('schema', 1)",
    "INSERT INTO meta VALUES ('births', 2)",
    "INSERT INTO meta VALUES ('publications', 2)",
    "INSERT INTO meta VALUES ('subscribes', 1)",
    "INSERT INTO meta VALUES ('autos', 0)",
    "INSERT INTO meta VALUES ('moment', 9)",
    "INSERT INTO session VALUES (1, 'r1', 4294967295, NULL), (2, 'p1', 60, 7)",
    "INSERT INTO will VALUES (2, 10, 'gone', 1, 1, x'050200000001', x'6279')",
    "INSERT INTO sub VALUES (1, 'a/b', 1, 2, 0, 1, 1, 268435455)",
    "INSERT INTO inbound VALUES (2, 10), (2, 65535)",
    "INSERT INTO copy VALUES (1, 1, 1, 0, '', 0, 1, 1, NULL, 'a/b', 2, 0, x'0b0b010b0226000178000179', x'6869', 8)",
    "INSERT INTO retained VALUES (3, 'a/b', 'p1', 2, 0, x'050200000001', x'6869', 9)",
];

fn make<S: Alter>(conn: &mut Connection<S>, texts: &[&str]) -> Result<(), Error> {
    for text in texts {
        conn.execute_batch(text)?;
    }
    Ok(())
}

/// A database with these rows.
pub(crate) fn database(alloc: Global) -> Result<Connection<MemStore>, Error> {
    let mut conn = Connection::open_in_memory(alloc)?;
    make(&mut conn, TABLES.as_slice())?;
    make(&mut conn, ROWS.as_slice())?;
    Ok(conn)
}

/// The rows that it has.
pub(crate) fn tables<S: Alter>(conn: &mut Connection<S>) -> Result<Tables, Error> {
    Ok(Tables {
        meta: conn.query_all("SELECT name, n FROM meta ORDER BY name", &[])?,
        sessions: conn.query_all("SELECT * FROM session ORDER BY birth", &[])?,
        wills: conn.query_all("SELECT * FROM will ORDER BY birth", &[])?,
        subscriptions: conn.query_all("SELECT * FROM sub ORDER BY birth, place", &[])?,
        inbound: conn.query_all("SELECT * FROM inbound ORDER BY birth, ident", &[])?,
        copies: conn.query_all("SELECT * FROM copy ORDER BY birth, place", &[])?,
        retained: conn.query_all("SELECT * FROM retained ORDER BY place", &[])?,
    })
}

/// Makes a change with so many zero bytes.
fn fill<S: Alter>(
    conn: &mut Connection<S>,
    alloc: Global,
    change: &str,
    count: usize,
) -> Result<(), Error> {
    let mut zeros: Vec<u8> = Vec::new(alloc);
    zeros.resize(count, 0)?;
    let _changed = conn.execute(change, params![zeros.as_slice()])?;
    drop(zeros);
    Ok(())
}

/// What the rows say after a change with so many zero bytes for `?1`, which is taken back.
pub(crate) fn after<S: Alter>(
    conn: &mut Connection<S>,
    alloc: Global,
    change: &str,
    zeros: Option<usize>,
) -> Result<Result<Records, KeepError>, Error> {
    conn.execute_batch("BEGIN")?;
    match zeros {
        None => conn.execute_batch(change)?,
        Some(count) => fill(conn, alloc, change, count)?,
    }
    let tables = tables(conn)?;
    conn.execute_batch("ROLLBACK")?;
    let found = records_of(alloc, &tables);
    drop(tables);
    Ok(found)
}
