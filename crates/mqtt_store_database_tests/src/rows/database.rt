//! A database in memory with the tables of schema 2 and some rows, and what they say.

use mqtt_keep::KeepError;
use mqtt_records::{Boxed, Records};
use mqtt_store_rows::rows::{Messages, Tables, are_referred, heads_of, message_of, part_with};
use sqlite::{Alter, Connection, Error, MemStore, Row, params};
use std::alloc::{AllocError, Global};
use std::collections::VecDeque;

/// The tables of schema 2, without references between them: so that rows can be broken that the
/// schema would refuse.
const TABLES: [&str; 8] = [
    "CREATE TABLE meta (name TEXT PRIMARY KEY NOT NULL, n INTEGER NOT NULL) STRICT",
    "CREATE TABLE session (birth INTEGER PRIMARY KEY, client TEXT NOT NULL UNIQUE, expiry INTEGER NOT NULL, closed INTEGER) STRICT",
    "CREATE TABLE will (birth INTEGER PRIMARY KEY, delay INTEGER NOT NULL, topic TEXT NOT NULL, qos INTEGER NOT NULL, retain INTEGER NOT NULL, props BLOB NOT NULL, payload BLOB NOT NULL) STRICT",
    "CREATE TABLE sub (birth INTEGER NOT NULL, filter TEXT NOT NULL, place INTEGER NOT NULL, qos INTEGER NOT NULL, nolocal INTEGER NOT NULL, rap INTEGER NOT NULL, handling INTEGER NOT NULL, ident INTEGER NOT NULL, PRIMARY KEY (birth, filter)) STRICT",
    "CREATE TABLE inbound (birth INTEGER NOT NULL, ident INTEGER NOT NULL, PRIMARY KEY (birth, ident)) STRICT",
    "CREATE TABLE message (pub INTEGER PRIMARY KEY, topic TEXT NOT NULL, props BLOB NOT NULL, payload BLOB NOT NULL) STRICT",
    "CREATE TABLE queued (birth INTEGER NOT NULL, place INTEGER NOT NULL, pub INTEGER NOT NULL, cause INTEGER NOT NULL, cause_text TEXT NOT NULL, cause_n INTEGER NOT NULL, pid INTEGER, phase INTEGER NOT NULL, rel INTEGER, qos INTEGER NOT NULL, retain INTEGER NOT NULL, idents BLOB NOT NULL, arrived INTEGER NOT NULL, PRIMARY KEY (birth, place)) STRICT",
    "CREATE TABLE kept (place INTEGER PRIMARY KEY, topic TEXT NOT NULL UNIQUE, sender TEXT NOT NULL, pub INTEGER NOT NULL, qos INTEGER NOT NULL, arrived INTEGER NOT NULL) STRICT",
];

/// Two subscribers of `a/b`, each with a copy of publication 2: one at QoS 2 that was sent, with the
/// Subscription Identifiers 1 and 200, and one at QoS 1 that waits. The first has a copy of
/// publication 1 too. Publication 2 is retained. Properties: 1 second of expiry, and a User Property.
const ROWS: [&str; 11] = [
    "INSERT INTO meta VALUES ('schema', 2)",
    "INSERT INTO meta VALUES ('births', 2)",
    "INSERT INTO meta VALUES ('publications', 2)",
    "INSERT INTO meta VALUES ('subscribes', 2)",
    "INSERT INTO meta VALUES ('autos', 0)",
    "INSERT INTO meta VALUES ('moment', 9)",
    "INSERT INTO session VALUES (1, 'r1', 4294967295, NULL), (2, 'r2', 60, 7)",
    "INSERT INTO sub VALUES (1, 'a/b', 1, 2, 0, 1, 1, 200), (2, 'a/b', 2, 1, 0, 1, 1, 0)",
    "INSERT INTO message VALUES (1, 'a/c', x'00', x'61'), (2, 'a/b', x'0c02000000012600016b000176', x'6869')",
    "INSERT INTO queued VALUES (1, 1, 1, 0, '', 0, NULL, 0, NULL, 1, 0, x'', 7), (1, 2, 2, 0, '', 0, 1, 1, NULL, 2, 0, x'0b010bc801', 8), (2, 1, 2, 2, '', 2, NULL, 0, NULL, 1, 1, x'', 9)",
    "INSERT INTO kept VALUES (3, 'a/b', 'p1', 2, 2, 8)",
];

fn make<S: Alter>(conn: &mut Connection<S>, texts: &[&str]) -> Result<(), Error> {
    for text in texts {
        conn.execute_batch(text)?;
    }
    Ok(())
}

/// A database with these rows.
pub(crate) fn database(alloc: Global) -> Result<Connection<MemStore>, Error> {
    let mut conn = Connection::open_in_memory(alloc)?;
    make(&mut conn, TABLES.as_slice())?;
    make(&mut conn, ROWS.as_slice())?;
    Ok(conn)
}

/// The rows of `message`.
pub(crate) fn message_rows<S: Alter>(conn: &mut Connection<S>) -> Result<Vec<Row>, Error> {
    conn.query_all("SELECT * FROM message ORDER BY pub", &[])
}

/// The messages that rows say. `Corrupt` if one says none, or if its number is not above all before it.
pub(crate) fn messages_of(alloc: Global, rows: &[Row]) -> Result<Messages, KeepError> {
    let mut messages = Messages::new(alloc);
    for row in rows {
        let message = message_of(alloc, row)?;
        if !messages.push(message)? {
            return Err(KeepError::Corrupt);
        }
    }
    Ok(messages)
}

/// The rows of all tables but `message` and `queued`.
pub(crate) fn tables<S: Alter>(conn: &mut Connection<S>) -> Result<Tables, Error> {
    Ok(Tables {
        meta: conn.query_all("SELECT name, n FROM meta ORDER BY name", &[])?,
        sessions: conn.query_all("SELECT * FROM session ORDER BY birth", &[])?,
        wills: conn.query_all("SELECT * FROM will ORDER BY birth", &[])?,
        subscriptions: conn.query_all("SELECT * FROM sub ORDER BY birth, place", &[])?,
        inbound: conn.query_all("SELECT * FROM inbound ORDER BY birth, ident", &[])?,
        kept: conn.query_all("SELECT * FROM kept ORDER BY place", &[])?,
    })
}

/// The rows of `queued`.
pub(crate) fn queued_rows<S: Alter>(conn: &mut Connection<S>) -> Result<VecDeque<Row>, Error> {
    let rows = conn.query_all("SELECT * FROM queued ORDER BY birth, place", &[])?;
    Ok(VecDeque::from_vec(rows))
}

/// Rows of all tables.
#[derive(Drop)]
pub(crate) struct All {
    pub(crate) messages: Vec<Row>,
    pub(crate) others: Tables,
    pub(crate) queued: VecDeque<Row>,
}

/// Those that a database has.
fn all_rows<S: Alter>(conn: &mut Connection<S>) -> Result<All, Error> {
    let messages = message_rows(conn)?;
    let others = tables(conn)?;
    let queued = queued_rows(conn)?;
    Ok(All {
        messages,
        others,
        queued,
    })
}

/// Which rows were refused, and why.
#[derive(Debug, Clone, Copy, PartialEq, Eq)]
pub(crate) enum Refused {
    /// Of `message`.
    Messages(KeepError),
    /// Of sessions without queues, retained messages or numbers.
    Heads(KeepError),
    /// Of the queue of a session.
    Queue(KeepError),
    /// A copy of no session.
    LeftOver,
    /// A message to which nothing refers.
    Unreferred,
}

/// Gives a session the queue that the rows at the front say.
pub(crate) fn put_queue(
    alloc: Global,
    messages: &Messages,
    queued: &mut VecDeque<Row>,
    records: &mut Records,
    birth: u64,
) -> Result<(), KeepError> {
    let Some(session) = records.sessions.take(birth) else {
        return Ok(());
    };
    let mut session = session.into_row();
    session.queue = part_with(alloc, messages, birth, queued)?;
    records.sessions.put(Boxed::new(alloc, session)?);
    Ok(())
}

/// What rows say, read one table after the other: the messages, the sessions without their queues,
/// and the queues of both sessions.
pub(crate) fn records_of(alloc: Global, rows: All) -> Result<Records, Refused> {
    let mut queued = rows.queued;
    let messages = match messages_of(alloc, &rows.messages) {
        Ok(messages) => messages,
        Err(fault) => return Err(Refused::Messages(fault)),
    };
    let mut records = match heads_of(alloc, &messages, &rows.others) {
        Ok(records) => records,
        Err(fault) => return Err(Refused::Heads(fault)),
    };
    for birth in [1, 2] {
        if let Err(fault) = put_queue(alloc, &messages, &mut queued, &mut records, birth) {
            return Err(Refused::Queue(fault));
        }
    }
    if !queued.is_empty() {
        return Err(Refused::LeftOver);
    }
    match are_referred(alloc, &messages, &records) {
        Ok(true) => Ok(records),
        Ok(false) => Err(Refused::Unreferred),
        Err(AllocError) => Err(Refused::Heads(KeepError::Memory)),
    }
}

/// Makes a change with so many zero bytes.
fn fill<S: Alter>(
    conn: &mut Connection<S>,
    alloc: Global,
    change: &str,
    count: usize,
) -> Result<(), Error> {
    let mut zeros: Vec<u8> = Vec::new(alloc);
    zeros.resize(count, 0)?;
    let _changed = conn.execute(change, params![zeros.as_slice()])?;
    drop(zeros);
    Ok(())
}

/// The rows after a change with so many zero bytes for `?1`, which is taken back.
pub(crate) fn after<S: Alter>(
    conn: &mut Connection<S>,
    alloc: Global,
    change: &str,
    zeros: Option<usize>,
) -> Result<All, Error> {
    conn.execute_batch("BEGIN")?;
    match zeros {
        None => conn.execute_batch(change)?,
        Some(count) => fill(conn, alloc, change, count)?,
    }
    let rows = all_rows(conn)?;
    conn.execute_batch("ROLLBACK")?;
    Ok(rows)
}
