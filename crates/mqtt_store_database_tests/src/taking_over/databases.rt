//! A database of schema 1 with three copies of two publications, one of which is retained, and what it shows.

use crate::first_schema::create_first;
use sqlite::{Alter, Connection, Error, MemStore};
use std::alloc::Global;

/// A direct copy with two Subscription Identifiers that waits, one of a retained message that was sent, one of a
/// group that was released; and all else that is kept.
const ROWS: &str = "\
INSERT INTO session VALUES (1, 'r1', 4294967295, 900), (2, 'r2', 60, NULL)
INSERT INTO will VALUES (1, 5, 'w', 1, 1, x'00', x'676F6E65')
INSERT INTO sub VALUES (1, 'a/b', 1, 2, 0, 0, 0, 5), (2, '$share/g/a/b', 2, 2, 0, 1, 2, 0)
INSERT INTO inbound VALUES (1, 10)
INSERT INTO copy VALUES (1, 1, 7, 0, '', 0, NULL, 0, NULL, 'a/b', 2, 0, x'050B050BAC02', x'6869', 1000)
INSERT INTO copy VALUES (1, 2, 8, 2, '', 1, 3, 1, NULL, 'c', 1, 1, x'00', x'78', 900)
INSERT INTO copy VALUES (2, 1, 7, 1, 'g/a/b', 0, 4, 2, 1, 'a/b', 2, 0, x'00', x'6869', 1000)
INSERT INTO retained VALUES (1, 'a/b', 'p1', 7, 2, x'00', x'6869', 1000)
UPDATE meta SET n = 2 WHERE name = 'births'
UPDATE meta SET n = 8 WHERE name = 'publications'
UPDATE meta SET n = 2 WHERE name = 'subscribes'
UPDATE meta SET n = 1000 WHERE name = 'moment'
";

/// Queries of one number, and the number, by schema 1.
pub(crate) const FIRST: &str = "\
SELECT n FROM meta WHERE name = 'schema' -> 1
SELECT count(*) FROM copy -> 3
SELECT count(*) FROM copy WHERE topic = 'a/b' AND payload = x'6869' -> 2
SELECT count(*) FROM retained WHERE topic = 'a/b' AND pub = 7 -> 1
SELECT count(*) FROM session -> 2
";

/// The same by schema 2.
pub(crate) const SECOND: &str = "\
SELECT n FROM meta WHERE name = 'schema' -> 2
SELECT n FROM meta WHERE name = 'publications' -> 8
SELECT n FROM meta WHERE name = 'moment' -> 1000
SELECT count(*) FROM copy -> 0
SELECT count(*) FROM retained -> 0
SELECT count(*) FROM message -> 2
SELECT count(*) FROM message WHERE pub = 7 AND topic = 'a/b' AND props = x'00' AND payload = x'6869' -> 1
SELECT count(*) FROM message WHERE pub = 8 AND topic = 'c' AND props = x'00' AND payload = x'78' -> 1
SELECT count(*) FROM queued -> 3
SELECT pub FROM queued WHERE birth = 1 AND place = 1 AND cause = 0 AND phase = 0 AND qos = 2 AND retain = 0 -> 7
SELECT arrived FROM queued WHERE pid IS NULL AND rel IS NULL AND idents = x'0B050BAC02' -> 1000
SELECT pub FROM queued WHERE birth = 1 AND place = 2 AND cause = 2 AND phase = 1 AND qos = 1 AND retain = 1 -> 8
SELECT arrived FROM queued WHERE pid = 3 AND rel IS NULL AND cause_n = 1 AND length(idents) = 0 -> 900
SELECT pub FROM queued WHERE birth = 2 AND place = 1 AND cause = 1 AND phase = 2 AND qos = 2 AND retain = 0 -> 7
SELECT arrived FROM queued WHERE pid = 4 AND rel = 1 AND cause_text = 'g/a/b' AND length(idents) = 0 -> 1000
SELECT pub FROM kept WHERE place = 1 AND topic = 'a/b' AND sender = 'p1' AND qos = 2 AND arrived = 1000 -> 7
SELECT count(*) FROM kept -> 1
SELECT count(*) FROM session WHERE birth = 1 AND client = 'r1' AND closed = 900 -> 1
SELECT expiry FROM session WHERE birth = 2 AND client = 'r2' AND closed IS NULL -> 60
SELECT delay FROM will WHERE birth = 1 AND topic = 'w' AND payload = x'676F6E65' -> 5
SELECT ident FROM sub WHERE birth = 1 AND filter = 'a/b' -> 5
SELECT handling FROM sub WHERE birth = 2 AND filter = '$share/g/a/b' -> 2
SELECT ident FROM inbound WHERE birth = 1 -> 10
";

/// The same when all copies have ended and nothing is retained.
pub(crate) const ENDED: &str = "\
SELECT count(*) FROM message -> 0
SELECT count(*) FROM queued -> 0
SELECT count(*) FROM kept -> 0
SELECT count(*) FROM session -> 1
";

/// Makes the tables of schema 1, and puts the rows.
fn fill<S: Alter>(conn: &mut Connection<S>) -> Result<(), Error> {
    create_first(conn)?;
    for line in ROWS.lines() {
        conn.execute(line, &[])?;
    }
    Ok(())
}

/// A database of schema 1 in memory.
pub(crate) fn database(alloc: Global) -> Result<Connection<MemStore>, Error> {
    let mut conn = Connection::open_in_memory(alloc)?;
    match fill(&mut conn) {
        Ok(()) => Ok(conn),
        Err(error) => {
            drop(conn);
            Err(error)
        }
    }
}

/// The number that a query finds.
fn number<S: Alter>(conn: &mut Connection<S>, sql: &str) -> Result<i64, Error> {
    conn.query_row(sql, &[])?.get(0)
}

/// The first query that finds something else than it says; empty if none does.
pub(crate) fn first_wrong<S: Alter>(
    conn: &mut Connection<S>,
    queries: &'static str,
) -> &'static str {
    for line in queries.lines() {
        let (query, want) = line.split_once(" -> ").unwrap_or((line, ""));
        if number(conn, query).ok() != want.parse::<i64>().ok() {
            return line;
        }
    }
    ""
}
