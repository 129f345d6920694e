//! The rows that a broker's own steps leave in the tables of a store in SQL, and what it says of tables that were changed (MQTT
//! 5.0, 4.1).

use crate::judging::judge;
use crate::run::{Part, Played, play_over};
use crate::taken::number;
use crate::telling::Telling;
use mqtt_keep::KeepError;
use mqtt_store::SqlKeep;
use sqlite::{Alter, Connection, MemStore};
use std::alloc::Global;
use std::hash::RandomState;

/// A subscriber and a publisher come, one message enters the subscriber's queue, and goes out.
const SENT: &str = "\
-- a message is sent
link -> 1
connect 1 r1 -> 1:connected
on 1 8209 0001 00 0003612f62 02 -> 1:900400010002
link -> 2
connect 2 p1 -> 2:connected
on 2 340a 0003612f62 000a 00 6869 -> accepted=1 entered=1>r1 2:5002000a
pump 1 -> 1:340a0003612f620001006869
";

/// Queries of one number, and the number then.
const SENT_ROWS: &str = "\
SELECT count(*) FROM session -> 2
SELECT count(*) FROM will -> 0
SELECT count(*) FROM sub -> 1
SELECT count(*) FROM inbound -> 1
SELECT birth FROM inbound -> 2
SELECT ident FROM inbound -> 10
SELECT count(*) FROM message -> 1
SELECT count(*) FROM queued -> 1
SELECT pid FROM queued -> 1
SELECT phase FROM queued -> 1
SELECT count(*) FROM kept -> 0
SELECT count(*) FROM meta -> 6
SELECT n FROM meta WHERE name = 'schema' -> 2
SELECT n FROM meta WHERE name = 'births' -> 2
SELECT n FROM meta WHERE name = 'publications' -> 1
SELECT n FROM meta WHERE name = 'subscribes' -> 1
SELECT n FROM meta WHERE name = 'autos' -> 0
SELECT n FROM meta WHERE name = 'moment' -> 0
";

/// The subscriber comes again, and its session ends with its line.
const ENDED: &str = "\
-- a session ends
link -> 1
connect 1 r1 -> 1:resumed
on 1 e007 00 05 1100000000 -> ended=1>r1:SessionEnded closed=1
";

/// The queries and numbers then.
const ENDED_ROWS: &str = "\
SELECT count(*) FROM session -> 1
SELECT birth FROM session -> 2
SELECT count(*) FROM sub -> 0
SELECT count(*) FROM queued -> 0
SELECT count(*) FROM message -> 0
SELECT count(*) FROM inbound -> 1
SELECT n FROM meta WHERE name = 'births' -> 2
SELECT n FROM meta WHERE name = 'publications' -> 1
";

/// Statements that change the tables after the first script, and what a broker that is opened over them tells then.
const CHANGED: [(&str, &str); 4] = [
    ("UPDATE queued SET pid = NULL", "Corrupt"),
    ("UPDATE queued SET qos = 3", "Corrupt"),
    (
        "UPDATE meta SET n = 0 WHERE name = 'publications'",
        "Corrupt",
    ),
    ("UPDATE meta SET n = 9 WHERE name = 'schema'", "Schema"),
];

/// The last number of a publication is given.
const SPENT: &str = "UPDATE meta SET n = 4611686018427387904 WHERE name = 'publications'";

/// A new client's message can't be numbered.
const UNNUMBERED: &str = "\
-- a message can't be numbered
link -> 1
connect 1 p2 -> 1:connected
on 1 340a 0003612f62 000a 00 6869 -> Spent
";

/// Says if a query finds something else than it says.
fn judge_rows<S: Alter>(wrong: &mut Telling, conn: &mut Connection<S>, queries: &str) {
    for line in queries.lines() {
        let (query, want) = line.split_once(" -> ").unwrap_or((line, ""));
        if number(conn, query).ok() != want.parse::<i64>().ok() {
            wrong.word(line);
            wrong.word(" isn't so\n");
        }
    }
}

/// Plays a script over a store in SQL, and gives the database back.
fn play_on(
    alloc: Global,
    hasher: RandomState,
    conn: Connection<MemStore>,
    script: &str,
) -> Result<(Connection<MemStore>, Played), KeepError> {
    match SqlKeep::new(alloc, conn) {
        Ok(keep) => {
            let (keep, played) = play_over(alloc, hasher, keep, script, Part::whole());
            Ok((keep.into_inner(), played))
        }
        Err((_, store)) => {
            drop(store);
            Err(KeepError::Disk)
        }
    }
}

/// The same, and says what the script tells otherwise.
fn judge_on(
    wrong: &mut Telling,
    alloc: Global,
    hasher: RandomState,
    conn: Connection<MemStore>,
    script: &str,
) -> Result<Connection<MemStore>, KeepError> {
    let (conn, played) = play_on(alloc, hasher, conn, script)?;
    judge(wrong, script, &played);
    drop(played);
    Ok(conn)
}

/// A database in memory in which a message was sent.
fn sent(
    wrong: &mut Telling,
    alloc: Global,
    hasher: RandomState,
) -> Result<Connection<MemStore>, KeepError> {
    let conn = Connection::open_in_memory(alloc)?;
    judge_on(wrong, alloc, hasher, conn, SENT)
}

/// The same, changed by a statement.
fn changed(
    wrong: &mut Telling,
    alloc: Global,
    hasher: RandomState,
    sql: &str,
) -> Result<Connection<MemStore>, KeepError> {
    let conn = sent(wrong, alloc, hasher)?;
    let mut conn = conn;
    match conn.execute_batch(sql) {
        Ok(()) => Ok(conn),
        Err(_) => {
            drop(conn);
            Err(KeepError::Disk)
        }
    }
}

/// Says if the steps of the two scripts leave other rows.
fn judge_steps(wrong: &mut Telling, alloc: Global, hasher: RandomState) -> Result<(), KeepError> {
    let mut conn = sent(wrong, alloc, hasher)?;
    judge_rows(wrong, &mut conn, SENT_ROWS);
    let mut conn = judge_on(wrong, alloc, hasher, conn, ENDED)?;
    judge_rows(wrong, &mut conn, ENDED_ROWS);
    drop(conn);
    Ok(())
}

/// Says if a broker that is opened over changed tables tells something else.
fn judge_changed(
    wrong: &mut Telling,
    alloc: Global,
    hasher: RandomState,
    sql: &str,
    want: &str,
) -> Result<(), KeepError> {
    let conn = changed(wrong, alloc, hasher, sql)?;
    let (conn, played) = play_on(alloc, hasher, conn, "")?;
    drop(conn);
    if played.told.as_str() != want {
        wrong.word(sql);
        wrong.word(" tells ");
        wrong.word(played.told.as_str());
        wrong.word("\n");
    }
    drop(played);
    Ok(())
}

/// Says that of each change, and if a message is accepted that can't be numbered.
fn judge_all(wrong: &mut Telling, alloc: Global, hasher: RandomState) -> Result<(), KeepError> {
    judge_steps(wrong, alloc, hasher)?;
    for (sql, want) in CHANGED {
        judge_changed(wrong, alloc, hasher, sql, want)?;
    }
    let conn = changed(wrong, alloc, hasher, SPENT)?;
    let conn = judge_on(wrong, alloc, hasher, conn, UNNUMBERED)?;
    drop(conn);
    Ok(())
}

/// Says if a broker's steps leave other rows in the tables than they should, or changed tables aren't refused.
pub(crate) fn judge_tables(wrong: &mut Telling, alloc: Global, hasher: RandomState) {
    if judge_all(wrong, alloc, hasher).is_err() {
        wrong.word("a store in SQL isn't made\n");
    }
}
