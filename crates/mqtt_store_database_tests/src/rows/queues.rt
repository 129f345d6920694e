//! Which rows are taken for the queue of a session.

use super::database::{database, message_rows, messages_of};
use mqtt_base::QUEUE_LIMIT;
use mqtt_keep::KeepError;
use mqtt_records::{Boxed, CopyRow, RetainedMessage};
use mqtt_store_rows::rows::{Messages, all_with, part_with};
use sqlite::{Alter, Connection, Row};
use std::alloc::Global;
use std::collections::VecDeque;
use std::test::Fail;

/// The messages that a database has.
fn messages_in<S: Alter>(alloc: Global, conn: &mut Connection<S>) -> Result<Messages, Fail> {
    let rows = message_rows(conn)?;
    Ok(messages_of(alloc, &rows)?)
}

/// Rows in the order that a query gives.
fn rows_by<S: Alter>(conn: &mut Connection<S>, query: &str) -> Result<VecDeque<Row>, Fail> {
    Ok(VecDeque::from_vec(conn.query_all(query, &[])?))
}

/// How many copies a session's queue has, whose rows are taken off these, and how many rows are left.
fn taken(
    alloc: Global,
    messages: &Messages,
    birth: u64,
    rows: &mut VecDeque<Row>,
) -> Result<(usize, usize), KeepError> {
    let queue = part_with::<Boxed<CopyRow>, QUEUE_LIMIT>(alloc, messages, birth, rows)?;
    let copies = queue.len();
    drop(queue);
    Ok((copies, rows.len()))
}

#[test]
fn rows_of_a_session_are_taken(rt: HostRuntime) -> Result<(), Fail> {
    let alloc = rt.alloc();
    let mut conn = database(alloc)?;
    let messages = messages_in(alloc, &mut conn)?;
    let mut rows = rows_by(&mut conn, "SELECT * FROM queued ORDER BY birth, place")?;
    drop(conn);
    assert_eq!(rt; rows.len(), 3);
    // rows of another stay
    assert_eq!(rt; taken(alloc, &messages, 2, &mut rows)?, (0, 3));
    assert_eq!(rt; taken(alloc, &messages, 1, &mut rows)?, (2, 1));
    assert_eq!(rt; taken(alloc, &messages, 1, &mut rows)?, (0, 1));
    assert_eq!(rt; taken(alloc, &messages, 2, &mut rows)?, (1, 0));
    assert_eq!(rt; taken(alloc, &messages, 2, &mut rows)?, (0, 0));
    drop(rows);
    drop(messages);
    Ok(())
}

#[test]
fn a_row_of_another_ends_a_queue(rt: HostRuntime) -> Result<(), Fail> {
    let alloc = rt.alloc();
    let mut conn = database(alloc)?;
    let messages = messages_in(alloc, &mut conn)?;
    // places 1 and 2 of session 1, with that of session 2 between
    let mut rows = rows_by(&mut conn, "SELECT * FROM queued ORDER BY place, birth")?;
    drop(conn);
    assert_eq!(rt; taken(alloc, &messages, 1, &mut rows)?, (1, 2));
    assert_eq!(rt; taken(alloc, &messages, 1, &mut rows)?, (0, 2));
    assert_eq!(rt; taken(alloc, &messages, 2, &mut rows)?, (1, 1));
    assert_eq!(rt; taken(alloc, &messages, 1, &mut rows)?, (1, 0));
    drop(rows);
    drop(messages);
    Ok(())
}

#[test]
fn places_ascend(rt: HostRuntime) -> Result<(), Fail> {
    let alloc = rt.alloc();
    let mut conn = database(alloc)?;
    let messages = messages_in(alloc, &mut conn)?;
    // the second falls below the first, or is equal
    for (birth, query) in [
        (
            1,
            "SELECT * FROM queued WHERE birth = 1 ORDER BY place DESC",
        ),
        (
            2,
            "SELECT a.* FROM queued a JOIN queued b WHERE a.birth = 2 AND b.birth = 1",
        ),
    ] {
        let mut rows = rows_by(&mut conn, query)?;
        let found = taken(alloc, &messages, birth, &mut rows);
        assert_eq!(rt; found, Err(KeepError::Corrupt), "{query}");
        drop(rows);
    }
    drop(messages);
    drop(conn);
    Ok(())
}

#[test]
fn there_are_no_more_than_may_be(rt: HostRuntime) -> Result<(), Fail> {
    let alloc = rt.alloc();
    let mut conn = database(alloc)?;
    let messages = messages_in(alloc, &mut conn)?;
    let query = "SELECT * FROM queued WHERE birth = 1 ORDER BY place";
    let mut rows = rows_by(&mut conn, query)?;
    let few = part_with::<Boxed<CopyRow>, 1>(alloc, &messages, 1, &mut rows);
    assert_eq!(rt; few.err(), Some(KeepError::Corrupt));
    drop(rows);
    let mut rows = rows_by(&mut conn, query)?;
    let two = part_with::<Boxed<CopyRow>, 2>(alloc, &messages, 1, &mut rows)?;
    assert_eq!(rt; (two.len(), rows.len()), (2, 0));
    drop(two);
    drop(rows);
    let kept = conn.query_all("SELECT * FROM kept", &[])?;
    drop(conn);
    let none = all_with::<Boxed<RetainedMessage>, 0>(alloc, &messages, &kept);
    assert_eq!(rt; none.err(), Some(KeepError::Corrupt));
    let one = all_with::<Boxed<RetainedMessage>, 1>(alloc, &messages, &kept)?;
    assert_eq!(rt; one.len(), 1);
    drop(one);
    drop(messages);
    Ok(())
}
