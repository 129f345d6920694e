//! The rows after each step, in a database that is new and in one that was taken over.

use crate::committing::changes::{
    closed, copy, no_subscription, publications, retained, session, subscription, will,
};
use crate::first_schema::create_first;
use mqtt_base::Phase;
use mqtt_records::Change;
use mqtt_store_database::committing::commit_changes;
use mqtt_store_tables::schema::{add_tables, create_second};
use sqlite::{Alter, Connection, Error, ErrorCode, MemStore};
use std::alloc::{AllocError, Global};
use std::test::Fail;

/// Makes the tables of a new store of schema 2.
fn make_new<S: Alter>(conn: &mut Connection<S>) -> Result<(), Error> {
    if conn.is_autocommit() {
        create_second(conn)?;
    }
    Ok(())
}

/// Makes those of schema 1, and the others beside them.
fn take_over<S: Alter>(conn: &mut Connection<S>) -> Result<(), Error> {
    create_first(conn)?;
    if conn.is_autocommit() {
        let mut tx = conn.transaction();
        add_tables(&mut tx)?;
        tx.commit()?;
    }
    Ok(())
}

/// A database of schema 2 in memory.
pub(crate) fn database(alloc: Global, is_new: bool) -> Result<Connection<MemStore>, Error> {
    let mut conn = Connection::open_in_memory(alloc)?;
    let made = if is_new {
        make_new(&mut conn)
    } else {
        take_over(&mut conn)
    };
    match made {
        Ok(()) => Ok(conn),
        Err(error) => {
            drop(conn);
            Err(error)
        }
    }
}

/// Two sessions come, with what they have beside their queues.
fn come(changes: &mut Vec<Change>, alloc: Global) -> Result<(), AllocError> {
    changes.push(session(alloc, 1)?)?;
    changes.push(session(alloc, 2)?)?;
    changes.push(will(alloc, 1)?)?;
    changes.push(subscription(alloc, 1)?)?;
    changes.push(Change::PutInbound {
        birth: 1,
        identifier: 10,
    })?;
    Ok(())
}

/// Publication 7 comes: each gets a copy, and it is retained.
fn publish(changes: &mut Vec<Change>, alloc: Global) -> Result<(), AllocError> {
    changes.push(publications(7))?;
    changes.push(copy(alloc, 1)?)?;
    changes.push(copy(alloc, 2)?)?;
    changes.push(retained(alloc)?)?;
    Ok(())
}

/// The copy of session 1 is sent and ends, and so does all that it has beside.
fn end(changes: &mut Vec<Change>, alloc: Global) -> Result<(), AllocError> {
    changes.push(Change::SetCopy {
        birth: 1,
        place: 1,
        phase: Phase::Sent { identifier: 3 },
    })?;
    changes.push(Change::RemoveCopy { birth: 1, place: 1 })?;
    changes.push(Change::RemoveWill { birth: 1 })?;
    changes.push(no_subscription(alloc, 1)?)?;
    changes.push(Change::RemoveInbound {
        birth: 1,
        identifier: 10,
    })?;
    changes.push(closed(alloc, 1)?)?;
    Ok(())
}

/// The retained message goes, and session 2 with its copy.
fn leave(changes: &mut Vec<Change>) -> Result<(), AllocError> {
    changes.push(Change::RemoveRetained { place: 1 })?;
    changes.push(Change::RemoveCopy { birth: 2, place: 1 })?;
    changes.push(Change::RemoveSession { birth: 2 })?;
    Ok(())
}

/// A session goes, and one comes whose birth no number of SQL is.
fn fail(changes: &mut Vec<Change>, alloc: Global) -> Result<(), AllocError> {
    changes.push(Change::RemoveSession { birth: 1 })?;
    changes.push(session(alloc, 1 << 63)?)?;
    Ok(())
}

/// The changes of a step.
fn add_changes(changes: &mut Vec<Change>, alloc: Global, step: usize) -> Result<(), AllocError> {
    match step {
        0 => come(changes, alloc),
        1 => publish(changes, alloc),
        2 => end(changes, alloc),
        3 => leave(changes),
        _ => fail(changes, alloc),
    }
}

/// Makes a step, and tells what became of it.
fn make<S: Alter>(
    alloc: Global,
    conn: &mut Connection<S>,
    step: usize,
) -> Result<Result<(), Error>, AllocError> {
    let mut changes = Vec::new(alloc);
    let added = add_changes(&mut changes, alloc, step);
    let made = if conn.is_autocommit() {
        commit_changes(alloc, conn, &changes)
    } else {
        Err(Error::InvalidQuery)
    };
    drop(changes);
    added?;
    Ok(made)
}

/// The number that a query finds.
pub(crate) fn number<S: Alter>(conn: &mut Connection<S>, sql: &str) -> Result<i64, Error> {
    conn.query_row(sql, &[])?.get(0)
}

/// Queries of one number, and the number, after each step.
const WANTED: [&str; 5] = [
    "\
SELECT count(*) FROM session -> 2
SELECT count(*) FROM will WHERE topic = 'w' -> 1
SELECT ident FROM sub -> 5
SELECT ident FROM inbound -> 10
SELECT count(*) FROM message -> 0
",
    "\
SELECT n FROM meta WHERE name = 'publications' -> 7
SELECT count(*) FROM message -> 1
SELECT count(*) FROM message WHERE topic = 'a/b' AND length(payload) = 2 AND length(props) = 1 -> 1
SELECT count(*) FROM queued -> 2
SELECT count(*) FROM queued WHERE pub = 7 AND place = 1 AND phase = 0 AND qos = 2 -> 2
SELECT count(*) FROM queued WHERE idents = x'0B050BAC02' -> 2
SELECT count(*) FROM kept WHERE topic = 'a/b' AND sender = 'p1' AND pub = 7 -> 1
",
    "\
SELECT count(*) FROM message -> 1
SELECT birth FROM queued -> 2
SELECT count(*) FROM kept -> 1
SELECT count(*) FROM will -> 0
SELECT count(*) FROM sub -> 0
SELECT count(*) FROM inbound -> 0
SELECT closed FROM session WHERE birth = 1 -> 9
",
    "\
SELECT count(*) FROM message -> 0
SELECT count(*) FROM queued -> 0
SELECT count(*) FROM kept -> 0
SELECT birth FROM session -> 1
",
    "\
SELECT birth FROM session -> 1
SELECT closed FROM session -> 9
",
];

/// The first query that finds something else than it says; empty if none does.
fn first_wrong<S: Alter>(conn: &mut Connection<S>, queries: &'static str) -> &'static str {
    for line in queries.lines() {
        let (query, want) = line.split_once(" -> ").unwrap_or((line, ""));
        if number(conn, query).ok() != want.parse::<i64>().ok() {
            return line;
        }
    }
    ""
}

/// What is wrong after each step, and what became of the last one.
fn seen(alloc: Global, is_new: bool) -> Result<([&'static str; 5], [bool; 5]), Fail> {
    let mut conn = database(alloc, is_new)?;
    let mut wrong = [""; 5];
    let mut too_big = [false; 5];
    for step in 0..5 {
        let made = make(alloc, &mut conn, step)?;
        too_big[step] = made == Err(Error::SqliteFailure(ErrorCode::TooBig));
        wrong[step] = first_wrong(&mut conn, WANTED[step]);
    }
    drop(conn);
    Ok((wrong, too_big))
}

#[test]
fn a_publication_stands_once_until_nothing_refers_to_it(rt: HostRuntime) -> Result<(), Fail> {
    for is_new in [true, false] {
        let (wrong, too_big) = seen(rt.alloc(), is_new)?;
        assert_eq!(rt; wrong, [""; 5], "in a new database: {is_new}");
        assert_eq!(rt; too_big, [false, false, false, false, true]);
    }
    Ok(())
}
