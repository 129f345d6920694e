//! The rows of the course in the tables, and what is found again.

use crate::broken::{Base, database_of};
use crate::changes::{LONG, SENT, STEPS};
use crate::seen::Seen;
use crate::store::{LOAD, act_over, database, found, load_whole, make};
use mqtt_keep::{Keep, KeepError, MemKeep};
use sqlite::{Alter, Connection, Error};
use std::alloc::Global;
use std::test::Fail;

/// Queries of one number, and the number, after a copy was sent.
fn sent_rows() -> &'static str {
    "\
SELECT count(*) FROM session -> 2
SELECT count(*) FROM will -> 0
SELECT count(*) FROM sub -> 1
SELECT count(*) FROM inbound -> 1
SELECT birth FROM inbound -> 2
SELECT ident FROM inbound -> 10
SELECT count(*) FROM message -> 1
SELECT count(*) FROM queued -> 1
SELECT pid FROM queued -> 1
SELECT phase FROM queued -> 1
SELECT count(*) FROM kept -> 0
SELECT count(*) FROM meta -> 6
SELECT n FROM meta WHERE name = 'schema' -> 2
SELECT n FROM meta WHERE name = 'births' -> 2
SELECT n FROM meta WHERE name = 'publications' -> 1
SELECT n FROM meta WHERE name = 'subscribes' -> 1
SELECT n FROM meta WHERE name = 'autos' -> 0
SELECT n FROM meta WHERE name = 'moment' -> 0
"
}

/// The same once a second copy waits, the first was released, and the publisher has gone.
fn released_rows() -> &'static str {
    "\
SELECT count(*) FROM session -> 2
SELECT closed FROM session WHERE birth = 2 -> 0
SELECT count(*) FROM session WHERE closed IS NULL -> 1
SELECT count(*) FROM will -> 1
SELECT delay FROM will -> 5
SELECT count(*) FROM inbound -> 0
SELECT count(*) FROM message -> 2
SELECT count(*) FROM queued -> 2
SELECT phase FROM queued WHERE place = 1 -> 2
SELECT rel FROM queued WHERE place = 1 -> 1
SELECT phase FROM queued WHERE place = 2 -> 0
SELECT count(*) FROM queued WHERE pid IS NULL -> 1
SELECT count(*) FROM kept -> 1
"
}

/// The same once the subscriber's session has ended: its rows are gone with it (4.1).
fn ended_rows() -> &'static str {
    "\
SELECT count(*) FROM session -> 1
SELECT birth FROM session -> 2
SELECT count(*) FROM will -> 0
SELECT count(*) FROM sub -> 0
SELECT count(*) FROM inbound -> 0
SELECT count(*) FROM queued -> 0
SELECT count(*) FROM message -> 1
SELECT count(*) FROM kept -> 1
SELECT n FROM meta WHERE name = 'births' -> 2
SELECT n FROM meta WHERE name = 'publications' -> 2
"
}

/// The same at the end.
fn last_rows() -> &'static str {
    "\
SELECT count(*) FROM session -> 1
SELECT count(*) FROM sub -> 0
SELECT count(*) FROM kept -> 0
SELECT count(*) FROM message -> 0
SELECT n FROM meta WHERE name = 'subscribes' -> 2
"
}

/// The same in a database that was taken over after the long course.
fn taken_rows() -> &'static str {
    "\
SELECT count(*) FROM copy -> 0
SELECT count(*) FROM retained -> 0
SELECT count(*) FROM message -> 1
SELECT pub FROM message -> 1
SELECT length(payload) FROM message -> 2
SELECT count(*) FROM queued -> 1
SELECT pid FROM queued -> 1
SELECT phase FROM queued -> 1
SELECT pub FROM queued -> 1
SELECT count(*) FROM kept -> 1
SELECT pub FROM kept -> 1
SELECT count(*) FROM will -> 1
SELECT n FROM meta WHERE name = 'schema' -> 2
SELECT n FROM meta WHERE name = 'publications' -> 1
"
}

/// The number that a query finds.
fn number<S: Alter>(conn: &mut Connection<S>, sql: &str) -> Result<i64, Error> {
    conn.query_row(sql, &[])?.get(0)
}

/// The first query that finds something else than it says; empty if none does.
fn first_wrong<S: Alter>(conn: &mut Connection<S>, queries: &'static str) -> &'static str {
    for line in queries.lines() {
        let (query, want) = line.split_once(" -> ").unwrap_or((line, ""));
        if number(conn, query).ok() != want.parse::<i64>().ok() {
            return line;
        }
    }
    ""
}

/// The first query that finds something else after so many steps of the course.
fn wrong_after(alloc: Global, steps: usize, queries: &'static str) -> Result<&'static str, Fail> {
    let mut conn = database(alloc, steps)?;
    let wrong = first_wrong(&mut conn, queries);
    drop(conn);
    Ok(wrong)
}

#[test]
fn each_step_has_its_rows(rt: HostRuntime) -> Result<(), Fail> {
    for (steps, queries) in [
        (SENT, sent_rows()),
        (8, released_rows()),
        (10, ended_rows()),
        (11, last_rows()),
    ] {
        let wrong = wrong_after(rt.alloc(), steps, queries)?;
        assert_eq!(rt; wrong, "", "after {steps} steps");
    }
    Ok(())
}

#[test]
fn a_database_of_schema_1_is_taken_over(rt: HostRuntime) -> Result<(), Fail> {
    let (told, left) = act_over(rt.alloc(), database_of(rt.alloc(), Base::First)?, LOAD);
    let ours = found(rt.alloc(), database(rt.alloc(), LONG)?);
    assert_eq!(rt; (told.limited, told.failures), ours);
    assert_eq!(rt; (told.after, told.failures), ours);
    match left {
        Ok(conn) => {
            let mut conn = conn;
            let wrong = first_wrong(&mut conn, taken_rows());
            drop(conn);
            assert_eq!(rt; wrong, "");
            Ok(())
        }
        Err(store) => {
            drop(store);
            Err(KeepError::Disk)?
        }
    }
}

/// Loads, makes so many steps, and loads again.
fn played<K: Keep>(keep: &mut K, alloc: Global, steps: usize) -> Result<Seen, KeepError> {
    let _nothing = load_whole(keep, alloc)?;
    make(keep, alloc, 0, steps)?;
    load_whole(keep, alloc)
}

/// What a store in memory finds after so many steps, and how many failures it counted.
fn found_in_memory(alloc: Global, steps: usize) -> Result<(Result<Seen, KeepError>, u64), Fail> {
    let mut keep = MemKeep::new(alloc)?;
    let answer = played(&mut keep, alloc, steps);
    let failures = keep.failures();
    drop(keep);
    Ok((answer, failures))
}

#[test]
fn what_is_found_is_what_a_store_in_memory_finds(rt: HostRuntime) -> Result<(), Fail> {
    for steps in 0..=STEPS.len() {
        let ours = found(rt.alloc(), database(rt.alloc(), steps)?);
        assert!(rt; ours.0.is_ok());
        assert_eq!(rt; ours, found_in_memory(rt.alloc(), steps)?);
    }
    Ok(())
}
