//! Databases that are made, or taken over, and are found again.

use crate::first_schema::create_first;
use crate::schema::databases::{empty, found_after};
use mqtt_store_tables::schema::{FoundStore, Making, add_tables, create_second, found_store};
use sqlite::{Alter, Connection, Error};
use std::alloc::Global;
use std::test::Fail;

/// How many rows a text shows.
fn count<S: Alter>(conn: &mut Connection<S>, text: &str) -> Result<i64, Error> {
    conn.query_row(text, &[])?.get(0)
}

/// What a database of a store that is made in it is found to be, and how many numbers it has, with
/// schema 2.
fn made(alloc: Global) -> Result<(FoundStore, i64, i64), Error> {
    let mut conn = empty(alloc)?;
    let answer = told(&mut conn);
    drop(conn);
    answer
}

fn told<S: Alter>(conn: &mut Connection<S>) -> Result<(FoundStore, i64, i64), Error> {
    if conn.is_autocommit() {
        create_second(conn)?;
    }
    let found = found_store(conn)?;
    let numbers = count(conn, "SELECT count(*) FROM meta")?;
    let schema = count(conn, "SELECT n FROM meta WHERE name = 'schema'")?;
    Ok((found, numbers, schema))
}

#[test]
fn a_new_database_is_found(rt: HostRuntime) -> Result<(), Fail> {
    let told = made(rt.alloc())?;
    assert_eq!(rt; told, (FoundStore::Second(Making::New), 6, 2));
    Ok(())
}

/// Makes the tables of schema 2 beside those of schema 1.
fn take_over<S: Alter>(conn: &mut Connection<S>) -> Result<(), Error> {
    if conn.is_autocommit() {
        let mut tx = conn.transaction();
        add_tables(&mut tx)?;
        tx.commit()?;
    }
    Ok(())
}

/// What a database of schema 1 with a row is found to be before and after it is taken over, and the
/// rows that it then has.
fn taken_over<S: Alter>(conn: &mut Connection<S>) -> Result<(FoundStore, FoundStore, i64), Error> {
    create_first(conn)?;
    let before = found_after(conn, "INSERT INTO session VALUES (1, 'r1', 0, 7)")?;
    take_over(conn)?;
    let after = found_store(conn)?;
    let rows = count(
        conn,
        "SELECT (SELECT count(*) FROM meta) + (SELECT count(*) FROM session)",
    )?;
    Ok((before, after, rows))
}

#[test]
fn a_database_that_is_taken_over_is_found(rt: HostRuntime) -> Result<(), Fail> {
    let mut conn = empty(rt.alloc())?;
    let told = taken_over(&mut conn);
    drop(conn);
    let want = (FoundStore::First, FoundStore::Second(Making::TakenOver), 7);
    assert_eq!(rt; told?, want);
    Ok(())
}

/// Makes a store where a table of that name stands, and tells what is there then.
fn made_beside<S: Alter>(conn: &mut Connection<S>) -> Result<(bool, i64), Error> {
    conn.execute_batch("CREATE TABLE kept (n INTEGER)")?;
    if !conn.is_autocommit() {
        return Ok((false, 0));
    }
    let is_refused = create_second(conn).is_err();
    let tables = count(conn, "SELECT count(*) FROM sqlite_schema")?;
    Ok((is_refused, tables))
}

#[test]
fn nothing_is_left_of_what_is_not_made(rt: HostRuntime) -> Result<(), Fail> {
    let mut conn = empty(rt.alloc())?;
    let told = made_beside(&mut conn);
    drop(conn);
    assert_eq!(rt; told?, (true, 1));
    Ok(())
}
