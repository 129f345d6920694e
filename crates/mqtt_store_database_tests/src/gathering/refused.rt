//! Rows that say no messages by their numbers, or no records.

use super::database::{database, message_rows, queued_rows, slim_in, slim_of, tables, take_all};
use mqtt_keep::KeepError;
use mqtt_store_rows::gathering::GatheredMessages;
use sqlite::Row;
use std::alloc::{AllocError, Global};
use std::test::Fail;

/// Changes after which a row of `message` says nothing: of one that only copies refer to, of one that is
/// retained too, and of one that is retained alone.
fn broken() -> &'static [&'static str] {
    &[
        "UPDATE message SET pub = 0 WHERE pub = 1",
        "UPDATE message SET topic = CAST(x'ff' AS TEXT) WHERE pub = 1",
        "UPDATE message SET props = x'' WHERE pub = 1",
        "UPDATE message SET props = x'03230001' WHERE pub = 2",
        "UPDATE message SET props = x'' WHERE pub = 3",
    ]
}

/// Changes after which rows say messages, but no records with them.
fn unfit() -> &'static [&'static str] {
    &[
        "INSERT INTO message VALUES (4, 'a/b', x'00', x'')",
        "DELETE FROM message WHERE pub = 1",
        "DELETE FROM message WHERE pub = 3",
        "DELETE FROM kept WHERE pub = 3",
        "DELETE FROM queued WHERE pub = 1",
        "UPDATE kept SET topic = 'a/c' WHERE pub = 3",
        "UPDATE kept SET pub = 0 WHERE pub = 3",
        "UPDATE meta SET n = 2 WHERE name = 'publications'",
        "UPDATE meta SET n = 1 WHERE name = 'schema'",
    ]
}

/// Whether these rows say messages by their numbers.
fn say_messages(alloc: Global, rows: &[Row]) -> Result<bool, AllocError> {
    let mut gathered = GatheredMessages::new(alloc, &[])?;
    take_all(&mut gathered, rows)?;
    Ok(gathered.into_messages().is_some())
}

#[test]
fn broken_rows_say_no_messages(rt: HostRuntime) -> Result<(), Fail> {
    let alloc = rt.alloc();
    for change in broken() {
        let mut conn = database(alloc, change)?;
        let rows = message_rows(&mut conn)?;
        let found = slim_in(alloc, &mut conn)?;
        drop(conn);
        // Sound rows follow those that are broken, but for the last.
        assert!(rt; !say_messages(alloc, &rows)?, "{change}");
        assert_eq!(rt; found.err(), Some(KeepError::Corrupt), "{change}");
    }
    Ok(())
}

#[test]
fn messages_without_records_are_corrupt(rt: HostRuntime) -> Result<(), Fail> {
    let alloc = rt.alloc();
    for change in unfit() {
        let mut conn = database(alloc, change)?;
        let rows = message_rows(&mut conn)?;
        let found = slim_in(alloc, &mut conn)?;
        drop(conn);
        assert!(rt; say_messages(alloc, &rows)?, "{change}");
        assert_eq!(rt; found.err(), Some(KeepError::Corrupt), "{change}");
    }
    Ok(())
}

#[test]
fn numbers_rise(rt: HostRuntime) -> Result<(), Fail> {
    let alloc = rt.alloc();
    let mut conn = database(alloc, "")?;
    let rows = message_rows(&mut conn)?;
    let falling = conn.query_all("SELECT * FROM message ORDER BY pub DESC", &[])?;
    let queued = queued_rows(&mut conn)?;
    let tables = tables(&mut conn)?;
    drop(conn);
    assert!(rt; say_messages(alloc, &rows)?);
    assert!(rt; !say_messages(alloc, &falling)?, "a number falls");
    let found = slim_of(alloc, &falling, &queued, &tables);
    assert_eq!(rt; found.err(), Some(KeepError::Corrupt));
    Ok(())
}

#[test]
fn a_number_comes_once(rt: HostRuntime) -> Result<(), Fail> {
    let alloc = rt.alloc();
    let mut conn = database(alloc, "")?;
    let rows = message_rows(&mut conn)?;
    drop(conn);
    let Some(last) = rows.get(2..) else {
        panic!(rt; "no row");
    };
    let mut gathered = GatheredMessages::new(alloc, &[])?;
    take_all(&mut gathered, &rows)?;
    take_all(&mut gathered, last)?;
    assert!(rt; gathered.into_messages().is_none());
    Ok(())
}

#[test]
fn rows_behind_a_broken_one_are_taken_in(rt: HostRuntime) -> Result<(), Fail> {
    let alloc = rt.alloc();
    let mut conn = database(alloc, "UPDATE message SET props = x'' WHERE pub = 2")?;
    let rows = message_rows(&mut conn)?;
    drop(conn);
    let (Some(first), Some(both)) = (rows.get(..1), rows.get(..2)) else {
        panic!(rt; "no rows");
    };
    assert!(rt; say_messages(alloc, first)?, "the first is sound");
    assert!(rt; !say_messages(alloc, both)?, "the second is not");
    assert!(rt; !say_messages(alloc, &rows)?, "the third does not mend it");
    Ok(())
}
