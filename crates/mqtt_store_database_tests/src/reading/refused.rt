//! What is refused, and why.

use super::database::{after, fill, first, second};
use mqtt_keep::KeepError;
use mqtt_store_database::taking_over::first_records_or_refusal;
use mqtt_store_tables::schema::Making;
use std::test::Fail;

/// Changes after which the rows give no records, though the store says that its schema is 2, or 1.
fn broken() -> &'static [&'static str] {
    &[
        "DELETE FROM meta WHERE name = 'autos'",
        "INSERT INTO meta VALUES ('more', 1)",
        "UPDATE meta SET n = 1 WHERE name = 'schema'",
        "UPDATE session SET client = '' WHERE birth = 1",
        "UPDATE will SET qos = 3",
        "UPDATE sub SET place = 0 WHERE birth = 1",
        "INSERT INTO inbound VALUES (1, 0)",
        "INSERT INTO message VALUES (3, 'a/d', x'00', x'')",
        "UPDATE message SET props = x'' WHERE pub = 1",
        "UPDATE queued SET pub = 1 WHERE birth = 1 AND place = 2",
        "UPDATE queued SET qos = 0 WHERE birth = 2",
        "UPDATE kept SET topic = 'a/c'",
        "UPDATE kept SET place = 0",
    ]
}

/// Changes after which it says another schema, or none.
fn anothers() -> &'static [&'static str] {
    &[
        "UPDATE meta SET n = 3 WHERE name = 'schema'",
        "UPDATE meta SET n = 0 WHERE name = 'schema'",
        "DELETE FROM meta",
    ]
}

/// Rows of schema 1 in a store that was taken over.
const OLD_ROWS: [&str; 2] = [
    "INSERT INTO copy VALUES (1, 9, 2, 0, '', 0, NULL, 0, NULL, 'a/b', 1, 0, x'00', x'', 9)",
    "INSERT INTO retained VALUES (9, 'a/d', 'p1', 2, 1, x'00', x'', 9)",
];

#[test]
fn broken_rows_are_corrupt(rt: HostRuntime) -> Result<(), Fail> {
    for making in [Making::New, Making::TakenOver] {
        let mut conn = second(rt.alloc(), making)?;
        fill(&mut conn)?;
        for change in broken() {
            let found = after(rt.alloc(), &mut conn, making, change)?;
            assert_eq!(rt; found.err(), Some(KeepError::Corrupt), "{change}");
        }
        drop(conn);
    }
    Ok(())
}

#[test]
fn another_schema_is_told(rt: HostRuntime) -> Result<(), Fail> {
    for making in [Making::New, Making::TakenOver] {
        let mut conn = second(rt.alloc(), making)?;
        for change in anothers() {
            let found = after(rt.alloc(), &mut conn, making, change)?;
            assert_eq!(rt; found.err(), Some(KeepError::Schema), "{change}");
        }
        drop(conn);
    }
    Ok(())
}

#[test]
fn rows_of_schema_1_are_corrupt(rt: HostRuntime) -> Result<(), Fail> {
    let mut conn = second(rt.alloc(), Making::TakenOver)?;
    fill(&mut conn)?;
    for change in OLD_ROWS {
        let found = after(rt.alloc(), &mut conn, Making::TakenOver, change)?;
        assert_eq!(rt; found.err(), Some(KeepError::Corrupt), "{change}");
    }
    drop(conn);
    Ok(())
}

#[test]
fn a_store_of_schema_1_is_refused_alike(rt: HostRuntime) -> Result<(), Fail> {
    let mut conn = first(rt.alloc())?;
    conn.execute_batch("UPDATE meta SET n = 2 WHERE name = 'schema'")?;
    let found = first_records_or_refusal(rt.alloc(), &mut conn);
    assert_eq!(rt; found.err(), Some(KeepError::Corrupt));
    conn.execute_batch("UPDATE meta SET n = 3 WHERE name = 'schema'")?;
    let found = first_records_or_refusal(rt.alloc(), &mut conn);
    assert_eq!(rt; found.err(), Some(KeepError::Schema));
    drop(conn);
    Ok(())
}
