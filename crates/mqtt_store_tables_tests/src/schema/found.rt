//! What databases are found to be.

use crate::schema::databases::{Texts, all_texts, empty, found_after, found_with};
use mqtt_store_tables::schema::{FoundStore, Making};
use sqlite::Error;
use std::alloc::Global;
use std::test::Fail;

/// The row by which a database says that its schema is 2.
const SAYS_TWO: &str = "INSERT INTO meta VALUES ('schema', 2)";

#[test]
fn a_database_of_all_texts_is_found(rt: HostRuntime) -> Result<(), Fail> {
    let new = found_with(rt.alloc(), &all_texts(true))?;
    assert_eq!(rt; new, FoundStore::Second(Making::New));
    let taken_over = found_with(rt.alloc(), &all_texts(false))?;
    assert_eq!(rt; taken_over, FoundStore::Second(Making::TakenOver));
    Ok(())
}

/// The place of a table or index, and that of its index, if it has one; then that where schema 1 stood.
const LEFT_OUT: [(usize, usize, usize, usize); 9] = [
    (1, 12, 1, 12),
    (2, 12, 2, 12),
    (3, 12, 3, 12),
    (4, 12, 4, 12),
    (5, 12, 7, 12),
    (6, 8, 8, 10),
    (7, 9, 9, 11),
    (8, 12, 10, 12),
    (9, 12, 11, 12),
];

/// What a database is without the text in this place, and without another.
fn found_without(
    alloc: Global,
    is_new: bool,
    at: usize,
    also: usize,
    last: &'static str,
) -> Result<FoundStore, Error> {
    let left = Texts {
        at,
        also,
        last,
        ..all_texts(is_new)
    };
    found_with(alloc, &left)
}

#[test]
fn a_database_without_a_table_or_index_is_another(rt: HostRuntime) -> Result<(), Fail> {
    for (at, also, late, late_also) in LEFT_OUT {
        let new = found_without(rt.alloc(), true, at, also, SAYS_TWO)?;
        assert_eq!(rt; new, FoundStore::Broken, "{at}");
        let taken_over = found_without(rt.alloc(), false, late, late_also, SAYS_TWO)?;
        assert_eq!(rt; taken_over, FoundStore::Broken, "{late}");
    }
    // of those of schema 1 both have to stand
    for at in [5, 6] {
        let taken_over = found_without(rt.alloc(), false, at, 12, SAYS_TWO)?;
        assert_eq!(rt; taken_over, FoundStore::Broken, "{at}");
    }
    // without meta nothing says which schema it is
    let unnamed = found_without(rt.alloc(), true, 0, 12, "")?;
    assert_eq!(rt; unnamed, FoundStore::Other);
    Ok(())
}

/// Another text in the place of one of a new database's.
const OTHERS: [(usize, &str); 19] = [
    // a column that may be NULL, that is missing, that has another kind or name, that is one more
    (
        5,
        "CREATE TABLE message (pub INTEGER PRIMARY KEY, topic TEXT NOT NULL, props BLOB, payload BLOB NOT NULL) STRICT",
    ),
    (
        5,
        "CREATE TABLE message (pub INTEGER PRIMARY KEY, topic TEXT NOT NULL, payload BLOB NOT NULL) STRICT",
    ),
    (
        5,
        "CREATE TABLE message (pub INTEGER PRIMARY KEY, topic BLOB NOT NULL, props BLOB NOT NULL, payload BLOB NOT NULL) STRICT",
    ),
    (
        5,
        "CREATE TABLE message (pub INTEGER PRIMARY KEY, name TEXT NOT NULL, props BLOB NOT NULL, payload BLOB NOT NULL) STRICT",
    ),
    (
        5,
        "CREATE TABLE message (pub INTEGER PRIMARY KEY, topic TEXT NOT NULL, props BLOB NOT NULL, payload BLOB NOT NULL, more BLOB) STRICT",
    ),
    // not STRICT, another default, another order of texts, a CHECK, AUTOINCREMENT
    (
        5,
        "CREATE TABLE message (pub INTEGER PRIMARY KEY, topic TEXT NOT NULL, props BLOB NOT NULL, payload BLOB NOT NULL)",
    ),
    (
        5,
        "CREATE TABLE message (pub INTEGER PRIMARY KEY, topic TEXT NOT NULL DEFAULT 'a', props BLOB NOT NULL, payload BLOB NOT NULL) STRICT",
    ),
    (
        5,
        "CREATE TABLE message (pub INTEGER PRIMARY KEY, topic TEXT NOT NULL COLLATE NOCASE, props BLOB NOT NULL, payload BLOB NOT NULL) STRICT",
    ),
    (
        5,
        "CREATE TABLE message (pub INTEGER PRIMARY KEY, topic TEXT NOT NULL CHECK (topic <> ''), props BLOB NOT NULL, payload BLOB NOT NULL) STRICT",
    ),
    (
        5,
        "CREATE TABLE message (pub INTEGER PRIMARY KEY AUTOINCREMENT, topic TEXT NOT NULL, props BLOB NOT NULL, payload BLOB NOT NULL) STRICT",
    ),
    // no reference, or one that deletes
    (
        7,
        "CREATE TABLE kept (place INTEGER PRIMARY KEY, topic TEXT NOT NULL UNIQUE, sender TEXT NOT NULL, pub INTEGER NOT NULL, qos INTEGER NOT NULL, arrived INTEGER NOT NULL) STRICT",
    ),
    (
        7,
        "CREATE TABLE kept (place INTEGER PRIMARY KEY, topic TEXT NOT NULL UNIQUE, sender TEXT NOT NULL, pub INTEGER NOT NULL REFERENCES message (pub) ON DELETE CASCADE, qos INTEGER NOT NULL, arrived INTEGER NOT NULL) STRICT",
    ),
    (
        7,
        "CREATE TABLE kept (place INTEGER PRIMARY KEY, topic TEXT NOT NULL UNIQUE, sender TEXT NOT NULL, pub INTEGER NOT NULL REFERENCES session (birth), qos INTEGER NOT NULL, arrived INTEGER NOT NULL) STRICT",
    ),
    // a topic that isn't unique
    (
        7,
        "CREATE TABLE kept (place INTEGER PRIMARY KEY, topic TEXT NOT NULL, sender TEXT NOT NULL, pub INTEGER NOT NULL REFERENCES message (pub), qos INTEGER NOT NULL, arrived INTEGER NOT NULL) STRICT",
    ),
    // an index of another column, of one more, that keeps rows unique, that falls, that has another name
    (8, "CREATE INDEX queued_pub ON queued (place)"),
    (8, "CREATE INDEX queued_pub ON queued (pub, place)"),
    (8, "CREATE UNIQUE INDEX queued_pub ON queued (pub)"),
    (9, "CREATE INDEX kept_pub ON kept (pub DESC)"),
    (9, "CREATE INDEX by_pub ON kept (pub)"),
];

#[test]
fn a_database_with_another_table_or_index_is_another(rt: HostRuntime) -> Result<(), Fail> {
    for (at, other) in OTHERS {
        let changed = Texts {
            at,
            other,
            last: SAYS_TWO,
            ..all_texts(true)
        };
        let found = found_with(rt.alloc(), &changed)?;
        assert_eq!(rt; found, FoundStore::Broken, "{other}");
    }
    Ok(())
}

/// What stands beside the tables of schema 2, last.
const BESIDE: [&str; 3] = [
    "CREATE TABLE more (n INTEGER)",
    "CREATE INDEX session_expiry ON session (expiry)",
    "CREATE VIEW clients AS SELECT client FROM session",
];

#[test]
fn a_database_with_something_beside_is_another(rt: HostRuntime) -> Result<(), Fail> {
    for last in BESIDE {
        let more = Texts {
            last,
            ..all_texts(true)
        };
        let found = found_with(rt.alloc(), &more)?;
        // it has no row that says which schema it is
        assert_eq!(rt; found, FoundStore::Other, "{last}");
    }
    Ok(())
}

/// What makes another database, and what it is then.
const MADE: [(&str, FoundStore); 6] = [
    ("", FoundStore::Empty),
    (
        "CREATE TABLE meta (name TEXT, n INTEGER); INSERT INTO meta VALUES ('schema', 1)",
        FoundStore::Broken,
    ),
    (
        "CREATE TABLE meta (name TEXT, n INTEGER); INSERT INTO meta VALUES ('schema', 2)",
        FoundStore::Broken,
    ),
    (
        "CREATE TABLE meta (name TEXT, n INTEGER); INSERT INTO meta VALUES ('schema', 3)",
        FoundStore::Other,
    ),
    (
        "CREATE TABLE meta (name TEXT, n INTEGER); INSERT INTO meta VALUES ('schema', 2), ('schema', 2)",
        FoundStore::Other,
    ),
    ("CREATE TABLE other (n INTEGER)", FoundStore::Other),
];

#[test]
fn a_database_is_asked_for_its_schema(rt: HostRuntime) -> Result<(), Fail> {
    for (text, want) in MADE {
        let mut conn = empty(rt.alloc())?;
        let found = found_after(&mut conn, text);
        drop(conn);
        assert_eq!(rt; found?, want, "{text}");
    }
    Ok(())
}
