//! Databases in memory, of each kind that a load tells apart.

use crate::first_schema::create_first;
use mqtt_store_tables::schema::create_second;
use sqlite::{Alter, Connection, Error, MemStore};
use std::alloc::Global;

/// What a database is before it is loaded.
#[derive(Clone, Copy)]
pub(crate) enum Base {
    /// It has no tables.
    Empty,
    /// It has schema 1, and a subscriber whose copy was sent, its publisher, and a retained message of the same publication.
    First,
    /// The same of schema 2.
    Second,
    /// It has a table of another program.
    Other,
}

/// Rows of the tables that both schemas have.
const SESSIONS: &str = "\
UPDATE meta SET n = 2 WHERE name = 'births';
UPDATE meta SET n = 1 WHERE name = 'publications';
UPDATE meta SET n = 1 WHERE name = 'subscribes';
INSERT INTO session VALUES (1, 'r1', 4294967295, NULL), (2, 'p1', 4294967295, NULL);
INSERT INTO sub VALUES (1, 'a/b', 1, 2, 0, 0, 0, 0)
";

/// Those of schema 1 alone.
const FIRST: &str = "\
INSERT INTO copy VALUES (1, 1, 1, 0, '', 0, 1, 1, NULL, 'a/b', 2, 0, x'00', x'6869', 0);
INSERT INTO retained VALUES (1, 'a/b', 'p1', 1, 2, x'00', x'6869', 0)
";

/// Those of schema 2 alone.
const SECOND: &str = "\
INSERT INTO message VALUES (1, 'a/b', x'00', x'6869');
INSERT INTO queued VALUES (1, 1, 1, 0, '', 0, 1, 1, NULL, 2, 0, x'', 0);
INSERT INTO kept VALUES (1, 'a/b', 'p1', 1, 2, 0)
";

/// Makes the tables in an empty database.
fn make<S: Alter>(conn: &mut Connection<S>, base: Base) -> Result<(), Error> {
    if !conn.is_autocommit() {
        return Err(Error::InvalidQuery);
    }
    match base {
        Base::Empty => Ok(()),
        Base::First => create_first(conn),
        Base::Second => create_second(conn),
        Base::Other => conn.execute_batch("CREATE TABLE book (title TEXT)"),
    }
}

/// Makes them, puts the rows, and makes a change.
fn fill<S: Alter>(conn: &mut Connection<S>, base: Base, change: &str) -> Result<(), Error> {
    make(conn, base)?;
    match base {
        Base::Empty | Base::Other => {}
        Base::First => {
            conn.execute_batch(SESSIONS)?;
            conn.execute_batch(FIRST)?;
        }
        Base::Second => {
            conn.execute_batch(SESSIONS)?;
            conn.execute_batch(SECOND)?;
        }
    }
    conn.execute_batch(change)
}

/// Such a database after a change.
pub(crate) fn database(
    alloc: Global,
    base: Base,
    change: &str,
) -> Result<Connection<MemStore>, Error> {
    let mut conn = Connection::open_in_memory(alloc)?;
    match fill(&mut conn, base, change) {
        Ok(()) => Ok(conn),
        Err(error) => {
            drop(conn);
            Err(error)
        }
    }
}
