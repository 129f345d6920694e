//! The tables of schema 1, as a store had them before schema 2.

use sqlite::{Alter, Connection, Error};

/// The statements that make them, with the numbers of a store that keeps nothing.
const TABLES: &str = "\
CREATE TABLE meta (name TEXT PRIMARY KEY NOT NULL, n INTEGER NOT NULL) STRICT;
CREATE TABLE session (birth INTEGER PRIMARY KEY, client TEXT NOT NULL UNIQUE, expiry INTEGER NOT NULL, closed INTEGER) STRICT;
CREATE TABLE will (birth INTEGER PRIMARY KEY REFERENCES session (birth) ON DELETE CASCADE, delay INTEGER NOT NULL, topic TEXT NOT NULL, qos INTEGER NOT NULL, retain INTEGER NOT NULL, props BLOB NOT NULL, payload BLOB NOT NULL) STRICT;
CREATE TABLE sub (birth INTEGER NOT NULL REFERENCES session (birth) ON DELETE CASCADE, filter TEXT NOT NULL, place INTEGER NOT NULL, qos INTEGER NOT NULL, nolocal INTEGER NOT NULL, rap INTEGER NOT NULL, handling INTEGER NOT NULL, ident INTEGER NOT NULL, PRIMARY KEY (birth, filter)) STRICT;
CREATE TABLE inbound (birth INTEGER NOT NULL REFERENCES session (birth) ON DELETE CASCADE, ident INTEGER NOT NULL, PRIMARY KEY (birth, ident)) STRICT;
CREATE TABLE copy (birth INTEGER NOT NULL REFERENCES session (birth) ON DELETE CASCADE, place INTEGER NOT NULL, pub INTEGER NOT NULL, cause INTEGER NOT NULL, cause_text TEXT NOT NULL, cause_n INTEGER NOT NULL, pid INTEGER, phase INTEGER NOT NULL, rel INTEGER, topic TEXT NOT NULL, qos INTEGER NOT NULL, retain INTEGER NOT NULL, props BLOB NOT NULL, payload BLOB NOT NULL, arrived INTEGER NOT NULL, PRIMARY KEY (birth, place)) STRICT;
CREATE TABLE retained (place INTEGER PRIMARY KEY, topic TEXT NOT NULL UNIQUE, sender TEXT NOT NULL, pub INTEGER NOT NULL, qos INTEGER NOT NULL, props BLOB NOT NULL, payload BLOB NOT NULL, arrived INTEGER NOT NULL) STRICT;
INSERT INTO meta VALUES ('schema', 1), ('births', 0), ('publications', 0), ('subscribes', 0), ('autos', 0), ('moment', 0)
";

/// Makes them in an empty database.
pub(crate) fn create_first<S: Alter>(conn: &mut Connection<S>) -> Result<(), Error> {
    conn.execute_batch(TABLES)
}
