//! Databases that texts make.

use mqtt_store_tables::schema::{FoundStore, found_store};
use sqlite::{Alter, Connection, Error, MemStore};
use std::alloc::Global;

/// The tables that both schemas have.
const SHARED: [&str; 5] = [
    "CREATE TABLE meta (name TEXT PRIMARY KEY NOT NULL, n INTEGER NOT NULL) STRICT",
    "CREATE TABLE session (birth INTEGER PRIMARY KEY, client TEXT NOT NULL UNIQUE, expiry INTEGER NOT NULL, closed INTEGER) STRICT",
    "CREATE TABLE will (birth INTEGER PRIMARY KEY REFERENCES session (birth) ON DELETE CASCADE, delay INTEGER NOT NULL, topic TEXT NOT NULL, qos INTEGER NOT NULL, retain INTEGER NOT NULL, props BLOB NOT NULL, payload BLOB NOT NULL) STRICT",
    "CREATE TABLE sub (birth INTEGER NOT NULL REFERENCES session (birth) ON DELETE CASCADE, filter TEXT NOT NULL, place INTEGER NOT NULL, qos INTEGER NOT NULL, nolocal INTEGER NOT NULL, rap INTEGER NOT NULL, handling INTEGER NOT NULL, ident INTEGER NOT NULL, PRIMARY KEY (birth, filter)) STRICT",
    "CREATE TABLE inbound (birth INTEGER NOT NULL REFERENCES session (birth) ON DELETE CASCADE, ident INTEGER NOT NULL, PRIMARY KEY (birth, ident)) STRICT",
];

/// Those of schema 1 alone.
const OLD: [&str; 2] = [
    "CREATE TABLE copy (birth INTEGER NOT NULL REFERENCES session (birth) ON DELETE CASCADE, place INTEGER NOT NULL, pub INTEGER NOT NULL, cause INTEGER NOT NULL, cause_text TEXT NOT NULL, cause_n INTEGER NOT NULL, pid INTEGER, phase INTEGER NOT NULL, rel INTEGER, topic TEXT NOT NULL, qos INTEGER NOT NULL, retain INTEGER NOT NULL, props BLOB NOT NULL, payload BLOB NOT NULL, arrived INTEGER NOT NULL, PRIMARY KEY (birth, place)) STRICT",
    "CREATE TABLE retained (place INTEGER PRIMARY KEY, topic TEXT NOT NULL UNIQUE, sender TEXT NOT NULL, pub INTEGER NOT NULL, qos INTEGER NOT NULL, props BLOB NOT NULL, payload BLOB NOT NULL, arrived INTEGER NOT NULL) STRICT",
];

/// Those of schema 2 alone, and their indexes.
const ADDED: [&str; 5] = [
    "CREATE TABLE message (pub INTEGER PRIMARY KEY, topic TEXT NOT NULL, props BLOB NOT NULL, payload BLOB NOT NULL) STRICT",
    "CREATE TABLE queued (birth INTEGER NOT NULL REFERENCES session (birth) ON DELETE CASCADE, place INTEGER NOT NULL, pub INTEGER NOT NULL REFERENCES message (pub), cause INTEGER NOT NULL, cause_text TEXT NOT NULL, cause_n INTEGER NOT NULL, pid INTEGER, phase INTEGER NOT NULL, rel INTEGER, qos INTEGER NOT NULL, retain INTEGER NOT NULL, idents BLOB NOT NULL, arrived INTEGER NOT NULL, PRIMARY KEY (birth, place)) STRICT",
    "CREATE TABLE kept (place INTEGER PRIMARY KEY, topic TEXT NOT NULL UNIQUE, sender TEXT NOT NULL, pub INTEGER NOT NULL REFERENCES message (pub), qos INTEGER NOT NULL, arrived INTEGER NOT NULL) STRICT",
    "CREATE INDEX queued_pub ON queued (pub)",
    "CREATE INDEX kept_pub ON kept (pub)",
];

/// How many texts make a new database of schema 2.
const NEW: usize = 10;

/// How many texts make one that was taken over.
const TAKEN_OVER: usize = 12;

/// The text in this place, of those that make a new database, or one that was taken over.
fn text_at(at: usize, is_new: bool) -> &'static str {
    if let Some(text) = SHARED.get(at) {
        return text;
    }
    let at = at - 5;
    if is_new {
        return ADDED.get(at).unwrap_or(&"");
    }
    match OLD.get(at) {
        Some(text) => text,
        None => ADDED.get(at.saturating_sub(2)).unwrap_or(&""),
    }
}

/// The texts that make a database.
#[derive(Clone, Copy)]
pub(crate) struct Texts {
    /// Whether it is new, or one that was taken over.
    pub(crate) is_new: bool,
    /// In this place another text stands; an empty one is left out.
    pub(crate) at: usize,
    pub(crate) other: &'static str,
    /// This one is left out, too.
    pub(crate) also: usize,
    /// One behind all others.
    pub(crate) last: &'static str,
}

/// The texts of a new database, or of one that was taken over.
pub(crate) fn all_texts(is_new: bool) -> Texts {
    Texts {
        is_new,
        at: TAKEN_OVER,
        other: "",
        also: TAKEN_OVER,
        last: "",
    }
}

/// The text in this place of a database.
fn chosen(texts: &Texts, at: usize) -> &'static str {
    if at == texts.at {
        texts.other
    } else if at == texts.also {
        ""
    } else {
        text_at(at, texts.is_new)
    }
}

/// Makes a database by the texts.
fn make<S: Alter>(conn: &mut Connection<S>, texts: &Texts) -> Result<(), Error> {
    let count = if texts.is_new { NEW } else { TAKEN_OVER };
    for at in 0..count {
        conn.execute_batch(chosen(texts, at))?;
    }
    Ok(())
}

/// An empty database in memory.
pub(crate) fn empty(alloc: Global) -> Result<Connection<MemStore>, Error> {
    Ok(Connection::open_in_memory(alloc)?)
}

/// What a database is found to be, once a text has changed it.
pub(crate) fn found_after<S: Alter>(
    conn: &mut Connection<S>,
    text: &str,
) -> Result<FoundStore, Error> {
    conn.execute_batch(text)?;
    found_store(conn)
}

/// The same, once the texts have made it.
fn found_over<S: Alter>(conn: &mut Connection<S>, texts: &Texts) -> Result<FoundStore, Error> {
    make(conn, texts)?;
    found_after(conn, texts.last)
}

/// What a database in memory is found to be that the texts make.
pub(crate) fn found_with(alloc: Global, texts: &Texts) -> Result<FoundStore, Error> {
    let mut conn = empty(alloc)?;
    let found = found_over(&mut conn, texts);
    drop(conn);
    found
}
