//! How the tables of schema 2 are made: beside those of schema 1, or in an empty database.
ghost use Rattle.std.specs.Prelude.{◌≡◌, ◌+◌, ◌<◌, false, OnOk, OnErr, IsTrue};
ghost use Rattle.sqlite_trees.specs.Tree.{Trees};
ghost use Rattle.sqlite.specs.Held.{state};
ghost use Rattle.sqlite.specs.State.{HasCleanDisk, Survives};
ghost use Rattle.mqtt_store_tables.specs.forms.Creation.{first, HasTables};
ghost use Rattle.mqtt_store_tables.specs.forms.Settled.{StaysInside};
ghost use Rattle.mqtt_store_tables.specs.schema.Tables.{base_of};
ghost use Rattle.mqtt_store_tables.specs.schema.Creation.{add_text, place_of, HasAdded, Adds, IsBare, IsNewSecond, MakesSecond};
ghost use Rattle.mqtt_store_tables.specs.declared.schema.tables.Making.{Making};

use crate::forms::make_tables;
use sqlite::{Alter, Connection, Error, Transaction};

/// A table or an index that schema 2 has beside those of schema 1.
#[derive(Clone, Copy, Debug, PartialEq, Eq)]
pub enum Added {
    /// A publication's topic, properties and payload.
    Message,
    /// The copies that wait in a session's queue, or are under way.
    Queued,
    /// The retained messages.
    Kept,
    /// Which copies refer to a message.
    QueuedPub,
    /// Which retained messages refer to it.
    KeptPub,
}

/// The text that adds it.
fn text_of(added: Added) -> &'static str
    ensures { result.now ≡ add_text added }
{
    match added {
        Added::Message =>
            "CREATE TABLE message (pub INTEGER PRIMARY KEY, topic TEXT NOT NULL, props BLOB NOT NULL, payload BLOB NOT NULL) STRICT",
        Added::Queued =>
            "CREATE TABLE queued (birth INTEGER NOT NULL REFERENCES session (birth) ON DELETE CASCADE, place INTEGER NOT NULL, pub INTEGER NOT NULL REFERENCES message (pub), cause INTEGER NOT NULL, cause_text TEXT NOT NULL, cause_n INTEGER NOT NULL, pid INTEGER, phase INTEGER NOT NULL, rel INTEGER, qos INTEGER NOT NULL, retain INTEGER NOT NULL, idents BLOB NOT NULL, arrived INTEGER NOT NULL, PRIMARY KEY (birth, place)) STRICT",
        Added::Kept =>
            "CREATE TABLE kept (place INTEGER PRIMARY KEY, topic TEXT NOT NULL UNIQUE, sender TEXT NOT NULL, pub INTEGER NOT NULL REFERENCES message (pub), qos INTEGER NOT NULL, arrived INTEGER NOT NULL) STRICT",
        Added::QueuedPub => "CREATE INDEX queued_pub ON queued (pub)",
        Added::KeptPub => "CREATE INDEX kept_pub ON kept (pub)",
    }
}

/// Adds one, if those before it stand.
fn add<S: Alter>(tx: &mut Transaction<'_, S>, added: Added) -> Result<usize, Error>
    ensures same_reference { tx.new.conn.ghost_name ≡ tx.old.conn.ghost_name }
    ensures made { HasCleanDisk (state S.Store tx.new.conn.now) → (making : Making) (was : Trees) → HasAdded making (place_of added) was (state S.Store tx.old.conn.now)
        → OnOk result (HasAdded making (place_of added + 1) was (state S.Store tx.new.conn.now)) }
    ensures inside { StaysInside (state S.Store tx.old.conn.now) (state S.Store tx.new.conn.now) }
{
    tx.execute(text_of(added), &[])
}

/// What is added in this place.
fn added_at(at: usize) -> Added
    requires { at < 5 }
    ensures { place_of result ≡ at }
{
    match at {
        0 => Added::Message,
        1 => Added::Queued,
        2 => Added::Kept,
        3 => Added::QueuedPub,
        _ => Added::KeptPub,
    }
}

/// Adds what schema 2 has beside schema 1, if the tables stand that it is added to. No row of
/// theirs changes.
#[tactic(auto, using(crate::proofs::schema_lemmas::Adding::none_added))]
pub fn add_tables<S: Alter>(tx: &mut Transaction<'_, S>) -> Result<(), Error>
    ensures same_reference { tx.new.conn.ghost_name ≡ tx.old.conn.ghost_name }
    ensures made { HasCleanDisk (state S.Store tx.new.conn.now) → (making : Making) → (state S.Store tx.old.conn.now).now.schema ≡ base_of making
        → IsTrue (state S.Store tx.old.conn.now).in_transaction → OnOk result (Adds making (state S.Store tx.old.conn.now) (state S.Store tx.new.conn.now)) }
    ensures inside { StaysInside (state S.Store tx.old.conn.now) (state S.Store tx.new.conn.now) }
{
    for at in 0..5 {
        add(tx, added_at(at))?;
    }
    Ok(())
}

/// Writes a new store's numbers, if all tables stand empty.
fn fill_meta<S: Alter>(tx: &mut Transaction<'_, S>) -> Result<usize, Error>
    ensures same_reference { tx.new.conn.ghost_name ≡ tx.old.conn.ghost_name }
    ensures made { HasCleanDisk (state S.Store tx.new.conn.now) → IsBare (state S.Store tx.old.conn.now)
        → OnOk result (IsNewSecond (state S.Store tx.new.conn.now).now × IsTrue (state S.Store tx.new.conn.now).in_transaction) }
    ensures inside { StaysInside (state S.Store tx.old.conn.now) (state S.Store tx.new.conn.now) }
{
    tx.execute(
        "INSERT INTO meta VALUES ('schema', 2), ('births', 0), ('publications', 0), ('subscribes', 0), ('autos', 0), ('moment', 0)",
        &[],
    )
}

/// Makes the tables in an empty database, without a row.
fn make_bare<S: Alter>(tx: &mut Transaction<'_, S>) -> Result<(), Error>
    ensures same_reference { tx.new.conn.ghost_name ≡ tx.old.conn.ghost_name }
    ensures made { HasCleanDisk (state S.Store tx.new.conn.now) → HasTables 0 (state S.Store tx.old.conn.now)
        → OnOk result (IsBare (state S.Store tx.new.conn.now)) }
    ensures inside { StaysInside (state S.Store tx.old.conn.now) (state S.Store tx.new.conn.now) }
{
    make_tables(tx, 5)?;
    add_tables(tx)
}

/// Makes all tables, and writes a new store's numbers.
fn make_all<S: Alter>(tx: &mut Transaction<'_, S>) -> Result<(), Error>
    ensures same_reference { tx.new.conn.ghost_name ≡ tx.old.conn.ghost_name }
    ensures made { HasCleanDisk (state S.Store tx.new.conn.now) → HasTables 0 (state S.Store tx.old.conn.now)
        → OnOk result (IsNewSecond (state S.Store tx.new.conn.now).now × IsTrue (state S.Store tx.new.conn.now).in_transaction) }
    ensures inside { StaysInside (state S.Store tx.old.conn.now) (state S.Store tx.new.conn.now) }
{
    make_bare(tx)?;
    fill_meta(tx)?;
    Ok(())
}

/// Makes the tables of a store of schema 2 that keeps nothing, in an empty database: all, or none.
pub fn create_second<S: Alter>(conn: &mut Connection<S>) -> Result<(), Error>
    requires autocommit { conn.old.in_transaction ≡ false }
    ensures autocommit { conn.new.in_transaction ≡ false }
    ensures ok { HasCleanDisk (state S.Store conn.new) → (state S.Store conn.old).now.schema ≡ first 0
        → OnOk result (IsNewSecond (state S.Store conn.new).now) }
    ensures committed { HasCleanDisk (state S.Store conn.new)
        → OnOk result (((state S.Store conn.new).committed ≡ (state S.Store conn.new).now) × IsTrue (state S.Store conn.new).is_open) }
    ensures err { HasCleanDisk (state S.Store conn.new) → IsTrue (state S.Store conn.new).is_open → (state S.Store conn.old).now.schema ≡ first 0
        → OnErr result (((state S.Store conn.new).now ≡ (state S.Store conn.old).committed) × ((state S.Store conn.new).committed ≡ (state S.Store conn.old).committed)) }
    ensures was_open { HasCleanDisk (state S.Store conn.new) → IsTrue (state S.Store conn.new).is_open → IsTrue (state S.Store conn.old).is_open }
    ensures crash { Survives (state S.Store conn.old) (state S.Store conn.new) (MakesSecond (state S.Store conn.old)) }
{
    let mut tx = conn.transaction();
    make_all(&mut tx)?;
    tx.commit()
}
