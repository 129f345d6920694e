//! All changes of a step, or none.
ghost use Rattle.std.specs.Prelude.{◌≡◌, OnOk, OnErr, IsTrue, false};
ghost use Rattle.sqlite.specs.Held.{state};
ghost use Rattle.sqlite.specs.State.{HasCleanDisk, Survives};
ghost use Rattle.mqtt_store_tables.specs.forms.Settled.{StaysInside};
ghost use Rattle.mqtt_store_tables.specs.declared.schema.tables.Making.{Making};
ghost use Rattle.mqtt_store_tables.specs.statements.Layout.{second_layout};
ghost use Rattle.mqtt_store_tables.specs.statements.Writing.{WritesIf, StaysWhole};
ghost use Rattle.mqtt_store_tables.specs.messages.Messages.{StandsIf};
ghost use Rattle.mqtt_store_database.specs.written.Making.{MakesUnless, NeedsUnless};
ghost use Rattle.mqtt_store_database.specs.written.Shortened.{shortened};
ghost use Rattle.mqtt_store_database.specs.committing.Parts.{ArePartsOf};
ghost use Rattle.mqtt_store_database.specs.committing.Making.{Makes, Needs, MakeAll, NeedAll, MayCommit, publication_in};
ghost use Rattle.mqtt_store_database.specs.committing.Settled.{IsSettled};
ghost use Rattle.mqtt_store_database.specs.committing.Together.{known_unless};

use crate::committing::change::table_change_of;
use crate::committing::parts::{Parts, parts_of};
use crate::committing::together::write_behind;
use crate::written::{Known, goes_by, known_behind};
use mqtt_records::Change;
use mqtt_store_tables::messages::{change_knowing, is_sized};
use sqlite::{Alter, Connection, Error, ErrorCode, Transaction};
use std::alloc::Global;

/// Writes what a change says, whose parts these are, if a message of the publication that is named
/// stands. `TooBig` if SQL has no such number.
fn write_parts<S: Alter>(
    alloc: Global,
    tx: &mut Transaction<'_, S>,
    known: Option<u64>,
    change: &Change,
    parts: &Parts,
) -> Result<(), Error>
    requires { ArePartsOf change.now parts.now }
    ensures same_reference { tx.new.conn.ghost_name ≡ tx.old.conn.ghost_name }
    ensures made { (making : Making) → WritesIf (second_layout making) S.Store tx.old.conn.now tx.new.conn.now result
        (λ db. StandsIf making known db × Needs making change.now db) (Makes making change.now) }
    ensures whole { (making : Making) → StaysWhole (second_layout making) S.Store tx.old.conn.now tx.new.conn.now result }
    ensures inside { StaysInside (state S.Store tx.old.conn.now) (state S.Store tx.new.conn.now) }
{
    let it = table_change_of(change, parts);
    if !is_sized(&it) {
        return Err(Error::SqliteFailure(ErrorCode::TooBig));
    }
    change_knowing(alloc, tx, known, &it)
}

/// Writes what a change says, if a message of the publication that is named stands.
fn write_knowing<S: Alter>(
    alloc: Global,
    tx: &mut Transaction<'_, S>,
    known: Option<u64>,
    change: &Change,
) -> Result<(), Error>
    ensures same_reference { tx.new.conn.ghost_name ≡ tx.old.conn.ghost_name }
    ensures made { (making : Making) → WritesIf (second_layout making) S.Store tx.old.conn.now tx.new.conn.now result
        (λ db. StandsIf making known db × Needs making change.now db) (Makes making change.now) }
    ensures whole { (making : Making) → StaysWhole (second_layout making) S.Store tx.old.conn.now tx.new.conn.now result }
    ensures inside { StaysInside (state S.Store tx.old.conn.now) (state S.Store tx.new.conn.now) }
{
    match parts_of(alloc, change) {
        Ok(parts) => {
            let written = write_parts(alloc, tx, known, change, &parts);
            drop(parts);
            written
        }
        Err(_) => Err(Error::SqliteFailure(ErrorCode::OutOfMemory)),
    }
}

/// Writes what one change says, in a transaction that is under way. `OutOfMemory` for want of memory,
/// `TooBig` if SQL has no such number.
pub fn write_change<S: Alter>(
    alloc: Global,
    tx: &mut Transaction<'_, S>,
    change: &Change,
) -> Result<(), Error>
    ensures same_reference { tx.new.conn.ghost_name ≡ tx.old.conn.ghost_name }
    ensures made { (making : Making) → WritesIf (second_layout making) S.Store tx.old.conn.now tx.new.conn.now result
        (Needs making change.now) (Makes making change.now) }
    ensures whole { (making : Making) → StaysWhole (second_layout making) S.Store tx.old.conn.now tx.new.conn.now result }
    ensures inside { StaysInside (state S.Store tx.old.conn.now) (state S.Store tx.new.conn.now) }
{
    write_knowing(alloc, tx, None, change)
}

/// Writes what a change says, unless its row goes with its session, if a message of the publication
/// that is named stands.
fn write_unless<S: Alter>(
    alloc: Global,
    tx: &mut Transaction<'_, S>,
    goes: bool,
    known: Option<u64>,
    change: &Change,
) -> Result<(), Error>
    ensures same_reference { tx.new.conn.ghost_name ≡ tx.old.conn.ghost_name }
    ensures made { (making : Making) → WritesIf (second_layout making) S.Store tx.old.conn.now tx.new.conn.now result
        (λ db. StandsIf making known db × NeedsUnless goes (Needs making change.now) db) (MakesUnless goes (Makes making change.now)) }
    ensures whole { (making : Making) → StaysWhole (second_layout making) S.Store tx.old.conn.now tx.new.conn.now result }
    ensures inside { StaysInside (state S.Store tx.old.conn.now) (state S.Store tx.new.conn.now) }
{
    if goes {
        Ok(())
    } else {
        write_knowing(alloc, tx, known, change)
    }
}

/// The publication of the copy that a change puts: its message stands behind it.
fn publication_put(change: &Change) -> Option<u64>
    ensures { result ≡ publication_in change.now }
{
    match change {
        Change::PutCopy { birth: _, row } => Some(row.get().id().publication),
        _ => None,
    }
}

/// What is known of the changes to come: nothing if a copy was put, behind which others may be.
fn known_unless(known: Option<Known>, put: Option<u64>) -> Option<Known>
    ensures { result ≡ known_unless known put }
{
    match put {
        Some(_) => None,
        None => known,
    }
}

/// Writes what changes say, one after the other, but for copies that go with their session. The
/// message of copies that are put one behind the other is put with the first, and they are put four
/// at a time.
fn write_changes<S: Alter>(
    alloc: Global,
    tx: &mut Transaction<'_, S>,
    changes: &[Change],
) -> Result<(), Error>
    ensures same_reference { tx.new.conn.ghost_name ≡ tx.old.conn.ghost_name }
    ensures made { (making : Making) → WritesIf (second_layout making) S.Store tx.old.conn.now tx.new.conn.now result
        (NeedAll making (shortened changes.now)) (MakeAll making (shortened changes.now)) }
    ensures whole { (making : Making) → StaysWhole (second_layout making) S.Store tx.old.conn.now tx.new.conn.now result }
    ensures inside { StaysInside (state S.Store tx.old.conn.now) (state S.Store tx.new.conn.now) }
{
    let mut rest = changes;
    let mut known = None;
    let mut stands = None;
    while let Some((change, after)) = rest.split_first() {
        known = known_behind(known, change, after);
        write_unless(alloc, tx, goes_by(known), stands, change)?;
        stands = publication_put(change);
        known = known_unless(known, stands);
        rest = write_behind(alloc, tx, stands, after)?;
    }
    Ok(())
}

/// Makes all changes one transaction in a database of schema 2, however it came by it: all are committed,
/// or none; copies that are removed just before their session go with it, and are not written. A crash
/// leaves the tables before or after. `OutOfMemory` for want of memory, `TooBig` if SQL has no such number.
pub fn commit_changes<S: Alter>(
    alloc: Global,
    conn: &mut Connection<S>,
    changes: &[Change],
) -> Result<(), Error>
    requires { conn.old.in_transaction ≡ false }
    ensures autocommit { conn.new.in_transaction ≡ false }
    ensures ok { (making : Making) → HasCleanDisk (state S.Store conn.new) → IsSettled making (state S.Store conn.old)
        → NeedAll making (shortened changes.now) (state S.Store conn.old).now.trees
        → OnOk result (MakeAll making (shortened changes.now) (state S.Store conn.old).now.trees (state S.Store conn.new).now.trees) }
    ensures settled { (making : Making) → HasCleanDisk (state S.Store conn.new) → IsSettled making (state S.Store conn.old)
        → OnOk result (IsSettled making (state S.Store conn.new)) }

    // What failed changed nothing, unless it shut the connection.
    ensures err { (making : Making) → HasCleanDisk (state S.Store conn.new) → IsSettled making (state S.Store conn.old) → IsTrue (state S.Store conn.new).is_open
        → OnErr result (((state S.Store conn.new).now ≡ (state S.Store conn.old).now)
        × IsSettled making (state S.Store conn.new)) }
    ensures crash { (making : Making) → Survives (state S.Store conn.old) (state S.Store conn.new) (MayCommit making (state S.Store conn.old) (shortened changes.now)) }
{
    let mut tx = conn.transaction();
    match write_changes(alloc, &mut tx, changes) {
        Ok(()) => tx.commit(),
        Err(error) => {
            tx.rollback();
            Err(error)
        }
    }
}
