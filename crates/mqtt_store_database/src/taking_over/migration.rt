//! All that is kept by schema 1 is kept by schema 2, or nothing is changed.
ghost use Rattle.std.specs.Prelude.{◌≡◌, OnOk, OnErr, IsTrue, false};
ghost use Rattle.sqlite_catalog.specs.Listing.{Lists};
ghost use Rattle.sqlite_trees.specs.Objects.{catalog_tree};
ghost use Rattle.sqlite.specs.Held.{state};
ghost use Rattle.sqlite.specs.State.{HasCleanDisk, Survives};
ghost use Rattle.mqtt_keep.specs.lawful.Lawful.{IsLawful};
ghost use Rattle.mqtt_store_tables.specs.forms.Settled.{StaysInside};
ghost use Rattle.mqtt_store_tables.specs.schema.Tables.{second_schema};
ghost use Rattle.mqtt_store_tables.specs.declared.schema.tables.Making.TheVariants.{TakenOver};
ghost use Rattle.mqtt_store_tables.specs.statements.Content.{IsWhole, IsSettled as IsSettledFirst};
ghost use Rattle.mqtt_store_tables.specs.statements.Layout.{first_layout, second_layout};
ghost use Rattle.mqtt_store_database.specs.taking_over.Written.{KeepsRows};
ghost use Rattle.mqtt_store_database.specs.row_laws.Written.{KeepsRowsTwo};
ghost use Rattle.mqtt_store_database.specs.committing.Settled.{IsSettled};
ghost use Rattle.mqtt_store_database.specs.taking_over.Migration.{Migrates, MayMigrate, MayCommit};

use crate::taking_over::filling::put_all;
use crate::taking_over::second::make_second;
use mqtt_records::Records;
use sqlite::{Alter, Connection, Error, Transaction};
use std::alloc::Global;

/// Makes the tables of schema 2, and writes into them what those of schema 1 keep.
fn write_second<S: Alter>(
    alloc: Global,
    tx: &mut Transaction<'_, S>,
    records: &Records,
) -> Result<(), Error>
    ensures same_reference { tx.new.conn.ghost_name ≡ tx.old.conn.ghost_name }
    ensures kept { HasCleanDisk (state S.Store tx.new.conn.now) → IsWhole first_layout (state S.Store tx.old.conn.now)
        → KeepsRows (state S.Store tx.old.conn.now).now.trees records.now → IsLawful records.now
        → OnOk result (KeepsRowsTwo TakenOver (state S.Store tx.new.conn.now).now.trees records.now) }
    ensures lists { HasCleanDisk (state S.Store tx.new.conn.now) → IsWhole first_layout (state S.Store tx.old.conn.now)
        → KeepsRows (state S.Store tx.old.conn.now).now.trees records.now
        → OnOk result (Lists ((state S.Store tx.new.conn.now).now.trees catalog_tree) (second_schema TakenOver)) }
    ensures whole { HasCleanDisk (state S.Store tx.new.conn.now) → IsWhole first_layout (state S.Store tx.old.conn.now)
        → OnOk result (IsWhole (second_layout TakenOver) (state S.Store tx.new.conn.now)) }
    ensures inside { StaysInside (state S.Store tx.old.conn.now) (state S.Store tx.new.conn.now) }
{
    make_second(tx)?;
    put_all(alloc, tx, records)
}

/// Has a database of schema 1 that keeps these records keep them by schema 2, in one transaction: all
/// of them, or the database is as it was. A crash leaves it as it was, or with all. `OutOfMemory` for
/// want of memory, `TooBig` if SQL has no such number.
pub fn migrate<S: Alter>(
    alloc: Global,
    conn: &mut Connection<S>,
    records: &Records,
) -> Result<(), Error>
    requires { conn.old.in_transaction ≡ false }
    ensures autocommit { conn.new.in_transaction ≡ false }
    ensures ok { HasCleanDisk (state S.Store conn.new) → MayMigrate records.now (state S.Store conn.old)
        → OnOk result (Migrates records.now (state S.Store conn.old).now (state S.Store conn.new).now) }
    ensures settled { HasCleanDisk (state S.Store conn.new) → MayMigrate records.now (state S.Store conn.old)
        → OnOk result (IsSettled TakenOver (state S.Store conn.new)) }

    // What failed changed nothing, unless it shut the connection.
    ensures err { HasCleanDisk (state S.Store conn.new) → IsSettledFirst (state S.Store conn.old) → IsTrue (state S.Store conn.new).is_open
        → OnErr result (((state S.Store conn.new).now ≡ (state S.Store conn.old).now)
        × IsSettledFirst (state S.Store conn.new)) }
    ensures crash { Survives (state S.Store conn.old) (state S.Store conn.new) (MayCommit records.now (state S.Store conn.old)) }
{
    let mut tx = conn.transaction();
    match write_second(alloc, &mut tx, records) {
        Ok(()) => tx.commit(),
        Err(error) => {
            tx.rollback();
            Err(error)
        }
    }
}
