//! The tables of schema 2 beside those of schema 1, before a row is put into them.
ghost use Rattle.std.specs.Prelude.{◌≡◌, true, OnOk};
ghost use Rattle.sqlite_catalog.specs.Listing.{Lists};
ghost use Rattle.sqlite_trees.specs.Objects.{catalog_tree};
ghost use Rattle.sqlite.specs.Held.{Held, state};
ghost use Rattle.sqlite.specs.State.{HasCleanDisk};
ghost use Rattle.mqtt_records.specs.declared.state.records.Records.{Records};
ghost use Rattle.mqtt_store_tables.specs.forms.Settled.{StaysInside};
ghost use Rattle.mqtt_store_tables.specs.schema.Creation.{Adds};
ghost use Rattle.mqtt_store_tables.specs.schema.Tables.{second_schema};
ghost use Rattle.mqtt_store_tables.specs.declared.schema.tables.Making.TheVariants.{TakenOver};
ghost use Rattle.mqtt_store_tables.specs.statements.Content.{IsWhole};
ghost use Rattle.mqtt_store_tables.specs.statements.Layout.{first_layout, second_layout};
ghost use Rattle.mqtt_store_tables.specs.statements.Removal.{RemovesFrom};
ghost use Rattle.mqtt_store_tables.specs.statements.Writing.{Writes};
ghost use Rattle.mqtt_store_database.specs.taking_over.Written.{KeepsRows};
ghost use Rattle.mqtt_store_database.specs.row_laws.Written.{KeepsRowsTwo};
ghost use Rattle.mqtt_store_database.specs.taking_over.Puts.{emptied};

use mqtt_store_tables::schema::add_tables;
use mqtt_store_tables::statements::set_number;
use sqlite::{Alter, Error, Transaction};

/// Empties the table of copies of schema 1, once the tables of schema 2 are added.
fn empty_copies<S: Alter>(tx: &mut Transaction<'_, S>) -> Result<usize, Error>
    ensures same_reference { tx.new.conn.ghost_name ≡ tx.old.conn.ghost_name }
    ensures emptied { HasCleanDisk (state S.Store tx.new.conn.now) → (was : Held S) → IsWhole first_layout (state S.Store was) → Adds TakenOver (state S.Store was) (state S.Store tx.old.conn.now)
        → OnOk result (RemovesFrom (second_layout TakenOver) 9 (λ _. true) (state S.Store tx.old.conn.now).now.trees (state S.Store tx.new.conn.now).now.trees)
        × OnOk result (IsWhole (second_layout TakenOver) (state S.Store tx.new.conn.now)) }
    ensures inside { StaysInside (state S.Store tx.old.conn.now) (state S.Store tx.new.conn.now) }
{
    tx.execute("DELETE FROM copy", &[])
}

/// Empties that of retained messages.
fn empty_retained<S: Alter>(tx: &mut Transaction<'_, S>) -> Result<usize, Error>
    ensures same_reference { tx.new.conn.ghost_name ≡ tx.old.conn.ghost_name }
    ensures emptied { Writes S.Store tx.old.conn.now tx.new.conn.now result (IsWhole (second_layout TakenOver))
        (RemovesFrom (second_layout TakenOver) 11 (λ _. true)) }
    ensures lists { HasCleanDisk (state S.Store tx.new.conn.now) → IsWhole (second_layout TakenOver) (state S.Store tx.old.conn.now)
        → OnOk result (Lists ((state S.Store tx.new.conn.now).now.trees catalog_tree) (second_schema TakenOver)) }
    ensures inside { StaysInside (state S.Store tx.old.conn.now) (state S.Store tx.new.conn.now) }
{
    tx.execute("DELETE FROM retained", &[])
}

/// Empties both, and sets the number of the schema.
fn empty_first<S: Alter>(tx: &mut Transaction<'_, S>) -> Result<(), Error>
    ensures same_reference { tx.new.conn.ghost_name ≡ tx.old.conn.ghost_name }
    ensures kept { HasCleanDisk (state S.Store tx.new.conn.now) → (was : Held S) (r : Records) → IsWhole first_layout (state S.Store was) → KeepsRows (state S.Store was).now.trees r
        → Adds TakenOver (state S.Store was) (state S.Store tx.old.conn.now)
        → OnOk result (KeepsRowsTwo TakenOver (state S.Store tx.new.conn.now).now.trees (emptied r)) }
    ensures lists { HasCleanDisk (state S.Store tx.new.conn.now) → (was : Held S) (r : Records) → IsWhole first_layout (state S.Store was) → KeepsRows (state S.Store was).now.trees r
        → Adds TakenOver (state S.Store was) (state S.Store tx.old.conn.now)
        → OnOk result (Lists ((state S.Store tx.new.conn.now).now.trees catalog_tree) (second_schema TakenOver)) }
    ensures whole { HasCleanDisk (state S.Store tx.new.conn.now) → (was : Held S) → IsWhole first_layout (state S.Store was) → Adds TakenOver (state S.Store was) (state S.Store tx.old.conn.now)
        → OnOk result (IsWhole (second_layout TakenOver) (state S.Store tx.new.conn.now)) }
    ensures inside { StaysInside (state S.Store tx.old.conn.now) (state S.Store tx.new.conn.now) }
{
    empty_copies(tx)?;
    empty_retained(tx)?;
    set_number(tx, "schema", 2)?;
    Ok(())
}

/// Makes the tables of schema 2 of those of schema 1. What they keep is without copies and retained
/// messages.
pub(crate) fn make_second<S: Alter>(tx: &mut Transaction<'_, S>) -> Result<(), Error>
    ensures same_reference { tx.new.conn.ghost_name ≡ tx.old.conn.ghost_name }
    ensures kept { HasCleanDisk (state S.Store tx.new.conn.now) → (r : Records) → IsWhole first_layout (state S.Store tx.old.conn.now) → KeepsRows (state S.Store tx.old.conn.now).now.trees r
        → OnOk result (KeepsRowsTwo TakenOver (state S.Store tx.new.conn.now).now.trees (emptied r)) }
    ensures lists { HasCleanDisk (state S.Store tx.new.conn.now) → (r : Records) → IsWhole first_layout (state S.Store tx.old.conn.now) → KeepsRows (state S.Store tx.old.conn.now).now.trees r
        → OnOk result (Lists ((state S.Store tx.new.conn.now).now.trees catalog_tree) (second_schema TakenOver)) }
    ensures whole { HasCleanDisk (state S.Store tx.new.conn.now) → IsWhole first_layout (state S.Store tx.old.conn.now)
        → OnOk result (IsWhole (second_layout TakenOver) (state S.Store tx.new.conn.now)) }
    ensures inside { StaysInside (state S.Store tx.old.conn.now) (state S.Store tx.new.conn.now) }
{
    add_tables(tx)?;
    empty_first(tx)
}
