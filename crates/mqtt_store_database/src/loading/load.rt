//! A load of a database of the store, which has schema 2 from then on (4.1). It answers slim rows: of waiting copies they say
//! nothing but their topics and what rules read (3.3).
ghost use Rattle.std.specs.Prelude.{◌≡◌, false, IfOk, IfErr};
ghost use Rattle.sqlite.specs.Held.{state};
ghost use Rattle.sqlite.specs.State.{HasCleanDisk};
ghost use Rattle.mqtt_store_tables.specs.forms.Creation.{first};
ghost use Rattle.mqtt_store_tables.specs.schema.Tables.{second_schema};
ghost use Rattle.mqtt_store_database.specs.reading.Refusals.{RefusesEither};
ghost use Rattle.mqtt_store_database.specs.loading.Keeping.{FindsIn};
ghost use Rattle.mqtt_store_rows.specs.gathering.Slim.{IsSlimOf};
ghost use Rattle.mqtt_store_database.specs.loading.Loading.{IsTidy, IsOrdered, HasKept, OnlyLoads, Loads};

use crate::asking::fault_of;
use crate::reading::{begin_second, records_or_refusal};
use crate::taking_over::load_first;
use mqtt_keep::KeepError;
use mqtt_records::Records;
use mqtt_store_tables::schema::{FoundStore, Making, found_store};
use sqlite::{Alter, Connection};
use std::alloc::Global;

/// The records of a database of schema 2, made so, in slim rows.
fn load_second<S: Alter>(
    alloc: Global,
    conn: &mut Connection<S>,
    making: Making,
) -> Result<Records, KeepError>
    requires autocommit { conn.old.in_transaction ≡ false }
    requires tidy { IsTidy (state S.Store conn.old) }
    requires ordered { IsOrdered (state S.Store conn.old) }
    requires schema { HasCleanDisk (state S.Store conn.old) → (state S.Store conn.old).now.schema ≡ second_schema making }
    ensures autocommit { conn.new.in_transaction ≡ false }
    ensures loads { Loads S.Store conn.old conn.new result }
{
    // This shows that the rows obey their schema.
    let _schema = conn.schema();
    records_or_refusal(alloc, conn, making)
}

/// The records of a new store, whose tables are made in an empty database.
fn load_empty<S: Alter>(alloc: Global, conn: &mut Connection<S>) -> Result<Records, KeepError>
    requires autocommit { conn.old.in_transaction ≡ false }
    requires tidy { IsTidy (state S.Store conn.old) }
    requires ordered { IsOrdered (state S.Store conn.old) }
    requires schema { HasCleanDisk (state S.Store conn.old) → (state S.Store conn.old).now.schema ≡ first 0 }
    ensures autocommit { conn.new.in_transaction ≡ false }
    ensures loads { Loads S.Store conn.old conn.new result }
{
    begin_second(alloc, conn)
}

/// The records that a database has, in slim rows: of waiting copies they say nothing but their topics and what rules read.
/// If it is empty, the tables of a new store are made; if it has schema 1, it is taken over.
pub fn load_from<S: Alter>(alloc: Global, conn: &mut Connection<S>) -> Result<Records, KeepError>
    requires autocommit { conn.old.in_transaction ≡ false }
    requires ordered { IsOrdered (state S.Store conn.old) }
    ensures autocommit { conn.new.in_transaction ≡ false }
    ensures ordered { IsOrdered (state S.Store conn.new) }

    // What it answers are slim rows of what a load finds in the database, and what this keeps whole from then on. Whatever
    // the device returned, a store may be opened with these.
    ensures read { IfOk result (IsSlimOf (λ whole. HasCleanDisk (state S.Store conn.new)
        → FindsIn (state S.Store conn.old).now whole × HasKept (state S.Store conn.new) whole)) }

    // Why it is refused, and only then.
    ensures refused { HasCleanDisk (state S.Store conn.new) → IfErr result (RefusesEither S.Store conn.old) }

    // What the database has stays, and a crash leaves what it left before, or the same records.
    ensures loads { OnlyLoads (state S.Store conn.old) (state S.Store conn.new) }
{
    // This shows that all is committed.
    let _autocommit = conn.is_autocommit();
    match found_store(conn) {
        Ok(FoundStore::First) => load_first(alloc, conn),
        Ok(FoundStore::Second(making)) => load_second(alloc, conn, making),
        Ok(FoundStore::Empty) => load_empty(alloc, conn),
        Ok(FoundStore::Broken) => Err(KeepError::Corrupt),
        Ok(FoundStore::Other) => Err(KeepError::Schema),
        Err(error) => Err(fault_of(&error)),
    }
}
