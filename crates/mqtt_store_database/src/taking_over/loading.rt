//! A load of a database of schema 1, which has schema 2 from then on (4.1).
ghost use Rattle.std.specs.Prelude.{◌≡◌, false};
ghost use Rattle.sqlite.specs.Held.{state};
ghost use Rattle.sqlite.specs.State.{HasCleanDisk};
ghost use Rattle.mqtt_store_tables.specs.forms.Tables.{keep_schema};
ghost use Rattle.mqtt_store_database.specs.loading.Loading.{IsTidy, IsOrdered, Loads};

use crate::asking::fault_of;
use crate::taking_over::migration::migrate;
use crate::taking_over::refusing::first_records_or_refusal;
use mqtt_keep::KeepError;
use mqtt_records::{Records, records_pass_on};
use sqlite::{Alter, Connection};
use std::alloc::Global;

/// The records of a database of schema 1, slim, which schema 2 takes over whole.
pub(crate) fn load_first<S: Alter>(
    alloc: Global,
    conn: &mut Connection<S>,
) -> Result<Records, KeepError>
    requires autocommit { conn.old.in_transaction ≡ false }
    requires tidy { IsTidy (state S.Store conn.old) }
    requires ordered { IsOrdered (state S.Store conn.old) }
    requires schema { HasCleanDisk (state S.Store conn.old) → (state S.Store conn.old).now.schema ≡ keep_schema }
    ensures autocommit { conn.new.in_transaction ≡ false }
    ensures loads { Loads S.Store conn.old conn.new result }
{
    // This shows that the rows obey their schema.
    let _schema = conn.schema();
    let mut records = match first_records_or_refusal(alloc, conn) {
        Ok(records) => records,
        Err(fault) => return Err(fault),
    };
    match migrate(alloc, conn, &records) {
        Ok(()) => {
            records_pass_on(&records);
            records.make_all_slim();
            Ok(records)
        }
        Err(error) => {
            drop(records);
            Err(fault_of(&error))
        }
    }
}
