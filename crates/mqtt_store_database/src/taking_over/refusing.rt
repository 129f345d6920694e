//! Why a database of the tables of schema 1 is refused (4.1).
ghost use Rattle.std.specs.Prelude.{◌≡◌, IfOk, IfErr, OnOk, IsTrue};
ghost use Rattle.sqlite.specs.Held.{state};
ghost use Rattle.sqlite.specs.State.{HasCleanDisk};
ghost use Rattle.mqtt_records.specs.declared.state.records.Records.{Records};
ghost use Rattle.mqtt_keep.specs.lawful.Lawful.{IsLawful};
ghost use Rattle.mqtt_store_tables.specs.forms.Settled.{IsSettled, OnlyReads};
ghost use Rattle.mqtt_store_tables.specs.forms.Tables.{keep_schema};
ghost use Rattle.mqtt_store_database.specs.reading.Refusals.{RefusesEither};
ghost use Rattle.mqtt_store_database.specs.taking_over.Kept.{HasRecords};

use crate::reading::refusal_of;
use crate::taking_over::reading::records_in;
use mqtt_keep::KeepError;
use mqtt_records::Records;
use sqlite::{Alter, Connection};
use std::alloc::Global;

/// The records of a database that has the tables of schema 1. If its rows give none it is `Corrupt`,
/// or of another schema.
pub fn first_records_or_refusal<S: Alter>(
    alloc: Global,
    conn: &mut Connection<S>,
) -> Result<Records, KeepError>
    ensures ok { HasCleanDisk (state S.Store conn.new) → (state S.Store conn.old).now.schema ≡ keep_schema → IsSettled (state S.Store conn.old)
        → IfOk result (HasRecords (state S.Store conn.old).now.trees) }
    ensures lawful { IfOk result (λ records. IsLawful records) }
    ensures refused { HasCleanDisk (state S.Store conn.new) → (state S.Store conn.old).now.schema ≡ keep_schema
        → (IsTrue (state S.Store conn.old).is_open → IsSettled (state S.Store conn.old)) → IfErr result (RefusesEither S.Store conn.old) }
    ensures is_open { HasCleanDisk (state S.Store conn.new) → OnOk result (IsTrue (state S.Store conn.new).is_open) }
    ensures reads { OnlyReads (state S.Store conn.old) (state S.Store conn.new) }
{
    match records_in(alloc, conn) {
        Ok(records) => Ok(records),
        Err(KeepError::Corrupt) => Err(refusal_of(conn)),
        Err(fault) => Err(fault),
    }
}
