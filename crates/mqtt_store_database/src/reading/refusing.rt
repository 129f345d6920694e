//! Why a database of the tables of schema 2 is refused, and what it says of its schema (4.1).
ghost use Rattle.std.specs.Prelude.{◌≡◌, ◌≢◌, ◌⊎◌, false, Some, pos, IfOk, IfErr, OnOk, IsErrOf, IsTrue, MatchBool};
ghost use Rattle.sqlite.specs.Held.{state};
ghost use Rattle.sqlite.specs.State.{HasCleanDisk};
ghost use Rattle.mqtt_records.specs.declared.state.records.Records.{Records};
ghost use Rattle.mqtt_store_tables.specs.forms.Settled.{IsSettled, OnlyReads};
ghost use Rattle.mqtt_store_tables.specs.schema.Tables.{second_schema};
ghost use Rattle.mqtt_store_tables.specs.schema.Finding.{SaysKnown, SaysUnknown};
ghost use Rattle.mqtt_store_rows.specs.gathering.Slim.{IsSlimOf};
ghost use Rattle.mqtt_store_database.specs.reading.Kept.{HasRecordsTwo};
ghost use Rattle.mqtt_store_database.specs.reading.Refusals.{RefusesEither};

use crate::asking::fault_of;
use crate::reading::loading::records_in;
use mqtt_keep::KeepError;
use mqtt_records::Records;
use mqtt_store_tables::forms::schema_said;
use mqtt_store_tables::schema::Making;
use sqlite::{Alter, Connection};
use std::alloc::Global;

/// Why a database that has no records is refused: `Corrupt` if it says that its schema is 1 or 2.
pub(crate) fn refusal_of<S: Alter>(conn: &mut Connection<S>) -> KeepError
    ensures corrupt { HasCleanDisk (state S.Store conn.new) → result ≡ KeepError.Corrupt
        → SaysKnown (state S.Store conn.old) (state S.Store conn.new) }
    ensures schema { HasCleanDisk (state S.Store conn.new) → result ≡ KeepError.Schema
        → SaysUnknown (state S.Store conn.old) (state S.Store conn.new) }
    ensures only { result ≢ KeepError.Size }
    ensures reads { OnlyReads (state S.Store conn.old) (state S.Store conn.new) }
{
    match schema_said(conn) {
        Ok(said) => {
            if said == Some(1) || said == Some(2) {
                KeepError::Corrupt
            } else {
                KeepError::Schema
            }
        }
        Err(error) => fault_of(&error),
    }
}

/// The records of a database that has the tables of schema 2, made so: slim rows. If its rows give none it is `Corrupt`, or
/// of another schema.
pub fn records_or_refusal<S: Alter>(
    alloc: Global,
    conn: &mut Connection<S>,
    making: Making,
) -> Result<Records, KeepError>
    ensures ok { IfOk result (IsSlimOf (λ whole. HasCleanDisk (state S.Store conn.new)
        → (state S.Store conn.old).now.schema ≡ second_schema making → IsSettled (state S.Store conn.old)
        → HasRecordsTwo making (state S.Store conn.old).now.trees whole)) }
    ensures refused { HasCleanDisk (state S.Store conn.new) → (state S.Store conn.old).now.schema ≡ second_schema making
        → (IsTrue (state S.Store conn.old).is_open → IsSettled (state S.Store conn.old)) → IfErr result (RefusesEither S.Store conn.old) }
    ensures is_open { HasCleanDisk (state S.Store conn.new) → OnOk result (IsTrue (state S.Store conn.new).is_open) }
    ensures reads { OnlyReads (state S.Store conn.old) (state S.Store conn.new) }
{
    match records_in(alloc, conn, making) {
        Ok(records) => Ok(records),
        Err(KeepError::Corrupt) => Err(refusal_of(conn)),
        Err(fault) => Err(fault),
    }
}
