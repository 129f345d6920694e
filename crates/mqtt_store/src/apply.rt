//! Changes of what the store has, all or none (4.1).
ghost use Rattle.std.specs.Prelude.{◌≡◌, ◌⊎◌, ◌↔◌, false, OnOk, OnErr, IfErr, IsErrOf, IsTrue};
ghost use Rattle.sqlite.specs.Held.{state};
ghost use Rattle.sqlite.specs.State.{HasCleanDisk, Survives};
ghost use Rattle.mqtt_records.specs.declared.state.records.Records.{Records as Kept};
ghost use Rattle.mqtt_records.specs.state.Contents.{FitContents};
ghost use Rattle.mqtt_records.specs.state.Records.{changed_all, FitAll};
ghost use Rattle.mqtt_store_database.specs.item_laws.Written.{AllSayable};
ghost use Rattle.mqtt_store_database.specs.loading.Loading.{IsOrdered};
ghost use Rattle.mqtt_store.specs.Holding.{Holds, Leaves, IsLoaded};

use mqtt_keep::KeepError;
use mqtt_records::Change;
use mqtt_store_database::asking::probe;
use mqtt_store_database::committing::commit_changes;
use sqlite::{Alter, Connection, Error, ErrorCode};
use std::alloc::Global;

/// What a failure of the database is to a store that is open still.
fn fault_of(error: &Error) -> KeepError
    ensures memory { (result ≡ KeepError.Memory) ↔ (error.now ≡ Error.SqliteFailure ErrorCode.OutOfMemory) }
    ensures size { (result ≡ KeepError.Size) ↔ (error.now ≡ Error.SqliteFailure ErrorCode.TooBig) }
    ensures only { (result ≡ KeepError.Memory) ⊎ ((result ≡ KeepError.Size) ⊎ (result ≡ KeepError.Disk)) }
{
    match error {
        Error::SqliteFailure(ErrorCode::OutOfMemory) => KeepError::Memory,
        Error::SqliteFailure(ErrorCode::TooBig) => KeepError::Size,
        _ => KeepError::Disk,
    }
}

/// Makes all changes, in order, or none. Want of memory and of room are told if the connection
/// is open still; else it is Disk.
pub(crate) fn apply_all<S: Alter>(
    alloc: Global,
    conn: &mut Connection<S>,
    changes: &[Change],
) -> Result<(), KeepError>
    requires autocommit { conn.old.in_transaction ≡ false }
    requires ordered { IsOrdered (state S.Store conn.old) }
    requires loaded { IsLoaded (state S.Store conn.old) }
    ensures autocommit { conn.new.in_transaction ≡ false }
    ensures ordered { IsOrdered (state S.Store conn.new) }
    ensures ok { (r : Kept) → Holds (state S.Store conn.old) r → FitAll changes.now r
        → FitContents changes.now r → AllSayable changes.now
        → OnOk result (Holds (state S.Store conn.new) (changed_all changes.now r)) }
    ensures loaded { OnOk result (IsLoaded (state S.Store conn.new)) }

    // Memory and Size leave the records before.
    ensures same { IsErrOf result KeepError.Memory ⊎ IsErrOf result KeepError.Size
        → IsLoaded (state S.Store conn.new)
        × ((r : Kept) → Holds (state S.Store conn.old) r → Holds (state S.Store conn.new) r) }

    // A crash leaves what it left before, or the records after, never some of the changes.
    ensures crash { (r left : Kept) → Holds (state S.Store conn.old) r → FitAll changes.now r
        → FitContents changes.now r → AllSayable changes.now
        → Leaves (state S.Store conn.new) left
        → Leaves (state S.Store conn.old) left ⊎ (left ≡ changed_all changes.now r) }
    ensures sound { HasCleanDisk (state S.Store conn.new) → HasCleanDisk (state S.Store conn.old) }
    ensures refused { IfErr result (λ fault. (fault ≡ KeepError.Memory)
        ⊎ ((fault ≡ KeepError.Size) ⊎ (fault ≡ KeepError.Disk))) }
{
    // This shows that the rows obey their schema.
    let _schema = conn.schema();
    let error = match commit_changes(alloc, conn, changes) {
        Ok(()) => return Ok(()),
        Err(error) => error,
    };
    match probe(conn) {
        Ok(()) => Err(fault_of(&error)),
        Err(_) => Err(KeepError::Disk),
    }
}
