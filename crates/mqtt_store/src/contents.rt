//! What copies in queues say, read back from the store (3.3, 4.1).
ghost use Rattle.std.specs.Prelude.{◌≡◌, ◌⊎◌, false, IfOk, IfErr, OnOk, IsErrOf};
ghost use Rattle.sqlite.specs.Held.{state};
ghost use Rattle.sqlite.specs.State.{HasCleanDisk};
ghost use Rattle.mqtt_records.specs.declared.state.records.Records.{Records as Kept};
ghost use Rattle.mqtt_records.specs.state.Telling.{contents_from};
ghost use Rattle.mqtt_store_database.specs.loading.Loading.{IsOrdered};
ghost use Rattle.mqtt_store.specs.Holding.{Holds, Leaves, IsLoaded};

use mqtt_keep::KeepError;
use mqtt_records::CopyContent;
use mqtt_store_database::asking::probe;
use mqtt_store_database::telling::contents_in;
use sqlite::{Alter, Connection};
use std::alloc::Global;

/// What the first copies in a session's queue say from a place on, at most so many. Want of memory is told if the
/// connection is open still; a birth or a place that SQL hasn't, and all else, is Disk.
pub(crate) fn read_contents<S: Alter>(
    alloc: Global,
    conn: &mut Connection<S>,
    birth: u64,
    place: u64,
    limit: u32,
) -> Result<Vec<CopyContent>, KeepError>
    requires autocommit { conn.old.in_transaction ≡ false }
    requires ordered { IsOrdered (state S.Store conn.old) }
    requires loaded { IsLoaded (state S.Store conn.old) }
    ensures autocommit { conn.new.in_transaction ≡ false }
    ensures ordered { IsOrdered (state S.Store conn.new) }
    ensures exact { (r : Kept) → Holds (state S.Store conn.old) r
        → IfOk result (λ all. HasCleanDisk (state S.Store conn.new)
        → all.items ≡ contents_from birth place limit r) }

    // What the database has stays, and a crash finds nothing else than before.
    ensures same { (r : Kept) → Holds (state S.Store conn.old) r → Holds (state S.Store conn.new) r }
    ensures crash { (r : Kept) → Leaves (state S.Store conn.new) r → Leaves (state S.Store conn.old) r }
    ensures sound { HasCleanDisk (state S.Store conn.new) → HasCleanDisk (state S.Store conn.old) }
    ensures loaded { OnOk result (IsLoaded (state S.Store conn.new)) }
    ensures memory { IsErrOf result KeepError.Memory → IsLoaded (state S.Store conn.new) }
    ensures refused { IfErr result (λ fault. (fault ≡ KeepError.Memory) ⊎ (fault ≡ KeepError.Disk)) }
{
    if birth > i64::MAX as u64 || place > i64::MAX as u64 {
        return Err(KeepError::Disk);
    }
    match contents_in(alloc, conn, birth, place, limit) {
        Ok(contents) => return Ok(contents),
        Err(KeepError::Memory) => {}
        Err(_) => return Err(KeepError::Disk),
    }
    match probe(conn) {
        Ok(()) => Err(KeepError::Memory),
        Err(_) => Err(KeepError::Disk),
    }
}
