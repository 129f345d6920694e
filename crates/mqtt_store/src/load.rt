//! A load of the store's records, slim, and what it leaves (3.3, 4.1).
ghost use Rattle.std.specs.Prelude.{◌≡◌, false, IfOk, IfErr, OnOk};
ghost use Rattle.sqlite.specs.Held.{state};
ghost use Rattle.sqlite.specs.State.{HasCleanDisk};
ghost use Rattle.mqtt_records.specs.declared.state.records.Records.{Records as Kept};
ghost use Rattle.mqtt_keep.specs.keeping.Loading.{AreRead};
ghost use Rattle.mqtt_store_database.specs.reading.Refusals.{RefusesEither};
ghost use Rattle.mqtt_store_database.specs.loading.Loading.{IsOrdered};
ghost use Rattle.mqtt_store.specs.Holding.{Holds, IsLoaded, Leaves};

use mqtt_keep::KeepError;
use mqtt_records::Records;
use mqtt_store_database::loading::load_from;
use sqlite::{Alter, Connection};
use std::alloc::Global;

/// Reads the rows of a database, slim: of a waiting copy they say nothing but its topic and what rules read. If it is
/// empty, makes the tables of a new store; if it has schema 1, takes it over.
pub(crate) fn load_slim<S: Alter>(
    alloc: Global,
    conn: &mut Connection<S>,
) -> Result<Records, KeepError>
    requires autocommit { conn.old.in_transaction ≡ false }
    requires ordered { IsOrdered (state S.Store conn.old) }
    ensures autocommit { conn.new.in_transaction ≡ false }
    ensures ordered { IsOrdered (state S.Store conn.new) }
    ensures read { IfOk result (AreRead (Holds (state S.Store conn.old)) (Leaves (state S.Store conn.old))
        (Holds (state S.Store conn.new)) (HasCleanDisk (state S.Store conn.new))) }
    ensures loaded { OnOk result (IsLoaded (state S.Store conn.new)) }

    // What the database has stays, and a crash finds nothing else than before.
    ensures same { (r : Kept) → Holds (state S.Store conn.old) r → Holds (state S.Store conn.new) r }
    ensures crash { (r : Kept) → Leaves (state S.Store conn.new) r → Leaves (state S.Store conn.old) r }
    ensures sound { HasCleanDisk (state S.Store conn.new) → HasCleanDisk (state S.Store conn.old) }
    ensures refused { IfErr result (λ fault. HasCleanDisk (state S.Store conn.new)
        → RefusesEither S.Store conn.old fault) }
{
    load_from(alloc, conn)
}
