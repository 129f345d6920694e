//! A connection that is opened anew, or handed back (4.1).
ghost use Rattle.std.specs.Prelude.{◌≡◌, false, IfOk, IfErr};
ghost use Rattle.sqlite_trees.specs.View.{IsClean};
ghost use Rattle.sqlite.specs.Held.{state};
ghost use Rattle.sqlite.specs.State.{HasCleanDisk};
ghost use Rattle.mqtt_store_database.specs.loading.Loading.{IsOrdered};
ghost use Rattle.mqtt_store.specs.Opening.{OpensAnew, IsUnharmed, RefusesToOpen};

use sqlite::{Alter, Connection, Error, ErrorCode};
use std::alloc::Global;

/// Opens the database of a connection anew: what isn't committed is rolled back. If that fails,
/// the database's store is handed back.
pub(crate) fn reopen<S: Alter + Drop>(
    alloc: Global,
    conn: Connection<S>,
) -> Result<Connection<S>, (Error, S)>
    ensures autocommit { IfOk result (λ anew. anew.in_transaction ≡ false) }
    ensures shows { IfOk result (λ anew. HasCleanDisk (state S.Store anew)
        → OpensAnew (state S.Store conn) (state S.Store anew)) }
    ensures ordered { IfOk result (λ anew. IsOrdered (state S.Store anew)) }
    ensures sound { IfOk result (λ anew. HasCleanDisk (state S.Store anew)
        → HasCleanDisk (state S.Store conn)) }
    ensures unharmed { IfErr result (λ e. IsUnharmed S.Store conn e.1) }
    ensures refused { IfErr result (λ e. IsClean (S.Store.view e.1)
        → RefusesToOpen S.Store conn e.1 e.0) }
{
    // This shows that what was committed obeys its schema.
    let _schema = conn.schema();
    let store = conn.into_store();
    if store.is_broken() {
        return Err((Error::SqliteFailure(ErrorCode::Closed), store));
    }
    Connection::over(alloc, store)
}
