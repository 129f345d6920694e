//! A connection that is opened anew, as it is before a store is loaded.
ghost use Rattle.std.specs.Prelude.{◌≡◌, false, IfOk};
ghost use Rattle.sqlite.specs.Held.{state};
ghost use Rattle.mqtt_store_database.specs.loading.Loading.{IsOrdered};

use sqlite::{Alter, Connection, Error, ErrorCode};
use std::alloc::Global;

/// Opens the database of a connection anew, in no transaction and with its rows in order.
pub(crate) fn reopen<S: Alter + Drop>(
    alloc: Global,
    conn: Connection<S>,
) -> Result<Connection<S>, (Error, S)>
    ensures autocommit { IfOk result (λ anew. anew.in_transaction ≡ false) }
    ensures ordered { IfOk result (λ anew. IsOrdered (state S.Store anew)) }
{
    let store = conn.into_store();
    if store.is_broken() {
        return Err((Error::SqliteFailure(ErrorCode::Closed), store));
    }
    Connection::over(alloc, store)
}
