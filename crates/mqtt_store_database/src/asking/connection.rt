//! A look at the connection (4.1).
ghost use Rattle.std.specs.Prelude.{OnOk};
ghost use Rattle.sqlite.specs.Held.{state};
ghost use Rattle.sqlite.specs.State.{HasCleanDisk, IsUnchanged};
ghost use Rattle.mqtt_store_tables.specs.forms.Settled.{OnlyReads};

use sqlite::{Alter, Connection, Error};

/// Whether the connection is open: Ok only then. Writes nothing.
pub fn probe<S: Alter>(conn: &mut Connection<S>) -> Result<(), Error>
    ensures same { HasCleanDisk (state S.Store conn.new) → OnOk result (IsUnchanged (state S.Store conn.old) (state S.Store conn.new)) }
    ensures reads { OnlyReads (state S.Store conn.old) (state S.Store conn.new) }
{
    match conn.prepare("SELECT 1") {
        Ok(statement) => {
            drop(statement);
            Ok(())
        }
        Err(error) => Err(error),
    }
}
