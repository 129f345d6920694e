//! The end of a session, and the messages of its queue.
ghost use Rattle.std.specs.Prelude.{◌≡◌, ◌<◌, ◌^◌, pos};
ghost use Rattle.sqlite.specs.Held.{state};
ghost use Rattle.mqtt_store_tables.specs.forms.Settled.{StaysInside};
ghost use Rattle.mqtt_store_tables.specs.declared.schema.tables.Making.{Making};
ghost use Rattle.mqtt_store_tables.specs.statements.Layout.{second_layout};
ghost use Rattle.mqtt_store_tables.specs.statements.Content.{is_of, IsWhole};
ghost use Rattle.mqtt_store_tables.specs.statements.Writing.{Writes};
ghost use Rattle.mqtt_store_tables.specs.messages.Places.{queued_tree};
ghost use Rattle.mqtt_store_tables.specs.messages.Endings.{EndsSession};
ghost use Rattle.mqtt_store_tables.specs.messages.References.{FindsAll, Tells};

use crate::messages::numbers::{numbers_of, whole};
use sqlite::{Alter, Error, Transaction, params};
use std::alloc::Global;

/// Removes a session, with its rows in the other tables. One that does not stand has none. The
/// messages of its queue stay.
pub fn remove_session<S: Alter>(tx: &mut Transaction<'_, S>, birth: u64) -> Result<usize, Error>
    requires { birth < 2 ^ 63 }
    ensures same_reference { tx.new.conn.ghost_name ≡ tx.old.conn.ghost_name }
    ensures removed { (making : Making) → Writes S.Store tx.old.conn.now tx.new.conn.now result (IsWhole (second_layout making))
        (EndsSession making (pos birth)) }
    ensures inside { StaysInside (state S.Store tx.old.conn.now) (state S.Store tx.new.conn.now) }
{
    let birth = whole(birth);
    tx.execute("DELETE FROM session WHERE birth = ?1", params![birth])
}

/// The numbers of the messages to which the copies of a session's queue refer. Writes nothing.
pub fn pubs_of_queue<S: Alter>(
    alloc: Global,
    tx: &mut Transaction<'_, S>,
    birth: u64,
) -> Result<Vec<u64>, Error>
    requires { birth < 2 ^ 63 }
    ensures same_reference { tx.new.conn.ghost_name ≡ tx.old.conn.ghost_name }
    ensures found { (making : Making) → Tells (second_layout making) S.Store tx.old.conn.now tx.new.conn.now result
        (λ all. FindsAll (queued_tree making) 3 (is_of 1 (pos birth)) all.items) }
    ensures inside { StaysInside (state S.Store tx.old.conn.now) (state S.Store tx.new.conn.now) }
{
    let birth = whole(birth);
    let rows = tx.query_all("SELECT pub FROM queued WHERE birth = ?1", params![birth])?;
    numbers_of(alloc, rows.as_slice())
}
