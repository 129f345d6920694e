//! All copies and retained messages, put into the tables of schema 2.
ghost use Rattle.std.specs.Prelude.{◌≡◌, ◌++◌, map, flat_map};
ghost use Rattle.sqlite.specs.Held.{state};
ghost use Rattle.mqtt_records.specs.declared.state.change.Change.TheVariants.{PutCopy, PutRetained};
ghost use Rattle.mqtt_store_tables.specs.forms.Settled.{StaysInside};
ghost use Rattle.mqtt_store_tables.specs.messages.Changing.{ChangesBy};
ghost use Rattle.mqtt_store_database.specs.committing.Making.{Makes, MakeAll};
ghost use Rattle.mqtt_store_database.specs.taking_over.Puts.{queue_puts, puts_of};

use crate::committing::write_change;
use mqtt_records::{Boxed, Change, CopyRow, Records, RetainedMessage, Session};
use sqlite::{Alter, Error, ErrorCode, Transaction};
use std::alloc::Global;

/// Puts a copy into the queue of the session with this birth.
fn put_copy<S: Alter>(
    alloc: Global,
    tx: &mut Transaction<'_, S>,
    birth: u64,
    row: &Boxed<CopyRow>,
) -> Result<(), Error>
    ensures same_reference { tx.new.conn.ghost_name ≡ tx.old.conn.ghost_name }
    ensures put { ChangesBy S.Store tx.old.conn.now tx.new.conn.now result
        (λ making. Makes making (PutCopy birth row.now)) }
    ensures inside { StaysInside (state S.Store tx.old.conn.now) (state S.Store tx.new.conn.now) }
{
    let Ok(row) = row.clone() else {
        return Err(Error::SqliteFailure(ErrorCode::OutOfMemory));
    };
    let change = Change::PutCopy { birth, row };
    let put = write_change(alloc, tx, &change);
    drop(change);
    put
}

/// Puts the copies of the queue of the session with this birth, in its order.
fn put_queue<S: Alter>(
    alloc: Global,
    tx: &mut Transaction<'_, S>,
    birth: u64,
    queue: &[Boxed<CopyRow>],
) -> Result<(), Error>
    ensures same_reference { tx.new.conn.ghost_name ≡ tx.old.conn.ghost_name }
    ensures put { ChangesBy S.Store tx.old.conn.now tx.new.conn.now result
        (λ making. MakeAll making (map (PutCopy birth) queue.now)) }
    ensures inside { StaysInside (state S.Store tx.old.conn.now) (state S.Store tx.new.conn.now) }
{
    let mut rest = queue;
    while let Some((row, after)) = rest.split_first() {
        put_copy(alloc, tx, birth, row)?;
        rest = after;
    }
    Ok(())
}

/// Puts the copies of all sessions, one after the other.
fn put_queues<S: Alter>(
    alloc: Global,
    tx: &mut Transaction<'_, S>,
    sessions: &[Boxed<Session>],
) -> Result<(), Error>
    ensures same_reference { tx.new.conn.ghost_name ≡ tx.old.conn.ghost_name }
    ensures put { ChangesBy S.Store tx.old.conn.now tx.new.conn.now result
        (λ making. MakeAll making (flat_map queue_puts sessions.now)) }
    ensures inside { StaysInside (state S.Store tx.old.conn.now) (state S.Store tx.new.conn.now) }
{
    let mut rest = sessions;
    while let Some((session, after)) = rest.split_first() {
        let session = session.get();
        put_queue(alloc, tx, session.birth, session.queue.as_slice())?;
        rest = after;
    }
    Ok(())
}

/// Puts a retained message.
fn put_message<S: Alter>(
    alloc: Global,
    tx: &mut Transaction<'_, S>,
    kept: &Boxed<RetainedMessage>,
) -> Result<(), Error>
    ensures same_reference { tx.new.conn.ghost_name ≡ tx.old.conn.ghost_name }
    ensures put { ChangesBy S.Store tx.old.conn.now tx.new.conn.now result
        (λ making. Makes making (PutRetained kept.now)) }
    ensures inside { StaysInside (state S.Store tx.old.conn.now) (state S.Store tx.new.conn.now) }
{
    let Ok(kept) = kept.clone() else {
        return Err(Error::SqliteFailure(ErrorCode::OutOfMemory));
    };
    let change = Change::PutRetained { kept };
    let put = write_change(alloc, tx, &change);
    drop(change);
    put
}

/// Puts the retained messages, in the order of their places.
fn put_retained<S: Alter>(
    alloc: Global,
    tx: &mut Transaction<'_, S>,
    retained: &[Boxed<RetainedMessage>],
) -> Result<(), Error>
    ensures same_reference { tx.new.conn.ghost_name ≡ tx.old.conn.ghost_name }
    ensures put { ChangesBy S.Store tx.old.conn.now tx.new.conn.now result
        (λ making. MakeAll making (map PutRetained retained.now)) }
    ensures inside { StaysInside (state S.Store tx.old.conn.now) (state S.Store tx.new.conn.now) }
{
    let mut rest = retained;
    while let Some((kept, after)) = rest.split_first() {
        put_message(alloc, tx, kept)?;
        rest = after;
    }
    Ok(())
}

/// Puts all copies and retained messages of records, one at a time.
pub(crate) fn put_all<S: Alter>(
    alloc: Global,
    tx: &mut Transaction<'_, S>,
    records: &Records,
) -> Result<(), Error>
    ensures same_reference { tx.new.conn.ghost_name ≡ tx.old.conn.ghost_name }
    ensures put { ChangesBy S.Store tx.old.conn.now tx.new.conn.now result
        (λ making. MakeAll making (puts_of records.now)) }
    ensures inside { StaysInside (state S.Store tx.old.conn.now) (state S.Store tx.new.conn.now) }
{
    put_queues(alloc, tx, records.sessions.as_slice())?;
    put_retained(alloc, tx, records.retained.as_slice())
}
