//! Changes of copies, retained messages and sessions, with the messages that come and go by them.
ghost use Rattle.std.specs.Prelude.{◌≡◌, ◌<◌, ◌^◌, pos};
ghost use Rattle.sqlite.specs.Held.{state};
ghost use Rattle.mqtt_store_tables.specs.forms.Settled.{StaysInside};
ghost use Rattle.mqtt_store_tables.specs.statements.Content.{is_of};
ghost use Rattle.mqtt_store_tables.specs.messages.Places.{queued_tree};
ghost use Rattle.mqtt_store_tables.specs.messages.Rows.{IsSized};
ghost use Rattle.mqtt_store_tables.specs.messages.Comings.{PutsQueued, RemovesQueued, PutsKept, RemovesKept};
ghost use Rattle.mqtt_store_tables.specs.messages.Endings.{EndsSession};
ghost use Rattle.mqtt_store_tables.specs.messages.References.{FindsAll};
ghost use Rattle.mqtt_store_tables.specs.messages.Letting.{LetsGo, PutsFirst};
ghost use Rattle.mqtt_store_tables.specs.messages.Changing.{ChangesBy};

use crate::messages::kept::{KeptColumns, pub_of_kept, pub_of_topic, put_kept, remove_kept};
use crate::messages::messages::{MessageColumns, put_message};
use crate::messages::queued::{
    QueuedColumns, insert_queued, pub_of_queued, put_queued, remove_queued,
};
use crate::messages::sessions::{pubs_of_queue, remove_session};
use crate::messages::sweeps::{sweep_all, sweep_both, sweep_found};
use sqlite::{Alter, Error, Transaction};
use std::alloc::Global;

/// Puts a copy in place of the one that stands there. The message of that one goes if nothing
/// refers to it any more.
fn replace_copy<S: Alter>(
    tx: &mut Transaction<'_, S>,
    birth: u64,
    place: u64,
    copy: &QueuedColumns<'_>,
) -> Result<(), Error>
    requires birth { birth < 2 ^ 63 }
    requires place { place < 2 ^ 63 }
    requires sized { IsSized copy.now }
    ensures same_reference { tx.new.conn.ghost_name ≡ tx.old.conn.ghost_name }
    ensures put { ChangesBy S.Store tx.old.conn.now tx.new.conn.now result
        (λ making. LetsGo making (PutsQueued making birth place copy.now)) }
    ensures inside { StaysInside (state S.Store tx.old.conn.now) (state S.Store tx.new.conn.now) }
{
    let found = pub_of_queued(tx, birth, place)?;
    put_queued(tx, birth, place, copy)?;
    sweep_found(tx, found)
}

/// Puts a copy behind its message. The message of the copy that stood at its place goes if nothing
/// refers to it any more.
pub(crate) fn put_behind<S: Alter>(
    tx: &mut Transaction<'_, S>,
    birth: u64,
    place: u64,
    copy: &QueuedColumns<'_>,
) -> Result<(), Error>
    requires birth { birth < 2 ^ 63 }
    requires place { place < 2 ^ 63 }
    requires sized { IsSized copy.now }
    ensures same_reference { tx.new.conn.ghost_name ≡ tx.old.conn.ghost_name }
    ensures put { ChangesBy S.Store tx.old.conn.now tx.new.conn.now result
        (λ making. LetsGo making (PutsQueued making birth place copy.now)) }
    ensures inside { StaysInside (state S.Store tx.old.conn.now) (state S.Store tx.new.conn.now) }
{
    // Nearly always none stands there: then nothing is asked, and nothing swept.
    if insert_queued(tx, birth, place, copy)? {
        return Ok(());
    }
    replace_copy(tx, birth, place, copy)
}

/// Puts a copy, and its message if that is missing. The message of the copy that stood there goes
/// if nothing refers to it any more.
pub(crate) fn put_copy<S: Alter>(
    tx: &mut Transaction<'_, S>,
    birth: u64,
    place: u64,
    message: &MessageColumns<'_>,
    copy: &QueuedColumns<'_>,
) -> Result<(), Error>
    requires birth { birth < 2 ^ 63 }
    requires place { place < 2 ^ 63 }
    requires sized { IsSized copy.now }
    ensures same_reference { tx.new.conn.ghost_name ≡ tx.old.conn.ghost_name }
    ensures put { ChangesBy S.Store tx.old.conn.now tx.new.conn.now result
        (λ making. LetsGo making (PutsFirst making copy.now.publication message.now (PutsQueued making birth place copy.now))) }
    ensures inside { StaysInside (state S.Store tx.old.conn.now) (state S.Store tx.new.conn.now) }
{
    put_message(tx, copy.publication, message)?;
    put_behind(tx, birth, place, copy)
}

/// Removes a copy. Its message goes if nothing refers to it any more.
pub(crate) fn remove_copy<S: Alter>(
    tx: &mut Transaction<'_, S>,
    birth: u64,
    place: u64,
) -> Result<(), Error>
    requires birth { birth < 2 ^ 63 }
    requires place { place < 2 ^ 63 }
    ensures same_reference { tx.new.conn.ghost_name ≡ tx.old.conn.ghost_name }
    ensures removed { ChangesBy S.Store tx.old.conn.now tx.new.conn.now result
        (λ making. LetsGo making (RemovesQueued making birth place)) }
    ensures inside { StaysInside (state S.Store tx.old.conn.now) (state S.Store tx.new.conn.now) }
{
    let found = pub_of_queued(tx, birth, place)?;
    remove_queued(tx, birth, place)?;
    sweep_found(tx, found)
}

/// Removes a session, with its rows in the other tables, and those messages of these numbers to
/// which nothing refers then.
fn remove_and_sweep<S: Alter>(
    tx: &mut Transaction<'_, S>,
    birth: u64,
    numbers: &[u64],
) -> Result<(), Error>
    requires { birth < 2 ^ 63 }
    ensures same_reference { tx.new.conn.ghost_name ≡ tx.old.conn.ghost_name }

    // The numbers are those of its queue.
    ensures removed { ChangesBy S.Store tx.old.conn.now tx.new.conn.now result
        (λ making old new. FindsAll (queued_tree making) 3 (is_of 1 (pos birth)) numbers.now old
        → LetsGo making (EndsSession making (pos birth)) old new) }
    ensures inside { StaysInside (state S.Store tx.old.conn.now) (state S.Store tx.new.conn.now) }
{
    remove_session(tx, birth)?;
    sweep_all(tx, numbers)
}

/// Removes a session, with its rows in the other tables. Those messages of its queue go to which
/// nothing refers any more.
pub(crate) fn end_session<S: Alter>(
    alloc: Global,
    tx: &mut Transaction<'_, S>,
    birth: u64,
) -> Result<(), Error>
    requires { birth < 2 ^ 63 }
    ensures same_reference { tx.new.conn.ghost_name ≡ tx.old.conn.ghost_name }
    ensures removed { ChangesBy S.Store tx.old.conn.now tx.new.conn.now result
        (λ making. LetsGo making (EndsSession making (pos birth))) }
    ensures inside { StaysInside (state S.Store tx.old.conn.now) (state S.Store tx.new.conn.now) }
{
    let numbers = pubs_of_queue(alloc, tx, birth)?;
    let removed = remove_and_sweep(tx, birth, numbers.as_slice());
    drop(numbers);
    removed
}

/// Puts a retained message, behind its message.
fn put_kept_last<S: Alter>(
    tx: &mut Transaction<'_, S>,
    place: u64,
    message: &MessageColumns<'_>,
    kept: &KeptColumns<'_>,
) -> Result<(), Error>
    requires place { place < 2 ^ 63 }
    requires publication { kept.now.publication < 2 ^ 63 }
    requires arrived { kept.now.arrived < 2 ^ 63 }
    ensures same_reference { tx.new.conn.ghost_name ≡ tx.old.conn.ghost_name }
    ensures put { ChangesBy S.Store tx.old.conn.now tx.new.conn.now result
        (λ making. PutsFirst making kept.now.publication message.now (PutsKept making place kept.now)) }
    ensures inside { StaysInside (state S.Store tx.old.conn.now) (state S.Store tx.new.conn.now) }
{
    put_message(tx, kept.publication, message)?;
    put_kept(tx, place, kept)?;
    Ok(())
}

/// Puts a retained message, and its message if that is missing. The messages of those that stood
/// at its place and for its topic go if nothing refers to them any more.
pub(crate) fn put_retained<S: Alter>(
    tx: &mut Transaction<'_, S>,
    place: u64,
    message: &MessageColumns<'_>,
    kept: &KeptColumns<'_>,
) -> Result<(), Error>
    requires place { place < 2 ^ 63 }
    requires publication { kept.now.publication < 2 ^ 63 }
    requires arrived { kept.now.arrived < 2 ^ 63 }
    ensures same_reference { tx.new.conn.ghost_name ≡ tx.old.conn.ghost_name }
    ensures put { ChangesBy S.Store tx.old.conn.now tx.new.conn.now result
        (λ making. LetsGo making (PutsFirst making kept.now.publication message.now (PutsKept making place kept.now))) }
    ensures inside { StaysInside (state S.Store tx.old.conn.now) (state S.Store tx.new.conn.now) }
{
    let at_place = pub_of_kept(tx, place)?;
    let of_topic = pub_of_topic(tx, kept.topic)?;
    put_kept_last(tx, place, message, kept)?;
    sweep_both(tx, at_place, of_topic)
}

/// Removes a retained message. Its message goes if nothing refers to it any more.
pub(crate) fn remove_retained<S: Alter>(
    tx: &mut Transaction<'_, S>,
    place: u64,
) -> Result<(), Error>
    requires { place < 2 ^ 63 }
    ensures same_reference { tx.new.conn.ghost_name ≡ tx.old.conn.ghost_name }
    ensures removed { ChangesBy S.Store tx.old.conn.now tx.new.conn.now result
        (λ making. LetsGo making (RemovesKept making place)) }
    ensures inside { StaysInside (state S.Store tx.old.conn.now) (state S.Store tx.new.conn.now) }
{
    let found = pub_of_kept(tx, place)?;
    remove_kept(tx, place)?;
    sweep_found(tx, found)
}
