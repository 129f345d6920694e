//! The store of the server: a database in a file (MQTT 5.0, 4.1).
ghost use Rattle.std.specs.Prelude.{◌≡◌, codes, IfErr, IfOk};
ghost use Rattle.sqlite_wal.specs.Reads.{tally_of_files};
ghost use Rattle.sqlite_store.specs.FileStore.{files};
ghost use Rattle.sqlite.specs.WalFiles.{image_at};
ghost use Rattle.sqlite.specs.State.{HasCleanDisk};
ghost use Rattle.sqlite.specs.Held.{IsNew, state};
ghost use Rattle.sqlite.specs.Files.{file_state, IsOpened};
ghost use Rattle.sqlite.specs.Start.{FindsIn};
ghost use Rattle.mqtt_rules.specs.step.Laws.{AreWithin};
ghost use Rattle.mqtt_serve.specs.declared.causes.cause.StoreCause.TheVariants.{NoName};
ghost use Rattle.mqtt_serve.specs.causes.Causes.{IsOfSocket};
ghost use Rattle.mqtt_serve.specs.causes.Reports.{by_tally};
ghost use Rattle.mqtt_serve.specs.turns.Turns.{Begins};
ghost use Rattle.mqtt_serve.specs.serving.Database.{IsAsked, IsStoreOver};

use crate::causes::{Cause, of_database, of_load, of_tally, why_not};
use crate::database::make_database;
use mqtt_broker::Engine;
use mqtt_keep::Keep;
use mqtt_rules::Capacity;
use mqtt_store::SqlKeep;
use sqlite::{Alter, Connection, FileFrom, FileStore, Start};
use sqlite_disk::Disk;
use std::alloc::Global;
use std::hash::RandomState;

/// A database in files that held what `S` says.
pub(crate) type Database<S> = Connection<FileStore<FileFrom<S>>>;

/// Opens the database in the file at a path, or makes it. `S` stands for what its files held. `:memory:` is no file.
pub(crate) fn open_database<S: Start>(
    rt: &HostRuntime,
    path: &str,
    start: S,
) -> Result<Database<S>, Cause>
    ensures fresh { IfOk result IsNew }
    ensures opened { IfOk result (λ conn. HasCleanDisk (file_state conn) → IsOpened conn) }
    ensures found { IfOk result (λ conn. HasCleanDisk (file_state conn) → FindsIn (image_at S.Start) (file_state conn)) }
    ensures no_file { path.now ≡ codes ":memory:" → result ≡ Err (Cause.Store NoName) }
    ensures store { IfErr result (λ cause. ¬ IsOfSocket cause) }
{
    // A new database gets smaller pages than the kit's. If it was not made so, the opening makes it, or says what is wrong.
    let _ = make_database(rt, path);
    match Connection::open_from(rt, path, false, start) {
        Ok(conn) => Ok(conn),
        Err((error, left)) => {
            // The look opens the files once more, so they are let go first.
            drop(left);
            Err(why_not(rt, path, &error))
        }
    }
}

/// Closes the database: the log beside it goes into its file.
pub(crate) fn close_database<S: Start>(conn: Database<S>) -> Result<(), Cause>
    ensures store { IfErr result (λ cause. ¬ IsOfSocket cause) }
{
    match conn.close() {
        Ok(()) => Ok(()),
        Err(error) => Err(of_database(&error)),
    }
}

/// What a cause is by what the calls on the files of a store met. The store is let go.
pub(crate) fn told_apart<D: Disk + Drop>(cause: Cause, store: FileStore<D>) -> Cause
    ensures told { result ≡ by_tally (tally_of_files D.Disk (files store)) cause }
    ensures socket { IsOfSocket result → IsOfSocket cause }
{
    let tally = store.tally();
    drop(store);
    of_tally(cause, tally)
}

/// A store over a connection, or that connection's store.
pub(crate) fn store_over<S: Alter + Drop>(
    alloc: Global,
    conn: Connection<S>,
) -> Result<SqlKeep<S>, (Cause, S)>
    ensures over { IfOk result (λ keep. IsStoreOver (state S.Store conn) (state S.Store keep.conn)) }
    ensures store { IfErr result (λ left. ¬ IsOfSocket left.0) }
{
    match SqlKeep::new(alloc, conn) {
        Ok(keep) => Ok(keep),
        Err((error, store)) => Err((of_database(&error), store)),
    }
}

/// The moment of the newest step that a database has, in milliseconds; 0 if it has none that can be read.
pub(crate) fn stored_moment<S: Alter + Drop>(conn: &mut Connection<S>) -> u64
    ensures { IsAsked (state S.Store conn.old) (state S.Store conn.new) }
{
    let row = match conn.query_row("SELECT n FROM meta WHERE name = 'moment'", &[]) {
        Ok(row) => row,
        Err(_) => return 0,
    };
    let moment: i64 = row.get(0).unwrap_or(0);
    u64::try_from(moment).unwrap_or(0)
}

/// Opens the broker over what a store holds, at a moment in milliseconds, with these limits; a refusal gives the store back.
pub(crate) fn open_engine<K: Keep>(
    rt: &HostRuntime,
    keep: K,
    moment: u64,
    limits: Capacity,
) -> Result<Engine<K>, (Cause, K)>
    requires { AreWithin limits }
    ensures begun { IfOk result (λ engine. Begins K.Keep limits moment keep engine) }
    ensures store { IfErr result (λ left. ¬ IsOfSocket left.0) }
{
    let Ok(hasher) = RandomState::new(rt) else {
        return Err((Cause::Memory, keep));
    };
    match Engine::with_capacity(rt.alloc(), keep, moment, limits, hasher) {
        Ok(engine) => Ok(engine),
        Err((keep, error)) => Err((of_load(error), keep)),
    }
}
