//! The store in SQL, over a connection (4.1).
ghost use Rattle.std.specs.Prelude.{◌≡◌, ◌≢◌, ◌⊎◌, ◌+◌, ◌%◌, ◌^◌, false, IfOk, IfErr, OnOk, IsErrOf};
ghost use Rattle.sqlite_trees.specs.View.{IsClean};
ghost use Rattle.sqlite.specs.Held.{state};
ghost use Rattle.sqlite.specs.State.{HasCleanDisk};
ghost use Rattle.mqtt_records.specs.declared.state.records.Records.{Records as Kept};
ghost use Rattle.mqtt_store_database.specs.loading.Loading.{IsOrdered};
ghost use Rattle.mqtt_store.specs.Holding.{Holds, Leaves};
ghost use Rattle.mqtt_store.specs.Opening.{OpensAnew, IsUnharmed, RefusesToOpen, rolled_back};
ghost use Rattle.mqtt_store.specs.Props.{ordered_prop};

use crate::apply::apply_all;
use crate::contents::read_contents;
use crate::load::load_slim;
use crate::opening::reopen;
use mqtt_keep::{Keep, KeepError};
use mqtt_records::{Change, CopyContent, Records, all_pass_on};
use sqlite::{Alter, Connection, Error};
use std::alloc::Global;

/// Records in the tables of a database.
#[derive(Drop)]
pub struct SqlKeep<S: Alter + Drop> {
    conn: Connection<S>,
    alloc: Global,
    failures: u64,
    /// How often it was asked for contents, modulo 2^64.
    reads: u64,
    ghost autocommit: { conn.in_transaction ≡ false },
    ghost ordered: { IsOrdered (state S.Store conn) } by { ordered_prop (state S.Store conn) },
}

impl<S: Alter + Drop> SqlKeep<S> {
    /// A store over the database of a connection, which it opens anew: what isn't committed is rolled
    /// back. If that fails, the database's store is handed back.
    pub fn new(alloc: Global, conn: Connection<S>) -> Result<SqlKeep<S>, (Error, S)>
        ensures counted { IfOk result (λ keep. keep.failures ≡ 0) }
        ensures unread { IfOk result (λ keep. keep.reads ≡ 0) }

        // It shows what was committed: it has what the connection has once its transaction is
        // rolled back, and a crash leaves nothing else than before.
        ensures shows { IfOk result (λ keep. HasCleanDisk (state S.Store keep.conn)
            → OpensAnew (state S.Store conn) (state S.Store keep.conn)) }
        ensures same { IfOk result (λ keep. (r : Kept) → Holds (rolled_back (state S.Store conn)) r
            → Holds (state S.Store keep.conn) r) }
        ensures crash { IfOk result (λ keep. (r : Kept) → Leaves (state S.Store keep.conn) r
            → Leaves (rolled_back (state S.Store conn)) r) }
        ensures sound { IfOk result (λ keep. HasCleanDisk (state S.Store keep.conn)
            → HasCleanDisk (state S.Store conn)) }

        // What is handed back has what was committed, and a crash of it leaves nothing else.
        ensures unharmed { IfErr result (λ e. IsUnharmed S.Store conn e.1) }
        ensures refused { IfErr result (λ e. IsClean (S.Store.view e.1)
            → RefusesToOpen S.Store conn e.1 e.0) }
    {
        let conn = reopen(alloc, conn)?;
        Ok(SqlKeep {
            conn,
            alloc,
            failures: 0,
            reads: 0,
        })
    }

    /// The connection.
    pub fn into_inner(self) -> Connection<S>
        ensures { result ≡ self.conn }
    {
        self.conn
    }

    /// Limits the steps of each later statement, as `Connection::set_step_limit` does. A statement
    /// that would take more is a failure of the device.
    pub fn set_step_limit(&mut self, limit: Option<u64>)
        ensures conn { self.new.conn ≡ record self.old.conn { step_limit = limit } }
        ensures same { (self.new.failures ≡ self.old.failures) × (self.new.reads ≡ self.old.reads)
            × (self.new.alloc ≡ self.old.alloc) }
    {
        let conn = &mut self.conn;
        conn.set_step_limit(limit);
    }

    /// Counts a failure of the device, if an answer tells of one.
    fn note<T>(&mut self, answer: &Result<T, KeepError>)
        ensures conn { self.new.conn ≡ self.old.conn }
        ensures alloc { self.new.alloc ≡ self.old.alloc }
        ensures reads { self.new.reads ≡ self.old.reads }
        ensures counted { IsErrOf answer.now KeepError.Disk ⊎ IsErrOf answer.now KeepError.Size
            → self.new.failures ≡ (self.old.failures + 1) % 2 ^ 64 }
        ensures ok { OnOk answer.now (self.new.failures ≡ self.old.failures) }
        ensures err { IfErr answer.now (λ fault. fault ≢ KeepError.Disk → fault ≢ KeepError.Size
            → self.new.failures ≡ self.old.failures) }
    {
        if let Err(KeepError::Disk | KeepError::Size) = answer {
            self.failures = self.failures.wrapping_add(1);
        }
    }
}

impl<S: Alter + Drop> Keep for SqlKeep<S> {
    ghost use Rattle.sqlite.specs.Held.{state};
    ghost use Rattle.sqlite.specs.State.{HasCleanDisk};
    ghost use Rattle.mqtt_store_database.specs.reading.Refusals.{RefusesEither};
    ghost use Rattle.mqtt_store.specs.Holding.{Holds, Leaves, IsLoaded};
    ghost use Rattle.mqtt_store.specs.Ones.{leaves_held as held};
    ghost use Rattle.mqtt_store.specs.Telling.{told_of, tells as copies_say};

    ghost holds = { λ keep r. Holds (state S.Store keep.conn) r };

    ghost is_loaded = { λ keep. IsLoaded (state S.Store keep.conn) };

    ghost is_sound = { λ keep. HasCleanDisk (state S.Store keep.conn) };

    ghost leaves = { λ keep r. Leaves (state S.Store keep.conn) r };

    ghost counted = { λ keep. keep.failures };

    ghost refuses = { λ keep fault. RefusesEither S.Store keep.conn fault };

    ghost fillings = { λ keep. told_of (state S.Store keep.conn) };

    ghost read_so_far = { λ keep. keep.reads };

    fn load(&mut self, alloc: Global) -> Result<Records, KeepError> {
        let answer = load_slim(alloc, &mut self.conn);
        self.note(&answer);
        answer
    }

    fn apply(&mut self, changes: &[Change]) -> Result<(), KeepError> {
        // This shows that what is put was passed on.
        all_pass_on(changes);
        let answer = apply_all(self.alloc, &mut self.conn, changes);
        self.note(&answer);
        answer
    }

    fn contents(
        &mut self,
        alloc: Global,
        birth: u64,
        place: u64,
        limit: u32,
    ) -> Result<Vec<CopyContent>, KeepError> {
        self.reads = self.reads.wrapping_add(1);
        let answer = read_contents(alloc, &mut self.conn, birth, place, limit);
        self.note(&answer);
        answer
    }

    fn failures(&self) -> u64 {
        self.failures
    }

    fn reads(&self) -> u64 {
        self.reads
    }

    ghost leaves_held = { λ keep left r settled has found. held _ left r has found };

    ghost tells = { λ keep r sound loaded has. copies_say _ r has loaded sound };
}
