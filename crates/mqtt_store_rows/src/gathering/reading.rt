//! The queues of sessions, out of rows that were taken in (4.1, 4.3).
ghost use Rattle.std.specs.Prelude.{◌≡◌, ◌≢◌, Ok, None, true, false, [], ◌∷◌, ◌++◌, List, option_copied, IsTrue, MatchOption, OnOk};
ghost use Rattle.sqlite_value.specs.Order.{Row as SqlRow};
ghost use Rattle.mqtt_base.specs.declared.limits.TheConstants.{SESSION_LIMIT};
ghost use Rattle.mqtt_records.specs.state.Contents.{SharesContents};
ghost use Rattle.mqtt_records.specs.declared.state.session.Session.{Session};
ghost use Rattle.mqtt_records.specs.state.Session.{birth_of, with_all_slim};
ghost use Rattle.mqtt_keep.specs.lawful.Lawful.{AreNumbers, IsLawfulSession};
ghost use Rattle.mqtt_records.specs.lists.Order.{IsTable};
ghost use Rattle.mqtt_store_rows.specs.values.Lists.{BeginsOther};
ghost use Rattle.mqtt_store_rows.specs.gathering.Alone.{last_in, alone};
ghost use Rattle.mqtt_store_rows.specs.gathering.Queues.{with_copies, HasReadNext, HasNoQueue, IsSameButQueues, BeginsWith, AreGathered, SayNone};

use crate::gathering::alone::judged;
use crate::rows::{Messages, part_with};
use crate::values::{Counters, is_number, value_at};
use mqtt_base::{QUEUE_LIMIT, SESSION_LIMIT};
use mqtt_keep::KeepError;
use mqtt_records::{Boxed, CopyRow, Rows, Session, newest_comes_last};
use sqlite::Row;
use std::alloc::{AllocError, Global};
use std::collections::VecDeque;

/// Sessions by their births.
pub(crate) type Sessions = Rows<Boxed<Session>, SESSION_LIMIT>;

/// What was read of the queues of sessions.
#[derive(Drop)]
pub(crate) struct Reading {
    /// What copies refer to.
    pub messages: Messages,
    /// The numbers that were given last.
    pub numbers: Counters,
    /// Sessions whose queues aren't read yet.
    pub bare: Sessions,
    /// Those whose queues are read, slim.
    pub all: Sessions,
    /// Rows that were taken in, of no session of `all`.
    pub part: VecDeque<Row>,
}

/// The first session, taken out of its list.
fn take_first(sessions: &mut Sessions) -> Option<Session>
    ensures { MatchOption result ((sessions.old ≡ []) × (sessions.new ≡ []))
        (λ s. sessions.old ≡ s ∷ sessions.new) }
{
    let birth = sessions.as_slice().first()?.get().birth;
    match sessions.take(birth) {
        Some(session) => Some(session.into_row()),
        None => None,
    }
}

/// The session with this queue.
fn with_queue(session: Session, queue: Rows<Boxed<CopyRow>, QUEUE_LIMIT>) -> Session
    ensures { result ≡ record session { queue = queue } }
{
    Session {
        birth: session.birth,
        client: session.client,
        expiry: session.expiry,
        closed: session.closed,
        will: session.will,
        subscriptions: session.subscriptions,
        inbound: session.inbound,
        queue,
    }
}

/// Whether the next row is of the session with this birth.
fn is_of(next: Option<&Row>, birth: u64) -> bool
    ensures some { IsTrue result → next.entry ≢ None }
    ensures other { result ≡ false → (rest : List SqlRow) → BeginsWith (option_copied next.entry) rest → BeginsOther birth rest }
{
    match next {
        Some(row) => is_number(value_at(row, 0), birth),
        None => false,
    }
}

impl Reading {
    /// The birth of the first bare session.
    fn first_birth(&self) -> Option<u64>
        ensures { MatchOption result (self.now.bare ≡ [])
            (λ birth. (s : Session) × (others : List Session) × (self.now.bare ≡ s ∷ others) × (birth ≡ s.birth)) }
    {
        match self.bare.as_slice().first() {
            Some(session) => Some(session.get().birth),
            None => None,
        }
    }

    /// Puts the first bare session with this queue, slim, behind the others. `false` if it isn't lawful with it.
    fn put_next(
        &mut self,
        alloc: Global,
        queue: Rows<Boxed<CopyRow>, QUEUE_LIMIT>,
    ) -> Result<bool, AllocError>
        requires numbers { AreNumbers (last_in self.old.numbers) }
        requires table { IsTable birth_of SESSION_LIMIT (self.old.all ++ self.old.bare) }
        requires shared { (s : Session) (others : List Session) → self.old.bare ≡ s ∷ others
            → SharesContents (alone self.old.numbers (with_copies queue s)) }
        ensures numbers { self.new.numbers ≡ self.old.numbers }
        ensures table { IsTable birth_of SESSION_LIMIT (self.new.all ++ self.new.bare) }
        ensures same { OnOk result (IsSameButQueues self.old self.new) }
        ensures part { self.new.part ≡ self.old.part }
        ensures put { result ≡ Ok true → (s : Session) × (self.old.bare ≡ s ∷ self.new.bare)
            × (self.new.all ≡ self.old.all ++ with_all_slim (with_copies queue s) ∷ [])
            × IsLawfulSession (last_in self.old.numbers) (with_copies queue s) }
        ensures no { result ≡ Ok false → (s : Session) (others : List Session) → self.old.bare ≡ s ∷ others
            → IsLawfulSession (last_in self.old.numbers) (with_copies queue s) → ⊥ }
    {
        let Some(session) = take_first(&mut self.bare) else {
            drop(queue);
            return Ok(false);
        };
        newest_comes_last::<Boxed<Session>>();
        let (lawful, slim) = judged(alloc, self.numbers, with_queue(session, queue))?;
        self.all.put(slim);
        Ok(lawful)
    }

    /// Reads the queue of the first bare session out of the rows, which are let go, and puts it, slim, behind the others.
    /// `false` if the rows say no queue of it with which it is lawful.
    fn read_next(&mut self, alloc: Global, birth: u64) -> Result<bool, AllocError>
        requires first { (s : Session) × (others : List Session) × (self.old.bare ≡ s ∷ others) × (birth ≡ s.birth) }
        requires numbers { AreNumbers (last_in self.old.numbers) }
        requires table { IsTable birth_of SESSION_LIMIT (self.old.all ++ self.old.bare) }
        ensures numbers { self.new.numbers ≡ self.old.numbers }
        ensures table { IsTable birth_of SESSION_LIMIT (self.new.all ++ self.new.bare) }
        ensures same { OnOk result (IsSameButQueues self.old self.new) }
        ensures read { result ≡ Ok true → HasReadNext self.old self.new }
        ensures no { result ≡ Ok false → HasNoQueue self.old }
    {
        let queue = match part_with(alloc, &self.messages, birth, &mut self.part) {
            Ok(queue) => queue,
            Err(KeepError::Corrupt) => return Ok(false),
            Err(_) => return Err(AllocError),
        };
        self.put_next(alloc, queue)
    }

    /// Reads the queues of the bare sessions up to that of which the next row is; of all, if no row is to come. `false` if
    /// the rows say no queues of lawful sessions.
    pub(crate) fn read_on(&mut self, alloc: Global, next: Option<&Row>) -> Result<bool, AllocError>
        requires numbers { AreNumbers (last_in self.old.numbers) }
        requires table { IsTable birth_of SESSION_LIMIT (self.old.all ++ self.old.bare) }
        ensures numbers { self.new.numbers ≡ self.old.numbers }
        ensures table { IsTable birth_of SESSION_LIMIT (self.new.all ++ self.new.bare) }
        ensures same { OnOk result (IsSameButQueues self.old self.new) }
        ensures read { result ≡ Ok true → (rows : List SqlRow) → AreGathered self.old rows (BeginsWith (option_copied next.entry))
            → AreGathered self.new rows (BeginsWith (option_copied next.entry)) }
        ensures over { result ≡ Ok true → next.entry ≡ None → self.new.bare ≡ [] }
        ensures no { result ≡ Ok false → (rows : List SqlRow) → AreGathered self.old rows (BeginsWith (option_copied next.entry))
            → SayNone self.old rows (BeginsWith (option_copied next.entry)) }
    {
        while let Some(birth) = self.first_birth() {
            if is_of(next, birth) {
                return Ok(true);
            }
            if !self.read_next(alloc, birth)? {
                return Ok(false);
            }
        }
        Ok(next.is_none())
    }
}
