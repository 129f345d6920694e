//! All that is kept: five numbers, sessions and retained messages (4.1).
ghost use Rattle.std.specs.Prelude.{◌≡◌, IfOk};
ghost use Rattle.mqtt_records.specs.state.Records.{nothing, changed, changed_all};
ghost use Rattle.mqtt_records.specs.state.Records.{with_counter, put_session, in_session, copy_at};
ghost use Rattle.mqtt_records.specs.state.Session.{part_changed};

use crate::lists::{Boxed, Rows};
use crate::messages::{CopyRow, RetainedMessage};
use crate::state::change::{Change, Counter};
use crate::state::session::{Session, SessionPart, SessionRow};
use mqtt_base::{RETAINED_LIMIT, SESSION_LIMIT};
use std::alloc::{AllocError, Global};

/// All that is kept.
#[derive(Drop)]
pub struct Records {
    /// The birth of the newest session; 0 before the first.
    pub births: u64,
    /// The number of the newest publication; 0 before the first.
    pub publications: u64,
    /// The number of the newest subscribe; 0 before the first.
    pub subscribes: u64,
    /// The number in the newest client identifier that was assigned; 0 before the first (3.1.3.1).
    pub autos: u64,
    /// The moment of the newest step, in milliseconds.
    pub moment: u64,
    /// The sessions, by birth.
    pub sessions: Rows<Boxed<Session>, SESSION_LIMIT>,
    /// The retained messages, by place.
    pub retained: Rows<Boxed<RetainedMessage>, RETAINED_LIMIT>,
}

impl Records {
    /// Nothing yet, with room for the sessions and retained messages that there may be.
    pub fn new(alloc: Global) -> Result<Records, AllocError>
        ensures { IfOk result (λ records. records ≡ nothing) }
    {
        Ok(Records {
            births: 0,
            publications: 0,
            subscribes: 0,
            autos: 0,
            moment: 0,
            sessions: Rows::new(alloc)?,
            retained: Rows::new(alloc)?,
        })
    }

    /// Sets a number.
    fn set_counter(&mut self, counter: Counter, value: u64)
        ensures { self.new ≡ with_counter counter value self.old }
    {
        match counter {
            Counter::Births => self.births = value,
            Counter::Publications => self.publications = value,
            Counter::Subscribes => self.subscribes = value,
            Counter::Autos => self.autos = value,
            Counter::Moment => self.moment = value,
        }
    }

    /// Puts a session's own row.
    fn put_session(&mut self, row: SessionRow)
        ensures { self.new ≡ record self.old { sessions = put_session row self.old.sessions } }
    {
        let birth = row.birth();
        if self.sessions.has(birth) {
            let row = row.into_columns();
            self.sessions.edit(birth, SessionPart::SetColumns { row });
        } else {
            self.sessions.put(row.into_session());
        }
    }

    /// Changes a part of the session with this birth, if there is one.
    fn edit(&mut self, birth: u64, part: SessionPart)
        ensures { self.new ≡ in_session birth (part_changed part) self.old }
    {
        self.sessions.edit(birth, part);
    }

    /// Makes one change. Takes no memory.
    pub fn change(&mut self, change: Change)
        ensures { self.new ≡ changed change self.old }
    {
        match change {
            Change::SetCounter { counter, value } => self.set_counter(counter, value),
            Change::PutSession { row } => self.put_session(row),
            Change::SetSession { row } => {
                let birth = row.birth;
                self.edit(birth, SessionPart::SetColumns { row });
            }
            Change::RemoveSession { birth } => self.sessions.remove(birth),
            Change::PutWill { birth, will } => {
                self.edit(birth, SessionPart::PutWill { will });
            }
            Change::RemoveWill { birth } => self.edit(birth, SessionPart::RemoveWill),
            Change::PutSubscription {
                birth,
                subscription,
            } => {
                let part = SessionPart::PutSubscription { subscription };
                self.edit(birth, part);
            }
            Change::RemoveSubscription { birth, filter } => {
                let part = SessionPart::RemoveSubscription { filter };
                self.edit(birth, part);
            }
            Change::PutInbound { birth, identifier } => {
                let part = SessionPart::PutInbound { identifier };
                self.edit(birth, part);
            }
            Change::RemoveInbound { birth, identifier } => {
                let part = SessionPart::RemoveInbound { identifier };
                self.edit(birth, part);
            }
            Change::PutCopy { birth, row } => {
                self.edit(birth, SessionPart::PutCopy { row });
            }
            Change::SetCopy {
                birth,
                place,
                phase,
            } => {
                let part = SessionPart::SetCopy { place, phase };
                self.edit(birth, part);
            }
            Change::RemoveCopy { birth, place } => {
                self.edit(birth, SessionPart::RemoveCopy { place });
            }
            Change::PutRetained { kept } => self.retained.put(kept),
            Change::RemoveRetained { place } => self.retained.remove(place),
        }
    }

    /// Takes the copy at a place out of a session's queue, if there is one. Takes no memory.
    pub fn take_copy(&mut self, birth: u64, place: u64) -> Option<Boxed<CopyRow>>
        ensures row { result ≡ copy_at birth place self.old }
        ensures rest { self.new ≡ changed (Change.RemoveCopy birth place) self.old }
    {
        self.sessions.take_part(birth, place)
    }

    /// Makes changes, in order. Takes no memory.
    pub fn change_all(&mut self, changes: Vec<Change>)
        ensures { self.new ≡ changed_all changes.items self.old }
    {
        for change in changes {
            self.change(change);
        }
    }
}

impl Clone for Records {
    ghost is_clone = { λ value copy. copy ≡ value };

    fn clone(&self) -> Result<Records, AllocError> {
        Ok(Records {
            births: self.births,
            publications: self.publications,
            subscribes: self.subscribes,
            autos: self.autos,
            moment: self.moment,
            sessions: self.sessions.clone()?,
            retained: self.retained.clone()?,
        })
    }
}
