//! What is kept, and beside the sessions the digests of their client identifiers, by which they are found (MQTT 5.0,
//! 3.1.3.1, 4.1).
ghost use Rattle.std.specs.Prelude.{◌≡◌, bytes_eq, find, option_copied, IfOk};
ghost use Rattle.mqtt_base.specs.declared.limits.TheConstants.{SESSION_LIMIT as session_limit};
ghost use Rattle.mqtt_records.specs.lists.Order.{put_row, row_at};
ghost use Rattle.mqtt_records.specs.declared.state.change.Change.TheVariants.{PutSession, SetSession, RemoveSession, RemoveCopy, RemoveRetained};
ghost use Rattle.mqtt_records.specs.state.Records.{changed, copy_at, kept_place};
ghost use Rattle.mqtt_records.specs.state.Session.{birth_of};
ghost use Rattle.mqtt_keep.specs.by_name.Digests.{digest_of, digest_row, digest_rows};

use crate::by_name::digest::{DigestRow, digest_of, digest_row};
use mqtt_base::SESSION_LIMIT;
use mqtt_records::{
    Boxed, Change, Columns, CopyRow, Records, RetainedMessage, Rows, Session, SessionRow,
};
use std::alloc::{AllocError, Global};
use std::marker::Model;

/// What is kept, with the digest of each session's client identifier in the order of the sessions.
#[derive(Drop)]
pub struct NamedRecords {
    pub(crate) records: Records,
    digests: Rows<DigestRow, SESSION_LIMIT>,
}

impl Model for NamedRecords {
    ghost use Rattle.std.specs.Prelude.{◌≡◌};
    ghost use Rattle.mqtt_records.specs.declared.state.records.Records.{Records};
    ghost use Rattle.mqtt_keep.specs.by_name.Digests.{digest_rows};

    ghost Value = { Records };

    ghost view = { λ a. a.records };

    ghost invariant = { λ a. a.digests ≡ digest_rows a.records.sessions };
}

/// Whether a session has a client identifier: its digest is looked at first.
fn is_named(session: &Boxed<Session>, row: &DigestRow, client: &str, digest: u64) -> bool
    requires row { row.now ≡ digest_row session.now }
    requires digest { digest ≡ digest_of client.now }
    ensures { result ≡ bytes_eq session.now.client client.now }
{
    row.digest == digest && session.get().client.as_str() == client
}

/// The digests of sessions in the order of their births.
fn digests_of(
    alloc: Global,
    sessions: &Rows<Boxed<Session>, SESSION_LIMIT>,
) -> Result<Rows<DigestRow, SESSION_LIMIT>, AllocError>
    ensures { IfOk result (λ digests. digests ≡ digest_rows sessions.now) }
{
    let mut digests = Rows::new(alloc)?;
    for session in sessions.as_slice() {
        digests.put(digest_row(session.get()));
    }
    Ok(digests)
}

impl NamedRecords {
    /// Takes the memory for as many digests as there may be sessions.
    pub fn new(alloc: Global, records: Records) -> Result<NamedRecords, AllocError>
        ensures { IfOk result (λ named. named ≡ records) }
    {
        match digests_of(alloc, &records.sessions) {
            Ok(digests) => Ok(NamedRecords { records, digests }),
            Err(fault) => {
                drop(records);
                Err(fault)
            }
        }
    }

    /// What is kept. Takes no memory.
    pub fn records(&self) -> &Records
        ensures { result.now ≡ self.now }
    {
        &self.records
    }

    /// The session of a client identifier, if it stands. Takes no memory.
    pub fn session_named(&self, client: &str) -> Option<&Session>
        ensures { option_copied result
            ≡ find (λ s. bytes_eq s.client client.now) self.now.sessions }
    {
        let digest = digest_of(client);
        let sessions = self.records.sessions.as_slice();
        let digests = self.digests.as_slice();
        for place in 0..sessions.len() {
            if is_named(&sessions[place], &digests[place], client, digest) {
                return Some(sessions[place].get());
            }
        }
        None
    }

    /// Puts a session by its birth. Takes no memory.
    pub fn put_session(&mut self, session: Boxed<Session>)
        ensures { self.new ≡ record self.old {
          sessions = put_row birth_of session_limit session self.old.sessions;
        } }
    {
        self.digests.put(digest_row(session.get()));
        self.records.sessions.put(session);
    }

    /// Takes a session out whole, if it stands. Takes no memory.
    pub fn take_session(&mut self, birth: u64) -> Option<Boxed<Session>>
        ensures session { result ≡ row_at birth_of birth self.old.sessions }
        ensures rest { self.new ≡ changed (RemoveSession birth) self.old }
    {
        self.digests.remove(birth);
        self.records.sessions.take(birth)
    }

    /// Takes the copy at a place out of a session's queue, if there is one. Takes no memory.
    pub fn take_copy(&mut self, birth: u64, place: u64) -> Option<Boxed<CopyRow>>
        ensures row { result ≡ copy_at birth place self.old }
        ensures rest { self.new ≡ changed (RemoveCopy birth place) self.old }
    {
        self.records.take_copy(birth, place)
    }

    /// Takes a retained message out, if it stands. Takes no memory.
    pub fn take_retained(&mut self, place: u64) -> Option<Boxed<RetainedMessage>>
        ensures kept { result ≡ row_at kept_place place self.old.retained }
        ensures rest { self.new ≡ changed (RemoveRetained place) self.old }
    {
        self.records.retained.take(place)
    }

    /// Sets a session's own row, if the session stands.
    fn set_columns(&mut self, row: Columns)
        ensures { self.new ≡ changed (SetSession row) self.old }
    {
        self.digests.edit(row.birth, digest_of(row.client.as_str()));
        self.records.change(Change::SetSession { row });
    }

    /// Puts a session's own row: the session keeps its other rows, and a new one has none.
    fn put_row(&mut self, row: SessionRow)
        ensures { self.new ≡ changed (PutSession row) self.old }
    {
        if self.records.sessions.has(row.birth()) {
            self.set_columns(row.into_columns());
        } else {
            self.put_session(row.into_session());
        }
    }

    /// Makes one change. Takes no memory.
    pub fn change(&mut self, change: Change)
        ensures { self.new ≡ changed change self.old }
    {
        match change {
            Change::PutSession { row } => self.put_row(row),
            Change::SetSession { row } => self.set_columns(row),
            Change::RemoveSession { birth } => drop(self.take_session(birth)),
            other => self.records.change(other),
        }
    }
}
