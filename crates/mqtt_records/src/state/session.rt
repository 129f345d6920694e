//! What is kept of a session: its row, Will, subscriptions, open identifiers and queue (4.1).
ghost use Rattle.std.specs.Prelude.{◌≡◌, [], IfOk};
ghost use Rattle.mqtt_records.specs.state.Session.{fresh, with_columns, with_will};

use crate::lists::{Boxed, CloneRow, Editable, Named, Parted, Row, Rows};
use crate::messages::{CopyPart, CopyRow, Will};
use crate::state::subscription::{Subscription, put_by_filter};
use mqtt_base::{OPEN_LIMIT, Phase, QUEUE_LIMIT, SUBSCRIPTION_LIMIT, Text};
use std::alloc::{AllocError, Global};
use std::marker::Model;
use std::mem;

/// A session (4.1).
#[derive(Drop)]
pub struct Session {
    /// Its number, from 1 in the order of births.
    pub birth: u64,
    /// The client identifier: no two sessions have the same.
    pub client: Text,
    /// Session Expiry Interval, in seconds; 0xFFFFFFFF: it doesn't expire (3.1.2.11.2).
    pub expiry: u32,
    /// When its connection closed: a moment in milliseconds; none while it is connected.
    pub closed: Option<u64>,
    /// The Will that may yet be published.
    pub will: Option<Will>,
    /// The subscriptions, by place.
    pub subscriptions: Rows<Boxed<Subscription>, SUBSCRIPTION_LIMIT>,
    /// The open identifiers of QoS 2 publications from the client, ascending (4.3.3).
    pub inbound: Rows<u16, OPEN_LIMIT>,
    /// The copies that haven't ended, by place.
    pub queue: Rows<Boxed<CopyRow>, QUEUE_LIMIT>,
}

impl Row for Session {
    ghost key_of = { λ session. session.birth };

    fn key(&self) -> u64 {
        self.birth
    }
}

impl Named for Session {
    ghost name_of = { λ session. session.client };

    fn name(&self) -> &str {
        self.client.as_str()
    }
}

impl CloneRow for Session {
    ghost clone_is = { λ value copy same. same };
}

/// The lists that a session has.
#[derive(Drop)]
struct Lists {
    subscriptions: Rows<Boxed<Subscription>, SUBSCRIPTION_LIMIT>,
    inbound: Rows<u16, OPEN_LIMIT>,
    queue: Rows<Boxed<CopyRow>, QUEUE_LIMIT>,
}

/// No rows, with room for as many as there may be.
fn new_lists(alloc: Global) -> Result<Lists, AllocError>
    ensures { IfOk result (λ lists. lists
        ≡ record { subscriptions = []; inbound = []; queue = [] }) }
{
    let subscriptions = Rows::new(alloc)?;
    match new_inner(alloc) {
        Ok((inbound, queue)) => Ok(Lists {
            subscriptions,
            inbound,
            queue,
        }),
        Err(fault) => {
            drop(subscriptions);
            Err(fault)
        }
    }
}

/// No identifiers and no copies, with room for as many as there may be.
fn new_inner(
    alloc: Global,
) -> Result<(Rows<u16, OPEN_LIMIT>, Rows<Boxed<CopyRow>, QUEUE_LIMIT>), AllocError>
    ensures { IfOk result (λ lists. (lists.0 ≡ []) × (lists.1 ≡ [])) }
{
    let inbound = Rows::new(alloc)?;
    match Rows::new(alloc) {
        Ok(queue) => Ok((inbound, queue)),
        Err(fault) => {
            drop(inbound);
            Err(fault)
        }
    }
}

/// Clones of the lists of a session.
fn clone_lists(session: &Session) -> Result<Lists, AllocError>
    ensures { IfOk result (λ lists. lists ≡ record {
      subscriptions = session.now.subscriptions;
      inbound = session.now.inbound;
      queue = session.now.queue;
    }) }
{
    let subscriptions = session.subscriptions.clone()?;
    match clone_inner(session) {
        Ok((inbound, queue)) => Ok(Lists {
            subscriptions,
            inbound,
            queue,
        }),
        Err(fault) => {
            drop(subscriptions);
            Err(fault)
        }
    }
}

/// Clones of the identifiers and copies of a session.
fn clone_inner(
    session: &Session,
) -> Result<(Rows<u16, OPEN_LIMIT>, Rows<Boxed<CopyRow>, QUEUE_LIMIT>), AllocError>
    ensures { IfOk result (λ lists. (lists.0 ≡ session.now.inbound)
        × (lists.1 ≡ session.now.queue)) }
{
    let inbound = session.inbound.clone()?;
    match session.queue.clone() {
        Ok(queue) => Ok((inbound, queue)),
        Err(fault) => {
            drop(inbound);
            Err(fault)
        }
    }
}

/// A clone of a Will that may be there.
fn clone_will(will: &Option<Will>) -> Result<Option<Will>, AllocError>
    ensures { IfOk result (λ copy. copy ≡ will.now) }
{
    match will {
        Some(will) => Ok(Some(will.clone()?)),
        None => Ok(None),
    }
}

/// Clones of the client identifier and the Will of a session.
fn clone_own(session: &Session) -> Result<(Text, Option<Will>), AllocError>
    ensures { IfOk result (λ own. (own.0 ≡ session.now.client) × (own.1 ≡ session.now.will)) }
{
    let client = session.client.clone()?;
    match clone_will(&session.will) {
        Ok(will) => Ok((client, will)),
        Err(fault) => {
            drop(client);
            Err(fault)
        }
    }
}

impl Clone for Session {
    ghost is_clone = { λ value copy. copy ≡ value };

    fn clone(&self) -> Result<Session, AllocError> {
        let lists = clone_lists(self)?;
        match clone_own(self) {
            Ok((client, will)) => Ok(Session {
                birth: self.birth,
                client,
                expiry: self.expiry,
                closed: self.closed,
                will,
                subscriptions: lists.subscriptions,
                inbound: lists.inbound,
                queue: lists.queue,
            }),
            Err(fault) => {
                drop(lists);
                Err(fault)
            }
        }
    }
}

/// What a session's own row says, its Will, subscriptions, identifiers and copies left out.
#[derive(Drop)]
pub struct Columns {
    /// Its number, from 1 in the order of births.
    pub birth: u64,
    /// The client identifier.
    pub client: Text,
    /// Session Expiry Interval, in seconds.
    pub expiry: u32,
    /// When its connection closed: a moment in milliseconds; none while it is connected.
    pub closed: Option<u64>,
}

impl Clone for Columns {
    ghost is_clone = { λ value copy. copy ≡ value };

    fn clone(&self) -> Result<Columns, AllocError> {
        Ok(Columns {
            birth: self.birth,
            client: self.client.clone()?,
            expiry: self.expiry,
            closed: self.closed,
        })
    }
}

/// A session's own row, with all the memory that a new session takes.
#[derive(Drop)]
pub struct SessionRow {
    session: Boxed<Session>,
}

impl Model for SessionRow {
    ghost use Rattle.std.specs.Prelude.{◌≡◌};
    ghost use Rattle.mqtt_records.specs.declared.state.session.Columns.{Columns};
    ghost use Rattle.mqtt_records.specs.state.Session.{columns_of, fresh};

    ghost Value = { Columns };

    ghost view = { λ a. columns_of a.session };

    ghost invariant = { λ a. a.session ≡ fresh (columns_of a.session) };
}

impl SessionRow {
    /// Takes the memory of a new session with these columns.
    pub fn new(alloc: Global, columns: Columns) -> Result<SessionRow, AllocError>
        ensures { IfOk result (λ row. row ≡ columns) }
    {
        let lists = match new_lists(alloc) {
            Ok(lists) => lists,
            Err(fault) => {
                drop(columns);
                return Err(fault);
            }
        };
        let session = Session {
            birth: columns.birth,
            client: columns.client,
            expiry: columns.expiry,
            closed: columns.closed,
            will: None,
            subscriptions: lists.subscriptions,
            inbound: lists.inbound,
            queue: lists.queue,
        };
        let session = Boxed::new(alloc, session)?;
        Ok(SessionRow { session })
    }

    /// The birth. Takes no memory.
    pub fn birth(&self) -> u64
        ensures { result ≡ self.now.birth }
    {
        self.session.get().birth
    }

    /// The new session. Takes no memory.
    pub fn into_session(self) -> Boxed<Session>
        ensures { result ≡ fresh self }
    {
        self.session
    }

    /// The columns. Takes no memory.
    pub fn into_columns(self) -> Columns
        ensures { result ≡ self }
    {
        let session = self.session.into_row();
        Columns {
            birth: session.birth,
            client: session.client,
            expiry: session.expiry,
            closed: session.closed,
        }
    }
}

impl Clone for SessionRow {
    ghost is_clone = { λ value copy. copy ≡ value };

    fn clone(&self) -> Result<SessionRow, AllocError> {
        Ok(SessionRow {
            session: self.session.clone()?,
        })
    }
}

/// A change of a part of a session.
#[derive(Drop)]
pub enum SessionPart {
    /// Its own row is this one.
    SetColumns { row: Columns },
    /// The Will is this one.
    PutWill { will: Will },
    /// There is no Will.
    RemoveWill,
    /// A subscription is put by its filter.
    PutSubscription { subscription: Boxed<Subscription> },
    /// The subscription to a filter is removed.
    RemoveSubscription { filter: Text },
    /// An identifier is opened.
    PutInbound { identifier: u16 },
    /// An identifier is closed.
    RemoveInbound { identifier: u16 },
    /// A copy is put by its place.
    PutCopy { row: Boxed<CopyRow> },
    /// The copy at a place comes into a phase.
    SetCopy { place: u64, phase: Phase },
    /// The copy at a place says nothing but its topic.
    SlimCopy { place: u64 },
    /// The copy at a place is removed.
    RemoveCopy { place: u64 },
}

/// Sets the columns of a session but its birth.
fn set_columns(session: &mut Session, row: Columns)
    ensures { session.new ≡ with_columns row session.old }
{
    let client = mem::replace(&mut session.client, row.client);
    drop(client);
    session.expiry = row.expiry;
    session.closed = row.closed;
}

/// Sets or removes the Will of a session.
fn set_will(session: &mut Session, will: Option<Will>)
    ensures { session.new ≡ with_will will session.old }
{
    let old = mem::replace(&mut session.will, will);
    drop(old);
}

impl Editable for Session {
    type Part = SessionPart;

    ghost use Rattle.mqtt_records.specs.state.Session.{part_changed};

    ghost edited = { part_changed };

    fn edit(&mut self, part: SessionPart) {
        match part {
            SessionPart::SetColumns { row } => set_columns(self, row),
            SessionPart::PutWill { will } => set_will(self, Some(will)),
            SessionPart::RemoveWill => set_will(self, None),
            SessionPart::PutSubscription { subscription } => {
                put_by_filter(&mut self.subscriptions, subscription);
            }
            SessionPart::RemoveSubscription { filter } => {
                self.subscriptions.remove_named(filter.as_str());
                drop(filter);
            }
            SessionPart::PutInbound { identifier } => self.inbound.put(identifier),
            SessionPart::RemoveInbound { identifier } => self.inbound.remove(u64::from(identifier)),
            SessionPart::PutCopy { row } => self.queue.put(row),
            SessionPart::SetCopy { place, phase } => {
                self.queue.edit(place, CopyPart::SetPhase { phase });
            }
            SessionPart::SlimCopy { place } => self.queue.edit(place, CopyPart::MakeSlim),
            SessionPart::RemoveCopy { place } => self.queue.let_go(place),
        }
    }

    ghost use Rattle.mqtt_records.specs.state.Session.{birth_of-part_changed};

    ghost key_kept = { birth_of-part_changed };
}

impl Parted for Session {
    type Place = u64;

    type Taken = Boxed<CopyRow>;

    ghost use Rattle.mqtt_records.specs.lists.Order.{row_at};
    ghost use Rattle.mqtt_records.specs.state.Session.{copy_place, without_copy};

    ghost taken = { λ place session. row_at copy_place place session.queue };

    ghost left = { without_copy };

    fn take_part(&mut self, place: u64) -> Option<Boxed<CopyRow>> {
        self.queue.take(place)
    }

    ghost use Rattle.std.proofs.Common.{refl};

    ghost left_key = { λ place session. refl };
}
