//! Changes of what is kept: a row put by its key, a row removed, a copy's phase set (4.1).
ghost use Rattle.std.specs.Prelude.{◌≡◌, IfOk};
ghost use Rattle.mqtt_records.specs.state.Saying.{PassesOn, AllPassOn};

use crate::lists::{Boxed, Shareable};
use crate::messages::{CopyRow, RetainedMessage, Will};
use crate::state::session::{Columns, SessionRow};
use crate::state::subscription::Subscription;
use mqtt_base::{Phase, Text};
use std::alloc::{AllocError, Global};

/// A number that is kept.
#[derive(Clone, Copy, Debug, PartialEq, Eq)]
pub enum Counter {
    /// The birth of the newest session.
    Births,
    /// The number of the newest publication.
    Publications,
    /// The number of the newest subscribe.
    Subscribes,
    /// The number in the newest client identifier that was assigned.
    Autos,
    /// The moment of the newest step, in milliseconds.
    Moment,
}

/// One change. A row that is put takes the place of one with its key; removing what isn't there
/// changes nothing.
#[derive(Drop)]
pub enum Change {
    /// The number is this one.
    SetCounter {
        counter: Counter,
        value: u64,
    },
    /// The session's own row is put by its birth. A new session has no other rows.
    PutSession {
        row: SessionRow,
    },
    /// The own row of the session with its birth is this one; its other rows stay. If no session
    /// has that birth, nothing changes.
    SetSession {
        row: Columns,
    },
    /// The session is removed with all its rows.
    RemoveSession {
        birth: u64,
    },
    /// The session's Will is this one.
    PutWill {
        birth: u64,
        will: Will,
    },
    /// The session has no Will.
    RemoveWill {
        birth: u64,
    },
    /// The session's subscription is put by its filter.
    PutSubscription {
        birth: u64,
        subscription: Boxed<Subscription>,
    },
    /// The session's subscription to the filter is removed.
    RemoveSubscription {
        birth: u64,
        filter: Text,
    },
    /// The identifier of a QoS 2 publication from the client is opened.
    PutInbound {
        birth: u64,
        identifier: u16,
    },
    /// The identifier is closed.
    RemoveInbound {
        birth: u64,
        identifier: u16,
    },
    /// The copy is put into the session's queue by its place.
    PutCopy {
        birth: u64,
        row: Boxed<CopyRow>,
    },
    /// The copy at the place comes into the phase.
    SetCopy {
        birth: u64,
        place: u64,
        phase: Phase,
    },
    /// The copy at the place is removed.
    RemoveCopy {
        birth: u64,
        place: u64,
    },
    /// The retained message is put by its place.
    PutRetained {
        kept: Boxed<RetainedMessage>,
    },
    /// The retained message at the place is removed.
    RemoveRetained {
        place: u64,
    },
}

impl Clone for Change {
    ghost is_clone = { λ value copy. copy ≡ value };

    fn clone(&self) -> Result<Change, AllocError> {
        Ok(match self {
            Change::SetCounter { counter, value } => Change::SetCounter {
                counter: *counter,
                value: *value,
            },
            Change::PutSession { row } => Change::PutSession { row: row.clone()? },
            Change::SetSession { row } => Change::SetSession { row: row.clone()? },
            Change::RemoveSession { birth } => Change::RemoveSession { birth: *birth },
            Change::PutWill { birth, will } => Change::PutWill {
                birth: *birth,
                will: will.clone()?,
            },
            Change::RemoveWill { birth } => Change::RemoveWill { birth: *birth },
            Change::PutSubscription {
                birth,
                subscription,
            } => Change::PutSubscription {
                birth: *birth,
                subscription: subscription.clone()?,
            },
            Change::RemoveSubscription { birth, filter } => Change::RemoveSubscription {
                birth: *birth,
                filter: filter.clone()?,
            },
            Change::PutInbound { birth, identifier } => Change::PutInbound {
                birth: *birth,
                identifier: *identifier,
            },
            Change::RemoveInbound { birth, identifier } => Change::RemoveInbound {
                birth: *birth,
                identifier: *identifier,
            },
            Change::PutCopy { birth, row } => Change::PutCopy {
                birth: *birth,
                row: row.clone()?,
            },
            Change::SetCopy {
                birth,
                place,
                phase,
            } => Change::SetCopy {
                birth: *birth,
                place: *place,
                phase: *phase,
            },
            Change::RemoveCopy { birth, place } => Change::RemoveCopy {
                birth: *birth,
                place: *place,
            },
            Change::PutRetained { kept } => Change::PutRetained {
                kept: kept.clone()?,
            },
            Change::RemoveRetained { place } => Change::RemoveRetained { place: *place },
        })
    }
}

/// Has what a copy that is put says where an earlier change has it, if that puts a copy that says the same. Takes no memory.
fn share(change: &mut Change, earlier: &Change)
    ensures { change.new ≡ change.old }
{
    if let Change::PutCopy { row, .. } = change
        && let Change::PutCopy { row: there, .. } = earlier
    {
        row.share(there);
    }
}

/// Clones of changes, in order. What copies of one message say stands in memory once, if they are put one behind the other.
pub fn clone_all(alloc: Global, changes: &[Change]) -> Result<Vec<Change>, AllocError>
    ensures { IfOk result (λ clones. clones.items ≡ changes.now) }
{
    let mut clones = Vec::with_capacity(alloc, changes.len())?;
    for change in changes {
        let mut again = change.clone()?;
        if let Some(earlier) = clones.last() {
            share(&mut again, earlier);
        }
        clones.push(again)?;
    }
    Ok(clones)
}

/// A copy that is put has properties as a publication passes them on. Takes no memory.
fn passes_on(change: &Change)
    ensures { PassesOn change.now }
{
    if let Change::PutCopy { row, .. } = change {
        row.get().passes_on();
    }
}

/// Each copy that is put has properties as a publication passes them on: their type gives it, and here it
/// is told (3.3.2.3). Takes no memory.
pub fn all_pass_on(changes: &[Change])
    ensures { AllPassOn changes.now }
{
    for change in changes {
        passes_on(change);
    }
}
