//! The limits of a step, the order of its sessions, and the numbers that were given before it (ours).
ghost use Rattle.std.specs.Prelude.{◌≡◌};
ghost use Rattle.mqtt_records.specs.state.Session.{birth_of};
ghost use Rattle.mqtt_records.specs.lists.Order.{IsAscending};
ghost use Rattle.mqtt_broker_step.specs.Undoing.{publications_before, publications_set};
ghost use Rattle.mqtt_broker_step.specs.Undoing.{subscribes_before, subscribes_set};

use crate::step::Step;
use crate::undo::Undo;
use mqtt_records::{Change, Counter};
use mqtt_rules::Capacity;

/// What a change makes the number of the last publication.
fn publications_set(undo: &Undo) -> Option<u64>
    ensures { result ≡ publications_set undo.now }
{
    match undo {
        Undo::Make { change } => match change {
            Change::SetCounter { counter, value } => match counter {
                Counter::Publications => Some(*value),
                Counter::Births | Counter::Subscribes | Counter::Autos | Counter::Moment => None,
            },
            Change::PutSession { .. }
            | Change::SetSession { .. }
            | Change::RemoveSession { .. }
            | Change::PutWill { .. }
            | Change::RemoveWill { .. }
            | Change::PutSubscription { .. }
            | Change::RemoveSubscription { .. }
            | Change::PutInbound { .. }
            | Change::RemoveInbound { .. }
            | Change::PutCopy { .. }
            | Change::SetCopy { .. }
            | Change::RemoveCopy { .. }
            | Change::PutRetained { .. }
            | Change::RemoveRetained { .. } => None,
        },
        Undo::PutSession { .. }
        | Undo::PutLine { .. }
        | Undo::RemoveLine { .. }
        | Undo::EditLine { .. }
        | Undo::PutTelling { .. }
        | Undo::RemoveTelling { .. }
        | Undo::CutTelling { .. }
        | Undo::SetMoment { .. } => None,
    }
}

/// What a change makes the number of the last granted filter.
fn subscribes_set(undo: &Undo) -> Option<u64>
    ensures { result ≡ subscribes_set undo.now }
{
    match undo {
        Undo::Make { change } => match change {
            Change::SetCounter { counter, value } => match counter {
                Counter::Subscribes => Some(*value),
                Counter::Births | Counter::Publications | Counter::Autos | Counter::Moment => None,
            },
            Change::PutSession { .. }
            | Change::SetSession { .. }
            | Change::RemoveSession { .. }
            | Change::PutWill { .. }
            | Change::RemoveWill { .. }
            | Change::PutSubscription { .. }
            | Change::RemoveSubscription { .. }
            | Change::PutInbound { .. }
            | Change::RemoveInbound { .. }
            | Change::PutCopy { .. }
            | Change::SetCopy { .. }
            | Change::RemoveCopy { .. }
            | Change::PutRetained { .. }
            | Change::RemoveRetained { .. } => None,
        },
        Undo::PutSession { .. }
        | Undo::PutLine { .. }
        | Undo::RemoveLine { .. }
        | Undo::EditLine { .. }
        | Undo::PutTelling { .. }
        | Undo::RemoveTelling { .. }
        | Undo::CutTelling { .. }
        | Undo::SetMoment { .. } => None,
    }
}

/// The number of the last publication before changes were made, by what takes them back.
pub(crate) fn publications_before(journal: &[Undo], last: u64) -> u64
    ensures { result ≡ publications_before journal.now last }
{
    for undo in journal {
        if let Some(before) = publications_set(undo) {
            return before;
        }
    }
    last
}

/// The number of the last granted filter before changes were made, by what takes them back.
pub(crate) fn subscribes_before(journal: &[Undo], last: u64) -> u64
    ensures { result ≡ subscribes_before journal.now last }
{
    for undo in journal {
        if let Some(before) = subscribes_set(undo) {
            return before;
        }
    }
    last
}

impl Step {
    /// The limits. Takes no memory.
    pub fn limits(&self) -> Capacity
        ensures { result ≡ self.now.limits }
    {
        self.limits
    }

    /// Shows that the sessions are in the order of their births. Takes no memory.
    pub fn show_order(&self)
        ensures { IsAscending birth_of self.now.broker.records.sessions }
    {
        self.tables.records().sessions.as_slice();
    }

    /// The number of the last publication before the step. Takes no memory.
    pub fn publications_before(&self) -> u64
        ensures { result ≡ self.now.start.records.publications }
    {
        self.tables.publications_before()
    }

    /// The number of the last granted filter before the step. Takes no memory.
    pub fn subscribes_before(&self) -> u64
        ensures { result ≡ self.now.start.records.subscribes }
    {
        self.tables.subscribes_before()
    }
}
