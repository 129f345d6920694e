//! A change of the tables of schema 2, with all that has to be written for it.
ghost use Rattle.std.specs.Prelude.{◌≡◌};
ghost use Rattle.sqlite.specs.Held.{state};
ghost use Rattle.mqtt_store_tables.specs.forms.Settled.{StaysInside};
ghost use Rattle.mqtt_store_tables.specs.declared.schema.tables.Making.{Making};
ghost use Rattle.mqtt_store_tables.specs.statements.Layout.{second_layout};
ghost use Rattle.mqtt_store_tables.specs.statements.Writing.{WritesIf, StaysWhole};
ghost use Rattle.mqtt_store_tables.specs.messages.Messages.{StandsIf};
ghost use Rattle.mqtt_store_tables.specs.messages.Step.{IsSized, Asks, Does};

use crate::messages::kept::KeptColumns;
use crate::messages::kinds::{change_queue, done, write_own, write_wish};
use crate::messages::messages::MessageColumns;
use crate::messages::queued::QueuedColumns;
use crate::messages::referring::{end_session, put_behind, put_retained, remove_retained};
use crate::statements::{SessionColumns, SubscriptionColumns, WillColumns};
use sqlite::{Alter, Error, Transaction};
use std::alloc::Global;

/// What is put, set or removed. A message comes with the first row that refers to it, and goes with
/// the last one.
#[derive(Drop)]
pub enum TableChange<'a> {
    SetNumber {
        name: &'a str,
        value: u64,
    },
    PutSession {
        birth: u64,
        session: SessionColumns<'a>,
    },
    RemoveSession {
        birth: u64,
    },
    PutWill {
        birth: u64,
        will: WillColumns<'a>,
    },
    RemoveWill {
        birth: u64,
    },
    PutSubscription {
        birth: u64,
        filter: &'a str,
        subscription: SubscriptionColumns,
    },
    RemoveSubscription {
        birth: u64,
        filter: &'a str,
    },
    PutOpen {
        birth: u64,
        identifier: u64,
    },
    RemoveOpen {
        birth: u64,
        identifier: u64,
    },
    PutCopy {
        birth: u64,
        place: u64,
        message: MessageColumns<'a>,
        copy: QueuedColumns<'a>,
    },
    SetCopy {
        birth: u64,
        place: u64,
        identifier: Option<u64>,
        phase: u8,
        order: Option<u64>,
    },
    RemoveCopy {
        birth: u64,
        place: u64,
    },
    PutRetained {
        place: u64,
        message: MessageColumns<'a>,
        kept: KeptColumns<'a>,
    },
    RemoveRetained {
        place: u64,
    },
}

/// Changes the tables so. Memory is taken for the numbers of a queue, at the end of its session.
pub fn change_tables<S: Alter>(
    alloc: Global,
    tx: &mut Transaction<'_, S>,
    change: &TableChange<'_>,
) -> Result<(), Error>
    requires { IsSized change.now }
    ensures same_reference { tx.new.conn.ghost_name ≡ tx.old.conn.ghost_name }
    ensures made { (making : Making) → WritesIf (second_layout making) S.Store tx.old.conn.now tx.new.conn.now result
        (Asks making change.now) (Does making change.now) }
    ensures whole { (making : Making) → StaysWhole (second_layout making) S.Store tx.old.conn.now tx.new.conn.now result }
    ensures inside { StaysInside (state S.Store tx.old.conn.now) (state S.Store tx.new.conn.now) }
{
    match change {
        TableChange::SetNumber { .. }
        | TableChange::PutSession { .. }
        | TableChange::PutWill { .. }
        | TableChange::RemoveWill { .. } => done(write_own(tx, change)),
        TableChange::PutSubscription { .. }
        | TableChange::RemoveSubscription { .. }
        | TableChange::PutOpen { .. }
        | TableChange::RemoveOpen { .. } => done(write_wish(tx, change)),
        TableChange::PutCopy { .. }
        | TableChange::SetCopy { .. }
        | TableChange::RemoveCopy { .. } => change_queue(tx, change),
        TableChange::RemoveSession { birth } => end_session(alloc, tx, *birth),
        TableChange::PutRetained {
            place,
            message,
            kept,
        } => put_retained(tx, *place, message, kept),
        TableChange::RemoveRetained { place } => remove_retained(tx, *place),
    }
}

/// Changes the tables so, if a message of the publication that is named stands: a further copy of it
/// is put alone.
pub fn change_knowing<S: Alter>(
    alloc: Global,
    tx: &mut Transaction<'_, S>,
    known: Option<u64>,
    change: &TableChange<'_>,
) -> Result<(), Error>
    requires { IsSized change.now }
    ensures same_reference { tx.new.conn.ghost_name ≡ tx.old.conn.ghost_name }
    ensures made { (making : Making) → WritesIf (second_layout making) S.Store tx.old.conn.now tx.new.conn.now result
        (λ db. StandsIf making known db × Asks making change.now db) (Does making change.now) }
    ensures whole { (making : Making) → StaysWhole (second_layout making) S.Store tx.old.conn.now tx.new.conn.now result }
    ensures inside { StaysInside (state S.Store tx.old.conn.now) (state S.Store tx.new.conn.now) }
{
    match change {
        TableChange::PutCopy {
            birth,
            place,
            copy,
            ..
        } if known == Some(copy.publication) => put_behind(tx, *birth, *place, copy),
        _ => change_tables(alloc, tx, change),
    }
}
