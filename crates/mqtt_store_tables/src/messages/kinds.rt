//! Changes of the tables of schema 2, kind by kind.
ghost use Rattle.std.specs.Prelude.{◌≡◌};
ghost use Rattle.sqlite.specs.Held.{state};
ghost use Rattle.mqtt_store_tables.specs.forms.Settled.{StaysInside};
ghost use Rattle.mqtt_store_tables.specs.declared.schema.tables.Making.{Making};
ghost use Rattle.mqtt_store_tables.specs.statements.Layout.{second_layout};
ghost use Rattle.mqtt_store_tables.specs.statements.Writing.{WritesIf, StaysWhole};
ghost use Rattle.mqtt_store_tables.specs.messages.Changing.{uncounted};
ghost use Rattle.mqtt_store_tables.specs.messages.Kinds.{own, wish, queue, kind_of};
ghost use Rattle.mqtt_store_tables.specs.messages.Step.{IsSized, Asks, Does};

use crate::messages::change::TableChange;
use crate::messages::queued::set_queued;
use crate::messages::referring::{put_copy, remove_copy};
use crate::statements::{
    put_open, put_session, put_subscription, put_will, remove_open, remove_subscription,
    remove_will, set_number,
};
use sqlite::{Alter, Error, Transaction};

/// Whether it was done, without the number of rows.
pub(crate) fn done(written: Result<usize, Error>) -> Result<(), Error>
    ensures { result ≡ uncounted written }
{
    match written {
        Ok(_) => Ok(()),
        Err(error) => Err(error),
    }
}

/// Writes a change of a number, of a session's own row or of its Will: one statement.
pub(crate) fn write_own<S: Alter>(
    tx: &mut Transaction<'_, S>,
    change: &TableChange<'_>,
) -> Result<usize, Error>
    requires kind { kind_of change.now ≡ own }
    requires sized { IsSized change.now }
    ensures same_reference { tx.new.conn.ghost_name ≡ tx.old.conn.ghost_name }
    ensures made { (making : Making) → WritesIf (second_layout making) S.Store tx.old.conn.now tx.new.conn.now result
        (Asks making change.now) (Does making change.now) }
    ensures whole { (making : Making) → StaysWhole (second_layout making) S.Store tx.old.conn.now tx.new.conn.now result }
    ensures inside { StaysInside (state S.Store tx.old.conn.now) (state S.Store tx.new.conn.now) }
{
    match change {
        TableChange::SetNumber { name, value } => set_number(tx, name, *value),
        TableChange::PutSession { birth, session } => put_session(tx, *birth, session),
        TableChange::PutWill { birth, will } => put_will(tx, *birth, will),
        TableChange::RemoveWill { birth } => remove_will(tx, *birth),
        _ => unreachable!(),
    }
}

/// Writes a change of a subscription or of an open identifier: one statement.
pub(crate) fn write_wish<S: Alter>(
    tx: &mut Transaction<'_, S>,
    change: &TableChange<'_>,
) -> Result<usize, Error>
    requires kind { kind_of change.now ≡ wish }
    requires sized { IsSized change.now }
    ensures same_reference { tx.new.conn.ghost_name ≡ tx.old.conn.ghost_name }
    ensures made { (making : Making) → WritesIf (second_layout making) S.Store tx.old.conn.now tx.new.conn.now result
        (Asks making change.now) (Does making change.now) }
    ensures whole { (making : Making) → StaysWhole (second_layout making) S.Store tx.old.conn.now tx.new.conn.now result }
    ensures inside { StaysInside (state S.Store tx.old.conn.now) (state S.Store tx.new.conn.now) }
{
    match change {
        TableChange::PutSubscription {
            birth,
            filter,
            subscription,
        } => put_subscription(tx, *birth, filter, subscription),
        TableChange::RemoveSubscription { birth, filter } => remove_subscription(
            tx, *birth, filter,
        ),
        TableChange::PutOpen { birth, identifier } => put_open(tx, *birth, *identifier),
        TableChange::RemoveOpen { birth, identifier } => remove_open(tx, *birth, *identifier),
        _ => unreachable!(),
    }
}

/// Changes the copies of a queue, and their messages with them.
pub(crate) fn change_queue<S: Alter>(
    tx: &mut Transaction<'_, S>,
    change: &TableChange<'_>,
) -> Result<(), Error>
    requires kind { kind_of change.now ≡ queue }
    requires sized { IsSized change.now }
    ensures same_reference { tx.new.conn.ghost_name ≡ tx.old.conn.ghost_name }
    ensures made { (making : Making) → WritesIf (second_layout making) S.Store tx.old.conn.now tx.new.conn.now result
        (Asks making change.now) (Does making change.now) }
    ensures whole { (making : Making) → StaysWhole (second_layout making) S.Store tx.old.conn.now tx.new.conn.now result }
    ensures inside { StaysInside (state S.Store tx.old.conn.now) (state S.Store tx.new.conn.now) }
{
    match change {
        TableChange::PutCopy {
            birth,
            place,
            message,
            copy,
        } => put_copy(tx, *birth, *place, message, copy),
        TableChange::SetCopy {
            birth,
            place,
            identifier,
            phase,
            order,
        } => done(set_queued(tx, *birth, *place, *identifier, *phase, *order)),
        TableChange::RemoveCopy { birth, place } => remove_copy(tx, *birth, *place),
        _ => unreachable!(),
    }
}
