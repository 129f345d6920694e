//! The statements on copies, without what they have alike.
ghost use Rattle.std.specs.Prelude.{◌≡◌, ◌<◌, ◌^◌, ℤ, ◌∷◌, IfSome, IsTrue, pos};
ghost use Rattle.sqlite_value.specs.declared.value.Value.TheVariants.{Int};
ghost use Rattle.sqlite_rules.specs.Lists.{Has};
ghost use Rattle.sqlite.specs.State.{HasCleanDisk, ExecutesInside};
ghost use Rattle.sqlite.specs.Held.{state};
ghost use Rattle.mqtt_store_tables.specs.forms.Settled.{StaysInside};
ghost use Rattle.mqtt_store_tables.specs.declared.schema.tables.Making.{Making};
ghost use Rattle.mqtt_store_tables.specs.statements.Layout.{second_layout};
ghost use Rattle.mqtt_store_tables.specs.statements.Content.{IsWhole};
ghost use Rattle.mqtt_store_tables.specs.statements.Removal.{is_keyed, RemovesFrom};
ghost use Rattle.mqtt_store_tables.specs.statements.Put.{PutsNumbered};
ghost use Rattle.mqtt_store_tables.specs.statements.Writing.{Writes, StaysWhole};
ghost use Rattle.mqtt_store_tables.specs.messages.Places.{queued_tree};
ghost use Rattle.mqtt_store_tables.specs.messages.Rows.{QueuedColumns as Columns, queued_row, IsSized};
ghost use Rattle.mqtt_store_tables.specs.messages.Copies.{SetsQueued};
ghost use Rattle.mqtt_store_tables.specs.messages.Comings.{InsertsQueued};
ghost use Rattle.mqtt_store_tables.specs.messages.Changing.{ChangesAs};
ghost use Rattle.mqtt_store_tables.specs.messages.References.{Finds, Tells};

use crate::messages::numbers::{number_of, whole, whole_or_none};
use sqlite::{Alter, Constraint, Error, ErrorCode, Transaction, params};
use std::marker::Model;

/// What a copy's row has behind its birth and place.
#[derive(Drop)]
pub struct QueuedColumns<'a> {
    /// The publication's number, which its message has.
    pub publication: u64,
    /// 0 direct, 1 share, 2 retained.
    pub cause: u8,
    /// NAME/FILTER of a share; else empty.
    pub cause_text: &'a str,
    /// The number of the subscribe of a retained message; else 0.
    pub cause_n: u64,
    /// The packet identifier, unless it waits.
    pub identifier: Option<u64>,
    /// 0 waiting, 1 sent, 2 released, 3 released after it was too large.
    pub phase: u8,
    /// The order of release.
    pub order: Option<u64>,
    /// 1 or 2.
    pub qos: u8,
    /// Whether RETAIN is sent as 1.
    pub retain: bool,
    /// The Subscription Identifiers, as they are sent.
    pub identifiers: &'a [u8],
    /// When the publication was accepted: a moment in milliseconds.
    pub arrived: u64,
}

impl<'a> Model for QueuedColumns<'a> {
    ghost use Rattle.mqtt_store_tables.specs.messages.Rows.{QueuedColumns};

    ghost Value = { QueuedColumns };

    ghost view = { λ c. record {
      publication = c.publication;
      cause = c.cause;
      cause_text = c.cause_text.now;
      cause_n = c.cause_n;
      pid = c.identifier;
      phase = c.phase;
      rel = c.order;
      qos = c.qos;
      retain = c.retain;
      idents = c.identifiers.now;
      arrived = c.arrived;
    } };
}

/// Runs a statement that has a copy's columns as its parameters, in the order of its row.
fn run_on_columns<S: Alter>(
    tx: &mut Transaction<'_, S>,
    sql: &str,
    birth: u64,
    place: u64,
    copy: &QueuedColumns<'_>,
) -> Result<usize, Error>
    requires birth { birth < 2 ^ 63 }
    requires place { place < 2 ^ 63 }
    requires sized { IsSized copy.now }
    ensures same_reference { tx.new.conn.ghost_name ≡ tx.old.conn.ghost_name }
    ensures runs { HasCleanDisk (state S.Store tx.new.conn.now) → IsTrue (state S.Store tx.old.conn.now).in_transaction
        → ExecutesInside 0 sql.now (queued_row birth place copy.now) (state S.Store tx.old.conn.now) (state S.Store tx.new.conn.now) result }
    ensures inside { StaysInside (state S.Store tx.old.conn.now) (state S.Store tx.new.conn.now) }
{
    let birth = whole(birth);
    let place = whole(place);
    let publication = whole(copy.publication);
    let cause = u32::from(copy.cause);
    let cause_n = whole(copy.cause_n);
    let identifier = whole_or_none(copy.identifier);
    let phase = u32::from(copy.phase);
    let order = whole_or_none(copy.order);
    let qos = u32::from(copy.qos);
    let arrived = whole(copy.arrived);
    tx.execute(
        sql,
        params![
            birth,
            place,
            publication,
            cause,
            copy.cause_text,
            cause_n,
            identifier,
            phase,
            order,
            qos,
            copy.retain,
            copy.identifiers,
            arrived
        ],
    )
}

/// Puts a copy, in place of the one at its place. The session and the message must stand.
pub fn put_queued<S: Alter>(
    tx: &mut Transaction<'_, S>,
    birth: u64,
    place: u64,
    copy: &QueuedColumns<'_>,
) -> Result<usize, Error>
    requires birth { birth < 2 ^ 63 }
    requires place { place < 2 ^ 63 }
    requires sized { IsSized copy.now }
    ensures same_reference { tx.new.conn.ghost_name ≡ tx.old.conn.ghost_name }
    ensures put { (making : Making) → Writes S.Store tx.old.conn.now tx.new.conn.now result (IsWhole (second_layout making))
        (PutsNumbered (second_layout making) (queued_tree making) (queued_row birth place copy.now) (is_keyed (pos birth) (pos place))) }
    ensures inside { StaysInside (state S.Store tx.old.conn.now) (state S.Store tx.new.conn.now) }
{
    run_on_columns(
        tx,
        "INSERT OR REPLACE INTO queued VALUES (?1, ?2, ?3, ?4, ?5, ?6, ?7, ?8, ?9, ?10, ?11, ?12, ?13)",
        birth,
        place,
        copy,
    )
}

/// Puts a copy if none stands at its place, and answers whether it did. The session and the
/// message must stand.
pub(crate) fn insert_queued<S: Alter>(
    tx: &mut Transaction<'_, S>,
    birth: u64,
    place: u64,
    copy: &QueuedColumns<'_>,
) -> Result<bool, Error>
    requires birth { birth < 2 ^ 63 }
    requires place { place < 2 ^ 63 }
    requires sized { IsSized copy.now }
    ensures same_reference { tx.new.conn.ghost_name ≡ tx.old.conn.ghost_name }
    ensures put { ChangesAs S.Store tx.old.conn.now tx.new.conn.now result
        (λ making. InsertsQueued making birth place copy.now) }
    ensures inside { StaysInside (state S.Store tx.old.conn.now) (state S.Store tx.new.conn.now) }
{
    let inserted = run_on_columns(
        tx,
        "INSERT INTO queued VALUES (?1, ?2, ?3, ?4, ?5, ?6, ?7, ?8, ?9, ?10, ?11, ?12, ?13)",
        birth,
        place,
        copy,
    );
    match inserted {
        Ok(_) => Ok(true),
        Err(Error::SqliteFailure(ErrorCode::ConstraintViolation(Constraint::Unique))) => Ok(false),
        Err(error) => Err(error),
    }
}

/// Sets what a copy's handshake has reached.
pub fn set_queued<S: Alter>(
    tx: &mut Transaction<'_, S>,
    birth: u64,
    place: u64,
    pid: Option<u64>,
    phase: u8,
    rel: Option<u64>,
) -> Result<usize, Error>
    requires birth { birth < 2 ^ 63 }
    requires place { place < 2 ^ 63 }
    requires pid { IfSome pid (λ n. n < 2 ^ 63) }
    requires rel { IfSome rel (λ n. n < 2 ^ 63) }
    ensures same_reference { tx.new.conn.ghost_name ≡ tx.old.conn.ghost_name }
    ensures set { (making : Making) (id : ℤ) (c : Columns)
        → Has ((state S.Store tx.old.conn.now).now.trees (queued_tree making)) (Int id ∷ queued_row birth place c)
        → Writes S.Store tx.old.conn.now tx.new.conn.now result (IsWhole (second_layout making))
        (SetsQueued making birth place phase pid rel id c) }

    // If no copy has that place nothing is set.
    ensures whole { (making : Making) → StaysWhole (second_layout making) S.Store tx.old.conn.now tx.new.conn.now result }
    ensures inside { StaysInside (state S.Store tx.old.conn.now) (state S.Store tx.new.conn.now) }
{
    let birth = whole(birth);
    let place = whole(place);
    let pid = whole_or_none(pid);
    let rel = whole_or_none(rel);
    tx.execute(
        "UPDATE queued SET pid = ?3, phase = ?4, rel = ?5 WHERE birth = ?1 AND place = ?2",
        params![birth, place, pid, u32::from(phase), rel],
    )
}

/// Removes a copy. Its message stays.
pub fn remove_queued<S: Alter>(
    tx: &mut Transaction<'_, S>,
    birth: u64,
    place: u64,
) -> Result<usize, Error>
    requires birth { birth < 2 ^ 63 }
    requires place { place < 2 ^ 63 }
    ensures same_reference { tx.new.conn.ghost_name ≡ tx.old.conn.ghost_name }
    ensures removed { (making : Making) → Writes S.Store tx.old.conn.now tx.new.conn.now result (IsWhole (second_layout making))
        (RemovesFrom (second_layout making) (queued_tree making) (is_keyed (pos birth) (pos place))) }
    ensures inside { StaysInside (state S.Store tx.old.conn.now) (state S.Store tx.new.conn.now) }
{
    let birth = whole(birth);
    let place = whole(place);
    tx.execute(
        "DELETE FROM queued WHERE birth = ?1 AND place = ?2",
        params![birth, place],
    )
}

/// The number of the message to which the copy at a place refers, if there is one. Writes nothing.
pub fn pub_of_queued<S: Alter>(
    tx: &mut Transaction<'_, S>,
    birth: u64,
    place: u64,
) -> Result<Option<u64>, Error>
    requires birth { birth < 2 ^ 63 }
    requires place { place < 2 ^ 63 }
    ensures same_reference { tx.new.conn.ghost_name ≡ tx.old.conn.ghost_name }
    ensures found { (making : Making) → Tells (second_layout making) S.Store tx.old.conn.now tx.new.conn.now result
        (Finds (queued_tree making) 3 (is_keyed (pos birth) (pos place))) }
    ensures inside { StaysInside (state S.Store tx.old.conn.now) (state S.Store tx.new.conn.now) }
{
    let birth = whole(birth);
    let place = whole(place);
    let rows = tx.query_all(
        "SELECT pub FROM queued WHERE birth = ?1 AND place = ?2",
        params![birth, place],
    )?;
    number_of(rows.as_slice())
}
