//! Copies that are put by one statement, where none stands.
ghost use Rattle.std.specs.Prelude.{◌≡◌, ◌++◌, ◌<◌, ◌^◌, ◌∷◌, ◌↔◌, [], false, IfOk, IsTrue, OnOk};
ghost use Rattle.sqlite.specs.Held.{state};
ghost use Rattle.sqlite.specs.State.{HasCleanDisk, ExecutesInside};
ghost use Rattle.sqlite.specs.Values.{bound};
ghost use Rattle.mqtt_store_tables.specs.forms.Settled.{StaysInside};
ghost use Rattle.mqtt_store_tables.specs.messages.Rows.{queued_row, IsSized};
ghost use Rattle.mqtt_store_tables.specs.together.Together.{Coming, coming_rows, InsertsEach};
ghost use Rattle.mqtt_store_tables.specs.messages.Changing.{ChangesAs};

use crate::messages::{QueuedColumns, fits, is_sized_copy, whole, whole_or_none};
use sqlite::types::ValueRef;
use sqlite::{Alter, Constraint, Error, ErrorCode, Transaction, params};
use std::alloc::AllocError;

/// Adds values to parameters.
fn push_all<'a>(out: &mut Vec<ValueRef<'a>>, values: &[ValueRef<'a>]) -> Result<(), AllocError>
    ensures { OnOk result (out.new.items ≡ out.old.items ++ values.now) }
{
    for value in values {
        out.push(*value)?;
    }
    Ok(())
}

/// Adds a copy's columns to parameters, in the order of its row.
fn push_columns<'a>(
    out: &mut Vec<ValueRef<'a>>,
    birth: u64,
    place: u64,
    copy: &QueuedColumns<'a>,
) -> Result<(), AllocError>
    requires birth { birth < 2 ^ 63 }
    requires place { place < 2 ^ 63 }
    requires sized { IsSized copy.now }
    ensures { OnOk result (bound out.new.items ≡ bound out.old.items ++ queued_row birth place copy.now) }
{
    let birth = whole(birth);
    let place = whole(place);
    let publication = whole(copy.publication);
    let cause = u32::from(copy.cause);
    let cause_n = whole(copy.cause_n);
    let identifier = whole_or_none(copy.identifier);
    let phase = u32::from(copy.phase);
    let order = whole_or_none(copy.order);
    let qos = u32::from(copy.qos);
    let arrived = whole(copy.arrived);
    push_all(
        out,
        params![
            birth,
            place,
            publication,
            cause,
            copy.cause_text,
            cause_n,
            identifier,
            phase,
            order,
            qos,
            copy.retain,
            copy.identifiers,
            arrived
        ],
    )
}

/// Adds a copy's columns to the parameters of `insert_four`, and answers whether SQL has all of its
/// numbers; if not, nothing is added.
pub fn push_copy<'a>(
    out: &mut Vec<ValueRef<'a>>,
    birth: u64,
    place: u64,
    copy: &QueuedColumns<'a>,
) -> Result<bool, AllocError>
    ensures added { IfOk result (λ done. IsTrue done → bound out.new.items ≡ bound out.old.items ++ queued_row birth place copy.now) }
    ensures fits { IfOk result (λ done. IsTrue done ↔ (birth < 2 ^ 63) × (place < 2 ^ 63) × IsSized copy.now) }
    ensures refused { IfOk result (λ done. done ≡ false → out.new.items ≡ out.old.items) }
{
    if fits(birth) && fits(place) && is_sized_copy(copy) {
        push_columns(out, birth, place, copy)?;
        return Ok(true);
    }
    Ok(false)
}

/// Runs a statement on parameters.
fn run_on<S: Alter>(
    tx: &mut Transaction<'_, S>,
    sql: &str,
    columns: &[ValueRef<'_>],
) -> Result<usize, Error>
    ensures same_reference { tx.new.conn.ghost_name ≡ tx.old.conn.ghost_name }
    ensures runs { HasCleanDisk (state S.Store tx.new.conn.now) → IsTrue (state S.Store tx.old.conn.now).in_transaction
        → ExecutesInside 0 sql.now (bound columns.now) (state S.Store tx.old.conn.now) (state S.Store tx.new.conn.now) result }
    ensures inside { StaysInside (state S.Store tx.old.conn.now) (state S.Store tx.new.conn.now) }
{
    tx.execute(sql, columns)
}

/// Puts four copies if none stands at any of their places, and answers whether it did. The sessions
/// and the messages must stand.
pub fn insert_four<S: Alter>(
    tx: &mut Transaction<'_, S>,
    columns: &[ValueRef<'_>],
) -> Result<bool, Error>
    ensures same_reference { tx.new.conn.ghost_name ≡ tx.old.conn.ghost_name }
    ensures put { (a b c d : Coming) → bound columns.now ≡ coming_rows (a ∷ b ∷ c ∷ d ∷ [])
        → ChangesAs S.Store tx.old.conn.now tx.new.conn.now result (λ making. InsertsEach making (a ∷ b ∷ c ∷ d ∷ [])) }
    ensures inside { StaysInside (state S.Store tx.old.conn.now) (state S.Store tx.new.conn.now) }
{
    let inserted = run_on(
        tx,
        "INSERT INTO queued VALUES (?1, ?2, ?3, ?4, ?5, ?6, ?7, ?8, ?9, ?10, ?11, ?12, ?13), (?14, ?15, ?16, ?17, ?18, ?19, ?20, ?21, ?22, ?23, ?24, ?25, ?26), (?27, ?28, ?29, ?30, ?31, ?32, ?33, ?34, ?35, ?36, ?37, ?38, ?39), (?40, ?41, ?42, ?43, ?44, ?45, ?46, ?47, ?48, ?49, ?50, ?51, ?52)",
        columns,
    );
    match inserted {
        Ok(_) => Ok(true),
        Err(Error::SqliteFailure(ErrorCode::ConstraintViolation(Constraint::Unique))) => Ok(false),
        Err(error) => Err(error),
    }
}
