//! Further copies of a publication that are put by one statement.
ghost use Rattle.std.specs.Prelude.{◌≡◌, ◌++◌, ◌∷◌, ◌≤◌, [], List, None, IfOk, IfSome, IsTrue, length};
ghost use Rattle.sqlite.specs.Held.{state};
ghost use Rattle.sqlite.specs.Values.{bound};
ghost use Rattle.mqtt_store_tables.specs.forms.Settled.{StaysInside};
ghost use Rattle.mqtt_store_tables.specs.messages.Changing.{ChangesAs};
ghost use Rattle.mqtt_store_tables.specs.together.Together.{Coming, coming_row, coming_rows};
ghost use Rattle.mqtt_store_database.specs.committing.Together.{PutsFurther, PutFurther, PutsTogether, PutsFront};

use crate::committing::columns::queued_columns;
use mqtt_records::Change;
use mqtt_store_tables::together::{insert_four, push_copy};
use sqlite::types::ValueRef;
use sqlite::{Alter, Error, ErrorCode, Transaction};
use std::alloc::{AllocError, Global};

/// How many parameters four copies have.
const FOUR: usize = 52;

/// Adds the columns of the copy that a change puts, if it is one of the publication that is named,
/// is not slim in memory, and has no Subscription Identifier. Answers whether it did.
fn push_further<'a>(
    out: &mut Vec<ValueRef<'a>>,
    known: Option<u64>,
    change: &'a Change,
) -> Result<bool, AllocError>
    ensures { IfOk result (λ done. IsTrue done → (c : Coming) × PutsFurther known change.now c
        × (bound out.new.items ≡ bound out.old.items ++ coming_row c)) }
{
    let Change::PutCopy { birth, row } = change else {
        return Ok(false);
    };
    let row = row.get();
    let Some(copy) = row.whole() else {
        return Ok(false);
    };
    if known != Some(copy.id.publication) || !copy.identifiers.as_slice().is_empty() {
        return Ok(false);
    }
    push_copy(out, *birth, row.place(), &queued_columns(row, &[]))
}

/// Adds the columns of four copies, if each is a further one. Answers whether it did.
fn push_four<'a>(
    out: &mut Vec<ValueRef<'a>>,
    known: Option<u64>,
    one: &'a Change,
    two: &'a Change,
    three: &'a Change,
    four: &'a Change,
) -> Result<bool, AllocError>
    ensures { IfOk result (λ done. IsTrue done → (cs : List Coming) × PutFurther known (one.now ∷ two.now ∷ three.now ∷ four.now ∷ []) cs
        × (bound out.new.items ≡ bound out.old.items ++ coming_rows cs)) }
{
    if !push_further(out, known, one)? || !push_further(out, known, two)? {
        return Ok(false);
    }
    if !push_further(out, known, three)? {
        return Ok(false);
    }
    push_further(out, known, four)
}

/// Puts four copies by one statement, if each is a further one of the publication that is named, has
/// no Subscription Identifier, and none stands at its place. Answers whether it did.
fn write_four<S: Alter>(
    alloc: Global,
    tx: &mut Transaction<'_, S>,
    known: Option<u64>,
    one: &Change,
    two: &Change,
    three: &Change,
    four: &Change,
) -> Result<bool, Error>
    ensures same_reference { tx.new.conn.ghost_name ≡ tx.old.conn.ghost_name }
    ensures put { ChangesAs S.Store tx.old.conn.now tx.new.conn.now result
        (λ making. PutsTogether making known (one.now ∷ two.now ∷ three.now ∷ four.now ∷ [])) }
    ensures inside { StaysInside (state S.Store tx.old.conn.now) (state S.Store tx.new.conn.now) }
{
    let Ok(mut columns) = Vec::with_capacity(alloc, FOUR) else {
        return Err(Error::SqliteFailure(ErrorCode::OutOfMemory));
    };
    match push_four(&mut columns, known, one, two, three, four) {
        Ok(true) => {
            let written = insert_four(tx, columns.as_slice());
            drop(columns);
            written
        }
        Ok(false) => {
            drop(columns);
            Ok(false)
        }
        Err(_) => {
            drop(columns);
            Err(Error::SqliteFailure(ErrorCode::OutOfMemory))
        }
    }
}

/// The first four changes, and those behind them, if there are four.
fn first_four(changes: &[Change]) -> Option<(&Change, &Change, &Change, &Change, &[Change])>
    ensures { IfSome result (λ it. changes.now ≡ it.0.now ∷ it.1.now ∷ it.2.now ∷ it.3.now ∷ it.4.now) }
{
    let (one, rest) = changes.split_first()?;
    let (two, rest) = rest.split_first()?;
    let (three, rest) = rest.split_first()?;
    let (four, rest) = rest.split_first()?;
    Some((one, two, three, four, rest))
}

/// Puts further copies of the publication that is named, four at a time, and answers which changes
/// are left.
pub(crate) fn write_behind<'a, S: Alter>(
    alloc: Global,
    tx: &mut Transaction<'_, S>,
    known: Option<u64>,
    changes: &'a [Change],
) -> Result<&'a [Change], Error>
    ensures same_reference { tx.new.conn.ghost_name ≡ tx.old.conn.ghost_name }
    ensures put { ChangesAs S.Store tx.old.conn.now tx.new.conn.now result (λ making left. PutsFront making known changes.now left.now) }
    ensures none { known ≡ None → IfOk result (λ left. left.now ≡ changes.now) }
    ensures fewer { IfOk result (λ left. length left.now ≤ length changes.now) }
    ensures inside { StaysInside (state S.Store tx.old.conn.now) (state S.Store tx.new.conn.now) }
{
    if known.is_none() {
        return Ok(changes);
    }
    let mut rest = changes;
    while let Some((one, two, three, four, behind)) = first_four(rest) {
        if !write_four(alloc, tx, known, one, two, three, four)? {
            return Ok(rest);
        }
        rest = behind;
    }
    Ok(rest)
}
