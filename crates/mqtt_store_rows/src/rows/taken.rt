//! The rows of one session, taken off the front of a list: whoever has read them lets them go.
ghost use Rattle.std.specs.Prelude.{◌≡◌, ◌∷◌, ◌++◌, MatchOption, IfOk, OnOk};
ghost use Rattle.mqtt_store_rows.specs.values.Lists.{IsOf, AllOf, BeginsOther};

use crate::values::{is_number, value_at};
use sqlite::Row;
use std::alloc::{AllocError, Global};
use std::collections::VecDeque;

/// Takes the first row off its list, if it is the session's.
fn take_row(rows: &mut VecDeque<Row>, birth: u64) -> Option<Row>
    ensures { MatchOption result ((rows.new.items ≡ rows.old.items) × BeginsOther birth rows.old.items)
        (λ row. (rows.old.items ≡ row ∷ rows.new.items) × IsOf birth row) }
{
    if is_number(value_at(rows.front()?, 0), birth) {
        rows.pop_front()
    } else {
        None
    }
}

/// Takes all rows of the session that stand at the front off their list.
pub(crate) fn take_rows(
    alloc: Global,
    rows: &mut VecDeque<Row>,
    birth: u64,
) -> Result<Vec<Row>, AllocError>
    ensures parts { IfOk result (λ part. rows.old.items ≡ part.items ++ rows.new.items) }
    ensures mine { IfOk result (λ part. AllOf birth part.items) }
    ensures rest { OnOk result (BeginsOther birth rows.new.items) }
{
    let mut part = Vec::new(alloc);
    while let Some(row) = take_row(rows, birth) {
        part.push(row)?;
    }
    Ok(part)
}
