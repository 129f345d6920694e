//! Whether keys, numbers or names differ from one another, by sorting them.
ghost use Rattle.std.specs.Prelude.{◌≡◌, ◌↔◌, IsTrue, IfOk, map};
ghost use Rattle.std.specs.List.{IsDistinct, IsAllAdjacentAnswer};
ghost use Rattle.std.specs.Ordering.{eq_by_cmp, is_lt};
ghost use Rattle.mqtt_records.specs.lists.Distinct.{AllDiffer};

use crate::lists::row::Named;
use std::alloc::{AllocError, Global};

/// Whether each key is below the next.
fn rise<K: Ord>(keys: &[K]) -> bool
    ensures { IsAllAdjacentAnswer (λ x y b. b ≡ is_lt (K.cmp x y)) keys.now result }
{
    keys.is_sorted_by(|key, next| key.cmp(next).is_lt())
}

/// Whether no two keys are equal. They are put in order. Takes no memory.
pub fn are_distinct<K: Ord>(keys: &mut [K]) -> bool
    ensures { IsTrue result ↔ IsDistinct (eq_by_cmp K.cmp) keys.old }
{
    keys.sort_unstable();
    rise(keys)
}

/// Whether no two numbers are equal. They are put in order. Takes no memory.
pub fn all_differ(numbers: &mut [u64]) -> bool
    ensures { IsTrue result ↔ AllDiffer numbers.old }
{
    are_distinct(numbers)
}

/// The names of rows, in their order.
fn names<R: Named>(alloc: Global, rows: &[R]) -> Result<Vec<&str>, AllocError>
    ensures { IfOk result (λ names. map (λ name. name.now) names.items ≡ map R.name_of rows.now) }
{
    let mut names = Vec::with_capacity(alloc, rows.len())?;
    for row in rows {
        names.push(row.name())?;
    }
    Ok(names)
}

/// Whether no two rows have the same name.
pub fn are_named_apart<R: Named>(alloc: Global, rows: &[R]) -> Result<bool, AllocError>
    ensures { IfOk result (λ b. IsTrue b ↔ AllDiffer (map R.name_of rows.now)) }
{
    let mut names = names(alloc, rows)?;
    let differ = are_distinct(&mut names);
    drop(names);
    Ok(differ)
}
