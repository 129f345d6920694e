//! Laws of rows, in other words than their definitions.
ghost use Rattle.std.specs.Prelude.{◌≡◌, ◌<◌, ◌==◌, ℕ, if◌then◌else◌, Some, None};
ghost use Rattle.std.specs.Prelude.{List, ◌∷◌, [], ◌++◌, length};
ghost use Rattle.mqtt_records.specs.lists.Order.{IsAscending, IsBelow, HasRoomFor};
ghost use Rattle.mqtt_records.specs.lists.Order.{row_at, put_row, remove_row};

use crate::lists::row::Row;

/// What was put is found by its key, what was removed isn't, and every other row is found as
/// before.
pub fn rows_are_found<R: Row>()
    ensures put { (limit k : ℕ) (row : R) (rows : List R)
        → HasRoomFor R.key_of limit (R.key_of row) rows
        → row_at R.key_of k (put_row R.key_of limit row rows)
        ≡ (if R.key_of row == k then Some row else row_at R.key_of k rows) }
    ensures removed { (k gone : ℕ) (rows : List R)
        → row_at R.key_of k (remove_row R.key_of gone rows)
        ≡ (if gone == k then None else row_at R.key_of k rows) }
{}

/// A row with a key above all others comes last.
pub fn newest_comes_last<R: Row>()
    ensures { (limit : ℕ) (row : R) (rows : List R)
        → IsBelow R.key_of (R.key_of row) rows
        → length rows < limit
        → put_row R.key_of limit row rows ≡ rows ++ row ∷ [] }
{}

/// A list is determined by what is found in it.
pub fn rows_are_determined<R: Row>()
    ensures { (rows others : List R)
        → IsAscending R.key_of rows
        → IsAscending R.key_of others
        → ((k : ℕ) → row_at R.key_of k rows ≡ row_at R.key_of k others)
        → rows ≡ others }
{}
