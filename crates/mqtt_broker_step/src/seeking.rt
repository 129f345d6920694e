//! A row of a list, sought by its key: first where it stands if no row before it has left.
ghost use Rattle.std.specs.Prelude.{◌≡◌, Some, option_copied, IfSome};
ghost use Rattle.mqtt_records.specs.lists.Order.{row_at};

use mqtt_records::{Row, Rows};

/// The row as far behind the first as its key is above the first one's, if it has the key: it stands there if none in
/// between has left.
#[tactic(auto, using(crate::proofs::RowThere::row_there))]
fn row_near<R: Row, const LIMIT: usize>(rows: &Rows<R, LIMIT>, key: u64) -> Option<&R>
    ensures { IfSome result (λ row. row_at R.key_of key rows.now ≡ Some row.now) }
{
    rows.as_slice();
    let first = rows.at(0)?;
    let place = key.checked_sub(first.key())?;
    let row = rows.at(place as usize)?;
    if row.key() == key { Some(row) } else { None }
}

/// The row with a key. Keys are given in order, so it is looked for first where it stands if none in between has left,
/// and then by halves. Takes no memory.
pub(crate) fn row_of<R: Row, const LIMIT: usize>(rows: &Rows<R, LIMIT>, key: u64) -> Option<&R>
    ensures { option_copied result ≡ row_at R.key_of key rows.now }
{
    match row_near(rows, key) {
        Some(row) => Some(row),
        None => rows.get(key),
    }
}
