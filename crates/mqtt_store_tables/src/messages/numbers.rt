//! Numbers on their way into SQL and out of it.
ghost use Rattle.std.specs.Prelude.{◌≡◌, ◌<◌, ◌≤◌, ◌^◌, IfOk, IfSome, length, map, option_map, pos};
ghost use Rattle.sqlite_value.specs.Order.{column};
ghost use Rattle.mqtt_store_tables.specs.messages.References.{as_row, as_rows};

use sqlite::{Error, Row};
use std::alloc::Global;

/// A number as SQL has it.
pub fn whole(n: u64) -> i64
    requires { n < 2 ^ 63 }
    ensures { result ≡ pos n }
{
    n as i64
}

/// A number that may be missing, as SQL has it.
pub fn whole_or_none(n: Option<u64>) -> Option<i64>
    requires { IfSome n (λ n. n < 2 ^ 63) }
    ensures { result ≡ option_map pos n }
{
    match n {
        Some(n) => Some(whole(n)),
        None => None,
    }
}

/// The number of the one row that there is, or none if there is no row.
pub(crate) fn number_of(rows: &[Row]) -> Result<Option<u64>, Error>
    ensures { length rows.now ≤ 1 → IfOk result (λ it. map (λ r. column r 0) rows.now ≡ as_row it) }
{
    match rows {
        [row] => Ok(Some(row.get(0)?)),
        _ => Ok(None),
    }
}

/// The number of each row.
pub(crate) fn numbers_of(alloc: Global, rows: &[Row]) -> Result<Vec<u64>, Error>
    ensures { IfOk result (λ found. map (λ r. column r 0) rows.now ≡ as_rows found.items) }
{
    let mut found = Vec::new(alloc);
    for row in rows {
        found.push(row.get(0)?)?;
    }
    Ok(found)
}
