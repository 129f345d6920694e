//! A session's own row (4.1).
ghost use Rattle.std.specs.Prelude.{◌≡◌, ◌⊎◌, IfOk, IfErr, IsErrOf};
ghost use Rattle.mqtt_records.specs.declared.state.session.Columns.{Columns};
ghost use Rattle.mqtt_store_rows.specs.values.Rows.{SaysSession};

use crate::values::value::{counted, moment, seconds, text, value_at};
use mqtt_base::CLIENT_LIMIT;
use mqtt_keep::KeepError;
use mqtt_records::Columns;
use sqlite::Row;
use std::alloc::Global;

/// A session's own row. `Corrupt` if it says none.
pub fn columns_of(alloc: Global, row: &Row) -> Result<Columns, KeepError>
    ensures ok { IfOk result (λ s. SaysSession s row.now) }
    ensures err { IsErrOf result KeepError.Corrupt → (s : Columns) → SaysSession s row.now → ⊥ }
    ensures fault { IfErr result (λ e. (e ≡ KeepError.Memory) ⊎ (e ≡ KeepError.Corrupt)) }
{
    let Some(birth) = counted(value_at(row, 0)) else {
        return Err(KeepError::Corrupt);
    };
    let Some(expiry) = seconds(value_at(row, 2)) else {
        return Err(KeepError::Corrupt);
    };
    let Some(closed) = moment(value_at(row, 3)) else {
        return Err(KeepError::Corrupt);
    };
    let client = text(alloc, value_at(row, 1))?;
    let len = client.as_str().len();
    if len == 0 || len > CLIENT_LIMIT {
        return Err(KeepError::Corrupt);
    }
    Ok(Columns {
        birth,
        client,
        expiry,
        closed,
    })
}
