//! The row of a Will (3.1.2.5).
ghost use Rattle.std.specs.Prelude.{◌≡◌, ◌⊎◌, IfOk, IfErr, IsErrOf};
ghost use Rattle.mqtt_records.specs.declared.messages.message.Will.{Will};
ghost use Rattle.mqtt_store_rows.specs.values.Rows.{SaysWill};

use crate::values::block::will_properties;
use crate::values::value::{blob, flag, is_short, qos, seconds, text, value_at};
use mqtt_keep::KeepError;
use mqtt_records::Will;
use sqlite::Row;
use std::alloc::Global;

/// A Will. `Corrupt` if the row says none.
pub fn will_of(alloc: Global, row: &Row) -> Result<Will, KeepError>
    ensures ok { IfOk result (λ will. SaysWill will row.now) }
    ensures err { IsErrOf result KeepError.Corrupt → (will : Will) → SaysWill will row.now → ⊥ }
    ensures fault { IfErr result (λ e. (e ≡ KeepError.Memory) ⊎ (e ≡ KeepError.Corrupt)) }
{
    if !is_short(value_at(row, 2), value_at(row, 5), value_at(row, 6)) {
        return Err(KeepError::Corrupt);
    }
    let Some(delay) = seconds(value_at(row, 1)) else {
        return Err(KeepError::Corrupt);
    };
    let Some(qos) = qos(value_at(row, 3)) else {
        return Err(KeepError::Corrupt);
    };
    let Some(retain) = flag(value_at(row, 4)) else {
        return Err(KeepError::Corrupt);
    };
    let topic = text(alloc, value_at(row, 2))?;
    let payload = blob(alloc, value_at(row, 6))?;
    match will_properties(alloc, value_at(row, 5)) {
        Ok(properties) => Ok(Will {
            delay,
            qos,
            retain,
            topic,
            properties,
            payload,
        }),
        Err(fault) => Err(fault),
    }
}
