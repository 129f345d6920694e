//! What the row says that joins a copy in a queue with its message (3.3).
ghost use Rattle.std.specs.Prelude.{◌≡◌, ◌⊎◌, IfOk, IfErr, IsErrOf};
ghost use Rattle.mqtt_records.specs.messages.Content.{CopyContent as Said};
ghost use Rattle.mqtt_store_database.specs.telling.Said.{SaysCopyContent};

use mqtt_keep::KeepError;
use mqtt_records::CopyContent;
use mqtt_store_rows::rows::identifiers_of;
use mqtt_store_rows::values::{blob, counted, passed, text, value_at};
use sqlite::Row;
use std::alloc::Global;

/// What a row says of a copy and its message. `Corrupt` if it says nothing.
pub(crate) fn content_of(alloc: Global, row: &Row) -> Result<CopyContent, KeepError>
    ensures ok { IfOk result (λ c. SaysCopyContent c row.now) }
    ensures err { IsErrOf result KeepError.Corrupt → (c : Said) → SaysCopyContent c row.now → ⊥ }
    ensures fault { IfErr result (λ e. (e ≡ KeepError.Memory) ⊎ (e ≡ KeepError.Corrupt)) }
{
    let Some(place) = counted(value_at(row, 0)) else {
        return Err(KeepError::Corrupt);
    };
    let identifiers = match identifiers_of(alloc, value_at(row, 1)) {
        Ok(identifiers) => identifiers,
        Err(fault) => return Err(fault),
    };
    let topic = text(alloc, value_at(row, 2))?;
    let properties = passed(alloc, value_at(row, 3))?;
    let payload = blob(alloc, value_at(row, 4))?;
    Ok(CopyContent::new(alloc, place, identifiers, topic, properties, payload)?)
}
