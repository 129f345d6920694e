//! The row of a retained message (3.3.1.3).
ghost use Rattle.std.specs.Prelude.{◌≡◌, ◌⊎◌, IfOk, IfErr, IsErrOf};
ghost use Rattle.mqtt_records.specs.declared.messages.message.Content.{Content};
ghost use Rattle.mqtt_records.specs.declared.messages.message.RetainedMessage.{RetainedMessage};
ghost use Rattle.mqtt_store_rows.specs.taking_over.Rows.{SaysContent, SaysRetained};

use crate::values::{Stored, blob, counted, is_short, kept, passed, qos, text, value_at};
use mqtt_keep::KeepError;
use mqtt_records::{Content, RetainedMessage};
use sqlite::Row;
use std::alloc::Global;

/// What a retained message says.
fn content_of(alloc: Global, row: &Row) -> Result<Content, KeepError>
    ensures ok { IfOk result (λ c. SaysContent c row.now) }
    ensures err { IsErrOf result KeepError.Corrupt → (c : Content) → SaysContent c row.now → ⊥ }
    ensures fault { IfErr result (λ e. (e ≡ KeepError.Memory) ⊎ (e ≡ KeepError.Corrupt)) }
{
    if !is_short(value_at(row, 1), value_at(row, 5), value_at(row, 6)) {
        return Err(KeepError::Corrupt);
    }
    let Some(arrived) = kept(value_at(row, 7)) else {
        return Err(KeepError::Corrupt);
    };
    let topic = text(alloc, value_at(row, 1))?;
    let properties = passed(alloc, value_at(row, 5))?;
    let payload = blob(alloc, value_at(row, 6))?;
    Ok(Content {
        topic,
        properties,
        payload,
        arrived,
    })
}

/// A retained message. `Corrupt` if the row says none.
pub fn retained_of(alloc: Global, row: &Row) -> Result<RetainedMessage, KeepError>
    ensures ok { IfOk result (λ kept. SaysRetained kept row.now) }
    ensures err { IsErrOf result KeepError.Corrupt
        → (kept : RetainedMessage) → SaysRetained kept row.now → ⊥ }
    ensures fault { IfErr result (λ e. (e ≡ KeepError.Memory) ⊎ (e ≡ KeepError.Corrupt)) }
{
    let Some(place) = counted(value_at(row, 0)) else {
        return Err(KeepError::Corrupt);
    };
    let Some(publication) = counted(value_at(row, 3)) else {
        return Err(KeepError::Corrupt);
    };
    let Some(qos) = qos(value_at(row, 4)) else {
        return Err(KeepError::Corrupt);
    };
    let sender = text(alloc, value_at(row, 2))?;
    let content = match content_of(alloc, row) {
        Ok(content) => content,
        Err(fault) => return Err(fault),
    };
    Ok(RetainedMessage {
        place,
        sender,
        publication,
        qos,
        content,
    })
}

impl Stored for RetainedMessage {
    ghost use Rattle.mqtt_store_rows.specs.taking_over.Rows.{SaysRetained};
    ghost use Rattle.mqtt_store_rows.specs.taking_over.Ones.{one_retained};

    ghost says = { SaysRetained };

    fn read(alloc: Global, row: &Row) -> Result<Self, KeepError> {
        retained_of(alloc, row)
    }

    ghost one = { one_retained };

    ghost from_one = { λ x row h. h.place_range.0 };
}
