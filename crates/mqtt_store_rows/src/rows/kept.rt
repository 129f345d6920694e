//! The row of a retained message, joined with its message (3.3.1.3).
ghost use Rattle.std.specs.Prelude.{◌≡◌, ◌≢◌, ◌⊎◌, MatchBool, IfOk, IfErr, IsErrOf};
ghost use Rattle.sqlite_value.specs.Value.{owned};
ghost use Rattle.sqlite_value.specs.declared.value.Value.TheVariants as sql;
ghost use Rattle.mqtt_records.specs.declared.messages.message.RetainedMessage.{RetainedMessage};
ghost use Rattle.mqtt_records.specs.declared.messages.message.Content.{Content};
ghost use Rattle.mqtt_records.specs.state.Contents.{stored_message};
ghost use Rattle.mqtt_store_rows.specs.rows.Joins.{Stands, SaysRetained};

use crate::rows::messages::Messages;
use crate::rows::refers::{Refers, content_at};
use crate::values::{counted, kept, qos, text, value_at};
use mqtt_keep::KeepError;
use mqtt_records::{Content, RetainedMessage};
use sqlite::Row;
use sqlite::types::ValueRef;
use std::alloc::Global;

/// Whether it is this text.
fn is_text(value: ValueRef<'_>, text: &str) -> bool
    ensures { MatchBool result (owned value.entry ≡ sql.Text text.now) (owned value.entry ≢ sql.Text text.now) }
{
    match value {
        ValueRef::Text(bytes) => bytes == text.as_bytes(),
        _ => false,
    }
}

/// What the message of that number says, if its topic is the one in the column.
fn content_of(
    messages: &Messages,
    publication: u64,
    arrived: u64,
    topic: ValueRef<'_>,
) -> Result<Content, KeepError>
    ensures ok { IfOk result (λ c. Stands messages.now (stored_message publication c)) }
    ensures arrived { IfOk result (λ c. c.arrived ≡ arrived) }
    ensures topic { IfOk result (λ c. owned topic.entry ≡ sql.Text c.topic) }
    ensures err { IsErrOf result KeepError.Corrupt → (c : Content)
        → Stands messages.now (stored_message publication c)
        → owned topic.entry ≡ sql.Text c.topic → ⊥ }
    ensures fault { IfErr result (λ e. (e ≡ KeepError.Memory) ⊎ (e ≡ KeepError.Corrupt)) }
{
    let content = match content_at(messages, publication, arrived) {
        Ok(content) => content,
        Err(fault) => return Err(fault),
    };
    if is_text(topic, content.topic.as_str()) {
        Ok(content)
    } else {
        drop(content);
        Err(KeepError::Corrupt)
    }
}

/// A retained message, with the content of its message. `Corrupt` if the row says none, or if no
/// message has its number and topic.
pub fn retained_of(
    alloc: Global,
    messages: &Messages,
    row: &Row,
) -> Result<RetainedMessage, KeepError>
    ensures ok { IfOk result (λ kept. SaysRetained messages.now kept row.now) }
    ensures err { IsErrOf result KeepError.Corrupt
        → (kept : RetainedMessage) → SaysRetained messages.now kept row.now → ⊥ }
    ensures fault { IfErr result (λ e. (e ≡ KeepError.Memory) ⊎ (e ≡ KeepError.Corrupt)) }
{
    let Some(place) = counted(value_at(row, 0)) else {
        return Err(KeepError::Corrupt);
    };
    let Some(publication) = counted(value_at(row, 3)) else {
        return Err(KeepError::Corrupt);
    };
    let Some(qos) = qos(value_at(row, 4)) else {
        return Err(KeepError::Corrupt);
    };
    let Some(arrived) = kept(value_at(row, 5)) else {
        return Err(KeepError::Corrupt);
    };
    let sender = text(alloc, value_at(row, 2))?;
    match content_of(messages, publication, arrived, value_at(row, 1)) {
        Ok(content) => Ok(RetainedMessage {
            place,
            sender,
            publication,
            qos,
            content,
        }),
        Err(fault) => {
            drop(sender);
            Err(fault)
        }
    }
}

impl Refers for RetainedMessage {
    ghost use Rattle.mqtt_store_rows.specs.rows.Joins.{SaysRetained};
    ghost use Rattle.mqtt_store_rows.specs.rows.Ones.{one_retained};

    ghost says = { SaysRetained };

    fn read(alloc: Global, messages: &Messages, row: &Row) -> Result<Self, KeepError> {
        retained_of(alloc, messages, row)
    }

    ghost one = { one_retained };

    ghost from_one = { λ messages x row h. h.own.place_range.0 };
}
