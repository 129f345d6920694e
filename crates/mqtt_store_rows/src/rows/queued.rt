//! The row of a copy in a session's queue, joined with its message (3.3.4, 4.3).
ghost use Rattle.std.specs.Prelude.{◌≡◌, ◌≢◌, ◌⊎◌, MatchOption, IfOk, IfErr, IsErrOf};
ghost use Rattle.sqlite_value.specs.Order.{column};
ghost use Rattle.mqtt_base.specs.Service.{qos_number};
ghost use Rattle.mqtt_base.specs.declared.session.Qos.{Qos};
ghost use Rattle.mqtt_base.specs.declared.session.Qos.TheVariants.{AtMostOnce};
ghost use Rattle.mqtt_base.specs.declared.session.CopyId.{CopyId};
ghost use Rattle.mqtt_records.specs.declared.messages.message.Content.{Content};
ghost use Rattle.mqtt_records.specs.declared.messages.message.MessageCopy.{MessageCopy};
ghost use Rattle.mqtt_records.specs.messages.Queue.{CopyRow};
ghost use Rattle.mqtt_records.specs.state.Contents.{stored_message};
ghost use Rattle.mqtt_store_rows.specs.values.Values.{number};
ghost use Rattle.mqtt_store_rows.specs.values.Rows.{SaysId};
ghost use Rattle.mqtt_store_rows.specs.rows.Joins.{Stands, SaysSent, SaysCopy};

use crate::rows::identifiers::identifiers_of;
use crate::rows::messages::Messages;
use crate::rows::refers::{Refers, content_at};
use crate::values::{counted, flag, id_of, kept, phase_of, qos, value_at};
use mqtt_base::{CopyId, Qos};
use mqtt_keep::KeepError;
use mqtt_records::{Content, CopyFault, CopyRow, MessageCopy};
use sqlite::Row;
use std::alloc::Global;

/// The quality of service of a copy in a queue: 1 or 2.
fn queued_qos(row: &Row) -> Option<Qos>
    ensures { MatchOption result
        ((q : Qos) → column row.now 9 ≡ number (qos_number q) → q ≢ AtMostOnce → ⊥)
        (λ q. (column row.now 9 ≡ number (qos_number q)) × (q ≢ AtMostOnce)) }
{
    match qos(value_at(row, 9))? {
        Qos::AtMostOnce => None,
        Qos::AtLeastOnce => Some(Qos::AtLeastOnce),
        Qos::ExactlyOnce => Some(Qos::ExactlyOnce),
    }
}

/// What tells a copy from all others, and what its message says.
fn named(
    alloc: Global,
    messages: &Messages,
    row: &Row,
    arrived: u64,
) -> Result<(CopyId, Content), KeepError>
    ensures id { IfOk result (λ x. SaysId x.0 row.now) }
    ensures message { IfOk result (λ x. Stands messages.now (stored_message x.0.publication x.1)) }
    ensures arrived { IfOk result (λ x. x.1.arrived ≡ arrived) }
    ensures err { IsErrOf result KeepError.Corrupt → (id : CopyId) (c : Content)
        → SaysId id row.now → Stands messages.now (stored_message id.publication c) → ⊥ }
    ensures fault { IfErr result (λ e. (e ≡ KeepError.Memory) ⊎ (e ≡ KeepError.Corrupt)) }
{
    let id = match id_of(alloc, row) {
        Ok(id) => id,
        Err(fault) => return Err(fault),
    };
    match content_at(messages, id.publication, arrived) {
        Ok(content) => Ok((id, content)),
        Err(fault) => {
            drop(id);
            Err(fault)
        }
    }
}

/// What stands in a queue of a publication.
fn message_of(alloc: Global, messages: &Messages, row: &Row) -> Result<MessageCopy, KeepError>
    ensures ok { IfOk result (λ copy. SaysSent messages.now copy row.now) }
    ensures err { IsErrOf result KeepError.Corrupt
        → (copy : MessageCopy) → SaysSent messages.now copy row.now → ⊥ }
    ensures fault { IfErr result (λ e. (e ≡ KeepError.Memory) ⊎ (e ≡ KeepError.Corrupt)) }
{
    let Some(qos) = queued_qos(row) else {
        return Err(KeepError::Corrupt);
    };
    let Some(retain) = flag(value_at(row, 10)) else {
        return Err(KeepError::Corrupt);
    };
    let Some(arrived) = kept(value_at(row, 12)) else {
        return Err(KeepError::Corrupt);
    };
    let identifiers = match identifiers_of(alloc, value_at(row, 11)) {
        Ok(identifiers) => identifiers,
        Err(fault) => return Err(fault),
    };
    match named(alloc, messages, row, arrived) {
        Ok((id, content)) => Ok(MessageCopy {
            id,
            qos,
            retain,
            identifiers,
            content,
        }),
        Err(fault) => {
            drop(identifiers);
            Err(fault)
        }
    }
}

/// A copy in a queue, with the content of its message. `Corrupt` if the row says none, or if no
/// message has its number.
pub fn copy_of(alloc: Global, messages: &Messages, row: &Row) -> Result<CopyRow, KeepError>
    ensures ok { IfOk result (λ x. SaysCopy messages.now x row.now) }
    ensures err { IsErrOf result KeepError.Corrupt
        → (x : CopyRow) → SaysCopy messages.now x row.now → ⊥ }
    ensures fault { IfErr result (λ e. (e ≡ KeepError.Memory) ⊎ (e ≡ KeepError.Corrupt)) }
{
    let Some(place) = counted(value_at(row, 1)) else {
        return Err(KeepError::Corrupt);
    };
    let copy = match message_of(alloc, messages, row) {
        Ok(copy) => copy,
        Err(fault) => return Err(fault),
    };
    let Some(phase) = phase_of(
        copy.qos,
        value_at(row, 6),
        value_at(row, 7),
        value_at(row, 8),
    ) else {
        drop(copy);
        return Err(KeepError::Corrupt);
    };
    match CopyRow::new(alloc, place, phase, copy) {
        Ok(row) => Ok(row),
        Err(CopyFault::Unspelled) => Err(KeepError::Corrupt),
        Err(CopyFault::Memory) => Err(KeepError::Memory),
    }
}

impl Refers for CopyRow {
    ghost use Rattle.mqtt_store_rows.specs.rows.Joins.{SaysCopy};
    ghost use Rattle.mqtt_store_rows.specs.rows.Ones.{one_copy};

    ghost says = { SaysCopy };

    fn read(alloc: Global, messages: &Messages, row: &Row) -> Result<Self, KeepError> {
        copy_of(alloc, messages, row)
    }

    ghost one = { one_copy };

    ghost from_one = { λ messages x row h. h.own.place_range.0 };
}
