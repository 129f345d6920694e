//! The row of a copy in a session's queue in schema 1 (3.3.4, 4.3).
ghost use Rattle.std.specs.Prelude.{◌≡◌, ◌≢◌, ◌⊎◌, ℕ, List, MatchOption, IfOk, IfErr, IsErrOf};
ghost use Rattle.sqlite_value.specs.Order.{column};
ghost use Rattle.mqtt_base.specs.Service.{qos_number};
ghost use Rattle.mqtt_base.specs.declared.session.Qos.{Qos};
ghost use Rattle.mqtt_base.specs.declared.session.Qos.TheVariants.{AtMostOnce};
ghost use Rattle.mqtt_records.specs.declared.messages.message.Content.{Content};
ghost use Rattle.mqtt_records.specs.declared.messages.message.MessageCopy.{MessageCopy};
ghost use Rattle.mqtt_records.specs.messages.Queue.{CopyRow};
ghost use Rattle.mqtt_store_rows.specs.values.Values.{number};
ghost use Rattle.mqtt_store_rows.specs.values.Rows.{SaysSentContent, SaysMessage, SaysCopy};

use crate::taking_over::block::sent;
use crate::values::{
    Stored, blob, counted, flag, id_of, is_short, kept, phase_of, qos, text, value_at,
};
use mqtt_base::Qos;
use mqtt_keep::KeepError;
use mqtt_records::{Content, CopyFault, CopyRow, MessageCopy, SubscriptionIdentifiers};
use sqlite::Row;
use std::alloc::Global;

/// The quality of service of a copy in a queue: 1 or 2.
fn queued_qos(row: &Row) -> Option<Qos>
    ensures { MatchOption result
        ((q : Qos) → column row.now 10 ≡ number (qos_number q) → q ≢ AtMostOnce → ⊥)
        (λ q. (column row.now 10 ≡ number (qos_number q)) × (q ≢ AtMostOnce)) }
{
    match qos(value_at(row, 10))? {
        Qos::AtMostOnce => None,
        Qos::AtLeastOnce => Some(Qos::AtLeastOnce),
        Qos::ExactlyOnce => Some(Qos::ExactlyOnce),
    }
}

/// What a copy says, and its Subscription Identifiers.
fn content_of(alloc: Global, row: &Row) -> Result<(Content, SubscriptionIdentifiers), KeepError>
    ensures ok { IfOk result (λ x. SaysSentContent x.0 x.1 row.now) }
    ensures err { IsErrOf result KeepError.Corrupt
        → (c : Content) (ids : List ℕ) → SaysSentContent c ids row.now → ⊥ }
    ensures fault { IfErr result (λ e. (e ≡ KeepError.Memory) ⊎ (e ≡ KeepError.Corrupt)) }
{
    if !is_short(value_at(row, 9), value_at(row, 12), value_at(row, 13)) {
        return Err(KeepError::Corrupt);
    }
    let Some(arrived) = kept(value_at(row, 14)) else {
        return Err(KeepError::Corrupt);
    };
    let topic = text(alloc, value_at(row, 9))?;
    let payload = blob(alloc, value_at(row, 13))?;
    match sent(alloc, value_at(row, 12)) {
        Ok((properties, identifiers)) => {
            let content = Content {
                topic,
                properties,
                payload,
                arrived,
            };
            Ok((content, identifiers))
        }
        Err(fault) => Err(fault),
    }
}

/// What stands in a queue of a publication.
fn message_of(alloc: Global, row: &Row) -> Result<MessageCopy, KeepError>
    ensures ok { IfOk result (λ copy. SaysMessage copy row.now) }
    ensures err { IsErrOf result KeepError.Corrupt
        → (copy : MessageCopy) → SaysMessage copy row.now → ⊥ }
    ensures fault { IfErr result (λ e. (e ≡ KeepError.Memory) ⊎ (e ≡ KeepError.Corrupt)) }
{
    let Some(qos) = queued_qos(row) else {
        return Err(KeepError::Corrupt);
    };
    let Some(retain) = flag(value_at(row, 11)) else {
        return Err(KeepError::Corrupt);
    };
    let id = match id_of(alloc, row) {
        Ok(id) => id,
        Err(fault) => return Err(fault),
    };
    match content_of(alloc, row) {
        Ok((content, identifiers)) => Ok(MessageCopy {
            id,
            qos,
            retain,
            identifiers,
            content,
        }),
        Err(fault) => {
            drop(id);
            Err(fault)
        }
    }
}

/// A copy in a queue. `Corrupt` if the row says none.
pub fn copy_of(alloc: Global, row: &Row) -> Result<CopyRow, KeepError>
    ensures ok { IfOk result (λ x. SaysCopy x row.now) }
    ensures err { IsErrOf result KeepError.Corrupt → (x : CopyRow) → SaysCopy x row.now → ⊥ }
    ensures fault { IfErr result (λ e. (e ≡ KeepError.Memory) ⊎ (e ≡ KeepError.Corrupt)) }
{
    let Some(place) = counted(value_at(row, 1)) else {
        return Err(KeepError::Corrupt);
    };
    let copy = match message_of(alloc, row) {
        Ok(copy) => copy,
        Err(fault) => return Err(fault),
    };
    let Some(phase) = phase_of(
        copy.qos,
        value_at(row, 6),
        value_at(row, 7),
        value_at(row, 8),
    ) else {
        drop(copy);
        return Err(KeepError::Corrupt);
    };
    match CopyRow::new(alloc, place, phase, copy) {
        Ok(row) => Ok(row),
        Err(CopyFault::Unspelled) => Err(KeepError::Corrupt),
        Err(CopyFault::Memory) => Err(KeepError::Memory),
    }
}

impl Stored for CopyRow {
    ghost use Rattle.mqtt_store_rows.specs.values.Rows.{SaysCopy};
    ghost use Rattle.mqtt_store_rows.specs.values.Ones.{one_copy};

    ghost says = { SaysCopy };

    fn read(alloc: Global, row: &Row) -> Result<Self, KeepError> {
        copy_of(alloc, row)
    }

    ghost one = { one_copy };

    ghost from_one = { λ x row h. h.place_range.0 };
}
