//! What stands in the columns of a message, a copy and a retained message that are put in schema 2.
ghost use Rattle.std.specs.Prelude.{◌≡◌, map};
ghost use Rattle.mqtt_props.specs.Properties.{block, props};
ghost use Rattle.mqtt_records.specs.messages.PassedOn.{identified};
ghost use Rattle.mqtt_records.specs.state.Contents.{copy_message, retained_message};
ghost use Rattle.mqtt_store_database.specs.row_laws.Items.{message_columns, queued_columns, kept_columns};

use crate::written::{
    cause_n, cause_number, cause_text, packet_identifier, phase_number, release_order,
};
use mqtt_records::{CopyRow, RetainedMessage};
use mqtt_store_tables::messages::{KeptColumns, MessageColumns, QueuedColumns};

/// The columns of a copy's message, whose properties have that block, and which has that payload.
pub(crate) fn copy_message<'a>(
    row: &'a CopyRow,
    bytes: &'a [u8],
    payload: &'a [u8],
) -> MessageColumns<'a>
    requires block { bytes.now ≡ block row.now.copy.content.properties }
    requires payload { payload.now ≡ row.now.copy.content.payload }
    ensures { result ≡ message_columns (copy_message row.now) }
{
    MessageColumns {
        topic: row.topic().as_str(),
        properties: bytes,
        payload,
    }
}

/// Those of a retained message's.
pub(crate) fn retained_message<'a>(kept: &'a RetainedMessage, bytes: &'a [u8]) -> MessageColumns<'a>
    requires { bytes.now ≡ block kept.now.content.properties }
    ensures { result ≡ message_columns (retained_message kept.now) }
{
    MessageColumns {
        topic: kept.content.topic.as_str(),
        properties: bytes,
        payload: kept.content.payload.as_slice(),
    }
}

/// The columns of a copy, whose Subscription Identifiers have those bytes.
pub(crate) fn queued_columns<'a>(row: &'a CopyRow, identifiers: &'a [u8]) -> QueuedColumns<'a>
    requires { identifiers.now ≡ props (map identified row.now.copy.identifiers) }
    ensures { result ≡ queued_columns row.now }
{
    let id = row.id();
    let phase = row.phase();
    QueuedColumns {
        publication: id.publication,
        cause: cause_number(&id.cause),
        cause_text: cause_text(&id.cause),
        cause_n: cause_n(&id.cause),
        identifier: packet_identifier(phase),
        phase: phase_number(phase),
        order: release_order(phase),
        qos: row.qos() as u8,
        retain: row.retain(),
        identifiers,
        arrived: row.arrived(),
    }
}

/// The columns of a retained message.
pub(crate) fn kept_columns(kept: &RetainedMessage) -> KeptColumns<'_>
    ensures { result ≡ kept_columns kept.now }
{
    KeptColumns {
        topic: kept.content.topic.as_str(),
        sender: kept.sender.as_str(),
        publication: kept.publication,
        qos: kept.qos as u8,
        arrived: kept.content.arrived,
    }
}
