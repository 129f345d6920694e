//! The statements on messages: what all copies of a publication and its retained message have alike.
ghost use Rattle.std.specs.Prelude.{◌≡◌, ◌<◌, ◌^◌, pos};
ghost use Rattle.sqlite.specs.Held.{state};
ghost use Rattle.mqtt_store_tables.specs.forms.Settled.{StaysInside};
ghost use Rattle.mqtt_store_tables.specs.declared.schema.tables.Making.{Making};
ghost use Rattle.mqtt_store_tables.specs.statements.Layout.{second_layout};
ghost use Rattle.mqtt_store_tables.specs.statements.Content.{IsWhole};
ghost use Rattle.mqtt_store_tables.specs.statements.Writing.{Writes};
ghost use Rattle.mqtt_store_tables.specs.messages.Rows.{message_row};
ghost use Rattle.mqtt_store_tables.specs.messages.Messages.{PutsMessage, Sweeps};

use crate::messages::numbers::whole;
use sqlite::{Alter, Error, Transaction, params};
use std::marker::Model;

/// What a message's row has behind the publication's number.
#[derive(Drop)]
pub struct MessageColumns<'a> {
    /// The topic name.
    pub topic: &'a str,
    /// The block of the properties that are passed on.
    pub properties: &'a [u8],
    /// The payload.
    pub payload: &'a [u8],
}

impl<'a> Model for MessageColumns<'a> {
    ghost use Rattle.mqtt_store_tables.specs.messages.Rows.{MessageColumns};

    ghost Value = { MessageColumns };

    ghost view = { λ m. record {
      topic = m.topic.now;
      props = m.properties.now;
      payload = m.payload.now;
    } };
}

/// Puts the message of a publication, unless one of its number stands.
pub fn put_message<S: Alter>(
    tx: &mut Transaction<'_, S>,
    publication: u64,
    message: &MessageColumns<'_>,
) -> Result<usize, Error>
    requires { publication < 2 ^ 63 }
    ensures same_reference { tx.new.conn.ghost_name ≡ tx.old.conn.ghost_name }
    ensures put { (making : Making) → Writes S.Store tx.old.conn.now tx.new.conn.now result (IsWhole (second_layout making))
        (PutsMessage making (pos publication) (message_row publication message.now)) }
    ensures inside { StaysInside (state S.Store tx.old.conn.now) (state S.Store tx.new.conn.now) }
{
    let publication = whole(publication);
    tx.execute(
        "INSERT INTO message SELECT ?1, ?2, ?3, ?4 WHERE NOT EXISTS (SELECT 1 FROM message WHERE pub = ?1)",
        params![
            publication,
            message.topic,
            message.properties,
            message.payload
        ],
    )
}

/// Removes the message of a publication, if no copy and no retained message refers to it.
pub fn sweep_message<S: Alter>(
    tx: &mut Transaction<'_, S>,
    publication: u64,
) -> Result<usize, Error>
    requires { publication < 2 ^ 63 }
    ensures same_reference { tx.new.conn.ghost_name ≡ tx.old.conn.ghost_name }
    ensures swept { (making : Making) → Writes S.Store tx.old.conn.now tx.new.conn.now result (IsWhole (second_layout making))
        (Sweeps making (pos publication)) }
    ensures inside { StaysInside (state S.Store tx.old.conn.now) (state S.Store tx.new.conn.now) }
{
    let publication = whole(publication);
    tx.execute(
        "DELETE FROM message WHERE pub = ?1 AND NOT EXISTS (SELECT 1 FROM queued WHERE queued.pub = message.pub) AND NOT EXISTS (SELECT 1 FROM kept WHERE kept.pub = message.pub)",
        params![publication],
    )
}
