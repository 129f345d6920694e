//! What copies and retained messages of one publication share, and its row (3.3).
ghost use Rattle.std.specs.Prelude.{◌≡◌, ◌⊎◌, length, IfOk, IfErr, IsErrOf};
ghost use Rattle.mqtt_records.specs.state.Contents.{StoredMessage};
ghost use Rattle.mqtt_store_rows.specs.rows.Rows.{SaysMessage};

use crate::values::{blob, counted, is_short, passed, text, value_at};
use bytes::Bytes;
use mqtt_base::{QUEUE_LIMIT, RETAINED_LIMIT, SESSION_LIMIT, Text};
use mqtt_keep::KeepError;
use mqtt_records::{Content, PassedOn, Row};
use std::alloc::{AllocError, Global};
use std::marker::Model;

/// Messages: one for each copy in a queue, and one for each retained message (ours).
pub const MESSAGE_LIMIT: usize = 1_001_000;

const _: () = prove!(MESSAGE_LIMIT == SESSION_LIMIT * QUEUE_LIMIT + RETAINED_LIMIT);

/// A publication's topic, properties and payload, by its number.
#[derive(Drop)]
pub struct Message {
    publication: u64,
    topic: Text,
    properties: PassedOn,
    payload: Bytes,
}

impl Model for Message {
    ghost use Rattle.mqtt_records.specs.state.Contents.{StoredMessage};

    ghost Value = { StoredMessage };

    ghost view = { λ a. record {
      publication = a.publication;
      topic = a.topic;
      properties = a.properties;
      payload = a.payload;
    } };
}

impl Message {
    /// What a copy says that arrived then. It shares the message's bytes.
    pub fn content(&self, arrived: u64) -> Result<Content, AllocError>
        ensures { IfOk result (λ c. c ≡ record {
          topic = self.now.topic;
          properties = self.now.properties;
          payload = self.now.payload;
          arrived = arrived;
        }) }
    {
        Ok(Content {
            topic: self.topic.clone()?,
            properties: self.properties.clone()?,
            payload: self.payload.clone()?,
            arrived,
        })
    }

    /// Bytes of its payload. Takes no memory.
    pub fn payload_len(&self) -> usize
        ensures { result ≡ length self.now.payload }
    {
        self.payload.len()
    }

    /// Has it say other bytes as payload.
    pub fn set_payload(&mut self, payload: Bytes)
        ensures { self.new ≡ record self.old { payload = payload } }
    {
        self.payload = payload;
    }
}

impl Row for Message {
    ghost key_of = { λ message. message.publication };

    fn key(&self) -> u64 {
        self.publication
    }
}

/// A message. `Corrupt` if the row says none.
pub fn message_of(alloc: Global, row: &sqlite::Row) -> Result<Message, KeepError>
    ensures ok { IfOk result (λ m. SaysMessage m row.now) }
    ensures err { IsErrOf result KeepError.Corrupt
        → (m : StoredMessage) → SaysMessage m row.now → ⊥ }
    ensures fault { IfErr result (λ e. (e ≡ KeepError.Memory) ⊎ (e ≡ KeepError.Corrupt)) }
{
    if !is_short(value_at(row, 1), value_at(row, 2), value_at(row, 3)) {
        return Err(KeepError::Corrupt);
    }
    let Some(publication) = counted(value_at(row, 0)) else {
        return Err(KeepError::Corrupt);
    };
    let topic = text(alloc, value_at(row, 1))?;
    let properties = passed(alloc, value_at(row, 2))?;
    let payload = blob(alloc, value_at(row, 3))?;
    Ok(Message {
        publication,
        topic,
        properties,
        payload,
    })
}
