//! A copy that is lent, wherever its parts stand (3.3).
use crate::messages::message::SubscriptionIdentifiers;
use crate::messages::properties::PassedOn;
use bytes::Bytes;
use mqtt_base::{CopyId, Qos, Text};
use std::marker::Model;

/// What all copies of a publication have in common, lent (3.3).
#[derive(Drop)]
pub struct ContentRef<'a> {
    /// The topic name.
    pub topic: &'a Text,
    /// Its properties as they are passed on.
    pub properties: &'a PassedOn,
    /// The payload.
    pub payload: &'a Bytes,
    /// When the publication was accepted: a moment in milliseconds.
    pub arrived: u64,
}

impl<'a> Model for ContentRef<'a> {
    ghost use Rattle.mqtt_records.specs.declared.messages.message.Content.{Content};

    ghost Value = { Content };

    ghost view = { λ a. record {
      topic = a.topic.now;
      properties = a.properties.now;
      payload = a.payload.now;
      arrived = a.arrived;
    } };
}

/// A publication as one session gets it, lent (3.3.4, 4.8).
#[derive(Drop)]
pub struct CopyRef<'a> {
    /// What tells it from all other copies: publication, session and cause.
    pub id: &'a CopyId,
    /// The quality of service at which it is sent.
    pub qos: Qos,
    /// Whether RETAIN is sent as 1.
    pub retain: bool,
    /// The identifiers of the subscriptions for which it is sent.
    pub identifiers: &'a SubscriptionIdentifiers,
    /// What it says.
    pub content: ContentRef<'a>,
}

impl<'a> Model for CopyRef<'a> {
    ghost use Rattle.mqtt_records.specs.declared.messages.message.MessageCopy.{MessageCopy};

    ghost Value = { MessageCopy };

    ghost view = { λ a. record {
      id = a.id.now;
      qos = a.qos;
      retain = a.retain;
      identifiers = a.identifiers.now;
      content = a.content;
    } };
}
