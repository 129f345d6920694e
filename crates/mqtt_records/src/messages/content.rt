//! What a copy in a queue says (3.3).
ghost use Rattle.std.specs.Prelude.{◌≡◌, IfOk};
ghost use Rattle.mqtt_records.specs.messages.Filling.{said_by};

use crate::messages::held::Said;
use crate::messages::message::SubscriptionIdentifiers;
use crate::messages::properties::PassedOn;
use bytes::Bytes;
use mqtt_base::Text;
use std::alloc::{AllocError, Global};
use std::marker::Model;
use std::sync::Arc;

/// What a copy in a session's queue says, and its place there. What it says beside its topic comes in the place in which
/// a row keeps that, so that the row takes it in without memory.
#[derive(Drop)]
pub struct CopyContent {
    place: u64,
    topic: Text,
    said: Arc<Said>,
}

impl Model for CopyContent {
    ghost use Rattle.mqtt_records.specs.messages.Content.{CopyContent as Told};

    ghost Value = { Told };

    ghost view = { λ a. record {
      place = a.place;
      identifiers = a.said.value.identifiers;
      topic = a.topic;
      properties = a.said.value.properties;
      payload = a.said.value.payload;
    } };
}

impl CopyContent {
    /// What a copy at a place says: the Subscription Identifiers that are sent with it (3.3.2.3.8), and topic, properties
    /// and payload of its publication.
    pub fn new(
        alloc: Global,
        place: u64,
        identifiers: SubscriptionIdentifiers,
        topic: Text,
        properties: PassedOn,
        payload: Bytes,
    ) -> Result<CopyContent, AllocError>
        ensures { IfOk result (λ said. said ≡ record {
          place = place;
          identifiers = identifiers;
          topic = topic;
          properties = properties;
          payload = payload;
        }) }
    {
        let said = Said {
            identifiers,
            properties,
            payload,
        };
        match Arc::new(alloc, said) {
            Ok(said) => Ok(CopyContent { place, topic, said }),
            Err(_) => {
                drop(topic);
                Err(AllocError)
            }
        }
    }

    /// Its place in the queue. Takes no memory.
    pub fn place(&self) -> u64
        ensures { result ≡ self.now.place }
    {
        self.place
    }

    /// The Subscription Identifiers that are sent with it (3.3.2.3.8). Takes no memory.
    pub fn identifiers(&self) -> &SubscriptionIdentifiers
        ensures { result.now ≡ self.now.identifiers }
    {
        &self.said.identifiers
    }

    /// The topic of its publication. Takes no memory.
    pub fn topic(&self) -> &Text
        ensures { result.now ≡ self.now.topic }
    {
        &self.topic
    }

    /// The properties of its publication, as they are passed on. Takes no memory.
    pub fn properties(&self) -> &PassedOn
        ensures { result.now ≡ self.now.properties }
    {
        &self.said.properties
    }

    /// The payload of its publication. Takes no memory.
    pub fn payload(&self) -> &Bytes
        ensures { result.now ≡ self.now.payload }
    {
        &self.said.payload
    }

    /// What the copy says beside its topic. Takes no memory.
    pub(crate) fn into_said(self) -> Arc<Said>
        ensures { result.value ≡ said_by self }
    {
        let CopyContent {
            place: _,
            topic,
            said,
        } = self;
        drop(topic);
        said
    }
}

impl Clone for CopyContent {
    ghost is_clone = { λ value copy. copy ≡ value };

    /// Another owner of the same bytes.
    fn clone(&self) -> Result<CopyContent, AllocError> {
        Ok(CopyContent {
            place: self.place,
            topic: self.topic.clone()?,
            said: self.said.clone()?,
        })
    }
}
