//! What is kept of a message: content, Will, copy, retained message (3.1.3, 3.3).
ghost use Rattle.std.specs.Prelude.{◌≡◌, ◌++◌, [], ◌∷◌, List, IfOk, OnOk, length};

use crate::lists::{CloneRow, Named, Row};
use crate::messages::lent::{ContentRef, CopyRef};
use crate::messages::properties::PassedOn;
use bytes::Bytes;
use mqtt_base::{CopyId, Qos, Text};
use mqtt_props::PropList;
use std::alloc::{AllocError, Global};
use std::marker::Model;

/// Subscription Identifiers, in the order in which a copy carries them (3.3.2.3.8).
#[derive(Drop)]
pub struct SubscriptionIdentifiers {
    all: Vec<u32>,
}

impl Model for SubscriptionIdentifiers {
    ghost use Rattle.std.specs.Prelude.{List, ℕ};

    ghost Value = { List ℕ };

    ghost view = { λ a. a.all.items };
}

impl SubscriptionIdentifiers {
    /// None. Takes no memory.
    pub fn new(alloc: Global) -> SubscriptionIdentifiers
        ensures { result ≡ [] }
    {
        SubscriptionIdentifiers {
            all: Vec::new(alloc),
        }
    }

    /// Those of a slice.
    pub fn from_slice(alloc: Global, identifiers: &[u32]) -> Result<Self, AllocError>
        ensures { IfOk result (λ all. all ≡ identifiers.now) }
    {
        Ok(SubscriptionIdentifiers {
            all: Vec::from_slice(alloc, identifiers)?,
        })
    }

    /// Adds one at the end.
    pub fn push(&mut self, identifier: u32) -> Result<(), AllocError>
        ensures ok { OnOk result (self.new ≡ self.old ++ identifier ∷ []) }
    {
        self.all.push(identifier)?;
        Ok(())
    }

    /// All of them, in order. Takes no memory.
    pub fn as_slice(&self) -> &[u32]
        ensures { result.now ≡ self.now }
    {
        self.all.as_slice()
    }
}

impl Clone for SubscriptionIdentifiers {
    ghost is_clone = { λ value copy. copy ≡ value };

    fn clone(&self) -> Result<SubscriptionIdentifiers, AllocError> {
        let all = Vec::from_slice(*self.all.allocator(), &self.all)?;
        Ok(SubscriptionIdentifiers { all })
    }
}

/// What all copies of a publication have in common (3.3).
#[derive(Drop)]
pub struct Content {
    /// The topic name.
    pub topic: Text,
    /// Its properties as they are passed on.
    pub properties: PassedOn,
    /// The payload.
    pub payload: Bytes,
    /// When the publication was accepted: a moment in milliseconds.
    pub arrived: u64,
}

impl Content {
    /// Lends it. Takes no memory.
    pub fn lend(&self) -> ContentRef<'_>
        ensures { result ≡ self.now }
    {
        let Content {
            topic,
            properties,
            payload,
            arrived,
        } = self;
        ContentRef {
            topic,
            properties,
            payload,
            arrived: *arrived,
        }
    }
}

impl Clone for Content {
    ghost is_clone = { λ value copy. copy ≡ value };

    fn clone(&self) -> Result<Content, AllocError> {
        Ok(Content {
            topic: self.topic.clone()?,
            properties: self.properties.clone()?,
            payload: self.payload.clone()?,
            arrived: self.arrived,
        })
    }
}

/// The message that is published when a session's connection is lost (3.1.2.5).
#[derive(Drop)]
pub struct Will {
    /// Will Delay Interval, in seconds.
    pub delay: u32,
    /// The quality of service.
    pub qos: Qos,
    /// Whether it is to be retained.
    pub retain: bool,
    /// The Will Topic.
    pub topic: Text,
    /// The Will Properties as received.
    pub properties: PropList,
    /// The Will Payload.
    pub payload: Bytes,
}

impl Clone for Will {
    ghost is_clone = { λ value copy. copy ≡ value };

    fn clone(&self) -> Result<Will, AllocError> {
        Ok(Will {
            delay: self.delay,
            qos: self.qos,
            retain: self.retain,
            topic: self.topic.clone()?,
            properties: self.properties.clone()?,
            payload: self.payload.clone()?,
        })
    }
}

/// A publication as one session gets it (3.3.4, 4.8).
#[derive(Drop)]
pub struct MessageCopy {
    /// What tells it from all other copies: publication, session and cause.
    pub id: CopyId,
    /// The quality of service at which it is sent.
    pub qos: Qos,
    /// Whether RETAIN is sent as 1.
    pub retain: bool,
    /// The identifiers of the subscriptions for which it is sent.
    pub identifiers: SubscriptionIdentifiers,
    /// What it says.
    pub content: Content,
}

impl MessageCopy {
    /// Lends it. Takes no memory.
    pub fn lend(&self) -> CopyRef<'_>
        ensures { result ≡ self.now }
    {
        let MessageCopy {
            id,
            qos,
            retain,
            identifiers,
            content,
        } = self;
        CopyRef {
            id,
            qos: *qos,
            retain: *retain,
            identifiers,
            content: content.lend(),
        }
    }
}

impl Clone for MessageCopy {
    ghost is_clone = { λ value copy. copy ≡ value };

    fn clone(&self) -> Result<MessageCopy, AllocError> {
        Ok(MessageCopy {
            id: self.id.clone()?,
            qos: self.qos,
            retain: self.retain,
            identifiers: self.identifiers.clone()?,
            content: self.content.clone()?,
        })
    }
}

/// The retained message of a topic (3.3.1.3).
#[derive(Drop)]
pub struct RetainedMessage {
    /// Its place: in the order in which their topics were first retained, from 1.
    pub place: u64,
    /// The client identifier of the publisher.
    pub sender: Text,
    /// The publication's number, from 1.
    pub publication: u64,
    /// The publication's quality of service.
    pub qos: Qos,
    /// What it says.
    pub content: Content,
}

impl Row for RetainedMessage {
    ghost key_of = { λ kept. kept.place };

    fn key(&self) -> u64 {
        self.place
    }
}

impl Named for RetainedMessage {
    ghost name_of = { λ kept. kept.content.topic };

    fn name(&self) -> &str {
        self.content.topic.as_str()
    }
}

impl CloneRow for RetainedMessage {
    ghost clone_is = { λ value copy same. same };
}

impl Clone for RetainedMessage {
    ghost is_clone = { λ value copy. copy ≡ value };

    fn clone(&self) -> Result<RetainedMessage, AllocError> {
        Ok(RetainedMessage {
            place: self.place,
            sender: self.sender.clone()?,
            publication: self.publication,
            qos: self.qos,
            content: self.content.clone()?,
        })
    }
}
