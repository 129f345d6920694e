//! What is in memory of a copy in a queue (3.3, 4.1).
ghost use Rattle.std.specs.Prelude.{◌≡◌, ◌↔◌, IfOk, IsTrue};
ghost use Rattle.mqtt_records.specs.messages.Filling.{filling_of};
ghost use Rattle.mqtt_records.specs.messages.Held.{rest_in, IsSame};

use crate::messages::message::{Content, MessageCopy, SubscriptionIdentifiers};
use crate::messages::properties::PassedOn;
use bytes::Bytes;
use mqtt_base::{CopyId, Qos, Text};
use std::alloc::AllocError;
use std::marker::Model;
use std::sync::Arc;

/// What rules read of a copy, and its topic: what each row has of it.
#[derive(Drop)]
pub(crate) struct Rest {
    pub(crate) id: CopyId,
    pub(crate) qos: Qos,
    pub(crate) retain: bool,
    pub(crate) topic: Text,
    pub(crate) arrived: u64,
}

/// What a copy says beside its topic.
#[derive(Drop)]
pub(crate) struct Said {
    pub(crate) identifiers: SubscriptionIdentifiers,
    pub(crate) properties: PassedOn,
    pub(crate) payload: Bytes,
}

impl Model for Said {
    ghost use Rattle.mqtt_records.specs.messages.Filling.{Filling};

    ghost Value = { Filling };

    ghost view = { λ a. record {
      identifiers = a.identifiers;
      properties = a.properties;
      payload = a.payload;
    } };
}

/// What is in memory of what a copy says beside its topic.
#[derive(Drop)]
pub(crate) enum Held {
    /// All of it. Copies that say the same may have it in one place.
    Whole(Arc<Said>),
    /// Nothing.
    Slim,
}

/// A copy in two parts: what rules read with the topic, and what it says beside that. Takes no memory.
pub(crate) fn parted(copy: MessageCopy) -> (Rest, Said)
    ensures rest { result.0 ≡ rest_in copy }
    ensures said { result.1 ≡ filling_of copy }
{
    let MessageCopy {
        id,
        qos,
        retain,
        identifiers,
        content,
    } = copy;
    let Content {
        topic,
        properties,
        payload,
        arrived,
    } = content;
    let rest = Rest {
        id,
        qos,
        retain,
        topic,
        arrived,
    };
    let said = Said {
        identifiers,
        properties,
        payload,
    };
    (rest, said)
}

impl Clone for Rest {
    ghost is_clone = { λ value copy. copy ≡ value };

    fn clone(&self) -> Result<Rest, AllocError> {
        Ok(Rest {
            id: self.id.clone()?,
            qos: self.qos,
            retain: self.retain,
            topic: self.topic.clone()?,
            arrived: self.arrived,
        })
    }
}

/// Whether both say the same. Takes no memory.
fn are_alike(said: &Said, other: &Said) -> bool
    ensures { IsTrue result ↔ (said.now ≡ other.now) }
{
    said.identifiers.as_slice() == other.identifiers.as_slice()
        && said.properties.lend().is_same_as(&other.properties.lend())
        && said.payload == other.payload
}

/// Has what is said where the other has it, if both say the same. Takes no memory.
pub(crate) fn share(held: &mut Held, other: &Held)
    ensures { IsSame held.old held.new }
{
    let (Held::Whole(said), Held::Whole(there)) = (&*held, other) else {
        return;
    };
    if !are_alike(said, there) {
        return;
    }
    if let Ok(again) = there.clone() {
        *held = Held::Whole(again);
    }
}

/// The same once more, in the same place.
pub(crate) fn clone_of(held: &Held) -> Result<Held, AllocError>
    ensures { IfOk result (IsSame held.now) }
{
    match held {
        Held::Whole(said) => Ok(Held::Whole(said.clone()?)),
        Held::Slim => Ok(Held::Slim),
    }
}
