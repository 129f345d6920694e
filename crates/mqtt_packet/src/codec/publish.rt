//! PUBLISH: a message of a client, or a copy of one for a client (3.3).

ghost use Rattle.std.specs.Prelude.{◌≡◌, ◌<◌, ◌++◌, Bool, IfOk, OnOk, OnErr, IsTrue, ◌↔◌, length};
ghost use Rattle.mqtt_base.specs.Reading.{Reads};
ghost use Rattle.mqtt_packet.specs.parts.Reading.{Gives};
ghost use Rattle.mqtt_packet.specs.parts.Writing.{KeepsFront};
ghost use Rattle.mqtt_packet.specs.declared.codec.head.Head.TheVariants as heads;
ghost use Rattle.mqtt_packet.specs.codec.Heads.{first};
ghost use Rattle.mqtt_packet.specs.codec.Publish.{delivery_head, delivery_qos, delivery_dup, delivery_identifier, delivery_at, publish_at, publish_of, publish_body, identifier_field, FitsPublish, FitsDelivery, lawful_identifier, lawful_publish};

use crate::parts::{Fault, both, stands};
use bytes::Bytes;
use mqtt_base::{Qos, ReadFault, Text, blob_push, text_read, u16_push, u16_read};
use mqtt_props::{Place, PropList, PropName, PropsRef, layout_read};
use std::alloc::{AllocError, Global};

/// The QoS of a PUBLISH, with its packet identifier if it has one (3.3.1.2, 3.3.2.2).
#[derive(Clone, Copy, Debug, PartialEq, Eq)]
pub enum Delivery {
    /// QoS 0: no handshake, no DUP.
    AtMostOnce,
    /// QoS 1: answered by PUBACK.
    AtLeastOnce {
        /// Whether it was sent before (3.3.1.1).
        dup: bool,
        /// The packet identifier; lawful from 1 (2.2.1).
        identifier: u16,
    },
    /// QoS 2: answered by PUBREC.
    ExactlyOnce {
        /// Whether it was sent before (3.3.1.1).
        dup: bool,
        /// The packet identifier; lawful from 1 (2.2.1).
        identifier: u16,
    },
}

/// A PUBLISH (3.3).
#[derive(Debug, Drop)]
pub struct Publish {
    /// Its QoS, with the packet identifier (3.3.1.2, 3.3.2.2).
    pub delivery: Delivery,
    /// Whether it is to be retained, or was (3.3.1.3).
    pub retain: bool,
    /// The topic name; empty if a Topic Alias stands for it (3.3.2.1).
    pub topic: Text,
    /// The properties of its block, in their order (2.2.2).
    pub properties: PropList,
    /// The message, to the end of the packet (3.3.3).
    pub payload: Bytes,
}

/// A PUBLISH that stands in a frame.
#[derive(Debug, Drop)]
pub struct PublishRef<'a> {
    /// Its QoS, with the packet identifier (3.3.1.2, 3.3.2.2).
    pub delivery: Delivery,
    /// Whether it is to be retained, or was (3.3.1.3).
    pub retain: bool,
    /// The topic name; empty if a Topic Alias stands for it (3.3.2.1).
    pub topic: &'a str,
    /// The properties of its block, in their order (2.2.2).
    pub properties: PropsRef<'a>,
    /// The message, to the end of the packet (3.3.3).
    pub payload: &'a [u8],
}

#[inline(always)]
#[tactic(auto, unfolding(crate::specs::codec::Publish::delivery_at))]
fn delivery_read(dup: bool, qos: Qos, bytes: &[u8]) -> Result<(Delivery, usize), ReadFault>
    ensures { Reads (λ d. d) result bytes.now (delivery_at dup qos bytes.now) }
{
    match qos {
        Qos::AtMostOnce => Ok((Delivery::AtMostOnce, 0)),
        Qos::AtLeastOnce => {
            let (identifier, taken) = u16_read(bytes)?;
            Ok((Delivery::AtLeastOnce { dup, identifier }, taken))
        }
        Qos::ExactlyOnce => {
            let (identifier, taken) = u16_read(bytes)?;
            Ok((Delivery::ExactlyOnce { dup, identifier }, taken))
        }
    }
}

#[inline(always)]
#[tactic(auto, unfolding(crate::specs::codec::Publish::publish_at))]
pub(crate) fn publish_read(
    dup: bool,
    qos: Qos,
    retain: bool,
    body: &[u8],
) -> Result<PublishRef<'_>, Fault>
    ensures { Gives publish_of result (publish_at dup qos retain body.now) }
{
    let (topic, taken) = text_read(body)?;
    let (_, rest) = body.split_at(taken);
    let (delivery, taken) = delivery_read(dup, qos, rest)?;
    let (_, rest) = rest.split_at(taken);
    let Ok((properties, taken)) = layout_read(rest, Place::Publish) else {
        return Err(Fault::Malformed);
    };
    let (_, payload) = rest.split_at(taken);
    Ok(PublishRef {
        delivery,
        retain,
        topic,
        properties,
        payload,
    })
}

impl Delivery {
    /// Its quality of service (3.3.1.2). Takes no memory.
    #[inline(always)]
    pub fn qos(self) -> Qos
        ensures exact { result ≡ delivery_qos self }

        // The first byte of its PUBLISH says so.
        ensures head { (retain : Bool) → delivery_head self retain
            ≡ heads.Publish (delivery_dup self) result retain }
    {
        match self {
            Delivery::AtMostOnce => Qos::AtMostOnce,
            Delivery::AtLeastOnce { .. } => Qos::AtLeastOnce,
            Delivery::ExactlyOnce { .. } => Qos::ExactlyOnce,
        }
    }

    /// Whether it is marked as sent once more (3.3.1.1). Takes no memory.
    #[inline(always)]
    pub fn dup(self) -> bool
        ensures { result ≡ delivery_dup self }
    {
        match self {
            Delivery::AtMostOnce => false,
            Delivery::AtLeastOnce { dup, .. } | Delivery::ExactlyOnce { dup, .. } => dup,
        }
    }

    /// Its packet identifier; QoS 0 has none (2.2.1). Takes no memory.
    #[inline(always)]
    pub fn identifier(self) -> Option<u16>
        ensures { result ≡ delivery_identifier self }
    {
        match self {
            Delivery::AtMostOnce => None,
            Delivery::AtLeastOnce { identifier, .. } | Delivery::ExactlyOnce { identifier, .. } =>
                Some(identifier),
        }
    }

    #[inline(always)]
    fn has_lawful_identifier(self) -> bool
        ensures { result ≡ lawful_identifier self }
    {
        match self {
            Delivery::AtMostOnce => true,
            Delivery::AtLeastOnce { identifier, .. } | Delivery::ExactlyOnce { identifier, .. } =>
                identifier > 0,
        }
    }

    #[inline(always)]
    #[tactic(auto, using(crate::proofs::parts_lemmas::Fronts::begins_same, crate::proofs::parts_lemmas::Fronts::begins_less))]
    fn push(self, out: &mut Vec<u8>) -> Result<(), AllocError>
        ensures ok { OnOk result (out.new.items ≡ out.old.items ++ identifier_field self) }
        ensures front { OnErr result (KeepsFront out.old.items out.new.items) }
    {
        match self {
            Delivery::AtMostOnce => Ok(()),
            Delivery::AtLeastOnce { identifier, .. } | Delivery::ExactlyOnce { identifier, .. } =>
                u16_push(out, identifier),
        }
    }
}

impl PublishRef<'_> {
    /// Whether the laws of PUBLISH hold.
    #[inline(always)]
    pub(crate) fn is_lawful(&self) -> bool
        ensures { result ≡ lawful_publish (publish_of self.now) }
    {
        self.properties.is_lawful(Place::Publish)
            && self.delivery.has_lawful_identifier()
            && (!self.topic.is_empty() || self.properties.has(PropName::TopicAlias))
    }

    /// Writes the body at the end.
    #[inline(always)]
    #[tactic(auto, using(std::proofs::lemmas::List::append_assoc, crate::proofs::parts_lemmas::Fronts::begins_same, crate::proofs::parts_lemmas::Fronts::begins_less))]
    pub(crate) fn push(&self, out: &mut Vec<u8>) -> Result<(), AllocError>
        requires { FitsPublish (publish_of self.now) }
        ensures ok { OnOk result (out.new.items ≡ out.old.items ++ publish_body (publish_of self.now)) }
        ensures front { OnErr result (KeepsFront out.old.items out.new.items) }
    {
        blob_push(out, self.topic.as_bytes())?;
        self.delivery.push(out)?;
        self.properties.push_block(out)?;
        out.extend_from_slice(self.payload)
    }

    /// How many bytes the body takes.
    #[inline(always)]
    pub(crate) fn len(&self) -> usize
        requires { FitsPublish (publish_of self.now) }
        ensures { result ≡ length (publish_body (publish_of self.now)) }
    {
        let identifier = match self.delivery {
            Delivery::AtMostOnce => 0,
            _ => 2,
        };
        2 + self.topic.len() + (identifier + (self.properties.block_len() + self.payload.len()))
    }

    /// An owned copy.
    #[inline(never)]
    pub(crate) fn to_publish(&self, alloc: Global) -> Result<Publish, AllocError>
        requires { FitsPublish (publish_of self.now) }
        ensures { IfOk result (λ p. p ≡ publish_of self.now) }
    {
        let topic = Text::new(alloc, self.topic)?;
        let (topic, properties) = both(topic, self.properties.to_list(alloc))?;
        let payload = Bytes::copy_from_slice(alloc, self.payload);
        let ((topic, properties), payload) = both((topic, properties), payload)?;
        Ok(Publish {
            delivery: self.delivery,
            retain: self.retain,
            topic,
            properties,
            payload,
        })
    }
}

impl PublishRef<'_> {
    /// The first byte.
    #[inline(always)]
    pub(crate) fn first_byte(&self) -> u8
        ensures { result ≡ first (delivery_head self.now.delivery self.now.retain) }
    {
        let retain = if self.retain { 1 } else { 0 };
        match self.delivery {
            Delivery::AtMostOnce => 0x30 + retain,
            Delivery::AtLeastOnce { dup: false, .. } => 0x32 + retain,
            Delivery::AtLeastOnce { dup: true, .. } => 0x3a + retain,
            Delivery::ExactlyOnce { dup: false, .. } => 0x34 + retain,
            Delivery::ExactlyOnce { dup: true, .. } => 0x3c + retain,
        }
    }
}

impl Delivery {
    #[inline(always)]
    fn fits(self) -> bool
        ensures { IsTrue result ↔ FitsDelivery self }
    {
        match self {
            Delivery::AtMostOnce => true,
            Delivery::AtLeastOnce { identifier, .. } | Delivery::ExactlyOnce { identifier, .. } => {
                // This shows that the number fits into its two bytes.
                let _identifier = identifier;
                true
            }
        }
    }
}

impl Publish {
    /// Whether its parts have a spelling.
    #[inline(always)]
    pub(crate) fn fits(&self) -> bool
        ensures { IsTrue result ↔ FitsPublish self.now }
    {
        // This shows that the topic has a spelling.
        let _ = self.topic.as_str();
        let lent = self.properties.lend();
        self.delivery.fits() && stands(&lent, Place::Publish)
    }

    /// The same, lent.
    #[inline(always)]
    pub(crate) fn lend(&self) -> PublishRef<'_>
        ensures { publish_of result ≡ self.now }
    {
        PublishRef {
            delivery: self.delivery,
            retain: self.retain,
            topic: self.topic.as_str(),
            properties: self.properties.lend(),
            payload: self.payload.as_slice(),
        }
    }
}
