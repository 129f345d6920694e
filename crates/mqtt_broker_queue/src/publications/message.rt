//! A publication before it has its number, and what is made of it (3.3.1.3, 3.3.4).
ghost use Rattle.std.specs.Prelude.{◌≡◌, IfOk};
ghost use Rattle.mqtt_topic.specs.names.Names.{IsTopicName};
ghost use Rattle.mqtt_records.specs.messages.PassedOn.{passed_on};
ghost use Rattle.mqtt_rules.specs.step.Inbound.{message_of};
ghost use Rattle.mqtt_rules.specs.step.Closing.{will_message};
ghost use Rattle.mqtt_rules.specs.step.Routing.{kept_message};

use bytes::Bytes;
use mqtt_base::{Qos, Text};
use mqtt_packet::Publish;
use mqtt_props::PropsRef;
use mqtt_records::{Content, PassedOn, RetainedMessage, Will};
use mqtt_topic::TopicName;
use std::alloc::{AllocError, Global};
use std::marker::Model;

/// A publication of a client, or of its Will. Its texts and its payload are shared.
#[derive(Drop)]
pub struct Message {
    sender: Text,
    topic: TopicName,
    qos: Qos,
    retain: bool,
    properties: PassedOn,
    payload: Bytes,
}

impl Model for Message {
    ghost use Rattle.mqtt_rules.specs.step.Deeds.{Message};

    ghost Value = { Message };

    ghost view = { λ a. record { sender = a.sender; topic = a.topic; qos = a.qos; retain = a.retain; properties = a.properties; payload = a.payload } };
}

/// The parts of a publication that have owners.
#[derive(Drop)]
struct Parts {
    sender: Text,
    topic: TopicName,
    properties: PassedOn,
    payload: Bytes,
}

/// The topic of a Will, which is a topic name. It shares the bytes.
fn topic_of(will: &Will) -> Result<TopicName, AllocError>
    requires { IsTopicName will.now.topic }
    ensures { IfOk result (λ topic. topic ≡ will.now.topic) }
{
    match TopicName::from_text(will.topic.clone()?) {
        Ok(topic) => Ok(topic),
        Err(_) => unreachable!(),
    }
}

/// The parts of a publication to a topic, all of them shared but the properties.
fn kept_parts(
    alloc: Global,
    sender: &Text,
    topic: TopicName,
    list: &PropsRef<'_>,
    payload: &Bytes,
) -> Result<Parts, AllocError>
    ensures { IfOk result (λ parts. parts ≡ record {
      sender = sender.now;
      topic = topic;
      properties = passed_on list.now;
      payload = payload.now;
    }) }
{
    Ok(Parts {
        sender: sender.clone()?,
        topic,
        properties: PassedOn::of(alloc, list)?,
        payload: payload.clone()?,
    })
}

/// A publication of these parts.
fn made(parts: Parts, qos: Qos, retain: bool) -> Message
    ensures { result ≡ record {
      sender = parts.sender;
      topic = parts.topic;
      qos = qos;
      retain = retain;
      properties = parts.properties;
      payload = parts.payload;
    } }
{
    Message {
        sender: parts.sender,
        topic: parts.topic,
        qos,
        retain,
        properties: parts.properties,
        payload: parts.payload,
    }
}

impl Message {
    /// What a client publishes to the topic that its PUBLISH means (3.3).
    pub fn of_publish(
        alloc: Global,
        client: &Text,
        topic: &TopicName,
        publish: &Publish,
    ) -> Result<Message, AllocError>
        ensures { IfOk result (λ message. message ≡ message_of client.now topic.now publish.now) }
    {
        let topic = topic.try_clone().map_err(|_| AllocError)?;
        let list = publish.properties.lend();
        let qos = publish.delivery.qos();
        match kept_parts(alloc, client, topic, &list, &publish.payload) {
            Ok(parts) => Ok(made(parts, qos, publish.retain)),
            Err(fault) => Err(fault),
        }
    }

    /// What a client's Will, which has a topic name, publishes (3.1.2.5).
    pub fn of_will(alloc: Global, client: &Text, will: &Will) -> Result<Message, AllocError>
        requires { IsTopicName will.now.topic }
        ensures { IfOk result (λ message. message ≡ will_message client.now will.now) }
    {
        let topic = topic_of(will)?;
        let list = will.properties.lend();
        match kept_parts(alloc, client, topic, &list, &will.payload) {
            Ok(parts) => Ok(made(parts, will.qos, will.retain)),
            Err(fault) => Err(fault),
        }
    }

    /// The client identifier of who publishes it. Takes no memory.
    pub fn sender(&self) -> &Text
        ensures { result.now ≡ self.now.sender }
    {
        &self.sender
    }

    /// Its topic. Takes no memory.
    pub fn topic(&self) -> &TopicName
        ensures { result.now ≡ self.now.topic }
    {
        &self.topic
    }

    /// Its quality of service. Takes no memory.
    pub fn qos(&self) -> Qos
        ensures { result ≡ self.now.qos }
    {
        self.qos
    }

    /// Whether it is to be retained (3.3.1.3). Takes no memory.
    pub fn retain(&self) -> bool
        ensures { result ≡ self.now.retain }
    {
        self.retain
    }

    /// Its payload. Takes no memory.
    pub fn payload(&self) -> &[u8]
        ensures { result.now ≡ self.now.payload }
    {
        self.payload.as_slice()
    }

    /// What its copies have in common, accepted at a moment. All of it is shared.
    pub fn content(&self, arrived: u64) -> Result<Content, AllocError>
        ensures { IfOk result (λ content. content
            ≡ record { topic = self.now.topic; properties = self.now.properties; payload = self.now.payload; arrived = arrived }) }
    {
        Ok(Content {
            topic: self.topic.text().clone()?,
            properties: self.properties.clone()?,
            payload: self.payload.clone()?,
            arrived,
        })
    }

    /// The message as it is retained at a place, accepted at a moment under a number (3.3.1.3).
    pub fn kept(&self, number: u64, arrived: u64, place: u64) -> Result<RetainedMessage, AllocError>
        ensures { IfOk result (λ kept. kept ≡ kept_message number arrived self.now place) }
    {
        Ok(RetainedMessage {
            place,
            sender: self.sender.clone()?,
            publication: number,
            qos: self.qos,
            content: self.content(arrived)?,
        })
    }
}
