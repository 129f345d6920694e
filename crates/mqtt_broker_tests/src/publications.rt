//! What a client and its Will publish (3.1.2.5, 3.3.1.3, 3.3.2.3.4).

use bytes::Bytes;
use mqtt_base::{Qos, Text};
use mqtt_broker_queue::publications::Message;
use mqtt_packet::{Delivery, Publish};
use mqtt_props::{PropFault, PropList, PropName, PropRef, ValueRef};
use mqtt_records::Will;
use mqtt_topic::TopicName;
use std::alloc::{AllocError, Global};
use std::test::Fail;

/// A text that is one.
fn text(alloc: Global, text: &str) -> Result<Text, AllocError> {
    if !Text::may_hold(text) {
        return Err(AllocError);
    }
    Text::new(alloc, text)
}

/// The Topic Alias 3 alone.
fn aliased(alloc: Global) -> Result<PropList, PropFault> {
    let mut list = PropList::new();
    let alias = PropRef {
        name: PropName::TopicAlias,
        value: ValueRef::U16(3),
    };
    match list.push(alloc, alias) {
        Ok(()) => Ok(list),
        Err(fault) => {
            drop(list);
            Err(fault)
        }
    }
}

/// A PUBLISH of QoS 0 that says its topic by an alias.
fn publish(alloc: Global) -> Result<Publish, Fail> {
    Ok(Publish {
        delivery: Delivery::AtMostOnce,
        retain: false,
        topic: text(alloc, "")?,
        properties: aliased(alloc)?,
        payload: Bytes::new(),
    })
}

/// What `p1` publishes by it to `a/b`.
fn message(alloc: Global) -> Result<Message, Fail> {
    let client = text(alloc, "p1")?;
    let topic = TopicName::parse(alloc, "a/b")?;
    let publish = publish(alloc)?;
    let made = Message::of_publish(alloc, &client, &topic, &publish);
    drop(client);
    drop(topic);
    drop(publish);
    Ok(made?)
}

#[test]
fn a_publication_has_the_topic_that_is_meant(rt: HostRuntime) -> Result<(), Fail> {
    let message = message(rt.alloc())?;
    assert_eq!(rt; message.sender().as_str(), "p1");
    assert_eq!(rt; message.topic().as_str(), "a/b");
    assert_eq!(rt; message.qos(), Qos::AtMostOnce);
    assert!(rt; !message.retain(), "RETAIN is 0");
    assert_eq!(rt; message.payload().len(), 0);
    let kept = message.kept(5, 70, 2);
    drop(message);
    let kept = kept?;
    assert_eq!(rt; kept.place, 2);
    assert_eq!(rt; kept.publication, 5);
    assert_eq!(rt; kept.content.topic.as_str(), "a/b");
    assert_eq!(rt; kept.content.arrived, 70);
    let none = kept.content.properties.lend().is_empty();
    assert!(rt; none, "an alias isn't passed on");
    drop(kept);
    Ok(())
}
