//! What a PUBLISH means (3.3.2.1, 3.3.2.3.4).

use bytes::Bytes;
use mqtt_base::Text;
use mqtt_broker_looks::decided::{Unmeant, meaning, number_at};
use mqtt_packet::{Delivery, Publish};
use mqtt_props::{PropFault, PropList, PropName, PropRef, ValueRef};
use mqtt_topic::Aliases;
use std::alloc::{AllocError, Global};
use std::process::Abort;
use std::test::Fail;

/// A text that is one.
fn text(alloc: Global, text: &str) -> Result<Text, AllocError> {
    if !Text::may_hold(text) {
        return Err(AllocError);
    }
    Text::new(alloc, text)
}

/// A list of one property.
fn one(alloc: Global, name: PropName, value: ValueRef<'_>) -> Result<PropList, PropFault> {
    let mut list = PropList::new();
    match list.push(alloc, PropRef { name, value }) {
        Ok(()) => Ok(list),
        Err(fault) => {
            drop(list);
            Err(fault)
        }
    }
}

/// A PUBLISH of QoS 0 with that topic and these properties.
fn publish(alloc: Global, topic: &str, properties: PropList) -> Result<Publish, AllocError> {
    match text(alloc, topic) {
        Ok(topic) => Ok(Publish {
            delivery: Delivery::AtMostOnce,
            retain: false,
            topic,
            properties,
            payload: Bytes::new(),
        }),
        Err(fault) => {
            drop(properties);
            Err(fault)
        }
    }
}

/// The code of a PUBLISH that means no topic, by a table in which no alias stands for one.
fn code(alloc: Global, publish: Publish) -> Result<Option<u8>, AllocError> {
    let aliases = Aliases::new(alloc, 10);
    let found = meaning(&publish, &aliases);
    drop(publish);
    drop(aliases);
    match found {
        Ok(name) => {
            drop(name);
            Ok(None)
        }
        Err(Unmeant::Wrong(code)) => Ok(Some(code.0)),
        Err(Unmeant::Memory) => Err(AllocError),
    }
}

#[test]
fn a_topic_of_its_own_is_a_name(rt: HostRuntime) -> Result<(), Fail> {
    let alloc = rt.alloc();
    let named = publish(alloc, "a/b", PropList::new())?;
    assert_eq!(rt; code(alloc, named)?, None);
    let wild = publish(alloc, "a/#", PropList::new())?;
    assert_eq!(rt; code(alloc, wild)?, Some(0x90));
    let empty = publish(alloc, "", PropList::new())?;
    assert_eq!(rt; code(alloc, empty)?, Some(0x82));
    Ok(())
}

#[test]
fn ten_aliases_are_taken(rt: HostRuntime) -> Result<(), Fail> {
    let alloc = rt.alloc();
    let name = PropName::TopicAlias;
    let greatest = publish(alloc, "a/b", one(alloc, name, ValueRef::U16(10))?)?;
    assert_eq!(rt; code(alloc, greatest)?, None);
    let greater = publish(alloc, "a/b", one(alloc, name, ValueRef::U16(11))?)?;
    assert_eq!(rt; code(alloc, greater)?, Some(0x94));
    let unknown = publish(alloc, "", one(alloc, name, ValueRef::U16(1))?)?;
    assert_eq!(rt; code(alloc, unknown)?, Some(0x82));
    Ok(())
}

#[test]
fn a_client_sends_no_subscription_identifier(rt: HostRuntime) -> Result<(), Fail> {
    let alloc = rt.alloc();
    let list = one(alloc, PropName::SubscriptionIdentifier, ValueRef::VarInt(1))?;
    assert_eq!(rt;
        number_at(&list.lend(), PropName::SubscriptionIdentifier),
        Some(1)
    );
    let identified = publish(alloc, "a/b", list)?;
    assert_eq!(rt; code(alloc, identified)?, Some(0x82));
    Ok(())
}
