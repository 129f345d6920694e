//! What ends send, as packets on the wire (MQTT 5.0, 3.1, 3.3, 3.4 to 3.8).

ghost use Rattle.std.specs.Prelude.{◌≡◌, ◌∷◌, ◌++◌, [], map, IfOk, OnOk};
ghost use Rattle.mqtt_props.specs.Properties.{U16, U32};
ghost use Rattle.mqtt_props.specs.Views.{prop_of};
ghost use Rattle.mqtt_props.specs.declared.table.PropName.TheVariants as names;
ghost use Rattle.mqtt_records.specs.messages.PassedOn.{property};
ghost use Rattle.mqtt_world_model.specs.model.Ends.{connect_with, content_at, identified, no_content, publish_with, subscribe_with, taking};
ghost use Rattle.mqtt_world_ends.specs.peers.Publishers.{content_of};
ghost use Rattle.mqtt_world_ends.specs.peers.Receivers.{windowed, wish_of};

use bytes::Bytes;
use mqtt_base::{Reason, Text};
use mqtt_packet::{Ack, Connect, Delivery, Packet, Publish, Subscribe, Subscriptions};
use mqtt_props::{PropList, PropName, PropRef, ValueRef};
use mqtt_script::{Content, Wish};
use std::alloc::{AllocError, Global};

/// A packet identifier and a reason code (3.4 to 3.7). Takes no memory.
pub(crate) fn ack(identifier: u16, code: u8) -> Ack
    ensures { result ≡ record { identifier = identifier; reason = record { 0 = code }; properties = [] } }
{
    Ack {
        identifier,
        reason: Reason(code),
        properties: PropList::new(),
    }
}

/// A PUBLISH of a message (3.3).
pub(crate) fn publish(delivery: Delivery, content: &Content) -> Result<Packet, AllocError>
    ensures { IfOk result (λ packet. packet ≡ publish_with delivery (content_of content.now)) }
{
    let topic = content.topic.clone()?;
    let payload = content.payload.clone()?;
    Ok(Packet::Publish(Publish {
        delivery,
        retain: content.retain,
        topic,
        properties: PropList::new(),
        payload,
    }))
}

/// No message: without topic and payload.
fn no_content(alloc: Global) -> Result<Content, AllocError>
    ensures { IfOk result (λ content. content_of content ≡ no_content) }
{
    let topic = Text::new(alloc, "")?;
    Ok(Content {
        retain: false,
        topic,
        payload: Bytes::new(),
    })
}

/// A PUBLISH of the message with that number (3.3).
pub(crate) fn publish_at(
    alloc: Global,
    delivery: Delivery,
    contents: &[Content],
    message: usize,
) -> Result<Packet, AllocError>
    ensures { IfOk result (λ packet. packet
        ≡ publish_with delivery (content_at message (map content_of contents.now))) }
{
    match contents.get(message) {
        Some(content) => publish(delivery, content),
        None => {
            let content = no_content(alloc)?;
            let packet = publish(delivery, &content);
            drop(content);
            packet
        }
    }
}

/// Adds a property at the end of a block (2.2.2).
fn add(
    alloc: Global,
    properties: &mut PropList,
    name: PropName,
    value: ValueRef<'_>,
) -> Result<(), AllocError>
    ensures { OnOk result (properties.new ≡ properties.old ++ prop_of (record { name = name; value = value.entry }) ∷ []) }
{
    properties
        .push(alloc, PropRef { name, value })
        .map_err(|_| AllocError)
}

/// The properties of an end's CONNECT: its session doesn't expire (3.1.2.11.2), and a receiver's has its Receive
/// Maximum (3.1.2.11.3) and, if it takes any topic alias, its Topic Alias Maximum (3.1.2.11.5).
fn connect_properties(
    alloc: Global,
    window: Option<u16>,
    aliases: u16,
) -> Result<PropList, AllocError>
    ensures { IfOk result (λ properties. properties
        ≡ property names.SessionExpiryInterval (U32 0xffffffff) ∷ (windowed window ++ taking aliases)) }
{
    let mut properties = PropList::new();
    let added = add_all(alloc, &mut properties, window, aliases);
    match added {
        Ok(()) => Ok(properties),
        Err(error) => {
            drop(properties);
            Err(error)
        }
    }
}

/// A Topic Alias Maximum, unless it is 0 (3.1.2.11.5).
#[tactic(auto, using(crate::proofs::peers_lemmas::Receivers::taking_some))]
fn add_aliases(alloc: Global, properties: &mut PropList, aliases: u16) -> Result<(), AllocError>
    ensures { OnOk result (properties.new ≡ properties.old ++ taking aliases) }
{
    if aliases == 0 {
        return Ok(());
    }
    add(
        alloc,
        properties,
        PropName::TopicAliasMaximum,
        ValueRef::U16(aliases),
    )
}

/// A Receive Maximum, if there is one (3.1.2.11.3).
fn add_window(
    alloc: Global,
    properties: &mut PropList,
    window: Option<u16>,
) -> Result<(), AllocError>
    ensures { OnOk result (properties.new ≡ properties.old ++ windowed window) }
{
    match window {
        None => Ok(()),
        Some(window) => add(
            alloc,
            properties,
            PropName::ReceiveMaximum,
            ValueRef::U16(window),
        ),
    }
}

fn add_all(
    alloc: Global,
    properties: &mut PropList,
    window: Option<u16>,
    aliases: u16,
) -> Result<(), AllocError>
    ensures { OnOk result (properties.new ≡ properties.old
        ++ (property names.SessionExpiryInterval (U32 0xffffffff) ∷ (windowed window ++ taking aliases))) }
{
    add(
        alloc,
        properties,
        PropName::SessionExpiryInterval,
        ValueRef::U32(u32::MAX),
    )?;
    add_window(alloc, properties, window)?;
    add_aliases(alloc, properties, aliases)
}

/// CONNECT with Keep Alive 0 and no Will, of a session that doesn't expire, with its Receive Maximum if it has one, and its
/// Topic Alias Maximum if it takes any alias (3.1).
pub(crate) fn connect(
    alloc: Global,
    client: &Text,
    clean_start: bool,
    window: Option<u16>,
    aliases: u16,
) -> Result<Packet, AllocError>
    ensures { IfOk result (λ packet. packet ≡ connect_with client.now clean_start (windowed window ++ taking aliases)) }
{
    let client_identifier = client.clone()?;
    let properties = connect_properties(alloc, window, aliases)?;
    Ok(Packet::Connect(Connect {
        clean_start,
        keep_alive: 0,
        properties,
        client_identifier,
        will: None,
        user_name: None,
        password: None,
    }))
}

/// The properties of a SUBSCRIBE: its Subscription Identifier, if it has one (3.8.2.1.2).
fn subscribe_properties(alloc: Global, identifier: Option<u32>) -> Result<PropList, AllocError>
    ensures { IfOk result (λ properties. properties ≡ identified identifier) }
{
    let mut properties = PropList::new();
    match identifier {
        None => Ok(properties),
        Some(identifier) => {
            let added = add(
                alloc,
                &mut properties,
                PropName::SubscriptionIdentifier,
                ValueRef::VarInt(identifier),
            );
            match added {
                Ok(()) => Ok(properties),
                Err(error) => {
                    drop(properties);
                    Err(error)
                }
            }
        }
    }
}

/// SUBSCRIBE for one filter (3.8).
pub(crate) fn subscribe(alloc: Global, wish: &Wish) -> Result<Packet, AllocError>
    ensures { IfOk result (λ packet. packet ≡ subscribe_with (wish_of wish.now)) }
{
    let mut subscriptions = Subscriptions::new();
    subscriptions.push(alloc, &wish.filter, wish.options)?;
    let properties = subscribe_properties(alloc, wish.identifier)?;
    Ok(Packet::Subscribe(Subscribe {
        identifier: 1,
        properties,
        subscriptions,
    }))
}
