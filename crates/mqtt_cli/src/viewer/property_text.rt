//! What the viewer shows of properties, of a Will and of a User Name (2.2.2, 3.1.3; ours).

ghost use Rattle.std.specs.Prelude.{◌≡◌, ◌++◌, OnOk, codes, false, true};
ghost use Rattle.std.specs.List.{flat_map};
ghost use Rattle.std.specs.Option.{option_map};
ghost use Rattle.mqtt_base.specs.Escaped.{escaped};
ghost use Rattle.mqtt_base.specs.Service.{qos_number};
ghost use Rattle.mqtt_packet.specs.codec.Frames.{packet_of};
ghost use Rattle.mqtt_packet.specs.connect.Connect.{connect_of, will_of};
ghost use Rattle.mqtt_props.specs.Views.{prop_of, value_of};
ghost use Rattle.mqtt_cli.specs.viewer.PropertyText.{connection_text, details_text, key_byte, key_text, login_text, optional_will_text, owner_text, properties_text, property_name, property_text, user_name_text, value_text, will_message_text, will_retain_text, will_text};

use crate::viewer::packet_text::{
    push_bytes, push_escaped, push_escaped_byte, push_field, push_number,
};
use mqtt_base::Qos;
use mqtt_packet::{ConnectRef, PacketRef, WillRef};
use mqtt_props::{PropName, PropRef, PropsRef, ValueRef};
use std::alloc::{AllocError, Global};

/// The standard's name of a property, in small letters with hyphens.
pub(crate) fn property_name(name: PropName) -> &'static [u8]
    ensures { result.now ≡ property_name name }
{
    match name {
        PropName::PayloadFormatIndicator => b"payload-format-indicator",
        PropName::MessageExpiryInterval => b"message-expiry-interval",
        PropName::ContentType => b"content-type",
        PropName::ResponseTopic => b"response-topic",
        PropName::CorrelationData => b"correlation-data",
        PropName::SubscriptionIdentifier => b"subscription-identifier",
        PropName::SessionExpiryInterval => b"session-expiry-interval",
        PropName::AssignedClientIdentifier => b"assigned-client-identifier",
        PropName::ServerKeepAlive => b"server-keep-alive",
        PropName::AuthenticationMethod => b"authentication-method",
        PropName::AuthenticationData => b"authentication-data",
        PropName::RequestProblemInformation => b"request-problem-information",
        PropName::WillDelayInterval => b"will-delay-interval",
        PropName::RequestResponseInformation => b"request-response-information",
        PropName::ResponseInformation => b"response-information",
        PropName::ServerReference => b"server-reference",
        PropName::ReasonString => b"reason-string",
        PropName::ReceiveMaximum => b"receive-maximum",
        PropName::TopicAliasMaximum => b"topic-alias-maximum",
        PropName::TopicAlias => b"topic-alias",
        PropName::MaximumQos => b"maximum-qos",
        PropName::RetainAvailable => b"retain-available",
        PropName::UserProperty => b"user-property",
        PropName::MaximumPacketSize => b"maximum-packet-size",
        PropName::WildcardSubscriptionAvailable => b"wildcard-subscription-available",
        PropName::SubscriptionIdentifierAvailable => b"subscription-identifier-available",
        PropName::SharedSubscriptionAvailable => b"shared-subscription-available",
    }
}

/// Adds the name of a field and its text.
#[tactic(auto, using(std::proofs::lemmas::List::append_assoc))]
fn push_text(text: &mut Vec<u8>, name: &[u8], value: &str) -> Result<(), AllocError>
    ensures { OnOk result (text.new.items ≡ text.old.items ++ (name.now ++ escaped value.now)) }
{
    text.extend_from_slice(name)?;
    push_escaped(text, value)
}

/// Adds a byte of a pair's name: a colon is escaped too.
fn push_key_byte(text: &mut Vec<u8>, byte: u8) -> Result<(), AllocError>
    ensures { OnOk result (text.new.items ≡ text.old.items ++ key_byte byte) }
{
    if byte == b':' {
        text.extend_from_slice(b"%3a")
    } else {
        push_escaped_byte(text, byte)
    }
}

/// Adds the name of a pair.
#[tactic(auto, using(std::proofs::lemmas::List::append_assoc))]
fn push_key(text: &mut Vec<u8>, key: &str) -> Result<(), AllocError>
    ensures { OnOk result (text.new.items ≡ text.old.items ++ key_text key.now) }
{
    let mut rest = key.as_bytes();
    while let Some((byte, after)) = rest.split_first() {
        push_key_byte(text, *byte)?;
        rest = after;
    }
    Ok(())
}

/// Adds a pair, with a colon behind its name.
#[tactic(auto, using(std::proofs::lemmas::List::append_assoc))]
fn push_pair(text: &mut Vec<u8>, key: &str, value: &str) -> Result<(), AllocError>
    ensures { OnOk result (text.new.items
        ≡ text.old.items ++ (key_text key.now ++ codes ":" ++ escaped value.now)) }
{
    push_key(text, key)?;
    text.extend_from_slice(b":")?;
    push_escaped(text, value)
}

/// Adds the value of a property.
fn push_value(alloc: Global, text: &mut Vec<u8>, value: ValueRef<'_>) -> Result<(), AllocError>
    ensures { OnOk result (text.new.items ≡ text.old.items ++ value_text (value_of value.entry)) }
{
    match value {
        ValueRef::Byte(number) => push_number(text, u64::from(number)),
        ValueRef::U16(number) => push_number(text, u64::from(number)),
        ValueRef::U32(number) | ValueRef::VarInt(number) => push_number(text, u64::from(number)),
        ValueRef::Text(value) => push_escaped(text, value),
        ValueRef::Binary(bytes) => push_bytes(alloc, text, bytes),
        ValueRef::Pair(key, value) => push_pair(text, key, value),
    }
}

/// What stands before the name of a property of a packet, or of a Will.
fn owner(of_will: bool) -> &'static [u8]
    ensures { result.now ≡ owner_text of_will }
{
    if of_will { b" will." } else { b" " }
}

/// Adds a property of a packet, or of a Will.
#[tactic(auto, using(std::proofs::lemmas::List::append_assoc))]
fn push_property(
    alloc: Global,
    text: &mut Vec<u8>,
    of_will: bool,
    property: &PropRef<'_>,
) -> Result<(), AllocError>
    ensures { OnOk result (text.new.items
        ≡ text.old.items ++ property_text of_will (prop_of property.now)) }
{
    text.extend_from_slice(owner(of_will))?;
    text.extend_from_slice(property_name(property.name))?;
    text.extend_from_slice(b"=")?;
    push_value(alloc, text, property.value)
}

/// Adds the properties of a packet, or of a Will.
#[tactic(auto, using(std::proofs::lemmas::List::append_assoc))]
fn push_properties(
    alloc: Global,
    text: &mut Vec<u8>,
    of_will: bool,
    properties: &PropsRef<'_>,
) -> Result<(), AllocError>
    ensures { OnOk result (text.new.items
        ≡ text.old.items ++ properties_text of_will properties.now) }
{
    let mut rest = properties.reborrow();
    while let Some((first, after)) = rest.split_first() {
        push_property(alloc, text, of_will, &first)?;
        rest = after;
    }
    Ok(())
}

fn push_will_retain(text: &mut Vec<u8>, retain: bool) -> Result<(), AllocError>
    ensures { OnOk result (text.new.items ≡ text.old.items ++ will_retain_text retain) }
{
    if retain {
        text.extend_from_slice(b" will.retain")
    } else {
        Ok(())
    }
}

/// The number of a QoS (4.3).
pub(crate) fn qos_number(qos: Qos) -> u64
    ensures { result ≡ qos_number qos }
{
    qos as u64
}

/// Adds the topic of a Will, how long its payload is, and its properties.
#[tactic(auto, using(std::proofs::lemmas::List::append_assoc))]
fn push_will_message(
    alloc: Global,
    text: &mut Vec<u8>,
    will: &WillRef<'_>,
) -> Result<(), AllocError>
    ensures { OnOk result (text.new.items
        ≡ text.old.items ++ will_message_text (will_of will.now)) }
{
    push_text(text, b" will.topic=", will.topic)?;
    push_field(text, b" will.payload=", will.payload.len() as u64)?;
    push_properties(alloc, text, true, &will.properties)
}

/// Adds what is shown of a Will.
#[tactic(auto, using(std::proofs::lemmas::List::append_assoc))]
fn push_will(alloc: Global, text: &mut Vec<u8>, will: &WillRef<'_>) -> Result<(), AllocError>
    ensures { OnOk result (text.new.items ≡ text.old.items ++ will_text (will_of will.now)) }
{
    push_field(text, b" will.qos=", qos_number(will.qos))?;
    push_will_retain(text, will.retain)?;
    push_will_message(alloc, text, will)
}

/// Adds the Will, if there is one.
fn push_optional_will(
    alloc: Global,
    text: &mut Vec<u8>,
    will: &Option<WillRef<'_>>,
) -> Result<(), AllocError>
    ensures { OnOk result (text.new.items
        ≡ text.old.items ++ optional_will_text (option_map will_of will.now)) }
{
    match will {
        Some(will) => push_will(alloc, text, will),
        None => Ok(()),
    }
}

/// Adds the User Name, if there is one.
fn push_optional_user_name(text: &mut Vec<u8>, name: &Option<&str>) -> Result<(), AllocError>
    ensures { OnOk result (text.new.items
        ≡ text.old.items ++ user_name_text (option_map (λ t. t.now) name.now)) }
{
    match name {
        Some(name) => push_text(text, b" user-name=", *name),
        None => Ok(()),
    }
}

/// Adds the Will and the User Name of a CONNECT.
#[tactic(auto, using(std::proofs::lemmas::List::append_assoc))]
fn push_login(alloc: Global, text: &mut Vec<u8>, connect: &ConnectRef<'_>) -> Result<(), AllocError>
    ensures { OnOk result (text.new.items
        ≡ text.old.items ++ login_text (connect_of connect.now)) }
{
    push_optional_will(alloc, text, &connect.will)?;
    push_optional_user_name(text, &connect.user_name)
}

/// Adds what a CONNECT has beside its properties.
fn push_connection(
    alloc: Global,
    text: &mut Vec<u8>,
    packet: &PacketRef<'_>,
) -> Result<(), AllocError>
    ensures { OnOk result (text.new.items
        ≡ text.old.items ++ connection_text (packet_of packet.now)) }
{
    match packet {
        PacketRef::Connect(connect) => push_login(alloc, text, connect),
        _ => Ok(()),
    }
}

/// Adds the properties of a packet, and what a CONNECT has beside them, if they are asked for.
#[tactic(auto, using(std::proofs::lemmas::List::append_assoc))]
pub(crate) fn push_details(
    alloc: Global,
    text: &mut Vec<u8>,
    with_properties: bool,
    packet: &PacketRef<'_>,
) -> Result<(), AllocError>
    ensures { OnOk result (text.new.items
        ≡ text.old.items ++ details_text with_properties (packet_of packet.now)) }
{
    if !with_properties {
        return Ok(());
    }
    push_properties(alloc, text, false, &packet.properties())?;
    push_connection(alloc, text, packet)
}
