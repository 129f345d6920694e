//! What the viewer shows of a packet as one JSON object (ours).

ghost use Rattle.std.specs.Prelude.{◌≡◌, ◌++◌, OnOk, codes};
ghost use Rattle.mqtt_packet.specs.codec.Ack.{ack_of};
ghost use Rattle.mqtt_packet.specs.codec.Connack.{connack_of};
ghost use Rattle.mqtt_packet.specs.codec.Frames.{packet_of};
ghost use Rattle.mqtt_packet.specs.codec.Packets.{properties_of};
ghost use Rattle.mqtt_packet.specs.codec.Publish.{publish_of};
ghost use Rattle.mqtt_packet.specs.codec.Suback.{suback_of};
ghost use Rattle.mqtt_packet.specs.connect.Connect.{connect_of};
ghost use Rattle.mqtt_packet.specs.subscribe.Subscribe.{subscribe_of};
ghost use Rattle.mqtt_packet.specs.subscribe.Unsubscribe.{unsubscribe_of};
ghost use Rattle.mqtt_cli.specs.viewer.JsonPacket.{json_ack, json_code, json_connack, json_connect, json_body, json_delivery, json_fault_line, json_fields, json_head, json_id, json_identified, json_line, json_login, json_payload, json_publish, json_start, json_suback, json_subscribe, json_unsubscribe};
ghost use Rattle.mqtt_cli.specs.viewer.JsonValues.{json_bytes, json_properties};

use crate::viewer::json_lists::{push_json_codes, push_json_filters, push_json_subscriptions};
use crate::viewer::json_values::{
    push_bool_member, push_json_bytes, push_json_properties, push_json_user_name, push_json_will,
    push_text_member,
};
use crate::viewer::packet_text::{HEAD_SIZE, packet_name, push_field};
use mqtt_packet::{
    AckRef, ConnackRef, ConnectRef, Delivery, PacketRef, PublishRef, SubackRef, SubscribeRef,
    UnsubscribeRef,
};
use std::alloc::{AllocError, Global};

/// Adds a Packet Identifier (2.2.1).
#[tactic(auto, using(std::proofs::lemmas::List::append_assoc))]
fn push_json_id(text: &mut Vec<u8>, id: u16) -> Result<(), AllocError>
    ensures { OnOk result (text.new.items ≡ text.old.items ++ json_id id) }
{
    push_field(text, b",\"id\":", u64::from(id))
}

/// Adds a reason code (2.4).
#[tactic(auto, using(std::proofs::lemmas::List::append_assoc))]
fn push_json_code(text: &mut Vec<u8>, code: u8) -> Result<(), AllocError>
    ensures { OnOk result (text.new.items ≡ text.old.items ++ json_code code) }
{
    push_field(text, b",\"code\":", u64::from(code))
}

/// Adds the Will and the User Name of a CONNECT.
#[tactic(auto, using(std::proofs::lemmas::List::append_assoc))]
fn push_json_login(
    alloc: Global,
    text: &mut Vec<u8>,
    connect: &ConnectRef<'_>,
) -> Result<(), AllocError>
    ensures { OnOk result (text.new.items
        ≡ text.old.items ++ json_login (connect_of connect.now)) }
{
    text.extend_from_slice(b",\"will\":")?;
    push_json_will(alloc, text, &connect.will)?;
    text.extend_from_slice(b",\"user-name\":")?;
    push_json_user_name(text, &connect.user_name)
}

#[tactic(auto, using(std::proofs::lemmas::List::append_assoc))]
fn push_json_connect(
    alloc: Global,
    text: &mut Vec<u8>,
    connect: &ConnectRef<'_>,
) -> Result<(), AllocError>
    ensures { OnOk result (text.new.items
        ≡ text.old.items ++ json_connect (connect_of connect.now)) }
{
    push_text_member(text, b",\"client\":", connect.client_identifier)?;
    push_bool_member(text, b",\"clean\":", connect.clean_start)?;
    push_field(text, b",\"keep\":", u64::from(connect.keep_alive))?;
    push_json_login(alloc, text, connect)
}

#[tactic(auto, using(std::proofs::lemmas::List::append_assoc))]
fn push_json_connack(text: &mut Vec<u8>, connack: &ConnackRef<'_>) -> Result<(), AllocError>
    ensures { OnOk result (text.new.items
        ≡ text.old.items ++ json_connack (connack_of connack.now)) }
{
    push_bool_member(text, b",\"present\":", connack.session_present)?;
    push_json_code(text, connack.reason.0)
}

/// Adds what stands for a QoS and the name of an identifier, the identifier and DUP.
#[tactic(auto, using(std::proofs::lemmas::List::append_assoc))]
fn push_json_identified(
    text: &mut Vec<u8>,
    front: &[u8],
    identifier: u16,
    dup: bool,
) -> Result<(), AllocError>
    ensures { OnOk result (text.new.items ≡ text.old.items ++ json_identified front.now identifier dup) }
{
    push_field(text, front, u64::from(identifier))?;
    push_bool_member(text, b",\"dup\":", dup)
}

fn push_json_delivery(text: &mut Vec<u8>, delivery: Delivery) -> Result<(), AllocError>
    ensures { OnOk result (text.new.items ≡ text.old.items ++ json_delivery delivery) }
{
    match delivery {
        Delivery::AtMostOnce => { text.extend_from_slice(b",\"qos\":0,\"id\":null,\"dup\":false") }
        Delivery::AtLeastOnce { dup, identifier } => {
            push_json_identified(text, b",\"qos\":1,\"id\":", identifier, dup)
        }
        Delivery::ExactlyOnce { dup, identifier } => {
            push_json_identified(text, b",\"qos\":2,\"id\":", identifier, dup)
        }
    }
}

#[tactic(auto, using(std::proofs::lemmas::List::append_assoc))]
fn push_json_publish(text: &mut Vec<u8>, publish: &PublishRef<'_>) -> Result<(), AllocError>
    ensures { OnOk result (text.new.items
        ≡ text.old.items ++ json_publish (publish_of publish.now)) }
{
    push_json_delivery(text, publish.delivery)?;
    push_bool_member(text, b",\"retain\":", publish.retain)?;
    push_text_member(text, b",\"topic\":", publish.topic)?;
    push_field(text, b",\"payload\":", publish.payload.len() as u64)
}

#[tactic(auto, using(std::proofs::lemmas::List::append_assoc))]
fn push_json_ack(text: &mut Vec<u8>, ack: &AckRef<'_>) -> Result<(), AllocError>
    ensures { OnOk result (text.new.items ≡ text.old.items ++ json_ack (ack_of ack.now)) }
{
    push_json_id(text, ack.identifier)?;
    push_json_code(text, ack.reason.0)
}

#[tactic(auto, using(std::proofs::lemmas::List::append_assoc))]
fn push_json_subscribe(text: &mut Vec<u8>, subscribe: &SubscribeRef<'_>) -> Result<(), AllocError>
    ensures { OnOk result (text.new.items
        ≡ text.old.items ++ json_subscribe (subscribe_of subscribe.now)) }
{
    push_json_id(text, subscribe.identifier)?;
    text.extend_from_slice(b",\"filters\":[")?;
    push_json_subscriptions(text, &subscribe.subscriptions)?;
    text.extend_from_slice(b"]")
}

#[tactic(auto, using(std::proofs::lemmas::List::append_assoc))]
fn push_json_suback(text: &mut Vec<u8>, suback: &SubackRef<'_>) -> Result<(), AllocError>
    ensures { OnOk result (text.new.items
        ≡ text.old.items ++ json_suback (suback_of suback.now)) }
{
    push_json_id(text, suback.identifier)?;
    text.extend_from_slice(b",\"codes\":[")?;
    push_json_codes(text, suback.codes)?;
    text.extend_from_slice(b"]")
}

#[tactic(auto, using(std::proofs::lemmas::List::append_assoc))]
fn push_json_unsubscribe(
    text: &mut Vec<u8>,
    unsubscribe: &UnsubscribeRef<'_>,
) -> Result<(), AllocError>
    ensures { OnOk result (text.new.items
        ≡ text.old.items ++ json_unsubscribe (unsubscribe_of unsubscribe.now)) }
{
    push_json_id(text, unsubscribe.identifier)?;
    text.extend_from_slice(b",\"filters\":[")?;
    push_json_filters(text, &unsubscribe.filters)?;
    text.extend_from_slice(b"]")
}

/// Adds the fields of a packet.
fn push_json_fields(
    alloc: Global,
    text: &mut Vec<u8>,
    packet: &PacketRef<'_>,
) -> Result<(), AllocError>
    ensures { OnOk result (text.new.items
        ≡ text.old.items ++ json_fields (packet_of packet.now)) }
{
    match packet {
        PacketRef::Connect(connect) => push_json_connect(alloc, text, connect),
        PacketRef::Connack(connack) => push_json_connack(text, connack),
        PacketRef::Publish(publish) => push_json_publish(text, publish),
        PacketRef::Puback(ack)
        | PacketRef::Pubrec(ack)
        | PacketRef::Pubrel(ack)
        | PacketRef::Pubcomp(ack) => push_json_ack(text, ack),
        PacketRef::Subscribe(subscribe) => push_json_subscribe(text, subscribe),
        PacketRef::Suback(suback) | PacketRef::Unsuback(suback) => push_json_suback(text, suback),
        PacketRef::Unsubscribe(unsubscribe) => push_json_unsubscribe(text, unsubscribe),
        PacketRef::Pingreq | PacketRef::Pingresp => Ok(()),
        PacketRef::Disconnect(notice) | PacketRef::Auth(notice) => {
            push_json_code(text, notice.reason.0)
        }
    }
}

/// Adds the first bytes of a payload.
#[tactic(auto, using(std::proofs::lemmas::List::append_assoc))]
fn push_json_shown(alloc: Global, text: &mut Vec<u8>, bytes: &[u8]) -> Result<(), AllocError>
    ensures { OnOk result (text.new.items ≡ text.old.items ++ (codes ",\"head\":" ++ json_bytes bytes.now)) }
{
    text.extend_from_slice(b",\"head\":")?;
    push_json_bytes(alloc, text, bytes)
}

/// Adds the first bytes of a payload, if they are asked for.
fn push_json_head(
    alloc: Global,
    text: &mut Vec<u8>,
    with_payload: bool,
    payload: &[u8],
) -> Result<(), AllocError>
    ensures { OnOk result (text.new.items
        ≡ text.old.items ++ json_head with_payload payload.now) }
{
    if !with_payload {
        return Ok(());
    }
    push_json_shown(alloc, text, &payload[..HEAD_SIZE.min(payload.len())])
}

fn push_json_payload(
    alloc: Global,
    text: &mut Vec<u8>,
    with_payload: bool,
    packet: &PacketRef<'_>,
) -> Result<(), AllocError>
    ensures { OnOk result (text.new.items
        ≡ text.old.items ++ json_payload with_payload (packet_of packet.now)) }
{
    match packet {
        PacketRef::Publish(publish) => push_json_head(alloc, text, with_payload, publish.payload),
        _ => Ok(()),
    }
}

/// Adds the place of a packet, its name and its size.
#[tactic(auto, using(std::proofs::lemmas::List::append_assoc))]
fn push_json_start(
    text: &mut Vec<u8>,
    place: u64,
    size: usize,
    packet: &PacketRef<'_>,
) -> Result<(), AllocError>
    ensures { OnOk result (text.new.items
        ≡ text.old.items ++ json_start place size (packet_of packet.now)) }
{
    push_field(text, b"{\"place\":", place)?;
    text.extend_from_slice(b",\"type\":\"")?;
    text.extend_from_slice(packet_name(packet))?;
    push_field(text, b"\",\"size\":", size as u64)
}

/// Adds the properties of a packet.
fn push_json_own_properties(
    alloc: Global,
    text: &mut Vec<u8>,
    packet: &PacketRef<'_>,
) -> Result<(), AllocError>
    ensures { OnOk result (text.new.items
        ≡ text.old.items ++ json_properties (properties_of (packet_of packet.now))) }
{
    push_json_properties(alloc, text, &packet.properties())
}

/// Adds the end of an object, in a line.
fn push_json_end(text: &mut Vec<u8>) -> Result<(), AllocError>
    ensures { OnOk result (text.new.items ≡ text.old.items ++ codes "}\n") }
{
    text.extend_from_slice(b"}\n")
}

/// Adds the members behind the first three: those of the packet's kind, its properties, and the first bytes of a payload.
#[tactic(auto, using(std::proofs::lemmas::List::append_assoc))]
fn push_json_body(
    alloc: Global,
    text: &mut Vec<u8>,
    with_payload: bool,
    packet: &PacketRef<'_>,
) -> Result<(), AllocError>
    ensures { OnOk result (text.new.items ≡ text.old.items ++ json_body with_payload (packet_of packet.now)) }
{
    push_json_fields(alloc, text, packet)?;
    push_json_own_properties(alloc, text, packet)?;
    push_json_payload(alloc, text, with_payload, packet)
}

/// Adds the object of a packet, in a line.
pub(crate) fn push_json_line(
    alloc: Global,
    text: &mut Vec<u8>,
    with_payload: bool,
    place: u64,
    size: usize,
    packet: &PacketRef<'_>,
) -> Result<(), AllocError>
    ensures { OnOk result (text.new.items ≡ text.old.items ++ json_line with_payload
        (record { place = place; size = size; packet = packet_of packet.now })) }
{
    push_json_start(text, place, size, packet)?;
    push_json_body(alloc, text, with_payload, packet)?;
    push_json_end(text)
}

/// Adds the object of what ends a stream early, in a line.
#[tactic(auto, using(std::proofs::lemmas::List::append_assoc))]
pub(crate) fn push_json_fault_line(
    text: &mut Vec<u8>,
    place: u64,
    name: &[u8],
) -> Result<(), AllocError>
    ensures { OnOk result (text.new.items
        ≡ text.old.items ++ json_fault_line place name.now) }
{
    push_field(text, b"{\"place\":", place)?;
    text.extend_from_slice(b",\"fault\":\"")?;
    text.extend_from_slice(name)?;
    text.extend_from_slice(b"\"}\n")
}
