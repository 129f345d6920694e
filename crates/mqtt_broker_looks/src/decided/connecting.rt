//! CONNECT: its refusals, and what is kept of it (3.1, 3.2.2.2).
ghost use Rattle.std.specs.Prelude.{◌≡◌, ◌++◌, nat_eq, nat_lt, not, decimal, IfOk, is_some, option_map};
ghost use Rattle.std.specs.List.{starts_with};
ghost use Rattle.mqtt_topic.specs.names.Names.{has_wildcard, is_topic_name};
ghost use Rattle.mqtt_records.specs.declared.state.records.Records.{Records};
ghost use Rattle.mqtt_rules.specs.step.State.{session_named};
ghost use Rattle.mqtt_rules.specs.step.Connect.{aliases_of, expiry_of, fresh_row, has_bad_topic, largest_of, refusal, refusal_size, will_kept, will_of, window_of};
ghost use Rattle.mqtt_records.specs.state.Session.{auto};

use crate::decided::numbers::{number_at, u16_at};
use mqtt_base::{CLIENT_LIMIT, Reason, Text};
use mqtt_packet::{Connect, Will as WillAsked};
use mqtt_props::PropName;
use mqtt_records::Will;
use mqtt_topic::most_of;
use std::alloc::{AllocError, Global};

/// Bytes: the smallest Maximum Packet Size that the broker takes (ours).
const LEAST_PACKET_SIZE: u32 = 64;

/// Bytes of a CONNACK that refuses (3.2).
const REFUSAL_SIZE: u32 = 5;

/// The client's Receive Maximum, 65,535 if it sent none (3.1.2.11.3). Takes no memory.
pub fn window_of(connect: &Connect) -> u16
    ensures { result ≡ window_of connect.now }
{
    u16_at(&connect.properties.lend(), PropName::ReceiveMaximum).unwrap_or(65_535)
}

/// The client's Maximum Packet Size in bytes; if it sent none, a number above the size of any packet
/// (3.1.2.11.4). Takes no memory.
pub fn largest_of(connect: &Connect) -> u32
    ensures { result ≡ largest_of connect.now }
{
    number_at(&connect.properties.lend(), PropName::MaximumPacketSize).unwrap_or(0xffff_ffff)
}

/// How many topics the client is told by aliases at most: the lesser of its Topic Alias Maximum and 10, and none
/// if it sent none (3.1.2.11.5). Takes no memory.
pub fn aliases_of(connect: &Connect) -> u16
    ensures { result ≡ aliases_of connect.now }
{
    most_of(u16_at(&connect.properties.lend(), PropName::TopicAliasMaximum))
}

/// Its Session Expiry Interval in seconds, 0 if it sent none (3.1.2.11.2). Takes no memory.
pub fn expiry_of(connect: &Connect) -> u32
    ensures { result ≡ expiry_of connect.now }
{
    number_at(&connect.properties.lend(), PropName::SessionExpiryInterval).unwrap_or(0)
}

/// Whether a text has `+` or `#` in it.
fn has_wildcard(text: &str) -> bool
    ensures { result ≡ has_wildcard text.now }
{
    text.as_bytes().iter().any(|c| *c == b'+' || *c == b'#')
}

/// Whether a text is a topic name (4.7.1, 4.7.3).
fn is_topic_name(text: &str) -> bool
    ensures { result ≡ is_topic_name text.now }
{
    !text.is_empty() && !has_wildcard(text)
}

/// Whether there is a Will whose topic is none.
fn has_bad_topic(will: &Option<WillAsked>) -> bool
    ensures { result ≡ has_bad_topic will.now }
{
    match will {
        Some(will) => !is_topic_name(will.topic.as_str()),
        None => false,
    }
}

/// Whether a text begins as the client identifiers that the broker assigns (ours).
fn begins_auto(text: &str) -> bool
    ensures { result ≡ starts_with nat_eq text.now auto }
{
    text.as_bytes().starts_with(b"auto-")
}

/// Whether a CONNECT is refused, with the code of the first reason that holds, by whether a session has
/// its client identifier (3.2.2.2): an Authentication Method (0x8C), a Maximum Packet Size below 64 bytes
/// (0x95, ours), a client identifier of over 64 bytes or one that only the broker assigns (0x85, ours), a
/// Will Topic that is no topic name (0x90). Takes no memory.
pub fn refusal(connect: &Connect, is_known: bool) -> Option<Reason>
    ensures { (r : Records) → is_some (session_named connect.now.client_identifier r) ≡ is_known
        → option_map (λ code. code.0) result ≡ refusal connect.now r }
{
    if connect
        .properties
        .lend()
        .has(PropName::AuthenticationMethod)
    {
        return Some(Reason::BAD_AUTHENTICATION_METHOD);
    }
    if largest_of(connect) < LEAST_PACKET_SIZE {
        return Some(Reason::PACKET_TOO_LARGE);
    }
    let client = connect.client_identifier.as_str();
    if client.len() > CLIENT_LIMIT {
        return Some(Reason::CLIENT_IDENTIFIER_NOT_VALID);
    }
    if !is_known && begins_auto(client) {
        return Some(Reason::CLIENT_IDENTIFIER_NOT_VALID);
    }
    if has_bad_topic(&connect.will) {
        return Some(Reason::TOPIC_NAME_INVALID);
    }
    None
}

/// A Will as it is kept. Its texts and its payload are shared.
fn will_kept(asked: &WillAsked) -> Result<Will, AllocError>
    ensures { IfOk result (λ will. will ≡ will_kept asked.now) }
{
    let delay = number_at(&asked.properties.lend(), PropName::WillDelayInterval).unwrap_or(0);
    Ok(Will {
        delay,
        qos: asked.qos,
        retain: asked.retain,
        topic: asked.topic.clone()?,
        properties: asked.properties.clone()?,
        payload: asked.payload.share()?,
    })
}

/// The Will of a CONNECT as it is kept, if there is one (3.1.2.5). Its texts and its payload are shared.
pub fn will_of(connect: &Connect) -> Result<Option<Will>, AllocError>
    ensures { IfOk result (λ will. will ≡ will_of connect.now) }
{
    match &connect.will {
        Some(asked) => Ok(Some(will_kept(asked)?)),
        None => Ok(None),
    }
}

/// Whether the client takes the five bytes of a CONNACK that refuses it (3.1.2.11.4). Takes no memory.
pub fn takes_refusal(connect: &Connect) -> bool
    ensures { result ≡ not (nat_lt (largest_of connect.now) refusal_size) }
{
    largest_of(connect) >= REFUSAL_SIZE
}

/// The client identifier that the broker assigns under a number (3.1.3.1).
pub fn assigned_name(alloc: Global, number: u64) -> Result<Text, AllocError>
    ensures { IfOk result (λ name. name ≡ auto ++ decimal number) }
{
    let text = format!(in alloc; "auto-{number}")?;
    let name = Text::new(alloc, text.as_str());
    drop(text);
    name
}
