//! What the viewer shows of a packet (ours).

ghost use Rattle.std.specs.Prelude.{◌≡◌, ◌<◌, ◌≤◌, ◌++◌, ◌∷◌, [], false, OnOk, codes, length, take};
ghost use Rattle.std.specs.List.{flat_map};
ghost use Rattle.std.specs.Fmt.{decimal, digit_glyph};
ghost use Rattle.hex.specs.Hex.{encode_lower};
ghost use Rattle.mqtt_packet.specs.connect.Connect.{connect_of};
ghost use Rattle.mqtt_packet.specs.subscribe.Subscribe.{subscribe_of};
ghost use Rattle.mqtt_packet.specs.subscribe.SubscriptionViews.{subscription_of};
ghost use Rattle.mqtt_packet.specs.subscribe.Unsubscribe.{unsubscribe_of};
ghost use Rattle.mqtt_packet.specs.codec.Ack.{ack_of};
ghost use Rattle.mqtt_packet.specs.codec.Connack.{connack_of};
ghost use Rattle.mqtt_packet.specs.codec.Frames.{packet_of};
ghost use Rattle.mqtt_packet.specs.codec.Notice.{notice_of};
ghost use Rattle.mqtt_packet.specs.codec.Publish.{publish_of};
ghost use Rattle.mqtt_packet.specs.codec.Suback.{suback_of};
ghost use Rattle.mqtt_base.specs.Escaped.{escaped, escaped_byte, hex_byte, is_plain};
ghost use Rattle.mqtt_cli.specs.viewer.PacketText.{head_text, digit_text, next_code, codes_text, connect_text, connack_text, dup_text, retain_text, delivery_text, publish_text, ack_text, subscription_text, subscribe_text, suback_text, filter_text, unsubscribe_text, notice_text, name_text, fields_text, count_text, payload_text, packet_text};
ghost use Rattle.mqtt_cli.specs.viewer.PropertyText.{details_text};

use crate::viewer::details::Details;
use crate::viewer::property_text::push_details;
use itoa::Buffer;
use mqtt_packet::{
    AckRef, ConnackRef, ConnectRef, Delivery, FiltersRef, NoticeRef, PacketRef, PublishRef,
    SubackRef, SubscribeRef, SubscriptionRef, SubscriptionsRef, UnsubscribeRef,
};
use std::alloc::{AllocError, Global};

/// The most payload bytes that a line shows.
pub const HEAD_SIZE: usize = 16;

/// Adds a number in decimal digits.
pub(crate) fn push_number(text: &mut Vec<u8>, number: u64) -> Result<(), AllocError>
    ensures { OnOk result (text.new.items ≡ text.old.items ++ decimal number) }
{
    let mut digits = Buffer::new();
    text.extend_from_slice(digits.format(number).as_bytes())
}

/// Adds the name of a field and its number.
pub(crate) fn push_field(text: &mut Vec<u8>, name: &[u8], number: u64) -> Result<(), AllocError>
    ensures { OnOk result (text.new.items ≡ text.old.items ++ name.now ++ decimal number) }
{
    text.extend_from_slice(name)?;
    push_number(text, number)
}

/// A hexadecimal digit.
pub(crate) fn hex_digit(value: u8) -> u8
    requires { value < 16 }
    ensures { result ≡ digit_glyph false value }
{
    if value < 10 {
        b'0' + value
    } else {
        b'a' - 10 + value
    }
}

/// Adds a byte in two hexadecimal digits.
fn push_hex(text: &mut Vec<u8>, byte: u8) -> Result<(), AllocError>
    ensures { OnOk result (text.new.items ≡ text.old.items ++ hex_byte byte) }
{
    text.extend_from_slice(&[hex_digit(byte / 16), hex_digit(byte % 16)])
}

/// Whether a byte of a text stands for itself: it is printable ASCII, and neither a space nor `%`.
fn is_plain(byte: u8) -> bool
    ensures { result ≡ is_plain byte }
{
    b'!' <= byte && byte <= b'~' && byte != b'%'
}

/// How many bytes at the front stand for themselves, up to the first that doesn't.
#[tactic(auto, using(crate::proofs::viewer_lemmas::Texts::run_first, crate::proofs::viewer_lemmas::Texts::run_more))]
fn plain_len(bytes: &[u8]) -> usize
    ensures within { result ≤ length bytes.now }
    ensures plain { escaped (take result bytes.now) ≡ take result bytes.now }
{
    let mut len = 0;
    let mut rest = bytes;
    while let Some((first, after)) = rest.split_first() {
        if !is_plain(*first) {
            return len;
        }
        len += 1;
        rest = after;
    }
    len
}

/// Adds a byte of a text: itself, or `%` and two hexadecimal digits.
pub(crate) fn push_escaped_byte(text: &mut Vec<u8>, byte: u8) -> Result<(), AllocError>
    ensures { OnOk result (text.new.items ≡ text.old.items ++ escaped_byte byte) }
{
    if is_plain(byte) {
        text.extend_from_slice(&[byte])
    } else {
        text.extend_from_slice(&[b'%', hex_digit(byte / 16), hex_digit(byte % 16)])
    }
}

/// Adds a text of a packet in one word, whatever its bytes; those that stand for themselves in runs.
#[tactic(auto, using(crate::proofs::viewer_lemmas::Texts::runs_next, crate::proofs::viewer_lemmas::Texts::runs_end))]
pub(crate) fn push_escaped(text: &mut Vec<u8>, value: &str) -> Result<(), AllocError>
    ensures { OnOk result (text.new.items ≡ text.old.items ++ escaped value.now) }
{
    let mut rest = value.as_bytes();
    'runs: loop {
        let (run, other) = rest.split_at(plain_len(rest));
        text.extend_from_slice(run)?;
        let Some((byte, after)) = other.split_first() else {
            return Ok(());
        };
        push_escaped_byte(text, *byte)?;
        rest = after;
    }
}

/// Adds a comma and a code in two hexadecimal digits.
fn push_next_code(text: &mut Vec<u8>, code: u8) -> Result<(), AllocError>
    ensures { OnOk result (text.new.items ≡ text.old.items ++ next_code code) }
{
    text.extend_from_slice(&[b',', hex_digit(code / 16), hex_digit(code % 16)])
}

/// Adds codes with a comma before each.
fn push_next_codes(text: &mut Vec<u8>, codes: &[u8]) -> Result<(), AllocError>
    ensures { OnOk result (text.new.items
        ≡ text.old.items ++ flat_map next_code codes.now) }
{
    let mut rest = codes;
    while let Some((first, after)) = rest.split_first() {
        push_next_code(text, *first)?;
        rest = after;
    }
    Ok(())
}

/// Adds codes in two hexadecimal digits each, commas between them.
#[tactic(auto, using(std::proofs::lemmas::List::append_assoc))]
fn push_codes(text: &mut Vec<u8>, codes: &[u8]) -> Result<(), AllocError>
    ensures { OnOk result (text.new.items ≡ text.old.items ++ codes_text codes.now) }
{
    let Some((first, rest)) = codes.split_first() else {
        return Ok(());
    };
    push_hex(text, *first)?;
    push_next_codes(text, rest)
}

#[tactic(auto, using(std::proofs::lemmas::List::append_assoc))]
fn push_connect(text: &mut Vec<u8>, connect: &ConnectRef<'_>) -> Result<(), AllocError>
    ensures { OnOk result (text.new.items
        ≡ text.old.items ++ connect_text (connect_of connect.now)) }
{
    text.extend_from_slice(b" client=")?;
    push_escaped(text, connect.client_identifier)?;
    push_field(text, b" clean=", u64::from(connect.clean_start))?;
    push_field(text, b" keep=", u64::from(connect.keep_alive))?;
    push_field(text, b" will=", u64::from(connect.will.is_some()))
}

/// Adds a reason code (2.4).
fn push_code(text: &mut Vec<u8>, code: u8) -> Result<(), AllocError>
    ensures { OnOk result (text.new.items ≡ text.old.items ++ codes " code=" ++ hex_byte code) }
{
    text.extend_from_slice(b" code=")?;
    push_hex(text, code)
}

#[tactic(auto, using(std::proofs::lemmas::List::append_assoc))]
fn push_connack(text: &mut Vec<u8>, connack: &ConnackRef<'_>) -> Result<(), AllocError>
    ensures { OnOk result (text.new.items
        ≡ text.old.items ++ connack_text (connack_of connack.now)) }
{
    push_field(text, b" present=", u64::from(connack.session_present))?;
    push_code(text, connack.reason.0)
}

fn push_dup(text: &mut Vec<u8>, dup: bool) -> Result<(), AllocError>
    ensures { OnOk result (text.new.items ≡ text.old.items ++ dup_text dup) }
{
    if dup {
        text.extend_from_slice(b" dup")
    } else {
        Ok(())
    }
}

fn push_retain(text: &mut Vec<u8>, retain: bool) -> Result<(), AllocError>
    ensures { OnOk result (text.new.items ≡ text.old.items ++ retain_text retain) }
{
    if retain {
        text.extend_from_slice(b" retain")
    } else {
        Ok(())
    }
}

#[tactic(auto, using(std::proofs::lemmas::List::append_assoc))]
fn push_delivery(text: &mut Vec<u8>, delivery: Delivery) -> Result<(), AllocError>
    ensures { OnOk result (text.new.items ≡ text.old.items ++ delivery_text delivery) }
{
    match delivery {
        Delivery::AtMostOnce => text.extend_from_slice(b" qos=0"),
        Delivery::AtLeastOnce { dup, identifier } => {
            push_field(text, b" qos=1 id=", u64::from(identifier))?;
            push_dup(text, dup)
        }
        Delivery::ExactlyOnce { dup, identifier } => {
            push_field(text, b" qos=2 id=", u64::from(identifier))?;
            push_dup(text, dup)
        }
    }
}

#[tactic(auto, using(std::proofs::lemmas::List::append_assoc))]
fn push_publish(text: &mut Vec<u8>, publish: &PublishRef<'_>) -> Result<(), AllocError>
    ensures { OnOk result (text.new.items
        ≡ text.old.items ++ publish_text (publish_of publish.now)) }
{
    push_delivery(text, publish.delivery)?;
    push_retain(text, publish.retain)?;
    text.extend_from_slice(b" topic=")?;
    push_escaped(text, publish.topic)?;
    push_field(text, b" payload=", publish.payload.len() as u64)
}

#[tactic(auto, using(std::proofs::lemmas::List::append_assoc))]
fn push_ack(text: &mut Vec<u8>, ack: &AckRef<'_>) -> Result<(), AllocError>
    ensures { OnOk result (text.new.items ≡ text.old.items ++ ack_text (ack_of ack.now)) }
{
    push_field(text, b" id=", u64::from(ack.identifier))?;
    push_code(text, ack.reason.0)
}

#[tactic(auto, using(std::proofs::lemmas::List::append_assoc))]
fn push_subscription(
    text: &mut Vec<u8>,
    subscription: &SubscriptionRef<'_>,
) -> Result<(), AllocError>
    ensures { OnOk result (text.new.items
        ≡ text.old.items ++ subscription_text (subscription_of subscription.now)) }
{
    text.extend_from_slice(b" filter=")?;
    push_escaped(text, subscription.filter)?;
    text.extend_from_slice(b":")?;
    push_hex(text, subscription.options)
}

fn push_subscriptions(
    text: &mut Vec<u8>,
    subscriptions: &SubscriptionsRef<'_>,
) -> Result<(), AllocError>
    ensures { OnOk result (text.new.items
        ≡ text.old.items ++ flat_map subscription_text subscriptions.now) }
{
    let mut rest = subscriptions.again();
    while let Some((first, after)) = rest.split_first() {
        push_subscription(text, &first)?;
        rest = after;
    }
    Ok(())
}

#[tactic(auto, using(std::proofs::lemmas::List::append_assoc))]
fn push_subscribe(text: &mut Vec<u8>, subscribe: &SubscribeRef<'_>) -> Result<(), AllocError>
    ensures { OnOk result (text.new.items
        ≡ text.old.items ++ subscribe_text (subscribe_of subscribe.now)) }
{
    push_field(text, b" id=", u64::from(subscribe.identifier))?;
    push_subscriptions(text, &subscribe.subscriptions)
}

#[tactic(auto, using(std::proofs::lemmas::List::append_assoc))]
fn push_suback(text: &mut Vec<u8>, suback: &SubackRef<'_>) -> Result<(), AllocError>
    ensures { OnOk result (text.new.items
        ≡ text.old.items ++ suback_text (suback_of suback.now)) }
{
    push_field(text, b" id=", u64::from(suback.identifier))?;
    text.extend_from_slice(b" codes=")?;
    push_codes(text, suback.codes)
}

fn push_filter(text: &mut Vec<u8>, filter: &str) -> Result<(), AllocError>
    ensures { OnOk result (text.new.items ≡ text.old.items ++ filter_text filter.now) }
{
    text.extend_from_slice(b" filter=")?;
    push_escaped(text, filter)
}

fn push_filters(text: &mut Vec<u8>, filters: &FiltersRef<'_>) -> Result<(), AllocError>
    ensures { OnOk result (text.new.items
        ≡ text.old.items ++ flat_map filter_text filters.now) }
{
    let mut rest = filters.again();
    while let Some((first, after)) = rest.split_first() {
        push_filter(text, first)?;
        rest = after;
    }
    Ok(())
}

#[tactic(auto, using(std::proofs::lemmas::List::append_assoc))]
fn push_unsubscribe(text: &mut Vec<u8>, unsubscribe: &UnsubscribeRef<'_>) -> Result<(), AllocError>
    ensures { OnOk result (text.new.items
        ≡ text.old.items ++ unsubscribe_text (unsubscribe_of unsubscribe.now)) }
{
    push_field(text, b" id=", u64::from(unsubscribe.identifier))?;
    push_filters(text, &unsubscribe.filters)
}

fn push_notice(text: &mut Vec<u8>, notice: &NoticeRef<'_>) -> Result<(), AllocError>
    ensures { OnOk result (text.new.items
        ≡ text.old.items ++ notice_text (notice_of notice.now)) }
{
    push_code(text, notice.reason.0)
}

/// The standard's name of a packet (2.1.2).
pub(crate) fn packet_name(packet: &PacketRef<'_>) -> &'static [u8]
    ensures { result.now ≡ name_text (packet_of packet.now) }
{
    match packet {
        PacketRef::Connect(_) => b"CONNECT",
        PacketRef::Connack(_) => b"CONNACK",
        PacketRef::Publish(_) => b"PUBLISH",
        PacketRef::Puback(_) => b"PUBACK",
        PacketRef::Pubrec(_) => b"PUBREC",
        PacketRef::Pubrel(_) => b"PUBREL",
        PacketRef::Pubcomp(_) => b"PUBCOMP",
        PacketRef::Subscribe(_) => b"SUBSCRIBE",
        PacketRef::Suback(_) => b"SUBACK",
        PacketRef::Unsubscribe(_) => b"UNSUBSCRIBE",
        PacketRef::Unsuback(_) => b"UNSUBACK",
        PacketRef::Pingreq => b"PINGREQ",
        PacketRef::Pingresp => b"PINGRESP",
        PacketRef::Disconnect(_) => b"DISCONNECT",
        PacketRef::Auth(_) => b"AUTH",
    }
}

/// Adds the fields of a packet.
fn push_fields(text: &mut Vec<u8>, packet: &PacketRef<'_>) -> Result<(), AllocError>
    ensures { OnOk result (text.new.items
        ≡ text.old.items ++ fields_text (packet_of packet.now)) }
{
    match packet {
        PacketRef::Connect(connect) => push_connect(text, connect),
        PacketRef::Connack(connack) => push_connack(text, connack),
        PacketRef::Publish(publish) => push_publish(text, publish),
        PacketRef::Puback(ack)
        | PacketRef::Pubrec(ack)
        | PacketRef::Pubrel(ack)
        | PacketRef::Pubcomp(ack) => push_ack(text, ack),
        PacketRef::Subscribe(subscribe) => push_subscribe(text, subscribe),
        PacketRef::Suback(suback) | PacketRef::Unsuback(suback) => push_suback(text, suback),
        PacketRef::Unsubscribe(unsubscribe) => push_unsubscribe(text, unsubscribe),
        PacketRef::Pingreq | PacketRef::Pingresp => Ok(()),
        PacketRef::Disconnect(notice) | PacketRef::Auth(notice) => push_notice(text, notice),
    }
}

fn push_count(text: &mut Vec<u8>, count: usize) -> Result<(), AllocError>
    ensures { OnOk result (text.new.items ≡ text.old.items ++ count_text count) }
{
    if count == 0 {
        Ok(())
    } else {
        push_field(text, b" props=", count as u64)
    }
}

/// Adds bytes in hexadecimal.
pub(crate) fn push_bytes(alloc: Global, text: &mut Vec<u8>, bytes: &[u8]) -> Result<(), AllocError>
    ensures { OnOk result (text.new.items ≡ text.old.items ++ encode_lower bytes.now) }
{
    let shown = hex::encode(alloc, bytes)?;
    text.extend_from_slice(shown.as_bytes())
}

/// Adds the first bytes of a payload.
#[tactic(auto, using(std::proofs::lemmas::List::append_assoc))]
fn push_shown(alloc: Global, text: &mut Vec<u8>, bytes: &[u8]) -> Result<(), AllocError>
    ensures { OnOk result (text.new.items
        ≡ text.old.items ++ (codes " head=" ++ encode_lower bytes.now)) }
{
    text.extend_from_slice(b" head=")?;
    push_bytes(alloc, text, bytes)
}

/// Adds the first bytes of a payload, if they are asked for.
fn push_head(
    alloc: Global,
    text: &mut Vec<u8>,
    with_payload: bool,
    payload: &[u8],
) -> Result<(), AllocError>
    ensures { OnOk result (text.new.items
        ≡ text.old.items ++ head_text with_payload payload.now) }
{
    if !with_payload {
        return Ok(());
    }
    push_shown(alloc, text, &payload[..HEAD_SIZE.min(payload.len())])
}

fn push_payload(
    alloc: Global,
    text: &mut Vec<u8>,
    with_payload: bool,
    packet: &PacketRef<'_>,
) -> Result<(), AllocError>
    ensures { OnOk result (text.new.items
        ≡ text.old.items ++ payload_text with_payload (packet_of packet.now)) }
{
    match packet {
        PacketRef::Publish(publish) => push_head(alloc, text, with_payload, publish.payload),
        _ => Ok(()),
    }
}

/// Adds the name of a packet and its size.
#[tactic(auto, using(std::proofs::lemmas::List::append_assoc))]
fn push_name(text: &mut Vec<u8>, size: usize, packet: &PacketRef<'_>) -> Result<(), AllocError>
    ensures { OnOk result (text.new.items
        ≡ text.old.items ++ codes " " ++ name_text (packet_of packet.now) ++ codes " " ++ decimal size) }
{
    text.extend_from_slice(b" ")?;
    text.extend_from_slice(packet_name(packet))?;
    push_field(text, b" ", size as u64)
}

/// Adds what is shown of a packet of this size, without its place.
#[tactic(auto, using(std::proofs::lemmas::List::append_assoc))]
pub fn push_packet_text(
    alloc: Global,
    text: &mut Vec<u8>,
    details: Details,
    size: usize,
    packet: &PacketRef<'_>,
) -> Result<(), AllocError>
    ensures { OnOk result (text.new.items
        ≡ text.old.items ++ packet_text details size (packet_of packet.now)) }
{
    push_name(text, size, packet)?;
    push_fields(text, packet)?;
    push_count(text, packet.properties().len())?;
    push_details(alloc, text, details.properties, packet)?;
    push_payload(alloc, text, details.payload, packet)
}
