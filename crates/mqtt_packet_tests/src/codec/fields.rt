//! What each packet tells of its fields (3.1 to 3.15).

use crate::codec::vectors::{
    CONNACK, DISCONNECT, PUBACK, PUBLISH_AT_QOS_2, PUBREC, SUBACK, SUBSCRIBE,
};
use mqtt_base::{Kind, Qos, Reason, RetainHandling};
use mqtt_packet::{
    ConnackRef, ConnectRef, Delivery, Fault, NoticeRef, Packet, PacketRef, PublishRef, SubackRef,
    SubscribeRef, UnsubscribeRef, WillRef, look_at, options_read,
};
use mqtt_props::PropName;
use std::alloc::Global;
use std::process::Abort;
use std::test::Fail;

fn connect_of(frame: &[u8]) -> Option<ConnectRef<'_>> {
    match look_at(frame) {
        Ok(PacketRef::Connect(connect)) => Some(connect),
        Ok(other) => {
            drop(other);
            None
        }
        Err(_) => None,
    }
}

fn connack_of(frame: &[u8]) -> Option<ConnackRef<'_>> {
    match look_at(frame) {
        Ok(PacketRef::Connack(connack)) => Some(connack),
        Ok(other) => {
            drop(other);
            None
        }
        Err(_) => None,
    }
}

fn publish_of(frame: &[u8]) -> Option<PublishRef<'_>> {
    match look_at(frame) {
        Ok(PacketRef::Publish(publish)) => Some(publish),
        Ok(other) => {
            drop(other);
            None
        }
        Err(_) => None,
    }
}

fn subscribe_of(frame: &[u8]) -> Option<SubscribeRef<'_>> {
    match look_at(frame) {
        Ok(PacketRef::Subscribe(subscribe)) => Some(subscribe),
        Ok(other) => {
            drop(other);
            None
        }
        Err(_) => None,
    }
}

fn suback_of(frame: &[u8]) -> Option<SubackRef<'_>> {
    match look_at(frame) {
        Ok(PacketRef::Suback(suback)) => Some(suback),
        Ok(other) => {
            drop(other);
            None
        }
        Err(_) => None,
    }
}

fn unsubscribe_of(frame: &[u8]) -> Option<UnsubscribeRef<'_>> {
    match look_at(frame) {
        Ok(PacketRef::Unsubscribe(unsubscribe)) => Some(unsubscribe),
        Ok(other) => {
            drop(other);
            None
        }
        Err(_) => None,
    }
}

fn disconnect_of(frame: &[u8]) -> Option<NoticeRef<'_>> {
    match look_at(frame) {
        Ok(PacketRef::Disconnect(notice)) => Some(notice),
        Ok(other) => {
            drop(other);
            None
        }
        Err(_) => None,
    }
}

// Flags: User Name, Password, Will at QoS 2 with RETAIN, no Clean Start.
const CONNECT: &[u8] = &[
    0x10, 0x27, 0, 4, b'M', b'Q', b'T', b'T', 5, 0xf4, 0x01, 0x2c, 5, 0x11, 0, 0, 0, 9, 0, 2, b'p',
    b'1', 2, 0x01, 1, 0, 3, b'a', b'/', b'w', 0, 2, 0, 0xff, 0, 1, b'u', 0, 2, 7, 0,
];

/// The Will of a CONNECT.
fn will_of(frame: &[u8]) -> Option<WillRef<'_>> {
    let ConnectRef {
        properties,
        will,
        ..
    } = connect_of(frame)?;
    drop(properties);
    will
}

fn assert_will(rt: &impl Abort, will: WillRef<'_>) {
    let has_indicator = will.properties.has(PropName::PayloadFormatIndicator);
    let flags = (will.qos, will.retain, has_indicator);
    let message = (will.topic, will.payload);
    drop(will);
    assert_eq!(rt; flags, (Qos::ExactlyOnce, true, true));
    assert_eq!(rt; message, ("a/w", &[0, 0xff][..]));
}

#[test]
fn a_connect_tells_its_numbers_and_names(rt: HostRuntime) {
    let connect = connect_of(CONNECT).expect(&rt, "it is a CONNECT");
    let numbers = (
        connect.clean_start,
        connect.keep_alive,
        connect.properties.len(),
    );
    let names = (
        connect.client_identifier,
        connect.user_name,
        connect.password,
    );
    drop(connect);
    assert_eq!(rt; numbers, (false, 300, 1));
    assert_eq!(rt; names, ("p1", Some("u"), Some(&[7, 0][..])));
}

#[test]
fn a_connect_tells_its_will(rt: HostRuntime) {
    assert_will(&rt, will_of(CONNECT).expect(&rt, "there is a Will"));
}

/// A PUBLISH of the byte 9 to the topic `a` tells its delivery and RETAIN.
fn assert_publish(rt: &impl Abort, frame: &[u8], delivery: Delivery, retain: bool) {
    let publish = publish_of(frame).expect(rt, "it is a PUBLISH");
    let head = (publish.delivery, publish.retain);
    let message = (publish.topic, publish.payload);
    drop(publish);
    assert_eq!(rt; head, (delivery, retain), "{frame:?}");
    assert_eq!(rt; message, ("a", &[9][..]), "{frame:?}");
}

#[test]
fn a_publish_tells_its_delivery(rt: HostRuntime) {
    let repeated = Delivery::AtLeastOnce {
        dup: true,
        identifier: 258,
    };
    let exact = Delivery::ExactlyOnce {
        dup: false,
        identifier: 7,
    };
    let once = Delivery::AtMostOnce;
    assert_publish(&rt, &[0x30, 5, 0, 1, b'a', 0, 9], once, false);
    assert_publish(&rt, &[0x31, 5, 0, 1, b'a', 0, 9], once, true);
    assert_publish(&rt, &[0x3a, 7, 0, 1, b'a', 1, 2, 0, 9], repeated, false);
    assert_publish(&rt, &[0x35, 7, 0, 1, b'a', 0, 7, 0, 9], exact, true);
}

fn assert_delivery(rt: &impl Abort, found: Delivery, qos: Qos, dup: bool, identifier: Option<u16>) {
    let parts = (found.qos(), found.dup(), found.identifier());
    assert_eq!(rt; parts, (qos, dup, identifier));
}

#[test]
fn a_delivery_tells_its_parts(rt: HostRuntime) {
    let repeated = Delivery::AtLeastOnce {
        dup: true,
        identifier: 258,
    };
    let exact = Delivery::ExactlyOnce {
        dup: false,
        identifier: 7,
    };
    assert_delivery(&rt, Delivery::AtMostOnce, Qos::AtMostOnce, false, None);
    assert_delivery(&rt, repeated, Qos::AtLeastOnce, true, Some(258));
    assert_delivery(&rt, exact, Qos::ExactlyOnce, false, Some(7));
}

#[test]
fn a_connack_tells_its_code(rt: HostRuntime) {
    let connack = connack_of(CONNACK).expect(&rt, "it is a CONNACK");
    let found = (
        connack.session_present,
        connack.reason,
        connack.properties.len(),
    );
    drop(connack);
    assert_eq!(rt; found, (false, Reason::SUCCESS, 4));
}

#[test]
fn a_subscribe_tells_its_filters(rt: HostRuntime) {
    let subscribe = subscribe_of(SUBSCRIBE).expect(&rt, "it is a SUBSCRIBE");
    let head = (subscribe.identifier, subscribe.subscriptions.is_empty());
    let split = subscribe.subscriptions.split_first();
    drop(subscribe);
    assert_eq!(rt; head, (1, false));
    let (first, rest) = split.expect(&rt, "a filter");
    let is_last = rest.is_empty();
    drop(rest);
    assert_eq!(rt; (first.filter, first.options, is_last), ("a/b", 2, true));
}

#[test]
fn a_suback_tells_its_codes(rt: HostRuntime) {
    let suback = suback_of(SUBACK).expect(&rt, "it is a SUBACK");
    let codes = suback.codes;
    drop(suback);
    assert_eq!(rt; codes, &[2][..]);
}

#[test]
fn an_unsubscribe_tells_its_filters(rt: HostRuntime) {
    let frame = [0xa2, 7, 0, 2, 0, 0, 2, 0x61, 0x23];
    let unsubscribe = unsubscribe_of(&frame).expect(&rt, "it is an UNSUBSCRIBE");
    let filters = unsubscribe.filters.again();
    drop(unsubscribe);
    let is_empty = filters.is_empty();
    let split = filters.split_first();
    drop(filters);
    let (first, rest) = split.expect(&rt, "a filter");
    let is_last = rest.is_empty();
    drop(rest);
    assert_eq!(rt; (first, is_empty, is_last), ("a#", false, true));
}

#[test]
fn a_disconnect_tells_its_code(rt: HostRuntime) {
    let frame = [0xe0, 7, 4, 5, 0x11, 0, 0, 0, 0x0a];
    let notice = disconnect_of(&frame).expect(&rt, "it is a DISCONNECT");
    let reason = notice.reason;
    drop(notice);
    assert_eq!(rt; reason, Reason::DISCONNECT_WITH_WILL_MESSAGE);
}

/// The kind of a packet, and how many properties its own block has.
fn told(packet: &PacketRef<'_>) -> (Kind, usize) {
    (packet.kind(), packet.properties().len())
}

/// The same of an owned packet.
fn owned_told(packet: Packet) -> (Kind, usize) {
    let lent = packet.lend();
    let found = told(&lent);
    drop(lent);
    drop(packet);
    found
}

/// What a frame's packet tells, looked at and owned; `None` if there is none.
fn both_told(alloc: Global, frame: &[u8]) -> Option<((Kind, usize), (Kind, usize))> {
    let packet = look_at(frame).ok()?;
    let looked_at = told(&packet);
    let owned = packet.to_packet(alloc);
    drop(packet);
    Some((looked_at, owned_told(owned.ok()?)))
}

/// Frames with the kind of their packet, and how many properties it has.
fn kinds() -> &'static [(&'static [u8], Kind, usize)] {
    &[
        (
            // The property of the Will isn't one of the packet.
            &[
                0x10, 0x1b, 0, 4, 0x4d, 0x51, 0x54, 0x54, 5, 0x0e, 0, 0x0a, 0, 0, 2, 0x70, 0x31, 5,
                0x18, 0, 0, 0, 0x0a, 0, 1, 0x77, 0, 1, 0x21,
            ],
            Kind::Connect,
            0,
        ),
        (CONNACK, Kind::Connack, 4),
        (PUBLISH_AT_QOS_2, Kind::Publish, 2),
        (PUBACK, Kind::Puback, 0),
        (PUBREC, Kind::Pubrec, 0),
        (&[0x62, 2, 0, 1], Kind::Pubrel, 0),
        (&[0x70, 8, 0, 7, 0, 4, 0x1f, 0, 1, b'w'], Kind::Pubcomp, 1),
        (SUBSCRIBE, Kind::Subscribe, 0),
        (SUBACK, Kind::Suback, 0),
        (&[0xa2, 7, 0, 2, 0, 0, 2, 0x61, 0x23], Kind::Unsubscribe, 0),
        (&[0xb0, 4, 0, 2, 0, 0x11], Kind::Unsuback, 0),
        (&[0xc0, 0], Kind::Pingreq, 0),
        (&[0xd0, 0], Kind::Pingresp, 0),
        (DISCONNECT, Kind::Disconnect, 0),
        (&[0xe0, 7, 4, 5, 0x11, 0, 0, 0, 0x0a], Kind::Disconnect, 1),
        (&[0xf0, 6, 0x18, 4, 0x15, 0, 1, 0x61], Kind::Auth, 1),
    ]
}

#[test]
fn each_packet_tells_its_kind_and_its_properties(rt: HostRuntime) {
    for &(frame, kind, count) in kinds() {
        let want = (kind, count);
        assert_eq!(rt;
            both_told(rt.alloc(), frame),
            Some((want, want)),
            "{frame:?}"
        );
    }
}

// 4.13, and Table 2-6 of 2.4.
#[test]
fn a_fault_tells_its_reason_code(rt: HostRuntime) -> Result<(), Fail> {
    let rows = [
        (Fault::Malformed, 1, Some(Reason(0x81))),
        (Fault::Protocol, 2, Some(Reason(0x82))),
        (Fault::TooLarge, 3, Some(Reason(0x95))),
        (Fault::Version, 4, Some(Reason(0x84))),
        (Fault::Memory, 5, None),
    ];
    for (fault, number, reason) in rows {
        assert_eq!(rt; fault.reason(), reason, "{fault}");
        assert_eq!(rt; fault as u8, number, "{fault}");
    }
    Ok(())
}

// 3.8.3.1: bits 0 and 1 the maximum QoS, 2 No Local, 3 Retain As Published, 4 and 5 Retain Handling.

/// Whether options are read exactly if the bits of the byte are lawful, with its flags.
fn tells_its_flags(byte: u8) -> bool {
    let stands = byte % 4 != 3 && byte < 0x30;
    match options_read(byte) {
        Some(options) => {
            stands
                && options.no_local == (byte / 4 % 2 == 1)
                && options.retain_as_published == (byte / 8 % 2 == 1)
        }
        None => !stands,
    }
}

#[test]
fn options_are_read_where_their_bits_are_lawful(rt: HostRuntime) {
    let mut count = 0u32;
    for byte in 0..=255u8 {
        assert!(rt; tells_its_flags(byte), "{byte}");
        count = count.wrapping_add(u32::from(options_read(byte).is_some()));
    }
    assert_eq!(rt; count, 36, "three QoS, three Retain Handlings, two flags");
}

#[test]
fn options_tell_their_numbers(rt: HostRuntime) {
    let options = options_read(0x16).expect(&rt, "they are lawful");
    let numbers = (options.qos, options.retain_handling);
    assert_eq!(rt; numbers, (Qos::ExactlyOnce, RetainHandling::SendIfNew));
}
