//! Frames with what they give, worked by hand from the standard (3.1 to 3.15).

use crate::codec::common::assert_gives;
use mqtt_packet::Fault;
use std::test::Fail;

const PINGREQ: &[u8] = &[0xc0, 0x00];

const PUBLISH: &[u8] = &[0x30, 0x07, 0x00, 0x03, 0x61, 0x2f, 0x62, 0x00, 0x21];

pub(crate) const PUBACK: &[u8] = &[0x40, 0x03, 0x00, 0x0a, 0x00];

const CONNECT: &[u8] = &[
    0x10, 0x0d, 0x00, 0x04, 0x4d, 0x51, 0x54, 0x54, 0x05, 0x02, 0x00, 0x3c, 0x00, 0x00, 0x00,
];

pub(crate) const CONNACK: &[u8] = &[
    0x20, 0x17, 0x00, 0x00, 0x14, 0x12, 0x00, 0x06, 0x61, 0x75, 0x74, 0x6f, 0x2d, 0x31, 0x21, 0x00,
    0x14, 0x22, 0x00, 0x0a, 0x27, 0x00, 0x01, 0x00, 0x00,
];

pub(crate) const SUBSCRIBE: &[u8] = &[
    0x82, 0x09, 0x00, 0x01, 0x00, 0x00, 0x03, 0x61, 0x2f, 0x62, 0x02,
];

pub(crate) const SUBACK: &[u8] = &[0x90, 0x04, 0x00, 0x01, 0x00, 0x02];

pub(crate) const DISCONNECT: &[u8] = &[0xe0, 0x01, 0x93];

pub(crate) const PUBREC: &[u8] = &[0x50, 0x03, 0x00, 0x0a, 0x10];

pub(crate) const PUBLISH_AT_QOS_2: &[u8] = &[
    0x34, 0x0e, 0x00, 0x03, 0x61, 0x2f, 0x62, 0x00, 0x01, 0x04, 0x0b, 0x01, 0x0b, 0x02, 0x68, 0x69,
];

const AUTH_WITHOUT_METHOD: &[u8] = &[0xf0, 0x02, 0x18, 0x00];

const PUBREL_WITHOUT_FLAGS: &[u8] = &[0x60, 0x02, 0x00, 0x0a];

const PUBLISH_AT_QOS_3: &[u8] = &[
    0x36, 0x0a, 0x00, 0x03, 0x61, 0x2f, 0x62, 0x00, 0x0a, 0x00, 0x68, 0x69,
];

const SUBSCRIBE_WITHOUT_FILTER: &[u8] = &[0x82, 0x03, 0x00, 0x01, 0x00];

const FORMAT_INDICATOR_2: &[u8] = &[0x30, 0x08, 0x00, 0x03, 0x61, 0x2f, 0x62, 0x02, 0x01, 0x02];

const WILL_DELAY_IN_PUBLISH: &[u8] = &[
    0x30, 0x0b, 0x00, 0x03, 0x61, 0x2f, 0x62, 0x05, 0x18, 0x00, 0x00, 0x00, 0x05,
];

const PROPERTY_TWICE: &[u8] = &[
    0x30, 0x0a, 0x00, 0x03, 0x61, 0x2f, 0x62, 0x04, 0x01, 0x00, 0x01, 0x00,
];

const IDENTIFIER_0: &[u8] = &[0x34, 0x08, 0x00, 0x03, 0x61, 0x2f, 0x62, 0x00, 0x00, 0x00];

const CONNECT_OF_VERSION_4: &[u8] = &[
    0x10, 0x0d, 0x00, 0x04, 0x4d, 0x51, 0x54, 0x54, 0x04, 0x02, 0x00, 0x3c, 0x00, 0x00, 0x00,
];

const LONG_LENGTH: &[u8] = &[0xd0, 0x80, 0x00];

const PUBACK_WITH_FOREIGN_CODE: &[u8] = &[0x40, 0x03, 0x00, 0x0a, 0x01];

const LENGTH_WITHOUT_BODY: &[u8] = &[0x30, 0xfd, 0xff, 0x03];

/// Ten packets, and twelve frames that are none.
pub(crate) fn vectors() -> &'static [&'static [u8]] {
    &[
        PINGREQ,
        PUBLISH,
        PUBACK,
        CONNECT,
        CONNACK,
        SUBSCRIBE,
        SUBACK,
        DISCONNECT,
        PUBREC,
        PUBLISH_AT_QOS_2,
        AUTH_WITHOUT_METHOD,
        PUBREL_WITHOUT_FLAGS,
        PUBLISH_AT_QOS_3,
        SUBSCRIBE_WITHOUT_FILTER,
        FORMAT_INDICATOR_2,
        WILL_DELAY_IN_PUBLISH,
        PROPERTY_TWICE,
        IDENTIFIER_0,
        CONNECT_OF_VERSION_4,
        LONG_LENGTH,
        PUBACK_WITH_FOREIGN_CODE,
        LENGTH_WITHOUT_BODY,
    ]
}
/// Vectors that are packets.
pub(crate) fn packets() -> &'static [(&'static str, &'static [u8])] {
    &[
        ("PINGREQ", PINGREQ),
        ("PUBLISH at QoS 0", PUBLISH),
        ("CONNECT", CONNECT),
        ("CONNACK with four properties", CONNACK),
        ("SUBSCRIBE", SUBSCRIBE),
        ("SUBACK", SUBACK),
        ("DISCONNECT with 93", DISCONNECT),
        ("PUBREC with 10", PUBREC),
        ("PUBLISH at QoS 2 with two properties", PUBLISH_AT_QOS_2),
    ]
}

#[test]
fn a_packet_is_read_and_written_again(rt: HostRuntime) -> Result<(), Fail> {
    for &(text, frame) in packets() {
        assert_gives(&rt, rt.alloc(), text, frame, Ok(frame));
    }
    Ok(())
}
/// Vectors that are none, with their faults.
fn faults() -> &'static [(&'static str, &'static [u8], Fault)] {
    &[
        (
            "AUTH 18 without a method",
            AUTH_WITHOUT_METHOD,
            Fault::Protocol,
        ),
        (
            "PUBREL with the flags 0000",
            PUBREL_WITHOUT_FLAGS,
            Fault::Malformed,
        ),
        ("PUBLISH at QoS 3", PUBLISH_AT_QOS_3, Fault::Malformed),
        (
            "SUBSCRIBE without a filter",
            SUBSCRIBE_WITHOUT_FILTER,
            Fault::Protocol,
        ),
        (
            "Payload Format Indicator 2",
            FORMAT_INDICATOR_2,
            Fault::Protocol,
        ),
        (
            "Will Delay Interval in PUBLISH",
            WILL_DELAY_IN_PUBLISH,
            Fault::Malformed,
        ),
        ("a property twice", PROPERTY_TWICE, Fault::Protocol),
        ("a packet identifier 0", IDENTIFIER_0, Fault::Protocol),
        ("CONNECT of version 4", CONNECT_OF_VERSION_4, Fault::Version),
        ("a length of two bytes for 0", LONG_LENGTH, Fault::Malformed),
        (
            "PUBACK with a foreign code",
            PUBACK_WITH_FOREIGN_CODE,
            Fault::Malformed,
        ),
        (
            "a length without its body",
            LENGTH_WITHOUT_BODY,
            Fault::Malformed,
        ),
    ]
}

#[test]
fn a_frame_that_is_no_packet_has_its_fault(rt: HostRuntime) -> Result<(), Fail> {
    for &(text, frame, fault) in faults() {
        assert_gives(&rt, rt.alloc(), text, frame, Err(fault));
    }
    Ok(())
}
/// Spellings, with the shortest of each.
fn spellings() -> &'static [(&'static str, &'static [u8], &'static [u8])] {
    &[
        (
            "PUBACK of two bytes",
            &[0x40, 2, 0, 0x0a],
            &[0x40, 2, 0, 0x0a],
        ),
        (
            "PUBACK with its code",
            &[0x40, 3, 0, 0x0a, 0],
            &[0x40, 2, 0, 0x0a],
        ),
        (
            "PUBACK with an empty block",
            &[0x40, 4, 0, 0x0a, 0, 0],
            &[0x40, 2, 0, 0x0a],
        ),
        (
            "PUBREC 10 with an empty block",
            &[0x50, 4, 0, 0x0a, 0x10, 0],
            &[0x50, 3, 0, 0x0a, 0x10],
        ),
        (
            "PUBREL 92 with an empty block",
            &[0x62, 4, 0, 0x0a, 0x92, 0],
            &[0x62, 3, 0, 0x0a, 0x92],
        ),
        (
            "PUBCOMP with its code",
            &[0x70, 3, 0, 7, 0],
            &[0x70, 2, 0, 7],
        ),
        (
            "PUBCOMP 00 with a property",
            &[0x70, 8, 0, 7, 0, 4, 0x1f, 0, 1, b'w'],
            &[0x70, 8, 0, 7, 0, 4, 0x1f, 0, 1, b'w'],
        ),
        (
            "CONNECT with a Will",
            &[
                0x10, 0x1b, 0, 4, 0x4d, 0x51, 0x54, 0x54, 5, 0x0e, 0, 0x0a, 0, 0, 2, 0x70, 0x31, 5,
                0x18, 0, 0, 0, 0x0a, 0, 1, 0x77, 0, 1, 0x21,
            ],
            &[
                0x10, 0x1b, 0, 4, 0x4d, 0x51, 0x54, 0x54, 5, 0x0e, 0, 0x0a, 0, 0, 2, 0x70, 0x31, 5,
                0x18, 0, 0, 0, 0x0a, 0, 1, 0x77, 0, 1, 0x21,
            ],
        ),
        (
            "DISCONNECT with an empty block",
            &[0xe0, 2, 0, 0],
            &[0xe0, 0],
        ),
        ("DISCONNECT with its code", &[0xe0, 1, 0], &[0xe0, 0]),
        (
            "DISCONNECT 04 with Session Expiry Interval",
            &[0xe0, 7, 4, 5, 0x11, 0, 0, 0, 0x0a],
            &[0xe0, 7, 4, 5, 0x11, 0, 0, 0, 0x0a],
        ),
        (
            "UNSUBSCRIBE a#",
            &[0xa2, 7, 0, 2, 0, 0, 2, 0x61, 0x23],
            &[0xa2, 7, 0, 2, 0, 0, 2, 0x61, 0x23],
        ),
        (
            "AUTH 18 with its method",
            &[0xf0, 6, 0x18, 4, 0x15, 0, 1, 0x61],
            &[0xf0, 6, 0x18, 4, 0x15, 0, 1, 0x61],
        ),
        ("AUTH 00 with an empty block", &[0xf0, 2, 0, 0], &[0xf0, 0]),
        ("AUTH of no byte", &[0xf0, 0], &[0xf0, 0]),
    ]
}

#[test]
fn each_spelling_is_written_as_the_shortest(rt: HostRuntime) -> Result<(), Fail> {
    for &(text, frame, want) in spellings() {
        assert_gives(&rt, rt.alloc(), text, frame, Ok(want));
    }
    Ok(())
}
