//! Each law of packets broken once, and kept once beside it (3.1 to 3.15, 4.13.1).

use crate::codec::common::assert_gives;
use mqtt_packet::Fault;
use std::test::Fail;
// The laws of blocks are tests of mqtt_props: one row here shows that each packet asks for them.
/// Frames that break a law.
fn broken_laws() -> &'static [(&'static str, &'static [u8])] {
    &[
        (
            "PUBLISH at QoS 1 with identifier 0",
            &[0x32, 6, 0, 1, b'a', 0, 0, 0],
        ),
        (
            "PUBLISH at QoS 2 with identifier 0",
            &[0x34, 6, 0, 1, b'a', 0, 0, 0],
        ),
        ("PUBACK with identifier 0", &[0x40, 2, 0, 0]),
        ("PUBREC with identifier 0", &[0x50, 2, 0, 0]),
        ("PUBREL with identifier 0", &[0x62, 2, 0, 0]),
        ("PUBCOMP with identifier 0", &[0x70, 2, 0, 0]),
        (
            "SUBSCRIBE with identifier 0",
            &[0x82, 7, 0, 0, 0, 0, 1, b'a', 0],
        ),
        ("SUBACK with identifier 0", &[0x90, 4, 0, 0, 0, 0]),
        (
            "UNSUBSCRIBE with identifier 0",
            &[0xa2, 6, 0, 0, 0, 0, 1, b'a'],
        ),
        ("UNSUBACK with identifier 0", &[0xb0, 4, 0, 0, 0, 0]),
        ("an empty topic without a Topic Alias", &[0x30, 3, 0, 0, 0]),
        ("SUBSCRIBE without a filter", &[0x82, 3, 0, 1, 0]),
        ("UNSUBSCRIBE without a filter", &[0xa2, 3, 0, 1, 0]),
        ("SUBACK without a code", &[0x90, 3, 0, 1, 0]),
        ("UNSUBACK without a code", &[0xb0, 3, 0, 1, 0]),
        ("a maximum QoS of 3", &[0x82, 7, 0, 1, 0, 0, 1, b'a', 0x03]),
        (
            "a Retain Handling of 3",
            &[0x82, 7, 0, 1, 0, 0, 1, b'a', 0x30],
        ),
        (
            "No Local in a shared subscription",
            &[
                0x82, 16, 0, 1, 0, 0, 10, b'$', b's', b'h', b'a', b'r', b'e', b'/', b'g', b'/',
                b'a', 0x04,
            ],
        ),
        (
            "a second filter that breaks a law",
            &[0x82, 11, 0, 1, 0, 0, 1, b'a', 0, 0, 1, b'b', 0x03],
        ),
        ("CONNACK 80 with Session Present", &[0x20, 3, 1, 0x80, 0]),
        ("AUTH 18 without a method", &[0xf0, 2, 0x18, 0]),
        (
            "AUTH 00 with a property and without a method",
            &[0xf0, 6, 0, 4, 0x1f, 0, 1, b'w'],
        ),
        (
            "CONNECT with Receive Maximum 0",
            &[
                0x10, 16, 0, 4, b'M', b'Q', b'T', b'T', 5, 2, 0, 0, 3, 0x21, 0, 0, 0, 0,
            ],
        ),
        (
            "a Will with a Payload Format Indicator of 2",
            &[
                0x10, 21, 0, 4, b'M', b'Q', b'T', b'T', 5, 6, 0, 0, 0, 0, 0, 2, 1, 2, 0, 1, b'w',
                0, 0,
            ],
        ),
        (
            "DISCONNECT with a property twice",
            &[0xe0, 12, 0, 10, 0x11, 0, 0, 0, 1, 0x11, 0, 0, 0, 1],
        ),
        (
            "UNSUBACK with a Reason String twice",
            &[0xb0, 12, 0, 1, 8, 0x1f, 0, 1, b'w', 0x1f, 0, 1, b'w', 0],
        ),
    ]
}

#[test]
fn a_broken_law_is_a_protocol_error(rt: HostRuntime) -> Result<(), Fail> {
    for &(text, frame) in broken_laws() {
        assert_gives(&rt, rt.alloc(), text, frame, Err(Fault::Protocol));
    }
    Ok(())
}
/// Frames that keep a law at its edge.
fn laws_at_their_edge() -> &'static [(&'static str, &'static [u8])] {
    &[
        ("identifier 1", &[0x32, 6, 0, 1, b'a', 0, 1, 0]),
        ("identifier 65,535", &[0x62, 2, 0xff, 0xff]),
        (
            "an empty topic with a Topic Alias",
            &[0x30, 6, 0, 0, 3, 0x23, 0, 1],
        ),
        (
            "two Subscription Identifiers in PUBLISH",
            &[0x30, 8, 0, 1, b'a', 4, 0x0b, 1, 0x0b, 1],
        ),
        (
            "each bit of the options that may be set",
            &[0x82, 7, 0, 1, 0, 0, 1, b'a', 0x2e],
        ),
        (
            "No Local for a filter that is nearly shared",
            &[
                0x82, 13, 0, 1, 0, 0, 7, b'$', b's', b'h', b'a', b'r', b'e', b'd', 0x04,
            ],
        ),
        (
            "Retain As Published in a shared subscription",
            &[
                0x82, 16, 0, 1, 0, 0, 10, b'$', b's', b'h', b'a', b'r', b'e', b'/', b'g', b'/',
                b'a', 0x08,
            ],
        ),
        ("CONNACK 00 with Session Present", &[0x20, 3, 1, 0, 0]),
        ("CONNACK 80 without it", &[0x20, 3, 0, 0x80, 0]),
        ("AUTH 00 with a method", &[0xf0, 6, 0, 4, 0x15, 0, 1, b'm']),
        (
            "a User Property twice",
            &[0xe0, 12, 0, 10, 0x26, 0, 0, 0, 0, 0x26, 0, 0, 0, 0],
        ),
    ]
}

#[test]
fn a_law_that_is_kept_at_its_edge_gives_the_packet(rt: HostRuntime) -> Result<(), Fail> {
    for &(text, frame) in laws_at_their_edge() {
        assert_gives(&rt, rt.alloc(), text, frame, Ok(frame));
    }
    Ok(())
}
