//! Flags, fields and lengths that no packet has (2.1, 3.1 to 3.15).

use crate::codec::common::{assert_gives, fault_of};
use crate::codec::vectors::vectors;
use mqtt_packet::Fault;
use std::alloc::Global;
use std::process::Abort;
use std::test::Fail;

/// A frame of a first byte and a body of fewer than 128 bytes.
fn framed(rt: &impl Abort, alloc: Global, first: u8, body: &[u8]) -> Result<Vec<u8>, Fail> {
    assert!(rt; body.len() < 128, "a short body");
    let mut frame = Vec::new(alloc);
    frame.push(first)?;
    frame.push(body.len() as u8)?;
    frame.extend_from_slice(body)?;
    Ok(frame)
}

// Table 2-2 of 2.1.3, and 3.3.1: each first byte that may begin a packet.
const FIRST_BYTES: [u8; 24] = [
    0x10, 0x20, 0x30, 0x31, 0x32, 0x33, 0x34, 0x35, 0x3a, 0x3b, 0x3c, 0x3d, 0x40, 0x50, 0x62, 0x70,
    0x82, 0x90, 0xa2, 0xb0, 0xc0, 0xd0, 0xe0, 0xf0,
];

/// A body of the first byte's type, so that only its flags decide.
fn body_of(first: u8) -> &'static [u8] {
    match first / 16 {
        1 => b"\x00\x04MQTT\x05\x02\x00\x3c\x00\x00\x00",
        2 => &[0, 0, 0],
        3 if first / 2 % 4 == 0 => &[0, 1, b'a', 0],
        3 => &[0, 1, b'a', 0, 1, 0],
        4 | 5 | 6 | 7 => &[0, 1],
        8 => &[0, 1, 0, 0, 1, b'a', 0],
        9 | 11 => &[0, 1, 0, 0],
        10 => &[0, 1, 0, 0, 1, b'a'],
        _ => &[],
    }
}

#[test]
fn a_first_byte_with_other_flags_begins_no_packet(rt: HostRuntime) -> Result<(), Fail> {
    for first in 0..=255u8 {
        let frame = framed(&rt, rt.alloc(), first, body_of(first))?;
        let want = if FIRST_BYTES.contains(&first) {
            Ok(&frame[..])
        } else {
            Err(Fault::Malformed)
        };
        assert_gives(&rt, rt.alloc(), "a first byte", &frame, want);
    }
    Ok(())
}

// 3.1.2.3: bit 0 is reserved, bit 1 Clean Start, 2 Will, 3 and 4 its QoS, 5 its RETAIN, 6 Password,
// 7 User Name.

/// Whether no bit of the flags contradicts another.
fn may_stand(flags: u8) -> bool {
    let has_will = flags / 4 % 2 == 1;
    let will_qos = flags / 8 % 4;
    let will_retain = flags / 32 % 2 == 1;
    flags % 2 == 0
        && if has_will {
            will_qos < 3
        } else {
            will_qos == 0 && !will_retain
        }
}

/// The body of a CONNECT with these flags, and with the fields that they ask for.
fn connect_body(alloc: Global, flags: u8) -> Result<Vec<u8>, Fail> {
    let mut body = Vec::from_slice(alloc, b"\x00\x04MQTT\x05")?;
    body.extend_from_slice(&[flags, 0, 10, 0, 0, 1, b'c'])?;
    if flags / 4 % 2 == 1 {
        body.extend_from_slice(&[0, 0, 1, b'w', 0, 1, 0x21])?;
    }
    if flags / 128 == 1 {
        body.extend_from_slice(&[0, 1, b'u'])?;
    }
    if flags / 64 % 2 == 1 {
        body.extend_from_slice(&[0, 1, 0xff])?;
    }
    Ok(body)
}

/// The CONNECT with these flags is read and written again, or is malformed.
fn assert_flags(rt: &impl Abort, alloc: Global, flags: u8) -> Result<(), Fail> {
    let body = connect_body(alloc, flags)?;
    let frame = framed(rt, alloc, 0x10, &body)?;
    let want = if may_stand(flags) {
        Ok(&frame[..])
    } else {
        Err(Fault::Malformed)
    };
    assert_gives(rt, alloc, "flags of CONNECT", &frame, want);
    Ok(())
}

#[test]
fn connect_flags_that_contradict_are_malformed(rt: HostRuntime) -> Result<(), Fail> {
    for flags in 0..=255u8 {
        assert_flags(&rt, rt.alloc(), flags)?;
    }
    Ok(())
}
/// Frames of which none has a layout.
fn frames_without_layout() -> &'static [(&'static str, &'static [u8])] {
    &[
        ("no byte", &[]),
        ("a first byte alone", &[0xc0]),
        ("a length of five bytes", &[0xc0, 0x80, 0x80, 0x80, 0x80, 0]),
        ("PINGREQ with a body", &[0xc0, 1, 0]),
        ("PINGRESP with a body", &[0xd0, 1, 0]),
        ("a byte behind the frame", &[0xc0, 0, 0]),
        ("options with bit 6", &[0x82, 7, 0, 1, 0, 0, 1, b'a', 0x40]),
        ("options with bit 7", &[0x82, 7, 0, 1, 0, 0, 1, b'a', 0x80]),
        ("a filter without options", &[0x82, 6, 0, 1, 0, 0, 1, b'a']),
        ("a filter cut short", &[0x82, 7, 0, 1, 0, 0, 3, b'a', 0]),
        ("a filter with U+0000", &[0x82, 7, 0, 1, 0, 0, 1, 0, 0]),
        (
            "a filter cut short in UNSUBSCRIBE",
            &[0xa2, 7, 0, 1, 0, 0, 3, b'a', b'b'],
        ),
        ("Session Present 2", &[0x20, 3, 2, 0, 0]),
        ("Session Present 129", &[0x20, 3, 0x81, 0, 0]),
        ("CONNACK without a block", &[0x20, 2, 0, 0]),
        ("CONNACK with a foreign code", &[0x20, 3, 0, 0x10, 0]),
        (
            "CONNACK with a byte behind its block",
            &[0x20, 4, 0, 0, 0, 0],
        ),
        ("PUBACK of one byte", &[0x40, 1, 0]),
        (
            "PUBACK with a byte behind its block",
            &[0x40, 5, 0, 1, 0, 0, 0],
        ),
        (
            "PUBACK with a block that is too long",
            &[0x40, 4, 0, 1, 0, 1],
        ),
        ("PUBREL with a code of PUBACK", &[0x62, 3, 0, 1, 0x10]),
        ("PUBLISH with half an identifier", &[0x32, 4, 0, 1, b'a', 0]),
        ("PUBLISH without a block", &[0x30, 3, 0, 1, b'a']),
        ("a topic that is no UTF-8", &[0x30, 4, 0, 1, 0xff, 0]),
        ("SUBACK with a code of UNSUBACK", &[0x90, 4, 0, 1, 0, 0x11]),
        ("UNSUBACK with a code of SUBACK", &[0xb0, 4, 0, 1, 0, 0x01]),
        ("AUTH of one byte", &[0xf0, 1, 0]),
        ("AUTH with a foreign code", &[0xf0, 2, 0x04, 0]),
        ("AUTH with a byte behind its block", &[0xf0, 3, 0, 0, 0]),
        ("DISCONNECT with a foreign code", &[0xe0, 1, 0x18]),
        (
            "DISCONNECT with a byte behind its block",
            &[0xe0, 3, 0, 0, 0],
        ),
        (
            "Assigned Client Identifier in DISCONNECT",
            &[0xe0, 6, 0, 4, 0x12, 0, 1, b'a'],
        ),
        (
            "CONNECT with a byte behind its fields",
            &[
                0x10, 0x0e, 0, 4, b'M', b'Q', b'T', b'T', 5, 2, 0, 0x3c, 0, 0, 0, 0,
            ],
        ),
    ]
}

#[test]
fn what_has_no_layout_is_malformed(rt: HostRuntime) -> Result<(), Fail> {
    for &(text, frame) in frames_without_layout() {
        assert_gives(&rt, rt.alloc(), text, frame, Err(Fault::Malformed));
    }
    Ok(())
}

// 3.1.2.1, 3.1.2.2: the name and the version are looked at before the rest of a CONNECT.
#[test]
fn another_protocol_or_version_is_told_first(rt: HostRuntime) -> Result<(), Fail> {
    let rows: [(&str, &[u8], Fault); 6] = [
        (
            "version 3 of MQIsdp",
            &[0x10, 9, 0, 6, b'M', b'Q', b'I', b's', b'd', b'p', 3],
            Fault::Version,
        ),
        (
            "version 5 of MQIsdp",
            &[0x10, 9, 0, 6, b'M', b'Q', b'I', b's', b'd', b'p', 5],
            Fault::Version,
        ),
        (
            "version 6, and nothing behind it",
            &[0x10, 7, 0, 4, b'M', b'Q', b'T', b'T', 6],
            Fault::Version,
        ),
        (
            "version 5, and nothing behind it",
            &[0x10, 7, 0, 4, b'M', b'Q', b'T', b'T', 5],
            Fault::Malformed,
        ),
        (
            "no version",
            &[0x10, 6, 0, 4, b'M', b'Q', b'T', b'T'],
            Fault::Malformed,
        ),
        (
            "a name that is no text",
            &[0x10, 4, 0, 1, 0xff, 4],
            Fault::Malformed,
        ),
    ];
    for (text, frame, fault) in rows {
        assert_gives(&rt, rt.alloc(), text, frame, Err(fault));
    }
    Ok(())
}

#[test]
fn a_frame_cut_short_is_malformed(rt: HostRuntime) -> Result<(), Fail> {
    let mut count = 0u32;
    for (row, frame) in vectors().iter().enumerate() {
        for len in 0..frame.len() {
            assert_eq!(rt;
                fault_of(&frame[..len]),
                Some(Fault::Malformed),
                "{row} cut at {len}"
            );
            count = count.wrapping_add(1);
        }
    }
    assert_eq!(rt; count, 194, "all proper fronts");
    Ok(())
}
