//! The line of each packet and of each fault, whole and cut (ours).

use crate::command::streams::Drip;
use mqtt_cli::{Details, Status, ViewFault, view};
use std::alloc::Global;
use std::process::Abort;
use std::test::Fail;

/// The fields alone.
pub(crate) const FIELDS: Details = Details {
    payload: false,
    properties: false,
    json: false,
};

/// The first bytes of payloads too.
const PAYLOADS: Details = Details {
    payload: true,
    properties: false,
    json: false,
};

/// Why there is no view. If an allocation is refused, nothing but want of memory may be told.
fn why(fault: ViewFault) -> &'static str {
    match fault {
        ViewFault::Read => "a failed read",
        ViewFault::Write => "a failed write",
        ViewFault::Memory => "want of memory",
    }
}

/// Whether an input that comes whole has this view and this status.
fn is_shown_whole(
    alloc: Global,
    input: &[u8],
    details: Details,
    text: &str,
    status: Status,
) -> Result<bool, ViewFault> {
    let mut written: Vec<u8> = Vec::new(alloc);
    let mut reader = input;
    let found = view(alloc, &mut reader, &mut written, details);
    let is_text = written.as_slice() == text.as_bytes();
    drop(written);
    Ok(found? == status && is_text)
}

/// Whether an input that comes a byte a read has this view and this status.
fn is_shown_by_bytes(
    alloc: Global,
    input: &[u8],
    details: Details,
    text: &str,
    status: Status,
) -> Result<bool, ViewFault> {
    let mut written: Vec<u8> = Vec::new(alloc);
    let mut reader = Drip::new(input, usize::MAX);
    let found = view(alloc, &mut reader, &mut written, details);
    drop(reader);
    let is_text = written.as_slice() == text.as_bytes();
    drop(written);
    Ok(found? == status && is_text)
}

/// An input has this view and this status, whether it comes whole or a byte a read.
pub(crate) fn assert_shown(
    rt: &impl Abort,
    alloc: Global,
    input: &[u8],
    details: Details,
    text: &str,
    status: Status,
) -> Result<(), Fail> {
    let is_shown = is_shown_whole(alloc, input, details, text, status).map_err(why)?;
    assert!(rt; is_shown, "{text}");
    let is_shown = is_shown_by_bytes(alloc, input, details, text, status).map_err(why)?;
    assert!(rt; is_shown, "{text} by reads of a byte");
    Ok(())
}

/// Inputs, each with its view and its status.
fn views() -> &'static [(&'static [u8], &'static str, Status)] {
    &[
        // MQTT 5.0, 3.12 and 3.3: a PINGREQ, then "!" on the topic "a/b".
        (
            b"\xc0\x00\x30\x07\x00\x03a/b\x00!",
            "0 PINGREQ 2\n2 PUBLISH 9 qos=0 topic=a/b payload=1\n",
            Status::Whole,
        ),
        (b"", "", Status::Whole),
        (b"\xc0", "0 short\n", Status::Faulty),
        (
            b"\x31\x05\x00\x02ab\x00",
            "0 PUBLISH 7 qos=0 retain topic=ab payload=0\n",
            Status::Whole,
        ),
        (
            b"\x30\x06\x00\x03a b\x00",
            "0 PUBLISH 8 qos=0 topic=a%20b payload=0\n",
            Status::Whole,
        ),
        (
            b"\x30\x07\x00\x04%~\xc3\xa9\x00",
            "0 PUBLISH 9 qos=0 topic=%25~%c3%a9 payload=0\n",
            Status::Whole,
        ),
        (
            b"\xc0\x00\xd0\x00",
            "0 PINGREQ 2\n2 PINGRESP 2\n",
            Status::Whole,
        ),
        (b"\xc1\x00", "0 fault Malformed\n", Status::Faulty),
        (
            b"\x30\x04\x00\x00\x00!",
            "0 fault Protocol\n",
            Status::Faulty,
        ),
        // 2.1.4 and 1.5.5: 65,537 bytes, known with the fourth byte.
        (b"\x30\xfd\xff\x03", "0 fault TooLarge\n", Status::Faulty),
        (b"\x30\xfd\xff", "0 short\n", Status::Faulty),
        // 1.5.5: a length that is longer than it has to be.
        (
            b"\xc0\x00\xc0\x80\x00",
            "0 PINGREQ 2\n2 fault Malformed\n",
            Status::Faulty,
        ),
    ]
}

#[test]
fn each_input_has_its_view_however_it_is_cut(rt: HostRuntime) -> Result<(), Fail> {
    for (input, text, status) in views() {
        assert_shown(&rt, rt.alloc(), input, FIELDS, text, *status)?;
    }
    Ok(())
}

/// Packets, each with its line.
fn packets() -> &'static [(&'static [u8], &'static str)] {
    &[
        (b"\xc0\x00", "0 PINGREQ 2\n"),
        (
            b"\x30\x07\x00\x03\x61\x2f\x62\x00\x21",
            "0 PUBLISH 9 qos=0 topic=a/b payload=1\n",
        ),
        (b"\x40\x03\x00\x0a\x00", "0 PUBACK 5 id=10 code=00\n"),
        (
            b"\x10\x0d\x00\x04\x4d\x51\x54\x54\x05\x02\x00\x3c\x00\x00\x00",
            "0 CONNECT 15 client= clean=1 keep=60 will=0\n",
        ),
        (
            b"\x20\x17\x00\x00\x14\x12\x00\x06\x61\x75\x74\x6f\x2d\x31\x21\x00\x14\x22\x00\x0a\x27\x00\x01\x00\x00",
            "0 CONNACK 25 present=0 code=00 props=4\n",
        ),
        (
            b"\x82\x09\x00\x01\x00\x00\x03\x61\x2f\x62\x02",
            "0 SUBSCRIBE 11 id=1 filter=a/b:02\n",
        ),
        (b"\x90\x04\x00\x01\x00\x02", "0 SUBACK 6 id=1 codes=02\n"),
        (b"\xe0\x01\x93", "0 DISCONNECT 3 code=93\n"),
        (b"\x50\x03\x00\x0a\x10", "0 PUBREC 5 id=10 code=10\n"),
        (
            b"\x34\x0e\x00\x03\x61\x2f\x62\x00\x01\x04\x0b\x01\x0b\x02\x68\x69",
            "0 PUBLISH 16 qos=2 id=1 topic=a/b payload=2 props=2\n",
        ),
    ]
}

#[test]
fn each_packet_has_its_line(rt: HostRuntime) -> Result<(), Fail> {
    for (frame, line) in packets() {
        assert_shown(&rt, rt.alloc(), frame, FIELDS, line, Status::Whole)?;
    }
    Ok(())
}

/// Frames that are refused, each with the line of its fault.
fn refused() -> &'static [(&'static [u8], &'static str)] {
    &[
        (b"\xf0\x02\x18\x00", "0 fault Protocol\n"),
        (b"\x60\x02\x00\x0a", "0 fault Malformed\n"),
        (
            b"\x36\x0a\x00\x03\x61\x2f\x62\x00\x0a\x00\x68\x69",
            "0 fault Malformed\n",
        ),
        (b"\x82\x03\x00\x01\x00", "0 fault Protocol\n"),
        (
            b"\x30\x08\x00\x03\x61\x2f\x62\x02\x01\x02",
            "0 fault Protocol\n",
        ),
        (
            b"\x30\x0b\x00\x03\x61\x2f\x62\x05\x18\x00\x00\x00\x05",
            "0 fault Malformed\n",
        ),
        (
            b"\x30\x0a\x00\x03\x61\x2f\x62\x04\x01\x00\x01\x00",
            "0 fault Protocol\n",
        ),
        (
            b"\x34\x08\x00\x03\x61\x2f\x62\x00\x00\x00",
            "0 fault Protocol\n",
        ),
        (
            b"\x10\x0d\x00\x04\x4d\x51\x54\x54\x04\x02\x00\x3c\x00\x00\x00",
            "0 fault Version\n",
        ),
        (b"\xd0\x80\x00", "0 fault Malformed\n"),
        (b"\x40\x03\x00\x0a\x01", "0 fault Malformed\n"),
        (b"\x30\xfd\xff\x03", "0 fault TooLarge\n"),
    ]
}

#[test]
fn each_refused_frame_has_its_fault(rt: HostRuntime) -> Result<(), Fail> {
    for (frame, line) in refused() {
        assert_shown(&rt, rt.alloc(), frame, FIELDS, line, Status::Faulty)?;
    }
    Ok(())
}

/// Packets of further forms, each with its line.
fn forms() -> &'static [(&'static [u8], &'static str)] {
    &[
        // A Will, a code 0 that is spelled out, properties, and a filter that is none (4.7.1).
        (
            b"\x10\x1b\x00\x04\x4d\x51\x54\x54\x05\x0e\x00\x0a\x00\x00\x02\x70\x31\x05\x18\x00\x00\x00\x0a\x00\x01\x77\x00\x01\x21",
            "0 CONNECT 29 client=p1 clean=1 keep=10 will=1\n",
        ),
        (b"\xe0\x02\x00\x00", "0 DISCONNECT 4 code=00\n"),
        (
            b"\xe0\x07\x04\x05\x11\x00\x00\x00\x0a",
            "0 DISCONNECT 9 code=04 props=1\n",
        ),
        (
            b"\xa2\x07\x00\x02\x00\x00\x02\x61\x23",
            "0 UNSUBSCRIBE 9 id=2 filter=a#\n",
        ),
        (
            b"\xf0\x06\x18\x04\x15\x00\x01\x61",
            "0 AUTH 8 code=18 props=1\n",
        ),
        (b"\xf0\x02\x00\x00", "0 AUTH 4 code=00\n"),
    ]
}

#[test]
fn each_form_of_a_packet_has_its_line(rt: HostRuntime) -> Result<(), Fail> {
    for (frame, line) in forms() {
        assert_shown(&rt, rt.alloc(), frame, FIELDS, line, Status::Whole)?;
    }
    Ok(())
}

/// Packets of the remaining kinds, each with its line.
fn kinds() -> &'static [(&'static [u8], &'static str)] {
    &[
        // 3.4 to 3.14: the remaining kinds, several filters and codes, DUP and RETAIN.
        (b"\x40\x02\x00\x0a", "0 PUBACK 4 id=10 code=00\n"),
        (b"\x40\x04\x00\x0a\x00\x00", "0 PUBACK 6 id=10 code=00\n"),
        (b"\x62\x02\x00\x0a", "0 PUBREL 4 id=10 code=00\n"),
        (b"\x70\x03\x00\x0a\x92", "0 PUBCOMP 5 id=10 code=92\n"),
        (
            b"\xb0\x05\x00\x01\x00\x11\x00",
            "0 UNSUBACK 7 id=1 codes=11,00\n",
        ),
        (
            b"\x90\x05\x00\x01\x00\x02\x80",
            "0 SUBACK 7 id=1 codes=02,80\n",
        ),
        (b"\xd0\x00", "0 PINGRESP 2\n"),
        (
            b"\x82\x0d\x00\x01\x00\x00\x03\x61\x2f\x62\x02\x00\x01\x23\x2d",
            "0 SUBSCRIBE 15 id=1 filter=a/b:02 filter=#:2d\n",
        ),
        (
            b"\xa2\x0a\x00\x02\x00\x00\x02\x61\x23\x00\x01\x2b",
            "0 UNSUBSCRIBE 12 id=2 filter=a# filter=+\n",
        ),
        (
            b"\x3a\x08\x00\x01\x61\x00\x0a\x00\x68\x69",
            "0 PUBLISH 10 qos=1 id=10 dup topic=a payload=2\n",
        ),
        (
            b"\x3d\x08\x00\x01\x61\x00\x0a\x00\x68\x69",
            "0 PUBLISH 10 qos=2 id=10 dup retain topic=a payload=2\n",
        ),
    ]
}

#[test]
fn each_kind_has_its_fields(rt: HostRuntime) -> Result<(), Fail> {
    for (frame, line) in kinds() {
        assert_shown(&rt, rt.alloc(), frame, FIELDS, line, Status::Whole)?;
    }
    Ok(())
}

/// The beginning of a PUBLISH of 65,536 bytes, to the topic `a`, of this length.
fn greatest(alloc: Global, len: usize) -> Result<Vec<u8>, Fail> {
    let mut input: Vec<u8> = Vec::from_slice(alloc, b"\x30\xfc\xff\x03\x00\x01a\x00")?;
    input.resize(len, b'x')?;
    Ok(input)
}

#[test]
fn a_packet_of_the_greatest_size_is_read(rt: HostRuntime) -> Result<(), Fail> {
    for (len, details, text, status) in [
        (
            65_536,
            PAYLOADS,
            "0 PUBLISH 65536 qos=0 topic=a payload=65528 head=78787878787878787878787878787878\n",
            Status::Whole,
        ),
        (65_535, FIELDS, "0 short\n", Status::Faulty),
    ] {
        let input = greatest(rt.alloc(), len)?;
        assert_shown(&rt, rt.alloc(), input.as_slice(), details, text, status)?;
    }
    Ok(())
}

/// Packets, each with its line if payloads are shown.
fn heads() -> &'static [(&'static [u8], &'static str)] {
    &[
        (
            b"\x30\x07\x00\x03a/b\x00!",
            "0 PUBLISH 9 qos=0 topic=a/b payload=1 head=21\n",
        ),
        (
            b"\x30\x04\x00\x01a\x00",
            "0 PUBLISH 6 qos=0 topic=a payload=0 head=\n",
        ),
        (
            b"\x30\x15\x00\x01a\x000123456789abcdef\xff",
            "0 PUBLISH 23 qos=0 topic=a payload=17 head=30313233343536373839616263646566\n",
        ),
        (b"\xc0\x00", "0 PINGREQ 2\n"),
    ]
}

#[test]
fn with_payload_shows_the_first_sixteen_bytes(rt: HostRuntime) -> Result<(), Fail> {
    for (input, text) in heads() {
        assert_shown(&rt, rt.alloc(), input, PAYLOADS, text, Status::Whole)?;
    }
    Ok(())
}
