//! The lines of packets and of faults as JSON objects (RFC 8259).

use crate::command::lines::assert_shown;
use json::Scratch;
use mqtt_cli::{Details, Status};
use std::alloc::{AllocError, Global};
use std::process::Abort;
use std::test::Fail;

/// JSON objects.
const JSON: Details = Details {
    payload: false,
    properties: false,
    json: true,
};

/// Whether a text is one that JSON's grammar allows.
fn is_json(alloc: Global, text: &str) -> Result<bool, AllocError> {
    let mut scratch = Scratch::new(alloc);
    let is_valid = json::is_valid(text, &mut scratch);
    drop(scratch);
    is_valid
}

/// An input is shown as this object, in a line.
fn assert_object(
    rt: &impl Abort,
    alloc: Global,
    input: &[u8],
    object: &str,
    details: Details,
    status: Status,
) -> Result<(), Fail> {
    assert!(rt; is_json(alloc, object)?, "{object} is no JSON");
    let line = format!(in alloc; "{object}\n")?;
    let shown = assert_shown(rt, alloc, input, details, line.as_str(), status);
    drop(line);
    shown
}

/// The known frames that give a packet, each with its object.
fn packets() -> &'static [(&'static [u8], &'static str)] {
    &[
        (
            b"\xc0\x00",
            r#"{"place":0,"type":"PINGREQ","size":2,"properties":[]}"#,
        ),
        (
            b"\x30\x07\x00\x03\x61\x2f\x62\x00\x21",
            r#"{"place":0,"type":"PUBLISH","size":9,"qos":0,"id":null,"dup":false,"retain":false,"topic":"a/b","payload":1,"properties":[]}"#,
        ),
        (
            b"\x40\x03\x00\x0a\x00",
            r#"{"place":0,"type":"PUBACK","size":5,"id":10,"code":0,"properties":[]}"#,
        ),
        (
            b"\x10\x0d\x00\x04\x4d\x51\x54\x54\x05\x02\x00\x3c\x00\x00\x00",
            r#"{"place":0,"type":"CONNECT","size":15,"client":"","clean":true,"keep":60,"will":null,"user-name":null,"properties":[]}"#,
        ),
        (
            b"\x20\x17\x00\x00\x14\x12\x00\x06\x61\x75\x74\x6f\x2d\x31\x21\x00\x14\x22\x00\x0a\x27\x00\x01\x00\x00",
            r#"{"place":0,"type":"CONNACK","size":25,"present":false,"code":0,"properties":[{"name":"assigned-client-identifier","value":"auto-1"},{"name":"receive-maximum","value":20},{"name":"topic-alias-maximum","value":10},{"name":"maximum-packet-size","value":65536}]}"#,
        ),
        (
            b"\x82\x09\x00\x01\x00\x00\x03\x61\x2f\x62\x02",
            r#"{"place":0,"type":"SUBSCRIBE","size":11,"id":1,"filters":[{"filter":"a/b","qos":2,"no-local":false,"retain-as-published":false,"retain-handling":0}],"properties":[]}"#,
        ),
        (
            b"\x90\x04\x00\x01\x00\x02",
            r#"{"place":0,"type":"SUBACK","size":6,"id":1,"codes":[2],"properties":[]}"#,
        ),
        (
            b"\xe0\x01\x93",
            r#"{"place":0,"type":"DISCONNECT","size":3,"code":147,"properties":[]}"#,
        ),
        (
            b"\x50\x03\x00\x0a\x10",
            r#"{"place":0,"type":"PUBREC","size":5,"id":10,"code":16,"properties":[]}"#,
        ),
        (
            b"\x34\x0e\x00\x03\x61\x2f\x62\x00\x01\x04\x0b\x01\x0b\x02\x68\x69",
            r#"{"place":0,"type":"PUBLISH","size":16,"qos":2,"id":1,"dup":false,"retain":false,"topic":"a/b","payload":2,"properties":[{"name":"subscription-identifier","value":1},{"name":"subscription-identifier","value":2}]}"#,
        ),
    ]
}

#[test]
fn each_known_packet_is_an_object(rt: HostRuntime) -> Result<(), Fail> {
    for (input, object) in packets() {
        assert_object(&rt, rt.alloc(), input, object, JSON, Status::Whole)?;
    }
    Ok(())
}

/// The known frames that are refused, and one that is cut short, each with its object.
fn faults() -> &'static [(&'static [u8], &'static str)] {
    &[
        (b"\xf0\x02\x18\x00", r#"{"place":0,"fault":"Protocol"}"#),
        (b"\x60\x02\x00\x0a", r#"{"place":0,"fault":"Malformed"}"#),
        (
            b"\x36\x0a\x00\x03\x61\x2f\x62\x00\x0a\x00\x68\x69",
            r#"{"place":0,"fault":"Malformed"}"#,
        ),
        (b"\x82\x03\x00\x01\x00", r#"{"place":0,"fault":"Protocol"}"#),
        (
            b"\x30\x08\x00\x03\x61\x2f\x62\x02\x01\x02",
            r#"{"place":0,"fault":"Protocol"}"#,
        ),
        (
            b"\x30\x0b\x00\x03\x61\x2f\x62\x05\x18\x00\x00\x00\x05",
            r#"{"place":0,"fault":"Malformed"}"#,
        ),
        (
            b"\x30\x0a\x00\x03\x61\x2f\x62\x04\x01\x00\x01\x00",
            r#"{"place":0,"fault":"Protocol"}"#,
        ),
        (
            b"\x34\x08\x00\x03\x61\x2f\x62\x00\x00\x00",
            r#"{"place":0,"fault":"Protocol"}"#,
        ),
        (
            b"\x10\x0d\x00\x04\x4d\x51\x54\x54\x04\x02\x00\x3c\x00\x00\x00",
            r#"{"place":0,"fault":"Version"}"#,
        ),
        (b"\xd0\x80\x00", r#"{"place":0,"fault":"Malformed"}"#),
        (
            b"\x40\x03\x00\x0a\x01",
            r#"{"place":0,"fault":"Malformed"}"#,
        ),
        (b"\x30\xfd\xff\x03", r#"{"place":0,"fault":"TooLarge"}"#),
        (b"\xc0", r#"{"place":0,"fault":"short"}"#),
    ]
}

#[test]
fn a_fault_is_an_object_too(rt: HostRuntime) -> Result<(), Fail> {
    for (input, object) in faults() {
        assert_object(&rt, rt.alloc(), input, object, JSON, Status::Faulty)?;
    }
    Ok(())
}

/// Packets of the remaining kinds, each with its object.
fn kinds() -> &'static [(&'static [u8], &'static str)] {
    &[
        // 3.1: a CONNECT with a Will, properties, a User Name and a Password, which is not shown.
        (
            b"\x10\x93\x01\x00\x04MQTT\x05\xf6\x00<5\x11\xff\xff\xff\xff\x15\x00\x0bSCRAM-SHA-1\x16\x00\x02\x01\x02\x17\x01\x19\x00!\x00\x14\x22\x00\x0a&\x00\x04site\x00\x05attic'\x00\x01\x00\x00\x00\x05board'\x18\x00\x00\x00\x1e\x01\x00\x02\x00\x00\x00\x05\x03\x00\x0atext/plain\x08\x00\x01r\x09\x00\x00&\x00\x01k\x00\x01v\x00\x0dhome/gone now\x00\x03bye\x00\x06anna b\x00\x06secret",
            r#"{"place":0,"type":"CONNECT","size":150,"client":"board","clean":true,"keep":60,"will":{"qos":2,"retain":true,"topic":"home/gone now","payload":3,"properties":[{"name":"will-delay-interval","value":30},{"name":"payload-format-indicator","value":0},{"name":"message-expiry-interval","value":5},{"name":"content-type","value":"text/plain"},{"name":"response-topic","value":"r"},{"name":"correlation-data","value":""},{"name":"user-property","value":["k","v"]}]},"user-name":"anna b","properties":[{"name":"session-expiry-interval","value":4294967295},{"name":"authentication-method","value":"SCRAM-SHA-1"},{"name":"authentication-data","value":"0102"},{"name":"request-problem-information","value":1},{"name":"request-response-information","value":0},{"name":"receive-maximum","value":20},{"name":"topic-alias-maximum","value":10},{"name":"user-property","value":["site","attic"]},{"name":"maximum-packet-size","value":65536}]}"#,
        ),
        // 3.1.2.5: a Will without properties.
        (
            b"\x10\x15\x00\x04MQTT\x05\x06\x00\x00\x00\x00\x02p1\x00\x00\x01w\x00\x00",
            r#"{"place":0,"type":"CONNECT","size":23,"client":"p1","clean":true,"keep":0,"will":{"qos":0,"retain":false,"topic":"w","payload":0,"properties":[]},"user-name":null,"properties":[]}"#,
        ),
        // 3.3: DUP and RETAIN.
        (
            b"\x3d\x08\x00\x01\x61\x00\x0a\x00\x68\x69",
            r#"{"place":0,"type":"PUBLISH","size":10,"qos":2,"id":10,"dup":true,"retain":true,"topic":"a","payload":2,"properties":[]}"#,
        ),
        (
            b"\x3a\x08\x00\x01\x61\x00\x0a\x00\x68\x69",
            r#"{"place":0,"type":"PUBLISH","size":10,"qos":1,"id":10,"dup":true,"retain":false,"topic":"a","payload":2,"properties":[]}"#,
        ),
        // 3.3.2.3: a PUBLISH with each of its properties.
        (
            b"0`\x00\x03a/bX\x01\x01\x02\x00\x00\x00<\x03\x00\x19text/plain; charset=utf-8\x08\x00\x09answers/1\x09\x00\x03\x00\x0f\xff\x0b\x01\x0b\xff\xff\xff\x7f#\x00\x0a&\x00\x04unit\x00\x07celsius&\x00\x04unit\x00\x00hi",
            r#"{"place":0,"type":"PUBLISH","size":98,"qos":0,"id":null,"dup":false,"retain":false,"topic":"a/b","payload":2,"properties":[{"name":"payload-format-indicator","value":1},{"name":"message-expiry-interval","value":60},{"name":"content-type","value":"text/plain; charset=utf-8"},{"name":"response-topic","value":"answers/1"},{"name":"correlation-data","value":"000fff"},{"name":"subscription-identifier","value":1},{"name":"subscription-identifier","value":268435455},{"name":"topic-alias","value":10},{"name":"user-property","value":["unit","celsius"]},{"name":"user-property","value":["unit",""]}]}"#,
        ),
        // 3.6 and 3.7.
        (
            b"b\x10\x00\x0a\x92\x0c\x1f\x00\x02no&\x00\x01k\x00\x01v",
            r#"{"place":0,"type":"PUBREL","size":18,"id":10,"code":146,"properties":[{"name":"reason-string","value":"no"},{"name":"user-property","value":["k","v"]}]}"#,
        ),
        (
            b"\x70\x03\x00\x0a\x92",
            r#"{"place":0,"type":"PUBCOMP","size":5,"id":10,"code":146,"properties":[]}"#,
        ),
        // 3.8.3.1: each option; 0x2d is QoS 1, No Local, Retain As Published, Retain Handling 2.
        (
            b"\x82\x0d\x00\x01\x00\x00\x03\x61\x2f\x62\x02\x00\x01\x23\x2d",
            r##"{"place":0,"type":"SUBSCRIBE","size":15,"id":1,"filters":[{"filter":"a/b","qos":2,"no-local":false,"retain-as-published":false,"retain-handling":0},{"filter":"#","qos":1,"no-local":true,"retain-as-published":true,"retain-handling":2}],"properties":[]}"##,
        ),
        (
            b"\x90\x05\x00\x01\x00\x02\x80",
            r#"{"place":0,"type":"SUBACK","size":7,"id":1,"codes":[2,128],"properties":[]}"#,
        ),
        // 3.10: two filters.
        (
            b"\xa2\x0a\x00\x02\x00\x00\x02\x61\x23\x00\x01\x2b",
            r#"{"place":0,"type":"UNSUBSCRIBE","size":12,"id":2,"filters":[{"filter":"a#"},{"filter":"+"}],"properties":[]}"#,
        ),
        (
            b"\xb0\x05\x00\x01\x00\x11\x00",
            r#"{"place":0,"type":"UNSUBACK","size":7,"id":1,"codes":[17,0],"properties":[]}"#,
        ),
        (
            b"\xd0\x00",
            r#"{"place":0,"type":"PINGRESP","size":2,"properties":[]}"#,
        ),
        (
            b"\xf0\x16\x18\x14\x15\x00\x01m\x16\x00\x01\x00\x1f\x00\x02no&\x00\x01k\x00\x01v",
            r#"{"place":0,"type":"AUTH","size":24,"code":24,"properties":[{"name":"authentication-method","value":"m"},{"name":"authentication-data","value":"00"},{"name":"reason-string","value":"no"},{"name":"user-property","value":["k","v"]}]}"#,
        ),
    ]
}

#[test]
fn each_kind_has_its_members(rt: HostRuntime) -> Result<(), Fail> {
    for (input, object) in kinds() {
        assert_object(&rt, rt.alloc(), input, object, JSON, Status::Whole)?;
    }
    Ok(())
}

/// Texts with bytes that are escaped, each with its object (RFC 8259, 7).
fn escapes() -> &'static [(&'static [u8], &'static str)] {
    &[
        // a quote, a backslash, a tab, a line feed and an e with an acute accent.
        (
            b"\x30\x0b\x00\x08\x22\x5c/\x09\x0a~\xc3\xa9\x00",
            r#"{"place":0,"type":"PUBLISH","size":13,"qos":0,"id":null,"dup":false,"retain":false,"topic":"\"\\/\u0009\u000a~é","payload":0,"properties":[]}"#,
        ),
        // a pair of them.
        (
            b"0)\x00\x01t%&\x00\x03a:b\x00\x07c d:\x22\x0a%&\x00\x01:\x00\x00&\x00\x00\x00\x01:&\x00\x03%3a\x00\x02\xc3\xa9",
            r#"{"place":0,"type":"PUBLISH","size":43,"qos":0,"id":null,"dup":false,"retain":false,"topic":"t","payload":0,"properties":[{"name":"user-property","value":["a:b","c d:\"\u000a%"]},{"name":"user-property","value":[":",""]},{"name":"user-property","value":["",":"]},{"name":"user-property","value":["%3a","é"]}]}"#,
        ),
    ]
}

#[test]
fn quotes_backslashes_and_controls_are_escaped(rt: HostRuntime) -> Result<(), Fail> {
    for (input, object) in escapes() {
        assert_object(&rt, rt.alloc(), input, object, JSON, Status::Whole)?;
    }
    Ok(())
}

/// Packets, each with its object if payloads are shown.
fn heads() -> &'static [(&'static [u8], &'static str)] {
    &[
        (
            b"\x30\x07\x00\x03a/b\x00!",
            r#"{"place":0,"type":"PUBLISH","size":9,"qos":0,"id":null,"dup":false,"retain":false,"topic":"a/b","payload":1,"properties":[],"head":"21"}"#,
        ),
        (
            b"\x30\x04\x00\x01a\x00",
            r#"{"place":0,"type":"PUBLISH","size":6,"qos":0,"id":null,"dup":false,"retain":false,"topic":"a","payload":0,"properties":[],"head":""}"#,
        ),
        (
            b"\x30\x15\x00\x01a\x000123456789abcdef\xff",
            r#"{"place":0,"type":"PUBLISH","size":23,"qos":0,"id":null,"dup":false,"retain":false,"topic":"a","payload":17,"properties":[],"head":"30313233343536373839616263646566"}"#,
        ),
        (
            b"\xc0\x00",
            r#"{"place":0,"type":"PINGREQ","size":2,"properties":[]}"#,
        ),
    ]
}

/// The first bytes of payloads too, and what `--properties` says again.
const HEADS: Details = Details {
    payload: true,
    properties: true,
    json: true,
};

#[test]
fn with_payload_an_object_has_the_first_sixteen_bytes(rt: HostRuntime) -> Result<(), Fail> {
    for (input, object) in heads() {
        assert_object(&rt, rt.alloc(), input, object, HEADS, Status::Whole)?;
    }
    Ok(())
}
