//! The lines of packets with each of their properties (2.2.2.2, 3.1.3).

use crate::command::lines::assert_shown;
use mqtt_cli::{Details, Status};
use std::test::Fail;

/// Properties too.
const PROPERTIES: Details = Details {
    payload: false,
    properties: true,
    json: false,
};

/// Publications, each with its line.
fn publications() -> &'static [(&'static [u8], &'static str)] {
    &[
        // 3.3.2.3: a PUBLISH with each of its properties.
        (
            b"0`\x00\x03a/bX\x01\x01\x02\x00\x00\x00<\x03\x00\x19text/plain; charset=utf-8\x08\x00\x09answers/1\x09\x00\x03\x00\x0f\xff\x0b\x01\x0b\xff\xff\xff\x7f#\x00\x0a&\x00\x04unit\x00\x07celsius&\x00\x04unit\x00\x00hi",
            "0 PUBLISH 98 qos=0 topic=a/b payload=2 props=10 payload-format-indicator=1 message-expiry-interval=60 content-type=text/plain;%20charset=utf-8 response-topic=answers/1 correlation-data=000fff subscription-identifier=1 subscription-identifier=268435455 topic-alias=10 user-property=unit:celsius user-property=unit:\n",
        ),
        // 1.5.7: texts with colons, spaces, quotes, a control character, and none at all.
        (
            b"0)\x00\x01t%&\x00\x03a:b\x00\x07c d:\x22\x0a%&\x00\x01:\x00\x00&\x00\x00\x00\x01:&\x00\x03%3a\x00\x02\xc3\xa9",
            "0 PUBLISH 43 qos=0 topic=t payload=0 props=4 user-property=a%3ab:c%20d:\"%0a%25 user-property=%3a: user-property=:: user-property=%253a:%c3%a9\n",
        ),
    ]
}

#[test]
fn a_publication_shows_its_properties(rt: HostRuntime) -> Result<(), Fail> {
    for (frame, line) in publications() {
        assert_shown(&rt, rt.alloc(), frame, PROPERTIES, line, Status::Whole)?;
    }
    Ok(())
}

/// What begins a connection, each packet with its line.
fn connections() -> &'static [(&'static [u8], &'static str)] {
    &[
        // 3.1: a CONNECT with each of its properties, a Will with each of its own, a User Name and a Password, which is not shown.
        (
            b"\x10\x93\x01\x00\x04MQTT\x05\xf6\x00<5\x11\xff\xff\xff\xff\x15\x00\x0bSCRAM-SHA-1\x16\x00\x02\x01\x02\x17\x01\x19\x00!\x00\x14\x22\x00\x0a&\x00\x04site\x00\x05attic'\x00\x01\x00\x00\x00\x05board'\x18\x00\x00\x00\x1e\x01\x00\x02\x00\x00\x00\x05\x03\x00\x0atext/plain\x08\x00\x01r\x09\x00\x00&\x00\x01k\x00\x01v\x00\x0dhome/gone now\x00\x03bye\x00\x06anna b\x00\x06secret",
            "0 CONNECT 150 client=board clean=1 keep=60 will=1 props=9 session-expiry-interval=4294967295 authentication-method=SCRAM-SHA-1 authentication-data=0102 request-problem-information=1 request-response-information=0 receive-maximum=20 topic-alias-maximum=10 user-property=site:attic maximum-packet-size=65536 will.qos=2 will.retain will.topic=home/gone%20now will.payload=3 will.will-delay-interval=30 will.payload-format-indicator=0 will.message-expiry-interval=5 will.content-type=text/plain will.response-topic=r will.correlation-data= will.user-property=k:v user-name=anna%20b\n",
        ),
        // 3.1.3.5: a User Name alone.
        (
            b"\x10\x15\x00\x04MQTT\x05\x82\x00\x00\x00\x00\x02p1\x00\x04anna",
            "0 CONNECT 23 client=p1 clean=1 keep=0 will=0 user-name=anna\n",
        ),
        // 3.1.3.2: a Will without properties.
        (
            b"\x10\x15\x00\x04MQTT\x05\x06\x00\x00\x00\x00\x02p1\x00\x00\x01w\x00\x00",
            "0 CONNECT 23 client=p1 clean=1 keep=0 will=1 will.qos=0 will.topic=w will.payload=0\n",
        ),
        // 3.2.2.3: a CONNACK with each of its properties.
        (
            b" Y\x00\x00V\x11\x00\x00\x00\x09\x12\x00\x06auto-1\x13\x00\x1e\x15\x00\x01m\x16\x00\x01\xaa\x1a\x00\x04info\x1c\x00\x0aother:1883\x1f\x00\x0afor people!\x00\x14\x22\x00\x0a$\x01%\x00&\x00\x01a\x00\x01b'\x00\x01\x00\x00(\x00)\x01*\x00",
            "0 CONNACK 91 present=0 code=00 props=17 session-expiry-interval=9 assigned-client-identifier=auto-1 server-keep-alive=30 authentication-method=m authentication-data=aa response-information=info server-reference=other:1883 reason-string=for%20people receive-maximum=20 topic-alias-maximum=10 maximum-qos=1 retain-available=0 user-property=a:b maximum-packet-size=65536 wildcard-subscription-available=0 subscription-identifier-available=1 shared-subscription-available=0\n",
        ),
    ]
}

#[test]
fn a_connect_shows_its_will_and_its_user_name(rt: HostRuntime) -> Result<(), Fail> {
    for (frame, line) in connections() {
        assert_shown(&rt, rt.alloc(), frame, PROPERTIES, line, Status::Whole)?;
    }
    Ok(())
}

/// The other kinds, each with its line.
fn answers() -> &'static [(&'static [u8], &'static str)] {
    &[
        // 3.4 to 3.7: an answer with both of its properties.
        (
            b"@\x10\x00\x0a\x80\x0c\x1f\x00\x02no&\x00\x01k\x00\x01v",
            "0 PUBACK 18 id=10 code=80 props=2 reason-string=no user-property=k:v\n",
        ),
        (
            b"P\x10\x00\x0a\x80\x0c\x1f\x00\x02no&\x00\x01k\x00\x01v",
            "0 PUBREC 18 id=10 code=80 props=2 reason-string=no user-property=k:v\n",
        ),
        (
            b"b\x10\x00\x0a\x92\x0c\x1f\x00\x02no&\x00\x01k\x00\x01v",
            "0 PUBREL 18 id=10 code=92 props=2 reason-string=no user-property=k:v\n",
        ),
        (
            b"p\x10\x00\x0a\x92\x0c\x1f\x00\x02no&\x00\x01k\x00\x01v",
            "0 PUBCOMP 18 id=10 code=92 props=2 reason-string=no user-property=k:v\n",
        ),
        // 3.8: a SUBSCRIBE with both of its properties.
        (
            b"\x82\x12\x00\x01\x09\x0b\x07&\x00\x01k\x00\x01v\x00\x03a/#\x02",
            "0 SUBSCRIBE 20 id=1 filter=a/#:02 props=2 subscription-identifier=7 user-property=k:v\n",
        ),
        (
            b"\x90\x10\x00\x01\x0c\x1f\x00\x02no&\x00\x01k\x00\x01v\x02",
            "0 SUBACK 18 id=1 codes=02 props=2 reason-string=no user-property=k:v\n",
        ),
        (
            b"\xa2\x0d\x00\x02\x07&\x00\x01k\x00\x01v\x00\x01a",
            "0 UNSUBSCRIBE 15 id=2 filter=a props=1 user-property=k:v\n",
        ),
        (
            b"\xb0\x10\x00\x02\x0c\x1f\x00\x02no&\x00\x01k\x00\x01v\x00",
            "0 UNSUBACK 18 id=2 codes=00 props=2 reason-string=no user-property=k:v\n",
        ),
        (
            b"\xe0\x17\x9c\x15\x11\x00\x00\x00\x00\x1c\x00\x01b\x1f\x00\x02no&\x00\x01k\x00\x01v",
            "0 DISCONNECT 25 code=9c props=4 session-expiry-interval=0 server-reference=b reason-string=no user-property=k:v\n",
        ),
        (
            b"\xf0\x16\x18\x14\x15\x00\x01m\x16\x00\x01\x00\x1f\x00\x02no&\x00\x01k\x00\x01v",
            "0 AUTH 24 code=18 props=4 authentication-method=m authentication-data=00 reason-string=no user-property=k:v\n",
        ),
        // 3.12: none.
        (b"\xc0\x00", "0 PINGREQ 2\n"),
    ]
}

#[test]
fn each_kind_shows_its_properties(rt: HostRuntime) -> Result<(), Fail> {
    for (frame, line) in answers() {
        assert_shown(&rt, rt.alloc(), frame, PROPERTIES, line, Status::Whole)?;
    }
    Ok(())
}

#[test]
fn a_payload_stands_behind_the_properties(rt: HostRuntime) -> Result<(), Fail> {
    let details = Details {
        payload: true,
        properties: true,
        json: false,
    };
    assert_shown(
        &rt,
        rt.alloc(),
        b"\x30\x0e\x00\x03a/b\x07\x26\x00\x01k\x00\x01v!",
        details,
        "0 PUBLISH 16 qos=0 topic=a/b payload=1 props=1 user-property=k:v head=21\n",
        Status::Whole,
    )
}
