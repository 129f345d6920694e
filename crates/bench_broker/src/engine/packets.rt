//! The packets that are given (MQTT 5.0, 3).

/// PUBLISH of `12345` to `a/b` at QoS 0 (3.3).
pub(crate) const QOS_0: &[u8] = b"\x30\x0b\x00\x03a/b\x0012345";

/// PUBLISH of `12345` to `q` at QoS 1 under identifier 1.
pub(crate) const QUEUED: &[u8] = b"\x32\x0b\x00\x01q\x00\x01\x0012345";

/// SUBSCRIBE of `a/b` at QoS 2 (3.8).
pub(crate) const SUBSCRIBE: &[u8] = b"\x82\x09\x00\x01\x00\x00\x03a/b\x02";

/// SUBSCRIBE of `q` at QoS 1.
pub(crate) const SUBSCRIBE_QUEUED: &[u8] = b"\x82\x07\x00\x01\x00\x00\x01q\x01";

/// CONNECT of `back` with Clean Start 0, whose session ends an hour after its connection, and a Will to `w` at QoS 1,
/// delayed by a minute (3.1).
pub(crate) const RETURNING: &[u8] = b"\x10\x24\x00\x04MQTT\x05\x0c\x00\x00\x05\x11\x00\x00\x0e\x10\
    \x00\x04back\x05\x18\x00\x00\x00\x3c\x00\x01w\x00\x03bye";

/// CONNECT of `wait` with Receive Maximum 16, whose session doesn't expire (3.1).
pub(crate) const NARROW: &[u8] =
    b"\x10\x19\x00\x04MQTT\x05\x00\x00\x00\x08\x11\xff\xff\xff\xff\x21\x00\x10\x00\x04wait";

/// PUBLISH of `12345` to `a/b` with this first byte, at QoS 1 or 2, under an identifier.
pub(crate) fn publish(first: u8, identifier: u8) -> [u8; 15] {
    [
        first, 13, 0, 3, b'a', b'/', b'b', 0, identifier, 0, b'1', b'2', b'3', b'4', b'5',
    ]
}

/// PUBACK, PUBREC, PUBREL or PUBCOMP, by its first byte (3.4 to 3.7).
pub(crate) fn answer(first: u8, identifier: u8) -> [u8; 4] {
    [first, 2, 0, identifier]
}

/// The last digit of a number.
fn digit(number: u64) -> u8 {
    let digit = u8::try_from(number % 10).unwrap_or(0);
    digit.wrapping_add(b'0')
}

/// CONNECT of a client with a number of four digits, whose session doesn't expire (3.1).
pub(crate) fn connect(number: u64) -> [u8; 24] {
    [
        0x10,
        22,
        0,
        4,
        b'M',
        b'Q',
        b'T',
        b'T',
        5,
        0,
        0,
        0,
        5,
        0x11,
        0xff,
        0xff,
        0xff,
        0xff,
        0,
        4,
        digit(number / 1000),
        digit(number / 100),
        digit(number / 10),
        digit(number),
    ]
}

/// SUBSCRIBE of a filter of its own, by a number of four digits, at QoS 2.
pub(crate) fn subscribe(number: u64) -> [u8; 14] {
    [
        0x82,
        12,
        0,
        1,
        0,
        0,
        6,
        b'x',
        b'/',
        digit(number / 1000),
        digit(number / 100),
        digit(number / 10),
        digit(number),
        2,
    ]
}
