//! The property table as the tests know it (2.2.2.2).

use mqtt_props::{Place, ValueKind};

pub(super) const PLACES: [Place; 14] = [
    Place::Connect,
    Place::Connack,
    Place::Publish,
    Place::Puback,
    Place::Pubrec,
    Place::Pubrel,
    Place::Pubcomp,
    Place::Subscribe,
    Place::Suback,
    Place::Unsubscribe,
    Place::Unsuback,
    Place::Disconnect,
    Place::Auth,
    Place::Will,
];

// Table 2-4 of 2.2.2.2: the identifier, the kind, the places in the order of `PLACES`, a block of
// the property alone, and one that ends inside its value. Authentication Data stands behind its
// method.
const TABLE: [(u32, ValueKind, &[u8], &[u8], &[u8]); 27] = [
    (
        0x01,
        ValueKind::Byte,
        b"--x----------x",
        &[2, 0x01, 1],
        &[1, 0x01],
    ),
    (
        0x02,
        ValueKind::U32,
        b"--x----------x",
        &[5, 0x02, 0, 0, 0, 9],
        &[4, 0x02, 0, 0, 9],
    ),
    (
        0x03,
        ValueKind::Text,
        b"--x----------x",
        &[4, 0x03, 0, 1, b'a'],
        &[4, 0x03, 0, 2, b'a'],
    ),
    (
        0x08,
        ValueKind::Text,
        b"--x----------x",
        &[4, 0x08, 0, 1, b'a'],
        &[4, 0x08, 0, 2, b'a'],
    ),
    (
        0x09,
        ValueKind::Binary,
        b"--x----------x",
        &[5, 0x09, 0, 2, 0, 0xff],
        &[5, 0x09, 0, 3, 0, 0xff],
    ),
    (
        0x0b,
        ValueKind::VarInt,
        b"--x----x------",
        &[3, 0x0b, 0x80, 1],
        &[2, 0x0b, 0x80],
    ),
    (
        0x11,
        ValueKind::U32,
        b"xx---------x--",
        &[5, 0x11, 0, 0, 0, 9],
        &[4, 0x11, 0, 0, 9],
    ),
    (
        0x12,
        ValueKind::Text,
        b"-x------------",
        &[4, 0x12, 0, 1, b'a'],
        &[4, 0x12, 0, 2, b'a'],
    ),
    (
        0x13,
        ValueKind::U16,
        b"-x------------",
        &[3, 0x13, 0, 9],
        &[2, 0x13, 9],
    ),
    (
        0x15,
        ValueKind::Text,
        b"xx----------x-",
        &[4, 0x15, 0, 1, b'a'],
        &[4, 0x15, 0, 2, b'a'],
    ),
    (
        0x16,
        ValueKind::Binary,
        b"xx----------x-",
        &[9, 0x15, 0, 1, b'm', 0x16, 0, 2, 0, 0xff],
        &[9, 0x15, 0, 1, b'm', 0x16, 0, 3, 0, 0xff],
    ),
    (
        0x17,
        ValueKind::Byte,
        b"x-------------",
        &[2, 0x17, 1],
        &[1, 0x17],
    ),
    (
        0x18,
        ValueKind::U32,
        b"-------------x",
        &[5, 0x18, 0, 0, 0, 9],
        &[4, 0x18, 0, 0, 9],
    ),
    (
        0x19,
        ValueKind::Byte,
        b"x-------------",
        &[2, 0x19, 1],
        &[1, 0x19],
    ),
    (
        0x1a,
        ValueKind::Text,
        b"-x------------",
        &[4, 0x1a, 0, 1, b'a'],
        &[4, 0x1a, 0, 2, b'a'],
    ),
    (
        0x1c,
        ValueKind::Text,
        b"-x---------x--",
        &[4, 0x1c, 0, 1, b'a'],
        &[4, 0x1c, 0, 2, b'a'],
    ),
    (
        0x1f,
        ValueKind::Text,
        b"-x-xxxx-x-xxx-",
        &[4, 0x1f, 0, 1, b'a'],
        &[4, 0x1f, 0, 2, b'a'],
    ),
    (
        0x21,
        ValueKind::U16,
        b"xx------------",
        &[3, 0x21, 0, 9],
        &[2, 0x21, 9],
    ),
    (
        0x22,
        ValueKind::U16,
        b"xx------------",
        &[3, 0x22, 0, 9],
        &[2, 0x22, 9],
    ),
    (
        0x23,
        ValueKind::U16,
        b"--x-----------",
        &[3, 0x23, 0, 9],
        &[2, 0x23, 9],
    ),
    (
        0x24,
        ValueKind::Byte,
        b"-x------------",
        &[2, 0x24, 1],
        &[1, 0x24],
    ),
    (
        0x25,
        ValueKind::Byte,
        b"-x------------",
        &[2, 0x25, 1],
        &[1, 0x25],
    ),
    (
        0x26,
        ValueKind::Pair,
        b"xxxxxxxxxxxxxx",
        &[7, 0x26, 0, 1, b'k', 0, 1, b'v'],
        &[7, 0x26, 0, 1, b'k', 0, 2, b'v'],
    ),
    (
        0x27,
        ValueKind::U32,
        b"xx------------",
        &[5, 0x27, 0, 0, 0, 9],
        &[4, 0x27, 0, 0, 9],
    ),
    (
        0x28,
        ValueKind::Byte,
        b"-x------------",
        &[2, 0x28, 1],
        &[1, 0x28],
    ),
    (
        0x29,
        ValueKind::Byte,
        b"-x------------",
        &[2, 0x29, 1],
        &[1, 0x29],
    ),
    (
        0x2a,
        ValueKind::Byte,
        b"-x------------",
        &[2, 0x2a, 1],
        &[1, 0x2a],
    ),
];

// A caller's proof doesn't see the rows behind this call, and is the shorter for it.
pub(super) fn table() -> &'static [(u32, ValueKind, &'static [u8], &'static [u8], &'static [u8])] {
    &TABLE
}

// A block of four properties of a PUBLISH, and two bytes behind it.
pub(super) const PUBLISH: [u8; 17] = [
    14, 1, 1, 0x23, 0, 5, 0x26, 0, 1, b'k', 0, 1, b'v', 0x0b, 7, 0xaa, 0xbb,
];
