//! What packets that go out tell of a connection (MQTT 5.0, 3.2, 3.4, 3.5, 3.14).

use crate::journal::line_event::Present;

/// The publication was refused: a queue is full, or there are as many retained messages as may be (3.4.2.1).
const QUOTA_EXCEEDED: u8 = 0x97;

/// What a packet tells.
#[derive(Clone, Copy, Debug, PartialEq, Eq)]
pub(crate) enum Told {
    /// CONNACK (3.2).
    Connack {
        /// Session Present.
        session_present: Present,
        /// The Reason Code.
        code: u8,
    },
    /// DISCONNECT, with its Reason Code (3.14).
    Disconnect {
        /// The Reason Code.
        code: u8,
    },
    /// PUBLISH (3.3).
    Publish,
    /// PUBACK or PUBREC with 0x97 (3.4, 3.5).
    Full,
    /// Nothing that is told.
    Other,
}

/// What stands behind the fixed header of a packet (2.1.1).
fn body_of(packet: &[u8]) -> &[u8] {
    match packet {
        [_, 0..=0x7f, body @ ..] => body,
        [_, _, 0..=0x7f, body @ ..] => body,
        [_, _, _, 0..=0x7f, body @ ..] => body,
        [_, _, _, _, _, body @ ..] => body,
        _ => &[],
    }
}

/// What a packet that goes out tells.
pub(crate) fn told_by(packet: &[u8]) -> Told {
    let body = body_of(packet);
    match (packet.first(), body) {
        (Some(0x30..=0x3f), _) => Told::Publish,
        (Some(0x20), [flags, code, ..]) => Told::Connack {
            session_present: if *flags == 1 {
                Present::Yes
            } else {
                Present::No
            },
            code: *code,
        },
        (Some(0xe0), [code, ..]) => Told::Disconnect { code: *code },
        (Some(0xe0), []) => Told::Disconnect { code: 0 },
        (Some(0x40 | 0x50), [_, _, code, ..]) if *code == QUOTA_EXCEEDED => Told::Full,
        _ => Told::Other,
    }
}
