//! What a publisher reads (MQTT 5.0, 3.2, 3.4, 3.5, 3.7, 3.14).

ghost use Rattle.std.specs.Prelude.{◌≡◌, option_map};
ghost use Rattle.mqtt_world_model.specs.model.Ends.{connack_by, heard};
ghost use Rattle.mqtt_world_ends.specs.peers.Publishers.{told_of};

use mqtt_packet::Packet;

/// The packets that a publisher knows.
#[derive(Clone, Copy, Debug)]
pub(crate) enum ToPublisher {
    /// CONNACK of success (3.2).
    Connack {
        /// Its Session Present.
        present: bool,
    },
    /// CONNACK that refuses (3.2).
    ConnackRefused {
        /// The reason code.
        code: u8,
    },
    /// PUBACK (3.4).
    Puback {
        /// The packet identifier.
        identifier: u16,
        /// The reason code.
        code: u8,
    },
    /// PUBREC (3.5).
    Pubrec {
        /// The packet identifier.
        identifier: u16,
        /// The reason code.
        code: u8,
    },
    /// PUBCOMP (3.7).
    Pubcomp {
        /// The packet identifier.
        identifier: u16,
        /// The reason code.
        code: u8,
    },
    /// DISCONNECT (3.14).
    Disconnect {
        /// The reason code.
        code: u8,
    },
}

/// A CONNACK by its reason code.
fn connack(present: bool, code: u8) -> ToPublisher
    ensures { told_of result ≡ connack_by present code }
{
    if 0 < code {
        ToPublisher::ConnackRefused { code }
    } else {
        ToPublisher::Connack { present }
    }
}

/// What the publisher makes of a packet; what it doesn't know it passes over. Takes no memory.
pub(crate) fn heard(packet: &Packet) -> Option<ToPublisher>
    ensures { option_map told_of result ≡ heard packet.now }
{
    match packet {
        Packet::Connack(ack) => Some(connack(ack.session_present, ack.reason.0)),
        Packet::Puback(ack) => Some(ToPublisher::Puback {
            identifier: ack.identifier,
            code: ack.reason.0,
        }),
        Packet::Pubrec(ack) => Some(ToPublisher::Pubrec {
            identifier: ack.identifier,
            code: ack.reason.0,
        }),
        Packet::Pubcomp(ack) => Some(ToPublisher::Pubcomp {
            identifier: ack.identifier,
            code: ack.reason.0,
        }),
        Packet::Disconnect(notice) => Some(ToPublisher::Disconnect {
            code: notice.reason.0,
        }),
        Packet::Connect(_)
        | Packet::Publish(_)
        | Packet::Pubrel(_)
        | Packet::Subscribe(_)
        | Packet::Suback(_)
        | Packet::Unsubscribe(_)
        | Packet::Unsuback(_)
        | Packet::Pingreq
        | Packet::Pingresp
        | Packet::Auth(_) => None,
    }
}
