//! First bytes: the type of a packet and its flags (2.1.2, 2.1.3).

ghost use Rattle.std.specs.Prelude.{◌≡◌};
ghost use Rattle.mqtt_packet.specs.codec.Heads.{first, head_of};

use mqtt_base::Qos;

/// What a first byte says (2.1.2, 2.1.3).
#[derive(Clone, Copy, Debug, PartialEq, Eq)]
pub enum Head {
    /// 0x10 (3.1.1)
    Connect,
    /// 0x20 (3.2.1)
    Connack,
    /// 0x30, with bit 3 DUP, bits 2 and 1 QoS, bit 0 RETAIN (3.3.1).
    Publish {
        /// Whether it was sent before (3.3.1.1); not at QoS 0.
        dup: bool,
        /// Its quality of service (3.3.1.2).
        qos: Qos,
        /// Whether it is to be retained, or was (3.3.1.3).
        retain: bool,
    },
    /// 0x40 (3.4.1)
    Puback,
    /// 0x50 (3.5.1)
    Pubrec,
    /// 0x62 (3.6.1)
    Pubrel,
    /// 0x70 (3.7.1)
    Pubcomp,
    /// 0x82 (3.8.1)
    Subscribe,
    /// 0x90 (3.9.1)
    Suback,
    /// 0xa2 (3.10.1)
    Unsubscribe,
    /// 0xb0 (3.11.1)
    Unsuback,
    /// 0xc0 (3.12.1)
    Pingreq,
    /// 0xd0 (3.13.1)
    Pingresp,
    /// 0xe0 (3.14.1)
    Disconnect,
    /// 0xf0 (3.15.1)
    Auth,
}

/// What the first byte says, if its type and flags are lawful.
#[inline(always)]
pub fn head_read(first: u8) -> Option<Head>
    ensures { result ≡ head_of first }
{
    let head = match first {
        0x10 => Head::Connect,
        0x20 => Head::Connack,
        0x30 => Head::Publish {
            dup: false,
            qos: Qos::AtMostOnce,
            retain: false,
        },
        0x31 => Head::Publish {
            dup: false,
            qos: Qos::AtMostOnce,
            retain: true,
        },
        0x32 => Head::Publish {
            dup: false,
            qos: Qos::AtLeastOnce,
            retain: false,
        },
        0x33 => Head::Publish {
            dup: false,
            qos: Qos::AtLeastOnce,
            retain: true,
        },
        0x34 => Head::Publish {
            dup: false,
            qos: Qos::ExactlyOnce,
            retain: false,
        },
        0x35 => Head::Publish {
            dup: false,
            qos: Qos::ExactlyOnce,
            retain: true,
        },
        0x3a => Head::Publish {
            dup: true,
            qos: Qos::AtLeastOnce,
            retain: false,
        },
        0x3b => Head::Publish {
            dup: true,
            qos: Qos::AtLeastOnce,
            retain: true,
        },
        0x3c => Head::Publish {
            dup: true,
            qos: Qos::ExactlyOnce,
            retain: false,
        },
        0x3d => Head::Publish {
            dup: true,
            qos: Qos::ExactlyOnce,
            retain: true,
        },
        0x40 => Head::Puback,
        0x50 => Head::Pubrec,
        0x62 => Head::Pubrel,
        0x70 => Head::Pubcomp,
        0x82 => Head::Subscribe,
        0x90 => Head::Suback,
        0xa2 => Head::Unsubscribe,
        0xb0 => Head::Unsuback,
        0xc0 => Head::Pingreq,
        0xd0 => Head::Pingresp,
        0xe0 => Head::Disconnect,
        0xf0 => Head::Auth,
        _ => return None,
    };
    Some(head)
}
