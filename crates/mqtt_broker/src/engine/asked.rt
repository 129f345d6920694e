//! What the first bytes of a line ask of the broker (MQTT 5.0, 2.1.4, 4.13).

use mqtt_base::Reason;
use mqtt_packet::Packet;

/// What the first bytes of a line ask.
#[derive(Drop)]
pub enum Asked {
    /// A packet is whole.
    Whole {
        packet: Packet,
        /// Bytes, fixed header included.
        size: usize,
    },
    /// A fault stands.
    Bad {
        /// Whether the bytes begin with the type of CONNECT (3.1).
        is_connect: bool,
        /// The code with which it is answered.
        code: Reason,
    },
}
