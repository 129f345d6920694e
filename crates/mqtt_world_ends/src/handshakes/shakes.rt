//! What a publisher sends for its handshakes (MQTT 5.0, 3.1, 3.3, 3.6, 4.4).

ghost use Rattle.std.specs.Prelude.{◌≡◌, option_map};
ghost use Rattle.mqtt_flow.specs.inbound.Publisher.{first_fate, first_packet};
ghost use Rattle.mqtt_world_ends.specs.handshakes.Fates.{again, awaits, fate_of, packet_of, qos_of};

use crate::handshakes::fates::Fate;

/// How surely a message is to come: the two levels of quality of service that have a handshake (4.3).
#[derive(Clone, Copy, Debug, PartialEq, Eq)]
pub enum Assurance {
    /// QoS 1 (4.3.2).
    AtLeastOnce,
    /// QoS 2 (4.3.3).
    ExactlyOnce,
}

/// A packet that a publisher sends to connect, or for one of its messages.
#[derive(Clone, Copy, Debug, PartialEq, Eq)]
pub enum Shake {
    /// CONNECT (3.1).
    Connect {
        /// Its Clean Start.
        clean_start: bool,
    },
    /// PUBLISH of QoS 1 (3.3).
    PublishOnce {
        /// The packet identifier.
        identifier: u16,
        /// The number of the message, counted from 0.
        message: usize,
        /// Whether it may have gone out before.
        dup: bool,
    },
    /// PUBLISH of QoS 2 (3.3).
    PublishTwice {
        /// The packet identifier.
        identifier: u16,
        /// The number of the message, counted from 0.
        message: usize,
        /// Whether it may have gone out before.
        dup: bool,
    },
    /// PUBREL (3.6).
    Pubrel {
        /// The packet identifier.
        identifier: u16,
    },
}

impl Assurance {
    /// What becomes of a message that goes out.
    pub(crate) fn first_fate(self, identifier: u16) -> Fate
        ensures { fate_of result ≡ first_fate (qos_of self) identifier }
    {
        match self {
            Assurance::AtLeastOnce => Fate::SentOnce { identifier },
            Assurance::ExactlyOnce => Fate::Sent { identifier },
        }
    }

    /// The PUBLISH by which it goes out.
    pub(crate) fn first_packet(self, identifier: u16, message: usize) -> Shake
        ensures { packet_of result ≡ first_packet (qos_of self) identifier message }
    {
        let dup = false;
        match self {
            Assurance::AtLeastOnce => Shake::PublishOnce {
                identifier,
                message,
                dup,
            },
            Assurance::ExactlyOnce => Shake::PublishTwice {
                identifier,
                message,
                dup,
            },
        }
    }
}

impl Fate {
    /// What goes out again for the message with this number (4.4).
    pub(crate) fn again(&self, message: usize) -> Option<Shake>
        ensures { option_map packet_of result ≡ again message (fate_of self.now) }
    {
        let dup = true;
        match *self {
            Fate::SentOnce { identifier } => Some(Shake::PublishOnce {
                identifier,
                message,
                dup,
            }),
            Fate::Sent { identifier } => Some(Shake::PublishTwice {
                identifier,
                message,
                dup,
            }),
            Fate::Released { identifier } => Some(Shake::Pubrel { identifier }),
            Fate::EndedOnce { .. } | Fate::Ended { .. } => None,
        }
    }

    /// Whether a PUBREC with this identifier is awaited (4.3.3).
    pub(crate) fn is_sent(&self, identifier: u16) -> bool
        ensures { result ≡ awaits identifier self.now }
    {
        match *self {
            Fate::Sent { identifier: other } => identifier == other,
            Fate::SentOnce { .. }
            | Fate::EndedOnce { .. }
            | Fate::Released { .. }
            | Fate::Ended { .. } => false,
        }
    }
}
