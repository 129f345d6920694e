//! The fifteen control packet types (2.1.2).

/// A control packet type, with its number in the high half of the first byte (Table 2-1).
#[derive(Clone, Copy, Debug, PartialEq, Eq)]
pub enum Kind {
    /// 1: a client asks for a connection (3.1).
    Connect = 1,
    /// 2: the connection is acknowledged (3.2).
    Connack = 2,
    /// 3: a message is published (3.3).
    Publish = 3,
    /// 4: a QoS 1 message is acknowledged (3.4).
    Puback = 4,
    /// 5: a QoS 2 message is received, part 1 of its delivery (3.5).
    Pubrec = 5,
    /// 6: a QoS 2 message is released, part 2 of its delivery (3.6).
    Pubrel = 6,
    /// 7: a QoS 2 message is complete, part 3 of its delivery (3.7).
    Pubcomp = 7,
    /// 8: a client asks for subscriptions (3.8).
    Subscribe = 8,
    /// 9: subscriptions are acknowledged (3.9).
    Suback = 9,
    /// 10: a client gives subscriptions up (3.10).
    Unsubscribe = 10,
    /// 11: giving subscriptions up is acknowledged (3.11).
    Unsuback = 11,
    /// 12: a client asks for a sign of life (3.12).
    Pingreq = 12,
    /// 13: the sign of life (3.13).
    Pingresp = 13,
    /// 14: the last packet of a connection (3.14).
    Disconnect = 14,
    /// 15: a step of an authentication (3.15).
    Auth = 15,
}
