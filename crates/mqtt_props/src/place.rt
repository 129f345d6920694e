//! The places where properties stand (2.2.2.2).

/// A packet that has properties, or the Will of a CONNECT.
#[derive(Clone, Copy, Debug, PartialEq, Eq)]
pub enum Place {
    /// CONNECT (3.1.2.11).
    Connect,
    /// CONNACK (3.2.2.3).
    Connack,
    /// PUBLISH (3.3.2.3).
    Publish,
    /// PUBACK (3.4.2.2).
    Puback,
    /// PUBREC (3.5.2.2).
    Pubrec,
    /// PUBREL (3.6.2.2).
    Pubrel,
    /// PUBCOMP (3.7.2.2).
    Pubcomp,
    /// SUBSCRIBE (3.8.2.1).
    Subscribe,
    /// SUBACK (3.9.2.1).
    Suback,
    /// UNSUBSCRIBE (3.10.2.1).
    Unsubscribe,
    /// UNSUBACK (3.11.2.1).
    Unsuback,
    /// DISCONNECT (3.14.2.2).
    Disconnect,
    /// AUTH (3.15.2.2).
    Auth,
    /// The Will properties in the payload of a CONNECT (3.1.3.2).
    Will,
}
