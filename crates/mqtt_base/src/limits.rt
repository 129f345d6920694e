//! The limits of this broker, each said once for all crates (ours).

/// Copies in a session's queue.
pub const QUEUE_LIMIT: usize = 1_000;

/// Subscriptions of a session.
pub const SUBSCRIPTION_LIMIT: usize = 100;

/// Topics with a retained message.
pub const RETAINED_LIMIT: usize = 1_000;

/// Sessions, connected or not.
pub const SESSION_LIMIT: usize = 1_000;

/// Lines linked at one time, whatever a broker is asked for.
pub const LINE_LIMIT: usize = 1_000;

/// Lines linked at one time, where no other number is asked for.
pub const LINES_UNASKED: u32 = 64;

/// Open identifiers of a session's inbound messages of QoS 1 and 2: the Receive Maximum that
/// CONNACK tells a client (3.2.2.3.3).
pub const OPEN_LIMIT: usize = 20;

/// The greatest Topic Alias that a client may set: the Topic Alias Maximum that CONNACK tells it
/// (3.2.2.3.8).
pub const ALIAS_LIMIT: u16 = 10;

/// Bytes of a packet, fixed header included: the Maximum Packet Size that CONNACK tells a client
/// (3.2.2.3.6).
pub const PACKET_LIMIT: usize = 65_536;

/// Bytes of topic, properties and payload of a stored row together (ours).
pub const ROW_LIMIT: usize = 200_000;

/// Bytes of a client identifier.
pub const CLIENT_LIMIT: usize = 64;

/// PUBLISH that go out in one call of `pump`.
pub const PUMP_LIMIT: u16 = 16;

/// Milliseconds in which a new line has to bring its CONNECT.
pub const CONNECT_TIME: u64 = 10_000;

/// The greatest moment in milliseconds, number, place and order of release.
pub const LAST_NUMBER: u64 = 1 << 62;

/// What variable byte integers stay below (1.5.5).
pub const VARINT_LIMIT: u32 = 1 << 28;
