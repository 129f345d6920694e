//! What a session's queue of outbound copies holds, and what a turn does to it (4.3, 4.4, 4.6).

use mqtt_base::{CopyId, Ending, Phase, Qos};

/// What a queue knows of a copy. Topic, properties and payload stand elsewhere.
#[derive(Drop)]
pub struct QueuedCopy {
    /// Which copy it is.
    pub id: CopyId,
    /// The quality of service granted: 1 or 2.
    pub qos: Qos,
    /// Bytes of its PUBLISH, fixed header included (2.1.4).
    pub size: u32,
    /// When its publication was accepted, in milliseconds.
    pub arrived: u64,
    /// Its Message Expiry Interval as it was received, in seconds (3.3.2.3.3).
    pub expiry: Option<u32>,
}

/// A copy in a session's queue.
#[derive(Drop)]
pub struct Entry {
    /// Its place in the queue: one above the greatest that stood when it entered, from 1.
    pub place: u64,
    /// The copy.
    pub copy: QueuedCopy,
    /// How far it has come.
    pub phase: Phase,
    /// Whether its PUBLISH went out on the session's connection.
    pub here: bool,
}

/// What a full queue does with a further copy.
#[derive(Clone, Copy, Debug, PartialEq, Eq)]
pub enum Full {
    /// It refuses the copy.
    Refuse,
    /// The oldest copies that wait give way.
    Drop,
}

/// How many copies a queue holds (ours).
#[derive(Clone, Copy, Debug, PartialEq, Eq)]
pub struct QueueLimits {
    /// The most copies, from 1 to `QUEUE_LIMIT`.
    pub queue: usize,
    /// What becomes of a further one.
    pub full: Full,
}

/// What a connection lets through.
#[derive(Clone, Copy, Debug, PartialEq, Eq)]
pub struct Way {
    /// The client's Receive Maximum, 65,535 if it sent none (3.1.2.11.3).
    pub window: u16,
    /// The client's Maximum Packet Size, in bytes (3.1.2.11.4).
    pub largest: u32,
    /// The moment, in milliseconds.
    pub now: u64,
}

/// A released copy, as a resumption speaks of it.
#[derive(Clone, Copy, Debug, PartialEq, Eq)]
pub(crate) struct Due {
    /// Its place among the released copies.
    pub(crate) order: u64,
    /// Its packet identifier.
    pub(crate) identifier: u16,
}

/// One thing that a session does with its queue, and the packet that goes out with it.
#[derive(Clone, Copy, Debug, PartialEq, Eq)]
pub enum Turn {
    /// A waiting copy gets an identifier and is sent: PUBLISH with DUP 0 (3.3.1.1).
    Send {
        /// The copy's place.
        place: u64,
        /// Its packet identifier from now on.
        identifier: u16,
    },
    /// A copy sent on an earlier connection is sent again: PUBLISH with DUP 1 (4.4).
    Resend {
        /// The copy's place.
        place: u64,
        /// The packet identifier that it has.
        identifier: u16,
    },
    /// The client has the copy: PUBREL with code 0x00 (4.3.3).
    Release {
        /// The copy's place.
        place: u64,
        /// The packet identifier that it has.
        identifier: u16,
        /// Its place among the released copies.
        order: u64,
    },
    /// A copy sent on an earlier connection has become too large, so its handshake is brought to an
    /// end: PUBREL with
    /// code 0x00 (ours).
    Outgrow {
        /// The copy's place.
        place: u64,
        /// The packet identifier that it has.
        identifier: u16,
        /// Its place among the released copies.
        order: u64,
    },
    /// PUBREL with code 0x00 goes out once more (4.4).
    Repeat {
        /// The packet identifier of a copy that is released.
        identifier: u16,
    },
    /// PUBREL with code 0x92 goes out: no copy has the identifier (3.6.2.1).
    Unknown {
        /// The packet identifier.
        identifier: u16,
    },
    /// A copy leaves the queue. No packet goes out.
    Leave {
        /// The copy's place.
        place: u64,
        /// Why it leaves.
        ending: Ending,
    },
}
