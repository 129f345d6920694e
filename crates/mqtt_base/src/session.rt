//! What session state speaks of: service, subscriptions, copies and their ends (3.8.3.1, 4.1, 4.3).
ghost use Rattle.std.specs.Prelude.{◌≡◌};
ghost use Rattle.mqtt_base.specs.Phases.{identifier_of, order_of};

use crate::text::Text;
use std::alloc::AllocError;

/// The quality of service of a message or a subscription (4.3).
#[derive(Clone, Copy, Debug, PartialEq, Eq)]
pub enum Qos {
    /// 0: handed over once or not at all.
    AtMostOnce = 0,
    /// 1: handed over once or more often.
    AtLeastOnce = 1,
    /// 2: handed over once.
    ExactlyOnce = 2,
}

/// Which retained messages a SUBSCRIBE asks for (3.8.3.1).
#[derive(Clone, Copy, Debug, PartialEq, Eq)]
pub enum RetainHandling {
    /// 0: those that match, at each SUBSCRIBE.
    SendAlways = 0,
    /// 1: those that match, if there was no such subscription before.
    SendIfNew = 1,
    /// 2: none.
    DoNotSend = 2,
}

/// The options of a subscription (3.8.3.1).
#[derive(Clone, Copy, Debug, PartialEq, Eq)]
pub struct SubscriptionOptions {
    /// The highest quality of service at which messages are sent.
    pub qos: Qos,
    /// Whether the client's own messages are left out.
    pub no_local: bool,
    /// Whether RETAIN is sent as it was published, and not as 0.
    pub retain_as_published: bool,
    /// Which retained messages are sent at the SUBSCRIBE.
    pub retain_handling: RetainHandling,
}

/// Why a session got a copy of a publication (3.3.4, 4.8).
#[derive(Debug, PartialEq, Eq, Hash, Drop)]
pub enum Cause {
    /// One or more of its subscriptions that aren't shared match the topic.
    Direct,
    /// It was the member chosen of a group of shared subscriptions (4.8.2).
    Share {
        /// The group as `NAME/FILTER`: `$share/NAME/FILTER` without its front.
        group: Text,
    },
    /// It subscribed after the publication was retained (3.3.1.3).
    Retained {
        /// The number of the subscribe that asked for it, from 1.
        subscribe: u64,
    },
}

/// What tells a copy of a publication from all others (4.8).
#[derive(Debug, PartialEq, Eq, Hash, Drop)]
pub struct CopyId {
    /// The number of the publication, from 1 in the order of acceptance.
    pub publication: u64,
    /// The birth of the session that got the copy: its number, from 1 in the order of births.
    pub birth: u64,
    /// Why that session got it.
    pub cause: Cause,
}

/// How far a copy in a session's queue has come (4.3).
#[derive(Clone, Copy, Debug, PartialEq, Eq)]
pub enum Phase {
    /// It has no packet identifier: no PUBLISH was sent.
    Waiting,
    /// Its PUBLISH was sent; PUBACK or PUBREC hasn't come (4.3.2, 4.3.3).
    Sent {
        /// The packet identifier, from 1.
        identifier: u16,
    },
    /// Its PUBREC came, so it is handed over; PUBCOMP hasn't come (4.3.3).
    Released {
        /// The packet identifier, from 1.
        identifier: u16,
        /// Its place among the session's released copies, from 1: PUBRELs go out in this order (4.6).
        order: u64,
    },
    /// Its PUBLISH was sent on an earlier connection and is too large for the client of this one,
    /// so it ended; the identifier is freed by the same PUBREL and PUBCOMP as that of `Released`
    /// (3.1.2.11.4).
    Oversize {
        /// The packet identifier, from 1.
        identifier: u16,
        /// Its place among the session's released copies, from 1.
        order: u64,
    },
}

impl Phase {
    /// The packet identifier that the copy has, if it has one (2.2.1). Takes no memory.
    pub fn identifier(self) -> Option<u16>
        ensures { result ≡ identifier_of self }
    {
        match self {
            Phase::Waiting => None,
            Phase::Sent { identifier }
            | Phase::Released { identifier, .. }
            | Phase::Oversize { identifier, .. } => Some(identifier),
        }
    }

    /// The copy's place among those released, 0 for one that isn't (4.6). Takes no memory.
    pub fn order(self) -> u64
        ensures { result ≡ order_of self }
    {
        match self {
            Phase::Waiting | Phase::Sent { .. } => 0,
            Phase::Released { order, .. } | Phase::Oversize { order, .. } => order,
        }
    }
}

/// How a copy left a session's queue, or was done with there (4.3, 4.4).
#[derive(Clone, Copy, Debug, PartialEq, Eq)]
pub enum Ending {
    /// The client took it: PUBACK, or PUBREC with a code below 0x80.
    Taken,
    /// The client refused it: PUBACK or PUBREC with a code of 0x80 or above.
    Refused,
    /// Its Message Expiry Interval passed before its PUBLISH was first sent (3.3.2.3.3).
    Expired,
    /// Its PUBLISH is larger than the client's Maximum Packet Size (3.1.2.11.4).
    TooLarge,
    /// Its session ended (4.1).
    SessionEnded,
    /// It was the oldest that waited in a full queue (ours).
    Dropped,
}

impl Clone for Cause {
    ghost is_clone = { λ cause copy. copy ≡ cause };

    /// Another of the same value; a group's bytes are shared.
    fn clone(&self) -> Result<Cause, AllocError> {
        match self {
            Cause::Direct => Ok(Cause::Direct),
            Cause::Share { group } => Ok(Cause::Share {
                group: group.clone()?,
            }),
            Cause::Retained { subscribe } => Ok(Cause::Retained {
                subscribe: *subscribe,
            }),
        }
    }
}

impl Clone for CopyId {
    ghost is_clone = { λ id copy. copy ≡ id };

    /// Another of the same value; a group's bytes are shared.
    fn clone(&self) -> Result<CopyId, AllocError> {
        Ok(CopyId {
            publication: self.publication,
            birth: self.birth,
            cause: self.cause.clone()?,
        })
    }
}
