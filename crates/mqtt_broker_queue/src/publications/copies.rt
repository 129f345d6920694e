//! The copies of one publication as one value (MQTT 5.0, 3.3, 3.3.4, 4.8).
ghost use Rattle.std.specs.Prelude.{◌≡◌, map, IfOk};
ghost use Rattle.mqtt_base.specs.declared.session.Cause.TheVariants.{Direct};
ghost use Rattle.mqtt_broker_queue.specs.publications.Copies.{addressee, copies_for};

use crate::publications::common::Common;
use mqtt_base::{Cause, Qos};
use mqtt_records::{Content, SubscriptionIdentifiers};
use mqtt_routes::{Routed, RoutedCopy};
use std::alloc::{AllocError, Global};
use std::marker::Model;

/// A session that gets a copy of a publication: why, and how.
#[derive(Drop)]
pub struct Addressee {
    /// The session's birth.
    pub birth: u64,
    /// Why it gets the copy.
    pub cause: Cause,
    /// The quality of service at which the copy is sent.
    pub qos: Qos,
    /// Whether RETAIN is sent as 1.
    pub retain: bool,
    /// The identifiers of the subscriptions for which the copy is sent.
    pub identifiers: SubscriptionIdentifiers,
}

/// What says which session gets a copy, why, and how.
pub(crate) trait Addressed {
    ghost use Rattle.mqtt_broker_queue.specs.declared.publications.copies.Addressee.{Addressee};

    /// As it says it.
    ghost addressee: { Self → Addressee };

    /// The session's birth. Takes no memory.
    fn birth(&self) -> u64
        ensures { result ≡ (addressee self.now).birth };

    /// Why it gets the copy.
    fn cause(&self) -> Result<Cause, AllocError>
        ensures { IfOk result (λ cause. cause ≡ (addressee self.now).cause) };

    /// The quality of service at which the copy is sent. Takes no memory.
    fn qos(&self) -> Qos
        ensures { result ≡ (addressee self.now).qos };

    /// Whether RETAIN is sent as 1. Takes no memory.
    fn retain(&self) -> bool
        ensures { result ≡ (addressee self.now).retain };

    /// The identifiers of the subscriptions for which the copy is sent. Takes no memory.
    fn identifiers(&self) -> &[u32]
        ensures { result.now ≡ (addressee self.now).identifiers };
}

impl Addressed for Addressee {
    ghost addressee = { λ to. to };

    fn birth(&self) -> u64 {
        self.birth
    }

    fn cause(&self) -> Result<Cause, AllocError> {
        self.cause.clone()
    }

    fn qos(&self) -> Qos {
        self.qos
    }

    fn retain(&self) -> bool {
        self.retain
    }

    fn identifiers(&self) -> &[u32] {
        self.identifiers.as_slice()
    }
}

// A copy that was routed directly.
impl Addressed for RoutedCopy {
    ghost use Rattle.mqtt_base.specs.declared.session.Cause.TheVariants.{Direct};
    ghost use Rattle.mqtt_broker_queue.specs.publications.Copies.{addressee as routed_to};

    ghost addressee = { routed_to Direct };

    fn birth(&self) -> u64 {
        self.birth()
    }

    fn cause(&self) -> Result<Cause, AllocError> {
        Ok(Cause::Direct)
    }

    fn qos(&self) -> Qos {
        self.qos()
    }

    fn retain(&self) -> bool {
        self.retain()
    }

    fn identifiers(&self) -> &[u32] {
        self.identifiers()
    }
}

/// Who gets the copies of a publication.
#[derive(Drop)]
pub(crate) enum Whom {
    /// The sessions to which it was routed directly.
    Routed { routed: Routed },
    /// These.
    Listed { all: Vec<Addressee> },
}

impl Whom {
    /// How many there are. Takes no memory.
    pub(crate) fn count(&self) -> usize {
        match self {
            Whom::Routed { routed } => routed.direct().len(),
            Whom::Listed { all } => all.len(),
        }
    }
}

/// The copies of a publication, in order. What they have in common is there once.
#[derive(Drop)]
pub struct Copies {
    pub(crate) common: Common,
    pub(crate) whom: Whom,
}

impl Model for Copies {
    ghost use Rattle.std.specs.Prelude.{List};
    ghost use Rattle.mqtt_records.specs.declared.messages.message.MessageCopy.{MessageCopy};
    ghost use Rattle.mqtt_broker_queue.specs.publications.Copies.{copies_for};
    ghost use Rattle.mqtt_broker_queue.specs.publications.Whom.{all_of};

    ghost Value = { List MessageCopy };

    ghost view = { λ a. copies_for a.common (all_of a.whom) };
}

impl Copies {
    /// The copies of the publication with a number, for these sessions. Takes no memory.
    pub fn new(number: u64, content: Content, all: Vec<Addressee>) -> Copies
        ensures { result ≡ copies_for (record { number = number; content = content }) all.items }
    {
        Copies {
            common: Common::new(*all.allocator(), number, content),
            whom: Whom::Listed { all },
        }
    }

    /// The copies of the publication with a number, for the sessions to which it was routed directly. Takes no memory.
    pub fn routed(alloc: Global, number: u64, content: Content, routed: Routed) -> Copies
        ensures { result ≡ copies_for (record { number = number; content = content })
            (map (addressee Direct) routed.direct) }
    {
        Copies {
            common: Common::new(alloc, number, content),
            whom: Whom::Routed { routed },
        }
    }
}
