//! What can happen in a world of a broker, conforming ends and strangers (ours).

ghost use Rattle.std.specs.Prelude.{◌≡◌};

use bytes::Bytes;
use mqtt_base::{Qos, SubscriptionOptions, Text};
use std::alloc::AllocError;

/// What a message carries (3.3.1.3, 3.3.2.1, 3.3.3).
#[derive(Debug, PartialEq, Eq, Drop)]
pub struct Content {
    /// Whether it is to be retained.
    pub retain: bool,
    /// The topic name.
    pub topic: Text,
    /// The payload.
    pub payload: Bytes,
}

/// A message that a publisher has not sent (3.3).
#[derive(Debug, PartialEq, Eq, Drop)]
pub struct Draft {
    /// The quality of service at which it is to be sent (4.3).
    pub qos: Qos,
    /// What it carries.
    pub content: Content,
}

/// A subscription that a receiver asks for (3.8.3).
#[derive(Debug, PartialEq, Eq, Drop)]
pub struct Wish {
    /// The topic filter, or shared filter (4.7, 4.8.2).
    pub filter: Text,
    /// Its options (3.8.3.1).
    pub options: SubscriptionOptions,
    /// The Subscription Identifier, from 1, if it has one (3.8.2.1.2).
    pub identifier: Option<u32>,
}

impl Clone for Content {
    ghost is_clone = { λ content copy. copy ≡ content };

    /// Another of the same value; topic and payload are shared.
    fn clone(&self) -> Result<Content, AllocError> {
        Ok(Content {
            retain: self.retain,
            topic: self.topic.clone()?,
            payload: self.payload.clone()?,
        })
    }
}

impl Clone for Draft {
    ghost is_clone = { λ draft copy. copy ≡ draft };

    /// Another of the same value; topic and payload are shared.
    fn clone(&self) -> Result<Draft, AllocError> {
        Ok(Draft {
            qos: self.qos,
            content: self.content.clone()?,
        })
    }
}

impl Clone for Wish {
    ghost is_clone = { λ wish copy. copy ≡ wish };

    /// Another of the same value; the filter is shared.
    fn clone(&self) -> Result<Wish, AllocError> {
        Ok(Wish {
            filter: self.filter.clone()?,
            options: self.options,
            identifier: self.identifier,
        })
    }
}

/// What the broker is asked for: the events at which a stop can be told.
#[derive(Debug, PartialEq, Eq, Drop)]
pub enum Asking {
    /// The first packet under way from an end is delivered.
    ToBroker {
        /// The client identifier of the end.
        client: Text,
        /// Whether on the line that the end gave up last, and not on its own.
        old: bool,
    },
    /// The line of an end is lost on both sides.
    Break {
        /// The client identifier of the end.
        client: Text,
    },
    /// What waits for the session of an end is sent (4.4, 4.9).
    Pump {
        /// The client identifier of the end.
        client: Text,
    },
    /// The broker looks at the moment.
    Tick,
    /// Bytes come on a stranger's line.
    Stranger {
        /// The stranger's name, which is no client identifier.
        name: Text,
        /// The bytes.
        bytes: Bytes,
    },
}

/// An event of a script.
#[derive(Debug, PartialEq, Eq, Drop)]
pub enum Event {
    /// A publisher is made.
    Publisher {
        /// Its client identifier.
        client: Text,
    },
    /// A receiver is made.
    Receiver {
        /// Its client identifier.
        client: Text,
        /// Its Receive Maximum, from 1 (3.1.2.11.3).
        window: u16,
        /// Its Topic Alias Maximum, 0 if it takes none (3.1.2.11.5).
        aliases: u16,
    },
    /// An end sends CONNECT on a new line.
    Connect {
        /// The client identifier of the end.
        client: Text,
        /// Its Clean Start (3.1.2.4).
        clean_start: bool,
    },
    /// An end leaves its line, and the broker may still read what is under way there.
    GiveUp {
        /// The client identifier of the end.
        client: Text,
    },
    /// A publisher has a new message.
    Publish {
        /// The client identifier of the publisher.
        client: Text,
        /// The message.
        draft: Draft,
    },
    /// A receiver sends SUBSCRIBE.
    Subscribe {
        /// The client identifier of the receiver.
        client: Text,
        /// Its subscription.
        wish: Wish,
    },
    /// The first packet under way from an end is delivered.
    ToBroker {
        /// The client identifier of the end.
        client: Text,
        /// Whether on the line that the end gave up last, and not on its own.
        old: bool,
    },
    /// The first packet under way to an end is delivered.
    ToEnd {
        /// The client identifier of the end.
        client: Text,
    },
    /// The line of an end is lost on both sides.
    Break {
        /// The client identifier of the end.
        client: Text,
    },
    /// What waits for the session of an end is sent (4.4, 4.9).
    Pump {
        /// The client identifier of the end.
        client: Text,
    },
    /// Time passes.
    Clock {
        /// Milliseconds.
        wait: u64,
    },
    /// The broker looks at the moment.
    Tick,
    /// The broker is closed, and opened again.
    Restart,
    /// The broker stops before the commit of the first step that is asked for, and is opened again.
    StopBefore(Asking),
    /// The broker stops after that commit, nothing goes out, and it is opened again.
    StopAfter(Asking),
    /// Bytes come on a stranger's line.
    Stranger {
        /// The stranger's name, which is no client identifier.
        name: Text,
        /// The bytes.
        bytes: Bytes,
    },
    /// Rounds until the queue of a receiver is empty.
    Drain {
        /// The client identifier of the receiver.
        client: Text,
    },
}

impl Clone for Asking {
    ghost is_clone = { λ asking copy. copy ≡ asking };

    /// Another of the same value; its texts and bytes are shared.
    fn clone(&self) -> Result<Asking, AllocError> {
        Ok(match self {
            Asking::ToBroker { client, old } => Asking::ToBroker {
                client: client.clone()?,
                old: *old,
            },
            Asking::Break { client } => Asking::Break {
                client: client.clone()?,
            },
            Asking::Pump { client } => Asking::Pump {
                client: client.clone()?,
            },
            Asking::Tick => Asking::Tick,
            Asking::Stranger { name, bytes } => Asking::Stranger {
                name: name.clone()?,
                bytes: bytes.clone()?,
            },
        })
    }
}

impl Clone for Event {
    ghost is_clone = { λ event copy. copy ≡ event };

    /// Another of the same value; its texts, payload and bytes are shared.
    fn clone(&self) -> Result<Event, AllocError> {
        Ok(match self {
            Event::Publisher { client } => Event::Publisher {
                client: client.clone()?,
            },
            Event::Receiver {
                client,
                window,
                aliases,
            } => Event::Receiver {
                client: client.clone()?,
                window: *window,
                aliases: *aliases,
            },
            Event::Connect {
                client,
                clean_start,
            } => Event::Connect {
                client: client.clone()?,
                clean_start: *clean_start,
            },
            Event::GiveUp { client } => Event::GiveUp {
                client: client.clone()?,
            },
            Event::Publish { client, draft } => Event::Publish {
                client: client.clone()?,
                draft: draft.clone()?,
            },
            Event::Subscribe { client, wish } => Event::Subscribe {
                client: client.clone()?,
                wish: wish.clone()?,
            },
            Event::ToBroker { client, old } => Event::ToBroker {
                client: client.clone()?,
                old: *old,
            },
            Event::ToEnd { client } => Event::ToEnd {
                client: client.clone()?,
            },
            Event::Break { client } => Event::Break {
                client: client.clone()?,
            },
            Event::Pump { client } => Event::Pump {
                client: client.clone()?,
            },
            Event::Clock { wait } => Event::Clock { wait: *wait },
            Event::Tick => Event::Tick,
            Event::Restart => Event::Restart,
            Event::StopBefore(asking) => Event::StopBefore(asking.clone()?),
            Event::StopAfter(asking) => Event::StopAfter(asking.clone()?),
            Event::Stranger { name, bytes } => Event::Stranger {
                name: name.clone()?,
                bytes: bytes.clone()?,
            },
            Event::Drain { client } => Event::Drain {
                client: client.clone()?,
            },
        })
    }
}

impl Event {
    ghost use Rattle.mqtt_script.specs.Lines.{first_word};

    /// The first word of its line. Takes no memory.
    pub fn first_word(&self) -> &'static str
        ensures { result.now ≡ first_word self.now }
    {
        match self {
            Event::Publisher { .. } => "publisher",
            Event::Receiver { .. } => "receiver",
            Event::Connect { .. } => "connect",
            Event::GiveUp { .. } => "giveup",
            Event::Publish { .. } => "publish",
            Event::Subscribe { .. } => "subscribe",
            Event::ToBroker { .. } => "tobroker",
            Event::ToEnd { .. } => "toend",
            Event::Break { .. } => "break",
            Event::Pump { .. } => "pump",
            Event::Clock { .. } => "clock",
            Event::Tick => "tick",
            Event::Restart => "restart",
            Event::StopBefore(_) => "stopbefore",
            Event::StopAfter(_) => "stopafter",
            Event::Stranger { .. } => "stranger",
            Event::Drain { .. } => "drain",
        }
    }
}
