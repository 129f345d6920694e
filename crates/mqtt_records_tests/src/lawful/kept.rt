//! Records of two sessions, with a few words changed from case to case.

use bytes::Bytes;
use mqtt_base::{Cause, CopyId, Phase, Qos, RetainHandling, SubscriptionOptions, Text};
use mqtt_keep::is_lawful;
use mqtt_props::{PropFault, PropList, PropName, PropRef, ValueRef};
use mqtt_records::{
    Boxed, Columns, Content, CopyRow, MessageCopy, PassedOn, Records, RetainedMessage, Session,
    SessionRow, Subscription, SubscriptionIdentifiers, Will,
};
use std::alloc::{AllocError, Global};

/// A copy in the first session's queue.
#[derive(Clone, Copy)]
pub struct Copied {
    pub place: u64,
    pub publication: u64,
    pub birth: u64,
    /// The group; none if the copy is of a retained message.
    pub group: Option<&'static str>,
    pub subscribe: u64,
    pub identifier: u32,
    pub qos: Qos,
    pub phase: Phase,
    pub content: Said,
}

/// What a message says.
#[derive(Clone, Copy)]
pub struct Said {
    pub topic: &'static str,
    /// How often Payload Format Indicator stands.
    pub indicators: u8,
    /// Bytes of the payload.
    pub payload: usize,
    pub arrived: u64,
}

/// Two sessions, subscriptions of the first, a subscription of the second, two copies, two retained
/// messages.
#[derive(Clone, Copy)]
pub struct Kept {
    /// Births, publications, subscribes, autos and moment.
    pub numbers: [u64; 5],
    pub clients: [&'static str; 2],
    pub closed: Option<u64>,
    pub will: Said,
    pub filters: [&'static str; 2],
    pub places: [u64; 3],
    pub identifier: Option<u32>,
    pub open: u16,
    pub copies: [Copied; 2],
    pub retained: [Said; 2],
    pub retained_place: u64,
    pub retained_publications: [u64; 2],
}

/// What is sent.
pub const SAID: Said = Said {
    topic: "a/b",
    indicators: 1,
    payload: 2,
    arrived: 50,
};

/// A copy that was handed over.
pub const RELEASED: Copied = Copied {
    place: 1,
    publication: 4,
    birth: 1,
    group: Some("g/a/b"),
    subscribe: 0,
    identifier: 7,
    qos: Qos::ExactlyOnce,
    phase: Phase::Released {
        identifier: 1,
        order: 1,
    },
    content: SAID,
};

/// A copy of a retained message that was sent.
pub const SENT: Copied = Copied {
    place: 2,
    publication: 3,
    group: None,
    subscribe: 4,
    qos: Qos::AtLeastOnce,
    phase: Phase::Sent { identifier: 2 },
    ..RELEASED
};

/// Records that keep every rule.
pub const SOUND: Kept = Kept {
    numbers: [2, 4, 4, 12, 50],
    clients: ["r1", "auto-12"],
    closed: Some(50),
    will: SAID,
    filters: ["$share/g/a/b", "a/+"],
    places: [1, 2, 4],
    identifier: Some(7),
    open: 10,
    copies: [RELEASED, SENT],
    retained: [SAID, Said { topic: "c", ..SAID }],
    retained_place: 9,
    retained_publications: [1, 2],
};

/// A text that is one.
fn text(alloc: Global, text: &str) -> Result<Text, AllocError> {
    if !Text::may_hold(text) {
        return Err(AllocError);
    }
    Text::new(alloc, text)
}

fn payload(alloc: Global, len: usize) -> Result<Bytes, AllocError> {
    let mut bytes = Vec::new(alloc);
    bytes.resize(len, b'x')?;
    let payload = Bytes::copy_from_slice(alloc, &bytes);
    drop(bytes);
    payload
}

fn push_indicators(list: &mut PropList, alloc: Global, count: u8) -> Result<(), PropFault> {
    for _ in 0..count {
        let prop = PropRef {
            name: PropName::PayloadFormatIndicator,
            value: ValueRef::Byte(1),
        };
        list.push(alloc, prop)?;
    }
    Ok(())
}

fn properties(alloc: Global, indicators: u8) -> Result<PropList, AllocError> {
    let mut list = PropList::new();
    match push_indicators(&mut list, alloc, indicators) {
        Ok(()) => Ok(list),
        Err(_) => {
            drop(list);
            Err(AllocError)
        }
    }
}

fn passed_on(alloc: Global, indicators: u8) -> Result<PassedOn, AllocError> {
    match PassedOn::from_list(properties(alloc, indicators)?) {
        Some(passed) => Ok(passed),
        None => Err(AllocError),
    }
}

fn topic_and_payload(alloc: Global, said: Said) -> Result<(Text, Bytes), AllocError> {
    let topic = text(alloc, said.topic)?;
    match payload(alloc, said.payload) {
        Ok(payload) => Ok((topic, payload)),
        Err(fault) => {
            drop(topic);
            Err(fault)
        }
    }
}

fn content(alloc: Global, said: Said) -> Result<Content, AllocError> {
    let properties = passed_on(alloc, said.indicators)?;
    match topic_and_payload(alloc, said) {
        Ok((topic, payload)) => Ok(Content {
            topic,
            properties,
            payload,
            arrived: said.arrived,
        }),
        Err(fault) => {
            drop(properties);
            Err(fault)
        }
    }
}

fn will(alloc: Global, said: Said) -> Result<Will, AllocError> {
    let properties = properties(alloc, said.indicators)?;
    match topic_and_payload(alloc, said) {
        Ok((topic, payload)) => Ok(Will {
            delay: 5,
            qos: Qos::AtLeastOnce,
            retain: true,
            topic,
            properties,
            payload,
        }),
        Err(fault) => {
            drop(properties);
            Err(fault)
        }
    }
}

fn subscription(
    alloc: Global,
    filter: &str,
    place: u64,
    identifier: Option<u32>,
) -> Result<Boxed<Subscription>, AllocError> {
    let subscription = Subscription {
        filter: text(alloc, filter)?,
        place,
        options: SubscriptionOptions {
            qos: Qos::ExactlyOnce,
            no_local: false,
            retain_as_published: false,
            retain_handling: RetainHandling::SendAlways,
        },
        identifier,
    };
    Boxed::new(alloc, subscription)
}

fn cause(alloc: Global, copied: Copied) -> Result<Cause, AllocError> {
    match copied.group {
        Some(group) => Ok(Cause::Share {
            group: text(alloc, group)?,
        }),
        None => Ok(Cause::Retained {
            subscribe: copied.subscribe,
        }),
    }
}

fn identity(alloc: Global, copied: Copied) -> Result<CopyId, AllocError> {
    Ok(CopyId {
        publication: copied.publication,
        birth: copied.birth,
        cause: cause(alloc, copied)?,
    })
}

fn said_and_identity(alloc: Global, copied: Copied) -> Result<(Content, CopyId), AllocError> {
    let content = content(alloc, copied.content)?;
    match identity(alloc, copied) {
        Ok(id) => Ok((content, id)),
        Err(fault) => {
            drop(content);
            Err(fault)
        }
    }
}

fn message_copy(alloc: Global, copied: Copied) -> Result<MessageCopy, AllocError> {
    let identifiers = SubscriptionIdentifiers::from_slice(alloc, &[copied.identifier])?;
    match said_and_identity(alloc, copied) {
        Ok((content, id)) => Ok(MessageCopy {
            id,
            qos: copied.qos,
            retain: false,
            identifiers,
            content,
        }),
        Err(fault) => {
            drop(identifiers);
            Err(fault)
        }
    }
}

fn copy(alloc: Global, copied: Copied) -> Result<Boxed<CopyRow>, AllocError> {
    let copy = message_copy(alloc, copied)?;
    match CopyRow::new(alloc, copied.place, copied.phase, copy) {
        Ok(row) => Boxed::new(alloc, row),
        Err(_) => Err(AllocError),
    }
}

fn retained(
    alloc: Global,
    said: Said,
    place: u64,
    publication: u64,
) -> Result<Boxed<RetainedMessage>, AllocError> {
    let content = content(alloc, said)?;
    let sender = match text(alloc, "p1") {
        Ok(sender) => sender,
        Err(fault) => {
            drop(content);
            return Err(fault);
        }
    };
    let kept = RetainedMessage {
        place,
        sender,
        publication,
        qos: Qos::ExactlyOnce,
        content,
    };
    Boxed::new(alloc, kept)
}

fn empty_session(
    alloc: Global,
    birth: u64,
    client: &str,
    closed: Option<u64>,
) -> Result<Session, AllocError> {
    let columns = Columns {
        birth,
        client: text(alloc, client)?,
        expiry: 60,
        closed,
    };
    let row = SessionRow::new(alloc, columns)?;
    Ok(row.into_session().into_row())
}

fn fill_first(session: &mut Session, alloc: Global, kept: Kept) -> Result<(), AllocError> {
    session.will = Some(will(alloc, kept.will)?);
    let shared = subscription(alloc, kept.filters[0], kept.places[0], kept.identifier)?;
    session.subscriptions.put(shared);
    let own = subscription(alloc, kept.filters[1], kept.places[1], None)?;
    session.subscriptions.put(own);
    session.inbound.put(kept.open);
    let first = copy(alloc, kept.copies[0])?;
    session.queue.put(first);
    let second = copy(alloc, kept.copies[1])?;
    session.queue.put(second);
    Ok(())
}

fn first_session(alloc: Global, kept: Kept) -> Result<Boxed<Session>, AllocError> {
    let mut session = empty_session(alloc, 1, kept.clients[0], kept.closed)?;
    match fill_first(&mut session, alloc, kept) {
        Ok(()) => Boxed::new(alloc, session),
        Err(fault) => {
            drop(session);
            Err(fault)
        }
    }
}

fn second_session(alloc: Global, kept: Kept) -> Result<Boxed<Session>, AllocError> {
    let mut session = empty_session(alloc, 2, kept.clients[1], None)?;
    match subscription(alloc, "#", kept.places[2], None) {
        Ok(subscription) => {
            session.subscriptions.put(subscription);
            Boxed::new(alloc, session)
        }
        Err(fault) => {
            drop(session);
            Err(fault)
        }
    }
}

fn fill(records: &mut Records, alloc: Global, kept: Kept) -> Result<(), AllocError> {
    let first = first_session(alloc, kept)?;
    records.sessions.put(first);
    let second = second_session(alloc, kept)?;
    records.sessions.put(second);
    let [first, second] = kept.retained_publications;
    let one = retained(alloc, kept.retained[0], 1, first)?;
    records.retained.put(one);
    let other = retained(alloc, kept.retained[1], kept.retained_place, second)?;
    records.retained.put(other);
    Ok(())
}

/// Whether records that are made so are lawful.
pub fn judge(alloc: Global, kept: Kept) -> Result<bool, AllocError> {
    let mut records = Records::new(alloc)?;
    records.births = kept.numbers[0];
    records.publications = kept.numbers[1];
    records.subscribes = kept.numbers[2];
    records.autos = kept.numbers[3];
    records.moment = kept.numbers[4];
    let filled = fill(&mut records, alloc, kept);
    let lawful = is_lawful(alloc, &records);
    drop(records);
    match filled {
        Ok(()) => lawful,
        Err(fault) => Err(fault),
    }
}
