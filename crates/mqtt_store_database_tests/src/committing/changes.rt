//! Changes of two receivers of one publication, and of the publisher that retains it.

use bytes::Bytes;
use mqtt_base::{Cause, CopyId, Phase, Qos, RetainHandling, SubscriptionOptions, Text};
use mqtt_props::PropList;
use mqtt_records::{
    Boxed, Change, Columns, Content, CopyRow, Counter, MessageCopy, PassedOn, RetainedMessage,
    SessionRow, Subscription, SubscriptionIdentifiers, Will,
};
use std::alloc::{AllocError, Global};

/// A text that is one.
fn text(alloc: Global, text: &str) -> Result<Text, AllocError> {
    if !Text::may_hold(text) {
        return Err(AllocError);
    }
    Text::new(alloc, text)
}

/// `hi` to `a/b`.
pub(crate) fn content(alloc: Global) -> Result<Content, AllocError> {
    let topic = text(alloc, "a/b")?;
    match Bytes::copy_from_slice(alloc, b"hi") {
        Ok(payload) => Ok(Content {
            topic,
            properties: PassedOn::new(),
            payload,
            arrived: 1_000,
        }),
        Err(fault) => {
            drop(topic);
            Err(fault)
        }
    }
}

/// The client of a session: `r1` ..
fn client(alloc: Global, birth: u64) -> Result<Text, AllocError> {
    let name = format!(in alloc; "r{birth}")?;
    let client = text(alloc, name.as_str());
    drop(name);
    client
}

/// The own row of a session that doesn't expire.
fn columns(alloc: Global, birth: u64, closed: Option<u64>) -> Result<Columns, AllocError> {
    Ok(Columns {
        birth,
        client: client(alloc, birth)?,
        expiry: u32::MAX,
        closed,
    })
}

/// A session that is connected.
pub(crate) fn session(alloc: Global, birth: u64) -> Result<Change, AllocError> {
    let columns = columns(alloc, birth, None)?;
    Ok(Change::PutSession {
        row: SessionRow::new(alloc, columns)?,
    })
}

/// The connection of a session closes at the moment 9.
pub(crate) fn closed(alloc: Global, birth: u64) -> Result<Change, AllocError> {
    Ok(Change::SetSession {
        row: columns(alloc, birth, Some(9))?,
    })
}

/// A session subscribes `a/b` at QoS 2.
pub(crate) fn subscription(alloc: Global, birth: u64) -> Result<Change, AllocError> {
    let subscription = Subscription {
        filter: text(alloc, "a/b")?,
        place: birth,
        options: SubscriptionOptions {
            qos: Qos::ExactlyOnce,
            no_local: false,
            retain_as_published: false,
            retain_handling: RetainHandling::SendAlways,
        },
        identifier: Some(5),
    };
    Ok(Change::PutSubscription {
        birth,
        subscription: Boxed::new(alloc, subscription)?,
    })
}

/// It unsubscribes it.
pub(crate) fn no_subscription(alloc: Global, birth: u64) -> Result<Change, AllocError> {
    Ok(Change::RemoveSubscription {
        birth,
        filter: text(alloc, "a/b")?,
    })
}

/// A copy of publication 7 with the Subscription Identifiers 5 and 300.
fn message_copy(alloc: Global, birth: u64) -> Result<MessageCopy, AllocError> {
    let content = content(alloc)?;
    match SubscriptionIdentifiers::from_slice(alloc, &[5, 300]) {
        Ok(identifiers) => Ok(MessageCopy {
            id: CopyId {
                publication: 7,
                birth,
                cause: Cause::Direct,
            },
            qos: Qos::ExactlyOnce,
            retain: false,
            identifiers,
            content,
        }),
        Err(fault) => {
            drop(content);
            Err(fault)
        }
    }
}

/// It waits for a session, at place 1.
pub(crate) fn copy(alloc: Global, birth: u64) -> Result<Change, AllocError> {
    let copy = message_copy(alloc, birth)?;
    let Ok(row) = CopyRow::new(alloc, 1, Phase::Waiting, copy) else {
        return Err(AllocError);
    };
    Ok(Change::PutCopy {
        birth,
        row: Boxed::new(alloc, row)?,
    })
}

/// A session has a Will: `gone` to `w`.
pub(crate) fn will(alloc: Global, birth: u64) -> Result<Change, AllocError> {
    let topic = text(alloc, "w")?;
    match Bytes::copy_from_slice(alloc, b"gone") {
        Ok(payload) => Ok(Change::PutWill {
            birth,
            will: Will {
                delay: 5,
                qos: Qos::AtLeastOnce,
                retain: true,
                topic,
                properties: PropList::new(),
                payload,
            },
        }),
        Err(fault) => {
            drop(topic);
            Err(fault)
        }
    }
}

/// Publication 7 as it is retained.
fn retained_message(alloc: Global) -> Result<RetainedMessage, AllocError> {
    let sender = text(alloc, "p1")?;
    match content(alloc) {
        Ok(content) => Ok(RetainedMessage {
            place: 1,
            sender,
            publication: 7,
            qos: Qos::ExactlyOnce,
            content,
        }),
        Err(fault) => {
            drop(sender);
            Err(fault)
        }
    }
}

/// Publication 7 is retained.
pub(crate) fn retained(alloc: Global) -> Result<Change, AllocError> {
    let kept = retained_message(alloc)?;
    Ok(Change::PutRetained {
        kept: Boxed::new(alloc, kept)?,
    })
}

/// So many publications were numbered.
pub(crate) fn publications(value: u64) -> Change {
    Change::SetCounter {
        counter: Counter::Publications,
        value,
    }
}
