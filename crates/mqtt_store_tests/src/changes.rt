//! Changes of a short course of a broker: a subscriber and a publisher with copies, a Will and a retained message, to their
//! end. Each kind of change is among them.

use bytes::Bytes;
use mqtt_base::{Cause, CopyId, Phase, Qos, RetainHandling, SubscriptionOptions, Text};
use mqtt_props::PropList;
use mqtt_records::{
    Boxed, Change, Columns, Content, CopyRow, Counter, MessageCopy, PassedOn, RetainedMessage,
    SessionRow, Subscription, SubscriptionIdentifiers, Will,
};
use std::alloc::{AllocError, Global};

/// A text that is one.
fn text(alloc: Global, text: &str) -> Result<Text, AllocError> {
    if !Text::may_hold(text) {
        return Err(AllocError);
    }
    Text::new(alloc, text)
}

/// `hi` to `a/b`.
fn content(alloc: Global) -> Result<Content, AllocError> {
    let topic = text(alloc, "a/b")?;
    match Bytes::copy_from_slice(alloc, b"hi") {
        Ok(payload) => Ok(Content {
            topic,
            properties: PassedOn::new(),
            payload,
            arrived: 0,
        }),
        Err(fault) => {
            drop(topic);
            Err(fault)
        }
    }
}

/// What a session that doesn't expire has in its own row.
fn columns(
    alloc: Global,
    birth: u64,
    client: &str,
    closed: Option<u64>,
) -> Result<Columns, AllocError> {
    Ok(Columns {
        birth,
        client: text(alloc, client)?,
        expiry: u32::MAX,
        closed,
    })
}

/// A session that is connected.
fn session(alloc: Global, birth: u64, client: &str) -> Result<Change, AllocError> {
    let columns = columns(alloc, birth, client, None)?;
    Ok(Change::PutSession {
        row: SessionRow::new(alloc, columns)?,
    })
}

/// The connection of `p1` closes at the moment 0.
fn closed(alloc: Global) -> Result<Change, AllocError> {
    Ok(Change::SetSession {
        row: columns(alloc, 2, "p1", Some(0))?,
    })
}

/// A session subscribes `a/b` at QoS 2. The number of the subscribe is its birth.
fn subscription(alloc: Global, birth: u64) -> Result<Change, AllocError> {
    let subscription = Subscription {
        filter: text(alloc, "a/b")?,
        place: birth,
        options: SubscriptionOptions {
            qos: Qos::ExactlyOnce,
            no_local: false,
            retain_as_published: false,
            retain_handling: RetainHandling::SendAlways,
        },
        identifier: None,
    };
    Ok(Change::PutSubscription {
        birth,
        subscription: Boxed::new(alloc, subscription)?,
    })
}

/// Session 2 unsubscribes it.
fn no_subscription(alloc: Global) -> Result<Change, AllocError> {
    Ok(Change::RemoveSubscription {
        birth: 2,
        filter: text(alloc, "a/b")?,
    })
}

fn message_copy(alloc: Global, publication: u64) -> Result<MessageCopy, AllocError> {
    let content = content(alloc)?;
    Ok(MessageCopy {
        id: CopyId {
            publication,
            birth: 1,
            cause: Cause::Direct,
        },
        qos: Qos::ExactlyOnce,
        retain: false,
        identifiers: SubscriptionIdentifiers::new(alloc),
        content,
    })
}

/// The copy of a publication waits for session 1, at the place of the publication's number.
fn copy(alloc: Global, publication: u64) -> Result<Change, AllocError> {
    let copy = message_copy(alloc, publication)?;
    let Ok(row) = CopyRow::new(alloc, publication, Phase::Waiting, copy) else {
        return Err(AllocError);
    };
    Ok(Change::PutCopy {
        birth: 1,
        row: Boxed::new(alloc, row)?,
    })
}

/// Session 2 has a Will: `gone` to `w` at QoS 1, retained, after 5 seconds (3.1.3).
fn will(alloc: Global) -> Result<Change, AllocError> {
    let topic = text(alloc, "w")?;
    match Bytes::copy_from_slice(alloc, b"gone") {
        Ok(payload) => Ok(Change::PutWill {
            birth: 2,
            will: Will {
                delay: 5,
                qos: Qos::AtLeastOnce,
                retain: true,
                topic,
                properties: PropList::new(),
                payload,
            },
        }),
        Err(fault) => {
            drop(topic);
            Err(fault)
        }
    }
}

/// A message of `p1` that was retained.
fn retained_message(alloc: Global) -> Result<RetainedMessage, AllocError> {
    let sender = text(alloc, "p1")?;
    match content(alloc) {
        Ok(content) => Ok(RetainedMessage {
            place: 1,
            sender,
            publication: 1,
            qos: Qos::ExactlyOnce,
            content,
        }),
        Err(fault) => {
            drop(sender);
            Err(fault)
        }
    }
}

fn retained(alloc: Global) -> Result<Change, AllocError> {
    let kept = retained_message(alloc)?;
    Ok(Change::PutRetained {
        kept: Boxed::new(alloc, kept)?,
    })
}

fn number(counter: Counter, value: u64) -> Change {
    Change::SetCounter { counter, value }
}

/// The first copy comes into a phase.
fn set_copy(phase: Phase) -> Change {
    Change::SetCopy {
        birth: 1,
        place: 1,
        phase,
    }
}

/// The steps of the course: each makes the changes from one number up to another.
pub(crate) const STEPS: [(usize, usize); 11] = [
    (0, 2),
    (2, 4),
    (4, 6),
    (6, 9),
    (9, 10),
    (10, 11),
    (11, 12),
    (12, 17),
    (17, 19),
    (19, 21),
    (21, 25),
];

/// The steps that a subscriber's CONNECT and SUBSCRIBE, a publisher's CONNECT and PUBLISH, and a pump make.
pub(crate) const SENT: usize = 5;

/// The same, a Will and a retained message.
pub(crate) const LONG: usize = 7;

/// A change that takes no memory.
fn plain_change_at(at: usize) -> Change {
    match at {
        1 => number(Counter::Births, 1),
        3 => number(Counter::Subscribes, 1),
        5 => number(Counter::Births, 2),
        6 => number(Counter::Publications, 1),
        7 => Change::PutInbound {
            birth: 2,
            identifier: 10,
        },
        9 => set_copy(Phase::Sent { identifier: 1 }),
        12 => number(Counter::Publications, 2),
        14 => set_copy(Phase::Released {
            identifier: 1,
            order: 1,
        }),
        15 => Change::RemoveInbound {
            birth: 2,
            identifier: 10,
        },
        17 => Change::RemoveCopy { birth: 1, place: 1 },
        18 => Change::RemoveWill { birth: 2 },
        19 => Change::RemoveCopy { birth: 1, place: 2 },
        20 => Change::RemoveSession { birth: 1 },
        22 => number(Counter::Subscribes, 2),
        _ => Change::RemoveRetained { place: 1 },
    }
}

/// A change of the course: `r1` comes (0, 1) and subscribes (2, 3), `p1` comes (4, 5) and publishes under identifier 10
/// (6 to 8), the copy is sent (9), `p1` gives a Will (10) and retains a message (11); it publishes again, the first copy is
/// released, its identifier closes and so does its connection (12 to 16); the first copy and the Will end (17, 18), and the
/// session of `r1` with the second copy (19, 20); `p1` subscribes and unsubscribes, and its retained message goes (21 to 24).
fn change_at(alloc: Global, at: usize) -> Result<Change, AllocError> {
    match at {
        0 => session(alloc, 1, "r1"),
        2 => subscription(alloc, 1),
        4 => session(alloc, 2, "p1"),
        8 => copy(alloc, 1),
        10 => will(alloc),
        11 => retained(alloc),
        13 => copy(alloc, 2),
        16 => closed(alloc),
        21 => subscription(alloc, 2),
        23 => no_subscription(alloc),
        _ => Ok(plain_change_at(at)),
    }
}

/// Adds the changes from one number up to another.
pub(crate) fn add_changes(
    changes: &mut Vec<Change>,
    alloc: Global,
    from: usize,
    to: usize,
) -> Result<(), AllocError> {
    for at in from..to {
        let change = change_at(alloc, at)?;
        changes.push(change)?;
    }
    Ok(())
}
