//! Records of copies in two queues and of retained messages.

use bytes::Bytes;
use mqtt_base::{Cause, CopyId, Phase, Qos, Text};
use mqtt_keep::shares_contents;
use mqtt_props::{PropFault, PropList, PropRef};
use mqtt_records::{
    Boxed, Columns, Content, CopyRow, MessageCopy, PassedOn, Records, RetainedMessage, Session,
    SessionRow, SubscriptionIdentifiers,
};
use std::alloc::{AllocError, Global};

/// At most one of each kind that is passed on, in their order.
pub type Properties = [Option<PropRef<'static>>; 6];

/// What is said under the number of a publication.
#[derive(Clone, Copy)]
pub struct Said {
    pub publication: u64,
    pub topic: &'static str,
    pub properties: Properties,
    pub payload: &'static [u8],
    pub arrived: u64,
}

/// A text that is one.
fn text(alloc: Global, text: &str) -> Result<Text, AllocError> {
    if !Text::may_hold(text) {
        return Err(AllocError);
    }
    Text::new(alloc, text)
}

fn push_all(
    list: &mut PropList,
    alloc: Global,
    properties: &[Option<PropRef<'static>>],
) -> Result<(), PropFault> {
    for property in properties {
        if let Some(property) = property {
            list.push(alloc, *property)?;
        }
    }
    Ok(())
}

fn passed_on(alloc: Global, properties: Properties) -> Result<PassedOn, AllocError> {
    let mut list = PropList::new();
    if push_all(&mut list, alloc, &properties).is_err() {
        drop(list);
        return Err(AllocError);
    }
    match PassedOn::from_list(list) {
        Some(passed) => Ok(passed),
        None => Err(AllocError),
    }
}

fn topic_and_payload(alloc: Global, said: Said) -> Result<(Text, Bytes), AllocError> {
    let topic = text(alloc, said.topic)?;
    match Bytes::copy_from_slice(alloc, said.payload) {
        Ok(payload) => Ok((topic, payload)),
        Err(fault) => {
            drop(topic);
            Err(fault)
        }
    }
}

fn content(alloc: Global, said: Said) -> Result<Content, AllocError> {
    let properties = passed_on(alloc, said.properties)?;
    match topic_and_payload(alloc, said) {
        Ok((topic, payload)) => Ok(Content {
            topic,
            properties,
            payload,
            arrived: said.arrived,
        }),
        Err(fault) => {
            drop(properties);
            Err(fault)
        }
    }
}

fn copy(alloc: Global, birth: u64, place: u64, said: Said) -> Result<Boxed<CopyRow>, AllocError> {
    let copy = MessageCopy {
        id: CopyId {
            publication: said.publication,
            birth,
            cause: Cause::Direct,
        },
        qos: Qos::AtLeastOnce,
        retain: false,
        identifiers: SubscriptionIdentifiers::new(alloc),
        content: content(alloc, said)?,
    };
    match CopyRow::new(alloc, place, Phase::Waiting, copy) {
        Ok(row) => Boxed::new(alloc, row),
        Err(_) => Err(AllocError),
    }
}

fn retained(alloc: Global, place: u64, said: Said) -> Result<Boxed<RetainedMessage>, AllocError> {
    let content = content(alloc, said)?;
    let sender = match text(alloc, "p1") {
        Ok(sender) => sender,
        Err(fault) => {
            drop(content);
            return Err(fault);
        }
    };
    let kept = RetainedMessage {
        place,
        sender,
        publication: said.publication,
        qos: Qos::AtLeastOnce,
        content,
    };
    Boxed::new(alloc, kept)
}

fn empty_session(alloc: Global, birth: u64, client: &str) -> Result<Session, AllocError> {
    let columns = Columns {
        birth,
        client: text(alloc, client)?,
        expiry: 60,
        closed: None,
    };
    let row = SessionRow::new(alloc, columns)?;
    Ok(row.into_session().into_row())
}

fn fill_queue(session: &mut Session, alloc: Global, copies: &[Said]) -> Result<(), AllocError> {
    let birth = session.birth;
    let mut place = 0;
    for said in copies {
        if place < 1_000 {
            place += 1;
        }
        let row = copy(alloc, birth, place, *said)?;
        session.queue.put(row);
    }
    Ok(())
}

fn session(
    alloc: Global,
    birth: u64,
    client: &str,
    copies: &[Said],
) -> Result<Boxed<Session>, AllocError> {
    let mut session = empty_session(alloc, birth, client)?;
    match fill_queue(&mut session, alloc, copies) {
        Ok(()) => Boxed::new(alloc, session),
        Err(fault) => {
            drop(session);
            Err(fault)
        }
    }
}

fn fill(
    records: &mut Records,
    alloc: Global,
    one: &[Said],
    other: &[Said],
    kept: &[Said],
) -> Result<(), AllocError> {
    let first = session(alloc, 1, "r1", one)?;
    records.sessions.put(first);
    let second = session(alloc, 2, "r2", other)?;
    records.sessions.put(second);
    let mut place = 0;
    for said in kept {
        if place < 1_000 {
            place += 1;
        }
        let message = retained(alloc, place, *said)?;
        records.retained.put(message);
    }
    Ok(())
}

/// Whether records of two queues and these retained messages share contents.
pub fn shares(
    alloc: Global,
    one: &[Said],
    other: &[Said],
    kept: &[Said],
) -> Result<bool, AllocError> {
    let mut records = Records::new(alloc)?;
    let filled = fill(&mut records, alloc, one, other, kept);
    let shared = shares_contents(alloc, &records);
    drop(records);
    match filled {
        Ok(()) => shared,
        Err(fault) => Err(fault),
    }
}
