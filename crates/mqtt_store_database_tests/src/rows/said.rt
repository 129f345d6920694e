//! What sound rows say.

use super::database::{Refused, after, database, message_rows, messages_of, records_of, tables};
use bytes::Bytes;
use mqtt_base::{Cause, Phase, Qos};
use mqtt_keep::KeepError;
use mqtt_records::Records;
use mqtt_store_rows::rows::{content_at, heads_of, message_of};
use std::alloc::Global;
use std::test::Fail;

/// The records that the sound rows say.
fn said(alloc: Global) -> Result<Result<Records, Refused>, Fail> {
    let mut conn = database(alloc)?;
    let rows = after(&mut conn, alloc, "", None)?;
    drop(conn);
    Ok(records_of(alloc, rows))
}

/// The sessions without queues that rows say after a change.
fn heads(alloc: Global, change: &str) -> Result<Records, Fail> {
    let mut conn = database(alloc)?;
    conn.execute_batch(change)?;
    let rows = message_rows(&mut conn)?;
    let tables = tables(&mut conn)?;
    drop(conn);
    let messages = messages_of(alloc, &rows)?;
    let records = heads_of(alloc, &messages, &tables);
    drop(messages);
    drop(tables);
    Ok(records?)
}

#[test]
fn heads_say_numbers_and_sessions(rt: HostRuntime) -> Result<(), Fail> {
    let records = heads(rt.alloc(), "")?;
    assert_eq!(rt;
        (records.births, records.publications, records.subscribes),
        (2, 2, 2)
    );
    assert_eq!(rt; (records.autos, records.moment), (0, 9));
    assert_eq!(rt; (records.sessions.len(), records.retained.len()), (2, 1));
    let Some(subscriber) = records.sessions.get(2) else {
        panic!(rt; "no subscriber");
    };
    let subscriber = subscriber.get();
    assert_eq!(rt; subscriber.client.as_str(), "r2");
    assert_eq!(rt; (subscriber.expiry, subscriber.closed), (60, Some(7)));
    assert!(rt; subscriber.will.is_none());
    assert_eq!(rt;
        (subscriber.subscriptions.len(), subscriber.queue.len()),
        (1, 0)
    );
    drop(records);
    Ok(())
}

#[test]
fn heads_say_wills_and_open_identifiers(rt: HostRuntime) -> Result<(), Fail> {
    let records = heads(
        rt.alloc(),
        "INSERT INTO will VALUES (1, 10, 'gone', 1, 1, x'00', x'77'); INSERT INTO inbound VALUES (1, 3), (1, 10)",
    )?;
    let Some(subscriber) = records.sessions.get(1) else {
        panic!(rt; "no subscriber");
    };
    let subscriber = subscriber.get();
    let Some(will) = &subscriber.will else {
        panic!(rt; "no Will");
    };
    assert_eq!(rt; (will.delay, will.topic.as_str()), (10, "gone"));
    assert!(rt; will.retain && will.qos == Qos::AtLeastOnce);
    assert_eq!(rt; will.payload.as_slice(), b"w".as_slice());
    assert_eq!(rt; subscriber.inbound.as_slice(), [3, 10].as_slice());
    assert_eq!(rt; subscriber.queue.len(), 0);
    drop(records);
    Ok(())
}

#[test]
fn heads_say_what_is_retained(rt: HostRuntime) -> Result<(), Fail> {
    // (neither copies nor messages of copies are asked for)
    let records = heads(rt.alloc(), "DELETE FROM message WHERE pub = 1")?;
    let Some(kept) = records.retained.get(3) else {
        panic!(rt; "no retained message");
    };
    let kept = kept.get();
    assert_eq!(rt; (kept.publication, kept.qos), (2, Qos::ExactlyOnce));
    assert_eq!(rt;
        (kept.sender.as_str(), kept.content.topic.as_str()),
        ("p1", "a/b")
    );
    assert_eq!(rt; kept.content.payload.as_slice(), b"hi".as_slice());
    assert_eq!(rt; kept.content.properties.lend().len(), 2);
    drop(records);
    Ok(())
}

#[test]
fn copies_say_what_their_messages_say(rt: HostRuntime) -> Result<(), Fail> {
    let Ok(records) = said(rt.alloc())? else {
        panic!(rt; "no records");
    };
    let Some(subscriber) = records.sessions.get(1) else {
        panic!(rt; "no subscriber");
    };
    let Some(other) = subscriber.get().queue.get(1) else {
        panic!(rt; "no copy");
    };
    let Some(copy) = other.get().whole() else {
        panic!(rt; "a copy that isn't whole");
    };
    let content = &copy.content;
    assert_eq!(rt;
        (content.topic.as_str(), content.payload.is_unique()),
        ("a/c", true)
    );
    let Some(row) = subscriber.get().queue.get(2) else {
        panic!(rt; "no second copy");
    };
    let row = row.get();
    assert_eq!(rt; row.phase(), Phase::Sent { identifier: 1 });
    let Some(copy) = row.whole() else {
        panic!(rt; "a copy that isn't whole");
    };
    assert_eq!(rt;
        (copy.id.birth, copy.id.publication, copy.qos),
        (1, 2, Qos::ExactlyOnce)
    );
    assert!(rt; copy.id.cause == Cause::Direct && !copy.retain);
    assert_eq!(rt; copy.identifiers.as_slice(), [1, 200].as_slice());
    assert_eq!(rt; copy.content.topic.as_str(), "a/b");
    assert_eq!(rt; copy.content.properties.lend().len(), 2);
    assert_eq!(rt; copy.content.payload.as_slice(), b"hi".as_slice());
    assert_eq!(rt;
        (copy.content.arrived, copy.content.payload.is_unique()),
        (8, false)
    );
    drop(records);
    Ok(())
}

#[test]
fn what_is_said_once_is_said_to_all(rt: HostRuntime) -> Result<(), Fail> {
    let Ok(records) = said(rt.alloc())? else {
        panic!(rt; "no records");
    };
    let Some(subscriber) = records.sessions.get(2) else {
        panic!(rt; "no subscriber");
    };
    let Some(row) = subscriber.get().queue.get(1) else {
        panic!(rt; "no copy");
    };
    let Some(copy) = row.get().whole() else {
        panic!(rt; "a copy that isn't whole");
    };
    assert!(rt; copy.id.cause == Cause::Retained { subscribe: 2 } && copy.retain);
    assert_eq!(rt; copy.identifiers.as_slice().len(), 0);
    assert_eq!(rt;
        (copy.content.topic.as_str(), copy.content.arrived),
        ("a/b", 9)
    );
    let Some(kept) = records.retained.get(3) else {
        panic!(rt; "no retained message");
    };
    let kept = kept.get();
    assert_eq!(rt; (kept.publication, kept.qos), (2, Qos::ExactlyOnce));
    assert_eq!(rt;
        (kept.sender.as_str(), kept.content.topic.as_str()),
        ("p1", "a/b")
    );
    assert_eq!(rt; (kept.content.payload.len(), kept.content.arrived), (2, 8));
    assert!(rt; !kept.content.payload.is_unique() && !copy.content.payload.is_unique());
    drop(records);
    Ok(())
}

#[test]
fn messages_stand_by_their_numbers(rt: HostRuntime) -> Result<(), Fail> {
    let alloc = rt.alloc();
    let mut conn = database(alloc)?;
    let rows = message_rows(&mut conn)?;
    drop(conn);
    let mut messages = messages_of(alloc, &rows)?;
    assert_eq!(rt; messages.as_slice().len(), 2);
    assert!(rt; messages.get(1).is_some() && messages.get(3).is_none());
    for row in &rows {
        let message = message_of(alloc, row)?;
        let is_added = messages.push(message)?;
        assert!(rt; !is_added, "a number that is not above all others");
    }
    assert_eq!(rt; messages.as_slice().len(), 2);
    drop(messages);
    Ok(())
}

#[test]
fn a_message_says_another_payload(rt: HostRuntime) -> Result<(), Fail> {
    let alloc = rt.alloc();
    let mut conn = database(alloc)?;
    let rows = message_rows(&mut conn)?;
    drop(conn);
    let Some(row) = rows.get(1) else {
        panic!(rt; "no row");
    };
    let mut message = message_of(alloc, row)?;
    assert_eq!(rt; message.payload_len(), 2);
    message.set_payload(Bytes::copy_from_slice(alloc, b"hello")?);
    assert_eq!(rt; message.payload_len(), 5);
    let content = message.content(7)?;
    drop(message);
    assert_eq!(rt; content.payload.as_slice(), b"hello".as_slice());
    assert_eq!(rt; (content.topic.as_str(), content.arrived), ("a/b", 7));
    drop(content);
    Ok(())
}

#[test]
fn a_content_is_found_by_its_number(rt: HostRuntime) -> Result<(), Fail> {
    let alloc = rt.alloc();
    let mut conn = database(alloc)?;
    let rows = message_rows(&mut conn)?;
    drop(conn);
    let messages = messages_of(alloc, &rows)?;
    let content = content_at(&messages, 2, 5)?;
    assert_eq!(rt; (content.topic.as_str(), content.arrived), ("a/b", 5));
    assert!(rt; !content.payload.is_unique(), "bytes of its own");
    drop(content);
    for number in [0, 3] {
        let found = content_at(&messages, number, 5);
        assert_eq!(rt; found.err(), Some(KeepError::Corrupt));
    }
    drop(messages);
    Ok(())
}
