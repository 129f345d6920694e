//! What sound rows say, gathered one after the other.

use super::database::{database, fill, message_rows, slim_in, take_all};
use mqtt_base::{Cause, Phase, Qos};
use mqtt_records::Records;
use mqtt_store_rows::gathering::GatheredMessages;
use std::alloc::Global;
use std::test::Fail;

/// The slim records of the sound rows after a change.
fn slim(alloc: Global, change: &str) -> Result<Records, Fail> {
    let mut conn = database(alloc, change)?;
    let records = slim_in(alloc, &mut conn)?;
    drop(conn);
    Ok(records?)
}

/// What a slim row tells of its copy: bytes of its PUBLISH, of its properties and of its payload.
fn told(records: &Records, place: u64) -> Option<(u32, u32, usize)> {
    let session = records.sessions.get(1)?;
    let row = session.get().queue.get(place)?.get();
    if row.whole().is_some() {
        return None;
    }
    Some((row.size(), row.pairs(), row.payload_len()))
}

#[test]
fn copies_are_slim(rt: HostRuntime) -> Result<(), Fail> {
    let records = slim(rt.alloc(), "")?;
    // 32 09 0003 a/c 0001 00 a (3.3)
    assert_eq!(rt; told(&records, 1), Some((11, 0, 1)));
    // 34 1b 0003 a/b 0001 11 .. hi, with 02 00000001, 26 0001 k 0001 v, 0b 01, 0b c8 01 (3.3, 2.2.2.2)
    assert_eq!(rt; told(&records, 2), Some((29, 17, 2)));
    let Some(session) = records.sessions.get(1) else {
        panic!(rt; "no subscriber");
    };
    let Some(row) = session.get().queue.get(2) else {
        panic!(rt; "no copy");
    };
    let row = row.get();
    assert_eq!(rt; row.topic().as_str(), "a/b");
    assert_eq!(rt; row.phase(), Phase::Sent { identifier: 1 });
    assert!(rt; row.id().cause == Cause::Direct && row.qos() == Qos::ExactlyOnce);
    assert_eq!(rt; (row.id().birth, row.id().publication), (1, 2));
    assert_eq!(rt; (row.arrived(), row.expiry()), (8, Some(1)));
    drop(records);
    Ok(())
}

#[test]
fn retained_messages_are_whole(rt: HostRuntime) -> Result<(), Fail> {
    let records = slim(rt.alloc(), "")?;
    assert_eq!(rt; records.retained.len(), 2);
    let Some(kept) = records.retained.get(3) else {
        panic!(rt; "no retained message");
    };
    let content = &kept.get().content;
    assert_eq!(rt; content.topic.as_str(), "a/d");
    assert_eq!(rt; content.payload.as_slice(), b"kept".as_slice());
    drop(records);
    Ok(())
}

#[test]
fn what_is_retained_stays_whole_beside_a_copy(rt: HostRuntime) -> Result<(), Fail> {
    let records = slim(rt.alloc(), "")?;
    let Some(kept) = records.retained.get(2) else {
        panic!(rt; "no retained message");
    };
    let kept = kept.get();
    assert_eq!(rt; (kept.publication, kept.qos), (2, Qos::ExactlyOnce));
    assert_eq!(rt; kept.content.payload.as_slice(), b"hi".as_slice());
    assert_eq!(rt; kept.content.properties.lend().len(), 2);
    assert_eq!(rt; told(&records, 2), Some((29, 17, 2)), "its copy is slim");
    drop(records);
    Ok(())
}

/// What is told of copy 1 once its payload has so many bytes.
fn told_of(alloc: Global, count: usize) -> Result<Option<(u32, u32, usize)>, Fail> {
    let mut conn = database(alloc, "")?;
    fill(&mut conn, alloc, count)?;
    let records = slim_in(alloc, &mut conn)?;
    drop(conn);
    let records = records?;
    let told = told(&records, 1);
    drop(records);
    Ok(told)
}

#[test]
fn payloads_of_any_length_stay_behind(rt: HostRuntime) -> Result<(), Fail> {
    let alloc = rt.alloc();
    // 9 bytes before the payload, of which 8 count, with a length of 1 or 3 bytes (2.1.4, 3.3)
    assert_eq!(rt; told_of(alloc, 0)?, Some((10, 0, 0)));
    assert_eq!(rt; told_of(alloc, 100_000)?, Some((100_012, 0, 100_000)));
    assert_eq!(rt; told_of(alloc, 199_996)?, Some((200_008, 0, 199_996)));
    Ok(())
}

#[test]
fn messages_are_gathered_by_their_numbers(rt: HostRuntime) -> Result<(), Fail> {
    let alloc = rt.alloc();
    let mut conn = database(alloc, "")?;
    let rows = message_rows(&mut conn)?;
    drop(conn);
    let mut gathered = GatheredMessages::new(alloc, &[])?;
    take_all(&mut gathered, &rows)?;
    let Some(messages) = gathered.into_messages() else {
        panic!(rt; "rows that say no messages");
    };
    assert_eq!(rt; messages.as_slice().len(), 3);
    let Some(message) = messages.get(2) else {
        panic!(rt; "no message");
    };
    assert_eq!(rt; message.payload_len(), 2);
    let content = message.content(5)?;
    assert_eq!(rt; content.topic.as_str(), "a/b");
    assert_eq!(rt;
        content.payload.as_slice(),
        [0, 0].as_slice(),
        "nothing is retained here"
    );
    drop(content);
    drop(messages);
    Ok(())
}
