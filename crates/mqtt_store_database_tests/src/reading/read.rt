//! What is read of sound stores.

use super::database::{empty, fill, first, second};
use mqtt_base::{Cause, Phase, Qos};
use mqtt_records::Records;
use mqtt_store_database::reading::{begin_second, records_in};
use mqtt_store_database::taking_over::first_records_or_refusal;
use mqtt_store_tables::schema::Making;
use std::alloc::Global;
use std::test::Fail;

/// The records of a store with rows.
fn filled(alloc: Global, making: Making) -> Result<Records, Fail> {
    let mut conn = second(alloc, making)?;
    fill(&mut conn)?;
    let records = records_in(alloc, &mut conn, making);
    drop(conn);
    Ok(records?)
}

#[test]
fn numbers_and_sessions_are_read(rt: HostRuntime) -> Result<(), Fail> {
    for making in [Making::New, Making::TakenOver] {
        let records = filled(rt.alloc(), making)?;
        assert_eq!(rt;
            (records.births, records.publications, records.subscribes),
            (2, 2, 2)
        );
        assert_eq!(rt; (records.autos, records.moment), (0, 9));
        assert_eq!(rt; (records.sessions.len(), records.retained.len()), (2, 1));
        let Some(subscriber) = records.sessions.get(1) else {
            panic!(rt; "no subscriber");
        };
        let subscriber = subscriber.get();
        assert!(rt; subscriber.client.as_str() == "r1" && subscriber.will.is_some());
        assert_eq!(rt;
            (subscriber.subscriptions.len(), subscriber.inbound.len()),
            (1, 2)
        );
        assert_eq!(rt; subscriber.queue.len(), 2);
        drop(records);
    }
    Ok(())
}

#[test]
fn copies_are_read_slim(rt: HostRuntime) -> Result<(), Fail> {
    for making in [Making::New, Making::TakenOver] {
        let records = filled(rt.alloc(), making)?;
        let Some(subscriber) = records.sessions.get(1) else {
            panic!(rt; "no subscriber");
        };
        let Some(row) = subscriber.get().queue.get(2) else {
            panic!(rt; "no copy");
        };
        let row = row.get();
        assert_eq!(rt; row.phase(), Phase::Sent { identifier: 1 });
        assert!(rt; row.whole().is_none(), "a slim row");
        assert!(rt; row.id().cause == Cause::Direct && row.qos() == Qos::ExactlyOnce);
        assert_eq!(rt; (row.id().birth, row.id().publication), (1, 2));
        assert_eq!(rt; row.topic().as_str(), "a/b");
        assert_eq!(rt; (row.arrived(), row.expiry()), (8, Some(1)));
        // 02 00000001, 26 0001 k 0001 v, 0b 01, 0b c8 01 (2.2.2.2)
        assert_eq!(rt; (row.pairs(), row.payload_len()), (17, 2));
        // 34 1b 0003 a/b 0001 11 .. hi (3.3)
        assert_eq!(rt; row.size(), 29);
        drop(records);
    }
    Ok(())
}

#[test]
fn retained_messages_are_read_whole(rt: HostRuntime) -> Result<(), Fail> {
    for making in [Making::New, Making::TakenOver] {
        let records = filled(rt.alloc(), making)?;
        let Some(kept) = records.retained.get(3) else {
            panic!(rt; "no retained message");
        };
        let kept = kept.get();
        assert_eq!(rt; (kept.publication, kept.qos), (2, Qos::ExactlyOnce));
        assert_eq!(rt;
            (kept.sender.as_str(), kept.content.topic.as_str()),
            ("p1", "a/b")
        );
        assert_eq!(rt; kept.content.payload.as_slice(), b"hi".as_slice());
        assert_eq!(rt; kept.content.properties.lend().len(), 2);
        drop(records);
    }
    Ok(())
}

#[test]
fn payloads_that_nothing_retains_stay_in_the_store(rt: HostRuntime) -> Result<(), Fail> {
    for making in [Making::New, Making::TakenOver] {
        let records = filled(rt.alloc(), making)?;
        let Some(subscriber) = records.sessions.get(1) else {
            panic!(rt; "no subscriber");
        };
        let Some(row) = subscriber.get().queue.get(1) else {
            panic!(rt; "no copy");
        };
        let row = row.get();
        assert!(rt; row.whole().is_none(), "a slim row");
        assert_eq!(rt; (row.topic().as_str(), row.payload_len()), ("a/c", 1));
        // 32 09 0003 a/c 0001 00 a (3.3)
        assert_eq!(rt; row.size(), 11);
        drop(records);
    }
    Ok(())
}

#[test]
fn a_new_store_has_nothing(rt: HostRuntime) -> Result<(), Fail> {
    for making in [Making::New, Making::TakenOver] {
        let mut conn = second(rt.alloc(), making)?;
        let records = records_in(rt.alloc(), &mut conn, making)?;
        assert_eq!(rt; (records.births, records.sessions.len()), (0, 0));
        assert_eq!(rt; (records.moment, records.retained.len()), (0, 0));
        drop(records);
        drop(conn);
    }
    Ok(())
}

#[test]
fn a_new_store_is_begun(rt: HostRuntime) -> Result<(), Fail> {
    let mut conn = empty(rt.alloc())?;
    let is_settled = conn.is_autocommit();
    if is_settled {
        let records = begin_second(rt.alloc(), &mut conn)?;
        assert_eq!(rt; (records.births, records.sessions.len()), (0, 0));
        drop(records);
    }
    assert!(rt; is_settled);
    let records = records_in(rt.alloc(), &mut conn, Making::New)?;
    assert_eq!(rt; (records.births, records.sessions.len()), (0, 0));
    drop(records);
    drop(conn);
    Ok(())
}

#[test]
fn a_store_of_schema_1_is_read(rt: HostRuntime) -> Result<(), Fail> {
    let mut conn = first(rt.alloc())?;
    conn.execute_batch(
        "INSERT INTO session VALUES (1, 'r1', 60, NULL); UPDATE meta SET n = 1 WHERE name = 'births'",
    )?;
    let records = first_records_or_refusal(rt.alloc(), &mut conn)?;
    assert_eq!(rt; (records.births, records.sessions.len()), (1, 1));
    drop(records);
    drop(conn);
    Ok(())
}
