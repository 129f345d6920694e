//! What sound rows say.

use super::database::{database, tables};
use mqtt_base::{Cause, Phase, Qos, RetainHandling};
use mqtt_store_rows::taking_over::records_of;
use std::test::Fail;

#[test]
fn rows_say_numbers_and_sessions(rt: HostRuntime) -> Result<(), Fail> {
    let mut conn = database(rt.alloc())?;
    let tables = tables(&mut conn)?;
    let records = records_of(rt.alloc(), &tables)?;
    assert_eq!(rt;
        (records.births, records.publications, records.subscribes),
        (2, 2, 1)
    );
    assert_eq!(rt; (records.autos, records.moment), (0, 9));
    assert_eq!(rt; (records.sessions.len(), records.retained.len()), (2, 1));
    let Some(subscriber) = records.sessions.get(1) else {
        panic!(rt; "no subscriber");
    };
    let subscriber = subscriber.get();
    assert_eq!(rt; subscriber.client.as_str(), "r1");
    assert_eq!(rt; (subscriber.expiry, subscriber.closed), (u32::MAX, None));
    assert!(rt; subscriber.will.is_none());
    let Some(publisher) = records.sessions.get(2) else {
        panic!(rt; "no publisher");
    };
    let publisher = publisher.get();
    assert_eq!(rt; publisher.closed, Some(7));
    assert_eq!(rt; publisher.inbound.as_slice(), [10, 65_535].as_slice());
    drop(records);
    drop(tables);
    drop(conn);
    Ok(())
}

#[test]
fn rows_say_a_subscription_and_a_copy(rt: HostRuntime) -> Result<(), Fail> {
    let mut conn = database(rt.alloc())?;
    let tables = tables(&mut conn)?;
    let records = records_of(rt.alloc(), &tables)?;
    let Some(subscriber) = records.sessions.get(1) else {
        panic!(rt; "no subscriber");
    };
    let Some(subscription) = subscriber.get().subscriptions.at(0) else {
        panic!(rt; "no subscription");
    };
    let subscription = subscription.get();
    assert_eq!(rt; subscription.filter.as_str(), "a/b");
    assert_eq!(rt;
        (subscription.place, subscription.identifier),
        (1, Some(268_435_455))
    );
    assert!(rt; !subscription.options.no_local && subscription.options.retain_as_published);
    assert_eq!(rt;
        subscription.options.retain_handling,
        RetainHandling::SendIfNew
    );
    let Some(row) = subscriber.get().queue.at(0) else {
        panic!(rt; "no copy");
    };
    let row = row.get();
    assert_eq!(rt;
        (row.place(), row.phase()),
        (1, Phase::Sent { identifier: 1 })
    );
    let Some(copy) = row.whole() else {
        panic!(rt; "a copy that isn't whole");
    };
    assert_eq!(rt;
        (copy.id.birth, copy.id.publication, copy.qos),
        (1, 1, Qos::ExactlyOnce)
    );
    assert!(rt; copy.id.cause == Cause::Direct);
    assert_eq!(rt; copy.identifiers.as_slice(), [1, 2].as_slice());
    assert_eq!(rt; copy.content.properties.lend().len(), 1);
    assert_eq!(rt; copy.content.payload.as_slice(), b"hi".as_slice());
    drop(records);
    drop(tables);
    drop(conn);
    Ok(())
}

#[test]
fn rows_say_a_will_and_a_retained_message(rt: HostRuntime) -> Result<(), Fail> {
    let mut conn = database(rt.alloc())?;
    let tables = tables(&mut conn)?;
    let records = records_of(rt.alloc(), &tables)?;
    let Some(publisher) = records.sessions.get(2) else {
        panic!(rt; "no publisher");
    };
    let Some(will) = &publisher.get().will else {
        panic!(rt; "no Will");
    };
    assert_eq!(rt;
        (will.delay, will.qos, will.retain),
        (10, Qos::AtLeastOnce, true)
    );
    assert_eq!(rt; will.topic.as_str(), "gone");
    assert_eq!(rt; will.payload.as_slice(), b"by".as_slice());
    let Some(kept) = records.retained.get(3) else {
        panic!(rt; "no retained message");
    };
    let kept = kept.get();
    assert_eq!(rt; (kept.publication, kept.qos), (2, Qos::AtMostOnce));
    assert_eq!(rt;
        (kept.sender.as_str(), kept.content.topic.as_str()),
        ("p1", "a/b")
    );
    assert_eq!(rt;
        (kept.content.properties.lend().len(), kept.content.arrived),
        (1, 9)
    );
    drop(records);
    drop(tables);
    drop(conn);
    Ok(())
}
