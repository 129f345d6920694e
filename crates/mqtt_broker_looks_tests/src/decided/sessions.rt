//! When Wills and ends are due, what has expired, and the filters of a session (3.1.3.2.2, 3.8.4).

use bytes::Bytes;
use mqtt_base::{Qos, RetainHandling, SubscriptionOptions, Text};
use mqtt_broker_looks::decided::{
    end_due, expiry_due, has_due_end, has_due_will, has_filter, has_lapsed, interval_due,
    is_brought, is_expired, is_new, is_new_id, is_past, is_settled, is_stale, place_among,
    retained_copy, seconds_waited, settling_due, subscription_of, will_due,
};
use mqtt_props::{PropList, PropName, PropRef, ValueRef};
use mqtt_records::{
    Boxed, Columns, Content, PassedOn, RetainedMessage, Session, SessionRow, Subscription, Will,
};
use std::alloc::{AllocError, Global};
use std::process::Abort;
use std::test::Fail;

/// A text that is one.
fn text(alloc: Global, text: &str) -> Result<Text, AllocError> {
    if !Text::may_hold(text) {
        return Err(AllocError);
    }
    Text::new(alloc, text)
}

/// A Will that waits for ten seconds.
fn will(alloc: Global) -> Result<Will, AllocError> {
    Ok(Will {
        delay: 10,
        qos: Qos::AtLeastOnce,
        retain: false,
        topic: text(alloc, "a/b")?,
        properties: PropList::new(),
        payload: Bytes::new(),
    })
}

/// A session of `r1` that expires five seconds after it closes.
fn session(alloc: Global, closed: Option<u64>) -> Result<Session, AllocError> {
    let columns = Columns {
        birth: 1,
        client: text(alloc, "r1")?,
        expiry: 5,
        closed,
    };
    Ok(SessionRow::new(alloc, columns)?.into_session().into_row())
}

#[test]
fn the_session_ends_before_the_will_delay(rt: HostRuntime) -> Result<(), Fail> {
    let alloc = rt.alloc();
    assert_eq!(rt; end_due(Some(0), 5), Some(5_000));
    assert_eq!(rt; end_due(Some(0), 0xffff_ffff), None);
    assert_eq!(rt; end_due(None, 5), None);
    let kept = Some(will(alloc)?);
    assert_eq!(rt; will_due(Some(0), 5, &kept), Some(5_000));
    assert_eq!(rt; will_due(Some(0), 60, &kept), Some(10_000));
    assert_eq!(rt; will_due(None, 5, &kept), None);
    drop(kept);
    Ok(())
}

#[test]
fn a_closed_session_is_settled_until_then(rt: HostRuntime) -> Result<(), Fail> {
    let alloc = rt.alloc();
    let closed = session(alloc, Some(0))?;
    assert!(rt; is_settled(4_999, &closed), "a millisecond before");
    assert!(rt; !is_settled(5_000, &closed), "it ends");
    assert_eq!(rt; settling_due(&closed), Some(5_000));
    assert!(rt; has_due_end(5_000, &closed), "its end is due");
    assert!(rt; !has_due_will(5_000, &closed), "it has no Will");
    assert!(rt; !has_lapsed(5_000, &closed), "nothing is queued");
    drop(closed);
    let connected = session(alloc, None)?;
    assert!(rt; is_settled(5_000, &connected), "it is connected");
    drop(connected);
    Ok(())
}

/// `hi` to `a/b`, accepted at the first moment, for five seconds.
fn content(alloc: Global) -> Result<Content, Fail> {
    let mut list = PropList::new();
    let value = ValueRef::U32(5);
    list.push(
        alloc,
        PropRef {
            name: PropName::MessageExpiryInterval,
            value,
        },
    )?;
    let properties = PassedOn::of(alloc, &list.lend());
    drop(list);
    let properties = properties?;
    let topic = text(alloc, "a/b")?;
    Ok(Content {
        topic,
        properties,
        payload: Bytes::copy_from_slice(alloc, b"hi")?,
        arrived: 0,
    })
}

/// The same, retained for `p1`.
fn kept(alloc: Global) -> Result<RetainedMessage, Fail> {
    let content = content(alloc)?;
    Ok(RetainedMessage {
        place: 1,
        sender: text(alloc, "p1")?,
        publication: 3,
        qos: Qos::ExactlyOnce,
        content,
    })
}

const OPTIONS: SubscriptionOptions = SubscriptionOptions {
    qos: Qos::AtLeastOnce,
    no_local: true,
    retain_as_published: false,
    retain_handling: RetainHandling::SendAlways,
};

#[test]
fn a_retained_message_is_brought_until_it_expires(rt: HostRuntime) -> Result<(), Fail> {
    let alloc = rt.alloc();
    let kept = kept(alloc)?;
    assert_eq!(rt; seconds_waited(4_999, &kept.content), 4);
    assert_eq!(rt; expiry_due(&kept.content), Some(5_000));
    assert!(rt; !is_expired(4_999, &kept.content), "a millisecond before");
    assert!(rt; is_stale(5_000, &kept), "after five seconds");
    let session = session(alloc, None)?;
    assert!(rt;
        is_brought(0, &session, OPTIONS, &kept),
        "of another client"
    );
    assert!(rt;
        !is_brought(5_000, &session, OPTIONS, &kept),
        "it has expired"
    );
    drop(session);
    drop(kept);
    Ok(())
}

#[test]
fn an_interval_is_counted_from_its_beginning(rt: HostRuntime) -> Result<(), Fail> {
    assert!(rt; !is_past(5_999, 1_000, Some(5)), "a millisecond before");
    assert!(rt; is_past(6_000, 1_000, Some(5)), "after five seconds");
    assert!(rt; !is_past(u64::MAX, 0, None), "it has no interval");
    assert_eq!(rt; interval_due(1_000, Some(5)), Some(6_000));
    assert_eq!(rt; interval_due(1_000, None), None);
    Ok(())
}

#[test]
fn a_retained_copy_has_the_lesser_quality(rt: HostRuntime) -> Result<(), Fail> {
    let alloc = rt.alloc();
    let kept = kept(alloc)?;
    let copy = retained_copy(alloc, 1, 2, OPTIONS, Some(7), &kept);
    drop(kept);
    let copy = copy?;
    assert_eq!(rt; copy.qos, Qos::AtLeastOnce);
    assert!(rt; is_new(3, 1, &copy), "its subscribe is new");
    assert!(rt; !is_new(3, 2, &copy), "it was made before");
    assert!(rt; is_new_id(2, 2, &copy.id), "its publication is new");
    assert!(rt; copy.retain, "it was retained");
    assert_eq!(rt; copy.identifiers.as_slice(), [7].as_slice());
    drop(copy);
    Ok(())
}

/// A subscription to `a/#` at the fourth place.
fn fourth(alloc: Global) -> Result<Boxed<Subscription>, AllocError> {
    let filter = text(alloc, "a/#")?;
    let subscription = Subscription {
        filter,
        place: 4,
        options: OPTIONS,
        identifier: None,
    };
    Boxed::new(alloc, subscription)
}

#[test]
fn a_filter_keeps_its_place(rt: HostRuntime) -> Result<(), Fail> {
    let alloc = rt.alloc();
    let fourth = fourth(alloc)?;
    match session(alloc, None) {
        Ok(mut session) => {
            session.subscriptions.put(fourth);
            assert!(rt; has_filter(&session, "a/#"), "it is there");
            assert!(rt; !has_filter(&session, "a/b"), "it isn't");
            assert_eq!(rt; place_among(9, "a/#", &session), 4);
            assert_eq!(rt; place_among(9, "a/b", &session), 9);
            drop(session);
            Ok(())
        }
        Err(fault) => {
            drop(fourth);
            Err(fault.into())
        }
    }
}

#[test]
fn a_new_filter_takes_its_number(rt: HostRuntime) -> Result<(), Fail> {
    let alloc = rt.alloc();
    let session = session(alloc, None)?;
    let filter = text(alloc, "a/b")?;
    let subscription = subscription_of(9, &session, filter, OPTIONS, Some(7));
    drop(session);
    assert_eq!(rt; subscription.place, 9);
    assert_eq!(rt; subscription.identifier, Some(7));
    drop(subscription);
    Ok(())
}
