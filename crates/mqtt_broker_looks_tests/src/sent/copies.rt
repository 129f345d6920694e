//! A copy's PUBLISH against bytes that were worked by hand (3.3).

use bytes::Bytes;
use mqtt_base::{Cause, CopyId, Phase, Qos, Text};
use mqtt_broker_looks::sent::{
    has_spelling, publish, publish_len, row_in_len, row_len, row_other_bytes,
};
use mqtt_props::{PropList, PropName, PropRef, ValueRef};
use mqtt_records::{Content, CopyRow, MessageCopy, PassedOn, SubscriptionIdentifiers};
use mqtt_topic::{Form, OtherBytes};
use std::alloc::{AllocError, Global};
use std::process::Abort;
use std::test::Fail;

/// The properties of a PUBLISH: the interval, if there is one, and behind it a User Property, if asked.
pub(crate) fn passed(alloc: Global, expiry: Option<u32>, has_user: bool) -> Result<PassedOn, Fail> {
    let mut list = PropList::new();
    if has_user {
        let value = ValueRef::Pair("k", "v");
        list.push(
            alloc,
            PropRef {
                name: PropName::UserProperty,
                value,
            },
        )?;
    }
    if let Some(seconds) = expiry {
        let value = ValueRef::U32(seconds);
        list.push(
            alloc,
            PropRef {
                name: PropName::MessageExpiryInterval,
                value,
            },
        )?;
    }
    let passed = PassedOn::of(alloc, &list.lend());
    drop(list);
    Ok(passed?)
}

/// The topic of each copy.
fn topic(alloc: Global) -> Result<Text, AllocError> {
    let text = "a/b";
    if !Text::may_hold(text) {
        return Err(AllocError);
    }
    Text::new(alloc, text)
}

/// `hi` to `a/b`, accepted at the first moment.
fn content(alloc: Global, properties: PassedOn) -> Result<Content, AllocError> {
    let topic = topic(alloc)?;
    match Bytes::copy_from_slice(alloc, b"hi") {
        Ok(payload) => Ok(Content {
            topic,
            properties,
            payload,
            arrived: 0,
        }),
        Err(fault) => {
            drop(topic);
            drop(properties);
            Err(fault)
        }
    }
}

/// A copy of it for the first session.
pub(crate) fn copy(
    alloc: Global,
    qos: Qos,
    identifiers: &[u32],
    properties: PassedOn,
) -> Result<MessageCopy, AllocError> {
    let content = content(alloc, properties)?;
    match SubscriptionIdentifiers::from_slice(alloc, identifiers) {
        Ok(identifiers) => Ok(MessageCopy {
            id: CopyId {
                publication: 1,
                birth: 1,
                cause: Cause::Direct,
            },
            qos,
            retain: false,
            identifiers,
            content,
        }),
        Err(fault) => {
            drop(content);
            Err(fault)
        }
    }
}

/// Its PUBLISH, and the size that is told of it.
fn sent(
    rt: &impl Abort,
    alloc: Global,
    now: u64,
    dup: bool,
    copy: MessageCopy,
    want: &[u8],
) -> Result<(), AllocError> {
    let is_spelled = has_spelling(&copy.lend());
    assert!(rt; is_spelled, "the copy has a spelling");
    assert_eq!(rt; publish_len(&copy.lend()), want.len());
    let bytes = publish(alloc, now, dup, 1, &copy.lend());
    drop(copy);
    match bytes {
        Ok(bytes) => {
            assert_eq!(rt; bytes.as_slice(), want);
            drop(bytes);
            Ok(())
        }
        Err(fault) => Err(fault),
    }
}

#[test]
fn two_subscriptions_make_one_copy(rt: HostRuntime) -> Result<(), Fail> {
    let alloc = rt.alloc();
    let copy = copy(alloc, Qos::ExactlyOnce, &[1, 2], PassedOn::new())?;
    let want = [
        0x34, 0x0e, 0x00, 0x03, 0x61, 0x2f, 0x62, 0x00, 0x01, 0x04, 0x0b, 0x01, 0x0b, 0x02, 0x68,
        0x69,
    ];
    sent(&rt, alloc, 0, false, copy, &want)?;
    Ok(())
}

#[test]
fn a_copy_is_sent_again_after_a_restart(rt: HostRuntime) -> Result<(), Fail> {
    let alloc = rt.alloc();
    let copy = copy(alloc, Qos::ExactlyOnce, &[], PassedOn::new())?;
    let want = [
        0x3c, 0x0a, 0x00, 0x03, 0x61, 0x2f, 0x62, 0x00, 0x01, 0x00, 0x68, 0x69,
    ];
    sent(&rt, alloc, 0, true, copy, &want)?;
    Ok(())
}

#[test]
fn four_seconds_waited_leave_one(rt: HostRuntime) -> Result<(), Fail> {
    let alloc = rt.alloc();
    let properties = passed(alloc, Some(5), false)?;
    let copy = copy(alloc, Qos::ExactlyOnce, &[], properties)?;
    let want = [
        0x34, 0x0f, 0x00, 0x03, 0x61, 0x2f, 0x62, 0x00, 0x01, 0x05, 0x02, 0x00, 0x00, 0x00, 0x01,
        0x68, 0x69,
    ];
    sent(&rt, alloc, 4_000, false, copy, &want)?;
    Ok(())
}

#[test]
fn identifiers_stand_before_user_properties(rt: HostRuntime) -> Result<(), Fail> {
    let alloc = rt.alloc();
    let properties = passed(alloc, Some(10), true)?;
    let copy = copy(alloc, Qos::AtLeastOnce, &[7], properties)?;
    let want = [
        0x32, 0x18, 0x00, 0x03, 0x61, 0x2f, 0x62, 0x00, 0x01, 0x0e, 0x02, 0x00, 0x00, 0x00, 0x0a,
        0x0b, 0x07, 0x26, 0x00, 0x01, 0x6b, 0x00, 0x01, 0x76, 0x68, 0x69,
    ];
    sent(&rt, alloc, 999, false, copy, &want)?;
    Ok(())
}

#[test]
fn qos_0_has_no_identifier(rt: HostRuntime) -> Result<(), Fail> {
    let alloc = rt.alloc();
    let copy = copy(alloc, Qos::AtMostOnce, &[], PassedOn::new())?;
    let want = [0x30, 0x08, 0x00, 0x03, 0x61, 0x2f, 0x62, 0x00, 0x68, 0x69];
    sent(&rt, alloc, 0, true, copy, &want)?;
    Ok(())
}

#[test]
fn too_great_an_identifier_has_no_spelling(rt: HostRuntime) -> Result<(), Fail> {
    let alloc = rt.alloc();
    // a Variable Byte Integer is at most 268,435,455 (1.5.5)
    let copy = copy(alloc, Qos::AtMostOnce, &[1 << 28], PassedOn::new())?;
    let is_spelled = has_spelling(&copy.lend());
    drop(copy);
    assert!(rt; !is_spelled, "2^28 has no spelling");
    Ok(())
}

#[test]
fn a_queued_copy_is_sent_as_it_was_measured(rt: HostRuntime) -> Result<(), Fail> {
    let alloc = rt.alloc();
    let copy = copy(alloc, Qos::ExactlyOnce, &[], PassedOn::new())?;
    let row = CopyRow::new(alloc, 1, Phase::Waiting, copy)?;
    assert_eq!(rt; row_len(&row), 12);
    assert_eq!(rt; row_in_len(Form::Plain, &row), Some(12));
    assert_eq!(rt; row_in_len(Form::Named(1), &row), Some(15));
    let want = OtherBytes {
        properties: 0,
        rest: 4,
    };
    assert_eq!(rt; row_other_bytes(&row), want);
    let bytes = match row.whole() {
        Some(copy) => publish(alloc, 0, false, 1, &copy),
        None => Err(AllocError),
    };
    drop(row);
    let bytes = bytes?;
    let want = [
        0x34, 0x0a, 0x00, 0x03, 0x61, 0x2f, 0x62, 0x00, 0x01, 0x00, 0x68, 0x69,
    ];
    assert_eq!(rt; bytes.as_slice(), want.as_slice());
    drop(bytes);
    Ok(())
}
