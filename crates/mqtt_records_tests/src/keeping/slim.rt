//! Rows of queues without what their copies say, and what may fill them again (3.3, 4.6).

use bytes::Bytes;
use mqtt_base::{Cause, CopyId, Phase, Qos, Text};
use mqtt_props::{PropFault, PropList, PropName, PropRef, ValueRef};
use mqtt_records::{
    Content, CopyContent, CopyFault, CopyRow, MessageCopy, PassedOn, SubscriptionIdentifiers,
};
use std::alloc::{AllocError, Global};
use std::test::Fail;

/// Message Expiry Interval, and a Content Type.
fn properties(alloc: Global, interval: u32, kind: &str) -> Result<PassedOn, PropFault> {
    let mut list = PropList::new();
    let props = [
        (PropName::MessageExpiryInterval, ValueRef::U32(interval)),
        (PropName::ContentType, ValueRef::Text(kind)),
    ];
    for (name, value) in props {
        list.push(alloc, PropRef { name, value })?;
    }
    Ok(PassedOn::of(alloc, &list.lend())?)
}

/// The topic `a/b`.
fn topic(alloc: Global) -> Result<Text, AllocError> {
    let text = "a/b";
    if !Text::may_hold(text) {
        return Err(AllocError);
    }
    Text::new(alloc, text)
}

/// A copy of `hi` on `a/b` at QoS 2, with the Subscription Identifier 7.
fn copy(alloc: Global) -> Result<MessageCopy, PropFault> {
    Ok(MessageCopy {
        id: CopyId {
            publication: 4,
            birth: 2,
            cause: Cause::Direct,
        },
        qos: Qos::ExactlyOnce,
        retain: true,
        identifiers: SubscriptionIdentifiers::from_slice(alloc, &[7])?,
        content: Content {
            topic: topic(alloc)?,
            properties: properties(alloc, 10, "text")?,
            payload: Bytes::copy_from_slice(alloc, b"hi")?,
            arrived: 9,
        },
    })
}

/// Its row.
fn row(alloc: Global) -> Result<CopyRow, CopyFault> {
    let Ok(copy) = copy(alloc) else {
        return Err(CopyFault::Memory);
    };
    CopyRow::new(alloc, 3, Phase::Waiting, copy)
}

/// What is told of a copy with this Message Expiry Interval, Content Type and Subscription Identifier.
fn told(
    alloc: Global,
    interval: u32,
    kind: &str,
    identifier: u32,
    payload: &[u8],
) -> Result<CopyContent, PropFault> {
    Ok(CopyContent::new(
        alloc,
        3,
        SubscriptionIdentifiers::from_slice(alloc, &[identifier])?,
        topic(alloc)?,
        properties(alloc, interval, kind)?,
        Bytes::copy_from_slice(alloc, payload)?,
    )?)
}

#[test]
fn a_slim_row_tells_all_but_its_message(rt: HostRuntime) -> Result<(), Fail> {
    let alloc = rt.alloc();
    let mut row = row(alloc)?;
    assert!(rt; row.whole().is_some(), "a new row is whole");
    row.make_slim();
    assert!(rt; row.whole().is_none(), "a slim row is not");
    assert_eq!(rt; row.place(), 3);
    assert_eq!(rt; row.phase(), Phase::Waiting);
    assert_eq!(rt; row.id().publication, 4);
    assert_eq!(rt; row.qos(), Qos::ExactlyOnce);
    assert!(rt; row.retain(), "RETAIN is sent as 1");
    assert_eq!(rt; row.topic().as_str(), "a/b");
    assert_eq!(rt; row.arrived(), 9);
    assert_eq!(rt; row.expiry(), Some(10));
    // 02 0000000a, 03 0004 text, 0b 07 (2.2.2.2)
    assert_eq!(rt; row.pairs(), 14);
    assert_eq!(rt; row.payload_len(), 2);
    // 35 18 0003 a/b 0001 0e .. hi (3.3)
    assert_eq!(rt; row.size(), 26);
    drop(row);
    Ok(())
}

#[test]
fn a_slim_row_is_filled_with_what_its_copy_said(rt: HostRuntime) -> Result<(), Fail> {
    let alloc = rt.alloc();
    let mut row = row(alloc)?;
    row.make_slim();
    row.make_slim();
    let is_filled = row.fill(told(alloc, 10, "text", 7, b"hi")?);
    assert!(rt; is_filled, "as many bytes, and the same interval");
    let Some(copy) = row.whole() else {
        drop(row);
        return Err(Fail::from("a filled row is whole"));
    };
    assert_eq!(rt; copy.identifiers.as_slice(), [7].as_slice());
    assert_eq!(rt; copy.content.payload.as_slice(), b"hi".as_slice());
    assert_eq!(rt; copy.content.properties.lend().len(), 2);
    assert_eq!(rt; row.size(), 26);
    drop(row);
    Ok(())
}

/// What is told of a copy, and whether it has the bytes of the row.
const TOLD: [(&str, u32, &str, u32, &[u8], bool); 6] = [
    ("as it was", 10, "text", 7, b"hi", true),
    ("other words of the same length", 10, "json", 8, b"ho", true),
    (
        "another Message Expiry Interval",
        11,
        "text",
        7,
        b"hi",
        false,
    ),
    ("a shorter Content Type", 10, "txt", 7, b"hi", false),
    (
        "a shorter Content Type, a longer identifier",
        10,
        "txt",
        128,
        b"hi",
        true,
    ),
    ("a longer payload", 10, "text", 7, b"hey", false),
];

#[test]
fn a_row_is_filled_with_what_has_its_bytes(rt: HostRuntime) -> Result<(), Fail> {
    let alloc = rt.alloc();
    for (case, interval, kind, identifier, payload, wanted) in TOLD {
        let mut row = row(alloc)?;
        row.make_slim();
        let is_filled = row.fill(told(alloc, interval, kind, identifier, payload)?);
        assert_eq!(rt; is_filled, wanted, "{case}");
        assert_eq!(rt; row.whole().is_some(), wanted, "{case}");
        assert_eq!(rt; row.size(), 26, "{case}");
        drop(row);
    }
    Ok(())
}
