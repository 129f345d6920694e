//! What a publication passes on, what is sent of it, and how many bytes that has (3.3.2.3).

use bytes::Bytes;
use mqtt_base::{Cause, CopyId, Phase, Qos, Text};
use mqtt_props::{PropFault, PropList, PropName, PropRef, ValueRef};
use mqtt_records::{Content, CopyFault, CopyRow, MessageCopy, PassedOn, SubscriptionIdentifiers};
use std::alloc::{AllocError, Global};
use std::test::Fail;

/// The properties of a PUBLISH, in another order than that in which they are passed on.
fn received(alloc: Global) -> Result<PropList, PropFault> {
    let mut list = PropList::new();
    let props = [
        (PropName::UserProperty, ValueRef::Pair("k", "v")),
        (PropName::MessageExpiryInterval, ValueRef::U32(10)),
        (PropName::TopicAlias, ValueRef::U16(3)),
        (PropName::SubscriptionIdentifier, ValueRef::VarInt(5)),
        (PropName::PayloadFormatIndicator, ValueRef::Byte(1)),
    ];
    for (name, value) in props {
        list.push(alloc, PropRef { name, value })?;
    }
    Ok(list)
}

fn block(alloc: Global, list: &PropList) -> Result<Vec<u8>, AllocError> {
    let mut bytes = Vec::new(alloc);
    list.lend().push_block(&mut bytes)?;
    Ok(bytes)
}

#[test]
fn a_publication_passes_on_six_kinds_in_order(rt: HostRuntime) -> Result<(), Fail> {
    let alloc = rt.alloc();
    let list = received(alloc)?;
    let passed = PassedOn::of(alloc, &list.lend())?;
    let mut bytes = Vec::new(alloc);
    passed.lend().push_block(&mut bytes)?;
    // 01 Payload Format Indicator, 02 Message Expiry Interval, 26 User Property (2.2.2.2)
    let wanted = [14, 0x01, 1, 0x02, 0, 0, 0, 10, 0x26, 0, 1, b'k', 0, 1, b'v'];
    assert_eq!(rt; bytes.as_slice(), wanted.as_slice());
    drop(bytes);
    drop(passed);
    drop(list);
    Ok(())
}

#[test]
fn a_copy_is_sent_aged_with_its_identifiers(rt: HostRuntime) -> Result<(), Fail> {
    let alloc = rt.alloc();
    let list = received(alloc)?;
    let passed = PassedOn::of(alloc, &list.lend())?;
    let sent = passed.sent(alloc, 4, &[7, 9])?;
    let bytes = block(alloc, &sent)?;
    // four seconds less; 0B Subscription Identifier before the User Properties (3.3.2.3.3, 3.3.2.3.8)
    let wanted = [
        18, 0x01, 1, 0x02, 0, 0, 0, 6, 0x0b, 7, 0x0b, 9, 0x26, 0, 1, b'k', 0, 1, b'v',
    ];
    assert_eq!(rt; bytes.as_slice(), wanted.as_slice());
    drop(bytes);
    drop(sent);
    // no identifier has a value of 268,435,456 (1.5.5)
    let fault = passed.sent(alloc, 0, &[1 << 28]).is_err();
    assert!(rt; fault, "too great an identifier");
    drop(passed);
    drop(list);
    Ok(())
}

#[test]
fn only_what_is_passed_on_is_taken_back(rt: HostRuntime) -> Result<(), Fail> {
    let alloc = rt.alloc();
    let list = received(alloc)?;
    let passed = PassedOn::of(alloc, &list.lend())?;
    let kept = passed.lend().to_list(alloc)?;
    let back = PassedOn::from_list(kept).is_some();
    assert!(rt; back, "as it was passed on");
    let other = PassedOn::from_list(list).is_none();
    assert!(rt; other, "as it was received");
    let none = PassedOn::from_list(PropList::new()).is_some();
    assert!(rt; none, "no properties");
    drop(passed);
    Ok(())
}

/// A copy of `hi` on `a/b`.
fn copy(
    alloc: Global,
    qos: Qos,
    properties: PassedOn,
    identifiers: &[u32],
) -> Result<MessageCopy, AllocError> {
    let text = "a/b";
    if !Text::may_hold(text) {
        drop(properties);
        return Err(AllocError);
    }
    let content = Content {
        topic: Text::new(alloc, text)?,
        properties,
        payload: Bytes::copy_from_slice(alloc, b"hi")?,
        arrived: 0,
    };
    Ok(MessageCopy {
        id: CopyId {
            publication: 1,
            birth: 1,
            cause: Cause::Direct,
        },
        qos,
        retain: false,
        identifiers: SubscriptionIdentifiers::from_slice(alloc, identifiers)?,
        content,
    })
}

/// The size of the PUBLISH of such a copy.
fn size(
    alloc: Global,
    qos: Qos,
    properties: PassedOn,
    identifiers: &[u32],
) -> Result<u32, CopyFault> {
    let Ok(copy) = copy(alloc, qos, properties, identifiers) else {
        return Err(CopyFault::Memory);
    };
    let row = CopyRow::new(alloc, 1, Phase::Waiting, copy)?;
    let size = row.size();
    drop(row);
    Ok(size)
}

#[test]
fn a_row_knows_the_size_of_its_publish(rt: HostRuntime) -> Result<(), Fail> {
    let alloc = rt.alloc();
    // 3x 08 0003 a/b 00 hi: no packet identifier at QoS 0 (3.3)
    assert_eq!(rt; size(alloc, Qos::AtMostOnce, PassedOn::new(), &[])?, 10);
    assert_eq!(rt; size(alloc, Qos::AtLeastOnce, PassedOn::new(), &[])?, 12);
    assert_eq!(rt; size(alloc, Qos::ExactlyOnce, PassedOn::new(), &[])?, 12);
    // 0b 07 0b 80 01
    assert_eq!(rt;
        size(alloc, Qos::ExactlyOnce, PassedOn::new(), &[7, 128])?,
        17
    );
    Ok(())
}

#[test]
fn a_row_knows_the_size_of_its_properties(rt: HostRuntime) -> Result<(), Fail> {
    let alloc = rt.alloc();
    let list = received(alloc)?;
    let passed = PassedOn::of(alloc, &list.lend())?;
    drop(list);
    assert_eq!(rt; size(alloc, Qos::ExactlyOnce, passed, &[])?, 26);
    Ok(())
}

#[test]
fn a_copy_that_has_no_spelling_gets_no_row(rt: HostRuntime) -> Result<(), Fail> {
    let alloc = rt.alloc();
    let fault = size(alloc, Qos::ExactlyOnce, PassedOn::new(), &[1 << 28]);
    assert_eq!(rt; fault, Err(CopyFault::Unspelled), "too great an identifier");
    assert_eq!(rt; CopyFault::Unspelled as u8, 1);
    assert_eq!(rt; CopyFault::Memory as u8, 2);
    Ok(())
}
