//! Lists of properties made from others (2.2.2).

use crate::props::rows::PUBLISH;
use mqtt_props::{
    Place, PropFault, PropList, PropName, PropRef, PropsRef, ValueRef, look_at, read,
};
use std::alloc::Global;
use std::process::Abort;

/// The list of the block `PUBLISH`.
fn publish_list(rt: &impl Abort, alloc: Global) -> PropList {
    let (list, _) = read(alloc, &PUBLISH, Place::Publish).expect(rt, "it is read");
    list
}

/// Whether a list has this block.
fn has_block(alloc: Global, list: PropList, want: &[u8]) -> bool {
    let mut out = Vec::new(alloc);
    let written = list.lend().push_block(&mut out);
    drop(list);
    let is = out.as_slice() == want;
    drop(out);
    is && written.is_ok()
}

#[test]
fn a_list_is_made_without_a_property(rt: HostRuntime) {
    let (props, _) = look_at(&PUBLISH, Place::Publish).expect(&rt, "it is read");
    let list = props
        .without(rt.alloc(), PropName::TopicAlias)
        .expect(&rt, "there is memory");
    let len = list.lend().len();
    let want = [11, 1, 1, 0x26, 0, 1, b'k', 0, 1, b'v', 0x0b, 7];
    assert!(rt; has_block(rt.alloc(), list, &want));
    assert!(rt; len == 3);
}

#[test]
fn a_list_is_made_of_one_property_alone(rt: HostRuntime) {
    let (props, _) = look_at(&PUBLISH, Place::Publish).expect(&rt, "it is read");
    let list = props
        .only(rt.alloc(), PropName::UserProperty)
        .expect(&rt, "there is memory");
    let want = [7, 0x26, 0, 1, b'k', 0, 1, b'v'];
    assert!(rt; has_block(rt.alloc(), list, &want));
}

#[test]
fn a_property_is_added_behind_the_others(rt: HostRuntime) {
    let mut list = publish_list(&rt, rt.alloc());
    let identifier = PropRef {
        name: PropName::SubscriptionIdentifier,
        value: ValueRef::VarInt(300),
    };
    let pushed = list.push(rt.alloc(), identifier);
    let want = [
        17, 1, 1, 0x23, 0, 5, 0x26, 0, 1, b'k', 0, 1, b'v', 0x0b, 7, 0x0b, 0xac, 2,
    ];
    assert!(rt; has_block(rt.alloc(), list, &want));
    assert!(rt; pushed.is_ok());
}

#[test]
fn a_list_is_added_behind_another(rt: HostRuntime) {
    let mut list = PropList::new();
    assert!(rt; list.lend().is_empty());
    let (props, _) = look_at(&PUBLISH, Place::Publish).expect(&rt, "it is read");
    let first = list.append(rt.alloc(), &props);
    let second = list.append(rt.alloc(), &props);
    let want = [
        28, 1, 1, 0x23, 0, 5, 0x26, 0, 1, b'k', 0, 1, b'v', 0x0b, 7, 1, 1, 0x23, 0, 5, 0x26, 0, 1,
        b'k', 0, 1, b'v', 0x0b, 7,
    ];
    assert!(rt; has_block(rt.alloc(), list, &want));
    assert!(rt; first.is_ok() && second.is_ok());
}

#[test]
fn a_clone_stays_as_it_is(rt: HostRuntime) {
    let mut list = publish_list(&rt, rt.alloc());
    let before = list.clone().expect(&rt, "there is memory");
    let why = PropRef {
        name: PropName::ReasonString,
        value: ValueRef::Text("why"),
    };
    let pushed = list.push(rt.alloc(), why);
    let (now, then) = (list.lend().len(), before.lend().len());
    drop(list);
    drop(before);
    assert!(rt; pushed.is_ok());
    assert!(rt; now == 5 && then == 4);
}

#[test]
fn a_list_is_the_same_as_one_with_its_properties(rt: HostRuntime) {
    let list = publish_list(&rt, rt.alloc());
    let (props, _) = look_at(&PUBLISH, Place::Publish).expect(&rt, "it is read");
    let (is, is_turned) = (
        list.lend().is_same_as(&props),
        props.is_same_as(&list.lend()),
    );
    drop(list);
    assert!(rt; is && is_turned);
}

#[test]
fn a_list_is_not_the_same_as_one_of_as_many_bytes(rt: HostRuntime) {
    let (seven, _) = look_at(&[2, 0x0b, 7], Place::Publish).expect(&rt, "it is read");
    let (eight, _) = look_at(&[2, 0x0b, 8], Place::Publish).expect(&rt, "it is read");
    assert!(rt; !seven.is_same_as(&eight) && seven.is_same_as(&seven));
    assert!(rt; !seven.is_same_as(&PropsRef::empty()), "nor as none");
}

/// Whether a property has no spelling, and is not added to an empty list.
fn is_refused(alloc: Global, prop: PropRef<'_>) -> bool {
    let mut list = PropList::new();
    let pushed = list.push(alloc, prop);
    let is_empty = list.lend().is_empty();
    drop(list);
    !prop.fits() && is_empty && pushed == Err(PropFault::Malformed)
}

#[test]
fn a_property_without_spelling_is_not_added(rt: HostRuntime) {
    for (text, name, value) in [
        ("another kind", PropName::TopicAlias, ValueRef::U32(5)),
        (
            "too great",
            PropName::SubscriptionIdentifier,
            ValueRef::VarInt(268_435_456),
        ),
        ("U+0000", PropName::ReasonString, ValueRef::Text("a\0")),
        (
            "U+0000 in a pair",
            PropName::UserProperty,
            ValueRef::Pair("a", "\0"),
        ),
    ] {
        assert!(rt; is_refused(rt.alloc(), PropRef { name, value }), "{text}");
    }
}

/// Whether the property fits, is owned and lent again as it is, and so is added to the list.
fn is_pushed_owned(alloc: Global, list: &mut PropList, prop: PropRef<'_>) -> bool {
    if !prop.fits() {
        return false;
    }
    let Ok(own) = prop.to_prop(alloc) else {
        return false;
    };
    let is_same = own.lend() == prop;
    let pushed = list.push(alloc, own.lend());
    drop(own);
    is_same && pushed.is_ok()
}

/// The property is owned and lent again, and is found in a list that it is added to.
fn assert_added(rt: &impl Abort, alloc: Global, list: &mut PropList, prop: PropRef<'_>) {
    assert!(rt; is_pushed_owned(alloc, list, prop), "{prop:?}");
    assert!(rt; list.lend().get(prop.name) == Some(prop));
}

#[test]
fn a_property_of_each_kind_of_value_is_added(rt: HostRuntime) {
    let values = [
        (PropName::MaximumQos, ValueRef::Byte(1)),
        (PropName::ServerKeepAlive, ValueRef::U16(60)),
        (PropName::SessionExpiryInterval, ValueRef::U32(0xffff_ffff)),
        (
            PropName::SubscriptionIdentifier,
            ValueRef::VarInt(268_435_455),
        ),
        (PropName::AssignedClientIdentifier, ValueRef::Text("auto-1")),
        (PropName::AuthenticationData, ValueRef::Binary(&[0, 255])),
        (PropName::UserProperty, ValueRef::Pair("", "")),
    ];
    let mut list = PropList::new();
    for (name, value) in values {
        assert_added(&rt, rt.alloc(), &mut list, PropRef { name, value });
    }
    let len = list.lend().len();
    drop(list);
    assert!(rt; len == 7);
}
