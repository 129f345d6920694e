//! CONNECT and what is refused of it (3.1, 3.2.2.2).

use mqtt_base::{Blob, Qos, Text};
use mqtt_broker_looks::decided::{
    aliases_of, assigned_name, expiry_of, largest_of, refusal, takes_refusal, will_of, window_of,
};
use mqtt_packet::{Connect, Will};
use mqtt_props::{PropFault, PropList, PropName, PropRef, ValueRef};
use std::alloc::{AllocError, Global};
use std::process::Abort;
use std::test::Fail;

/// A text that is one.
fn text(alloc: Global, text: &str) -> Result<Text, AllocError> {
    if !Text::may_hold(text) {
        return Err(AllocError);
    }
    Text::new(alloc, text)
}

/// A CONNECT with these parts.
fn connect(
    alloc: Global,
    client: &str,
    properties: PropList,
    will: Option<Will>,
) -> Result<Connect, AllocError> {
    match text(alloc, client) {
        Ok(client_identifier) => Ok(Connect {
            clean_start: true,
            keep_alive: 0,
            properties,
            client_identifier,
            will,
            user_name: None,
            password: None,
        }),
        Err(fault) => {
            drop(properties);
            drop(will);
            Err(fault)
        }
    }
}

/// A list of one property.
fn one(alloc: Global, name: PropName, value: ValueRef<'_>) -> Result<PropList, PropFault> {
    let mut list = PropList::new();
    match list.push(alloc, PropRef { name, value }) {
        Ok(()) => Ok(list),
        Err(fault) => {
            drop(list);
            Err(fault)
        }
    }
}

/// The code by which a CONNECT is refused.
fn code(connect: Connect, is_known: bool) -> Option<u8> {
    let code = refusal(&connect, is_known).map(|code| code.0);
    drop(connect);
    code
}

#[test]
fn only_the_broker_assigns_names(rt: HostRuntime) -> Result<(), Fail> {
    let alloc = rt.alloc();
    let nameless = connect(alloc, "", PropList::new(), None)?;
    assert_eq!(rt; code(nameless, false), None);
    let assigned = connect(alloc, "auto-3", PropList::new(), None)?;
    assert_eq!(rt; code(assigned, false), Some(0x85));
    let resumed = connect(alloc, "auto-3", PropList::new(), None)?;
    assert_eq!(rt; code(resumed, true), None);
    Ok(())
}

#[test]
fn a_client_identifier_has_64_bytes_at_most(rt: HostRuntime) -> Result<(), Fail> {
    let alloc = rt.alloc();
    let name = "0123456789abcdef0123456789abcdef0123456789abcdef0123456789abcdef";
    let longest = connect(alloc, name, PropList::new(), None)?;
    assert_eq!(rt; code(longest, false), None);
    let longer = "0123456789abcdef0123456789abcdef0123456789abcdef0123456789abcdef0";
    let longer = connect(alloc, longer, PropList::new(), None)?;
    assert_eq!(rt; code(longer, true), Some(0x85));
    Ok(())
}

#[test]
fn packets_of_64_bytes_are_taken(rt: HostRuntime) -> Result<(), Fail> {
    let alloc = rt.alloc();
    let name = PropName::MaximumPacketSize;
    let least = connect(alloc, "c", one(alloc, name, ValueRef::U32(64))?, None)?;
    assert_eq!(rt; largest_of(&least), 64);
    assert_eq!(rt; code(least, false), None);
    let less = connect(alloc, "c", one(alloc, name, ValueRef::U32(63))?, None)?;
    assert_eq!(rt; code(less, false), Some(0x95));
    let method = one(alloc, PropName::AuthenticationMethod, ValueRef::Text("m"))?;
    assert_eq!(rt; code(connect(alloc, "c", method, None)?, false), Some(0x8c));
    Ok(())
}

#[test]
fn what_is_absent_has_its_default(rt: HostRuntime) -> Result<(), Fail> {
    let plain = connect(rt.alloc(), "c", PropList::new(), None)?;
    assert_eq!(rt; window_of(&plain), 65_535);
    assert_eq!(rt; aliases_of(&plain), 0);
    assert_eq!(rt; expiry_of(&plain), 0);
    drop(plain);
    Ok(())
}

#[test]
fn a_window_of_one_is_told(rt: HostRuntime) -> Result<(), Fail> {
    let alloc = rt.alloc();
    let list = one(alloc, PropName::ReceiveMaximum, ValueRef::U16(1))?;
    let narrow = connect(alloc, "c", list, None)?;
    assert_eq!(rt; window_of(&narrow), 1);
    drop(narrow);
    Ok(())
}

#[test]
fn a_session_stays_for_its_interval(rt: HostRuntime) -> Result<(), Fail> {
    let alloc = rt.alloc();
    let list = one(alloc, PropName::SessionExpiryInterval, ValueRef::U32(5))?;
    let lasting = connect(alloc, "c", list, None)?;
    assert_eq!(rt; expiry_of(&lasting), 5);
    drop(lasting);
    Ok(())
}

/// A Will to that topic that waits for ten seconds.
fn will(alloc: Global, topic: &str) -> Result<Will, Fail> {
    let properties = one(alloc, PropName::WillDelayInterval, ValueRef::U32(10))?;
    let topic = text(alloc, topic)?;
    Ok(Will {
        qos: Qos::AtLeastOnce,
        retain: true,
        properties,
        topic,
        payload: Blob::new(alloc, b"gone")?,
    })
}

#[test]
fn a_will_has_a_topic_name(rt: HostRuntime) -> Result<(), Fail> {
    let alloc = rt.alloc();
    let wild = connect(alloc, "c", PropList::new(), Some(will(alloc, "a/#")?))?;
    assert_eq!(rt; code(wild, false), Some(0x90));
    let named = connect(alloc, "c", PropList::new(), Some(will(alloc, "a/b")?))?;
    let kept = will_of(&named);
    drop(named);
    let kept = kept?;
    let delay = match &kept {
        Some(will) => will.delay,
        None => 0,
    };
    assert_eq!(rt; delay, 10);
    drop(kept);
    Ok(())
}

#[test]
fn the_first_name_is_auto_1(rt: HostRuntime) -> Result<(), Fail> {
    let name = assigned_name(rt.alloc(), 1)?;
    assert_eq!(rt; name.as_str(), "auto-1");
    drop(name);
    Ok(())
}

#[test]
fn a_refusal_has_five_bytes(rt: HostRuntime) -> Result<(), Fail> {
    let alloc = rt.alloc();
    let name = PropName::MaximumPacketSize;
    let five = connect(alloc, "c", one(alloc, name, ValueRef::U32(5))?, None)?;
    assert!(rt; takes_refusal(&five), "five bytes are taken");
    drop(five);
    let four = connect(alloc, "c", one(alloc, name, ValueRef::U32(4))?, None)?;
    assert!(rt; !takes_refusal(&four), "four are too few");
    drop(four);
    Ok(())
}

/// How many topics a client is told by aliases that takes so many.
fn told_at_most(alloc: Global, takes: u16) -> Result<u16, Fail> {
    let list = one(alloc, PropName::TopicAliasMaximum, ValueRef::U16(takes))?;
    let connect = connect(alloc, "c", list, None)?;
    let most = aliases_of(&connect);
    drop(connect);
    Ok(most)
}

#[test]
fn ten_aliases_are_told_at_most(rt: HostRuntime) -> Result<(), Fail> {
    let alloc = rt.alloc();
    assert_eq!(rt; told_at_most(alloc, 0)?, 0);
    assert_eq!(rt; told_at_most(alloc, 1)?, 1);
    assert_eq!(rt; told_at_most(alloc, 10)?, 10);
    assert_eq!(rt; told_at_most(alloc, 11)?, 10);
    assert_eq!(rt; told_at_most(alloc, 65_535)?, 10);
    Ok(())
}
