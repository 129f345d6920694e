//! What is said under one number is alike: topic, properties and payload, of copies and retained messages (3.3).

use crate::contents::kept::{Properties, Said, shares};
use mqtt_keep::shares_contents;
use mqtt_props::{PropName, PropRef, ValueRef};
use mqtt_records::Records;
use std::alloc::{AllocError, Global};
use std::test::Fail;

/// A property of each kind that is passed on.
const ALL: Properties = [
    Some(PropRef {
        name: PropName::PayloadFormatIndicator,
        value: ValueRef::Byte(1),
    }),
    Some(PropRef {
        name: PropName::MessageExpiryInterval,
        value: ValueRef::U32(60),
    }),
    Some(PropRef {
        name: PropName::ContentType,
        value: ValueRef::Text("text"),
    }),
    Some(PropRef {
        name: PropName::ResponseTopic,
        value: ValueRef::Text("answer"),
    }),
    Some(PropRef {
        name: PropName::CorrelationData,
        value: ValueRef::Binary(b"7"),
    }),
    Some(PropRef {
        name: PropName::UserProperty,
        value: ValueRef::Pair("k", "v"),
    }),
];

/// The same kinds with other values.
const OTHERS: Properties = [
    Some(PropRef {
        name: PropName::PayloadFormatIndicator,
        value: ValueRef::Byte(0),
    }),
    Some(PropRef {
        name: PropName::MessageExpiryInterval,
        value: ValueRef::U32(61),
    }),
    Some(PropRef {
        name: PropName::ContentType,
        value: ValueRef::Text("texts"),
    }),
    Some(PropRef {
        name: PropName::ResponseTopic,
        value: ValueRef::Text("Answer"),
    }),
    Some(PropRef {
        name: PropName::CorrelationData,
        value: ValueRef::Binary(b"8"),
    }),
    Some(PropRef {
        name: PropName::UserProperty,
        value: ValueRef::Pair("k", "w"),
    }),
];

/// What the first publication says.
const FIRST: Said = Said {
    publication: 7,
    topic: "a/b",
    properties: ALL,
    payload: b"21.5",
    arrived: 50,
};

/// Another publication, that says other things.
const OTHER: Said = Said {
    publication: 8,
    topic: "c",
    properties: OTHERS,
    payload: b"",
    arrived: 60,
};

/// The first, as it says something else.
const CHANGED: Said = Said {
    payload: b"21.6",
    ..FIRST
};

/// Whether copies of two sessions agree, of which one says what the first publication does.
fn agrees(alloc: Global, said: Said) -> Result<bool, AllocError> {
    shares(alloc, &[FIRST], &[said], &[])
}

/// All, but for the one at a place.
fn changed(slot: usize, property: Option<PropRef<'static>>) -> Properties {
    let mut properties = ALL;
    if slot < 6 {
        properties[slot] = property;
    }
    properties
}

#[test]
fn a_publication_of_one_agrees(rt: HostRuntime) -> Result<(), Fail> {
    let alloc = rt.alloc();
    let nothing = Records::new(alloc)?;
    let shared = shares_contents(alloc, &nothing);
    drop(nothing);
    assert!(rt; shared?, "before the first session");
    assert!(rt; shares(alloc, &[], &[], &[])?, "empty queues");
    assert!(rt; shares(alloc, &[FIRST], &[], &[])?, "one copy");
    assert!(rt; shares(alloc, &[], &[], &[FIRST])?, "one retained message");
    Ok(())
}

#[test]
fn copies_agree_in_topic_and_payload(rt: HostRuntime) -> Result<(), Fail> {
    let alloc = rt.alloc();
    assert!(rt; agrees(alloc, FIRST)?, "alike");
    assert!(rt;
        agrees(
            alloc,
            Said {
                arrived: 51,
                ..FIRST
            }
        )?,
        "accepted at another moment"
    );
    assert!(rt;
        !agrees(
            alloc,
            Said {
                topic: "a/c",
                ..FIRST
            }
        )?,
        "another topic"
    );
    assert!(rt;
        !agrees(
            alloc,
            Said {
                topic: "a/b/",
                ..FIRST
            }
        )?,
        "a longer topic"
    );
    assert!(rt; !agrees(alloc, CHANGED)?, "another payload");
    assert!(rt;
        !agrees(
            alloc,
            Said {
                payload: b"21.",
                ..FIRST
            }
        )?,
        "a shorter payload"
    );
    Ok(())
}

#[test]
fn copies_agree_in_each_property(rt: HostRuntime) -> Result<(), Fail> {
    let alloc = rt.alloc();
    for slot in 0..6 {
        let properties = changed(slot, None);
        assert!(rt;
            !agrees(
                alloc,
                Said {
                    properties,
                    ..FIRST
                }
            )?,
            "one less"
        );
        let properties = changed(slot, OTHERS[slot]);
        let said = Said {
            properties,
            ..FIRST
        };
        assert!(rt; !agrees(alloc, said)?, "another value");
        assert!(rt; shares(alloc, &[said], &[said], &[])?, "both with it");
    }
    let named = Some(PropRef {
        name: PropName::UserProperty,
        value: ValueRef::Pair("l", "v"),
    });
    let properties = changed(5, named);
    assert!(rt;
        !agrees(
            alloc,
            Said {
                properties,
                ..FIRST
            }
        )?,
        "another name of a pair"
    );
    Ok(())
}

#[test]
fn retained_messages_agree_too(rt: HostRuntime) -> Result<(), Fail> {
    let alloc = rt.alloc();
    assert!(rt; shares(alloc, &[FIRST], &[], &[FIRST])?, "with a copy");
    assert!(rt;
        !shares(alloc, &[FIRST], &[], &[CHANGED])?,
        "not with a copy"
    );
    assert!(rt;
        !shares(alloc, &[], &[], &[FIRST, CHANGED])?,
        "not with each other"
    );
    assert!(rt;
        shares(alloc, &[OTHER], &[], &[FIRST])?,
        "of another publication"
    );
    Ok(())
}

#[test]
fn other_numbers_may_differ(rt: HostRuntime) -> Result<(), Fail> {
    let alloc = rt.alloc();
    assert!(rt; agrees(alloc, OTHER)?, "two publications");
    assert!(rt;
        agrees(
            alloc,
            Said {
                publication: 9,
                ..FIRST
            }
        )?,
        "with the same bytes"
    );
    assert!(rt;
        shares(alloc, &[FIRST, OTHER], &[OTHER, FIRST], &[OTHER])?,
        "two of each"
    );
    Ok(())
}

#[test]
fn each_of_a_number_is_looked_at(rt: HostRuntime) -> Result<(), Fail> {
    let alloc = rt.alloc();
    assert!(rt;
        !shares(alloc, &[FIRST, FIRST], &[FIRST, CHANGED], &[])?,
        "the last"
    );
    assert!(rt;
        !shares(alloc, &[CHANGED, FIRST], &[FIRST], &[])?,
        "the first"
    );
    Ok(())
}

#[test]
fn copies_of_one_queue_agree(rt: HostRuntime) -> Result<(), Fail> {
    let alloc = rt.alloc();
    assert!(rt;
        !shares(alloc, &[FIRST, CHANGED], &[], &[])?,
        "two in one queue"
    );
    assert!(rt;
        !shares(alloc, &[FIRST, OTHER, CHANGED], &[], &[])?,
        "another between them"
    );
    Ok(())
}

#[test]
fn numbers_may_fall(rt: HostRuntime) -> Result<(), Fail> {
    let alloc = rt.alloc();
    let lower = Said {
        publication: 6,
        ..OTHER
    };
    assert!(rt;
        !shares(alloc, &[OTHER, FIRST, lower], &[CHANGED], &[])?,
        "numbers that fall"
    );
    Ok(())
}
