//! A session with filters of as many levels as fit a packet (MQTT 5.0, 1.5.4, 4.7).
use crate::routing::bed::{ALL, TWO, identified};
use mqtt_base::RETAINED_LIMIT;
use mqtt_routes::{Routes, RoutesFault};
use mqtt_topic::TopicName;
use std::alloc::{AllocError, Global};
use std::hash::RandomState;
use std::process::Abort;
use std::test::Fail;

/// So many slashes.
fn slashes(alloc: Global, count: u32) -> Result<String, AllocError> {
    let mut text = String::new(alloc);
    for _ in 0..count {
        text.push_str("/")?;
    }
    Ok(text)
}

/// A filter of 65,535 bytes: slashes, of which `+` stands behind so many, and `#` at the end.
fn deep_filter(alloc: Global, before: u32) -> Result<String, AllocError> {
    let mut text = slashes(alloc, before)?;
    text.push_str("+")?;
    for _ in before..65_533u32 {
        text.push_str("/")?;
    }
    text.push_str("#")?;
    Ok(text)
}

/// Subscribes to a filter, whose text goes.
fn put(
    alloc: Global,
    routes: &mut Routes<u8>,
    filter: String,
    identifier: u32,
) -> Result<(), Fail> {
    let new = identified(alloc, filter.as_str(), 1, TWO, identifier);
    drop(filter);
    Ok(routes.subscribe(1, new?)?)
}

/// A hundred filters: 65,535 slashes, and 99 whose levels are as many but one, all matched by that name.
fn put_all(alloc: Global, routes: &mut Routes<u8>) -> Result<(), Fail> {
    put(alloc, routes, slashes(alloc, 65_535)?, 1)?;
    for before in 1..100u32 {
        put(alloc, routes, deep_filter(alloc, before)?, 1 + before)?;
    }
    Ok(())
}

/// How many identifiers the first copy for a name has; none if there is no copy.
fn count(routes: &Routes<u8>, name: &TopicName) -> Result<Option<usize>, RoutesFault> {
    let routed = routes.route("p", name, 2, false, &ALL)?;
    let count = match routed.direct().first() {
        Some(copy) => Some(copy.identifiers().len()),
        None => None,
    };
    drop(routed);
    Ok(count)
}

/// They are all found, one is unsubscribed, and they all go with their session.
fn come_and_go(
    rt: &impl Abort,
    alloc: Global,
    routes: &mut Routes<u8>,
    text: &str,
) -> Result<(), Fail> {
    put_all(alloc, routes)?;
    let name = TopicName::parse(alloc, text)?;
    assert_eq!(rt; count(routes, &name)?, Some(100));
    assert!(rt; routes.unsubscribe(1, text));
    assert_eq!(rt; count(routes, &name)?, Some(99));
    routes.drop_session(1);
    assert_eq!(rt; count(routes, &name)?, None);
    Ok(())
}

#[test]
fn filters_of_the_most_levels(rt: HostRuntime) -> Result<(), Fail> {
    let hasher = RandomState::new(&rt)?;
    let text = slashes(rt.alloc(), 65_535)?;
    let mut routes = Routes::new(rt.alloc(), hasher, RETAINED_LIMIT);
    let done = come_and_go(&rt, rt.alloc(), &mut routes, text.as_str());
    drop(routes);
    drop(text);
    done
}
