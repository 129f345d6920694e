//! Retained messages, by topic (MQTT 5.0, 3.3.1.3).
use mqtt_base::RETAINED_LIMIT;
use mqtt_routes::{Routes, RoutesFault};
use mqtt_topic::{SubFilter, TopicName};
use std::alloc::Global;
use std::hash::RandomState;
use std::process::Abort;
use std::test::Fail;

/// What a hundred or fewer messages are put into a table by.
fn retain(
    alloc: Global,
    routes: &mut Routes<u16>,
    topic: &str,
    message: Option<u16>,
) -> Result<(), Fail> {
    let topic = TopicName::parse(alloc, topic)?;
    Ok(routes.retain(topic, message)?)
}

/// The first two messages that a filter matches, 0 if there are fewer, and how many there are.
fn look(alloc: Global, routes: &Routes<u16>, filter: &str) -> Result<([u16; 2], usize), Fail> {
    let filter = SubFilter::parse(alloc, filter)?;
    let found = routes.retained_for(&filter);
    drop(filter);
    let found = found?;
    let mut messages = [0; 2];
    for (i, kept) in found.iter().enumerate() {
        if i < 2 {
            messages[i] = kept.message;
        }
    }
    let count = found.len();
    drop(found);
    Ok((messages, count))
}

/// A message replaces the one before, and an empty one removes it.
fn retain_again(rt: &impl Abort, alloc: Global, routes: &mut Routes<u16>) -> Result<(), Fail> {
    for (topic, message) in [
        ("a/1", Some(1)),
        ("b", Some(2)),
        ("a/2", Some(3)),
        ("a/1", Some(4)),
        ("a/2", None),
        ("$a", Some(5)),
    ] {
        retain(alloc, routes, topic, message)?;
    }
    assert_eq!(rt; look(alloc, routes, "#")?, ([4, 2], 2));
    Ok(())
}

#[test]
fn a_topic_keeps_its_last_message(rt: HostRuntime) -> Result<(), Fail> {
    let hasher = RandomState::new(&rt)?;
    let mut routes = Routes::new(rt.alloc(), hasher, RETAINED_LIMIT);
    let done = retain_again(&rt, rt.alloc(), &mut routes);
    drop(routes);
    done
}

/// Retains one of a thousand messages.
fn retain_one(alloc: Global, routes: &mut Routes<u16>, n: u16) -> Result<(), Fail> {
    let topic = format!(in alloc; "a/{n}")?;
    let done = retain(alloc, routes, topic.as_str(), Some(n));
    drop(topic);
    done
}

/// A thousand messages stand, and no more.
fn retain_often(rt: &impl Abort, alloc: Global, routes: &mut Routes<u16>) -> Result<(), Fail> {
    for n in 0..1000u16 {
        retain_one(alloc, routes, n)?;
    }
    let more = TopicName::parse(alloc, "b")?;
    assert_eq!(rt; routes.retain(more, Some(1)), Err(RoutesFault::Full));
    let more = TopicName::parse(alloc, "b")?;
    assert_eq!(rt; routes.retain(more, None), Ok(()));
    retain(alloc, routes, "a/5", Some(7))?;
    Ok(())
}

#[test]
fn a_thousand_topics_are_retained(rt: HostRuntime) -> Result<(), Fail> {
    let hasher = RandomState::new(&rt)?;
    let mut routes = Routes::new(rt.alloc(), hasher, RETAINED_LIMIT);
    let done = retain_often(&rt, rt.alloc(), &mut routes);
    drop(routes);
    done
}

/// Where two topics can have a message a third is refused; one that stands is replaced, and one that
/// goes makes place.
fn retain_two(rt: &impl Abort, alloc: Global, routes: &mut Routes<u16>) -> Result<(), Fail> {
    retain(alloc, routes, "a", Some(1))?;
    retain(alloc, routes, "b", Some(2))?;
    let third = TopicName::parse(alloc, "c")?;
    assert_eq!(rt; routes.retain(third, Some(3)), Err(RoutesFault::Full));
    retain(alloc, routes, "a", Some(4))?;
    assert_eq!(rt; look(alloc, routes, "#")?, ([4, 2], 2));
    retain(alloc, routes, "a", None)?;
    retain(alloc, routes, "c", Some(5))?;
    assert_eq!(rt; look(alloc, routes, "#")?, ([2, 5], 2));
    let third = TopicName::parse(alloc, "a")?;
    assert_eq!(rt; routes.retain(third, Some(6)), Err(RoutesFault::Full));
    Ok(())
}

#[test]
fn a_third_topic_of_two_is_refused(rt: HostRuntime) -> Result<(), Fail> {
    let hasher = RandomState::new(&rt)?;
    let mut routes = Routes::new(rt.alloc(), hasher, 2);
    let done = retain_two(&rt, rt.alloc(), &mut routes);
    drop(routes);
    done
}

/// Where no topic can have a message each is refused, also with room for it, and none is removed.
fn retain_none(rt: &impl Abort, alloc: Global, routes: &mut Routes<u16>) -> Result<(), Fail> {
    let topic = TopicName::parse(alloc, "a")?;
    let room = routes.make_topic_room(&[&topic]);
    assert_eq!(rt; routes.retain(topic, Some(1)), Err(RoutesFault::Full));
    retain(alloc, routes, "a", None)?;
    assert_eq!(rt; look(alloc, routes, "#")?, ([0, 0], 0));
    Ok(room?)
}

#[test]
fn no_topic_of_none_is_retained(rt: HostRuntime) -> Result<(), Fail> {
    let hasher = RandomState::new(&rt)?;
    let mut routes = Routes::new(rt.alloc(), hasher, 0);
    let done = retain_none(&rt, rt.alloc(), &mut routes);
    drop(routes);
    done
}
