//! How many subscriptions a session has (MQTT 5.0, 3.8.4, 3.10.4).
use crate::routing::bed::{ALL, Bed, ONE, Seen, ZERO, subscription};
use mqtt_routes::{RoutesFault, Subscription};
use mqtt_topic::TopicFault;
use std::alloc::Global;
use std::process::Abort;
use std::test::Fail;

/// Puts one of a hundred subscriptions.
fn subscribe_one(alloc: Global, bed: &mut Bed, place: u64) -> Result<(), Fail> {
    let filter = format!(in alloc; "a/{place}")?;
    let new = subscription(alloc, filter.as_str(), place, ONE);
    drop(filter);
    Ok(bed.routes.subscribe(1, new?)?)
}

/// A hundred subscriptions stand, and no more.
fn subscribe_often(rt: &impl Abort, alloc: Global, bed: &mut Bed) -> Result<(), Fail> {
    for place in 1..=100u64 {
        subscribe_one(alloc, bed, place)?;
    }
    let more = subscription(alloc, "b", 101, ONE)?;
    assert_eq!(rt; bed.routes.subscribe(1, more), Err(RoutesFault::Full));
    bed.subscribe(alloc, 1, "a/7", 102, ZERO)?;
    assert!(rt; !bed.routes.unsubscribe(1, "b"));
    assert!(rt; bed.routes.unsubscribe(1, "a/7"));
    bed.subscribe(alloc, 1, "b", 103, ONE)?;
    bed.routes.drop_session(1);
    assert!(rt; !bed.routes.unsubscribe(1, "b"));
    Ok(())
}

#[test]
fn a_session_has_a_hundred_subscriptions(rt: HostRuntime) -> Result<(), Fail> {
    let mut bed = Bed::new(&rt)?;
    let done = subscribe_often(&rt, rt.alloc(), &mut bed);
    drop(bed);
    done
}

/// Room is made for two subscriptions, and they are put; the session stands from then on.
fn make_room(rt: &impl Abort, alloc: Global, bed: &mut Bed) -> Result<(), Fail> {
    let one = subscription(alloc, "a", 1, ONE)?;
    let made = bed.routes.make_room(1, &[one]);
    assert_eq!(rt; made, Ok(()));
    bed.subscribe(alloc, 1, "a", 1, ONE)?;
    assert!(rt; bed.routes.unsubscribe(1, "a"));
    Ok(())
}

#[test]
fn room_is_made_beforehand(rt: HostRuntime) -> Result<(), Fail> {
    let mut bed = Bed::new(&rt)?;
    let done = make_room(&rt, rt.alloc(), &mut bed);
    drop(bed);
    done
}

/// What the publication brings, asked again if memory was wanting.
fn asked(bed: &Bed) -> Result<Seen, RoutesFault> {
    match bed.ask("p", 2, &ALL) {
        Ok(seen) => Ok(seen),
        Err(_) => bed.ask("p", 2, &ALL),
    }
}

/// A subscription, made again if memory was wanting.
fn made(alloc: Global, filter: &str, place: u64) -> Result<Subscription, TopicFault> {
    match subscription(alloc, filter, place, ONE) {
        Ok(new) => Ok(new),
        Err(_) => subscription(alloc, filter, place, ONE),
    }
}

/// Subscribes, again if memory was wanting, which changed nothing.
fn subscribe_at_last(
    rt: &impl Abort,
    alloc: Global,
    bed: &mut Bed,
    filter: &str,
    place: u64,
) -> Result<(), Fail> {
    let before = asked(bed)?;
    let new = made(alloc, filter, place)?;
    if let Err(fault) = bed.routes.subscribe(place, new) {
        assert_eq!(rt; fault, RoutesFault::Memory);
        assert_eq!(rt; asked(bed)?, before);
        assert!(rt; !bed.routes.unsubscribe(place, filter), "nothing was put");
        bed.subscribe(alloc, place, filter, place, ONE)?;
    }
    Ok(())
}

/// Subscribes four sessions, of which two are direct.
fn subscribe_four(rt: &impl Abort, alloc: Global, bed: &mut Bed) -> Result<(), Fail> {
    for (filter, place) in [("a/b", 1), ("$share/g/#", 2), ("+/b", 3), ("c", 4)] {
        subscribe_at_last(rt, alloc, bed, filter, place)?;
    }
    let seen = asked(bed)?;
    assert_eq!(rt; seen.direct, [(1, ONE, false, 0), (3, ONE, false, 0)]);
    assert_eq!(rt; seen.chosen, [2, 0]);
    Ok(())
}

/// To be run with each allocation failing in turn: one that is refused changes nothing.
#[test]
fn want_of_memory_changes_nothing(rt: HostRuntime) -> Result<(), Fail> {
    let mut bed = Bed::new(&rt)?;
    let done = subscribe_four(&rt, rt.alloc(), &mut bed);
    drop(bed);
    done
}
