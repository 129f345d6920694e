//! Who gets a publication (MQTT 5.0, 3.3.4, 3.8.3.1, 4.8.2).
use crate::routing::bed::{ALL, Bed, NONE, ONE, TWO, World, ZERO, identified, subscribe_all};
use mqtt_routes::RoutesFault;
use std::alloc::Global;
use std::process::Abort;
use std::test::Fail;

/// Sessions of which these have full queues, or are away.
fn world(full: [u64; 2], away: [u64; 2]) -> World {
    World { full, away }
}

/// Full queues refuse a publication, or pass it on to another member.
fn fill_queues(rt: &impl Abort, alloc: Global, bed: &mut Bed) -> Result<(), Fail> {
    subscribe_all(alloc, bed, 4, ONE)?;
    let seen = bed.ask("p", 2, &world([3, 0], [0; 2]))?;
    assert_eq!(rt; (seen.chosen[0], seen.qos), (4, ONE));
    let full = bed.ask("p", 2, &world([3, 4], [0; 2]));
    assert_eq!(rt; full.err(), Some(RoutesFault::Full));
    let full = bed.ask("p", 1, &world([1, 0], [0; 2]));
    assert_eq!(rt; full.err(), Some(RoutesFault::Full));
    let seen = bed.ask("p", 0, &world([0; 2], [3, 4]))?;
    assert_eq!(rt; seen.chosen[0], 0);
    Ok(())
}

#[test]
fn a_full_queue_is_passed_over(rt: HostRuntime) -> Result<(), Fail> {
    let mut bed = Bed::new(&rt)?;
    let done = fill_queues(&rt, rt.alloc(), &mut bed);
    drop(bed);
    done
}

/// A member that is away can't stand in for one that has no room.
fn be_away(rt: &impl Abort, alloc: Global, bed: &mut Bed) -> Result<(), Fail> {
    subscribe_all(alloc, bed, 5, ZERO)?;
    let full = bed.ask("p", 2, &world([3, 0], [5, 0]));
    assert_eq!(rt; full.err(), Some(RoutesFault::Full));
    Ok(())
}

#[test]
fn a_member_that_is_away_is_no_help(rt: HostRuntime) -> Result<(), Fail> {
    let mut bed = Bed::new(&rt)?;
    let done = be_away(&rt, rt.alloc(), &mut bed);
    drop(bed);
    done
}

/// Subscribes session 1, which is `one`, to `a/#` with No Local and Retain As Published, and to `a/b`.
fn subscribe_one(alloc: Global, bed: &mut Bed) -> Result<(), Fail> {
    let mut first = identified(alloc, "a/#", 1, ONE, 7)?;
    first.options.no_local = true;
    first.options.retain_as_published = true;
    bed.routes.subscribe(1, first)?;
    let second = identified(alloc, "a/b", 2, TWO, 8)?;
    Ok(bed.routes.subscribe(1, second)?)
}

/// A publication of `one` and one of `two` go to session 1.
fn tell_by_subscription(rt: &impl Abort, alloc: Global, bed: &mut Bed) -> Result<(), Fail> {
    subscribe_one(alloc, bed)?;
    let own = bed.ask("one", 2, &ALL)?;
    assert_eq!(rt; own.direct, [(1, TWO, false, 1), NONE]);
    let other = bed.ask("two", 2, &ALL)?;
    assert_eq!(rt; other.direct, [(1, TWO, true, 2), NONE]);
    Ok(())
}

#[test]
fn no_local_and_retain_are_told_by_subscription(rt: HostRuntime) -> Result<(), Fail> {
    let mut bed = Bed::new(&rt)?;
    let done = tell_by_subscription(&rt, rt.alloc(), &mut bed);
    drop(bed);
    done
}

/// Overlapping subscriptions to `#`, `a/+` and `a/b`, in this order, which isn't that of the texts.
fn overlap(rt: &impl Abort, alloc: Global, bed: &mut Bed) -> Result<(), Fail> {
    bed.routes.subscribe(1, identified(alloc, "#", 1, TWO, 3)?)?;
    bed.routes
        .subscribe(1, identified(alloc, "a/+", 2, TWO, 2)?)?;
    bed.routes
        .subscribe(1, identified(alloc, "a/b", 3, TWO, 1)?)?;
    assert_eq!(rt; bed.identifiers()?, (TWO, [3, 2, 1]));
    assert!(rt; bed.routes.unsubscribe(1, "a/+"));
    assert_eq!(rt; bed.ask("p", 2, &ALL)?.direct, [(1, TWO, false, 2), NONE]);
    bed.routes.drop_session(1);
    assert!(rt; !bed.ask("p", 2, &ALL)?.taken);
    Ok(())
}

#[test]
fn identifiers_come_in_the_order_subscribed(rt: HostRuntime) -> Result<(), Fail> {
    let mut bed = Bed::new(&rt)?;
    let done = overlap(&rt, rt.alloc(), &mut bed);
    drop(bed);
    done
}

/// A publication's QoS above 2 counts as 2.
fn ask_above(rt: &impl Abort, alloc: Global, bed: &mut Bed) -> Result<(), Fail> {
    subscribe_all(alloc, bed, 4, ONE)?;
    let above = bed.ask("p", 7, &ALL)?;
    let two = bed.ask("p", 2, &ALL)?;
    assert_eq!(rt; above, two);
    Ok(())
}

#[test]
fn a_quality_above_two_counts_as_two(rt: HostRuntime) -> Result<(), Fail> {
    let mut bed = Bed::new(&rt)?;
    let done = ask_above(&rt, rt.alloc(), &mut bed);
    drop(bed);
    done
}

/// Nobody is there before someone subscribes, nor for an empty table that had one.
fn come_and_go(rt: &impl Abort, alloc: Global, bed: &mut Bed) -> Result<(), Fail> {
    assert!(rt; !bed.ask("p", 1, &ALL)?.taken);
    bed.subscribe(alloc, 3, "$share/g/a/b", 1, ZERO)?;
    let away = bed.ask("p", 1, &world([0; 2], [3, 0]))?;
    assert_eq!(rt; (away.chosen[0], away.taken), (0, true));
    bed.routes.drop_session(3);
    assert!(rt; !bed.ask("p", 1, &ALL)?.taken);
    bed.subscribe(alloc, 1, "#", 2, ZERO)?;
    assert!(rt; bed.ask("p", 1, &ALL)?.taken);
    Ok(())
}

#[test]
fn a_group_that_matches_is_somebody(rt: HostRuntime) -> Result<(), Fail> {
    let mut bed = Bed::new(&rt)?;
    let done = come_and_go(&rt, rt.alloc(), &mut bed);
    drop(bed);
    done
}

/// Session 1 has `a/b` plain and shared, between filters of other topics.
fn have_it_twice(rt: &impl Abort, alloc: Global, bed: &mut Bed) -> Result<(), Fail> {
    bed.subscribe(alloc, 1, "b/#", 1, TWO)?;
    bed.subscribe(alloc, 1, "$share/g/a/b", 2, ONE)?;
    bed.subscribe(alloc, 1, "a/b/c", 3, TWO)?;
    bed.routes
        .subscribe(1, identified(alloc, "a/b", 4, TWO, 9)?)?;
    bed.subscribe(alloc, 2, "a/+", 5, ZERO)?;
    let seen = bed.ask("p", 2, &ALL)?;
    assert_eq!(rt; seen.direct, [(1, TWO, false, 1), (2, ZERO, false, 0)]);
    assert_eq!(rt; (seen.chosen, seen.qos), ([1, 0], ONE));
    assert!(rt; bed.routes.unsubscribe(1, "a/b"));
    let seen = bed.ask("p", 2, &ALL)?;
    assert_eq!(rt; seen.direct, [(2, ZERO, false, 0), NONE]);
    assert_eq!(rt; seen.chosen, [1, 0]);
    Ok(())
}

#[test]
fn one_filter_plain_and_shared_is_two_subscriptions(rt: HostRuntime) -> Result<(), Fail> {
    let mut bed = Bed::new(&rt)?;
    let done = have_it_twice(&rt, rt.alloc(), &mut bed);
    drop(bed);
    done
}
