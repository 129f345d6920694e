//! Whose turn it is in a group (MQTT 5.0, 4.8.2).
use crate::routing::bed::{ALL, Bed, ONE, TWO, World, ZERO, subscribe_all};
use std::alloc::Global;
use std::process::Abort;
use std::test::Fail;

/// Four publications go to the two members of the group in turn.
fn take_turns(rt: &impl Abort, alloc: Global, bed: &mut Bed) -> Result<(), Fail> {
    subscribe_all(alloc, bed, 4, ONE)?;
    for (birth, qos) in [(3, TWO), (4, ONE), (3, TWO), (4, ONE)] {
        let seen = bed.accept(2, &ALL)?;
        assert_eq!(rt; (seen.chosen[0], seen.qos), (birth, qos));
        assert_eq!(rt; seen.direct, [(1, TWO, false, 2), (2, ZERO, false, 0)]);
    }
    Ok(())
}

#[test]
fn members_take_their_turns(rt: HostRuntime) -> Result<(), Fail> {
    let mut bed = Bed::new(&rt)?;
    let done = take_turns(&rt, rt.alloc(), &mut bed);
    drop(bed);
    done
}

/// Whom each of five publications goes to in two groups, if the second group isn't served by the
/// second one: it has two members at QoS 0, of which none is connected then.
fn miss_a_turn(rt: &impl Abort, alloc: Global, bed: &mut Bed) -> Result<(), Fail> {
    bed.subscribe(alloc, 3, "$share/g/a/b", 1, TWO)?;
    bed.subscribe(alloc, 4, "$share/g/a/b", 2, TWO)?;
    bed.subscribe(alloc, 5, "$share/h/a/b", 3, ZERO)?;
    bed.subscribe(alloc, 6, "$share/h/a/b", 4, ZERO)?;
    let away = World {
        away: [5, 6],
        ..ALL
    };
    for (world, chosen) in [
        (ALL, [3, 5]),
        (away, [4, 0]),
        (ALL, [3, 6]),
        (ALL, [4, 5]),
        (ALL, [3, 6]),
    ] {
        assert_eq!(rt; bed.accept(2, &world)?.chosen, chosen);
    }
    Ok(())
}

#[test]
fn a_group_that_is_not_served_keeps_its_turn(rt: HostRuntime) -> Result<(), Fail> {
    let mut bed = Bed::new(&rt)?;
    let done = miss_a_turn(&rt, rt.alloc(), &mut bed);
    drop(bed);
    done
}

/// The member whose turn it would be has no room: the one after it is chosen, and the turn goes on
/// from there.
fn pass_a_turn_on(rt: &impl Abort, alloc: Global, bed: &mut Bed) -> Result<(), Fail> {
    bed.subscribe(alloc, 3, "$share/g/a/b", 1, TWO)?;
    bed.subscribe(alloc, 4, "$share/g/a/b", 2, TWO)?;
    bed.subscribe(alloc, 5, "$share/g/a/b", 3, TWO)?;
    let full = World {
        full: [4, 0],
        ..ALL
    };
    for (world, birth) in [(ALL, 3), (full, 5), (ALL, 3), (ALL, 4), (ALL, 5)] {
        assert_eq!(rt; bed.accept(1, &world)?.chosen[0], birth);
    }
    Ok(())
}

#[test]
fn a_turn_goes_on_from_the_chosen_member(rt: HostRuntime) -> Result<(), Fail> {
    let mut bed = Bed::new(&rt)?;
    let done = pass_a_turn_on(&rt, rt.alloc(), &mut bed);
    drop(bed);
    done
}

/// The oldest member, who was chosen, subscribes anew, and then the other one: neither has a second
/// turn for it, and neither loses its own.
fn replace(rt: &impl Abort, alloc: Global, bed: &mut Bed) -> Result<(), Fail> {
    subscribe_all(alloc, bed, 4, ONE)?;
    assert_eq!(rt; bed.accept(2, &ALL)?.chosen[0], 3);
    bed.subscribe(alloc, 3, "$share/g/a/b", 6, ZERO)?;
    let seen = bed.accept(2, &ALL)?;
    assert_eq!(rt; (seen.chosen[0], seen.qos), (4, ONE));
    bed.subscribe(alloc, 4, "$share/g/a/b", 7, TWO)?;
    let seen = bed.accept(2, &ALL)?;
    assert_eq!(rt; (seen.chosen[0], seen.qos), (3, ZERO));
    let seen = bed.accept(2, &ALL)?;
    assert_eq!(rt; (seen.chosen[0], seen.qos), (4, TWO));
    Ok(())
}

#[test]
fn a_replaced_subscription_keeps_its_turn(rt: HostRuntime) -> Result<(), Fail> {
    let mut bed = Bed::new(&rt)?;
    let done = replace(&rt, rt.alloc(), &mut bed);
    drop(bed);
    done
}

/// A publication that isn't accepted takes no turn.
fn ask_only(rt: &impl Abort, alloc: Global, bed: &mut Bed) -> Result<(), Fail> {
    subscribe_all(alloc, bed, 4, ONE)?;
    for _ in 0..2 {
        assert_eq!(rt; bed.ask("p", 2, &ALL)?.chosen[0], 3);
    }
    assert_eq!(rt; bed.accept(2, &ALL)?.chosen[0], 3);
    assert_eq!(rt; bed.ask("p", 2, &ALL)?.chosen[0], 4);
    Ok(())
}

#[test]
fn a_turn_is_taken_by_acceptance_alone(rt: HostRuntime) -> Result<(), Fail> {
    let mut bed = Bed::new(&rt)?;
    let done = ask_only(&rt, rt.alloc(), &mut bed);
    drop(bed);
    done
}

/// A turn that is taken back comes again, after the one before it.
fn take_back(rt: &impl Abort, alloc: Global, bed: &mut Bed) -> Result<(), Fail> {
    subscribe_all(alloc, bed, 4, ONE)?;
    assert_eq!(rt; bed.accept(2, &ALL)?.chosen[0], 3);
    assert_eq!(rt; bed.forgo(2, &ALL)?.chosen[0], 4);
    assert_eq!(rt; bed.accept(2, &ALL)?.chosen[0], 4);
    assert_eq!(rt; bed.accept(2, &ALL)?.chosen[0], 3);
    Ok(())
}

#[test]
fn a_turn_that_is_taken_back_comes_again(rt: HostRuntime) -> Result<(), Fail> {
    let mut bed = Bed::new(&rt)?;
    let done = take_back(&rt, rt.alloc(), &mut bed);
    drop(bed);
    done
}

/// A table that is made anew goes on with the turns of the one before.
fn go_on(rt: &impl Abort, alloc: Global, bed: &mut Bed, anew: &mut Bed) -> Result<(), Fail> {
    subscribe_all(alloc, bed, 4, ONE)?;
    subscribe_all(alloc, anew, 4, ONE)?;
    assert_eq!(rt; bed.accept(2, &ALL)?.chosen[0], 3);
    anew.keep_turns(bed);
    assert_eq!(rt; anew.accept(2, &ALL)?.chosen[0], 4);
    assert_eq!(rt; anew.accept(2, &ALL)?.chosen[0], 3);
    Ok(())
}

#[test]
fn a_table_made_anew_goes_on_with_the_turns(rt: HostRuntime) -> Result<(), Fail> {
    let mut bed = Bed::new(&rt)?;
    let mut anew = Bed::new(&rt)?;
    let done = go_on(&rt, rt.alloc(), &mut bed, &mut anew);
    drop(bed);
    drop(anew);
    done
}
