//! A receiver is drained: rounds until nothing waits for it (MQTT 5.0, 4.3, 4.4, 4.6).

use crate::world::stage::{Sight, drain, new_world, push_run, run, sight_of};
use mqtt_world_ends::peers::RunFault;
use std::alloc::Global;
use std::hash::RandomState;
use std::test::Fail;

/// Two messages of QoS 2 wait for a receiver with a Receive Maximum of 1.
const WAITING: &str =
    "receiver r1 1;publisher p1;connect r1 0;tobroker r1;toend r1;subscribe r1 2 0 0 0 0 a/b;\
    tobroker r1;toend r1;connect p1 0;tobroker p1;toend p1;publish p1 2 0 a/b 6869;\
    publish p1 2 0 a/b 6869;tobroker p1;tobroker p1";

/// What the drain of them tells: two PUBLISH and two PUBREL went out.
const DRAINED_TEXT: &str = "1 drain ended=1>r1:Taken ended=2>r1:Taken out=4\n2 drain\n";

/// What two drains tell, one behind the other, and what is seen then.
fn drained(alloc: Global, hasher: RandomState) -> Result<(bool, Sight), RunFault> {
    let mut world = new_world(alloc, hasher)?;
    let waits = run(alloc, &mut world, WAITING);
    let mut text = String::new(alloc);
    let ran = push_run(alloc, &mut text, &mut world, "drain r1;drain r1");
    let is_right = text.as_str() == DRAINED_TEXT;
    drop(text);
    let sight = sight_of(alloc, &world);
    drop(world);
    waits?;
    ran?;
    Ok((is_right, sight?))
}

#[test]
fn a_drain_hands_over_all_that_waits(rt: HostRuntime) -> Result<(), Fail> {
    let (is_right, sight) = drained(rt.alloc(), RandomState::new(&rt)?)?;
    assert!(rt; is_right, "what it tells");
    assert!(rt;
        sight
            == Sight {
                messages: (Some(2), Some(0)),
                copies: (Some(2), Some(1), Some(0)),
                broker: (Some(2), Some(2)),
            },
        "{sight:?}"
    );
    Ok(())
}

/// How many rounds the drains of some clients take, one behind the other, and whether the world goes on then.
fn rounds(
    alloc: Global,
    hasher: RandomState,
    script: &str,
) -> Result<([Result<u32, RunFault>; 4], Result<(), RunFault>), RunFault> {
    let mut world = new_world(alloc, hasher)?;
    let waits = run(alloc, &mut world, script);
    let answers = [
        drain(alloc, &mut world, "drain r1"),
        drain(alloc, &mut world, "drain r1"),
        drain(alloc, &mut world, "drain p1"),
        drain(alloc, &mut world, "drain r2"),
    ];
    let goes_on = run(alloc, &mut world, "clock 1;tick;restart");
    drop(world);
    waits?;
    Ok((answers, goes_on))
}

#[test]
fn a_drain_tells_its_rounds(rt: HostRuntime) -> Result<(), Fail> {
    // (two copies: of at most five rounds)
    let (answers, goes_on) = rounds(rt.alloc(), RandomState::new(&rt)?, WAITING)?;
    let bad = Err(RunFault::BadEvent { place: 17 });
    assert!(rt; answers == [Ok(4), Ok(0), bad, bad], "{answers:?}");
    assert!(rt; goes_on.is_ok(), "{goes_on:?}");
    Ok(())
}
