//! Events that can't happen, each at its place.

use crate::world::stage::{new_world, run};
use mqtt_world_ends::peers::RunFault;
use std::alloc::Global;
use std::hash::RandomState;
use std::test::Fail;

/// Scripts, of which the event at this place can't happen.
fn scripts() -> &'static [(&'static str, usize)] {
    &[
        ("publisher p1;publisher p1", 1),
        ("publisher p1;receiver p1 1", 1),
        ("publisher auto-1", 0),
        (
            "publisher 12345678901234567890123456789012345678901234567890123456789012345",
            0,
        ),
        ("connect p1 0", 0),
        ("publisher p1;connect p1 0;connect p1 0", 2),
        ("publisher p1;giveup p1", 1),
        ("publisher p1;break p1", 1),
        ("receiver r1 1;publish r1 0 0 a -", 1),
        ("publisher p1;subscribe p1 0 0 0 0 0 a", 1),
        ("receiver r1 1;subscribe r1 0 0 0 0 0 a", 1),
        ("receiver r1 1;connect r1 0;subscribe r1 0 0 0 0 0 a", 2),
        (
            "receiver r1 1;connect r1 0;tobroker r1;toend r1;subscribe r1 0 0 0 0 0 a;subscribe r1 0 0 0 0 0 b",
            5,
        ),
        ("tobroker p1", 0),
        ("tobroker p1 old", 0),
        ("toend p1", 0),
        ("pump p1", 0),
        ("drain r1", 0),
        ("receiver r1 1;drain r1", 1),
        ("publisher p1;connect p1 0;drain p1", 2),
        ("receiver r1 1;connect r1 0;giveup r1;drain r1", 3),
        // (the broker has closed its line)
        ("receiver r1 1;connect r1 0;clock 86400000;tick;drain r1", 4),
        ("stopafter tobroker p1", 0),
        ("publisher p1;stopafter break p1", 1),
        ("stopbefore pump p1", 0),
        // (a CONNECT whose client identifier is p1)
        (
            "publisher p1;stranger s 100f00044d515454050200000000027031",
            1,
        ),
    ]
}

/// Why a script does not all happen, and what comes of another behind it.
fn refusal(
    alloc: Global,
    hasher: RandomState,
    script: &str,
) -> Result<(Result<(), RunFault>, Result<(), RunFault>), RunFault> {
    let mut world = new_world(alloc, hasher)?;
    let first = run(alloc, &mut world, script);
    let second = run(alloc, &mut world, "clock 1;tick;restart");
    drop(world);
    Ok((first, second))
}

#[test]
fn what_cannot_happen_is_refused_at_its_place(rt: HostRuntime) -> Result<(), Fail> {
    for (script, place) in scripts() {
        let (first, second) = refusal(rt.alloc(), RandomState::new(&rt)?, script)?;
        assert!(rt;
            first == Err(RunFault::BadEvent { place: *place }),
            "{script}: {first:?}"
        );
        assert!(rt; second.is_ok(), "{script}, and behind it: {second:?}");
    }
    Ok(())
}
