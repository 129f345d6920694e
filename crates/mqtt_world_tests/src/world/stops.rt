//! Wherever the broker stops, a message is handed over once (MQTT 5.0, 4.1, 4.3.3, 4.4).

use crate::world::stage::{Sight, new_world, run, sight_of};
use mqtt_keep::MemKeep;
use mqtt_world::World;
use mqtt_world_ends::peers::RunFault;
use std::alloc::Global;
use std::hash::RandomState;
use std::test::Fail;

/// A receiver that subscribed, and a publisher that is to send a message of QoS 2.
const SETTING: &str =
    "receiver r1 10;publisher p1;connect r1 0;tobroker r1;toend r1;subscribe r1 2 0 0 0 0 a/b;\
    tobroker r1;toend r1;connect p1 0;tobroker p1;toend p1;publish p1 2 0 a/b 6869";

/// The message is sent, and its copy handed over.
fn message() -> &'static [&'static str] {
    &[
        "tobroker p1",
        "toend p1",
        "tobroker p1",
        "toend p1",
        "pump r1",
        "toend r1",
        "tobroker r1",
        "toend r1",
        "tobroker r1",
        "pump p1",
        "tick",
        "break r1",
        "break p1",
    ]
}

/// Both connect again, and all that is under way is read.
const ROUND: &str = "tobroker p1;toend p1;tobroker r1;toend r1;pump r1;toend r1";

/// Runs the events before this place, and stops before the commit of the one there, or after it.
fn stop(
    alloc: Global,
    world: &mut World<MemKeep>,
    word: &str,
    place: usize,
) -> Result<(), RunFault> {
    run(alloc, world, SETTING)?;
    for event in message().iter().take(place) {
        run(alloc, world, event)?;
    }
    let last = message().get(place).copied().unwrap_or("tick");
    let line = format!(in alloc; "{word} {last}")?;
    let stopped = run(alloc, world, line.as_str());
    drop(line);
    stopped
}

/// All that is under way is read, once both have connected again.
fn settle(alloc: Global, world: &mut World<MemKeep>) -> Result<(), RunFault> {
    run(alloc, world, "connect r1 0;connect p1 0")?;
    for _ in 0..8 {
        run(alloc, world, ROUND)?;
    }
    Ok(())
}

/// What is seen at last of a world whose broker stopped there.
fn sight_behind(
    alloc: Global,
    hasher: RandomState,
    word: &str,
    place: usize,
) -> Result<Sight, RunFault> {
    let mut world = new_world(alloc, hasher)?;
    let stopped = stop(alloc, &mut world, word, place);
    let settled = settle(alloc, &mut world);
    let sight = sight_of(alloc, &world);
    drop(world);
    stopped?;
    settled?;
    Ok(sight?)
}

#[test]
fn wherever_the_broker_stops_a_message_is_handed_over_once(rt: HostRuntime) -> Result<(), Fail> {
    for (place, event) in message().iter().enumerate() {
        if event.starts_with("toend") {
            continue;
        }
        for word in ["stopbefore", "stopafter"] {
            let sight = sight_behind(rt.alloc(), RandomState::new(&rt)?, word, place)?;
            assert!(rt;
                sight
                    == Sight {
                        messages: (Some(1), Some(1)),
                        copies: (Some(1), Some(1), Some(0)),
                        broker: (Some(1), Some(2)),
                    },
                "{word} {event}: {sight:?}"
            );
        }
    }
    Ok(())
}
