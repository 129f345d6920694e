//! A world over a store in memory, and scripts for it.

use mqtt_flow::Full;
use mqtt_keep::MemKeep;
use mqtt_replay::playing::push_told;
use mqtt_script::{Event, event_of};
use mqtt_world::{Limits, World};
use mqtt_world_ends::peers::{RunFault, Told};
use std::alloc::{AllocError, Global};
use std::hash::RandomState;

const LIMITS: Limits = Limits {
    full: Full::Refuse,
    queue: 10,
    sessions: 10,
    retained: 10,
};

/// A world whose store holds nothing.
pub(crate) fn new_world(alloc: Global, hasher: RandomState) -> Result<World<MemKeep>, RunFault> {
    World::new(alloc, MemKeep::new(alloc)?, LIMITS, hasher)
}

/// The events of a script, with `;` between them.
fn events_of(alloc: Global, script: &str) -> Result<Vec<Event>, AllocError> {
    let mut events = Vec::new(alloc);
    for line in script.split(';') {
        match event_of(alloc, line.as_bytes()) {
            Ok(event) => events.push(event)?,
            // (a line that is no event ends the test too)
            Err(_) => return Err(AllocError),
        }
    }
    Ok(events)
}

/// Why the events of a script do not all happen.
pub(crate) fn run(alloc: Global, world: &mut World<MemKeep>, script: &str) -> Result<(), RunFault> {
    let events = events_of(alloc, script)?;
    let answer = world.run(&events);
    drop(events);
    match answer {
        Ok(tells) => {
            drop(tells);
            Ok(())
        }
        Err(fault) => Err(fault),
    }
}

/// How many rounds the drain of a line takes.
pub(crate) fn drain(
    alloc: Global,
    world: &mut World<MemKeep>,
    line: &str,
) -> Result<u32, RunFault> {
    match event_of(alloc, line.as_bytes()) {
        Ok(Event::Drain { client }) => {
            let rounds = world.drain(&client);
            drop(client);
            rounds
        }
        Ok(other) => {
            drop(other);
            Err(RunFault::Store)
        }
        Err(_) => Err(RunFault::Memory),
    }
}

/// What events told, a line for each.
fn push_tells(text: &mut String, events: &[Event], tells: &[Told]) -> Result<(), AllocError> {
    let mut number: u64 = 0;
    for (event, told) in events.iter().zip(tells) {
        number = number.saturating_add(1);
        push_told(
            text,
            number,
            event.first_word(),
            told.reports.as_slice(),
            told.out,
        )?;
    }
    Ok(())
}

/// Adds what the events of a script tell, a line for each.
pub(crate) fn push_run(
    alloc: Global,
    text: &mut String,
    world: &mut World<MemKeep>,
    script: &str,
) -> Result<(), RunFault> {
    let events = events_of(alloc, script)?;
    let pushed = match world.run(&events) {
        Ok(tells) => {
            let pushed = push_tells(text, &events, &tells);
            drop(tells);
            pushed
        }
        Err(fault) => {
            drop(events);
            return Err(fault);
        }
    };
    drop(events);
    Ok(pushed?)
}

/// What is seen of the publisher p1, the receiver r1 and the broker.
#[derive(Clone, Copy, Debug, PartialEq, Eq)]
pub(crate) struct Sight {
    /// The messages of p1, and those of them that were completed.
    pub(crate) messages: (Option<u64>, Option<u64>),
    /// How many copies r1 was handed, the first of them, and how many wait for it.
    pub(crate) copies: (Option<usize>, Option<u64>, Option<u64>),
    /// The publications, and the sessions.
    pub(crate) broker: (Option<u64>, Option<u64>),
}

/// What is seen of a world.
pub(crate) fn sight_of(alloc: Global, world: &World<MemKeep>) -> Result<Sight, AllocError> {
    let handed = world.handed(alloc, "r1")?;
    let (count, first) = match &handed {
        Some(handed) => (Some(handed.len()), handed.first().copied()),
        None => (None, None),
    };
    drop(handed);
    Ok(Sight {
        messages: (world.sent("p1"), world.done("p1")),
        copies: (count, first, world.queue("r1")),
        broker: (world.publications(), world.sessions()),
    })
}
