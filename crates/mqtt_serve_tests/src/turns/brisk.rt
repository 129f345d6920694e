//! Connections on which nothing comes about are passed over in brisk turns, and not in full ones; and where nothing more has come
//! the link waits (ours).
use crate::turns::clients::Stage;
use crate::turns::stretches::{Held, Standing, clients_held, stretch, stretch_behind};
use crate::turns::turns::{CONNACK, LIMITS, PUBLISHED, PUBLISHER, SUBSCRIBED, SUBSCRIBER, are};
use mqtt_broker::Engine;
use mqtt_keep::MemKeep;
use mqtt_serve::{Quiet, run_settled_turns};
use std::alloc::Global;
use std::hash::RandomState;
use std::test::Fail;

/// By "i": CONNECT, and nothing else (3.1).
const IDLE: &[Stage] = &[(0, b"\x10\x0e\x00\x04MQTT\x05\x02\x00\x00\x00\x00\x01i")];

/// The same, and PINGREQ once it is connected (3.12).
const PINGING: &[Stage] = &[
    (0, b"\x10\x0e\x00\x04MQTT\x05\x02\x00\x00\x00\x00\x01i"),
    (16, b"\xc0\x00"),
];

/// How often the idle client was read once it was connected, after each of: twenty stretches at one moment; one a millisecond
/// later; one in the next span of 16 milliseconds.
fn reads_of_idle(links: &mut Held, alloc: Global, hasher: RandomState) -> Result<[u64; 3], Fail> {
    let Ok(mut engine) = Engine::open(alloc, MemKeep::new(alloc)?, 0, LIMITS, hasher) else {
        return Err(Fail::from("the broker can't be opened"));
    };
    let mut goes_on = true;
    for _ in 0..6 {
        goes_on = goes_on && stretch(links, &mut engine, 1).is_ok();
    }
    let connected = links.link().link().reads(1);
    for _ in 0..20 {
        goes_on = goes_on && stretch(links, &mut engine, 1).is_ok();
    }
    let together = links.link().link().reads(1).wrapping_sub(connected);
    goes_on = goes_on && stretch_behind(links, &mut engine, 1, 2).is_ok();
    let later = links.link().link().reads(1).wrapping_sub(connected);
    goes_on = goes_on && stretch_behind(links, &mut engine, 2, 16).is_ok();
    let next = links.link().link().reads(1).wrapping_sub(connected);
    drop(engine.close());
    if goes_on {
        return Ok([together, later, next]);
    }
    Err(Fail::from("the engine refuses"))
}

#[test]
fn an_idle_connection_is_read_once_in_sixteen_milliseconds(rt: HostRuntime) -> Result<(), Fail> {
    let mut links = clients_held(rt.alloc(), &[SUBSCRIBER, IDLE, PUBLISHER])?;
    let reads = reads_of_idle(&mut links, rt.alloc(), RandomState::new(&rt)?);
    let is_received = are(links.link().link().taken(0), CONNACK, SUBSCRIBED);
    let is_published = are(links.link().link().taken(2), CONNACK, PUBLISHED);
    drop(links);
    let reads = reads?;
    assert!(rt; reads == [0, 0, 1], "{reads:?}");
    assert!(rt; is_received);
    assert!(rt; is_published);
    Ok(())
}

/// How often the link was asked to wait in so many turns, in the first of which this client came, and how many bytes came to it.
fn waits(rt: &HostRuntime, client: &'static [Stage], turns: u32) -> Result<(u64, usize), Fail> {
    let alloc = rt.alloc();
    let mut links = clients_held(alloc, &[client])?;
    let keep = MemKeep::new(alloc)?;
    let Ok(mut engine) = Engine::open(alloc, keep, 0, LIMITS, RandomState::new(rt)?) else {
        return Err(Fail::from("the broker can't be opened"));
    };
    let mut timer = Standing { moment: 1 };
    let ran = run_settled_turns(&mut links, &mut engine, &mut timer, turns, 0, &mut Quiet);
    let clients = links.link().link();
    let found = (clients.waits(), clients.taken(0).len());
    drop(engine.close());
    drop(links);
    match ran {
        Ok(()) => Ok(found),
        Err(_) => Err(Fail::from("the engine refuses")),
    }
}

#[test]
fn the_link_waits_behind_a_turn_unless_more_has_come(rt: HostRuntime) -> Result<(), Fail> {
    assert!(rt; waits(&rt, IDLE, 2)? == (1, 16));
    assert!(rt; waits(&rt, PINGING, 2)? == (0, 16));
    assert!(rt; waits(&rt, PINGING, 3)? == (1, 18));
    Ok(())
}
