//! A store that is full (MQTT 5.0, 4.1).
use crate::turns::clients::{Clients, Stage};
use crate::turns::failing::{FailingKeep, Lack};
use crate::turns::turns::LIMITS;
use mqtt_broker::Engine;
use mqtt_broker_step::EngineError;
use mqtt_serve::{Links, serve_turn};
use std::hash::RandomState;
use std::test::Fail;

/// A CONNECT with Clean Start 1 by the client "a" (3.1).
const CONNECT: &[Stage] = &[(0, b"\x10\x0e\x00\x04MQTT\x05\x02\x00\x3c\x00\x00\x01a")];

/// What the first turns answer over a store that has room for so many steps, up to the first that breaks off; how many bytes the
/// client was sent, and the store's failures.
fn ends(rt: &HostRuntime, room: u64) -> Result<(Result<bool, EngineError>, usize, u64), Fail> {
    let alloc = rt.alloc();
    let Ok(mut engine) = Engine::open(
        alloc,
        FailingKeep::new(alloc, room, u64::MAX, Lack::Room)?,
        0,
        LIMITS,
        RandomState::new(rt)?,
    ) else {
        return Err(Fail::from("the broker can't be opened"));
    };
    let clients = Clients::new(alloc, &[CONNECT], 4096, None);
    let failures;
    let (mut ended, mut taken) = (Ok(true), 0);
    if let Ok(mut links) = Links::new(alloc, clients?) {
        for moment in 0..10 {
            if ended.is_ok() {
                ended = serve_turn(&mut links, &mut engine, moment);
            }
        }
        taken = links.link().taken(0).len();
    }
    failures = engine.failures();
    drop(engine.close());
    Ok((ended, taken, failures))
}

#[test]
fn a_full_store_ends_the_turns_and_nothing_is_answered(rt: HostRuntime) -> Result<(), Fail> {
    // The opening is stored; the session is not.
    let (ended, taken, failures) = ends(&rt, 1)?;
    assert!(rt; ended == Err(EngineError::Stopped));
    assert!(rt; taken == 0 && failures == 1);
    let (ended, taken, failures) = ends(&rt, 100)?;
    assert!(rt; ended.is_ok());
    assert!(rt; taken == 16 && failures == 0);
    Ok(())
}
