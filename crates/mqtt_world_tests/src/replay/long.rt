//! A script of 100,000 events, and stores that fail (MQTT 5.0, 4.1).

use crate::replay::playing::{in_memory, over_faulty};
use mqtt_keep::Failure;
use mqtt_replay::{Played, ReplayFault};
use std::alloc::{AllocError, Global};
use std::hash::RandomState;
use std::test::Fail;

/// A publisher and a receiver that subscribed.
const BEGIN: &str = "receiver r1 10\npublisher p1\nconnect r1 0\ntobroker r1\ntoend r1\n\
    subscribe r1 2 0 0 0 0 a/b\ntobroker r1\ntoend r1\nconnect p1 0\ntobroker p1\ntoend p1\n";

/// A message goes its way: ten events.
const MESSAGE: &str = "publish p1 2 0 a/b 6869\ntobroker p1\ntoend p1\ntobroker p1\ntoend p1\n\
    pump r1\ntoend r1\ntobroker r1\ntoend r1\ntobroker r1\n";

/// Time passes, and nothing is due: a hundred events.
fn idle(alloc: Global) -> Result<String, AllocError> {
    let mut text = String::new(alloc);
    for _ in 0..50 {
        text.push_str("clock 1\ntick\n")?;
    }
    Ok(text)
}

/// So many messages, and between them idle events.
fn long(alloc: Global, messages: usize, idles: usize) -> Result<String, AllocError> {
    let mut script = String::new(alloc);
    script.push_str(BEGIN)?;
    let idle = idle(alloc)?;
    for _ in 0..messages {
        script.push_str(MESSAGE)?;
        for _ in 0..idles {
            script.push_str(idle.as_str())?;
        }
    }
    drop(idle);
    Ok(script)
}

#[test]
fn a_hundred_thousand_events(rt: HostRuntime) -> Result<(), Fail> {
    let hasher = RandomState::new(&rt)?;
    let script = long(rt.alloc(), 100, 10)?;
    let mut written = Vec::new(rt.alloc());
    let played = in_memory(rt.alloc(), hasher, script.as_str(), &mut written);
    drop(script);
    let text = "\np1 sent=100 done=100\nbroker publications=100 sessions=2\n";
    let is_text = written.as_slice().ends_with(text.as_bytes());
    drop(written);
    assert!(rt; played == Ok(Played::Whole));
    assert!(rt; is_text);
    Ok(())
}

/// Whether a replay over a store whose device fails, once after so many steps, ends so with a beginning of the text.
fn is_front(
    alloc: Global,
    hasher: RandomState,
    until: u64,
    failure: Failure,
    script: &str,
    text: &[u8],
) -> bool {
    let mut written = Vec::new(alloc);
    let played = over_faulty(alloc, hasher, until, failure, script, &mut written);
    let is_front = text.starts_with(written.as_slice()) && text.len() > written.len();
    drop(written);
    is_front && played == Err(ReplayFault::Store)
}

#[test]
fn stores_that_fail(rt: HostRuntime) -> Result<(), Fail> {
    let hasher = RandomState::new(&rt)?;
    let script = long(rt.alloc(), 1, 0)?;
    let mut text = Vec::new(rt.alloc());
    let played = in_memory(rt.alloc(), hasher, script.as_str(), &mut text);
    let mut are_fronts = played == Ok(Played::Whole);
    for until in 0..8 {
        for failure in [Failure::BeforeChanges, Failure::AfterChanges] {
            are_fronts = are_fronts
                && is_front(
                    rt.alloc(),
                    hasher,
                    until,
                    failure,
                    script.as_str(),
                    text.as_slice(),
                );
        }
    }
    drop(script);
    drop(text);
    assert!(rt; are_fronts);
    Ok(())
}
