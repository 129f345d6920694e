//! A publisher that is left unread while a reader has too much before it (ours).
use crate::turns::clients::Stage;
use crate::turns::stretches::{clients_held, stretch};
use mqtt_broker::Engine;
use mqtt_flow::Full;
use mqtt_keep::MemKeep;
use mqtt_rules::Limits;
use std::hash::RandomState;
use std::test::Fail;

/// Queues for 12 copies: with more than three, others are held.
const LIMITS: Limits = Limits {
    full: Full::Refuse,
    queue: 12,
    sessions: 10,
    retained: 10,
};

/// By "s": CONNECT and SUBSCRIBE to "a/b" at QoS 1; then it answers nothing (3.1, 3.8).
const SILENT: &[Stage] = &[(
    0,
    b"\x10\x0e\x00\x04MQTT\x05\x02\x00\x00\x00\x00\x01s\x82\x09\x00\x01\x00\x00\x03a/b\x01",
)];

/// The same, and three PUBACK once four PUBLISH have come (3.4).
const READING: &[Stage] = &[
    (
        0,
        b"\x10\x0e\x00\x04MQTT\x05\x02\x00\x00\x00\x00\x01s\x82\x09\x00\x01\x00\x00\x03a/b\x01",
    ),
    (70, b"\x40\x02\x00\x01\x40\x02\x00\x02\x40\x02\x00\x03"),
];

/// By "p": CONNECT; four PUBLISH to "a/b" at QoS 1; one more once these are answered, and one once that is (3.3).
const PUBLISHING: &[Stage] = &[
    (0, b"\x10\x0e\x00\x04MQTT\x05\x02\x00\x00\x00\x00\x01p"),
    (
        16,
        b"\x32\x0a\x00\x03a/b\x00\x01\x00hi\x32\x0a\x00\x03a/b\x00\x02\x00hi\
        \x32\x0a\x00\x03a/b\x00\x03\x00hi\x32\x0a\x00\x03a/b\x00\x04\x00hi",
    ),
    (32, b"\x32\x0a\x00\x03a/b\x00\x05\x00hi"),
    (36, b"\x32\x0a\x00\x03a/b\x00\x06\x00hi"),
];

/// How many messages were accepted after ten stretches, a millisecond each, and then after one more at each of these moments.
fn accepted(
    rt: &HostRuntime,
    reader: &'static [Stage],
    moments: [u64; 4],
) -> Result<[u64; 5], Fail> {
    let alloc = rt.alloc();
    let mut links = clients_held(alloc, &[reader, PUBLISHING])?;
    let Ok(mut engine) = Engine::open(
        alloc,
        MemKeep::new(alloc)?,
        0,
        LIMITS,
        RandomState::new(rt)?,
    ) else {
        return Err(Fail::from("the broker can't be opened"));
    };
    let mut counts = [0; 5];
    let mut goes_on = true;
    for moment in 1..11 {
        goes_on = goes_on && stretch(&mut links, &mut engine, moment).is_ok();
    }
    counts[0] = engine.publications();
    for place in 0..4 {
        goes_on = goes_on && stretch(&mut links, &mut engine, moments[place]).is_ok();
        counts[place + 1] = engine.publications();
    }
    drop(engine.close());
    drop(links);
    if goes_on {
        return Ok(counts);
    }
    Err(Fail::from("the engine refuses"))
}

#[test]
fn a_publisher_is_held_for_half_a_second_and_not_for_a_reader_that_stopped(
    rt: HostRuntime,
) -> Result<(), Fail> {
    let counts = accepted(&rt, SILENT, [501, 502, 1_001, 1_002])?;
    assert!(rt; counts == [4, 4, 5, 5, 6], "{counts:?}");
    Ok(())
}

#[test]
fn a_publisher_is_read_again_once_the_reader_has_taken_enough(rt: HostRuntime) -> Result<(), Fail> {
    let counts = accepted(&rt, READING, [501, 502, 1_001, 1_002])?;
    assert!(rt; counts == [6, 6, 6, 6, 6], "{counts:?}");
    Ok(())
}
