//! What clients are answered, turn by turn (MQTT 5.0, 3.1, 3.3, 3.8, 3.12, 4.3.3).

use crate::turns::clients::{Clients, Stage};
use mqtt_broker::Engine;
use mqtt_flow::Full;
use mqtt_keep::{Keep, MemKeep};
use mqtt_rules::Limits;
use mqtt_serve::{Links, serve_turn};
use std::alloc::Global;
use std::hash::RandomState;
use std::process::Abort;
use std::test::Fail;

/// What each client that names itself is granted (3.2).
pub(crate) const CONNACK: &[u8] =
    b"\x20\x0e\x00\x00\x0b\x21\x00\x14\x22\x00\x0a\x27\x00\x01\x00\x00";

/// A CONNECT with Clean Start 1 by the client "a" (3.1).
const CONNECT: Stage = (0, b"\x10\x0e\x00\x04MQTT\x05\x02\x00\x3c\x00\x00\x01a");

/// By "s": CONNECT, and SUBSCRIBE to "a/b" at QoS 2; its answers to a PUBLISH and a PUBREL (3.8, 3.5, 3.7).
pub(crate) const SUBSCRIBER: &[Stage] = &[
    (
        0,
        b"\x10\x0e\x00\x04MQTT\x05\x02\x00\x3c\x00\x00\x01s\x82\x09\x00\x01\x00\x00\x03a/b\x02",
    ),
    (34, b"\x50\x02\x00\x01"),
    (38, b"\x70\x02\x00\x01"),
];

/// By "p": CONNECT, then PUBLISH at QoS 2 and PUBREL (3.3, 3.6).
pub(crate) const PUBLISHER: &[Stage] = &[
    (0, b"\x10\x0e\x00\x04MQTT\x05\x02\x00\x3c\x00\x00\x01p"),
    (16, b"\x34\x0a\x00\x03a/b\x00\x07\x00hi"),
    (20, b"\x62\x02\x00\x07"),
];

/// SUBACK, PUBLISH and PUBREL behind the subscriber's CONNACK.
pub(crate) const SUBSCRIBED: &[u8] =
    b"\x90\x04\x00\x01\x00\x02\x34\x0a\x00\x03a/b\x00\x01\x00hi\x62\x02\x00\x01";

/// PUBREC and PUBCOMP behind the publisher's.
pub(crate) const PUBLISHED: &[u8] = b"\x50\x02\x00\x07\x70\x02\x00\x07";

/// CONNECT and PINGREQ by "a" and by "b" (3.12).
pub(crate) const PINGING: [&[Stage]; 2] = [
    &[(
        0,
        b"\x10\x0e\x00\x04MQTT\x05\x02\x00\x3c\x00\x00\x01a\xc0\x00",
    )],
    &[(
        0,
        b"\x10\x0e\x00\x04MQTT\x05\x02\x00\x3c\x00\x00\x01b\xc0\x00",
    )],
];

/// PINGRESP behind the CONNACK (3.13).
pub(crate) const PINGRESP: &[u8] = b"\xd0\x00";

/// A CONNECT whose client is given an identifier (3.1.3.1).
const NAMELESS: &[Stage] = &[(0, b"\x10\x0d\x00\x04MQTT\x05\x02\x00\x3c\x00\x00\x00")];

/// CONNACK with that identifier (3.2.2.3.7).
const NAMED: &[u8] =
    b"\x20\x17\x00\x00\x14\x12\x00\x06auto-1\x21\x00\x14\x22\x00\x0a\x27\x00\x01\x00\x00";

/// By "w": CONNECT with a Will, and then it closes without DISCONNECT (3.1.2.5).
const CLOSING: &[Stage] = &[
    (
        0,
        b"\x10\x18\x00\x04MQTT\x05\x06\x00\x3c\x00\x00\x01w\x00\x00\x03a/b\x00\x02by",
    ),
    (16, b""),
];

/// SUBACK and the Will behind the subscriber's CONNACK.
const BEREFT: &[u8] = b"\x90\x04\x00\x01\x00\x02\x30\x08\x00\x03a/b\x00by";

/// What a broker may hold here.
pub(crate) const LIMITS: Limits = Limits {
    full: Full::Refuse,
    queue: 1000,
    sessions: 1000,
    retained: 1000,
};

/// So many turns, a millisecond each.
fn turns<K: Keep>(
    links: &mut Links<Clients>,
    engine: &mut Engine<K>,
    count: u64,
) -> Result<(), Fail> {
    for moment in 0..count {
        if serve_turn(links, engine, moment).is_err() {
            return Err(Fail::from("the engine refuses"));
        }
    }
    Ok(())
}

/// So many turns over a broker that begins with nothing.
pub(crate) fn play(
    links: &mut Links<Clients>,
    alloc: Global,
    hasher: RandomState,
    count: u64,
) -> Result<(), Fail> {
    let Ok(mut engine) = Engine::open(alloc, MemKeep::new(alloc)?, 0, LIMITS, hasher) else {
        return Err(Fail::from("the broker can't be opened"));
    };
    let done = turns(links, &mut engine, count);
    drop(engine.close());
    done
}

/// The same over a broker that is asked for so many lines.
fn play_with(
    links: &mut Links<Clients>,
    alloc: Global,
    hasher: RandomState,
    count: u64,
    lines: u32,
) -> Result<(), Fail> {
    let capacity = LIMITS.with_lines(lines);
    let Ok(mut engine) = Engine::with_capacity(alloc, MemKeep::new(alloc)?, 0, capacity, hasher)
    else {
        return Err(Fail::from("the broker can't be opened"));
    };
    let done = turns(links, &mut engine, count);
    drop(engine.close());
    done
}

/// Whether bytes are these two behind each other.
pub(crate) fn are(bytes: &[u8], first: &[u8], second: &[u8]) -> bool {
    match bytes.strip_prefix(first) {
        Some(rest) => rest == second,
        None => false,
    }
}

#[test]
fn a_byte_a_call_is_answered_whole_within_forty_turns(rt: HostRuntime) -> Result<(), Fail> {
    let clients = Clients::new(rt.alloc(), &[&[CONNECT]], 1, None)?;
    let mut links = Links::new(rt.alloc(), clients)?;
    let done = play(&mut links, rt.alloc(), RandomState::new(&rt)?, 40);
    let is_answered = links.link().taken(0) == CONNACK;
    drop(links);
    done?;
    assert!(rt; is_answered);
    Ok(())
}

#[test]
fn both_handshakes_of_a_message_of_qos_2_are_done_within_sixty_turns(
    rt: HostRuntime,
) -> Result<(), Fail> {
    let clients = Clients::new(rt.alloc(), &[SUBSCRIBER, PUBLISHER], 4096, None)?;
    let mut links = Links::new(rt.alloc(), clients)?;
    let done = play(&mut links, rt.alloc(), RandomState::new(&rt)?, 60);
    let is_received = are(links.link().taken(0), CONNACK, SUBSCRIBED);
    let is_published = are(links.link().taken(1), CONNACK, PUBLISHED);
    drop(links);
    done?;
    assert!(rt; is_received);
    assert!(rt; is_published);
    Ok(())
}

#[test]
fn a_nameless_connect_in_single_bytes_is_answered_whole_within_forty_turns(
    rt: HostRuntime,
) -> Result<(), Fail> {
    let clients = Clients::new(rt.alloc(), &[NAMELESS], 1, None)?;
    let mut links = Links::new(rt.alloc(), clients)?;
    let done = play(&mut links, rt.alloc(), RandomState::new(&rt)?, 40);
    let is_answered = links.link().taken(0) == NAMED;
    drop(links);
    done?;
    assert!(rt; is_answered);
    Ok(())
}

#[test]
fn the_will_of_a_client_that_closes_is_sent(rt: HostRuntime) -> Result<(), Fail> {
    let clients = Clients::new(rt.alloc(), &[SUBSCRIBER, CLOSING], 4096, None)?;
    let mut links = Links::new(rt.alloc(), clients)?;
    let done = play(&mut links, rt.alloc(), RandomState::new(&rt)?, 10);
    let is_told = are(links.link().taken(0), CONNACK, BEREFT);
    let count = links.len();
    drop(links);
    done?;
    assert!(rt; is_told);
    assert_eq!(rt; count, 1);
    Ok(())
}

#[test]
fn the_sixty_fifth_connection_is_not_served(rt: HostRuntime) -> Result<(), Fail> {
    let clients = Clients::new(rt.alloc(), &[NAMELESS; 65], 4096, None)?;
    let mut links = Links::new(rt.alloc(), clients)?;
    let done = play(&mut links, rt.alloc(), RandomState::new(&rt)?, 70);
    let is_last_served = links.link().taken(63).starts_with(b"\x20");
    let is_one_more_served = !links.link().taken(64).is_empty();
    let count = links.len();
    drop(links);
    done?;
    assert!(rt; is_last_served);
    assert!(rt; !is_one_more_served);
    assert_eq!(rt; count, 64);
    Ok(())
}

#[test]
fn as_many_connections_are_served_as_are_asked_for(rt: HostRuntime) -> Result<(), Fail> {
    let clients = Clients::new(rt.alloc(), &[NAMELESS; 65], 4096, None)?;
    let mut links = Links::new(rt.alloc(), clients)?;
    let done = play_with(&mut links, rt.alloc(), RandomState::new(&rt)?, 70, 65);
    let is_last_served = links.link().taken(64).starts_with(b"\x20");
    let count = links.len();
    drop(links);
    done?;
    assert!(rt; is_last_served);
    assert_eq!(rt; count, 65);
    Ok(())
}

#[test]
fn a_third_connection_is_not_served_where_two_are_asked_for(rt: HostRuntime) -> Result<(), Fail> {
    let clients = Clients::new(rt.alloc(), &[NAMELESS; 3], 4096, None)?;
    let mut links = Links::new(rt.alloc(), clients)?;
    let done = play_with(&mut links, rt.alloc(), RandomState::new(&rt)?, 10, 2);
    let is_last_served = links.link().taken(1).starts_with(b"\x20");
    let is_one_more_served = !links.link().taken(2).is_empty();
    let count = links.len();
    drop(links);
    done?;
    assert!(rt; is_last_served);
    assert!(rt; !is_one_more_served);
    assert_eq!(rt; count, 2);
    Ok(())
}
