//! A publisher and a receiver over a broker in memory, from CONNECT on (MQTT 5.0, 3.1, 3.8, 4.3.3).

use bytes::Bytes;
use mqtt_base::{Qos, RetainHandling, SubscriptionOptions, Text};
use mqtt_broker::{Engine, EngineError, Keep, Limits, Outcome, Packet};
use mqtt_flow::Full;
use mqtt_keep::MemKeep;
use mqtt_script::{Content, Draft, Wish};
use mqtt_world::clients::Clients;
use mqtt_world_ends::peers::is_input;
use std::alloc::{AllocError, Global};
use std::hash::RandomState;
use std::test::*;

const LIMITS: Limits = Limits {
    full: Full::Refuse,
    queue: 10,
    sessions: 10,
    retained: 10,
};

fn text(alloc: Global, text: &str) -> Result<Text, AllocError> {
    if !Text::may_hold(text) {
        return Err(AllocError);
    }
    Text::new(alloc, text)
}

/// A message of QoS 2.
fn draft(alloc: Global) -> Result<Draft, AllocError> {
    let topic = text(alloc, "a/b")?;
    Ok(Draft {
        qos: Qos::ExactlyOnce,
        content: Content {
            retain: false,
            topic,
            payload: Bytes::new(),
        },
    })
}

/// The subscription that takes it.
fn wish(alloc: Global) -> Result<Wish, AllocError> {
    let filter = text(alloc, "a/+")?;
    Ok(Wish {
        filter,
        options: SubscriptionOptions {
            qos: Qos::ExactlyOnce,
            no_local: false,
            retain_as_published: false,
            retain_handling: RetainHandling::SendAlways,
        },
        identifier: None,
    })
}

/// What the broker answered reaches the ends.
fn tell<K: Keep>(
    ends: &mut Clients,
    engine: &Engine<K>,
    answer: Result<Outcome, EngineError>,
) -> Result<(), Fail> {
    let Ok(outcome) = answer else {
        return Err(Fail::from("the broker refuses"));
    };
    let told = ends.tell(engine.inner(), &outcome);
    drop(outcome);
    Ok(told?)
}

/// What the broker answers to a packet of an end.
fn answer<K: Keep>(
    engine: &mut Engine<K>,
    line: u64,
    packet: &Packet,
) -> Result<Outcome, EngineError> {
    if !is_input(packet) {
        return Err(EngineError::Memory);
    }
    engine.input(line, packet, 0)
}

/// The broker reads the first packet of an end.
fn to_broker<K: Keep>(
    ends: &mut Clients,
    engine: &mut Engine<K>,
    client: &str,
) -> Result<(), Fail> {
    let Some((line, packet)) = ends.front(client, false)? else {
        return Ok(());
    };
    ends.take(client, false);
    let answer = answer(engine, line, &packet);
    drop(packet);
    tell(ends, engine, answer)
}

/// What waits for it goes out.
fn pump<K: Keep>(ends: &mut Clients, engine: &mut Engine<K>, client: &str) -> Result<(), Fail> {
    let Some(line) = ends.number(client) else {
        return Ok(());
    };
    let answer = engine.pump(line, 0);
    tell(ends, engine, answer)
}

/// So often an end and the broker read one packet of the other.
fn rounds<K: Keep>(
    ends: &mut Clients,
    engine: &mut Engine<K>,
    client: &str,
    count: u8,
) -> Result<(), Fail> {
    for _ in 0..count {
        to_broker(ends, engine, client)?;
        pump(ends, engine, client)?;
        ends.read(client, engine.inner())?;
    }
    Ok(())
}

/// An end connects.
fn join<K: Keep>(ends: &mut Clients, engine: &mut Engine<K>, client: &str) -> Result<(), Fail> {
    let Some(line) = engine.link(0) else {
        return Err(Fail::from("there is no line"));
    };
    ends.join(client, line, true)?;
    rounds(ends, engine, client, 1)
}

/// The receiver subscribes.
fn subscribe<K: Keep>(
    alloc: Global,
    ends: &mut Clients,
    engine: &mut Engine<K>,
) -> Result<(), Fail> {
    let wish = wish(alloc)?;
    let asked = ends.subscribe("r", &wish, engine.inner());
    drop(wish);
    asked?;
    rounds(ends, engine, "r", 1)
}

/// The publisher sends its message.
fn publish<K: Keep>(alloc: Global, ends: &mut Clients, engine: &mut Engine<K>) -> Result<(), Fail> {
    let draft = draft(alloc)?;
    let sent = ends.publish("p", &draft, engine.inner());
    drop(draft);
    sent?;
    rounds(ends, engine, "p", 2)
}

/// So many messages of one topic go from a publisher to a receiver that takes so many topic aliases.
fn play<K: Keep>(
    alloc: Global,
    ends: &mut Clients,
    engine: &mut Engine<K>,
    aliases: u16,
    messages: u8,
) -> Result<(), Fail> {
    ends.add_publisher(text(alloc, "p")?)?;
    ends.add_receiver(text(alloc, "r")?, 10, aliases, engine.births())?;
    join(ends, engine, "r")?;
    join(ends, engine, "p")?;
    subscribe(alloc, ends, engine)?;
    for _ in 0..messages {
        publish(alloc, ends, engine)?;
        rounds(ends, engine, "r", 3)?;
    }
    Ok(())
}

/// Over a broker that begins with nothing.
fn play_over(
    alloc: Global,
    hasher: RandomState,
    ends: &mut Clients,
    aliases: u16,
    messages: u8,
) -> Result<(), Fail> {
    let Ok(mut engine) = Engine::open(alloc, MemKeep::new(alloc)?, 0, LIMITS, hasher) else {
        return Err(Fail::from("the broker can't be opened"));
    };
    let done = play(alloc, ends, &mut engine, aliases, messages);
    drop(engine.close());
    done
}

/// Whether the receiver was handed these publications, each once and in their order.
fn was_handed(alloc: Global, ends: &Clients, publications: &[u64]) -> Result<bool, AllocError> {
    match ends.handed(alloc, "r")? {
        Some(handed) => Ok(handed.as_slice() == publications),
        None => Ok(false),
    }
}

#[test]
fn a_message_is_handed_over_and_completed(rt: HostRuntime) -> Result<(), Fail> {
    let alloc = rt.alloc();
    let mut ends = Clients::new(alloc);
    let played = play_over(alloc, RandomState::new(&rt)?, &mut ends, 0, 1);
    let was_handed = was_handed(alloc, &ends, &[1]);
    let done = ends.done("p");
    drop(ends);
    played?;
    assert!(rt; was_handed?, "the first publication, once");
    assert_eq!(rt; done, Some(1), "the message is completed");
    Ok(())
}

// The second comes without its topic, with the alias that the first brought (3.3.2.3.4).
#[test]
fn a_topic_is_read_by_its_alias(rt: HostRuntime) -> Result<(), Fail> {
    let alloc = rt.alloc();
    let mut ends = Clients::new(alloc);
    let played = play_over(alloc, RandomState::new(&rt)?, &mut ends, 5, 2);
    let was_handed = was_handed(alloc, &ends, &[1, 2]);
    let done = ends.done("p");
    drop(ends);
    played?;
    assert!(rt; was_handed?, "both publications, once");
    assert_eq!(rt; done, Some(2), "both messages are completed");
    Ok(())
}
