//! The broker stops before and after each commit of a message's way, and the ends connect again: the message is accepted once
//! and handed over once, over each store (MQTT 5.0, 4.1, 4.3.3, 4.4).

use crate::replay::playing::{LIMITS, in_memory, in_sql, is_so_within};
use mqtt_replay::{Played, ReplayFault};
use std::alloc::{AllocError, Global};
use std::hash::RandomState;
use std::test::Fail;

/// A message of QoS 2 from a publisher to a receiver, event by event.
fn way() -> &'static [&'static str] {
    &[
        "receiver r1 10",
        "publisher p1",
        "connect r1 0",
        "tobroker r1",
        "toend r1",
        "subscribe r1 2 0 0 0 0 a/b",
        "tobroker r1",
        "toend r1",
        "connect p1 0",
        "tobroker p1",
        "toend p1",
        "publish p1 2 0 a/b 6869",
        "tobroker p1",
        "pump r1",
        "toend r1",
        "tobroker r1",
        "toend r1",
        "tobroker r1",
        "toend p1",
        "tobroker p1",
        "toend p1",
    ]
}

/// The events at which the broker stores something.
fn commits() -> &'static [usize] {
    &[13, 14, 16, 18, 20]
}

/// Both ends connect again, the publisher finishes its handshake, and the receiver is drained.
const AGAIN: &str = "connect r1 0\ntobroker r1\ntoend r1\nconnect p1 0\n\
    tobroker p1\ntoend p1\ntobroker p1\ntoend p1\ntobroker p1\ntoend p1\n\
    tobroker p1\ntoend p1\ntobroker p1\ntoend p1\ntobroker p1\ntoend p1\ndrain r1\n";

/// What each of them comes to.
const CAME: &str = "\nr1 handed=1 queue=0\np1 sent=1 done=1\nbroker publications=1 sessions=2\n";

/// The way up to an event, at which the broker stops.
fn stopped_at(alloc: Global, number: usize, word: &str) -> Result<String, AllocError> {
    let mut script = String::new(alloc);
    for (place, line) in way().iter().enumerate() {
        if place + 1 == number {
            script.push_str(word)?;
            script.push_str(" ")?;
        }
        if place < number {
            script.push_str(line)?;
            script.push_str("\n")?;
        }
    }
    script.push_str(AGAIN)?;
    Ok(script)
}

/// Whether a script was replayed to its end, and came to that.
fn is_come(played: Result<Played, ReplayFault>, written: Vec<u8>) -> bool {
    let is_text = written.as_slice().ends_with(CAME.as_bytes());
    drop(written);
    is_text && played == Ok(Played::Whole)
}

/// Whether the message goes its way once, wherever the broker stops, over the store in memory and over one in SQL.
fn is_once(
    alloc: Global,
    hasher: RandomState,
    number: usize,
    word: &str,
) -> Result<(bool, bool), AllocError> {
    let script = stopped_at(alloc, number, word)?;
    let mut written = Vec::new(alloc);
    let played = in_memory(alloc, hasher, script.as_str(), &mut written);
    let is_in_memory = is_come(played, written);
    let mut written = Vec::new(alloc);
    let played = in_sql(alloc, hasher, script.as_str(), &mut written);
    let is_in_sql = is_come(played, written);
    drop(script);
    Ok((is_in_memory, is_in_sql))
}

#[test]
fn a_message_goes_its_way_once_wherever_the_broker_stops(rt: HostRuntime) -> Result<(), Fail> {
    let hasher = RandomState::new(&rt)?;
    for number in commits() {
        for word in ["stopbefore", "stopafter"] {
            let (in_memory, in_sql) = is_once(rt.alloc(), hasher, *number, word)?;
            assert!(rt; in_memory, "{word} {number} in memory");
            assert!(rt; in_sql, "{word} {number} in SQL");
        }
    }
    Ok(())
}

/// A stranger's CONNECT and PUBLISH come in one piece, and the broker stops before its commit.
const BEFORE: &str =
    "stopbefore stranger s 101400044d515454050000000511ffffffff00027231340a0003612f62000a006869\n";

/// Or after it.
const AFTER: &str =
    "stopafter stranger s 101400044d515454050000000511ffffffff00027231340a0003612f62000a006869\n";

/// Or not.
const WHOLE: &str =
    "stranger s 101400044d515454050000000511ffffffff00027231340a0003612f62000a006869\n";

#[test]
fn of_what_a_stranger_sent_the_first_packet_is_a_step(rt: HostRuntime) -> Result<(), Fail> {
    let hasher = RandomState::new(&rt)?;
    for (script, text) in [
        (BEFORE, "1 stopbefore\nbroker publications=0 sessions=0\n"),
        (AFTER, "1 stopafter\nbroker publications=0 sessions=1\n"),
        (
            WHOLE,
            "1 stranger accepted=1 out=2\nbroker publications=1 sessions=1\n",
        ),
    ] {
        assert!(rt;
            is_so_within(rt.alloc(), hasher, LIMITS, script, text) == Ok(true),
            "{script}"
        );
    }
    Ok(())
}
