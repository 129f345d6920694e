//! Scripts under smaller limits: a full queue that refuses or drops, and tables of one session and of one retained topic (MQTT
//! 5.0, 3.1.4, 3.3.1.3, 4.6, 4.9).

use crate::replay::playing::{LIMITS, is_so_within};
use mqtt_flow::Full;
use mqtt_replay::{Limits, ReplayFault};
use std::alloc::Global;
use std::hash::RandomState;
use std::test::Fail;

/// Whether a script comes to this text if queues hold two copies, over each store.
pub(crate) fn is_so_in_queues_of_two(
    alloc: Global,
    hasher: RandomState,
    full: Full,
    script: &str,
    text: &str,
) -> Result<bool, ReplayFault> {
    let limits = Limits {
        full,
        queue: 2,
        sessions: 1_000,
        retained: 1_000,
    };
    is_so_within(alloc, hasher, limits, script, text)
}

/// Three messages of QoS 2 for a receiver that is sent nothing.
const THREE: &str = "receiver r1 10\npublisher p1\nconnect r1 0\ntobroker r1\ntoend r1\n\
    subscribe r1 2 0 0 0 0 a/b\ntobroker r1\ntoend r1\nconnect p1 0\ntobroker p1\ntoend p1\n\
    publish p1 2 0 a/b 31\ntobroker p1\npublish p1 2 0 a/b 32\ntobroker p1\n\
    publish p1 2 0 a/b 33\ntobroker p1\n";

/// The third makes the first copy give way.
const THREE_DROPPED: &str =
    "1 receiver\n2 publisher\n3 connect\n4 tobroker out=1\n5 toend\n6 subscribe\n\
    7 tobroker out=1\n8 toend\n9 connect\n10 tobroker out=1\n11 toend\n12 publish\n\
    13 tobroker accepted=1 entered=1>r1 out=1\n14 publish\n15 tobroker accepted=2 entered=2>r1 out=1\n\
    16 publish\n17 tobroker accepted=3 ended=1>r1:Dropped entered=3>r1 out=1\n\
    r1 handed=- queue=2\np1 sent=3 done=0\nbroker publications=3 sessions=2\n";

/// The third is refused: PUBREC with 97.
const THREE_REFUSED: &str =
    "1 receiver\n2 publisher\n3 connect\n4 tobroker out=1\n5 toend\n6 subscribe\n\
    7 tobroker out=1\n8 toend\n9 connect\n10 tobroker out=1\n11 toend\n12 publish\n\
    13 tobroker accepted=1 entered=1>r1 out=1\n14 publish\n15 tobroker accepted=2 entered=2>r1 out=1\n\
    16 publish\n17 tobroker out=1\n\
    r1 handed=- queue=2\np1 sent=3 done=0\nbroker publications=2 sessions=2\n";

/// The same, but that the broker sends the receiver the first two before the third comes.
const SENT: &str = "receiver r1 10\npublisher p1\nconnect r1 0\ntobroker r1\ntoend r1\n\
    subscribe r1 2 0 0 0 0 a/b\ntobroker r1\ntoend r1\nconnect p1 0\ntobroker p1\ntoend p1\n\
    publish p1 2 0 a/b 31\ntobroker p1\npublish p1 2 0 a/b 32\ntobroker p1\npump r1\n\
    publish p1 2 0 a/b 33\ntobroker p1\n";

/// What was sent does not give way: the third is refused.
const SENT_REFUSED: &str =
    "1 receiver\n2 publisher\n3 connect\n4 tobroker out=1\n5 toend\n6 subscribe\n\
    7 tobroker out=1\n8 toend\n9 connect\n10 tobroker out=1\n11 toend\n12 publish\n\
    13 tobroker accepted=1 entered=1>r1 out=1\n14 publish\n15 tobroker accepted=2 entered=2>r1 out=1\n\
    16 pump out=2\n17 publish\n18 tobroker out=1\n\
    r1 handed=- queue=2\np1 sent=3 done=0\nbroker publications=2 sessions=2\n";

/// What a queue of two does with a third copy, whether the others wait or were sent.
fn full_queues() -> &'static [(Full, &'static str, &'static str)] {
    &[
        (Full::Drop, THREE, THREE_DROPPED),
        (Full::Refuse, THREE, THREE_REFUSED),
        (Full::Drop, SENT, SENT_REFUSED),
        (Full::Refuse, SENT, SENT_REFUSED),
    ]
}

#[test]
fn a_full_queue_drops_what_waits_or_refuses(rt: HostRuntime) -> Result<(), Fail> {
    let hasher = RandomState::new(&rt)?;
    for (full, script, text) in full_queues() {
        assert!(rt;
            is_so_in_queues_of_two(rt.alloc(), hasher, *full, script, text) == Ok(true),
            "{full:?} {script}"
        );
    }
    Ok(())
}

/// Two clients connect, a receiver behind a publisher.
const TWO_SESSIONS: &str =
    "publisher p1\nreceiver r1 10\nconnect p1 0\ntobroker p1\ntoend p1\nconnect r1 0\n\
    tobroker r1\ntoend r1\n";

/// There is room for both.
const TWO_SESSIONS_TEXT: &str =
    "1 publisher\n2 receiver\n3 connect\n4 tobroker out=1\n5 toend\n6 connect\n7 tobroker out=1\n\
    8 toend\np1 sent=0 done=0\nr1 handed=- queue=0\nbroker publications=0 sessions=2\n";

/// There is none for the second: CONNACK with 97.
const ONE_SESSION_TEXT: &str =
    "1 publisher\n2 receiver\n3 connect\n4 tobroker out=1\n5 toend\n6 connect\n7 tobroker out=1\n\
    8 toend\np1 sent=0 done=0\nr1 handed=- queue=0\nbroker publications=0 sessions=1\n";

#[test]
fn a_session_more_than_there_may_be_is_refused(rt: HostRuntime) -> Result<(), Fail> {
    let hasher = RandomState::new(&rt)?;
    let alloc = rt.alloc();
    let one = Limits {
        full: Full::Refuse,
        queue: 1_000,
        sessions: 1,
        retained: 1_000,
    };
    assert!(rt; is_so_within(alloc, hasher, LIMITS, TWO_SESSIONS, TWO_SESSIONS_TEXT) == Ok(true));
    assert!(rt; is_so_within(alloc, hasher, one, TWO_SESSIONS, ONE_SESSION_TEXT) == Ok(true));
    Ok(())
}

/// Retained messages of QoS 1 to two topics, and again to the first.
const TWO_TOPICS: &str =
    "publisher p1\nconnect p1 0\ntobroker p1\ntoend p1\npublish p1 1 1 a/b 31\ntobroker p1\n\
    publish p1 1 1 c/d 32\ntobroker p1\npublish p1 1 1 a/b 33\ntobroker p1\n";

/// There is room for both.
const TWO_TOPICS_TEXT: &str =
    "1 publisher\n2 connect\n3 tobroker out=1\n4 toend\n5 publish\n6 tobroker accepted=1 out=1\n\
    7 publish\n8 tobroker accepted=2 out=1\n9 publish\n10 tobroker accepted=3 out=1\n\
    p1 sent=3 done=0\nbroker publications=3 sessions=1\n";

/// There is none for the second topic, PUBACK with 97; the first takes another message.
const ONE_TOPIC_TEXT: &str =
    "1 publisher\n2 connect\n3 tobroker out=1\n4 toend\n5 publish\n6 tobroker accepted=1 out=1\n\
    7 publish\n8 tobroker out=1\n9 publish\n10 tobroker accepted=2 out=1\n\
    p1 sent=3 done=0\nbroker publications=2 sessions=1\n";

#[test]
fn a_retained_topic_more_than_there_may_be_is_refused(rt: HostRuntime) -> Result<(), Fail> {
    let hasher = RandomState::new(&rt)?;
    let alloc = rt.alloc();
    let one = Limits {
        full: Full::Refuse,
        queue: 1_000,
        sessions: 1_000,
        retained: 1,
    };
    assert!(rt; is_so_within(alloc, hasher, LIMITS, TWO_TOPICS, TWO_TOPICS_TEXT) == Ok(true));
    assert!(rt; is_so_within(alloc, hasher, one, TWO_TOPICS, ONE_TOPIC_TEXT) == Ok(true));
    Ok(())
}
