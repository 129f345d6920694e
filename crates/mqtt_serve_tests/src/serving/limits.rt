//! The limits that a server is given (MQTT 5.0, 3.3.4, 3.4.2.1, 4.9).
use crate::serving::callers::{Run, first_wrong, forget};
use mqtt_flow::Full;
use mqtt_serve::Capacity;
use std::test::Fail;

/// One message in a queue, of which the oldest makes way, two sessions and one retained message.
const DROP: Capacity = Capacity {
    full: Full::Drop,
    queue: 1,
    sessions: 2,
    retained: 1,
    lines: 64,
};

/// The same, if a full queue refuses.
const REFUSE: Capacity = Capacity {
    full: Full::Refuse,
    ..DROP
};

/// By "r1": CONNECT with a session that doesn't end, and SUBSCRIBE to "a/b" at QoS 1 (3.1.2.11.2, 3.8).
const SUBSCRIBES: Run = (
    "r1 subscribes to a/b at QoS 1",
    b"\x10\x14\x00\x04MQTT\x05\x00\x00\x00\x05\x11\xff\xff\xff\xff\x00\x02r1\
      \x82\x09\x00\x01\x00\x00\x03a/b\x01",
    b"\x20\x0e\x00\x00\x0b\x21\x00\x14\x22\x00\x0a\x27\x00\x01\x00\x00\
      \x90\x04\x00\x01\x00\x01",
);

/// CONNECT by a third client, which is told that there is no room (3.2.2.2).
const IS_ONE_TOO_MANY: Run = (
    "a third session is one too many",
    b"\x10\x14\x00\x04MQTT\x05\x00\x00\x00\x05\x11\xff\xff\xff\xff\x00\x02q1",
    b"\x20\x03\x00\x97\x00",
);

/// Two messages for one that is away, then two that are retained and for nobody.
const PUBLISHES: &[u8] = b"\x10\x14\x00\x04MQTT\x05\x00\x00\x00\x05\x11\xff\xff\xff\xff\x00\x02p1\
    \x32\x0a\x00\x03a/b\x00\x01\x00m1\x32\x0a\x00\x03a/b\x00\x02\x00m2\
    \x33\x08\x00\x01x\x00\x03\x00m3\x33\x08\x00\x01y\x00\x04\x00m4";

/// CONNECT by "r1" once more.
const RESUMES: &[u8] = b"\x10\x14\x00\x04MQTT\x05\x00\x00\x00\x05\x11\xff\xff\xff\xff\x00\x02r1";

/// The newer of the two waits.
const DROPPING: [Run; 4] = [
    SUBSCRIBES,
    (
        "both are taken, and the second of the retained is one too many",
        PUBLISHES,
        b"\x20\x0e\x00\x00\x0b\x21\x00\x14\x22\x00\x0a\x27\x00\x01\x00\x00\
          \x40\x02\x00\x01\x40\x02\x00\x02\x40\x03\x00\x03\x10\x40\x03\x00\x04\x97",
    ),
    (
        "r1 is sent the newer",
        RESUMES,
        b"\x20\x0e\x01\x00\x0b\x21\x00\x14\x22\x00\x0a\x27\x00\x01\x00\x00\
          \x32\x0a\x00\x03a/b\x00\x01\x00m2",
    ),
    IS_ONE_TOO_MANY,
];

/// The older of the two waits.
const REFUSING: [Run; 4] = [
    SUBSCRIBES,
    (
        "the second for the queue is one too many, and so is the second of the retained",
        PUBLISHES,
        b"\x20\x0e\x00\x00\x0b\x21\x00\x14\x22\x00\x0a\x27\x00\x01\x00\x00\
          \x40\x02\x00\x01\x40\x03\x00\x02\x97\x40\x03\x00\x03\x10\x40\x03\x00\x04\x97",
    ),
    (
        "r1 is sent the older",
        RESUMES,
        b"\x20\x0e\x01\x00\x0b\x21\x00\x14\x22\x00\x0a\x27\x00\x01\x00\x00\
          \x32\x0a\x00\x03a/b\x00\x01\x00m1",
    ),
    IS_ONE_TOO_MANY,
];

fn dropping() -> &'static [Run] {
    &DROPPING
}

fn refusing() -> &'static [Run] {
    &REFUSING
}

#[test]
fn a_server_keeps_to_the_limits_that_it_was_given(rt: HostRuntime) -> Result<(), Fail> {
    let (db, log) = ("limits.db", "limits.db-wal");
    forget(&rt, db, log);
    let dropping = first_wrong(&rt, db, DROP, dropping())?;
    forget(&rt, db, log);
    let refusing = first_wrong(&rt, db, REFUSE, refusing())?;
    forget(&rt, db, log);
    assert_eq!(rt; dropping, "");
    assert_eq!(rt; refusing, "");
    Ok(())
}
