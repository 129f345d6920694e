//! What the journal of the server writes of connections, of sessions and of Wills, as text (MQTT 5.0, 3.1, 3.2, 3.14, 4.1).
use crate::turns::clients::{Call, Clients, Fault, Stage, Wrong};
use crate::turns::stretches::Standing;
use mqtt_broker::Engine;
use mqtt_flow::Full;
use mqtt_keep::MemKeep;
use mqtt_link::{Commit, HeldBack};
use mqtt_rules::Limits;
use mqtt_serve::{Gathered, Links, ServerLog, run_settled_turns};
use std::alloc::Global;
use std::hash::RandomState;
use std::test::Fail;

/// A queue of one copy refuses the next.
const LIMITS: Limits = Limits {
    full: Full::Refuse,
    queue: 1,
    sessions: 2,
    retained: 10,
};

/// What becomes of clients: what each sends, a call that goes wrong, the moment of the later turns in milliseconds, and what the
/// journal writes.
struct Course {
    clients: &'static [&'static [Stage]],
    fault: Option<Fault>,
    then: u64,
    text: &'static [u8],
}

/// CONNECT with Clean Start 1 by "a", Keep Alive 60 (3.1).
const CONNECT: Stage = (0, b"\x10\x0e\x00\x04MQTT\x05\x02\x00\x3c\x00\x00\x01a");

/// By "a": CONNECT and DISCONNECT (3.14).
const LEAVING: &[Stage] = &[(
    0,
    b"\x10\x0e\x00\x04MQTT\x05\x02\x00\x3c\x00\x00\x01a\xe0\x00",
)];

/// By "a": CONNECT, and then it closes.
const CLOSING: &[Stage] = &[CONNECT, (16, b"")];

/// By "a": CONNECT twice (3.1).
const TWICE: &[Stage] = &[
    CONNECT,
    (16, b"\x10\x0e\x00\x04MQTT\x05\x02\x00\x3c\x00\x00\x01a"),
];

/// A CONNECT of MQTT 3.1.1.
const OLDER: &[Stage] = &[(0, b"\x10\x0d\x00\x04MQTT\x04\x02\x00\x3c\x00\x01a")];

/// Nothing that is a CONNECT.
const NO_CONNECT: &[Stage] = &[(0, b"\xc0\x00")];

/// Each way in which a connection ends (3.1.2.10, 3.1.4, 3.2.2.2, 3.14).
const ENDS: [Course; 9] = [
    Course {
        clients: &[LEAVING],
        fault: None,
        then: 1,
        text: b"1970-01-01T00:00:00.000Z connect 1 from an unknown address client=a clean-start=1 session-present=0 keep-alive=60 expiry=0\n\
            1970-01-01T00:00:00.000Z close 1 from an unknown address client=a cause=disconnect code=0x0\n\
            1970-01-01T00:00:00.000Z session client=a ended cause=closed\n",
    },
    Course {
        clients: &[CLOSING],
        fault: None,
        then: 1,
        text: b"1970-01-01T00:00:00.000Z connect 1 from an unknown address client=a clean-start=1 session-present=0 keep-alive=60 expiry=0\n\
            1970-01-01T00:00:00.000Z close 1 from an unknown address client=a cause=closed\n\
            1970-01-01T00:00:00.000Z session client=a ended cause=closed\n",
    },
    Course {
        clients: &[OLDER],
        fault: None,
        then: 1,
        text: b"1970-01-01T00:00:00.000Z refuse 1 from an unknown address code=0x84\n",
    },
    Course {
        clients: &[NO_CONNECT],
        fault: None,
        then: 1,
        text: b"1970-01-01T00:00:00.000Z close 1 from an unknown address cause=no-connect\n",
    },
    Course {
        clients: &[&[]],
        fault: None,
        then: 11_000,
        text: b"1970-01-01T00:00:11.000Z close 1 from an unknown address cause=no-connect\n",
    },
    Course {
        clients: &[&[CONNECT]],
        fault: None,
        then: 91_000,
        text: b"1970-01-01T00:00:00.000Z connect 1 from an unknown address client=a clean-start=1 session-present=0 keep-alive=60 expiry=0\n\
            1970-01-01T00:01:31.000Z close 1 from an unknown address client=a cause=0x8d\n\
            1970-01-01T00:01:31.000Z session client=a ended cause=closed\n\
            1970-01-01T00:01:31.000Z counts connections=0 sessions=0 copies=0 accepted=0 sent=0 packets=2\n",
    },
    Course {
        clients: &[&[CONNECT]],
        fault: Some(Fault {
            call: Call::Read,
            number: 1,
            gives: Wrong::Failure,
        }),
        then: 1,
        text: b"1970-01-01T00:00:00.000Z connect 1 from an unknown address client=a clean-start=1 session-present=0 keep-alive=60 expiry=0\n\
            1970-01-01T00:00:00.000Z close 1 from an unknown address client=a cause=failed\n\
            1970-01-01T00:00:00.000Z session client=a ended cause=closed\n",
    },
    Course {
        clients: &[TWICE],
        fault: None,
        then: 1,
        text: b"1970-01-01T00:00:00.000Z connect 1 from an unknown address client=a clean-start=1 session-present=0 keep-alive=60 expiry=0\n\
            1970-01-01T00:00:00.000Z close 1 from an unknown address client=a cause=0x82\n\
            1970-01-01T00:00:00.000Z session client=a ended cause=closed\n",
    },
    Course {
        clients: &[&[CONNECT], &[CONNECT]],
        fault: None,
        then: 1,
        text: b"1970-01-01T00:00:00.000Z connect 1 from an unknown address client=a clean-start=1 session-present=0 keep-alive=60 expiry=0\n\
            1970-01-01T00:00:00.000Z connect 2 from an unknown address client=a clean-start=1 session-present=0 keep-alive=60 expiry=0\n\
            1970-01-01T00:00:00.000Z close 1 from an unknown address client=a cause=0x8e\n\
            1970-01-01T00:00:00.000Z session client=a ended cause=clean-start\n",
    },
];

/// By "w": CONNECT with a Will, and then it closes (3.1.2.5).
const WILLED: &[Stage] = &[
    (
        0,
        b"\x10\x15\x00\x04MQTT\x05\x06\x00\x3c\x00\x00\x01w\x00\x00\x01t\x00\x01x",
    ),
    (16, b""),
];

/// By "w": the same CONNECT, and DISCONNECT with Will Message (3.14.2.1).
const WILLING: &[Stage] = &[(
    0,
    b"\x10\x15\x00\x04MQTT\x05\x06\x00\x3c\x00\x00\x01w\x00\x00\x01t\x00\x01x\xe0\x01\x04",
)];

/// By "w": CONNECT with a Session Expiry Interval of ten seconds, and a Will with a Will Delay Interval of five; then it closes
/// (3.1.3.2.2).
const DELAYED: &[Stage] = &[
    (
        0,
        b"\x10\x1f\x00\x04MQTT\x05\x06\x00\x3c\x05\x11\x00\x00\x00\x0a\x00\x01w\x05\x18\x00\x00\x00\x05\x00\x01t\x00\x01x",
    ),
    (16, b""),
];

/// By "a": CONNECT with a Session Expiry Interval of ten seconds, in which it subscribes to "t" at QoS 1, and DISCONNECT (3.1.2.11.2).
const STAYING: &[Stage] = &[(
    0,
    b"\x10\x13\x00\x04MQTT\x05\x00\x00\x3c\x05\x11\x00\x00\x00\x0a\x00\x01a\x82\x07\x00\x01\x00\x00\x01t\x01\xe0\x00",
)];

/// By "a": CONNECT with Clean Start 0 and the same interval.
const RESUMING: &[Stage] = &[(
    0,
    b"\x10\x13\x00\x04MQTT\x05\x00\x00\x3c\x05\x11\x00\x00\x00\x0a\x00\x01a",
)];

/// By "p": CONNECT, and PUBLISH twice to "t" at QoS 1 (3.3).
const PUBLISHING: &[Stage] = &[(
    0,
    b"\x10\x0e\x00\x04MQTT\x05\x02\x00\x3c\x00\x00\x01p\x32\x07\x00\x01t\x00\x01\x00y\x32\x07\x00\x01t\x00\x02\x00z",
)];

/// Each way in which a session ends, and in which a Will is published; and a queue that is full (3.1.2.4, 3.1.2.5, 3.1.3.2.2, 4.1).
const SESSIONS: [Course; 6] = [
    Course {
        clients: &[WILLED],
        fault: None,
        then: 1,
        text: b"1970-01-01T00:00:00.000Z connect 1 from an unknown address client=w clean-start=1 session-present=0 keep-alive=60 expiry=0\n\
            1970-01-01T00:00:00.000Z close 1 from an unknown address client=w cause=closed\n\
            1970-01-01T00:00:00.000Z will client=w published cause=closed\n\
            1970-01-01T00:00:00.000Z session client=w ended cause=closed\n",
    },
    Course {
        clients: &[WILLING],
        fault: None,
        then: 1,
        text: b"1970-01-01T00:00:00.000Z connect 1 from an unknown address client=w clean-start=1 session-present=0 keep-alive=60 expiry=0\n\
            1970-01-01T00:00:00.000Z close 1 from an unknown address client=w cause=disconnect code=0x4\n\
            1970-01-01T00:00:00.000Z will client=w published cause=closed\n\
            1970-01-01T00:00:00.000Z session client=w ended cause=closed\n",
    },
    Course {
        clients: &[DELAYED],
        fault: None,
        then: 11_000,
        text: b"1970-01-01T00:00:00.000Z connect 1 from an unknown address client=w clean-start=1 session-present=0 keep-alive=60 expiry=10\n\
            1970-01-01T00:00:00.000Z close 1 from an unknown address client=w cause=closed\n\
            1970-01-01T00:00:11.000Z will client=w published cause=delay\n\
            1970-01-01T00:00:11.000Z session client=w ended cause=expired\n",
    },
    Course {
        clients: &[STAYING, &[CONNECT]],
        fault: None,
        then: 1,
        text: b"1970-01-01T00:00:00.000Z connect 1 from an unknown address client=a clean-start=0 session-present=0 keep-alive=60 expiry=10\n\
            1970-01-01T00:00:00.000Z close 1 from an unknown address client=a cause=disconnect code=0x0\n\
            1970-01-01T00:00:00.000Z connect 2 from an unknown address client=a clean-start=1 session-present=0 keep-alive=60 expiry=0\n\
            1970-01-01T00:00:00.000Z session client=a ended cause=clean-start\n",
    },
    Course {
        clients: &[STAYING, RESUMING],
        fault: None,
        then: 1,
        text: b"1970-01-01T00:00:00.000Z connect 1 from an unknown address client=a clean-start=0 session-present=0 keep-alive=60 expiry=10\n\
            1970-01-01T00:00:00.000Z close 1 from an unknown address client=a cause=disconnect code=0x0\n\
            1970-01-01T00:00:00.000Z connect 2 from an unknown address client=a clean-start=0 session-present=1 keep-alive=60 expiry=10\n",
    },
    Course {
        clients: &[STAYING, PUBLISHING, OTHER],
        fault: None,
        then: 11_000,
        text: b"1970-01-01T00:00:00.000Z connect 1 from an unknown address client=a clean-start=0 session-present=0 keep-alive=60 expiry=10\n\
            1970-01-01T00:00:00.000Z close 1 from an unknown address client=a cause=disconnect code=0x0\n\
            1970-01-01T00:00:00.000Z connect 2 from an unknown address client=p clean-start=1 session-present=0 keep-alive=60 expiry=0\n\
            1970-01-01T00:00:00.000Z full client=p code=0x97 queue=a untold=0\n\
            1970-01-01T00:00:00.000Z refuse 3 from an unknown address code=0x97\n\
            1970-01-01T00:00:11.000Z session client=a ended cause=expired\n",
    },
];

/// By "o": CONNECT, where no further session may be.
const OTHER: &[Stage] = &[(0, b"\x10\x0e\x00\x04MQTT\x05\x02\x00\x3c\x00\x00\x01o")];

/// What a journal writes of clients over a broker that begins with nothing: eight turns at moment 0, and eight at another.
fn written(alloc: Global, course: &Course, hasher: RandomState) -> Result<Vec<u8>, Fail> {
    let clients = Clients::new(alloc, course.clients, 4096, course.fault)?;
    let mut links = Links::new(alloc, HeldBack::new(alloc, clients))?;
    let mut log = ServerLog::new(alloc, Vec::new(alloc), "broker.db")?;
    let keep = Gathered::new(alloc, MemKeep::new(alloc)?, Commit::Turn);
    let Ok(mut engine) = Engine::open(alloc, keep, 0, LIMITS, hasher) else {
        return Err(Fail::from("the broker can't be opened"));
    };
    let mut goes_on = true;
    for moment in [0, course.then] {
        let mut timer = Standing { moment };
        goes_on = goes_on
            && run_settled_turns(&mut links, &mut engine, &mut timer, 8, moment, &mut log).is_ok();
    }
    drop(engine.close());
    drop(links);
    if goes_on {
        return Ok(log.into_writer());
    }
    Err(Fail::from("the engine refuses"))
}

#[test]
fn each_end_of_a_connection_is_one_line(rt: HostRuntime) -> Result<(), Fail> {
    for course in &ENDS {
        let text = written(rt.alloc(), course, RandomState::new(&rt)?)?;
        assert_eq!(rt; text.as_slice(), course.text);
    }
    Ok(())
}

#[test]
fn sessions_wills_and_refusals_have_their_lines(rt: HostRuntime) -> Result<(), Fail> {
    for course in &SESSIONS {
        let text = written(rt.alloc(), course, RandomState::new(&rt)?)?;
        assert_eq!(rt; text.as_slice(), course.text);
    }
    Ok(())
}
