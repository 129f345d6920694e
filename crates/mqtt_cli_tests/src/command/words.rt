//! Command lines (ours).

use mqtt_cli::{
    Action, BadLine, BadReason, Commit, Details, Full, Limits, LineFault, Outcome, Played,
    ReplayFault, ServeFault, action, perform,
};
use std::alloc::Global;
use std::net::{Ipv4Addr, SocketAddrV4};
use std::process::Abort;
use std::test::Fail;

/// Command lines that ask for a view, each with its FILE, and whether payloads, properties and objects are asked for.
fn view_words() -> &'static [(&'static [&'static str], &'static str, [bool; 3])] {
    &[
        (&["mqtt5", "view", "-"], "-", [false, false, false]),
        (&["mqtt5", "view", "a b"], "a b", [false, false, false]),
        (
            &["mqtt5", "view", "--payload", "f"],
            "f",
            [true, false, false],
        ),
        (
            &["mqtt5", "view", "f", "--payload"],
            "f",
            [true, false, false],
        ),
        (
            &["mqtt5", "view", "--properties", "f"],
            "f",
            [false, true, false],
        ),
        (
            &["mqtt5", "view", "--properties", "f", "--payload"],
            "f",
            [true, true, false],
        ),
        (&["mqtt5", "view", "--json", "f"], "f", [false, false, true]),
        (
            &["mqtt5", "view", "f", "--json", "--payload", "--properties"],
            "f",
            [true, true, true],
        ),
        (
            &["x", "view", "--", "--payload"],
            "--payload",
            [false, false, false],
        ),
        (
            &["x", "view", "--", "--properties"],
            "--properties",
            [false, false, false],
        ),
        (&["mqtt5", "view", ""], "", [false, false, false]),
    ]
}

/// The command line asks for this.
fn assert_asks(
    rt: &impl Abort,
    alloc: Global,
    words: &[&str],
    wanted: Action<'_>,
) -> Result<(), Fail> {
    match action(alloc, words) {
        Ok(found) => {
            assert!(rt; found == wanted, "{wanted:?}");
            Ok(())
        }
        Err(LineFault::Memory) => Err(Fail::from("want of memory")),
        Err(LineFault::Usage(_)) | Err(LineFault::Version) => Err(Fail::from("not taken")),
    }
}

#[test]
fn a_lawful_command_line_is_its_action(rt: HostRuntime) -> Result<(), Fail> {
    assert_asks(&rt, rt.alloc(), &["mqtt5", "vectors"], Action::Vectors)?;
    for (words, file, details) in view_words() {
        let [payload, properties, json] = *details;
        let wanted = Action::View {
            file: *file,
            details: Details {
                payload,
                properties,
                json,
            },
        };
        assert_asks(&rt, rt.alloc(), words, wanted)?;
    }
    Ok(())
}

#[test]
fn a_server_is_asked_for(rt: HostRuntime) -> Result<(), Fail> {
    for (listen, turns, address, count) in SERVED {
        let (ip, port) = address;
        let wanted = Action::Serve {
            listen: SocketAddrV4::new(Ipv4Addr::from(ip), port),
            db: "a.db",
            turns: count,
            limits: GREATEST.with_lines(64),
            commit: Commit::Turn,
            log: false,
        };
        let words = [
            "mqtt5", "serve", "--listen", listen, "--db", "a.db", "--turns", turns,
        ];
        assert_asks(&rt, rt.alloc(), &words, wanted)?;
    }
    Ok(())
}

/// The limits if no option is given.
pub(crate) const GREATEST: Limits = Limits {
    full: Full::Refuse,
    queue: 1_000,
    sessions: 1_000,
    retained: 1_000,
};

/// Addresses and numbers of turns, and what they are.
const SERVED: [(&str, &str, ([u8; 4], u16), u32); 3] = [
    ("127.0.0.1:1883", "1", ([127, 0, 0, 1], 1883), 1),
    ("0.0.0.0:0", "4294967295", ([0, 0, 0, 0], 0), 4_294_967_295),
    ("255.10.0.9:65535", "60", ([255, 10, 0, 9], 65_535), 60),
];

#[test]
fn what_serves_is_called_as_asked(rt: HostRuntime) {
    let words = [
        "mqtt5",
        "serve",
        "--listen",
        "0.0.0.0:0",
        "--db=a.db",
        "--turns",
        "3",
        "--commit=step",
        "--connections=7",
        "--log",
    ];
    let mut written: Vec<u8> = Vec::new(rt.alloc());
    let outcome = perform(
        &rt,
        &words,
        &mut written,
        &|_, db: &str, turns, limits, commit, log| {
            let wanted = GREATEST.with_lines(7);
            if db == "a.db" && turns == 3 && limits == wanted && commit == Commit::Step && log {
                Ok(())
            } else {
                Err(ServeFault::Socket)
            }
        },
        &|_, _| Err(ReplayFault::Store),
    );
    let is_served = matches!(outcome, Outcome::Served);
    let is_silent = written.is_empty();
    drop(outcome);
    drop(written);
    assert!(rt; is_served);
    assert!(rt; is_silent);
}

/// A line that is bad.
const BAD: BadLine = BadLine {
    number: 3,
    reason: BadReason::NoEvent,
};

#[test]
fn what_replays_is_called_as_asked(rt: HostRuntime) -> Result<(), Fail> {
    let wanted = Action::Replay {
        file: "a.script",
        limits: GREATEST,
    };
    assert_asks(&rt, rt.alloc(), &["mqtt5", "replay", "a.script"], wanted)?;
    let mut written: Vec<u8> = Vec::new(rt.alloc());
    let outcome = perform(
        &rt,
        &["mqtt5", "replay", "-", "--queue", "7"],
        &mut written,
        &|_, _, _, _, _, _| Err(ServeFault::Socket),
        &|file: &str, limits: Limits| {
            if file == "-" && limits.queue == 7 {
                Ok(Played::Bad(BAD))
            } else {
                Err(ReplayFault::Read)
            }
        },
    );
    let is_replayed = matches!(outcome, Outcome::Replayed(Played::Bad(bad)) if bad == BAD);
    let is_silent = written.is_empty();
    drop(outcome);
    drop(written);
    assert!(rt; is_replayed && is_silent);
    Ok(())
}

#[test]
fn a_value_that_is_out_of_range_is_usage(rt: HostRuntime) -> Result<(), Fail> {
    for (listen, turns) in UNSERVED {
        let words = [
            "mqtt5", "serve", "--listen", listen, "--db", "a.db", "--turns", turns,
        ];
        assert!(rt; is_usage(rt.alloc(), &words)?, "{listen} {turns}");
    }
    Ok(())
}

/// Addresses and numbers of turns of which one isn't of its form.
const UNSERVED: [(&str, &str); 12] = [
    ("127.0.0.1:1883", "0"),
    ("127.0.0.1:1883", "4294967296"),
    ("127.0.0.1:1883", "-1"),
    ("127.0.0.1:1883", "many"),
    ("127.0.0.1:1883", ""),
    ("x", "1"),
    ("127.0.0.1", "1"),
    ("127.0.0.1:65536", "1"),
    ("127.0.0.1:01883", "1"),
    ("01.2.3.4:1", "1"),
    ("256.2.3.4:1", "1"),
    ("localhost:1883", "1"),
];

/// Command lines that ask for nothing, each with what is wrong.
fn other_words() -> &'static [(&'static [&'static str], &'static str)] {
    &[
        (&["mqtt5", "vectors", "f"], "a FILE for vectors"),
        (&[], "no word"),
        (&["mqtt5"], "no command"),
        (&["mqtt5", "view"], "no FILE"),
        (&["mqtt5", "replay"], "no FILE to replay"),
        (&["mqtt5", "replay", "a", "b"], "two FILEs to replay"),
        (&["mqtt5", "view", "--payload"], "an option for FILE"),
        (&["mqtt5", "view", "a", "b"], "two FILEs"),
        (
            &["mqtt5", "view", "--payload", "--payload", "a"],
            "an option twice",
        ),
        (
            &["mqtt5", "view", "--properties", "--properties", "a"],
            "the other option twice",
        ),
        (
            &["mqtt5", "replay", "--properties", "a"],
            "an option of view",
        ),
        (&["mqtt5", "view", "--payload=1", "a"], "a value for a flag"),
        (&["mqtt5", "view", "-p", "a"], "an unknown option"),
        (&["mqtt5", "watch", "a"], "an unknown command"),
        (&["mqtt5", "a"], "FILE without a command"),
        (
            &["mqtt5", "serve", "--listen", "1.2.3.4:5", "--turns", "1"],
            "no --db",
        ),
        (
            &["mqtt5", "serve", "--db", "a", "--turns", "1"],
            "no --listen",
        ),
        (
            &["mqtt5", "serve", "--db", "a", "--listen", "1.2.3.4:5"],
            "no --turns",
        ),
        (&["mqtt5", "serve", "--help"], "a call for help with serve"),
        (&["mqtt5", "--help"], "a call for help"),
        (
            &["mqtt5", "view", "--version"],
            "a call for the version of view",
        ),
        (
            &["mqtt5", "replay", "--commit", "step", "a"],
            "an option of serve",
        ),
        (&["mqtt5", "replay", "--log", "a"], "the flag of serve"),
        (&["mqtt5", "help"], "the command for help"),
        (&["mqtt5", "view", "--help"], "a call for help with view"),
    ]
}

/// Whether a command line asks for nothing, with lines that say what is wrong.
pub(crate) fn is_usage(alloc: Global, words: &[&str]) -> Result<bool, Fail> {
    match action(alloc, words) {
        Err(LineFault::Usage(text)) => {
            let is_lines = text.as_str().ends_with("\n");
            drop(text);
            Ok(is_lines)
        }
        Err(LineFault::Memory) => Err(Fail::from("want of memory")),
        Ok(_) | Err(LineFault::Version) => Ok(false),
    }
}

#[test]
fn any_other_command_line_is_usage(rt: HostRuntime) -> Result<(), Fail> {
    for (words, wrong) in other_words() {
        assert!(rt; is_usage(rt.alloc(), words)?, "{wrong}");
    }
    Ok(())
}
