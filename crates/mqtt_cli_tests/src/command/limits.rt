//! The options for the limits of the broker's tables, of `serve` and of `replay`, and for a commit and a log (ours).

use crate::command::words::GREATEST;
use mqtt_cli::{Action, Commit, Full, Limits, LineFault, action};
use std::alloc::{AllocError, Global};
use std::net::{Ipv4Addr, SocketAddrV4};
use std::test::Fail;

/// Options, and the limits that they ask for.
fn asked() -> &'static [(&'static [&'static str], (Full, u32, u32, u32))] {
    &[
        (&[], (Full::Refuse, 1_000, 1_000, 1_000)),
        (&["--full", "drop"], (Full::Drop, 1_000, 1_000, 1_000)),
        (&["--full", "refuse"], (Full::Refuse, 1_000, 1_000, 1_000)),
        (&["--queue", "1"], (Full::Refuse, 1, 1_000, 1_000)),
        (&["--queue", "1000"], (Full::Refuse, 1_000, 1_000, 1_000)),
        (&["--sessions", "1"], (Full::Refuse, 1_000, 1, 1_000)),
        (&["--sessions=999"], (Full::Refuse, 1_000, 999, 1_000)),
        (&["--retained", "1"], (Full::Refuse, 1_000, 1_000, 1)),
        (&["--retained=1000"], (Full::Refuse, 1_000, 1_000, 1_000)),
        (
            &[
                "--retained",
                "4",
                "--sessions",
                "3",
                "--queue",
                "2",
                "--full",
                "drop",
            ],
            (Full::Drop, 2, 3, 4),
        ),
    ]
}

/// Options of which one has a value that it may not have, with what is told of it.
const WRONG: [(&[&str], &str); 15] = [
    (&["--full", ""], "mqtt5: --full '': it is refuse or drop\n"),
    (
        &["--full", "Drop"],
        "mqtt5: --full 'Drop': it is refuse or drop\n",
    ),
    (
        &["--full", "dropped"],
        "mqtt5: --full 'dropped': it is refuse or drop\n",
    ),
    (&["--full=1"], "mqtt5: --full '1': it is refuse or drop\n"),
    (
        &["--queue", "0"],
        "mqtt5: --queue '0': it is a number from 1 to 1000\n",
    ),
    (
        &["--queue", "1001"],
        "mqtt5: --queue '1001': it is a number from 1 to 1000\n",
    ),
    (
        &["--queue", "x"],
        "mqtt5: --queue 'x': it is a number from 1 to 1000\n",
    ),
    (
        &["--queue="],
        "mqtt5: --queue '': it is a number from 1 to 1000\n",
    ),
    (
        &["--sessions", "0"],
        "mqtt5: --sessions '0': it is a number from 1 to 1000\n",
    ),
    (
        &["--sessions", "1001"],
        "mqtt5: --sessions '1001': it is a number from 1 to 1000\n",
    ),
    (
        &["--retained", "0"],
        "mqtt5: --retained '0': it is a number from 1 to 1000\n",
    ),
    (
        &["--retained", "4294967297"],
        "mqtt5: --retained '4294967297': it is a number from 1 to 1000\n",
    ),
    (
        &["--retained", "1001"],
        "mqtt5: --retained '1001': it is a number from 1 to 1000\n",
    ),
    (
        &["--full", "drop", "--queue", "many"],
        "mqtt5: --queue 'many': it is a number from 1 to 1000\n",
    ),
    (
        &["--retained", "0", "--full", "never"],
        "mqtt5: --full 'never': it is refuse or drop\n",
    ),
];

/// The words in front of options, and these.
fn joined<'a>(
    alloc: Global,
    front: &[&'a str],
    options: &[&'a str],
) -> Result<Vec<&'a str>, AllocError> {
    let mut words = Vec::from_slice(alloc, front)?;
    words.extend_from_slice(options)?;
    Ok(words)
}

/// Whether words ask for this.
pub(crate) fn is_asked(
    alloc: Global,
    front: &[&str],
    options: &[&str],
    wanted: Action<'_>,
) -> Result<bool, Fail> {
    let words = joined(alloc, front, options)?;
    let found = match action(alloc, words.as_slice()) {
        Ok(found) => Ok(found == wanted),
        Err(LineFault::Memory) => Err(Fail::from("want of memory")),
        Err(LineFault::Usage(_)) | Err(LineFault::Version) => Ok(false),
    };
    drop(words);
    found
}

/// Whether words ask for nothing, and this is told.
pub(crate) fn is_refused(
    alloc: Global,
    front: &[&str],
    options: &[&str],
    told: &str,
) -> Result<bool, Fail> {
    let words = joined(alloc, front, options)?;
    let found = match action(alloc, words.as_slice()) {
        Err(LineFault::Usage(text)) => {
            let is_told = text.as_str() == told;
            drop(text);
            Ok(is_told)
        }
        Err(LineFault::Memory) => Err(Fail::from("want of memory")),
        Ok(_) | Err(LineFault::Version) => Ok(false),
    };
    drop(words);
    found
}

const REPLAY: [&str; 3] = ["mqtt5", "replay", "a.script"];

pub(crate) const SERVE: [&str; 8] = [
    "mqtt5",
    "serve",
    "--listen",
    "127.0.0.1:1883",
    "--db",
    "a.db",
    "--turns",
    "3",
];

#[test]
fn limits_are_those_of_the_options(rt: HostRuntime) -> Result<(), Fail> {
    for (options, sizes) in asked() {
        let (full, queue, sessions, retained) = *sizes;
        let limits = Limits {
            full,
            queue,
            sessions,
            retained,
        };
        let replay = Action::Replay {
            file: "a.script",
            limits,
        };
        let serve = Action::Serve {
            listen: SocketAddrV4::new(Ipv4Addr::from([127, 0, 0, 1]), 1_883),
            db: "a.db",
            turns: 3,
            limits: limits.with_lines(64),
            commit: Commit::Turn,
            log: false,
        };
        assert!(rt;
            is_asked(rt.alloc(), &REPLAY, options, replay)?,
            "{options:?}"
        );
        assert!(rt;
            is_asked(rt.alloc(), &SERVE, options, serve)?,
            "{options:?}"
        );
    }
    Ok(())
}

#[test]
fn a_limit_that_is_out_of_range_is_usage(rt: HostRuntime) -> Result<(), Fail> {
    for (options, told) in WRONG {
        assert!(rt;
            is_refused(rt.alloc(), &REPLAY, options, told)?,
            "{options:?}"
        );
        assert!(rt;
            is_refused(rt.alloc(), &SERVE, options, told)?,
            "{options:?}"
        );
    }
    Ok(())
}

#[test]
fn a_commit_and_a_log_are_those_of_their_options(rt: HostRuntime) -> Result<(), Fail> {
    for (options, commit, log) in ASKED {
        let serve = Action::Serve {
            listen: SocketAddrV4::new(Ipv4Addr::from([127, 0, 0, 1]), 1_883),
            db: "a.db",
            turns: 3,
            limits: GREATEST.with_lines(64),
            commit,
            log,
        };
        assert!(rt;
            is_asked(rt.alloc(), &SERVE, options, serve)?,
            "{options:?}"
        );
    }
    Ok(())
}

/// Options, when the steps are stored by them, and whether there is a log.
const ASKED: [(&[&str], Commit, bool); 6] = [
    (&[], Commit::Turn, false),
    (&["--commit", "turn"], Commit::Turn, false),
    (&["--commit", "step"], Commit::Step, false),
    (&["--commit=step"], Commit::Step, false),
    (&["--log"], Commit::Turn, true),
    (&["--log", "--commit", "step"], Commit::Step, true),
];

#[test]
fn a_commit_of_no_name_is_usage(rt: HostRuntime) -> Result<(), Fail> {
    for (options, told) in WRONG_COMMITS {
        assert!(rt;
            is_refused(rt.alloc(), &SERVE, options, told)?,
            "{options:?}"
        );
    }
    Ok(())
}

/// Options whose commit has no name, with what is told of it.
const WRONG_COMMITS: [(&[&str], &str); 3] = [
    (
        &["--commit", "Step"],
        "mqtt5: --commit 'Step': it is turn or step\n",
    ),
    (
        &["--commit", "never"],
        "mqtt5: --commit 'never': it is turn or step\n",
    ),
    (&["--commit="], "mqtt5: --commit '': it is turn or step\n"),
];

/// A wrong address, and a wrong number of turns, with what is told of each.
const SERVE_WRONG: [([&str; 8], &str); 2] = [
    (
        [
            "mqtt5",
            "serve",
            "--listen",
            "localhost:1883",
            "--db",
            "a.db",
            "--turns",
            "3",
        ],
        "mqtt5: --listen 'localhost:1883': it is an IPv4 address and a port without leading zeros, as 127.0.0.1:1883\n",
    ),
    (
        [
            "mqtt5",
            "serve",
            "--listen",
            "127.0.0.1:1883",
            "--db",
            "a.db",
            "--turns",
            "0",
        ],
        "mqtt5: --turns '0': it is a number from 1 to 4294967295\n",
    ),
];

#[test]
fn a_wrong_address_is_told_apart_from_a_wrong_number_of_turns(rt: HostRuntime) -> Result<(), Fail> {
    for (front, told) in SERVE_WRONG {
        assert!(rt; is_refused(rt.alloc(), &front, &[], told)?, "{told}");
    }
    Ok(())
}
