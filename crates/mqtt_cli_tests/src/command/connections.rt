//! The option for connections, of `serve` alone (ours).

use crate::command::limits::{SERVE, is_asked, is_refused};
use crate::command::words::{GREATEST, is_usage};
use mqtt_cli::{Action, Commit};
use std::net::{Ipv4Addr, SocketAddrV4};
use std::test::Fail;

/// Options, and how many connections they ask for.
const ASKED: [(&[&str], u32); 6] = [
    (&[], 64),
    (&["--connections", "1"], 1),
    (&["--connections=64"], 64),
    (&["--connections", "65"], 65),
    (&["--connections", "999"], 999),
    (&["--connections=1000"], 1_000),
];

#[test]
fn connections_are_those_of_the_option(rt: HostRuntime) -> Result<(), Fail> {
    for (options, lines) in ASKED {
        let serve = Action::Serve {
            listen: SocketAddrV4::new(Ipv4Addr::from([127, 0, 0, 1]), 1_883),
            db: "a.db",
            turns: 3,
            limits: GREATEST.with_lines(lines),
            commit: Commit::Turn,
            log: false,
        };
        assert!(rt;
            is_asked(rt.alloc(), &SERVE, options, serve)?,
            "{options:?}"
        );
    }
    Ok(())
}

/// Options whose number of connections may not be, with what is told of it.
const WRONG: [(&[&str], &str); 6] = [
    (
        &["--connections", "0"],
        "mqtt5: --connections '0': it is a number from 1 to 1000\n",
    ),
    (
        &["--connections", "1001"],
        "mqtt5: --connections '1001': it is a number from 1 to 1000\n",
    ),
    (
        &["--connections", "4294967360"],
        "mqtt5: --connections '4294967360': it is a number from 1 to 1000\n",
    ),
    (
        &["--connections", "x"],
        "mqtt5: --connections 'x': it is a number from 1 to 1000\n",
    ),
    (
        &["--connections="],
        "mqtt5: --connections '': it is a number from 1 to 1000\n",
    ),
    (
        &["--connections", "0", "--queue", "0"],
        "mqtt5: --queue '0': it is a number from 1 to 1000\n",
    ),
];

#[test]
fn connections_that_are_out_of_range_are_usage(rt: HostRuntime) -> Result<(), Fail> {
    for (options, told) in WRONG {
        assert!(rt;
            is_refused(rt.alloc(), &SERVE, options, told)?,
            "{options:?}"
        );
    }
    Ok(())
}

/// Command lines that ask for connections where they may not, each with what is wrong.
const UNASKED: [(&[&str], &str); 3] = [
    (
        &[
            "mqtt5",
            "serve",
            "--connections",
            "2",
            "--listen",
            "127.0.0.1:1883",
            "--db",
            "a.db",
            "--turns",
            "3",
            "--connections",
            "2",
        ],
        "the option twice",
    ),
    (
        &["mqtt5", "replay", "--connections", "2", "a.script"],
        "an option of serve",
    ),
    (
        &["mqtt5", "--connections", "2", "vectors"],
        "no command in front",
    ),
];

#[test]
fn connections_are_asked_for_of_serve_and_once(rt: HostRuntime) -> Result<(), Fail> {
    for (words, wrong) in UNASKED {
        assert!(rt; is_usage(rt.alloc(), words)?, "{wrong}");
    }
    Ok(())
}
