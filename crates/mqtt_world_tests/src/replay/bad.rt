//! Events that can't happen where they come (MQTT 5.0, 3.1, 3.3, 3.8, 4.1).

use crate::replay::playing::{in_memory, is_so, is_so_in_sql};
use mqtt_replay::{BadLine, BadReason, Played, ReplayFault};
use std::alloc::Global;
use std::hash::RandomState;
use std::test::Fail;

/// Lines that are good, and one that is bad behind them.
fn bad() -> &'static [(&'static str, &'static str)] {
    &[
        ("", "tobroker p1"),
        ("", "toend p1"),
        ("", "pump p1"),
        ("", "break p1"),
        ("", "giveup p1"),
        ("", "connect p1 0"),
        ("", "publish p1 2 0 a/b 6869"),
        ("", "subscribe r1 2 0 0 0 0 a/b"),
        ("", "stopbefore tobroker p1"),
        ("", "stopafter pump p1"),
        ("", "publisher auto-1"),
        ("", "receiver auto- 10"),
        (
            "",
            "publisher aaaaaaaaaabbbbbbbbbbccccccccccddddddddddeeeeeeeeeeffffffffff12345",
        ),
        ("publisher p1\n", "publisher p1"),
        ("publisher p1\n", "receiver p1 10"),
        ("publisher p1\nconnect p1 0\n", "connect p1 0"),
        ("publisher p1\n", "giveup p1"),
        ("publisher p1\n", "break p1"),
        ("publisher p1\n", "stopafter break p1"),
        ("receiver r1 10\n", "publish r1 2 0 a/b 6869"),
        ("receiver r1 10\n", "subscribe r1 2 0 0 0 0 a/b"),
        (
            "receiver r1 10\nconnect r1 0\n",
            "subscribe r1 2 0 0 0 0 a/b",
        ),
        (
            "publisher p1\nconnect p1 0\ntobroker p1\ntoend p1\n",
            "subscribe p1 2 0 0 0 0 a/b",
        ),
        (READY, "subscribe r1 2 1 0 0 0 $share/g/a/b"),
        (WAITING, "subscribe r1 2 0 0 0 0 a/b"),
        ("", "drain r1"),
        ("receiver r1 10\n", "drain r1"),
        ("receiver r1 10\nconnect r1 0\ngiveup r1\n", "drain r1"),
        (
            "publisher p1\nconnect p1 0\ntobroker p1\ntoend p1\n",
            "drain p1",
        ),
        // (the broker has closed its line: no CONNECT came in time)
        (
            "receiver r1 10\nconnect r1 0\nclock 86400000\ntick\n",
            "drain r1",
        ),
        (
            "receiver r1 10\n",
            "stranger s 101400044d515454050000000511ffffffff00027231",
        ),
        (
            "receiver r1 10\n",
            "stopbefore stranger s 101400044d515454050000000511ffffffff00027231",
        ),
        (
            "receiver r1 10\nstranger s 101400044d5154540500\n",
            "stranger s 00000511ffffffff00027231",
        ),
    ]
}

/// A receiver that has read its CONNACK.
const READY: &str = "receiver r1 10\nconnect r1 0\ntobroker r1\ntoend r1\n";

/// And has sent SUBSCRIBE.
const WAITING: &str =
    "receiver r1 10\nconnect r1 0\ntobroker r1\ntoend r1\nsubscribe r1 2 0 0 0 0 a/b\n";

/// Whether a line behind others is bad, and nothing behind it is played.
fn is_bad(
    alloc: Global,
    hasher: RandomState,
    front: &str,
    line: &str,
) -> Result<bool, ReplayFault> {
    let mut script = String::new(alloc);
    let pushed = writeln!(script, "{front}{line}\ntick");
    let mut written = Vec::new(alloc);
    let played = in_memory(alloc, hasher, script.as_str(), &mut written);
    drop(script);
    let mut due = String::new(alloc);
    let bad = BadLine {
        number: front.split('\n').count() as u64,
        reason: BadReason::CannotHappen,
    };
    let told = writeln!(due, "{} bad", bad.number);
    let is_text = written.as_slice().ends_with(due.as_bytes());
    drop(due);
    drop(written);
    pushed?;
    told?;
    Ok(is_text && played? == Played::Bad(bad))
}

#[test]
fn events_that_can_not_happen(rt: HostRuntime) -> Result<(), Fail> {
    let hasher = RandomState::new(&rt)?;
    for (front, line) in bad() {
        assert!(rt;
            is_bad(rt.alloc(), hasher, front, line) == Ok(true),
            "{line}"
        );
    }
    Ok(())
}

/// Whether a message of QoS 2 to a/b with a payload of so many bytes is bad.
fn is_too_large(alloc: Global, hasher: RandomState, bytes: usize) -> Result<bool, ReplayFault> {
    let mut line = String::new(alloc);
    let mut pushed = write!(line, "publish p1 2 0 a/b ");
    for _ in 0..bytes {
        if pushed.is_ok() {
            pushed = write!(line, "00");
        }
    }
    let is = is_bad(alloc, hasher, "publisher p1\n", line.as_str());
    drop(line);
    pushed?;
    is
}

// (12 bytes of the packet are not the payload's, and a packet has at most 65,536.)
#[test]
fn a_message_that_no_packet_carries(rt: HostRuntime) -> Result<(), Fail> {
    let hasher = RandomState::new(&rt)?;
    assert!(rt; is_too_large(rt.alloc(), hasher, 65_524) == Ok(false));
    assert!(rt; is_too_large(rt.alloc(), hasher, 65_525) == Ok(true));
    Ok(())
}

/// Scripts with a bad line behind others that are passed over: its number among all lines, why it is bad, and what is written.
fn bad_scripts() -> &'static [(&'static str, u64, BadReason, &'static str)] {
    &[
        (
            "# a\n\npublisher p1\n\npublisher p1",
            5,
            BadReason::CannotHappen,
            "1 publisher\n2 bad\n",
        ),
        (
            "#\r\nreceiver r1 10\r\n",
            2,
            BadReason::CarriageReturn,
            "1 bad\n",
        ),
        (
            "publisher p1\n\nconnect  p1 0\n",
            3,
            BadReason::SpaceTooMany,
            "1 publisher\n2 bad\n",
        ),
        ("\n publisher p1\n", 2, BadReason::SpaceTooMany, "1 bad\n"),
        ("publisher p1 \n", 1, BadReason::SpaceTooMany, "1 bad\n"),
        ("#\n#\n#\npublishers p1\n", 4, BadReason::NoEvent, "1 bad\n"),
    ]
}

#[test]
fn a_bad_line_has_its_number_and_why(rt: HostRuntime) -> Result<(), Fail> {
    let hasher = RandomState::new(&rt)?;
    for (script, number, reason, text) in bad_scripts() {
        let due = Played::Bad(BadLine {
            number: *number,
            reason: *reason,
        });
        assert!(rt;
            is_so(rt.alloc(), hasher, script, due, text) == Ok(true),
            "{script}"
        );
        assert!(rt;
            is_so_in_sql(rt.alloc(), hasher, script, due, text) == Ok(true),
            "{script}"
        );
    }
    Ok(())
}
