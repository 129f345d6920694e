//! Each event's line is read as that event.

use crate::script::shown::push_shown;
use mqtt_script::{ScriptFault, event_of, is_passed_over};
use std::alloc::Global;
use std::test::Fail;

/// Lines, each with its event in other words, and its first word.
fn lines() -> &'static [(&'static str, &'static str, &'static str)] {
    &[
        ("publisher p1", "a publisher p1", "publisher"),
        ("receiver r1 10", "a receiver r1 of 10 and 0", "receiver"),
        ("receiver r1 1", "a receiver r1 of 1 and 0", "receiver"),
        (
            "receiver r1 65535",
            "a receiver r1 of 65535 and 0",
            "receiver",
        ),
        ("receiver r1 10 0", "a receiver r1 of 10 and 0", "receiver"),
        ("receiver r1 1 2", "a receiver r1 of 1 and 2", "receiver"),
        (
            "receiver r1 2 65535",
            "a receiver r1 of 2 and 65535",
            "receiver",
        ),
        ("connect r1 0", "r1 connects, clean false", "connect"),
        ("connect r1 1", "r1 connects, clean true", "connect"),
        ("giveup p1", "p1 gives up", "giveup"),
        (
            "publish p1 2 0 a/b 6869",
            "p1 publishes ExactlyOnce retain false topic a/b payload 6869",
            "publish",
        ),
        (
            "publish p1 1 1 a/b Ff",
            "p1 publishes AtLeastOnce retain true topic a/b payload ff",
            "publish",
        ),
        (
            "publish p1 0 0 - -",
            "p1 publishes AtMostOnce retain false topic - payload ",
            "publish",
        ),
        (
            "subscribe r1 2 0 0 0 0 a/b",
            "r1 subscribes a/b ExactlyOnce no local false as published false SendAlways",
            "subscribe",
        ),
        (
            "subscribe r1 1 1 0 1 1 #",
            "r1 subscribes # AtLeastOnce no local true as published false SendIfNew number 1",
            "subscribe",
        ),
        (
            "subscribe r1 0 0 1 2 268435455 +/b",
            "r1 subscribes +/b AtMostOnce no local false as published true DoNotSend number 268435455",
            "subscribe",
        ),
        ("tobroker p1", "from p1", "tobroker"),
        ("tobroker p1 old", "late from p1", "tobroker"),
        ("tobroker old old", "late from old", "tobroker"),
        ("toend r1", "to r1", "toend"),
        ("break r1", "r1 is lost", "break"),
        ("pump r1", "r1 is pumped", "pump"),
        ("clock 0", "0 pass", "clock"),
        (
            "clock 18446744073709551615",
            "18446744073709551615 pass",
            "clock",
        ),
        ("tick", "tick", "tick"),
        ("restart", "restart", "restart"),
        (
            "stopbefore tobroker p1",
            "stop before read of p1",
            "stopbefore",
        ),
        (
            "stopafter tobroker p1 old",
            "stop after late read of p1",
            "stopafter",
        ),
        (
            "stopbefore break r1",
            "stop before loss of r1",
            "stopbefore",
        ),
        ("stopafter pump r1", "stop after pump of r1", "stopafter"),
        ("stopbefore tick", "stop before a tick", "stopbefore"),
        (
            "stopafter stranger s c000",
            "stop after c000 from s",
            "stopafter",
        ),
        ("stranger publish C000", "publish says c000", "stranger"),
        ("drain #r1%", "#r1% is drained", "drain"),
    ]
}

/// Whether a line is read as this event, which has this first word.
fn is_read_as(alloc: Global, line: &str, event: &str, word: &str) -> Result<bool, ScriptFault> {
    let found = event_of(alloc, line.as_bytes())?;
    let is_word = found.first_word() == word;
    let mut text = String::new(alloc);
    let pushed = push_shown(alloc, &mut text, &found);
    drop(found);
    let is_event = text.as_str() == event;
    drop(text);
    pushed?;
    Ok(is_word && is_event)
}

#[test]
fn each_line_is_its_event(rt: HostRuntime) -> Result<(), Fail> {
    for (line, event, word) in lines() {
        let is_read = is_read_as(rt.alloc(), line, event, word)?;
        assert!(rt; is_read, "{line}");
    }
    Ok(())
}

#[test]
fn comments_and_empty_lines_are_passed_over(rt: HostRuntime) {
    for line in ["", "#", "# tick", "#\u{e4}"] {
        assert!(rt; is_passed_over(line.as_bytes()), "{line}");
    }
    for line in [" ", "tick", " # tick"] {
        assert!(rt; !is_passed_over(line.as_bytes()), "{line}");
    }
}
