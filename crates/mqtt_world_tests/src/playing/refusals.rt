//! Lines that are no events, and worlds, readers and writers that fail.

use crate::playing::devices::{Brittle, Drip};
use crate::playing::scripts::toy_of;
use mqtt_replay::playing::replay;
use mqtt_replay::{BadLine, BadReason, Played, ReplayFault};
use mqtt_world_ends::peers::RunFault;
use std::alloc::Global;
use std::test::Fail;

/// Lines that are no events, and why they are none.
fn bad_lines() -> &'static [(&'static str, BadReason)] {
    &[
        (" ", BadReason::SpaceTooMany),
        ("Tick", BadReason::NoEvent),
        ("tick ", BadReason::SpaceTooMany),
        (" tick", BadReason::SpaceTooMany),
        ("tick tick", BadReason::NoEvent),
        ("ti\u{e9}ck", BadReason::NoEvent),
        ("tick\r", BadReason::CarriageReturn),
        ("\r", BadReason::CarriageReturn),
        (" tick \r", BadReason::CarriageReturn),
        ("tick\r ", BadReason::SpaceTooMany),
        ("publisher", BadReason::NoEvent),
        ("publisher  p1", BadReason::SpaceTooMany),
        ("receiver r1", BadReason::NoEvent),
        ("receiver r1 0", BadReason::NoEvent),
        ("receiver r1 65536", BadReason::NoEvent),
        ("receiver r1 01", BadReason::NoEvent),
        ("receiver r1 1 65536", BadReason::NoEvent),
        ("receiver r1 1 2 3", BadReason::NoEvent),
        ("connect r1 2", BadReason::NoEvent),
        ("publish p1 3 0 a/b -", BadReason::NoEvent),
        ("publish p1 0 0 a/b 686", BadReason::NoEvent),
        ("publish p1 0 0 a/b zz", BadReason::NoEvent),
        ("subscribe r1 2 0 0 3 0 a/b", BadReason::NoEvent),
        ("subscribe r1 2 0 0 0 268435456 a/b", BadReason::NoEvent),
        ("tobroker p1 new", BadReason::NoEvent),
        ("clock -1", BadReason::NoEvent),
        ("clock 18446744073709551616", BadReason::NoEvent),
        ("stopafter restart", BadReason::NoEvent),
        ("stopbefore", BadReason::NoEvent),
        ("stranger s", BadReason::NoEvent),
    ]
}

/// Scripts with a bad line, its number among all lines and why it is bad, and what is written.
fn bad_scripts() -> &'static [(&'static str, u64, BadReason, &'static str)] {
    &[
        ("Tick", 1, BadReason::NoEvent, "1 bad\n"),
        (
            "tick\n# a\n\n\ntick\n\nTick",
            7,
            BadReason::NoEvent,
            "1 tick\n2 tick\n3 bad\n",
        ),
        (
            "#\r\ntick\r\ntick\r\n",
            2,
            BadReason::CarriageReturn,
            "1 bad\n",
        ),
        (
            "tick\n\r\ntick\n",
            2,
            BadReason::CarriageReturn,
            "1 tick\n2 bad\n",
        ),
        (
            "# a\n\npublisher  p1\n",
            3,
            BadReason::SpaceTooMany,
            "1 bad\n",
        ),
        ("\n\n tick\n", 3, BadReason::SpaceTooMany, "1 bad\n"),
        ("tick\n \n", 2, BadReason::SpaceTooMany, "1 tick\n2 bad\n"),
        (
            "tick\n#\ntick ",
            3,
            BadReason::SpaceTooMany,
            "1 tick\n2 bad\n",
        ),
        (
            "#\ntick\n\ntick\ntick\n#\n\nclock 1\n",
            8,
            BadReason::CannotHappen,
            "1 tick\n2 tick\n3 tick\n4 bad\n",
        ),
    ]
}

/// Whether a replay ended so, with this text.
fn is_so(
    played: Result<Played, ReplayFault>,
    writer: Brittle,
    due: Result<Played, ReplayFault>,
    text: &str,
) -> bool {
    let is_text = writer.written.as_slice() == text.as_bytes();
    drop(writer);
    is_text && played == due
}

/// A replay that ended at this line.
fn bad_at(number: u64, reason: BadReason) -> Result<Played, ReplayFault> {
    Ok(Played::Bad(BadLine { number, reason }))
}

/// Whether a script whose second event is this line, the fourth of all, ends there.
fn is_bad(alloc: Global, line: &str, reason: BadReason) -> Result<bool, ReplayFault> {
    let mut script = String::new(alloc);
    let pushed = writeln!(script, "tick\n#\n\n{line}\nrestart");
    let toy = toy_of(alloc, 1_000, RunFault::Store)?;
    let mut reader = script.as_bytes();
    let mut writer = Brittle::new(alloc, 100);
    let played = replay(alloc, toy, &mut reader, &mut writer);
    drop(script);
    let bad = is_so(played, writer, bad_at(4, reason), "1 tick\n2 bad\n");
    pushed?;
    Ok(bad)
}

/// How a script of two events ends on a world that answers so at the second.
fn is_answered(
    alloc: Global,
    fault: RunFault,
    due: Result<Played, ReplayFault>,
    text: &str,
) -> Result<bool, ReplayFault> {
    let toy = toy_of(alloc, 1, fault)?;
    let mut reader = "tick\nrestart\n".as_bytes();
    let mut writer = Brittle::new(alloc, 100);
    let played = replay(alloc, toy, &mut reader, &mut writer);
    Ok(is_so(played, writer, due, text))
}

/// How a script ends whose reads and writes fail at these.
fn is_broken(
    alloc: Global,
    read: usize,
    write: usize,
    due: Result<Played, ReplayFault>,
    text: &str,
) -> Result<bool, ReplayFault> {
    let toy = toy_of(alloc, 1_000, RunFault::Store)?;
    let mut reader = Drip::new("tick\nrestart\n".as_bytes(), read);
    let mut writer = Brittle::new(alloc, write);
    let played = replay(alloc, toy, &mut reader, &mut writer);
    drop(reader);
    Ok(is_so(played, writer, due, text))
}

#[test]
fn lines_that_are_no_events(rt: HostRuntime) -> Result<(), Fail> {
    for (line, reason) in bad_lines() {
        assert!(rt; is_bad(rt.alloc(), line, *reason) == Ok(true), "{line}");
    }
    Ok(())
}

/// Whether a script ends so, read a byte at a time, on a world in which a fourth event can't happen.
fn is_bad_script(
    alloc: Global,
    script: &str,
    due: Result<Played, ReplayFault>,
    text: &str,
) -> Result<bool, ReplayFault> {
    let toy = toy_of(alloc, 3, RunFault::BadEvent { place: 0 })?;
    let mut reader = Drip::new(script.as_bytes(), 1_000);
    let mut writer = Brittle::new(alloc, 100);
    let played = replay(alloc, toy, &mut reader, &mut writer);
    drop(reader);
    Ok(is_so(played, writer, due, text))
}

#[test]
fn all_lines_count_in_the_number_of_a_bad_one(rt: HostRuntime) -> Result<(), Fail> {
    for (script, number, reason, text) in bad_scripts() {
        let due = bad_at(*number, *reason);
        assert!(rt;
            is_bad_script(rt.alloc(), script, due, text) == Ok(true),
            "{script}"
        );
    }
    Ok(())
}

#[test]
fn faults_of_the_world(rt: HostRuntime) -> Result<(), Fail> {
    let alloc = rt.alloc();
    let bad = RunFault::BadEvent { place: 0 };
    let due = bad_at(2, BadReason::CannotHappen);
    let memory = Err(ReplayFault::Memory);
    let store = Err(ReplayFault::Store);
    assert!(rt; is_answered(alloc, bad, due, "1 tick\n2 bad\n") == Ok(true));
    assert!(rt; is_answered(alloc, RunFault::Memory, memory, "1 tick\n") == Ok(true));
    assert!(rt; is_answered(alloc, RunFault::Store, store, "1 tick\n") == Ok(true));
    Ok(())
}

#[test]
fn reads_and_writes_that_fail(rt: HostRuntime) -> Result<(), Fail> {
    let alloc = rt.alloc();
    let read = Err(ReplayFault::Read);
    let write = Err(ReplayFault::Write);
    assert!(rt; is_broken(alloc, 0, 100, read, "") == Ok(true));
    assert!(rt; is_broken(alloc, 8, 100, read, "1 tick\n") == Ok(true));
    assert!(rt; is_broken(alloc, 13, 100, read, "1 tick\n2 restart\n") == Ok(true));
    assert!(rt; is_broken(alloc, 100, 0, write, "") == Ok(true));
    assert!(rt; is_broken(alloc, 100, 1, write, "1 tick\n") == Ok(true));
    assert!(rt; is_broken(alloc, 100, 2, write, "1 tick\n2 restart\n") == Ok(true));
    Ok(())
}
