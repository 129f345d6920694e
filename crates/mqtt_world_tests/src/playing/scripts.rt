//! Replays of scripts whose texts are worked out by hand, in one piece and a byte a read.

use crate::playing::devices::{Brittle, Drip};
use crate::playing::toy::Toy;
use mqtt_base::Text;
use mqtt_replay::playing::replay;
use mqtt_replay::{Played, ReplayFault};
use mqtt_world_ends::peers::RunFault;
use std::alloc::{AllocError, Global};
use std::test::Fail;

/// A message of QoS 2 for a receiver whose broker is stopped between commit and answer.
const SCRIPT: &str =
    "receiver r1 10\n# a publisher, and its message\n\npublisher p1\nconnect r1 0\n\
    tobroker r1\ntoend r1\nsubscribe r1 2 0 0 0 0 a/b\ntobroker r1\ntoend r1\nconnect p1 0\ntobroker p1\ntoend p1\n\
    publish p1 2 0 a/b 6869\ntobroker p1\nstopafter pump r1\nconnect r1 0\ntobroker r1\ntoend r1\npump r1\ntoend r1\n\
    tobroker r1\ntoend r1\ntobroker r1";

/// What its replay writes.
const TEXT: &str =
    "1 receiver\n2 publisher\n3 connect\n4 tobroker out=1\n5 toend\n6 subscribe\n7 tobroker out=1\n\
    8 toend\n9 connect\n10 tobroker out=1\n11 toend\n12 publish\n13 tobroker accepted=1 entered=1>r1 out=1\n\
    14 stopafter\n15 connect\n16 tobroker out=1\n17 toend\n18 pump out=1\n19 toend\n20 tobroker out=1\n21 toend\n\
    22 tobroker ended=1>r1:Taken\nr1 handed=1 queue=0\np1 sent=1 done=0\nbroker publications=1 sessions=2\n";

/// A world in which so many events happen, and then one that answers a fault.
pub(crate) fn toy_of(alloc: Global, last: u64, fault: RunFault) -> Result<Toy, AllocError> {
    if Text::may_hold("r1") {
        let client = Text::new(alloc, "r1")?;
        Ok(Toy::new(alloc, client, last, fault))
    } else {
        Err(AllocError)
    }
}

/// Replays a script in one piece, on a world in which all happens.
fn replayed(alloc: Global, script: &str, written: &mut Vec<u8>) -> Result<Played, ReplayFault> {
    let toy = toy_of(alloc, 1_000, RunFault::Store)?;
    let mut reader = script.as_bytes();
    replay(alloc, toy, &mut reader, written)
}

/// The same a byte a read.
fn replayed_bytewise(
    alloc: Global,
    script: &str,
    writer: &mut Brittle,
) -> Result<Played, ReplayFault> {
    let toy = toy_of(alloc, 1_000, RunFault::Store)?;
    let mut reader = Drip::new(script.as_bytes(), 100_000);
    let played = replay(alloc, toy, &mut reader, writer);
    drop(reader);
    played
}

#[test]
fn the_text_of_a_script(rt: HostRuntime) -> Result<(), Fail> {
    let mut written = Vec::new(rt.alloc());
    let played = replayed(rt.alloc(), SCRIPT, &mut written);
    let is_text = written.as_slice() == TEXT.as_bytes();
    drop(written);
    let mut writer = Brittle::new(rt.alloc(), 100_000);
    let again = replayed_bytewise(rt.alloc(), SCRIPT, &mut writer);
    let is_same = writer.written.as_slice() == TEXT.as_bytes();
    drop(writer);
    assert!(rt; is_text && played == Ok(Played::Whole));
    assert!(rt; is_same && again == Ok(Played::Whole));
    Ok(())
}

/// How many events stand on the whole lines of a script's beginning.
fn events_in(front: &[u8]) -> usize {
    let mut events = 0usize;
    let mut first = None;
    for byte in front {
        if *byte != b'\n' {
            first = first.or(Some(*byte));
        } else {
            if first.is_some_and(|byte| byte != b'#') {
                events = events.saturating_add(1);
            }
            first = None;
        }
    }
    events
}

/// Whether this is the first so many lines of the text, and no more.
fn is_front(written: &[u8], lines: usize) -> bool {
    let count = written.iter().filter(|byte| **byte == b'\n').count();
    let ends = written.is_empty() || written.ends_with(b"\n");
    ends && count == lines && TEXT.as_bytes().starts_with(written)
}

/// What the script comes to if a read fails, and whether these many lines were written.
fn read_to(alloc: Global, fails_at: usize, lines: usize) -> (Result<Played, ReplayFault>, bool) {
    let Ok(toy) = toy_of(alloc, 1_000, RunFault::Store) else {
        return (Err(ReplayFault::Memory), false);
    };
    let mut reader = Drip::new(SCRIPT.as_bytes(), fails_at);
    let mut writer = Brittle::new(alloc, usize::MAX);
    let played = replay(alloc, toy, &mut reader, &mut writer);
    drop(reader);
    let is_so = is_front(writer.written.as_slice(), lines);
    drop(writer);
    (played, is_so)
}

#[test]
fn a_read_that_fails_leaves_the_lines_of_what_came(rt: HostRuntime) {
    for fails_at in 0..SCRIPT.len() + 1 {
        let lines = events_in(&SCRIPT.as_bytes()[..fails_at]);
        let (played, is_so) = read_to(rt.alloc(), fails_at, lines);
        assert!(rt; played == Err(ReplayFault::Read), "read {fails_at}");
        assert!(rt; is_so, "read {fails_at}");
    }
}

/// What the script comes to if a write fails, and whether these many lines were written.
fn written_to(alloc: Global, fails_at: usize, lines: usize) -> (Result<Played, ReplayFault>, bool) {
    let Ok(toy) = toy_of(alloc, 1_000, RunFault::Store) else {
        return (Err(ReplayFault::Memory), false);
    };
    let mut reader = SCRIPT.as_bytes();
    let mut writer = Brittle::new(alloc, fails_at);
    let played = replay(alloc, toy, &mut reader, &mut writer);
    let is_so = is_front(writer.written.as_slice(), lines);
    drop(writer);
    (played, is_so)
}

#[test]
fn a_write_that_fails_is_told(rt: HostRuntime) {
    for fails_at in 0..23 {
        let (played, is_so) = written_to(rt.alloc(), fails_at, fails_at);
        assert!(rt; played == Err(ReplayFault::Write), "write {fails_at}");
        assert!(rt; is_so, "write {fails_at}");
    }
    let (played, is_so) = written_to(rt.alloc(), 23, 25);
    assert!(rt; played == Ok(Played::Whole));
    assert!(rt; is_so);
}
