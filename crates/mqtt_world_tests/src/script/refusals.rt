//! Every way for a line to be no event.

use mqtt_script::{ScriptFault, event_of};
use std::alloc::Global;
use std::test::Fail;

/// Lines that are no event.
fn lines() -> &'static [&'static str] {
    &[
        // No first word, or one that there is not.
        "",
        " ",
        " tick",
        "ticks",
        "Tick",
        "tick\r",
        "tick\n",
        "open p1",
        // Too few words, too many, and an empty one.
        "publisher",
        "publisher ",
        "publisher p1 p2",
        "publisher  p1",
        "receiver r1",
        "receiver r1 1 ",
        "receiver r1 1  2",
        "receiver r1 1 2 ",
        "receiver r1 1 2 3",
        "connect p1",
        "connect p1 0 0",
        "giveup",
        "giveup p1 p2",
        "publish p1 0 0 a",
        "publish p1 0 0 a - -",
        "publish p1 0 0  -",
        "publish  0 0 a -",
        "publish p1 0 0 a ",
        "subscribe r1 0 0 0 0 0",
        "subscribe r1 0 0 0 0 0 ",
        "subscribe r1 0 0 0 0 0 a b",
        "subscribe  0 0 0 0 0 a",
        "tobroker",
        "tobroker p1 new",
        "tobroker p1 old old",
        "tobroker  old",
        "toend",
        "toend p1 old",
        "break",
        "pump",
        "clock",
        "clock 1 2",
        "tick 1",
        "tick ",
        "restart 1",
        "stranger s",
        "stranger s ",
        "stranger  c0",
        "stranger s c0 00",
        "drain",
        "drain r1 1",
        // A stop of no event, or of one that can't be stopped.
        "stopbefore",
        "stopafter",
        "stopbefore toend r1",
        "stopafter restart",
        "stopbefore stopafter tick",
        "stopafter pump",
        // Numbers: out of range, with a sign, with a leading zero, empty.
        "receiver r1 0",
        "receiver r1 65536",
        "receiver r1 +1",
        "receiver r1 01",
        "receiver r1 1 65536",
        "receiver r1 1 -1",
        "receiver r1 1 00",
        "receiver r1 1 a",
        "connect p1 2",
        "connect p1 00",
        "publish p1 3 0 a -",
        "publish p1 0 2 a -",
        "subscribe r1 0 0 0 3 0 a",
        "subscribe r1 0 0 0 0 268435456 a",
        "clock 18446744073709551616",
        "clock -1",
        "clock ",
        // Hexadecimal: an odd count, no digit, and no bytes of a stranger.
        "publish p1 0 0 a 686",
        "publish p1 0 0 a 6g",
        "stranger s -",
        // Not ASCII.
        "publisher \u{e4}",
    ]
}

/// Whether a line is refused as no event, unless memory is wanting.
fn is_refused(alloc: Global, line: &[u8]) -> Result<bool, ScriptFault> {
    match event_of(alloc, line) {
        Ok(event) => {
            drop(event);
            Ok(false)
        }
        Err(ScriptFault::NoEvent) => Ok(true),
        Err(ScriptFault::Memory) => Err(ScriptFault::Memory),
    }
}

#[test]
fn other_lines_are_no_event(rt: HostRuntime) -> Result<(), Fail> {
    for line in lines() {
        let is_refused = is_refused(rt.alloc(), line.as_bytes())?;
        assert!(rt; is_refused, "{line}");
    }
    Ok(())
}

#[test]
fn a_text_has_no_null_and_is_well_formed(rt: HostRuntime) -> Result<(), Fail> {
    let null = is_refused(rt.alloc(), b"publisher a\0")?;
    let other = is_refused(rt.alloc(), b"publisher \xff")?;
    assert!(rt; null && other);
    Ok(())
}

#[test]
fn a_long_name_is_none(rt: HostRuntime) -> Result<(), Fail> {
    let mut line: Vec<u8> = Vec::new(rt.alloc());
    line.extend_from_slice(b"publisher ")?;
    for _ in 0..65_536 {
        line.push(b'a')?;
    }
    let is_refused = is_refused(rt.alloc(), line.as_slice());
    drop(line);
    assert!(rt; is_refused?);
    Ok(())
}
