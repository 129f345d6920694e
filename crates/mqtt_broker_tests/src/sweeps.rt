//! Each known frame cut, and with one byte changed, as a line's first bytes and behind a CONNECT (MQTT 5.0, 2.1, 4.13).

use crate::judging::judge_script;
use crate::streams::tell_line;
use crate::telling::Telling;
use std::alloc::Global;
use std::hash::RandomState;

/// Frames, of which the first ten are packets.
const FRAMES: [&[u8]; 22] = [
    b"\xc0\x00",
    b"\x30\x07\x00\x03a/b\x00!",
    b"\x40\x03\x00\x0a\x00",
    b"\x10\x0d\x00\x04MQTT\x05\x02\x00\x3c\x00\x00\x00",
    b"\x20\x17\x00\x00\x14\x12\x00\x06auto-1\x21\x00\x14\x22\x00\x0a\x27\x00\x01\x00\x00",
    b"\x82\x09\x00\x01\x00\x00\x03a/b\x02",
    b"\x90\x04\x00\x01\x00\x02",
    b"\xe0\x01\x93",
    b"\x50\x03\x00\x0a\x10",
    b"\x34\x0e\x00\x03a/b\x00\x01\x04\x0b\x01\x0b\x02hi",
    b"\xf0\x02\x18\x00",
    b"\x60\x02\x00\x0a",
    b"\x36\x0a\x00\x03a/b\x00\x0a\x00hi",
    b"\x82\x03\x00\x01\x00",
    b"\x30\x08\x00\x03a/b\x02\x01\x02",
    b"\x30\x0b\x00\x03a/b\x05\x18\x00\x00\x00\x05",
    b"\x30\x0a\x00\x03a/b\x04\x01\x00\x01\x00",
    b"\x34\x08\x00\x03a/b\x00\x00\x00",
    b"\x10\x0d\x00\x04MQTT\x04\x02\x00\x3c\x00\x00\x00",
    b"\xd0\x80\x00",
    b"\x40\x03\x00\x0a\x01",
    b"\x30\xfd\xff\x03",
];

fn frames() -> &'static [&'static [u8]] {
    &FRAMES
}

/// Each front of a frame; how many there are.
fn tell_fronts(script: &mut Telling, alloc: Global, frame: &[u8], is_connected: bool) -> u64 {
    let mut lines: u64 = 0;
    for len in 0..frame.len() {
        lines = lines.wrapping_add(1);
        tell_line(script, alloc, lines, &frame[..len], is_connected);
    }
    lines
}

/// Changes the byte at a place; the same again changes it back.
fn change_at(frame: &mut [u8], at: usize, change: u8) {
    if let Some(byte) = frame.get_mut(at) {
        *byte ^= change;
    }
}

/// What a subscriber does that takes aliases and all messages: it has the first line, and gets what the frames bring.
const SUBSCRIBER: &str = "\
link -> 1
on 1 1016 00044d515454 05 00 0000 08 11ffffffff 22000a 000173 -> *
on 1 8207 0001 00 000123 00 -> 1:900400010000
";

/// The number of a line, if so many were linked for frames: behind a CONNECT the subscriber has the first.
fn number_of(lines: u64, is_connected: bool) -> u64 {
    if is_connected {
        lines.wrapping_add(1)
    } else {
        lines
    }
}

/// The frame with the byte at one place changed, in each way; how many lines there are then.
fn tell_changes_at(
    script: &mut Telling,
    alloc: Global,
    frame: &mut [u8],
    at: usize,
    is_connected: bool,
    lines: u64,
) -> u64 {
    let mut lines = lines;
    for change in 1..=255u8 {
        lines = lines.wrapping_add(1);
        change_at(frame, at, change);
        let number = number_of(lines, is_connected);
        tell_line(script, alloc, number, frame, is_connected);
        change_at(frame, at, change);
    }
    lines
}

/// The same at each place; how many lines there are.
fn tell_changes(script: &mut Telling, alloc: Global, frame: &mut [u8], is_connected: bool) -> u64 {
    let mut lines: u64 = 0;
    for at in 0..frame.len() {
        lines = tell_changes_at(script, alloc, frame, at, is_connected, lines);
    }
    lines
}

/// Plays each front of a frame, in pieces of so many bytes; how many there are.
fn judge_fronts_of(
    wrong: &mut Telling,
    script: &mut Telling,
    alloc: Global,
    hasher: RandomState,
    frame: &[u8],
    size: u64,
    is_connected: bool,
) -> u64 {
    script.clear();
    script.pair("by ", size);
    script.word("\n");
    let count = tell_fronts(script, alloc, frame, is_connected);
    judge_script(wrong, alloc, hasher, script);
    count
}

/// Plays each front of each frame, first and behind a CONNECT; how many there are.
fn judge_fronts(
    wrong: &mut Telling,
    script: &mut Telling,
    alloc: Global,
    hasher: RandomState,
    size: u64,
) -> u64 {
    let mut count: u64 = 0;
    for frame in frames() {
        let first = judge_fronts_of(wrong, script, alloc, hasher, frame, size, false);
        let later = judge_fronts_of(wrong, script, alloc, hasher, frame, size, true);
        count = count.wrapping_add(first).wrapping_add(later);
    }
    count
}

/// Plays the changes of a frame, which are made in these bytes; how many there are.
fn judge_changed(
    wrong: &mut Telling,
    script: &mut Telling,
    alloc: Global,
    hasher: RandomState,
    bytes: &mut [u8],
    is_connected: bool,
) -> u64 {
    script.clear();
    if is_connected {
        script.word(SUBSCRIBER);
    }
    let count = tell_changes(script, alloc, bytes, is_connected);
    judge_script(wrong, alloc, hasher, script);
    count
}

/// Plays the changes of a frame; how many there are.
fn judge_changes_of(
    wrong: &mut Telling,
    script: &mut Telling,
    alloc: Global,
    hasher: RandomState,
    frame: &[u8],
    is_connected: bool,
) -> u64 {
    let mut bytes = [0; 32];
    match bytes.get_mut(..frame.len()) {
        Some(bytes) => {
            bytes.copy_from_slice(frame);
            judge_changed(wrong, script, alloc, hasher, bytes, is_connected)
        }
        None => 0,
    }
}

/// Plays the changes of each frame; how many there are.
fn judge_changes(
    wrong: &mut Telling,
    script: &mut Telling,
    alloc: Global,
    hasher: RandomState,
    is_connected: bool,
) -> u64 {
    let mut count: u64 = 0;
    for frame in frames() {
        let changes = judge_changes_of(wrong, script, alloc, hasher, frame, is_connected);
        count = count.wrapping_add(changes);
    }
    count
}

/// Says if there are more lines than so many, or fewer.
fn judge_count(wrong: &mut Telling, what: &str, count: u64, want: u64) {
    if count != want {
        wrong.word(what);
        wrong.pair(": ", count);
        wrong.word("\n");
    }
}

/// Says if a front or a changed frame isn't taken as the framer alone takes it.
pub(crate) fn judge_sweeps(
    wrong: &mut Telling,
    script: &mut Telling,
    alloc: Global,
    hasher: RandomState,
) {
    let fronts = judge_fronts(wrong, script, alloc, hasher, 64);
    judge_count(wrong, "fronts", fronts, 2 * 194);
    let fronts = judge_fronts(wrong, script, alloc, hasher, 1);
    judge_count(wrong, "fronts byte by byte", fronts, 2 * 194);
    let changes = judge_changes(wrong, script, alloc, hasher, false);
    judge_count(wrong, "changes", changes, 49_470);
    let changes = judge_changes(wrong, script, alloc, hasher, true);
    judge_count(wrong, "changes behind a CONNECT", changes, 49_470);
}
