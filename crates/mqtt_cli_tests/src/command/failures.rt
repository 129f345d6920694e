//! Views and reports whose reader or writer fails, and the report on the vectors (ours).

use crate::command::lines::FIELDS;
use crate::command::streams::{Brittle, Drip};
use mqtt_cli::{Status, VectorsFault, ViewFault, vectors, view};
use std::alloc::Global;
use std::test::Fail;

/// Three packets, of which each has a line.
const PACKETS: &[u8] = b"\xc0\x00\x30\x07\x00\x03a/b\x00!\xc0\x00";

const LINES: [&str; 4] = [
    "",
    "0 PINGREQ 2\n",
    "0 PINGREQ 2\n2 PUBLISH 9 qos=0 topic=a/b payload=1\n",
    "0 PINGREQ 2\n2 PUBLISH 9 qos=0 topic=a/b payload=1\n11 PINGREQ 2\n",
];

/// Whether a failed read is told, and these lines are written.
fn is_read(alloc: Global, fails_at: usize, lines: &str) -> bool {
    let mut written: Vec<u8> = Vec::new(alloc);
    let mut reader = Drip::new(PACKETS, fails_at);
    let found = view(alloc, &mut reader, &mut written, FIELDS);
    drop(reader);
    let is_text = written.as_slice() == lines.as_bytes();
    drop(written);
    found == Err(ViewFault::Read) && is_text
}

#[test]
fn a_failed_read_leaves_the_lines_of_what_came(rt: HostRuntime) {
    for fails_at in 0..PACKETS.len() + 1 {
        let lines = match fails_at {
            0 | 1 => LINES[0],
            2..11 => LINES[1],
            11 | 12 => LINES[2],
            _ => LINES[3],
        };
        assert!(rt; is_read(rt.alloc(), fails_at, lines), "read {fails_at}");
    }
}

/// What a view answers whose write fails, and whether these lines are written.
fn written(alloc: Global, fails_at: usize, lines: &str) -> (Result<Status, ViewFault>, bool) {
    let mut writer = Brittle::new(alloc, fails_at);
    let mut reader = Drip::new(PACKETS, usize::MAX);
    let found = view(alloc, &mut reader, &mut writer, FIELDS);
    drop(reader);
    let is_text = writer.written.as_slice() == lines.as_bytes();
    drop(writer);
    (found, is_text)
}

#[test]
fn a_failed_write_is_told(rt: HostRuntime) {
    for fails_at in 0..4 {
        let (found, is_text) = written(rt.alloc(), fails_at, LINES[fails_at]);
        let wanted = if fails_at < 3 {
            Err(ViewFault::Write)
        } else {
            Ok(Status::Whole)
        };
        assert!(rt; found == wanted, "write {fails_at}");
        assert!(rt; is_text, "write {fails_at}");
    }
}

/// The status of the report on the vectors. If an allocation is refused, nothing but want of
/// memory may be told.
fn status_of_vectors(alloc: Global, written: &mut Vec<u8>) -> Result<Status, &'static str> {
    match vectors(alloc, written) {
        Ok(status) => Ok(status),
        Err(VectorsFault::Memory) => Err("want of memory"),
        Err(VectorsFault::Write) => Err("a failed write"),
    }
}

#[test]
fn all_vectors_are_right(rt: HostRuntime) -> Result<(), Fail> {
    let mut written: Vec<u8> = Vec::new(rt.alloc());
    let status = status_of_vectors(rt.alloc(), &mut written);
    let begins = written.as_slice().starts_with(b"V1 ok\nV2 ok\n");
    let ends = written.as_slice().ends_with(b"V21 ok\nV22 ok\n22 of 22\n");
    drop(written);
    assert!(rt; status? == Status::Whole);
    assert!(rt; begins && ends);
    Ok(())
}

#[test]
fn a_report_that_is_not_written_is_told(rt: HostRuntime) {
    let mut writer = Brittle::new(rt.alloc(), 0);
    let found = vectors(rt.alloc(), &mut writer);
    drop(writer);
    assert!(rt; found.is_err());
}
