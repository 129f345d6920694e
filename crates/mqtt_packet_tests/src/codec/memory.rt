//! Want of memory, to be run with each allocation failing in turn.

use crate::codec::common::{encoded_again, fault_of};
use crate::codec::spelled::is_written;
use crate::codec::vectors::{CONNACK, PUBLISH_AT_QOS_2, SUBACK, SUBSCRIBE};
use mqtt_packet::Fault;
use std::alloc::Global;
use std::process::Abort;

/// Whether the packet of the frame is encoded so, or why there is none.
fn is_encoded_as(alloc: Global, frame: &[u8], want: &[u8]) -> Result<bool, Fault> {
    let bytes = encoded_again(alloc, frame)?;
    let found = &bytes[..] == want;
    drop(bytes);
    Ok(found)
}

/// A packet is decoded and encoded as it was spelled, or memory was wanting; a frame that is none
/// is refused for what it is.
fn assert_memory_alone_is_told(rt: &impl Abort, alloc: Global, frame: &[u8]) {
    let want = fault_of(frame).unwrap_or(Fault::Memory);
    match is_encoded_as(alloc, frame, frame) {
        Ok(is_same) => assert!(rt; is_same, "{frame:?}"),
        Err(fault) => assert_eq!(rt; fault, want),
    }
}

/// A packet is written behind what is there, or memory was wanting and nothing changed.
fn assert_nothing_is_left(rt: &impl Abort, alloc: Global, frame: &[u8]) {
    match is_written(alloc, frame) {
        Ok(is_written) => assert!(rt; is_written, "{frame:?}"),
        Err(fault) => assert_eq!(rt; fault, Fault::Memory),
    }
}

/// Three spellings of one PUBACK, which is encoded as the first (3.4).
#[test]
fn spellings_of_one_puback_are_read_as_it_or_memory_is_wanting(rt: HostRuntime) {
    let shortest: &[u8] = &[0x40, 2, 0, 10];
    let frames: [&[u8]; 3] = [shortest, &[0x40, 3, 0, 10, 0], &[0x40, 4, 0, 10, 0, 0]];
    for frame in frames {
        match is_encoded_as(rt.alloc(), frame, shortest) {
            Ok(is_same) => assert!(rt; is_same, "{frame:?}"),
            Err(fault) => assert_eq!(rt; fault, Fault::Memory),
        }
    }
}

#[test]
fn want_of_memory_leaves_what_is_there(rt: HostRuntime) {
    for frame in [PUBLISH_AT_QOS_2, CONNACK, SUBSCRIBE] {
        assert_nothing_is_left(&rt, rt.alloc(), frame);
    }
}

#[test]
fn want_of_memory_is_told_and_nothing_else_changes(rt: HostRuntime) {
    let frames: [&[u8]; 8] = [
        // CONNECT with a Will, User Name and Password.
        &[
            0x10, 0x1b, 0, 4, b'M', b'Q', b'T', b'T', 5, 0xc6, 0, 10, 0, 0, 1, b'c', 0, 0, 1, b'w',
            0, 1, 0x21, 0, 1, b'u', 0, 1, 0xff,
        ],
        CONNACK,
        PUBLISH_AT_QOS_2,
        SUBSCRIBE,
        SUBACK,
        &[0xa2, 7, 0, 2, 0, 0, 2, 0x61, 0x23],
        &[0xe0, 7, 4, 5, 0x11, 0, 0, 0, 0x0a],
        &[0x50, 8, 0, 7, 0, 4, 0x1f, 0, 1, b'w'],
    ];
    for frame in frames {
        assert_memory_alone_is_told(&rt, rt.alloc(), frame);
    }
}
