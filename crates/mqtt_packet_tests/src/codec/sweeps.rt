//! Each vector with one byte changed (2.1, 4.13).

use crate::codec::common::{encoded_again, fault_of};
use crate::codec::vectors::vectors;
use std::alloc::Global;
use std::process::Abort;
use std::test::Fail;

/// The vector with the byte at a place changed.
fn changed(alloc: Global, vector: &[u8], place: usize, byte: u8) -> Result<Vec<u8>, Fail> {
    let mut frame = Vec::from_slice(alloc, vector)?;
    if let Some(changed) = frame.as_mut_slice().get_mut(place) {
        *changed = byte;
    }
    Ok(frame)
}

/// A packet's shortest spelling is no longer than the frame, and is read and written as itself.
fn assert_shortest(rt: &impl Abort, alloc: Global, frame: &[u8], shortest: &[u8]) {
    assert!(rt; shortest.len() <= frame.len(), "{frame:?}");
    assert_eq!(rt; fault_of(shortest), None, "{frame:?}");
    match encoded_again(alloc, shortest) {
        Ok(again) => assert_eq!(rt; &again[..], shortest, "{frame:?}"),
        Err(fault) => panic!(rt; "{frame:?}: {fault}"),
    }
}

/// What a frame gives is written and read again, or refused in both ways alike; answers whether it
/// is a packet.
fn assert_agrees(rt: &impl Abort, alloc: Global, frame: &[u8]) -> bool {
    let fault = fault_of(frame);
    match encoded_again(alloc, frame) {
        Ok(shortest) => {
            assert_eq!(rt; fault, None, "{frame:?}");
            assert_shortest(rt, alloc, frame, &shortest);
            true
        }
        Err(other) => {
            assert_eq!(rt; fault, Some(other), "{frame:?}");
            false
        }
    }
}

/// How many frames there were, and how many of them are packets.
#[derive(Clone, Copy, Default)]
struct Count {
    frames: u32,
    packets: u32,
}

impl Count {
    fn add(&mut self, is_packet: bool) {
        self.frames = self.frames.wrapping_add(1);
        self.packets = self.packets.wrapping_add(u32::from(is_packet));
    }
}

/// Changes the byte at a place to each other.
fn assert_changes(
    rt: &impl Abort,
    alloc: Global,
    vector: &[u8],
    place: usize,
    count: &mut Count,
) -> Result<(), Fail> {
    for byte in 0..=255u8 {
        if vector.get(place) != Some(&byte) {
            let frame = changed(alloc, vector, place, byte)?;
            count.add(assert_agrees(rt, alloc, &frame));
        }
    }
    Ok(())
}

#[test]
fn what_is_read_is_written_and_read_again(rt: HostRuntime) -> Result<(), Fail> {
    let mut count = Count::default();
    for vector in vectors() {
        for place in 0..vector.len() {
            assert_changes(&rt, rt.alloc(), vector, place, &mut count)?;
        }
    }
    assert_eq!(rt;
        count.frames,
        49_470,
        "each byte of each vector changed to each other"
    );
    assert!(rt; count.packets > 0, "some are packets");
    Ok(())
}
