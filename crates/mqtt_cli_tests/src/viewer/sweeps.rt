//! Each front of a known frame, and each frame with one byte changed, in one piece and byte by byte (2.1).

use crate::viewer::views::{one_view, why};
use mqtt_cli::{ViewFault, known_vectors};
use std::alloc::Global;
use std::test::Fail;

/// How many of the fronts of a frame have one view.
fn fronts_of(
    alloc: Global,
    frame: &[u8],
    written: &mut Vec<u8>,
    again: &mut Vec<u8>,
) -> Result<u32, ViewFault> {
    let mut count: u32 = 0;
    for len in 0..frame.len() {
        if one_view(alloc, &frame[..len], written, again)?.is_some() {
            count = count.wrapping_add(1);
        }
    }
    Ok(count)
}

/// Changes the byte at a place; the same again changes it back.
fn change_at(frame: &mut [u8], at: usize, change: u8) {
    if let Some(byte) = frame.get_mut(at) {
        *byte ^= change;
    }
}

/// How many of the 255 changes of one byte of a frame have one view.
fn changes_at(
    alloc: Global,
    frame: &mut [u8],
    at: usize,
    written: &mut Vec<u8>,
    again: &mut Vec<u8>,
) -> Result<u32, ViewFault> {
    let mut count: u32 = 0;
    for change in 1..=255 {
        change_at(frame, at, change);
        let is_one = one_view(alloc, frame, written, again)?.is_some();
        change_at(frame, at, change);
        if is_one {
            count = count.wrapping_add(1);
        }
    }
    Ok(count)
}

/// How many of all changed frames have one view.
fn all_changes(
    alloc: Global,
    frame: &mut Vec<u8>,
    written: &mut Vec<u8>,
    again: &mut Vec<u8>,
) -> Result<u32, ViewFault> {
    let mut count: u32 = 0;
    for vector in known_vectors() {
        frame.clear();
        frame.extend_from_slice(vector.frame)?;
        for at in 0..vector.frame.len() {
            let more = changes_at(alloc, frame.as_mut_slice(), at, written, again)?;
            count = count.wrapping_add(more);
        }
    }
    Ok(count)
}

/// How many of all fronts have one view.
fn all_fronts(alloc: Global, written: &mut Vec<u8>, again: &mut Vec<u8>) -> Result<u32, ViewFault> {
    let mut count: u32 = 0;
    for vector in known_vectors() {
        let more = fronts_of(alloc, vector.frame, written, again)?;
        count = count.wrapping_add(more);
    }
    Ok(count)
}

#[test]
fn each_front_and_each_change_of_a_vector_has_one_view(rt: HostRuntime) -> Result<(), Fail> {
    let mut written: Vec<u8> = Vec::new(rt.alloc());
    let mut again: Vec<u8> = Vec::new(rt.alloc());
    let mut frame: Vec<u8> = Vec::new(rt.alloc());
    let fronts = all_fronts(rt.alloc(), &mut written, &mut again);
    let changes = all_changes(rt.alloc(), &mut frame, &mut written, &mut again);
    drop(written);
    drop(again);
    drop(frame);
    assert!(rt; fronts.map_err(why)? == 194);
    assert!(rt; changes.map_err(why)? == 49_470);
    Ok(())
}
