//! What the tests share (2.1, 4.13).
//!
//! A packet, owned or lent, is let go by `drop`, whose proof each type has once. One that goes out
//! of scope is proved to go at each way out, field by field, for each of fifteen variants: a minute
//! for each such function.

use mqtt_packet::{Fault, Packet, decode, encode, lawful, look_at};
use std::alloc::Global;
use std::process::Abort;

/// The fault of a frame that is looked at, or `None` if it gives a packet.
pub(crate) fn fault_of(frame: &[u8]) -> Option<Fault> {
    match look_at(frame) {
        Ok(packet) => {
            drop(packet);
            None
        }
        Err(fault) => Some(fault),
    }
}

/// What a packet encodes to, or the fault of one that breaks a law.
pub(crate) fn frame_of(alloc: Global, packet: Packet) -> Result<Vec<u8>, Fault> {
    let frame = if lawful(&packet) {
        encode(alloc, &packet)
    } else {
        Err(Fault::Protocol)
    };
    drop(packet);
    frame
}

/// What the packet of the frame encodes to, or why there is none.
pub(crate) fn encoded_again(alloc: Global, frame: &[u8]) -> Result<Vec<u8>, Fault> {
    match decode(alloc, frame) {
        Ok(packet) => frame_of(alloc, packet),
        Err(fault) => Err(fault),
    }
}

/// The frame gives a packet that encodes so, or that fault.
pub(crate) fn assert_gives(
    rt: &impl Abort,
    alloc: Global,
    text: &str,
    frame: &[u8],
    want: Result<&[u8], Fault>,
) {
    assert_eq!(rt; fault_of(frame), want.err(), "{text}");
    match encoded_again(alloc, frame) {
        Ok(bytes) => assert_eq!(rt; Ok(&bytes[..]), want, "{text}"),
        Err(fault) => assert_eq!(rt; Err(fault), want, "{text}"),
    }
}
