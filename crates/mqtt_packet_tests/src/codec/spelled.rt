//! Packets written behind what is there, and how many bytes they take (2.1).

use crate::codec::vectors::packets;
use mqtt_packet::{Fault, Packet, decode, encode_into, lawful, spelled_len};
use std::alloc::Global;

/// How many bytes the packet is said to take, and what is there once it is written behind the byte 7.
/// `TooLarge`, which no call here answers, if a refusal leaves anything but that byte.
fn written_behind(alloc: Global, packet: &Packet) -> Result<(usize, Vec<u8>), Fault> {
    if !lawful(packet) {
        return Err(Fault::Protocol);
    }
    let mut out = Vec::from_slice(alloc, &[7])?;
    let lent = packet.lend();
    let len = spelled_len(&lent);
    let written = encode_into(&lent, &mut out);
    drop(lent);
    match written {
        Ok(()) => Ok((len, out)),
        Err(fault) => {
            let is_as_it_was = &out[..] == &[7][..];
            drop(out);
            Err(if is_as_it_was { fault } else { Fault::TooLarge })
        }
    }
}

/// The same of the packet of a frame.
fn frame_behind(alloc: Global, frame: &[u8]) -> Result<(usize, Vec<u8>), Fault> {
    let packet = decode(alloc, frame)?;
    let written = written_behind(alloc, &packet);
    drop(packet);
    written
}

/// Whether the bytes are the byte 7 and the frame, and the length is the frame's.
fn is_behind(len: usize, bytes: &[u8], frame: &[u8]) -> bool {
    match bytes {
        [7, rest @ ..] => rest == frame && len == frame.len(),
        _ => false,
    }
}

/// Whether the frame's packet is told to take as many bytes, and is written behind the byte 7; the
/// fault if it is refused.
pub(crate) fn is_written(alloc: Global, frame: &[u8]) -> Result<bool, Fault> {
    let (len, bytes) = frame_behind(alloc, frame)?;
    let found = is_behind(len, &bytes, frame);
    drop(bytes);
    Ok(found)
}

#[test]
fn a_packet_is_written_behind_what_is_there(rt: HostRuntime) {
    for &(text, frame) in packets() {
        assert_eq!(rt; is_written(rt.alloc(), frame), Ok(true), "{text}");
    }
}
