//! Streams cut in pieces of any size (2.1): worked rows, and each known frame whole, cut and changed.

ghost use Rattle.std.specs.Prelude.{◌<◌};

use mqtt_packet::{Fault, Framer, Packet, encode, lawful};
use std::alloc::Global;
use std::fmt::Write;
use std::process::Abort;
use std::test::Fail;

/// The packets of a stream that comes in pieces of `step` bytes, each with its place and encoded,
/// and then the fault with its place, or how many bytes are left.
fn cut_text(alloc: Global, stream: &[u8], step: usize) -> Result<String, Fail>
    requires { 0 < step }
{
    let mut text = String::new(alloc);
    match write_cut(&mut text, alloc, stream, step) {
        Ok(()) => Ok(text),
        Err(fail) => {
            drop(text);
            Err(fail)
        }
    }
}

fn write_cut(text: &mut String, alloc: Global, stream: &[u8], step: usize) -> Result<(), Fail>
    requires { 0 < step }
{
    let mut framer = Framer::new(alloc);
    let is_written = write_pieces(text, &mut framer, alloc, stream, step);
    drop(framer);
    is_written
}

fn write_pieces(
    text: &mut String,
    framer: &mut Framer,
    alloc: Global,
    stream: &[u8],
    step: usize,
) -> Result<(), Fail>
    requires { 0 < step }
{
    for piece in stream.chunks(step) {
        if let Err((fault, place)) = framer.feed(piece) {
            return Ok(write!(text, "{place} {fault:?} while it is fed")?);
        }
        for _ in 0..=stream.len() {
            match write_next(text, framer, alloc)? {
                Next::Given => {}
                Next::Awaited => break,
                Next::Refused => return Ok(()),
            }
        }
    }
    let place = framer.place();
    let held = framer.held();
    Ok(write!(text, "{place} left {held}")?)
}

/// What a framer answers: a packet, that more bytes are awaited, or a fault.
enum Next {
    Given,
    Awaited,
    Refused,
}

/// The packet that a framer gives, encoded, or its fault.
fn write_next(text: &mut String, framer: &mut Framer, alloc: Global) -> Result<Next, Fail> {
    match framer.next() {
        Ok(Some((packet, place))) => {
            let frame = frame_of(alloc, packet);
            write_placed(text, place, frame)?;
            Ok(Next::Given)
        }
        Ok(None) => Ok(Next::Awaited),
        Err((fault, place)) => {
            write!(text, "{place} {fault:?}")?;
            Ok(Next::Refused)
        }
    }
}

fn write_placed(text: &mut String, place: u64, frame: Result<Vec<u8>, Fault>) -> Result<(), Fail> {
    match frame {
        Ok(frame) => {
            let is_written = write_bytes_at(text, place, frame.as_slice());
            drop(frame);
            is_written
        }
        Err(fault) => Ok(write!(text, "{place} {fault:?}, ")?),
    }
}

fn write_bytes_at(text: &mut String, place: u64, bytes: &[u8]) -> Result<(), Fail> {
    write!(text, "{place} ")?;
    write_hex(text, bytes)?;
    Ok(write!(text, ", ")?)
}

/// What a packet that was given is encoded to.
fn frame_of(alloc: Global, packet: Packet) -> Result<Vec<u8>, Fault> {
    let frame = if lawful(&packet) {
        encode(alloc, &packet)
    } else {
        Err(Fault::Protocol)
    };
    drop(packet);
    frame
}

fn write_hex(text: &mut String, bytes: &[u8]) -> Result<(), Fail> {
    for byte in bytes {
        write!(text, "{byte:02x}")?;
    }
    Ok(())
}

/// Streams, each with what it is cut into.
fn streams() -> &'static [(&'static [u8], &'static str)] {
    &[
        (
            &[0xc0, 0, 0x30, 7, 0, 3, 0x61, 0x2f, 0x62, 0, 0x21],
            "0 c000, 2 30070003612f620021, 11 left 0",
        ),
        (
            &[0x31, 5, 0, 2, 0x61, 0x62, 0],
            "0 31050002616200, 7 left 0",
        ),
        (&[0xc0, 0, 0xd0, 0], "0 c000, 2 d000, 4 left 0"),
        (
            &[0x30, 8, 0, 3, 0x61, 0x2f, 0x62, 2, 1, 1, 0xd0],
            "0 30080003612f62020101, 10 left 1",
        ),
        (&[0xc1, 0], "0 Malformed"),
        // An empty topic without a Topic Alias (3.3.2.1).
        (&[0x30, 4, 0, 0, 0, 0x21], "0 Protocol"),
        (&[], "0 left 0"),
        (&[0xc0], "0 left 1"),
        // A first byte that is wrong is a fault by itself.
        (&[0xc0, 0, 0x36], "0 c000, 2 Malformed"),
        (&[0x60], "0 Malformed"),
        (&[0x00], "0 Malformed"),
        // A Remaining Length of two bytes that ends in 00, and one of five bytes (1.5.5).
        (&[0xc0, 0x80, 0], "0 Malformed"),
        (&[0x30, 0x80, 0x80, 0x80, 0x80], "0 Malformed"),
        // 65,537 bytes are one too many, 65,536 are awaited.
        (&[0x30, 0xfd, 0xff, 0x03], "0 TooLarge"),
        (&[0x30, 0xfc, 0xff], "0 left 3"),
        (&[0x30, 0xfc, 0xff, 0x03], "0 left 4"),
    ]
}

#[test]
fn streams_are_cut_in_pieces_of_any_size(rt: HostRuntime) -> Result<(), Fail> {
    for (stream, want) in streams() {
        for step in [1, 2, 3, 16] {
            let text = cut_text(rt.alloc(), stream, step)?;
            assert!(rt; text.as_str() == *want, "in pieces of {step}");
        }
    }
    Ok(())
}

/// Frames, each with the frame that its packet is encoded to.
fn packets() -> &'static [(&'static [u8], &'static [u8])] {
    &[
        (b"\xc0\x00", b"\xc0\x00"),
        (b"\x30\x07\x00\x03a/b\x00!", b"\x30\x07\x00\x03a/b\x00!"),
        (b"\x40\x03\x00\x0a\x00", b"\x40\x02\x00\x0a"),
        (
            b"\x10\x0d\x00\x04MQTT\x05\x02\x00\x3c\x00\x00\x00",
            b"\x10\x0d\x00\x04MQTT\x05\x02\x00\x3c\x00\x00\x00",
        ),
        (
            b"\x20\x17\x00\x00\x14\x12\x00\x06auto-1\x21\x00\x14\x22\x00\x0a\x27\x00\x01\x00\x00",
            b"\x20\x17\x00\x00\x14\x12\x00\x06auto-1\x21\x00\x14\x22\x00\x0a\x27\x00\x01\x00\x00",
        ),
        (
            b"\x82\x09\x00\x01\x00\x00\x03a/b\x02",
            b"\x82\x09\x00\x01\x00\x00\x03a/b\x02",
        ),
        (b"\x90\x04\x00\x01\x00\x02", b"\x90\x04\x00\x01\x00\x02"),
        (b"\xe0\x01\x93", b"\xe0\x01\x93"),
        (b"\x50\x03\x00\x0a\x10", b"\x50\x03\x00\x0a\x10"),
        (
            b"\x34\x0e\x00\x03a/b\x00\x01\x04\x0b\x01\x0b\x02hi",
            b"\x34\x0e\x00\x03a/b\x00\x01\x04\x0b\x01\x0b\x02hi",
        ),
    ]
}

/// Frames that are refused, each with its fault.
fn refused() -> &'static [(&'static [u8], Fault)] {
    &[
        (b"\xf0\x02\x18\x00", Fault::Protocol),
        (b"\x60\x02\x00\x0a", Fault::Malformed),
        (b"\x36\x0a\x00\x03a/b\x00\x0a\x00hi", Fault::Malformed),
        (b"\x82\x03\x00\x01\x00", Fault::Protocol),
        (b"\x30\x08\x00\x03a/b\x02\x01\x02", Fault::Protocol),
        (
            b"\x30\x0b\x00\x03a/b\x05\x18\x00\x00\x00\x05",
            Fault::Malformed,
        ),
        (b"\x30\x0a\x00\x03a/b\x04\x01\x00\x01\x00", Fault::Protocol),
        (b"\x34\x08\x00\x03a/b\x00\x00\x00", Fault::Protocol),
        (
            b"\x10\x0d\x00\x04MQTT\x04\x02\x00\x3c\x00\x00\x00",
            Fault::Version,
        ),
        (b"\xd0\x80\x00", Fault::Malformed),
        (b"\x40\x03\x00\x0a\x01", Fault::Malformed),
        (b"\x30\xfd\xff\x03", Fault::TooLarge),
    ]
}

/// Whole and byte by byte a stream is cut into this.
fn assert_cut(rt: &impl Abort, alloc: Global, stream: &[u8], want: &str) -> Result<(), Fail> {
    for step in [1, 64] {
        let text = cut_text(alloc, stream, step)?;
        assert!(rt; text.as_str() == want, "in pieces of {step}");
    }
    Ok(())
}

/// A frame is cut into its packet alone, which is encoded so.
fn assert_given(rt: &impl Abort, alloc: Global, frame: &[u8], encoded: &[u8]) -> Result<(), Fail> {
    let mut want = String::new(alloc);
    write_bytes_at(&mut want, 0, encoded)?;
    write!(want, "{} left 0", frame.len())?;
    assert_cut(rt, alloc, frame, want.as_str())
}

#[test]
fn each_vector_gives_its_packet_or_its_fault(rt: HostRuntime) -> Result<(), Fail> {
    for (frame, encoded) in packets() {
        assert_given(&rt, rt.alloc(), frame, encoded)?;
    }
    for (frame, fault) in refused() {
        let want = format!(in rt.alloc(); "0 {fault:?}")?;
        let is_cut = assert_cut(&rt, rt.alloc(), frame, want.as_str());
        drop(want);
        is_cut?;
    }
    Ok(())
}

/// In one piece and byte by byte the stream gives the same packets, fault and place.
fn assert_cut_is_one(rt: &impl Abort, alloc: Global, stream: &[u8]) -> Result<(), Fail> {
    let whole = cut_text(alloc, stream, 64)?;
    let bytewise = cut_text(alloc, stream, 1)?;
    assert!(rt; bytewise.as_str() == whole.as_str());
    Ok(())
}

/// Each front of a frame is cut in one way; how many there are.
fn fronts_of(rt: &impl Abort, alloc: Global, frame: &[u8]) -> Result<u32, Fail> {
    let mut count: u32 = 0;
    for len in 0..frame.len() {
        assert_cut_is_one(rt, alloc, &frame[..len])?;
        count = count.wrapping_add(1);
    }
    Ok(count)
}

#[test]
fn each_front_of_a_vector_is_cut_in_one_way(rt: HostRuntime) -> Result<(), Fail> {
    let mut count: u32 = 0;
    for (frame, _) in packets() {
        count = count.wrapping_add(fronts_of(&rt, rt.alloc(), frame)?);
    }
    for (frame, _) in refused() {
        count = count.wrapping_add(fronts_of(&rt, rt.alloc(), frame)?);
    }
    assert!(rt; count == 194);
    Ok(())
}

/// The frame with one byte changed, in each way at this place, is cut in one way; how many there are.
fn changes_at(rt: &impl Abort, alloc: Global, frame: &[u8], at: usize) -> Result<u32, Fail> {
    let mut count: u32 = 0;
    for change in 1..=255 {
        let mut changed = Vec::from_slice(alloc, frame)?;
        if let Some(byte) = changed.as_mut_slice().get_mut(at) {
            *byte ^= change;
        }
        let found = assert_cut_is_one(rt, alloc, changed.as_slice());
        drop(changed);
        found?;
        count = count.wrapping_add(1);
    }
    Ok(count)
}

#[test]
fn each_vector_with_one_byte_changed_is_cut_in_one_way(rt: HostRuntime) -> Result<(), Fail> {
    let mut count: u32 = 0;
    for (frame, _) in packets() {
        for at in 0..frame.len() {
            count = count.wrapping_add(changes_at(&rt, rt.alloc(), frame, at)?);
        }
    }
    for (frame, _) in refused() {
        for at in 0..frame.len() {
            count = count.wrapping_add(changes_at(&rt, rt.alloc(), frame, at)?);
        }
    }
    assert!(rt; count == 49_470);
    Ok(())
}
