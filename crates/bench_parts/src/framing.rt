//! Frames many small PUBLISH packets, and tells how long that took; for bench/framing/run. Words: how many bytes.

use anyhow::Context;
use mqtt_packet::{Fault, Framer, Packet, PacketRef};
use std::alloc::{AllocError, Global};
use std::time::{CpuClock, Duration};

/// A PUBLISH at QoS 0 of `12345` to the topic `a/b`.
const PACKET: [u8; 13] = *b"\x30\x0b\x00\x03a/b\x0012345";

/// The bytes that are framed if the words give no other number.
const DEFAULT_SIZE: usize = 130_000;

/// The most bytes that are fed at once.
const CHUNK_SIZE: usize = 4_096;

/// What was framed: how many packets, and the sum of their payloads' first bytes.
#[derive(Clone, Copy, Default)]
struct Tally {
    packets: u64,
    sum: u64,
}

impl Tally {
    fn add(&mut self, payload: &[u8]) {
        self.packets = self.packets.wrapping_add(1);
        if let Some(byte) = payload.first() {
            self.sum = self.sum.wrapping_add(u64::from(*byte));
        }
    }
}

/// As many whole packets as fit into `size` bytes.
fn stream_of(alloc: Global, size: usize) -> Result<Vec<u8>, AllocError> {
    let mut stream = Vec::new(alloc);
    for _ in 0..size / PACKET.len() {
        stream.extend_from_slice(PACKET.as_slice())?;
    }
    Ok(stream)
}

/// Takes each whole packet out of a framer.
fn drain(framer: &mut Framer, tally: &mut Tally) -> Result<(), Fault> {
    'packets: loop {
        match framer.next() {
            Ok(Some((packet, _place))) => match packet {
                Packet::Publish(publish) => tally.add(publish.payload.as_slice()),
                _other => tally.add(b""),
            },
            Ok(None) => return Ok(()),
            Err((fault, _)) => return Err(fault),
        }
    }
}

/// Frames a stream by pieces, each packet in memory of its own.
fn owned(alloc: Global, stream: &[u8]) -> Result<Tally, Fault> {
    let mut framer = Framer::new(alloc);
    let mut tally = Tally::default();
    for piece in stream.chunks(CHUNK_SIZE) {
        framer.feed(piece).map_err(|(fault, _)| fault)?;
        drain(&mut framer, &mut tally)?;
    }
    Ok(tally)
}

/// Looks at each whole packet of a framer, and skips it.
fn skim(framer: &mut Framer, tally: &mut Tally) -> Result<(), Fault> {
    'packets: loop {
        let size = match framer.look_sized() {
            Ok(Some((packet, _place, size))) => {
                match packet {
                    PacketRef::Publish(publish) => tally.add(publish.payload),
                    _other => tally.add(b""),
                }
                size
            }
            Ok(None) => return Ok(()),
            Err((fault, _)) => return Err(fault),
        };
        framer.skip(size);
    }
}

/// Frames a stream by pieces, and only looks at each packet.
fn looked(alloc: Global, stream: &[u8]) -> Result<Tally, Fault> {
    let mut framer = Framer::new(alloc);
    let mut tally = Tally::default();
    for piece in stream.chunks(CHUNK_SIZE) {
        framer.feed(piece).map_err(|(fault, _)| fault)?;
        skim(&mut framer, &mut tally)?;
    }
    Ok(tally)
}

/// Prints a tally on standard output, and the seconds that it took on standard error.
fn report(
    rt: &(impl Print + Eprint),
    name: &str,
    tally: Tally,
    time: Duration,
) -> anyhow::Result<()> {
    println!(rt; "{name} packets={} sum={}", tally.packets, tally.sum)?;
    eprintln!(rt; "{name} {}.{:09}", time.as_secs(), time.subsec_nanos())?;
    Ok(())
}

/// The number of bytes that the words give.
fn size_of_words(words: &[String]) -> anyhow::Result<usize> {
    match words.first() {
        Some(word) => word.parse::<usize>().context("the number of bytes"),
        None => Ok(DEFAULT_SIZE),
    }
}

/// Frames the stream in both ways, and tells how long each took.
fn compare(rt: &HostRuntime, stream: &[u8]) -> anyhow::Result<()> {
    let start = rt.process_cpu_time()?;
    let tally = owned(rt.alloc(), stream)?;
    let middle = rt.process_cpu_time()?;
    report(rt, "owned", tally, middle.saturating_sub(start))?;
    let start = rt.process_cpu_time()?;
    let tally = looked(rt.alloc(), stream)?;
    let end = rt.process_cpu_time()?;
    report(rt, "looked", tally, end.saturating_sub(start))
}

/// Makes a stream of so many bytes, and frames it in both ways.
pub(crate) fn run(rt: &HostRuntime, words: &[String]) -> anyhow::Result<()> {
    let size = size_of_words(words)?;
    let stream = stream_of(rt.alloc(), size)?;
    compare(rt, stream.as_slice())
}
