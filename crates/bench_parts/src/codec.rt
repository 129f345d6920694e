//! Reads and writes a mix of packets over and over, and tells how long that took; for bench/codec/run. Words: how often.

use anyhow::Context;
use mqtt_packet::{Fault, Packet, decode, encode, lawful, look_at};
use std::alloc::Global;
use std::time::{CpuClock, Duration};

/// One packet of each of nine kinds, and a second PUBLISH, as a broker meets them.
fn frames() -> &'static [&'static [u8]] {
    &[
        b"\xc0\x00",
        b"\x30\x07\x00\x03a/b\x00!",
        b"\x40\x03\x00\x0a\x00",
        b"\x10\x0d\x00\x04MQTT\x05\x02\x00\x3c\x00\x00\x00",
        b"\x20\x17\x00\x00\x14\x12\x00\x06auto-1\x21\x00\x14\x22\x00\x0a\x27\x00\x01\x00\x00",
        b"\x82\x09\x00\x01\x00\x00\x03a/b\x02",
        b"\x90\x04\x00\x01\x00\x02",
        b"\xe0\x01\x93",
        b"\x50\x03\x00\x0a\x10",
        b"\x34\x0e\x00\x03a/b\x00\x01\x04\x0b\x01\x0b\x02hi",
    ]
}

/// How often the frames are gone through if the words give no other number.
const DEFAULT_ROUNDS: u64 = 100;

/// What was done: how many packets, and a sum over them.
#[derive(Clone, Copy, Default)]
struct Tally {
    packets: u64,
    sum: u64,
}

impl Tally {
    fn add(&mut self, number: u64) {
        self.packets = self.packets.wrapping_add(1);
        self.sum = self.sum.wrapping_add(number);
    }
}

/// Looks at each frame, and sums the kinds.
fn looked(rounds: u64) -> Result<Tally, Fault> {
    let mut tally = Tally::default();
    for _ in 0..rounds {
        for frame in frames() {
            let packet = look_at(frame)?;
            tally.add(packet.kind() as u64);
            drop(packet);
        }
    }
    Ok(tally)
}

/// The number of a packet's kind.
fn kind_of(packet: &Packet) -> u64 {
    let lent = packet.lend();
    let kind = lent.kind() as u64;
    drop(lent);
    kind
}

/// Decodes each frame into memory of its own, and sums the kinds.
fn decoded(alloc: Global, rounds: u64) -> Result<Tally, Fault> {
    let mut tally = Tally::default();
    for _ in 0..rounds {
        for frame in frames() {
            let packet = decode(alloc, frame)?;
            tally.add(kind_of(&packet));
            drop(packet);
        }
    }
    Ok(tally)
}

/// Asks of each packet whether it is lawful, encodes it, and sums the lengths.
fn encoded(alloc: Global, packets: &[Packet], rounds: u64) -> Result<Tally, Fault> {
    let mut tally = Tally::default();
    for _ in 0..rounds {
        for packet in packets {
            if !lawful(packet) {
                return Err(Fault::Protocol);
            }
            let frame = encode(alloc, packet)?;
            tally.add(frame.len() as u64);
            drop(frame);
        }
    }
    Ok(tally)
}

/// Prints a tally on standard output, and the seconds that it took on standard error.
fn report(
    rt: &(impl Print + Eprint),
    name: &str,
    tally: Tally,
    time: Duration,
) -> anyhow::Result<()> {
    println!(rt; "{name} packets={} sum={}", tally.packets, tally.sum)?;
    eprintln!(rt; "{name} {}.{:09}", time.as_secs(), time.subsec_nanos())?;
    Ok(())
}

/// How often the frames are gone through: the first word.
fn rounds_asked(words: &[String]) -> anyhow::Result<u64> {
    match words.first() {
        Some(word) => word.parse::<u64>().context("the number of rounds"),
        None => Ok(DEFAULT_ROUNDS),
    }
}

/// Adds the packet of the frame.
fn push_decoded(alloc: Global, packets: &mut Vec<Packet>, frame: &[u8]) -> Result<(), Fault> {
    let packet = decode(alloc, frame)?;
    match packets.push(packet) {
        Ok(()) => Ok(()),
        Err(failed) => {
            drop(failed);
            Err(Fault::Memory)
        }
    }
}

/// Adds the packets of all frames.
fn push_all(alloc: Global, packets: &mut Vec<Packet>) -> Result<(), Fault> {
    for frame in frames() {
        push_decoded(alloc, packets, frame)?;
    }
    Ok(())
}

/// Looks at the frames, and tells how long it took.
fn measure_looks(rt: &HostRuntime, rounds: u64) -> anyhow::Result<()> {
    let start = rt.process_cpu_time()?;
    let tally = looked(rounds)?;
    let end = rt.process_cpu_time()?;
    report(rt, "looked", tally, end.saturating_sub(start))
}

/// Decodes the frames, and tells how long it took.
fn measure_decoding(rt: &HostRuntime, rounds: u64) -> anyhow::Result<()> {
    let start = rt.process_cpu_time()?;
    let tally = decoded(rt.alloc(), rounds)?;
    let end = rt.process_cpu_time()?;
    report(rt, "decoded", tally, end.saturating_sub(start))
}

/// Encodes the packets, and tells how long it took.
fn measure_encoding(rt: &HostRuntime, packets: &[Packet], rounds: u64) -> anyhow::Result<()> {
    let start = rt.process_cpu_time()?;
    let tally = encoded(rt.alloc(), packets, rounds)?;
    let end = rt.process_cpu_time()?;
    report(rt, "encoded", tally, end.saturating_sub(start))
}

/// Makes the packets, and encodes them.
fn encode_all(rt: &HostRuntime, packets: &mut Vec<Packet>, rounds: u64) -> anyhow::Result<()> {
    push_all(rt.alloc(), packets)?;
    measure_encoding(rt, packets.as_slice(), rounds)
}

/// Looks at the frames, decodes them, and encodes the packets.
pub(crate) fn run(rt: &HostRuntime, words: &[String]) -> anyhow::Result<()> {
    let rounds = rounds_asked(words)?;
    measure_looks(rt, rounds)?;
    measure_decoding(rt, rounds)?;
    let mut packets = Vec::new(rt.alloc());
    let done = encode_all(rt, &mut packets, rounds);
    drop(packets);
    done
}
