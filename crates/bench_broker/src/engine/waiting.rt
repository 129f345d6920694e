//! Copies that wait in many sessions over the store in SQL, in a file, and one such queue that is drained; for
//! bench/engine/waiting. Words: `fill`, the file, how many sessions, how many copies in each, the bytes of a message; or `drain`
//! and the file.

use crate::engine::packets::{SUBSCRIBE_QUEUED, connect};
use anyhow::Context;
use mqtt_broker::{Engine, Keep, KeepError, Limits};
use mqtt_flow::Full;
use mqtt_serve::make_database;
use mqtt_store::SqlKeep;
use sqlite::{Alter, Connection};
use std::alloc::Global;
use std::hash::RandomState;
use std::time::CpuClock;

/// The client that publishes, and has a queue as all others.
const PUBLISHER: u64 = 1;

/// The first of the others, whose queue is drained.
const FIRST: u64 = 100;

/// How many turns a drain has at most.
const TURNS: u64 = 65_536;

/// How many sessions, how many copies in each, and the bytes of a message.
#[derive(Clone, Copy)]
pub(crate) struct Waiting {
    pub(crate) sessions: u64,
    pub(crate) copies: u64,
    pub(crate) bytes: u64,
}

/// How many turns of sending a drain took, how many packets went out, and how often the store was asked.
#[derive(Clone, Copy)]
struct Drained {
    turns: u64,
    sent: u64,
    reads: u64,
}

/// A packet is given, all of it; answers how many go out.
fn give<K: Keep>(engine: &mut Engine<K>, line: u64, bytes: &[u8]) -> anyhow::Result<u64> {
    let outcome = engine.piece(line, bytes, 0)?;
    let sent = outcome.outputs.len() as u64;
    let taken = outcome.taken;
    drop(outcome);
    if taken < bytes.len() {
        anyhow::bail!("a packet isn't taken whole");
    }
    Ok(sent)
}

/// A turn of sending; answers how many packets go out, and whether more may be there.
fn pump<K: Keep>(engine: &mut Engine<K>, line: u64) -> anyhow::Result<(u64, bool)> {
    let outcome = engine.pump(line, 0)?;
    let sent = outcome.outputs.len() as u64;
    let again = outcome.again;
    drop(outcome);
    Ok((sent, again))
}

/// The end of a line.
fn lose<K: Keep>(engine: &mut Engine<K>, line: u64) -> anyhow::Result<()> {
    drop(engine.lost(line, 0)?);
    Ok(())
}

/// A line on which a client with a number has connected.
fn join<K: Keep>(engine: &mut Engine<K>, number: u64) -> anyhow::Result<u64> {
    let line = engine.link(0).context("a line")?;
    give(engine, line, &connect(number))?;
    Ok(line)
}

/// A client comes and subscribes.
fn subscribe<K: Keep>(engine: &mut Engine<K>, number: u64) -> anyhow::Result<u64> {
    let line = join(engine, number)?;
    give(engine, line, SUBSCRIBE_QUEUED)?;
    Ok(line)
}

/// The number of the low bits of a Remaining Length, with the sign that more come (2.1.4).
fn low(length: u64) -> u8 {
    u8::try_from(length % 128).unwrap_or(0) | 0x80
}

/// The number of the bits behind them.
fn high(length: u64) -> u8 {
    u8::try_from(length / 128 % 128).unwrap_or(0)
}

/// PUBLISH to `q` at QoS 1 of so many bytes, from 122 to 16,377 (3.3).
fn publish(alloc: Global, bytes: u64) -> anyhow::Result<Vec<u8>> {
    let length = bytes.saturating_add(6);
    let front = [0x32, low(length), high(length), 0, 1, b'q', 0, 1, 0];
    let mut packet = Vec::new(alloc);
    for byte in front {
        packet.push(byte)?;
    }
    for _ in 0..bytes {
        packet.push(0x2a)?;
    }
    Ok(packet)
}

/// Messages are published, and each goes into all queues.
fn enter<K: Keep>(
    engine: &mut Engine<K>,
    line: u64,
    packet: &[u8],
    copies: u64,
) -> anyhow::Result<()> {
    for _ in 0..copies {
        give(engine, line, packet)?;
    }
    Ok(())
}

/// Sessions come and go, and copies enter their queues.
fn fill<K: Keep>(engine: &mut Engine<K>, alloc: Global, waiting: Waiting) -> anyhow::Result<()> {
    let publisher = subscribe(engine, PUBLISHER)?;
    for turn in 1..waiting.sessions {
        let line = subscribe(engine, FIRST.wrapping_add(turn).wrapping_sub(1))?;
        lose(engine, line)?;
    }
    let packet = publish(alloc, waiting.bytes)?;
    let entered = enter(engine, publisher, packet.as_slice(), waiting.copies);
    drop(packet);
    entered
}

/// One client comes back, and is sent all that waits for it.
fn drain<K: Keep>(engine: &mut Engine<K>) -> anyhow::Result<Drained> {
    let before = engine.reads();
    let line = join(engine, FIRST)?;
    let mut drained = Drained {
        turns: 0,
        sent: 0,
        reads: 0,
    };
    for _ in 0..TURNS {
        let (sent, again) = pump(engine, line)?;
        drained.turns = drained.turns.wrapping_add(1);
        drained.sent = drained.sent.wrapping_add(sent);
        if !again {
            break;
        }
    }
    drained.reads = engine.reads().wrapping_sub(before);
    Ok(drained)
}

/// What is done with an engine: its queues are filled, if that is asked for, and one is drained.
fn course<K: Keep>(
    engine: &mut Engine<K>,
    alloc: Global,
    waiting: Option<Waiting>,
) -> anyhow::Result<Drained> {
    if let Some(waiting) = waiting {
        fill(engine, alloc, waiting)?;
    }
    drain(engine)
}

/// A broker over a store.
fn opened<K: Keep>(alloc: Global, hasher: RandomState, keep: K) -> Result<Engine<K>, KeepError> {
    let limits = Limits {
        full: Full::Refuse,
        queue: 1000,
        sessions: 1000,
        retained: 1000,
    };
    match Engine::open(alloc, keep, 0, limits, hasher) {
        Ok(engine) => Ok(engine),
        Err((keep, fault)) => {
            drop(keep);
            Err(fault)
        }
    }
}

/// The same with a broker over a store, which is given back.
fn run_with<K: Keep>(
    alloc: Global,
    hasher: RandomState,
    keep: K,
    waiting: Option<Waiting>,
) -> anyhow::Result<(K, Drained)> {
    let mut engine = opened(alloc, hasher, keep)?;
    let drained = course(&mut engine, alloc, waiting);
    let keep = engine.close();
    match drained {
        Ok(drained) => Ok((keep, drained)),
        Err(error) => {
            drop(keep);
            Err(error)
        }
    }
}

/// A store over a connection.
fn store_over<S: Alter + Drop>(alloc: Global, conn: Connection<S>) -> anyhow::Result<SqlKeep<S>> {
    match SqlKeep::new(alloc, conn) {
        Ok(keep) => Ok(keep),
        Err((error, store)) => {
            drop(store);
            Err(error)?
        }
    }
}

/// The same over a connection, which is given back.
fn run_over<S: Alter + Drop>(
    alloc: Global,
    hasher: RandomState,
    conn: Connection<S>,
    waiting: Option<Waiting>,
) -> anyhow::Result<(Connection<S>, Drained)> {
    let keep = store_over(alloc, conn)?;
    let (keep, drained) = run_with(alloc, hasher, keep, waiting)?;
    Ok((keep.into_inner(), drained))
}

/// The same in memory, or in a file, which is closed at the end.
fn run_at(
    rt: &HostRuntime,
    hasher: RandomState,
    place: &str,
    waiting: Option<Waiting>,
) -> anyhow::Result<Drained> {
    let alloc = rt.alloc();
    if place == ":memory:" {
        let conn = Connection::open_in_memory(alloc)?;
        let (conn, drained) = run_over(alloc, hasher, conn, waiting)?;
        drop(conn);
        return Ok(drained);
    }
    // A new file is as the server makes it.
    let _made = make_database(rt, place)?;
    let conn = Connection::open(rt, place)?;
    let (conn, drained) = run_over(alloc, hasher, conn, waiting)?;
    conn.close()?;
    Ok(drained)
}

/// Queues are filled in a database that has nothing yet, or stand in it, and one is drained. Prints how many turns that took, how
/// many packets went out, and how often the store was asked; and the seconds of all on standard error.
pub(crate) fn run_waiting(
    rt: &HostRuntime,
    hasher: RandomState,
    place: &str,
    waiting: Option<Waiting>,
) -> anyhow::Result<()> {
    let start = rt.process_cpu_time()?;
    let drained = run_at(rt, hasher, place, waiting)?;
    let time = rt.process_cpu_time()?.saturating_sub(start);
    println!(rt;
        "drained turns={} sent={} reads={}",
        drained.turns, drained.sent, drained.reads
    )?;
    eprintln!(rt; "seconds {}.{:06}", time.as_secs(), time.subsec_micros())?;
    Ok(())
}
