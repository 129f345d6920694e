//! A queue of a thousand small copies is drained, as they came and after the store was opened again: sixteen go out at a time, and the
//! store is asked once for what sixty-four of them say (MQTT 5.0, 3.3, 4.6, 4.9).

use crate::telling::Telling;
use bytes::Bytes;
use mqtt_broker::{Engine, EngineError, Keep, KeepError, Limits, Outcome};
use mqtt_flow::Full;
use mqtt_keep::MemKeep;
use mqtt_store::SqlKeep;
use sqlite::{Connection, MemStore};
use std::alloc::Global;
use std::hash::RandomState;

/// How many copies wait.
const COPIES: u64 = 1000;

/// How many PUBLISH a turn of sending has at most (4.9).
const TURN: u64 = 16;

/// How many turns are full; the one behind them sends what is left.
const FULL_TURNS: u64 = 62;

/// How often the store is asked for what all of them say, if nothing of it is at hand: once for 64.
const READS: u64 = 16;

/// CONNECT of `r` with Receive Maximum 65,535, whose session doesn't expire (3.1).
const RECEIVER: &[u8] =
    b"\x10\x16\x00\x04MQTT\x05\x00\x00\x00\x08\x11\xff\xff\xff\xff\x21\xff\xff\x00\x01r";

/// CONNECT of `p`.
const PUBLISHER: &[u8] = b"\x10\x13\x00\x04MQTT\x05\x00\x00\x00\x05\x11\xff\xff\xff\xff\x00\x01p";

/// SUBSCRIBE of `q` at QoS 2 (3.8).
const SUBSCRIBE: &[u8] = b"\x82\x07\x00\x01\x00\x00\x01q\x02";

/// PUBLISH of `!` to `q` at QoS 2 (3.3).
const PUBLISH: &[u8] = b"\x34\x07\x00\x01q\x00\x01\x00!";

/// Its PUBREL (3.6).
const PUBREL: &[u8] = b"\x62\x02\x00\x01";

/// PUBREC of identifier 900 (3.5).
const RECEIVED: &[u8] = b"\x50\x02\x03\x84";

/// The PUBREL that answers it (3.6).
const RELEASED: &[u8] = b"\x62\x02\x03\x84";

/// How many packets went out, and whether to call again.
#[derive(Clone, Copy)]
enum Said {
    Packets { count: u64, again: bool },
    Nothing,
}

fn told(answer: Result<Outcome, EngineError>) -> Said {
    match answer {
        Ok(outcome) => {
            let count = outcome.outputs.len() as u64;
            let again = outcome.again;
            drop(outcome);
            Said::Packets { count, again }
        }
        Err(_) => Said::Nothing,
    }
}

/// Whether bytes that are one packet are answered with one packet.
fn gives<K: Keep>(engine: &mut Engine<K>, line: u64, bytes: &[u8]) -> bool {
    match told(engine.piece(line, bytes, 0)) {
        Said::Packets { count, .. } => count == 1,
        Said::Nothing => false,
    }
}

/// A turn of sending.
fn pumps<K: Keep>(engine: &mut Engine<K>, line: u64) -> Said {
    told(engine.pump(line, 0))
}

/// The end of a line.
fn loses<K: Keep>(engine: &mut Engine<K>, line: u64) -> Said {
    told(engine.lost(line, 0))
}

/// Whether a client comes on a new line, which is the answer.
fn joins<K: Keep>(engine: &mut Engine<K>, connect: &[u8]) -> Option<u64> {
    let line = engine.link(0)?;
    if gives(engine, line, connect) {
        Some(line)
    } else {
        None
    }
}

/// A receiver comes, subscribes and goes away.
fn visits<K: Keep>(engine: &mut Engine<K>) -> bool {
    let Some(line) = joins(engine, RECEIVER) else {
        return false;
    };
    if !gives(engine, line, SUBSCRIBE) {
        return false;
    }
    match loses(engine, line) {
        Said::Packets { count, .. } => count == 0,
        Said::Nothing => false,
    }
}

/// A publisher's message, with its whole handshake.
fn publishes<K: Keep>(engine: &mut Engine<K>, line: u64) -> bool {
    gives(engine, line, PUBLISH) && gives(engine, line, PUBREL)
}

/// So many messages come for the receiver, which is away.
fn fills<K: Keep>(engine: &mut Engine<K>) -> bool {
    if !visits(engine) {
        return false;
    }
    let Some(line) = joins(engine, PUBLISHER) else {
        return false;
    };
    for _ in 0..COPIES {
        if !publishes(engine, line) {
            return false;
        }
    }
    true
}

/// Says if a turn of sending doesn't send so many, or asks the store too often.
fn judge_turn<K: Keep>(
    wrong: &mut Telling,
    engine: &mut Engine<K>,
    line: u64,
    sent: u64,
    more: bool,
) {
    let before = engine.reads();
    match pumps(engine, line) {
        Said::Packets { count, again } => {
            if count != sent || again != more {
                wrong.pair("a turn sends ", count);
                wrong.pair(" and not ", sent);
                wrong.word(", or says wrongly that more is there\n");
            }
        }
        Said::Nothing => wrong.word("a turn is refused\n"),
    }
    let reads = engine.reads().wrapping_sub(before);
    if reads > TURN {
        wrong.pair("a turn asks the store so often: ", reads);
        wrong.word("\n");
    }
}

/// Whether that PUBREL went out, and nothing else.
fn is_released(outputs: &[(u64, Bytes)]) -> bool {
    match outputs.first() {
        Some((_, bytes)) => outputs.len() == 1 && bytes.as_slice() == RELEASED,
        None => false,
    }
}

/// Whether the copy with identifier 900 is released.
fn releases<K: Keep>(engine: &mut Engine<K>, line: u64) -> bool {
    match engine.piece(line, RECEIVED, 0) {
        Ok(outcome) => {
            let is = is_released(&outcome.outputs);
            drop(outcome);
            is
        }
        Err(_) => false,
    }
}

/// Says if the receiver, which comes back, isn't sent all copies, sixteen in a turn; answers how often the store was asked.
fn judge_drain<K: Keep>(wrong: &mut Telling, engine: &mut Engine<K>) -> u64 {
    let before = engine.reads();
    let Some(line) = joins(engine, RECEIVER) else {
        wrong.word("the receiver doesn't come back\n");
        return 0;
    };
    for _ in 0..FULL_TURNS {
        judge_turn(wrong, engine, line, TURN, true);
    }
    judge_turn(wrong, engine, line, COPIES % TURN, false);
    let reads = engine.reads().wrapping_sub(before);
    if !releases(engine, line) {
        wrong.word("the PUBREC of 900 isn't answered with its PUBREL\n");
    }
    reads
}

/// Opens a broker over a store.
fn opened<K: Keep>(alloc: Global, hasher: RandomState, keep: K) -> Result<Engine<K>, KeepError> {
    let limits = Limits {
        full: Full::Refuse,
        queue: 1000,
        sessions: 10,
        retained: 10,
    };
    match Engine::open(alloc, keep, 0, limits, hasher) {
        Ok(engine) => Ok(engine),
        Err((keep, fault)) => {
            drop(keep);
            Err(fault)
        }
    }
}

/// Says if a queue isn't drained whose copies came while the broker ran. Some of what they say may be at hand.
fn judge_live<K: Keep>(
    wrong: &mut Telling,
    alloc: Global,
    hasher: RandomState,
    keep: K,
) -> Result<(), KeepError> {
    let mut engine = opened(alloc, hasher, keep)?;
    if !fills(&mut engine) {
        wrong.word("a queue isn't filled\n");
    }
    let reads = judge_drain(wrong, &mut engine);
    if reads > READS {
        wrong.pair("for a queue that came the store is asked so often: ", reads);
        wrong.word("\n");
    }
    drop(engine.close());
    Ok(())
}

/// Says if one isn't that a broker finds in its store. Nothing of it is at hand.
fn judge_found<K: Keep>(
    wrong: &mut Telling,
    alloc: Global,
    hasher: RandomState,
    keep: K,
) -> Result<(), KeepError> {
    let mut first = opened(alloc, hasher, keep)?;
    if !fills(&mut first) {
        wrong.word("a queue isn't filled\n");
    }
    let mut engine = opened(alloc, hasher, first.close())?;
    let reads = judge_drain(wrong, &mut engine);
    if reads != READS {
        wrong.pair(
            "for a queue that is found the store is asked so often: ",
            reads,
        );
        wrong.word("\n");
    }
    drop(engine.close());
    Ok(())
}

/// A store in memory that has nothing yet.
fn in_memory(alloc: Global) -> Result<MemKeep, KeepError> {
    let keep = MemKeep::new(alloc)?;
    Ok(keep)
}

/// The same in SQL.
fn in_sql(alloc: Global) -> Result<SqlKeep<MemStore>, KeepError> {
    let conn = Connection::open_in_memory(alloc)?;
    match SqlKeep::new(alloc, conn) {
        Ok(keep) => Ok(keep),
        Err((_, store)) => {
            drop(store);
            Err(KeepError::Disk)
        }
    }
}

/// Says if a queue isn't drained over a store in memory.
fn judge_in_memory(
    wrong: &mut Telling,
    alloc: Global,
    hasher: RandomState,
) -> Result<(), KeepError> {
    judge_live(wrong, alloc, hasher, in_memory(alloc)?)?;
    judge_found(wrong, alloc, hasher, in_memory(alloc)?)
}

/// Says if one isn't over a store in SQL.
fn judge_in_sql(wrong: &mut Telling, alloc: Global, hasher: RandomState) -> Result<(), KeepError> {
    judge_live(wrong, alloc, hasher, in_sql(alloc)?)?;
    judge_found(wrong, alloc, hasher, in_sql(alloc)?)
}

/// Says if a queue isn't drained.
pub(crate) fn judge_drained(wrong: &mut Telling, alloc: Global, hasher: RandomState) {
    if judge_in_memory(wrong, alloc, hasher).is_err() {
        wrong.word("a store in memory isn't made or opened\n");
    }
    if judge_in_sql(wrong, alloc, hasher).is_err() {
        wrong.word("a store in SQL isn't made or opened\n");
    }
}
