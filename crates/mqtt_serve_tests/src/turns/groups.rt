//! Whose turn it is in a group, if memory is wanting for a step (MQTT 5.0, 4.8.2).
use crate::turns::failing::{FailingKeep, Lack};
use crate::turns::turns::LIMITS;
use mqtt_broker::Engine;
use std::hash::RandomState;
use std::test::Fail;

/// CONNECT by "r", by "s" and by "p" (3.1).
const CONNECTS: [&[u8]; 3] = [
    b"\x10\x0e\x00\x04MQTT\x05\x02\x00\x00\x00\x00\x01r",
    b"\x10\x0e\x00\x04MQTT\x05\x02\x00\x00\x00\x00\x01s",
    b"\x10\x0e\x00\x04MQTT\x05\x02\x00\x00\x00\x00\x01p",
];

/// SUBSCRIBE to "t" in the group "g" at QoS 0 (3.8, 4.8.2).
const SUBSCRIBE: &[u8] = b"\x82\x10\x00\x01\x00\x00\x0a$share/g/t\x00";

/// PUBLISH to "t" at QoS 0 (3.3).
const PUBLISH: &[u8] = b"\x30\x05\x00\x01t\x00x";

/// Gives a packet to the broker on a line, once more if memory was wanting. The line that something went out on last.
fn give(engine: &mut Engine<FailingKeep>, line: u64, packet: &[u8]) -> Option<u64> {
    for _ in 0..2 {
        if let Ok(out) = engine.piece(line, packet, 0) {
            return out.outputs.last().map(|(to, _)| *to);
        }
    }
    None
}

/// The lines that six messages to a group of two went out on, one after the other.
fn takers(rt: &HostRuntime, left: u64) -> Result<Vec<u64>, Fail> {
    let alloc = rt.alloc();
    let keep = FailingKeep::new(alloc, left, 1, Lack::Memory)?;
    let Ok(mut engine) = Engine::open(alloc, keep, 0, LIMITS, RandomState::new(rt)?) else {
        return Err(Fail::from("the broker can't be opened"));
    };
    let mut taken = Vec::new(alloc);
    let mut publisher = 0;
    for connect in CONNECTS {
        if let Some(line) = engine.link(0) {
            give(&mut engine, line, connect);
            publisher = line;
        }
    }
    for line in 1..publisher {
        give(&mut engine, line, SUBSCRIBE);
    }
    for _ in 0..6 {
        if let Some(line) = give(&mut engine, publisher, PUBLISH) {
            taken.push(line)?;
        }
    }
    drop(engine.close());
    Ok(taken)
}

#[test]
fn a_group_keeps_its_turn_where_memory_is_wanting(rt: HostRuntime) -> Result<(), Fail> {
    let plain = takers(&rt, u64::MAX)?;
    assert!(rt; plain.as_slice() == [1, 2, 1, 2, 1, 2].as_slice());
    for left in 1..16 {
        let taken = takers(&rt, left)?;
        assert!(rt; taken.as_slice() == plain.as_slice());
    }
    Ok(())
}
