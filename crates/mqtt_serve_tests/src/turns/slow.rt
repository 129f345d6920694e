//! A client that resumes its session over a slow connection (MQTT 5.0, 4.4, 4.9).
use crate::turns::stretches::stretch;
use crate::turns::turns::LIMITS;
use mqtt_broker::Engine;
use mqtt_keep::{Keep, MemKeep};
use mqtt_link::{Got, HeldBack, Link};
use mqtt_serve::{Links, serve_turn};
use std::alloc::{AllocError, Global};
use std::hash::RandomState;
use std::test::Fail;

/// By "s": CONNECT, and SUBSCRIBE to "a/b" at QoS 1, with a session that never ends (3.1.2.11.2).
const SUBSCRIBING: &[u8] = b"\x10\x13\x00\x04MQTT\x05\x00\x00\x00\x05\x11\xff\xff\xff\xff\x00\x01s\
    \x82\x09\x00\x01\x00\x00\x03a/b\x01";

/// CONNECT by "p".
const PUBLISHING: &[u8] = b"\x10\x0e\x00\x04MQTT\x05\x02\x00\x00\x00\x00\x01p";

/// CONNECT by "s" once more.
const RESUMING: &[u8] = b"\x10\x13\x00\x04MQTT\x05\x00\x00\x00\x05\x11\xff\xff\xff\xff\x00\x01s";

/// CONNACK with Session Present 1 (3.2.2.1.1).
const RESUMED: &[u8] = b"\x20\x0e\x01\x00\x0b\x21\x00\x14\x22\x00\x0a\x27\x00\x01\x00\x00";

/// One client at the other end of a slow line: it says this once, and takes a few bytes a call.
#[derive(Drop)]
struct Slow {
    says: &'static [u8],
    takes: usize,
    taken: Vec<u8>,
    came: bool,
}

impl Link for Slow {
    type Peer = ();

    fn accept(&mut self) -> Got<()> {
        if self.came {
            return Got::Nothing;
        }
        self.came = true;
        Got::Given(())
    }

    fn wait(&mut self) {}

    fn read(&mut self, _: &mut (), buffer: &mut [u8]) -> Got<usize> {
        let count = self.says.len().min(buffer.len());
        if count == 0 {
            return Got::Nothing;
        }
        buffer[..count].copy_from_slice(&self.says[..count]);
        self.says = &self.says[count..];
        Got::Given(count)
    }

    fn write(&mut self, _: &mut (), bytes: &[u8]) -> Got<usize> {
        let count = bytes.len().min(self.takes);
        match self.taken.extend_from_slice(&bytes[..count]) {
            Ok(()) => Got::Given(count),
            Err(AllocError) => Got::Failure,
        }
    }
}

/// A PUBLISH at QoS 1 to "a/b" with a packet identifier and so many bytes of payload, from 121 to 16,375 or above (3.3).
fn push_publish(bytes: &mut Vec<u8>, identifier: u16, payload: usize) -> Result<(), AllocError> {
    bytes.push(0x32)?;
    let mut left = payload.saturating_add(8);
    // A variable byte integer has at most four bytes (1.5.5).
    for _ in 0..3 {
        if left < 128 {
            break;
        }
        bytes.push((left % 128) as u8 | 0x80)?;
        left /= 128;
    }
    bytes.push((left % 128) as u8)?;
    bytes.extend_from_slice(b"\x00\x03a/b")?;
    bytes.extend_from_slice(&identifier.to_be_bytes())?;
    bytes.push(0)?;
    bytes.resize(
        bytes.len().saturating_add(payload),
        (identifier % 251) as u8,
    )?;
    Ok(())
}

/// Gives bytes to the broker on a line, until all are taken and nothing more is whole.
fn give<K: Keep>(engine: &mut Engine<K>, line: u64, bytes: &[u8]) -> bool {
    let mut rest = bytes;
    for _ in 0..bytes.len() {
        match engine.piece(line, rest, 0) {
            Ok(out) => {
                rest = rest.get(out.taken..).unwrap_or(&[]);
                if rest.is_empty() && !out.again {
                    return true;
                }
            }
            Err(_) => return false,
        }
    }
    false
}

/// A broker with a session that is away, and waiting copies of these PUBLISH.
fn away<K: Keep>(engine: &mut Engine<K>, packets: &[u8]) -> bool {
    let (Some(subscriber), Some(publisher)) = (engine.link(0), engine.link(0)) else {
        return false;
    };
    give(engine, subscriber, SUBSCRIBING)
        && engine.lost(subscriber, 0).is_ok()
        && give(engine, publisher, PUBLISHING)
        && give(engine, publisher, packets)
        && engine.lost(publisher, 0).is_ok()
}

/// A broker in which so many copies with so many bytes of payload each wait, and their packets.
fn backlog(
    alloc: Global,
    hasher: RandomState,
    copies: u16,
    payload: usize,
) -> Result<(Engine<MemKeep>, Vec<u8>), Fail> {
    let mut packets = Vec::new(alloc);
    for identifier in 1..=copies {
        push_publish(&mut packets, identifier, payload)?;
    }
    let Ok(mut engine) = Engine::open(alloc, MemKeep::new(alloc)?, 0, LIMITS, hasher) else {
        return Err(Fail::from("the broker can't be opened"));
    };
    if away(&mut engine, &packets) {
        return Ok((engine, packets));
    }
    drop(engine.close());
    Err(Fail::from("no copies wait"))
}

/// A client that resumes its session over a line that takes 30,000 bytes a turn.
fn over_a_slow_line(alloc: Global) -> Slow {
    Slow {
        says: RESUMING,
        takes: 30_000,
        taken: Vec::new(alloc),
        came: false,
    }
}

/// What comes of so many copies with so many bytes of payload each, over a connection that takes 30,000 bytes a turn: whether
/// they come whole, in order and on one connection, behind CONNACK.
fn comes_whole(
    alloc: Global,
    hasher: RandomState,
    copies: u16,
    payload: usize,
    turns: u64,
) -> Result<bool, Fail> {
    let (mut engine, packets) = backlog(alloc, hasher, copies, payload)?;
    let mut comes = false;
    if let Ok(mut links) = Links::new(alloc, over_a_slow_line(alloc)) {
        let mut goes_on = true;
        for moment in 0..turns {
            goes_on = goes_on && serve_turn(&mut links, &mut engine, moment).is_ok();
        }
        let taken = &links.link().taken;
        comes = goes_on && links.len() == 1 && taken.strip_prefix(RESUMED) == Some(&packets[..]);
    }
    drop(engine.close());
    Ok(comes)
}

/// As `comes_whole`, by turns whose steps are stored together, over a link that holds back what is written.
fn comes_whole_held(
    alloc: Global,
    hasher: RandomState,
    copies: u16,
    payload: usize,
    turns: u64,
) -> Result<bool, Fail> {
    let (mut engine, packets) = backlog(alloc, hasher, copies, payload)?;
    let mut comes = false;
    if let Ok(mut links) = Links::new(alloc, HeldBack::new(alloc, over_a_slow_line(alloc))) {
        let mut goes_on = true;
        for moment in 0..turns {
            goes_on = goes_on && stretch(&mut links, &mut engine, moment).is_ok();
        }
        let taken = &links.link().link().taken;
        comes = goes_on && links.len() == 1 && taken.strip_prefix(RESUMED) == Some(&packets[..]);
    }
    drop(engine.close());
    Ok(comes)
}

#[test]
fn a_backlog_of_great_messages_comes_whole_over_a_slow_line(rt: HostRuntime) -> Result<(), Fail> {
    let comes = comes_whole(rt.alloc(), RandomState::new(&rt)?, 110, 62_000, 260)?;
    assert!(rt; comes);
    Ok(())
}

#[test]
fn a_backlog_of_many_messages_comes_whole_over_a_slow_line(rt: HostRuntime) -> Result<(), Fail> {
    let comes = comes_whole(rt.alloc(), RandomState::new(&rt)?, 300, 8_000, 130)?;
    assert!(rt; comes);
    Ok(())
}

#[test]
fn packets_of_the_greatest_size_come_whole_over_a_slow_line(rt: HostRuntime) -> Result<(), Fail> {
    // 65,536 bytes each, of which 16 are just what may wait.
    let comes = comes_whole(rt.alloc(), RandomState::new(&rt)?, 40, 65_524, 120)?;
    assert!(rt; comes);
    Ok(())
}

#[test]
fn a_backlog_comes_whole_over_a_slow_line_that_is_held_back(rt: HostRuntime) -> Result<(), Fail> {
    for (copies, payload, turns) in [(110, 62_000, 260), (300, 8_000, 130), (40, 65_524, 120)] {
        let comes = comes_whole_held(rt.alloc(), RandomState::new(&rt)?, copies, payload, turns)?;
        assert!(rt; comes, "{copies} of {payload}");
    }
    Ok(())
}
