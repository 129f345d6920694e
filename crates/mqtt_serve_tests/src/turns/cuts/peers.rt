//! The subscriber "s" and the publisher "p", who answer as QoS 1 and 2 ask and go on when they come again (MQTT 5.0, 4.3, 4.4).
ghost use Rattle.std.specs.Prelude.{length};
ghost use Rattle.mqtt_link.specs.Links.{GivesAtMost};

use mqtt_link::{Got, Link};
use std::alloc::{AllocError, Global};

/// By "s" and by "p": CONNECT without Clean Start, with a session that doesn't end (3.1.2.4, 3.1.2.11.2).
const CONNECTS: [&[u8]; 2] = [
    b"\x10\x13\x00\x04MQTT\x05\x00\x00\x00\x05\x11\xff\xff\xff\xff\x00\x01s",
    b"\x10\x13\x00\x04MQTT\x05\x00\x00\x00\x05\x11\xff\xff\xff\xff\x00\x01p",
];

/// By "s": SUBSCRIBE to "a/b" at QoS 2 (3.8).
const SUBSCRIBE: &[u8] = b"\x82\x09\x00\x01\x00\x00\x03a/b\x02";

/// By "p": PUBLISH at QoS 2 with identifier 7; the same with DUP (3.3.1.1).
const TWO: [&[u8]; 2] = [
    b"\x34\x0a\x00\x03a/b\x00\x07\x00hi",
    b"\x3c\x0a\x00\x03a/b\x00\x07\x00hi",
];

/// By "p": PUBLISH at QoS 1 with identifier 8; the same with DUP.
const ONE: [&[u8]; 2] = [
    b"\x32\x0a\x00\x03a/b\x00\x08\x00yo",
    b"\x3a\x0a\x00\x03a/b\x00\x08\x00yo",
];

/// By "p": PUBREL (3.6).
const PUBREL: &[u8] = b"\x62\x02\x00\x07";

/// What both clients know, with a connection and without.
#[derive(Clone, Copy, Debug, PartialEq, Eq)]
pub(crate) struct Known {
    /// How many CONNACKs came.
    pub(crate) greeted: usize,
    /// SUBACK came to "s".
    pub(crate) is_subscribed: bool,
    /// How often the message at QoS 2 was handed over to "s", each time under an identifier that wasn't open.
    pub(crate) handed: u32,
    /// That identifier is open: no PUBREL came since.
    pub(crate) is_open: bool,
    /// "p" has published.
    pub(crate) is_sent: bool,
    /// PUBREC came to "p".
    pub(crate) is_received: bool,
    /// PUBCOMP came to "p".
    pub(crate) is_complete: bool,
    /// PUBACK came to "p".
    pub(crate) is_acknowledged: bool,
    /// Something else came.
    pub(crate) is_wrong: bool,
}

/// What they know at first.
pub(crate) const NOTHING: Known = Known {
    greeted: 0,
    is_subscribed: false,
    handed: 0,
    is_open: false,
    is_sent: false,
    is_received: false,
    is_complete: false,
    is_acknowledged: false,
    is_wrong: false,
};

/// The packet at the front of bytes, and what is behind it; a length of one byte (2.1.4).
fn split(bytes: &[u8]) -> Option<(&[u8], &[u8])> {
    let length = bytes.get(1)?;
    let end = usize::from(*length).saturating_add(2).min(bytes.len());
    Some((&bytes[..end], &bytes[end..]))
}

/// A packet with an identifier and nothing else.
fn reply(out: &mut Vec<u8>, kind: u8, identifier: Option<&[u8]>) -> Result<(), AllocError> {
    out.extend_from_slice(&[kind, 2])?;
    out.extend_from_slice(identifier.unwrap_or(&[]))
}

impl Known {
    /// What a client says as its connection opens.
    fn begin(self, place: usize, out: &mut Vec<u8>) -> Result<(), AllocError> {
        out.extend_from_slice(CONNECTS.get(place).copied().unwrap_or(&[]))?;
        if place == 0 && !self.is_subscribed {
            return out.extend_from_slice(SUBSCRIBE);
        }
        Ok(())
    }

    /// "p" says what has not come to its end, again with DUP (4.4).
    fn publish(&mut self, out: &mut Vec<u8>) -> Result<(), AllocError> {
        let again = usize::from(self.is_sent);
        self.is_sent = true;
        if !self.is_received {
            out.extend_from_slice(TWO[again])?;
        } else if !self.is_complete {
            out.extend_from_slice(PUBREL)?;
        }
        if self.is_acknowledged {
            return Ok(());
        }
        out.extend_from_slice(ONE[again])
    }

    /// The message at QoS 2 comes: it is handed over unless its identifier is open (4.3.3).
    fn hand(&mut self) {
        if !self.is_open {
            self.handed = self.handed.saturating_add(1);
        }
        self.is_open = true;
    }

    /// A packet comes to a client, which answers.
    fn take(&mut self, place: usize, packet: &[u8], out: &mut Vec<u8>) -> Result<(), AllocError> {
        match packet.first().copied().unwrap_or(0) {
            0x20 => self.greeted = self.greeted.saturating_add(1),
            0x90 => self.is_subscribed = true,
            0x34 | 0x3c => {
                self.hand();
                return reply(out, 0x50, packet.get(7..9));
            }
            0x32 | 0x3a => return reply(out, 0x40, packet.get(7..9)),
            0x62 => {
                self.is_open = false;
                return reply(out, 0x70, packet.get(2..4));
            }
            0x50 => {
                self.is_received = true;
                return out.extend_from_slice(PUBREL);
            }
            0x70 => self.is_complete = true,
            0x40 => self.is_acknowledged = true,
            _ => self.is_wrong = true,
        }
        if place == 1 && packet.starts_with(b"\x20") {
            return self.publish(out);
        }
        Ok(())
    }

    /// Packets come to a client.
    fn take_all(
        &mut self,
        place: usize,
        bytes: &[u8],
        out: &mut Vec<u8>,
    ) -> Result<(), AllocError> {
        let mut rest = bytes;
        for _ in 0..bytes.len() {
            let Some((packet, behind)) = split(rest) else {
                return Ok(());
            };
            self.take(place, packet, out)?;
            rest = behind;
        }
        Ok(())
    }
}

/// Both clients, up to a cut: so many writes are taken, and then nothing comes or goes.
#[derive(Drop)]
pub(crate) struct Peers {
    alloc: Global,
    known: Known,
    came: usize,
    writes: u64,
    is_cut: bool,
}

/// The connection of a client, with what it says next.
#[derive(Drop)]
pub(crate) struct Peer {
    place: usize,
    out: Vec<u8>,
}

impl Peers {
    /// Clients who know this and come; so many writes to them are taken.
    pub(crate) fn new(alloc: Global, known: Known, writes: u64) -> Peers {
        Peers {
            alloc,
            known,
            came: 0,
            writes,
            is_cut: false,
        }
    }

    /// What they know.
    pub(crate) fn known(&self) -> Known {
        self.known
    }

    /// Whether a write was not taken.
    pub(crate) fn is_cut(&self) -> bool {
        self.is_cut
    }
}

impl Peer {
    /// Gives what the client says next.
    fn give(&mut self, buffer: &mut [u8]) -> Got<usize>
        ensures { GivesAtMost result (length buffer.new) }
    {
        let count = self.out.len().min(buffer.len());
        if count == 0 {
            return Got::Nothing;
        }
        buffer[..count].copy_from_slice(&self.out[..count]);
        self.out.clear();
        Got::Given(count)
    }
}

impl Link for Peers {
    type Peer = Peer;

    fn accept(&mut self) -> Got<Peer> {
        let place = self.came;
        if self.is_cut || place >= CONNECTS.len() {
            return Got::Nothing;
        }
        let mut out = Vec::new(self.alloc);
        if self.known.begin(place, &mut out).is_err() {
            drop(out);
            return Got::Failure;
        }
        self.came = place + 1;
        Got::Given(Peer { place, out })
    }

    fn wait(&mut self) {}

    fn read(&mut self, peer: &mut Peer, buffer: &mut [u8]) -> Got<usize> {
        if self.is_cut {
            return Got::Nothing;
        }
        peer.give(buffer)
    }

    fn write(&mut self, peer: &mut Peer, bytes: &[u8]) -> Got<usize> {
        if self.writes == 0 {
            self.is_cut = true;
            return Got::Nothing;
        }
        self.writes -= 1;
        match self.known.take_all(peer.place, bytes, &mut peer.out) {
            Ok(()) => Got::Given(bytes.len()),
            Err(AllocError) => Got::Failure,
        }
    }
}
