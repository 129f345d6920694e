//! A connection in memory, which takes and gives a few bytes a call.
use mqtt_link::{Got, Link};
use std::alloc::{AllocError, Global};

/// What it will give, what it has given and taken, how often it was read and written to, for how many bytes the last read had
/// room, whether a call failed, and how many bytes a call moves; 0 for a connection that fails.
#[derive(Drop)]
pub struct MemoryPeer {
    incoming: Vec<u8>,
    given: Vec<u8>,
    taken: Vec<u8>,
    reads: u64,
    room: usize,
    writes: u64,
    has_ended: bool,
    chunk: usize,
}

impl MemoryPeer {
    pub fn new(alloc: Global, incoming: &[u8], chunk: usize) -> Result<MemoryPeer, AllocError> {
        Ok(MemoryPeer {
            incoming: incoming.to_vec(alloc)?,
            given: Vec::new(alloc),
            taken: Vec::new(alloc),
            reads: 0,
            room: 0,
            writes: 0,
            has_ended: false,
            chunk,
        })
    }

    pub fn taken(&self) -> &[u8] {
        &self.taken
    }

    pub fn reads(&self) -> u64 {
        self.reads
    }

    pub fn room(&self) -> usize {
        self.room
    }

    pub fn has_ended(&self) -> bool {
        self.has_ended
    }
}

/// A link that accepts nobody, however often it is asked.
#[derive(Drop)]
pub struct MemoryLink {
    accepts: u64,
    waits: u64,
}

impl MemoryLink {
    pub fn new() -> MemoryLink {
        MemoryLink {
            accepts: 0,
            waits: 0,
        }
    }

    pub fn accepts(&self) -> u64 {
        self.accepts
    }

    pub fn waits(&self) -> u64 {
        self.waits
    }
}

impl Link for MemoryLink {
    ghost use Rattle.std.specs.Prelude.{Some};

    type Peer = MemoryPeer;

    ghost calls = { λ link. Some (record { accepts = link.accepts; came = 0; waits = link.waits }) };

    ghost reads = { λ peer. Some peer.reads };

    ghost room = { λ peer. Some peer.room };

    ghost writes = { λ peer. Some peer.writes };

    ghost was_read = { λ peer. Some peer.given.items };

    ghost written = { λ peer. Some peer.taken.items };

    ghost ended = { λ peer. Some peer.has_ended };

    fn accept(&mut self) -> Got<MemoryPeer> {
        self.accepts = self.accepts.wrapping_add(1);
        Got::Nothing
    }

    fn wait(&mut self) {
        self.waits = self.waits.wrapping_add(1);
    }

    fn read(&mut self, peer: &mut MemoryPeer, buffer: &mut [u8]) -> Got<usize> {
        peer.reads = peer.reads.wrapping_add(1);
        peer.room = buffer.len();
        if peer.chunk == 0 {
            peer.has_ended = true;
            return Got::Failure;
        }
        let count = peer.incoming.len().min(peer.chunk).min(buffer.len());
        if count == 0 {
            return Got::Nothing;
        }
        if peer
            .given
            .extend_from_slice(&peer.incoming[..count])
            .is_err()
        {
            peer.has_ended = true;
            return Got::Failure;
        }
        buffer[..count].copy_from_slice(&peer.incoming[..count]);
        peer.incoming.drain(..count);
        Got::Given(count)
    }

    fn write(&mut self, peer: &mut MemoryPeer, bytes: &[u8]) -> Got<usize> {
        peer.writes = peer.writes.wrapping_add(1);
        if peer.chunk == 0 {
            peer.has_ended = true;
            return Got::Failure;
        }
        let count = bytes.len().min(peer.chunk);
        if peer.taken.extend_from_slice(&bytes[..count]).is_err() {
            peer.has_ended = true;
            return Got::Failure;
        }
        Got::Given(count)
    }
}
