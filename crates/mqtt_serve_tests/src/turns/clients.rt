//! Clients in memory: each sends its bytes in stages, a few a call, and one call of all may go wrong.
ghost use Rattle.std.specs.Prelude.{◌≢◌, length};
ghost use Rattle.mqtt_link.specs.declared.link.Got.TheVariants.{Given};
ghost use Rattle.mqtt_link.specs.Links.{GivesAtMost};

use mqtt_link::{Got, Link};
use std::alloc::{AllocError, Global};

/// What a client sends once so many bytes have come to it; without bytes it closes.
pub type Stage = (usize, &'static [u8]);

/// A call of a link.
#[derive(Clone, Copy, Debug, PartialEq, Eq)]
pub enum Call {
    /// A connection is accepted.
    Accept,
    /// A connection is read.
    Read,
    /// A connection is written to.
    Write,
}

/// What a call gives that goes wrong.
#[derive(Clone, Copy, Debug, PartialEq, Eq)]
pub enum Wrong {
    /// Nothing now.
    Nothing,
    /// The end.
    End,
    /// A failure.
    Failure,
}

/// The call that goes wrong: which one of its kind, from 0.
#[derive(Clone, Copy, Debug)]
pub struct Fault {
    /// Its kind.
    pub call: Call,
    /// Its number.
    pub number: usize,
    /// What it gives.
    pub gives: Wrong,
}

fn got<T: Drop>(wrong: Wrong) -> Got<T>
    ensures { (n : _) → result ≢ Given n }
{
    match wrong {
        Wrong::Nothing => Got::Nothing,
        Wrong::End => Got::End,
        Wrong::Failure => Got::Failure,
    }
}

/// A client: what it sends, how far it has come, and what came to it.
#[derive(Drop)]
struct Client {
    stages: &'static [Stage],
    stage: usize,
    at: usize,
    taken: Vec<u8>,
    reads: u64,
}

impl Client {
    /// Whether it has something to send now, or closes.
    fn has_something(&self) -> bool {
        match self.stages.get(self.stage) {
            Some((after, _)) => self.taken.len() >= *after,
            None => false,
        }
    }

    /// Gives the next bytes, at most so many.
    fn give(&mut self, buffer: &mut [u8], chunk: usize) -> Got<usize>
        ensures { GivesAtMost result (length buffer.new) }
    {
        let Some((after, bytes)) = self.stages.get(self.stage) else {
            return Got::Nothing;
        };
        if self.taken.len() < *after {
            return Got::Nothing;
        }
        if bytes.is_empty() {
            return Got::End;
        }
        let at = self.at.min(bytes.len());
        let rest = &bytes[at..];
        let count = rest.len().min(chunk).min(buffer.len());
        if count == 0 {
            return Got::Nothing;
        }
        buffer[..count].copy_from_slice(&rest[..count]);
        self.at = at + count;
        if count == rest.len() {
            self.stage = self.stage.saturating_add(1);
            self.at = 0;
        }
        Got::Given(count)
    }

    /// Takes the first of these bytes, at most so many.
    fn take(&mut self, bytes: &[u8], chunk: usize) -> Got<usize>
        ensures { GivesAtMost result (length bytes.now) }
    {
        let count = bytes.len().min(chunk);
        match self.taken.extend_from_slice(&bytes[..count]) {
            Ok(()) => Got::Given(count),
            Err(AllocError) => Got::Failure,
        }
    }
}

/// Clients that come one after the other.
#[derive(Drop)]
pub struct Clients {
    clients: Vec<Client>,
    came: usize,
    chunk: usize,
    fault: Option<Fault>,
    failed: Option<usize>,
    waits: u64,
}

/// The place of a client.
#[derive(Drop)]
pub struct Peer {
    place: usize,
}

impl Clients {
    /// These clients; a call moves at most so many bytes.
    pub fn new(
        alloc: Global,
        clients: &[&'static [Stage]],
        chunk: usize,
        fault: Option<Fault>,
    ) -> Result<Clients, AllocError> {
        let mut all = Vec::new(alloc);
        for stages in clients {
            all.push(Client {
                stages: *stages,
                stage: 0,
                at: 0,
                taken: Vec::new(alloc),
                reads: 0,
            })?;
        }
        Ok(Clients {
            clients: all,
            came: 0,
            chunk,
            fault,
            failed: None,
            waits: 0,
        })
    }

    /// What came to a client.
    pub fn taken(&self, place: usize) -> &[u8] {
        match self.clients.get(place) {
            Some(client) => &client.taken,
            None => &[],
        }
    }

    /// How often a client was read.
    pub fn reads(&self, place: usize) -> u64 {
        match self.clients.get(place) {
            Some(client) => client.reads,
            None => 0,
        }
    }

    /// How often it was asked to wait.
    pub fn waits(&self) -> u64 {
        self.waits
    }

    /// The client one of whose calls went wrong.
    pub fn failed(&self) -> Option<usize> {
        self.failed
    }

    /// Whether no call has gone wrong.
    pub fn is_well(&self) -> bool {
        self.fault.is_some()
    }

    /// Whether this call goes wrong. Each is counted.
    fn goes_wrong(&mut self, call: Call, place: usize) -> Option<Wrong> {
        let Some(fault) = self.fault else {
            return None;
        };
        if fault.call != call {
            return None;
        }
        if fault.number > 0 {
            self.fault = Some(Fault {
                number: fault.number - 1,
                ..fault
            });
            return None;
        }
        self.fault = None;
        if call != Call::Accept {
            self.failed = Some(place);
        }
        Some(fault.gives)
    }
}

impl Link for Clients {
    type Peer = Peer;

    fn accept(&mut self) -> Got<Peer> {
        let place = self.came;
        if let Some(wrong) = self.goes_wrong(Call::Accept, place) {
            return got(wrong);
        }
        if place >= self.clients.len() {
            return Got::Nothing;
        }
        self.came = place + 1;
        Got::Given(Peer { place })
    }

    fn may_give(&self, peer: &Peer) -> bool {
        self.is_told(peer.place)
    }

    fn key(&self, peer: &Peer) -> usize {
        peer.place
    }

    fn is_told(&self, key: usize) -> bool {
        match self.clients.get(key) {
            Some(client) => self.fault.is_some() || client.has_something(),
            None => true,
        }
    }

    fn wait(&mut self) {
        self.waits = self.waits.wrapping_add(1);
    }

    fn read(&mut self, peer: &mut Peer, buffer: &mut [u8]) -> Got<usize> {
        if let Some(wrong) = self.goes_wrong(Call::Read, peer.place) {
            return got(wrong);
        }
        let chunk = self.chunk;
        match self.clients.get_mut(peer.place) {
            Some(client) => {
                client.reads = client.reads.wrapping_add(1);
                client.give(buffer, chunk)
            }
            None => Got::Failure,
        }
    }

    fn write(&mut self, peer: &mut Peer, bytes: &[u8]) -> Got<usize> {
        if let Some(wrong) = self.goes_wrong(Call::Write, peer.place) {
            return got(wrong);
        }
        let chunk = self.chunk;
        match self.clients.get_mut(peer.place) {
            Some(client) => client.take(bytes, chunk),
            None => Got::Failure,
        }
    }
}
