//! A connection: its line of the broker, what waits to go out on it, and what becomes of it (MQTT 5.0, 4.2).
ghost use Rattle.std.specs.Prelude.{◌≡◌, ◌≤◌, ◌++◌, [], ℕ, true, false, length, take, OnOk, IfErr, IsTrue};
ghost use Rattle.mqtt_serve.specs.turns.Resting.{Rests};
ghost use Rattle.mqtt_serve.specs.turns.Wires.{FindsNoRoom, Reads, Reaches, Hears, LetsGo, WritesAnd, WritesLast, bytes_to, closing, is_standing, is_lost, is_closed, lost_if, may_send};

use crate::journal::Loss;
use bytes::Bytes;
use mqtt_holding::Seen;
use mqtt_link::{Got, HeldBack, Link, WAITING_LIMIT, Waiting, WaitingFault};
use std::alloc::Global;
use std::marker::Model;

/// What becomes of a connection.
#[derive(Clone, Copy, Debug, PartialEq, Eq)]
pub enum Fate {
    /// Its line is linked.
    Stands,
    /// It is lost, and the broker is to be told.
    Lost,
    /// The broker has closed its line: what waits is written once more, and it is dropped.
    Closed,
}

/// A connection that the broker has linked. What each turn looks at stands in front, together.
#[derive(Drop)]
pub struct Connection<L: Link> {
    pub(crate) number: u64,
    fate: Fate,
    is_clear: bool,
    /// Whether the last read filled its buffer.
    has_more: bool,
    /// Whether bytes came or went on it in its last turn.
    has_moved: bool,
    /// Whether the broker may have something to send on it.
    pub(crate) is_stirred: bool,
    waiting: Waiting,
    pub(crate) peer: L::Peer,
    /// Why it is lost, if it is.
    loss: Loss,
    /// The birth of the session that is connected on its line, once it is known.
    pub(crate) birth: Option<u64>,
    /// What decides whether it is left unread.
    pub(crate) seen: Seen,
}

impl<L: Link> Model for Connection<L> {
    ghost use Rattle.mqtt_link.specs.Links.{and_then};
    ghost use Rattle.mqtt_serve.specs.turns.Wires.{Wire};

    ghost Value = { Wire };

    // What was written to it, and then what waits, is what was said to it.
    ghost view = { λ c. record {
      number = c.number;
      reads = L.reads c.peer;
      room = L.room c.peer;
      heard = L.was_read c.peer;
      writes = L.writes c.peer;
      ended = L.ended c.peer;
      waits = c.waiting;
      said = and_then (L.written c.peer) c.waiting;
      out = L.out c.peer;
      outs = L.outs c.peer;
      clear = c.is_clear;
      fate = c.fate;
    } };
}

/// Puts the outputs to a line behind what waits, up to the first that finds no room: too much would wait (1), or memory lacks (2).
fn push_all(
    waiting: &mut Waiting,
    number: u64,
    outputs: &[(u64, Bytes)],
) -> Result<(), WaitingFault>
    ensures all { OnOk result (waiting.new ≡ waiting.old ++ bytes_to number outputs.now) }
    ensures cut { IfErr result (λ fault. (count : ℕ)
        × FindsNoRoom number outputs.now count waiting.old fault
        × (waiting.new ≡ waiting.old ++ bytes_to number (take count outputs.now))) }
{
    for (line, bytes) in outputs {
        if *line == number {
            waiting.push(bytes)?;
        }
    }
    Ok(())
}

/// Why a connection is lost on which outputs found no room.
fn loss_of(pushed: Result<(), WaitingFault>) -> Loss {
    match pushed {
        Ok(()) | Err(WaitingFault::Full) => Loss::Full,
        Err(WaitingFault::Memory) => Loss::Memory,
    }
}

impl<L: Link> Connection<L> {
    /// A connection that the broker has linked as a line of this number. Takes no memory.
    pub fn new(alloc: Global, number: u64, peer: L::Peer) -> Connection<L>
        ensures number { result.number ≡ number }
        ensures fate { result.fate ≡ Fate.Stands }
        ensures silent { (result.waits ≡ []) × (result.clear ≡ false) }
        ensures read { (result.reads ≡ L.reads peer) × (result.heard ≡ L.was_read peer) }
        ensures unwritten { (result.writes ≡ L.writes peer) × (result.said ≡ L.written peer) }
        ensures ended { result.ended ≡ L.ended peer }
        ensures unsent { (result.out ≡ L.out peer) × (result.outs ≡ L.outs peer) }
    {
        Connection {
            number,
            fate: Fate::Stands,
            is_clear: false,
            has_more: false,
            has_moved: false,
            is_stirred: true,
            waiting: Waiting::new(alloc),
            peer,
            loss: Loss::Closed,
            birth: None,
            seen: Seen::new(),
        }
    }

    /// The number of its line.
    pub fn number(&self) -> u64
        ensures { result ≡ self.now.number }
    {
        self.number
    }

    /// Whether its line is linked.
    pub fn is_standing(&self) -> bool
        ensures { result ≡ is_standing self.now.fate }
    {
        matches!(self.fate, Fate::Stands)
    }

    /// Whether the broker sends to it: it stands, and the last write took all that waited.
    pub fn may_send(&self) -> bool
        ensures { result ≡ may_send self.now }
    {
        self.is_standing() && self.is_clear
    }

    /// Whether it is lost, and the broker is to be told.
    pub fn is_lost(&self) -> bool
        ensures { result ≡ is_lost self.now.fate }
    {
        matches!(self.fate, Fate::Lost)
    }

    /// Why it is lost, if it is.
    pub fn loss(&self) -> Loss {
        self.loss
    }

    /// Whether the broker has closed its line.
    pub fn is_closed(&self) -> bool
        ensures { result ≡ is_closed self.now.fate }
    {
        matches!(self.fate, Fate::Closed)
    }

    /// Whether more may be at hand than was read: the last read filled its buffer.
    pub fn has_more(&self) -> bool {
        self.has_more
    }

    /// Whether something waits on it, or may be sent, that was not tried to be written yet.
    pub fn has_new(&self) -> bool
        ensures { result ≡ false → may_send self.now ≡ true → self.now.waits ≡ [] }
    {
        self.may_send() && (self.is_stirred || !self.waiting.is_empty())
    }

    /// It is passed over if it may be: it stands and nothing waits on it, the broker has nothing to send on it, and the link tells
    /// that nothing has come. Whether it is.
    pub fn rest(&mut self, link: &L) -> bool
        ensures sends { IsTrue result → may_send self.old ≡ true }
        ensures clear { IsTrue result → self.old.waits ≡ [] }
        ensures same { self.new ≡ self.old }
    {
        self.has_moved = false;
        self.may_send() && self.waiting.is_empty() && !self.is_stirred && !link.may_give(&self.peer)
    }

    /// Whether bytes came or went on it in its last turn.
    pub fn has_moved(&self) -> bool {
        self.has_moved
    }

    /// Whether what waits on it can wait on: its line isn't closed, and at most half of what may wait does.
    pub fn can_wait(&self) -> bool {
        !self.is_closed() && self.waiting.len() <= WAITING_LIMIT / 2
    }

    /// Reads once, if it stands; a read that ends or fails makes it lost. How many bytes came.
    pub fn read(&mut self, link: &mut L, buffer: &mut [u8]) -> usize
        ensures bound { result ≤ length buffer.new }
        ensures reads { Reads self.old.fate (length buffer.new) (take result buffer.new) self.old self.new }
        ensures number { self.new.number ≡ self.old.number }
        ensures same { L.calls link.new ≡ L.calls link.old }
    {
        if !self.is_standing() {
            return 0;
        }
        let given = link.read(&mut self.peer, buffer);
        let count = match given {
            Got::Given(count) => count,
            Got::Nothing => 0,
            Got::End | Got::Failure => {
                self.fate = Fate::Lost;
                self.loss = match given {
                    Got::End => Loss::Closed,
                    _ => Loss::Failed,
                };
                0
            }
        };
        self.has_more = count == buffer.len();
        self.has_moved = count > 0;
        count
    }

    /// Writes once what waits, unless it is lost; a write that ends or fails makes it lost. Whether bytes went out.
    pub fn write(&mut self, link: &mut L) -> bool
        ensures writes { WritesAnd result self.old self.new }
        ensures number { self.new.number ≡ self.old.number }
        ensures same { L.calls link.new ≡ L.calls link.old }
    {
        if self.is_lost() {
            return false;
        }
        let before = self.waiting.len();
        if !self.waiting.write(link, &mut self.peer) && self.is_standing() {
            self.fate = Fate::Lost;
            self.loss = Loss::Failed;
        }
        if before > 0 {
            self.is_clear = self.waiting.is_empty();
        }
        let wrote = self.waiting.len() < before;
        self.has_moved |= wrote;
        wrote
    }

    /// Writes once more what waits, if the broker has closed its line.
    pub fn write_last(&mut self, link: &mut L)
        ensures writes { WritesLast self.old.fate self.old self.new }
        ensures number { self.new.number ≡ self.old.number }
        ensures same { L.calls link.new ≡ L.calls link.old }
    {
        if self.is_closed() {
            self.write(link);
        }
    }

    /// Puts the outputs to its line behind what waits, if it stands. It is lost if too much would wait or memory is
    /// wanting: then those before the one that finds no room wait, and no other.
    fn tell(&mut self, outputs: &[(u64, Bytes)])
        ensures hears { Hears self.old.fate outputs.now self.old self.new }
        ensures number { self.new.number ≡ self.old.number }
    {
        if !self.is_standing() {
            return;
        }
        let pushed = push_all(&mut self.waiting, self.number, outputs);
        if pushed.is_err() {
            self.fate = Fate::Lost;
            self.loss = loss_of(pushed);
        }
    }

    /// It is closed, if its line is among those that the broker closed.
    fn close(&mut self, closed: &[u64])
        ensures closes { self.new ≡ closing closed.now self.old }
        ensures number { self.new.number ≡ self.old.number }
    {
        if closed.contains(&self.number) {
            self.fate = Fate::Closed;
        }
    }

    /// An answer reaches it: the outputs to its line wait on it, and it is closed if that closed its line.
    pub fn reach(&mut self, outputs: &[(u64, Bytes)], closed: &[u64])
        ensures reaches { Reaches outputs.now closed.now self.old self.new }
        ensures number { self.new.number ≡ self.old.number }
    {
        self.tell(outputs);
        self.close(closed);
    }

    /// It is lost for want of memory if it is on this line, and the broker is to be told.
    pub fn lose_if(&mut self, number: u64)
        ensures loses { self.new ≡ lost_if number self.old }
        ensures number { self.new.number ≡ self.old.number }
    {
        if self.number == number {
            self.fate = Fate::Lost;
            self.loss = Loss::Memory;
        }
    }
}

impl<L: Link + Drop> Connection<HeldBack<L>> {
    /// What is held back goes out, by one write; one that stands and whose write ends or fails is lost. Whether bytes went out.
    pub fn let_go(&mut self, link: &mut HeldBack<L>) -> bool
        ensures lets { LetsGo result self.old self.new }
        ensures number { self.new.number ≡ self.old.number }
        ensures same { L.calls link.new.link ≡ L.calls link.old.link }
    {
        let before = self.peer.held();
        if !link.let_go(&mut self.peer) && self.is_standing() {
            self.fate = Fate::Lost;
            self.loss = Loss::Failed;
        }
        self.peer.held() < before
    }

    /// Whether nothing is to be done on it: it stands, nothing waits on it or is held back, the broker has nothing to send on it,
    /// and nothing has come.
    pub fn is_at_rest(&self, link: &HeldBack<L>) -> bool
        ensures { IsTrue result → Rests self.now }
    {
        self.may_send()
            && self.waiting.is_empty()
            && self.peer.held() == 0
            && !self.is_stirred
            && !link.has_come(&self.peer)
    }
}
