//! Bytes that wait to go out on a connection (MQTT 5.0, 4.2).
ghost use Rattle.std.specs.Prelude.{◌≡◌, ◌≤◌, ◌+◌, ◌++◌, ◌↔◌, [], length, OnOk, OnErr, IfErr, IsTrue};
ghost use Rattle.mqtt_link.specs.Links.{and_then, ended_unless, one_more_if_any, Refuses};

use crate::link::{Got, Link};
use std::alloc::{AllocError, Global};
use std::marker::Model;
use thiserror::Error;

/// The most bytes that wait on a connection (ours).
pub const WAITING_LIMIT: usize = 1_048_576;

/// Why bytes do not wait on a connection.
#[derive(Clone, Copy, Debug, PartialEq, Eq, Error)]
pub enum WaitingFault {
    /// 1: more than `WAITING_LIMIT` would wait (ours).
    #[error("too much waits to go out")]
    Full = 1,
    /// 2: want of memory.
    #[error("want of memory")]
    Memory = 2,
}

impl From<AllocError> for WaitingFault {
    ghost use Rattle.mqtt_link.specs.declared.waiting.WaitingFault.TheVariants.{Memory};

    ghost from_gives = { λ _ fault. fault ≡ Memory };

    fn from(_: AllocError) -> WaitingFault {
        WaitingFault::Memory
    }
}

/// Bytes that wait to go out on a connection, at most `WAITING_LIMIT` of them.
#[derive(Drop)]
pub struct Waiting {
    bytes: Vec<u8>,
}

impl Model for Waiting {
    ghost use Rattle.std.specs.Prelude.{ℕ, List, ◌≤◌, length};
    ghost use Rattle.mqtt_link.specs.declared.waiting.TheConstants.{WAITING_LIMIT};

    ghost Value = { List ℕ };

    ghost view = { λ a. a.bytes.items };

    ghost invariant = { λ a. length a.bytes.items ≤ WAITING_LIMIT };
}

impl Waiting {
    /// Nothing waits. Takes no memory.
    pub fn new(alloc: Global) -> Waiting
        ensures { result ≡ [] }
    {
        Waiting {
            bytes: Vec::new(alloc),
        }
    }

    /// Whether nothing waits. Takes no memory.
    pub fn is_empty(&self) -> bool
        ensures { IsTrue result ↔ (self.now ≡ []) }
    {
        self.bytes.is_empty()
    }

    /// How many bytes wait. Takes no memory.
    pub fn len(&self) -> usize
        ensures { result ≡ length self.now }
    {
        self.bytes.len()
    }

    /// Puts bytes behind those that wait. `Full` (1) comes if more than `WAITING_LIMIT` would wait, `Memory`
    /// (2) for want of memory; both change nothing.
    pub fn push(&mut self, bytes: &[u8]) -> Result<(), WaitingFault>
        ensures ok { OnOk result (self.new ≡ self.old ++ bytes.now) }
        ensures only { OnOk result (length self.old + length bytes.now ≤ WAITING_LIMIT) }
        ensures err { OnErr result (self.new ≡ self.old) }
        ensures refused { IfErr result (Refuses self.old bytes.now) }
    {
        if bytes.len() > WAITING_LIMIT - self.bytes.len() {
            return Err(WaitingFault::Full);
        }
        self.bytes.extend_from_slice(bytes)?;
        Ok(())
    }

    /// Writes once what waits, if anything does: what the connection took waits no longer. False if the
    /// connection ended or failed. Takes no memory.
    pub fn write<L: Link>(&mut self, link: &mut L, peer: &mut L::Peer) -> bool
        ensures moved { and_then (L.written peer.new) self.new ≡ and_then (L.written peer.old) self.old }
        ensures kept { L.was_read peer.new ≡ L.was_read peer.old }
        ensures counted { L.writes peer.new ≡ one_more_if_any self.old (L.writes peer.old) }
        ensures ended { L.ended peer.new ≡ ended_unless result (L.ended peer.old) }
        ensures uncounted { (L.reads peer.new ≡ L.reads peer.old) × (L.room peer.new ≡ L.room peer.old) }
        ensures unsent { (L.out peer.new ≡ L.out peer.old) × (L.outs peer.new ≡ L.outs peer.old) }
        ensures same { L.calls link.new ≡ L.calls link.old }
    {
        if self.bytes.is_empty() {
            return true;
        }
        match link.write(peer, &self.bytes) {
            Got::Given(count) => {
                self.bytes.drain(..count);
                true
            }
            Got::Nothing => true,
            Got::End | Got::Failure => false,
        }
    }
}
