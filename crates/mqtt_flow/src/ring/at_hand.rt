//! What is at hand of the copies of one queue (MQTT 5.0, 4.1, 4.6).
ghost use Rattle.std.specs.Prelude.{◌≡◌, ◌≤◌, [], Option, option_copied, length, IfOk, OnErr, OnOk};
ghost use Rattle.circular_buffer.specs.Buffer.{buffer};
ghost use Rattle.mqtt_flow.specs.ring.AtHand.{Ascend, IsMade, content_at, entered, entries_of, has_room, left, nothing_at_hand, nothing_waits};

use crate::ring::ring::{find, is_behind, refill, remove};
use circular_buffer::HeapCircularBuffer;
use std::alloc::{AllocError, Global};
use std::marker::Model;

/// Of how many copies of a queue it is at hand at most what they say (ours).
pub const AT_HAND_LIMIT: usize = 64;

/// What consecutive copies of a queue say, by their places, at most `AT_HAND_LIMIT`. It takes its
/// memory at the first `fill`, or when something is put in first.
#[derive(Drop)]
pub struct AtHand<T> {
    ring: Option<HeapCircularBuffer<(u64, T)>>,
    reaches_end: bool,
}

impl<T> Model for AtHand<T> {
    ghost use Rattle.std.specs.Prelude.{◌≤◌, length};
    ghost use Rattle.mqtt_flow.specs.declared.ring.at_hand.TheConstants.{AT_HAND_LIMIT};
    ghost use Rattle.mqtt_flow.specs.ring.AtHand.{Ascend, ContentsAtHand, IsMade, entries_of};

    ghost Value = { ContentsAtHand T };

    ghost view = { λ a. record { entries = entries_of a.ring; reaches_end = a.reaches_end } };

    ghost invariant = { λ a. IsMade a.ring × (length (entries_of a.ring) ≤ AT_HAND_LIMIT)
        × Ascend (entries_of a.ring) };
}

/// Whether there is room behind the last one for a copy at a higher place.
fn has_room<T>(ring: &Option<HeapCircularBuffer<(u64, T)>>, place: u64) -> bool
    requires { Ascend (entries_of ring.now) }
    ensures { result ≡ has_room place (entries_of ring.now) }
{
    match ring {
        Some(ring) => ring.len() < AT_HAND_LIMIT && is_behind(ring, place),
        None => true,
    }
}

/// The ring, which is made now if it wasn't yet.
fn made<T: Drop>(
    ring: Option<HeapCircularBuffer<(u64, T)>>,
    alloc: Global,
) -> Result<HeapCircularBuffer<(u64, T)>, AllocError>
    requires { IsMade ring }
    ensures items { IfOk result (λ made. made ≡ buffer (entries_of ring) AT_HAND_LIMIT) }
    ensures only { OnErr result (entries_of ring ≡ []) }
{
    match ring {
        Some(ring) => Ok(ring),
        None => HeapCircularBuffer::with_capacity(alloc, AT_HAND_LIMIT),
    }
}

impl<T: Drop> AtHand<T> {
    /// What is at hand of a queue in which nothing waits. Takes no memory.
    pub fn new() -> Self
        ensures { result ≡ nothing_waits }
    {
        AtHand {
            ring: None,
            reaches_end: true,
        }
    }

    /// Of how many copies it is at hand what they say. Takes no memory.
    pub fn len(&self) -> usize
        ensures count { result ≡ length self.now.entries }
        ensures few { length self.now.entries ≤ AT_HAND_LIMIT }
        ensures order { Ascend self.now.entries }
    {
        match &self.ring {
            Some(ring) => ring.len(),
            None => 0,
        }
    }

    /// Whether no copy waits behind those that are at hand. Takes no memory.
    pub fn reaches_end(&self) -> bool
        ensures { result ≡ self.now.reaches_end }
    {
        self.reaches_end
    }

    /// What the copy at a place says, if that is at hand. Takes no memory.
    pub fn find(&self, place: u64) -> Option<&T>
        ensures { option_copied result ≡ content_at place self.now }
    {
        match &self.ring {
            Some(ring) => find(ring, place),
            None => None,
        }
    }

    /// A copy enters the queue at its end (4.6): what it says is put behind, if there is room and no
    /// copy waits between; else it is dropped, and the end isn't reached any more.
    pub fn enter(&mut self, alloc: Global, place: u64, content: T) -> Result<(), AllocError>
        ensures ok { OnOk result (self.new ≡ entered place content self.old) }

        // Want of memory is the only refusal, only where nothing was at hand; nothing is after it.
        ensures only { OnErr result (self.old.entries ≡ []) }
        ensures err { OnErr result (self.new ≡ nothing_at_hand) }
    {
        let is_put = self.reaches_end && has_room(&self.ring, place);
        self.reaches_end = false;
        if is_put {
            let mut ring = made(self.ring.take(), alloc)?;
            ring.push_back((place, content));
            self.ring = Some(ring);
            self.reaches_end = true;
        }
        Ok(())
    }

    /// The copy at a place has left the queue: it isn't at hand any more, and the others are. Takes
    /// no memory.
    pub fn leave(&mut self, place: u64)
        ensures { self.new ≡ left place self.old }
    {
        if let Some(ring) = &mut self.ring {
            remove(ring, place);
        }
    }

    /// What consecutive copies say is put in place of all that is at hand. It is asked that
    /// `reaches_end` says whether no copy waits behind them.
    pub fn fill(
        &mut self,
        alloc: Global,
        contents: Vec<(u64, T)>,
        reaches_end: bool,
    ) -> Result<(), AllocError>
        requires few { length contents.items ≤ AT_HAND_LIMIT }
        requires order { Ascend contents.items }
        ensures ok { OnOk result
            (self.new ≡ record { entries = contents.items; reaches_end = reaches_end }) }

        // Want of memory is the only refusal, only where nothing was at hand; nothing is after it.
        ensures only { OnErr result (self.old.entries ≡ []) }
        ensures err { OnErr result (self.new ≡ nothing_at_hand) }
    {
        self.reaches_end = false;
        let mut ring = made(self.ring.take(), alloc)?;
        refill(&mut ring, contents);
        self.ring = Some(ring);
        self.reaches_end = reaches_end;
        Ok(())
    }

    /// Nothing is at hand any more of a queue in which copies may wait. Takes no memory, and keeps
    /// what it has.
    pub fn clear(&mut self)
        ensures { self.new ≡ nothing_at_hand }
    {
        if let Some(ring) = &mut self.ring {
            ring.clear();
        }
        self.reaches_end = false;
    }
}
