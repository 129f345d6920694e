//! What the server has seen of a connection, and whether it is held (ours).
ghost use Rattle.std.specs.Prelude.{◌≡◌, ◌≢◌, ◌<◌, ◌≤◌, ◌+◌, ℕ, Some, None, true, false, IsTrue};
ghost use Rattle.mqtt_holding.specs.Holding.{fresh, is_held, is_pressing, looked, with_acknowledged, with_brought};

use std::marker::Model;

/// Milliseconds after which a queue that made no progress holds nobody (ours).
pub const STALL_TIME: u64 = 1_000;

/// Milliseconds for which a connection is held at most after it brought a PUBLISH (ours).
pub const HOLD_TIME: u64 = 500;

/// What the server has seen of a connection. Moments are in milliseconds.
#[derive(Debug, Drop)]
pub struct Seen {
    waits: Option<usize>,
    is_over: bool,
    moved: u64,
    brought: Option<u64>,
}

impl Model for Seen {
    ghost use Rattle.mqtt_holding.specs.Holding.{Seen};

    ghost Value = { Seen };

    ghost view = { λ s. record { waits = s.waits; is_over = s.is_over; moved = s.moved; brought = s.brought } };
}

impl Seen {
    /// Nothing was seen of it. Takes no memory.
    pub fn new() -> Seen
        ensures { result ≡ fresh }
    {
        Seen {
            waits: None,
            is_over: false,
            moved: 0,
            brought: None,
        }
    }

    /// The server looks how many copies wait in the queue of the session that is connected on it; None if no CONNECT was accepted on
    /// it. Takes no memory.
    pub fn look(&mut self, mark: usize, waits: Option<usize>, now: u64)
        ensures answer { self.new ≡ looked mark waits now self.old }

        // A queue is over the mark from more copies than the mark on, until they are fewer than half of it.
        ensures begins { (n : ℕ) → waits ≡ Some n → mark < n → self.new.is_over ≡ true }
        ensures stays { (n : ℕ) → waits ≡ Some n → n ≤ mark → mark ≤ n + n → self.new.is_over ≡ self.old.is_over }
        ensures ends { (n : ℕ) → waits ≡ Some n → n + n < mark → self.new.is_over ≡ false }
        ensures unconnected { waits ≡ None → self.new.is_over ≡ false }
    {
        let Some(count) = waits else {
            self.waits = None;
            self.is_over = false;
            self.moved = now;
            return;
        };
        let is_shorter = match self.waits {
            Some(before) => count == 0 || count < before,
            None => true,
        };
        if is_shorter {
            self.moved = now;
        }
        self.is_over = count > mark || (self.is_over && count >= mark - count);
        self.waits = waits;
    }

    /// A PUBLISH of QoS 1 or 2 came on it. Takes no memory.
    pub fn bring(&mut self, now: u64)
        ensures { self.new ≡ with_brought now self.old }
    {
        self.brought = Some(now);
    }

    /// An acknowledgement of a copy came on it. Takes no memory.
    pub fn acknowledge(&mut self, at: u64)
        ensures { self.new ≡ with_acknowledged at self.old }
    {
        self.moved = at;
    }

    /// Whether others are to be held for its queue: it is over the mark, and made progress lately. Takes no memory.
    pub fn is_pressing(&self, now: u64) -> bool
        ensures answer { result ≡ is_pressing now self.now }
        ensures over { IsTrue result → self.now.is_over ≡ true }
        ensures moves { IsTrue result → now < self.now.moved + STALL_TIME }
    {
        self.is_over && now.saturating_sub(self.moved) < STALL_TIME
    }

    /// Whether it is held now, if the queue of some connection is pressing, or of none. Takes no memory.
    pub fn is_held(&self, pressed: bool, now: u64) -> bool
        ensures answer { result ≡ is_held pressed now self.now }

        // Nobody is held where no queue is pressing; and nobody before a CONNECT was accepted, nor one whose own queue is over the mark,
        // since its acknowledgements come on it.
        ensures needed { IsTrue result → pressed ≡ true }
        ensures connected { IsTrue result → self.now.waits ≢ None }
        ensures under { IsTrue result → self.now.is_over ≡ false }

        // Only one that brought a PUBLISH of QoS 1 or 2, and for HOLD_TIME after that at most.
        ensures brought { IsTrue result → (at : ℕ) × ((self.now.brought ≡ Some at) × (now < at + HOLD_TIME)) }
    {
        let Some(at) = self.brought else {
            return false;
        };
        let is_late = now.saturating_sub(at) >= HOLD_TIME;
        pressed && self.waits.is_some() && !self.is_over && !is_late
    }
}
