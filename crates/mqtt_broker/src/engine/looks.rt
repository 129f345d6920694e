//! What may be looked at between the calls of a broker: its numbers, its sessions' queues and its lines (MQTT 5.0, 4.1, 4.6).
ghost use Rattle.std.specs.Prelude.{◌≡◌, is_some, length, option_map};
ghost use Rattle.mqtt_rules.specs.step.State.{line_at, session_named};
ghost use Rattle.mqtt_rules.specs.step.Step.{can_link};
ghost use Rattle.mqtt_broker.specs.engine.Looks.{queue_on_line};

use crate::engine::engine::Engine;
use crate::stored::copies_on;
use mqtt_keep::Keep;

impl<K: Keep> Engine<K> {
    /// Whether a line is linked. Takes no memory.
    pub fn is_linked(&self, line: u64) -> bool
        ensures { result ≡ is_some (line_at line self.now.running.broker) }
    {
        self.inner.is_linked(line)
    }

    /// Whether a further line may be linked: there is room for it, and fewer than 2^62 were linked (ours). Takes no memory.
    #[tactic(auto, using(crate::proofs::engine_lemmas::Looked::links_same))]
    pub fn may_link(&self) -> bool
        ensures { result ≡ can_link self.now.running.limits self.now.running.broker }
    {
        self.inner.step().may_link()
    }

    /// How many copies wait for the session of a client identifier, or are in flight to it; None if no session has
    /// it. Takes no memory.
    pub fn queue_len(&self, client: &str) -> Option<usize>
        ensures { result ≡ option_map (λ s. length s.queue)
            (session_named client.now self.now.running.broker.records) }
    {
        match self.inner.step().session_named(client) {
            Some(session) => Some(session.queue.len()),
            None => None,
        }
    }

    /// How many copies wait for the session that is connected on a line, or are in flight to it; None if the line is not
    /// linked, or no session is connected on it. Takes no memory.
    pub fn queue_on(&self, line: u64) -> Option<usize>
        ensures { result ≡ queue_on_line line self.now.running.broker }
    {
        copies_on(self.inner.step(), line)
    }

    /// How many sessions stand. Takes no memory.
    #[tactic(auto, using(crate::proofs::engine_lemmas::Looked::sessions_long))]
    pub fn sessions_len(&self) -> usize
        ensures { result ≡ length self.now.running.broker.records.sessions }
    {
        self.inner.step().sessions_len()
    }

    /// The number of the last session that began: from 1, in the order in which they did. Takes no memory.
    #[tactic(auto, using(crate::proofs::engine_lemmas::Looked::births_same))]
    pub fn births(&self) -> u64
        ensures { result ≡ self.now.running.broker.records.births }
    {
        self.inner.step().births()
    }

    /// The number of the last publication that was accepted: from 1, in the order in which they were. Takes no memory.
    #[tactic(auto, using(crate::proofs::engine_lemmas::Looked::publications_same))]
    pub fn publications(&self) -> u64
        ensures { result ≡ self.now.running.broker.records.publications }
    {
        self.inner.step().publications()
    }
}
