//! Retained messages, by topic (MQTT 5.0, 3.3.1.3).
ghost use Rattle.std.specs.Prelude.{◌≡◌, ◌+◌, ◌<◌, ◌≤◌, ◌&&◌, true, not, nat_lt, length, [], map, IfErr, IfOk, OnErr, OnOk};
ghost use Rattle.mqtt_topic.specs.names.Filters.{matching_part_of};
ghost use Rattle.mqtt_routes.specs.routing.Retained.{has_topic, has_place, keep, forget, kept_for, RefusesKeep};

use crate::routing::fault::RoutesFault;
use crate::routing::slot::Slot;
use indexmap::IndexSet;
use mqtt_topic::{SubFilter, TopicName};
use std::alloc::Global;
use std::hash::RandomState;
use std::marker::Model;

/// The retained message of a topic.
#[derive(Drop)]
pub struct Kept<M> {
    /// The topic.
    pub topic: TopicName,
    /// What is retained.
    pub message: M,
}

/// The retained messages, in the order in which their topics were first retained.
#[derive(Drop)]
pub(crate) struct KeptTable<M> {
    alloc: Global,
    /// How many topics can have a message.
    limit: usize,
    slots: IndexSet<Slot<M>, RandomState>,
}

impl<M> Model for KeptTable<M> {
    ghost use Rattle.std.specs.Prelude.{◌≤◌, length};
    ghost use Rattle.indexmap.specs.IndexSet.{spare};
    ghost use Rattle.mqtt_routes.specs.routing.Retained.{KeptMessages};

    ghost Value = { KeptMessages M };

    ghost view = { λ r. record { messages = r.slots.keys; limit = r.limit; room = spare r.slots } };

    ghost invariant = { λ r. length r.slots.keys ≤ r.limit };
}

impl<M: Drop> KeptTable<M> {
    /// No message yet, of at most so many topics.
    pub(crate) fn new(alloc: Global, hasher: RandomState, limit: usize) -> KeptTable<M>
        ensures messages { result.messages ≡ [] }
        ensures limit { result.limit ≡ limit }
    {
        KeptTable {
            alloc,
            limit,
            slots: IndexSet::with_hasher(alloc, hasher),
        }
    }

    /// Whether no message of a topic can be kept: it has none, and `limit` others have.
    fn is_full(&self, topic: &str) -> bool
        ensures { result
            ≡ (not (nat_lt (length self.now.messages) self.now.limit)
            && not (has_topic topic.now self.now.messages)) }
    {
        self.slots.len() >= self.limit && !self.slots.contains(topic)
    }

    /// Makes room for messages of so many topics.
    pub(crate) fn make_room(&mut self, count: usize) -> Result<(), RoutesFault>
        ensures same { self.new.messages ≡ self.old.messages }
        ensures limit { self.new.limit ≡ self.old.limit }
        ensures ok { OnOk result (count ≤ self.new.room) }
        ensures fault { IfErr result (λ fault. fault ≡ RoutesFault.Memory) }
        ensures memory { OnErr result (self.old.room < count) }
    {
        Ok(self.slots.reserve(count)?)
    }

    /// Keeps a message in place of its topic's.
    pub(crate) fn keep(&mut self, topic: TopicName, message: M) -> Result<(), RoutesFault>
        ensures ok { OnOk result (self.new.messages ≡ keep topic message self.old.messages) }
        ensures only { OnOk result (has_place self.old.limit topic self.old.messages ≡ true) }
        ensures err { OnErr result (self.new.messages ≡ self.old.messages) }
        ensures refused { IfErr result (RefusesKeep self.old.limit topic self.old.messages) }
        ensures limit { self.new.limit ≡ self.old.limit }
        ensures memory { 0 < self.old.room → IfErr result (λ fault. fault ≡ RoutesFault.Full) }
        ensures room { self.old.room ≤ self.new.room + 1 }
    {
        if self.is_full(topic.as_str()) {
            return Err(RoutesFault::Full);
        }
        let kept = Kept { topic, message };
        self.slots.replace(Slot { kept })?;
        Ok(())
    }

    /// Removes a topic's message, if there is one. Takes no memory.
    pub(crate) fn forget(&mut self, topic: &str)
        ensures after { self.new.messages ≡ forget topic.now self.old.messages }
        ensures limit { self.new.limit ≡ self.old.limit }
        ensures room { self.old.room ≤ self.new.room }
    {
        self.slots.shift_remove(topic);
    }

    /// The messages that a filter matches, in order.
    pub(crate) fn kept_for(&self, filter: &SubFilter) -> Result<Vec<&Kept<M>>, RoutesFault>
        ensures kept { IfOk result (λ found. map (λ k. k.now) found.items
            ≡ kept_for (matching_part_of filter.now) self.now.messages) }
        ensures fault { IfErr result (λ fault. fault ≡ RoutesFault.Memory) }
    {
        let mut found = Vec::new(self.alloc);
        for slot in self.slots.as_slice() {
            if filter.matches(&slot.kept.topic) {
                found.push(&slot.kept)?;
            }
        }
        Ok(found)
    }
}
