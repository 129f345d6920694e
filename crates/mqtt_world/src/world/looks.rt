//! What is seen of a world: messages of publishers, copies of receivers, and numbers of the broker (MQTT 5.0, 4.1, 4.3).

ghost use Rattle.std.specs.Prelude.{◌≡◌, IfOk, count_by, option_map, vec_items};
ghost use Rattle.mqtt_world.specs.world.Stages.{world_at};
ghost use Rattle.mqtt_world.specs.world.Worlds.{done_in, handed_in, is_publish_of, publications_in, queue_in, seen, sent_in, sessions_in};

use crate::world::stage::Stage;
use crate::world::world::World;
use mqtt_keep::Keep;
use mqtt_script::Event;
use std::alloc::{AllocError, Global};

/// Whether a publisher of this name is given a message. Takes no memory.
fn is_publish_of(event: &Event, client: &str) -> bool
    ensures { result ≡ is_publish_of client.now event.now }
{
    match event {
        Event::Publish { client: name, .. } => name.as_str() == client,
        _ => false,
    }
}

/// How many messages a publisher of this name was given. Takes no memory.
fn published(events: &[Event], client: &str) -> u64
    ensures { result ≡ count_by (is_publish_of client.now) events.now }
{
    events
        .iter()
        .filter(|event| is_publish_of(event, client))
        .count() as u64
}

impl<K: Keep> Stage<K> {
    fn sent(&self, client: &str, events: &[Event]) -> Option<u64>
        ensures { result ≡ sent_in client.now events.now (world_at self.entry.now) }
    {
        if !self.scene.clients.has_publisher(client) {
            return None;
        }
        Some(published(events, client))
    }

    fn done(&self, client: &str) -> Option<u64>
        ensures { result ≡ done_in client.now (world_at self.entry.now) }
    {
        self.scene.clients.done(client)
    }

    fn handed(&self, alloc: Global, client: &str) -> Result<Option<Vec<u64>>, AllocError>
        ensures { IfOk result (λ handed. option_map vec_items handed ≡ handed_in client.now (world_at self.entry.now)) }
    {
        self.scene.clients.handed(alloc, client)
    }

    fn queue(&self, client: &str) -> Option<u64>
        ensures { result ≡ queue_in client.now (world_at self.entry.now) }
    {
        if !self.scene.clients.is_end(client) {
            return None;
        }
        match self.scene.engine.queue_len(client) {
            Some(len) => Some(len as u64),
            None => Some(0),
        }
    }
}

impl<K: Keep> World<K> {
    /// How many messages a publisher was given, of any QoS, whether they went out or not. None if no publisher has the
    /// name, or the world is over. Takes no memory.
    pub fn sent(&self, client: &str) -> Option<u64>
        ensures { result ≡ seen (sent_in client.now self.now.events) self.now }
    {
        match &self.stage {
            Ok(stage) => stage.sent(client, self.events.as_slice()),
            Err(_) => None,
        }
    }

    /// How many messages of a publisher were completed (4.3.2, 4.3.3). None if no publisher has the name, or the world
    /// is over. Takes no memory.
    pub fn done(&self, client: &str) -> Option<u64>
        ensures { result ≡ seen (done_in client.now) self.now }
    {
        match &self.stage {
            Ok(stage) => stage.done(client),
            Err(_) => None,
        }
    }

    /// The publications of the copies of QoS 2 that a receiver was handed, in order (4.3.3). None if no receiver has the
    /// name, or the world is over.
    pub fn handed(&self, alloc: Global, client: &str) -> Result<Option<Vec<u64>>, AllocError>
        ensures { IfOk result (λ handed. option_map vec_items handed ≡ seen (handed_in client.now) self.now) }
    {
        match &self.stage {
            Ok(stage) => stage.handed(alloc, client),
            Err(_) => Ok(None),
        }
    }

    /// How many copies wait for the session of an end, or are in flight to it (4.6). None if no end has the name, or the
    /// world is over. Takes no memory.
    pub fn queue(&self, client: &str) -> Option<u64>
        ensures { result ≡ seen (queue_in client.now) self.now }
    {
        match &self.stage {
            Ok(stage) => stage.queue(client),
            Err(_) => None,
        }
    }

    /// How many publications the broker accepted. None if the world is over. Takes no memory.
    pub fn publications(&self) -> Option<u64>
        ensures { result ≡ seen publications_in self.now }
    {
        match &self.stage {
            Ok(stage) => Some(stage.scene.engine.publications()),
            Err(_) => None,
        }
    }

    /// How many sessions the broker has. None if the world is over. Takes no memory.
    pub fn sessions(&self) -> Option<u64>
        ensures { result ≡ seen sessions_in self.now }
    {
        match &self.stage {
            Ok(stage) => Some(stage.scene.engine.sessions_len() as u64),
            Err(_) => None,
        }
    }
}
