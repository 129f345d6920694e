//! What may be looked at of the ends (MQTT 5.0, 4.2, 4.3).

ghost use Rattle.std.specs.Prelude.{◌≡◌, is_some, length, option_map, vec_items, IfOk, Some};
ghost use Rattle.mqtt_world_model.specs.model.Lines.{stands};
ghost use Rattle.mqtt_world_model.specs.model.Tellings.{done_by, handed_by};
ghost use Rattle.mqtt_world_model.specs.model.World.{Setting, World, call_of, is_end, link_of, may_ask, publisher_named};
ghost use Rattle.mqtt_world_model.specs.model.World.{receiver_named, view_of};
ghost use Rattle.mqtt_world_ends.specs.peers.Lines as peers;
ghost use Rattle.mqtt_world.specs.clients.Ends.{in_world, input_of, reading};

use crate::clients::clients::Clients;
use crate::clients::telling::stands;
use crate::clients::{publishers, receivers};
use mqtt_broker::stored::Engine;
use mqtt_keep::Keep;
use mqtt_packet::Packet;
use mqtt_world_ends::peers::Link;
use std::alloc::{AllocError, Global};

impl Clients {
    /// Whether an end has the name. Takes no memory.
    pub fn is_end(&self, client: &str) -> bool
        ensures { (w : World) → result ≡ is_end client.now (in_world self.now w) }
    {
        publishers::has(&self.publishers, client) || receivers::has(&self.receivers, client)
    }

    /// Whether a publisher has the name. Takes no memory.
    pub fn has_publisher(&self, client: &str) -> bool
        ensures { (w : World) → result ≡ is_some (publisher_named client.now (in_world self.now w)) }
    {
        publishers::has(&self.publishers, client)
    }

    /// How far an end has come with its line. Takes no memory.
    pub fn link_of(&self, client: &str) -> Option<Link>
        ensures { (w : World) → option_map peers.link_of result ≡ link_of client.now (in_world self.now w) }
    {
        if let Some(publisher) = publishers::named(&self.publishers, client) {
            return Some(publisher.line.link());
        }
        match receivers::named(&self.receivers, client) {
            Some(receiver) => Some(receiver.line.link()),
            None => None,
        }
    }

    /// Whether a receiver may send SUBSCRIBE: it read its CONNACK, and no SUBSCRIBE waits for its SUBACK. Takes no
    /// memory.
    pub fn may_ask(&self, client: &str) -> bool
        ensures { (w : World) → result ≡ may_ask (receiver_named client.now (in_world self.now w)) }
    {
        match receivers::named(&self.receivers, client) {
            Some(receiver) => receivers::may_ask(receiver),
            None => false,
        }
    }

    /// The broker's number of an end's line. Takes no memory.
    pub fn number(&self, client: &str) -> Option<u64>
        ensures { (w : World) → result ≡ (view_of client.now (in_world self.now w)).number }
    {
        if let Some(publisher) = publishers::named(&self.publishers, client) {
            return publisher.line.number();
        }
        match receivers::named(&self.receivers, client) {
            Some(receiver) => receiver.line.number(),
            None => None,
        }
    }

    /// What is asked of the broker when the first packet under way from an end is read, or of the line that it gave
    /// up last: the packet, with its line.
    pub fn front(&self, client: &str, old: bool) -> Result<Option<(u64, Packet)>, AllocError>
        ensures { IfOk result (λ x. (set : Setting) (w : World) → option_map input_of x
            ≡ call_of set (reading old client.now) (in_world self.now w)) }
    {
        if let Some(publisher) = publishers::named(&self.publishers, client) {
            return publishers::front(publisher, old);
        }
        match receivers::named(&self.receivers, client) {
            Some(receiver) => receivers::front(receiver, old),
            None => Ok(None),
        }
    }

    /// Whether the broker still has a receiver's line. None if no receiver has the name. Takes no memory.
    pub fn stands<K: Keep>(&self, client: &str, engine: &Engine<K>) -> Option<bool>
        ensures { (w : World) → result ≡ option_map (λ r. stands r.line.number engine.now.broker)
            (receiver_named client.now (in_world self.now w)) }
    {
        match receivers::named(&self.receivers, client) {
            Some(receiver) => Some(stands(engine, receiver.line.number())),
            None => None,
        }
    }

    /// How many packets are under way to a receiver. None if no receiver has the name. Takes no memory.
    pub fn downs(&self, client: &str) -> Option<usize>
        ensures { (w : World) → result ≡ option_map (λ r. length r.line.down)
            (receiver_named client.now (in_world self.now w)) }
    {
        match receivers::named(&self.receivers, client) {
            Some(receiver) => Some(receiver.line.down_len()),
            None => None,
        }
    }

    /// How many packets are under way from a receiver. None if no receiver has the name. Takes no memory.
    pub fn ups(&self, client: &str) -> Option<usize>
        ensures { (w : World) → result ≡ option_map (λ r. length r.line.up)
            (receiver_named client.now (in_world self.now w)) }
    {
        match receivers::named(&self.receivers, client) {
            Some(receiver) => Some(receiver.line.up_len()),
            None => None,
        }
    }

    /// How many messages of a publisher were completed (4.3.2, 4.3.3). None if no publisher has the name. Takes no
    /// memory.
    pub fn done(&self, client: &str) -> Option<u64>
        ensures { (w : World) → result ≡ option_map (λ p. done_by (Some p))
            (publisher_named client.now (in_world self.now w)) }
    {
        match publishers::named(&self.publishers, client) {
            Some(publisher) => Some(publisher.done()),
            None => None,
        }
    }

    /// The publications of the copies of QoS 2 that a receiver was handed, in order (4.3.3). None if no receiver has
    /// the name.
    pub fn handed(&self, alloc: Global, client: &str) -> Result<Option<Vec<u64>>, AllocError>
        ensures { IfOk result (λ x. (w : World) → option_map vec_items x ≡ option_map (λ r. handed_by (Some r))
            (receiver_named client.now (in_world self.now w))) }
    {
        match receivers::named(&self.receivers, client) {
            Some(receiver) => Ok(Some(receiver.handed(alloc)?)),
            None => Ok(None),
        }
    }
}
