//! How ends come to be, and what they do while the broker is asked for nothing (MQTT 5.0, 3.1.3.1, 3.3, 3.8, 4.4).
ghost use Rattle.std.specs.Prelude.{◌≡◌, ℕ, true, List, IfOk};
ghost use Rattle.mqtt_world_model.specs.model.World.{Stranger, are_aliases, give_up, is_bad, is_bad_name, is_window, publish};
ghost use Rattle.mqtt_world_model.specs.model.World.{publisher, receiver, subscribe, to_end};
ghost use Rattle.mqtt_world_ends.specs.peers.Publishers.{draft_of};
ghost use Rattle.mqtt_world_ends.specs.peers.Receivers.{wish_of};
ghost use Rattle.mqtt_world.specs.scene.Events.{Does, world_of};
ghost use Rattle.mqtt_world.specs.scene.Scenes.{IsPlayable};

use crate::scene::asks::has_line;
use crate::scene::halt::Halt;
use crate::scene::scene::Scene;
use mqtt_base::{CLIENT_LIMIT, Text};
use mqtt_keep::Keep;
use mqtt_script::{Draft, Wish};
use mqtt_world_ends::peers::{Told, is_message, is_wish};
use std::alloc::{AllocError, Global};

/// A name that is not one's own, or that the broker would not take (3.1.3.1). That it is a text is known by its type.
/// Takes no memory.
fn is_bad_name(client: &Text) -> bool
    ensures { result ≡ is_bad_name client.now }
{
    let client = client.as_str();
    client.is_empty() || client.len() > CLIENT_LIMIT || client.as_bytes().starts_with(b"auto-")
}

/// Whether it may be a Receive Maximum (3.1.2.11.3). Takes no memory.
fn is_window(window: u16) -> bool
    ensures { result ≡ is_window window }
{
    window > 0
}

impl<K: Keep> Scene<K> {
    fn is_bad_publisher(&self, client: &Text) -> bool
        ensures { (now : ℕ) (ss : List Stranger) → result
            ≡ is_bad (publisher client.now) (world_of now ss self.now) }
    {
        is_bad_name(client) || self.clients.is_end(client.as_str())
    }

    /// Whatever its Topic Alias Maximum is: each number of two bytes may be one (3.1.2.11.5).
    fn is_bad_receiver(&self, client: &Text, window: u16) -> bool
        ensures { (aliases now : ℕ) (ss : List Stranger) → are_aliases aliases ≡ true → result
            ≡ is_bad (receiver client.now window aliases) (world_of now ss self.now) }
    {
        self.is_bad_publisher(client) || !is_window(window)
    }

    fn is_bad_publish(&self, client: &str, draft: &Draft) -> Result<bool, AllocError>
        ensures { IfOk result (λ bad. (now : ℕ) (ss : List Stranger) → bad
            ≡ is_bad (publish client.now (draft_of draft.now)) (world_of now ss self.now)) }
    {
        Ok(!self.clients.has_publisher(client) || !is_message(draft)?)
    }

    fn is_bad_subscribe(&self, alloc: Global, client: &str, wish: &Wish) -> Result<bool, AllocError>
        ensures { IfOk result (λ bad. (now : ℕ) (ss : List Stranger) → bad
            ≡ is_bad (subscribe client.now (wish_of wish.now)) (world_of now ss self.now)) }
    {
        Ok(!self.clients.may_ask(client) || !is_wish(alloc, wish)?)
    }

    /// A publisher is made, if no end has the name.
    pub(crate) fn make_publisher(
        &mut self,
        alloc: Global,
        client: &Text,
    ) -> Result<Option<Told>, Halt<K>>
        requires { IsPlayable K.Keep self.old }
        ensures { IfOk result (λ t. (now : ℕ) → Does K.Keep now (publisher client.now) self.old t self.new) }
    {
        if self.is_bad_publisher(client) {
            return Ok(None);
        }
        let client = client.clone()?;
        self.clients.add_publisher(client)?;
        Ok(Some(Told::silent(alloc)))
    }

    /// A receiver is made, if no end has the name. `window` is its Receive Maximum (3.1.2.11.3), `aliases` its
    /// Topic Alias Maximum (3.1.2.11.5).
    pub(crate) fn make_receiver(
        &mut self,
        alloc: Global,
        client: &Text,
        window: u16,
        aliases: u16,
    ) -> Result<Option<Told>, Halt<K>>
        requires { IsPlayable K.Keep self.old }
        ensures { IfOk result (λ t. (now : ℕ) → Does K.Keep now (receiver client.now window aliases) self.old t self.new) }
    {
        if self.is_bad_receiver(client, window) {
            return Ok(None);
        }
        let client = client.clone()?;
        self.clients
            .add_receiver(client, window, aliases, self.engine.births())?;
        Ok(Some(Told::silent(alloc)))
    }

    /// An end leaves its line, if it has one, and the broker may still read what is under way there. Takes no memory.
    pub(crate) fn give_up(&mut self, alloc: Global, client: &str) -> Option<Told>
        requires { IsPlayable K.Keep self.old }
        ensures { (now : ℕ) → Does K.Keep now (give_up client.now) self.old result self.new }
    {
        if !has_line(self.clients.link_of(client)) {
            return None;
        }
        self.clients.give_up(client);
        Some(Told::silent(alloc))
    }

    /// A publisher has a new message, if the broker would take it (3.3).
    pub(crate) fn publish(
        &mut self,
        alloc: Global,
        client: &str,
        draft: &Draft,
    ) -> Result<Option<Told>, Halt<K>>
        requires { IsPlayable K.Keep self.old }
        ensures { IfOk result (λ t. (now : ℕ)
            → Does K.Keep now (publish client.now (draft_of draft.now)) self.old t self.new) }
    {
        if self.is_bad_publish(client, draft)? {
            return Ok(None);
        }
        self.clients.publish(client, draft, self.engine.inner())?;
        Ok(Some(Told::silent(alloc)))
    }

    /// A receiver sends SUBSCRIBE, if it may and the broker would take it (3.8).
    pub(crate) fn subscribe(
        &mut self,
        alloc: Global,
        client: &str,
        wish: &Wish,
    ) -> Result<Option<Told>, Halt<K>>
        requires { IsPlayable K.Keep self.old }
        ensures { IfOk result (λ t. (now : ℕ)
            → Does K.Keep now (subscribe client.now (wish_of wish.now)) self.old t self.new) }
    {
        if self.is_bad_subscribe(alloc, client, wish)? {
            return Ok(None);
        }
        self.clients.subscribe(client, wish, self.engine.inner())?;
        Ok(Some(Told::silent(alloc)))
    }

    /// An end reads the first packet under way to it.
    pub(crate) fn to_end(&mut self, alloc: Global, client: &str) -> Result<Option<Told>, Halt<K>>
        requires { IsPlayable K.Keep self.old }
        ensures { IfOk result (λ t. (now : ℕ) → Does K.Keep now (to_end client.now) self.old t self.new) }
    {
        if !self.clients.is_end(client) {
            return Ok(None);
        }
        self.clients.read(client, self.engine.inner())?;
        Ok(Some(Told::silent(alloc)))
    }
}
