//! What a script asks of the broker at the lines of ends: the first packet of a line is read, a line breaks, what waits is
//! sent, the broker looks at the moment (MQTT 5.0, 4.1, 4.2).
ghost use Rattle.std.specs.Prelude.{◌≡◌, IfOk, Some, option_map, true};
ghost use Rattle.mqtt_rules.specs.step.Step.{Input};
ghost use Rattle.mqtt_world_model.specs.model.World.{Setting, World, ask, break, call_of, has_line, is_end, pump, tick};
ghost use Rattle.mqtt_world.specs.clients.Ends.{in_world, reading};
ghost use Rattle.mqtt_world_ends.specs.peers.Lines.{link_of};
ghost use Rattle.mqtt_world.specs.scene.Events.{Does};
ghost use Rattle.mqtt_world.specs.scene.Scenes.{IsPlayable};

use crate::scene::halt::Halt;
use crate::scene::scene::Scene;
use mqtt_keep::Keep;
use mqtt_packet::Packet;
use mqtt_world_ends::peers::{Link, Told, is_input};
use std::alloc::Global;

/// Whether an end that has come so far with its line has one. Takes no memory.
pub(crate) fn has_line(link: Option<Link>) -> bool
    ensures { result ≡ has_line (option_map link_of link) }
{
    match link {
        Some(Link::Asked | Link::Live) => true,
        Some(Link::Away) | None => false,
    }
}

impl<K: Keep> Scene<K> {
    /// The broker looks at the moment.
    pub(crate) fn ask_tick(&mut self, now: u64) -> Result<Option<Told>, Halt<K>>
        requires { IsPlayable K.Keep self.old }
        ensures { IfOk result (λ t. Does K.Keep now (ask tick) self.old t self.new) }
    {
        let told = self.tick(now)?;
        Ok(Some(told))
    }

    /// What waits for the session of an end is sent (4.4, 4.9).
    pub(crate) fn ask_pump(
        &mut self,
        alloc: Global,
        client: &str,
        now: u64,
    ) -> Result<Option<Told>, Halt<K>>
        requires { IsPlayable K.Keep self.old }
        ensures { IfOk result (λ t. Does K.Keep now (ask (pump client.now)) self.old t self.new) }
    {
        if !self.clients.is_end(client) {
            return Ok(None);
        }
        match self.clients.number(client) {
            Some(line) => {
                let told = self.pump(line, now)?;
                Ok(Some(told))
            }
            None => Ok(Some(Told::silent(alloc))),
        }
    }

    /// The line of an end is lost on both sides.
    pub(crate) fn ask_break(
        &mut self,
        alloc: Global,
        client: &str,
        now: u64,
    ) -> Result<Option<Told>, Halt<K>>
        requires { IsPlayable K.Keep self.old }
        ensures { IfOk result (λ t. Does K.Keep now (ask (break client.now)) self.old t self.new) }
    {
        if !has_line(self.clients.link_of(client)) {
            return Ok(None);
        }
        match self.clients.number(client) {
            Some(line) => {
                let told = self.lose(line, now)?;
                self.clients.leave(client);
                Ok(Some(told))
            }
            None => {
                self.clients.leave(client);
                Ok(Some(Told::silent(alloc)))
            }
        }
    }

    /// The packet in front of an end's line, or of the line that it gave up last, is read, if the broker takes it.
    fn read_packet(
        &mut self,
        client: &str,
        old: bool,
        line: u64,
        packet: &Packet,
        now: u64,
    ) -> Result<Option<Told>, Halt<K>>
        requires playable { IsPlayable K.Keep self.old }
        requires there { (w : World) → is_end client.now (in_world self.old.ends w) ≡ true }
        requires front { (set : Setting) (w : World) → Some (Input line packet.now)
            ≡ call_of set (reading old client.now) (in_world self.old.ends w) }
        ensures { IfOk result (λ t. Does K.Keep now (ask (reading old client.now)) self.old t self.new) }
    {
        if !is_input(packet) {
            return Ok(None);
        }
        self.clients.take(client, old);
        let told = self.input(line, packet, now)?;
        Ok(Some(told))
    }

    /// The first packet under way from an end is read, on its line or on the one that it gave up last.
    pub(crate) fn ask_packet(
        &mut self,
        alloc: Global,
        client: &str,
        old: bool,
        now: u64,
    ) -> Result<Option<Told>, Halt<K>>
        requires { IsPlayable K.Keep self.old }
        ensures { IfOk result (λ t. Does K.Keep now (ask (reading old client.now)) self.old t self.new) }
    {
        if !self.clients.is_end(client) {
            return Ok(None);
        }
        match self.clients.front(client, old)? {
            Some((line, packet)) => {
                let told = self.read_packet(client, old, line, &packet, now);
                drop(packet);
                told
            }
            None => {
                self.clients.take(client, old);
                Ok(Some(Told::silent(alloc)))
            }
        }
    }
}
