//! What ends ask of the broker happens, or is lost if the broker stops before its commit (MQTT 5.0, 4.1).

ghost use Rattle.std.specs.Prelude.{◌≡◌, ℕ, IfOk, List, MatchBool};
ghost use Rattle.mqtt_world_model.specs.model.World.{Stranger, ask};
ghost use Rattle.mqtt_world.specs.clients.Ends.{reading};
ghost use Rattle.mqtt_world.specs.script_laws.Scripted.{IsRefused, asking_of, front_of};
ghost use Rattle.mqtt_world.specs.script_laws.Turns.{IsPlain};
ghost use Rattle.mqtt_world.specs.scene.Events.{Does, world_of};
ghost use Rattle.mqtt_world.specs.scene.Scenes.{IsPlayable};
ghost use Rattle.mqtt_world.specs.scene.Stopping.{TakesOff};

use crate::scene::asks::has_line;
use crate::scene::halt::Halt;
use crate::scene::scene::Scene;
use mqtt_keep::Keep;
use mqtt_script::Asking;
use mqtt_world_ends::peers::{Told, is_input};
use std::alloc::{AllocError, Global};

impl<K: Keep> Scene<K> {
    /// What is asked of the broker, by no stranger, happens.
    pub fn ask(&mut self, alloc: Global, asking: &Asking, now: u64) -> Result<Option<Told>, Halt<K>>
        requires playable { IsPlayable K.Keep self.old }
        requires plain { IsPlain (asking_of asking.now) }
        ensures { IfOk result (λ t. Does K.Keep now (ask (asking_of asking.now)) self.old t self.new) }
    {
        match asking {
            Asking::ToBroker { client, old } => self.ask_packet(alloc, client.as_str(), *old, now),
            Asking::Break { client } => self.ask_break(alloc, client.as_str(), now),
            Asking::Pump { client } => self.ask_pump(alloc, client.as_str(), now),
            Asking::Tick => self.ask_tick(now),
            Asking::Stranger { .. } => Ok(None),
        }
    }

    /// Whether the broker takes the packet in front of an end's line, or of the line that it gave up last, if there is one.
    fn is_front_taken(&self, client: &str, old: bool) -> Result<bool, AllocError>
        ensures { IfOk result (λ is. (now : ℕ) (ss : List Stranger) → MatchBool is
            (¬ IsRefused (front_of (reading old client.now) (world_of now ss self.now)))
            (IsRefused (front_of (reading old client.now) (world_of now ss self.now)))) }
    {
        match self.clients.front(client, old)? {
            Some((_line, packet)) => {
                let is = is_input(&packet);
                drop(packet);
                Ok(is)
            }
            None => Ok(true),
        }
    }

    /// The first packet under way from an end is taken off its line, or off the line that it gave up last, if it may be
    /// read.
    fn take_packet(&mut self, client: &str, old: bool) -> Result<bool, Halt<K>>
        ensures { IfOk result (λ is. TakesOff (reading old client.now) is self.old self.new) }
    {
        if !self.clients.is_end(client) {
            return Ok(false);
        }
        if !self.is_front_taken(client, old)? {
            return Ok(false);
        }
        self.clients.take(client, old);
        Ok(true)
    }

    /// What is asked of the broker, by no stranger, is lost before its commit. False if it can't be asked.
    pub fn take_off(&mut self, asking: &Asking) -> Result<bool, Halt<K>>
        requires { IsPlain (asking_of asking.now) }
        ensures { IfOk result (λ is. TakesOff (asking_of asking.now) is self.old self.new) }
    {
        match asking {
            Asking::ToBroker { client, old } => self.take_packet(client.as_str(), *old),
            Asking::Break { client } => Ok(has_line(self.clients.link_of(client.as_str()))),
            Asking::Pump { client } => Ok(self.clients.is_end(client.as_str())),
            Asking::Tick => Ok(true),
            Asking::Stranger { .. } => Ok(false),
        }
    }
}
