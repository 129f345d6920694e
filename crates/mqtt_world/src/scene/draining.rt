//! A receiver is drained: rounds of sending, reading and answering, until nothing waits for it (MQTT 5.0, 4.3, 4.4, 4.6).

ghost use Rattle.std.specs.Prelude.{◌≡◌, ℕ, List, Some, IfOk, OnOk};
ghost use Rattle.mqtt_world_laws.specs.receiver.Drains.{copies_left, is_bad_drain, is_none_left, is_over};
ghost use Rattle.mqtt_world_model.specs.model.Tellings.{Telling};
ghost use Rattle.mqtt_world_model.specs.model.World.{Stranger, ask, pump, to_broker, to_end};
ghost use Rattle.mqtt_world.specs.script_laws.Turns.{both_tell};
ghost use Rattle.mqtt_world.specs.scene.Draining.{Drains, GoesOn, all_rounds, answers_all, once, one_round, reads_all};
ghost use Rattle.mqtt_world.specs.scene.Events.{world_of};
ghost use Rattle.mqtt_world.specs.scene.Scenes.{IsPlayable};

use crate::scene::halt::Halt;
use crate::scene::hearing::join;
use crate::scene::scene::Scene;
use mqtt_keep::Keep;
use mqtt_world_ends::peers::Told;
use std::alloc::Global;

/// What an event of a drain told, behind what was told before.
fn add<K: Keep>(told: &mut Told, more: Option<Told>) -> Result<(), Halt<K>>
    ensures { OnOk result ((t : Telling) × (more ≡ Some t) × (told.new ≡ both_tell told.old t)) }
{
    match more {
        Some(more) => join(told, more),
        // (a receiver sends nothing that the broker doesn't take)
        None => Err(Halt::by_memory()),
    }
}

impl<K: Keep> Scene<K> {
    /// Whether no copy waits for a client, or is in flight to it (4.6). Takes no memory.
    fn has_no_copies(&self, client: &str) -> bool
        ensures { (now : ℕ) (ss : List Stranger) → result
            ≡ is_none_left (copies_left client.now (world_of now ss self.now)) }
    {
        match self.engine.queue_len(client) {
            Some(len) => len == 0,
            None => true,
        }
    }

    /// Whether a client is no receiver, or the broker doesn't have its line. Takes no memory.
    fn is_bad_drain(&self, client: &str) -> bool
        ensures { (now : ℕ) (ss : List Stranger) → result
            ≡ is_bad_drain client.now (world_of now ss self.now) }
    {
        match self.clients.stands(client, self.engine.inner()) {
            Some(stands) => !stands,
            None => true,
        }
    }

    /// Whether the drain of a client is over: nothing waits for it, or its line is closed. Takes no memory.
    fn is_over(&self, client: &str) -> bool
        ensures { (now : ℕ) (ss : List Stranger) → result
            ≡ is_over client.now (world_of now ss self.now) }
    {
        self.has_no_copies(client) || self.is_bad_drain(client)
    }

    /// The broker sends what waits for a client (4.4, 4.9).
    fn send(
        &mut self,
        alloc: Global,
        client: &str,
        now: u64,
        told: &mut Told,
    ) -> Result<(), Halt<K>>
        requires { IsPlayable K.Keep self.old }
        ensures { OnOk result (GoesOn K.Keep now (once (ask (pump client.now)))
            self.old told.old told.new self.new) }
    {
        let more = self.ask_pump(alloc, client, now)?;
        add(told, more)
    }

    /// A client reads the first packet under way to it.
    fn read_one(&mut self, alloc: Global, client: &str, told: &mut Told) -> Result<(), Halt<K>>
        requires { IsPlayable K.Keep self.old }
        ensures { OnOk result ((now : ℕ) → GoesOn K.Keep now (once (to_end client.now))
            self.old told.old told.new self.new) }
    {
        let more = self.to_end(alloc, client)?;
        add(told, more)
    }

    /// The broker reads the first packet under way from a client.
    fn answer_one(
        &mut self,
        alloc: Global,
        client: &str,
        now: u64,
        told: &mut Told,
    ) -> Result<(), Halt<K>>
        requires { IsPlayable K.Keep self.old }
        ensures { OnOk result (GoesOn K.Keep now (once (ask (to_broker client.now)))
            self.old told.old told.new self.new) }
    {
        let more = self.ask_packet(alloc, client, false, now)?;
        add(told, more)
    }

    /// A receiver reads all packets that are under way to it.
    fn read_all(&mut self, alloc: Global, client: &str, told: &mut Told) -> Result<(), Halt<K>>
        requires { IsPlayable K.Keep self.old }
        ensures { OnOk result ((now : ℕ) → GoesOn K.Keep now (reads_all client.now)
            self.old told.old told.new self.new) }
    {
        let packets = self.clients.downs(client).unwrap_or(0);
        for _ in 0..packets {
            self.read_one(alloc, client, told)?;
        }
        Ok(())
    }

    /// The broker reads all packets that are under way from a receiver.
    fn answer_all(
        &mut self,
        alloc: Global,
        client: &str,
        now: u64,
        told: &mut Told,
    ) -> Result<(), Halt<K>>
        requires { IsPlayable K.Keep self.old }
        ensures { OnOk result (GoesOn K.Keep now (answers_all client.now)
            self.old told.old told.new self.new) }
    {
        let packets = self.clients.ups(client).unwrap_or(0);
        for _ in 0..packets {
            self.answer_one(alloc, client, now, told)?;
        }
        Ok(())
    }

    /// A round: the broker sends, the receiver reads all that is under way to it, and the broker all that it answers.
    fn round(
        &mut self,
        alloc: Global,
        client: &str,
        now: u64,
        told: &mut Told,
    ) -> Result<(), Halt<K>>
        requires { IsPlayable K.Keep self.old }
        ensures { OnOk result (GoesOn K.Keep now (one_round client.now)
            self.old told.old told.new self.new) }
    {
        self.send(alloc, client, now, told)?;
        self.read_all(alloc, client, told)?;
        self.answer_all(alloc, client, now, told)
    }

    /// Rounds until the drain is over, and how many. A drain of more than a `u32` counts is given up as one for which
    /// memory is wanting.
    fn rounds(
        &mut self,
        alloc: Global,
        client: &str,
        now: u64,
        told: &mut Told,
    ) -> Result<u32, Halt<K>>
        requires { IsPlayable K.Keep self.old }
        ensures { IfOk result (λ rounds. GoesOn K.Keep now (all_rounds client.now rounds)
            self.old told.old told.new self.new) }
    {
        for round in 0..u32::MAX {
            if self.is_over(client) {
                return Ok(round);
            }
            self.round(alloc, client, now, told)?;
        }
        Err(Halt::by_memory())
    }

    /// A receiver whose line stands is drained: what is told, and how many rounds it takes.
    pub fn drain(
        &mut self,
        alloc: Global,
        client: &str,
        now: u64,
    ) -> Result<Option<(Told, u32)>, Halt<K>>
        requires { IsPlayable K.Keep self.old }
        ensures { IfOk result (λ x. Drains K.Keep now client.now self.old x self.new) }
    {
        if self.is_bad_drain(client) {
            return Ok(None);
        }
        let mut told = Told::silent(alloc);
        match self.rounds(alloc, client, now, &mut told) {
            Ok(rounds) => Ok(Some((told, rounds))),
            Err(fault) => {
                drop(told);
                Err(fault)
            }
        }
    }
}
