//! A broker with the ends that it serves: each call reaches them (MQTT 5.0, 4.1, 4.2).
ghost use Rattle.std.specs.Prelude.{◌≡◌, ◌≤◌, [], Some, min, length, IfOk, OnOk};
ghost use Rattle.mqtt_base.specs.declared.limits.TheConstants.{LAST_NUMBER, PACKET_LIMIT};
ghost use Rattle.mqtt_broker.specs.stored.Calling.{Tells};
ghost use Rattle.mqtt_rules.specs.step.Contents.{IsTaken};
ghost use Rattle.mqtt_rules.specs.step.Piece.{first_call};
ghost use Rattle.mqtt_rules.specs.step.Step.{Call, Input, Lost, NewLine, Outcome as Answer, Pump, Tick};
ghost use Rattle.mqtt_world_model.specs.model.Tellings.{silent};
ghost use Rattle.mqtt_world_model.specs.model.World.{held_after, next_line};
ghost use Rattle.mqtt_world_laws.specs.knowing.Knowing.{AllIsUnderstood};
ghost use Rattle.mqtt_world.specs.clients.Telling.{AreSpelled, ends_told};
ghost use Rattle.mqtt_world.specs.scene.Scenes.{Calls, IsPlayable};

use crate::clients::Clients;
use crate::scene::halt::Halt;
use mqtt_base::LAST_NUMBER;
use mqtt_broker::{Engine, Outcome};
use mqtt_keep::Keep;
use mqtt_packet::Packet;
use mqtt_world_ends::peers::Told;
use std::marker::Model;

/// A broker, and its ends. After a call that is refused it is good for nothing more.
#[derive(Drop)]
pub struct Scene<K: Keep> {
    /// The broker.
    pub engine: Engine<K>,
    /// Its ends.
    pub clients: Clients,
}

impl<K: Keep> Model for Scene<K> {
    ghost use Rattle.mqtt_world.specs.scene.Scenes.{Played};

    ghost Value = { Played K };

    ghost view = { λ s. record { engine = s.engine; ends = s.clients } };
}

/// The moment that the broker is handed: none is later than the last number. Takes no memory.
pub(crate) fn moment(now: u64) -> u64
    ensures { result ≡ min now LAST_NUMBER }
{
    now.min(LAST_NUMBER)
}

/// What a call answered, as an event tells it. Takes no memory.
fn told_by(outcome: Outcome) -> Told
    ensures { (told : Answer) → Tells told outcome
        → result ≡ record { reports = told.reports; out = length told.wires } }
{
    let Outcome {
        outputs,
        closed,
        reports,
        ..
    } = outcome;
    let out = outputs.len() as u64;
    drop(outputs);
    drop(closed);
    Told { reports, out }
}

impl<K: Keep> Scene<K> {
    /// What a call answered reaches the ends.
    fn tell(&mut self, outcome: Outcome) -> Result<Told, Halt<K>>
        ensures same { self.new.engine ≡ self.old.engine }
        ensures ends { (told : Answer) → Tells told outcome → AreSpelled told
            → AllIsUnderstood told self.old.ends.publishers self.old.ends.receivers
            → OnOk result (self.new.ends ≡ ends_told self.old.engine.running.broker told self.old.ends) }
        ensures told { (told : Answer) → Tells told outcome
            → IfOk result (λ t. t ≡ record { reports = told.reports; out = length told.wires }) }
    {
        let reached = self.clients.tell(self.engine.inner(), &outcome);
        let told = told_by(outcome);
        match reached {
            Ok(()) => Ok(told),
            Err(_) => {
                drop(told);
                Err(Halt::by_memory())
            }
        }
    }

    /// A line is linked, and gets the next number, if there is room for it. Takes no memory.
    pub fn link(&mut self, now: u64) -> Option<u64>
        requires { IsPlayable K.Keep self.old }
        ensures line { result ≡ next_line self.old.engine.running.limits self.old.engine.running.broker }
        ensures calls { Calls K.Keep now NewLine self.old silent self.new }
    {
        self.engine.link(moment(now))
    }

    /// What waits for the session of a line is sent (4.6, 4.9).
    pub(crate) fn pump(&mut self, line: u64, now: u64) -> Result<Told, Halt<K>>
        requires { IsPlayable K.Keep self.old }
        ensures { IfOk result (λ t. Calls K.Keep now (Pump line) self.old t self.new) }
    {
        match self.engine.pump(line, moment(now)) {
            Ok(outcome) => self.tell(outcome),
            Err(error) => Err(Halt::by_call(error)),
        }
    }

    /// A line is lost (4.1).
    pub(crate) fn lose(&mut self, line: u64, now: u64) -> Result<Told, Halt<K>>
        requires { IsPlayable K.Keep self.old }
        ensures { IfOk result (λ t. Calls K.Keep now (Lost line) self.old t self.new) }
    {
        match self.engine.lost(line, moment(now)) {
            Ok(outcome) => self.tell(outcome),
            Err(error) => Err(Halt::by_call(error)),
        }
    }

    /// The broker looks at the moment.
    pub(crate) fn tick(&mut self, now: u64) -> Result<Told, Halt<K>>
        requires { IsPlayable K.Keep self.old }
        ensures { IfOk result (λ t. Calls K.Keep now Tick self.old t self.new) }
    {
        match self.engine.tick(moment(now)) {
            Ok(outcome) => self.tell(outcome),
            Err(error) => Err(Halt::by_call(error)),
        }
    }

    /// A packet comes on a line (3, 4).
    pub(crate) fn input(&mut self, line: u64, packet: &Packet, now: u64) -> Result<Told, Halt<K>>
        requires playable { IsPlayable K.Keep self.old }
        requires taken { IsTaken packet.now }
        ensures { IfOk result (λ t. Calls K.Keep now (Input line packet.now) self.old t self.new) }
    {
        match self.engine.input(line, packet, moment(now)) {
            Ok(outcome) => self.tell(outcome),
            Err(error) => Err(Halt::by_call(error)),
        }
    }

    /// Bytes come on a line, which holds none: a packet or a fault, and nothing behind it (2.1, 4.13).
    pub(crate) fn give(&mut self, line: u64, bytes: &[u8], now: u64) -> Result<Told, Halt<K>>
        requires playable { IsPlayable K.Keep self.old }
        requires left { held_after bytes.now ≡ [] }
        requires within { length bytes.now ≤ PACKET_LIMIT }
        ensures { (call : Call) → first_call line bytes.now ≡ Some call
            → IfOk result (λ t. Calls K.Keep now call self.old t self.new) }
    {
        match self.engine.piece(line, bytes, moment(now)) {
            Ok(outcome) => self.tell(outcome),
            Err(error) => Err(Halt::by_call(error)),
        }
    }
}
