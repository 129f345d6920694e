//! A world that stands: a broker with its ends, strangers and the moment (MQTT 5.0, 4.1 to 4.4).

ghost use Rattle.std.specs.Prelude.{IfOk, Some};
ghost use Rattle.mqtt_world_model.specs.model.World.{clock, restart};
ghost use Rattle.mqtt_world.specs.world.Stages.{IsStanding, Plays, Restages};

use crate::scene::{Halt, Scene};
use mqtt_broker_looks::decided::later;
use mqtt_keep::Keep;
use mqtt_rules::Capacity;
use mqtt_world_ends::peers::Told;
use mqtt_world_ends::strangers::Strangers;
use std::alloc::Global;
use std::hash::RandomState;
use std::marker::Model;

/// A broker with its ends, strangers and the moment, and what it is opened with again. After a call that is refused it
/// is good for nothing more.
#[derive(Drop)]
pub(crate) struct Stage<K: Keep> {
    pub(crate) scene: Scene<K>,
    pub(crate) strangers: Strangers,
    pub(crate) now: u64,
    pub(crate) limits: Capacity,
    pub(crate) hasher: RandomState,
    pub(crate) alloc: Global,
}

impl<K: Keep> Model for Stage<K> {
    ghost use Rattle.mqtt_world.specs.world.Stages.{Staged};

    ghost Value = { Staged K };

    ghost view = { λ s. record { played = s.scene; strangers = s.strangers; now = s.now; limits = s.limits } };
}

impl<K: Keep> Stage<K> {
    /// The broker is opened again on what is stored: no line is left, of an end or of a stranger.
    pub(crate) fn restart(self) -> Result<(Stage<K>, Option<Told>), Halt<K>>
        requires { IsStanding K.Keep self }
        ensures opened { IfOk result (λ x. Restages K.Keep self x.1 x.0) }
        ensures played { IfOk result (λ x. Plays K.Keep restart self x.1 x.0) }
    {
        let Stage {
            scene,
            mut strangers,
            now,
            limits,
            hasher,
            alloc,
        } = self;
        match scene.reopen(alloc, now, limits, hasher) {
            Ok(scene) => {
                strangers.restart();
                let stage = Stage {
                    scene,
                    strangers,
                    now,
                    limits,
                    hasher,
                    alloc,
                };
                Ok((stage, Some(Told::silent(alloc))))
            }
            Err(fault) => {
                drop(strangers);
                Err(fault)
            }
        }
    }

    /// Time passes: milliseconds. A sum above 2^62 is taken as 2^62.
    pub(crate) fn clock(&mut self, wait: u64) -> Told
        requires { IsStanding K.Keep self.old }
        ensures { Plays K.Keep (clock wait) self.old (Some result) self.new }
    {
        self.now = later(self.now, wait);
        Told::silent(self.alloc)
    }
}
