//! A broker is opened over a store, and closed and opened again (MQTT 5.0, 4.1).

ghost use Rattle.std.specs.Prelude.{IfErr, IfOk, min};
ghost use Rattle.mqtt_base.specs.declared.limits.TheConstants.{LAST_NUMBER};
ghost use Rattle.mqtt_rules.specs.step.Laws.{AreWithin};
ghost use Rattle.mqtt_world.specs.scene.Halting.{IsUnbegun};
ghost use Rattle.mqtt_world.specs.scene.Openings.{Begins, Reopens};
ghost use Rattle.mqtt_world.specs.scene.Scenes.{IsPlayable};

use crate::clients::Clients;
use crate::scene::halt::Halt;
use crate::scene::scene::{Scene, moment};
use mqtt_broker::Engine;
use mqtt_keep::Keep;
use mqtt_rules::Capacity;
use std::alloc::Global;
use std::hash::RandomState;

impl<K: Keep> Scene<K> {
    /// A broker over what a store holds, without ends.
    pub fn open(
        alloc: Global,
        keep: K,
        now: u64,
        limits: Capacity,
        hasher: RandomState,
    ) -> Result<Scene<K>, Halt<K>>
        requires within { AreWithin limits }
        ensures begins { IfOk result (λ scene. Begins K.Keep limits now keep scene) }
        ensures refused { IfErr result (IsUnbegun K.Keep limits (min now LAST_NUMBER) keep) }
    {
        match Engine::with_capacity(alloc, keep, moment(now), limits, hasher) {
            Ok(engine) => Ok(Scene {
                engine,
                clients: Clients::new(alloc),
            }),
            Err(refusal) => Err(Halt::by_opening(refusal)),
        }
    }

    /// The broker is closed, and opened again over what its store holds: no line is left.
    pub fn reopen(
        self,
        alloc: Global,
        now: u64,
        limits: Capacity,
        hasher: RandomState,
    ) -> Result<Scene<K>, Halt<K>>
        requires within { AreWithin limits }
        requires playable { IsPlayable K.Keep self }
        ensures { IfOk result (λ scene. Reopens K.Keep limits now self scene) }
    {
        let Scene {
            engine,
            mut clients,
        } = self;
        match Engine::with_capacity(alloc, engine.close(), moment(now), limits, hasher) {
            Ok(engine) => {
                clients.restart();
                Ok(Scene { engine, clients })
            }
            Err(refusal) => {
                drop(clients);
                Err(Halt::by_opening(refusal))
            }
        }
    }
}
