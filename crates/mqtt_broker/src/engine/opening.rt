//! A broker is opened over what a store holds (MQTT 5.0, 4.1).
ghost use Rattle.std.specs.Prelude.{◌≡◌, [], IfOk};
ghost use Rattle.mqtt_rules.specs.step.Laws.{AreWithin, unasked};
ghost use Rattle.mqtt_broker.specs.stored.Opening.{Opened};
ghost use Rattle.mqtt_broker.specs.engine.Opening.{running_in};

use crate::engine::engine::Engine;
use crate::engine::framers::Framers;
use crate::stored::open;
use mqtt_base::LINES_UNASKED;
use mqtt_keep::{Keep, KeepError};
use mqtt_rules::{Capacity, Limits};
use std::alloc::Global;
use std::hash::RandomState;

impl<K: Keep> Engine<K> {
    /// A broker over what a store holds, at a moment in milliseconds, with room for 64 lines. Each session that stands connected
    /// is closed, in the order of births (4.1). Filters, which strangers choose, are hashed by `hasher`. A refusal gives the
    /// store back.
    pub fn open(
        alloc: Global,
        keep: K,
        moment: u64,
        limits: Limits,
        hasher: RandomState,
    ) -> Result<Engine<K>, (K, KeepError)>
        requires { AreWithin (unasked limits) }
        ensures opened { Opened K.Keep (unasked limits) moment keep (running_in result) }
        ensures held { IfOk result (λ engine. engine.held ≡ []) }
    {
        Engine::with_capacity(
            alloc,
            keep,
            moment,
            limits.with_lines(LINES_UNASKED),
            hasher,
        )
    }

    /// The same, with room for as many lines as are asked for, 1,000 at the most.
    #[tactic(auto, using(crate::proofs::engine_lemmas::Opened::of_lines_begun))]
    pub fn with_capacity(
        alloc: Global,
        keep: K,
        moment: u64,
        limits: Capacity,
        hasher: RandomState,
    ) -> Result<Engine<K>, (K, KeepError)>
        requires { AreWithin limits }
        ensures opened { Opened K.Keep limits moment keep (running_in result) }
        ensures held { IfOk result (λ engine. engine.held ≡ []) }
    {
        let Ok(framers) = Framers::new(alloc) else {
            return Err((keep, KeepError::Memory));
        };
        match open(alloc, keep, moment, limits, hasher) {
            Ok(inner) => Ok(Engine { inner, framers }),
            Err(refusal) => {
                drop(framers);
                Err(refusal)
            }
        }
    }
}
