//! A world that runs: a broker over a store, with ends and strangers, and the events that happened in it (MQTT 5.0, 4.1 to
//! 4.4).

ghost use Rattle.std.specs.Prelude.{◌≡◌, [], ◌∷◌, ◌++◌, length, Err, IfErr, IfOk, Ok, OnOk};
ghost use Rattle.mqtt_rules.specs.step.Laws.{AreWithin, unasked};
ghost use Rattle.mqtt_world_model.specs.model.Tellings.{Telling};
ghost use Rattle.mqtt_world_model.specs.model.World.{World as Start};
ghost use Rattle.mqtt_world_ends.specs.declared.peers.told.RunFault.TheVariants as fault;
ghost use Rattle.mqtt_world.specs.scene.Halting.{IsFaultDue, IsNoStart, fault_of};
ghost use Rattle.mqtt_world.specs.world.Stages.{IsStanding, Staged};
ghost use Rattle.mqtt_world.specs.world.Worlds.{Happen, HasCome, HasDelivered, Performs, Refuses, Starts, Stops, TellsBad, TellsFirstBad, over_by, with_stage};
ghost use Rattle.mqtt_world.specs.declared.scene.over.Over.{Over as Why};
ghost use Rattle.mqtt_world.specs.declared.scene.over.Over.TheVariants as over;

use crate::scene::{Halt, Scene};
use crate::world::kept::Kept;
use crate::world::stage::Stage;
use mqtt_base::LINES_UNASKED;
use mqtt_keep::Keep;
use mqtt_rules::{Capacity, Limits};
use mqtt_script::Event;
use mqtt_world_ends::peers::{RunFault, Told};
use mqtt_world_ends::strangers::Strangers;
use std::alloc::{AllocError, Global};
use std::hash::RandomState;
use std::marker::Model;
use std::mem;

/// A world: what stands in it, or why it is over, and the events that happened in it, all of which it keeps.
pub struct World<K: Keep> {
    pub(crate) alloc: Global,
    pub(crate) stage: Result<Stage<K>, Halt<K>>,
    pub(crate) events: Kept,
}

impl<K: Keep> Model for World<K> {
    ghost use Rattle.std.specs.Prelude.{IfOk};
    ghost use Rattle.mqtt_world.specs.world.Stages.{IsStanding};
    ghost use Rattle.mqtt_world.specs.world.Worlds.{Lasting};

    ghost Value = { Lasting K };

    ghost view = { λ w. record { stage = w.stage; events = w.events } };

    // What stands can go on.
    ghost invariant = { λ w. IfOk w.stage (λ s. IsStanding K.Keep s) };
}

// Written out, so that who lets a world go needs no proof of its own for each type in it.
impl<K: Keep> Drop for World<K> {
    fn drop(self) {
        let World {
            alloc: _,
            stage,
            events,
        } = self;
        drop(stage);
        drop(events);
    }
}

impl<K: Keep> World<K> {
    /// The broker is opened over what a store holds, at moment 0, and there are no ends or strangers (4.1). `Memory` (1):
    /// want of memory, 1 of the store's errors. `Store` (2): any other of them, 2 to 5: the store failed, or holds what no
    /// broker begins with.
    pub fn new(
        alloc: Global,
        keep: K,
        limits: Limits,
        hasher: RandomState,
    ) -> Result<World<K>, RunFault>
        requires within { AreWithin (unasked limits) }
        ensures starts { IfOk result (λ w. Starts K.Keep (unasked limits) keep w) }
        ensures refused { IfErr result (IsNoStart K.Keep (unasked limits) 0 keep) }
    {
        World::with_capacity(alloc, keep, limits.with_lines(LINES_UNASKED), hasher)
    }

    /// The same, whose broker has room for as many lines as are asked for, 1,000 at the most.
    pub fn with_capacity(
        alloc: Global,
        keep: K,
        limits: Capacity,
        hasher: RandomState,
    ) -> Result<World<K>, RunFault>
        requires within { AreWithin limits }
        ensures starts { IfOk result (λ w. Starts K.Keep limits keep w) }
        ensures refused { IfErr result (IsNoStart K.Keep limits 0 keep) }
    {
        match Scene::open(alloc, keep, 0, limits, hasher) {
            Ok(scene) => Ok(World {
                alloc,
                stage: Ok(Stage {
                    scene,
                    strangers: Strangers::new(alloc),
                    now: 0,
                    limits,
                    hasher,
                    alloc,
                }),
                events: Kept::new(alloc),
            }),
            Err(over) => {
                let fault = over.fault();
                drop(over);
                Err(fault)
            }
        }
    }

    /// The world is over from now on, and answers this. Takes no memory.
    pub(crate) fn end(&mut self, over: Halt<K>) -> RunFault
        ensures fault { result ≡ fault_of over }
        ensures over { self.new ≡ over_by over self.old }
        ensures cause { IsFaultDue K.Keep result }
    {
        let fault = over.fault();
        self.stage = Err(over);
        fault
    }

    /// The same for want of memory. Takes none.
    pub(crate) fn end_short(&mut self) -> RunFault
        ensures fault { result ≡ fault.Memory }
        ensures over { self.new ≡ over_by over.Memory self.old }
        ensures cause { IsFaultDue K.Keep result }
    {
        self.end(Halt::by_memory())
    }

    /// Makes room for an event that is to be kept, and copies it.
    fn make_room(&mut self, event: &Event) -> Result<Event, AllocError>
        ensures copy { IfOk result (λ copy. copy ≡ event.now) }
        ensures same { self.new ≡ self.old }
    {
        self.events.make_room()?;
        event.clone()
    }

    /// An event happened, and is kept. If there was room, there is now.
    pub(crate) fn keep(
        &mut self,
        stage: Stage<K>,
        event: Event,
        told: Told,
    ) -> Result<Told, RunFault>
        requires standing { IsStanding K.Keep stage }
        ensures told { IfOk result (λ t. t ≡ told) }
        ensures kept { IfOk result (λ t. self.new
            ≡ record { stage = Ok stage; events = self.old.events ++ event ∷ [] }) }
        ensures refused { IfErr result (λ f. (f ≡ fault.Memory) × (self.new ≡ over_by over.Memory self.old)) }
        ensures cause { IfErr result (IsFaultDue K.Keep) }
    {
        match self.events.push(event) {
            Ok(()) => {
                self.stage = Ok(stage);
                Ok(told)
            }
            Err(_) => {
                drop(stage);
                drop(told);
                Err(self.end_short())
            }
        }
    }

    /// An event can't happen, and what stands goes on. Takes no memory.
    pub(crate) fn refuse(&mut self, stage: Stage<K>) -> RunFault
        requires standing { IsStanding K.Keep stage }
        ensures fault { result ≡ fault.BadEvent (length self.old.events) }
        ensures goes_on { self.new ≡ with_stage stage self.old }
        ensures cause { IsFaultDue K.Keep result }
    {
        self.stage = Ok(stage);
        RunFault::BadEvent {
            place: self.events.len(),
        }
    }

    /// What came of an event leaves this stage.
    fn settle(
        &mut self,
        stage: Stage<K>,
        event: Event,
        told: Option<Told>,
    ) -> Result<Told, RunFault>
        requires standing { IsStanding K.Keep stage }
        ensures happened { (s : Staged K) → Performs K.Keep event s told stage
            → IfOk result (λ t. Happen K.Keep (event ∷ []) (t ∷ []) (with_stage s self.old) self.new) }
        ensures refused { (s : Staged K) → Performs K.Keep event s told stage
            → IfErr result (λ f. Refuses K.Keep event f (with_stage s self.old) self.new) }
        ensures cause { IfErr result (IsFaultDue K.Keep) }
    {
        match told {
            Some(told) => self.keep(stage, event, told),
            None => {
                drop(event);
                Err(self.refuse(stage))
            }
        }
    }

    /// An event happens on the stage of this world, for which there is room.
    fn play(&mut self, stage: Stage<K>, event: Event) -> Result<Told, RunFault>
        requires standing { IsStanding K.Keep stage }
        ensures happened { IfOk result (λ t.
            Happen K.Keep (event ∷ []) (t ∷ []) (with_stage stage self.old) self.new) }
        ensures refused { IfErr result (λ f. Refuses K.Keep event f (with_stage stage self.old) self.new) }
        ensures cause { IfErr result (IsFaultDue K.Keep) }
    {
        match stage.happen(&event) {
            Ok((stage, told)) => self.settle(stage, event, told),
            Err(fault) => {
                drop(event);
                Err(self.end(fault))
            }
        }
    }

    /// The same, if room is made first.
    fn go_on(&mut self, stage: Stage<K>, event: &Event) -> Result<Told, RunFault>
        requires standing { IsStanding K.Keep stage }
        ensures happened { IfOk result (λ t.
            Happen K.Keep (event.now ∷ []) (t ∷ []) (with_stage stage self.old) self.new) }
        ensures refused { IfErr result (λ f.
            Refuses K.Keep event.now f (with_stage stage self.old) self.new) }
        ensures cause { IfErr result (IsFaultDue K.Keep) }
    {
        match self.make_room(event) {
            Ok(event) => self.play(stage, event),
            Err(_) => {
                drop(stage);
                Err(self.end_short())
            }
        }
    }

    /// An event happens, and is kept; this is told of it. `Memory` (1) and `Store` (2): it did not happen, and the world is
    /// over. `BadEvent` (3): it can't happen there, and nothing changed; its place is behind the events that are kept.
    pub fn happen(&mut self, event: &Event) -> Result<Told, RunFault>
        ensures happened { IfOk result (λ t. Happen K.Keep (event.now ∷ []) (t ∷ []) self.old self.new) }
        ensures refused { IfErr result (λ f. Refuses K.Keep event.now f self.old self.new) }

        // `Store` has a cause, in this call or in the one that ended the world: over a store that never failed, that a
        // broker's numbers are spent, or its records are none that a broker begins with.
        ensures cause { IfErr result (IsFaultDue K.Keep) }

        // Whatever is asked of a world that is over, it answers why it is.
        ensures over { (o : Why) → self.old.stage ≡ Err o
            → (result ≡ Err (fault_of o)) × (self.new ≡ self.old) }

        // It is answered as bad exactly if it is bad where those before it have led, by the definitions alone.
        ensures bad { (start : Start) → HasCome K.Keep start self.old
            → TellsBad K.Keep start event.now result self.old self.new }

        // All that it keeps is a run of the definitions' world, and exactly-once delivery holds of it, if the device of
        // its store is sound then.
        ensures goes_on { (start : Start) → HasCome K.Keep start self.old → HasCome K.Keep start self.new }
        ensures delivers { (start : Start) → HasCome K.Keep start self.old → HasDelivered K.Keep start self.new }
    {
        match mem::replace(&mut self.stage, Err(Halt::by_memory())) {
            Ok(stage) => self.go_on(stage, event),
            Err(over) => Err(self.end(over)),
        }
    }

    /// An event happens, and what it tells is added, for which room is made first.
    fn run_one(&mut self, tells: &mut Vec<Told>, event: &Event) -> Result<(), RunFault>
        ensures happened { OnOk result ((t : Telling) × (tells.new.items ≡ tells.old.items ++ t ∷ [])
            × Happen K.Keep (event.now ∷ []) (t ∷ []) self.old self.new) }
        ensures refused { IfErr result (λ f. Refuses K.Keep event.now f self.old self.new) }
        ensures cause { IfErr result (IsFaultDue K.Keep) }
    {
        if tells.reserve(1).is_err() {
            return Err(self.end_short());
        }
        let told = self.happen(event)?;
        tells.push_reserved(told);
        Ok(())
    }

    /// Events happen, one after the other, and what each tells is added.
    fn run_all(&mut self, tells: &mut Vec<Told>, events: &[Event]) -> Result<(), RunFault>
        requires stands { (s : Staged K) × (self.old.stage ≡ Ok s) }
        requires none { tells.old.items ≡ [] }
        ensures happened { OnOk result (Happen K.Keep events.now tells.new.items self.old self.new) }
        ensures refused { IfErr result (λ f. Stops K.Keep events.now f self.old self.new) }
        ensures cause { IfErr result (IsFaultDue K.Keep) }
    {
        let mut rest = events;
        while let Some((first, after)) = rest.split_first() {
            self.run_one(tells, first)?;
            rest = after;
        }
        Ok(())
    }

    /// Events happen, one after the other, and this is told of each. An event that can't happen there is `BadEvent` (3), and
    /// those before it happened; so it is with `Memory` (1) and `Store` (2), and the world is over.
    pub fn run(&mut self, events: &[Event]) -> Result<Vec<Told>, RunFault>
        ensures happened { IfOk result (λ tells. Happen K.Keep events.now tells.items self.old self.new) }
        ensures refused { (s : Staged K) → self.old.stage ≡ Ok s
            → IfErr result (λ f. Stops K.Keep events.now f self.old self.new) }

        // `Store` has a cause, in this call or in the one that ended the world.
        ensures cause { IfErr result (IsFaultDue K.Keep) }

        // Whatever is asked of a world that is over, it answers why it is.
        ensures over { (o : Why) → self.old.stage ≡ Err o
            → (result ≡ Err (fault_of o)) × (self.new ≡ self.old) }

        // They stop at the first that is bad where those before it have led, by the definitions alone.
        ensures bad { (start : Start) → HasCome K.Keep start self.old
            → TellsFirstBad K.Keep start events.now result self.old self.new }

        // All that it keeps is a run of the definitions' world, and exactly-once delivery holds of it, if the device of
        // its store is sound then.
        ensures goes_on { (start : Start) → HasCome K.Keep start self.old → HasCome K.Keep start self.new }
        ensures delivers { (start : Start) → HasCome K.Keep start self.old → HasDelivered K.Keep start self.new }
    {
        if let Err(over) = &self.stage {
            return Err(over.fault());
        }
        let mut tells = Vec::new(self.alloc);
        match self.run_all(&mut tells, events) {
            Ok(()) => Ok(tells),
            Err(fault) => {
                drop(tells);
                Err(fault)
            }
        }
    }
}
