//! A receiver of a world that runs is drained, and the world keeps that as an event of its script (MQTT 5.0, 4.3, 4.4, 4.6).

ghost use Rattle.std.specs.Prelude.{◌≡◌, ℕ, List, Err, IfErr, IfOk, Some};
ghost use Rattle.mqtt_world_model.specs.model.World.{World as Start};
ghost use Rattle.mqtt_world_ends.specs.declared.peers.told.RunFault.TheVariants as fault;
ghost use Rattle.mqtt_script.specs.declared.event.Event.TheVariants.{Drain};
ghost use Rattle.mqtt_world.specs.scene.Halting.{IsFaultDue, fault_of};
ghost use Rattle.mqtt_world.specs.world.Stages.{IsStanding, PlaysDrain, Staged};
ghost use Rattle.mqtt_world.specs.world.Worlds.{DrainEmpties, HappenDrained, HasCome, HasDelivered, Refuses, TellsBad, over_by, with_stage};
ghost use Rattle.mqtt_world.specs.declared.scene.over.Over.{Over as Why};
ghost use Rattle.mqtt_world.specs.declared.scene.over.Over.TheVariants as over;

use crate::scene::Halt;
use crate::world::stage::Stage;
use crate::world::world::World;
use mqtt_base::Text;
use mqtt_keep::Keep;
use mqtt_script::Event;
use mqtt_world_ends::peers::{RunFault, Told};
use std::alloc::AllocError;
use std::mem;

impl<K: Keep> World<K> {
    /// Makes room for a drain that is to be kept.
    fn make_drain(&mut self, client: &Text) -> Result<Event, AllocError>
        ensures event { IfOk result (λ event. event ≡ Drain client.now) }
        ensures same { self.new ≡ self.old }
    {
        self.events.make_room()?;
        let client = client.clone()?;
        Ok(Event::Drain { client })
    }

    /// A receiver was drained, and that is kept. If there was room, there is now.
    fn keep_drain(
        &mut self,
        stage: Stage<K>,
        event: Event,
        told: Told,
        rounds: u32,
    ) -> Result<u32, RunFault>
        requires standing { IsStanding K.Keep stage }
        ensures drained { (client : List ℕ) (s : Staged K) → event ≡ Drain client
            → PlaysDrain K.Keep client s (Some (told, rounds)) stage
            → IfOk result (λ n. HappenDrained K.Keep client n (with_stage s self.old) self.new) }
        ensures refused { IfErr result (λ f. (f ≡ fault.Memory) × (self.new ≡ over_by over.Memory self.old)) }
        ensures cause { IfErr result (IsFaultDue K.Keep) }
    {
        match self.keep(stage, event, told) {
            Ok(told) => {
                drop(told);
                Ok(rounds)
            }
            Err(fault) => Err(fault),
        }
    }

    /// A receiver is drained on the stage of this world, for which there is room.
    fn play_drain(
        &mut self,
        mut stage: Stage<K>,
        event: Event,
        client: &str,
    ) -> Result<u32, RunFault>
        requires standing { IsStanding K.Keep stage }
        requires is { event ≡ Drain client.now }
        ensures drained { IfOk result (λ n.
            HappenDrained K.Keep client.now n (with_stage stage self.old) self.new) }
        ensures refused { IfErr result (λ f.
            Refuses K.Keep (Drain client.now) f (with_stage stage self.old) self.new) }
        ensures cause { IfErr result (IsFaultDue K.Keep) }
    {
        match stage.drain(client) {
            Ok(Some((told, rounds))) => self.keep_drain(stage, event, told, rounds),
            Ok(None) => {
                drop(event);
                Err(self.refuse(stage))
            }
            Err(fault) => {
                drop(stage);
                drop(event);
                Err(self.end(fault))
            }
        }
    }

    /// The same, if room is made first.
    fn drain_on(&mut self, stage: Stage<K>, client: &Text) -> Result<u32, RunFault>
        requires standing { IsStanding K.Keep stage }
        ensures drained { IfOk result (λ n.
            HappenDrained K.Keep client.now n (with_stage stage self.old) self.new) }
        ensures refused { IfErr result (λ f.
            Refuses K.Keep (Drain client.now) f (with_stage stage self.old) self.new) }
        ensures cause { IfErr result (IsFaultDue K.Keep) }
    {
        match self.make_drain(client) {
            Ok(event) => self.play_drain(stage, event, client.as_str()),
            Err(_) => {
                drop(stage);
                Err(self.end_short())
            }
        }
    }

    /// A receiver is drained, which is kept as an event of a script: rounds until nothing waits for it or the broker has
    /// closed its line, and how many. `Memory` (1) and `Store` (2): the world is over; `Memory` also if there are more
    /// rounds than a `u32` counts. `BadEvent` (3): it is no receiver, or the broker doesn't have its line, and nothing
    /// changed; its place is behind the events that are kept.
    pub fn drain(&mut self, client: &Text) -> Result<u32, RunFault>
        ensures drained { IfOk result (λ n. HappenDrained K.Keep client.now n self.old self.new) }
        ensures refused { IfErr result (λ f. Refuses K.Keep (Drain client.now) f self.old self.new) }

        // `Store` has a cause, in this call or in the one that ended the world.
        ensures cause { IfErr result (IsFaultDue K.Keep) }

        // Whatever is asked of a world that is over, it answers why it is.
        ensures over { (o : Why) → self.old.stage ≡ Err o
            → (result ≡ Err (fault_of o)) × (self.new ≡ self.old) }

        // It ends within so many rounds, and then no copy waits for the receiver, or is in flight to it. Those that end in
        // it are the receiver's, and end for a cause of a drain.
        ensures empty { (start : Start) → HasCome K.Keep start self.old
            → IfOk result (λ n. DrainEmpties K.Keep start client.now n self.old self.new) }

        // It is answered as bad exactly if a drain of it is bad where the events before it have led.
        ensures bad { (start : Start) → HasCome K.Keep start self.old
            → TellsBad K.Keep start (Drain client.now) result self.old self.new }

        // All that it keeps is a run of the definitions' world, and exactly-once delivery holds of it, if the device of
        // its store is sound then.
        ensures goes_on { (start : Start) → HasCome K.Keep start self.old → HasCome K.Keep start self.new }
        ensures delivers { (start : Start) → HasCome K.Keep start self.old → HasDelivered K.Keep start self.new }
    {
        match mem::replace(&mut self.stage, Err(Halt::by_memory())) {
            Ok(stage) => self.drain_on(stage, client),
            Err(over) => Err(self.end(over)),
        }
    }
}
