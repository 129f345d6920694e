//! The law that each drain of a script empties the queue of its receiver (4.3, 4.4, 4.6).
ghost use Rattle.std.specs.Prelude.{◌≡◌, ℕ, List, false};
ghost use Rattle.mqtt_world_laws.specs.acceptance.Spending.{run_spends};
ghost use Rattle.mqtt_world_model.specs.model.Run.{Turn};
ghost use Rattle.mqtt_world.specs.script_drains.Done.{IsEmptied};
ghost use Rattle.mqtt_world_laws.specs.delivery.Untouched.{IsUntouched};
ghost use Rattle.mqtt_world_model.specs.model.Tellings.{Telling};
ghost use Rattle.mqtt_world_model.specs.model.World.{World};
ghost use Rattle.mqtt_rules.specs.declared.step.Capacity.{Capacity};
ghost use Rattle.mqtt_script.specs.declared.event.Event.{Event};
ghost use Rattle.mqtt_world.specs.script_laws.Cleanly.{ComesFairly, LeaveNone};
ghost use Rattle.mqtt_world.specs.script_laws.Drains.{AreTurnsOfDrain, DrainHappens};

/// From wherever fair turns of a script have come to, a drain that happens empties its receiver's queue, though the broker chooses members
/// of groups anew in each turn of it: it makes no more rounds than twice the copies that stand in the queue at its start or
/// enter in its first round, and one, and the receiver's line stands still after it. Whatever the broker chooses, it comes
/// to the same world, in as many rounds, and tells the same. Each copy that ends in it is one of the receiver's own: taken or
/// expired, ended with its session as a CONNECT of the receiver with Clean Start is read, or dropped as a SUBSCRIBE is, none as
/// too large; and for its cause. So it is in whatever turns a drain comes to (3.1.2.4, 3.1.2.11, 3.3.2.3.3, 4.3, 4.4, 4.6, 4.8.2).
pub fn drains_of_a_script_empty_the_queue()
    ensures empties { (limits : Capacity) (es : List Event) (client : List ℕ) (t : Telling) (w v after : World)
        → IsUntouched limits w → ComesFairly limits es w v → (h : DrainHappens limits client t v after)
        → IsEmptied limits client h.rounds v after }
    ensures one { (limits : Capacity) (es : List Event) (client : List ℕ) (t u : Telling) (w v after other : World)
        → IsUntouched limits w → ComesFairly limits es w v → (h : DrainHappens limits client t v after)
        → (k : DrainHappens limits client u v other) → (after ≡ other) × (h.rounds ≡ k.rounds) × (t ≡ u) }
    ensures leave { (limits : Capacity) (es : List Event) (client : List ℕ) (turns : List Turn) (w v : World)
        → IsUntouched limits w → ComesFairly limits es w v → AreTurnsOfDrain limits client turns v
        → run_spends limits turns v ≡ false → LeaveNone limits client turns v }
{}
