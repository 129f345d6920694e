//! The law of copies that end while they wait (3.3.2.3.3, 4.3.2, 4.3.3).
ghost use Rattle.std.specs.Prelude.{◌++◌, ◌≡◌, All, ℕ, List, Some, filter_map};
ghost use Rattle.mqtt_rules.specs.declared.step.Capacity.{Capacity};
ghost use Rattle.mqtt_world_model.specs.model.Ends.{Receiver};
ghost use Rattle.mqtt_world_model.specs.model.Run.{Turn, after, deeds_over, ended_in, ended_over, run};
ghost use Rattle.mqtt_world_model.specs.model.World.{World, receiver_named, start};
ghost use Rattle.mqtt_world_laws.specs.acceptance.Fair.{IsFair};
ghost use Rattle.mqtt_world_laws.specs.acceptance.Identities.{TellsApart};
ghost use Rattle.mqtt_world_laws.specs.delivery.Untouched.{IsUntouched};
ghost use Rattle.mqtt_world_laws.specs.unsent.Unsent.{IsOver, WasLeftWaiting, WasNeverHanded};

/// Whatever happens, with any number of ends and strangers, lines lost, restarts and stops: each copy that ends as expired
/// or as dropped, in whatever step of the run, is one that no receiver has been handed by the run's end, of QoS 2, nor has
/// read, of QoS 1. So it is with each that leaves its queue while it waits, be it that it is too large or that its session
/// ends: nothing of it was ever under way, and nothing of it is afterwards (3.1.2.4, 3.1.2.11.4, 3.3.2.3.3, 4.3.2, 4.3.3).
pub fn what_was_never_sent_is_never_handed_over()
    ensures ends { (limits : Capacity) (ts : List Turn) (w : World) → IsUntouched limits w → TellsApart w.broker.records
        → IsFair limits ts w → (client : List ℕ) (r : Receiver) → receiver_named client (run limits ts w) ≡ Some r
        → All (WasNeverHanded r) (filter_map ended_in (deeds_over limits ts w)) }
    ensures waiting { (limits : Capacity) (ts : List Turn) (w : World) → IsUntouched limits w → TellsApart w.broker.records
        → IsFair limits ts w → (client : List ℕ) (r : Receiver) → receiver_named client (run limits ts w) ≡ Some r
        → All (WasLeftWaiting r) (deeds_over limits ts w) }

    // From nothing stored, in the words of the run.
    ensures every { (limits : Capacity) (ts : List Turn) → IsFair limits ts start
        → All (λ (r : Receiver). All (WasNeverHanded r) (ended_over limits ts)) (after limits ts).receivers }
{}

/// What has ended is over: of a copy that ended by some moment of a run, for whatever cause, a receiver has at the run's end
/// been handed as much, and read as much, as at that moment. So a copy is read while it stands in its session's queue, and
/// at no other time (4.3.2, 4.3.3, 4.4).
pub fn what_has_ended_is_over()
    ensures over { (limits : Capacity) (xs ys : List Turn) (w : World) → IsUntouched limits w → TellsApart w.broker.records
        → IsFair limits (xs ++ ys) w → (client : List ℕ) (q r : Receiver)
        → receiver_named client (run limits xs w) ≡ Some q → receiver_named client (run limits (xs ++ ys) w) ≡ Some r
        → All (IsOver q r) (filter_map ended_in (deeds_over limits xs w)) }
{}
