//! The law of every run of the world, for what each receiver was handed by its end, whole (4.3.2, 4.3.3, 4.6).
ghost use Rattle.std.specs.Prelude.{◌++◌, ◌≡◌, All, ℕ, List, Some, filter_map};
ghost use Rattle.mqtt_world_laws.specs.delivery.HandedOnce.{CarriesEach, WasHanded};
ghost use Rattle.mqtt_world_laws.specs.delivery.Untouched.{IsUntouched};
ghost use Rattle.mqtt_world_model.specs.model.Ends.{Receiver};
ghost use Rattle.mqtt_world_model.specs.model.Laws.{AllHandedOnce};
ghost use Rattle.mqtt_world_model.specs.model.Run.{Turn, acceptances_over, deeds_over, ended_in, run};
ghost use Rattle.mqtt_world_model.specs.model.World.{World, receiver_named, start};
ghost use Rattle.mqtt_rules.specs.step.Numbers.{HasAcceptedNumbers};
ghost use Rattle.mqtt_rules.specs.declared.step.Capacity.{Capacity};
ghost use Rattle.mqtt_world_laws.specs.acceptance.Fair.{IsFair};

/// Each receiver was handed its copies once, over every run from nothing stored, in the terms of the copies that entered and
/// ended and of the publications that were accepted in the run: each copy of QoS 2 stands in its ledger at most once, with
/// its publication's topic and payload, in the order in which the copies entered, and exactly once from when the broker took
/// its PUBREC; one that ended as taken was handed over, of QoS 2 once, of QoS 1 at least once; and what was read of QoS 1
/// carries what its publication does (4.3.2, 4.3.3, 4.4, 4.6).
pub fn every_receiver_was_handed_its_copies_once()
    ensures every { (limits : Capacity) (ts : List Turn) → IsFair limits ts start → AllHandedOnce limits ts }

    // From any moment of any run at which a receiver has come: each copy of it that ends as taken by the end of the run, in
    // whatever step, was handed over to it by then.
    ensures taken { (limits : Capacity) (xs ys : List Turn) (w : World) → IsUntouched limits w
        → IsFair limits (xs ++ ys) w → (client : List ℕ) (q r : Receiver)
        → receiver_named client (run limits xs w) ≡ Some q → receiver_named client (run limits (xs ++ ys) w) ≡ Some r
        → All (WasHanded client r) (filter_map ended_in (deeds_over limits ys (run limits xs w))) }

    // What it has read of the copies of each publication of the run, of a client, a stranger or a Will, carries what that does,
    // whatever has become of the copies since. Asked: copies and retained messages that were stored at the beginning have numbers
    // up to the last one given.
    ensures carried { (limits : Capacity) (ts : List Turn) (w : World) → IsUntouched limits w
        → HasAcceptedNumbers w.broker.records → IsFair limits ts w → (client : List ℕ) (r : Receiver)
        → receiver_named client (run limits ts w) ≡ Some r → All (CarriesEach r) (acceptances_over limits ts w) }
{}
