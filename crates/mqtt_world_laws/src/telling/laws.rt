//! The laws of runs in which PUBLISH goes out in forms (3.3.2.3.4).
ghost use Rattle.std.specs.Prelude.{◌≡◌, ℕ, All, List};
ghost use Rattle.mqtt_rules.specs.declared.step.Capacity.{Capacity};
ghost use Rattle.mqtt_world_model.specs.model.Laws.{AllHandedOnce, HandedOnce, fate_of};
ghost use Rattle.mqtt_world_model.specs.model.Run.{Turn, after as after_meant};
ghost use Rattle.mqtt_world_laws.specs.telling.AsSent.{Most, after};
ghost use Rattle.mqtt_world_laws.specs.telling.Likewise.{AllSendTopics, AllUnderstand, Likewise};

/// Whatever happens, with any number of ends and strangers, and however many topic aliases each client
/// takes: a run in which each PUBLISH goes out in its form, and receivers read it by the aliases that they were
/// told, goes as the run in which it goes out with its whole topic. Broker, strangers and all that ends have
/// sent, kept and handed over are the same after both; what is under way to a receiver means to it what was
/// meant. For that each PUBLISH that the broker means has a topic name and no alias, as it has in every run
/// (3.1.2.11.5, 3.3.2.1, 3.3.2.3.4).
pub fn every_run_means_what_was_meant()
    ensures topics { (limits : Capacity) (ts : List Turn) → AllSendTopics limits ts }
    ensures likewise { (most : Most) (limits : Capacity) (ts : List Turn)
        → Likewise most (after most limits ts) (after_meant limits ts) }

    // So the broker is the same, and what became of each message of a publisher.
    ensures broker { (most : Most) (limits : Capacity) (ts : List Turn)
        → (after most limits ts).world.broker ≡ (after_meant limits ts).broker }
    ensures fates { (most : Most) (limits : Capacity) (ts : List Turn) (client : List ℕ) (n : ℕ)
        → fate_of client n (after most limits ts).world ≡ fate_of client n (after_meant limits ts) }
{}

/// Each PUBLISH that is under way to a receiver in such a run means a topic to it, once it has read those
/// before it: no alias is unknown to it, and none is above its Topic Alias Maximum (3.3.2.3.4).
pub fn each_publish_is_understood()
    ensures each { (most : Most) (limits : Capacity) (ts : List Turn)
        → AllUnderstand (after most limits ts).world.receivers (after most limits ts).known }
{}

/// If copies are handed over once in a run of what packets mean, so they are in the same run in which they go
/// out in forms: of QoS 2 at most once, in order, and exactly once from when their PUBREC was taken, with the
/// topic and the payload of their publication (3.3.2.3.4, 4.3.3).
pub fn copies_in_forms_are_handed_over_once()
    ensures handed { (most : Most) (limits : Capacity) (ts : List Turn)
        → AllHandedOnce limits ts
        → All (HandedOnce limits ts) (after most limits ts).world.receivers }
{}
