//! The law of the topics of what goes out in runs (3.3.2.1, 3.3.2.3.4).
ghost use Rattle.std.specs.List.{AllByRecursion};
ghost use Rattle.std.specs.Prelude.{List};
ghost use Rattle.mqtt_rules.specs.declared.step.Capacity.{Capacity};
ghost use Rattle.mqtt_rules.specs.telling.Meaning.{SendsItsTopic};
ghost use Rattle.mqtt_rules.specs.granting.Naming.{NamesTopics};
ghost use Rattle.mqtt_world_model.specs.model.Run.{Turn, deeds_over, run};
ghost use Rattle.mqtt_world_model.specs.model.World.{World, start};

/// Whatever happens in a run, with any number of ends and strangers, lost lines, restarts and stops: each
/// PUBLISH that the broker sends has a topic name and no Topic Alias, if all that the broker holds names its topics
/// at the beginning; and so it does after the run. From nothing nothing is asked (3.3.2.1, 3.3.2.3.4).
pub fn each_publish_of_every_run_names_its_topic()
    ensures topics { (limits : Capacity) (ts : List Turn) (w : World) → NamesTopics w.broker
        → AllByRecursion SendsItsTopic (deeds_over limits ts w) }
    ensures holds { (limits : Capacity) (ts : List Turn) (w : World) → NamesTopics w.broker
        → NamesTopics (run limits ts w).broker }
    ensures from_nothing { (limits : Capacity) (ts : List Turn)
        → AllByRecursion SendsItsTopic (deeds_over limits ts start) }
{}
