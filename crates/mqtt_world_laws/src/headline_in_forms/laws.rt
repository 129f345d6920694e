//! The law of exactly-once delivery, of runs in which PUBLISH goes out in forms (3.3.2.3.4, 3.3.4, 4.3, 4.4, 4.6, 4.8, 4.9).
ghost use Rattle.std.specs.Prelude.{List};
ghost use Rattle.mqtt_rules.specs.step.Laws.{AreWithin};
ghost use Rattle.mqtt_rules.specs.declared.step.Capacity.{Capacity};
ghost use Rattle.mqtt_world_model.specs.model.World.{start};
ghost use Rattle.mqtt_world_laws.specs.receiver.Drains.{Doing};
ghost use Rattle.mqtt_world_laws.specs.headline.Lives.{AreFairLives, BrokerLife, IsFairScript, after_lives};
ghost use Rattle.mqtt_world_laws.specs.telling.AsSent.{Most, start_as_sent};
ghost use Rattle.mqtt_world_laws.specs.headline_in_forms.Delivery.{AllDrainsFit, DoingsDeliver};
ghost use Rattle.mqtt_world_laws.specs.headline_in_forms.Reading.{begun};

/// Exactly-once delivery, over every script of events and drains in which each PUBLISH goes out in its form, and each
/// receiver reads it by the aliases that it was told on its line, however many aliases each client takes. It holds of each
/// script of which `messages_are_delivered_exactly_once` speaks, and says of the run in forms what that says of the run of
/// what packets mean; and each PUBLISH that is read means a topic. Asked is what is asked there: each script is fair, and
/// opening spends no number (3.1.2.11.5, 3.3.2.3.4, 3.3.4, 4.3, 4.4, 4.6, 4.8, 4.9).
pub fn messages_in_forms_are_delivered_exactly_once()
    ensures delivers { (most : Most) (limits : Capacity) (lives : List BrokerLife) (ds : List Doing) → AreWithin limits
        → AreFairLives limits lives → IsFairScript limits ds (after_lives limits lives)
        → DoingsDeliver most limits ds (begun (after_lives limits lives)) }
    ensures fits { (most : Most) (limits : Capacity) (lives : List BrokerLife) (ds : List Doing) → AreWithin limits
        → AreFairLives limits lives → IsFairScript limits ds (after_lives limits lives)
        → AllDrainsFit most limits ds (begun (after_lives limits lives)) }

    // From nothing stored.
    ensures from_nothing { (most : Most) (limits : Capacity) (ds : List Doing) → IsFairScript limits ds start
        → DoingsDeliver most limits ds start_as_sent }
{}
