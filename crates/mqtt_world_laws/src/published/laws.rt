//! The law of messages from their publisher to each receiver (3.3.4, 3.8.4, 4.3, 4.4).
ghost use Rattle.std.specs.Prelude.{◌++◌, ◌≡◌, ℕ, List, false};
ghost use Rattle.mqtt_rules.specs.declared.step.Capacity.{Capacity};
ghost use Rattle.mqtt_rules.specs.step.Laws.{AreWithin};
ghost use Rattle.mqtt_rules.specs.step.State.{MemberChoice};
ghost use Rattle.mqtt_world_model.specs.model.Run.{Turn, run};
ghost use Rattle.mqtt_world_model.specs.model.World.{World};
ghost use Rattle.mqtt_world_laws.specs.acceptance.Fair.{IsFair};
ghost use Rattle.mqtt_world_laws.specs.receiver.Drains.{Doing, all_turns, drain_turns, is_bad_drain};
ghost use Rattle.mqtt_world_laws.specs.drains.Emptied.{HasEnough};
ghost use Rattle.mqtt_world_laws.specs.headline.Lives.{
  AreFairLives,
  BeginsWell,
  BrokerLife,
  IsFairScript,
  after_lives,
};
ghost use Rattle.mqtt_world_laws.specs.published.Published.{ArePassedOn, HasReceivedAll};

/// What is published is received, in every fair run. A message of QoS 2 whose handshake is completed was accepted exactly once,
/// in a turn of the run, with its topic, payload and RETAIN; one of QoS 1 that was acknowledged, at least once. For each receiver
/// whose session had, then, a matching subscription of its own, of QoS 1 or 2, one copy entered. It waits in that session's
/// queue, or has ended: as taken, and then the receiver was handed it exactly once if it has QoS 2, and has read it if it
/// has QoS 1; as expired or dropped, and then it never was; or for another cause, which its end has. No receiver was handed it
/// twice, and what it has read of it carries the message's topic and payload (3.3.4, 3.8.4, 4.3, 4.4).
pub fn what_is_published_is_received()
    ensures run { (limits : Capacity) (ts : List Turn) (w : World) → BeginsWell limits w → IsFair limits ts w
        → ArePassedOn limits ts w }

    // Over every fair script of events and drains, after any lives of the broker.
    ensures lives { (limits : Capacity) (lives : List BrokerLife) (ds : List Doing) → AreWithin limits
        → AreFairLives limits lives → IsFairScript limits ds (after_lives limits lives)
        → ArePassedOn limits (all_turns limits ds (after_lives limits lives)) (after_lives limits lives) }

    // After a drain that is not bad, with rounds enough, none waits.
    ensures drained { (limits : Capacity) (ts : List Turn) (choice : MemberChoice) (reader : List ℕ) (most : ℕ) (w : World)
        → BeginsWell limits w → IsFair limits (ts ++ drain_turns limits choice reader most (run limits ts w)) w
        → is_bad_drain reader (run limits ts w) ≡ false → HasEnough limits choice reader most (run limits ts w)
        → HasReceivedAll reader limits (ts ++ drain_turns limits choice reader most (run limits ts w)) w }
{}
