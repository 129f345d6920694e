//! The law of order, from a publisher to each receiver (4.6).
ghost use Rattle.std.specs.Prelude.{List};
ghost use Rattle.mqtt_rules.specs.declared.step.Capacity.{Capacity};
ghost use Rattle.mqtt_rules.specs.step.Laws.{AreWithin};
ghost use Rattle.mqtt_world_model.specs.model.Run.{Turn};
ghost use Rattle.mqtt_world_model.specs.model.World.{World};
ghost use Rattle.mqtt_world_laws.specs.acceptance.Fair.{IsFair};
ghost use Rattle.mqtt_world_laws.specs.receiver.Drains.{Doing, all_turns};
ghost use Rattle.mqtt_world_laws.specs.headline.Lives.{
  AreFairLives,
  BeginsWell,
  BrokerLife,
  IsFairScript,
  after_lives,
};
ghost use Rattle.mqtt_world_laws.specs.ordered.FirstReads.{AreReadInOrder};
ghost use Rattle.mqtt_world_laws.specs.ordered.Ordered.{AreInOrder};

/// What is published first is received first, in every fair run. The broker accepts the messages of one publisher in the order
/// in which it published them, and a receiver is handed publications in the order in which they were accepted, whoever sent
/// them. So of two messages of one publisher no receiver is handed the later one before the earlier one (4.6). The earlier one
/// has QoS 2, and the broker never refused it; what a SUBSCRIBE brings of it as a retained message doesn't count.
pub fn what_is_published_first_is_received_first()
    ensures run { (limits : Capacity) (ts : List Turn) (w : World) → BeginsWell limits w → IsFair limits ts w
        → AreInOrder limits ts w }

    // Over every fair script of events and drains, after any lives of the broker.
    ensures lives { (limits : Capacity) (lives : List BrokerLife) (ds : List Doing) → AreWithin limits
        → AreFairLives limits lives → IsFairScript limits ds (after_lives limits lives)
        → AreInOrder limits (all_turns limits ds (after_lives limits lives)) (after_lives limits lives) }
{}

/// The same of QoS 1, in every fair run, by first acceptances and first reads: a message may be accepted again when its PUBACK
/// was lost, and a copy read again. Of two messages of one publisher the one that was published earlier is first accepted
/// before the later one ever is, if the broker never refused it. A receiver first reads publications in the order in which they
/// were accepted, whoever sent them, so none of its copies is first read behind one of the later message. And each copy of
/// QoS 1, also of a retained message, is first read in the order in which the copies entered (4.6).
pub fn what_is_published_first_is_read_first()
    ensures run { (limits : Capacity) (ts : List Turn) (w : World) → BeginsWell limits w → IsFair limits ts w
        → AreReadInOrder limits ts w }

    // Over every fair script of events and drains, after any lives of the broker.
    ensures lives { (limits : Capacity) (lives : List BrokerLife) (ds : List Doing) → AreWithin limits
        → AreFairLives limits lives → IsFairScript limits ds (after_lives limits lives)
        → AreReadInOrder limits (all_turns limits ds (after_lives limits lives)) (after_lives limits lives) }
{}
