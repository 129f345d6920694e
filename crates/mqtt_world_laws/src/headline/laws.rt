//! The law of exactly-once delivery, whole (3.3.4, 4.3, 4.4, 4.6, 4.8, 4.9).
ghost use Rattle.std.specs.Prelude.{◌≡◌, ℕ, List, false};
ghost use Rattle.mqtt_rules.specs.step.Laws.{AreWithin};
ghost use Rattle.mqtt_rules.specs.step.State.{MemberChoice};
ghost use Rattle.mqtt_rules.specs.step.Step.{is_opening_spent};
ghost use Rattle.mqtt_rules.specs.declared.step.Capacity.{Capacity};
ghost use Rattle.mqtt_world_model.specs.model.Laws.{AcceptedOnce, AllHandedOnce, CopiesOnce};
ghost use Rattle.mqtt_world_model.specs.model.Run.{Turn, run};
ghost use Rattle.mqtt_world_model.specs.model.World.{World, start};
ghost use Rattle.mqtt_world_laws.specs.acceptance.Fair.{IsCounted, IsFair, opened_world};
ghost use Rattle.mqtt_world_laws.specs.receiver.Drains.{Doing};
ghost use Rattle.mqtt_world_laws.specs.drain_causes.Fitting.{AllDrainsFit};
ghost use Rattle.mqtt_world_laws.specs.headline.Delivery.{
  DeliversExactlyOnce,
  DoingsDeliver,
  EndsAllOnce,
  EntersAllOnce,
};
ghost use Rattle.mqtt_world_laws.specs.headline.Lives.{
  AreFairLives,
  BeginsWell,
  BrokerLife,
  IsFairScript,
  after_lives,
};

/// Exactly-once delivery, over every script of events and drains, whatever is lost, given up, restarted or stopped, and
/// however often the broker was opened on what an earlier script left, under any limits. Each message of a publisher is accepted
/// once, with what it carries. Of each publication exactly the intended copies enter queues, each once; each waits or has
/// one end, for its cause. Each receiver is handed its copies once, in the order in which they entered, with their
/// publications' contents; what ended as taken was handed over, what expired or made way for another never. Each drain that
/// isn't bad empties its receiver's queue in a bounded number of rounds, and copies end in it by its causes, none as too large.
/// Asked: nothing but that each script is fair, and that opening spends no number (3.3.4, 4.3, 4.4, 4.6, 4.8, 4.9).
pub fn messages_are_delivered_exactly_once()
    ensures delivers { (limits : Capacity) (lives : List BrokerLife) (ds : List Doing) → AreWithin limits
        → AreFairLives limits lives → IsFairScript limits ds (after_lives limits lives)
        → DoingsDeliver limits ds (after_lives limits lives) }
    ensures fits { (limits : Capacity) (lives : List BrokerLife) (ds : List Doing) → AreWithin limits
        → AreFairLives limits lives → IsFairScript limits ds (after_lives limits lives)
        → AllDrainsFit limits ds (after_lives limits lives) }

    // From any tables that are as a broker leaves them.
    ensures wherever { (limits : Capacity) (ds : List Doing) (w : World) → BeginsWell limits w → IsFairScript limits ds w
        → DoingsDeliver limits ds w }
    ensures run { (limits : Capacity) (ts : List Turn) (w : World) → BeginsWell limits w → IsFair limits ts w
        → DeliversExactlyOnce limits ts w }

    // From nothing stored, in the words of the run.
    ensures messages { (limits : Capacity) (ts : List Turn) → IsFair limits ts start → AcceptedOnce limits ts }
    ensures copies { (limits : Capacity) (ts : List Turn) → IsCounted limits ts start → CopiesOnce limits ts }
    ensures receivers { (limits : Capacity) (ts : List Turn) → IsFair limits ts start → AllHandedOnce limits ts }
{}

/// What the broker does with copies holds of every run that spends no number, whatever its ends do: also where one gives a
/// Clean Start up before its CONNACK. Of each publication exactly the intended copies enter queues, each once; each waits or
/// has one end, for its cause (3.3.4, 4.3, 4.4, 4.8).
pub fn copies_enter_and_end_once_whatever_ends_do()
    ensures entering { (limits : Capacity) (ts : List Turn) (w : World) → BeginsWell limits w
        → IsCounted limits ts w → EntersAllOnce limits ts w }
    ensures ending { (limits : Capacity) (ts : List Turn) (w : World) → BeginsWell limits w
        → IsCounted limits ts w → EndsAllOnce limits ts w }
{}

/// So a run may begin: with nothing stored, or when the broker is opened on what any fair run has left that began so, under
/// the limits of that run or under others, also if these are smaller than what stands; and the broker sends well there too
/// (2.1.4, 2.2.1, 4.1).
pub fn what_a_run_leaves_may_begin_another()
    ensures nothing { (limits : Capacity) → AreWithin limits → BeginsWell limits start }
    ensures again { (limits : Capacity) (ts : List Turn) (choice : MemberChoice) (now : ℕ) (w : World) → BeginsWell limits w
        → IsFair limits ts w → is_opening_spent limits choice now (run limits ts w).broker.records ≡ false
        → BeginsWell limits (opened_world limits choice now (run limits ts w).broker.records) }
    ensures under_others { (limits others : Capacity) (ts : List Turn) (choice : MemberChoice) (now : ℕ) (w : World)
        → BeginsWell limits w → IsFair limits ts w → AreWithin others
        → is_opening_spent others choice now (run limits ts w).broker.records ≡ false
        → BeginsWell others (opened_world others choice now (run limits ts w).broker.records) }
    ensures lives { (limits : Capacity) (lives : List BrokerLife) → AreWithin limits → AreFairLives limits lives
        → BeginsWell limits (after_lives limits lives) }
{}
