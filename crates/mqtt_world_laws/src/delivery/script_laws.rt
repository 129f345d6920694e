//! The law of all that is proved of every run of the world, with drains in it (3.3.4, 4.3, 4.4, 4.6, 4.8, 4.9).
ghost use Rattle.std.specs.Prelude.{◌≡◌, List};
ghost use Rattle.mqtt_world_laws.specs.delivery.Scripts.{AllDrainsEnd, DeliversOnce};
ghost use Rattle.mqtt_world_laws.specs.delivery.Untouched.{IsUntouched};
ghost use Rattle.mqtt_world_laws.specs.receiver.Drains.{Doing, after_doings, all_turns};
ghost use Rattle.mqtt_world_model.specs.model.Run.{Turn, run};
ghost use Rattle.mqtt_world_model.specs.model.World.{World, start};
ghost use Rattle.mqtt_rules.specs.declared.step.Capacity.{Capacity};
ghost use Rattle.mqtt_world_laws.specs.acceptance.Fair.{IsFair};
ghost use Rattle.mqtt_world_laws.specs.acceptance.Identities.{TellsApart};

/// Exactly-once delivery, over every script of events and drains, whatever is lost, given up, restarted or stopped: each
/// message of a publisher is accepted once; each publication is routed, its copies enter, each once, and wait or have one
/// end; each receiver is handed its copies once and in order; and each drain ends, in a bounded number of rounds. A script
/// is the run of its events and of those that its drains are made of. From nothing stored nothing is asked but that the run
/// is fair; else also that the copies that are stored are told apart (3.3.4, 4.3, 4.4, 4.6, 4.8, 4.9).
pub fn every_script_delivers_exactly_once()
    ensures delivers { (limits : Capacity) (ts : List Turn) (w : World) → IsUntouched limits w → TellsApart w.broker.records
        → IsFair limits ts w → DeliversOnce limits ts w }
    ensures drains { (limits : Capacity) (ds : List Doing) (w : World) → IsUntouched limits w
        → IsFair limits (all_turns limits ds w) w → AllDrainsEnd limits ds w }
    ensures is_run { (limits : Capacity) (ds : List Doing) (w : World)
        → after_doings limits ds w ≡ run limits (all_turns limits ds w) w }
    ensures from_nothing { (limits : Capacity) (ds : List Doing) → IsFair limits (all_turns limits ds start) start
        → DeliversOnce limits (all_turns limits ds start) start × AllDrainsEnd limits ds start }
{}
