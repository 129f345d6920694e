//! The law that a drain which is not bad empties the queue of its receiver (4.3, 4.4, 4.6).
ghost use Rattle.std.specs.Prelude.{◌≡◌, ℕ, List, false};
ghost use Rattle.mqtt_world_laws.specs.drains.Emptied.{AllDrainsEmpty, EmptiesQueue};
ghost use Rattle.mqtt_world_laws.specs.delivery.Untouched.{IsUntouched};
ghost use Rattle.mqtt_world_laws.specs.receiver.Drains.{Doing, all_turns, is_bad_drain, round_turns};
ghost use Rattle.mqtt_world_model.specs.model.Run.{Turn, run};
ghost use Rattle.mqtt_world_model.specs.model.World.{World, start};
ghost use Rattle.mqtt_rules.specs.step.State.{MemberChoice};
ghost use Rattle.mqtt_rules.specs.declared.step.Capacity.{Capacity};
ghost use Rattle.mqtt_world_laws.specs.acceptance.Fair.{IsFair};
ghost use Rattle.mqtt_world_laws.specs.acceptance.Spending.{run_spends};

/// From wherever a fair run comes to, a drain of a receiver whose line stands empties its queue, whatever is under way from
/// it, a CONNECT with Clean Start or SUBSCRIBEs too: twice as many rounds as copies stand at the start or enter in the first
/// round, and one, are enough. Its line stands still after them, and with more rounds nothing more happens. Asked: that the
/// first round spends no number. So it is of each drain of a script that is not bad, and from nothing stored nothing is
/// asked but that the script is fair (4.3, 4.4, 4.6, 4.9).
pub fn a_drain_empties_the_queue()
    ensures empties { (limits : Capacity) (ts : List Turn) (choice : MemberChoice) (client : List ℕ) (most : ℕ) (w : World)
        → IsUntouched limits w → IsFair limits ts w
        → run_spends limits (round_turns limits choice client (run limits ts w)) (run limits ts w) ≡ false
        → is_bad_drain client (run limits ts w) ≡ false → EmptiesQueue limits choice client most (run limits ts w) }
    ensures of_scripts { (limits : Capacity) (ds : List Doing) (w : World) → IsUntouched limits w
        → IsFair limits (all_turns limits ds w) w → AllDrainsEmpty limits ds w }
    ensures from_nothing { (limits : Capacity) (ds : List Doing) → IsFair limits (all_turns limits ds start) start
        → AllDrainsEmpty limits ds start }
{}
