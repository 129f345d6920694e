//! The laws of the ends of copies in a drain (2.1.4, 3.1.2.4, 3.1.2.11, 3.3.2.3.3, 4.3).
ghost use Rattle.std.specs.Prelude.{◌≡◌, ℕ, List, false};
ghost use Rattle.mqtt_world_laws.specs.drain_causes.DrainEnds.{AllDrainsEndSo, EndOfDrain};
ghost use Rattle.mqtt_world_laws.specs.drain_causes.Fitting.{AllDrainsFit, NoneTooLarge};
ghost use Rattle.mqtt_world_laws.specs.delivery.Untouched.{IsUntouched};
ghost use Rattle.mqtt_world_laws.specs.receiver.Drains.{Doing, all_turns, drain_turns};
ghost use Rattle.mqtt_world_model.specs.model.Run.{Turn, run};
ghost use Rattle.mqtt_world_model.specs.model.World.{World, start};
ghost use Rattle.mqtt_rules.specs.step.State.{MemberChoice};
ghost use Rattle.mqtt_rules.specs.declared.step.Capacity.{Capacity};
ghost use Rattle.mqtt_world_laws.specs.acceptance.Fair.{IsFair};
ghost use Rattle.mqtt_world_laws.specs.acceptance.Spending.{run_spends};

/// From wherever a fair run comes to, whatever is under way from a receiver and to it: each copy that ends in a drain
/// of the receiver is one of its own, and ends at the drain's moment. It is taken, or has expired, or is too large; or
/// it ends with its session, as a CONNECT of the receiver with Clean Start is read, or makes way in a full queue, as a
/// SUBSCRIBE is; and it ends for its cause. None is refused. So it is of each drain of a script (3.1.2.4, 3.1.2.11,
/// 3.3.2.3.3, 4.3).
pub fn copies_of_a_drain_end_by_its_causes()
    ensures ends { (limits : Capacity) (ts : List Turn) (choice : MemberChoice) (client : List ℕ) (most : ℕ) (w : World)
        → IsUntouched limits w → IsFair limits ts w
        → run_spends limits (drain_turns limits choice client most (run limits ts w)) (run limits ts w) ≡ false
        → EndOfDrain limits choice client most (run limits ts w) }
    ensures of_scripts { (limits : Capacity) (ds : List Doing) (w : World) → IsUntouched limits w
        → IsFair limits (all_turns limits ds w) w → AllDrainsEndSo limits ds w }
    ensures from_nothing { (limits : Capacity) (ds : List Doing) → IsFair limits (all_turns limits ds start) start
        → AllDrainsEndSo limits ds start }
{}

/// No copy ends as too large in a drain: a receiver names no Maximum Packet Size, so its line takes 4,294,967,295 bytes, and
/// no PUBLISH of a copy that is stored has as many, since its Remaining Length is a Variable Byte Integer: what is stored at
/// the beginning is what packets can carry, and so it is with what the broker reads. So it is in all drains of a fair script
/// (2.1.4, 3.1.2.11.4).
pub fn no_copy_is_too_large_in_a_drain()
    ensures ends { (limits : Capacity) (ts : List Turn) (choice : MemberChoice) (client : List ℕ) (most : ℕ) (w : World)
        → IsUntouched limits w → IsFair limits ts w
        → run_spends limits (drain_turns limits choice client most (run limits ts w)) (run limits ts w) ≡ false
        → NoneTooLarge limits (drain_turns limits choice client most (run limits ts w)) (run limits ts w) }
    ensures of_scripts { (limits : Capacity) (ds : List Doing) (w : World) → IsUntouched limits w
        → IsFair limits (all_turns limits ds w) w → AllDrainsFit limits ds w }
    ensures from_nothing { (limits : Capacity) (ds : List Doing) → IsFair limits (all_turns limits ds start) start
        → AllDrainsFit limits ds start }
{}
