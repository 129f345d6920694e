//! Laws of drains from wherever a run of the world comes to, by the copies that they are of (4.3, 4.4, 4.6).
ghost use Rattle.std.specs.Prelude.{◌+◌, ◌≡◌, ◌≤◌, ◌⊎◌, ℕ, List, Some, false, length, suc, true};
ghost use Rattle.mqtt_world_laws.specs.delivery.DrainCauses.{EndSo, EndsAs, IsCalm, answering, course_of};
ghost use Rattle.mqtt_world_laws.specs.delivery.Untouched.{IsUntouched};
ghost use Rattle.mqtt_world_laws.specs.receiver.Drains.{after_round, copies_left, drained, enough_rounds, is_over, round_turns, rounds_taken};
ghost use Rattle.mqtt_world_laws.specs.receiver.WorldRounds.{moment_of};
ghost use Rattle.mqtt_world_model.specs.model.Ends.{Receiver};
ghost use Rattle.mqtt_world_model.specs.model.Run.{Turn, run};
ghost use Rattle.mqtt_world_model.specs.model.World.{World, receiver_named};
ghost use Rattle.mqtt_rules.specs.step.State.{MemberChoice};
ghost use Rattle.mqtt_rules.specs.declared.step.Capacity.{Capacity};
ghost use Rattle.mqtt_world_laws.specs.acceptance.Copies.{entered_from};
ghost use Rattle.mqtt_world_laws.specs.acceptance.Fair.{IsFair};
ghost use Rattle.mqtt_world_laws.specs.acceptance.Spending.{run_spends};

/// From wherever a fair run comes to, of the copies that stand in a receiver's queue at the start of a drain and those that
/// enter in its first round, twice their number and one of rounds are enough: no copy stands after that round that did neither.
/// Then its queue is empty, or the broker has closed its line, or it has none. Asked: that the first round spends no number
/// (4.3, 4.4, 4.6, 4.9).
pub fn a_drain_takes_its_copies()
    ensures is_within { (limits : Capacity) (ts : List Turn) (choice : MemberChoice) (client : List ℕ) (most : ℕ) (w : World)
        → IsUntouched limits w → IsFair limits ts w
        → run_spends limits (round_turns limits choice client (run limits ts w)) (run limits ts w) ≡ false
        → rounds_taken limits choice client most (run limits ts w)
        ≤ enough_rounds (copies_left client (run limits ts w)
        + length (entered_from limits (round_turns limits choice client (run limits ts w)) (run limits ts w))) }
    ensures is_over { (limits : Capacity) (ts : List Turn) (choice : MemberChoice) (client : List ℕ) (most : ℕ) (w : World)
        → IsUntouched limits w → IsFair limits ts w
        → run_spends limits (round_turns limits choice client (run limits ts w)) (run limits ts w) ≡ false
        → enough_rounds (copies_left client (run limits ts w)
        + length (entered_from limits (round_turns limits choice client (run limits ts w)) (run limits ts w))) ≤ most
        → is_over client (drained limits choice client most (run limits ts w)) ≡ true }
{}

/// From wherever a fair run comes to, if a drain is not over at its start: each copy that ends in it has been taken, had
/// expired at the moment of the drain, which is that of all its rounds, or is larger than its receiver takes; if a SUBSCRIBE
/// was under way it may also have been dropped, to make way in a full queue; and if a CONNECT with Clean Start was, each that
/// stood has ended with its session. All others stand still, and copies only enter behind. Asked: that the first round spends
/// no number, that at most one SUBSCRIBE is under way from the receiver, and nothing to it while its CONNECT is. After the first
/// round, whatever was under way, the drain is over, or each copy that ends was taken, had expired or is too large (3.1.2.4,
/// 3.1.2.11.4, 3.3.2.3.3, 4.3, 4.4, 4.6).
pub fn copies_end_in_a_drain_by_a_cause()
    ensures ends { (limits : Capacity) (ts : List Turn) (choice : MemberChoice) (client : List ℕ) (most : ℕ) (w : World)
        → IsUntouched limits w → IsFair limits ts w
        → run_spends limits (round_turns limits choice client (run limits ts w)) (run limits ts w) ≡ false
        → (r : Receiver) → receiver_named client (run limits ts w) ≡ Some r → IsCalm r
        → is_over client (run limits ts w) ≡ false
        → EndSo client (EndsAs (course_of r.line.up) (moment_of (run limits ts w))) (run limits ts w)
        (drained limits choice client (suc most) (run limits ts w)) }
    ensures later { (limits : Capacity) (ts : List Turn) (choice : MemberChoice) (client : List ℕ) (most : ℕ) (w : World)
        → IsUntouched limits w → IsFair limits ts w
        → run_spends limits (round_turns limits choice client (run limits ts w)) (run limits ts w) ≡ false
        → (is_over client (after_round limits choice client (run limits ts w)) ≡ true)
        ⊎ EndSo client (EndsAs answering (moment_of (after_round limits choice client (run limits ts w))))
        (after_round limits choice client (run limits ts w))
        (drained limits choice client most (after_round limits choice client (run limits ts w))) }
{}
