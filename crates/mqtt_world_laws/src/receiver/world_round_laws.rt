//! Laws of drains of the world: of a receiver that is in step and connected (4.3, 4.4, 4.6).
ghost use Rattle.std.specs.Prelude.{◌*◌, ◌+◌, ◌≡◌, ◌≤◌, ℕ, List, length, map, false, suc, true};
ghost use Rattle.mqtt_base.specs.declared.session.CopyId.{CopyId};
ghost use Rattle.mqtt_flow.specs.outbound.OutboundWorld.{Lot};
ghost use Rattle.mqtt_world_laws.specs.receiver.Drains.{after_round, copies_left, drained, enough_rounds, is_over, rounds_taken};
ghost use Rattle.mqtt_world_laws.specs.receiver.Handing.{IsRun};
ghost use Rattle.mqtt_world_laws.specs.receiver.Rounds as rounds;
ghost use Rattle.mqtt_world_laws.specs.receiver.Seen.{Numbering, seen};
ghost use Rattle.mqtt_world_laws.specs.receiver.Tags.{id_of};
ghost use Rattle.mqtt_world_laws.specs.receiver.WorldRounds.{ComesTo, DrainsBehind, DrainsWith, IsDrained, MayAsk, MayDrain, moment_of};
ghost use Rattle.mqtt_world_model.specs.model.Ends.{Receiver};
ghost use Rattle.mqtt_world_model.specs.model.World.{World};
ghost use Rattle.mqtt_records.specs.lists.Distinct.{AllDiffer};
ghost use Rattle.mqtt_rules.specs.step.State.{MemberChoice};
ghost use Rattle.mqtt_rules.specs.declared.step.Capacity.{Capacity};

/// A round of a drain of the world is, as the receiver sees it, a round of a drain of its hop: if the two are in step, its
/// line is connected, what its session has queued fits there with whole topics, and only answers are under way from it. The
/// hop's round is taken at the moment of the world, through the receiver's window, and all of that is so again after it,
/// with the same copies (3.1.2.11.4, 4.3, 4.4, 4.9).
pub fn a_round_of_a_drain_is_one_of_the_hop()
    ensures is_round { (number : Numbering) (largest window : ℕ) (ids : List CopyId) (birth : ℕ) (ns : List ℕ)
        → (limits : Capacity) (choice : MemberChoice) (client : List ℕ) (copies : List Lot) (r : Receiver) (w : World)
        → MayDrain largest window ids birth ns client r w → map id_of copies ≡ ids → IsRun number largest copies r w.broker
        → ComesTo number largest window ids birth ns client
        (rounds.after_round largest window (moment_of w) (seen number copies r w.broker))
        (after_round limits choice client w) }
{}

/// So a drain of such a receiver takes at most two rounds for each copy that stands in its queue, and its queue is empty
/// after so many, whatever its Receive Maximum (`window`, at least 1). It may be drained again: the two are in step, and its
/// line is connected, with the same copies. Each copy that ended in the drain was taken, had expired at its moment already, or is
/// too large.
/// If it may be drained so only after the first round, one round more is enough: then its queue is empty, or the broker
/// has closed its line.
pub fn a_drain_ends()
    ensures is_within { (largest window : ℕ) (ids : List CopyId) (birth : ℕ) (ns : List ℕ) (limits : Capacity)
        → (choice : MemberChoice) (client : List ℕ) (most : ℕ) (r : Receiver) (w : World)
        → 1 ≤ window → AllDiffer ids → MayDrain largest window ids birth ns client r w
        → rounds_taken limits choice client most w ≤ 2 * copies_left client w }
    ensures is_empty { (largest window : ℕ) (ids : List CopyId) (birth : ℕ) (ns : List ℕ) (limits : Capacity)
        → (choice : MemberChoice) (client : List ℕ) (most : ℕ) (r : Receiver) (w : World)
        → 1 ≤ window → AllDiffer ids → MayDrain largest window ids birth ns client r w
        → 2 * copies_left client w ≤ most → copies_left client (drained limits choice client most w) ≡ 0 }
    ensures is_drained { (number : Numbering) (largest window : ℕ) (ids : List CopyId) (birth : ℕ) (ns : List ℕ)
        → (limits : Capacity) (choice : MemberChoice) (client : List ℕ) (copies : List Lot) (most : ℕ) (r : Receiver)
        → (w : World) → 1 ≤ window → MayDrain largest window ids birth ns client r w
        → map id_of copies ≡ ids → IsRun number largest copies r w.broker
        → IsDrained number largest window ids birth ns client (moment_of w) copies (drained limits choice client most w) }
    ensures is_within_later { (largest window : ℕ) (ids : List CopyId) (birth : ℕ) (ns : List ℕ) (limits : Capacity)
        → (choice : MemberChoice) (client : List ℕ) (most : ℕ) (r : Receiver) (w : World) → 1 ≤ window → AllDiffer ids
        → MayDrain largest window ids birth ns client r (after_round limits choice client w)
        → rounds_taken limits choice client most w
        ≤ enough_rounds (copies_left client (after_round limits choice client w)) }
    ensures is_over_later { (largest window : ℕ) (ids : List CopyId) (birth : ℕ) (ns : List ℕ) (limits : Capacity)
        → (choice : MemberChoice) (client : List ℕ) (most : ℕ) (r : Receiver) (w : World) → 1 ≤ window → AllDiffer ids
        → MayDrain largest window ids birth ns client r (after_round limits choice client w)
        → enough_rounds (copies_left client (after_round limits choice client w)) ≤ most
        → is_over client (drained limits choice client most w) ≡ true }
{}

/// If one SUBSCRIBE is under way from it too, for which no retained message brings a copy that is larger with its whole
/// topic than it takes, a receiver that is in step and connected may be drained after the first round, and the copies of
/// retained messages that the filter brings stand behind those that entered before; no two copies are one, if none were
/// and no two retained messages are of one publication. So of the copies that stand after the first round, twice their
/// number and one of rounds are enough: then its queue is empty, or the broker has closed its line. Those are no more
/// than the copies that stood at the start and those that the filter brings (3.3.1.3, 3.8.4).
pub fn a_drain_with_a_subscribe_ends()
    ensures first { (largest window : ℕ) (ids : List CopyId) (birth : ℕ) (ns : List ℕ) (limits : Capacity)
        → (choice : MemberChoice) (client : List ℕ) (r : Receiver) (w : World)
        → MayAsk limits largest window ids birth ns client r w
        → DrainsWith largest window ids birth ns client (suc w.broker.records.subscribes) (copies_left client w)
        (after_round limits choice client w) }
    ensures is_within { (largest window : ℕ) (ids : List CopyId) (birth : ℕ) (ns : List ℕ) (limits : Capacity)
        → (choice : MemberChoice) (client : List ℕ) (most : ℕ) (r : Receiver) (w : World) → 1 ≤ window
        → MayAsk limits largest window ids birth ns client r w
        → rounds_taken limits choice client most w
        ≤ enough_rounds (copies_left client (after_round limits choice client w)) }
    ensures is_over { (largest window : ℕ) (ids : List CopyId) (birth : ℕ) (ns : List ℕ) (limits : Capacity)
        → (choice : MemberChoice) (client : List ℕ) (most : ℕ) (r : Receiver) (w : World) → 1 ≤ window
        → MayAsk limits largest window ids birth ns client r w
        → enough_rounds (copies_left client (after_round limits choice client w)) ≤ most
        → is_over client (drained limits choice client most w) ≡ true }

    // A copy that ended in that round was taken, had expired at the moment already, is too large, or was dropped, if what the
    // filter brings makes the oldest that wait give way in a full queue.
    ensures causes { (number : Numbering) (largest window : ℕ) (ids : List CopyId) (birth : ℕ) (ns : List ℕ)
        → (limits : Capacity) (choice : MemberChoice) (client : List ℕ) (copies : List Lot) (r : Receiver) (w : World)
        → MayAsk limits largest window ids birth ns client r w → map id_of copies ≡ ids → IsRun number largest copies r w.broker
        → DrainsBehind largest window ids birth ns client (suc w.broker.records.subscribes) (copies_left client w)
        (moment_of w) copies (after_round limits choice client w) }

    // So it is after any number of rounds, if the drain is not over at its start.
    ensures is_drained { (number : Numbering) (largest window : ℕ) (ids : List CopyId) (birth : ℕ) (ns : List ℕ)
        → (limits : Capacity) (choice : MemberChoice) (client : List ℕ) (copies : List Lot) (most : ℕ) (r : Receiver)
        → (w : World) → 1 ≤ window → MayAsk limits largest window ids birth ns client r w → map id_of copies ≡ ids
        → IsRun number largest copies r w.broker → is_over client w ≡ false
        → DrainsBehind largest window ids birth ns client (suc w.broker.records.subscribes) (copies_left client w)
        (moment_of w) copies (drained limits choice client (suc most) w) }

    // So many rounds are enough for the copies that stand at the start and those that the filter brings.
    ensures is_enough { (largest window : ℕ) (ids : List CopyId) (birth : ℕ) (ns : List ℕ) (limits : Capacity)
        → (choice : MemberChoice) (client : List ℕ) (r : Receiver) (w : World) → 1 ≤ window
        → MayAsk limits largest window ids birth ns client r w
        → (x : DrainsWith largest window ids birth ns client (suc w.broker.records.subscribes) (copies_left client w)
        (after_round limits choice client w))
        × ((most : ℕ) → rounds_taken limits choice client most w ≤ enough_rounds (copies_left client w + length x.more))
        × ((most : ℕ) → enough_rounds (copies_left client w + length x.more) ≤ most
        → is_over client (drained limits choice client most w) ≡ true) }
{}
