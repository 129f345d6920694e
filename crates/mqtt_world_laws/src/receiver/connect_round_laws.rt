//! Laws of drains of the world that begin while the receiver's CONNECT is under way (3.1.2.4, 3.1.4, 4.4).
ghost use Rattle.std.specs.Prelude.{◌≡◌, ◌≤◌, ℕ, List, None, false, map, suc, true};
ghost use Rattle.mqtt_base.specs.declared.session.CopyId.{CopyId};
ghost use Rattle.mqtt_flow.specs.outbound.OutboundWorld.{Lot, cut, renewed};
ghost use Rattle.mqtt_world_laws.specs.receiver.Connecting.{DrainsFrom, MayRenew, MayResume, any_size};
ghost use Rattle.mqtt_world_laws.specs.receiver.Drains.{after_round, copies_left, drained, enough_rounds, is_over, rounds_taken};
ghost use Rattle.mqtt_world_laws.specs.receiver.Handing.{IsRun};
ghost use Rattle.mqtt_world_laws.specs.receiver.Seen.{Numbering};
ghost use Rattle.mqtt_world_laws.specs.receiver.Tags.{id_of};
ghost use Rattle.mqtt_world_laws.specs.receiver.WorldRounds.{IsDrained, moment_of};
ghost use Rattle.mqtt_world_model.specs.model.Ends.{Receiver};
ghost use Rattle.mqtt_world_model.specs.model.World.{World};
ghost use Rattle.mqtt_records.specs.declared.state.session.Session.{Session};
ghost use Rattle.mqtt_records.specs.lists.Distinct.{AllDiffer};
ghost use Rattle.mqtt_rules.specs.step.State.{Line, MemberChoice, session_named};
ghost use Rattle.mqtt_rules.specs.declared.step.Capacity.{Capacity};

/// If a receiver's CONNECT is under way, it may be drained after the first round. If the session is resumed, its copies are
/// those that stood, each sent on no line yet; with Clean Start each copy that stood has ended with the session
/// (SessionEnded), and one round is all. So of the copies that stand at the start, twice their number and one of rounds are
/// enough: then its queue is empty, or the broker has closed its line. Each copy that ended in the drain of a session that is
/// resumed was taken, had expired at its moment already, or is too large. If no session of its name stands there is nothing
/// to drain, and no round is taken (3.1.2.4, 3.1.4, 4.4).
pub fn a_drain_with_a_connect_ends()
    ensures resumes { (number : Numbering) (ids : List CopyId) (birth : ℕ) (ns : List ℕ) (limits : Capacity)
        → (choice : MemberChoice) (client : List ℕ) (copies : List Lot) (r : Receiver) (l : Line) (s : Session) (w : World)
        → MayResume limits choice ids birth ns client r l s w → IsRun number any_size copies r w.broker
        → DrainsFrom number r.window ids birth ns client (map renewed copies) (after_round limits choice client w) }
    ensures renews { (number : Numbering) (ids : List CopyId) (birth : ℕ) (ns : List ℕ) (limits : Capacity)
        → (choice : MemberChoice) (client : List ℕ) (copies : List Lot) (r : Receiver) (l : Line) (s : Session) (w : World)
        → MayRenew limits choice ids birth ns client r l s w → IsRun number any_size copies r w.broker
        → DrainsFrom number r.window ids (suc w.broker.records.births) ns client (map cut copies)
        (after_round limits choice client w) }
    ensures is_within { (ids : List CopyId) (birth : ℕ) (ns : List ℕ) (limits : Capacity) (choice : MemberChoice)
        → (client : List ℕ) (most : ℕ) (r : Receiver) (l : Line) (s : Session) (w : World) → 1 ≤ r.window → AllDiffer ids
        → MayResume limits choice ids birth ns client r l s w
        → rounds_taken limits choice client most w ≤ enough_rounds (copies_left client w) }
    ensures is_over { (ids : List CopyId) (birth : ℕ) (ns : List ℕ) (limits : Capacity) (choice : MemberChoice)
        → (client : List ℕ) (most : ℕ) (r : Receiver) (l : Line) (s : Session) (w : World) → 1 ≤ r.window → AllDiffer ids
        → MayResume limits choice ids birth ns client r l s w → enough_rounds (copies_left client w) ≤ most
        → is_over client (drained limits choice client most w) ≡ true }
    ensures is_drained { (number : Numbering) (ids : List CopyId) (birth : ℕ) (ns : List ℕ) (limits : Capacity)
        → (choice : MemberChoice) (client : List ℕ) (copies : List Lot) (most : ℕ) (r : Receiver) (l : Line) (s : Session)
        → (w : World) → 1 ≤ r.window → MayResume limits choice ids birth ns client r l s w → map id_of copies ≡ ids
        → IsRun number any_size copies r w.broker → is_over client w ≡ false
        → IsDrained number any_size r.window ids birth ns client (moment_of w) copies
        (drained limits choice client (suc most) w) }
    // With Clean Start the drain is over after that round.
    ensures is_renewed { (ids : List CopyId) (birth : ℕ) (ns : List ℕ) (limits : Capacity) (choice : MemberChoice)
        → (client : List ℕ) (most : ℕ) (r : Receiver) (l : Line) (s : Session) (w : World) → AllDiffer ids
        → MayRenew limits choice ids birth ns client r l s w → is_over client w ≡ false
        → (rounds_taken limits choice client (suc most) w ≡ 1)
        × (drained limits choice client (suc most) w ≡ after_round limits choice client w)
        × (is_over client (after_round limits choice client w) ≡ true) }
    ensures begins { (limits : Capacity) (choice : MemberChoice) (client : List ℕ) (most : ℕ) (w : World)
        → session_named client w.broker.records ≡ None
        → (rounds_taken limits choice client most w ≡ 0) × (drained limits choice client most w ≡ w) }
{}
