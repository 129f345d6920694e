//! Laws of every run of the world, for what receivers are handed, and of drains from wherever one comes to (4.3, 4.4, 4.6).
ghost use Rattle.std.specs.Prelude.{◌++◌, ◌∷◌, ◌≡◌, ◌≤◌, All, [], ℕ, List, Some, false, filter, true};
ghost use Rattle.mqtt_base.specs.declared.session.CopyId.{CopyId};
ghost use Rattle.mqtt_world_laws.specs.delivery.Acknowledging.{AreRead};
ghost use Rattle.mqtt_world_laws.specs.delivery.Coming.{come_over, queue_at};
ghost use Rattle.mqtt_world_laws.specs.delivery.HandedOver.{AreHandedInOrder, CarryQueued, WasHandedOver, is_among, queued_by};
ghost use Rattle.mqtt_world_laws.specs.delivery.Untouched.{IsUntouched};
ghost use Rattle.mqtt_world_laws.specs.delivery.Retaining.{AreRetainedOnce};
ghost use Rattle.mqtt_flow.specs.outbound.Receiver.{puback};
ghost use Rattle.mqtt_world_laws.specs.receiver.Drains.{after_round, copies_left, drained, enough_rounds, is_over, round_turns, rounds_taken};
ghost use Rattle.mqtt_world_model.specs.model.Ends.{Back, Entry, Receiver, answers};
ghost use Rattle.mqtt_world_model.specs.model.Laws.{copies_in, handed_count, released_in, stand_among};
ghost use Rattle.mqtt_world_model.specs.model.Run.{Turn, begins_clean, run};
ghost use Rattle.mqtt_world_model.specs.model.World.{Setting, World, happens, is_bad, old_to_broker, receiver, receiver_named, start, to_broker};
ghost use Rattle.mqtt_records.specs.declared.state.records.Records.{Records};
ghost use Rattle.mqtt_rules.specs.step.Contents.{HasLawfulContents};
ghost use Rattle.mqtt_rules.specs.step.Flight.{HasDistinctIdentifiers};
ghost use Rattle.mqtt_rules.specs.step.Laws.{AreWithin};
ghost use Rattle.mqtt_rules.specs.step.State.{MemberChoice, session_named};
ghost use Rattle.mqtt_rules.specs.step.Step.{is_opening_spent};
ghost use Rattle.mqtt_rules.specs.declared.step.Capacity.{Capacity};
ghost use Rattle.mqtt_rules.specs.spelling.Sending.{HaveSentPhases};
ghost use Rattle.mqtt_world_laws.specs.acceptance.Copies.{entered_from};
ghost use Rattle.mqtt_world_laws.specs.acceptance.Fair.{IsFair, MayOpen, opened_world};
ghost use Rattle.mqtt_world_laws.specs.acceptance.Spending.{run_spends};

/// Whatever happens, with any number of publishers, receivers and strangers, lines lost and given up, restarts, and stops
/// before or after a commit: each copy of QoS 2 was handed over to its receiver at most once, and exactly once from when the
/// broker took its PUBREC, for good, whatever becomes of its session; of the copies that stand in its queue at any moment of
/// the run, those that it was handed by any later one stand in its ledger in the order of the queue; what it has read of them
/// carries their topic and payload, and stays in the ledger, behind which alone more comes (4.3.2, 4.3.3, 4.4, 4.6).
pub fn every_run_hands_over_once()
    ensures once { (limits : Capacity) (ts : List Turn) (w : World) → IsUntouched limits w → IsFair limits ts w
        → (client : List ℕ) (r : Receiver) → receiver_named client (run limits ts w) ≡ Some r
        → (copy : CopyId) → handed_count copy r ≤ 1 }
    ensures released { (limits : Capacity) (ts : List Turn) (w : World) → IsUntouched limits w → IsFair limits ts w
        → (client : List ℕ) (r : Receiver) → receiver_named client (run limits ts w) ≡ Some r
        → All (λ (copy : CopyId). handed_count copy r ≡ 1)
        (released_in (session_named r.client (run limits ts w).broker.records)) }
    ensures for_good { (limits : Capacity) (xs ys : List Turn) (w : World) → IsUntouched limits w
        → IsFair limits (xs ++ ys) w → (client : List ℕ) (q r : Receiver)
        → receiver_named client (run limits xs w) ≡ Some q → receiver_named client (run limits (xs ++ ys) w) ≡ Some r
        → All (λ (copy : CopyId). handed_count copy r ≡ 1)
        (released_in (session_named q.client (run limits xs w).broker.records)) }
    ensures in_order { (limits : Capacity) (xs ys : List Turn) (w : World) → IsUntouched limits w
        → IsFair limits (xs ++ ys) w → (client : List ℕ) (q r : Receiver)
        → receiver_named client (run limits xs w) ≡ Some q → receiver_named client (run limits (xs ++ ys) w) ≡ Some r
        → AreHandedInOrder (queued_by (session_named q.client (run limits xs w).broker.records)) r }
    ensures carries { (limits : Capacity) (ts : List Turn) (w : World) → IsUntouched limits w → IsFair limits ts w
        → (client : List ℕ) (r : Receiver) → receiver_named client (run limits ts w) ≡ Some r
        → CarryQueued (session_named r.client (run limits ts w).broker.records) r.ledger
        × CarryQueued (session_named r.client (run limits ts w).broker.records) r.once }
    ensures grows { (limits : Capacity) (ys : List Turn) (v : World) (client : List ℕ) (q r : Receiver)
        → receiver_named client v ≡ Some q → receiver_named client (run limits ys v) ≡ Some r
        → (more : List Entry) × (r.ledger ≡ q.ledger ++ more) }
    ensures handed { (limits : Capacity) (ts : List Turn) (w : World) → IsUntouched limits w → IsFair limits ts w
        → (client : List ℕ) (r : Receiver) → receiver_named client (run limits ts w) ≡ Some r
        → WasHandedOver r (run limits ts w).broker }
{}

/// So a world may begin: with nothing stored, or opened on tables in order, if no two copies in flight have one identifier,
/// no two retained messages are of one publication, what is stored is what packets can carry, and identifiers in flight have
/// two bytes; such are those that any run of such a world leaves, under whatever limits. More sessions may stand than the limit, and queues may be longer, if they were stored under larger ones (4.1).
pub fn a_world_may_begin_untouched()
    ensures empty { (limits : Capacity) → AreWithin limits → IsUntouched limits start }
    ensures stored { (limits : Capacity) (choice : MemberChoice) (now : ℕ) (r : Records)
        → AreWithin limits → MayOpen limits choice now r → HasDistinctIdentifiers r → AreRetainedOnce r
        → HasLawfulContents r → HaveSentPhases r → IsUntouched limits (opened_world limits choice now r) }
    ensures again { (limits : Capacity) (ts : List Turn) (choice : MemberChoice) (now : ℕ) (w : World)
        → IsUntouched limits w → IsFair limits ts w
        → is_opening_spent limits choice now (run limits ts w).broker.records ≡ false
        → IsUntouched limits (opened_world limits choice now (run limits ts w).broker.records) }

    // Also if the broker is opened under other limits than those of the run.
    ensures under_others { (limits others : Capacity) (ts : List Turn) (choice : MemberChoice) (now : ℕ) (w : World)
        → IsUntouched limits w → IsFair limits ts w → AreWithin others
        → is_opening_spent others choice now (run limits ts w).broker.records ≡ false
        → IsUntouched others (opened_world others choice now (run limits ts w).broker.records) }
{}

/// From wherever a fair run comes to, a drain of a receiver ends, whatever is under way from it, a CONNECT or a SUBSCRIBE too:
/// of the copies that stand after the first round, be they those that stood or those that entered in it, twice their number
/// and one of rounds are enough. Then the queue is empty, or the broker has closed the receiver's line, or it has none. Asked:
/// that the first round spends no number (4.3, 4.4, 4.6, 4.9).
pub fn every_drain_ends()
    ensures is_within { (limits : Capacity) (ts : List Turn) (choice : MemberChoice) (client : List ℕ) (most : ℕ) (w : World)
        → IsUntouched limits w → IsFair limits ts w
        → run_spends limits (round_turns limits choice client (run limits ts w)) (run limits ts w) ≡ false
        → rounds_taken limits choice client most (run limits ts w)
        ≤ enough_rounds (copies_left client (after_round limits choice client (run limits ts w))) }
    ensures is_over { (limits : Capacity) (ts : List Turn) (choice : MemberChoice) (client : List ℕ) (most : ℕ) (w : World)
        → IsUntouched limits w → IsFair limits ts w
        → run_spends limits (round_turns limits choice client (run limits ts w)) (run limits ts w) ≡ false
        → enough_rounds (copies_left client (after_round limits choice client (run limits ts w))) ≤ most
        → is_over client (drained limits choice client most (run limits ts w)) ≡ true }
{}

/// At the end of any fair run: if the broker reads a receiver's PUBACK, on its line or on the one that it gave up, and
/// whether it stops after the commit of that step or not, whatever copy of QoS 1 ends as taken in it was read by the
/// receiver, at least once (4.3.2).
pub fn what_is_acknowledged_was_read()
    ensures reads { (limits : Capacity) (ts : List Turn) (choice : MemberChoice) (w : World) → IsUntouched limits w
        → IsFair limits ts w → (client : List ℕ) (i code : ℕ) (rest : List Back) (r : Receiver)
        → receiver_named client (run limits ts w) ≡ Some r → r.line.up ≡ answers (puback i code) ∷ rest
        → AreRead r (record { limits = limits; choice = choice }) (to_broker client) (run limits ts w) }
    ensures reads_old { (limits : Capacity) (ts : List Turn) (choice : MemberChoice) (w : World) → IsUntouched limits w
        → IsFair limits ts w → (client : List ℕ) (i code : ℕ) (rest : List Back) (r : Receiver)
        → receiver_named client (run limits ts w) ≡ Some r → r.line.old ≡ answers (puback i code) ∷ rest
        → AreRead r (record { limits = limits; choice = choice }) (old_to_broker client) (run limits ts w) }
{}

/// Over any events of a run, from any moment at which a receiver has come: of all the copies that stood in its queue at that
/// moment or after any of the events, those that it was handed by their end stand in its ledger in the order in which they came to
/// the queue, also if two of them never stood there together; and so they entered, in that order, behind those that stood
/// there at that moment; none does when the receiver comes, if no session of its name stands. So the whole ledger of each receiver is in the order in which the
/// copies entered over the run (4.3.3, 4.6).
pub fn copies_are_handed_over_as_they_entered()
    ensures as_come { (limits : Capacity) (xs ys : List Turn) (w : World) → IsUntouched limits w
        → IsFair limits (xs ++ ys) w → (client : List ℕ) (q r : Receiver)
        → receiver_named client (run limits xs w) ≡ Some q → receiver_named client (run limits (xs ++ ys) w) ≡ Some r
        → AreHandedInOrder (come_over client limits ys (run limits xs w)) r }
    ensures come { (limits : Capacity) (xs ys : List Turn) (w : World) → IsUntouched limits w
        → IsFair limits (xs ++ ys) w → (client : List ℕ) (q : Receiver) → receiver_named client (run limits xs w) ≡ Some q
        → stand_among (come_over client limits ys (run limits xs w))
        (queue_at client (run limits xs w) ++ entered_from limits ys (run limits xs w)) ≡ true }
    ensures as_entered { (limits : Capacity) (xs ys : List Turn) (w : World) → IsUntouched limits w
        → IsFair limits (xs ++ ys) w → (client : List ℕ) (q r : Receiver)
        → receiver_named client (run limits xs w) ≡ Some q → receiver_named client (run limits (xs ++ ys) w) ≡ Some r
        → stand_among (filter (is_among (come_over client limits ys (run limits xs w))) (copies_in r.ledger))
        (queue_at client (run limits xs w) ++ entered_from limits ys (run limits xs w)) ≡ true }
    // From when it has read nothing and is told of nothing, as when it comes, its whole ledger is in the order of entering.
    ensures whole { (limits : Capacity) (xs ys : List Turn) (w : World) → IsUntouched limits w
        → IsFair limits (xs ++ ys) w → (client : List ℕ) (q r : Receiver)
        → receiver_named client (run limits xs w) ≡ Some q → receiver_named client (run limits (xs ++ ys) w) ≡ Some r
        → q.ledger ≡ [] → q.line.down ≡ []
        → stand_among (copies_in r.ledger) (queue_at client (run limits xs w) ++ entered_from limits ys (run limits xs w)) ≡ true }
    ensures first { (client : List ℕ) (window aliases : ℕ) (set : Setting) (w : World) → is_bad (receiver client window aliases) w ≡ false
        → begins_clean (receiver client window aliases) w ≡ true → queue_at client (happens set (receiver client window aliases) w) ≡ [] }
    // So it is of every receiver, over the whole run.
    ensures all { (limits : Capacity) (ts : List Turn) (w : World) → IsUntouched limits w → IsFair limits ts w
        → (client : List ℕ) (r : Receiver) → receiver_named client (run limits ts w) ≡ Some r
        → stand_among (copies_in r.ledger) (entered_from limits ts w) ≡ true }
{}
