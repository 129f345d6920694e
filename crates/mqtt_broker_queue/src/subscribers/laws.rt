//! Laws of what an index can follow: the rows of steps and openings (MQTT 5.0, 3.8.2.1.2, 3.8.4).
ghost use Rattle.std.specs.Prelude.{ℕ, List};
ghost use Rattle.mqtt_keep.specs.lawful.Lawful.{IsLawful};
ghost use Rattle.mqtt_records.specs.state.Records.{IsNumber, changed_all};
ghost use Rattle.mqtt_records.specs.declared.state.change.Change.{Change};
ghost use Rattle.mqtt_records.specs.declared.state.records.Records.{Records};
ghost use Rattle.mqtt_rules.specs.step.Contents.{HasLawfulContents, TakesLawful};
ghost use Rattle.mqtt_rules.specs.step.Deeds.{rows_of_all};
ghost use Rattle.mqtt_rules.specs.step.Laws.{AreWithin, IsCoherent, IsOrdered};
ghost use Rattle.mqtt_rules.specs.step.State.{Broker, MemberChoice, stored};
ghost use Rattle.mqtt_rules.specs.step.Step.{Call, at_moment, deeds, opening_deeds, rows_written, unopened};
ghost use Rattle.mqtt_rules.specs.declared.step.Capacity.{Capacity};
ghost use Rattle.mqtt_broker_step.specs.Subscribing.{HaveFiltersOnce};
ghost use Rattle.mqtt_broker_queue.specs.subscribers.Following.{CanAllBeFollowed, CanBeIndexed};

/// An index can follow the rows of every step on a packet that is lawful, and those of every opening: a
/// subscription that they put has room, keeps its place or comes last, and its Subscription Identifier has a
/// spelling. Records that a store may be opened with can be indexed, and so can what such rows make of them.
pub fn rows_can_be_followed()
    ensures deeds { (limits : Capacity) (choice : MemberChoice) (now : ℕ) (call : Call) (b : Broker)
        → AreWithin limits → IsCoherent (stored b) → IsNumber b.now → TakesLawful call
        → CanAllBeFollowed (rows_of_all (deeds limits choice now call b) (stored b)) (stored b) }

    // With the row of its moment.
    ensures step { (limits : Capacity) (choice : MemberChoice) (now : ℕ) (call : Call) (b : Broker)
        → AreWithin limits → IsCoherent (stored b) → IsNumber b.now → TakesLawful call
        → CanAllBeFollowed
        (rows_written (deeds limits choice now call b) (at_moment now b)) (stored b) }
    ensures opening { (limits : Capacity) (choice : MemberChoice) (now : ℕ) (r : Records)
        → AreWithin limits → IsCoherent r
        → CanAllBeFollowed
        (rows_written (opening_deeds limits choice now r) (unopened now r)) r }
    ensures changed { (changes : List Change) (r : Records) → CanBeIndexed r
        → CanAllBeFollowed changes r → CanBeIndexed (changed_all changes r) }
    ensures indexed { (r : Records) → IsOrdered r → HaveFiltersOnce r → HasLawfulContents r
        → CanBeIndexed r }
    ensures lawful { (r : Records) → IsLawful r → CanBeIndexed r }
{}
