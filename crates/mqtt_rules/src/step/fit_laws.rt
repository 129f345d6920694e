//! Laws of what is stored: the rows of a step fit, and what they make of coherent records is coherent.
ghost use Rattle.std.specs.Prelude.{◌≡◌, ℕ, false};
ghost use Rattle.mqtt_records.specs.state.Records.{FitAll, IsNumber, nothing};
ghost use Rattle.mqtt_records.specs.declared.state.records.Records.{Records};
ghost use Rattle.mqtt_rules.specs.step.Laws.{AreWithin, IsCoherent};
ghost use Rattle.mqtt_rules.specs.step.Numbers.{IsTimed};
ghost use Rattle.mqtt_rules.specs.step.State.{Broker, MemberChoice, stored};
ghost use Rattle.mqtt_rules.specs.step.Step.{Call, at_moment, deeds, is_opening_spent, is_step_spent, opened, opening_deeds, rows_written, stepped, unopened};
ghost use Rattle.mqtt_rules.specs.declared.step.Capacity.{Capacity as TheCapacity};

/// The rows of a step fit what is stored, and so do those of an opening, if no number is spent and the
/// broker's limits are within those of the tables: no number falls, no table outgrows its limit, what a
/// row refers to stands, and client identifiers, retained topics and places stay apart. For that the
/// records have to be coherent, as they are at first and after each such step and opening (4.1).
pub fn rows_always_fit()
    ensures nothing { IsCoherent nothing }
    ensures step { (limits : TheCapacity) (choice : MemberChoice) (now : ℕ) (call : Call) (b : Broker)
        → AreWithin limits → IsCoherent (stored b) → IsTimed b → IsNumber b.now
        → is_step_spent limits choice now call b ≡ false
        → FitAll (rows_written (deeds limits choice now call b) (at_moment now b)) (stored b) }
    ensures coherent { (limits : TheCapacity) (choice : MemberChoice) (now : ℕ) (call : Call) (b : Broker)
        → AreWithin limits → IsCoherent (stored b) → IsTimed b → IsNumber b.now
        → is_step_spent limits choice now call b ≡ false
        → IsCoherent (stored (stepped limits choice now call b)) }
    ensures moment { (limits : TheCapacity) (choice : MemberChoice) (now : ℕ) (call : Call) (b : Broker)
        → IsNumber b.now → IsNumber (stepped limits choice now call b).now }
    ensures opening { (limits : TheCapacity) (choice : MemberChoice) (now : ℕ) (r : Records)
        → AreWithin limits → IsCoherent r → is_opening_spent limits choice now r ≡ false
        → FitAll (rows_written (opening_deeds limits choice now r) (unopened now r)) r }
    ensures opened_coherent { (limits : TheCapacity) (choice : MemberChoice) (now : ℕ) (r : Records)
        → AreWithin limits → IsCoherent r → is_opening_spent limits choice now r ≡ false
        → IsCoherent (stored (opened limits choice now r)) }
    ensures opened_moment { (limits : TheCapacity) (choice : MemberChoice) (now : ℕ) (r : Records)
        → IsNumber (opened limits choice now r).now }
{}
