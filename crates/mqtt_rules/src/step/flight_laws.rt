//! Packet identifiers in flight (2.2.1).
ghost use Rattle.std.specs.Prelude.{ℕ, List};
ghost use Rattle.mqtt_records.specs.declared.state.records.Records.{Records};
ghost use Rattle.mqtt_records.specs.state.Records.{nothing};
ghost use Rattle.mqtt_rules.specs.declared.step.Capacity.{Capacity};
ghost use Rattle.mqtt_rules.specs.step.State.{Broker, MemberChoice};
ghost use Rattle.mqtt_rules.specs.step.Step.{Call, stepped, opened};
ghost use Rattle.mqtt_rules.specs.step.Flight.{HasDistinctIdentifiers};

/// No two copies in flight in a session have the same packet identifier: so it is before the first
/// session, and every step and every opening keep it, whatever is called, for all limits and
/// whichever members of groups are chosen (2.2.1).
pub fn identifiers_in_flight_are_unique()
    ensures nothing { HasDistinctIdentifiers nothing }
    ensures step { (limits : Capacity) (choice : MemberChoice) (now : ℕ) (call : Call) (b : Broker)
        → HasDistinctIdentifiers b.records
        → HasDistinctIdentifiers (stepped limits choice now call b).records }
    ensures opening { (limits : Capacity) (choice : MemberChoice) (now : ℕ) (r : Records)
        → HasDistinctIdentifiers r
        → HasDistinctIdentifiers (opened limits choice now r).records }
{}
