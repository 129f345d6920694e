//! Laws of what holds of the broker alone in every run of the world (2.2.1, 3.1, 3.1.4).
ghost use Rattle.std.specs.Prelude.{◌≡◌, ℕ, List, false};
ghost use Rattle.mqtt_world_laws.specs.delivery.Alone.{HaveSentNothing};
ghost use Rattle.mqtt_world_model.specs.model.Run.{Turn, read_in, run};
ghost use Rattle.mqtt_world_model.specs.model.World.{Event, Setting, World, happens, is_bad, start};
ghost use Rattle.mqtt_records.specs.declared.state.records.Records.{Records};
ghost use Rattle.mqtt_rules.specs.step.Flight.{HasDistinctIdentifiers};
ghost use Rattle.mqtt_rules.specs.step.Laws.{AreWithin};
ghost use Rattle.mqtt_rules.specs.step.Lines.{HasUniqueLines};
ghost use Rattle.mqtt_rules.specs.step.State.{Broker, MemberChoice};
ghost use Rattle.mqtt_rules.specs.step.Step.{Call, opened, stepped};
ghost use Rattle.mqtt_rules.specs.declared.step.Capacity.{Capacity};
ghost use Rattle.mqtt_world_laws.specs.acceptance.Fair.{IsFair, IsNew, IsSteady};
ghost use Rattle.mqtt_world_laws.specs.acceptance.Spending.{spending};

/// No two copies in flight in a session have the same packet identifier, after any event and in every run, from what is
/// stored of which that holds (2.2.1).
pub fn identifiers_in_flight_stay_unique()
    ensures event { (e : Event) (set : Setting) (w : World) → AreWithin set.limits → IsSteady w.broker
        → is_bad e w ≡ false → read_in spending set e w ≡ false → HasDistinctIdentifiers w.broker.records
        → HasDistinctIdentifiers (happens set e w).broker.records }
    ensures runs { (limits : Capacity) (ts : List Turn) (w : World) → IsNew w → IsFair limits ts w
        → HasDistinctIdentifiers w.broker.records → HasDistinctIdentifiers (run limits ts w).broker.records }
{}

/// If nobody is connected on a line, no copy went out on it, after any step, opening or event, and in every run, from a
/// broker of which that holds (3.1, 3.1.4).
pub fn a_line_without_session_has_sent_nothing()
    ensures empty { HaveSentNothing start.broker }
    ensures step { (limits : Capacity) (choice : MemberChoice) (now : ℕ) (call : Call) (b : Broker) → HasUniqueLines b
        → HaveSentNothing b → HaveSentNothing (stepped limits choice now call b) }
    ensures opening { (limits : Capacity) (choice : MemberChoice) (now : ℕ) (r : Records)
        → HaveSentNothing (opened limits choice now r) }
    ensures event { (e : Event) (set : Setting) (w : World) → AreWithin set.limits → IsSteady w.broker
        → is_bad e w ≡ false → read_in spending set e w ≡ false → HaveSentNothing w.broker
        → HaveSentNothing (happens set e w).broker }
    ensures runs { (limits : Capacity) (ts : List Turn) (w : World) → IsNew w → IsFair limits ts w
        → HaveSentNothing w.broker → HaveSentNothing (run limits ts w).broker }
{}
