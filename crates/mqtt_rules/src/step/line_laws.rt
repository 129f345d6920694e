//! Laws of the lines and of the sessions that are connected on them (3.1.4, 4.1).
ghost use Rattle.std.specs.Prelude.{◌≡◌, ℕ, Some, None, false};
ghost use Rattle.mqtt_records.specs.state.Records.{IsNumber};
ghost use Rattle.mqtt_records.specs.declared.state.records.Records.{Records};
ghost use Rattle.mqtt_records.specs.declared.state.session.Session.{Session};
ghost use Rattle.mqtt_rules.specs.step.Laws.{AreWithin, IsCoherent, blank};
ghost use Rattle.mqtt_rules.specs.step.Lines.{HasUniqueLines};
ghost use Rattle.mqtt_rules.specs.step.Numbers.{IsTimed};
ghost use Rattle.mqtt_rules.specs.step.State.{Broker, Line, MemberChoice, line_of, session_at, stored};
ghost use Rattle.mqtt_rules.specs.step.Step.{Call, is_step_spent, opened, stepped};
ghost use Rattle.mqtt_rules.specs.declared.step.Capacity.{Capacity as TheCapacity};

/// The numbers of lines ascend, and none is above the last one given; a session stands on at most one
/// line, and on one exactly if it stands and isn't closed. So it is before the first event and after
/// each opening, and each step keeps it if no number is spent and the records are coherent (for one
/// client identifier has one session then, so that its takeover leaves no other one on a line).
pub fn lines_are_unique()
    ensures nothing { HasUniqueLines blank }
    ensures step { (limits : TheCapacity) (choice : MemberChoice) (now : ℕ) (call : Call) (b : Broker)
        → AreWithin limits → IsCoherent (stored b) → IsTimed b → IsNumber b.now
        → is_step_spent limits choice now call b ≡ false
        → HasUniqueLines b → HasUniqueLines (stepped limits choice now call b) }
    ensures opening { (limits : TheCapacity) (choice : MemberChoice) (now : ℕ) (r : Records)
        → HasUniqueLines (opened limits choice now r) }

    // A connected session's line is the one that is found for it, and a closed one has none.
    ensures found { (b : Broker) (birth : ℕ) (s : Session)
        → HasUniqueLines b → session_at birth (stored b) ≡ Some s → s.closed ≡ None
        → (l : Line) × (line_of birth b ≡ Some l) }
    ensures closed { (b : Broker) (birth moment : ℕ) (s : Session)
        → HasUniqueLines b → session_at birth (stored b) ≡ Some s → s.closed ≡ Some moment
        → line_of birth b ≡ None }
{}
