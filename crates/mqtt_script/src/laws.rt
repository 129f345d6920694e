//! What holds of every line of a script (ours).

ghost use Rattle.std.specs.Prelude.{◌≡◌, List, ℕ};
ghost use Rattle.mqtt_script.specs.Lines.{IsLineOf};
ghost use Rattle.mqtt_script.specs.declared.event.Event.{Event};

/// A line is that of one event at most.
pub fn one_event()
    ensures { (line : List ℕ) (event other : Event) → IsLineOf event line → IsLineOf other line
        → event ≡ other }
{}
