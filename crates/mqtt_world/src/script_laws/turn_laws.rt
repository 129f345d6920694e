//! Laws of single events of a script: each happens as a turn of the world, or a few (2.1, 4.1).
ghost use Rattle.std.specs.Prelude.{◌≡◌, false, true, List, ◌∷◌, ◌++◌, [], ℕ, Bool, None, is_some};
ghost use Rattle.mqtt_world_model.specs.model.Tellings.{Telling, silent, tells};
ghost use Rattle.mqtt_world_model.specs.model.World.{Asking, Event, Setting, World, ask, before, calls, connect_end, happens, is_bad, is_bad_asking, links, next_line, restart, restarts, stop_after, stop_before, stranger, stranger_named};
ghost use Rattle.mqtt_rules.specs.step.State.{MemberChoice};
ghost use Rattle.mqtt_rules.specs.step.Step.{NewLine, is_opening_spent, stepped};
ghost use Rattle.mqtt_rules.specs.declared.step.Capacity.{Capacity};
ghost use Rattle.mqtt_world.specs.script_laws.Scripted.{Happens, is_heard, tells_if, tells_in};
ghost use Rattle.mqtt_world.specs.script_laws.Turns.{IsPlain, IsQuiet, IsReopened, IsTurn, by_choice, newcomer};
ghost use Rattle.mqtt_world_model.specs.single_steps.Unrolled.{Unrolls, turn};

/// An event that comes to one turn happens by it; what ends do tells nothing, and asks the broker for no step but a new line;
/// a restart, and a stop before or after a commit, tell nothing either (4.1).
pub fn an_event_happens_by_turns()
    ensures turn { (limits : Capacity) (e : Event) (t : Telling) (w after : World) → Unrolls e w (e ∷ [])
        → IsTurn limits e t w after → Happens limits e (tells_if (is_heard e) t) w after }
    ensures quiet { (limits : Capacity) (choice : MemberChoice) (e : Event) (w after : World) → IsQuiet e → is_bad e w ≡ false
        → after ≡ happens (by_choice limits choice) e w → Happens limits e silent w after }
    ensures joins { (limits : Capacity) (choice : MemberChoice) (client : List ℕ) (clean : Bool) (w after : World)
        → is_bad (connect_end client clean) w ≡ false
        → after ≡ links (by_choice limits choice) (next_line limits w.broker) client clean w
        → Happens limits (connect_end client clean) silent w after }
    ensures asked { (limits : Capacity) (a : Asking) (t : Telling) (w after : World) → IsPlain a
        → IsTurn limits (ask a) t w after → Happens limits (ask a) t w after }
    ensures reopens { (limits : Capacity) (w after : World) → IsReopened limits w after → Happens limits restart silent w after }
    ensures stops_before { (limits : Capacity) (choice : MemberChoice) (a : Asking) (w after : World)
        → is_bad_asking a w ≡ false
        → is_opening_spent limits choice (before (by_choice limits choice) a w).now
        (before (by_choice limits choice) a w).broker.records ≡ false
        → after ≡ restarts (by_choice limits choice) (before (by_choice limits choice) a w)
        → Happens limits (stop_before a) silent w after }
    ensures stops_after { (limits : Capacity) (a : Asking) (t : Telling) (w mid after : World) → IsPlain a
        → IsTurn limits (ask a) t w mid → IsReopened limits mid after → Happens limits (stop_after a) silent w after }
{}

/// A stop before the commit of what is asked for leaves what a restart leaves: the packet that was to be read is lost, and a
/// stranger who comes first has a name, and no line (4.1).
pub fn a_stop_before_is_a_restart()
    ensures plain { (limits : Capacity) (a : Asking) (w after : World) → IsPlain a → is_bad_asking a w ≡ false
        → IsReopened limits w after → Happens limits (stop_before a) silent w after }
    ensures there { (limits : Capacity) (name bytes : List ℕ) (w after : World) → is_some (stranger_named name w) ≡ true
        → is_bad_asking (stranger name bytes) w ≡ false → IsReopened limits w after
        → Happens limits (stop_before (stranger name bytes)) silent w after }
    ensures first { (limits : Capacity) (name bytes : List ℕ) (w after : World) → stranger_named name w ≡ None
        → is_bad_asking (stranger name bytes) w ≡ false
        → IsReopened limits (record w { strangers = w.strangers ++ newcomer name None ∷ [] }) after
        → Happens limits (stop_before (stranger name bytes)) silent w after }
{}

/// Of a new line no end hears (4.2, ours).
pub fn no_end_hears_of_a_line()
    ensures begins { (set : Setting) (w : World) → calls set NewLine w
        ≡ record w { broker = stepped set.limits set.choice w.now NewLine w.broker } }
{}

/// An event that comes to one turn tells what the event tells (4.1).
pub fn a_turn_tells_what_its_event_does()
    ensures tells { (limits : Capacity) (choice : MemberChoice) (e : Event) (w : World)
        → tells_in limits e (turn choice e ∷ []) w ≡ tells (by_choice limits choice) e w }
{}
