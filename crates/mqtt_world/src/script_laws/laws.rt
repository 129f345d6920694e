//! Laws of the runs of scripts (4.1, 4.3, 4.4, 4.6).
ghost use Rattle.std.specs.Prelude.{◌≡◌, ℕ, List, [], ◌∷◌, ◌++◌, Some, false};
ghost use Rattle.mqtt_world_laws.specs.headline.Delivery.{DeliversExactlyOnce};
ghost use Rattle.mqtt_world_laws.specs.headline.Lives.{BeginsWell};
ghost use Rattle.mqtt_world_model.specs.model.Run.{Turn};
ghost use Rattle.mqtt_world_model.specs.model.Tellings.{Telling};
ghost use Rattle.mqtt_world_model.specs.model.World as world;
ghost use Rattle.mqtt_world_model.specs.model.World.{World};
ghost use Rattle.mqtt_rules.specs.step.Laws.{AreWithin};
ghost use Rattle.mqtt_rules.specs.declared.step.Capacity.{Capacity};
ghost use Rattle.mqtt_script.specs.declared.event.Event.{Event};
ghost use Rattle.mqtt_script.specs.declared.event.Event.TheVariants.{Drain};
ghost use Rattle.mqtt_world.specs.script_laws.Cleanly.{BeginClean, ComesFairly};
ghost use Rattle.mqtt_world.specs.script_laws.Drains.{DrainHappens};
ghost use Rattle.mqtt_world.specs.script_laws.Scripted.{AreTurnsOf, Happens, IsRunOf, RunsTo, event_of};
ghost use Rattle.mqtt_world_laws.specs.acceptance.Fair.{IsFair};
ghost use Rattle.mqtt_world_laws.specs.delivery.Untouched.{IsUntouched};
ghost use Rattle.mqtt_world_laws.specs.acceptance.Spending.{run_spends};

/// What a script's events do, one after the other, is what turns of the world do that are of one step of the broker each, and
/// none of them spends a number (4.1).
pub fn a_script_runs_by_turns()
    ensures is { (limits : Capacity) (es : List Event) (tells : List Telling) (w after : World)
        → RunsTo limits es tells w after → IsRunOf limits es w after }
{}

/// A script's events may come in several runs, each from where the one before it ended: together they are one run; so with
/// one event more, and with a drain more.
pub fn scripts_follow_one_another()
    ensures joins { (limits : Capacity) (es more : List Event) (tells others : List Telling) (w mid after : World)
        → RunsTo limits es tells w mid → RunsTo limits more others mid after
        → RunsTo limits (es ++ more) (tells ++ others) w after }
    ensures further { (limits : Capacity) (es : List Event) (tells : List Telling) (e : Event) (x : world.Event)
        (t : Telling) (w mid after : World) → RunsTo limits es tells w mid
        → event_of e ≡ Some x → Happens limits x t mid after → RunsTo limits (es ++ e ∷ []) (tells ++ t ∷ []) w after }
    ensures drained { (limits : Capacity) (es : List Event) (tells : List Telling) (client : List ℕ) (t : Telling)
        (w mid after : World) → RunsTo limits es tells w mid → DrainHappens limits client t mid after
        → RunsTo limits (es ++ Drain client ∷ []) (tells ++ t ∷ []) w after }
{}

/// Exactly-once delivery, of scripts: whatever turns a script's events come to, all that is proved of every run of the world
/// holds of them, if no number is spent and ends begin clean. Ends begin clean in whatever turns a script comes to, if they
/// do by its events alone (`fair`, and `comes` of a script that ran). Of where the script begins is asked what every run asks
/// (3.1.2.4, 3.3.4, 4.3, 4.4, 4.6, 4.8, 4.9).
pub fn whatever_a_script_does()
    ensures delivers { (limits : Capacity) (es : List Event) (turns : List Turn) (w : World)
        → BeginsWell limits w → AreTurnsOf limits es turns w → IsFair limits turns w → DeliversExactlyOnce limits turns w }
    ensures fair { (limits : Capacity) (es : List Event) (turns : List Turn) (w : World) → AreWithin limits
        → IsUntouched limits w → BeginClean limits es w → AreTurnsOf limits es turns w
        → run_spends limits turns w ≡ false → IsFair limits turns w }
    ensures comes { (limits : Capacity) (es : List Event) (tells : List Telling) (w after : World) → AreWithin limits
        → IsUntouched limits w → BeginClean limits es w → RunsTo limits es tells w after → ComesFairly limits es w after }
{}
