//! Laws of what ends of a world make of what goes out to them (3.1.2.11.5, 3.3.2.3.4).
ghost use Rattle.std.specs.Prelude.{◌≡◌, false, ℕ, List, Some};
ghost use Rattle.mqtt_packet.specs.declared.codec.packet.Packet.{Packet};
ghost use Rattle.mqtt_records.specs.declared.state.records.Records.{Records};
ghost use Rattle.mqtt_rules.specs.step.State.{MemberChoice};
ghost use Rattle.mqtt_rules.specs.step.Step.{Call, told};
ghost use Rattle.mqtt_rules.specs.declared.step.Capacity.{Capacity};
ghost use Rattle.mqtt_rules.specs.granting.Naming.{EndsWithUsers, StoresNamed};
ghost use Rattle.mqtt_rules.specs.telling.Meaning.{HasItsTopic, Means};
ghost use Rattle.mqtt_topic.specs.names.Aliases.{AliasTable};
ghost use Rattle.mqtt_world_laws.specs.acceptance.Fair.{opened_world};
ghost use Rattle.mqtt_world_model.specs.model.Run.{Turn, run};
ghost use Rattle.mqtt_world_model.specs.model.World.{Asking, Event, Setting, World, before, call_of, calls, happens, is_bad};
ghost use Rattle.mqtt_world_laws.specs.knowing.Knowing.{AllIsUnderstood, HasKnowingEnds, TakesAsEnds, as_read};

/// A packet that means another to a reader is read as that one: a PUBLISH that was meant has its topic and no alias,
/// and its User Properties come last (3.3.2.3, 3.3.2.3.4).
pub fn what_means_a_packet_is_read_as_it()
    ensures read { (known : AliasTable) (out meant : Packet) → Means known out meant → HasItsTopic meant
        → EndsWithUsers meant → as_read known out ≡ Some meant }
{}

/// The ends of a world know what they were told by aliases, each as many as it takes, whatever others are told, in every
/// run from an opening on what names its topics, with lost lines, restarts and stops. And whatever is asked of the broker
/// brings no CONNECT on the line of an end that takes more than that end: each has lines of its own (3.1.2.11.5).
pub fn ends_know_what_they_were_told()
    ensures opened { (limits : Capacity) (choice : MemberChoice) (now : ℕ) (r : Records) → StoresNamed r
        → HasKnowingEnds (opened_world limits choice now r) }
    ensures happens { (set : Setting) (e : Event) (w : World) → is_bad e w ≡ false → HasKnowingEnds w
        → HasKnowingEnds (happens set e w) }
    ensures run { (limits : Capacity) (ts : List Turn) (w : World) → HasKnowingEnds w
        → HasKnowingEnds (run limits ts w) }
    ensures asked { (set : Setting) (a : Asking) (call : Call) (w : World) → HasKnowingEnds w
        → call_of set a w ≡ Some call → TakesAsEnds call (before set a w) }
{}

/// So each packet that goes out to them means to them what was meant, and they read it as that: a PUBLISH of its topic,
/// without an alias. To an end that takes no alias it goes out as it is meant. And they know after the call what they
/// were told by it (3.3.2.3.4).
pub fn ends_read_what_was_meant()
    ensures out { (set : Setting) (call : Call) (w : World) → HasKnowingEnds w → TakesAsEnds call w
        → AllIsUnderstood (told set.limits set.choice w.now call w.broker) w.publishers w.receivers }
    ensures after { (set : Setting) (call : Call) (w : World) → HasKnowingEnds w → TakesAsEnds call w
        → HasKnowingEnds (calls set call w) }
{}
