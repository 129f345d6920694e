//! Laws of events in which the broker makes several steps (2.1, 4.1).
ghost use Rattle.std.specs.Prelude.{◌≡◌, ℕ, false, List, ◌++◌, map};
ghost use Rattle.mqtt_world_model.specs.model.Run.{run, turned};
ghost use Rattle.mqtt_world_model.specs.model.World.{Asking, Event, Setting, World, ask, is_bad, restart, start, step, stop_after, stranger};
ghost use Rattle.mqtt_rules.specs.declared.step.Capacity.{Capacity};
ghost use Rattle.mqtt_rules.specs.step.State.{MemberChoice};
ghost use Rattle.mqtt_world_model.specs.single_steps.Unrolled.{AreAlike, AreAllAlike, HoldNoPacket, IsDecided, IsOneStep, IsWhole, Unrolls};
ghost use Rattle.mqtt_world_model.specs.single_steps.Unrolled.{bytes_come, turn};

/// Bytes of a stranger may come in two events, the first of which ends with a packet: both come to what the one
/// event does. So the answers to a stranger are those to its packets, one after the other (2.1).
pub fn bytes_come_packet_by_packet()
    ensures splits { (set : Setting) (name part more : List ℕ) (w : World)
        → AreAlike name w → IsWhole (bytes_come name part w) → is_bad (ask (stranger name (part ++ more))) w ≡ false
        → step set (ask (stranger name (part ++ more))) w
        ≡ step set (ask (stranger name more)) (step set (ask (stranger name part)) w) }
{}

/// A stop after the commit of what is asked for is that, with all that goes out, and then a restart, if it is
/// one step of the broker; and of a stranger's bytes those behind the first packet do nothing to it (4.1).
pub fn a_stop_after_is_a_step_and_a_restart()
    ensures is { (set : Setting) (a : Asking) (w : World)
        → IsOneStep a w → is_bad (stop_after a) w ≡ false
        → step set (stop_after a) w ≡ step set restart (step set (ask a) w) }
    ensures first { (set : Setting) (name part more : List ℕ) (w : World)
        → AreAlike name w → IsDecided (bytes_come name part w)
        → is_bad (stop_after (stranger name (part ++ more))) w ≡ false
        → step set (stop_after (stranger name (part ++ more))) w ≡ step set (stop_after (stranger name part)) w }
{}

/// An event that is not bad does what the events of one step each do to which it comes, if the broker chooses
/// alike in all of them. So who tells a run by events of one step, each with a choice of its own, tells no more
/// than what events may do.
pub fn an_event_is_its_steps()
    ensures is { (limits : Capacity) (choice : MemberChoice) (e : Event) (es : List Event) (w : World)
        → AreAllAlike w → is_bad e w ≡ false → Unrolls e w es
        → run limits (map (turn choice) es) w ≡ turned limits (turn choice e) w }
{}

/// Each event comes to some events of one step each, if nothing whole is held of a stranger's bytes; and so it
/// is in every run that begins with nobody (2.1).
pub fn every_event_comes_to_steps()
    ensures some { (e : Event) (w : World) → HoldNoPacket w → (es : List Event) × Unrolls e w es }
    ensures begins { HoldNoPacket start }
    ensures stays { (set : Setting) (e : Event) (w : World)
        → AreAllAlike w → HoldNoPacket w → HoldNoPacket (step set e w) }
{}

/// Strangers of one name hold the same bytes in every run that begins with nobody: each name is that of one.
pub fn strangers_of_a_name_are_alike()
    ensures begins { AreAllAlike start }
    ensures stays { (set : Setting) (e : Event) (w : World) → AreAllAlike w → AreAllAlike (step set e w) }
{}
