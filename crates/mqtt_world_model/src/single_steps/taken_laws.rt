//! Laws of what is under way from the ends of the world: the broker takes it (1.5.4, 2.2.1, 3.1, 3.3, 3.8).
ghost use Rattle.std.specs.Prelude.{◌≡◌, List, []};
ghost use Rattle.std.specs.List.{AllByRecursion};
ghost use Rattle.mqtt_world_model.specs.model.Run.{Turn, run, turned};
ghost use Rattle.mqtt_world_model.specs.model.World.{World};
ghost use Rattle.mqtt_rules.specs.declared.step.Capacity.{Capacity};
ghost use Rattle.mqtt_world_model.specs.single_steps.Sound.{AreSound};
ghost use Rattle.mqtt_world_model.specs.single_steps.Taken.{IsTakenFrom, IsTakenFromReceiver};

/// In each run that begins with nobody the broker takes every packet that is under way from an end, on its line and on
/// the one that it gave up last: it has a spelling, and is no larger than the broker lets through. Nothing is asked of
/// the events: one that brings no text is bad, and does nothing. Of an answer of a receiver is asked that its packet
/// identifier is one, which is that of the broker's packet that it answers (1.5.4, 2.2.1, 3.1, 3.3, 3.8).
pub fn packets_of_ends_are_taken()
    ensures publishers { (limits : Capacity) (ts : List Turn) (w : World) → w.publishers ≡ [] → w.receivers ≡ []
        → AllByRecursion IsTakenFrom (run limits ts w).publishers }
    ensures receivers { (limits : Capacity) (ts : List Turn) (w : World) → w.publishers ≡ [] → w.receivers ≡ []
        → AllByRecursion IsTakenFromReceiver (run limits ts w).receivers }
{}

/// What goes on from event to event so that this is so: each end has sent, and will send, what the broker takes, whatever comes
/// (2.2.1, 4.3, 4.4).
pub fn ends_stay_sound()
    ensures begins { (w : World) → w.publishers ≡ [] → w.receivers ≡ [] → AreSound w }
    ensures stays { (limits : Capacity) (t : Turn) (w : World) → AreSound w → AreSound (turned limits t w) }
    ensures publishers { (w : World) → AreSound w → AllByRecursion IsTakenFrom w.publishers }
    ensures receivers { (w : World) → AreSound w → AllByRecursion IsTakenFromReceiver w.receivers }
{}
