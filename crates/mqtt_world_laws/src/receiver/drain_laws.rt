//! Laws of drains (4.3, 4.4, 4.6).
ghost use Rattle.std.specs.Prelude.{◌≡◌, List};
ghost use Rattle.mqtt_world_laws.specs.receiver.Drains.{Doing, after_doings, all_turns};
ghost use Rattle.mqtt_world_model.specs.model.Run.{run};
ghost use Rattle.mqtt_world_model.specs.model.World.{World};
ghost use Rattle.mqtt_rules.specs.declared.step.Capacity.{Capacity};

/// A script in which some receivers are drained, between other events, is a run of the world: that of its events
/// and of those that each round of a drain is made of. So what holds of every run holds of it.
pub fn a_script_with_drains_is_a_run()
    ensures is_run { (limits : Capacity) (ds : List Doing) (w : World)
        → after_doings limits ds w ≡ run limits (all_turns limits ds w) w }
{}
