//! Laws of copies that fit with their whole topics (3.1.2.11.4, 3.3.2.3.4).
ghost use Rattle.std.specs.Prelude.{ℕ, List};
ghost use Rattle.mqtt_rules.specs.declared.step.Capacity.{Capacity};
ghost use Rattle.mqtt_world_model.specs.model.Run.{Turn, run};
ghost use Rattle.mqtt_world_model.specs.model.World.{World, start};
ghost use Rattle.mqtt_world_laws.specs.acceptance.Fair.{IsFair};
ghost use Rattle.mqtt_world_laws.specs.delivery.Untouched.{IsUntouched};
ghost use Rattle.mqtt_world_laws.specs.fitting.Whole.{ItsCopiesFit, ItsPumpsAreWhole};

/// Wherever a fair run comes to, the copies of each receiver fit with their whole topics on its line: what is stored is what
/// packets can carry, and its CONNECT names no Maximum Packet Size. So a pump of its session goes by whole topics (2.1.4,
/// 3.1.2.11.4).
pub fn whole_copies_fit_in_every_run()
    ensures runs { (limits : Capacity) (ts : List Turn) (w : World) (client : List ℕ) → IsUntouched limits w
        → IsFair limits ts w → ItsCopiesFit client (run limits ts w) }
    ensures from_nothing { (limits : Capacity) (ts : List Turn) (client : List ℕ) → IsFair limits ts start
        → ItsCopiesFit client (run limits ts start) }
    ensures pumps { (limits : Capacity) (ts : List Turn) (w : World) (client : List ℕ) → IsUntouched limits w
        → IsFair limits ts w → ItsPumpsAreWhole client (run limits ts w) }
{}
