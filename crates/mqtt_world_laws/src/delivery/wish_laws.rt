//! Laws of a receiver's SUBSCRIBE in the world: what it sees stays a run of its hop (3.3.1.3, 3.8.4).
ghost use Rattle.std.specs.Prelude.{◌≡◌, ◌∷◌, ℕ, List, Some, false};
ghost use Rattle.mqtt_base.specs.declared.session.CopyId.{CopyId};
ghost use Rattle.mqtt_world_laws.specs.delivery.Retaining.{AreRetainedOnce};
ghost use Rattle.mqtt_world_laws.specs.delivery.Standing.{Stands};
ghost use Rattle.mqtt_world_model.specs.model.Ends.{Back, Receiver, Wish, asks_for};
ghost use Rattle.mqtt_world_model.specs.model.Run.{Turn, read_at, read_first, setting, turned};
ghost use Rattle.mqtt_world_model.specs.model.World.{Setting, World, asks, old_to_broker, receiver_named, to_broker};
ghost use Rattle.mqtt_rules.specs.step.Laws.{AreWithin};
ghost use Rattle.mqtt_rules.specs.declared.step.Capacity.{Capacity};
ghost use Rattle.mqtt_world_laws.specs.acceptance.Fair.{IsSteady};
ghost use Rattle.mqtt_world_laws.specs.acceptance.Spending.{spending};

/// The broker reads a receiver's own SUBSCRIBE, on its line or on the one that it gave up: the receiver stands, with the
/// copies of retained messages that the filter brings behind those of before, if no two retained messages are of one
/// publication (3.3.1.3, 3.8.4).
pub fn a_subscribe_leaves_a_receiver_standing()
    ensures reads { (first : List CopyId) (client : List ℕ) (wish : Wish) (rest : List Back) (largest : ℕ) (set : Setting) (r : Receiver)
        → (w : World) → Stands first client largest set.limits w → receiver_named client w ≡ Some r
        → r.line.up ≡ asks_for wish ∷ rest → AreRetainedOnce w.broker.records
        → read_first spending set (to_broker client) w ≡ false
        → Stands first client largest set.limits (asks set (to_broker client) w) }
    ensures reads_old { (first : List CopyId) (client : List ℕ) (wish : Wish) (rest : List Back) (largest : ℕ) (set : Setting) (r : Receiver)
        → (w : World) → Stands first client largest set.limits w → receiver_named client w ≡ Some r
        → r.line.old ≡ asks_for wish ∷ rest → AreRetainedOnce w.broker.records
        → read_first spending set (old_to_broker client) w ≡ false
        → Stands first client largest set.limits (asks set (old_to_broker client) w) }
{}

/// Whatever happens in the world, no two retained messages are of one publication, if so it was before: each publication
/// is retained in one place at most (3.3.1.3).
pub fn retained_messages_stay_of_different_publications()
    ensures turns { (limits : Capacity) (t : Turn) (w : World) → AreWithin limits → IsSteady w.broker
        → read_at spending (setting limits t) t.event w ≡ false → AreRetainedOnce w.broker.records
        → AreRetainedOnce (turned limits t w).broker.records }
{}
