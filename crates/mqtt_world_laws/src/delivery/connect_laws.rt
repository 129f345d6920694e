//! Laws of a receiver's CONNECT, as the broker reads it: what the receiver sees stays a run of its hop (3.1, 3.1.4).
ghost use Rattle.std.specs.Prelude.{◌≡◌, ◌∷◌, ℕ, Bool, List, Some, false};
ghost use Rattle.mqtt_base.specs.declared.session.CopyId.{CopyId};
ghost use Rattle.mqtt_world_laws.specs.delivery.Alone.{HaveSentNothing};
ghost use Rattle.mqtt_world_laws.specs.delivery.Standing.{Stands};
ghost use Rattle.mqtt_flow.specs.outbound.Receiver.{connect};
ghost use Rattle.mqtt_world_model.specs.model.Ends.{Back, Receiver, answers};
ghost use Rattle.mqtt_world_model.specs.model.Run.{read_first};
ghost use Rattle.mqtt_world_model.specs.model.World.{Setting, World, asks, old_to_broker, receiver_named, to_broker};
ghost use Rattle.mqtt_world_laws.specs.acceptance.Spending.{spending};

/// The broker reads a receiver's CONNECT, on its line or on the one that it gave up: its session is resumed there, or one
/// begins, be it the first of its name or instead of the one before, or there is no place for one and that line closes; the
/// receiver stands as before. Asked: nothing went out on lines on which nobody is connected (3.1.2.4, 3.1.4, 3.2.2.2).
pub fn a_connect_leaves_a_receiver_standing()
    ensures reads { (first : List CopyId) (client : List ℕ) (clean : Bool) (rest : List Back) (largest : ℕ) (set : Setting) (r : Receiver)
        → (w : World) → Stands first client largest set.limits w → receiver_named client w ≡ Some r → HaveSentNothing w.broker
        → r.line.up ≡ answers (connect clean) ∷ rest → read_first spending set (to_broker client) w ≡ false
        → Stands first client largest set.limits (asks set (to_broker client) w) }
    ensures reads_old { (first : List CopyId) (client : List ℕ) (clean : Bool) (rest : List Back) (largest : ℕ) (set : Setting) (r : Receiver)
        → (w : World) → Stands first client largest set.limits w → receiver_named client w ≡ Some r → HaveSentNothing w.broker
        → r.line.old ≡ answers (connect clean) ∷ rest → read_first spending set (old_to_broker client) w ≡ false
        → Stands first client largest set.limits (asks set (old_to_broker client) w) }
{}
