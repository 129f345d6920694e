//! What a receiver's line takes, over every event of the world (3.1.2.11.3, 3.1.2.11.4).
ghost use Rattle.std.specs.Prelude.{◌≡◌, ℕ, List, Some};
ghost use Rattle.mqtt_base.specs.declared.session.CopyId.{CopyId};
ghost use Rattle.mqtt_world_laws.specs.delivery.Standing.{Stands};
ghost use Rattle.mqtt_world_laws.specs.delivery.Taking.{ItsLineTakes, TakesAsAsked};
ghost use Rattle.mqtt_world_model.specs.model.Ends.{Receiver};
ghost use Rattle.mqtt_world_model.specs.model.Run.{Turn, turned};
ghost use Rattle.mqtt_world_model.specs.model.World.{World, receiver_named};
ghost use Rattle.mqtt_rules.specs.step.State.{Line, line_at};
ghost use Rattle.mqtt_rules.specs.declared.step.Capacity.{Capacity};
ghost use Rattle.mqtt_world_laws.specs.acceptance.Fair.{IsNew};

/// If a session is connected on a receiver's line, the line has what the receiver's CONNECT says: its Receive Maximum,
/// and packets of any size, since it names no Maximum Packet Size. It is so in a new world, and after each turn, whatever
/// happens in it: no other CONNECT is read there (3.1.2.11.3, 3.1.2.11.4).
pub fn its_line_takes_what_its_connect_says()
    ensures begins { (client : List ℕ) (w : World) → IsNew w → ItsLineTakes client w }
    ensures keeps { (first : List CopyId) (client : List ℕ) (largest : ℕ) (limits : Capacity) (t : Turn) (w : World)
        → Stands first client largest limits w → ItsLineTakes client w → ItsLineTakes client (turned limits t w) }
    ensures connected { (client : List ℕ) (r : Receiver) (n birth : ℕ) (l : Line) (w : World) → ItsLineTakes client w
        → receiver_named client w ≡ Some r → r.line.number ≡ Some n → line_at n w.broker ≡ Some l
        → l.session ≡ Some birth → TakesAsAsked r.window l }
{}
