//! Laws of the ends of copies: why each came (3.1.2.4, 3.1.2.11, 3.3.2.3.3, 4.3).
ghost use Rattle.std.specs.Prelude.{List};
ghost use Rattle.mqtt_rules.specs.declared.step.Capacity.{Capacity};
ghost use Rattle.mqtt_world_model.specs.model.Run.{Turn};
ghost use Rattle.mqtt_world_model.specs.model.World.{World};
ghost use Rattle.mqtt_world_laws.specs.acceptance.Fair.{IsCounted, IsNew};
ghost use Rattle.mqtt_world_laws.specs.causes.Causes.{EachHasItsCause};
ghost use Rattle.mqtt_world_laws.specs.causes.Endings.{AreAllEnds};

/// Whatever happens, with any number of ends and strangers, lines lost, restarts and stops: each copy that ends stands
/// in its session's queue right before, and ends for one of these causes. It was taken: a PUBACK below 0x80 for a copy
/// of QoS 1 that was sent, or the PUBCOMP of one whose PUBREC was taken. It was refused: a PUBACK or PUBREC of 0x80 or
/// above for one that was sent. It waited until its Message Expiry Interval had passed. It is larger than its client
/// takes. Its session ended, by its time or by Clean Start. Or it waited in a full queue, and made room for another
/// (3.1.2.4, 3.1.2.11, 3.3.2.3.3, 4.3.2, 4.3.3).
pub fn each_end_has_its_cause()
    ensures causes { (limits : Capacity) (ts : List Turn) (w : World) → IsNew w → IsCounted limits ts w
        → EachHasItsCause limits ts w }
    ensures all { (limits : Capacity) (ts : List Turn) (w : World) → AreAllEnds limits ts w }
{}
