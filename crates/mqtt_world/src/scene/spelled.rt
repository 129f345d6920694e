//! What goes out of the world's broker is read as it was sent (MQTT 5.0, 2.1).
ghost use Rattle.mqtt_rules.specs.declared.step.Capacity.{Capacity as TheCapacity};
ghost use Rattle.mqtt_world.specs.scene.Events.{SpellsAll};

/// Each packet has a spelling that a broker sends, in a step on a lawful packet or with the code of a fault, which
/// began on lawful records whose packet identifiers in flight are from 1 and have two bytes, whatever it was asked
/// before, and whenever it opened again: so the ends get each packet from its bytes (2.1, 2.2.1, 4.1).
pub fn each_packet_is_read_as_it_was_sent()
    ensures { (limits : TheCapacity) → SpellsAll limits }
{}
