//! Laws of spellings (2.1, 4.13).

ghost use Rattle.std.specs.Prelude.{◌≡◌, ℕ, List};
ghost use Rattle.mqtt_packet.specs.declared.parts.fault.Fault.{Fault};
ghost use Rattle.mqtt_packet.specs.declared.codec.packet.Packet.{Packet};
ghost use Rattle.mqtt_packet.specs.codec.Packets.{Spells, Refusal, HasSpelling, shortest_of};

/// No frame spells two packets.
pub fn one_packet()
    ensures { (frame : List ℕ) (p q : Packet) → Spells p frame → Spells q frame → p ≡ q }
{}

/// The shortest spelling of a packet spells that packet, and no other: decoding what was encoded
/// gives the packet back.
pub fn round_trip()
    ensures spelled { (p : Packet) → HasSpelling p → Spells p (shortest_of p) }
    ensures only { (p q : Packet) → HasSpelling p → Spells q (shortest_of p) → q ≡ p }
{}
