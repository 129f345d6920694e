//! Values that are a few bits of a byte (3.1.2.6, 3.8.3.1).

ghost use Rattle.std.specs.Prelude.{◌≡◌};
ghost use Rattle.mqtt_packet.specs.parts.Bits.{qos_of};

use mqtt_base::Qos;

/// The quality of service of this number; 3 is none (3.1.2.6, 3.8.3.1). Takes no memory.
#[inline(always)]
pub fn qos_of(number: u8) -> Option<Qos>
    ensures { result ≡ qos_of number }
{
    match number {
        0 => Some(Qos::AtMostOnce),
        1 => Some(Qos::AtLeastOnce),
        2 => Some(Qos::ExactlyOnce),
        _ => None,
    }
}
