//! Qualities of service, compared by their numbers (MQTT 5.0, 3.8.4, 4.3).
ghost use Rattle.std.specs.Prelude.{◌≡◌, max, min};
ghost use Rattle.mqtt_base.specs.Service.{qos_number};

use mqtt_base::Qos;

/// The quality of a number; one above 2 counts as 2.
pub(crate) fn service_of(number: u8) -> Qos
    ensures { qos_number result ≡ min number 2 }
{
    match number {
        0 => Qos::AtMostOnce,
        1 => Qos::AtLeastOnce,
        _ => Qos::ExactlyOnce,
    }
}

/// The lesser of two.
pub(crate) fn lesser(one: Qos, other: Qos) -> Qos
    ensures { qos_number result ≡ min (qos_number one) (qos_number other) }
{
    match one {
        Qos::AtMostOnce => one,
        Qos::AtLeastOnce => match other {
            Qos::AtMostOnce => other,
            Qos::AtLeastOnce => one,
            Qos::ExactlyOnce => one,
        },
        Qos::ExactlyOnce => other,
    }
}

/// The greater of two.
pub(crate) fn greater(one: Qos, other: Qos) -> Qos
    ensures { qos_number result ≡ max (qos_number one) (qos_number other) }
{
    match one {
        Qos::AtMostOnce => other,
        Qos::AtLeastOnce => match other {
            Qos::AtMostOnce => one,
            Qos::AtLeastOnce => one,
            Qos::ExactlyOnce => other,
        },
        Qos::ExactlyOnce => one,
    }
}
